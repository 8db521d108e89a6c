//! The driver of a worker.
//!
//! A request is admitted with all the memory that it will need. Until it is over it is in one of these places:
//!
//! ```text
//!            ┌─ gated ───grant──┐
//!   admit ──▶│                  ▼                        ┌──────────── goes on ────────────┐
//!            └───────────── queued ──stage──▶ in flight ─┴─reap──▶ over ──▶ told, let go
//! ```
//!
//! Gated is a durable request without the permit of its open. What is queued is staged in order of coming, one that
//! goes on at the end, while fewer are in flight than the ring has entries. From `stage` until the completion of its
//! operation was reaped the kernel may use what a request owns, so nothing else ends it: a cancel that is
//! acknowledged does not.
//!
//! A deadline is enrolled in the wheel once, at the service after its admission. What is due, or what nobody waits for
//! any more, is cancelled once: a queued request ends so at once; for one in flight a cancel is staged, once, and its
//! completion says how it ended. Writes and syncs are never cancelled.
//!
//! Each list has requests of one place and no other: who leaves a place is taken out of its list at once. `IsSound`
//! (`specs/Sound.antt`) says this. What is pending is read off the lists, so who comes to a place is put into its list
//! by the step that brings it there: each call says so, since what it does to the whole is one
//! function of `specs/Steps.antt`, or one record where a part answers one of several things.
//!
//! A worker makes the calls of `staging`, `timing` and `reaping` step by step, in the order in which `turns` makes them.
//! Each says what the next step is for by the tests beside it. Only `new` and `admit` take memory. Moments are in
//! nanoseconds.

ghost use Rattle.std.specs.Prelude.{◌≡◌, ◌+◌, ◌==◌, ◌&&◌, not, IfOk, IfErr, IsTrue, IsSome, ◌↔◌};
ghost use Rattle.exec_ring.specs.{Kernels.{with_wake, is_quiet}, Rings.fresh as fresh_ring, Stores.Same};
ghost use Rattle.exec_time.specs.{Layouts.slots_of, Wheel.{IsSettled, next_moment}};
ghost use Rattle.exec_waiters.specs.States.{pending_count};
ghost use Rattle.exec_driver.specs.{Driving.{seen, has_pending, may_stage_one, is_full}, Punctual.IsPunctual, Steps.IsFresh};
ghost use Rattle.exec_lists.specs.Lists.{has_first};

use exec_lists::lists::Lists;
use exec_request::window::Window;
use exec_ring::ring::Ring;
use exec_ring::store::Store;
use exec_time::wheel::TimeoutWheel;
use exec_waiters::waiters::Waiters;
use std::alloc::Global;
use std::marker::Model;

mod admitting;
mod ending;
mod observing;
mod reaping;
mod simulated;
mod staging;
mod timing;
mod turns;

pub use reaping::Reaped;
pub use staging::Granted;
pub use timing::Enrolled;

/// The requests of a worker with their ring. `R` is the ring, `S` sends the outcome of a detached sync, `F` sends an
/// output. Ports `Driver`.
#[derive(Drop)]
pub struct Driver<R: Ring, S, F> {
    waiters: Waiters<S, F>,
    ring: R,
    wheel: TimeoutWheel,
    // The requests in each place.
    lists: Lists,
    // How many cancels were staged and not acknowledged.
    cancels_under_way: usize,
    // Whether the wake poll was staged and wasn't ended.
    armed: bool,
    // How many requests may be in flight: as many as the submission queue has entries.
    limit: usize,
    // For how many entries the ring has room until they are reaped.
    places: usize,
}

impl<R: Ring, S, F> Model for Driver<R, S, F> {
    ghost use Rattle.exec_time.specs.WheelView.{room_of};
    ghost use Rattle.exec_driver.specs.Driving.{Parts, seen};
    ghost use Rattle.exec_driver.specs.Sound.{IsHeld};

    ghost Value = { Parts S F };

    ghost view = { λ d. record {
      requests = d.waiters;
      timeouts = d.wheel;
      ring = R.state d.ring;
      landings = R.landings d.ring;
      lists = d.lists;
      cancels_under_way = d.cancels_under_way;
      armed = d.armed;
    } };

    ghost invariant = { λ d. IsHeld (seen (record {
      requests = d.waiters;
      timeouts = d.wheel;
      ring = R.state d.ring;
      landings = R.landings d.ring;
      lists = d.lists;
      cancels_under_way = d.cancels_under_way;
      armed = d.armed;
    })) (room_of d.wheel) d.limit d.places };
}

impl<R: Ring + Drop, S: Drop, F: Drop> Driver<R, S, F> {
    /// A driver without requests, over this ring. No deadline may be further ahead than `horizon`, and each is rounded up
    /// to a `tick` from the moment `now` on. The caller must have a ring in which nothing happened, and a layout that
    /// `TimeoutWheel::validate_layout` takes. Err with the ring only for want of memory. The store stays as it is.
    pub fn new(
        alloc: Global,
        mut ring: R,
        horizon: u64,
        tick: u64,
        now: u64,
        store: &mut Store,
    ) -> Result<Self, R>
        requires fresh { R.state ring ≡ fresh_ring (R.state ring).size }
        requires layout { IsSome (slots_of horizon tick) }
        ensures made { IfOk result (λ d. IsFresh (seen d) (R.state ring).size horizon tick now) }
        ensures punctual { IfOk result (λ d. IsPunctual (seen d)) }
        ensures ring { IfErr result (λ back. R.state back ≡ R.state ring) }
        ensures store { Same store.old store.new }
    {
        let limit = ring.room();
        let Ok(wheel) = TimeoutWheel::new(alloc, horizon, tick, now) else {
            return Err(ring);
        };
        let Ok(waiters) = Waiters::new(alloc, 0) else {
            return Err(ring);
        };
        if ring.reserve(alloc, Window::wake(), store).is_err() {
            return Err(ring);
        }
        Ok(Driver {
            waiters,
            ring,
            wheel,
            lists: Lists::new(alloc),
            cancels_under_way: 0,
            armed: false,
            limit,
            places: 1,
        })
    }

    /// How many requests are not over. Outputs that are kept don't count.
    pub fn len(&self) -> usize
        ensures { result ≡ pending_count (seen self.now).requests }
    {
        self.waiters.len()
    }

    /// Whether all requests are over.
    pub fn is_empty(&self) -> bool
        ensures { result ≡ (pending_count (seen self.now).requests == 0) }
    {
        self.waiters.is_empty()
    }

    // Whether requests stand though a service left its last enter out.
    fn is_put_off(&self, enters: bool) -> bool
        ensures { result ≡ (not enters && not (pending_count (seen self.now).requests == 0)) }
    {
        !enters && !self.is_empty()
    }

    /// Whether a request is to be enrolled, cancelled or staged, and could be. What is staged isn't pending.
    pub fn has_pending_submissions(&self) -> bool
        ensures { result ≡ has_pending (seen self.now) }
    {
        self.lists.has_enrolments() || self.lists.has_cancels() || self.may_stage()
    }

    /// Whether a queued request may be staged: fewer are in flight than the ring has entries.
    pub fn may_stage(&self) -> bool
        ensures { result ≡ may_stage_one (seen self.now) }
    {
        self.lists.has_queued() && self.waiters.in_flight() < self.limit
    }

    /// Whether the cancel of a request in flight is to be staged.
    pub fn has_cancels(&self) -> bool
        ensures { result ≡ has_first (seen self.now).lists.cancels }
    {
        self.lists.has_cancels()
    }

    /// How many entries the submission queue has room for; a service wants one at least.
    pub fn ring_size(&self) -> usize
        ensures { result ≡ (seen self.now).ring.size }
    {
        self.limit
    }

    /// Whether the submission queue has no room.
    pub fn is_full(&self) -> bool
        ensures { result ≡ is_full (seen self.now) }
    {
        self.ring.room() == 0
    }

    /// Whether the wake poll must be staged before the worker may wait on its ring.
    pub fn needs_wake_poll(&self) -> bool
        ensures { result ≡ not (seen self.now).armed }
    {
        !self.armed
    }

    /// Whether a completion is there: of an operation, of a cancel, or a wake.
    pub fn has_completion(&self) -> bool
        ensures { result ≡ not (is_quiet (seen self.now).ring) }
    {
        !self.ring.is_quiet()
    }

    /// Whether a deadline has come whose request was not told so.
    pub fn has_due(&self) -> bool
        ensures { result ≡ has_first (seen self.now).lists.due }
    {
        self.lists.has_due()
    }

    /// Whether a deadline is to be enrolled.
    pub fn has_enrolments(&self) -> bool
        ensures { result ≡ has_first (seen self.now).lists.enrolments }
    {
        self.lists.has_enrolments()
    }

    /// Whether each whose deadline has come was told so, so that the wheel may go on.
    pub fn is_settled(&self) -> bool
        ensures { IsTrue result ↔ IsSettled (seen self.now).wheel }
    {
        self.wheel.is_settled()
    }

    /// The earliest moment at which a deadline comes, as the wheel rounds it. None where none is enrolled. The caller
    /// must have told all requests whose deadline has come.
    pub fn next_deadline(&self) -> Option<u64>
        requires { IsSettled (seen self.now).wheel }
        ensures { result ≡ next_moment (seen self.now).wheel }
    {
        self.wheel.next_deadline()
    }

    /// Raises a wake in the ring.
    pub fn raise(&mut self)
        ensures raised { seen self.new ≡ record (seen self.old) { ring = with_wake (seen self.old).ring; landings = (seen self.new).landings } }
        ensures punctual { IsPunctual (seen self.old) → IsPunctual (seen self.new) }
    {
        self.ring.raise();
    }
}
