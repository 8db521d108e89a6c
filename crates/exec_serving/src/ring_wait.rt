//! The wait of a worker that has requests: on its ring.
//!
//! The ring bit goes into the wake word, then the kernel takes what is staged, then the ring is looked at again, and only
//! then does the worker sleep. Whoever signals it after the bit went in raises a wake in its ring; whatever landed before
//! the last look is found by it. A worker that may not wait, since something is to be staged or the word had a latch or
//! another batch, serves first.

ghost use Rattle.exec_invariants.specs.{Sound.SoundAt, Works.Steps, Raises.Enters};
ghost use Rattle.std.specs.Prelude.{◌<◌, ◌≡◌, ◌^◌, length, if◌then◌else◌};
ghost use Rattle.exec_moves.specs.{State.word_of, Wait.{arm_ring, disarmed}};
ghost use Rattle.exec_ring.specs.Kernels.{is_quiet};
ghost use Rattle.exec_parts.specs.{Pooled.OfChair, View.{driver_of, desk_of, things_of}, Tests.{after_enter_of, after_wait_of, HasToldDue, TestsRing}, Serving.AreKnown, Things.{Makes, Goes, TurnsWord}};
ghost use Rattle.exec_serving.specs.Waits.{Sleeps};

use crate::service::enter;
use exec_machine::event::Event;
use exec_machine::state::Rest;
use exec_moves::idling::{AfterWait, InRingWait, Stay};
use exec_moves::place::{AfterService, Place};
use exec_parts::parts::shared::Shared;
use exec_parts::parts::worker::Worker;
use exec_parts::scripted::Scripted;
use exec_parts::ways::serve;
use exec_words::word::WaitTarget;

/// Takes the next step of a wait on the ring. The caller must know that the worker is at this place and sound with what
/// all share.
pub fn wait_on_ring<B: Scripted + Drop>(
    worker: &mut Worker,
    at: InRingWait,
    stay: Stay,
    shared: &mut Shared<B>,
) -> Event
    requires sound { SoundAt (Place.RingWait at stay) worker.old shared.old }
    ensures steps { Steps B.left B.spot worker.old shared.old result worker.new shared.new }
{
    match at {
        InRingWait::EnterFullRing => enter_full_ring(worker, stay, shared),
        InRingWait::TestRing => test_ring(worker, stay),
        InRingWait::ArmRing => arm_ring(worker, stay, shared),
        InRingWait::EnterRing => enter_ring(worker, stay, shared),
        InRingWait::SleepOnRing => sleep_on_ring(worker, stay, shared),
        InRingWait::DisarmRing { next } => disarm_ring(worker, stay, next, shared),
    }
}

/// Sleeps where still nothing is there and no deadline is due.
fn sleep_on_ring<B: Scripted + Drop>(
    worker: &mut Worker,
    stay: Stay,
    shared: &mut Shared<B>,
) -> Event
    requires sound { SoundAt (Place.RingWait InRingWait.SleepOnRing stay) worker.old shared.old }
    ensures steps { Steps B.left B.spot worker.old shared.old result worker.new shared.new }
{
    let next = AfterWait::Begin;
    worker.place = Place::RingWait(InRingWait::DisarmRing { next }, stay);
    worker.take_raises(&mut shared.seats[worker.index]);
    if worker.home.driver.has_completion() {
        return Event::Turn;
    }
    sleep(worker, shared)
}

/// Enters a full submission queue. The caller must know that the worker has a seat, and that each request that it
/// staged is there.
fn enter_full_ring<B: Drop>(worker: &mut Worker, stay: Stay, shared: &mut Shared<B>) -> Event
    requires there { worker.old.index < length shared.old.seats.items }
    requires known { AreKnown worker.old.names.staged.items shared.old.requests.items }
    ensures enters { Enters worker.old shared.old result (record worker.new { place = worker.old.place }) shared.new }
    ensures goes { worker.new.place ≡ Place.RingWait InRingWait.TestRing stay }
{
    let event = enter(worker, shared);
    worker.place = Place::RingWait(InRingWait::TestRing, stay);
    event
}

/// Tests for submissions, and stages the wake poll where that must be. Without room for it the worker serves.
fn test_ring(worker: &mut Worker, stay: Stay) -> Event
    ensures event { result ≡ Event.Turn }
    ensures tests { TestsRing stay worker.old worker.new }
{
    let after = after_ring_wait(worker, stay, AfterWait::Serve);
    let driver = &mut worker.home.driver;
    worker.place = if driver.has_pending_submissions() || !driver.stage_wake_poll() {
        after
    } else {
        Place::RingWait(InRingWait::ArmRing, stay)
    };
    Event::Turn
}

/// Puts the ring bit into the wake word. The caller must know that the worker has a seat, that its wake word has no
/// wait bit, and that its count of batches is below 2^29.
fn arm_ring<B: Drop>(worker: &mut Worker, stay: Stay, shared: &mut Shared<B>) -> Event
    requires there { worker.old.index < length shared.old.seats.items }
    requires unarmed { OfChair worker.old.index shared.old (λ chair. chair.mailbox.waker.target ≡ WaitTarget.None) }
    requires processed { worker.old.processed < 2 ^ 29 }
    ensures makes { Makes (arm_ring stay (desk_of worker.old)
        (word_of (things_of shared.old) worker.old.index)) result worker.new }
    ensures goes { Goes worker.old worker.new }
    ensures word { TurnsWord worker.old.index shared.old shared.new
        (arm_ring stay (desk_of worker.old) (word_of (things_of shared.old) worker.old.index)).thing }
{
    let word = &mut shared.seats[worker.index].mailbox.waker;
    let found = word.arm(WaitTarget::Ring);
    worker.place = Place::RingWait(after_arming(found.still_idle(worker.processed)), stay);
    Event::Turn
}

/// Enters, and where nothing is there goes on to sleep. After an enter that took nothing it doesn't sleep. The
/// caller must know that the worker has a seat, and that each request that it staged is there.
fn enter_ring<B: Drop>(worker: &mut Worker, stay: Stay, shared: &mut Shared<B>) -> Event
    requires there { worker.old.index < length shared.old.seats.items }
    requires known { AreKnown worker.old.names.staged.items shared.old.requests.items }
    ensures enters { Enters worker.old shared.old result (record worker.new { place = worker.old.place }) shared.new }
    ensures goes { worker.new.place ≡ after_enter_of result (is_quiet (driver_of worker.new).ring) stay }
{
    let event = enter(worker, shared);
    worker.place = after_enter(worker, event, stay);
    event
}

/// What follows the enter of a wait.
fn after_enter(worker: &Worker, event: Event, stay: Stay) -> Place
    ensures { result ≡ after_enter_of event (is_quiet (driver_of worker.now).ring) stay }
{
    let next = match event {
        Event::Enter if !worker.home.driver.has_completion() => InRingWait::SleepOnRing,
        _ => InRingWait::DisarmRing {
            next: AfterWait::Begin,
        },
    };
    Place::RingWait(next, stay)
}

/// Sleeps until the first moment at which something is due, unless that has come. The caller must have told each
/// request whose deadline has come, and know that any other comes out of the wheel at its tick, and that the worker
/// has a seat.
pub(crate) fn sleep<B: Drop>(worker: &mut Worker, shared: &mut Shared<B>) -> Event
    requires told { HasToldDue worker.old }
    requires there { worker.old.index < length shared.old.seats.items }
    ensures sleeps { Sleeps worker.old shared.old result shared.new }
    ensures same { worker.new ≡ worker.old }
{
    let until = worker.next_moment();
    let rest = match until {
        Some(moment) if moment <= shared.clock => return Event::Turn,
        Some(moment) => Rest::Until(moment),
        None => Rest::Forever,
    };
    shared.seats[worker.index].rest = rest;
    Event::Sleep { until }
}

/// Takes the wait bits out of the wake word. The caller must know that the worker has a seat.
fn disarm_ring<B: Drop>(
    worker: &mut Worker,
    stay: Stay,
    next: AfterWait,
    shared: &mut Shared<B>,
) -> Event
    requires there { worker.old.index < length shared.old.seats.items }
    ensures event { result ≡ Event.Turn }
    ensures goes { worker.new ≡ record worker.old { place = after_wait_of stay next worker.old } }
    ensures word { TurnsWord worker.old.index shared.old shared.new (disarmed (word_of (things_of shared.old) worker.old.index)) }
{
    let _found = shared.seats[worker.index].mailbox.waker.disarm();
    worker.place = after_ring_wait(worker, stay, next);
    Event::Turn
}

/// What follows a wait on the ring. A closing worker has no bit to withdraw, and serves again.
fn after_ring_wait(worker: &Worker, stay: Stay, next: AfterWait) -> Place
    ensures { result ≡ after_wait_of stay next worker.now }
{
    match stay {
        Stay::Turn => worker.after_waiting(next),
        Stay::Closing => serve(AfterService::Finish),
    }
}

/// What follows the arming: the enter, where the word was as it was left.
fn after_arming(idle: bool) -> InRingWait
    ensures { result ≡ (if idle then InRingWait.EnterRing else InRingWait.DisarmRing AfterWait.Serve) }
{
    if idle {
        InRingWait::EnterRing
    } else {
        InRingWait::DisarmRing {
            next: AfterWait::Serve,
        }
    }
}
