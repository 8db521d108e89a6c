//! Deadlines: what is due, and what is to be enrolled.

ghost use Rattle.std.specs.Prelude.{◌≡◌, [], ◌<◌, ◌≤◌, ◌+◌, Some, None, Err, IfSome, IfNone};
ghost use Rattle.exec_time.specs.{Wheel.IsSettled, WheelView.{wheel_of, room_of}};
ghost use Rattle.exec_waiters.specs.{States.{waiter_at, pending_count}, Told.{HasPlaces, Tells}};
ghost use Rattle.exec_lists.specs.{Listed.IsListed, Lists.first_of};
ghost use Rattle.exec_driver.specs.{Driving.{seen, request_at, is_enrolled}, Punctual.{IsPunctual, TellsDeadlines}, Steps.{advanced_to, all_due, fallen_due, expired, told_by_cancel, tick_for, in_time, Enrols}};

use super::Driver;
use exec_base::error::{Cause, Error};
use exec_lists::lists::Lists;
use exec_ring::ring::Ring;
use exec_time::wheel::{Span, Tick, TimeoutWheel};
use exec_waiters::deferred::Deferred;
use exec_waiters::waiter_id::WaiterId;
use exec_waiters::waiters::Waiters;

/// What came of an enrolment.
#[derive(Clone, Copy, Debug, PartialEq, Eq)]
pub struct Enrolled {
    /// Of which request.
    pub id: WaiterId,
    /// How it ended, where its deadline has passed or is beyond the wheel. None where it is enrolled.
    pub ended: Option<Error>,
}

impl<R: Ring + Drop, S: Drop, F: Drop> Driver<R, S, F> {
    /// Goes on to the moment `now`: the requests whose deadline has come are due, in the order of the wheel. The caller
    /// must have told all that were due before.
    pub fn advance(&mut self, now: u64)
        requires settled { IsSettled (seen self.old).wheel }
        ensures advanced { seen self.new ≡ advanced_to (seen self.old) now }
        ensures punctual { IsPunctual (seen self.old) → IsPunctual (seen self.new) }
    {
        let _count = self.wheel.advance(now);
        drain(&self.waiters, &mut self.wheel, &mut self.lists);
    }

    /// Tells the next request that its deadline has come: one that is queued ends with `Timeout`, one in flight is
    /// cancelled. None where no request is due. The caller must have made room in what is to be told.
    pub fn expire(&mut self, deferred: &mut Deferred<S, F>) -> Option<WaiterId>
        requires room { HasPlaces deferred.old 1 }
        ensures first { result ≡ first_of (seen self.old).lists.due }
        ensures expired { IfSome result (λ id. seen self.new ≡ expired (seen self.old) id) }
        ensures told { IfSome result (λ id. Tells deferred.old deferred.new (told_by_cancel id (request_at (seen self.old) id))) }
        ensures same { IfNone result ((seen self.new ≡ seen self.old) × (deferred.new ≡ deferred.old)) }
        ensures punctual { IsPunctual (seen self.old) → IsPunctual (seen self.new) }
    {
        let id = self.lists.next_due()?;
        self.cancel(id, deferred);
        Some(id)
    }

    /// Enrols the deadline of the request that was admitted first of those whose is to be. It ends with `Timeout`
    /// where its deadline isn't after `now`, and with `Io(InvalidInput)` where it is beyond the wheel. None where no
    /// deadline is to be enrolled. The caller must have told all that is due, and made room in what is to be told.
    pub fn enrol(&mut self, now: u64, deferred: &mut Deferred<S, F>) -> Option<Enrolled>
        requires settled { IsSettled (seen self.old).wheel }
        requires room { HasPlaces deferred.old 1 }
        ensures first { IfSome result (λ e. first_of (seen self.old).lists.enrolments ≡ Some e.id) }
        ensures none { IfNone result (first_of (seen self.old).lists.enrolments ≡ None) }
        ensures enrolled { IfSome result (λ e. Enrols (seen self.old) (seen self.new) deferred.old deferred.new e.id e.ended now) }
        ensures same { IfNone result ((seen self.new ≡ seen self.old) × (deferred.new ≡ deferred.old)) }
        ensures punctual { IsPunctual (seen self.old) → IsPunctual (seen self.new) }
    {
        let id = self.lists.next_enrolment()?;
        let Some(deadline) = self.waiters.deadline(id) else {
            unreachable!()
        };
        match tick_for(&self.wheel, deadline, now) {
            Ok(tick) => {
                self.wheel.schedule(id.0, tick);
                self.waiters.set_deadline(id, tick);
                Some(Enrolled { id, ended: None })
            }
            Err(error) => {
                self.refuse(id, error, deferred);
                let ended = Some(error);
                Some(Enrolled { id, ended })
            }
        }
    }

    /// Does nothing; for proofs: once all that is due was told the wheel may go on, and the first tick ahead is that of a
    /// request's deadline.
    #[tactic(auto, using(crate::proofs::Punctual::tells_deadlines, crate::proofs::Punctual::reach_of))]
    pub fn tells_deadlines(&self)
        ensures { TellsDeadlines (seen self.now) }
    {
        let _lists = &self.lists;
    }
}

/// The tick of a wheel at which a deadline comes, or how its request ends: it is too late, or the deadline is beyond the
/// wheel.
fn tick_for(wheel: &TimeoutWheel, deadline: u64, now: u64) -> Result<Tick, Error>
    ensures { result ≡ tick_for (wheel_of wheel.now) deadline now }
{
    match wheel.checked_target_tick(deadline, now) {
        Ok(Some(tick)) => in_time(wheel, tick),
        Ok(None) => Err(Error::Timeout),
        Err(Span) => Err(Error::Io(Cause::InvalidInput)),
    }
}

/// This tick, unless its moment is beyond what 64 bits can say. The caller must have one ahead, within the wheel.
fn in_time(wheel: &TimeoutWheel, tick: Tick) -> Result<Tick, Error>
    requires ahead { (wheel_of wheel.now).current < tick }
    requires span { tick < (wheel_of wheel.now).current + (wheel_of wheel.now).slots }
    ensures { result ≡ in_time (wheel_of wheel.now) tick }
{
    if wheel.is_ahead(tick) {
        Ok(tick)
    } else {
        Err(Error::Io(Cause::InvalidInput))
    }
}

/// All that came out of the wheel is due, in the order in which it came out. The caller must have made room for all
/// requests that aren't over, and have no other in the list.
fn drain<S: Drop, F: Drop>(waiters: &Waiters<S, F>, wheel: &mut TimeoutWheel, lists: &mut Lists)
    requires listed { IsListed is_enrolled waiters.now lists.old.due }
    requires room { pending_count waiters.now ≤ lists.old.room }
    ensures wheel { wheel_of wheel.new ≡ record (wheel_of wheel.old) { ready = [] } }
    ensures due { lists.new ≡ all_due waiters.now (wheel_of wheel.old).ready lists.old }
    ensures listed { IsListed is_enrolled waiters.now lists.new.due }
    ensures wheel_room { room_of wheel.old ≤ room_of wheel.new }
{
    'out: while let Some(id) = wheel.drained() {
        fall_due(waiters, lists, WaiterId(id));
    }
}

/// An id that came out of the wheel is due, where its request still has its deadline there. The caller must have made
/// room for all requests that aren't over, and have no other in the list.
fn fall_due<S: Drop, F: Drop>(waiters: &Waiters<S, F>, lists: &mut Lists, id: WaiterId)
    requires listed { IsListed is_enrolled waiters.now lists.old.due }
    requires room { pending_count waiters.now ≤ lists.old.room }
    ensures { lists.new ≡ fallen_due id (waiter_at waiters.now id.0) lists.old }
{
    if waiters.target_tick(id).is_some() {
        lists.fall_due(id);
    }
}
