//! How requests end.

ghost use Rattle.std.specs.Prelude.{◌≡◌, ◌<◌, ◌≤◌, Some, None, Err, IfSome, true};
ghost use Rattle.exec_time.specs.WheelView.{wheel_of, room_of};
ghost use Rattle.exec_request.specs.Requests.{record_after};
ghost use Rattle.exec_waiters.specs.{States.{is_idle, is_flying, file_of}, Events.told_by_finish, Told.{HasPlaces, Tells}};
ghost use Rattle.exec_opens.specs.Opens.{account_in, with_account};
ghost use Rattle.exec_driver.specs.{Driving.{seen, request_at}, Steps.{ended, cancelled_at, told_by_cancel, unscheduled}};

use super::Driver;
use exec_base::error::Error;
use exec_opens::opens::Opens;
use exec_request::open_record::OpenRecord;
use exec_ring::ring::Ring;
use exec_time::wheel::{Tick, TimeoutWheel};
use exec_waiters::deferred::Deferred;
use exec_waiters::waiter_id::WaiterId;

impl<R: Ring + Drop, S: Drop, F: Drop> Driver<R, S, F> {
    ghost use Rattle.exec_waiters.specs.declared.waiter.Waiter.{Waiter as Asking};

    // Ends a request that has no operation so, with the record of its open.
    pub(super) fn end(
        &mut self,
        id: WaiterId,
        how: Result<(), Error>,
        opens: &mut Opens,
        deferred: &mut Deferred<S, F>,
    )
        requires idle { is_idle (request_at (seen self.old) id) ≡ true }
        requires room { HasPlaces deferred.old 1 }
        ensures ended { (w : Asking S F) → request_at (seen self.old) id ≡ Some w → seen self.new ≡ ended (seen self.old) id w how (account_in opens.old (file_of w.request)) }
        ensures told { (w : Asking S F) → request_at (seen self.old) id ≡ Some w → Tells deferred.old deferred.new (told_by_finish id.0 w how (account_in opens.old (file_of w.request))) }
        ensures opens { (w : Asking S F) → request_at (seen self.old) id ≡ Some w → opens.new ≡ with_account opens.old (file_of w.request) (record_after w.request how (account_in opens.old (file_of w.request))) }
    {
        let file = self.waiters.open_of(id);
        let mut account = opens.account(file);
        self.end_with(id, how, &mut account, deferred);
        opens.set_account(file, account);
    }

    // Ends a request that has no operation with this error: it is too late, or nobody waits for it. It is none that
    // changes a file, so no open is asked.
    pub(super) fn refuse(&mut self, id: WaiterId, error: Error, deferred: &mut Deferred<S, F>)
        requires idle { is_idle (request_at (seen self.old) id) ≡ true }
        requires room { HasPlaces deferred.old 1 }
        ensures ended { (w : Asking S F) → request_at (seen self.old) id ≡ Some w → seen self.new ≡ ended (seen self.old) id w (Err error) None }
        ensures told { (w : Asking S F) → request_at (seen self.old) id ≡ Some w → Tells deferred.old deferred.new (told_by_finish id.0 w (Err error) None) }
    {
        self.end_with(id, Err(error), &mut None, deferred);
    }

    // Ends a request that has no operation so, with this record of its open.
    fn end_with(
        &mut self,
        id: WaiterId,
        how: Result<(), Error>,
        account: &mut Option<OpenRecord>,
        deferred: &mut Deferred<S, F>,
    )
        requires idle { is_idle (request_at (seen self.old) id) ≡ true }
        requires room { HasPlaces deferred.old 1 }
        ensures ended { (w : Asking S F) → request_at (seen self.old) id ≡ Some w → seen self.new ≡ ended (seen self.old) id w how account.old }
        ensures told { (w : Asking S F) → request_at (seen self.old) id ≡ Some w → Tells deferred.old deferred.new (told_by_finish id.0 w how account.old) }
        ensures account { (w : Asking S F) → request_at (seen self.old) id ≡ Some w → account.new ≡ record_after w.request how account.old }
    {
        let tick = self.waiters.finish(id, how, account, deferred);
        unschedule(&mut self.wheel, tick);
        self.lists.withdraw(id);
    }

    // Cancels a request: one in flight once, and one that has no operation ends.
    pub(super) fn cancel(&mut self, id: WaiterId, deferred: &mut Deferred<S, F>)
        requires room { HasPlaces deferred.old 1 }
        ensures cancelled { seen self.new ≡ cancelled_at (seen self.old) id }
        ensures told { Tells deferred.old deferred.new (told_by_cancel id (request_at (seen self.old) id)) }
    {
        if self.waiters.is_in_flight(id) {
            self.ask_cancel(id);
        } else if self.waiters.is_pending(id) {
            self.refuse(id, Error::Timeout, deferred);
        }
    }

    // Asks for the cancel of a request in flight, where nobody asked for that before.
    fn ask_cancel(&mut self, id: WaiterId)
        requires flies { is_flying (request_at (seen self.old) id) ≡ true }
        ensures { seen self.new ≡ cancelled_at (seen self.old) id }
    {
        let tick = self.waiters.target_tick(id);
        if self.waiters.cancel(id) {
            unschedule(&mut self.wheel, tick);
            self.lists.cancel(id);
        }
    }
}

/// An entry of the wheel is active no more, where one is named. The caller must name one that is.
fn unschedule(wheel: &mut TimeoutWheel, tick: Option<Tick>)
    requires active { IfSome tick (λ t. 0 < (wheel_of wheel.old).active t) }
    ensures wheel { wheel_of wheel.new ≡ unscheduled (wheel_of wheel.old) tick }
    ensures room { room_of wheel.old ≤ room_of wheel.new }
{
    if let Some(tick) = tick {
        wheel.remove(tick);
    }
}
