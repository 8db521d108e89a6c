//! The names of requests and of sleepers as keys of registrations.

ghost use Rattle.std.specs.Prelude.{◌≡◌, false, true};
ghost use Rattle.exec_base.specs.Slab.{value_at};
ghost use Rattle.exec_registration.specs.{Looks.{without_output, with_task, awake_by}, declared.mail.{Cancel.Cancel as cancel, Forward.Forward as forward}};
ghost use Rattle.exec_time.specs.Sleepers.{is_forwarded, observation};
ghost use Rattle.exec_waiters.specs.{Events.seen_by, States.may_be_seen};

use crate::mail::{Cancel, Forward};
use crate::registration::Key;
use exec_base::task_no::TaskNo;
use exec_driver::home::Home;
use exec_request::output::RequestOutput;
use exec_ring::ring::Ring;
use exec_time::timers::{Observation, TimerId};
use exec_waiters::waiter_id::WaiterId;

impl<S: Drop, F: Drop> Key<S, F> for WaiterId {
    type Output = RequestOutput;

    type Sender = F;

    ghost may_look = { λ id h. may_be_seen (value_at h.driver.requests id.0) ≡ true };

    ghost found = { λ id task h. seen_by task (value_at h.driver.requests id.0) };

    ghost taken = { λ id h. without_output id h };

    ghost awaited = { λ id task h. with_task id task h };

    ghost forward_by = { λ id sender. forward.Waiter id sender };

    ghost cancel_of = { λ id. cancel.Waiter id };

    fn observe<R: Ring + Drop>(
        self,
        waker: TaskNo,
        home: &mut Home<R, S, F>,
    ) -> Observation<RequestOutput> {
        home.driver.observe(self, waker)
    }

    fn refresh<R: Ring + Drop>(self, waker: TaskNo, home: &mut Home<R, S, F>) {
        let _displaced = home.driver.set_waker(self, waker);
    }

    fn forward(self, sender: F) -> Forward<S, F> {
        Forward::Waiter(self, sender)
    }

    fn cancel(self) -> Cancel {
        Cancel::Waiter(self)
    }
}

impl<S: Drop, F: Drop> Key<S, F> for TimerId {
    type Output = ();

    type Sender = S;

    ghost may_look = { λ id h. is_forwarded (value_at h.timers id.0) ≡ false };

    ghost found = { λ id task h. observation task (value_at h.timers id.0) };

    ghost taken = { λ id h. h };

    ghost awaited = { λ id task h. record h { timers = awake_by h.timers id task (value_at h.timers id.0) } };

    ghost forward_by = { λ id sender. forward.Timer id sender };

    ghost cancel_of = { λ id. cancel.Timer id };

    fn observe<R: Ring + Drop>(self, waker: TaskNo, home: &mut Home<R, S, F>) -> Observation<()> {
        home.timers.observe(self, waker)
    }

    fn refresh<R: Ring + Drop>(self, waker: TaskNo, home: &mut Home<R, S, F>) {
        let _displaced = home.timers.refresh(self, waker);
    }

    fn forward(self, sender: S) -> Forward<S, F> {
        Forward::Timer(self, sender)
    }

    fn cancel(self) -> Cancel {
        Cancel::Timer(self)
    }
}
