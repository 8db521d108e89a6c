//! What goes into the submission queue: cancels first, then requests that have what they need, then the wake poll.

ghost use Rattle.std.specs.Prelude.{◌≡◌, ◌<◌, not, ◌||◌, Some, None, IfSome, IfNone, true, false, if◌then◌else◌};
ghost use Rattle.exec_ring.specs.Kernels.{answer_of_enter, MayAllLand, all_taken};
ghost use Rattle.exec_waiters.specs.{States.{file_of}, Told.{HasPlaces}};
ghost use Rattle.exec_opens.specs.Opens.{account_in, holder_at};
ghost use Rattle.exec_driver.specs.{Driving.{seen, request_at, is_full, may_stage_one}, Punctual.IsPunctual, Placed.{ListsRequests, HasDeadlines, FliesPermitted}, Steps.{lowest_gate, lower, granted, is_turn_of, Grants, cancel_staged, StagesOne, poll_staged, entered, with_landings}};
ghost use Rattle.exec_lists.specs.Lists.{has_first, first_of};

use super::Driver;
use exec_base::error::Error;
use exec_opens::opens::{Opens, WaiterKey};
use exec_request::window::Window;
use exec_ring::completion::{CANCEL_USER_DATA, WAKE_USER_DATA};
use exec_ring::ring::{Entered, Ring};
use exec_waiters::deferred::Deferred;
use exec_waiters::waiter_id::WaiterId;

/// A request that was granted the permit of its open.
#[derive(Clone, Copy, Debug, PartialEq, Eq)]
pub struct Granted {
    /// Which.
    pub id: WaiterId,
    /// How it ended at once, and gives the permit up by `Opens::leave`. None where it is queued.
    pub ended: Option<Result<(), Error>>,
}

impl<R: Ring + Drop, S: Drop, F: Drop> Driver<R, S, F> {
    ghost use Rattle.exec_waiters.specs.declared.waiter.Waiter.{Waiter as Asking};

    /// The open with the least number, from this number on, at whose gate a request of this worker waits.
    pub fn next_gate(&self, from: u32) -> Option<u32>
        ensures { result ≡ lowest_gate from (seen self.now).requests (seen self.now).lists.gated None }
    {
        let gated = self.lists.gated();
        let mut least = None;
        'gates: for place in 0..gated.len() {
            let file = self.waiters.durability(gated[place]);
            least = lower(least, file, from);
        }
        least
    }

    /// Grants the permit of an open to a request of this worker that holds its gate and wasn't granted it. It ends at
    /// once with the failure that the open keeps, or well where it is a sync that has nothing to make durable; else it
    /// is queued. None where another holds the gate, or was granted the permit before. The caller must lend the opens,
    /// have made room in what is to be told, and name the worker by the number under which its requests joined (`join`).
    pub fn grant(
        &mut self,
        worker: u32,
        file: u32,
        opens: &mut Opens,
        deferred: &mut Deferred<S, F>,
    ) -> Option<Granted>
        requires room { HasPlaces deferred.old 1 }
        ensures granted { IfSome result (λ g. Grants (seen self.old) (seen self.new) opens.old opens.new deferred.old deferred.new worker file g) }
        ensures none { IfNone result (is_turn_of worker (seen self.old).lists (holder_at opens.old file) ≡ false) }
        ensures same { IfNone result ((seen self.new ≡ seen self.old) × (opens.new ≡ opens.old) × (deferred.new ≡ deferred.old)) }
        ensures punctual { IsPunctual (seen self.old) → IsPunctual (seen self.new) }
    {
        let WaiterKey { worker: home, id } = opens.holder(file)?;
        if home != worker || !self.lists.is_gated(id) {
            return None;
        }
        let account = opens.account(Some(file));
        let ended = self.waiters.acquire_durability(id, &account);
        self.lists.ungate(id);
        match ended {
            Some(ended) => self.end(id, ended, opens, deferred),
            None => self.lists.queue(id),
        }
        Some(Granted { id, ended })
    }

    /// Does nothing; for proofs: a durable request whose operation is under way was granted its permit.
    #[tactic(auto, using(crate::proofs::Granting::flies_permitted))]
    pub fn flies_permitted(&self)
        ensures { FliesPermitted (seen self.now) }
    {
        let _lists = &self.lists;
    }

    /// Does nothing; for proofs: each list has requests of its place, which aren't over.
    #[tactic(auto, using(crate::proofs::Granting::lists_requests))]
    pub fn lists_requests(&self)
        ensures { ListsRequests (seen self.now) }
    {
        let _lists = &self.lists;
    }

    /// Does nothing; for proofs: a request whose deadline stands in the wheel has one.
    #[tactic(auto, using(crate::proofs::Granting::has_deadlines))]
    pub fn has_deadlines(&self)
        ensures { HasDeadlines (seen self.now) }
    {
        let _lists = &self.lists;
    }

    /// Stages the cancel of the request that asked for it first. None where there is none. The caller must know that
    /// the submission queue has room.
    pub fn stage_cancel(&mut self) -> Option<WaiterId>
        requires room { is_full (seen self.old) ≡ false }
        ensures first { result ≡ first_of (seen self.old).lists.cancels }
        ensures staged { IfSome result (λ id. seen self.new ≡ with_landings (seen self.new) (cancel_staged (seen self.old) id)) }
        ensures same { IfNone result (seen self.new ≡ seen self.old) }
        ensures punctual { IsPunctual (seen self.old) → IsPunctual (seen self.new) }
    {
        let id = self.lists.next_cancel()?;
        self.ring
            .stage(Window::cancel(id.user_data()), CANCEL_USER_DATA);
        self.cancels_under_way += 1;
        Some(id)
    }

    /// Stages the next operation of the request that was queued first. The caller must lend the opens, know that one
    /// may be staged (`may_stage`) and that the submission queue has room, and have enrolled all deadlines.
    pub fn stage(&mut self, opens: &Opens) -> Option<WaiterId>
        requires room { is_full (seen self.old) ≡ false }
        requires may { may_stage_one (seen self.old) ≡ true }
        requires enrolled { has_first (seen self.old).lists.enrolments ≡ false }
        ensures first { result ≡ first_of (seen self.old).lists.queued }
        ensures staged { IfSome result (λ id. (w : Asking S F) → request_at (seen self.old) id ≡ Some w → StagesOne (seen self.old) (seen self.new) id w (account_in opens.now (file_of w.request))) }
        ensures punctual { IsPunctual (seen self.old) → IsPunctual (seen self.new) }
    {
        let id = self.lists.next_queued()?;
        let account = opens.account(self.waiters.open_of(id));
        let submission = self.waiters.stage(id, &account);
        self.ring.stage(submission.window, submission.user_data);
        Some(id)
    }

    /// Stages the wake poll, where it must be staged. Answers whether it is staged, or was before: false where the
    /// submission queue has no room for it.
    pub fn stage_wake_poll(&mut self) -> bool
        ensures answer { result ≡ ((seen self.old).armed || not (is_full (seen self.old))) }
        ensures same { ((seen self.old).armed || is_full (seen self.old)) ≡ true → seen self.new ≡ seen self.old }
        ensures staged { seen self.new ≡ with_landings (seen self.new) (if (seen self.old).armed then (seen self.old) else (if is_full (seen self.old) then (seen self.old) else poll_staged (seen self.old))) }
        ensures punctual { IsPunctual (seen self.old) → IsPunctual (seen self.new) }
    {
        if self.armed {
            return true;
        }
        if self.is_full() {
            return false;
        }
        self.ring.stage(Window::wake(), WAKE_USER_DATA);
        self.armed = true;
        true
    }

    /// The kernel takes in all that is staged, or nothing where it is busy.
    pub fn enter(&mut self) -> Entered
        ensures answer { result ≡ answer_of_enter (seen self.old).ring }
        ensures entered { seen self.new ≡ with_landings (seen self.new) (entered (seen self.old)) }
        ensures lands { MayAllLand (seen self.old).landings (all_taken (seen self.old).ring) }
        ensures punctual { IsPunctual (seen self.old) → IsPunctual (seen self.new) }
    {
        self.ring.enter()
    }
}

/// The lower of two numbers, of which the second counts only where it is not below this one.
fn lower(least: Option<u32>, file: Option<u32>, from: u32) -> Option<u32>
    ensures { result ≡ lower from least file }
{
    let Some(file) = file else {
        return least;
    };
    if file < from {
        return least;
    }
    match least {
        None => Some(file),
        Some(least) => Some(least.min(file)),
    }
}
