//! Completions: what the kernel has done with.

ghost use Rattle.std.specs.Prelude.{◌≡◌, ◌-◌, ◌==◌, Some, None, true, false, is_some};
ghost use Rattle.exec_base.specs.declared.slab.Id.{Id as Name};
ghost use Rattle.exec_outcomes.specs.{Accounts.is_durable, declared.outcome.Kind.Kind};
ghost use Rattle.exec_request.specs.States.{told_by};
ghost use Rattle.exec_ring.specs.{Completions.result_in, Kernels.next_completion};
ghost use Rattle.exec_waiters.specs.Told.{HasPlaces};
ghost use Rattle.exec_driver.specs.{Driving.{seen, request_at}, Punctual.IsPunctual, Steps.{swept, is_control, taken_out, completed_in, with_landings, Reaps, ReapsNext, is_next_control, after_next_control}};

use super::Driver;
use exec_base::error::Error;
use exec_opens::opens::Opens;
use exec_outcomes::outcome::OpResult;
use exec_request::open_record::OpenRecord;
use exec_ring::completion::{CANCEL_USER_DATA, Completion, WAKE_USER_DATA};
use exec_ring::ring::Ring;
use exec_waiters::completed::CompletionOutcome;
use exec_waiters::deferred::Deferred;
use exec_waiters::waiter_id::WaiterId;

/// A completion of an operation that was taken in.
#[derive(Clone, Copy, Debug, PartialEq, Eq)]
pub struct Reaped {
    /// Of which request.
    pub id: WaiterId,
    /// What its number says.
    pub given: OpResult,
    /// How the request ended, as is told of it: a durable one that its open's kept failure spoils ends with that
    /// failure. None where it goes on with another operation.
    pub ended: Option<Result<(), Error>>,
    /// The open whose permit it gives up, by `Opens::leave`. None where it had none, or goes on.
    pub permit: Option<u32>,
}

impl<R: Ring + Drop, S: Drop, F: Drop> Driver<R, S, F> {
    ghost use Rattle.exec_waiters.specs.declared.waiter.Waiter.{Waiter as Asking};

    /// Takes the next completion of an operation in, with what stands before it and after it that is none of an
    /// operation's: wakes, and acknowledgements of cancels. A request that goes on joins the end of what is queued. The
    /// caller must lend the opens, and have made room in what is to be told.
    ///
    /// None where there is none of an operation; and also where the next one names no request whose operation is under
    /// way, or says what that operation could not give: it is taken out then, and no request changes. So who takes all
    /// in goes on while `has_completion` says that another is there.
    pub fn reap(&mut self, opens: &mut Opens, deferred: &mut Deferred<S, F>) -> Option<Reaped>
        requires room { HasPlaces deferred.old 1 }
        ensures reaps { ReapsNext (seen self.old) (seen self.new) opens.old opens.new deferred.old deferred.new result }
        ensures punctual { IsPunctual (seen self.old) → IsPunctual (seen self.new) }
    {
        self.sweep();
        let completion = self.ring.peek()?;
        let reaped = self.judge(completion, opens, deferred);
        self.sweep();
        reaped
    }

    // Takes out what stands before the next completion of an operation.
    fn sweep(&mut self)
        ensures { seen self.new ≡ with_landings (seen self.new) (swept (seen self.old)) }
    {
        'controls: while self.take_control() {}
    }

    // Takes out a wake or an acknowledgement, where the next completion is one.
    fn take_control(&mut self) -> bool
        ensures answer { result ≡ is_next_control (next_completion (seen self.old).ring) }
        ensures taken { seen self.new ≡ with_landings (seen self.new) (after_next_control (seen self.old) (next_completion (seen self.old).ring)) }
    {
        let Some(next) = self.ring.peek() else {
            return false;
        };
        if !is_control(next) {
            return false;
        }
        let _same = self.ring.reap();
        if next.user_data == CANCEL_USER_DATA {
            self.cancels_under_way = self.cancels_under_way.saturating_sub(1);
        } else {
            self.armed = self.armed && next.more;
        }
        true
    }

    // Takes the next completion in, which is of an operation. Nothing else changes where it is of no operation that is
    // under way, or says what its operation could not give.
    fn judge(
        &mut self,
        completion: Completion,
        opens: &mut Opens,
        deferred: &mut Deferred<S, F>,
    ) -> Option<Reaped>
        requires next { next_completion (seen self.old).ring ≡ Some completion }
        requires operation { is_control completion ≡ false }
        requires room { HasPlaces deferred.old 1 }
        ensures reaps { (id : Name) → (w : Asking S F) → completed_in (seen self.old) completion ≡ Some id → request_at (seen self.old) (record { 0 = id }) ≡ Some w → Reaps (seen self.old) (seen self.new) opens.old opens.new deferred.old deferred.new (record { 0 = id }) w (result_in completion.result) result }
        ensures none { completed_in (seen self.old) completion ≡ None → (result ≡ None) × (seen self.new ≡ with_landings (seen self.new) (taken_out (seen self.old))) × (opens.new ≡ opens.old) × (deferred.new ≡ deferred.old) }
    {
        let given = completion.given();
        let _same = self.ring.reap();
        let id = self.waiters.named(completion.user_data)?;
        if !self.waiters.may_give(id, given) {
            return None;
        }
        let file = self.waiters.open_of(id);
        let before = opens.account(file);
        let mut account = before;
        let outcome = self
            .waiters
            .on_completion(completion.user_data, given, &mut account);
        opens.set_account(file, account);
        let Some(outcome) = outcome else {
            unreachable!()
        };
        match outcome {
            CompletionOutcome::Requeue(id) => {
                self.lists.queue(id);
                Some(Reaped {
                    id,
                    given,
                    ended: None,
                    permit: None,
                })
            }
            CompletionOutcome::Complete(id, ended) => {
                let permit = self.waiters.durability(id);
                self.end(id, ended, opens, deferred);
                Some(Reaped {
                    id,
                    given,
                    ended: Some(told(ended, permit, &before)),
                    permit,
                })
            }
        }
    }
}

/// What is told of a request that ends so, with the open whose permit it gives up, where it is durable, and the record of
/// its open: the failure that this keeps takes the place of a durable one's success.
fn told(
    ended: Result<(), Error>,
    permit: Option<u32>,
    account: &Option<OpenRecord>,
) -> Result<(), Error>
    ensures { (kind : Kind) → is_durable kind ≡ is_some permit → result ≡ told_by kind ended account.now }
{
    match (ended, permit, account) {
        (Ok(()), Some(_), Some(account)) => match account.failure() {
            Some(error) => Err(error),
            None => Ok(()),
        },
        _ => ended,
    }
}

/// Whether a completion is of no operation: a wake, or the acknowledgement of a cancel.
fn is_control(completion: Completion) -> bool
    ensures { result ≡ is_control completion }
{
    completion.user_data == WAKE_USER_DATA || completion.user_data == CANCEL_USER_DATA
}
