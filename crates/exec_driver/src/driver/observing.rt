//! Who waits for a request.

ghost use Rattle.std.specs.Prelude.{◌≡◌, Some, IfSome, IfNone, true, false};
ghost use Rattle.exec_base.specs.{Slab.value_at, declared.slab.Id.Id as Name};
ghost use Rattle.exec_waiters.specs.{States.{is_observed_here, may_be_seen, is_held_at}, Events.{changed, with_waker, waker_of, seen_by, taken, forwarded, told_by_forward, told_by_orphan, told_by_close, IsFirstHeld}, Told.{HasPlaces, Tells}};
ghost use Rattle.exec_driver.specs.{Driving.{seen, request_at}, Punctual.IsPunctual, Steps.{let_go, told_by_let_go}};

use super::Driver;
use exec_base::task_no::TaskNo;
use exec_request::output::RequestOutput;
use exec_ring::ring::Ring;
use exec_time::timers::Observation;
use exec_waiters::deferred::Deferred;
use exec_waiters::waiter_id::WaiterId;

impl<R: Ring + Drop, S: Drop, F: Drop> Driver<R, S, F> {
    /// Whether a task of the worker may look at a request: it waits for it, or its output is kept.
    pub fn may_be_seen(&self, id: WaiterId) -> bool
        ensures { result ≡ may_be_seen (value_at (seen self.now).requests id.0) }
    {
        self.waiters.may_be_seen(id)
    }

    /// Whether a task of the worker waits for a request that is not over.
    pub fn is_observed_here(&self, id: WaiterId) -> bool
        ensures { result ≡ is_observed_here (request_at (seen self.now) id) }
    {
        self.waiters.is_observed_here(id)
    }

    /// What a task of the worker finds. An output is taken. The caller must know that a task of the worker waits for
    /// the request, or that its output is kept. Ports `observe`.
    pub fn observe(&mut self, id: WaiterId, waker: TaskNo) -> Observation<RequestOutput>
        requires watched { may_be_seen (value_at (seen self.old).requests id.0) ≡ true }
        ensures answer { result ≡ seen_by waker (value_at (seen self.old).requests id.0) }
        ensures taken { seen self.new ≡ record (seen self.old) { requests = taken (seen self.old).requests id.0 } }
        ensures punctual { IsPunctual (seen self.old) → IsPunctual (seen self.new) }
    {
        self.waiters.observe(id, waker)
    }

    /// Has the request wake this task from now on, and answers the one that it would have woken. The caller must know
    /// that a task of the worker waits for the request. Ports `set_waker`.
    pub fn set_waker(&mut self, id: WaiterId, waker: TaskNo) -> Option<TaskNo>
        requires here { is_observed_here (request_at (seen self.old) id) ≡ true }
        ensures answer { result ≡ waker_of (request_at (seen self.old) id) }
        ensures set { seen self.new ≡ record (seen self.old) { requests = changed (seen self.old).requests id.0 (with_waker waker) } }
        ensures punctual { IsPunctual (seen self.old) → IsPunctual (seen self.new) }
    {
        self.waiters.set_waker(id, waker)
    }

    /// Has the output sent by this from now on, in place of a wake. Where it is kept it is sent at once, and where no
    /// task of the worker waits for the request any more, `Closed` is. The caller must have made room for one in each
    /// list of what is to be told. Ports `forward`.
    pub fn forward(&mut self, id: WaiterId, sender: F, deferred: &mut Deferred<S, F>)
        requires room { HasPlaces deferred.old 1 }
        ensures forwarded { seen self.new ≡ record (seen self.old) { requests = forwarded (seen self.old).requests id.0 sender } }
        ensures told { Tells deferred.old deferred.new (told_by_forward id.0 sender (value_at (seen self.old).requests id.0)) }
        ensures punctual { IsPunctual (seen self.old) → IsPunctual (seen self.new) }
    {
        self.waiters.forward(id, sender, deferred);
    }

    /// Nobody waits for the request from now on. It is cancelled, unless it is a write or a sync. Nothing changes where
    /// it is gone, is a detached sync, or has nobody waiting. The caller must have made room for two in each list of what
    /// is to be told. Ports `orphan`.
    pub fn orphan(&mut self, id: WaiterId, deferred: &mut Deferred<S, F>)
        requires room { HasPlaces deferred.old 2 }
        ensures let_go { seen self.new ≡ let_go (seen self.old) id }
        ensures told { Tells deferred.old deferred.new (told_by_let_go (seen self.old) id (told_by_orphan id.0 (value_at (seen self.old).requests id.0))) }
        ensures punctual { IsPunctual (seen self.old) → IsPunctual (seen self.new) }
    {
        if self.waiters.orphan(id, deferred) {
            self.cancel(id, deferred);
        }
    }

    /// The request in the first slot that has an observer which can let go: the one that `close` takes the observer of.
    /// None where there is none.
    pub fn first_observed(&self) -> Option<WaiterId>
        ensures first { IfSome result (λ id. IsFirstHeld (seen self.now).requests id.0) }
        ensures none { IfNone result ((id : Name) → is_held_at (value_at (seen self.now).requests id) ≡ false) }
    {
        self.waiters.first_observed()
    }

    /// Takes the observer of the request in the first slot that has one which can let go, as `orphan` does, and has
    /// the task woken that waits. None where there is no such request. The caller must have made room for two in each
    /// list of what is to be told. Ports `close`, of which this is one request.
    pub fn close(&mut self, deferred: &mut Deferred<S, F>) -> Option<WaiterId>
        requires room { HasPlaces deferred.old 2 }
        ensures first { IfSome result (λ id. IsFirstHeld (seen self.old).requests id.0) }
        ensures let_go { IfSome result (λ id. seen self.new ≡ let_go (seen self.old) id) }
        ensures told { IfSome result (λ id. Tells deferred.old deferred.new (told_by_let_go (seen self.old) id (told_by_close id.0 (value_at (seen self.old).requests id.0)))) }
        ensures none { IfNone result ((id : Name) → is_held_at (value_at (seen self.old).requests id) ≡ false) }
        ensures same { IfNone result ((seen self.new ≡ seen self.old) × (deferred.new ≡ deferred.old)) }
        ensures punctual { IsPunctual (seen self.old) → IsPunctual (seen self.new) }
    {
        let closed = self.waiters.close(deferred)?;
        if closed.cancels {
            self.cancel(closed.id, deferred);
        }
        Some(closed.id)
    }
}
