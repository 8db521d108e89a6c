//! Who waits for a request: looking, waking, forwarding, letting go.

ghost use Rattle.std.specs.Prelude.{◌≡◌, ◌<◌, Some, None, IfSome, IfNone, is_some, true, false};
ghost use Rattle.exec_base.specs.{Slab.value_at, declared.slab.Id.Id as Name};
ghost use Rattle.exec_waiters.specs.{Told.{HasPlaces, Tells}, States.{waiter_at, is_observed_here, may_be_seen, is_held_by, is_held_at, is_detached, output_at}, Events.{changed, with_waker, with_observer, waker_of, seen_by, taken, forwarded, told_by_forward, orphaned, told_by_orphan, asks_cancel_by_orphan, told_by_close, IsFirstHeld}};

use super::Waiters;
use crate::completed::Closed;
use crate::deferred::{Answer, Deferred, Untaken};
use crate::observer::Observer;
use crate::waiter::{Entry, waiter_mut};
use crate::waiter_id::WaiterId;
use exec_base::error::Error;
use exec_base::task_no::TaskNo;
use exec_request::output::RequestOutput;
use exec_time::timers::Observation;
use std::mem;

impl<S: Drop, F: Drop> Waiters<S, F> {
    ghost use Rattle.exec_waiters.specs.declared.waiter.Waiter.{Waiter as Asking};

    /// What a task of the worker finds. An output is taken, and the slot is free then. The caller must know that a
    /// task of the worker waits for the request, or that its output is kept.
    pub fn observe(&mut self, id: WaiterId, waker: TaskNo) -> Observation<RequestOutput>
        requires seen { may_be_seen (value_at self.old id.0) ≡ true }
        ensures answer { result ≡ seen_by waker (value_at self.old id.0) }
        ensures taken { self.new ≡ taken self.old id.0 }
    {
        if let Some(output) = self.take_output(id) {
            return Observation::Ready(output);
        }
        match self.waker(id) {
            Some(current) if current.0 == waker.0 => Observation::Pending,
            _ => Observation::Refresh,
        }
    }

    /// Has the request wake this task from now on, and answers the one that it would have woken. The caller must know
    /// that a task of the worker waits for the request.
    pub fn set_waker(&mut self, id: WaiterId, waker: TaskNo) -> Option<TaskNo>
        requires here { is_observed_here (waiter_at self.old id.0) ≡ true }
        ensures answer { result ≡ waker_of (waiter_at self.old id.0) }
        ensures set { self.new ≡ changed self.old id.0 (with_waker waker) }
    {
        match self.set_observer(id, Observer::Local(Some(waker))) {
            Observer::Local(current) => current,
            _ => unreachable!(),
        }
    }

    /// Has the output sent by this from now on, in place of a wake. An output that is kept is sent at once. Where no
    /// task of the worker waits for the request any more, or it is gone, `Closed` is sent and nothing changes. The
    /// caller must have made room for one in each list.
    pub fn forward(&mut self, id: WaiterId, sender: F, deferred: &mut Deferred<S, F>)
        requires room { HasPlaces deferred.old 1 }
        ensures forwarded { self.new ≡ forwarded self.old id.0 sender }
        ensures told { Tells deferred.old deferred.new (told_by_forward id.0 sender (value_at self.old id.0)) }
    {
        if self.is_observed_here(id) {
            let _local = self.set_observer(id, Observer::Forwarded(sender));
            return;
        }
        let result = self.take_output(id).ok_or(Error::Closed);
        let answer = Answer { id, sender, result };
        deferred.results.push_back_reserved(answer);
    }

    /// Nobody waits for the request from now on. Answers whether it is to be cancelled, which writes and syncs are
    /// not. Who waited elsewhere is sent `Closed`, and an output that is kept is let go. Nothing changes where the
    /// request is gone, is a detached sync, or has nobody waiting. The caller must have made room for one in each list.
    pub fn orphan(&mut self, id: WaiterId, deferred: &mut Deferred<S, F>) -> bool
        requires room { HasPlaces deferred.old 1 }
        ensures answer { result ≡ asks_cancel_by_orphan (value_at self.old id.0) }
        ensures orphaned { self.new ≡ orphaned self.old id.0 }
        ensures told { Tells deferred.old deferred.new (told_by_orphan id.0 (value_at self.old id.0)) }
    {
        if let Some(output) = self.take_output(id) {
            deferred.outputs.push_back_reserved(Untaken { id, output });
            return false;
        }
        let cancels = match self.get(id) {
            Some(waiter) if waiter.observer.is_held() => !waiter.request.retains_on_orphan(),
            _ => return false,
        };
        let observer = self.set_observer(id, Observer::Orphaned);
        deferred.turn_away(id, observer);
        cancels
    }

    // Takes an output that is kept. None where there is none, and then nothing changes.
    fn take_output(&mut self, id: WaiterId) -> Option<RequestOutput>
        ensures answer { result ≡ output_at (value_at self.old id.0) }
        ensures taken { self.new ≡ taken self.old id.0 }
    {
        match self.entries.get(id.0) {
            Some(Entry::Ready(_)) => {}
            _ => return None,
        }
        match self.entries.remove(id.0) {
            Some(Entry::Ready(output)) => Some(output),
            _ => unreachable!(),
        }
    }

    // Has this one wait for a request that isn't over, in place of who could let it go; and answers who that was.
    fn set_observer(&mut self, id: WaiterId, observer: Observer<S, F>) -> Observer<S, F>
        requires there { is_some (waiter_at self.old id.0) ≡ true }
        requires held { (waiter : Asking S F) → waiter_at self.old id.0 ≡ Some waiter → is_held_by waiter.observer ≡ true }
        requires elsewhere { is_detached observer ≡ false }
        ensures before { (waiter : Asking S F) → waiter_at self.old id.0 ≡ Some waiter → result ≡ waiter.observer }
        ensures set { self.new ≡ changed self.old id.0 (with_observer observer) }
    {
        let waiter = waiter_mut(&mut self.entries, id);
        mem::replace(&mut waiter.observer, observer)
    }

    /// Takes the observer of the request in the first slot that has one which can let go: as [`Waiters::orphan`] does,
    /// and the task that waits for it is woken besides. None where there is no such request, and then nothing
    /// changes. The caller must have made room for one in each list.
    pub fn close(&mut self, deferred: &mut Deferred<S, F>) -> Option<Closed>
        requires room { HasPlaces deferred.old 1 }
        ensures first { IfSome result (λ closed. IsFirstHeld self.old closed.id.0) }
        ensures answer { IfSome result (λ closed. closed.cancels ≡ asks_cancel_by_orphan (value_at self.old closed.id.0)) }
        ensures orphaned { IfSome result (λ closed. self.new ≡ orphaned self.old closed.id.0) }
        ensures told { IfSome result (λ closed. Tells deferred.old deferred.new (told_by_close closed.id.0 (value_at self.old closed.id.0))) }
        ensures none { IfNone result ((id : Name) → is_held_at (value_at self.old id) ≡ false) }
        ensures same { IfNone result ((self.new ≡ self.old) × (deferred.new ≡ deferred.old)) }
    {
        let id = self.first_observed()?;
        self.held_from = id.0.index as usize;
        let waker = self.waker(id);
        let cancels = self.orphan(id, deferred);
        deferred.wake(waker);
        Some(Closed { id, cancels })
    }

    /// The request in the first slot that has one which someone can let go: the one that [`Waiters::close`] takes the
    /// observer of. None where there is none.
    pub fn first_observed(&self) -> Option<WaiterId>
        ensures first { IfSome result (λ id. IsFirstHeld self.now id.0) }
        ensures none { IfNone result ((id : Name) → is_held_at (value_at self.now id) ≡ false) }
    {
        for index in self.held_from..self.entries.slots() {
            if let Some(id) = self.held_at(index) {
                return Some(id);
            }
        }
        None
    }

    // The request in this slot, where someone can let it go.
    fn held_at(&self, index: usize) -> Option<WaiterId>
        ensures held { IfSome result (λ id. (is_held_at (value_at self.now id.0) ≡ true) × (id.0.index ≡ index)) }
        ensures none { IfNone result ((id : Name) → id.index ≡ index → is_held_at (value_at self.now id) ≡ false) }
    {
        let id = self.entries.id_at(index)?;
        match self.entries.get(id)? {
            Entry::Pending(waiter) if !waiter.observer.is_held() => None,
            _ => Some(WaiterId(id)),
        }
    }
}
