//! How a request stands, by its id. Nothing changes here.

ghost use Rattle.std.specs.Prelude.{◌≡◌, is_some};
ghost use Rattle.exec_base.specs.Slab.{value_at};
ghost use Rattle.exec_waiters.specs.{States.{waiter_at, is_flying, is_idle, deadline_in, tick_of, gate_in, file_in, is_observed_here, may_be_seen, awaits_tick, lacks_permit, may_stage, named, name_of}, Events.{may_complete, waker_of}};

use super::Waiters;
use crate::waiter::Entry;
use crate::waiter_id::WaiterId;
use exec_base::task_no::TaskNo;
use exec_outcomes::outcome::OpResult;
use exec_ring::completion::UserData;
use exec_time::wheel::Tick;

impl<S: Drop, F: Drop> Waiters<S, F> {
    /// Whether the id names a request that is not over.
    pub fn is_pending(&self, id: WaiterId) -> bool
        ensures { result ≡ is_some (waiter_at self.now id.0) }
    {
        self.get(id).is_some()
    }

    /// The request's deadline, in nanoseconds. None where it has none, or is over or gone.
    pub fn deadline(&self, id: WaiterId) -> Option<u64>
        ensures { result ≡ deadline_in (waiter_at self.now id.0) }
    {
        self.get(id)?.request.deadline()
    }

    /// The tick of the wheel at which its deadline comes. None before that was set, once its cancel was asked for, and
    /// where the request is over or gone.
    pub fn target_tick(&self, id: WaiterId) -> Option<Tick>
        ensures { result ≡ tick_of (waiter_at self.now id.0) }
    {
        self.get(id)?.tick()
    }

    /// Whether the kernel may have an operation of the request.
    pub fn is_in_flight(&self, id: WaiterId) -> bool
        ensures { result ≡ is_flying (waiter_at self.now id.0) }
    {
        self.get(id).is_some_and(|waiter| waiter.in_flight)
    }

    /// Whether the request is not over, and the kernel has no operation of it: then it may be finished.
    pub fn is_idle(&self, id: WaiterId) -> bool
        ensures { result ≡ is_idle (waiter_at self.now id.0) }
    {
        self.get(id).is_some_and(|waiter| !waiter.in_flight)
    }

    /// The open whose record and gate the request needs where it is durable. None for any other.
    pub fn durability(&self, id: WaiterId) -> Option<u32>
        ensures { result ≡ gate_in (waiter_at self.now id.0) }
    {
        self.get(id)?.request.durability()
    }

    /// The open whose record the calls of the request are lent. None where it has no file, or is over or gone.
    pub fn open_of(&self, id: WaiterId) -> Option<u32>
        ensures { result ≡ file_in (waiter_at self.now id.0) }
    {
        self.get(id)?.file()
    }

    /// The task that the request would wake.
    pub(super) fn waker(&self, id: WaiterId) -> Option<TaskNo>
        ensures { result ≡ waker_of (waiter_at self.now id.0) }
    {
        self.get(id)?.observer.waker()
    }

    /// Whether a task of the worker waits for the request.
    pub fn is_observed_here(&self, id: WaiterId) -> bool
        ensures { result ≡ is_observed_here (waiter_at self.now id.0) }
    {
        self.get(id)
            .is_some_and(|waiter| waiter.observer.is_local())
    }

    /// Whether a task of the worker may look at it: it waits for the request, or its output is kept.
    pub fn may_be_seen(&self, id: WaiterId) -> bool
        ensures { result ≡ may_be_seen (value_at self.now id.0) }
    {
        match self.entries.get(id.0) {
            Some(Entry::Pending(waiter)) => waiter.observer.is_local(),
            Some(Entry::Ready(_)) => true,
            None => false,
        }
    }

    /// Whether a tick may be set: none was, and nobody asked for the request's cancel.
    pub fn awaits_tick(&self, id: WaiterId) -> bool
        ensures { result ≡ awaits_tick (waiter_at self.now id.0) }
    {
        self.get(id).is_some_and(|waiter| waiter.awaits_tick())
    }

    /// Whether the request is durable and has no permit.
    pub fn lacks_permit(&self, id: WaiterId) -> bool
        ensures { result ≡ lacks_permit (waiter_at self.now id.0) }
    {
        self.get(id).is_some_and(|waiter| waiter.needs_permit())
    }

    /// Whether the request's next operation may be staged: it is not over and has none, nobody asked for its cancel,
    /// and it has the permit that it needs.
    pub fn may_stage(&self, id: WaiterId) -> bool
        ensures { result ≡ may_stage (waiter_at self.now id.0) }
    {
        self.get(id).is_some_and(|waiter| {
            !waiter.in_flight && !waiter.state.is_cancelled() && !waiter.needs_permit()
        })
    }

    /// The request whose operation has this user data and isn't over. None where there is none.
    pub fn named(&self, user_data: UserData) -> Option<WaiterId>
        ensures { result ≡ name_of (named self.now user_data) }
    {
        let index = user_data % 0x1_0000_0000;
        let id = self.entries.id_at(index as usize)?;
        let generation = id.generation % 0x1_0000_0000;
        if generation != user_data / 0x1_0000_0000 || !self.is_in_flight(WaiterId(id)) {
            return None;
        }
        Some(WaiterId(id))
    }

    /// Whether the request is not over, and the kernel may give this result for its next operation.
    pub fn may_give(&self, id: WaiterId, given: OpResult) -> bool
        ensures { result ≡ may_complete (waiter_at self.now id.0) given }
    {
        self.get(id)
            .is_some_and(|waiter| waiter.request.may_give(given))
    }
}
