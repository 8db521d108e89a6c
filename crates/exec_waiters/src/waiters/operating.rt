//! The operations of a request and their landings in a ring in memory, its deadline, its cancel, its permit, its end.

ghost use Rattle.std.specs.Prelude.{◌≡◌, ◌<◌, ◌↔◌, Some, None, Ok, Err, IsTrue, OnOk, OnErr, is_some, true, false, if◌then◌else◌};
ghost use Rattle.exec_base.specs.declared.slab.Id.{Id as Name};
ghost use Rattle.exec_request.specs.States.{as_answer};
ghost use Rattle.exec_ring.specs.{Kernels.{may_land, landed, flight_of}, Landings.IsReady};
ghost use Rattle.exec_waiters.specs.{Ids.{index_in, user_data_of}, Told.HasPlaces, States.{waiter_at, is_flying, is_idle, is_observed_here, awaits_tick, may_stage, lacks_permit, named}, Events.{changed, with_permit, with_tick, with_state, cancelled, may_cancel, answer_at_grant, is_lawful_for, Stages, Completes, Lands, Finishes}};

use super::Waiters;
use crate::completed::CompletionOutcome;
use crate::deferred::{Deferred, Retired};
use crate::observer::Observer;
use crate::waiter::{Entry, waiter_mut};
use crate::waiter_id::WaiterId;
use exec_base::error::Error;
use exec_outcomes::outcome::OpResult;
use exec_request::open_record::OpenRecord;
use exec_request::output::RequestOutput;
use exec_request::results::WaiterState;
use exec_ring::completion::{Submission, UserData};
use exec_ring::landing::Unlawful;
use exec_ring::sim_ring::SimRing;
use exec_ring::store::Store;
use exec_time::wheel::Tick;
use std::mem;

impl<S: Drop, F: Drop> Waiters<S, F> {
    ghost use Rattle.exec_waiters.specs.declared.waiter.Waiter.{Waiter as Asking};

    /// The durable request has the permit of its open from now on. Answers what ends it at once: the failure that the
    /// open keeps, or for a sync that there is nothing to make durable. The caller must have a durable request that
    /// is not over and had no permit.
    pub fn acquire_durability(
        &mut self,
        id: WaiterId,
        open_: &Option<OpenRecord>,
    ) -> Option<Result<(), Error>>
        requires lacks { lacks_permit (waiter_at self.old id.0) ≡ true }
        ensures answer { as_answer result ≡ answer_at_grant (waiter_at self.old id.0) open_.now }
        ensures permit { self.new ≡ changed self.old id.0 with_permit }
    {
        let waiter = waiter_mut(&mut self.entries, id);
        waiter.permit = true;
        waiter.request.prepare_durability(open_)
    }

    /// Notes the tick of the wheel at which the request's deadline comes. The caller must have a request that is not
    /// over, had no tick, and whose cancel nobody asked for.
    pub fn set_deadline(&mut self, id: WaiterId, tick: Tick)
        requires awaits { awaits_tick (waiter_at self.old id.0) ≡ true }
        ensures { self.new ≡ changed self.old id.0 (with_tick tick) }
    {
        let target_tick = Some(tick);
        self.set_state(id, WaiterState::Active { target_tick });
    }

    /// Asks for the cancel of the request. Answers whether this was the first time. Nothing changes where the request
    /// is over or gone.
    pub fn cancel(&mut self, id: WaiterId) -> bool
        ensures answer { result ≡ may_cancel (waiter_at self.old id.0) }
        ensures cancelled { self.new ≡ changed self.old id.0 cancelled }
    {
        let Some(waiter) = self.get(id) else {
            return false;
        };
        let first = !waiter.state.is_cancelled();
        self.set_state(id, WaiterState::CancelRequested);
        first
    }

    // Has a request that isn't over stand so.
    fn set_state(&mut self, id: WaiterId, state: WaiterState)
        requires { is_some (waiter_at self.old id.0) ≡ true }
        ensures { self.new ≡ changed self.old id.0 (with_state state) }
    {
        let waiter = waiter_mut(&mut self.entries, id);
        waiter.state = state;
    }

    /// The entry of the request's next operation; the kernel may have it from now on. The caller must have a request
    /// that is not over and has no operation, whose cancel nobody asked for, and which has the permit that it needs.
    /// The user data of no request has the last index, which that of wakes and cancels has.
    pub fn stage(&mut self, id: WaiterId, open_: &Option<OpenRecord>) -> Submission
        requires may { may_stage (waiter_at self.old id.0) ≡ true }
        ensures staged { (waiter : Asking S F) → waiter_at self.old id.0 ≡ Some waiter → Stages self.old self.new id.0 waiter open_.now result }
        ensures own { index_in result.user_data < 4294967295 }
    {
        self.in_flight += 1;
        let waiter = waiter_mut(&mut self.entries, id);
        waiter.in_flight = true;
        Submission {
            window: waiter.request.build_sqe(open_),
            user_data: id.user_data(),
        }
    }

    /// Takes the completion of an operation in: the kernel has done with what the request owns, and the result is
    /// judged with all before it. None where no operation that is under way has this user data, and then nothing
    /// changes. The caller must have a result that the kernel may give for that operation.
    pub fn on_completion(
        &mut self,
        user_data: UserData,
        given: OpResult,
        open_: &mut Option<OpenRecord>,
    ) -> Option<CompletionOutcome>
        requires lawful { (id : Name) → (waiter : Asking S F) → named self.old user_data ≡ Some id → waiter_at self.old id ≡ Some waiter → is_lawful_for waiter given ≡ true }
        ensures completes { (id : Name) → (waiter : Asking S F) → named self.old user_data ≡ Some id → waiter_at self.old id ≡ Some waiter → Completes self.old self.new id waiter given open_.old open_.new result }
        ensures stale { named self.old user_data ≡ None → (result ≡ None) × (self.new ≡ self.old) × (open_.new ≡ open_.old) }
    {
        let id = self.named(user_data)?;
        self.in_flight -= 1;
        let waiter = waiter_mut(&mut self.entries, id);
        waiter.in_flight = false;
        let answer = waiter.request.on_cqe(waiter.state, given, open_);
        match answer {
            Some(ended) => Some(CompletionOutcome::Complete(id, ended)),
            None => Some(CompletionOutcome::Requeue(id)),
        }
    }

    /// Whether `land` has what it needs: where it would end an operation, the request has its window, and there is room
    /// in the store for its bytes.
    pub fn may_land(&self, id: WaiterId, given: OpResult, ring: &SimRing, store: &Store) -> bool
        ensures { IsTrue result ↔ ((waiter : Asking S F) → waiter_at self.now id.0 ≡ Some waiter → IsTrue (may_land ring.now (user_data_of id.0) given) → IsReady (flight_of ring.now (user_data_of id.0)) given waiter.request store.now) }
    {
        match self.get(id) {
            Some(waiter) => ring.may_land(id.user_data(), given, store, &waiter.request),
            None => true,
        }
    }

    /// Ends the operation of the request in the ring, and moves its bytes between the store and what the request owns.
    /// `Unlawful` where the ring has no such operation, or where its window doesn't allow the result; then nothing
    /// changes. The completion comes back from the ring. The caller must have a request of which the kernel may have
    /// an operation, and have made room in the store for the bytes.
    pub fn land(
        &mut self,
        id: WaiterId,
        given: OpResult,
        ring: &mut SimRing,
        store: &mut Store,
    ) -> Result<(), Unlawful>
        requires flying { is_flying (waiter_at self.old id.0) ≡ true }
        requires ready { (waiter : Asking S F) → waiter_at self.old id.0 ≡ Some waiter → IsTrue (may_land ring.old (user_data_of id.0) given) → IsReady (flight_of ring.old (user_data_of id.0)) given waiter.request store.old }
        ensures answer { result ≡ (if may_land ring.old (user_data_of id.0) given then Ok tt else Err (record { 0 = user_data_of id.0; 1 = given })) }
        ensures ring { ring.new ≡ (if may_land ring.old (user_data_of id.0) given then landed ring.old (user_data_of id.0) given else ring.old) }
        ensures moved { OnOk result ((waiter : Asking S F) → waiter_at self.old id.0 ≡ Some waiter → Lands self.old self.new id.0 waiter (flight_of ring.old (user_data_of id.0)) given store.old store.new) }
        ensures same { OnErr result (self.new ≡ self.old) }
        ensures store { OnErr result (store.new ≡ store.old) }
    {
        let waiter = waiter_mut(&mut self.entries, id);
        ring.land(id.user_data(), given, store, &mut waiter.request)
    }

    /// Ends the request so. Its output is kept for a task of the worker, is sent to who waits elsewhere, or is let go;
    /// what it owned is retired. Answers the tick of the wheel that is to be removed. The caller must have a request
    /// that is not over and of which the kernel has no operation, lend the record of its open where it has one, and
    /// have made room in each list.
    pub fn finish(
        &mut self,
        id: WaiterId,
        ended: Result<(), Error>,
        open_: &mut Option<OpenRecord>,
        deferred: &mut Deferred<S, F>,
    ) -> Option<Tick>
        requires idle { is_idle (waiter_at self.old id.0) ≡ true }
        requires room { HasPlaces deferred.old 1 }
        ensures { (waiter : Asking S F) → waiter_at self.old id.0 ≡ Some waiter → Finishes self.old self.new deferred.old deferred.new id.0 waiter ended open_.old open_.new result }
    {
        if self.is_observed_here(id) {
            self.keep(id, ended, open_, deferred)
        } else {
            self.free(id, ended, open_, deferred)
        }
    }

    // Ends a request that a task of the worker waits for: the output stays in its place, and the task is woken.
    fn keep(
        &mut self,
        id: WaiterId,
        ended: Result<(), Error>,
        open_: &mut Option<OpenRecord>,
        deferred: &mut Deferred<S, F>,
    ) -> Option<Tick>
        requires idle { is_idle (waiter_at self.old id.0) ≡ true }
        requires here { is_observed_here (waiter_at self.old id.0) ≡ true }
        requires room { HasPlaces deferred.old 1 }
        ensures { (waiter : Asking S F) → waiter_at self.old id.0 ≡ Some waiter → Finishes self.old self.new deferred.old deferred.new id.0 waiter ended open_.old open_.new result }
    {
        self.pending -= 1;
        let place = Entry::Ready(RequestOutput::Sync(Ok(())));
        let Some(entry) = self.entries.get_mut(id.0) else {
            unreachable!()
        };
        let Entry::Pending(waiter) = mem::replace(entry, place) else {
            unreachable!()
        };
        let tick = waiter.tick();
        let Observer::Local(waker) = waiter.observer else {
            unreachable!()
        };
        let (output, resources) = waiter.request.complete(ended, open_);
        *entry = Entry::Ready(output);
        deferred.wake(waker);
        let retired = Retired { id, resources };
        deferred.resources.push_back_reserved(retired);
        tick
    }

    // Ends a request that no task of the worker waits for: its slot is free, and the output is sent or let go.
    fn free(
        &mut self,
        id: WaiterId,
        ended: Result<(), Error>,
        open_: &mut Option<OpenRecord>,
        deferred: &mut Deferred<S, F>,
    ) -> Option<Tick>
        requires idle { is_idle (waiter_at self.old id.0) ≡ true }
        requires elsewhere { is_observed_here (waiter_at self.old id.0) ≡ false }
        requires room { HasPlaces deferred.old 1 }
        ensures { (waiter : Asking S F) → waiter_at self.old id.0 ≡ Some waiter → Finishes self.old self.new deferred.old deferred.new id.0 waiter ended open_.old open_.new result }
    {
        self.pending -= 1;
        let Some(Entry::Pending(waiter)) = self.entries.remove(id.0) else {
            unreachable!()
        };
        let tick = waiter.tick();
        let (output, resources) = waiter.request.complete(ended, open_);
        deferred.deliver(id, output, waiter.observer);
        // Last, since what is told before asks for a place in each list.
        let retired = Retired { id, resources };
        deferred.resources.push_back_reserved(retired);
        tick
    }
}
