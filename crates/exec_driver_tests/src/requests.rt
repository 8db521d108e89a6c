//! What plays a table of calls on the requests of a worker. Each call is a step with what has to come of it.

use crate::found::{
    Counts, demand, holds, same, same_answer, same_count, same_counts, same_moment, same_name,
    same_number,
};
use crate::worker::{counts, make_room};
use exec_base::error::Error;
use exec_base::task_no::TaskNo;
use exec_outcomes::outcome::OpResult;
use exec_request::open_record::OpenRecord;
use exec_request::output::RequestOutput;
use exec_request::poll::PollRequest;
use exec_request::request::Request;
use exec_request::sync::SyncRequest;
use exec_ring::landing::Unlawful;
use exec_ring::sim_ring::SimRing;
use exec_ring::store::Store;
use exec_time::timers::Observation;
use exec_waiters::completed::{Closed, CompletionOutcome};
use exec_waiters::deferred::Deferred;
use exec_waiters::observer::Observer;
use exec_waiters::waiter_id::WaiterId;
use exec_waiters::waiters::Waiters;
use std::alloc::Global;
use std::marker::Model;
use std::process::Abort;

/// A step. What it has besides its arguments is what has to come of it.
#[derive(Clone, Copy)]
pub enum Call {
    /// A poll that a task of the worker waits for, or a sync that this one waits for, is admitted under this name.
    Admit(Option<u32>, WaiterId),
    /// The next operation is staged, under this user data.
    Stage(WaiterId, u64),
    /// A completion comes, for which there is no record: the request needs another operation.
    Requeue(u64, OpResult, WaiterId),
    /// One comes, and the request ends so.
    Complete(u64, OpResult, WaiterId, Result<(), Error>),
    /// One comes, and no operation that is under way has this user data.
    Stale(u64, OpResult),
    /// A request ends so, and this tick of the wheel is to be removed.
    Finish(WaiterId, Result<(), Error>, Option<u64>),
    /// The deadline comes at this tick.
    SetDeadline(WaiterId, u64),
    /// A cancel is asked for, and whether this was the first time.
    Cancel(WaiterId, bool),
    /// A durable request has the permit, and what ends it at once.
    Acquire(WaiterId, Option<Result<(), Error>>),
    /// What concerns who waits for a request.
    Wait(Wait),
    /// A look.
    Look(Look),
}

/// A call of who waits for a request.
#[derive(Clone, Copy)]
pub enum Wait {
    /// A task finds this.
    Observe(WaiterId, u32, Found),
    /// Another task waits, in place of this one.
    SetWaker(WaiterId, u32, Option<TaskNo>),
    /// The outcome is to be sent on by this sender.
    Forward(WaiterId, u32),
    /// Nobody waits any more, and whether the request is to be cancelled.
    Orphan(WaiterId, bool),
    /// The next request that has an observer which can let go is this, and loses it.
    Close(WaiterId, bool),
    /// There is none such.
    Closed,
}

/// What a task finds of a poll.
#[derive(Clone, Copy)]
pub enum Found {
    /// It would wake another task, or none.
    Refresh,
    /// It is under way.
    Pending,
    /// It has ended well.
    Ready,
}

/// A look at the requests, or at what is to be told.
#[derive(Clone, Copy)]
pub enum Look {
    /// The deadline of a request.
    Deadline(WaiterId, Option<u64>),
    /// The open whose record a request is lent.
    OpenOf(WaiterId, Option<u32>),
    /// The open whose permit a request needs.
    Durability(WaiterId, Option<u32>),
    /// Whose operation has this user data.
    Named(u64, Option<WaiterId>),
    /// A task of the worker waits for a request, and may look at it.
    Here(WaiterId),
    /// How many requests aren't over, how many ids stand for something, and how many operations are under way.
    Sizes(usize, usize, usize),
    /// How much of each kind is to be told.
    Counts(Counts),
    /// What this request owned was let go first.
    Retired(WaiterId),
    /// The first outcome that is to be sent goes by this sender.
    Sent(u32),
    /// The first result that is to be sent is `Closed`.
    Refused,
    /// This task alone is to be woken.
    Wakes(u32),
}

/// The requests of a worker, with what is to be told of them.
#[derive(Drop)]
pub struct Requests {
    waiters: Waiters<u32, u32>,
    told: Deferred<u32, u32>,
}

impl Model for Requests {
    ghost Value = { Unit {0} };

    ghost view = { λ _. tt };
}

/// Plays these steps on fresh requests.
pub fn play(rt: &impl Abort, alloc: Global, calls: &[Call]) {
    let waiters = Waiters::new(alloc, 4).expect(rt, "no memory");
    let mut requests = Requests::new(alloc, waiters);
    requests.play(rt, alloc, calls);
    drop(requests);
}

impl Requests {
    /// These requests, of which nothing is to be told.
    pub fn new(alloc: Global, waiters: Waiters<u32, u32>) -> Self {
        Requests {
            waiters,
            told: Deferred::new(alloc),
        }
    }

    /// Plays these steps one after another. What comes of one has to be what the step says.
    pub fn play(&mut self, rt: &impl Abort, alloc: Global, calls: &[Call]) {
        for (at, call) in calls.iter().enumerate() {
            self.take(rt, alloc, at, *call);
        }
    }

    fn take(&mut self, rt: &impl Abort, alloc: Global, at: usize, call: Call) {
        match call {
            Call::Admit(sender, id) => same_name(rt, at, self.admit(alloc, sender), Some(id)),
            Call::Stage(id, data) => same(rt, at, &self.stage(rt, id), &data),
            Call::Requeue(data, given, id) => {
                self.complete(rt, at, data, given, Some(CompletionOutcome::Requeue(id)));
            }
            Call::Complete(data, given, id, ended) => {
                let outcome = CompletionOutcome::Complete(id, ended);
                self.complete(rt, at, data, given, Some(outcome));
            }
            Call::Stale(data, given) => self.complete(rt, at, data, given, None),
            Call::Finish(id, ended, tick) => {
                same_moment(rt, at, self.finish(rt, alloc, id, ended), tick);
            }
            Call::SetDeadline(id, tick) => self.set_deadline(rt, id, tick),
            Call::Cancel(id, first) => same_answer(rt, at, self.cancel(id), first),
            Call::Acquire(id, ended) => same(rt, at, &self.acquire(rt, id), &ended),
            Call::Wait(wait) => self.wait(rt, alloc, at, wait),
            Call::Look(look) => self.look(rt, at, look),
        }
    }

    fn admit(&mut self, alloc: Global, sender: Option<u32>) -> Option<WaiterId> {
        match sender {
            None => self.admit_poll(alloc),
            Some(sender) => self.admit_sync(alloc, sender),
        }
    }

    fn admit_poll(&mut self, alloc: Global) -> Option<WaiterId> {
        let request = Request::Poll(PollRequest::new(4, Some(10)));
        let observer = Observer::Local(None);
        self.waiters.insert(alloc, request, observer).ok()
    }

    fn admit_sync(&mut self, alloc: Global, sender: u32) -> Option<WaiterId> {
        let request = Request::Sync(SyncRequest::new(1, 0));
        let observer = Observer::DetachedSync(sender);
        self.waiters.insert(alloc, request, observer).ok()
    }

    fn stage(&mut self, rt: &impl Abort, id: WaiterId) -> u64 {
        demand(rt, self.waiters.may_stage(id), "it may not be staged");
        self.waiters.stage(id, &None).user_data
    }

    fn complete(
        &mut self,
        rt: &impl Abort,
        at: usize,
        user_data: u64,
        given: OpResult,
        wanted: Option<CompletionOutcome>,
    ) {
        same(rt, at, &self.give(rt, user_data, given), &wanted);
    }

    fn give(
        &mut self,
        rt: &impl Abort,
        user_data: u64,
        given: OpResult,
    ) -> Option<CompletionOutcome> {
        match self.waiters.named(user_data) {
            Some(id) => {
                demand(rt, self.waiters.may_give(id, given), "it may not come");
                self.waiters.on_completion(user_data, given, &mut None)
            }
            None => self.waiters.on_completion(user_data, given, &mut None),
        }
    }

    fn finish(
        &mut self,
        rt: &impl Abort,
        alloc: Global,
        id: WaiterId,
        ended: Result<(), Error>,
    ) -> Option<u64> {
        make_room(rt, alloc, &mut self.told, 1);
        demand(rt, self.waiters.is_idle(id), "it may not end");
        self.waiters.finish(id, ended, &mut None, &mut self.told)
    }

    fn set_deadline(&mut self, rt: &impl Abort, id: WaiterId, tick: u64) {
        demand(rt, self.waiters.awaits_tick(id), "it awaits no tick");
        self.waiters.set_deadline(id, tick);
    }

    fn cancel(&mut self, id: WaiterId) -> bool {
        self.waiters.cancel(id)
    }

    fn acquire(&mut self, rt: &impl Abort, id: WaiterId) -> Option<Result<(), Error>> {
        demand(rt, self.waiters.lacks_permit(id), "it needs no permit");
        self.waiters
            .acquire_durability(id, &Some(OpenRecord::new()))
    }

    fn wait(&mut self, rt: &impl Abort, alloc: Global, at: usize, wait: Wait) {
        match wait {
            Wait::Observe(id, task, found) => self.observe(rt, at, id, task, found),
            Wait::SetWaker(id, task, before) => {
                same(rt, at, &self.set_waker(rt, id, task), &before);
            }
            Wait::Forward(id, sender) => self.forward(rt, alloc, id, sender),
            Wait::Orphan(id, cancels) => {
                same_answer(rt, at, self.orphan(rt, alloc, id), cancels);
            }
            Wait::Close(id, cancels) => {
                self.close(rt, alloc, at, Some(id), Some(Closed { id, cancels }));
            }
            Wait::Closed => self.close(rt, alloc, at, None, None),
        }
    }

    fn observe(&mut self, rt: &impl Abort, at: usize, id: WaiterId, task: u32, found: Found) {
        demand(rt, self.waiters.may_be_seen(id), "it may not be seen");
        let seen = self.waiters.observe(id, TaskNo(task));
        holds(rt, at, is_found(&seen, found));
        drop(seen);
    }

    fn set_waker(&mut self, rt: &impl Abort, id: WaiterId, task: u32) -> Option<TaskNo> {
        demand(
            rt,
            self.waiters.is_observed_here(id),
            "no task waits for it",
        );
        self.waiters.set_waker(id, TaskNo(task))
    }

    fn forward(&mut self, rt: &impl Abort, alloc: Global, id: WaiterId, sender: u32) {
        make_room(rt, alloc, &mut self.told, 1);
        self.waiters.forward(id, sender, &mut self.told);
    }

    fn orphan(&mut self, rt: &impl Abort, alloc: Global, id: WaiterId) -> bool {
        make_room(rt, alloc, &mut self.told, 1);
        self.waiters.orphan(id, &mut self.told)
    }

    fn close(
        &mut self,
        rt: &impl Abort,
        alloc: Global,
        at: usize,
        first: Option<WaiterId>,
        closed: Option<Closed>,
    ) {
        make_room(rt, alloc, &mut self.told, 1);
        same_name(rt, at, self.waiters.first_observed(), first);
        same(rt, at, &self.waiters.close(&mut self.told), &closed);
    }

    /// Ends the operation of a request that is in flight, in this ring, which may have none.
    pub fn land(
        &mut self,
        rt: &impl Abort,
        id: WaiterId,
        given: OpResult,
        ring: &mut SimRing,
        store: &mut Store,
    ) -> Result<(), Unlawful> {
        demand(rt, self.waiters.is_in_flight(id), "it is not in flight");
        let may = self.waiters.may_land(id, given, ring, store);
        demand(rt, may, "it may not land");
        self.waiters.land(id, given, ring, store)
    }

    fn look(&self, rt: &impl Abort, at: usize, look: Look) {
        let waiters = &self.waiters;
        match look {
            Look::Deadline(id, deadline) => same_moment(rt, at, waiters.deadline(id), deadline),
            Look::OpenOf(id, file) => same_number(rt, at, waiters.open_of(id), file),
            Look::Durability(id, file) => same_number(rt, at, waiters.durability(id), file),
            Look::Named(data, id) => same_name(rt, at, waiters.named(data), id),
            Look::Here(id) => {
                holds(rt, at, waiters.is_observed_here(id));
                holds(rt, at, waiters.may_be_seen(id));
            }
            Look::Sizes(pending, live, in_flight) => {
                same_count(rt, at, waiters.len(), pending);
                same_answer(rt, at, waiters.is_empty(), pending == 0);
                same_count(rt, at, waiters.live(), live);
                same_count(rt, at, waiters.in_flight(), in_flight);
            }
            look => self.told(rt, at, look),
        }
    }

    fn told(&self, rt: &impl Abort, at: usize, look: Look) {
        let told = &self.told;
        match look {
            Look::Counts(wanted) => same_counts(rt, at, counts(told), wanted),
            Look::Retired(id) => same_name(rt, at, first_retired(told), Some(id)),
            Look::Sent(sender) => same_number(rt, at, first_sender(told), Some(sender)),
            Look::Refused => holds(rt, at, is_refused(told)),
            Look::Wakes(task) => {
                same(
                    rt,
                    at,
                    &told.notes.wakes.as_slices().0,
                    &[TaskNo(task)].as_slice(),
                );
            }
            _ => holds(rt, at, false),
        }
    }
}

/// Whether a task found this.
fn is_found(seen: &Observation<RequestOutput>, found: Found) -> bool {
    match found {
        Found::Refresh => matches!(seen, Observation::Refresh),
        Found::Pending => matches!(seen, Observation::Pending),
        Found::Ready => matches!(seen, Observation::Ready(RequestOutput::Poll(Ok(())))),
    }
}

/// Which request owned what was let go first.
fn first_retired(told: &Deferred<u32, u32>) -> Option<WaiterId> {
    Some(told.resources.front()?.id)
}

/// By whom the first outcome is sent.
fn first_sender(told: &Deferred<u32, u32>) -> Option<u32> {
    Some(told.notes.completions.front()?.sender)
}

/// Whether the first result that is to be sent is `Closed`.
fn is_refused(told: &Deferred<u32, u32>) -> bool {
    matches!(told.results.front(), Some(answer) if matches!(&answer.result, Err(Error::Closed)))
}
