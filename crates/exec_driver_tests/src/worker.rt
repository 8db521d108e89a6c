//! A driver with what is to be told and whom it signalled last, as one value. Where a call of the driver asks for
//! something, the call here tests it, and a test that fails is a failed assertion.

ghost use Rattle.std.specs.Prelude.{◌≡◌, ◌-◌, ◌^◌, ◌≤◌, true, IfOk};
ghost use Rattle.exec_request.specs.Buffers.{is_sound, length_of, moved_of};
ghost use Rattle.exec_waiters.specs.Told.{HasPlaces};

use crate::found::{Counts, demand, refuse};
use crate::word::Word;
use exec_base::slab::Id;
use exec_base::task_no::TaskNo;
use exec_bufs::buf::IoBuf;
use exec_bufs::bufs::IoBufs;
use exec_driver::armed::{Armed, Signals};
use exec_driver::driver::{Driver, Enrolled, Granted, Reaped};
use exec_opens::opens::Opens;
use exec_outcomes::outcome::OpResult;
use exec_request::buffers::WriteBuffers;
use exec_request::output::RequestOutput;
use exec_request::request::Request;
use exec_request::send::SendRequest;
use exec_ring::landing::Unlawful;
use exec_ring::ring::Entered;
use exec_ring::sim_ring::SimRing;
use exec_ring::store::Store;
use exec_time::timers::Observation;
use exec_time::wheel::TimeoutWheel;
use exec_waiters::deferred::{Deferred, Retired};
use exec_waiters::observer::Observer;
use exec_waiters::waiter_id::WaiterId;
use std::alloc::{AllocError, Global};
use std::marker::Model;
use std::process::Abort;

/// Whom a worker signalled last.
#[derive(Drop)]
struct Last(Option<u32>);

impl Signals for Last {
    ghost use Rattle.std.specs.Prelude.{None};

    ghost signalled = { λ _. None };

    fn signal(&mut self, worker: u32) {
        self.0 = Some(worker);
    }
}

/// The nanoseconds of a millisecond.
pub const MILLI: u64 = 1_000_000;

/// The name of a request by its slot, and by how often that was taken before.
pub fn name(index: u32, generation: u64) -> WaiterId {
    WaiterId(Id { index, generation })
}

/// The request that comes first.
pub const FIRST: WaiterId = WaiterId(Id {
    index: 0,
    generation: 0,
});

/// The one that comes second, beside the first.
pub const SECOND: WaiterId = WaiterId(Id {
    index: 1,
    generation: 0,
});

/// The one that comes third, beside both.
pub const THIRD: WaiterId = WaiterId(Id {
    index: 2,
    generation: 0,
});

/// The one that takes the slot of the first after it.
pub const NEXT: WaiterId = WaiterId(Id {
    index: 0,
    generation: 1,
});

/// The result of an operation that moved so many bytes.
pub fn bytes(count: u64) -> OpResult {
    OpResult::Count(count)
}

/// These bytes in one part. An `Err` where memory is wanting, or where they are more than 2^40.
pub fn buffers(alloc: Global, data: &[u8]) -> Result<WriteBuffers, AllocError>
    ensures sound { IfOk result (λ w. is_sound w ≡ true) }
    ensures short { IfOk result (λ w. length_of w - moved_of w ≤ 2 ^ 40) }
{
    let copy = data.to_vec(alloc)?;
    let mut bufs = IoBufs::new(alloc);
    if copy.len() > 1 << 40 {
        drop(copy);
    } else if bufs.push(alloc, IoBuf::from(copy)).is_err() {
        drop(bufs);
        return Err(AllocError);
    }
    let write = WriteBuffers::from(bufs);
    if write.remaining_len() > 1 << 40 {
        drop(write);
        return Err(AllocError);
    }
    Ok(write)
}

/// A send of ten bytes to socket 0 that has to end by 10 ms. An `Err` where memory is wanting.
pub fn send(alloc: Global) -> Result<Request, AllocError> {
    let write = buffers(alloc, b"0123456789")?;
    Ok(Request::Send(SendRequest::new(0, write, Some(10 * MILLI))))
}

/// How many of each list there are: wakes, outputs, resources, completions, results.
pub fn counts(told: &Deferred<u32, u32>) -> Counts {
    (
        told.notes.wakes.len(),
        told.outputs.len(),
        told.resources.len(),
        told.notes.completions.len(),
        told.results.len(),
    )
}

/// Makes room for so many in each list of what is to be told. It fails where memory is wanting.
pub fn make_room(rt: &impl Abort, alloc: Global, told: &mut Deferred<u32, u32>, n: usize)
    ensures { HasPlaces told.new n }
{
    let made = told.reserve(alloc, n);
    demand(rt, made.is_ok(), "no memory");
}

/// A driver with its deferred work and its signals. Its deadlines are always punctual.
#[derive(Drop)]
pub struct Worker {
    driver: Driver<SimRing, u32, u32>,
    deferred: Deferred<u32, u32>,
    last: Last,
}

impl Model for Worker {
    ghost use Rattle.exec_driver.specs.Driving.{seen};
    ghost use Rattle.exec_driver.specs.Punctual.{IsPunctual};

    ghost Value = { Unit {0} };

    ghost view = { λ _. tt };

    ghost invariant = { λ w. IsPunctual (seen w.driver) };
}

impl Worker {
    /// A worker over a ring of so many entries, with a wheel of 5 ms for 10 ms. None where memory is wanting, or where
    /// there is no such ring.
    pub fn new(alloc: Global, size: usize, store: &mut Store) -> Option<Self> {
        TimeoutWheel::validate_layout(10 * MILLI, 5 * MILLI).ok()?;
        let ring = SimRing::new(alloc, size).ok()?;
        let driver = Driver::new(alloc, ring, 10 * MILLI, 5 * MILLI, 0, store).ok()?;
        Some(Worker {
            driver,
            deferred: Deferred::new(alloc),
            last: Last(None),
        })
    }

    /// The driver, to look at.
    pub fn driver(&self) -> &Driver<SimRing, u32, u32> {
        &self.driver
    }

    /// What is to be told.
    pub fn deferred(&self) -> &Deferred<u32, u32> {
        &self.deferred
    }

    /// Whom the worker signalled last.
    pub fn last(&self) -> Option<u32> {
        self.last.0
    }

    /// The driver, without the rest.
    pub fn into_driver(self) -> Driver<SimRing, u32, u32> {
        let Worker {
            driver,
            deferred: _deferred,
            last: _last,
        } = self;
        driver
    }

    /// What a request owned that is over, and was let go last.
    pub fn take_resources(&mut self) -> Option<Retired> {
        self.deferred.resources.pop_back()
    }

    /// Admits a request that a task of the worker waits for. None where it is refused.
    pub fn admit(
        &mut self,
        alloc: Global,
        request: Request,
        opens: &mut Opens,
        store: &mut Store,
    ) -> Option<WaiterId> {
        let observer = Observer::Local(None);
        self.driver
            .admit(
                alloc,
                request,
                observer,
                0,
                opens,
                &mut self.deferred,
                store,
            )
            .ok()
    }

    /// A request takes its place in the line of its open. It fails where it may not.
    pub fn join(&self, rt: &impl Abort, worker: u32, id: WaiterId, opens: &mut Opens) {
        demand(rt, self.driver.may_join(id, opens), "it may not join");
        self.driver.join(worker, id, opens);
    }

    /// A whole service by worker, moment in nanoseconds and whether the entry is put off. It fails where something is due
    /// that was not told, or where the ring has no entry.
    pub fn serve(
        &mut self,
        rt: &impl Abort,
        alloc: Global,
        (worker, now, defer): (u32, u64, bool),
        opens: &mut Opens,
    ) -> bool {
        let ends = self.driver.len().checked_add(1);
        let ends = ends.expect(rt, "too many requests");
        make_room(rt, alloc, &mut self.deferred, ends);
        refuse(rt, self.driver.has_due(), "something is due");
        demand(rt, self.driver.ring_size() > 0, "the ring has no entry");
        let (told, last) = (&mut self.deferred, &mut self.last);
        self.driver.service(worker, now, defer, opens, told, last)
    }

    /// A result comes from the kernel. `Unlawful` where it may not come; then nothing changes.
    pub fn land(
        &mut self,
        rt: &impl Abort,
        id: WaiterId,
        given: OpResult,
        store: &mut Store,
    ) -> Result<(), Unlawful> {
        demand(
            rt,
            self.driver.may_land(id, given, store),
            "it may not land",
        );
        self.driver.land(id, given, store)
    }

    /// The wheel advances to this moment, in nanoseconds. It fails where something due was not told.
    pub fn advance(&mut self, rt: &impl Abort, now: u64) {
        demand(rt, self.driver.is_settled(), "something is due");
        self.driver.advance(now);
    }

    /// When the next deadline comes, in nanoseconds.
    pub fn next_deadline(&self, rt: &impl Abort) -> Option<u64> {
        demand(rt, self.driver.is_settled(), "something is due");
        self.driver.next_deadline()
    }

    /// Tells the first request that is due.
    pub fn expire(&mut self, rt: &impl Abort, alloc: Global) -> Option<WaiterId> {
        make_room(rt, alloc, &mut self.deferred, 1);
        self.driver.expire(&mut self.deferred)
    }

    /// The first request that has a deadline goes on the wheel, or ends since it is late or too far off.
    pub fn enrol(&mut self, rt: &impl Abort, alloc: Global, now: u64) -> Option<Enrolled> {
        make_room(rt, alloc, &mut self.deferred, 1);
        demand(rt, self.driver.is_settled(), "something is due");
        self.driver.enrol(now, &mut self.deferred)
    }

    /// Takes the permit of this open, as worker 0, where it waits for one.
    pub fn grant(
        &mut self,
        rt: &impl Abort,
        alloc: Global,
        file: u32,
        opens: &mut Opens,
    ) -> Option<Granted> {
        make_room(rt, alloc, &mut self.deferred, 1);
        self.driver.grant(0, file, opens, &mut self.deferred)
    }

    /// Stages the first request that may be, and lets the kernel take it in.
    pub fn stage(&mut self, rt: &impl Abort, opens: &Opens) -> Option<WaiterId> {
        demand(rt, self.driver.may_stage(), "nothing may be staged");
        refuse(rt, self.driver.is_full(), "the queue is full");
        refuse(rt, self.driver.has_enrolments(), "not enrolled");
        let staged = self.driver.stage(opens);
        let _taken = self.enter();
        staged
    }

    /// The kernel takes in what was staged.
    pub fn enter(&mut self) -> Entered {
        self.driver.enter()
    }

    /// Stages the first cancel. It fails where the submission queue is full.
    pub fn stage_cancel(&mut self, rt: &impl Abort) -> Option<WaiterId> {
        refuse(rt, self.driver.is_full(), "the queue is full");
        self.driver.stage_cancel()
    }

    /// Takes the next completion.
    pub fn reap(&mut self, rt: &impl Abort, alloc: Global, opens: &mut Opens) -> Option<Reaped> {
        make_room(rt, alloc, &mut self.deferred, 1);
        self.driver.reap(opens, &mut self.deferred)
    }

    /// A task looks at a request. It fails where it may not.
    pub fn observe(
        &mut self,
        rt: &impl Abort,
        id: WaiterId,
        task: u32,
    ) -> Observation<RequestOutput> {
        demand(rt, self.driver.may_be_seen(id), "it may not be seen");
        self.driver.observe(id, TaskNo(task))
    }

    /// The outcome of a request is to be sent on.
    pub fn forward(&mut self, rt: &impl Abort, alloc: Global, id: WaiterId, sender: u32) {
        make_room(rt, alloc, &mut self.deferred, 1);
        self.driver.forward(id, sender, &mut self.deferred);
    }

    /// Nobody waits for a request any more.
    pub fn orphan(&mut self, rt: &impl Abort, alloc: Global, id: WaiterId) {
        make_room(rt, alloc, &mut self.deferred, 2);
        self.driver.orphan(id, &mut self.deferred);
    }

    /// The next request loses its observer, as the worker closes.
    pub fn close(&mut self, rt: &impl Abort, alloc: Global) -> Option<WaiterId> {
        make_room(rt, alloc, &mut self.deferred, 2);
        self.driver.close(&mut self.deferred)
    }

    /// Another task waits for a request. It fails where the request is not observed here.
    pub fn set_waker(&mut self, rt: &impl Abort, id: WaiterId, task: u32) -> Option<TaskNo> {
        demand(rt, self.driver.is_observed_here(id), "no task waits for it");
        self.driver.set_waker(id, TaskNo(task))
    }

    /// The worker makes ready to sleep on its ring, and then waits no more. It fails where the word doesn't stand armed
    /// just where it may sleep.
    pub fn park(&mut self, rt: &impl Abort, calm: bool) -> bool {
        let mut word = Word::new(calm);
        let waits = self.driver.park(0, &mut word);
        demand(rt, word.armed == waits, "its word says otherwise");
        if waits {
            word.disarm();
        }
        waits
    }

    /// Stages the poll of the wake, where it is wanted.
    pub fn stage_wake_poll(&mut self) -> bool {
        self.driver.stage_wake_poll()
    }

    /// Whether a service that may put it off has to enter.
    pub fn must_enter(&self) -> bool {
        self.driver.must_enter(true, &self.deferred)
    }

    /// A wake is raised, which ends the wake poll.
    pub fn wake_last(&mut self) {
        self.driver.last();
        self.driver.raise();
    }

    /// The kernel is busy, and takes in nothing at the next enter.
    pub fn busy(&mut self) {
        self.driver.busy();
    }

    /// How many of each list there are: wakes, outputs, resources, completions, results.
    pub fn counts(&self) -> Counts {
        counts(&self.deferred)
    }
}
