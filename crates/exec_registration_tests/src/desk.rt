//! A worker with its mail, for registrations: its calls make room to tell, and test what registrations ask for.

ghost use Rattle.std.specs.Prelude.{◌≡◌, IsTrue, true, false};
ghost use Rattle.exec_base.specs.Slab.{value_at};
ghost use Rattle.exec_driver.specs.Driving.{seen};
ghost use Rattle.exec_registration.specs.declared.registration.RegistrationState.{RegistrationState as state};
ghost use Rattle.exec_time.specs.{Sleepers.is_forwarded, declared.timers.TimerId.TimerId as Timer, Notes.HasRoom};
ghost use Rattle.exec_waiters.specs.{States.may_be_seen, Told.HasPlaces, declared.waiter_id.WaiterId.WaiterId as Name};

use crate::found::{demand, holds, refuse, same};
use crate::mail::Mail;
use exec_base::error::Error;
use exec_base::one_shot::OneShot;
use exec_base::slab::Id;
use exec_base::task_no::TaskNo;
use exec_driver::driver::{Driver, Reaped};
use exec_driver::home::Home;
use exec_opens::opens::Opens;
use exec_outcomes::outcome::OpResult;
use exec_registration::mail::{Cancel, Forward};
use exec_registration::operation::{Operation, Started, start_sync};
use exec_registration::registration::{Registration, RegistrationState};
use exec_request::output::RequestOutput;
use exec_request::poll::PollRequest;
use exec_request::request::Request;
use exec_request::sync::SyncRequest;
use exec_ring::landing::Unlawful;
use exec_ring::sim_ring::SimRing;
use exec_ring::store::Store;
use exec_time::notes::{ForwardedResult, Notes};
use exec_time::timers::TimerId;
use exec_time::wheel::TimeoutWheel;
use exec_waiters::deferred::{Answer, Deferred};
use exec_waiters::waiter_id::WaiterId;
use std::alloc::Global;
use std::marker::Model;
use std::mem;
use std::process::Abort;

type Ours = Home<SimRing, u32, u32>;

/// The name of a request by its slot, and by how often that was taken before.
pub fn name(index: u32, generation: u64) -> WaiterId {
    WaiterId(Id { index, generation })
}

/// What a request that was sent on is answered by.
pub type Awaited = OneShot<Result<RequestOutput, Error>>;

/// Makes room for so many in each list of what is to be told. It fails where memory is wanting.
fn make_room(rt: &impl Abort, alloc: Global, told: &mut Deferred<u32, u32>, n: usize)
    ensures { HasPlaces told.new n }
{
    if told.reserve(alloc, n).is_err() {
        panic!(rt; "no memory");
    }
}

/// Makes room for so many wakes and outcomes. It fails where memory is wanting.
fn make_notes(rt: &impl Abort, alloc: Global, notes: &mut Notes<u32>, n: usize)
    ensures { HasRoom notes.new n }
{
    if notes.reserve(alloc, n).is_err() {
        panic!(rt; "no memory");
    }
}

/// A worker with its mail.
#[derive(Drop)]
pub struct Desk {
    home: Ours,
    mail: Mail,
}

impl Model for Desk {
    ghost Value = { Unit {0} };

    ghost view = { λ _. tt };
}

impl Desk {
    /// A worker with this number, over a ring of four entries. None where memory is wanting.
    pub fn new(alloc: Global, worker: u32, store: &mut Store) -> Option<Self> {
        TimeoutWheel::validate_layout(1000, 100).ok()?;
        let ring = SimRing::new(alloc, 4).ok()?;
        let driver = Driver::new(alloc, ring, 1000, 100, 0, store).ok()?;
        Some(Desk::with(alloc, worker, driver))
    }

    /// A worker with this number and this driver, of which nothing was asked.
    fn with(alloc: Global, worker: u32, driver: Driver<SimRing, u32, u32>) -> Self {
        let home = Home::new(alloc, worker, driver);
        let mail = Mail::new();
        Desk { home, mail }
    }

    /// How many places are reserved in its mail.
    pub fn places(&self) -> usize {
        self.mail.places
    }

    /// Whether nothing was asked of another worker.
    pub fn is_unasked(&self) -> bool {
        self.mail.is_empty()
    }

    /// Whether it has no request that is not over.
    pub fn is_empty(&self) -> bool {
        self.home.driver.is_empty()
    }

    /// Whether a cancel is to be staged.
    pub fn has_cancels(&self) -> bool {
        self.home.driver.has_cancels()
    }

    /// The tasks that are to be woken.
    pub fn wakes(&self) -> &[TaskNo] {
        self.home.deferred.notes.wakes.as_slices().0
    }

    /// The worker closes.
    pub fn close(&mut self) {
        self.home.closing = true;
    }

    /// Its mail closes.
    pub fn close_mail(&mut self) {
        self.mail.closed = true;
    }

    /// The forward that was sent last.
    pub fn take_forward(&mut self) -> Option<Forward<u32, u32>> {
        mem::replace(&mut self.mail.forwarded, None)
    }

    /// The cancel that was sent last.
    pub fn take_cancel(&mut self) -> Option<Cancel> {
        mem::replace(&mut self.mail.cancelled, None)
    }

    /// The result that is to be sent on, with its sender.
    pub fn take_result(&mut self) -> Option<Answer<u32>> {
        self.home.deferred.results.pop_back()
    }

    /// The outcome that is to be sent last, with its sender.
    pub fn take_completion(&mut self) -> Option<ForwardedResult<u32>> {
        self.home.deferred.notes.completions.pop_back()
    }

    /// Registers a readiness poll of listener 1. None where memory is wanting.
    pub fn listen(
        &mut self,
        alloc: Global,
        opens: &mut Opens,
        store: &mut Store,
    ) -> Option<Operation> {
        let request = Request::Poll(PollRequest::new(1, None));
        let (home, mail) = (&mut self.home, &mut self.mail);
        Operation::register(alloc, request, home, 0, opens, store, mail).ok()
    }

    /// Makes a sleeper of a task that wakes at this moment, in nanoseconds. None where memory is wanting.
    pub fn insert_sleeper(&mut self, alloc: Global, at: u64, task: u32) -> Option<TimerId> {
        self.home.timers.insert(alloc, at, TaskNo(task)).ok()
    }

    /// How many sleepers there are.
    pub fn sleepers(&self) -> usize {
        self.home.timers.len()
    }

    /// Wakes the sleepers whose moment, in nanoseconds, has come. It fails where memory is wanting.
    pub fn wake_sleepers(&mut self, rt: &impl Abort, alloc: Global, now: u64) {
        let (timers, notes) = (&mut self.home.timers, &mut self.home.deferred.notes);
        make_notes(rt, alloc, notes, timers.len());
        timers.expire(now, notes);
    }

    /// Begins a sync of open 0 with sender 5, of which the caller saw so many writes. None where it is refused, or where
    /// there is no open.
    pub fn begin_sync(
        &mut self,
        alloc: Global,
        seen: u64,
        opens: &mut Opens,
        store: &mut Store,
    ) -> Option<Started> {
        if opens.len() == 0 {
            return None;
        }
        let sync = SyncRequest::new(0, seen);
        start_sync(alloc, sync, 5, &mut self.home, opens, store).ok()
    }

    /// The worker, which has number 0, takes the permit of open 0.
    pub fn grant_first(&mut self, rt: &impl Abort, alloc: Global, opens: &mut Opens) {
        make_room(rt, alloc, &mut self.home.deferred, 1);
        let (driver, told) = (&mut self.home.driver, &mut self.home.deferred);
        driver.grant(0, 0, opens, told);
    }

    /// Applies a cancel that came from elsewhere. It fails where none came.
    pub fn apply_cancel(&mut self, rt: &impl Abort, alloc: Global, cancel: Option<Cancel>) {
        make_room(rt, alloc, &mut self.home.deferred, 2);
        match cancel {
            Some(cancel) => cancel.apply(&mut self.home),
            None => panic!(rt; "no cancel"),
        }
    }

    /// Stages the first request that was ever named.
    pub fn stage_first(&mut self, rt: &impl Abort, opens: &Opens) {
        holds(rt, 0, self.stage(rt, opens).is_some());
    }

    fn stage(&mut self, rt: &impl Abort, opens: &Opens) -> Option<WaiterId> {
        let driver = &mut self.home.driver;
        demand(rt, driver.may_stage(), "nothing may be staged");
        refuse(rt, driver.is_full(), "the queue is full");
        refuse(rt, driver.has_enrolments(), "not enrolled");
        driver.stage(opens)
    }

    /// The operation of the first request fails with error number 5, and is taken in.
    pub fn fail_first(
        &mut self,
        rt: &impl Abort,
        alloc: Global,
        opens: &mut Opens,
        store: &mut Store,
    ) {
        self.stage_first(rt, opens);
        self.enter();
        same(rt, 1, &self.land_failed(rt, store), &Ok(()));
        let reaped = self.reap(rt, alloc, opens);
        holds(rt, 2, reaped.is_some());
        drop(reaped);
    }

    fn enter(&mut self) {
        self.home.driver.enter();
    }

    fn land_failed(&mut self, rt: &impl Abort, store: &mut Store) -> Result<(), Unlawful> {
        let (driver, id, given) = (&mut self.home.driver, name(0, 0), OpResult::Errno(5));
        demand(rt, driver.may_land(id, given, store), "it may not land");
        driver.land(id, given, store)
    }

    fn reap(&mut self, rt: &impl Abort, alloc: Global, opens: &mut Opens) -> Option<Reaped> {
        make_room(rt, alloc, &mut self.home.deferred, 1);
        let (driver, told) = (&mut self.home.driver, &mut self.home.deferred);
        driver.reap(opens, told)
    }

    /// Polls a registration for a task, with sender 9.
    pub fn poll(
        &mut self,
        rt: &impl Abort,
        alloc: Global,
        op: &mut Operation,
        task: u32,
        answer: &mut Awaited,
    ) -> Result<Option<RequestOutput>, Error> {
        make_room(rt, alloc, &mut self.home.deferred, 2);
        demand(rt, may_poll(op, &self.home), "it may not be polled");
        op.poll(TaskNo(task), &mut self.home, 9, &mut self.mail, answer)
    }

    /// Polls a registration of a sleeper for a task, with sender 9.
    pub fn wait(
        &mut self,
        rt: &impl Abort,
        alloc: Global,
        sleep: &mut Registration<TimerId>,
        task: u32,
        answer: &mut OneShot<Result<(), Error>>,
    ) -> Result<Option<()>, Error> {
        make_room(rt, alloc, &mut self.home.deferred, 2);
        demand(rt, may_wait(sleep, &self.home), "it may not be polled");
        sleep.poll(TaskNo(task), &mut self.home, 9, &mut self.mail, answer)
    }

    /// Applies a forward that came from elsewhere.
    pub fn apply(&mut self, rt: &impl Abort, alloc: Global, forward: Forward<u32, u32>) {
        match forward {
            Forward::Timer(id, sender) => self.forward_sleeper(rt, alloc, id, sender),
            Forward::Waiter(id, sender) => self.forward(rt, alloc, id, sender),
        }
    }

    fn forward_sleeper(&mut self, rt: &impl Abort, alloc: Global, id: TimerId, sender: u32) {
        make_notes(rt, alloc, &mut self.home.deferred.notes, 1);
        refuse(rt, self.home.timers.is_forwarded(id), "it is forwarded");
        let forward: Forward<u32, u32> = Forward::Timer(id, sender);
        forward.apply(&mut self.home);
    }

    fn forward(&mut self, rt: &impl Abort, alloc: Global, id: WaiterId, sender: u32) {
        make_room(rt, alloc, &mut self.home.deferred, 1);
        let forward: Forward<u32, u32> = Forward::Waiter(id, sender);
        forward.apply(&mut self.home);
    }

    /// Lets a registration go.
    pub fn release(&mut self, rt: &impl Abort, alloc: Global, op: Operation) {
        make_room(rt, alloc, &mut self.home.deferred, 2);
        op.release(&mut self.home, &mut self.mail);
    }

    /// Polls a registration for who has no worker, with sender 9. `Full` where it is over.
    pub fn poll_away(
        &mut self,
        op: &mut Operation,
        answer: &mut Awaited,
    ) -> Result<Option<RequestOutput>, Error> {
        match op.state() {
            RegistrationState::Done => Err(Error::Full),
            _ => op.poll_elsewhere(9, &mut self.mail, answer),
        }
    }

    /// Who has no worker lets a registration go.
    pub fn release_away(&mut self, op: Operation) {
        op.release_elsewhere::<u32, u32, Mail>(&mut self.mail);
    }

    /// Lets a registration of a sleeper go.
    pub fn release_sleeper(
        &mut self,
        rt: &impl Abort,
        alloc: Global,
        sleep: Registration<TimerId>,
    ) {
        make_room(rt, alloc, &mut self.home.deferred, 2);
        sleep.release(&mut self.home, &mut self.mail);
    }

    /// Who has no worker lets a registration of a sleeper go.
    pub fn release_sleeper_away(&mut self, sleep: Registration<TimerId>) {
        sleep.release_elsewhere::<u32, u32, Mail>(&mut self.mail);
    }
}

/// Whether a registration may be polled: it isn't over, and its own worker's task may look at it.
fn may_poll(op: &Operation, home: &Ours) -> bool
    ensures goes_on { IsTrue result → op.now ≡ state.Done → ⊥ }
    ensures seen { IsTrue result → (key : Name) → op.now ≡ state.Waiting home.now.worker key → home.now.closing ≡ false → may_be_seen (value_at (seen home.now.driver).requests key.0) ≡ true }
{
    match op.state() {
        RegistrationState::Done => false,
        RegistrationState::Waiting(at, key) if at == home.worker && !home.closing => {
            home.driver.may_be_seen(key)
        }
        _ => true,
    }
}

/// Whether a registration of a sleeper may be polled: it isn't over, and the sleeper isn't forwarded.
fn may_wait(sleep: &Registration<TimerId>, home: &Ours) -> bool
    ensures goes_on { IsTrue result → sleep.now ≡ state.Done → ⊥ }
    ensures seen { IsTrue result → (at : _) (key : Timer) → sleep.now ≡ state.Waiting at key → is_forwarded (value_at home.now.timers key.0) ≡ false }
{
    match sleep.state() {
        RegistrationState::Done => false,
        RegistrationState::Waiting(_, key) => !home.timers.is_forwarded(key),
        _ => true,
    }
}
