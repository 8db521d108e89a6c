//! Acts that make something, or let it go: requests and sleepers.
//!
//! What needs memory is made first, in one call that may be refused; then nothing else has changed. Requests and sleepers
//! get the next numbers.

ghost use Rattle.std.specs.Prelude.{◌≡◌, ◌+◌, ◌*◌, ◌^◌, ◌<◌, ◌≤◌, false, length, is_some, min, slice_get, ℕ, Some, IfOk, OnErr, OnOk};
ghost use Rattle.exec_base.specs.declared.limits.TheConstants.{LONGEST_TIMEOUT};
ghost use Rattle.exec_waiters.specs.Told.{HasPlaces, Tells, nothing_told};
ghost use Rattle.exec_machine.specs.Requests.{new_request, outcome_if_late, resolved_if};
ghost use Rattle.exec_invariants.specs.Admitting.{MayMake, MakesRoom, Refuses, HasPlaceAt, HasRoomFor, HasRoomForSleep, TakesBed, TakesIn, NamesOne, Registers, Sleeps, has_open, joined_at, joins_gate, most_told, seeing};
ghost use Rattle.exec_parts.specs.{Awaits.{DropsHere, MayLetGo}, Polls.OfSlot, Records.{HasRequestRoom, IsInRange, numbers_held}, View.driver_of};

use exec_base::error::Error;
use exec_base::limits::LONGEST_TIMEOUT;
use exec_base::task_no::TaskNo;
use exec_machine::event::Event;
use exec_machine::state::{Operation, Waiting};
use exec_moves::place::{InPoll, Place};
use exec_opens::opens::Opens;
use exec_outcomes::outcome::{Kind, Outcome};
use exec_parts::parts::mail::MESSAGES;
use exec_parts::parts::record::{Record, is_durable, is_of_file, operation_of};
use exec_parts::parts::shared::Shared;
use exec_parts::parts::sleeping::SleeperRecord;
use exec_parts::parts::worker::Worker;
use exec_parts::scripted::Scripted;
use exec_request::request::Request;
use exec_spawning::spawning::refused;
use exec_task::body::Said;
use exec_time::timers::TimerId;
use exec_waiters::observer::Observer;
use exec_waiters::waiter_id::WaiterId;
use std::alloc::{AllocError, Global};

/// The task makes a request. One whose deadline has passed is over at once. Err comes only for want of memory or of a
/// number, also where the open that it names isn't there; then the body is told so, and
/// nothing else has changed. The caller must know that there is such
/// a task, that the worker has a seat, a number for each slot, and no more requests that have ended than count as
/// unreleased, and that the range of a direct read begins below 2^64.
pub fn register<B: Scripted + Drop>(
    worker: &mut Worker,
    alloc: Global,
    task: usize,
    request: Request,
    shared: &mut Shared<B>,
) -> Result<Event, AllocError>
    requires there { task < length shared.old.tasks.items }
    requires seat { worker.old.index < length shared.old.seats.items }
    requires range { IsInRange request }
    requires may { MayMake worker.old }
    ensures made { IfOk result (Registers task request worker.old worker.new shared.old shared.new) }
    ensures refused { OnErr result (Refuses task worker.old worker.new shared.old shared.new) }
{
    let operation = operation_of(&request);
    let number = shared.requests.len();
    let Ok(id) = admit(worker, alloc, task, request, shared) else {
        shared.tasks[task].tell(refused());
        return Err(AllocError);
    };
    let record = name_record(worker, id, number, seeing(operation, &shared.opens));
    shared.requests.push_reserved(record);
    let slot = &mut shared.tasks[task];
    slot.hold(number, worker.index);
    slot.tell(Said::Admitted(number as u32));
    shared.seats[worker.index].count_made();
    worker.place = Place::Poll(task, after_admission(number, operation.kind));
    Ok(Event::Admit {
        request: number,
        kind: operation.kind,
        outcome: record.outcome(),
    })
}

/// The record of a request that was admitted, which has this number from now on. It is over at once where its
/// deadline has passed.
fn name_record(worker: &mut Worker, id: WaiterId, number: usize, operation: Operation) -> Record
    requires room { HasRequestRoom worker.old.names }
    requires slot { id.0.index ≤ length worker.old.names.requests.items }
    requires over { length worker.old.names.ended.items ≤ worker.old.names.unreleased }
    ensures id { result.id ≡ id }
    ensures shown { result.shown ≡ resolved_if (outcome_if_late worker.old.moments.sampled operation.deadline) (new_request worker.old.index operation) }
    ensures sent { result.sent ≡ false }
    ensures names { NamesOne id number (is_some (outcome_if_late worker.old.moments.sampled operation.deadline)) worker.old.names worker.new.names }
    ensures same { worker.new ≡ record worker.old { names = worker.new.names } }
{
    let mut record = Record::new(worker.index, id, operation);
    worker.names.name_request(id, number);
    if is_late(operation.deadline, worker.moments.sampled) {
        record.resolve(Outcome::Failure(Error::Timeout));
        worker.names.end(number);
    }
    record
}

/// Makes room for one more request everywhere, and takes it in. On Err nothing that can be seen has changed. There is
/// no room for one of a file whose open isn't there, which no plan has.
fn admit<B: Scripted + Drop>(
    worker: &mut Worker,
    alloc: Global,
    task: usize,
    request: Request,
    shared: &mut Shared<B>,
) -> Result<WaiterId, AllocError>
    requires there { task < length shared.old.tasks.items }
    requires seat { worker.old.index < length shared.old.seats.items }
    ensures admitted { IfOk result (λ id. TakesIn task request id worker.old worker.new shared.old shared.new) }
    ensures kept { OnErr result (MakesRoom task (λ slot. slot.told) worker.old worker.new shared.old shared.new) }
{
    let Ok(()) = make_room(worker, alloc, task, shared) else {
        // Let go by a call, so that its drop is proved once (docs/DECISIONS.md, 49).
        drop(request);
        return Err(AllocError);
    };
    if !has_open(&request, &shared.opens) {
        drop(request);
        return Err(AllocError);
    }
    worker.home.driver.lists_requests();
    match worker.home.driver.admit(
        alloc,
        request,
        Observer::Local(None),
        worker.moments.sampled,
        &mut shared.opens,
        &mut worker.home.deferred,
        &mut shared.store,
    ) {
        Ok(id) => Ok(id),
        Err(refused) => {
            drop(refused);
            Err(AllocError)
        }
    }
}

/// Makes room for one more request everywhere but at the driver. A body is told of it by 32 bits.
fn make_room<B: Drop>(
    worker: &mut Worker,
    alloc: Global,
    task: usize,
    shared: &mut Shared<B>,
) -> Result<(), AllocError>
    requires there { task < length shared.old.tasks.items }
    requires seat { worker.old.index < length shared.old.seats.items }
    ensures kept { MakesRoom task (λ slot. slot.told) worker.old worker.new shared.old shared.new }
    ensures driver { worker.new.home.driver ≡ worker.old.home.driver }
    ensures store { shared.new.store ≡ shared.old.store }
    ensures room { OnOk result (HasRoomFor task worker.new shared.new) }
{
    if shared.requests.len() > u32::MAX as usize {
        return Err(AllocError);
    }
    shared.requests.reserve(1)?;
    shared.tasks[task].reserve(alloc)?;
    worker.names.reserve_request(alloc)?;
    shared.seats[worker.index].reserve_mail(alloc, &mut worker.batch)?;
    reserve_told(worker, alloc)
}

/// Makes room for what one more request or sleeper leaves to be told.
fn reserve_told(worker: &mut Worker, alloc: Global) -> Result<(), AllocError>
    ensures untold { Tells worker.old.home.deferred worker.new.home.deferred nothing_told }
    ensures same { worker.new ≡ record worker.old { home = record worker.old.home { deferred = worker.new.home.deferred } } }
    ensures room { OnOk result (HasPlaces worker.new.home.deferred (most_told worker.new)) }
{
    let most = untold_at_most(worker.names.slots(), worker.home.timers.len())?;
    worker.home.deferred.reserve(alloc, most)
}

/// The durable request that the task has just made joins the gate of its open. The caller must know that there is
/// such a request, that the worker has a number of 32 bits, and that a place was made at the gate.
pub(crate) fn join_gate<B: Drop>(
    worker: &mut Worker,
    task: usize,
    request: usize,
    shared: &mut Shared<B>,
) -> Event
    requires there { request < length shared.old.requests.items }
    requires few { worker.old.index < 2 ^ 32 }
    requires made { (r : Record) → slice_get shared.old.requests.items request ≡ Some r → HasPlaceAt (driver_of worker.old) r.id shared.old.opens }
    ensures event { result ≡ Event.Turn }
    ensures worker { worker.new ≡ record worker.old { place = Place.Poll task InPoll.Act } }
    ensures opens { (r : Record) → slice_get shared.old.requests.items request ≡ Some r → shared.new.opens ≡ joined_at (driver_of worker.old) worker.old.index r.id shared.old.opens }
    ensures kept { shared.new ≡ record shared.old { opens = shared.new.opens } }
{
    let id = shared.requests[request].id;
    worker
        .home
        .driver
        .join(worker.index as u32, id, &mut shared.opens);
    worker.place = Place::Poll(task, InPoll::Act);
    Event::Turn
}

/// The task lets go of the newest request that it holds, which this worker has.
pub(crate) fn drop_request<B: Scripted + Drop>(
    worker: &mut Worker,
    task: usize,
    request: usize,
    shared: &mut Shared<B>,
) -> Event
    requires there { task < length shared.old.tasks.items }
    requires holds { OfSlot task shared.old (λ slot. 0 < length (numbers_held slot.held.items)) }
    requires may { MayLetGo request worker.old shared.old }
    ensures drops { DropsHere task request worker.old worker.new shared.old shared.new result }
{
    let slot = &mut shared.tasks[task];
    slot.let_go();
    slot.tell(Said::Pass);
    worker.orphan_request(request, shared);
    worker.place = Place::Poll(task, InPoll::Act);
    Event::Drop { request }
}

/// The task sleeps for some nanoseconds, of which the most is the longest timeout. Err as of `register`. The caller must know that there
/// is such a task, that the worker has a seat, a number for each slot, and no more requests that have ended than
/// count as unreleased, and that it sampled a moment of 2^62 at most.
pub(crate) fn sleep_for<B: Scripted + Drop>(
    worker: &mut Worker,
    alloc: Global,
    task: usize,
    time: u64,
    shared: &mut Shared<B>,
) -> Result<Event, AllocError>
    requires there { task < length shared.old.tasks.items }
    requires seat { worker.old.index < length shared.old.seats.items }
    requires early { worker.old.moments.sampled ≤ 2 ^ 62 }
    requires may { MayMake worker.old }
    ensures made { IfOk result (Sleeps task (worker.old.moments.sampled + min time LONGEST_TIMEOUT) worker.old worker.new shared.old shared.new) }
    ensures refused { OnErr result (Refuses task worker.old worker.new shared.old shared.new) }
{
    let until = worker.moments.sampled + time.min(LONGEST_TIMEOUT);
    let waker = shared.tasks[task].number();
    let Ok(id) = make_sleeper(worker, alloc, until, waker, shared) else {
        shared.tasks[task].tell(refused());
        return Err(AllocError);
    };
    let timer = shared.sleepers.len();
    worker.names.name_timer(id, timer);
    shared
        .sleepers
        .push_reserved(SleeperRecord::new(until, worker.index, task, id));
    shared.seats[worker.index].count_made();
    shared.tasks[task].wait_for(Waiting::Timer(timer));
    worker.place = Place::Poll(task, InPoll::Pend);
    Ok(Event::Timer { timer, until })
}

/// Makes room for one more sleeper everywhere, and makes it. On Err nothing that can be seen has changed.
fn make_sleeper<B: Drop>(
    worker: &mut Worker,
    alloc: Global,
    until: u64,
    waker: TaskNo,
    shared: &mut Shared<B>,
) -> Result<TimerId, AllocError>
    requires seat { worker.old.index < length shared.old.seats.items }
    ensures made { IfOk result (λ id. (task : ℕ) → task < length shared.old.tasks.items → TakesBed task until waker id worker.old worker.new shared.old shared.new) }
    ensures kept { OnErr result ((task : ℕ) → task < length shared.old.tasks.items → MakesRoom task (λ slot. slot.told) worker.old worker.new shared.old shared.new) }
{
    make_room_for_sleep(worker, alloc, shared)?;
    let Ok(id) = worker.home.timers.insert(alloc, until, waker) else {
        return Err(AllocError);
    };
    Ok(id)
}

/// Makes room for one more sleeper everywhere but among the sleepers.
fn make_room_for_sleep<B: Drop>(
    worker: &mut Worker,
    alloc: Global,
    shared: &mut Shared<B>,
) -> Result<(), AllocError>
    requires seat { worker.old.index < length shared.old.seats.items }
    ensures kept { (task : ℕ) → task < length shared.old.tasks.items → MakesRoom task (λ slot. slot.told) worker.old worker.new shared.old shared.new }
    ensures driver { worker.new.home.driver ≡ worker.old.home.driver }
    ensures store { shared.new.store ≡ shared.old.store }
    ensures room { OnOk result (HasRoomForSleep worker.new shared.new) }
{
    shared.sleepers.reserve(1)?;
    worker.names.reserve_timer(alloc)?;
    shared.seats[worker.index].reserve_mail(alloc, &mut worker.batch)?;
    reserve_told(worker, alloc)
}

/// What follows the admission of a request of this number and kind: a durable one joins the gate of its open.
fn after_admission(request: usize, kind: Kind) -> InPoll
    ensures { result ≡ joins_gate request kind }
{
    if is_durable(kind) {
        InPoll::JoinGate { request }
    } else {
        InPoll::Act
    }
}

/// Whether the open of a request is there, where that is of a file.
fn has_open(request: &Request, opens: &Opens) -> bool
    ensures { result ≡ has_open request.now opens.now }
{
    match request {
        Request::ReadAt(read) => opens.account(Some(read.file)).is_some(),
        Request::WriteAt(write) => opens.account(Some(write.file)).is_some(),
        Request::Sync(sync) => opens.account(Some(sync.file)).is_some(),
        _ => true,
    }
}

/// What a request that was made asks for, with the changes that its open has.
fn seeing(operation: Operation, opens: &Opens) -> Operation
    ensures { result ≡ seeing opens.now operation }
{
    if !is_of_file(operation.kind) {
        return operation;
    }
    let seen = match opens.account(u32::try_from(operation.target).ok()) {
        Some(account) => account.begin_sync(),
        None => 0,
    };
    Operation { seen, ..operation }
}

/// So much may be told of so many requests and sleepers, and of one more, and by the messages of a turn. Err where there
/// can be no room for that.
fn untold_at_most(requests: usize, sleepers: usize) -> Result<usize, AllocError>
    ensures { IfOk result (λ most. most ≡ 2 * requests + sleepers + (4 + 2 * 64)) }
{
    let twice = requests.checked_mul(2).ok_or(AllocError)?;
    let all = twice.checked_add(sleepers).ok_or(AllocError)?;
    all.checked_add(4 + 2 * MESSAGES).ok_or(AllocError)
}

/// Whether a deadline has passed at this moment.
fn is_late(deadline: Option<u64>, now: u64) -> bool
    ensures { result ≡ is_some (outcome_if_late now deadline) }
{
    match deadline {
        Some(deadline) => deadline <= now,
        None => false,
    }
}
