//! The callbacks: what a service, an act or a closing left to be told and let go, one item a step.
//!
//! Nothing is added to the batch while it is worked off: only this worker adds to what it has to tell, and it does
//! nothing else meanwhile. So the batch is what there is. Wakes come first, then outputs that nobody takes, then what
//! requests owned that are over, then the ends of sleepers and the outputs that are sent to tasks elsewhere, each with
//! the wake of its task.
//!
//! A wake is paid by what its task waits for: a task waits for one thing at a time, so that is the thing that has ended.

ghost use Rattle.exec_messages.specs.Rooms.{GivesBack};
ghost use Rattle.exec_parts.specs.{declared.parts.record.Record.Record, Calls.{IsUnpaid, KeepsRoom, releasing, IsTold}, MailTakes.{IsSentEnd, IsSentOutput, MaySendEnd, MaySendOutput, MayWakeNext, WakesHearer, WakesNext, WakesWaiter, after_sending_of, queued_after, thing_heard}, Serving.changed_at, Tests.{after_callbacks_of, is_anything_told, leave_of, next_callback_of}};
ghost use Rattle.exec_invariants.specs.{Sound.SoundAt, Whole.HasWhole, Works.Steps};
ghost use Rattle.std.specs.{Prelude.{◌+◌, ◌<◌, ◌≡◌, ℕ, ◌≤◌, length, drop, slice_get, slice_index_or, Some, if◌then◌else◌}, VecDeque.{deque_capacity, deque_len}};

use exec_machine::event::Event;
use exec_machine::state::{Operation, Waiting};
use exec_moves::handing::{AfterCallbacks, AfterLeave, AfterPush, Heard};
use exec_moves::place::{InCallbacks, Place};
use exec_outcomes::outcome::Kind;
use exec_parts::parts::mail::Reply;
use exec_parts::parts::shared::Shared;
use exec_parts::parts::worker::Worker;
use exec_parts::scripted::Scripted;
use exec_parts::waking::pay;
use exec_request::window::{Opcode, Window};
use exec_ring::store::Store;
use exec_task::runnable::Runnable;
use exec_time::notes::ForwardedResult;
use exec_waiters::deferred::Answer;
use std::collections::VecDeque;

/// Takes the next step of the callbacks. The caller must know that the worker is at this place and sound with what all
/// share, and that the balances of all parties hold.
pub fn callbacks<B: Scripted + Drop>(
    worker: &mut Worker,
    at: InCallbacks,
    next: AfterCallbacks,
    shared: &mut Shared<B>,
) -> Event
    requires sound { SoundAt (Place.Callbacks at next) worker.old shared.old }
    requires whole { HasWhole worker.old shared.old }
    ensures steps { Steps B.left B.spot worker.old shared.old result worker.new shared.new }
{
    match at {
        InCallbacks::TakeBatch => take_batch(worker, next),
        InCallbacks::CallBack => call_back(worker, next, shared),
        InCallbacks::WakeWaiter { task, of } => wake_hearer(worker, task, of, next, shared),
    }
}

/// Makes the next callback.
fn call_back<B: Scripted + Drop>(
    worker: &mut Worker,
    next: AfterCallbacks,
    shared: &mut Shared<B>,
) -> Event
    requires sound { SoundAt (Place.Callbacks InCallbacks.CallBack next) worker.old shared.old }
    requires whole { HasWhole worker.old shared.old }
    ensures steps { Steps B.left B.spot worker.old shared.old result worker.new shared.new }
{
    if !worker.home.deferred.notes.wakes.is_empty() {
        return wake_next(worker, next, shared);
    }
    if !worker.home.deferred.outputs.is_empty() {
        return let_go_output(worker, next);
    }
    if !worker.home.deferred.resources.is_empty() {
        return release_next(worker, next, shared);
    }
    if !worker.home.deferred.notes.completions.is_empty() {
        return send_end(worker, next, shared);
    }
    send_output(worker, next, shared)
}

/// Takes the batch. A search count that is held is returned before the first item.
fn take_batch(worker: &mut Worker, next: AfterCallbacks) -> Event
    ensures event { result ≡ Event.Turn }
    ensures goes { worker.new ≡ record worker.old {
      place = (if is_anything_told worker.old
          then leave_of (AfterLeave.CallBack next) worker.old else after_callbacks_of next worker.old);
    } }
{
    worker.place = if worker.has_callbacks() {
        worker.leave(AfterLeave::CallBack { next })
    } else {
        worker.after_callbacks(next)
    };
    Event::Turn
}

/// Wakes the next task for which something ended, and goes on to queue it where it was idle. The caller must know
/// that there is a wake to make, and that its task is there and waits for a request or a sleeper that has paid one
/// wake at most.
fn wake_next<B: Scripted + Drop>(
    worker: &mut Worker,
    next: AfterCallbacks,
    shared: &mut Shared<B>,
) -> Event
    requires may { MayWakeNext worker.old shared.old }
    ensures wakes { WakesNext next worker.old worker.new shared.old shared.new result }
{
    let number = take_first(&mut worker.home.deferred.notes.wakes);
    let task = number.0 as usize;
    let waited = shared.tasks[task].waiting();
    pay(waited, &mut shared.requests, &mut shared.sleepers);
    wake_waiter(worker, task, next, shared)
}

/// Wakes a task to which a result was sent, and goes on to queue it where it was idle. The caller must know that
/// there is such a task, and that the request or the sleeper is there and has paid one wake at most.
fn wake_hearer<B: Scripted + Drop>(
    worker: &mut Worker,
    task: usize,
    of: Heard,
    next: AfterCallbacks,
    shared: &mut Shared<B>,
) -> Event
    requires there { task < length shared.old.tasks.items }
    requires unpaid { IsUnpaid (thing_heard of) shared.old.requests.items shared.old.sleepers.items }
    ensures wakes { WakesHearer task of next worker.old worker.new shared.old shared.new result }
{
    pay(waited_for(of), &mut shared.requests, &mut shared.sleepers);
    wake_waiter(worker, task, next, shared)
}

/// Wakes a task. The own root is flagged where it was idle, any other is queued.
fn wake_waiter<B: Scripted + Drop>(
    worker: &mut Worker,
    task: usize,
    next: AfterCallbacks,
    shared: &mut Shared<B>,
) -> Event
    requires there { task < length shared.old.tasks.items }
    ensures wakes { WakesWaiter task next worker.old worker.new shared.old shared.new result }
{
    match shared.tasks[task].wake() {
        Some(runnable) => queue_woken(worker, task, runnable, next),
        None => worker.place = worker.next_callback(next),
    }
    Event::Wake { task }
}

/// A task that was woken is to be polled: the own root is flagged, and any other goes into a queue.
fn queue_woken(worker: &mut Worker, task: usize, runnable: Runnable, next: AfterCallbacks)
    ensures { worker.new ≡ queued_after task runnable next worker.old }
{
    if task == worker.root {
        worker.root_ready = Some(runnable);
        worker.place = worker.next_callback(next);
    } else {
        worker.hand = Some(runnable);
        worker.place = worker.first_push(AfterPush::CallBack { next });
    }
}

/// Sends a task elsewhere the end of its sleeper. Who isn't over is woken next. The caller must know that an end of
/// a sleeper is to be sent, and that the sleeper and its task are there.
fn send_end<B: Scripted + Drop>(
    worker: &mut Worker,
    next: AfterCallbacks,
    shared: &mut Shared<B>,
) -> Event
    requires may { MaySendEnd worker.old shared.old }
    ensures sends { IsSentEnd next worker.old worker.new shared.old shared.new result }
{
    let ForwardedResult { sender, result: _ } = take_first(
        &mut worker.home.deferred.notes.completions,
    );
    let Reply { task, of } = sender;
    let Heard::Timer(timer) = of else {
        unreachable!()
    };
    let task = task.0 as usize;
    shared.sleepers[timer].sent = true;
    let hears = !shared.tasks[task].is_over();
    worker.place = after_sending(worker, hears, task, of, next);
    Event::Turn
}

/// Sends a task elsewhere the output of its request. Who isn't over is woken next. The caller must know that an
/// output of a request is to be sent, and that the request and its task are there.
fn send_output<B: Scripted + Drop>(
    worker: &mut Worker,
    next: AfterCallbacks,
    shared: &mut Shared<B>,
) -> Event
    requires may { MaySendOutput worker.old shared.old }
    ensures sends { IsSentOutput next worker.old worker.new shared.old shared.new result }
{
    let Answer {
        id: _,
        sender,
        result,
    } = take_first(&mut worker.home.deferred.results);
    let Reply { task, of } = sender;
    let Heard::Request(request) = of else {
        unreachable!()
    };
    let task = task.0 as usize;
    shared.requests[request].sent = true;
    let hears = shared.tasks[task].send_output(result);
    worker.place = after_sending(worker, hears, task, of, next);
    Event::Turn
}

/// What follows a result that was sent: the wake of its task, where that hears of it.
fn after_sending(
    worker: &Worker,
    hears: bool,
    task: usize,
    of: Heard,
    next: AfterCallbacks,
) -> Place
    ensures { result ≡ after_sending_of hears task of next worker.now }
{
    if hears {
        Place::Callbacks(InCallbacks::WakeWaiter { task, of }, next)
    } else {
        worker.next_callback(next)
    }
}

/// Lets go of the first output that nobody takes. The caller must know that there is one.
fn let_go_output(worker: &mut Worker, next: AfterCallbacks) -> Event
    requires some { 0 < length worker.old.home.deferred.outputs.items }
    ensures event { result ≡ Event.Turn }
    ensures place { worker.new.place ≡ next_callback_of next worker.new }
    ensures outputs { worker.new.home.deferred.outputs.items ≡ drop 1 worker.old.home.deferred.outputs.items }
    ensures told { KeepsRoom worker.old.home.deferred worker.new.home.deferred }
    ensures wide { deque_capacity worker.new.home.deferred.outputs ≡ deque_capacity worker.old.home.deferred.outputs }
    ensures same { worker.new ≡ record worker.old { place = worker.new.place; home = record worker.old.home { deferred = record worker.old.home.deferred { outputs = worker.new.home.deferred.outputs } } } }
{
    worker.home.deferred.outputs.pop_front();
    worker.place = worker.next_callback(next);
    Event::Turn
}

/// Lets go of what the request owned that ended first, and of the room that it has left in the store. The caller must know
/// that something is to be released, one thing for each request that has ended, that the first of these is there, and that
/// all of them count as unreleased.
fn release_next<B: Drop>(worker: &mut Worker, next: AfterCallbacks, shared: &mut Shared<B>) -> Event
    requires some { 0 < length worker.old.home.deferred.resources.items }
    requires ended { length worker.old.names.ended.items ≡ length worker.old.home.deferred.resources.items }
    requires there { (n : ℕ) → slice_get worker.old.names.ended.items 0 ≡ Some n → n < length shared.old.requests.items }
    requires counted { length worker.old.names.ended.items ≤ worker.old.names.unreleased }
    ensures event { (n : ℕ) → slice_get worker.old.names.ended.items 0 ≡ Some n → result ≡ Event.Release n }
    ensures place { worker.new.place ≡ next_callback_of next worker.new }
    ensures ended { worker.new.names.ended.items ≡ drop 1 worker.old.names.ended.items }
    ensures capacity { deque_capacity worker.new.names.ended ≡ deque_capacity worker.old.names.ended }
    ensures unreleased { worker.new.names.unreleased + 1 ≡ worker.old.names.unreleased }
    ensures wide { deque_capacity worker.new.home.deferred.resources ≡ deque_capacity worker.old.home.deferred.resources }
    ensures told { (live : ℕ) → IsTold worker.old.names.ended.items worker.old.home.deferred live → IsTold worker.new.names.ended.items worker.new.home.deferred live }
    ensures worker { worker.new ≡ record worker.old { place = worker.new.place; names = record worker.old.names { ended = worker.new.names.ended; unreleased = worker.new.names.unreleased }; home = record worker.old.home { deferred = record worker.old.home.deferred { resources = worker.new.home.deferred.resources } } } }
    ensures requests { (n : ℕ) → slice_get worker.old.names.ended.items 0 ≡ Some n → shared.new.requests.items ≡ changed_at shared.old.requests.items n releasing }
    ensures room { (n : ℕ) (r : Record) → slice_get worker.old.names.ended.items 0 ≡ Some n → slice_get shared.old.requests.items n ≡ Some r → GivesBack r.shown.operation shared.old.store shared.new.store }
    ensures kept { shared.new ≡ record shared.old { requests = shared.new.requests; store = shared.new.store } }
{
    worker.home.deferred.resources.pop_front();
    let Some(request) = worker.names.release() else {
        unreachable!()
    };
    shared.requests[request].release();
    give_back(&mut shared.store, &shared.requests[request].shown.operation);
    worker.place = worker.next_callback(next);
    Event::Release { request }
}

/// Gives back the room that a request which is over has left for bytes of its socket. One that no window says is none
/// that an admission made.
fn give_back(store: &mut Store, operation: &Operation)
    ensures { GivesBack operation.now store.old store.new }
{
    let kind = match operation.kind {
        Kind::Send => Opcode::Send,
        Kind::Recv | Kind::Fill => Opcode::Recv,
        _ => return,
    };
    let left = operation.length.saturating_sub(operation.moved);
    let (Ok(target), Ok(length)) = (u32::try_from(operation.target), u32::try_from(left)) else {
        return;
    };
    store.release(Window {
        kind,
        target,
        length,
        offset: 0,
        chunks: 0,
        hint: false,
        direct: false,
        dsync: false,
    });
}

/// What a task waits for that hears of this.
fn waited_for(of: Heard) -> Waiting
    ensures { result ≡ thing_heard of }
{
    match of {
        Heard::Request(request) => Waiting::Request(request),
        Heard::Timer(timer) => Waiting::Timer(timer),
    }
}

/// Takes out the first item of a list. The caller must know that there is one.
fn take_first<T>(list: &mut VecDeque<T>) -> T
    requires some { 0 < deque_len list.old }
    ensures value { result ≡ slice_index_or list.old.items 0 result }
    ensures rest { list.new.items ≡ drop 1 list.old.items }
    ensures len { deque_len list.new + 1 ≡ deque_len list.old }
    ensures capacity { deque_capacity list.new ≡ deque_capacity list.old }
{
    match list.pop_front() {
        Some(item) => item,
        None => unreachable!(),
    }
}
