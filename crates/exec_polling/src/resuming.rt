//! What a polled task waits for, or begins to wait for: a request, a sleeper, a wake.
//!
//! A look at what a task waits for already ends its poll where that hasn't come; the first look at it doesn't, since
//! that is an act of its own.

ghost use Rattle.exec_invariants.specs.{Sound.SoundAt, Whole.HasWhole, Works.Steps};
ghost use Rattle.exec_machine.specs.declared.state.Waiting.TheVariants as waiting;
ghost use Rattle.exec_parts.specs.{Polls.{OfSlot, IsReady, TookOutput, passed_slot, slept_slot}, Records.numbers_held, Awaits.{AwaitsRequest, HasNewest}, View.driver_of, Things.TurnsSlot, declared.parts.record.Record.Record};
ghost use Rattle.std.specs.Prelude.{◌≡◌, ◌<◌, length, slice_get, Some};

use crate::poll::pend;
use crate::sending::{ask_end, ask_output, hear_end, hear_output};
use exec_base::task_no::TaskNo;
use exec_machine::event::Event;
use exec_machine::state::Waiting;
use exec_moves::place::{InPoll, Place};
use exec_parts::parts::shared::Shared;
use exec_parts::parts::worker::Worker;
use exec_parts::scripted::Scripted;
use exec_task::body::Said;
use exec_time::timers::Observation;

/// The poll of a task that waited goes on, where what it waited for has come, and else ends.
pub(crate) fn resume<B: Scripted + Drop>(
    worker: &mut Worker,
    task: usize,
    shared: &mut Shared<B>,
) -> Event
    requires sound { SoundAt (Place.Poll task InPoll.Resume) worker.old shared.old }
    requires whole { HasWhole worker.old shared.old }
    ensures steps { Steps B.left B.spot worker.old shared.old result worker.new shared.new }
{
    match shared.tasks[task].waiting() {
        Waiting::Request(request) => resume_request(worker, task, request, shared),
        Waiting::Timer(timer) => resume_timer(worker, task, timer, shared),
        Waiting::Woken => take_wake(worker, task, shared),
        Waiting::Nothing | Waiting::Wake | Waiting::Yielded => unreachable!(),
    }
}

/// The task takes the request that it waits for, or waits on.
fn resume_request<B: Scripted + Drop>(
    worker: &mut Worker,
    task: usize,
    request: usize,
    shared: &mut Shared<B>,
) -> Event
    requires sound { SoundAt (Place.Poll task InPoll.Resume) worker.old shared.old }
    requires whole { HasWhole worker.old shared.old }
    requires waits { OfSlot task shared.old (λ slot. slot.waiting ≡ waiting.Request request) }
    requires there { request < length shared.old.requests.items }
    ensures steps { Steps B.left B.spot worker.old shared.old result worker.new shared.new }
{
    let record = &shared.requests[request];
    if record.was_forwarded() {
        return hear_output(worker, task, request, shared);
    }
    if record.shown.worker != worker.index {
        return ask_output(worker, task, request, shared);
    }
    if record.is_over() {
        return take_output(worker, task, request, shared);
    }
    pend(worker, task, shared)
}

/// The task has slept, or sleeps on.
fn resume_timer<B: Scripted + Drop>(
    worker: &mut Worker,
    task: usize,
    timer: usize,
    shared: &mut Shared<B>,
) -> Event
    requires sound { SoundAt (Place.Poll task InPoll.Resume) worker.old shared.old }
    requires whole { HasWhole worker.old shared.old }
    requires waits { OfSlot task shared.old (λ slot. slot.waiting ≡ waiting.Timer timer) }
    requires asleep { timer < length shared.old.sleepers.items }
    ensures steps { Steps B.left B.spot worker.old shared.old result worker.new shared.new }
{
    let record = &shared.sleepers[timer];
    if record.was_forwarded() {
        return hear_end(worker, task, timer, shared);
    }
    if record.shown.worker != worker.index {
        return ask_end(worker, task, timer, shared);
    }
    if record.shown.fired {
        return take_sleep(worker, task, timer, shared);
    }
    pend(worker, task, shared)
}

/// The task takes the wake that it waited for. The caller must know that there is such a task.
pub fn take_wake<B: Scripted + Drop>(
    worker: &mut Worker,
    task: usize,
    shared: &mut Shared<B>,
) -> Event
    requires there { task < length shared.old.tasks.items }
    ensures event { result ≡ Event.Pass }
    ensures worker { worker.new ≡ record worker.old { place = Place.Poll task InPoll.Act } }
    ensures task { TurnsSlot task shared.old shared.new passed_slot }
{
    shared.tasks[task].take(Said::Pass);
    worker.place = Place::Poll(task, InPoll::Act);
    Event::Pass
}

/// The task awaits the newest request that it holds: takes it where it is over, and else waits for it.
pub(crate) fn await_request<B: Scripted + Drop>(
    worker: &mut Worker,
    task: usize,
    request: usize,
    shared: &mut Shared<B>,
) -> Event
    requires newest { HasNewest task request worker.old shared.old }
    ensures awaits { AwaitsRequest task request worker.old worker.new shared.old shared.new result }
{
    if shared.requests[request].shown.worker != worker.index {
        return ask_output(worker, task, request, shared);
    }
    if shared.requests[request].is_over() {
        return take_output(worker, task, request, shared);
    }
    let id = shared.requests[request].id;
    let waker = shared.tasks[task].number();
    let _displaced = worker.home.driver.set_waker(id, waker);
    shared.requests[request].shown.waiter = Some(task);
    shared.tasks[task].wait_for(Waiting::Request(request));
    worker.place = Place::Poll(task, InPoll::Pend);
    Event::Wait {
        request: Some(request),
    }
}

/// The task takes the output of the newest request that it holds, which is over. The caller must know that the task
/// is there and holds a request, and that this request is there and over, with its output kept by the driver.
pub fn take_output<B: Scripted + Drop>(
    worker: &mut Worker,
    task: usize,
    request: usize,
    shared: &mut Shared<B>,
) -> Event
    requires there { task < length shared.old.tasks.items }
    requires known { request < length shared.old.requests.items }
    requires holds { OfSlot task shared.old (λ slot. 0 < length (numbers_held slot.held.items)) }
    requires ready { (r : Record) → slice_get shared.old.requests.items request ≡ Some r → IsReady r (driver_of worker.old) }
    ensures took { TookOutput task request worker.old worker.new shared.old shared.new result }
{
    let record = &mut shared.requests[request];
    let id = record.id;
    let Some(outcome) = record.outcome() else {
        unreachable!()
    };
    record.shown.observed = false;
    // Since the output is there, nobody needs to be woken.
    let Observation::Ready(output) = worker.home.driver.observe(id, TaskNo(0)) else {
        unreachable!()
    };
    let slot = &mut shared.tasks[task];
    slot.let_go();
    slot.take(Said::Output(output));
    worker.place = Place::Poll(task, InPoll::Act);
    Event::Got { request, outcome }
}

/// The task takes the end of its sleep. The caller must know that there is such a task.
pub(crate) fn take_sleep<B: Scripted + Drop>(
    worker: &mut Worker,
    task: usize,
    timer: usize,
    shared: &mut Shared<B>,
) -> Event
    requires there { task < length shared.old.tasks.items }
    ensures event { result ≡ Event.GotTimer timer }
    ensures worker { worker.new ≡ record worker.old { place = Place.Poll task InPoll.Act } }
    ensures task { TurnsSlot task shared.old shared.new slept_slot }
{
    shared.tasks[task].take(Said::Slept);
    worker.place = Place::Poll(task, InPoll::Act);
    Event::GotTimer { timer }
}
