//! A poll: its beginning, the acts of the body, and its end where the task waits.
//!
//! The section that begins a poll says how it goes on: a task that waits for nothing acts at once, any other looks first
//! whether what it waits for has come (`resuming`). An act is decided in the step that makes it. What the body is told
//! next lies with the task, so this worker carries nothing between two acts.
//!
//! An act that wants memory and gets none changes nothing that can be seen: the body has asked, and is told that it was
//! refused, so it stands where it stood.

ghost use Rattle.exec_invariants.specs.{Acting.{PerformsOne, StepsWith}, Sound.SoundAt, Whole.HasWhole, Works.Same};
ghost use Rattle.std.specs.Prelude.{◌≡◌, ◌<◌, true, IfOk, OnErr, None, IsSome, length, is_some, Some, if◌then◌else◌};
ghost use Rattle.exec_task.specs.{Phases.{queued_body, runnable_of}, declared.body.Said.Said as said};
ghost use Rattle.exec_machine.specs.Tasks.{begun_waiting};
ghost use Rattle.exec_moves.specs.{Parts.next_pick as place_of_pick, Poll.after_begin};
ghost use Rattle.exec_parts.specs.{Awaits.{AwaitsNewest, DropsRequest, HasNewest, OfNewest, newest_of}, Ending.{MayPend, PendsTask}, Polls.{MadeAct, OfSlot, begun_slot_if, yielded_slot}, Pooled.queued_again, Tests.after_poll_of, View.desk_of, Things.TurnsSlot};
ghost use Rattle.exec_machine.specs.declared.state.Waiting.TheVariants as waiting;

use crate::registering::{drop_request, join_gate, register, sleep_for};
use crate::resuming::{await_request, resume};
use exec_machine::event::Event;
use exec_machine::state::{MailMessage, Waiting};
use exec_moves::handing::{AfterCallbacks, AfterCancels, AfterPush, AfterSend, InPush};
use exec_moves::place::{InCallbacks, InPoll, Place};
use exec_parts::parts::around::Sighted;
use exec_parts::parts::nursery::Nursery;
use exec_parts::parts::shared::Shared;
use exec_parts::parts::worker::Worker;
use exec_parts::scripted::Scripted;
use exec_spawning::dedicating::dedicate;
use exec_spawning::ending::{fail, finish, remove_task};
use exec_spawning::spawning::{load_spawn_head, spawn, wake_task};
use exec_task::body::{Act, Said};
use exec_task::runnable::{AfterPoll, Runnable};
use std::alloc::{AllocError, Global};

/// Takes the next step of the poll of a task. Err comes only for want of memory, or where the numbers of tasks, requests
/// or sleepers have come to their end, and then nothing that can be seen has changed. The caller must know that the worker is at this place and sound with what
/// all share, that the balances of all parties hold, and that the bodies of all tasks perform a plan of this
/// configuration, and must have an empty nursery.
pub fn poll<B: Scripted + Drop>(
    worker: &mut Worker,
    alloc: Global,
    task: usize,
    at: InPoll,
    shared: &mut Shared<B>,
    nursery: &mut Nursery,
) -> Result<Event, AllocError>
    requires sound { SoundAt (Place.Poll task at) worker.old shared.old }
    requires performs { PerformsOne B.left B.runs B.holds shared.old }
    requires whole { HasWhole worker.old shared.old }
    requires none_yet { nursery.old.born ≡ None }
    ensures steps { IfOk result (λ event. StepsWith B.left B.runs B.holds B.spot nursery.new.born worker.old shared.old event worker.new shared.new) }
    ensures room { IsSome nursery.new.born → nursery.old.has_room ≡ true }
    ensures same { OnErr result (Same B.left B.spot worker.old shared.old worker.new shared.new) }
    ensures nobody { OnErr result (nursery.new.born ≡ None) }
{
    match at {
        InPoll::BeginPoll => Ok(begin_poll(worker, task, shared)),
        InPoll::Resume => Ok(resume(worker, task, shared)),
        InPoll::Act => act(worker, alloc, task, shared, nursery),
        InPoll::JoinGate { request } => Ok(join_gate(worker, task, request, shared)),
        InPoll::LoadSpawnHead => Ok(load_spawn_head(worker, task, shared)),
        InPoll::Pend => Ok(pend(worker, task, shared)),
        InPoll::RemoveTask => Ok(remove_task(worker, task, &mut shared.set)),
    }
}

/// The body makes its next act.
fn act<B: Scripted + Drop>(
    worker: &mut Worker,
    alloc: Global,
    task: usize,
    shared: &mut Shared<B>,
    nursery: &mut Nursery,
) -> Result<Event, AllocError>
    requires sound { SoundAt (Place.Poll task InPoll.Act) worker.old shared.old }
    requires performs { PerformsOne B.left B.runs B.holds shared.old }
    requires whole { HasWhole worker.old shared.old }
    requires none_yet { nursery.old.born ≡ None }
    ensures steps { IfOk result (λ event. StepsWith B.left B.runs B.holds B.spot nursery.new.born worker.old shared.old event worker.new shared.new) }
    ensures room { IsSome nursery.new.born → nursery.old.has_room ≡ true }
    ensures same { OnErr result (Same B.left B.spot worker.old shared.old worker.new shared.new) }
    ensures nobody { OnErr result (nursery.new.born ≡ None) }
{
    match next_act(worker, alloc, task, shared)? {
        Act::Register(request) => register(worker, alloc, task, request, shared),
        Act::Await(_) => Ok(await_newest(worker, task, shared)),
        Act::Drop(_) => Ok(drop_newest(worker, task, shared)),
        Act::Sleep(0) => Ok(pass(worker, task, shared)),
        Act::Sleep(time) => sleep_for(worker, alloc, task, time, shared),
        Act::Yield => Ok(yield_task(worker, task, shared)),
        Act::Done(_) => Ok(finish(worker, task, shared)),
        Act::Fault(code) => Ok(fail(worker, task, code, shared)),
        Act::Spawn(body) => spawn(worker, alloc, task, body, shared),
        Act::Wake(other) => Ok(wake_task(worker, task, other, shared)),
        Act::Dedicated(body) => dedicate(worker, alloc, task, body, shared, nursery),
    }
}

/// The poll begins. What waits for nothing acts; any other looks at what it waits for. Where the runnable is stale
/// nothing begins, and the next pick follows. The caller must know that there is such a task, and that the worker
/// has its runnable in the hand.
fn begin_poll<B: Scripted + Drop>(worker: &mut Worker, task: usize, shared: &mut Shared<B>) -> Event
    requires there { task < length shared.old.tasks.items }
    requires hand { OfSlot task shared.old (λ slot. worker.old.hand ≡ Some (runnable_of slot.cell)) }
    ensures event { OfSlot task shared.old (λ slot. result
        ≡ (if is_some (queued_body slot.cell.phase) then Event.Begin task else Event.Turn)) }
    ensures place { OfSlot task shared.old (λ slot. worker.new.place
        ≡ (if is_some (queued_body slot.cell.phase) then Place.Poll task (after_begin (begun_waiting slot.waiting))
        else place_of_pick (desk_of worker.old))) }
    ensures worker { worker.new ≡ record worker.old { place = worker.new.place; hand = None } }
    ensures task { TurnsSlot task shared.old shared.new (begun_slot_if worker.old.index) }
{
    let Some(runnable) = worker.hand.take() else {
        unreachable!()
    };
    let slot = &mut shared.tasks[task];
    if !slot.begin(runnable, worker.index) {
        worker.place = worker.next_pick();
        return Event::Turn;
    }
    worker.place = Place::Poll(task, first_step(slot.waiting()));
    Event::Begin { task }
}

/// The next act of the body. Where it wants memory and gets none, it is as before. The caller must know that there
/// is such a task, and that its slot has the body and what that is told.
fn next_act<B: Scripted + Drop>(
    worker: &Worker,
    alloc: Global,
    task: usize,
    shared: &mut Shared<B>,
) -> Result<Act<B>, AllocError>
    requires there { task < length shared.old.tasks.items }
    requires told { OfSlot task shared.old (λ slot. IsSome slot.told) }
    requires body { OfSlot task shared.old (λ slot. IsSome slot.body) }
    ensures acts { IfOk result (λ act. MadeAct B.left B.gives task worker.now.moments.sampled shared.old shared.new act) }
    ensures kept { OnErr result (TurnsSlot task shared.old shared.new (λ slot. slot)) }
{
    let mut around = Sighted {
        moment: worker.moments.sampled,
        opens: &shared.opens,
        tasks: shared.tasks.len(),
        stopped: shared.stopped,
    };
    shared.tasks[task].step(alloc, &mut around)
}

/// The task waits for the newest request that it holds, or for a wake where it holds none. Its body knows which
/// that is without its number. The caller must know that the task is there under its number, and so is the request
/// where it holds one; that one of this worker has its output kept or is observed here, and can be let go of; and
/// that the worker of any other can be sent a message about it.
fn await_newest<B: Scripted + Drop>(
    worker: &mut Worker,
    task: usize,
    shared: &mut Shared<B>,
) -> Event
    requires there { task < length shared.old.tasks.items }
    requires newest { OfNewest task shared.old (λ k. HasNewest task k worker.old shared.old) }
    ensures awaits { OfSlot task shared.old (λ slot. AwaitsNewest task (newest_of slot) worker.old worker.new shared.old shared.new result) }
{
    match shared.tasks[task].newest() {
        Some(request) => await_request(worker, task, request, shared),
        None => await_wake(worker, task, shared),
    }
}

/// The task lets go of the newest request that it holds. The caller must know that the task is there under its
/// number and holds one, which is there; that one of this worker has its output kept or is observed here, and can
/// be let go of; and that the worker of any other can be sent a message about it.
fn drop_newest<B: Scripted + Drop>(
    worker: &mut Worker,
    task: usize,
    shared: &mut Shared<B>,
) -> Event
    requires there { task < length shared.old.tasks.items }
    requires some { OfSlot task shared.old (λ slot. IsSome (newest_of slot)) }
    requires newest { OfNewest task shared.old (λ k. HasNewest task k worker.old shared.old) }
    ensures drops { OfNewest task shared.old (λ k. DropsRequest task k worker.old worker.new shared.old shared.new result) }
{
    let Some(request) = shared.tasks[task].newest() else {
        unreachable!()
    };
    let other = shared.requests[request].shown.worker;
    if other == worker.index {
        return drop_request(worker, task, request, shared);
    }
    let slot = &mut shared.tasks[task];
    slot.let_go();
    slot.tell(Said::Pass);
    let message = MailMessage::CancelRequest(request);
    worker.send(other, message, AfterSend::Act { task }, shared)
}

/// The task waits for a wake alone.
fn await_wake<B: Scripted + Drop>(worker: &mut Worker, task: usize, shared: &mut Shared<B>) -> Event
    requires there { task < length shared.old.tasks.items }
    ensures event { result ≡ Event.Wait None }
    ensures worker { worker.new ≡ record worker.old { place = Place.Poll task InPoll.Pend } }
    ensures task { TurnsSlot task shared.old shared.new (λ slot. record slot { waiting = waiting.Wake }) }
{
    shared.tasks[task].wait_for(Waiting::Wake);
    worker.place = Place::Poll(task, InPoll::Pend);
    Event::Wait { request: None }
}

/// The task passes on, since it sleeps no time at all. The caller must know that there is such a task.
pub fn pass<B: Scripted + Drop>(worker: &mut Worker, task: usize, shared: &mut Shared<B>) -> Event
    requires there { task < length shared.old.tasks.items }
    ensures event { result ≡ Event.Pass }
    ensures worker { worker.new ≡ record worker.old { place = Place.Poll task InPoll.Act } }
    ensures task { TurnsSlot task shared.old shared.new (λ slot. record slot { told = Some said.Pass }) }
{
    shared.tasks[task].tell(Said::Pass);
    worker.place = Place::Poll(task, InPoll::Act);
    Event::Pass
}

/// The task wakes itself, and lets others go first. Since it is polled, it has no runnable before the poll ends.
/// The caller must know that there is such a task.
fn yield_task<B: Scripted + Drop>(worker: &mut Worker, task: usize, shared: &mut Shared<B>) -> Event
    requires there { task < length shared.old.tasks.items }
    ensures event { result ≡ Event.Wake task }
    ensures worker { worker.new ≡ record worker.old { place = Place.Poll task InPoll.Pend } }
    ensures task { TurnsSlot task shared.old shared.new yielded_slot }
{
    let slot = &mut shared.tasks[task];
    slot.wait_for(Waiting::Yielded);
    slot.tell(Said::Pass);
    let _none = slot.wake();
    worker.place = Place::Poll(task, InPoll::Pend);
    Event::Wake { task }
}

/// The poll ends. A root that was woken meanwhile has its flag set again, and any other task is queued again; one
/// that was cleared is over. The caller must know that the task is there and polled, that its slot has the body and
/// says as the task does whether it was cleared, and where it was that the worker owes no letters and can let go of
/// what the task holds, and of a sleeper that it waits for.
pub fn pend<B: Scripted + Drop>(worker: &mut Worker, task: usize, shared: &mut Shared<B>) -> Event
    requires may { MayPend task worker.old shared.old }
    ensures event { result ≡ Event.Pend task }
    ensures pends { PendsTask task worker.old worker.new shared.old shared.new }
{
    let slot = &mut shared.tasks[task];
    let after = slot.pend();
    if slot.is_over() {
        worker.let_go_of(task, shared);
        worker.place = worker.after_cancels(AfterCancels::Pick);
        return Event::Pend { task };
    }
    worker.place = after_poll(worker, task);
    if let AfterPoll::Requeue(runnable) = after {
        queue_again(worker, task, runnable);
    }
    Event::Pend { task }
}

/// A task that was woken in its poll is to be polled again.
fn queue_again(worker: &mut Worker, task: usize, runnable: Runnable)
    ensures { worker.new ≡ queued_again task (AfterPoll.Requeue runnable) worker.old }
{
    if task == worker.root {
        worker.root_ready = Some(runnable);
    } else {
        worker.hand = Some(runnable);
        worker.place = Place::Push(InPush::LoadPushHead, AfterPush::Pick);
    }
}

/// What follows the poll of a task: the callbacks after that of the root, another pick after that of any other.
fn after_poll(worker: &Worker, task: usize) -> Place
    ensures { result ≡ after_poll_of task worker.now }
{
    if task == worker.root {
        Place::Callbacks(InCallbacks::TakeBatch, AfterCallbacks::Look)
    } else {
        worker.next_pick()
    }
}

/// The first step of a poll whose task waits for this.
fn first_step(waiting: Waiting) -> InPoll
    ensures { result ≡ after_begin waiting }
{
    match waiting {
        Waiting::Nothing => InPoll::Act,
        _ => InPoll::Resume,
    }
}
