//! Acts that concern other tasks: one is made, or woken.
//!
//! A task that is made joins the task set under the next number, and goes into the own run queue where that is empty,
//! so that another worker may start it where it isn't. A wake queues an idle task in the own run queue. The root of a
//! worker stands in no queue: on its own worker it is flagged, and from elsewhere its worker is sent a message.

ghost use Rattle.std.specs.Prelude.{◌≡◌, ℕ, ◌<◌, length, Some, None, IfOk, OnErr};
ghost use Rattle.exec_base.specs.declared.error.Error.TheVariants.{NoMemory};
ghost use Rattle.exec_task.specs.{TaskSet.held, declared.body.Said.Said as said};
ghost use Rattle.exec_moves.specs.{Poll.load_spawn_head, State.queue_of};
ghost use Rattle.exec_parts.specs.{MailPosts.HaveMailboxes, Polls.OfSlot, Pooled.{Spawns, SpawnsNone, WakesOrdinary, WakesTask}, Tests.after_spawn_of, View.{desk_of, things_of}, Things.{Goes, Makes, TurnsSlot}};

use exec_base::error::Error;
use exec_base::task_no::TaskNo;
use exec_machine::event::Event;
use exec_machine::state::MailMessage;
use exec_moves::handing::{AfterPush, AfterSend, InGlobal, InPush};
use exec_moves::place::{InPoll, Place};
use exec_parts::parts::shared::Shared;
use exec_parts::parts::worker::Worker;
use exec_parts::scripted::Scripted;
use exec_task::body::Said;
use exec_task::runnable::Runnable;
use std::alloc::{AllocError, Global};

/// The task makes another of this body, unless the task set is closed. Err comes only for want of memory or of a number
/// below 2^32, and then nothing that can be seen has changed. The caller must know that there is such a
/// task, and that the set has none of the next number, and must have some workers.
pub fn spawn<B: Scripted + Drop>(
    worker: &mut Worker,
    alloc: Global,
    task: usize,
    body: B,
    shared: &mut Shared<B>,
) -> Result<Event, AllocError>
    requires there { task < length shared.old.tasks.items }
    requires absent { held shared.old.set (record { 0 = length shared.old.tasks.items }) ≡ None }
    requires workers { 0 < shared.old.config.workers }
    ensures made { IfOk result (Spawns task (B.name_of (B.left body)) body
        worker.old worker.new shared.old shared.new) }
    ensures refused { OnErr result (SpawnsNone task worker.old worker.new shared.old shared.new) }
{
    let script = body.name() as usize;
    match shared.make_task(alloc, body) {
        Ok(Some(runnable)) => Ok(tell_spawned(worker, task, script, runnable, shared)),
        Ok(None) => {
            shared.tasks[task].tell(Said::Refused(Error::Closed));
            worker.place = Place::Poll(task, InPoll::Act);
            Ok(Event::Closed)
        }
        Err(AllocError) => {
            shared.tasks[task].tell(refused());
            Err(AllocError)
        }
    }
}

/// The task is told of the one that it made, whose runnable is to be queued.
fn tell_spawned<B: Drop>(
    worker: &mut Worker,
    task: usize,
    script: usize,
    runnable: Runnable,
    shared: &mut Shared<B>,
) -> Event
    requires there { task < length shared.old.tasks.items }
    requires workers { 0 < shared.old.config.workers }
    ensures event { result ≡ Event.Spawn runnable.task.0 script }
    ensures goes { worker.new ≡ record worker.old {
      place = after_spawn_of shared.old.config.workers task worker.old;
      hand = Some runnable;
    } }
    ensures task { TurnsSlot task shared.old shared.new (λ slot.
        record slot { told = Some (said.Spawned runnable.task) }) }
{
    let made = runnable.task();
    shared.tasks[task].tell(Said::Spawned(made));
    worker.hand = Some(runnable);
    worker.place = after_spawn(worker, task, shared.config.workers);
    Event::Spawn {
        task: made.0 as usize,
        script,
    }
}

/// Loads the own head, for the task that was made: an empty queue takes it. The caller must know that the worker
/// has a seat.
pub fn load_spawn_head<B: Drop>(worker: &mut Worker, task: usize, shared: &Shared<B>) -> Event
    requires there { worker.old.index < length shared.now.seats.items }
    ensures makes { Makes (load_spawn_head task (desk_of worker.old)
        (queue_of (things_of shared.now) worker.old.index)) result worker.new }
    ensures goes { Goes worker.old worker.new }
{
    let queue = &shared.seats[worker.index].queue;
    let back = AfterPush::Act { task };
    worker.place = if queue.head().len(queue.tail()) == 0 {
        Place::Push(InPush::LoadPushHead, back)
    } else {
        Place::Global(InGlobal::Append, back)
    };
    Event::Turn
}

/// The task wakes another, or itself. The caller must know that both tasks are there, the own root, and the worker
/// whose root the other is, and that each mailbox has one wake of its root at most, a place for one where it has
/// none, and nothing once it is closed.
pub fn wake_task<B: Scripted + Drop>(
    worker: &mut Worker,
    task: usize,
    other: TaskNo,
    shared: &mut Shared<B>,
) -> Event
    requires there { task < length shared.old.tasks.items }
    requires some { other.0 < length shared.old.tasks.items }
    requires root { worker.old.root < length shared.old.tasks.items }
    requires homes { OfSlot other.0 shared.old (λ slot. (home : ℕ) → slot.home ≡ Some home →
        home < length shared.old.seats.items) }
    requires mail { HaveMailboxes shared.old }
    ensures wakes { WakesTask task other.0 worker.old worker.new shared.old shared.new result }
{
    let woken = other.0 as usize;
    shared.tasks[task].tell(Said::Pass);
    match shared.tasks[woken].home() {
        Some(home) if home != worker.index => {
            return worker.send(home, MailMessage::Root, AfterSend::Act { task }, shared);
        }
        Some(_) => {
            worker.wake_own_root(shared);
            worker.place = Place::Poll(task, InPoll::Act);
        }
        None => wake_ordinary(worker, task, woken, shared),
    }
    Event::Wake { task: woken }
}

/// Wakes an ordinary task, and goes on to queue it where it was idle.
fn wake_ordinary<B: Drop>(worker: &mut Worker, task: usize, woken: usize, shared: &mut Shared<B>)
    requires there { woken < length shared.old.tasks.items }
    ensures wakes { WakesOrdinary task woken worker.old worker.new shared.old shared.new }
{
    worker.place = match shared.tasks[woken].wake() {
        Some(runnable) => {
            worker.hand = Some(runnable);
            worker.first_push(AfterPush::Act { task })
        }
        None => Place::Poll(task, InPoll::Act),
    };
}

/// Where it leads that a task made another: a dedicated worker queues that in the global queue and the only worker
/// of a pool in its own, and any other looks first whether its own queue is empty. The caller must have some
/// workers.
fn after_spawn(worker: &Worker, task: usize, workers: usize) -> Place
    requires { 0 < workers }
    ensures { result ≡ after_spawn_of workers task worker.now }
{
    if workers == 1 || !worker.role.is_pool() {
        worker.first_push(AfterPush::Act { task })
    } else {
        Place::Poll(task, InPoll::LoadSpawnHead)
    }
}

/// A body whose act wanted memory is told so.
pub fn refused() -> Said
    ensures { result ≡ said.Refused NoMemory }
{
    Said::Refused(Error::NoMemory)
}
