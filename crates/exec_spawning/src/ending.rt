//! The end of a task: what it holds is let go, and the sleeper that it waits for; it leaves the task set.

ghost use Rattle.std.specs.Prelude.{◌≡◌, ◌<◌, ◌^◌, ◌⊎◌, true, IsSome};
ghost use Rattle.exec_task.specs.TaskSet.{held, removed};
ghost use Rattle.exec_moves.specs.Parts.{next_pick as place_of_pick};
ghost use Rattle.exec_parts.specs.{Ending.{EndsTask, MayEndTask, ended_place}, View.desk_of};

use exec_base::task_no::TaskNo;
use exec_machine::event::Event;
use exec_moves::handing::AfterCancels;
use exec_moves::place::{InClosing, Place};
use exec_parts::parts::shared::Shared;
use exec_parts::parts::worker::Worker;
use exec_parts::scripted::Scripted;
use exec_task::body::Ended;
use exec_task::runnable::AfterPoll;
use exec_task::tasks::Tasks;

/// The task is over. The caller must know that the task is there and polled, that the worker owes no letters, and
/// that it can let go of what the task holds, and of a sleeper that it waits for.
pub fn finish<B: Scripted + Drop>(worker: &mut Worker, task: usize, shared: &mut Shared<B>) -> Event
    requires may { MayEndTask task worker.old shared.old }
    ensures event { result ≡ Event.Done task }
    ensures ends { EndsTask task worker.old worker.new shared.old shared.new }
{
    end_task(worker, task, Ended::Done(0), shared);
    Event::Done { task }
}

/// The task is over by a fault. The caller must know that the task is there and polled, that the worker owes no
/// letters, and that it can let go of what the task holds, and of a sleeper that it waits for.
pub fn fail<B: Scripted + Drop>(
    worker: &mut Worker,
    task: usize,
    code: u64,
    shared: &mut Shared<B>,
) -> Event
    requires may { MayEndTask task worker.old shared.old }
    ensures event { result ≡ Event.Fault task code }
    ensures ends { EndsTask task worker.old worker.new shared.old shared.new }
{
    end_task(worker, task, Ended::Fault(code), shared);
    Event::Fault { task, code }
}

/// Ends the task, and lets go of what it holds.
fn end_task<B: Scripted + Drop>(
    worker: &mut Worker,
    task: usize,
    how: Ended,
    shared: &mut Shared<B>,
)
    requires may { MayEndTask task worker.old shared.old }
    ensures ends { EndsTask task worker.old worker.new shared.old shared.new }
{
    worker.let_go_of(task, shared);
    match shared.tasks[task].done(how) {
        AfterPoll::Retire(_, _) => {}
        AfterPoll::Done | AfterPoll::Requeue(_) => unreachable!(),
    }
    worker.place = after_end(worker, task);
}

/// A worker whose root is over closes; any other task leaves the task set.
fn after_end(worker: &Worker, task: usize) -> Place
    ensures { result ≡ ended_place task worker.now }
{
    if task == worker.root {
        Place::Closing(InClosing::Close)
    } else {
        worker.after_cancels(AfterCancels::Remove { task })
    }
}

/// The task leaves the task set. A drain may have taken it out before. The caller must know that its number has 32
/// bits, and that an open set holds it.
pub fn remove_task(worker: &mut Worker, task: usize, set: &mut Tasks<()>) -> Event
    requires number { task < 2 ^ 32 }
    requires held { (set.old.closed ≡ true) ⊎ IsSome (held set.old (record { 0 = task })) }
    ensures event { result ≡ Event.Turn }
    ensures goes { worker.new ≡ record worker.old { place = place_of_pick (desk_of worker.old) } }
    ensures set { set.new ≡ removed set.old (record { 0 = task }) }
{
    let _held = set.remove(TaskNo(task as u32));
    worker.place = worker.next_pick();
    Event::Turn
}
