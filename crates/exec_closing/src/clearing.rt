//! The drain of the closed task set: each task that it still holds is cleared.
//!
//! A visit of a shard takes its newest task, or finds it empty and goes on to the next. Each task taken is cleared
//! before the next visit. One that is polled meanwhile ends with its poll, and the runnable of one that waits for its
//! poll is stale from then on.

ghost use Rattle.std.specs.Prelude.{◌≡◌, ◌<◌, ◌&&◌, not};
ghost use Rattle.exec_task.specs.TaskSet.{IsFor};
ghost use Rattle.exec_parts.specs.{Ending.{ClearsTask, MayClear}, Pooled.Visited};

use exec_machine::event::Event;
use exec_moves::handing::AfterCancels;
use exec_moves::place::{InClosing, Place};
use exec_parts::parts::shared::Shared;
use exec_parts::parts::worker::Worker;
use exec_parts::scripted::Scripted;
use exec_parts::ways::after_a_visit;
use exec_task::drain::Drain;
use exec_task::tasks::Tasks;

/// Visits a shard of the task set. The caller must know that the drain is one of this set, and not over.
pub(crate) fn visit(worker: &mut Worker, drain: Drain, set: &mut Tasks<()>) -> Event
    requires its { IsFor drain set.old }
    requires more { 0 < drain.left }
    ensures event { result ≡ Event.Turn }
    ensures visited { Visited drain worker.old worker.new set.old set.new }
{
    let mut drain = drain;
    let Some((number, ())) = drain.visit(set) else {
        worker.place = Place::Closing(after_a_visit(drain));
        return Event::Turn;
    };
    worker.place = Place::Closing(InClosing::Clear {
        task: number.0 as usize,
        drain,
    });
    Event::Turn
}

/// Clears the task that a visit has taken, and lets go of what it holds where that ends it: one that was over
/// before has let go of that already. The caller must know that there is such a task, and where this ends it that
/// the worker owes no letters and can let go of what the task holds, and of a sleeper that it waits for.
pub(crate) fn clear<B: Scripted + Drop>(
    worker: &mut Worker,
    task: usize,
    drain: Drain,
    shared: &mut Shared<B>,
) -> Event
    requires may { MayClear task worker.old shared.old }
    ensures event { result ≡ Event.Clear task }
    ensures clears { ClearsTask task drain worker.old worker.new shared.old shared.new }
{
    let slot = &mut shared.tasks[task];
    let was = slot.is_over();
    slot.clear();
    let over = ends_so(was, slot.is_over());
    worker.let_go_if(over, task, shared);
    worker.place = worker.after_cancels(AfterCancels::Visit { drain });
    Event::Clear { task }
}

/// Whether a task ends by what it has become.
fn ends_so(was: bool, is: bool) -> bool
    ensures { result ≡ (is && not was) }
{
    is && !was
}
