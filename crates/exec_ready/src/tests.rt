ghost use Rattle.std.specs.Prelude.{◌≡◌, []};
ghost use Rattle.exec_live_queue.specs.Kinds.{handed};

use super::{Ready, discard};
use exec_base::task_no::TaskNo;
use exec_live_queue::queue::Queue;
use exec_task::runnable::Runnable;
use exec_task::task::Task;
use exec_words::reserved::Reserved;
use std::alloc::{AllocError, Global};
use std::process::Abort;
use std::test::Fail;

// The runnables of three tasks.
fn three_runnables(alloc: Global) -> Result<Reserved<Runnable>, AllocError> {
    let mut batch = Reserved::with_places(alloc, 3)?;
    batch.push(runnable(0));
    batch.push(runnable(1));
    batch.push(runnable(2));
    Ok(batch)
}

fn runnable(number: u32) -> Runnable {
    let (_task, runnable) = Task::new(TaskNo(number), 7, ());
    runnable
}

// Three runnables go in, all are discarded, and the owner may go.
fn all_are_discarded(rt: &impl Abort, mut ready: Ready, mut batch: Reserved<Runnable>)
    requires { handed ready ≡ [] }
{
    if batch.len() > ready.room() {
        panic!(rt; "an empty queue has room for three");
    }
    ready.push_batch(&mut batch);
    assert_eq!(rt; ready.len(), 3);
    discard(&mut ready);
    assert_eq!(rt; (ready.len(), ready.room()), (0, 256));
    match ready.pop() {
        None => ready.leave(),
        Some(_) => panic!(rt; "the queue has a runnable"),
    }
}

#[test]
fn what_is_left_is_discarded(rt: HostRuntime) -> Result<(), Fail> {
    let (queue, first) = Queue::shared(rt.alloc())?;
    let batch = three_runnables(rt.alloc())?;
    all_are_discarded(&rt, queue.owner(first)?, batch);
    let (queue, first) = Queue::exclusive(rt.alloc());
    let batch = three_runnables(rt.alloc())?;
    all_are_discarded(&rt, queue.owner(first)?, batch);
    Ok(())
}
