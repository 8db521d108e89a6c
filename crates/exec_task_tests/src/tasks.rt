//! The tasks of a set, which are registered, removed and drained.

use exec_base::task_no::TaskNo;
use exec_task::place::Place;
use exec_task::runnable::Runnable;
use exec_task::task::Task;
use exec_task::tasks::Tasks;
use std::alloc::{AllocError, Global};
use std::process::Abort;
use std::test::Fail;

/// A global queue that counts what it was given.
#[derive(Drop)]
struct Counting {
    pushed: u32,
}

impl Place for Counting {
    ghost use Rattle.std.specs.Prelude.{◌≡◌, ◌≤◌, false, true};

    ghost serving = { λ c owner. false };

    ghost shows_empty = { λ c empty. empty ≡ true };

    ghost workers_of = { λ c. 1 };

    ghost enqueues = { λ c r c'. c' ≡ c };

    ghost pushes = { λ c r c'. c.pushed ≤ c'.pushed };

    ghost reserves = { λ c c'. c' ≡ c };

    fn serves(&self, _owner: u64) -> bool {
        false
    }

    fn is_empty(&self) -> bool {
        true
    }

    fn workers(&self) -> usize {
        1
    }

    fn enqueue(&mut self, runnable: Runnable) {
        runnable.discard();
    }

    fn push(&mut self, runnable: Runnable) -> Result<(), Runnable> {
        runnable.discard();
        self.pushed = self.pushed.saturating_add(1);
        Ok(())
    }

    fn reserve(&mut self, _alloc: Global) -> Result<(), AllocError> {
        Ok(())
    }
}

/// Registers tasks 0 to 4.
fn register_five(rt: &impl Abort, alloc: Global, tasks: &mut Tasks<char>, place: &mut Counting) {
    for (number, letter) in [(0, 'a'), (1, 'b'), (2, 'c'), (3, 'd'), (4, 'e')] {
        let (_task, runnable) = Task::new(TaskNo(number), tasks.id(), letter);
        assert!(rt; tasks.get(TaskNo(number)).is_none());
        let held = tasks.register(alloc, TaskNo(number), letter, runnable, place);
        assert!(rt; held.is_ok());
    }
}

/// Removes tasks 2, 4 and 0.
fn remove_three(rt: &impl Abort, tasks: &mut Tasks<char>) {
    for (number, letter) in [(2, 'c'), (4, 'e'), (0, 'a')] {
        assert!(rt; tasks.get(TaskNo(number)).is_some());
        assert_eq!(rt; tasks.remove(TaskNo(number)), Some(letter));
    }
}

#[test]
fn a_drain_hands_out_the_newest_first(rt: HostRuntime) -> Result<(), Fail> {
    let mut tasks = Tasks::with_shards(rt.alloc(), 1)?;
    let mut place = Counting { pushed: 0 };
    register_five(&rt, rt.alloc(), &mut tasks, &mut place);
    assert_eq!(rt; place.pushed, 5);
    remove_three(&rt, &mut tasks);
    tasks.close();
    let mut drain = tasks.drain(0);
    assert_eq!(rt; drain.next(&mut tasks), Some((TaskNo(3), 'd')));
    assert_eq!(rt; drain.next(&mut tasks), Some((TaskNo(1), 'b')));
    assert_eq!(rt; drain.next(&mut tasks), None);
    assert!(rt; drain.is_over());
    Ok(())
}
