//! Polls of a task by its runnable: with a wake in the poll, without one, with a refused step, and of a cleared task.

use exec_base::error::Error;
use exec_base::task_no::TaskNo;
use exec_task::body::{Act, Around, Body, Ended, Said};
use exec_task::poll::{Asked, Carrier};
use exec_task::runnable::{AfterPoll, Runnable};
use exec_task::task::Task;
use std::alloc::Global;
use std::process::Abort;

/// Lets others go first, then waits for a wake, and is through. Or makes two tasks, the second only where memory isn't
/// short, and is through with the number of the first.
#[derive(Drop)]
enum Script {
    Yields,
    Waits,
    Ends,
    Spawns,
    SpawnsAgain,
    Made(u32),
}

impl Body for Script {
    ghost use Rattle.std.specs.Prelude.{◌≡◌};

    type Left = Script;

    ghost left = { λ s. s };

    ghost gives = { λ l sight said act l' sight'. sight' ≡ sight };

    ghost name_of = { λ s. 4 };

    fn name(&self) -> u32 {
        4
    }

    fn step<A: Around>(
        &mut self,
        _: Global,
        around: &mut A,
        said: Said,
    ) -> Result<Act<Self>, Said> {
        let (act, next) = match self {
            Script::Yields => (Act::Yield, Script::Waits),
            Script::Waits => (Act::Await(None), Script::Ends),
            Script::Ends => (Act::Done(205), Script::Ends),
            Script::Spawns => (Act::Spawn(Script::Ends), Script::SpawnsAgain),
            Script::SpawnsAgain => match said {
                Said::Spawned(first) if !around.is_stopped() => {
                    (Act::Spawn(Script::Ends), Script::Made(first.0))
                }
                untold => return Err(untold),
            },
            Script::Made(first) => (Act::Done(*first as u64), Script::Ends),
        };
        *self = next;
        Ok(act)
    }
}

/// Who polls: it sees nothing, counts the polls that begin and the tasks that are made, wakes a task that yields, and
/// keeps what a body was told that got no memory. Where memory is short it says that it's stopped.
#[derive(Drop)]
struct Hand {
    begun: u32,
    spawned: u32,
    is_short: bool,
    kept: Option<Said>,
}

impl Around for Hand {
    ghost use Rattle.std.specs.Prelude.{None};

    ghost sees = { λ h. None };

    fn now(&self) -> u64 {
        0
    }

    fn failure(&self, _file: u32) -> Option<Error> {
        None
    }

    fn is_dirty(&self, _file: u32) -> bool {
        false
    }

    fn begin_sync(&self, _file: u32) -> u64 {
        0
    }

    fn has_task(&self, _task: TaskNo) -> bool {
        false
    }

    fn is_stopped(&self) -> bool {
        self.is_short
    }

    fn peer(&mut self, _listener: u32) -> Option<u32> {
        None
    }

    fn bind(&mut self, _listener: u32) -> Result<(), Error> {
        Err(Error::BindFailed)
    }
}

impl Carrier<Script, Task<Script>> for Hand {
    ghost use Rattle.std.specs.Prelude.{◌≡◌, IsTrue};
    ghost use Rattle.exec_task.specs.Phases.{is_polled};

    ghost carries = { λ h c asked said h' c'. c'.number ≡ c.number };

    fn carry_out(&mut self, cell: &mut Task<Script>, asked: Asked<Script>) -> Option<Said>
        requires { IsTrue (is_polled cell.old.phase) }
        ensures carried { cell.new.number ≡ cell.old.number }
        ensures polled { IsTrue (is_polled cell.new.phase) }
    {
        match asked {
            Asked::Resume => {
                self.begun = self.begun.saturating_add(1);
                return Some(self.kept.take().unwrap_or(Said::Start));
            }
            Asked::NoMemory(untold) => self.kept = Some(untold),
            Asked::CarryOut(Act::Spawn(_made)) => {
                self.spawned = self.spawned.saturating_add(1);
                return Some(Said::Spawned(TaskNo(self.spawned)));
            }
            Asked::CarryOut(Act::Yield) => {
                cell.wake().map(Runnable::discard);
            }
            Asked::CarryOut(_act) => {}
        }
        None
    }
}

impl Hand {
    /// Nothing was begun, made or kept, and there is memory.
    fn new() -> Self {
        Hand {
            begun: 0,
            spawned: 0,
            is_short: false,
            kept: None,
        }
    }

    /// Polls the task with its runnable.
    fn poll(
        &mut self,
        rt: &impl Abort,
        alloc: Global,
        by: Runnable,
        task: &mut Task<Script>,
    ) -> AfterPoll {
        assert!(rt; by.task() == task.number() && by.owner() == task.owner());
        by.poll(alloc, task.owner(), task, self)
    }
}

/// Polls the task with its runnable, and tells how often a body was begun.
fn poll(rt: &impl Abort, alloc: Global, by: Runnable, task: &mut Task<Script>) -> (AfterPoll, u32) {
    let mut hand = Hand::new();
    (hand.poll(rt, alloc, by, task), hand.begun)
}

#[test]
fn a_poll_requeues_waits_or_ends(rt: HostRuntime) {
    let (mut task, first) = Task::new(TaskNo(2), 1, Script::Yields);
    let (AfterPoll::Requeue(again), 1) = poll(&rt, rt.alloc(), first, &mut task) else {
        panic!(rt; "a wake in a poll requeues");
    };
    let waits = poll(&rt, rt.alloc(), again, &mut task);
    assert!(rt; matches!(waits, (AfterPoll::Done, 1)));
    let woken = task.wake().expect(&rt, "an idle task is queued");
    let ends = poll(&rt, rt.alloc(), woken, &mut task);
    assert!(rt; matches!(ends, (AfterPoll::Retire(TaskNo(2), Ended::Done(205)), 1)));
}

#[test]
fn a_refused_step_is_made_again_with_what_its_body_was_told(rt: HostRuntime) {
    let (mut task, first) = Task::new(TaskNo(2), 1, Script::Spawns);
    let mut hand = Hand::new();
    hand.is_short = true;
    let refused = hand.poll(&rt, rt.alloc(), first, &mut task);
    assert!(rt; matches!((refused, hand.spawned), (AfterPoll::Done, 1)));
    hand.is_short = false;
    let woken = task.wake().expect(&rt, "an idle task is queued");
    let ends = hand.poll(&rt, rt.alloc(), woken, &mut task);
    assert!(rt; matches!(ends, AfterPoll::Retire(TaskNo(2), Ended::Done(1))));
    assert_eq!(rt; hand.spawned, 2);
}

#[test]
fn a_cleared_task_is_polled_no_more(rt: HostRuntime) {
    let (mut task, stale) = Task::new(TaskNo(2), 1, Script::Ends);
    assert!(rt; task.clear().is_some());
    let after = poll(&rt, rt.alloc(), stale, &mut task);
    assert!(rt; matches!(after, (AfterPoll::Done, 0)));
}
