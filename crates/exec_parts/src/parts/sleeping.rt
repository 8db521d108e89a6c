//! The record of a sleeper.

ghost use Rattle.std.specs.Prelude.{◌≡◌, ◌≤◌, not, false, map};
ghost use Rattle.exec_parts.specs.{Calls.{sleeper_closed, sleeper_forwarded, sleeper_gone_with, sleeper_paying, sleeper_removed}, Words.{is_unsent, new_sleeper}};

use exec_machine::state::{Forwarding, Sleeper};
use exec_time::timers::TimerId;

/// The record of a sleeper, with its name among those of its worker.
#[derive(Clone, Copy, Debug)]
pub struct SleeperRecord {
    /// What is known of it.
    pub shown: Sleeper,
    /// Its name among the sleepers of its worker, as long as it has one.
    pub id: TimerId,
    /// Whether its end was sent to the task that waits for it elsewhere.
    pub sent: bool,
    /// Whether its worker, which closes, let it go before its moment. It is removed once that worker has ended.
    pub closed: bool,
}

impl SleeperRecord {
    /// The record of a sleeper that a worker has just made for a task, until this moment in nanoseconds.
    pub fn new(until: u64, worker: usize, task: usize, id: TimerId) -> Self
        ensures shown { result.shown ≡ new_sleeper until worker task }
        ensures id { result.id ≡ id }
        ensures sent { result.sent ≡ false }
        ensures closed { result.closed ≡ false }
    {
        SleeperRecord {
            shown: Sleeper {
                until,
                worker,
                task,
                fired: false,
                removed: false,
                wakes_paid: 0,
                forwarding: Forwarding::Unsent,
            },
            id,
            sent: false,
            closed: false,
        }
    }

    /// A task of another worker waits for it, and its worker is told so.
    pub fn forward(&mut self)
        ensures { self.new ≡ sleeper_forwarded self.old }
    {
        self.shown.forwarding = Forwarding::Sent;
    }

    /// Whether a task of another worker waited for it at any time.
    pub fn was_forwarded(&self) -> bool
        ensures { result ≡ not (is_unsent self.now.shown.forwarding) }
    {
        !matches!(self.shown.forwarding, Forwarding::Unsent)
    }

    /// It has ended before its moment, unless that had come.
    pub fn remove(&mut self)
        ensures { self.new ≡ sleeper_removed self.old }
    {
        self.shown.removed = self.shown.removed || !self.shown.fired;
    }

    /// Its worker, which closes, lets it go.
    pub fn close(&mut self)
        ensures { self.new ≡ sleeper_closed self.old }
    {
        self.closed = true;
    }

    /// It pays a wake. The caller must know that it has paid one at most.
    pub fn pay(&mut self)
        requires { self.old.shown.wakes_paid ≤ 1 }
        ensures { self.new ≡ sleeper_paying self.old }
    {
        self.shown.wakes_paid += 1;
    }
}

/// A worker has ended: each of its sleepers that hadn't is removed.
pub fn remove_all_of(worker: usize, sleepers: &mut [SleeperRecord])
    ensures { sleepers.new ≡ map (sleeper_gone_with worker) sleepers.old }
{
    for sleeper in sleepers {
        if sleeper.shown.worker == worker {
            sleeper.remove();
        }
    }
}
