//! The wake of the own root, and what pays for a wake.

ghost use Rattle.std.specs.Prelude.{◌≡◌, ◌<◌, length, Some};
ghost use Rattle.exec_parts.specs.{Calls.{IsUnpaid, records_paid, sleepers_paid}, Pooled.WakesOwnRoot};

use crate::parts::record::Record;
use crate::parts::shared::Shared;
use crate::parts::sleeping::SleeperRecord;
use crate::parts::worker::Worker;
use exec_machine::state::Waiting;

impl Worker {
    /// Wakes the own root, and flags it where it was idle. The caller must know that its task is there.
    pub fn wake_own_root<B: Drop>(&mut self, shared: &mut Shared<B>)
        requires there { self.old.root < length shared.old.tasks.items }
        ensures wakes { WakesOwnRoot self.old self.new shared.old shared.new }
    {
        if let Some(runnable) = shared.tasks[self.root].wake() {
            self.root_ready = Some(runnable);
        }
    }
}

/// What a task waited for pays a wake. The caller must know that it has paid one at most.
pub fn pay(waited: Waiting, requests: &mut Vec<Record>, sleepers: &mut Vec<SleeperRecord>)
    requires owed { IsUnpaid waited requests.old.items sleepers.old.items }
    ensures requests { requests.new.items ≡ records_paid waited requests.old.items }
    ensures sleepers { sleepers.new.items ≡ sleepers_paid waited sleepers.old.items }
{
    match waited {
        Waiting::Request(request) => requests[request].pay(),
        Waiting::Timer(timer) => sleepers[timer].pay(),
        Waiting::Nothing | Waiting::Wake | Waiting::Woken | Waiting::Yielded => unreachable!(),
    }
}
