//! The draining of a closed task set.
//!
//! A drain goes round the shards once, from the shard at four times the worker's number on, so that workers that drain
//! at once begin at different shards. At each it takes the newest task again and again until the shard is empty; who
//! drains clears each task before the next is taken. A closed set takes no task, so none is left behind, and each is
//! handed out once (`to_come` is the list of what is still to come).
//!
//! A drain keeps its place alone and is lent the set by each call, so that the set may stand under
//! locks, and a step may be a single visit of a shard.

ghost use Rattle.std.specs.Prelude.{◌≡◌, ℕ, ◌+◌, ◌<◌, ◌==◌, [], length, IsTrue, IfSome, IfNone, OnSome};
ghost use Rattle.exec_task.specs.TaskSet.{shard_at, IsFor, TakesNewest, passed, to_come, came, next_shard as next_shard_of};

use crate::tasks::Tasks;
use exec_base::task_no::TaskNo;

/// Where a drain stands. Ports `Drain`.
#[derive(Clone, Copy, Debug, PartialEq, Eq)]
pub struct Drain {
    at: usize,
    // How many shards it hasn't found empty yet.
    left: usize,
}

impl Drain {
    // At this shard, with so many to visit.
    pub(crate) fn new(at: usize, left: usize) -> Self
        ensures { result ≡ record { at = at; left = left } }
    {
        Drain { at, left }
    }

    /// Whether it found every shard empty.
    pub fn is_over(&self) -> bool
        ensures { result ≡ (self.now.left == 0) }
    {
        self.left == 0
    }

    /// The shard at which it stands.
    pub fn shard(&self) -> usize
        ensures { result ≡ self.now.at }
    {
        self.at
    }

    /// Goes on to the next of `count` shards, since this one was found empty. The caller must know that the drain isn't
    /// over, and that its place is below the count.
    pub fn pass(&mut self, count: usize)
        requires more { 0 < self.old.left }
        requires there { self.old.at < count }
        ensures { self.new ≡ passed count self.old }
    {
        self.left -= 1;
        self.at = next_shard(self.at, count);
    }

    /// One visit of the shard at which it stands: takes its newest task, or finds it empty and goes on to the next. The
    /// caller must know that the drain is one of this set, and not over.
    #[tactic(auto, using(crate::proofs::Rounds::to_come_taken, crate::proofs::Rounds::to_come_passed))]
    pub fn visit<T>(&mut self, tasks: &mut Tasks<T>) -> Option<(TaskNo, T)>
        requires its { IsFor self.old tasks.old }
        requires more { 0 < self.old.left }
        ensures taken { IfSome result (λ t. TakesNewest self.old.at t tasks.old tasks.new) }
        ensures stays { OnSome result (self.new ≡ self.old) }
        ensures empty { IfNone result (shard_at tasks.old self.old.at ≡ []) }
        ensures passed { IfNone result (self.new ≡ passed (length tasks.old.shards) self.old) }
        ensures kept { IfNone result (tasks.new ≡ tasks.old) }
        ensures to_come { to_come tasks.old.shards self.old.at self.old.left ≡ came result (to_come tasks.new.shards self.new.at self.new.left) }
        ensures its_still { IsFor self.new tasks.new }
    {
        let count = tasks.shard_count();
        let found = tasks.take_newest(self.at);
        if found.is_none() {
            self.pass(count);
        }
        found
    }

    /// The next task, with its number. None where none is left. The caller must know that the drain is one of this set.
    pub fn next<T>(&mut self, tasks: &mut Tasks<T>) -> Option<(TaskNo, T)>
    where
        T: Drop,
        requires its { IsFor self.old tasks.old }
        ensures taken { IfSome result (λ t. (shard : ℕ) × TakesNewest shard t tasks.old tasks.new) }
        ensures to_come { to_come tasks.old.shards self.old.at self.old.left ≡ came result (to_come tasks.new.shards self.new.at self.new.left) }
        ensures none { IfNone result (to_come tasks.old.shards self.old.at self.old.left ≡ []) }
        ensures over { IfNone result (IsTrue (self.new.left == 0)) }
        ensures kept { IfNone result (tasks.new ≡ tasks.old) }
        ensures its_still { IsFor self.new tasks.new }
    {
        while self.left > 0 {
            let found = self.visit(tasks);
            if found.is_some() {
                return found;
            }
        }
        None
    }
}

fn next_shard(at: usize, count: usize) -> usize
    requires { at < count }
    ensures { result ≡ next_shard_of count at }
{
    if at + 1 == count { 0 } else { at + 1 }
}
