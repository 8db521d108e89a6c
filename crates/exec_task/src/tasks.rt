//! The live ordinary tasks of a runner, kept so that its end can clear each of them. Roots belong
//! to their workers instead.
//!
//! The set has shards, so that workers that insert and remove at the same time seldom meet; a live worker puts each
//! shard under a lock of its own. A task's shard is its number modulo the shards. What the set holds of a task is its
//! user's: nothing, where the tasks stand elsewhere by their numbers, or a shared cell.
//!
//! An open set takes tasks, and holds each until it is removed. A closed one takes none, and is drained: each task that
//! it still holds is handed out once, to be cleared. Only then may a removal find nothing.

ghost use Rattle.std.specs.Prelude.{◌≡◌, ◌<◌, ◌≤◌, ◌^◌, ◌⊎◌, ◌++◌, ◌∷◌, [], ℕ, true, false, length, replicate, IfOk, IfErr, IfNone, IfSome, OnOk, OnErr, IsSome, option_copied, None, Some};
ghost use Rattle.exec_task.specs.{TaskSet.{IsShardCount, IsRefused, shard_of, shard_at, at_number, with_task, without_task, ShardChanges, Changes, held, inserted, removed, IsFor, TakesNewest, drain_of}, Phases.Spawns};

use crate::drain::Drain;
use crate::place::Place;
use crate::runnable::Runnable;
use exec_base::task_no::TaskNo;
use std::alloc::{AllocError, Global};
use std::collections::BTreeMap;
use std::marker::Model;
use thiserror::Error;

/// How many shards there are for each worker, once their number is rounded up to a power of two.
pub const SHARDS_PER_WORKER: usize = 4;

/// Why a task wasn't taken, with what was to be held of it. The set is as it was. `Display` is the name of the reason,
/// as [`exec_base::error::Error`] has it.
#[derive(Debug, Drop, Error)]
pub enum Refusal<T> {
    /// The set is closed.
    #[error("Closed")]
    Closed(T),
    /// There was no memory.
    #[error("NoMemory")]
    NoMemory(T),
}

/// One shard of a task set: tasks under their numbers, the newest of which is the one of the highest number.
#[derive(Drop)]
pub struct Shard<T> {
    tasks: BTreeMap<u32, T>,
}

impl<T> Model for Shard<T> {
    ghost use Rattle.std.specs.Prelude.{ℕ, List};

    ghost Value = { List (ℕ × T) };

    ghost view = { λ s. s.tasks.entries };
}

/// The live ordinary tasks of a runner. Ports `Tasks`.
#[derive(Drop)]
pub struct Tasks<T> {
    shards: Vec<Shard<T>>,
    closed: bool,
}

impl<T> Model for Tasks<T> {
    ghost use Rattle.std.specs.Prelude.{◌<◌, length};
    ghost use Rattle.exec_task.specs.TaskSet.{Set as Shards, AreAtHome};

    ghost Value = { Shards T };

    ghost view = { λ s. record { shards = s.shards.items; closed = s.closed; id = 1 } };

    ghost invariant = { λ s. (0 < length s.shards.items) × AreAtHome s.shards.items };
}

#[tactic(auto, using(crate::proofs::Maps::shard_changes))]
impl<T> Shard<T> {
    /// An empty shard.
    pub fn new(alloc: Global) -> Self
        ensures { result ≡ [] }
    {
        Shard {
            tasks: BTreeMap::new(alloc),
        }
    }

    /// Holds this of the task of this number. Gives it back where there is no memory, and then nothing changes. The
    /// caller must know that it holds nothing of that task.
    pub fn put(&mut self, _alloc: Global, number: TaskNo, task: T) -> Result<(), T>
    where
        T: Drop,
        requires { at_number self.old number.0 ≡ None }
        ensures put { OnOk result (self.new ≡ with_task self.old number.0 task) }
        ensures map { OnOk result (ShardChanges self.old self.new number.0 (Some task)) }
        ensures back { IfErr result (λ back. back ≡ task) }
        ensures kept { OnErr result (self.new ≡ self.old) }
    {
        match self.tasks.insert(number.0, task) {
            Ok(_) => Ok(()),
            Err(refused) => Err(refused.value.1),
        }
    }

    /// What is held of the task of this number. None where nothing is.
    pub fn get(&self, number: TaskNo) -> Option<&T>
        ensures { option_copied result ≡ at_number self.now number.0 }
    {
        self.tasks.get(&number.0)
    }

    /// Takes out what is held of the task of this number. None where nothing is, and then nothing changes.
    pub fn take(&mut self, number: TaskNo) -> Option<T>
        ensures task { result ≡ at_number self.old number.0 }
        ensures taken { self.new ≡ without_task self.old number.0 }
        ensures map { ShardChanges self.old self.new number.0 None }
        ensures kept { IfNone result (self.new ≡ self.old) }
    {
        self.tasks.remove(&number.0)
    }

    /// Takes the newest task out, with its number. None where the shard is empty.
    pub fn take_newest(&mut self) -> Option<(TaskNo, T)>
        ensures newest { IfSome result (λ t. self.old ≡ self.new ++ (t.0.0, t.1) ∷ []) }
        ensures held { IfSome result (λ t. at_number self.old t.0.0 ≡ Some t.1) }
        ensures map { IfSome result (λ t. ShardChanges self.old self.new t.0.0 None) }
        ensures empty { IfNone result (self.old ≡ []) }
        ensures kept { IfNone result (self.new ≡ self.old) }
    {
        let (number, task) = self.tasks.pop_last()?;
        Some((TaskNo(number), task))
    }
}

#[tactic(auto, using(crate::proofs::Maps::changes, crate::proofs::Maps::home_after, crate::proofs::Maps::home_at_first, crate::proofs::Maps::takes_newest))]
impl<T> Tasks<T> {
    /// An open set for a pool of so many workers: the next power of two of them, times 4, shards. An `Err` comes only
    /// for want of memory. The caller must have some workers, and at most 2^32.
    pub fn new(alloc: Global, workers: usize) -> Result<Self, AllocError>
        requires some { 0 < workers }
        requires few { workers ≤ 2 ^ 32 }
        ensures shards { IfOk result (λ s. IsShardCount workers (length s.shards)) }
        ensures empty { IfOk result (λ s. s.shards ≡ replicate (length s.shards) []) }
        ensures open { IfOk result (λ s. s.closed ≡ false) }
        ensures id { IfOk result (λ s. s.id ≡ 1) }
    {
        Self::with_shards(alloc, workers.next_power_of_two() * SHARDS_PER_WORKER)
    }

    /// An open set with so many shards. An `Err` comes only for want of memory. The caller must have one at least.
    pub fn with_shards(alloc: Global, count: usize) -> Result<Self, AllocError>
        requires { 0 < count }
        ensures { IfOk result (λ s. s ≡ record { shards = replicate count []; closed = false; id = 1 }) }
    {
        let mut shards = Vec::with_capacity(alloc, count)?;
        for _ in 0..count {
            shards.push_reserved(Shard::new(alloc));
        }
        Ok(Tasks {
            shards,
            closed: false,
        })
    }

    /// The identity of the set, which its tasks and their runnables carry. It is 1: a runner has
    /// one set, and a runnable of another runner's must not come here.
    pub fn id(&self) -> u64
        ensures { result ≡ self.now.id }
    {
        let _closed = self.closed;
        1
    }

    /// Whether the set takes no more tasks.
    pub fn is_closed(&self) -> bool
        ensures { result ≡ self.now.closed }
    {
        self.closed
    }

    // The shard of this number.
    fn index(&self, number: TaskNo) -> usize
        ensures shard { result ≡ shard_of self.now number }
        ensures there { result < length self.now.shards }
    {
        number.0 as usize % self.shards.len()
    }

    /// What is held of the task of this number. None where nothing is.
    pub fn get(&self, number: TaskNo) -> Option<&T>
        ensures { option_copied result ≡ held self.now number }
    {
        self.shards[self.index(number)].get(number)
    }

    /// Makes a task one of the set, and hands its first runnable to a queue: the second half of a spawn. Gives back
    /// what was to be held of it where the set is closed, or where there is no memory for it or for its place in the
    /// global queue; its runnable is discarded then, and who gets the task back clears it. The caller must have made
    /// the task and the runnable for this set, under a number that it doesn't hold.
    pub fn register<P: Place>(
        &mut self,
        alloc: Global,
        number: TaskNo,
        task: T,
        runnable: Runnable,
        place: &mut P,
    ) -> Result<(), Refusal<T>>
    where
        T: Drop,
        requires { held self.old number ≡ None }
        ensures inserted { OnOk result (self.new ≡ inserted self.old number task) }
        ensures map { OnOk result (Changes self.old self.new number (Some task)) }
        ensures open { OnOk result (self.old.closed ≡ false) }
        ensures queued { OnOk result ((reserved : P) × P.reserves place.old reserved
            × Spawns P.serving P.shows_empty P.workers_of P.enqueues P.pushes reserved runnable place.new) }
        ensures refused { IfErr result (IsRefused self.old task) }
        ensures kept { OnErr result (self.new ≡ self.old) }
        ensures not_queued { OnErr result ((place.new ≡ place.old) ⊎ P.reserves place.old place.new) }
    {
        if self.closed {
            runnable.discard();
            return Err(Refusal::Closed(task));
        }
        if place.reserve(alloc).is_err() {
            runnable.discard();
            return Err(Refusal::NoMemory(task));
        }
        if let Err(refused) = self.insert(alloc, number, task) {
            runnable.discard();
            return Err(refused);
        }
        runnable.spawn(place);
        Ok(())
    }

    /// Holds this of the task of this number. Gives it back where the set is closed, or where there is no memory; then
    /// nothing changes. The caller must know that the set holds nothing of that task.
    pub fn insert(&mut self, alloc: Global, number: TaskNo, task: T) -> Result<(), Refusal<T>>
    where
        T: Drop,
        requires { held self.old number ≡ None }
        ensures inserted { OnOk result (self.new ≡ inserted self.old number task) }
        ensures map { OnOk result (Changes self.old self.new number (Some task)) }
        ensures open { OnOk result (self.old.closed ≡ false) }
        ensures refused { IfErr result (IsRefused self.old task) }
        ensures kept { OnErr result (self.new ≡ self.old) }
    {
        if self.closed {
            return Err(Refusal::Closed(task));
        }
        let index = self.index(number);
        self.shards[index]
            .put(alloc, number, task)
            .map_err(Refusal::NoMemory)
    }

    /// Takes out what is held of the task of this number. None only where the set is closed and doesn't hold it, and
    /// then nothing changes: a drain took it before. The caller must know that an open set holds it.
    pub fn remove(&mut self, number: TaskNo) -> Option<T>
        requires { (self.old.closed ≡ true) ⊎ IsSome (held self.old number) }
        ensures task { result ≡ held self.old number }
        ensures removed { self.new ≡ removed self.old number }
        ensures map { Changes self.old self.new number None }
        ensures kept { IfNone result (self.new ≡ self.old) }
        ensures closed { IfNone result (self.old.closed ≡ true) }
    {
        let index = self.index(number);
        self.shards[index].take(number)
    }

    /// How many shards there are.
    pub fn shard_count(&self) -> usize
        ensures count { result ≡ length self.now.shards }
        ensures some { 0 < result }
    {
        self.shards.len()
    }

    /// Takes the newest task out of this shard, with its number. None where the shard is empty. The caller must know
    /// that there is such a shard.
    pub fn take_newest(&mut self, shard: usize) -> Option<(TaskNo, T)>
        requires { shard < length self.old.shards }
        ensures taken { IfSome result (λ t. TakesNewest shard t self.old self.new) }
        ensures empty { IfNone result (shard_at self.old shard ≡ []) }
        ensures kept { IfNone result (self.new ≡ self.old) }
    {
        self.shards[shard].take_newest()
    }

    /// A drain of the set, which goes round all shards, from the one at four times the worker's number on. The caller
    /// must know that the set is closed.
    pub fn drain(&self, worker: u32) -> Drain
        requires { self.now.closed ≡ true }
        ensures first { result ≡ drain_of self.now worker }
        ensures its { IsFor result self.now }
    {
        let count = self.shards.len();
        Drain::new(worker as usize * SHARDS_PER_WORKER % count, count)
    }

    /// Closes the set. What it holds stays, until it is removed or drained.
    pub fn close(&mut self)
        ensures { self.new ≡ record self.old { closed = true } }
    {
        self.closed = true;
    }
}
