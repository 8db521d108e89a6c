//! What all workers share, and the seats.
//!
//! Tasks, requests and sleepers are lists by number, which only grow. A request or a sleeper is changed by its own
//! worker, but for what a sender marks; a task by who polls, wakes or clears it. What stands under one lock in a
//! running executor is one shared thing here: the global queue with its mirror, a shard of the task set, a gate, an
//! inbox with its published batch.

ghost use Rattle.std.specs.{Prelude.{◌≡◌, ◌<◌, ◌≤◌, ◌^◌, ◌||◌, not, length, None, IfOk, OnErr}, List.list_all};
ghost use Rattle.exec_parts.specs.{Words.held, Firsts.IsFresh, Pooled.{MakesTask, SameButRoom}};

use crate::parts::record::Record;
use crate::parts::seat::Seat;
use crate::parts::sleeping::SleeperRecord;
use crate::parts::task_slot::TaskSlot;
use exec_base::task_no::TaskNo;
use exec_machine::config::Configuration;
use exec_opens::opens::Opens;
use exec_ring::store::Store;
use exec_task::runnable::Runnable;
use exec_task::tasks::{Refusal, Tasks};
use exec_words::global::GlobalQueue;
use exec_words::idle::PureIdle;
use std::alloc::{AllocError, Global};

/// What all workers share.
#[derive(Drop)]
pub struct Shared<B> {
    /// The configuration.
    pub config: Configuration,
    /// The clock, in nanoseconds.
    pub clock: u64,
    /// What others may touch of each worker, by number.
    pub seats: Vec<Seat>,
    /// The tasks, by number.
    pub tasks: Vec<TaskSlot<B>>,
    /// The numbers of the ordinary tasks that are live.
    pub set: Tasks<()>,
    /// The queue that all workers of the pool take from.
    pub global: GlobalQueue<Runnable>,
    /// Which workers are about to sleep, and how many search.
    pub idle: PureIdle,
    /// The requests, by number.
    pub requests: Vec<Record>,
    /// The sleepers, by number.
    pub sleepers: Vec<SleeperRecord>,
    /// The opens, with their gates.
    pub opens: Opens,
    /// The bytes of all sockets and files.
    pub store: Store,
    /// How many peers wait at each listener.
    pub listeners: Vec<u64>,
    /// Whether the shutdown barrier is open.
    pub barrier_open: bool,
    /// Whether the pool is stopped.
    pub stopped: bool,
}

impl<B: Drop> Shared<B> {
    /// What the workers of a pool of this configuration share before they begin, without seats and tasks. `Err` only for
    /// want of memory. The caller must have some workers, and at most 2^32.
    pub fn new(alloc: Global, config: Configuration) -> Result<Self, AllocError>
        requires some { 0 < config.workers }
        requires few { config.workers ≤ 2 ^ 32 }
        ensures fresh { IfOk result (λ s. IsFresh config s) }
    {
        let listeners = vec![in alloc; 0; config.sockets]?;
        Ok(Shared {
            config,
            clock: 0,
            seats: Vec::new(alloc),
            tasks: Vec::new(alloc),
            set: Tasks::new(alloc, config.workers)?,
            global: GlobalQueue::new(alloc),
            idle: PureIdle::new(),
            requests: Vec::new(alloc),
            sleepers: Vec::new(alloc),
            opens: Opens::new(alloc, config.files)?,
            store: Store::new(alloc),
            listeners,
            barrier_open: false,
            stopped: false,
        })
    }

    /// Makes a task of this body under the next number, and answers its first runnable, which has a place in the global
    /// queue. None where the task set is closed. Err comes only for want of memory or of a number below 2^32, and then
    /// nothing that can be seen has changed. The caller must know that the set has no task of the next number.
    pub fn make_task(&mut self, alloc: Global, body: B) -> Result<Option<Runnable>, AllocError>
        requires absent { held self.old.set (record { 0 = length self.old.tasks.items }) ≡ None }
        ensures made { IfOk result (MakesTask body self.old self.new) }
        ensures same { OnErr result (SameButRoom self.old self.new) }
    {
        if self.set.is_closed() {
            return Ok(None);
        }
        let count = self.tasks.len();
        let number = match u32::try_from(count) {
            Ok(number) => TaskNo(number),
            Err(_) => return Err(AllocError),
        };
        self.tasks.reserve(1)?;
        self.global.reserve(alloc, count + 1)?;
        match self.set.insert(alloc, number, ()) {
            Ok(()) => {}
            Err(Refusal::Closed(()) | Refusal::NoMemory(())) => return Err(AllocError),
        }
        let (slot, runnable) = TaskSlot::new(alloc, number, self.set.id(), None, body);
        self.tasks.push_reserved(slot);
        Ok(Some(runnable))
    }

    /// Whether each worker of the pool has passed the shutdown barrier.
    pub fn all_left(&self) -> bool
        ensures { result ≡ list_all (λ seat. seat.left || not seat.pool) self.now.seats.items }
    {
        self.seats.iter().all(|seat| seat.left || !seat.pool)
    }
}
