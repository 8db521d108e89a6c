//! The queues of a fake pool: plain lists.

use crate::fault::Fault;
use exec_words::{CAPACITY, HALF};
use std::alloc::{AllocError, Global};
use std::collections::VecDeque;
use std::mem;

/// A run queue of a fake pool: its values, and those of a claim that is held. The places of a claim, and of what was
/// popped past it, are out of use: so many are the gap.
#[derive(Drop)]
pub struct RunQueue {
    alloc: Global,
    values: VecDeque<u64>,
    claimed: VecDeque<u64>,
    gap: usize,
}

impl RunQueue {
    /// An empty queue.
    pub fn new(alloc: Global) -> Self {
        RunQueue {
            alloc,
            values: VecDeque::new(alloc),
            claimed: VecDeque::new(alloc),
            gap: 0,
        }
    }

    /// How many values it has.
    pub fn len(&self) -> usize {
        self.values.len()
    }

    /// How many more values fit.
    pub fn room(&self) -> usize {
        CAPACITY.saturating_sub(self.values.len().saturating_add(self.gap))
    }

    /// Whether half of it can be claimed.
    pub fn is_stealable(&self) -> bool {
        self.gap == 0 && self.values.len() >= 2
    }

    /// The oldest value.
    pub fn pop(&mut self) -> Option<u64> {
        let value = self.values.pop_front()?;
        if self.gap > 0 {
            self.gap = self.gap.saturating_add(1);
        }
        Some(value)
    }

    /// Appends a value. The caller must have room for it.
    pub fn append(&mut self, value: u64) -> Result<(), AllocError> {
        Ok(self.values.push_back(value)?)
    }

    /// Appends these values.
    pub fn append_all(&mut self, mut values: VecDeque<u64>) -> Result<usize, AllocError> {
        let count = values.len();
        for _ in 0..count {
            if let Some(value) = values.pop_front() {
                self.append(value)?;
            }
        }
        Ok(count)
    }

    /// A push by the owner: what goes elsewhere, the oldest first. None where the value stays.
    pub fn push(&mut self, value: u64) -> Result<Option<VecDeque<u64>>, AllocError> {
        if self.room() > 0 {
            self.append(value)?;
            return Ok(None);
        }
        let mut out = VecDeque::new(self.alloc);
        if self.gap == 0 {
            self.flow_over(&mut out)?;
        }
        out.push_back(value)?;
        Ok(Some(out))
    }

    /// Takes out the newest half.
    fn flow_over(&mut self, out: &mut VecDeque<u64>) -> Result<(), AllocError> {
        for _ in 0..HALF {
            if let Some(value) = self.values.pop_back() {
                out.push_front(value)?;
            }
        }
        Ok(())
    }

    /// Claims the oldest half, rounded down: how many values. None can be claimed where it isn't stealable.
    pub fn claim(&mut self) -> Result<usize, AllocError> {
        if !self.is_stealable() {
            return Ok(0);
        }
        let count = self.values.len() / 2;
        for _ in 0..count {
            if let Some(value) = self.values.pop_front() {
                self.claimed.push_back(value)?;
            }
        }
        self.gap = count;
        Ok(count)
    }

    /// Releases the claim: its values.
    pub fn release(&mut self) -> VecDeque<u64> {
        self.gap = 0;
        mem::replace(&mut self.claimed, VecDeque::new(self.alloc))
    }

    /// At most so many values, popped one by one.
    pub fn pops(&mut self, most: u64) -> Result<Vec<u64>, Fault> {
        let mut values = Vec::new(self.alloc);
        for _ in 0..most {
            match self.pop() {
                Some(value) => values.push(value)?,
                None => break,
            }
        }
        Ok(values)
    }
}

/// The queues of a fake pool.
#[derive(Drop)]
pub struct Queues {
    /// The global queue.
    pub global: VecDeque<u64>,
    runs: Vec<RunQueue>,
}

impl Queues {
    /// The global queue alone.
    pub fn new(alloc: Global) -> Self {
        Queues {
            global: VecDeque::new(alloc),
            runs: Vec::new(alloc),
        }
    }

    /// Makes the run queues of so many workers.
    pub fn fill(&mut self, alloc: Global, workers: usize) -> Result<(), AllocError> {
        for _ in 0..workers {
            self.runs.push(RunQueue::new(alloc))?;
        }
        Ok(())
    }

    /// The run queue of a worker.
    pub fn run(&mut self, worker: usize) -> Result<&mut RunQueue, Fault> {
        self.runs.get_mut(worker).ok_or(Fault::Malformed)
    }

    /// Whether a worker can steal from this run queue, which isn't its own: half can be claimed, and the own has room
    /// for the largest claim.
    pub fn is_open(&self, worker: usize, own: usize) -> bool {
        worker != own
            && self.runs.get(worker).is_some_and(|run| run.is_stealable())
            && self.runs.get(own).is_some_and(|run| run.room() >= HALF)
    }

    /// Whether half of another worker's run queue can be claimed.
    pub fn is_stealable(&self, worker: usize, own: usize) -> bool {
        worker != own && self.runs.get(worker).is_some_and(|run| run.is_stealable())
    }

    /// Half of a run queue goes to the own: how many values.
    pub fn move_half(&mut self, victim: usize, own: usize) -> Result<usize, Fault> {
        let victim = self.run(victim)?;
        victim.claim()?;
        let values = victim.release();
        Ok(self.run(own)?.append_all(values)?)
    }
}
