//! The global queue of a pool whose workers are busy, with their run queues. Each answer ends with
//! what the pool tells of its sleepers, who are none.

use crate::fault::Fault;
use crate::queues::{Local, Queues, drained};
use crate::words::{number, place, text_of_list, word_of};
use exec_words::MAX_WORKERS;
use exec_words::global::GlobalQueue;
use std::alloc::Global;
use std::str::SplitWhitespace as Words;

/// A pool of busy workers.
#[derive(Drop)]
pub struct Busy {
    global: GlobalQueue<u64>,
    queues: Queues,
}

impl Busy {
    /// The pool of `workers N`, with nothing queued.
    pub fn begin(alloc: Global, words: &mut Words<'_>) -> Result<Self, Fault> {
        let workers = number(words)?;
        let mut locals = Vec::new(alloc);
        if workers == 0 || workers > MAX_WORKERS as u64 {
            return Err(Fault::Condition);
        }
        for _ in 0..workers {
            locals.push(Local::at(alloc, 0)?)?;
        }
        Ok(Busy {
            global: GlobalQueue::new(alloc),
            queues: Queues { locals },
        })
    }

    /// Makes a call, and answers what it gave.
    pub fn answer(&mut self, alloc: Global, words: &mut Words<'_>) -> Result<String, Fault> {
        let given = match words.next().unwrap_or("") {
            "push" => self.push(alloc, words),
            "take" => self.take(alloc, words),
            "batch" => self.queues.batch(alloc, words),
            "pops" => self.queues.pops(alloc, words),
            "global" => self.close(alloc),
            "leave" => word_of(alloc, "ok"),
            _ => Err(Fault::Malformed),
        }?;
        format!(in alloc; "{given} idle 0 count 0 woken").map_err(Fault::Memory)
    }

    /// The global queue is closed, and tells what it held.
    fn close(&mut self, alloc: Global) -> Result<String, Fault> {
        let values = drained(alloc, &mut self.global.close(alloc))?;
        text_of_list(alloc, &values).map_err(Fault::Memory)
    }

    /// A value at the end of the global queue.
    fn push(&mut self, alloc: Global, words: &mut Words<'_>) -> Result<String, Fault> {
        let value = number(words)?;
        let places = self.global.mirror().saturating_add(1);
        self.global.reserve(alloc, places)?;
        if self.global.spare() == 0 || self.global.push(value).is_err() {
            return Err(Fault::Condition);
        }
        word_of(alloc, "ok")
    }

    /// A worker's share: the oldest value, and how many its run queue gets.
    fn take(&mut self, alloc: Global, words: &mut Words<'_>) -> Result<String, Fault> {
        let workers = self.queues.locals.len();
        let at = place(words, workers)?;
        let queue = &mut self.queues.locals[at].queue;
        let (room, held) = (queue.room(), queue.len());
        if !queue.is_whole() {
            return Err(Fault::Condition);
        }
        match self.global.take(workers, room, held, queue) {
            Some(first) => {
                let queued = queue.len().saturating_sub(held);
                Ok(format!(in alloc; "{first} queued {queued}")?)
            }
            None => word_of(alloc, "none"),
        }
    }
}
