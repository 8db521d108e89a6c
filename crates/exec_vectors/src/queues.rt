//! Calls on run queues, each of which has its owner's hand.
//!
//! A thief is the owner of another queue, and claims into its hand. It does nothing else until it
//! has released the claim and published what it holds.

use crate::fault::Fault;
use crate::words::{number, place, text_of, text_of_list, word_of};
use exec_words::queue::{PureQueue, PushAnswer};
use exec_words::reserved::Reserved;
use exec_words::{CAPACITY, HALF, SPENT};
use std::alloc::{AllocError, Global};
use std::mem;
use std::str::SplitWhitespace as Words;

/// A run queue with the hand of its owner.
#[derive(Drop)]
pub struct Local {
    /// The run queue.
    pub queue: PureQueue<u64>,
    hand: Reserved<u64>,
}

impl Local {
    /// An empty queue whose first value gets this count.
    pub fn at(alloc: Global, real: u64) -> Result<Self, Fault> {
        if real > SPENT {
            return Err(Fault::Condition);
        }
        Ok(Local {
            queue: PureQueue::at(alloc, real)?,
            hand: Reserved::with_places(alloc, CAPACITY)?,
        })
    }

    /// Publishes what the hand holds: how many values.
    fn publish(&mut self) -> Result<usize, Fault> {
        let count = self.hand.len();
        if !self.queue.is_whole() || count > self.queue.room() {
            return Err(Fault::Condition);
        }
        self.queue.publish(count, &mut self.hand);
        Ok(count)
    }

    /// Publishes so many values, from this one on.
    fn batch(&mut self, first: u64, count: u64) -> Result<usize, Fault> {
        for offset in 0..count {
            if self.hand.spare() == 0 {
                return Err(Fault::Condition);
            }
            self.hand.push(first.saturating_add(offset));
        }
        self.publish()
    }

    /// The owner's pop, step by step.
    fn pop(&mut self) -> Option<u64> {
        let head = self.queue.head();
        if self.queue.tail() <= head.real {
            return None;
        }
        if head.gap == 0 && self.queue.len() == 1 {
            return Some(self.queue.pop_last());
        }
        self.queue.pop_exchange(head).ok()
    }

    /// At most so many values, popped one by one.
    fn pops(&mut self, alloc: Global, most: u64) -> Result<String, Fault> {
        let mut values = Vec::new(alloc);
        for _ in 0..most {
            match self.pop() {
                Some(value) => values.push(value)?,
                None => break,
            }
        }
        Ok(text_of_list(alloc, &values)?)
    }

    /// A push, with what it hands out.
    fn push(&mut self, alloc: Global, value: u64) -> Result<String, Fault> {
        if !self.queue.is_whole() || self.hand.spare() < HALF {
            return Err(Fault::Condition);
        }
        Ok(match self.queue.push(value, &mut self.hand) {
            PushAnswer::Pushed(len) => format!(in alloc; "pushed {len}")?,
            PushAnswer::Overflow(value) => {
                let mut out = drained(alloc, &mut self.hand)?;
                out.push(value)?;
                format!(in alloc; "overflow {}", text_of_list(alloc, &out)?)?
            }
            PushAnswer::Claimed(value) => format!(in alloc; "claimed {value}")?,
            PushAnswer::Spent(value) => format!(in alloc; "spent {value}")?,
        })
    }

    /// What a thief claims into its hand: how many values. None where its queue has no room for
    /// them, or nothing can be claimed.
    fn claim(&mut self, thief: &mut Local) -> Result<usize, Fault> {
        let (head, tail) = (self.queue.head(), self.queue.tail());
        if thief.queue.room() < HALF || !head.is_stealable(tail) {
            return Ok(0);
        }
        if thief.hand.spare() < HALF {
            return Err(Fault::Condition);
        }
        let claimed = self.queue.claim_exchange(head, tail, &mut thief.hand);
        Ok(claimed.unwrap_or(0))
    }

    /// Releases the claim, and publishes what the thief holds: how many values.
    fn release(&mut self, thief: &mut Local) -> Result<usize, Fault> {
        if self.queue.release_exchange(self.queue.head()).is_err() {
            return Err(Fault::Condition);
        }
        thief.publish()
    }

    /// The part of a theft that this call names: how many values were moved.
    fn robbed(&mut self, thief: &mut Local, call: &str) -> Result<usize, Fault> {
        match call {
            "begin" => self.claim(thief),
            "finish" => self.release(thief),
            _ => match self.claim(thief)? {
                0 => Ok(0),
                _ => self.release(thief),
            },
        }
    }
}

/// What a list holds, the oldest first.
pub fn drained(alloc: Global, from: &mut Reserved<u64>) -> Result<Vec<u64>, AllocError> {
    let mut values = Vec::new(alloc);
    for _ in 0..from.len() {
        if let Some(value) = from.pop() {
            values.push(value)?;
        }
    }
    Ok(values)
}

/// The queues of a case, by their numbers.
#[derive(Drop)]
pub struct Queues {
    /// Each queue with its owner's hand.
    pub locals: Vec<Local>,
}

impl Queues {
    /// The queues of `START KIND START ..`.
    pub fn begin(alloc: Global, words: &mut Words<'_>) -> Result<Self, Fault> {
        let mut locals = Vec::new(alloc);
        locals.push(Local::at(alloc, number(words)?)?)?;
        for _ in 0..64 {
            if words.next().is_none() {
                break;
            }
            locals.push(Local::at(alloc, number(words)?)?)?;
        }
        Ok(Queues { locals })
    }

    /// The queue that the next word names.
    fn local(&mut self, words: &mut Words<'_>) -> Result<&mut Local, Fault> {
        let at = place(words, self.locals.len())?;
        Ok(&mut self.locals[at])
    }

    /// Makes a call, and answers what it gave.
    pub fn answer(&mut self, alloc: Global, words: &mut Words<'_>) -> Result<String, Fault> {
        let operation = words.next().unwrap_or("");
        match operation {
            "push" => self.push(alloc, words),
            "pop" => text_of(alloc, self.local(words)?.pop()),
            "pops" => self.pops(alloc, words),
            "batch" => self.batch(alloc, words),
            "begin" | "finish" | "steal" => self.steal(alloc, operation, words),
            _ => shown(&self.local(words)?.queue, alloc, operation),
        }
    }

    /// A push to one queue.
    fn push(&mut self, alloc: Global, words: &mut Words<'_>) -> Result<String, Fault> {
        self.local(words)?.push(alloc, number(words)?)
    }

    /// Pops of one queue.
    pub fn pops(&mut self, alloc: Global, words: &mut Words<'_>) -> Result<String, Fault> {
        self.local(words)?.pops(alloc, number(words)?)
    }

    /// Publishes values in one queue.
    pub fn batch(&mut self, alloc: Global, words: &mut Words<'_>) -> Result<String, Fault> {
        self.local(words)?.batch(number(words)?, number(words)?)?;
        word_of(alloc, "ok")
    }

    /// A claim, a release, or both where something was claimed: how many values. The thief's queue
    /// stands aside meanwhile.
    fn steal(&mut self, alloc: Global, call: &str, words: &mut Words<'_>) -> Result<String, Fault> {
        let from = place(words, self.locals.len())?;
        let into = place(words, self.locals.len())?;
        let mut thief = mem::replace(&mut self.locals[into], Local::at(alloc, 0)?);
        let moved = self.locals[from].robbed(&mut thief, call);
        self.locals[into] = thief;
        text_of(alloc, Some(moved? as u64))
    }
}

/// What is read off a queue.
fn shown(queue: &PureQueue<u64>, alloc: Global, operation: &str) -> Result<String, Fault> {
    let head = queue.head();
    match operation {
        "len" => text_of(alloc, Some(queue.len() as u64)),
        "room" => text_of(alloc, Some(queue.room() as u64)),
        "stealable" => text_of(alloc, Some(head.is_stealable(queue.tail()) as u64)),
        "head" => format!(in alloc; "{} {}", head.real, head.gap).map_err(Fault::Memory),
        _ => Err(Fault::Malformed),
    }
}
