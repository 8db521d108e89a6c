//! Calls on the sleepers of a worker, whose senders are numbers.

use crate::fault::Fault;
use crate::words::{id, number, short, text_of, text_of_id, word_of};
use exec_base::error::Error;
use exec_base::task_no::TaskNo;
use exec_time::notes::Notes;
use exec_time::timers::{Observation, TimerId, Timers};
use std::alloc::{AllocError, Global};
use std::str::SplitWhitespace as Words;

/// The sleepers of a worker, and what they leave to be told.
#[derive(Drop)]
pub struct Sleepers {
    timers: Timers<u32>,
    notes: Notes<u32>,
}

/// The task that the next word names.
fn task(words: &mut Words<'_>) -> Result<TaskNo, Fault> {
    short(words).map(TaskNo)
}

impl Sleepers {
    /// No sleepers.
    pub fn new(alloc: Global) -> Self {
        Sleepers {
            timers: Timers::new(alloc),
            notes: Notes::new(alloc),
        }
    }

    /// Makes a call, and answers what it gave.
    pub fn answer(&mut self, alloc: Global, words: &mut Words<'_>) -> Result<String, Fault> {
        match words.next().unwrap_or("") {
            "insert" => self.insert(alloc, words),
            "observe" => self.observe(alloc, words),
            "refresh" => self.refresh(alloc, words),
            "forward" => self.forward(alloc, words),
            "cancel" => self.cancel(alloc, words),
            "expire" => self.expire(alloc, words),
            "clear" => self.clear(alloc),
            "next" => text_of(alloc, self.timers.next_deadline()),
            "live" => text_of(alloc, Some(self.timers.len() as u64)),
            _ => Err(Fault::Malformed),
        }
    }

    /// One more sleeper: its id.
    fn insert(&mut self, alloc: Global, words: &mut Words<'_>) -> Result<String, Fault> {
        let (deadline, waker) = (number(words)?, task(words)?);
        match self.timers.insert(alloc, deadline, waker) {
            Ok(id) => text_of_id(alloc, id.0),
            Err(Error::Full) => Err(Fault::Condition),
            Err(_) => Err(Fault::Memory(AllocError)),
        }
    }

    /// What a task finds.
    fn observe(&mut self, alloc: Global, words: &mut Words<'_>) -> Result<String, Fault> {
        let (id, waker) = (TimerId(id(words)?), task(words)?);
        if self.timers.is_forwarded(id) {
            return Err(Fault::Condition);
        }
        let found = match self.timers.observe(id, waker) {
            Observation::Ready(()) => "ready",
            Observation::Pending => "pending",
            Observation::Refresh => "refresh",
        };
        word_of(alloc, found)
    }

    /// The waker that another one takes the place of.
    fn refresh(&mut self, alloc: Global, words: &mut Words<'_>) -> Result<String, Fault> {
        let (id, waker) = (TimerId(id(words)?), task(words)?);
        if self.timers.is_forwarded(id) {
            return Err(Fault::Condition);
        }
        match self.timers.refresh(id, waker) {
            Ok(before) => text_of(alloc, Some(before.0 as u64)),
            Err(_) => word_of(alloc, "gone"),
        }
    }

    /// A result is to be sent.
    fn forward(&mut self, alloc: Global, words: &mut Words<'_>) -> Result<String, Fault> {
        let (id, sender) = (TimerId(id(words)?), short(words)?);
        if self.timers.is_forwarded(id) {
            return Err(Fault::Condition);
        }
        self.notes.reserve(alloc, 1)?;
        self.timers.forward(id, sender, &mut self.notes);
        self.told(alloc)
    }

    /// A sleeper is removed.
    fn cancel(&mut self, alloc: Global, words: &mut Words<'_>) -> Result<String, Fault> {
        let id = TimerId(id(words)?);
        self.notes.reserve(alloc, 1)?;
        self.timers.cancel(id, &mut self.notes);
        self.told(alloc)
    }

    /// What is due fires.
    fn expire(&mut self, alloc: Global, words: &mut Words<'_>) -> Result<String, Fault> {
        let now = number(words)?;
        self.notes.reserve(alloc, self.timers.len())?;
        self.timers.expire(now, &mut self.notes);
        self.told(alloc)
    }

    /// All are removed.
    fn clear(&mut self, alloc: Global) -> Result<String, Fault> {
        self.notes.reserve(alloc, self.timers.len())?;
        self.timers.clear(&mut self.notes);
        self.told(alloc)
    }

    /// What is to be told, which is then forgotten.
    fn told(&mut self, alloc: Global) -> Result<String, Fault> {
        let (wakes, completions) = (self.wakes(alloc)?, self.completions(alloc)?);
        self.notes.wakes.clear();
        self.notes.completions.clear();
        Ok(format!(in alloc; "{wakes} {completions}")?)
    }

    /// The tasks that are to be woken.
    fn wakes(&self, alloc: Global) -> Result<String, AllocError> {
        let mut given = format!(in alloc; "wakes {}", self.notes.wakes.len())?;
        for wake in &self.notes.wakes {
            given.push_str(format!(in alloc; " {}", wake.0)?.as_str())?;
        }
        Ok(given)
    }

    /// The results that are to be sent.
    fn completions(&self, alloc: Global) -> Result<String, AllocError> {
        let mut given = format!(in alloc; "completions {}", self.notes.completions.len())?;
        for completion in &self.notes.completions {
            let word = match completion.result {
                Ok(()) => "ok",
                Err(_) => "Closed",
            };
            given.push_str(format!(in alloc; " {} {word}", completion.sender)?.as_str())?;
        }
        Ok(given)
    }
}
