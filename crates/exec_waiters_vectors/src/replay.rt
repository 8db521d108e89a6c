//! The calls of the lines.

use crate::fault::Fault;
use crate::telling::{end_of, text_of_end, text_of_lists};
use crate::words::{ended, name, number, request, result, small};
use exec_base::slab::InsertError;
use exec_base::task_no::TaskNo;
use exec_request::open_record::OpenRecord;
use exec_time::timers::Observation;
use exec_waiters::completed::CompletionOutcome;
use exec_waiters::deferred::Deferred;
use exec_waiters::observer::Observer;
use exec_waiters::waiter::Refused;
use exec_waiters::waiter_id::WaiterId;
use exec_waiters::waiters::Waiters;
use std::alloc::{AllocError, Global};
use std::str::{FromStr, SplitWhitespace};

/// The requests of a case.
#[derive(Drop)]
pub struct Replay {
    waiters: Waiters<u64, u64>,
}

fn flag(alloc: Global, holds: bool) -> Result<String, AllocError> {
    let digit = holds as u8;
    format!(in alloc; "{digit}")
}

fn tick(alloc: Global, tick: Option<u64>) -> Result<String, AllocError> {
    match tick {
        Some(tick) => format!(in alloc; "{tick}"),
        None => String::from_str(alloc, "none"),
    }
}

/// Who waits for a request, as the next words say.
fn observer(words: &mut SplitWhitespace<'_>) -> Result<Observer<u64, u64>, Fault> {
    match words.next() {
        Some("local") => Ok(Observer::Local(None)),
        Some("detached") => Ok(Observer::DetachedSync(number(words)?)),
        _ => Err(Fault::Malformed),
    }
}

/// The name that a request got. One that was refused is let go.
fn taken_in(inserted: Result<WaiterId, InsertError<Refused<u64, u64>>>) -> Result<WaiterId, Fault> {
    let fault = match &inserted {
        Ok(id) => return Ok(*id),
        Err(InsertError::Full(_)) => Fault::Condition,
        Err(InsertError::NoMemory(_)) => Fault::Memory(AllocError),
    };
    drop(inserted);
    Err(fault)
}

impl Replay {
    /// No requests.
    pub fn new(alloc: Global) -> Result<Self, AllocError> {
        Ok(Replay {
            waiters: Waiters::new(alloc, 0)?,
        })
    }

    /// Makes the call of these words, and answers its whole line.
    pub fn answer(&mut self, alloc: Global, operation: &str) -> Result<String, Fault> {
        let mut words = operation.split_whitespace();
        let word = words.next().unwrap_or("");
        if word == "data" {
            let data = name(&mut words)?.user_data();
            return Ok(format!(in alloc; "{data}")?);
        }
        let mut deferred = Deferred::new(alloc);
        let line = self.line(alloc, word, &mut words, &mut deferred);
        drop(deferred);
        line
    }

    /// Makes the call of this word, and answers its whole line, with what it told.
    fn line(
        &mut self,
        alloc: Global,
        word: &str,
        words: &mut SplitWhitespace<'_>,
        deferred: &mut Deferred<u64, u64>,
    ) -> Result<String, Fault> {
        let answer = match word {
            "insert" => self.insert(alloc, words)?,
            "close" => self.close(alloc, deferred)?,
            "complete" => self.complete(alloc, words)?,
            _ => self.named(alloc, word, words, deferred)?,
        };
        let lists = text_of_lists(alloc, deferred)?;
        let len = self.waiters.len();
        let flying = self.waiters.in_flight();
        Ok(format!(in alloc; "{answer} ; {lists} len {len} flying {flying}")?)
    }

    fn insert(&mut self, alloc: Global, words: &mut SplitWhitespace<'_>) -> Result<String, Fault> {
        let asked = request(alloc, words)?;
        let observer = match observer(words) {
            Ok(observer) if observer.suits(&asked) => observer,
            found => {
                drop(asked);
                return Err(found.err().unwrap_or(Fault::Condition));
            }
        };
        let id = taken_in(self.waiters.insert(alloc, asked, observer))?;
        if self.waiters.lacks_permit(id) {
            self.waiters
                .acquire_durability(id, &Some(OpenRecord::new()));
        }
        let (index, generation, data) = (id.0.index, id.0.generation, id.user_data());
        Ok(format!(in alloc; "{index} {generation} data {data}")?)
    }

    fn close(&mut self, alloc: Global, deferred: &mut Deferred<u64, u64>) -> Result<String, Fault> {
        let mut text = String::new(alloc);
        let mut count = 0u64;
        for _ in 0..64 {
            deferred.reserve(alloc, 1)?;
            let Some(closed) = self.waiters.close(deferred) else {
                break;
            };
            if closed.cancels {
                count = count.saturating_add(1);
                let (index, generation) = (closed.id.0.index, closed.id.0.generation);
                text.push_str(format!(in alloc; " {index} {generation}")?.as_str())?;
            }
        }
        Ok(format!(in alloc; "{count}{text}")?)
    }

    fn complete(
        &mut self,
        alloc: Global,
        words: &mut SplitWhitespace<'_>,
    ) -> Result<String, Fault> {
        let data = number(words)?;
        let given = result(words)?;
        let Some(id) = self.waiters.named(data) else {
            return Err(Fault::Condition);
        };
        if !self.waiters.may_give(id, given) {
            return Err(Fault::Condition);
        }
        let mut record = Some(OpenRecord::new());
        match self.waiters.on_completion(data, given, &mut record) {
            Some(CompletionOutcome::Requeue(id)) => {
                let (index, generation) = (id.0.index, id.0.generation);
                Ok(format!(in alloc; "requeue {index} {generation}")?)
            }
            Some(CompletionOutcome::Complete(id, ended)) => {
                let word = text_of_end(alloc, ended)?;
                let (index, generation) = (id.0.index, id.0.generation);
                Ok(format!(in alloc; "complete {index} {generation} {word}")?)
            }
            None => Err(Fault::Condition),
        }
    }

    fn named(
        &mut self,
        alloc: Global,
        word: &str,
        words: &mut SplitWhitespace<'_>,
        deferred: &mut Deferred<u64, u64>,
    ) -> Result<String, Fault> {
        let id = name(words)?;
        match word {
            "stage" if self.waiters.may_stage(id) => {
                self.waiters.stage(id, &Some(OpenRecord::new()));
                Ok(String::from_str(alloc, "ok")?)
            }
            "deadline" if self.waiters.awaits_tick(id) => {
                self.waiters.set_deadline(id, number(words)?);
                Ok(String::from_str(alloc, "ok")?)
            }
            "finish" => self.finish(alloc, id, words, deferred),
            "observe" => self.observe(alloc, id, words),
            "waker" if self.waiters.is_observed_here(id) => {
                let displaced = self.waiters.set_waker(id, TaskNo(small(words)?));
                Ok(tick(alloc, displaced.map(|task: TaskNo| task.0 as u64))?)
            }
            "target" => Ok(tick(alloc, self.waiters.target_tick(id))?),
            "pending" => Ok(flag(alloc, self.waiters.is_pending(id))?),
            "flying" => Ok(flag(alloc, self.waiters.is_in_flight(id))?),
            "cancel" => Ok(flag(alloc, self.waiters.cancel(id))?),
            "orphan" => {
                deferred.reserve(alloc, 1)?;
                Ok(flag(alloc, self.waiters.orphan(id, deferred))?)
            }
            "forward" => {
                let sender = number(words)?;
                deferred.reserve(alloc, 1)?;
                self.waiters.forward(id, sender, deferred);
                Ok(String::from_str(alloc, "ok")?)
            }
            _ => Err(Fault::Condition),
        }
    }

    fn finish(
        &mut self,
        alloc: Global,
        id: WaiterId,
        words: &mut SplitWhitespace<'_>,
        deferred: &mut Deferred<u64, u64>,
    ) -> Result<String, Fault> {
        let ended = ended(words)?;
        deferred.reserve(alloc, 1)?;
        if !self.waiters.is_idle(id) {
            return Err(Fault::Condition);
        }
        let mut record = Some(OpenRecord::new());
        Ok(tick(alloc, self.waiters.finish(id, ended, &mut record, deferred))?)
    }

    fn observe(
        &mut self,
        alloc: Global,
        id: WaiterId,
        words: &mut SplitWhitespace<'_>,
    ) -> Result<String, Fault> {
        let task = TaskNo(small(words)?);
        if !self.waiters.may_be_seen(id) {
            return Err(Fault::Condition);
        }
        Ok(match self.waiters.observe(id, task) {
            Observation::Ready(output) => {
                let ended = end_of(&output);
                drop(output);
                let word = text_of_end(alloc, ended)?;
                format!(in alloc; "ready {word}")?
            }
            Observation::Pending => String::from_str(alloc, "pending")?,
            Observation::Refresh => String::from_str(alloc, "refresh")?,
        })
    }
}
