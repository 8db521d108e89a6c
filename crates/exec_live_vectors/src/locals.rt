//! A live run queue with the seat of a thief and its owner.

ghost use Rattle.std.specs.{Prelude.{◌≡◌, []}, Option.ForSome};
ghost use Rattle.exec_live_queue.specs.{Kinds.{IsThief, handed}, Lent.{left_of, lender}};

use crate::fault::Fault;
use crate::words::{flag, number, text_of, text_of_list};
use exec_live_queue::lent::{Overflow, Push, Settled};
use exec_live_queue::owner::Owner;
use exec_live_queue::queue::{Queue, QueueSeat};
use exec_words::reserved::Reserved;
use exec_words::{CAPACITY, SPENT};
use std::alloc::Global;
use std::mem;
use std::str::SplitWhitespace;
use std::sync::{Arc, Wait};

/// A live run queue.
pub struct Local {
    /// The queue, from which others steal.
    pub queue: Arc<Queue<u64>, Global>,
    /// The seat of those that steal from it one after the other.
    pub thief: QueueSeat<u64>,
    /// The owner, unless it is lent to a thief that holds a claim.
    pub owner: Option<Owner<u64>>,
    ghost at: { IsThief queue.value thief },
    ghost whole: { ForSome owner (λ owner. handed owner ≡ []) },
}

impl Local {
    /// An empty queue whose first value gets this count.
    pub fn at(alloc: Global, start: u64) -> Result<Self, Fault> {
        if start > SPENT {
            return Err(Fault::Condition);
        }
        let (queue, mut first) = Queue::at(alloc, start)?;
        let thief = queue.seat(&mut first);
        let queue = Arc::new(alloc, queue)?;
        let owner = Some(queue.owner(first)?);
        Ok(Local {
            queue,
            thief,
            owner,
        })
    }

    /// Empties the queue, and lets its owner go.
    pub fn end<R: Wait>(self, rt: &R) {
        let Local {
            queue: _,
            thief: _,
            owner,
        } = self;
        if let Some(owner) = owner {
            let_go(rt, owner);
        }
    }

    /// Makes a call of the owner, or a look of a thief.
    pub fn answer<R: Wait>(
        &mut self,
        rt: &R,
        alloc: Global,
        operation: &str,
        words: &mut SplitWhitespace<'_>,
    ) -> Result<String, Fault> {
        match operation {
            "stealable" => return Ok(flag(alloc, self.queue.is_stealable(&mut self.thief))?),
            "head" => {
                let head = self.queue.head(&mut self.thief);
                return Ok(format!(in alloc; "{} {}", head.real, head.gap)?);
            }
            _ => {}
        }
        let Some(mut owner) = self.owner.take() else {
            return Err(Fault::Unasked);
        };
        let given = owned(alloc, &mut owner, operation, words);
        self.give_back(rt, owner);
        given
    }

    /// Takes the owner back.
    pub fn give_back<R: Wait>(&mut self, rt: &R, owner: Owner<u64>)
        requires { handed owner ≡ [] }
    {
        if let Some(other) = mem::replace(&mut self.owner, Some(owner)) {
            let_go(rt, other);
        }
    }

    /// Steals into another queue: how many values moved.
    pub fn steal<R: Wait>(&mut self, rt: &R, into: &mut Owner<u64>) -> usize
        requires { handed into.old ≡ [] }
        ensures { handed into.new ≡ [] }
    {
        self.queue.steal_into(rt, &mut self.thief, into)
    }
}

/// Pops what is left, and lets the owner go.
pub fn let_go<R: Wait>(rt: &R, mut owner: Owner<u64>)
    requires { handed owner ≡ [] }
{
    for _ in rt.forever() {
        if owner.pop().is_none() {
            owner.leave();
            return;
        }
    }
    unreachable!()
}

/// Makes a call of an owner.
pub fn owned(
    alloc: Global,
    owner: &mut Owner<u64>,
    operation: &str,
    words: &mut SplitWhitespace<'_>,
) -> Result<String, Fault>
    requires { handed owner.old ≡ [] }
    ensures { handed owner.new ≡ [] }
{
    match operation {
        "push" => push(alloc, owner, number(words)?),
        "pop" => Ok(text_of(alloc, owner.pop())?),
        "pops" => pops(alloc, owner, number(words)?),
        "batch" => batch(alloc, owner, number(words)?, number(words)?),
        "len" => Ok(format!(in alloc; "{}", owner.len())?),
        "room" => Ok(format!(in alloc; "{}", owner.room())?),
        _ => Err(Fault::Malformed),
    }
}

/// A push, with what it hands out.
fn push(alloc: Global, owner: &mut Owner<u64>, value: u64) -> Result<String, Fault>
    requires { handed owner.old ≡ [] }
    ensures { handed owner.new ≡ [] }
{
    match owner.push(value) {
        Push::Overflow(mut overflow) => {
            let mut out = Vec::new(alloc);
            let complete = drain(&mut overflow, &mut out);
            out.push(overflow.finish())?;
            if !complete {
                return Err(Fault::Condition);
            }
            Ok(format!(in alloc; "overflow {}", text_of_list(alloc, &out)?)?)
        }
        Push::Settled(answer) => match answer {
            Settled::Pushed(len) => Ok(format!(in alloc; "pushed {len}")?),
            Settled::Claimed(value) => Ok(format!(in alloc; "claimed {value}")?),
            Settled::Spent(value) => Ok(format!(in alloc; "spent {value}")?),
        },
    }
}

/// Takes all that flows over. False where there was no memory to keep it.
fn drain(overflow: &mut Overflow<'_, u64>, out: &mut Vec<u64>) -> bool
    ensures same { lender overflow.new ≡ lender overflow.old }
    ensures dry { left_of overflow.new ≡ [] }
{
    let mut complete = true;
    'left: loop {
        match overflow.next() {
            Some(value) => complete = out.push(value).is_ok() && complete,
            None => return complete,
        }
    }
}

/// At most so many values, popped one by one.
fn pops(alloc: Global, owner: &mut Owner<u64>, most: u64) -> Result<String, Fault>
    requires { handed owner.old ≡ [] }
    ensures { handed owner.new ≡ [] }
{
    let mut values = Vec::new(alloc);
    for _ in 0..most {
        match owner.pop() {
            Some(value) => values.push(value)?,
            None => break,
        }
    }
    Ok(text_of_list(alloc, &values)?)
}

/// Publishes so many values, from this one on.
fn batch(alloc: Global, owner: &mut Owner<u64>, first: u64, count: u64) -> Result<String, Fault>
    requires { handed owner.old ≡ [] }
    ensures { handed owner.new ≡ [] }
{
    let mut values = Reserved::with_places(alloc, CAPACITY)?;
    for offset in 0..count {
        if values.spare() == 0 {
            return Err(Fault::Condition);
        }
        values.push(first.saturating_add(offset));
    }
    if values.len() > owner.room() {
        return Err(Fault::Condition);
    }
    owner.push_batch(&mut values);
    Ok(String::from_str(alloc, "ok")?)
}
