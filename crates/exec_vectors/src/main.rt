//! Replays what the original answered, and tells where this port answers otherwise.
//!
//! Standard input has lines of text. A line `case N ..` begins a new part, by the words after N: a slab, a wheel, a
//! spinner, the sleepers of a worker, run queues, a wake word, or the queues of a pool. Each line `OPERATION = ANSWER`
//! after it is a call on that part with what `commonware-runtime` 2026.10.0 answered. A line that begins with `#` says
//! nothing. Standard output has a line for each answer that differs, and at the end how many there were.
#![tactic(auto)]

mod fault;
mod part;
mod queues;
mod shares;
mod sleepers;
mod slots;
mod spins;
mod ticks;
mod wakes;
mod words;

use fault::Fault;
use part::Part;
use std::alloc::{AllocError, Global};
use std::io::{self, BufRead, BufReader};

/// Makes the call of a line, and answers what it gave where that isn't what is wanted.
fn difference(part: &mut Part, alloc: Global, line: &str) -> Result<Option<String>, Fault> {
    let Some((operation, wanted)) = line.split_once(" = ") else {
        *part = Part::begin(alloc, line)?;
        return Ok(None);
    };
    let given = part.answer(alloc, operation)?;
    Ok(if given.as_str() == wanted {
        None
    } else {
        Some(given)
    })
}

/// What is to be told of a line: what it gave where that isn't what is wanted, or why it can't be replayed.
fn told(part: &mut Part, alloc: Global, line: &str) -> Result<Option<String>, AllocError> {
    match difference(part, alloc, line) {
        Ok(given) => Ok(given),
        Err(fault) => format!(in alloc; "{fault}").map(Some),
    }
}

/// Replays the lines of the standard input, and tells what differs.
fn replay(rt: &HostRuntime, part: &mut Part) -> io::Result<()> {
    let (mut answers, mut differ) = (0u64, 0u64);
    for line in BufReader::new(rt.alloc(), rt.reader())?.lines(rt.alloc()) {
        let line = line?;
        if line.starts_with('#') {
            continue;
        }
        answers = answers.saturating_add(line.contains(" = ") as u64);
        if let Some(told) = told(part, rt.alloc(), line.as_str())? {
            differ = differ.saturating_add(1);
            println!(rt; "{line}: {told}")?;
        }
    }
    println!(rt; "{answers} answers, {differ} differ")
}

fn main(rt: HostRuntime) -> io::Result<()> {
    let mut part = Part::Nothing;
    let ended = replay(&rt, &mut part);
    drop(part);
    ended
}
