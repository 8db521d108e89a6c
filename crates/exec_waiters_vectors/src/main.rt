//! Replays what the original's waiters answered, and tells where this port answers otherwise.
//!
//! Standard input has lines of text. A line `case N waiters` begins with no requests. Each line `OPERATION = ANSWER`
//! after it is a call with what `commonware-runtime` 2026.10.0 answered: the answer, what the call left to be told, how
//! many requests are not over, and of how many the kernel has an operation. A line that begins with `#` says nothing.
//! Every request has 8 bytes and an open of its own, and a durable one has its permit from the start. Standard output
//! has a line for each answer that differs, and at the end how many there were.
#![tactic(auto)]

mod fault;
mod replay;
mod telling;
mod words;

use fault::Fault;
use replay::Replay;
use std::alloc::Global;
use std::io::{self, BufRead, BufReader};

/// Makes the call of a line, and answers what it gave where that isn't what is wanted.
fn difference(replay: &mut Replay, alloc: Global, line: &str) -> Result<Option<String>, Fault> {
    let Some((operation, wanted)) = line.split_once(" = ") else {
        *replay = Replay::new(alloc)?;
        return Ok(None);
    };
    let given = replay.answer(alloc, operation)?;
    Ok(if given.as_str() == wanted {
        None
    } else {
        Some(given)
    })
}

/// Replays the lines of the standard input, and tells what differs.
fn replay_all(rt: &HostRuntime, replay: &mut Replay) -> io::Result<()> {
    let (mut answers, mut differ) = (0u64, 0u64);
    for line in BufReader::new(rt.alloc(), rt.reader())?.lines(rt.alloc()) {
        let line = line?;
        if line.starts_with('#') {
            continue;
        }
        answers = answers.saturating_add(line.contains(" = ") as u64);
        match difference(replay, rt.alloc(), line.as_str()) {
            Ok(None) => {}
            Ok(Some(given)) => {
                differ = differ.saturating_add(1);
                println!(rt; "{line}: {given}")?;
            }
            Err(fault) => {
                differ = differ.saturating_add(1);
                println!(rt; "{line}: {fault}")?;
            }
        }
    }
    println!(rt; "{answers} answers, {differ} differ")
}

fn main(rt: HostRuntime) -> io::Result<()> {
    let Ok(mut replay) = Replay::new(rt.alloc()) else {
        return Ok(());
    };
    let ended = replay_all(&rt, &mut replay);
    drop(replay);
    ended
}
