//! Replays what the original's requests answered, and tells where this port answers otherwise.
//!
//! Standard input has lines of text. A line `case N open` begins a fresh open with its requests, numbered from 0. Each
//! line `OPERATION = ANSWER` after it is a call on one of them with what `commonware-runtime` 2026.10.0 answered. A line
//! that begins with `#` says nothing. The bytes that windows move are compared besides: each send, write, read and
//! receive moves those of its places. Standard output has a line for each answer that differs, and at the end how many
//! there were.
#![tactic(auto)]

mod fault;
mod make;
mod moving;
mod open;
mod words;

use fault::Fault;
use open::Open;
use std::alloc::Global;
use std::io::{self, BufRead, BufReader};

/// Makes the call of a line, and answers what it gave where that isn't what is wanted.
fn difference(open_: &mut Open, alloc: Global, line: &str) -> Result<Option<String>, Fault> {
    let Some((operation, wanted)) = line.split_once(" = ") else {
        *open_ = Open::new(alloc);
        return Ok(None);
    };
    let given = open_.answer(alloc, operation)?;
    Ok(if given.as_str() == wanted {
        None
    } else {
        Some(given)
    })
}

/// Replays the lines of the standard input, and tells what differs.
fn replay_all(rt: &HostRuntime, open_: &mut Open) -> io::Result<()> {
    let (mut answers, mut differ) = (0u64, 0u64);
    for line in BufReader::new(rt.alloc(), rt.reader())?.lines(rt.alloc()) {
        let line = line?;
        if line.starts_with('#') {
            continue;
        }
        answers = answers.saturating_add(line.contains(" = ") as u64);
        match difference(open_, rt.alloc(), line.as_str()) {
            Ok(None) => {}
            Ok(Some(given)) => {
                differ = differ.saturating_add(1);
                println!(rt; "{line}: {given}")?;
            }
            Err(fault) => {
                differ = differ.saturating_add(1);
                println!(rt; "{line}: {fault}")?;
            }
        }
    }
    println!(rt; "{answers} answers, {differ} differ")
}

fn main(rt: HostRuntime) -> io::Result<()> {
    let mut open_ = Open::new(rt.alloc());
    let ended = replay_all(&rt, &mut open_);
    drop(open_);
    ended
}
