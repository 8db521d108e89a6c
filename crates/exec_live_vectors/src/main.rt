//! Replays what the original answered on the live queue and the live idle set, and tells where they answer otherwise.
//!
//! Standard input has lines of text. A line `case N ..` begins run queues, or the workers of a pool. Each line
//! `OPERATION = ANSWER` after it is a call with what `commonware-runtime` 2026.10.0 answered. A line that begins with
//! `#` says nothing. Standard output has a line for each answer that differs, how many lines were passed over and why,
//! and at the end how many answers there were.
#![tactic(auto)]

mod alone;
mod fault;
mod locals;
mod player;
mod pool;
mod queues;
mod report;
mod runs;
mod script;
mod shares;
mod words;
mod workers;

use fault::Fault;
use report::Report;
use script::Script;
use std::alloc::Global;
use std::io::{self, BufRead, BufReader};
use std::sync::Wait;
use words::number;

/// Plays the case that this line begins.
fn play<R: Wait>(
    rt: &R,
    alloc: Global,
    head: &str,
    rest: &[String],
    report: &mut Report,
) -> Result<(), Fault> {
    let mut words = head.split_whitespace();
    let (_case, _number) = (words.next(), words.next());
    let mut script = Script::new(rest);
    match words.next() {
        Some("shared" | "exclusive") => {
            queues::play(rt, alloc, &mut words, &mut script, report)?;
            let mut words = head.split_whitespace();
            let (_case, _number) = (words.next(), words.next());
            alone::play(rt, alloc, &mut words, rest, report)
        }
        Some("workers") => workers::play(rt, alloc, number(&mut words)?, &mut script, report),
        _ => Err(Fault::Malformed),
    }
}

/// The lines of standard input, but for those that say nothing.
fn read(rt: &HostRuntime, alloc: Global) -> io::Result<Vec<String>> {
    let mut lines = Vec::new(alloc);
    for line in BufReader::new(alloc, rt.reader())?.lines(alloc) {
        let line = line?;
        if !line.starts_with('#') {
            lines.push(line)?;
        }
    }
    Ok(lines)
}

/// Tells what a replay found.
fn tell(rt: &HostRuntime, report: &Report) -> io::Result<()> {
    for difference in &report.differences {
        println!(rt; "{difference}")?;
    }
    let (unasked, beside) = (report.unasked, report.beside);
    println!(rt; "{unasked} lines passed over that no public call answers")?;
    println!(rt; "{beside} lines passed over after a second claim beside one")?;
    println!(rt; "{} answers, {} differ", report.answers, report.differ)
}

fn main(rt: HostRuntime) -> io::Result<()> {
    let alloc = rt.alloc();
    let lines = read(&rt, alloc)?;
    let mut report = Report::new(alloc);
    for (at, head) in lines.iter().enumerate() {
        if !head.starts_with("case ") {
            continue;
        }
        if let Err(fault) = play(&rt, alloc, head.as_str(), &lines[at + 1..], &mut report) {
            println!(rt; "{head}: {fault}")?;
        }
    }
    tell(&rt, &report)
}
