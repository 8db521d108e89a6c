//! The cases of run queues: calls of their owners, and steals, with a claim that is held while other lines are played.
//!
//! A claim is held by a thief that stops between its claim and its release, and plays the lines up to the end of the
//! claim there. So one claim is held at a time: where a case has a second one beside it, its rest is passed over. While
//! a claim is held, the owner of the thief's own queue is lent to the thief.

ghost use Rattle.std.specs.Prelude.{◌≡◌, ◌<◌, [], IfOk};
ghost use Rattle.exec_live_queue.specs.Kinds.{handed};

use crate::fault::Fault;
use crate::locals::{Local, let_go};
use crate::report::Report;
use crate::script::{Line, Script};
use crate::words::{number, place};
use exec_live_queue::owner::Owner;
use exec_live_queue::steal::{Pause, Spot};
use exec_words::queue::Steal;
use std::alloc::Global;
use std::str::SplitWhitespace;
use std::sync::{Arc, Wait};

/// Plays a case, whose queues these words name: each by its kind and the count of its first value. An exclusive queue
/// is played as a shared one here, which answers alike without thieves.
pub fn play<R: Wait>(
    rt: &R,
    alloc: Global,
    words: &mut SplitWhitespace<'_>,
    script: &mut Script<'_>,
    report: &mut Report,
) -> Result<(), Fault> {
    let mut locals = Vec::new(alloc);
    let made = make(rt, alloc, words, &mut locals);
    if made.is_ok() {
        play_lines(rt, alloc, &mut locals, script, report);
    }
    while let Some(local) = locals.pop() {
        local.end(rt);
    }
    locals.destroy_empty();
    made
}

/// Makes the queues of a case.
fn make<R: Wait>(
    rt: &R,
    alloc: Global,
    words: &mut SplitWhitespace<'_>,
    locals: &mut Vec<Local>,
) -> Result<(), Fault> {
    for _ in 0..64 {
        let local = Local::at(alloc, number(words)?)?;
        if let Err(failed) = locals.push(local) {
            failed.value.end(rt);
            return Err(Fault::Condition);
        }
        if words.next().is_none() {
            return Ok(());
        }
    }
    Err(Fault::Malformed)
}

/// Plays the lines of a case.
fn play_lines<R: Wait>(
    rt: &R,
    alloc: Global,
    locals: &mut Vec<Local>,
    script: &mut Script<'_>,
    report: &mut Report,
) {
    for _ in 0..script.len() {
        let Some(line) = script.next() else {
            return;
        };
        if line.call.starts_with("begin ") {
            let given = begin(rt, alloc, locals, line, script, report);
            report.note(line, given);
        } else {
            let given = answer(rt, alloc, locals, line.call);
            report.note(line, given);
        }
    }
}

/// Makes a call, and answers what it gave.
fn answer<R: Wait>(
    rt: &R,
    alloc: Global,
    locals: &mut Vec<Local>,
    call: &str,
) -> Result<String, Fault> {
    let mut words = call.split_whitespace();
    let operation = words.next().unwrap_or("");
    let at = place(&mut words, locals.len())?;
    if operation != "steal" && operation != "begin" {
        return locals[at].answer(rt, alloc, operation, &mut words);
    }
    let into = place(&mut words, locals.len())?;
    if at == into {
        return Err(Fault::Condition);
    }
    let Some(mut owner) = locals[into].owner.take() else {
        return Err(Fault::Unasked);
    };
    let moved = locals[at].steal(rt, &mut owner);
    give_back(rt, locals, into, owner);
    Ok(format!(in alloc; "{moved}")?)
}

/// Takes an owner back that was lent to a thief.
fn give_back<R: Wait>(rt: &R, locals: &mut Vec<Local>, at: usize, owner: Owner<u64>)
    requires { handed owner ≡ [] }
{
    match locals.get_mut(at) {
        Some(local) => local.give_back(rt, owner),
        None => let_go(rt, owner),
    }
}

/// A thief that holds its claim, and what it plays meanwhile.
#[derive(Drop)]
struct Held<'h, 's, R> {
    rt: &'h R,
    alloc: Global,
    locals: &'h mut Vec<Local>,
    script: &'h mut Script<'s>,
    report: &'h mut Report,
    /// The two words that end the claim, after `finish`.
    claim: &'h str,
    /// The line that ended the claim.
    end: Option<Line<'s>>,
}

impl<'h, 's, R: Wait> Held<'h, 's, R> {
    /// Plays the lines up to the end of the claim.
    fn play(&mut self) {
        for _ in 0..self.script.len() {
            let Some(line) = self.script.next() else {
                return;
            };
            if line.call.strip_prefix("finish ") == Some(self.claim) {
                self.end = Some(line);
                return;
            }
            if line.call.starts_with("begin ") && line.wanted != "0" {
                self.report.beside = self.report.beside.saturating_add(1);
                self.report.pass_over(self.script);
                return;
            }
            let given = answer(self.rt, self.alloc, self.locals, line.call);
            self.report.note(line, given);
        }
    }
}

impl<'h, 's, R: Wait> Pause for Held<'h, 's, R> {
    fn at(&mut self, spot: Spot) {
        match spot {
            Spot::Claimed => self.play(),
        }
    }
}

/// The two queues that the words of a claim name: which is stolen from, and into which.
fn ends(claim: &str, count: usize) -> Result<(usize, usize), Fault>
    ensures { IfOk result (λ ends. (ends.0 < count) × (ends.1 < count)) }
{
    let mut words = claim.split_whitespace();
    let from = place(&mut words, count)?;
    let into = place(&mut words, count)?;
    if from == into {
        return Err(Fault::Condition);
    }
    Ok((from, into))
}

/// How many values a steal moved.
fn moved(answer: Steal) -> usize {
    match answer {
        Steal::Moved(count) => count,
        Steal::Nothing => 0,
        Steal::Again(_) => 0,
    }
}

/// A steal whose claim is held while the lines up to its end are played: how many values it claimed.
fn begin<'s, R: Wait>(
    rt: &R,
    alloc: Global,
    locals: &mut Vec<Local>,
    line: Line<'s>,
    script: &mut Script<'s>,
    report: &mut Report,
) -> Result<String, Fault> {
    let claim = line.call.strip_prefix("begin ").unwrap_or("");
    let (from, into) = ends(claim, locals.len())?;
    let queue = Arc::try_clone(&locals[from].queue)?;
    let mut seat = queue.seat(&mut locals[from].thief);
    let Some(mut owner) = locals[into].owner.take() else {
        return Err(Fault::Condition);
    };
    let mut held = Held {
        rt,
        alloc,
        locals,
        script,
        report,
        claim,
        end: None,
    };
    let answer = queue.steal_paused(&mut seat, &mut owner, &mut held);
    let end = held.end;
    let count = moved(answer);
    give_back(rt, locals, into, owner);
    if let Some(line) = end {
        report.note(line, Ok(format!(in alloc; "{count}")?));
    }
    Ok(format!(in alloc; "{count}")?)
}
