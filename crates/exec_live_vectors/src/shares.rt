//! Calls on the queues of a fake pool.

ghost use Rattle.std.specs.Prelude.{◌≡◌};
ghost use Rattle.exec_live_idle.specs.Idle.{knows, IsSeatOf};

use crate::fault::Fault;
use crate::pool::Pool;
use crate::runs::Queues;
use crate::words::{number, text_of_list};
use exec_live_idle::seat::{Idle, IdleSeat};
use exec_words::HALF;
use std::alloc::Global;
use std::collections::VecDeque;
use std::str::SplitWhitespace;
use std::sync::Wait;

/// Puts a value into the global queue, or into a worker's run queue: whoever has to hear of it is woken.
pub fn put<R: Wait>(
    rt: &R,
    alloc: Global,
    idle: &Idle,
    caller: &mut IdleSeat,
    pool: &mut Pool,
    operation: &str,
    words: &mut SplitWhitespace<'_>,
) -> Result<String, Fault>
    requires at { IsSeatOf idle.now caller.old }
    requires free { (knows caller.old).held ≡ 0 }
    requires workers { (knows caller.old).workers ≡ pool.old.bell.workers }
    ensures at { IsSeatOf idle.now caller.new }
    ensures free { (knows caller.new).held ≡ 0 }
    ensures published { (knows caller.new).published ≡ (knows caller.old).published }
    ensures same { (knows caller.new).workers ≡ (knows caller.old).workers }
    ensures workers { pool.new.bell.workers ≡ pool.old.bell.workers }
{
    if operation == "push" {
        pool.queues.global.push_back(number(words)?)?;
        idle.notify_global(rt, caller, &mut pool.bell);
        return Ok(String::from_str(alloc, "ok")?);
    }
    let at = number(words)? as usize;
    match enqueued(&mut pool.queues, pool.bell.workers, at, number(words)?)? {
        Told::Backlog => idle.notify(rt, caller, &mut pool.bell),
        Told::Global => idle.notify_global(rt, caller, &mut pool.bell),
        Told::Nobody => {}
    }
    let len = pool.queues.run(at)?.len();
    Ok(format!(in alloc; "len {len} global {}", pool.queues.global.len())?)
}

/// Who is told of a value that was enqueued.
enum Told {
    Backlog,
    Global,
    Nobody,
}

/// Puts a value into a worker's run queue, and what flows over into the global queue.
fn enqueued(queues: &mut Queues, workers: usize, at: usize, value: u64) -> Result<Told, Fault> {
    let run = queues.run(at)?;
    match run.push(value)? {
        None => Ok(if run.len() >= 2 && workers > 1 {
            Told::Backlog
        } else {
            Told::Nobody
        }),
        Some(mut out) => {
            for _ in 0..out.len() {
                if let Some(value) = out.pop_front() {
                    queues.global.push_back(value)?;
                }
            }
            Ok(Told::Global)
        }
    }
}

/// Makes a call that wakes nobody, and answers what it gave.
pub fn answer(
    alloc: Global,
    queues: &mut Queues,
    workers: usize,
    operation: &str,
    words: &mut SplitWhitespace<'_>,
) -> Result<String, Fault> {
    if operation == "global" {
        return rest(alloc, &mut queues.global);
    }
    let at = number(words)? as usize;
    match operation {
        "batch" => {
            batch(queues, at, number(words)?, number(words)?)?;
            Ok(String::from_str(alloc, "ok")?)
        }
        "take" => take(alloc, queues, workers, at),
        "pops" => {
            let values = queues.run(at)?.pops(number(words)?)?;
            Ok(text_of_list(alloc, &values)?)
        }
        "begin" => begin(alloc, queues, at, number(words)? as usize),
        "release" => {
            let values = queues.run(at)?.release();
            let count = queues.run(number(words)? as usize)?.append_all(values)?;
            Ok(format!(in alloc; "{count}")?)
        }
        _ => Err(Fault::Malformed),
    }
}

/// What the global queue still holds.
fn rest(alloc: Global, global: &mut VecDeque<u64>) -> Result<String, Fault> {
    let mut values = Vec::new(alloc);
    for _ in 0..global.len() {
        if let Some(value) = global.pop_front() {
            values.push(value)?;
        }
    }
    Ok(text_of_list(alloc, &values)?)
}

/// Puts so many values into a run queue, from this one on.
fn batch(queues: &mut Queues, at: usize, first: u64, count: u64) -> Result<(), Fault> {
    for offset in 0..count {
        let run = queues.run(at)?;
        if run.room() == 0 {
            return Err(Fault::Condition);
        }
        run.append(first.saturating_add(offset))?;
    }
    Ok(())
}

/// A worker's share: the oldest value, and how many its run queue gets. It is one value more than an even split, and
/// fills the run queue to half at most.
fn take(alloc: Global, queues: &mut Queues, workers: usize, at: usize) -> Result<String, Fault> {
    let len = queues.global.len();
    let Some(first) = queues.global.pop_front() else {
        return Ok(String::from_str(alloc, "none")?);
    };
    if workers == 0 {
        return Err(Fault::Condition);
    }
    let run = queues.run(at)?;
    let admitted = run.room().min(HALF.saturating_sub(run.len()));
    let queued = (len / workers).min(len.saturating_sub(1)).min(admitted);
    for _ in 0..queued {
        if let Some(value) = queues.global.pop_front() {
            queues.run(at)?.append(value)?;
        }
    }
    Ok(format!(in alloc; "{first} queued {queued}")?)
}

/// A claim that is held: how many values. None where the thief's own run queue has no room for the largest one.
fn begin(alloc: Global, queues: &mut Queues, victim: usize, thief: usize) -> Result<String, Fault> {
    if queues.run(thief)?.room() < HALF {
        return Ok(String::from_str(alloc, "0")?);
    }
    let count = queues.run(victim)?.claim()?;
    Ok(format!(in alloc; "{count}")?)
}
