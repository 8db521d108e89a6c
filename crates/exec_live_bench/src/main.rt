//! Times the calls on a live run queue. The first argument is how many values each way moves. Standard error has a line
//! for each way, with its name and its nanoseconds. Standard output has the exclusive or of all values that came out, which
//! is the same whatever way the threads interleave.
#![tactic(auto)]

ghost use Rattle.std.specs.Prelude.{◌≡◌};
ghost use Rattle.exec_live_queue.specs.Kinds.{first_of};

mod beside;
mod calls;

use calls::{Caller, Kicker};
use exec_live_idle::seat::Idle;
use exec_live_queue::queue::{Queue, QueueSeat};
use std::alloc::Global;
use std::env;
use std::process::ExitCode;
use std::rt::Clock;
use std::sync::Wait;
use std::thread::Threads;
use std::time::Instant;

/// How many values are in the queue at most.
pub const BACKLOG: u64 = 128;

/// Prints how long a way took, in nanoseconds.
fn tell<R: Eprint>(rt: &R, kind: &str, way: &str, nanos: u128) -> Option<()> {
    eprintln!(rt; "{kind} {way} {nanos}").ok()
}

/// Times what an owner does that is alone.
fn time_alone<R: Clock + Eprint + Wait>(
    rt: &R,
    kind: &str,
    caller: &mut Caller,
    kicker: &mut Kicker<'_>,
    values: u64,
) -> Option<u64> {
    let start = Instant::now(rt).ok()?;
    let mut sum = caller.pairs(rt, values);
    tell(rt, kind, "pairs", start.elapsed(rt).ok()?.as_nanos())?;
    let start = Instant::now(rt).ok()?;
    sum ^= caller.backlogs(rt, values / BACKLOG);
    tell(rt, kind, "backlog", start.elapsed(rt).ok()?.as_nanos())?;
    let start = Instant::now(rt).ok()?;
    sum ^= caller.kicked(rt, kicker, values / BACKLOG);
    tell(rt, kind, "kicked", start.elapsed(rt).ok()?.as_nanos())?;
    Some(sum)
}

/// Times the owner of this queue, which is alone.
fn measure_alone<R: Clock + Eprint + Wait>(
    rt: &R,
    alloc: Global,
    kind: &str,
    queue: &Queue<u64>,
    first: QueueSeat<u64>,
    values: u64,
) -> Option<u64>
    requires { first ≡ first_of queue.now }
{
    let (idle, seat) = Idle::new(alloc, 4).ok()?;
    let Some(mut caller) = Caller::new(queue, first) else {
        drop(seat.leave());
        return None;
    };
    let mut kicker = Kicker::new(&idle, seat);
    let sum = time_alone(rt, kind, &mut caller, &mut kicker, values);
    kicker.end();
    caller.end(rt);
    sum
}

/// Times all ways.
fn measure<R: Clock + Eprint + Print + Threads + Wait + Sync>(
    rt: &R,
    alloc: Global,
    values: u64,
) -> Option<()> {
    let (queue, first) = Queue::shared(alloc).ok()?;
    let mut sum = measure_alone(rt, alloc, "shared", &queue, first, values)?;
    let (queue, first) = Queue::exclusive(alloc);
    sum ^= measure_alone(rt, alloc, "exclusive", &queue, first, values)?;
    let (beside, nanos) = beside::run(rt, alloc, values / BACKLOG)?;
    sum ^= beside;
    tell(rt, "shared", "thief", nanos)?;
    println!(rt; "sum {sum}").ok()
}

/// The number of the command line.
fn number(rt: &HostRuntime) -> Option<u64> {
    let words: Vec<String> = env::args(rt).ok()?.collect(rt.alloc()).ok()?;
    words.get(1)?.as_str().parse::<u64>().ok()
}

fn main(rt: HostRuntime) -> ExitCode {
    match number(&rt) {
        Some(values) if measure(&rt, rt.alloc(), values).is_some() => ExitCode::SUCCESS,
        _ => ExitCode::FAILURE,
    }
}
