//! An owner beside one thief, each on a thread of its own.

ghost use Rattle.std.specs.Prelude.{◌≡◌, []};
ghost use Rattle.exec_live_queue.specs.Kinds.{IsThief, first_of, handed};

use crate::calls::{Caller, let_go};
use exec_live_queue::owner::Owner;
use exec_live_queue::queue::{Queue, QueueSeat};
use exec_words::queue::Steal;
use std::alloc::Global;
use std::rt::Clock;
use std::sync::Wait;
use std::sync::atomic::{AtomicU64, Ordering};
use std::thread::{Threads, join};
use std::time::Instant;

/// The first seat of a queue, which becomes its owner's.
#[derive(Drop)]
struct Owning<'a> {
    queue: &'a Queue<u64>,
    first: QueueSeat<u64>,
    ended: &'a AtomicU64,
    ghost at: { first ≡ first_of queue.now },
}

impl<'a> Owning<'a> {
    /// Pushes 128 values and then pops them, so many times: the exclusive or of what it popped, and the nanoseconds.
    /// Says that it has ended in any case.
    fn run<R: Clock + Wait>(self, rt: &R, rounds: u64) -> Option<(u64, u128)> {
        let Owning {
            queue,
            first,
            ended,
        } = self;
        let start = Instant::now(rt).ok();
        let sum = Caller::new(queue, first).map(|caller| caller.run(rt, rounds));
        let nanos = start.and_then(|start| start.elapsed(rt).ok());
        ended.store(1, Ordering::SeqCst);
        Some((sum?, nanos?.as_nanos()))
    }
}

/// A seat of a thief.
#[derive(Drop)]
struct Stealing<'a> {
    queue: &'a Queue<u64>,
    seat: QueueSeat<u64>,
    ended: &'a AtomicU64,
    ghost at: { IsThief queue.now seat },
}

impl<'a> Stealing<'a> {
    /// Steals into a queue of its own until the owner has ended, and pops what it stole.
    fn run<R: Wait>(self, rt: &R, alloc: Global) -> Option<u64> {
        let Stealing {
            queue,
            mut seat,
            ended,
        } = self;
        let (own, first) = Queue::shared(alloc).ok()?;
        let mut into = own.owner(first).ok()?;
        let mut sum = 0u64;
        for _ in rt.forever() {
            if ended.load(Ordering::SeqCst) == 1 {
                break;
            }
            if let Steal::Moved(count) = queue.steal_once(&mut seat, &mut into) {
                sum ^= pop_some(&mut into, count);
            }
        }
        let_go(rt, into);
        Some(sum)
    }
}

/// Pops so many values.
fn pop_some(owner: &mut Owner<u64>, count: usize) -> u64
    requires { handed owner.old ≡ [] }
    ensures { handed owner.new ≡ [] }
{
    let mut sum = 0u64;
    for _ in 0..count {
        sum ^= owner.pop().unwrap_or(0);
    }
    sum
}

/// Runs both, and answers the exclusive or of all values that came out, and how many nanoseconds the owner took.
pub fn run<R: Clock + Threads + Wait + Sync>(
    rt: &R,
    alloc: Global,
    rounds: u64,
) -> Option<(u64, u128)> {
    let ended = AtomicU64::new(0);
    let (queue, mut first) = Queue::shared(alloc).ok()?;
    let thief = Stealing {
        queue: &queue,
        seat: queue.seat(&mut first),
        ended: &ended,
    };
    let owner = Owning {
        queue: &queue,
        first,
        ended: &ended,
    };
    let (owned, stolen) = join(rt, || owner.run(rt, rounds), || thief.run(rt, alloc));
    let (sum, nanos) = owned?;
    Some((sum ^ stolen?, nanos))
}
