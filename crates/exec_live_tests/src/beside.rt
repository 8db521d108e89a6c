//! A thief that stands still with its claim until the owner, on a thread of its own, has gone on.

ghost use Rattle.std.specs.Prelude.{◌≡◌, []};
ghost use Rattle.exec_live_queue.specs.Kinds.{IsThief, handed};

use crate::calls::{let_go, let_queues_go, made, must_make, pop_all, push_all};
use crate::found::same;
use exec_live_queue::owner::Owner;
use exec_live_queue::queue::{Queue, QueueSeat};
use exec_live_queue::steal::{Pause, Spot};
use exec_words::queue::Steal;
use std::process::Abort;
use std::sync::atomic::{AtomicU64, Ordering};
use std::test::Fail;
use std::thread::join;

/// How often a thread looks for a flag before it goes on without it.
pub const TURNS: u64 = 1 << 26;

/// Whether the flag was seen.
pub fn saw(flag: &AtomicU64) -> bool {
    for _ in 0..TURNS {
        if flag.load(Ordering::SeqCst) == 1 {
            return true;
        }
    }
    false
}

/// What the two threads tell each other: the thief that it has its claim, the owner that it went on.
#[derive(Drop)]
struct Flags {
    claimed: AtomicU64,
    gone_on: AtomicU64,
}

impl Flags {
    fn new() -> Self {
        Flags {
            claimed: AtomicU64::new(0),
            gone_on: AtomicU64::new(0),
        }
    }
}

/// Tells the owner of the claim, and waits for it.
#[derive(Drop)]
struct Waits<'a> {
    flags: &'a Flags,
    saw: bool,
}

impl<'a> Pause for Waits<'a> {
    fn at(&mut self, spot: Spot) {
        match spot {
            Spot::Claimed => {
                self.flags.claimed.store(1, Ordering::SeqCst);
                self.saw = saw(&self.flags.gone_on);
            }
        }
    }
}

/// A thief with the owner of its own queue.
struct Stealing<'a, 'b> {
    queue: &'a Queue<u64>,
    flags: &'b Flags,
    seat: QueueSeat<u64>,
    into: Owner<u64>,
    ghost at: { IsThief queue.now seat },
    ghost whole: { handed into ≡ [] },
}

impl<'a, 'b> Stealing<'a, 'b> {
    /// Steals once. Answers what moved, and whether the owner went on while the claim was held.
    fn steal(&mut self) -> (Steal, bool) {
        let mut pause = Waits {
            flags: self.flags,
            saw: false,
        };
        let queue = self.queue;
        let answer = queue.steal_paused(&mut self.seat, &mut self.into, &mut pause);
        (answer, pause.saw)
    }
}

/// The owner of the queue that is stolen from.
struct Owning<'b> {
    owner: Owner<u64>,
    flags: &'b Flags,
    ghost whole: { handed owner ≡ [] },
}

impl<'b> Owning<'b> {
    /// Makes five pops and five pushes beside the claim. Answers the last value popped, how many were pushed, and
    /// whether there was a claim.
    fn go_on(&mut self) -> (Option<u64>, u64, bool) {
        let saw = saw(&self.flags.claimed);
        let last = pop_all(&mut self.owner, 5);
        let pushed = push_all(&mut self.owner, 100, 5);
        self.flags.gone_on.store(1, Ordering::SeqCst);
        (last, pushed, saw)
    }
}

/// The thief has the oldest half of the 16 values, and the owner what it left of them and pushed since.
fn each_has_its_half(rt: &impl Abort, mut owner: Owner<u64>, mut into: Owner<u64>)
    requires { (handed owner ≡ []) × (handed into ≡ []) }
{
    same!(rt; (into.pop(), pop_all(&mut into, 7)), (Some(0), Some(7)));
    same!(rt; (pop_all(&mut owner, 3), pop_all(&mut owner, 5)), (Some(15), Some(104)));
    let_go(rt, owner);
    let_go(rt, into);
}

#[test]
fn the_owner_goes_on_beside_a_claim(rt: HostRuntime) -> Result<(), Fail> {
    let (queue, mut owner, seat) = made(rt.alloc(), 0)?;
    let (other, into, its_seat) = must_make(&rt, rt.alloc(), 0);
    same!(&rt; push_all(&mut owner, 0, 16), 16);
    let flags = Flags::new();
    let mut owning = Owning {
        owner,
        flags: &flags,
    };
    let mut stealing = Stealing {
        queue: &queue,
        flags: &flags,
        seat,
        into,
    };
    let (stolen, owned) = join(&rt, || stealing.steal(), || owning.go_on());
    same!(&rt; stolen, (Steal::Moved(8), true));
    same!(&rt; owned, (Some(12), 5, true));
    let Owning { owner, flags: _ } = owning;
    let Stealing {
        queue: _,
        flags: _,
        seat,
        into,
    } = stealing;
    each_has_its_half(&rt, owner, into);
    let_queues_go(queue, seat, other, its_seat);
    Ok(())
}
