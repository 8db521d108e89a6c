//! A thief that stops between its claim and its release, while the owner goes on.

ghost use Rattle.std.specs.Prelude.{◌≡◌, []};
ghost use Rattle.exec_live_queue.specs.Kinds.{handed};

use crate::calls::{let_go, let_queues_go, made, must_make, pop_all, push, push_all};
use crate::found::same;
use exec_live_queue::lent::Settled;
use exec_live_queue::owner::Owner;
use exec_live_queue::steal::{Pause, Spot};
use exec_words::queue::Steal;
use std::test::Fail;

/// What the owner got while the thief stood still.
#[derive(Debug, PartialEq, Eq, Drop)]
struct Got {
    popped: Option<u64>,
    first: Option<Settled<u64>>,
    second: Option<Settled<u64>>,
    len: usize,
    room: usize,
}

/// The owner of the queue that is stolen from: it pops and pushes while the thief stands still.
struct GoesOn {
    owner: Owner<u64>,
    got: Option<Got>,
    // How many pops come between the two pushes.
    pops: u64,
    ghost whole: { handed owner ≡ [] },
}

impl GoesOn {
    /// The owner of a queue, which makes so many pops between its two pushes.
    fn with(owner: Owner<u64>, pops: u64) -> Self
        requires { handed owner ≡ [] }
    {
        GoesOn {
            owner,
            got: None,
            pops,
        }
    }
}

impl Pause for GoesOn {
    fn at(&mut self, spot: Spot) {
        match spot {
            Spot::Claimed => {
                let first = push(&mut self.owner, 1000);
                let popped = pop_all(&mut self.owner, self.pops);
                let second = push(&mut self.owner, 1001);
                let (len, room) = (self.owner.len(), self.owner.room());
                self.got = Some(Got {
                    popped,
                    first,
                    second,
                    len,
                    room,
                });
            }
        }
    }
}

#[test]
fn the_owner_pops_and_pushes_beside_a_claim(rt: HostRuntime) -> Result<(), Fail> {
    let (queue, mut owner, mut thief) = made(rt.alloc(), 0)?;
    let (other, mut into, seat) = must_make(&rt, rt.alloc(), 0);
    same!(&rt; push_all(&mut owner, 0, 8), 8);
    let mut pause = GoesOn::with(owner, 3);
    let moved = queue.steal_paused(&mut thief, &mut into, &mut pause);
    let GoesOn {
        mut owner,
        got,
        pops: _,
    } = pause;
    same!(&rt; moved, Steal::Moved(4));
    // Beside the claim of 0 to 3 the owner got 4 to 6, and their places weren't free either.
    same!(&rt; got, Some(Got {
            popped: Some(6),
            first: Some(Settled::Pushed(5)),
            second: Some(Settled::Pushed(3)),
            len: 3,
            room: 246,
        }));
    same!(&rt; (into.pop(), pop_all(&mut into, 3)), (Some(0), Some(3)));
    same!(&rt; owner.room(), 253);
    same!(&rt; (owner.pop(), owner.pop(), owner.pop()), (Some(7), Some(1000), Some(1001)));
    let_go(&rt, owner);
    let_go(&rt, into);
    let_queues_go(queue, thief, other, seat);
    Ok(())
}

#[test]
fn a_full_queue_beside_a_claim_takes_nothing(rt: HostRuntime) -> Result<(), Fail> {
    let (queue, mut owner, mut thief) = made(rt.alloc(), 0)?;
    let (other, mut into, seat) = must_make(&rt, rt.alloc(), 0);
    same!(&rt; push_all(&mut owner, 0, 256), 256);
    let mut pause = GoesOn::with(owner, 0);
    let moved = queue.steal_paused(&mut thief, &mut into, &mut pause);
    let GoesOn {
        mut owner,
        got,
        pops: _,
    } = pause;
    same!(&rt; moved, Steal::Moved(128));
    same!(&rt; got, Some(Got {
            popped: None,
            first: Some(Settled::Claimed(1000)),
            second: Some(Settled::Claimed(1001)),
            len: 128,
            room: 0,
        }));
    same!(&rt; (owner.len(), owner.room()), (128, 128));
    same!(&rt; (owner.pop(), pop_all(&mut owner, 127)), (Some(128), Some(255)));
    same!(&rt; (into.pop(), pop_all(&mut into, 127)), (Some(0), Some(127)));
    let_go(&rt, owner);
    let_go(&rt, into);
    let_queues_go(queue, thief, other, seat);
    Ok(())
}
