//! An owner and three thieves of one run queue, each on a thread of its own: whatever way they
//! interleave, each value leaves once, and some by a thief.

ghost use Rattle.std.specs.Prelude.{◌≡◌, []};
ghost use Rattle.exec_live_queue.specs.{Kinds.{IsSeat, IsThief, first_of, handed}, Lent.{left_of, lender}};

use crate::beside::{TURNS, saw};
use crate::found::{holds, same};
use exec_live_queue::lent::{Overflow, Push, Settled};
use exec_live_queue::owner::Owner;
use exec_live_queue::queue::{Queue, QueueSeat};
use exec_words::queue::Steal;
use std::alloc::{AllocError, Global};
use std::process::Abort;
use std::sync::atomic::{AtomicU64, Ordering};
use std::test::Fail;
use std::thread::join;

/// How many values go through the queue.
const VALUES: u64 = 100_000;
/// How many of them lie in the queue where the owner waits for a thief: none flows over before.
const FIRST: u64 = 100;

/// What the threads note.
#[derive(Drop)]
struct Notes {
    /// How often each value was taken.
    taken: Vec<AtomicU64>,
    /// 1 once a thief took a value.
    stolen: AtomicU64,
    /// 1 once the owner ended.
    ended: AtomicU64,
}

impl Notes {
    fn new(alloc: Global) -> Result<Self, AllocError> {
        let mut taken = Vec::new(alloc);
        for _ in 0..VALUES {
            taken.push(AtomicU64::new(0))?;
        }
        Ok(Notes {
            taken,
            stolen: AtomicU64::new(0),
            ended: AtomicU64::new(0),
        })
    }

    fn take(&self, value: u64) {
        if let Some(times) = self.taken.get(value as usize) {
            times.fetch_add(1, Ordering::SeqCst);
        }
    }

    /// How many values were taken once, and not again.
    fn once(&self) -> u64 {
        let mut once: u64 = 0;
        for times in self.taken.iter() {
            if times.load(Ordering::SeqCst) == 1 {
                once = once.wrapping_add(1);
            }
        }
        once
    }
}

/// The first seat of a queue, which becomes its owner's.
#[derive(Drop)]
struct Owning<'a, 'b> {
    queue: &'a Queue<u64>,
    notes: &'b Notes,
    first: QueueSeat<u64>,
    ghost at: { first ≡ first_of queue.now },
}

impl<'a, 'b> Owning<'a, 'b> {
    /// Pushes all values, waits among them for a thief, and pops what is left. What flows over is taken too.
    fn run(self, rt: &impl Abort) {
        let Owning {
            queue,
            notes,
            first,
        } = self;
        let mut owner = must_own(rt, queue, first);
        for value in 0..VALUES {
            if value == FIRST {
                holds!(rt; saw(&notes.stolen));
            }
            match owner.push(value) {
                Push::Overflow(mut overflow) => {
                    hand_out(&mut overflow, notes);
                    notes.take(overflow.finish());
                }
                Push::Settled(answer) => match answer {
                    Settled::Pushed(_) => {}
                    Settled::Claimed(value) | Settled::Spent(value) => notes.take(value),
                },
            }
        }
        end(rt, owner, notes);
        notes.ended.store(1, Ordering::SeqCst);
    }
}

/// A seat of a thief.
#[derive(Drop)]
struct Stealing<'a, 'b> {
    queue: &'a Queue<u64>,
    notes: &'b Notes,
    seat: QueueSeat<u64>,
    ghost at: { IsThief queue.now seat },
}

impl<'a, 'b> Stealing<'a, 'b> {
    /// Steals until the owner ended into a queue of its own, and pops what it stole.
    fn run(self, rt: &impl Abort, alloc: Global) {
        let Stealing {
            queue,
            notes,
            mut seat,
        } = self;
        let (own, first) = must_share(rt, alloc);
        let mut owner = must_own(rt, &own, first);
        for _ in 0..TURNS {
            if notes.ended.load(Ordering::SeqCst) == 1 {
                break;
            }
            if let Steal::Moved(count) = queue.steal_once(&mut seat, &mut owner) {
                if pop_some(&mut owner, count, notes) {
                    notes.stolen.store(1, Ordering::SeqCst);
                }
            }
        }
        end(rt, owner, notes);
        drop(own);
        drop(seat);
    }
}

/// A thief that has a seat of its own.
fn thief<'a, 'b>(
    queue: &'a Queue<u64>,
    notes: &'b Notes,
    first: &mut QueueSeat<u64>,
) -> Stealing<'a, 'b>
    requires { IsSeat queue.now first.old }
    ensures { first.new ≡ first.old }
{
    Stealing {
        queue,
        notes,
        seat: queue.seat(first),
    }
}

/// A shared queue with its first seat. It fails where memory is wanting.
fn must_share(rt: &impl Abort, alloc: Global) -> (Queue<u64>, QueueSeat<u64>)
    ensures { result.1 ≡ first_of result.0 }
{
    match Queue::shared(alloc) {
        Ok(made) => made,
        Err(_) => panic!(rt; "no memory"),
    }
}

/// The owner of a queue. It fails where memory is wanting.
fn must_own(rt: &impl Abort, queue: &Queue<u64>, first: QueueSeat<u64>) -> Owner<u64>
    requires { first ≡ first_of queue.now }
    ensures { handed result ≡ [] }
{
    match queue.owner(first) {
        Ok(owner) => owner,
        Err(_) => panic!(rt; "no memory"),
    }
}

/// Takes what flows over: half of the queue.
fn hand_out(overflow: &mut Overflow<'_, u64>, notes: &Notes)
    ensures same { lender overflow.new ≡ lender overflow.old }
    ensures dry { left_of overflow.new ≡ [] }
{
    'left: loop {
        match overflow.next() {
            Some(value) => notes.take(value),
            None => return,
        }
    }
}

/// Pops so many values at most, and answers whether there was one.
fn pop_some(owner: &mut Owner<u64>, count: usize, notes: &Notes) -> bool
    requires { handed owner.old ≡ [] }
    ensures { handed owner.new ≡ [] }
{
    let mut any = false;
    'pops: for _ in 0..count {
        if let Some(value) = owner.pop() {
            notes.take(value);
            any = true;
        }
    }
    any
}

/// Pops what is left, which is 256 values at most, and lets the owner go.
fn end(rt: &impl Abort, mut owner: Owner<u64>, notes: &Notes)
    requires { handed owner ≡ [] }
{
    pop_some(&mut owner, 256, notes);
    match owner.pop() {
        None => owner.leave(),
        Some(_) => panic!(rt; "more values than fit"),
    }
}

#[test]
fn each_value_leaves_once(rt: HostRuntime) -> Result<(), Fail> {
    let alloc = rt.alloc();
    let notes = Notes::new(alloc)?;
    let (queue, mut first) = Queue::shared(alloc)?;
    let one = thief(&queue, &notes, &mut first);
    let two = thief(&queue, &notes, &mut first);
    let three = thief(&queue, &notes, &mut first);
    let zero = Owning {
        queue: &queue,
        notes: &notes,
        first,
    };
    join(
        &rt,
        || join(&rt, || zero.run(&rt), || one.run(&rt, alloc)),
        || join(&rt, || two.run(&rt, alloc), || three.run(&rt, alloc)),
    );
    same!(&rt; notes.once(), VALUES);
    drop(queue);
    drop(notes);
    Ok(())
}
