//! What the owner of a run queue does.

ghost use Rattle.std.specs.Prelude.{◌≡◌, ◌≤◌, ◌<◌, [], false};
ghost use Rattle.exec_live_idle.specs.{Idle.{knows, IsSeatOf}, Live.first_view};
ghost use Rattle.exec_live_queue.specs.{Kinds.{first_of, handed}, Lent.{left_of, lender}};

use crate::BACKLOG;
use exec_live_idle::notify::Rouse;
use exec_live_idle::seat::{Idle, IdleSeat};
use exec_live_queue::lent::{Overflow, Push, Settled};
use exec_live_queue::owner::Owner;
use exec_live_queue::queue::{Queue, QueueSeat};
use std::sync::Wait;

/// The owner of a run queue.
pub struct Caller {
    owner: Owner<u64>,
    ghost whole: { handed owner ≡ [] },
}

/// What counts its wakes.
#[derive(Drop)]
pub struct Bell {
    workers: usize,
    wakes: u64,
}

impl Rouse for Bell {
    ghost workers = { λ b. b.workers };

    ghost wakes = { λ b worker d. d.workers ≡ b.workers };

    fn wake<R: Wait>(&mut self, rt: &R, worker: usize) {
        self.wakes = self.wakes.wrapping_add(1);
    }
}

/// Who kicks: a seat at an idle set.
pub struct Kicker<'a> {
    idle: &'a Idle,
    seat: IdleSeat,
    bell: Bell,
    ghost at: { IsSeatOf idle.now seat },
    ghost free: { (knows seat).held ≡ 0 },
    ghost unpublished: { (knows seat).published ≡ false },
    ghost workers: { (knows seat).workers ≤ bell.workers },
}

impl<'a> Kicker<'a> {
    /// The caller must give the first seat of an idle set of four workers.
    pub fn new(idle: &'a Idle, seat: IdleSeat) -> Self
        requires { IsSeatOf idle.now seat × (knows seat ≡ first_view 4) }
    {
        Kicker {
            idle,
            seat,
            bell: Bell {
                workers: 4,
                wakes: 0,
            },
        }
    }

    fn kick<R: Wait>(&mut self, rt: &R) {
        self.idle.notify(rt, &mut self.seat, &mut self.bell);
    }

    /// Lets the seat go.
    pub fn end(self) {
        let Kicker {
            idle: _,
            seat,
            bell: _,
        } = self;
        drop(seat.leave());
    }
}

impl Caller {
    /// The owner of this queue.
    pub fn new(queue: &Queue<u64>, first: QueueSeat<u64>) -> Option<Self>
        requires { first ≡ first_of queue.now }
    {
        let owner = queue.owner(first).ok()?;
        Some(Caller { owner })
    }

    /// Pushes a value, and answers whether others of the queue can be stolen from then. What comes back, as where a thief
    /// holds its claim for long, goes into the sum.
    #[inline(always)]
    fn push<R: Wait>(&mut self, rt: &R, value: u64, sum: &mut u64) -> bool {
        match self.owner.push(value) {
            Push::Settled(answer) => match answer {
                Settled::Pushed(len) => len >= 2,
                Settled::Claimed(back) => {
                    *sum ^= back;
                    true
                }
                Settled::Spent(back) => {
                    *sum ^= back;
                    true
                }
            },
            Push::Overflow(mut overflow) => {
                *sum ^= drain(&mut overflow);
                overflow.finish();
                true
            }
        }
    }

    /// Pops a value, 0 if there is none.
    fn pop(&mut self) -> u64 {
        self.owner.pop().unwrap_or(0)
    }

    /// Pushes and pops each value.
    pub fn pairs<R: Wait>(&mut self, rt: &R, values: u64) -> u64 {
        let mut sum = 0u64;
        for value in 0..values {
            self.push(rt, value, &mut sum);
            sum ^= self.pop();
        }
        sum
    }

    /// Pops as many values as were pushed.
    fn pop_backlog(&mut self) -> u64 {
        let mut sum = 0u64;
        for _ in 0..BACKLOG {
            sum ^= self.pop();
        }
        sum
    }

    fn push_backlog<R: Wait>(&mut self, rt: &R, sum: &mut u64) {
        for value in 0..BACKLOG {
            self.push(rt, value, sum);
        }
    }

    fn push_kicked<R: Wait>(&mut self, rt: &R, kicker: &mut Kicker<'_>, sum: &mut u64) {
        for value in 0..BACKLOG {
            if self.push(rt, value, sum) {
                kicker.kick(rt);
            }
        }
    }

    /// Pushes 128 values and then pops them, again and again.
    pub fn backlogs<R: Wait>(&mut self, rt: &R, rounds: u64) -> u64 {
        let mut sum = 0u64;
        for _ in 0..rounds {
            self.push_backlog(rt, &mut sum);
            sum ^= self.pop_backlog();
        }
        sum
    }

    /// The same, with a kick after each push that leaves two values.
    pub fn kicked<R: Wait>(&mut self, rt: &R, kicker: &mut Kicker<'_>, rounds: u64) -> u64 {
        let mut sum = 0u64;
        for _ in 0..rounds {
            self.push_kicked(rt, kicker, &mut sum);
            sum ^= self.pop_backlog();
        }
        sum
    }

    /// Pushes 128 values and then pops them, so many times, and lets the owner go.
    pub fn run<R: Wait>(mut self, rt: &R, rounds: u64) -> u64 {
        let sum = self.backlogs(rt, rounds);
        self.end(rt);
        sum
    }

    /// Pops what is left, and lets the owner go.
    pub fn end<R: Wait>(self, rt: &R) {
        let Caller { owner } = self;
        let_go(rt, owner);
    }
}

/// Takes what flows over: the exclusive or of it.
#[cold]
#[inline(never)]
fn drain(overflow: &mut Overflow<'_, u64>) -> u64
    ensures same { lender overflow.new ≡ lender overflow.old }
    ensures dry { left_of overflow.new ≡ [] }
{
    let mut sum = 0u64;
    'left: loop {
        match overflow.next() {
            Some(value) => sum ^= value,
            None => return sum,
        }
    }
}

/// Pops what is left, and lets the owner go.
pub fn let_go<R: Wait>(rt: &R, mut owner: Owner<u64>)
    requires { handed owner ≡ [] }
{
    for _ in rt.forever() {
        if owner.pop().is_none() {
            owner.leave();
            return;
        }
    }
    unreachable!()
}
