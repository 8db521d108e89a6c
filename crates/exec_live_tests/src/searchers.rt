//! Three workers with five runnables, each with a searcher over live run queues: a search moves half of a backlog, and
//! a lone value stays.

ghost use Rattle.std.specs.Prelude.{◌≡◌, ◌<◌, ◌+◌, ◌≤◌, [], false};
ghost use Rattle.exec_live_idle.specs.{Idle.{knows, IsSeatOf, IsSame}, Live.next_number};
ghost use Rattle.exec_live_queue.specs.Kinds.{IsThief, handed};

use crate::calls::{let_go, must_make, push_all};
use crate::found::{holds, same};
use exec_live_idle::backlog::Backlog;
use exec_live_idle::notify::Rouse;
use exec_live_idle::searcher::Searcher;
use exec_live_idle::seat::{Idle, IdleSeat};
use exec_live_queue::owner::Owner;
use exec_live_queue::queue::{Queue, QueueSeat};
use std::alloc::Global;
use std::process::Abort;
use std::sync::Wait;
use std::test::Fail;

/// Nobody sleeps, so nobody is woken.
#[derive(Drop)]
struct Quiet;

impl Rouse for Quiet {
    ghost workers = { λ q. 3 };

    ghost wakes = { λ q worker d. d ≡ q };

    fn wake<R: Wait>(&mut self, rt: &R, worker: usize) {}
}

/// Another worker's run queue, with a seat there.
#[derive(Drop)]
struct Victim<'a> {
    number: usize,
    queue: &'a Queue<u64>,
    seat: QueueSeat<u64>,
    ghost at: { IsThief queue.now seat },
}

impl<'a> Victim<'a> {
    fn is_stealable(&mut self) -> bool {
        self.queue.is_stealable(&mut self.seat)
    }

    /// Whether a steal moves values.
    fn steal<R: Wait>(&mut self, rt: &R, into: &mut Owner<u64>) -> bool
        requires { handed into.old ≡ [] }
        ensures whole { handed into.new ≡ [] }
        ensures same { self.new.number ≡ self.old.number }
    {
        self.queue.steal_into(rt, &mut self.seat, into) > 0
    }
}

/// What a worker of three reaches: its own run queue, and those of the two others.
struct Reach<'a> {
    own: Owner<u64>,
    lower: Victim<'a>,
    higher: Victim<'a>,
    dry: u64,
    ghost whole: { handed own ≡ [] },
}

impl<'a> Reach<'a> {
    fn pop(&mut self) -> Option<u64> {
        self.own.pop()
    }
}

impl<'a> Backlog for Reach<'a> {
    ghost pool = { λ b. 3 };

    ghost dry = { λ b. b.dry };

    ghost looks = { λ b found d. (d ≡ b) × (found ≡ false) };

    ghost peers = { λ b found d. d.dry ≡ b.dry };

    ghost steals = { λ b start moved d. d.lower.number ≡ b.lower.number };

    ghost kicks = { λ v b w d. d ≡ b };

    fn workers(&self) -> usize {
        3
    }

    fn has_global<R: Wait>(&mut self, rt: &R, seat: &IdleSeat) -> bool {
        false
    }

    fn has_stealable<R: Wait>(&mut self, rt: &R, seat: &IdleSeat) -> bool {
        self.lower.is_stealable() || self.higher.is_stealable()
    }

    fn steal<R: Wait>(&mut self, rt: &R, start: usize) -> bool {
        let moved = if start <= self.lower.number || start > self.higher.number {
            self.lower.steal(rt, &mut self.own) || self.higher.steal(rt, &mut self.own)
        } else {
            self.higher.steal(rt, &mut self.own) || self.lower.steal(rt, &mut self.own)
        };
        if !moved {
            self.dry = self.dry.saturating_add(1);
        }
        moved
    }

    fn kick<R: Wait>(&mut self, rt: &R, idle: &Idle, seat: &mut IdleSeat) {
        idle.notify(rt, seat, &mut Quiet);
    }
}

/// A worker that never parks.
struct Worker<'a> {
    searcher: Searcher<'a>,
    reach: Reach<'a>,
    ghost up: { (knows searcher.seat).published ≡ false },
    ghost pool: { (knows searcher.seat).workers ≡ 3 },
}

impl<'a> Worker<'a> {
    /// The worker of the number that comes next.
    fn new(idle: &'a Idle, caller: &mut IdleSeat, reach: Reach<'a>) -> Self
        requires at { IsSeatOf idle.now caller.old }
        requires unpublished { (knows caller.old).published ≡ false }
        requires workers { (knows caller.old).workers ≡ 3 }
        requires more { (knows caller.old).number + 1 < (knows caller.old).end }
        requires worker { (knows caller.old).number < 3 }
        ensures same { IsSame caller.old caller.new }
        ensures left { knows caller.new ≡ next_number (knows caller.old) }
    {
        Worker {
            searcher: Searcher::new(idle, idle.seat(caller)),
            reach,
        }
    }

    fn search<R: Wait>(&mut self, rt: &R) -> bool {
        self.searcher.search(rt, &mut self.reach)
    }

    fn pop(&mut self) -> Option<u64> {
        self.reach.pop()
    }

    /// Leaves the search. The run queue must be empty.
    fn end<R: Wait + Abort>(self, rt: &R) {
        let Worker {
            mut searcher,
            mut reach,
        } = self;
        searcher.leave_search(rt, &mut reach);
        drop(searcher.into_seat());
        let Reach {
            own,
            lower,
            higher,
            dry: _,
        } = reach;
        drop(higher);
        drop(lower);
        let_go(rt, own);
    }
}

/// A queue with so many values, its owner, and two seats of thieves.
fn make_queue<R: Abort>(
    rt: &R,
    alloc: Global,
    count: u64,
) -> (Queue<u64>, Owner<u64>, QueueSeat<u64>, QueueSeat<u64>)
    requires { count ≤ 256 }
    ensures whole { handed result.1 ≡ [] }
    ensures one { IsThief result.0 result.2 }
    ensures two { IsThief result.0 result.3 }
{
    let (queue, mut owner, mut one) = must_make(rt, alloc, 0);
    push_all(&mut owner, 0, count);
    let two = queue.seat(&mut one);
    (queue, owner, one, two)
}

fn victim_of<'a>(number: usize, queue: &'a Queue<u64>, seat: QueueSeat<u64>) -> Victim<'a>
    requires { IsThief queue.now seat }
{
    Victim {
        number,
        queue,
        seat,
    }
}

fn reach_of<'a>(own: Owner<u64>, lower: Victim<'a>, higher: Victim<'a>) -> Reach<'a>
    requires { handed own ≡ [] }
{
    Reach {
        own,
        lower,
        higher,
        dry: 0,
    }
}

/// Two of five values move to worker 0, then one of three to worker 1. Of two, one is popped: the other stays.
fn share<R: Wait + Abort>(
    rt: &R,
    zero: &mut Worker<'_>,
    one: &mut Worker<'_>,
    two: &mut Worker<'_>,
) {
    holds!(rt; zero.search(rt));
    same!(rt; (zero.pop(), zero.pop(), zero.pop()), (Some(0), Some(1), None));
    holds!(rt; one.search(rt));
    same!(rt; (one.pop(), one.pop()), (Some(2), None));
    same!(rt; two.pop(), Some(3));
    holds!(rt; !one.search(rt));
    same!(rt; (two.pop(), two.pop()), (Some(4), None));
}

#[test]
fn three_workers_share_five_values(rt: HostRuntime) -> Result<(), Fail> {
    let alloc = rt.alloc();
    let (idle, mut caller) = Idle::new(alloc, 3)?;
    let (at_zero, zero, zero_one, zero_two) = make_queue(&rt, alloc, 0);
    let (at_one, one, one_zero, one_two) = make_queue(&rt, alloc, 0);
    let (at_two, two, two_zero, two_one) = make_queue(&rt, alloc, 5);
    let zero = reach_of(
        zero,
        victim_of(1, &at_one, one_zero),
        victim_of(2, &at_two, two_zero),
    );
    let one = reach_of(
        one,
        victim_of(0, &at_zero, zero_one),
        victim_of(2, &at_two, two_one),
    );
    let two = reach_of(
        two,
        victim_of(0, &at_zero, zero_two),
        victim_of(1, &at_one, one_two),
    );
    let mut zero = Worker::new(&idle, &mut caller, zero);
    let mut one = Worker::new(&idle, &mut caller, one);
    let mut two = Worker::new(&idle, &mut caller, two);
    share(&rt, &mut zero, &mut one, &mut two);
    zero.end(&rt);
    one.end(&rt);
    two.end(&rt);
    drop(at_two);
    drop(at_one);
    drop(at_zero);
    drop(caller.leave());
    drop(idle);
    Ok(())
}
