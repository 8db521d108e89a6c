//! The idle set and its searchers: claims, looks, searches and parks over a fake pool, and
//! workers that publish on threads.

ghost use Rattle.std.specs.Prelude.{◌≡◌, ◌<◌, ◌+◌, false};
ghost use Rattle.exec_live_idle.specs.{Idle.{knows, IsSeatOf, IsSame}, Live.next_number, Plays.{claimed, looked}};

mod fake;
mod play;
mod player;
mod threads;

use crate::found::{holds, same};
use exec_live_idle::searcher::Searcher;
use exec_live_idle::seat::{Idle, IdleSeat};
use exec_words::idle::Park;
use fake::FakePool;
use play::{Line, Op, play};
use player::Player;
use std::process::Abort;
use std::sync::Wait;
use std::test::Fail;

#[test]
fn a_claim_takes_the_lowest_worker(rt: HostRuntime) -> Result<(), Fail> {
    let (idle, mut caller) = Idle::new(rt.alloc(), 3)?;
    let mut zero = idle.seat(&mut caller);
    let mut one = idle.seat(&mut caller);
    let mut two = idle.seat(&mut caller);
    idle.set_bit(&mut zero);
    idle.set_bit(&mut one);
    idle.set_bit(&mut two);
    idle.add(&mut caller);
    claims(&rt, &idle, &mut caller, 0);
    holds!(&rt; !idle.withdraw(&mut zero));
    holds!(&rt; idle.withdraw(&mut two));
    holds!(&rt; idle.subtract(&mut zero));
    same!(&rt; idle.count(&mut caller), 0);
    idle.add(&mut caller);
    claims(&rt, &idle, &mut caller, 1);
    idle.add(&mut caller);
    claims_nobody(&rt, &idle, &mut caller);
    holds!(&rt; !idle.withdraw(&mut one));
    holds!(&rt; !idle.subtract(&mut one));
    holds!(&rt; idle.subtract(&mut caller));
    drop((zero.leave(), one.leave(), two.leave(), caller.leave()));
    drop(idle);
    Ok(())
}

/// A claim takes this worker. What it answered says what the caller's seat holds, so it is compared here, where that is
/// known from then on.
fn claims<R: Wait + Abort>(rt: &R, idle: &Idle, caller: &mut IdleSeat, worker: usize)
    requires at { IsSeatOf idle.now caller.old }
    requires holds { 0 < (knows caller.old).held }
    ensures same { IsSame caller.old caller.new }
    ensures claimed { knows caller.new ≡ claimed (knows caller.old) worker }
{
    assert_eq!(rt; idle.claim(rt, caller), Some(worker));
}

/// A claim finds nobody, and the caller's seat keeps its count.
fn claims_nobody<R: Wait + Abort>(rt: &R, idle: &Idle, caller: &mut IdleSeat)
    requires at { IsSeatOf idle.now caller.old }
    requires holds { 0 < (knows caller.old).held }
    ensures same { IsSame caller.old caller.new }
    ensures looked { knows caller.new ≡ looked (knows caller.old) 0 }
{
    assert_eq!(rt; idle.claim(rt, caller), None);
}

/// The player of a worker of this number, which must come next.
fn next_player<'a>(
    rt: &impl Abort,
    idle: &'a Idle,
    caller: &mut IdleSeat,
    workers: usize,
) -> Player<'a>
    requires at { IsSeatOf idle.now caller.old }
    requires unpublished { (knows caller.old).published ≡ false }
    requires workers { (knows caller.old).workers ≡ workers }
    requires more { (knows caller.old).number + 1 < (knows caller.old).end }
    requires worker { (knows caller.old).number < (knows caller.old).workers }
    ensures same { IsSame caller.old caller.new }
    ensures left { knows caller.new ≡ next_number (knows caller.old) }
{
    let seat = idle.seat(caller);
    Player {
        number: seat.number() as usize,
        searcher: Searcher::new(idle, seat),
        workers,
        parked: false,
    }
}

#[test]
fn a_park_looks_at_four_things(rt: HostRuntime) -> Result<(), Fail> {
    let (idle, mut caller) = Idle::new(rt.alloc(), 2)?;
    let mut zero = next_player(&rt, &idle, &mut caller, 2);
    let mut one = next_player(&rt, &idle, &mut caller, 2);
    let mut pool = FakePool::new(2);
    pool.global = 1;
    same!(&rt; zero.park(&rt, &mut pool), Park::Run);
    same!(&rt; idle.look(&mut caller), 0);
    pool.global = 0;
    holds!(&rt; !one.search(&rt, &mut pool));
    holds!(&rt; one.searcher.is_searching());
    same!(&rt; zero.park(&rt, &mut pool), Park::Wait);
    same!(&rt; idle.look(&mut caller), 1);
    holds!(&rt; !zero.finish(&rt));
    one.leave(&rt, &mut pool);
    pool.queues[1] = 2;
    same!(&rt; zero.park(&rt, &mut pool), Park::Search);
    same!(&rt; idle.look(&mut caller), 0);
    same!(&rt; idle.count(&mut caller), 1);
    zero.leave(&rt, &mut pool);
    zero.end(&rt);
    one.end(&rt);
    drop(caller.leave());
    drop(idle);
    Ok(())
}

/// Five values on worker 2: two of them, and then one of three, are stolen. A lone value stays.
const HALVES: &[Line] = &[
    Line(Op::Batch(2, 5), 0, 0, None),
    Line(Op::Search(0, true), 0, 1, None),
    Line(Op::Pops(0, 2), 0, 1, None),
    Line(Op::Search(1, true), 0, 2, None),
    Line(Op::Pops(1, 1), 0, 2, None),
    Line(Op::Pops(2, 1), 0, 2, None),
    Line(Op::Search(1, false), 0, 2, None),
    Line(Op::Leave(0), 0, 1, None),
    Line(Op::Leave(1), 0, 0, None),
    Line(Op::Leave(2), 0, 0, None),
];

#[test]
fn searches_move_half_of_a_backlog(rt: HostRuntime) -> Result<(), Fail> {
    play(&rt, rt.alloc(), 3, HALVES)
}

/// Each push wakes a worker. Those that return the last count hand it on.
const PUSHES: &[Line] = &[
    Line(Op::Park(4, Park::Wait), 16, 0, None),
    Line(Op::Park(3, Park::Wait), 24, 0, None),
    Line(Op::Park(1, Park::Wait), 26, 0, None),
    Line(Op::Park(0, Park::Wait), 27, 0, None),
    Line(Op::Park(2, Park::Wait), 31, 0, None),
    Line(Op::Push, 30, 1, Some(0)),
    Line(Op::Push, 28, 2, Some(1)),
    Line(Op::Push, 24, 3, Some(2)),
    Line(Op::Finish(0, true), 24, 3, None),
    Line(Op::Park(0, Park::Run), 24, 2, None),
    Line(Op::Finish(1, true), 24, 2, None),
    Line(Op::Park(1, Park::Run), 24, 1, None),
    Line(Op::Finish(2, true), 24, 1, None),
    Line(Op::Park(2, Park::Run), 16, 1, Some(3)),
    Line(Op::Leave(0), 16, 1, None),
    Line(Op::Finish(3, true), 16, 1, None),
    Line(Op::Leave(3), 0, 1, Some(4)),
    Line(Op::Finish(4, true), 0, 1, None),
    Line(Op::Leave(4), 0, 0, None),
];

#[test]
fn pushes_wake_one_worker_each(rt: HostRuntime) -> Result<(), Fail> {
    play(&rt, rt.alloc(), 5, PUSHES)
}

/// A count that is held lets another worker wait; without one, a backlog makes a searcher.
const LOOKS: &[Line] = &[
    Line(Op::Push, 0, 0, None),
    Line(Op::Park(0, Park::Run), 0, 0, None),
    Line(Op::Take, 0, 0, None),
    Line(Op::Search(1, false), 0, 1, None),
    Line(Op::Park(0, Park::Wait), 1, 1, None),
    Line(Op::Finish(0, false), 0, 1, None),
    Line(Op::Leave(1), 0, 0, None),
    Line(Op::Batch(1, 2), 0, 0, None),
    Line(Op::Park(0, Park::Search), 0, 1, None),
    Line(Op::Leave(0), 0, 0, None),
    Line(Op::Look(0, true), 0, 1, None),
    Line(Op::Leave(0), 0, 0, None),
    Line(Op::Pops(0, 1), 0, 0, None),
    Line(Op::Look(0, false), 1, 0, None),
    Line(Op::Finish(0, false), 0, 0, None),
];

#[test]
fn a_look_finds_what_is_left(rt: HostRuntime) -> Result<(), Fail> {
    play(&rt, rt.alloc(), 2, LOOKS)
}
