//! What the original answered, replayed on searchers over a fake pool.

ghost use Rattle.std.specs.Prelude.{◌≡◌, ◌<◌, ◌≤◌, ◌+◌, false};
ghost use Rattle.exec_live_idle.specs.{Idle.{knows, IsSeatOf}, Live.first_view};

use super::fake::FakePool;
use super::next_player;
use super::player::Player;
use crate::found::{holds, same};
use exec_live_idle::seat::{Idle, IdleSeat};
use exec_words::idle::Park;
use std::alloc::{AllocFailed, Global};
use std::process::Abort;
use std::sync::Wait;
use std::test::Fail;

/// An operation with its answer.
#[derive(Clone, Copy)]
pub enum Op {
    /// A push into the global queue.
    Push,
    /// So many values into a worker's queue, without a kick.
    Batch(usize, usize),
    /// A worker takes all that the global queue holds.
    Take,
    /// So many values out of a worker's queue.
    Pops(usize, usize),
    /// A worker's last look.
    Park(usize, Park),
    /// Whether a worker looks and searches to a run.
    Look(usize, bool),
    /// Whether a worker's search moves values.
    Search(usize, bool),
    /// A worker leaves its search.
    Leave(usize),
    /// Whether a parked worker was claimed.
    Finish(usize, bool),
}

/// An operation, and then the set as a number, the search count, and who was woken.
pub struct Line(pub Op, pub u64, pub u64, pub Option<usize>);

/// Plays the lines on a pool of so many workers.
pub fn play<R: Wait + Abort>(
    rt: &R,
    alloc: Global,
    workers: usize,
    lines: &[Line],
) -> Result<(), Fail>
    requires { workers ≤ 8 }
{
    let (idle, mut caller) = Idle::new(alloc, workers)?;
    let mut players = gather(rt, alloc, &idle, &mut caller, workers);
    replay(
        rt,
        &idle,
        &mut caller,
        players.as_mut_slice(),
        workers,
        lines,
    );
    while let Some(player) = players.pop() {
        player.end(rt);
    }
    players.destroy_empty();
    drop(caller.leave());
    drop(idle);
    Ok(())
}

/// The workers, none of which is parked.
fn gather<'a, R: Abort>(
    rt: &R,
    alloc: Global,
    idle: &'a Idle,
    caller: &mut IdleSeat,
    workers: usize,
) -> Vec<Player<'a>>
    requires at { IsSeatOf idle.now caller.old }
    requires workers { workers ≤ 8 }
    requires view { knows caller.old ≡ first_view workers }
    ensures at { IsSeatOf idle.now caller.new }
    ensures free { (knows caller.new).held ≡ 0 }
    ensures unpublished { (knows caller.new).published ≡ false }
    ensures workers { (knows caller.new).workers ≡ workers }
{
    let mut players = Vec::new(alloc);
    for made in 0..workers {
        let player = next_player(rt, idle, caller, workers);
        if let Err(failed) = players.push(player) {
            let AllocFailed { value } = failed;
            value.end(rt);
        }
    }
    players
}

/// Plays the lines, and compares what each leaves.
fn replay<R: Wait + Abort>(
    rt: &R,
    idle: &Idle,
    caller: &mut IdleSeat,
    players: &mut [Player<'_>],
    workers: usize,
    lines: &[Line],
)
    requires at { IsSeatOf idle.now caller.old }
    requires workers { workers ≤ 8 }
    requires free { (knows caller.old).held ≡ 0 }
    requires unpublished { (knows caller.old).published ≡ false }
    requires pool { (knows caller.old).workers ≡ workers }
    ensures free { (knows caller.new).held ≡ 0 }
    ensures unpublished { (knows caller.new).published ≡ false }
{
    let mut pool = FakePool::new(workers);
    for line in lines {
        pool.bell.silence();
        match line.0 {
            Op::Push => push(rt, idle, caller, &mut pool),
            Op::Batch(worker, count) => pool.put(worker, count),
            Op::Take => pool.global = 0,
            Op::Pops(worker, count) => pool.pop(worker, count),
            op => act(rt, players, &mut pool, op),
        }
        holds!(rt; pool.bell.workers == workers);
        same!(rt; idle.look(caller), line.1);
        same!(rt; idle.count(caller), line.2);
        same!(rt; pool.bell.woken.iter().position(|is_woken| *is_woken), line.3);
    }
}

/// A push into the global queue.
fn push<R: Wait>(rt: &R, idle: &Idle, caller: &mut IdleSeat, pool: &mut FakePool)
    requires at { IsSeatOf idle.now caller.old }
    requires free { (knows caller.old).held ≡ 0 }
    requires pool { (knows caller.old).workers ≡ pool.old.bell.workers }
    ensures at { IsSeatOf idle.now caller.new }
    ensures free { (knows caller.new).held ≡ 0 }
    ensures published { (knows caller.new).published ≡ (knows caller.old).published }
    ensures workers { (knows caller.new).workers ≡ (knows caller.old).workers }
{
    pool.global = pool.global.saturating_add(1);
    idle.notify_global(rt, caller, &mut pool.bell);
}

/// Makes an operation of a worker, and compares its answer.
fn act<R: Wait + Abort>(rt: &R, players: &mut [Player<'_>], pool: &mut FakePool, op: Op) {
    match op {
        Op::Park(worker, answer) => {
            let player = players.get_mut(worker).expect(rt, "a worker");
            same!(rt; player.park(rt, pool), answer);
        }
        Op::Look(worker, answer) => {
            let player = players.get_mut(worker).expect(rt, "a worker");
            same!(rt; player.look(rt, pool), answer);
        }
        Op::Search(worker, answer) => {
            let player = players.get_mut(worker).expect(rt, "a worker");
            same!(rt; player.search(rt, pool), answer);
        }
        Op::Leave(worker) => players
            .get_mut(worker)
            .expect(rt, "a worker")
            .leave(rt, pool),
        Op::Finish(worker, answer) => {
            let player = players.get_mut(worker).expect(rt, "a worker");
            same!(rt; player.finish(rt), answer);
        }
        _ => {}
    }
}
