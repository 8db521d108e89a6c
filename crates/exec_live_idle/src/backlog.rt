//! What a worker's search reaches of its pool.

ghost use Rattle.std.specs.Prelude.{◌≡◌, ℕ, ◌<◌, ◌≤◌, Bool, true, false, IsTrue, IsFalse};
ghost use Rattle.exec_base.specs.Io.{Rose};
ghost use Rattle.exec_live_idle.specs.{declared.view.View.View, Idle.{knows, IsSeatOf, IsSame}, Notify.HoldsStill};

use crate::seat::{Idle, IdleSeat};
use std::sync::Wait;

/// What a worker's search reaches of its pool: the global queue, the run queues of the other
/// workers, and its own.
pub trait Backlog {
    /// How many workers the pool has.
    ghost pool: { Self → ℕ };

    /// How many steals moved nothing. It never falls, and stands still at the end of `u64`.
    ghost dry: { Self → ℕ };

    /// What a look at the global queue that finds values, or none, may make of it.
    ghost looks: { Self → Bool → Self → Type 0 };

    /// What a look for a run queue to steal from that finds one, or none, may make of it.
    ghost peers: { Self → Bool → Self → Type 0 };

    /// What a steal that starts at this worker and moves values, or none, may make of it.
    ghost steals: { Self → ℕ → Bool → Self → Type 0 };

    /// What a kick by a seat that knows this may make of it, and of what the seat knows.
    ghost kicks: { View → Self → View → Self → Type 0 };

    /// How many workers the pool has.
    fn workers(&self) -> usize
        ensures { result ≡ pool self.now };

    /// Whether the global queue isn't empty. The caller must have published the worker: a push after
    /// this look finds it.
    fn has_global<R: Wait>(&mut self, rt: &R, seat: &IdleSeat) -> bool
        requires { (knows seat.now).published ≡ true }
        ensures pool { pool self.new ≡ pool self.old }
        ensures looks { looks self.old result self.new };

    /// Whether another run queue can be stolen from. The caller must have published the worker: a
    /// kick after this look finds it. It must have found no search count: whoever holds one would
    /// look for it.
    fn has_stealable<R: Wait>(&mut self, rt: &R, seat: &IdleSeat) -> bool
        requires published { (knows seat.now).published ≡ true }
        requires no_count { (knows seat.now).saw ≡ 0 }
        ensures pool { pool self.new ≡ pool self.old }
        ensures peers { peers self.old result self.new };

    /// Goes over the other run queues once, from this worker's on, and moves half of the first
    /// backlog that it finds into the worker's own. Answers whether it moved any: false only where
    /// the count of dry steals rose. The caller must name a worker of the pool.
    fn steal<R: Wait>(&mut self, rt: &R, start: usize) -> bool
        requires { start < pool self.old }
        ensures pool { pool self.new ≡ pool self.old }
        ensures never_falls { dry self.old ≤ dry self.new }
        ensures moved { IsTrue result → dry self.new ≡ dry self.old }
        ensures dry { IsFalse result → Rose (dry self.old) (dry self.new) }
        ensures steals { steals self.old start result self.new };

    /// Wakes a published worker for a backlog, as `Idle::notify` does. The caller must give a seat of
    /// this idle set, whose workers are all of the pool, and have found no count besides those that it
    /// returned. Its worker must not be published, and hold at most one.
    fn kick<R: Wait>(&mut self, rt: &R, idle: &Idle, seat: &mut IdleSeat)
        requires at { IsSeatOf idle.now seat.old }
        requires last { (knows seat.old).saw ≡ 0 }
        requires room { (knows seat.old).held < 2 }
        requires unpublished { (knows seat.old).published ≡ false }
        requires pool { (knows seat.old).workers ≤ pool self.old }
        ensures same { IsSame seat.old seat.new }
        ensures still { HoldsStill (knows seat.old) (knows seat.new) }
        ensures pool { pool self.new ≡ pool self.old }
        ensures kicks { kicks (knows seat.old) self.old (knows seat.new) self.new };
}
