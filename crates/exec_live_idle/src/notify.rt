//! Wakes of workers that are published.
//!
//! A wake reserves a search count, claims the lowest published worker, which gets the count, and
//! wakes it. A kick, for a backlog in a run queue, does so only where there is no count. A push into
//! the global queue wakes a worker each time.
//!
//! A wake that finds nobody to claim returns its count. While it held it, a kick may have seen the
//! count and done nothing, and a worker may have published itself since. So whoever returns the last
//! count looks again. Ports `notify` and `notify_global` of `commonware_runtime`'s `iouring::idle`.

ghost use Rattle.std.specs.Prelude.{◌≡◌, ℕ, ◌<◌, ◌≤◌, IsTrue, IsFalse};
ghost use Rattle.exec_live_idle.specs.{Idle.{knows, IsSeatOf, IsSame}, Notify.{Kicked, Notified, HoldsLess, WokeNobody, HandedOver}};

use crate::seat::{Idle, IdleSeat};
use std::sync::Wait;

/// What wakes the workers of a pool.
pub trait Rouse {
    /// How many workers it can wake.
    ghost workers: { Self → ℕ };

    /// What a wake of the worker of this number may make of it.
    ghost wakes: { Self → ℕ → Self → Type 0 };

    /// Wakes the worker of this number. The caller must name one that there is.
    fn wake<R: Wait>(&mut self, rt: &R, worker: usize)
        requires { worker < workers self.old }
        ensures workers { workers self.new ≡ workers self.old }
        ensures wakes { wakes self.old worker self.new };
}

impl Idle {
    /// Wakes a published worker for a backlog of a run queue, unless there is a search count: whoever
    /// holds one finds the backlog, or hands the duty on. The worker that is woken holds a count. It may
    /// wait, as a claim does. The caller must give a seat of this set, which holds at most one count,
    /// and what can wake all its workers.
    pub fn notify<R: Wait, W: Rouse>(&self, rt: &R, seat: &mut IdleSeat, rouse: &mut W)
        requires at { IsSeatOf self.now seat.old }
        requires room { (knows seat.old).held < 2 }
        requires workers { (knows seat.old).workers ≤ W.workers rouse.old }
        ensures same { IsSame seat.old seat.new }
        ensures workers { W.workers rouse.new ≡ W.workers rouse.old }
        ensures kicked { Kicked W.wakes (knows seat.old) rouse.old (knows seat.new) rouse.new }
    {
        if self.count(seat) != 0 || self.look(seat) == 0 {
            return;
        }
        self.kick(rt, seat, rouse);
    }

    /// The same, where a worker was published a moment ago.
    #[cold]
    #[inline(never)]
    fn kick<R: Wait, W: Rouse>(&self, rt: &R, seat: &mut IdleSeat, rouse: &mut W)
        requires at { IsSeatOf self.now seat.old }
        requires room { (knows seat.old).held < 2 }
        requires workers { (knows seat.old).workers ≤ W.workers rouse.old }
        ensures same { IsSame seat.old seat.new }
        ensures workers { W.workers rouse.new ≡ W.workers rouse.old }
        ensures kicked { Kicked W.wakes (knows seat.old) rouse.old (knows seat.new) rouse.new }
    {
        for _ in rt.forever() {
            if self.count(seat) != 0 {
                return;
            }
            let seen = self.look(seat);
            if seen == 0 || !self.add_first(seat) {
                return;
            }
            if !self.hand_over(rt, seat, seen, rouse) {
                return;
            }
        }
        unreachable!()
    }

    /// Wakes a published worker for a push into the global queue, also while others search. The
    /// worker that is woken holds a count. It may wait, as a claim does. The caller must give a seat of
    /// this set, which holds at most one count, and what can wake all its workers.
    pub fn notify_global<R: Wait, W: Rouse>(&self, rt: &R, seat: &mut IdleSeat, rouse: &mut W)
        requires at { IsSeatOf self.now seat.old }
        requires room { (knows seat.old).held < 2 }
        requires workers { (knows seat.old).workers ≤ W.workers rouse.old }
        ensures same { IsSame seat.old seat.new }
        ensures workers { W.workers rouse.new ≡ W.workers rouse.old }
        ensures notified { Notified W.wakes (knows seat.old) rouse.old (knows seat.new) rouse.new }
    {
        for _ in rt.forever() {
            let seen = self.look(seat);
            if seen == 0 {
                return;
            }
            self.add(seat);
            if !self.hand_over(rt, seat, seen, rouse) {
                return;
            }
        }
        unreachable!()
    }

    /// Hands a count that was reserved over to a published worker, and wakes it. Where there was
    /// none, the count is returned: true where it was the last, so that the caller has to look again.
    #[cold]
    #[inline(never)]
    fn hand_over<R: Wait, W: Rouse>(
        &self,
        rt: &R,
        seat: &mut IdleSeat,
        seen: u64,
        rouse: &mut W,
    ) -> bool
        requires at { IsSeatOf self.now seat.old }
        requires holds { 0 < (knows seat.old).held }
        requires some { 0 < seen }
        requires workers { (knows seat.old).workers ≤ W.workers rouse.old }
        ensures same { IsSame seat.old seat.new }
        ensures workers { W.workers rouse.new ≡ W.workers rouse.old }
        ensures again { IsTrue result → HoldsLess (knows seat.old) (knows seat.new)
            × WokeNobody (knows seat.old) rouse.old (knows seat.new) rouse.new }
        ensures done { IsFalse result
            → HandedOver W.wakes (knows seat.old) rouse.old (knows seat.new) rouse.new }
    {
        match self.claim_from(rt, seat, seen) {
            Some(worker) => {
                rouse.wake(rt, worker);
                false
            }
            None => self.subtract(seat),
        }
    }
}
