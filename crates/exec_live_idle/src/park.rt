//! How a worker leaves a search and parks.
//!
//! A parking worker publishes itself, returns its count, and only then looks for work once more. A
//! push or a kick publishes its work first and then looks for a published worker or a count. So one
//! of the two sees the other: no work is left where all sleep. The trait's looks ask for a seat that
//! has published, which keeps that order.
//!
//! Where a count is there, the worker waits without a look at the run queues: whoever holds the
//! count finds the backlog, or hands the duty on with its last return.

ghost use Rattle.std.specs.Prelude.{◌≡◌, ◌-◌, ◌<◌, ◌⊎◌, true, false, IsTrue, IsFalse, not, ◌↔◌, None};
ghost use Rattle.exec_live_idle.specs.{Idle.{knows, IsSame}, Plays.{published, withdrawn}, Notify.HoldsStill, Search.{Leaves, Shows, Parks, LooksTo, SearchesTo}};
ghost use Rattle.exec_words.specs.declared.idle.Park.TheVariants.{Wait, Run};

use crate::backlog::Backlog;
use crate::searcher::Searcher;
use exec_words::idle::Park;
use std::sync::Wait;

impl<'a> Searcher<'a> {
    /// Returns the search count, if the worker holds one. Where this was the last, the duty to
    /// search is handed on by a kick, which may wait. The caller must have ended a publication, and
    /// give the backlog of a pool of as many workers as the idle set's.
    pub fn leave_search<R: Wait, B: Backlog>(&mut self, rt: &R, backlog: &mut B)
        requires unpublished { (knows self.old.seat).published ≡ false }
        requires pool { B.pool backlog.old ≡ (knows self.old.seat).workers }
        ensures idle { self.new.idle ≡ self.old.idle }
        ensures seat { IsSame self.old.seat self.new.seat }
        ensures rng { self.new.rng ≡ self.old.rng }
        ensures pool { B.pool backlog.new ≡ B.pool backlog.old }
        ensures leaves { Leaves B.kicks (knows self.old.seat) backlog.old
            (knows self.new.seat) backlog.new }
    {
        if self.searching {
            self.searching = false;
            if self.idle.subtract(&mut self.seat) {
                backlog.kick(rt, self.idle, &mut self.seat);
            }
        }
    }

    /// Publishes the worker, returns a held count, and looks once more for work.
    ///
    /// - `Run`: the global queue isn't empty. The worker is withdrawn. Where the last count was
    ///   returned, and no claim came, the duty to search is handed on by a kick.
    /// - `Wait`: a search count was there, or no other run queue can be stolen from. The worker stays
    ///   published: the caller ends that by `finish_park`, also after a wait that doesn't block.
    /// - `Search`: another run queue can be stolen from. The worker is withdrawn, and holds a count.
    ///
    /// The looks and the kick may wait. The caller must have ended a publication, and give the backlog
    /// of a pool of as many workers as the idle set's; the worker's own run queue must be empty.
    pub fn prepare_park<R: Wait, B: Backlog>(&mut self, rt: &R, backlog: &mut B) -> Park
        requires unpublished { (knows self.old.seat).published ≡ false }
        requires pool { B.pool backlog.old ≡ (knows self.old.seat).workers }
        ensures idle { self.new.idle ≡ self.old.idle }
        ensures seat { IsSame self.old.seat self.new.seat }
        ensures rng { self.new.rng ≡ self.old.rng }
        ensures pool { B.pool backlog.new ≡ B.pool backlog.old }
        ensures parks { Parks B.looks B.peers B.kicks (knows self.old.seat) backlog.old result
            (knows self.new.seat) backlog.new }
    {
        let last = self.publish();
        if backlog.has_global(rt, &self.seat) {
            let found = self.idle.withdraw(&mut self.seat);
            self.searching = !found;
            if found && last {
                backlog.kick(rt, self.idle, &mut self.seat);
            }
            return Park::Run;
        }
        if self.idle.count(&mut self.seat) != 0 {
            return Park::Wait;
        }
        if !backlog.has_stealable(rt, &self.seat) || !self.idle.add_first(&mut self.seat) {
            return Park::Wait;
        }
        self.searching = true;
        if !self.idle.withdraw(&mut self.seat) {
            // A claim's count is one too many. It isn't the last, since the worker holds its own.
            self.idle.subtract(&mut self.seat);
        }
        Park::Search
    }

    /// Publishes the worker, and returns a held count after that: the step before told it nothing of
    /// the set. Answers whether that was the last.
    fn publish(&mut self) -> bool
        requires unpublished { (knows self.old.seat).published ≡ false }
        ensures idle { self.new.idle ≡ self.old.idle }
        ensures seat { IsSame self.old.seat self.new.seat }
        ensures rng { self.new.rng ≡ self.old.rng }
        ensures view { Shows (knows self.old.seat) (knows self.new.seat) }
        ensures after { (knows self.old.seat).held ≡ 1 → (knows self.new.seat).before ≡ None }
        ensures last { IsTrue result
            ↔ (((knows self.old.seat).held ≡ 1) × ((knows self.new.seat).saw ≡ 0)) }
    {
        self.idle.set_bit(&mut self.seat);
        if !self.searching {
            return false;
        }
        self.searching = false;
        self.idle.subtract(&mut self.seat)
    }

    /// Publishes the worker and looks once more, and searches whenever the look asks for it, until a
    /// search moves values or a look asks for none. True leaves the worker withdrawn: it runs again,
    /// perhaps with a count. False leaves it published, to wait. The call itself may wait, and nothing
    /// bounds how often it looks. The caller must have ended a publication, and give the backlog of a
    /// pool of as many workers as the idle set's; the worker's own run queue must be empty.
    pub fn publish_and_look<R: Wait, B: Backlog>(&mut self, rt: &R, backlog: &mut B) -> bool
        requires unpublished { (knows self.old.seat).published ≡ false }
        requires pool { B.pool backlog.old ≡ (knows self.old.seat).workers }
        ensures idle { self.new.idle ≡ self.old.idle }
        ensures seat { IsSame self.old.seat self.new.seat }
        ensures pool { B.pool backlog.new ≡ B.pool backlog.old }
        ensures view { HoldsStill
            (record (knows self.old.seat) { published = not result; held = (knows self.new.seat).held })
            (knows self.new.seat) }
        ensures free { IsFalse result → (knows self.new.seat).held ≡ 0 }
        ensures waits { IsFalse result
            → LooksTo B.looks B.peers B.steals B.kicks (knows self.old.seat) backlog.old self.old.rng
            Wait (knows self.new.seat) backlog.new self.new.rng }
        ensures runs { IsTrue result
            → LooksTo B.looks B.peers B.steals B.kicks (knows self.old.seat) backlog.old self.old.rng
            Run (knows self.new.seat) backlog.new self.new.rng
            ⊎ SearchesTo B.looks B.peers B.steals B.kicks (knows self.old.seat) backlog.old
            self.old.rng (knows self.new.seat) backlog.new self.new.rng }
    {
        for _ in rt.forever() {
            match self.prepare_park(rt, backlog) {
                Park::Wait => return false,
                Park::Run => return true,
                Park::Search => {
                    if self.search(rt, backlog) {
                        return true;
                    }
                }
            }
        }
        unreachable!()
    }

    /// Withdraws the worker once its wait is over, before it runs anything else. Where a claim took
    /// it, it holds the claimer's count. The caller must have published the worker, and hold no count:
    /// `prepare_park` answered `Wait`.
    pub fn finish_park(&mut self)
        requires published { (knows self.old.seat).published ≡ true }
        requires free { (knows self.old.seat).held ≡ 0 }
        ensures idle { self.new.idle ≡ self.old.idle }
        ensures seat { IsSame self.old.seat self.new.seat }
        ensures rng { self.new.rng ≡ self.old.rng }
        ensures view { knows self.new.seat
            ≡ withdrawn (knows self.old.seat) (not self.new.searching) }
    {
        self.searching = !self.idle.withdraw(&mut self.seat);
    }
}
