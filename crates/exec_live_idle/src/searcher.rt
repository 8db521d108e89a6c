//! A worker's part in searching and parking.
//!
//! A worker with nothing to run searches: it goes over the other run queues once. It holds a search
//! count from then on, also where the search moved nothing, until it leaves the search or parks. So
//! a searcher is in one of four states: withdrawn or published, and with a count or without. Each
//! call says in which it may be made. What it reaches of the pool, and its own run queue, are lent
//! to each call. Ports the `Searcher` of `commonware_runtime`'s `iouring::idle`.

ghost use Rattle.std.specs.Prelude.{◌≡◌, ◌+◌, ◌*◌, ◌%◌, ◌<◌, ◌≤◌, ◌⊎◌, true, false, IsTrue, IsFalse};
ghost use Rattle.exec_base.specs.Io.{Rose};
ghost use Rattle.exec_live_idle.specs.{Idle.{knows, IsSeatOf, IsSame}, Plays.{published, counted}, Search.{counts_of, MaySearch, Scans, Skips}};

use crate::backlog::Backlog;
use crate::seat::{FreeSeat, Idle, IdleSeat};
use exec_words::generator::stirred;
use exec_words::idle::Park;
use std::sync::Wait;

/// A worker's part in searching and parking: its seat at the idle set, whether it holds a search
/// count, and where its next search starts.
pub struct Searcher<'a> {
    pub(crate) idle: &'a Idle,
    pub(crate) seat: IdleSeat,
    pub(crate) searching: bool,
    rng: u32,
    ghost seated: { IsSeatOf idle.now seat },
    ghost worker: { (knows seat).number < (knows seat).workers },
    ghost held: { (knows seat).held ≡ counts_of searching },
}

impl<'a> Searcher<'a> {
    /// The part of the worker whose seat this is. It isn't published, and holds no count. The caller
    /// must give a seat of this idle set and of a worker, which hasn't published and holds no count.
    pub fn new(idle: &'a Idle, seat: IdleSeat) -> Self
        requires at { IsSeatOf idle.now seat }
        requires worker { (knows seat).number < (knows seat).workers }
        requires unpublished { (knows seat).published ≡ false }
        requires free { (knows seat).held ≡ 0 }
        ensures seat { result.seat ≡ seat }
        ensures start { result.rng ≡ (knows seat).number + 1 }
    {
        let rng = seat.number() as u32 + 1;
        Searcher {
            idle,
            seat,
            searching: false,
            rng,
        }
    }

    /// Gives the seat back. The caller must have ended a publication, and left the search.
    pub fn into_seat(self) -> FreeSeat
        requires unpublished { (knows self.seat).published ≡ false }
        requires free { (knows self.seat).held ≡ 0 }
        ensures { result.place ≡ self.entry.seat.place }
    {
        let Searcher {
            idle: _,
            seat,
            searching: _,
            rng: _,
        } = self;
        seat.leave()
    }

    /// Whether the worker holds a search count.
    pub fn is_searching(&self) -> bool
        ensures { counts_of result ≡ (knows self.now.seat).held }
    {
        self.searching
    }

    /// Goes over the other run queues once, and moves half of the first backlog that it finds into
    /// the worker's own. Answers whether it moved any. A worker that holds no count takes one first,
    /// unless half of the workers search already; it stays held until the worker leaves the search
    /// or parks. One worker alone doesn't search. It may wait, where a steal does. The caller must have
    /// ended a publication, and give the backlog of a pool of as many workers as the idle set's.
    pub fn search<R: Wait, B: Backlog>(&mut self, rt: &R, backlog: &mut B) -> bool
        requires unpublished { (knows self.old.seat).published ≡ false }
        requires pool { B.pool backlog.old ≡ (knows self.old.seat).workers }
        ensures idle { self.new.idle ≡ self.old.idle }
        ensures seat { IsSame self.old.seat self.new.seat }
        ensures pool { B.pool backlog.new ≡ B.pool backlog.old }
        ensures moved { IsTrue result → Scans B.steals (knows self.old.seat) backlog.old self.old.rng
            true (knows self.new.seat) backlog.new self.new.rng }
        ensures dry { IsFalse result
            → Skips (knows self.old.seat) backlog.old self.old.rng
            (knows self.new.seat) backlog.new self.new.rng
            ⊎ (Scans B.steals (knows self.old.seat) backlog.old self.old.rng
            false (knows self.new.seat) backlog.new self.new.rng
            × Rose (B.dry backlog.old) (B.dry backlog.new)) }
    {
        let workers = backlog.workers();
        if workers == 1 || !self.may_search(workers) {
            return false;
        }
        self.rng = stirred(self.rng);
        backlog.steal(rt, self.rng as usize % workers)
    }

    /// Whether the worker holds a count to search with. It takes one where it has none, unless half
    /// of the workers search already: the load and the step that adds it are two.
    fn may_search(&mut self, workers: usize) -> bool
        requires { (knows self.old.seat).workers ≡ workers }
        ensures idle { self.new.idle ≡ self.old.idle }
        ensures seat { IsSame self.old.seat self.new.seat }
        ensures rng { self.new.rng ≡ self.old.rng }
        ensures may { IsTrue result → MaySearch (knows self.old.seat) (knows self.new.seat) }
        ensures may_not { IsFalse result
            → ((knows self.old.seat).held ≡ 0)
            × (knows self.new.seat ≡ counted (knows self.old.seat) (knows self.new.seat).saw)
            × (workers ≤ 2 * (knows self.new.seat).saw) }
    {
        if self.searching {
            return true;
        }
        let count = self.idle.count(&mut self.seat);
        if count >= (workers as u64).div_ceil(2) {
            return false;
        }
        self.idle.add(&mut self.seat);
        self.searching = true;
        true
    }
}
