//! A worker of a fake pool, which remembers whether it is parked.

ghost use Rattle.std.specs.Prelude.{◌≡◌, ◌≤◌, ◌<◌, false, IsTrue, OnOk};
ghost use Rattle.exec_live_idle.specs.Idle.{knows, IsSeatOf};

use crate::fault::Fault;
use crate::pool::Pool;
use exec_live_idle::searcher::Searcher;
use exec_live_idle::seat::{Idle, IdleSeat};
use exec_words::idle::Park;
use std::alloc::Global;
use std::sync::Wait;

/// A worker with its searcher.
pub struct Player<'a> {
    searcher: Searcher<'a>,
    number: usize,
    workers: usize,
    parked: bool,
    ghost known: { (knows searcher.seat).published ≡ parked },
    ghost free: { IsTrue parked → (knows searcher.seat).held ≡ 0 },
    ghost pool: { (knows searcher.seat).workers ≡ workers },
    ghost few: { workers ≤ 64 },
}

impl<'a> Player<'a> {
    /// The worker of this seat.
    pub fn new(idle: &'a Idle, seat: IdleSeat, workers: usize) -> Self
        requires at { IsSeatOf idle.now seat }
        requires worker { (knows seat).number < (knows seat).workers }
        requires unpublished { (knows seat).published ≡ false }
        requires free { (knows seat).held ≡ 0 }
        requires pool { ((knows seat).workers ≡ workers) × (workers ≤ 64) }
    {
        let number = seat.number() as usize;
        Player {
            searcher: Searcher::new(idle, seat),
            number,
            workers,
            parked: false,
        }
    }

    /// The worker's turn to act.
    fn turn(&self, pool: &mut Pool) -> Result<(), Fault>
        ensures same { pool.new.bell ≡ pool.old.bell }
        ensures pool { OnOk result (pool.new.bell.workers ≡ self.now.workers) }
        ensures up { OnOk result (self.now.parked ≡ false) }
    {
        if self.parked || pool.bell.workers != self.workers {
            return Err(Fault::Condition);
        }
        pool.own = self.number;
        Ok(())
    }

    /// The worker's last look.
    pub fn park<R: Wait>(&mut self, rt: &R, pool: &mut Pool) -> Result<Park, Fault>
        ensures { pool.new.bell.workers ≡ pool.old.bell.workers }
    {
        self.turn(pool)?;
        let park = self.searcher.prepare_park(rt, pool);
        self.parked = match park {
            Park::Wait => true,
            Park::Run => false,
            Park::Search => false,
        };
        Ok(park)
    }

    /// Whether it looks and searches to a run.
    pub fn look<R: Wait>(&mut self, rt: &R, pool: &mut Pool) -> Result<bool, Fault>
        ensures { pool.new.bell.workers ≡ pool.old.bell.workers }
    {
        self.turn(pool)?;
        let runs = self.searcher.publish_and_look(rt, pool);
        self.parked = !runs;
        Ok(runs)
    }

    /// A search.
    pub fn search<R: Wait>(&mut self, rt: &R, pool: &mut Pool) -> Result<(), Fault>
        ensures { pool.new.bell.workers ≡ pool.old.bell.workers }
    {
        self.turn(pool)?;
        self.searcher.search(rt, pool);
        Ok(())
    }

    /// The end of a search.
    pub fn leave<R: Wait>(&mut self, rt: &R, pool: &mut Pool) -> Result<(), Fault>
        ensures { pool.new.bell.workers ≡ pool.old.bell.workers }
    {
        self.turn(pool)?;
        self.searcher.leave_search(rt, pool);
        Ok(())
    }

    /// The end of a park: whether a claim brought a count.
    pub fn finish(&mut self) -> Result<bool, Fault> {
        if !self.parked {
            return Err(Fault::Condition);
        }
        self.searcher.finish_park();
        self.parked = false;
        Ok(self.searcher.is_searching())
    }

    /// Ends the worker, whatever state it is in, when its pool has gone.
    pub fn end<R: Wait>(self, rt: &R, alloc: Global) {
        let Player {
            mut searcher,
            number: _,
            workers,
            parked,
        } = self;
        if parked {
            searcher.finish_park();
        }
        searcher.leave_search(rt, &mut Pool::new(alloc, workers));
        drop(searcher.into_seat());
    }
}
