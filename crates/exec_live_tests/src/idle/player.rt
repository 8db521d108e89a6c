//! A worker of a fake pool, which remembers whether it is parked.

ghost use Rattle.std.specs.Prelude.{◌≡◌, ◌<◌, true, false, IsTrue};
ghost use Rattle.exec_live_idle.specs.Idle.{knows};

use super::fake::FakePool;
use crate::found::holds;
use exec_live_idle::searcher::Searcher;
use exec_words::idle::Park;
use std::process::Abort;
use std::sync::Wait;

/// A worker with its searcher.
pub struct Player<'a> {
    pub searcher: Searcher<'a>,
    pub number: usize,
    pub workers: usize,
    pub parked: bool,
    ghost known: { (knows searcher.seat).published ≡ parked },
    ghost free: { IsTrue parked → (knows searcher.seat).held ≡ 0 },
    ghost pool: { (knows searcher.seat).workers ≡ workers },
}

impl<'a> Player<'a> {
    /// The worker's turn to act.
    fn turn<R: Abort>(&self, rt: &R, pool: &mut FakePool)
        ensures pool { pool.new.bell.workers ≡ self.now.workers }
        ensures up { self.now.parked ≡ false }
    {
        holds!(rt; !self.parked && pool.bell.workers == self.workers);
        pool.own = self.number;
    }

    pub fn park<R: Wait + Abort>(&mut self, rt: &R, pool: &mut FakePool) -> Park {
        self.turn(rt, pool);
        let park = self.searcher.prepare_park(rt, pool);
        self.parked = match park {
            Park::Wait => true,
            Park::Run => false,
            Park::Search => false,
        };
        park
    }

    /// Whether it looks to a run.
    pub fn look<R: Wait + Abort>(&mut self, rt: &R, pool: &mut FakePool) -> bool {
        self.turn(rt, pool);
        let runs = self.searcher.publish_and_look(rt, pool);
        self.parked = !runs;
        runs
    }

    pub fn search<R: Wait + Abort>(&mut self, rt: &R, pool: &mut FakePool) -> bool {
        self.turn(rt, pool);
        self.searcher.search(rt, pool)
    }

    pub fn leave<R: Wait + Abort>(&mut self, rt: &R, pool: &mut FakePool) {
        self.turn(rt, pool);
        self.searcher.leave_search(rt, pool);
    }

    /// Whether a claim brought a count.
    pub fn finish<R: Abort>(&mut self, rt: &R) -> bool {
        holds!(rt; self.parked);
        self.searcher.finish_park();
        self.parked = false;
        self.searcher.is_searching()
    }

    /// Ends a worker that is neither parked nor searches.
    pub fn end<R: Abort>(self, rt: &R) {
        holds!(rt; !self.parked && !self.searcher.is_searching());
        let Player {
            searcher,
            number: _,
            workers: _,
            parked: _,
        } = self;
        drop(searcher.into_seat());
    }
}
