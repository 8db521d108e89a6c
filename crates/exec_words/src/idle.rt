//! Which workers of a pool are about to sleep, and how many search for work.
//!
//! A worker that finds nothing to do publishes itself: its number goes into the set. Whoever has work for it claims it
//! then, by an exchange of the set for one without its lowest number, and hands it a search count. A worker that runs
//! again withdraws: where its number is gone, it was claimed, and holds the claimer's count.
//!
//! A search count is the duty to look for work, or to hand that duty on. A worker that begins a
//! search adds one, a wake reserves one before its claim, and who is done subtracts one and is told
//! whether it was the last. A worker that would wake only the first searcher exchanges 0 to 1.
//!
//! Set and count are two words, and each call is one operation on one of them. Ports the `Idle` of
//! `commonware_runtime`'s `iouring::idle`, whose loops make these steps.

ghost use Rattle.std.specs.Prelude.{◌≡◌, ◌+◌, ◌-◌, ◌<◌, ◌^◌, ◌↔◌, IsOk, IfOk, OnOk, IfErr, OnErr, IsSome, Some, true, false, replicate, slice_set, position};
ghost use Rattle.exec_words.specs.Idle.{is_in, lowest_of};

use super::MAX_WORKERS;
use std::marker::Model;

/// What a worker does after its last look.
#[derive(Clone, Copy, Debug, PartialEq, Eq)]
pub enum Park {
    /// No work was seen, or another's search count covers it: wait for a wake.
    Wait,
    /// The global queue isn't empty: run again.
    Run,
    /// Another run queue can be stolen from, and the worker holds a count: search.
    Search,
}

/// A set of workers of a pool.
#[derive(Clone, Copy, Debug, PartialEq, Eq)]
pub struct WorkerSet {
    /// Which workers are in it, by their numbers.
    pub has: [bool; MAX_WORKERS],
}

impl WorkerSet {
    /// The lowest number in the set. None where it is empty.
    pub fn lowest(&self) -> Option<usize>
        ensures { result ≡ lowest_of self.now.has }
    {
        self.has.iter().position(|is_in| *is_in)
    }
}

/// The idle set and the search count of a pool. No call takes memory.
#[derive(Drop)]
pub struct PureIdle {
    set: WorkerSet,
    count: usize,
}

impl Model for PureIdle {
    ghost use Rattle.exec_words.specs.Idle.{Idle};

    ghost Value = { Idle };

    ghost view = { λ i. record { published = i.set.has; count = i.count } };
}

impl PureIdle {
    /// No worker is published, and none searches.
    pub fn new() -> Self
        ensures { result ≡ record { published = replicate 64 false; count = 0 } }
    {
        PureIdle {
            set: WorkerSet {
                has: [false; MAX_WORKERS],
            },
            count: 0,
        }
    }

    /// Publishes a worker: the or of its bit into the set. The caller must name a number below 64.
    pub fn publish(&mut self, worker: usize)
        requires { worker < 64 }
        ensures { self.new ≡ record self.old { published = slice_set self.old.published worker true } }
    {
        self.set.has[worker] = true;
    }

    /// Withdraws a worker: the and of its bit out of the set. Answers whether it was still there;
    /// where it was gone, a claim took it. The caller must name a number below 64.
    pub fn withdraw(&mut self, worker: usize) -> bool
        requires { worker < 64 }
        ensures found { result ≡ is_in self.old.published worker }
        ensures withdrawn { self.new ≡ record self.old { published = slice_set self.old.published worker false } }
    {
        let found = self.set.has[worker];
        self.set.has[worker] = false;
        found
    }

    /// Loads the set.
    pub fn set(&self) -> WorkerSet
        ensures { result.has ≡ self.now.published }
    {
        self.set
    }

    /// A claim: exchanges the set for one without its lowest worker, and answers that worker. Err
    /// with the set that was found where it isn't `seen`. The caller must have seen a worker.
    #[tactic(auto, using(crate::proofs::Sets::same_sets, crate::proofs::Sets::other_sets))]
    pub fn claim_exchange(&mut self, seen: &WorkerSet) -> Result<usize, WorkerSet>
        requires { IsSome (lowest_of seen.now.has) }
        ensures same { IsOk result ↔ (self.old.published ≡ seen.now.has) }
        ensures lowest { IfOk result (λ worker. lowest_of self.old.published ≡ Some worker) }
        ensures claimed { IfOk result (λ worker. self.new
            ≡ record self.old { published = slice_set self.old.published worker false }) }
        ensures found { IfErr result (λ set. set.has ≡ self.old.published) }
        ensures kept { OnErr result (self.new ≡ self.old) }
    {
        if self.set != *seen {
            return Err(self.set);
        }
        let Some(lowest) = seen.lowest() else {
            unreachable!();
        };
        self.set.has[lowest] = false;
        Ok(lowest)
    }

    /// Loads the search count.
    pub fn count(&self) -> usize
        ensures { result ≡ self.now.count }
    {
        self.count
    }

    /// Adds a search count. The caller must know that the count isn't at its type's end: it is at
    /// most the number of those that hold one.
    pub fn add(&mut self)
        requires { self.old.count + 1 < 2 ^ 64 }
        ensures { self.new ≡ record self.old { count = self.old.count + 1 } }
    {
        self.count += 1;
    }

    /// Subtracts a search count, and answers the count that it found: 1 where this was the last.
    /// The caller must hold one.
    pub fn subtract(&mut self) -> usize
        requires { 0 < self.old.count }
        ensures found { result ≡ self.old.count }
        ensures subtracted { self.new ≡ record self.old { count = self.old.count - 1 } }
    {
        let found = self.count;
        self.count -= 1;
        found
    }

    /// Exchanges the count 0 to 1. Err with the count that was found where it isn't 0.
    pub fn count_exchange(&mut self) -> Result<(), usize>
        ensures none { IsOk result ↔ (self.old.count ≡ 0) }
        ensures first { OnOk result (self.new ≡ record self.old { count = 1 }) }
        ensures found { IfErr result (λ count. count ≡ self.old.count) }
        ensures kept { OnErr result (self.new ≡ self.old) }
    {
        if self.count != 0 {
            return Err(self.count);
        }
        self.count = 1;
        Ok(())
    }
}
