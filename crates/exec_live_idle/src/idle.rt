//! The calls on an idle set, each by a seat.
//!
//! A worker's seat publishes and withdraws its worker. Any seat adds, returns and hands over search
//! counts: what it holds is a number in its view, and each call asks for what it takes. A claim may
//! wait, since an exchange that is lost is tried again; each other call is one atomic step. Each step
//! is a call of `exec_words`' `PureIdle`. What it does to the word that it found its play says
//! (`specs/Plays.antt`), by one of four transitions; `laws` says that the call does the same.
//!
//! | Step | Call of `PureIdle` | Transition |
//! |---|---|---|
//! | `set_bit` | `publish` | `publish` |
//! | `withdraw` | `withdraw` | `withdraw` |
//! | `claim_exchange` | `claim_exchange` | `withdraw` of the lowest worker, or none where it is lost |
//! | `look` | `set` | none |
//! | `add` | `add` | `add` |
//! | `subtract`, which answers whether the count found was 1 | `subtract` | `subtract` |
//! | `add_first`, which answers whether the count found was 0 | `count_exchange` | `add`, or none where it is lost |
//! | `count` | `count` | none |
//!
//! Ports the `Idle` of `commonware_runtime`'s `iouring::idle`.

ghost use Rattle.std.specs.Prelude.{◌≡◌, ◌≢◌, ◌+◌, ◌<◌, ◌≤◌, ◌↔◌, IsTrue, true, false, Some, IfOk, IfErr, IfSome, IfNone};
ghost use Rattle.crossbeam_utils.specs.Padded.{padded_value};
ghost use Rattle.exec_words.specs.Idle.{is_in, lowest_of};
ghost use Rattle.exec_live_idle.specs.{Idle.{knows, IsSeatOf, IsSame, Becomes}, Live.{first_view, next_number, own_number, with_counts}, Plays.{published, looked, withdrawn, claimed, counted, taken, begun, returned}, Words.set_of};

use crate::plays::{Add, Begin, Claim, Look, Next, Publish, Read, Subtract, TakeOver, Withdraw};
use crate::seat::{Idle, IdleSeat};
use crate::view::Words;
use crate::{COUNT, SET};
use atomic_table::Table;
use crossbeam_utils::CachePadded;
use std::alloc::{AllocError, Global};
use std::sync::Wait;

impl Idle {
    /// No worker is published, and none searches. The seat is the first, from which the others are
    /// made. The caller must have at most `MAX_WORKERS` workers. Err where there is no memory.
    #[tactic(auto, using(crate::proofs::Allowed::opens))]
    pub fn new(alloc: Global, workers: usize) -> Result<(Idle, IdleSeat), AllocError>
        requires { workers ≤ 64 }
        ensures seat { IfOk result (λ made. IsSeatOf made.0 made.1) }
        ensures view { IfOk result (λ made. knows made.1 ≡ first_view workers) }
    {
        let (table, place) = Table::of_words(alloc, &[0, 0], &(workers as u64))?;
        let idle = Idle {
            words: CachePadded::new(table),
        };
        Ok((idle, IdleSeat { place, number: 0 }))
    }

    /// The words, as threads share them.
    fn shared(&self) -> &Words
        ensures table { result.now.table_id ≡ (padded_value self.now.words).shared.table_id }
        ensures two { result.now.table_id.words ≡ 2 }
    {
        &self.words.shared
    }

    /// Makes a seat of the number that this seat has, which goes on with the next number. The caller
    /// must give a seat of this set, which hasn't published and has a number beyond.
    #[tactic(auto, using(crate::proofs::Allowed::make_))]
    pub fn seat(&self, first: &mut IdleSeat) -> IdleSeat
        requires at { IsSeatOf self.now first.old }
        requires unpublished { (knows first.old).published ≡ false }
        requires more { (knows first.old).number + 1 < (knows first.old).end }
        ensures left { Becomes first.old first.new (next_number (knows first.old)) }
        ensures at { IsSeatOf self.now result }
        ensures right { knows result ≡ own_number (knows first.old) }
    {
        let number = first.number;
        let place = self.shared().split_seat::<Next>(&mut first.place);
        first.number += 1;
        IdleSeat { place, number }
    }

    /// Takes over the search counts of another seat, whose number is gone then. The caller must give
    /// two seats of this set, which hold two counts at most together; the other must not have published.
    #[tactic(auto, using(crate::proofs::Allowed::join_))]
    pub fn join(&self, seat: &mut IdleSeat, other: IdleSeat)
        requires at { IsSeatOf self.now seat.old }
        requires other { IsSeatOf self.now other }
        requires unpublished { (knows other).published ≡ false }
        requires room { (knows seat.old).held + (knows other).held ≤ 2 }
        ensures { Becomes seat.old seat.new (with_counts (knows seat.old) (knows other)) }
    {
        let IdleSeat { place, number: _ } = other;
        self.shared().join_seat::<TakeOver>(&mut seat.place, place);
    }

    /// Publishes the worker of the seat: the or of its bit into the set. The caller must give a
    /// worker's seat of this set, which hasn't published.
    pub fn set_bit(&self, seat: &mut IdleSeat)
        requires at { IsSeatOf self.now seat.old }
        requires worker { (knows seat.old).number < (knows seat.old).workers }
        requires unpublished { (knows seat.old).published ≡ false }
        ensures { Becomes seat.old seat.new (published (knows seat.old)) }
    {
        self.shared()
            .fetch_or::<Publish>(&mut seat.place, SET, 1 << seat.number);
    }

    /// Withdraws the worker of the seat: the and of its bit out of the set. Answers whether its bit
    /// was still there; where it was gone, a claim took it, and the seat holds the claimer's count.
    /// The caller must give a worker's seat of this set, which has published and holds at most one
    /// count.
    pub fn withdraw(&self, seat: &mut IdleSeat) -> bool
        requires at { IsSeatOf self.now seat.old }
        requires worker { (knows seat.old).number < (knows seat.old).workers }
        requires published { (knows seat.old).published ≡ true }
        requires room { (knows seat.old).held < 2 }
        ensures { Becomes seat.old seat.new (withdrawn (knows seat.old) result) }
    {
        let found = self
            .shared()
            .fetch_and::<Withdraw>(&mut seat.place, SET, !(1 << seat.number));
        is_in_word(found, seat.number)
    }

    /// Claims the lowest published worker, and hands a search count over to it. None where the set
    /// was found empty. It may wait, since an exchange that is lost is tried again. The caller must
    /// give a seat of this set, which holds a count.
    pub fn claim(&self, rt: &impl Wait, seat: &mut IdleSeat) -> Option<usize>
        requires at { IsSeatOf self.now seat.old }
        requires holds { 0 < (knows seat.old).held }
        ensures same { IsSame seat.old seat.new }
        ensures pool { IfSome result (λ worker. worker < (knows seat.old).workers) }
        ensures claimed { IfSome result (λ worker. knows seat.new
            ≡ claimed (knows seat.old) worker) }
        ensures none { IfNone result (knows seat.new ≡ looked (knows seat.old) 0) }
    {
        let seen = self.look(seat);
        if seen == 0 {
            return None;
        }
        self.claim_from(rt, seat, seen)
    }

    /// A claim that begins with a set that was seen. The caller must give a seat of this set, which
    /// holds a count, and a set that isn't empty.
    pub(crate) fn claim_from(
        &self,
        rt: &impl Wait,
        seat: &mut IdleSeat,
        mut seen: u64,
    ) -> Option<usize>
        requires at { IsSeatOf self.now seat.old }
        requires holds { 0 < (knows seat.old).held }
        requires some { 0 < seen }
        ensures same { IsSame seat.old seat.new }
        ensures pool { IfSome result (λ worker. worker < (knows seat.old).workers) }
        ensures claimed { IfSome result (λ worker. knows seat.new
            ≡ claimed (knows seat.old) worker) }
        ensures none { IfNone result (knows seat.new ≡ looked (knows seat.old) 0) }
    {
        for _ in rt.forever() {
            match self.claim_exchange(seat, seen) {
                Ok(worker) => return Some(worker),
                Err(found) if found == 0 => return None,
                Err(found) => seen = found,
            }
        }
        unreachable!()
    }

    /// The step of a claim: exchanges the set for one without its lowest worker, and answers that
    /// worker. Err with the set that was found where it isn't `seen`, and nothing changes then. The
    /// caller must give a seat of this set, which holds a count, and a set that isn't empty.
    #[tactic(auto, using(crate::proofs::Allowed::claim_, crate::proofs::Sets::lowest_in))]
    pub fn claim_exchange(&self, seat: &mut IdleSeat, seen: u64) -> Result<usize, u64>
        requires at { IsSeatOf self.now seat.old }
        requires holds { 0 < (knows seat.old).held }
        requires some { 0 < seen }
        ensures same { IsSame seat.old seat.new }
        ensures lowest { IfOk result (λ worker. lowest_of (set_of seen) ≡ Some worker) }
        ensures pool { IfOk result (λ worker. worker < (knows seat.old).workers) }
        ensures view { IfOk result (λ worker. knows seat.new
            ≡ claimed (knows seat.old) worker) }
        ensures found { IfErr result (λ found. found ≢ seen) }
        ensures kept { IfErr result (λ found. knows seat.new ≡ looked (knows seat.old) found) }
    {
        let worker = seen.trailing_zeros() as usize;
        let left = seen & !(1 << worker);
        let found = self
            .shared()
            .compare_exchange::<Claim>(&mut seat.place, SET, seen, left);
        if found == seen {
            Ok(worker)
        } else {
            Err(found)
        }
    }

    /// Loads the set, as a word. The caller must give a seat of this set.
    pub fn look(&self, seat: &mut IdleSeat) -> u64
        requires { IsSeatOf self.now seat.old }
        ensures { Becomes seat.old seat.new (looked (knows seat.old) result) }
    {
        self.shared().load::<Look>(&mut seat.place, SET)
    }

    /// Loads the search count. The caller must give a seat of this set.
    pub fn count(&self, seat: &mut IdleSeat) -> u64
        requires { IsSeatOf self.now seat.old }
        ensures { Becomes seat.old seat.new (counted (knows seat.old) result) }
    {
        self.shared().load::<Read>(&mut seat.place, COUNT)
    }

    /// Adds a search count, which the seat holds then. The caller must give a seat of this set, which
    /// holds at most one.
    pub fn add(&self, seat: &mut IdleSeat)
        requires at { IsSeatOf self.now seat.old }
        requires room { (knows seat.old).held < 2 }
        ensures { Becomes seat.old seat.new (taken (knows seat.old) (knows seat.new).took) }
    {
        self.shared().fetch_add::<Add>(&mut seat.place, COUNT, 1);
    }

    /// Returns a search count, and answers whether this was the last. The caller must give a seat of
    /// this set, which holds one.
    pub fn subtract(&self, seat: &mut IdleSeat) -> bool
        requires at { IsSeatOf self.now seat.old }
        requires holds { 0 < (knows seat.old).held }
        ensures last { IsTrue result ↔ ((knows seat.new).saw ≡ 0) }
        ensures view { Becomes seat.old seat.new (returned (knows seat.old) (knows seat.new).saw) }
    {
        let found = self
            .shared()
            .fetch_sub::<Subtract>(&mut seat.place, COUNT, 1);
        found == 1
    }

    /// Adds a search count where there is none, and answers whether it did. The caller must give a
    /// seat of this set, which holds at most one.
    #[tactic(auto, using(crate::proofs::Allowed::begin_))]
    pub fn add_first(&self, seat: &mut IdleSeat) -> bool
        requires at { IsSeatOf self.now seat.old }
        requires room { (knows seat.old).held < 2 }
        ensures first { IsTrue result ↔ ((knows seat.new).saw ≡ 0) }
        ensures view { Becomes seat.old seat.new (begun (knows seat.old) (knows seat.new).saw result) }
    {
        let found = self
            .shared()
            .compare_exchange::<Begin>(&mut seat.place, COUNT, 0, 1);
        found == 0
    }
}

/// Whether a set's word has this worker.
#[tactic(auto, using(crate::proofs::Sets::in_word))]
fn is_in_word(word: u64, worker: u64) -> bool
    requires { worker < 64 }
    ensures { result ≡ is_in (set_of word) worker }
{
    word >> worker & 1 == 1
}
