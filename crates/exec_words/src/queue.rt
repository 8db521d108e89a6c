//! The run queue of a worker, as transitions.
//!
//! A run queue holds up to 256 values, the oldest first. One worker owns it: only the owner pushes and pops. Others are
//! thieves, each of which claims the oldest half, moves it away, and releases the claim. What happens between two steps
//! of one party is seen by the next one: each exchange names the head that its party saw; where the head has changed
//! since, it changes nothing, and answers the head that it found.
//!
//! - The owner pops by an exchange (`pop_exchange`). A lone value without a claim it takes by a
//!   store of the head (`pop_last`), since no thief can. Without thieves a pop is one act (`pop`).
//! - The owner publishes one value (`push_fitting`) or several (`publish`) by a store of the tail.
//! - A thief that loaded head and tail claims half of what is between them (`claim_exchange`).
//!   While it moves them their places aren't free: the gap counts them, and those of the owner's
//!   pops past them. The release (`release_exchange`) frees both.
//! - A push into a full queue without a claim flows over (`overflow_exchange`): the newest half goes to the owner's
//!   hand, and the oldest half is kept aside until the owner's next store of the tail (`restore`). In between the queue
//!   is empty to thieves. Each position is counted once more, so no head comes again.
//!
//! Where nobody acts in between, `push` is a whole push of these steps. A queue counts its values: from 2^55 - 512 on
//! it takes no more, and is spent. What a contract sees is in `specs/Queue.antt`. Ports the `Queue` and `Owner` of
//! `commonware_runtime`'s `iouring::queue`, each of whose loops makes these steps.

ghost use Rattle.std.specs.Prelude.{◌≡◌, ◌+◌, ◌-◌, ◌^◌, ◌<◌, ◌≤◌, ◌↔◌, ◌==◌, [], ◌∷◌, length, take, drop, slice_get, IsOk, IfOk, OnOk, IfErr, OnErr, IfNone, OnSome, Some, false, IsTrue};

use super::head::{Fit, Head};
use super::reserved::Reserved;
use super::{CAPACITY, HALF};
use std::alloc::{AllocError, Global};
use std::marker::Model;

/// What a push answers.
#[derive(Debug, PartialEq, Eq, Drop)]
pub enum PushAnswer<T> {
    /// The value was published; the queue had so many then.
    Pushed(usize),
    /// The queue was full: its newest half is in the owner's hand, and this value goes behind it.
    Overflow(T),
    /// No place was free beside a claim: only this value goes elsewhere.
    Claimed(T),
    /// The queue is spent: this value goes elsewhere.
    Spent(T),
}

/// What one try of a steal answers.
#[derive(Clone, Copy, Debug, PartialEq, Eq)]
pub enum Steal {
    /// So many values moved into the thief's queue.
    Moved(usize),
    /// There was nothing to take, a claim was held, or the thief's queue had fewer than 128 places free.
    Nothing,
    /// The head has changed since it was loaded: this one was found.
    Again(Head),
}

/// A run queue. No call but a maker takes memory.
#[derive(Drop)]
pub struct PureQueue<T> {
    values: Reserved<T>,
    // What the owner keeps aside in the middle of an overflow.
    held: Reserved<T>,
    real: u64,
    gap: usize,
}

impl<T> Model for PureQueue<T> {
    ghost use Rattle.exec_words.specs.Queue.{Queue, IsLaidOut};

    ghost Value = { Queue T };

    ghost view = { λ q. record {
      real = q.real;
      gap = q.gap;
      values = q.values.values;
      held = q.held.values;
    } };

    ghost invariant = { λ q. IsLaidOut q.values q.held q.real q.gap };
}

impl<T> PureQueue<T> {
    ghost use Rattle.exec_words.specs.{Head.claim_at, Head.is_spent, Reserved.extended, Reserved.spare};
    ghost use Rattle.exec_words.specs.Queue.{head_of, tail_of, room_of, fit_of, push_answer, after_push, handed_out, popped, claimed, released, published, overflowed, newest, restored};

    /// An empty queue whose first value gets the count `real`. The caller must take one, mostly 0,
    /// that isn't past the count at which a queue is spent. An `Err` comes only for want of memory.
    pub fn at(alloc: Global, real: u64) -> Result<Self, AllocError>
    where
        T: Drop,
        requires { real ≤ 2 ^ 55 - 512 }
        ensures { IfOk result (λ q. q ≡ record { real = real; gap = 0; values = []; held = [] }) }
    {
        let values = Reserved::with_places(alloc, CAPACITY)?;
        let held = Reserved::with_places(alloc, CAPACITY)?;
        Ok(PureQueue {
            values,
            held,
            real,
            gap: 0,
        })
    }

    /// Loads the head.
    pub fn head(&self) -> Head
        ensures head { result ≡ head_of self.now }
        ensures within { length self.now.values + self.now.gap ≤ 256 }
    {
        Head {
            real: self.real,
            gap: self.gap,
        }
    }

    /// Loads the tail: the count one past the last value.
    pub fn tail(&self) -> u64
        ensures { result ≡ tail_of self.now }
    {
        self.real + self.values.len() as u64
    }

    /// How many values there are, those of a claim not among them.
    pub fn len(&self) -> usize
        ensures { result ≡ length self.now.values }
    {
        self.values.len()
    }

    /// Whether its owner is in the middle of no overflow.
    pub fn is_whole(&self) -> bool
        ensures { IsTrue result ↔ (self.now.held ≡ []) }
    {
        self.held.is_empty()
    }

    /// How many more values fit. 0 where the queue is spent.
    pub fn room(&self) -> usize
        ensures { result ≡ room_of self.now }
    {
        self.head().room(self.tail())
    }

    /// The owner's pop by an exchange of the head. Err with the head that was found where it isn't
    /// `seen`. The caller must have seen a value: the tail is past the head that it saw.
    pub fn pop_exchange(&mut self, seen: Head) -> Result<T, Head>
        requires { seen.real < tail_of self.old }
        ensures same { IsOk result ↔ (head_of self.old ≡ seen) }
        ensures value { IfOk result (λ x. slice_get self.old.values 0 ≡ Some x) }
        ensures popped { OnOk result (self.new ≡ popped self.old) }
        ensures found { IfErr result (λ head. head ≡ head_of self.old) }
        ensures kept { OnErr result (self.new ≡ self.old) }
    {
        if self.head() != seen {
            return Err(self.head());
        }
        Ok(self.pop_front())
    }

    // Takes the front value. A pop beside a claim raises the gap.
    fn pop_front(&mut self) -> T
        requires { 0 < length self.old.values }
        ensures value { slice_get self.old.values 0 ≡ Some result }
        ensures popped { self.new ≡ popped self.old }
    {
        let gap = self.gap;
        self.real += 1;
        self.gap = if gap == 0 { 0 } else { gap + 1 };
        match self.values.pop() {
            Some(value) => value,
            None => unreachable!(),
        }
    }

    /// The owner's pop of a lone value by a store of the head. The caller must know that there is
    /// one value, and no claim.
    pub fn pop_last(&mut self) -> T
        requires lone { length self.old.values ≡ 1 }
        requires unclaimed { self.old.gap ≡ 0 }
        ensures value { slice_get self.old.values 0 ≡ Some result }
        ensures popped { self.new ≡ popped self.old }
    {
        self.pop_front()
    }

    /// The owner's pop in one action, in a queue without thieves or where none acts. None where the
    /// queue is empty, and nothing changes then.
    pub fn pop(&mut self) -> Option<T>
        ensures value { result ≡ slice_get self.old.values 0 }
        ensures popped { OnSome result (self.new ≡ popped self.old) }
        ensures kept { IfNone result (self.new ≡ self.old) }
    {
        if self.values.is_empty() {
            return None;
        }
        Some(self.pop_front())
    }

    /// The owner's push of a value that fits, by a store of the tail. The caller must have room,
    /// and be in the middle of no overflow.
    pub fn push_fitting(&mut self, value: T)
        requires room { 0 < room_of self.old }
        requires whole { self.old.held ≡ [] }
        ensures { self.new ≡ published self.old (value ∷ []) }
    {
        self.values.push(value);
    }

    /// Publishes the first `count` values of a list behind the other values, by one store of the tail. The caller must
    /// have so many there, and room for them, and be in the middle of no overflow.
    pub fn publish(&mut self, count: usize, from: &mut Reserved<T>)
        requires has { count ≤ length from.old.values }
        requires room { count ≤ room_of self.old }
        requires whole { self.old.held ≡ [] }
        ensures published { self.new ≡ published self.old (take count from.old.values) }
        ensures left { from.new ≡ record from.old { values = drop count from.old.values } }
    {
        from.move_front(count, &mut self.values);
    }

    /// A thief's claim by an exchange of the head: half of the values up to the tail that it saw,
    /// rounded down, go into its hand, the oldest first. Answers how many. Err with the head that
    /// was found where it isn't `seen`. The caller must have loaded `tail` from this queue after
    /// `seen`, have seen no claim and at least two values, and have 128 places in its hand.
    pub fn claim_exchange(
        &mut self,
        seen: Head,
        tail: u64,
        hand: &mut Reserved<T>,
    ) -> Result<usize, Head>
        requires unclaimed { seen.gap ≡ 0 }
        requires stealable { seen.real + 2 ≤ tail }
        requires past { tail ≤ tail_of self.old }
        requires places { 128 ≤ spare hand.old }
        ensures same { IsOk result ↔ (head_of self.old ≡ seen) }
        ensures half { IfOk result (λ count. count ≡ claim_at seen tail) }
        ensures claimed { OnOk result (self.new ≡ claimed self.old (claim_at seen tail)) }
        ensures moved { OnOk result (hand.new ≡ extended hand.old (take (claim_at seen tail) self.old.values)) }
        ensures found { IfErr result (λ head. head ≡ head_of self.old) }
        ensures kept { OnErr result (self.new ≡ self.old) }
        ensures hand_kept { OnErr result (hand.new ≡ hand.old) }
    {
        if self.head() != seen {
            return Err(self.head());
        }
        let count = seen.len(tail) / 2;
        self.values.move_front(count, hand);
        self.real += count as u64;
        self.gap = count;
        Ok(count)
    }

    /// The release of a claim by an exchange of the head: its places are free again, and those of
    /// the pops past it. Err with the head that was found where it isn't `seen`.
    pub fn release_exchange(&mut self, seen: Head) -> Result<(), Head>
        ensures same { IsOk result ↔ (head_of self.old ≡ seen) }
        ensures released { OnOk result (self.new ≡ released self.old) }
        ensures found { IfErr result (λ head. head ≡ head_of self.old) }
        ensures kept { OnErr result (self.new ≡ self.old) }
    {
        if self.head() != seen {
            return Err(self.head());
        }
        self.gap = 0;
        Ok(())
    }

    /// The beginning of an overflow by an exchange of the head: the newest half goes into the owner's hand, the oldest
    /// first, and the oldest half is kept aside until `restore`. Err with the head that was found where it isn't
    /// `seen`. The caller must have seen a full queue without a claim that isn't spent, be in the middle of no other
    /// overflow, and have 128 places in its hand.
    pub fn overflow_exchange(&mut self, seen: Head, hand: &mut Reserved<T>) -> Result<(), Head>
        requires full { seen.real + 256 ≡ tail_of self.old }
        requires unspent { is_spent (tail_of self.old) ≡ false }
        requires whole { self.old.held ≡ [] }
        requires places { 128 ≤ spare hand.old }
        ensures same { IsOk result ↔ (head_of self.old ≡ seen) }
        ensures overflowed { OnOk result (self.new ≡ overflowed self.old) }
        ensures handed_out { OnOk result (hand.new ≡ extended hand.old (newest self.old)) }
        ensures found { IfErr result (λ head. head ≡ head_of self.old) }
        ensures kept { OnErr result (self.new ≡ self.old) }
        ensures hand_kept { OnErr result (hand.new ≡ hand.old) }
    {
        if self.head() != seen {
            return Err(self.head());
        }
        self.flow_over(hand);
        Ok(())
    }

    // Takes a full queue apart: the oldest half is kept, the newest half goes into the hand.
    #[tactic(auto, using(crate::proofs::Overflow::unspent_below, crate::proofs::Overflow::half_left, crate::proofs::Overflow::half_taken, crate::proofs::Overflow::half_gone))]
    fn flow_over(&mut self, hand: &mut Reserved<T>)
        requires full { length self.old.values ≡ 256 }
        requires unclaimed { self.old.gap ≡ 0 }
        requires unspent { is_spent (self.old.real + 256) ≡ false }
        requires whole { self.old.held ≡ [] }
        requires places { 128 ≤ spare hand.old }
        ensures overflowed { self.new ≡ overflowed self.old }
        ensures handed_out { hand.new ≡ extended hand.old (newest self.old) }
    {
        self.values.move_front(HALF, &mut self.held);
        let rest = self.values.len();
        self.values.move_front(rest, hand);
        self.real += CAPACITY as u64;
    }

    /// The end of an overflow: publishes the half that was kept, by one store of the tail. The
    /// caller must be in the middle of an overflow, where the queue has no other values.
    pub fn restore(&mut self)
        requires { self.old.values ≡ [] }
        ensures { self.new ≡ restored self.old }
    {
        self.values.swap(&mut self.held);
    }

    /// The owner's push in one action, where nobody acts in between. What an overflow hands out goes into the owner's
    /// hand, the oldest first. The caller must have 128 places there, and be in the middle of no overflow.
    pub fn push(&mut self, value: T, hand: &mut Reserved<T>) -> PushAnswer<T>
        requires whole { self.old.held ≡ [] }
        requires places { 128 ≤ spare hand.old }
        ensures answer { result ≡ push_answer (fit_of self.old) value }
        ensures after { self.new ≡ after_push (fit_of self.old) self.old value }
        ensures handed_out { hand.new ≡ extended hand.old (handed_out (fit_of self.old) self.old) }
    {
        match self.head().fit(self.tail()) {
            Fit::Room(len) => {
                self.push_fitting(value);
                PushAnswer::Pushed(len)
            }
            Fit::Overflow => {
                self.flow_over(hand);
                self.restore();
                PushAnswer::Overflow(value)
            }
            Fit::Claimed => PushAnswer::Claimed(value),
            Fit::Spent => PushAnswer::Spent(value),
        }
    }
}
