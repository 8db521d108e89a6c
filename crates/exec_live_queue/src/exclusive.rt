//! The owner of a queue that no thief gets at: a plain queue, none of whose calls takes an atomic step.
//!
//! Each call that changes the queue is one of `exec_words`' `PureQueue`, in one action: `pop`, `push`, and `publish` for
//! a batch. What a contract sees is that queue, and the values that an overflow still has to hand out.

ghost use Rattle.std.specs.Prelude.{◌≡◌, ◌+◌, ◌^◌, ◌≤◌, [], length, drop, slice_get, IfOk, IfNone, IfSome};
ghost use Rattle.exec_words.specs.Queue.{room_of, fit_of, push_answer, after_push, handed_out, published};
ghost use Rattle.exec_live_queue.specs.Alone.{TakesFront, starting};

use crate::HALF;
use exec_words::queue::{PureQueue, PushAnswer};
use exec_words::reserved::Reserved;
use std::alloc::{AllocError, Global};
use std::marker::Model;

/// The owner of an exclusive queue.
///
/// Like every owner it must be empty, and in the middle of no overflow, where it is let go.
pub struct ExclusiveOwner<T> {
    queue: PureQueue<T>,
    // What the last overflow still has to hand out, the oldest first.
    hand: Reserved<T>,
}

impl<T> Model for ExclusiveOwner<T> {
    ghost use Rattle.std.specs.Prelude.{◌≡◌, []};
    ghost use Rattle.exec_live_queue.specs.Alone.{Alone};

    ghost Value = { Alone T };

    ghost view = { λ o. record { queue = o.queue; handed = o.hand.values } };

    ghost invariant = { λ o. (o.queue.held ≡ []) × (o.hand.places ≡ 128) };
}

impl<T: Drop> ExclusiveOwner<T> {
    /// The owner of an empty queue whose first value gets the count `start`. The caller must take a
    /// count that isn't past that at which a queue is spent.
    pub fn at(alloc: Global, start: u64) -> Result<Self, AllocError>
        requires { start + 512 ≤ 2 ^ 55 }
        ensures { IfOk result (λ o. o ≡ starting start) }
    {
        let queue = PureQueue::at(alloc, start)?;
        let hand = Reserved::with_places(alloc, HALF as usize)?;
        Ok(ExclusiveOwner { queue, hand })
    }

    /// Lets the owner go. The caller must know that the queue is empty, and be in the middle of no overflow.
    pub fn leave(self)
        requires empty { self.queue.values ≡ [] }
        requires whole { self.handed ≡ [] }
    {
        let ExclusiveOwner { queue, hand } = self;
        drop(queue);
        drop(hand);
    }
}

impl<T> ExclusiveOwner<T> {
    /// How many values the queue has.
    pub fn len(&self) -> usize
        ensures { result ≡ length self.now.queue.values }
    {
        self.queue.len()
    }

    /// How many more values fit. 0 where the queue is spent.
    pub fn room(&self) -> usize
        ensures { result ≡ room_of self.now.queue }
    {
        self.queue.room()
    }

    /// The front value, or None where the queue is empty.
    #[inline(always)]
    pub fn pop(&mut self) -> Option<T>
        ensures same { self.new.handed ≡ self.old.handed }
        ensures popped { IfSome result (λ x. TakesFront self.old.queue x self.new.queue) }
        ensures empty { IfNone result ((self.old.queue.values ≡ []) × (self.new.queue ≡ self.old.queue)) }
    {
        self.queue.pop()
    }

    /// Publishes a value behind the others. After `Overflow` the caller must take the values of the
    /// overflow, by `next_overflowed`, before any other push.
    #[inline(always)]
    pub fn push(&mut self, value: T) -> PushAnswer<T>
        requires whole { self.old.handed ≡ [] }
        ensures answer { result ≡ push_answer (fit_of self.old.queue) value }
        ensures pushed { self.new.queue ≡ after_push (fit_of self.old.queue) self.old.queue value }
        ensures handed { self.new.handed ≡ handed_out (fit_of self.old.queue) self.old.queue }
    {
        self.queue.push(value, &mut self.hand)
    }

    /// The next value that an overflow hands out, the oldest first, or None where there is none left.
    pub fn next_overflowed(&mut self) -> Option<T>
        ensures same { self.new.queue ≡ self.old.queue }
        ensures value { result ≡ slice_get self.old.handed 0 }
        ensures handed { self.new.handed ≡ drop 1 self.old.handed }
    {
        self.hand.pop()
    }

    /// How many values an overflow still has to hand out.
    pub fn left(&self) -> usize
        ensures { result ≡ length self.now.handed }
    {
        self.hand.len()
    }

    /// Publishes a batch behind the other values. The caller must have room for all of it, and be in
    /// the middle of no overflow.
    pub fn push_batch(&mut self, batch: &mut Reserved<T>)
        requires whole { self.old.handed ≡ [] }
        requires room { length batch.old.values ≤ room_of self.old.queue }
        ensures same { self.new.handed ≡ [] }
        ensures published { self.new.queue ≡ published self.old.queue batch.old.values }
        ensures taken { batch.new ≡ record batch.old { values = [] } }
    {
        self.queue.publish(batch.len(), batch);
    }
}
