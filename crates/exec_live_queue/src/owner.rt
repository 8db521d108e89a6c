//! The owner of a run queue, shared or exclusive: the same calls on both.
//!
//! A call to the owner of a shared queue does what its view says (`specs/Calls.antt`), and one to the owner of an
//! exclusive queue is the transition of the plain queue. What ties the two is in `specs/Kinds.antt`.

ghost use Rattle.std.specs.Prelude.{◌≡◌, ◌≤◌, ◌↔◌, [], length, drop, slice_get, IfNone, IfSome, IsTrue};
ghost use Rattle.exec_words.specs.Queue.{published};
ghost use Rattle.exec_live_queue.specs.{Calls.{AfterPush, HasPopped, HasPublished, WasEmpty, handed_after}, Alone.TakesFront};

use crate::batch::push_batch;
use crate::exclusive::ExclusiveOwner;
use crate::head::{gap_of, real_of};
use crate::inner::{Inner, words_of};
use crate::lent::{Overflow, Push, Settled};
use crate::overflow::hand_out;
use crate::pop::pop;
use crate::push::push;
use crate::steps::look;
use crate::view::Place;
use crate::{HALF, SLOTS};
use exec_words::SPENT;
use exec_words::queue::PushAnswer;
use exec_words::reserved::Reserved;
use std::alloc::Global;
use std::marker::Model;
use std::sync::Arc;

/// The owner of a queue: only it pushes and pops. None of its calls waits, or takes memory.
///
/// It must be empty where it is let go (`leave`), with no overflow that wasn't exhausted: no type drops it by itself.
pub enum Owner<T> {
    /// Thieves may steal from its queue.
    Shared(SharedOwner<T>),
    /// No thief gets at its queue.
    Exclusive(ExclusiveOwner<T>),
}

/// The owner of a shared queue.
pub struct SharedOwner<T> {
    pub(crate) inner: Arc<Inner<T>, Global>,
    pub(crate) seat: Place<T>,
    pub(crate) tail: u64,
    // How many values of an overflow are still to be handed out.
    pub(crate) left: u64,
}

impl<T> Model for SharedOwner<T> {
    ghost use Rattle.crossbeam_utils.specs.Padded.{padded_value};
    ghost use Rattle.exec_live_queue.specs.Handles.{Owned, Stands};
    ghost use Rattle.exec_live_queue.specs.Plays.{values_of};

    ghost Value = { Owned T };

    ghost view = { λ o. record { table = o.seat.table_id; own = o.seat.me.0.own; handed = values_of o.seat.me.1 } };

    ghost invariant = { λ o. Stands (padded_value o.inner.value).shared o.seat o.tail o.left };
}

impl<T> SharedOwner<T> {
    // The front value, or None where the queue was empty at its step.
    #[inline(always)]
    fn pop(&mut self) -> Option<T>
        requires whole { self.old.handed ≡ [] }
        ensures same { (self.new.table ≡ self.old.table) × (self.new.handed ≡ []) }
        ensures popped { IfSome result (λ x. HasPopped self.old.own x self.new.own) }
        ensures empty { IfNone result (WasEmpty self.old.own self.new.own) }
    {
        pop(words_of(&self.inner), &mut self.seat, self.tail)
    }

    // Publishes a value. After `Overflow` the values of the overflow must be taken before any other call.
    #[inline(always)]
    fn push(&mut self, value: T) -> PushAnswer<T>
        requires whole { self.old.handed ≡ [] }
        ensures same { self.new.table ≡ self.old.table }
        ensures pushed { AfterPush self.old.own value self.new.own result }
        ensures handed { self.new.handed ≡ handed_after self.old.own result }
    {
        let answer = push(words_of(&self.inner), &mut self.seat, self.tail, value);
        match &answer {
            PushAnswer::Pushed(_) => self.tail += 1,
            PushAnswer::Overflow(_) => {
                self.tail += HALF;
                self.left = HALF;
            }
            PushAnswer::Claimed(_) | PushAnswer::Spent(_) => {}
        }
        answer
    }
}

impl<T: Drop> Owner<T> {
    ghost use Rattle.exec_live_queue.specs.Kinds.{IsDrained, handed};

    /// Lets the owner go. The caller must have seen the queue empty, and be in the middle of no overflow.
    pub fn leave(self)
        requires empty { IsDrained self }
        requires whole { handed self ≡ [] }
    {
        match self {
            Owner::Shared(owner) => {
                let SharedOwner {
                    inner,
                    seat,
                    tail: _,
                    left: _,
                } = owner;
                drop(seat);
                drop(inner);
            }
            Owner::Exclusive(owner) => owner.leave(),
        }
    }
}

impl<T> Owner<T> {
    ghost use Rattle.std.specs.Borrow.{sem};
    ghost use Rattle.exec_live_queue.specs.Lent.{Lends, pushed_to};
    ghost use Rattle.exec_live_queue.specs.Kinds.{Does, Looks, IsDrained, IsPushed, count, handed, room, handed_by};

    /// How many values the queue has, by the head that this call loads. The caller must be in the
    /// middle of no overflow.
    pub fn len(&mut self) -> usize
        requires whole { handed self.old ≡ [] }
        ensures whole { handed self.new ≡ [] }
        ensures looked { Looks self.old self.new }
        ensures len { result ≡ count self.new }
    {
        match self {
            Owner::Shared(owner) => {
                let seen = look(words_of(&owner.inner), &mut owner.seat);
                (owner.tail - real_of(seen)) as usize
            }
            Owner::Exclusive(owner) => owner.len(),
        }
    }

    /// The front value, or None where the queue was empty at its step. The caller must be in the
    /// middle of no overflow.
    #[inline(always)]
    pub fn pop(&mut self) -> Option<T>
        requires whole { handed self.old ≡ [] }
        ensures whole { handed self.new ≡ [] }
        ensures popped { IfSome result (λ x. Does (λ d d'. HasPopped d x d') (λ q q'. TakesFront q x q') self.old self.new) }
        ensures empty { IfNone result (Looks self.old self.new × IsDrained self.new) }
    {
        match self {
            Owner::Shared(owner) => owner.pop(),
            Owner::Exclusive(owner) => owner.pop(),
        }
    }

    /// How many more values fit, by the head that this call loads. 0 where the queue is spent. The
    /// caller must be in the middle of no overflow.
    pub fn room(&mut self) -> usize
        requires whole { handed self.old ≡ [] }
        ensures whole { handed self.new ≡ [] }
        ensures looked { Looks self.old self.new }
        ensures room { result ≡ room self.new }
    {
        match self {
            Owner::Shared(owner) => {
                let seen = look(words_of(&owner.inner), &mut owner.seat);
                if owner.tail >= SPENT {
                    return 0;
                }
                (SLOTS - (owner.tail - real_of(seen)) - gap_of(seen)) as usize
            }
            Owner::Exclusive(owner) => owner.room(),
        }
    }

    /// Whether the queue has no value, by the head that this call loads. The caller must be in the
    /// middle of no overflow.
    pub fn is_empty(&mut self) -> bool
        requires whole { handed self.old ≡ [] }
        ensures whole { handed self.new ≡ [] }
        ensures looked { Looks self.old self.new }
        ensures empty { IsTrue result ↔ IsDrained self.new }
    {
        match self {
            Owner::Shared(owner) => real_of(look(words_of(&owner.inner), &mut owner.seat))
                == owner.tail,
            Owner::Exclusive(owner) => owner.len() == 0,
        }
    }

    /// Publishes a value behind the others. A full queue without a claim flows over: the owner is lent
    /// to what hands its newest half out. The caller must be in the middle of no other overflow.
    #[inline(always)]
    pub fn push<'a>(&'a mut self, value: T) -> Push<'a, T>
        requires whole { handed self.old ≡ [] }
        ensures* rests { sem 𝓛 (pushed_to T.row self.entry self.old value result) }
        ensures lent { Lends self.entry self.old value result }
    {
        match self.publish(value) {
            PushAnswer::Overflow(value) => Push::Overflow(Overflow::of(self, value)),
            PushAnswer::Pushed(len) => Push::Settled(Settled::Pushed(len)),
            PushAnswer::Claimed(value) => Push::Settled(Settled::Claimed(value)),
            PushAnswer::Spent(value) => Push::Settled(Settled::Spent(value)),
        }
    }

    // The same, with what an overflow hands out left with the owner.
    #[inline(always)]
    #[tactic(auto, using(crate::proofs::Standing::handed_alone))]
    fn publish(&mut self, value: T) -> PushAnswer<T>
        requires whole { handed self.old ≡ [] }
        ensures pushed { IsPushed self.old value self.new result }
        ensures handed { handed self.new ≡ handed_by self.old result }
    {
        match self {
            Owner::Shared(owner) => owner.push(value),
            Owner::Exclusive(owner) => owner.push(value),
        }
    }

    /// The next value that an overflow hands out, the oldest first, or None where there is none left.
    pub(crate) fn next_overflowed(&mut self) -> Option<T>
        ensures looked { Looks self.old self.new }
        ensures value { result ≡ slice_get (handed self.old) 0 }
        ensures handed { handed self.new ≡ drop 1 (handed self.old) }
    {
        match self {
            Owner::Shared(owner) => {
                if owner.left == 0 {
                    return None;
                }
                let words = words_of(&owner.inner);
                let value = hand_out(words, &mut owner.seat, owner.tail, owner.left);
                owner.left -= 1;
                Some(value)
            }
            Owner::Exclusive(owner) => owner.next_overflowed(),
        }
    }

    /// How many values an overflow still has to hand out.
    pub(crate) fn left(&self) -> usize
        ensures { result ≡ length (handed self.now) }
    {
        match self {
            Owner::Shared(owner) => owner.left as usize,
            Owner::Exclusive(owner) => owner.left(),
        }
    }

    /// Publishes a batch behind the other values, by one store of the tail. The caller must have
    /// seen room for all of it, by `room`, and be in the middle of no overflow.
    pub fn push_batch(&mut self, batch: &mut Reserved<T>)
        requires whole { handed self.old ≡ [] }
        requires room { length batch.old.values ≤ room self.old }
        ensures whole { handed self.new ≡ [] }
        ensures published { Does (λ d d'. HasPublished d batch.old.values d') (λ q q'. q' ≡ published q batch.old.values) self.old self.new }
        ensures taken { batch.new ≡ record batch.old { values = [] } }
    {
        match self {
            Owner::Shared(owner) => {
                let count = batch.len() as u64;
                push_batch(words_of(&owner.inner), &mut owner.seat, owner.tail, batch);
                owner.tail += count;
            }
            Owner::Exclusive(owner) => owner.push_batch(batch),
        }
    }
}
