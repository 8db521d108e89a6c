//! The queue that all workers of a pool take from, with the mirror of its length.
//!
//! Anyone may append. A worker takes a share: one value more than an even split between the
//! workers, the oldest first, but no more than its own run queue has room for below half. It polls
//! the first itself, and the others go into its run queue. All this is done under one lock. The
//! mirror is read without the lock: it is stored with each change, and equals the length. A closed
//! queue takes nothing more. Ports the global queue of `commonware_runtime`'s `iouring::pool`.

ghost use Rattle.std.specs.Prelude.{◌≡◌, ◌-◌, ◌<◌, ◌≤◌, ◌↔◌, [], ◌∷◌, length, take, max, slice_get, false, true, IsOk, OnOk, IfErr, OnErr, not, Some};
ghost use Rattle.exec_words.specs.{Global.appended, Global.share_of, Global.share_queued, Global.share_taken, Global.spare_places, Queue.published, Queue.room_of};

use super::HALF;
use super::queue::PureQueue;
use super::reserved::Reserved;
use std::alloc::{AllocError, Global};
use std::marker::Model;
use std::mem;

/// The global queue of a pool. Only `reserve` takes memory: who makes a task reserves its place.
#[derive(Drop)]
pub struct GlobalQueue<T> {
    values: Reserved<T>,
    mirror: usize,
    closed: bool,
}

impl<T> Model for GlobalQueue<T> {
    ghost use Rattle.std.specs.Prelude.{◌≡◌, length};
    ghost use Rattle.exec_words.specs.Global.{Global};

    ghost Value = { Global T };

    ghost view = { λ q. record {
      values = q.values.values;
      places = q.values.places;
      closed = q.closed;
    } };

    ghost invariant = { λ q. q.mirror ≡ length q.values.values };
}

impl<T> GlobalQueue<T> {
    /// An open queue without values and places.
    pub fn new(alloc: Global) -> Self
        ensures { result ≡ record { values = []; places = 0; closed = false } }
    {
        GlobalQueue {
            values: Reserved::new(alloc),
            mirror: 0,
            closed: false,
        }
    }

    /// Makes places for `n` values in all, those that are there already among them. Where there is
    /// no memory the queue stays as it is.
    pub fn reserve(&mut self, alloc: Global, n: usize) -> Result<(), AllocError>
        ensures places { OnOk result (self.new ≡ record self.old { places = max self.old.places n }) }
        ensures kept { OnErr result (self.new ≡ self.old) }
    {
        self.values.reserve(alloc, n)
    }

    /// Loads the mirror: how many values there are.
    pub fn mirror(&self) -> usize
        ensures { result ≡ length self.now.values }
    {
        self.mirror
    }

    /// How many more values have a place.
    pub fn spare(&self) -> usize
        ensures { result ≡ spare_places self.now }
    {
        self.values.spare()
    }

    /// Whether it takes nothing more.
    pub fn is_closed(&self) -> bool
        ensures { result ≡ self.now.closed }
    {
        self.closed
    }

    /// Appends a value. Gives it back exactly where the queue is closed, and nothing changes then.
    /// The caller must have reserved its place.
    pub fn push(&mut self, value: T) -> Result<(), T>
        requires { self.old.closed ≡ false → 0 < spare_places self.old }
        ensures closed { IsOk result ↔ (self.old.closed ≡ false) }
        ensures appended { OnOk result (self.new ≡ appended self.old (value ∷ [])) }
        ensures back { IfErr result (λ v. v ≡ value) }
        ensures kept { OnErr result (self.new ≡ self.old) }
    {
        if self.closed {
            return Err(value);
        }
        self.values.push(value);
        self.mirror = self.values.len();
        Ok(())
    }

    /// Appends a batch, the oldest first. False exactly where the queue is closed, and nothing
    /// changes then. The caller must have reserved the places.
    pub fn append(&mut self, batch: &mut Reserved<T>) -> bool
        requires { self.old.closed ≡ false → length batch.old.values ≤ spare_places self.old }
        ensures answer { result ≡ not self.old.closed }
        ensures appended { result ≡ true → self.new ≡ appended self.old batch.old.values }
        ensures taken { result ≡ true → batch.new ≡ record batch.old { values = [] } }
        ensures kept { result ≡ false → self.new ≡ self.old }
        ensures batch_kept { result ≡ false → batch.new ≡ batch.old }
    {
        if self.closed {
            return false;
        }
        batch.move_front(batch.len(), &mut self.values);
        self.mirror = self.values.len();
        true
    }

    /// Takes a share for a worker of a pool with so many workers: answers the oldest value, and publishes the others in
    /// the worker's run queue. None exactly where there is no value. `room` and `held` are the free places and the
    /// values of that run queue, by the head that its owner loaded; its room doesn't shrink while the owner waits. The
    /// caller must have a worker, and be in the middle of no overflow.
    pub fn take(
        &mut self,
        workers: usize,
        room: usize,
        held: usize,
        into: &mut PureQueue<T>,
    ) -> Option<T>
        requires workers { 0 < workers }
        requires room { room ≤ room_of into.old }
        requires whole { into.old.held ≡ [] }
        ensures first { result ≡ slice_get self.old.values 0 }
        ensures left { self.new ≡ share_taken self.old workers room held }
        ensures rest { into.new ≡ published into.old (share_queued self.old workers room held) }
    {
        let len = self.values.len();
        let share = share(len, workers, room, held);
        let first = self.values.pop()?;
        into.publish(share - 1, &mut self.values);
        self.mirror = self.values.len();
        Some(first)
    }

    /// Closes the queue, and hands out what it held, the oldest first.
    pub fn close(&mut self, alloc: Global) -> Reserved<T>
        ensures values { result.values ≡ self.old.values }
        ensures closed { self.new ≡ record { values = []; places = 0; closed = true } }
    {
        self.closed = true;
        self.mirror = 0;
        mem::replace(&mut self.values, Reserved::new(alloc))
    }
}

// How many values a take takes.
fn share(len: usize, workers: usize, room: usize, held: usize) -> usize
    requires { 0 < workers }
    ensures { result ≡ share_of len workers room held }
{
    let even = (len / workers).saturating_add(1).min(len);
    let fits = room.min(HALF.saturating_sub(held));
    even.min(fits.saturating_add(1))
}
