//! The owner's push of a batch, by one store of the tail.

ghost use Rattle.std.specs.Prelude.{◌≡◌, ◌+◌, ◌^◌, ◌<◌, ◌≤◌, ℕ, [], length};
ghost use Rattle.exec_words.specs.Head.{room_at};
ghost use Rattle.exec_live_queue.specs.{Calls.{HasPublished, Fills}, Seats.{IsAt, Rests, SameSeat}};

use crate::slots::put;
use crate::steps::{publish, take_room};
use crate::view::{Place, Words};
use exec_words::reserved::Reserved;

/// Publishes a batch behind the other values. The caller must give the owner's seat at rest, and its
/// tail, and have seen room for all of it.
pub fn push_batch<T>(words: &Words<T>, seat: &mut Place<T>, tail: u64, batch: &mut Reserved<T>)
    requires rests { Rests words.now seat.old }
    requires tail { tail ≡ seat.old.me.0.own.tail }
    requires room { length batch.old.values ≤ room_at record { real = seat.old.me.0.own.saw_real; gap = seat.old.me.0.own.saw_gap } tail }
    ensures same { SameSeat seat.old seat.new }
    ensures rests { Rests words.now seat.new }
    ensures published { HasPublished seat.old.me.0.own batch.old.values seat.new.me.0.own }
    ensures taken { batch.new ≡ record batch.old { values = [] } }
{
    let count = batch.len() as u64;
    take_room(words, seat);
    fill(words, seat, tail, batch);
    publish(words, seat, tail + count);
}

// Puts the batch into the free slots behind the tail, from the first one on.
fn fill<T>(words: &Words<T>, seat: &mut Place<T>, tail: u64, batch: &mut Reserved<T>)
    requires at { IsAt words.now seat.old }
    requires small { (tail < 2 ^ 55) × (length batch.old.values ≤ 256) }
    requires free { (r : ℕ) × Fills seat.old.me seat.old.me.0 tail (length batch.old.values + r) [] }
    ensures same { SameSeat seat.old seat.new }
    ensures filled { (r : ℕ) → Fills seat.old.me seat.old.me.0 tail (length batch.old.values + r) [] → Fills seat.new.me seat.old.me.0 tail r batch.old.values }
    ensures taken { batch.new ≡ record batch.old { values = [] } }
{
    for i in 0..batch.len() {
        let Some(value) = batch.pop() else {
            unreachable!();
        };
        put(words, seat, tail + i as u64, value);
    }
}
