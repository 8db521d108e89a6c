//! The owner's push of one value.

ghost use Rattle.std.specs.Prelude.{◌≡◌, ◌-◌, ◌^◌, ◌<◌};
ghost use Rattle.exec_live_queue.specs.{Calls.{AfterPush, AfterTry, PushLeaves}, Seats.{Rests, SameSeat}};

use crate::head::{gap_of, real_of};
use crate::slots::put;
use crate::steps::{flow_over, publish, restore, take_one};
use crate::view::{Place, Words};
use crate::{HALF, SLOTS};
use exec_words::SPENT;
use exec_words::queue::PushAnswer;

/// Publishes a value behind the others, by at most two tries: a head that has changed since the
/// first leaves room for the value, or has a claim. The caller must give the owner's seat at rest,
/// and its tail.
#[inline(always)]
pub fn push<T>(words: &Words<T>, seat: &mut Place<T>, tail: u64, value: T) -> PushAnswer<T>
    requires rests { Rests words.now seat.old }
    requires tail { tail ≡ seat.old.me.0.own.tail }
    ensures same { SameSeat seat.old seat.new }
    ensures pushed { AfterPush seat.old.me.0.own value seat.new.me.0.own result }
    ensures leaves { PushLeaves words.now seat.new seat.old.me.0.own result }
{
    if tail >= SPENT {
        return PushAnswer::Spent(value);
    }
    match try_push(words, seat, tail, value) {
        Ok(push) => push,
        Err(value) => match try_push(words, seat, tail, value) {
            Ok(push) => push,
            // No second try misses.
            Err(_) => unreachable!(),
        },
    }
}

// Err with the value where the head changed between its load and its exchange.
fn try_push<T>(words: &Words<T>, seat: &mut Place<T>, tail: u64, x: T) -> Result<PushAnswer<T>, T>
    requires rests { Rests words.now seat.old }
    requires tail { tail ≡ seat.old.me.0.own.tail }
    requires unspent { tail < 2 ^ 55 - 512 }
    ensures same { SameSeat seat.old seat.new }
    ensures tried { AfterTry words.now seat.old.me.0.own x seat.new result }
{
    let seen = take_one(words, seat);
    let len = tail - real_of(seen);
    let gap = gap_of(seen);
    if len + gap < SLOTS {
        put(words, seat, tail, x);
        publish(words, seat, tail + 1);
        return Ok(PushAnswer::Pushed((len + 1) as usize));
    }
    if gap > 0 {
        return Ok(PushAnswer::Claimed(x));
    }
    if flow_over(words, seat, seen) != seen {
        return Err(x);
    }
    restore(words, seat, tail + HALF);
    Ok(PushAnswer::Overflow(x))
}
