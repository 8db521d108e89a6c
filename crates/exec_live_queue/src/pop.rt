//! The owner's pop.

ghost use Rattle.std.specs.Prelude.{◌≡◌, ◌+◌, ◌^◌, ◌<◌, [], ◌∷◌, IfNone, IfSome, Some};
ghost use Rattle.exec_live_queue.specs.{Calls.{HasPopped, WasEmpty}, Plays.{hand, returned}, Seats.{IsAt, Rests, SameSeat, Tells}, declared.view.Stage.TheVariants.Owns};

use crate::SLOTS;
use crate::head::{gap_of, real_of};
use crate::slots::take;
use crate::steps::{give_back, look, pop_exchange, pop_last};
use crate::view::{Place, Words};

/// Takes the value out of the slot that a pop of the label `real` took, and gives the slot back.
fn carry_off<T>(words: &Words<T>, seat: &mut Place<T>, real: u64) -> T
    requires at { IsAt words.now seat.old }
    requires owns { seat.old.me.0.stage ≡ Owns }
    requires out { (seat.old.me.0.own.out_at ≡ real + 256) × (seat.old.me.0.own.out_len ≡ 1) }
    requires popped { (x : _) × (seat.old.me.1 ≡ hand (real + 256) (Some x ∷ [])) }
    requires small { real < 2 ^ 55 }
    ensures value { seat.old.me.1 ≡ hand (real + 256) (Some result ∷ []) }
    ensures returned { (n : _) × Tells returned seat.old 0 n seat.new }
{
    let value = take(words, seat, real + SLOTS);
    give_back(words, seat);
    value
}

/// The value at the front, or None where the queue was empty at its step. Each time that a thief
/// was faster, twice the values that are left, and one beside a claim, are fewer than before. The
/// caller must give the owner's seat at rest, and its tail.
#[inline(always)]
pub fn pop<T>(words: &Words<T>, seat: &mut Place<T>, tail: u64) -> Option<T>
    requires rests { Rests words.now seat.old }
    requires tail { tail ≡ seat.old.me.0.own.tail }
    ensures same { SameSeat seat.old seat.new }
    ensures rests { Rests words.now seat.new }
    ensures popped { IfSome result (λ x. HasPopped seat.old.me.0.own x seat.new.me.0.own) }
    ensures empty { IfNone result (WasEmpty seat.old.me.0.own seat.new.me.0.own) }
{
    let mut seen = look(words, seat);
    'tries: loop {
        let real = real_of(seen);
        if real == tail {
            return None;
        }
        if gap_of(seen) == 0 && real + 1 == tail {
            pop_last(words, seat, seen);
            return Some(carry_off(words, seat, real));
        }
        let found = pop_exchange(words, seat, seen);
        if found == seen {
            return Some(carry_off(words, seat, real));
        }
        seen = found;
    }
}
