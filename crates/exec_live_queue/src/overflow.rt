//! What an overflow hands out: the newest half, value by value.

ghost use Rattle.std.specs.Prelude.{◌≡◌, ◌-◌, ◌<◌, ◌∷◌};
ghost use Rattle.exec_live_queue.specs.{Calls.HasLooked, Handles.Stands, Plays.values_of, Seats.SameSeat};

use crate::HALF;
use crate::slots::take;
use crate::steps::give_back;
use crate::view::{Place, Words};

/// Hands out the next value, and gives the slots back behind the last one. The caller must give the
/// owner's seat in the middle of an overflow, its tail, and how many values are left: one at least.
pub fn hand_out<T>(words: &Words<T>, seat: &mut Place<T>, tail: u64, left: u64) -> T
    requires stands { Stands words.now seat.old tail left }
    requires more { 0 < left }
    ensures same { SameSeat seat.old seat.new }
    ensures stands { Stands words.now seat.new tail (left - 1) }
    ensures looked { HasLooked seat.old.me.0.own seat.new.me.0.own }
    ensures value { values_of seat.old.me.1 ≡ result ∷ values_of seat.new.me.1 }
{
    let value = take(words, seat, tail + (HALF - left));
    if left > 1 {
        return value;
    }
    give_back(words, seat);
    value
}
