//! What a seat does with the slots that are out with it. No step of the table is made here.

ghost use Rattle.std.specs.Prelude.{None, Some};
ghost use Rattle.exec_live_queue.specs.Seats.{IsAt, SameSeat, Swapped, Fronted, FrontHas};

use crate::SLOTS;
use crate::view::{Place, Words};

// Takes what the slot of this label has, puts another value there, and turns to the next slot. The
// slot must be the one that the seat carries first.
fn swap<T>(words: &Words<T>, seat: &mut Place<T>, label: u64, value: Option<T>) -> Option<T>
    requires at { IsAt words.now seat.old }
    requires front { Fronted seat.old label }
    ensures same { SameSeat seat.old seat.new }
    ensures swapped { Swapped seat.old seat.new label result value }
{
    let old = words.exchange(seat, (label % SLOTS) as usize, value);
    seat.turn();
    old
}

/// Takes the value out of the slot of this label, and turns to the next slot. The slot must be the
/// one that the seat carries first, and have a value.
pub fn take<T>(words: &Words<T>, seat: &mut Place<T>, label: u64) -> T
    requires at { IsAt words.now seat.old }
    requires front { (x : _) × FrontHas seat.old label (Some x) }
    ensures same { SameSeat seat.old seat.new }
    ensures swapped { Swapped seat.old seat.new label (Some result) None }
{
    swap(words, seat, label, None).unwrap()
}

/// Puts a value into the slot of this label, and turns to the next slot. The slot must be the one
/// that the seat carries first, and empty.
pub fn put<T>(words: &Words<T>, seat: &mut Place<T>, label: u64, value: T)
    requires at { IsAt words.now seat.old }
    requires front { FrontHas seat.old label None }
    ensures same { SameSeat seat.old seat.new }
    ensures swapped { Swapped seat.old seat.new label None (Some value) }
{
    match swap(words, seat, label, Some(value)) {
        None => {}
        Some(_) => unreachable!(),
    }
}
