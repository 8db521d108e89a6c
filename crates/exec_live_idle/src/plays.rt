//! What each step tells the seat that makes it. These types are for the proofs alone.

ghost use Rattle.exec_live_idle.specs.Plays.{looks, publishes, withdraws, claims, reads, adds, subtracts, begins};

use crate::view::View;
use atomic_table::{Join, Play, Split};

/// A load of the set.
pub struct Look;

impl Play<(), View> for Look {
    ghost then = { looks };
}

/// The or of a worker's bit into the set.
pub struct Publish;

impl Play<(), View> for Publish {
    ghost then = { publishes };
}

/// The and of a worker's bit out of the set.
pub struct Withdraw;

impl Play<(), View> for Withdraw {
    ghost then = { withdraws };
}

/// The exchange of the set for one without its lowest worker.
pub struct Claim;

impl Play<(), View> for Claim {
    ghost then = { claims };
}

/// A load of the count.
pub struct Read;

impl Play<(), View> for Read {
    ghost then = { reads };
}

/// A count is added.
pub struct Add;

impl Play<(), View> for Add {
    ghost then = { adds };
}

/// A count is subtracted.
pub struct Subtract;

impl Play<(), View> for Subtract {
    ghost then = { subtracts };
}

/// The exchange of the count 0 to 1.
pub struct Begin;

impl Play<(), View> for Begin {
    ghost then = { begins };
}

/// A seat is made, with the number of the one that it comes from.
pub struct Next;

impl Split<View> for Next {
    ghost use Rattle.exec_live_idle.specs.Live.{next_number, own_number};

    ghost left = { next_number };

    ghost right = { own_number };
}

/// A seat takes over the counts of another.
pub struct TakeOver;

impl Join<View> for TakeOver {
    ghost use Rattle.exec_live_idle.specs.Live.{with_counts, joined};

    ghost both = { with_counts };

    ghost spent = { joined };
}
