//! An idle set, and a seat at it.

ghost use Rattle.std.specs.Prelude.{◌≡◌, ◌^◌, ◌≤◌, [], false};
ghost use Rattle.crossbeam_utils.specs.Padded.{padded_value};

use crate::view::{Live, Place, View};
use atomic_table::Table;
use crossbeam_utils::CachePadded;
use std::alloc::Global;

/// The idle set and the search count of a pool.
#[derive(Drop)]
pub struct Idle {
    pub(crate) words: CachePadded<Table<(), View, u64, Live, Global>>,
    ghost two: { (padded_value words).shared.table_id.words ≡ 2 },
}

/// A seat at an idle set, with what it knows of the set and the count.
///
/// No type drops it by itself, since its counts would be lost, and whoever claims its worker would
/// hand a count to nobody. It is let go by `leave`, or joined to another (`Idle::join`).
pub struct IdleSeat {
    pub(crate) place: Place,
    pub(crate) number: u64,
    ghost empty: { place.me.1 ≡ [] },
    ghost numbered: { number ≡ place.me.0.number },
    ghost workers: { place.me.0.workers ≤ 64 },
    ghost last: { place.me.0.end ≤ 2 ^ 32 },
}

impl IdleSeat {
    /// The seat's number: of the worker whose it is.
    pub fn number(&self) -> u64
        ensures { result ≡ self.now.place.me.0.number }
    {
        self.number
    }

    /// Lets the seat go. The caller must have ended a publication, and hold no count.
    pub fn leave(self) -> FreeSeat
        requires unpublished { self.place.me.0.published ≡ false }
        requires free { self.place.me.0.held ≡ 0 }
        ensures { result.place ≡ self.place }
    {
        let IdleSeat { place, number } = self;
        FreeSeat { place, number }
    }
}

/// A seat whose worker isn't published, and which holds no count. It may be dropped, or go to a
/// thread of its own and be taken there.
#[derive(Drop)]
pub struct FreeSeat {
    pub(crate) place: Place,
    number: u64,
    ghost empty: { place.me.1 ≡ [] },
    ghost numbered: { number ≡ place.me.0.number },
    ghost workers: { place.me.0.workers ≤ 64 },
    ghost last: { place.me.0.end ≤ 2 ^ 32 },
    ghost unpublished: { place.me.0.published ≡ false },
    ghost free: { place.me.0.held ≡ 0 },
}

impl FreeSeat {
    /// Takes the seat.
    pub fn take(self) -> IdleSeat
        ensures { result.place ≡ self.place }
    {
        let FreeSeat { place, number } = self;
        IdleSeat { place, number }
    }
}
