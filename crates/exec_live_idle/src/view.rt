//! What a seat at the table knows. These types are for the proofs alone: no value of them is made.

use atomic_table::{Seat, Shared, TableRule};

/// What a seat knows.
pub struct View {
    /// How many workers the pool has.
    pub workers: u64,
    /// The number of the seat: of the worker whose it is, if it is below `workers`.
    pub number: u64,
    /// The numbers from the seat's own to before this one have no other seat. It may give those
    /// past its own to the seats that it makes.
    pub end: u64,
    /// The worker is published: its bit was set, and it hasn't withdrawn since.
    pub published: bool,
    /// How many search counts the seat holds.
    pub held: u64,
    /// The search count as its last load, exchange or return of a count left it or found it.
    pub saw: u64,
    /// The search count as it was found where the seat took its last one.
    pub took: Option<u64>,
    /// The set, where its last step of all found it: by a load, or a lost exchange.
    pub last: Option<u64>,
    /// Where its last step at the count returned one: the set, where the step before found it.
    pub before: Option<u64>,
    /// The workers that it claimed, in order. The field stands for a list of any length.
    pub claims: [u64; 0],
}

/// The rule of an idle set. The key of its table is the number of workers.
pub struct Live;

impl TableRule<(), View, u64> for Live {
    ghost use Rattle.exec_live_idle.specs.Live.{LiveIdle, first_view};

    ghost holds = { LiveIdle };

    ghost first = { first_view };
}

/// The words of an idle set, as threads share them.
pub type Words = Shared<(), View, u64, Live>;

/// A seat at an idle set's table.
pub type Place = Seat<(), View>;
