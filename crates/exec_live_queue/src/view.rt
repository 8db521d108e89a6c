//! What a seat at the table knows. These types are for the proofs alone: no value of them is made.
//!
//! A clause reads a `LinkedList` as the list that it has, and no type of an element is larger for it.

use atomic_table::{Seat, Shared, TableRule};
use std::collections::LinkedList;

/// Where a seat stands between two of its steps.
pub enum Stage {
    /// The owner's seat, at any time.
    Owns,
    /// A thief that has seen nothing yet.
    Idle,
    /// A thief that has loaded the head.
    SawHead,
    /// A thief that has loaded the head and then the tail.
    SawTail,
    /// A thief that holds the claim.
    Claimed,
}

/// What the owner keeps.
pub struct Own<T> {
    /// The count of the queue's first value.
    pub start: u64,
    /// The tail, which only the owner stores.
    pub tail: u64,
    /// How many values are kept aside in the middle of an overflow: 128 between its exchange and
    /// the owner's next store of the tail, and else 0.
    pub aside: u64,
    /// The value of each label from `start` on. It only grows.
    pub log: LinkedList<T>,
    /// The first label whose slot is out with the owner.
    pub out_at: u64,
    /// How many slots are out with the owner.
    pub out_len: u64,
    /// The count that the owner saw last in the head, or wrote there.
    pub saw_real: u64,
    /// The gap that the owner saw last in the head, or wrote there.
    pub saw_gap: u64,
    /// The labels that the owner popped.
    pub popped: LinkedList<u64>,
    /// The labels that an overflow handed out.
    pub exported: LinkedList<u64>,
    /// The labels that an overflow gave a new label, 256 further on.
    pub relabelled: LinkedList<u64>,
}

/// What a thief keeps.
pub struct Theft<T> {
    /// The count that it saw in the head before the last one.
    pub was: u64,
    /// The count that it saw in the head. In a claim, its first label.
    pub at: u64,
    /// The gap that it saw in the head.
    pub gap: u64,
    /// The tail that it saw.
    pub upto: u64,
    /// The labels of all its claims.
    pub claims: LinkedList<u64>,
    /// The values that it took, one for each of these labels.
    pub lot: LinkedList<T>,
}

/// What a seat knows.
pub struct View<T> {
    pub stage: Stage,
    pub own: Own<T>,
    pub theft: Theft<T>,
}

/// The rule of a run queue. The key of its table is the count of the first value.
pub struct Live;

impl<T> TableRule<Option<T>, View<T>, u64> for Live {
    ghost use Rattle.exec_live_queue.specs.Live.{LiveQueue, opened};

    ghost holds = { LiveQueue };

    ghost first = { opened };
}

/// The words and slots of a queue, as threads share them.
pub type Words<T> = Shared<Option<T>, View<T>, u64, Live>;

/// A seat at a queue's table.
pub type Place<T> = Seat<Option<T>, View<T>>;
