//! The head of a run queue, and what a worker reads off it.
//!
//! A queue's values have counts, one after another. Its head is the count `real` of its front value and the gap: 0, or
//! the places of the one claim and of what its owner popped past it since. Its tail is the count one past its last
//! value. Who has loaded both knows how many values there were, whether they may be claimed, and what a push does: by
//! rules (`specs/Head.antt`) that every form of the queue has.

ghost use Rattle.std.specs.Prelude.{◌≡◌, ◌-◌, ◌+◌, ◌==◌, ◌<◌};
ghost use Rattle.exec_words.specs.Head.{room_at, is_stealable_at, fit_at};

use super::{CAPACITY, SPENT, STEALABLE};

/// The head of a run queue: two words that change together.
#[derive(Clone, Copy, Debug, PartialEq, Eq)]
pub struct Head {
    /// The count of the front value.
    pub real: u64,
    /// How many places before the front are not free yet: 0, or those of a claim and of the pops past it.
    pub gap: usize,
}

/// What a push does, by the head and tail that its owner knows.
#[derive(Clone, Copy, Debug, PartialEq, Eq)]
pub enum Fit {
    /// The value fits. The queue then has so many.
    Room(usize),
    /// The queue is full without a claim: its newest half and then the value go elsewhere.
    Overflow,
    /// No place is free beside a claim: the value goes elsewhere.
    Claimed,
    /// The queue has had all the values that it can count: the value goes elsewhere.
    Spent,
}

impl Head {
    /// How many values there are up to this tail. 0 where the tail is before the front.
    pub fn len(self, tail: u64) -> usize
        ensures { result ≡ tail - self.real }
    {
        tail.saturating_sub(self.real) as usize
    }

    /// How many more values fit. 0 where the queue is spent.
    pub fn room(self, tail: u64) -> usize
        ensures { result ≡ room_at self tail }
    {
        if tail >= SPENT {
            return 0;
        }
        CAPACITY
            .saturating_sub(self.len(tail))
            .saturating_sub(self.gap)
    }

    /// Whether a thief may claim half of the values: none is claimed, and there are two at least.
    pub fn is_stealable(self, tail: u64) -> bool
        ensures { result ≡ is_stealable_at self tail }
    {
        self.gap == 0 && self.len(tail) >= STEALABLE
    }

    /// What a push does.
    pub fn fit(self, tail: u64) -> Fit
        ensures { result ≡ fit_at self tail }
    {
        if tail >= SPENT {
            return Fit::Spent;
        }
        let used = self.len(tail).saturating_add(self.gap);
        if used < CAPACITY {
            return Fit::Room(self.len(tail) + 1);
        }
        if self.gap == 0 {
            Fit::Overflow
        } else {
            Fit::Claimed
        }
    }
}
