//! What a push answers, and what it lends: the newest half of a queue that flows over.
//!
//! What flows over is read by an `Overflow`, to which the owner is lent, so that no other call of the
//! owner comes in between. A push answers in one of two ways, since by the types of one that lends and
//! one that doesn't a caller learns how the owner stands after either.

ghost use Rattle.std.specs.Prelude.{◌≡◌, ◌<◌, [], drop, length, slice_get, IfNone, IfSome};
ghost use Rattle.exec_live_queue.specs.{Kinds.Looks, Lent.{left_of, lender}};

use crate::owner::Owner;

/// What a push answers.
pub enum Push<'a, T> {
    /// The queue was full without a claim: its newest half and then the new value go elsewhere.
    Overflow(Overflow<'a, T>),
    /// Nothing flowed over.
    Settled(Settled<T>),
}

/// What a push answers where nothing flows over.
#[derive(Debug, PartialEq, Eq, Drop)]
pub enum Settled<T> {
    /// The value was published; the queue had so many then, by the head that the push loaded.
    Pushed(usize),
    /// No place was free beside a claim: the value goes elsewhere.
    Claimed(T),
    /// The queue is spent: the value goes elsewhere.
    Spent(T),
}

/// The newest half of a full queue, the oldest value first, and then the value that was to be pushed.
///
/// It must be exhausted where it is let go (`finish`): no type drops it by itself.
pub struct Overflow<'a, T> {
    owner: &'a mut Owner<T>,
    value: T,
}

impl<'a, T> Overflow<'a, T> {
    /// What this owner hands out, and this value behind it.
    pub(crate) fn of(owner: &'a mut Owner<T>, value: T) -> Self
        ensures same { lender result ≡ owner.entry.ghost_name }
        ensures now { result.owner.now ≡ owner.old }
        ensures value { result.value ≡ value }
    {
        Overflow { owner, value }
    }

    /// The next value, or None where there is none left.
    #[tactic(auto, using(crate::proofs::Standing::none_left, crate::proofs::Standing::one_fewer))]
    pub fn next(&mut self) -> Option<T>
        ensures same { (lender self.new ≡ lender self.old) × (self.new.value ≡ self.old.value) }
        ensures looked { Looks self.old.owner.now self.new.owner.now }
        ensures value { result ≡ slice_get (left_of self.old) 0 }
        ensures handed { left_of self.new ≡ drop 1 (left_of self.old) }
        ensures done { IfNone result (left_of self.new ≡ []) }
        ensures fewer { IfSome result (λ _. length (left_of self.new) < length (left_of self.old)) }
    {
        self.owner.next_overflowed()
    }

    /// How many values are left.
    pub fn len(&self) -> usize
        ensures { result ≡ length (left_of self.now) }
    {
        self.owner.left()
    }

    /// Gives the owner back, and the value that comes behind those that were handed out. The caller
    /// must have taken all of these.
    pub fn finish(self) -> T
        requires { left_of self ≡ [] }
        ensures value { result ≡ self.entry.value }
        ensures rests { self.exit.0.now ≡ self.entry.owner.now }
    {
        let Overflow { owner: _, value } = self;
        value
    }
}
