//! A list with places that were reserved before.
//!
//! A push takes no memory, since it goes into a place that is there: who may push has reserved the place. So what is
//! sent or woken is never lost for want of memory. What a contract sees is in `specs/Reserved.antt`: the values, the
//! oldest first, and how many places there are for values in all.

ghost use Rattle.std.specs.{Prelude.{◌≡◌, ◌+◌, ◌-◌, ◌<◌, ◌≤◌, ◌==◌, [], ◌∷◌, ◌++◌, length, take, drop, max, slice_get, IfOk, OnOk, OnErr}, VecDeque.deque_capacity};

use std::alloc::{AllocError, Global};
use std::collections::VecDeque;
use std::marker::Model;
use std::mem;

/// Values in order, in places that were reserved before. Only `with_places` and `reserve` take memory.
#[derive(Drop)]
pub struct Reserved<T> {
    values: VecDeque<T>,
    // For how many values there are places.
    places: usize,
}

impl<T> Model for Reserved<T> {
    ghost use Rattle.std.specs.Prelude.{◌≤◌, length};
    ghost use Rattle.std.specs.VecDeque.{deque_capacity};
    ghost use Rattle.exec_words.specs.Reserved.{Reserved as Places};

    ghost Value = { Places T };

    ghost view = { λ r. record { values = r.values.items; places = r.places } };

    ghost invariant = { λ r. (length r.values.items ≤ r.places)
        × (r.places ≤ deque_capacity r.values) };
}

impl<T> Reserved<T> {
    ghost use Rattle.exec_words.specs.Reserved.{extended, spare};

    /// No values and no places.
    pub fn new(alloc: Global) -> Self
        ensures { result ≡ record { values = []; places = 0 } }
    {
        Reserved {
            values: VecDeque::new(alloc),
            places: 0,
        }
    }

    /// No values, and places for so many. An `Err` comes only for want of memory.
    pub fn with_places(alloc: Global, places: usize) -> Result<Self, AllocError>
        ensures { IfOk result (λ r. r ≡ record { values = []; places = places }) }
    {
        let values = VecDeque::with_capacity(alloc, places)?;
        Ok(Reserved { values, places })
    }

    /// Makes places for `n` values in all, those that are there already among them. Where there is
    /// no memory the list stays as it is.
    pub fn reserve(&mut self, _alloc: Global, n: usize) -> Result<(), AllocError>
        ensures places { OnOk result (self.new ≡ record self.old { places = max self.old.places n }) }
        ensures kept { OnErr result (self.new ≡ self.old) }
    {
        self.values.reserve(n.saturating_sub(self.values.len()))?;
        self.places = self.places.max(n);
        Ok(())
    }

    /// How many values there are.
    pub fn len(&self) -> usize
        ensures count { result ≡ length self.now.values }
        ensures within { length self.now.values ≤ self.now.places }
    {
        let _places = self.places;
        self.values.len()
    }

    /// Whether there is none.
    pub fn is_empty(&self) -> bool
        ensures { result ≡ (length self.now.values == 0) }
    {
        self.values.is_empty()
    }

    /// How many more values have a place.
    pub fn spare(&self) -> usize
        ensures { result ≡ spare self.now }
    {
        self.places - self.values.len()
    }

    /// Appends a value. The caller must have a place for it.
    pub fn push(&mut self, value: T)
        requires { 0 < spare self.old }
        ensures { self.new ≡ extended self.old (value ∷ []) }
    {
        self.values.push_back_reserved(value);
    }

    /// Takes the oldest value. None where there is none.
    pub fn pop(&mut self) -> Option<T>
        ensures value { result ≡ slice_get self.old.values 0 }
        ensures left { self.new ≡ record self.old { values = drop 1 self.old.values } }
    {
        self.values.pop_front()
    }

    /// Moves the oldest `count` values to the end of `into`, in order. The caller must have so many
    /// values here, and places for them there.
    pub fn move_front(&mut self, count: usize, into: &mut Reserved<T>)
        requires has { count ≤ length self.old.values }
        requires places { count ≤ spare into.old }
        ensures left { self.new ≡ record self.old { values = drop count self.old.values } }
        ensures moved { into.new ≡ extended into.old (take count self.old.values) }
    {
        pour(&mut self.values, count, &mut into.values);
    }

    /// Changes places with another list.
    pub fn swap(&mut self, other: &mut Reserved<T>)
        ensures this { self.new ≡ other.old }
        ensures that { other.new ≡ self.old }
    {
        mem::swap(&mut self.values, &mut other.values);
        mem::swap(&mut self.places, &mut other.places);
    }
}

// Moves values from the front of one to the back of the other.
fn pour<T>(from: &mut VecDeque<T>, count: usize, into: &mut VecDeque<T>)
    requires has { count ≤ length from.old.items }
    requires places { length into.old.items + count ≤ deque_capacity into.old }
    ensures left { from.new.items ≡ drop count from.old.items }
    ensures moved { into.new.items ≡ into.old.items ++ take count from.old.items }
    ensures from_capacity { deque_capacity from.new ≡ deque_capacity from.old }
    ensures into_capacity { deque_capacity into.new ≡ deque_capacity into.old }
{
    for _i in 0..count {
        if let Some(value) = from.pop_front() {
            into.push_back_reserved(value);
        }
    }
}
