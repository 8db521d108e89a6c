//! Values under ids that are never given twice.
//!
//! A slab has slots, numbered from 0. A slot holds a value, or is vacant, or is retired. An id names a slot
//! and the generation of the value in it. Removing a value frees its slot for the next value, which gets the
//! next generation, so the old id names nothing from then on. The slot that was freed last is taken first. A
//! slot whose value had the last generation, 2^64 - 1, is retired for good.
//!
//! ```text
//!   new slot ──insert──▶ live ──remove──▶ vacant ──insert──▶ live, one generation on
//!                          └──remove, at the last generation──▶ retired
//! ```
//!
//! What a contract sees is in `specs/Slab.antt`: the slots, the vacant ones in the order in which they are
//! taken, the generation at which slots begin, and for how many slots there is memory. `value_at` is the map
//! from live ids to values (`Updates` says what a call does to it); `IsPast` says which ids no insert gives any
//! more, and `TakesId` that an insert adds its own id to them and no other.
//!
//! The invariant, `IsLaidOut`: the list of vacant slots has each vacant slot once and no other, so an insert is
//! refused as `Full` only where each of 2^32 slots holds a value or is retired; `len` counts the live slots; and the
//! list has memory for all slots, so `remove` takes none.

ghost use Rattle.std.specs.{Prelude.{◌≡◌, ◌+◌, ◌^◌, ◌<◌, ◌≤◌, ◌↔◌, length, [], Some, None, IsSome, IsTrue, IfOk, IfErr, OnErr, OnOk, IsNone, IfNone, OnSome, option_copied}, Option.option_copied_mut, Borrow.{Lends, sem}};

mod laws;

pub use laws::{
    a_slot_retires, a_write_changes_one_value, ids_are_ordered_by_index_and_then_by_generation,
    no_id_is_given_twice, slots_are_taken_again,
};
use std::alloc::{AllocError, Global};
use std::marker::Model;
use std::mem;
use thiserror::Error;

/// The name of a value in a slab. It names that value from the insert to the removal, and nothing else ever.
///
/// Ids are ordered by index and then by generation.
#[derive(Clone, Copy, Debug, PartialEq, Eq, PartialOrd, Ord)]
pub struct Id {
    /// The slot.
    pub index: u32,
    /// How many values the slot had before this one, counted from the generation at which it began.
    pub generation: u64,
}

/// Why an insert was refused, with what was to be inserted. The slab is as it was. `Display` is the name of the
/// reason, as [`crate::error::Error`] has it.
#[derive(Debug, Drop, Error)]
pub enum InsertError<T> {
    /// There are 2^32 slots, and none is vacant.
    #[error("Full")]
    Full(T),
    /// There was no memory for one more slot.
    #[error("NoMemory")]
    NoMemory(T),
}

/// One slot of a slab.
#[derive(Drop)]
enum Slot<T> {
    /// Holds a value of this generation.
    Live(u64, T),
    /// Takes a value, which gets this generation.
    Vacant(u64),
    /// Had a value of the last generation, and takes no other.
    Retired,
}

/// Values under ids that are never given twice. Ports `commonware_runtime`'s `iouring::slab::Slab`.
#[derive(Drop)]
pub struct Slab<T> {
    slots: Vec<Slot<T>>,
    // The vacant slots, the one freed last at the end.
    vacant: Vec<u32>,
    // How many slots are live.
    len: usize,
    // The generation at which a slot begins.
    first: u64,
}

impl<T> Model for Slab<T> {
    ghost use Rattle.std.specs.Prelude.{reverse, vec_capacity, min};
    ghost use Rattle.exec_base.specs.Slab.{Slab as Slots};

    ghost Value = { Slots T };

    ghost use Rattle.exec_base.specs.SlabLayout.{IsLaidOut};

    ghost view = { λ s. record {
      slots = s.slots.items;
      vacant = reverse s.vacant.items;
      first = s.first;
      room = min (vec_capacity s.slots) (vec_capacity s.vacant);
    } };

    ghost invariant = { λ s. IsLaidOut s.slots.items (reverse s.vacant.items) s.len (vec_capacity s.vacant) };
}

impl<T> Slot<T> {
    ghost use Rattle.exec_base.specs.Slab.{is_live, generation_of, value_of, freed};
    ghost use Rattle.exec_base.specs.contracts.slab.Slot.{the_row};

    fn value_mut(&mut self) -> &mut T
        requires { IsTrue (is_live self.old) }
        ensures* lends { sem 𝓛 (Lends (the_row T.row) T.row self.entry result (Slot.Live (generation_of self.entry.now))) }
        ensures value { value_of self.old ≡ Some result.now }
    {
        match self {
            Slot::Live(_, value) => value,
            _ => unreachable!(),
        }
    }

    // Takes the value out. The slot is vacant then, or retired.
    fn free(&mut self) -> T
        requires { IsTrue (is_live self.old) }
        ensures value { value_of self.old ≡ Some result }
        ensures freed { self.new ≡ freed (generation_of self.old) }
    {
        let next = match self {
            Slot::Live(generation, _) => match generation.checked_add(1) {
                Some(next) => Slot::Vacant(next),
                None => Slot::Retired,
            },
            _ => unreachable!(),
        };
        match mem::replace(self, next) {
            Slot::Live(_, value) => value,
            _ => unreachable!(),
        }
    }
}

impl<T> Slab<T> {
    ghost use Rattle.exec_base.specs.Slab.{value_at, slot_at, live_count, id_in, next_id, inserted, removed, HasRoom, IsPast, TakesId, IsRefused, IsFull, Updates};
    ghost use Rattle.exec_base.specs.SlabLends.{lends_value, lends_if};

    /// An empty slab with memory for `capacity` slots, whose slots begin at generation 0. Err only for want of memory.
    pub fn with_capacity(alloc: Global, capacity: usize) -> Result<Self, AllocError>
        ensures slots { IfOk result (λ s. s.slots ≡ []) }
        ensures vacant { IfOk result (λ s. s.vacant ≡ []) }
        ensures first { IfOk result (λ s. s.first ≡ 0) }
        ensures room { IfOk result (λ s. capacity ≤ s.room) }
    {
        Ok(Slab {
            vacant: Vec::with_capacity(alloc, capacity)?,
            slots: Vec::with_capacity(alloc, capacity)?,
            len: 0,
            first: 0,
        })
    }

    /// An empty slab without memory of its own, whose slots begin at `generation`.
    pub fn starting_at(alloc: Global, generation: u64) -> Self
        ensures slots { result.slots ≡ [] }
        ensures vacant { result.vacant ≡ [] }
        ensures first { result.first ≡ generation }
    {
        Slab {
            slots: Vec::new(alloc),
            vacant: Vec::new(alloc),
            len: 0,
            first: generation,
        }
    }

    /// The id that the next insert gives. None where the slab is full.
    pub fn next_id(&self) -> Option<Id>
        ensures id { result ≡ next_id self.now }
        ensures full { IsNone result ↔ IsFull self.now }
    {
        let Some(index) = self.vacant.last() else {
            let index = u32::try_from(self.slots.len()).ok()?;
            let generation = self.first;
            return Some(Id { index, generation });
        };
        match &self.slots[*index as usize] {
            Slot::Vacant(generation) => Some(Id {
                index: *index,
                generation: *generation,
            }),
            _ => unreachable!(),
        }
    }

    /// Inserts a value, and answers its id.
    ///
    /// The slot is the vacant one that was freed last, or else a new one. `Full` comes just where there are
    /// 2^32 slots and none is vacant, `NoMemory` only where there is no room for the slot.
    pub fn insert(&mut self, alloc: Global, value: T) -> Result<Id, InsertError<T>>
        ensures id { IfOk result (λ id. next_id self.old ≡ Some id) }
        ensures inserted { OnOk result (self.new ≡ record (inserted self.old value) { room = self.new.room }) }
        ensures map { IfOk result (λ id. Updates self.old self.new id (Some value)) }
        ensures never_before { IfOk result (λ id. IsPast self.old id → ⊥) }
        ensures never_again { IfOk result (TakesId self.old self.new) }
        ensures room { self.old.room ≤ self.new.room }
        ensures refused { IfErr result (IsRefused self.old value) }
        ensures kept { OnErr result (self.new ≡ self.old) }
    {
        let Some(id) = self.next_id() else {
            return Err(InsertError::Full(value));
        };
        if self.grow(alloc).is_err() {
            return Err(InsertError::NoMemory(value));
        }
        self.fill(id, value);
        Ok(id)
    }

    /// Inserts the value that `make` gives for its id. Refused as `insert` is, before `make` is called. The caller must
    /// have a `make` that may always be called.
    pub fn insert_with<F: FnOnce(Id) -> T>(
        &mut self,
        alloc: Global,
        make: F,
    ) -> Result<Id, InsertError<F>>
        requires { F.IsAlwaysCallable make }
        ensures id { IfOk result (λ id. next_id self.old ≡ Some id) }
        ensures inserted { IfOk result (λ id. (value : T) × F.post make id value
            × (self.new ≡ record (inserted self.old value) { room = self.new.room })
            × Updates self.old self.new id (Some value)) }
        ensures never_before { IfOk result (λ id. IsPast self.old id → ⊥) }
        ensures never_again { IfOk result (TakesId self.old self.new) }
        ensures room { self.old.room ≤ self.new.room }
        ensures refused { IfErr result (IsRefused self.old make) }
        ensures kept { OnErr result (self.new ≡ self.old) }
    {
        let Some(id) = self.next_id() else {
            return Err(InsertError::Full(make));
        };
        if self.grow(alloc).is_err() {
            return Err(InsertError::NoMemory(make));
        }
        let value = make(id);
        self.fill(id, value);
        Ok(id)
    }

    // Makes room for the slot of the next value.
    fn grow(&mut self, _alloc: Global) -> Result<(), AllocError>
        requires { IsSome (next_id self.old) }
        ensures same { self.new ≡ record self.old { room = self.new.room } }
        ensures room { OnOk result (HasRoom self.new) }
        ensures more { self.old.room ≤ self.new.room }
        ensures refused { OnErr result (HasRoom self.old → ⊥) }
        ensures kept { OnErr result (self.new.room ≡ self.old.room) }
    {
        if !self.vacant.is_empty() {
            return Ok(());
        }
        self.slots.reserve(1)?;
        self.vacant.reserve(self.slots.len() + 1)
    }

    // Puts a value into the slot of the next id.
    fn fill(&mut self, id: Id, value: T)
        requires next { next_id self.old ≡ Some id }
        requires room { HasRoom self.old }
        ensures inserted { self.new ≡ inserted self.old value }
        ensures map { Updates self.old self.new id (Some value) }
        ensures never_before { IsPast self.old id → ⊥ }
        ensures never_again { TakesId self.old self.new id }
    {
        self.len += 1;
        let slot = Slot::Live(id.generation, value);
        let Some(index) = self.vacant.pop() else {
            self.slots.push_reserved(slot);
            return;
        };
        match mem::replace(&mut self.slots[index as usize], slot) {
            Slot::Vacant(_) => {}
            _ => unreachable!(),
        }
    }

    /// The value at a live id. None for any other id.
    pub fn get(&self, id: Id) -> Option<&T>
        ensures { option_copied result ≡ value_at self.now id }
    {
        match self.slots.get(id.index as usize) {
            Some(Slot::Live(generation, value)) if *generation == id.generation => Some(value),
            _ => None,
        }
    }

    /// The value at a live id, for writing. None for any other id.
    pub fn get_mut(&mut self, id: Id) -> Option<&mut T>
        ensures* writes_back { sem 𝓛 (lends_if T.row self.entry id result) }
        ensures value { option_copied_mut result ≡ value_at self.old id }
    {
        if self.get(id).is_some() {
            Some(self.value_mut(id))
        } else {
            None
        }
    }

    fn value_mut(&mut self, id: Id) -> &mut T
        requires { IsSome (value_at self.old id) }
        ensures* writes_back { sem 𝓛 (lends_value T.row self.entry id result) }
        ensures value { value_at self.old id ≡ Some result.now }
    {
        self.slots[id.index as usize].value_mut()
    }

    /// Takes the value at a live id out, and frees its slot or retires it. None for any other id, and then
    /// nothing changes.
    pub fn remove(&mut self, id: Id) -> Option<T>
        ensures value { result ≡ value_at self.old id }
        ensures removed { OnSome result (self.new ≡ removed self.old id) }
        ensures map { OnSome result (Updates self.old self.new id None) }
        ensures past { (other : Id) → IsPast self.new other ↔ IsPast self.old other }
        ensures kept { IfNone result (self.new ≡ self.old) }
    {
        if self.get(id).is_none() {
            return None;
        }
        self.len -= 1;
        let value = self.slots[id.index as usize].free();
        if id.generation == u64::MAX {
            return Some(value);
        }
        self.vacant.push_reserved(id.index);
        Some(value)
    }

    /// How many values there are.
    pub fn len(&self) -> usize
        ensures count { result ≡ live_count self.now }
        ensures within { result ≤ length self.now.slots }
    {
        self.len
    }

    /// How many slots there are: live, vacant and retired ones.
    pub fn slots(&self) -> usize
        ensures count { result ≡ length self.now.slots }
        ensures within { result ≤ 2 ^ 32 }
    {
        self.slots.len()
    }

    /// The id of the value in the slot of this index. None where it holds none.
    pub fn id_at(&self, index: usize) -> Option<Id>
        ensures { result ≡ id_in index (slot_at self.now index) }
    {
        match self.slots.get(index)? {
            Slot::Live(generation, _) => Some(Id {
                index: u32::try_from(index).ok()?,
                generation: *generation,
            }),
            _ => None,
        }
    }
}
