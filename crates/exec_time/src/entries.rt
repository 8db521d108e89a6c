//! The entries of a wheel: what is scheduled, by slot, and in a slot in order of scheduling.
//!
//! The bucket of a slot is the entries whose tick falls into it, in their order. Since they stand by slot, one is put in
//! behind its bucket, and where a bucket begins and ends is found by halving.

ghost use Rattle.std.specs.{Prelude.{◌≡◌, ℕ, ◌+◌, ◌<◌, ◌≤◌, ◌%◌, [], ◌∷◌, ◌++◌, false, length, filter, not, vec_len, slice_index_or, ◌==◌, if◌then◌else◌, slice_range}, List.remove_range, Vec.vec_capacity, VecDeque.{deque_len, deque_capacity}};
ghost use Rattle.exec_time.specs.Entries.{bucket_in, is_in_slot, IsBySlot};

use crate::wheel::Tick;
use exec_base::slab::Id;
use std::collections::VecDeque;
use std::ops::Range;

/// An id that is scheduled at a tick.
#[derive(Clone, Copy)]
pub(crate) struct Entry {
    /// Its tick.
    pub(crate) tick: Tick,
    /// The id.
    pub(crate) id: Id,
}

/// Appends the ids of the entries in this slot to those that are ready.
pub(crate) fn collect(entries: &[Entry], slots: u64, slot: u64, ready: &mut VecDeque<Id>)
    requires has_slots { 0 < slots }
    requires by_slot { IsBySlot slots entries.now }
    requires room { deque_len ready.old + length entries.now ≤ deque_capacity ready.old }
    ensures ids { ready.new.items ≡ ready.old.items ++ bucket_in entries.now slots slot }
    ensures capacity { deque_capacity ready.new ≡ deque_capacity ready.old }
{
    for entry in &entries[bucket_of(entries, slots, slot)] {
        ready.push_back_reserved(entry.id);
    }
}

/// Where the entries of the slots up to this one end.
fn end_of(entries: &[Entry], slots: u64, slot: u64) -> usize
    requires has_slots { 0 < slots }
    requires by_slot { IsBySlot slots entries.now }
    ensures within { result ≤ length entries.now }
    ensures before { (k : ℕ) (d : _) → k < result → (slice_index_or entries.now k d).tick % slots ≤ slot }
    ensures past { (k : ℕ) (d : _) → result ≤ k → k < length entries.now → slot < (slice_index_or entries.now k d).tick % slots }
{
    entries.partition_point(|entry| entry.tick % slots <= slot)
}

/// Where the entries of the slots below this one end.
fn start_of(entries: &[Entry], slots: u64, slot: u64) -> usize
    requires has_slots { 0 < slots }
    requires by_slot { IsBySlot slots entries.now }
    ensures within { result ≤ length entries.now }
    ensures before { (k : ℕ) (d : _) → k < result → (slice_index_or entries.now k d).tick % slots < slot }
    ensures past { (k : ℕ) (d : _) → result ≤ k → k < length entries.now → slot ≤ (slice_index_or entries.now k d).tick % slots }
{
    match slot.checked_sub(1) {
        Some(below) => end_of(entries, slots, below),
        None => 0,
    }
}

/// Where the entries of this slot stand.
fn bucket_of(entries: &[Entry], slots: u64, slot: u64) -> Range<usize>
    requires has_slots { 0 < slots }
    requires by_slot { IsBySlot slots entries.now }
    ensures ordered { result.start ≤ result.end }
    ensures within { result.end ≤ length entries.now }
    ensures inside { slice_range entries.now result.start result.end ≡ filter (is_in_slot slots slot) entries.now }
    ensures outside { remove_range entries.now result.start result.end ≡ filter (λ entry. not (is_in_slot slots slot entry)) entries.now }
{
    start_of(entries, slots, slot)..end_of(entries, slots, slot)
}

/// Whether a slot has any entry. Slots are mostly looked at in their order, before the first that has one.
pub(crate) fn has_any(entries: &[Entry], slots: u64, slot: u64) -> bool
    requires has_slots { 0 < slots }
    requires by_slot { IsBySlot slots entries.now }
    ensures none { result ≡ false → bucket_in entries.now slots slot ≡ [] }
{
    let Some(first) = entries.first() else {
        return false;
    };
    if slot < first.tick % slots {
        return false;
    }
    is_reached(entries, slots, slot)
}

/// Whether a slot has any entry, by the last of those up to it.
fn is_reached(entries: &[Entry], slots: u64, slot: u64) -> bool
    requires has_slots { 0 < slots }
    requires by_slot { IsBySlot slots entries.now }
    ensures none { result ≡ false → bucket_in entries.now slots slot ≡ [] }
{
    match end_of(entries, slots, slot).checked_sub(1) {
        Some(last) => entries[last].tick % slots == slot,
        None => false,
    }
}

/// Puts an entry behind those of its slot. The caller must have room for it.
pub(crate) fn put(entries: &mut Vec<Entry>, slots: u64, entry: Entry)
    requires has_slots { 0 < slots }
    requires by_slot { IsBySlot slots entries.old.items }
    requires room { vec_len entries.old < vec_capacity entries.old }
    ensures buckets { (s : ℕ) → bucket_in entries.new.items slots s ≡ bucket_in entries.old.items slots s ++ (if is_in_slot slots s entry then entry.id ∷ [] else []) }
    ensures by_slot { IsBySlot slots entries.new.items }
    ensures more { vec_len entries.new ≡ vec_len entries.old + 1 }
    ensures capacity { vec_capacity entries.new ≡ vec_capacity entries.old }
{
    let place = end_of(entries, slots, entry.tick % slots);
    if entries.insert(place, entry).is_err() {
        unreachable!()
    }
}

/// Discards the entries in this slot.
pub(crate) fn discard(entries: &mut Vec<Entry>, slots: u64, slot: u64)
    requires has_slots { 0 < slots }
    requires by_slot { IsBySlot slots entries.old.items }
    ensures others { entries.new.items ≡ filter (λ entry. not (is_in_slot slots slot entry)) entries.old.items }
    ensures by_slot { IsBySlot slots entries.new.items }
    ensures fewer { vec_len entries.new ≤ vec_len entries.old }
    ensures capacity { vec_capacity entries.new ≡ vec_capacity entries.old }
{
    let bucket = bucket_of(entries, slots, slot);
    entries.drain(bucket);
}

/// Discards the entries in this slot unless one of them is active.
pub(crate) fn make_way(entries: &mut Vec<Entry>, slots: u64, slot: u64, active: bool)
    requires has_slots { 0 < slots }
    requires by_slot { IsBySlot slots entries.old.items }
    ensures buckets { (s : ℕ) → bucket_in entries.new.items slots s ≡ (if active then bucket_in entries.old.items slots s else (if slot == s then [] else bucket_in entries.old.items slots s)) }
    ensures by_slot { IsBySlot slots entries.new.items }
    ensures fewer { vec_len entries.new ≤ vec_len entries.old }
    ensures capacity { vec_capacity entries.new ≡ vec_capacity entries.old }
{
    if !active && has_any(entries, slots, slot) {
        discard(entries, slots, slot);
    }
}
