//! Calls on a slab.

use crate::fault::Fault;
use crate::words::{id, number, text_of, text_of_id};
use exec_base::slab::{InsertError, Slab};
use std::alloc::{AllocError, Global};
use std::mem;
use std::str::SplitWhitespace as Words;

/// The slab of `start FIRST`, empty.
pub fn begin(alloc: Global, words: &mut Words<'_>) -> Result<Slab<u64>, Fault> {
    number(words).map(|first| Slab::starting_at(alloc, first))
}

/// Makes a call on a slab, and answers what it gave.
pub fn answer(slab: &mut Slab<u64>, alloc: Global, words: &mut Words<'_>) -> Result<String, Fault> {
    match words.next().unwrap_or("") {
        "insert" => insert(slab, alloc, words),
        "remove" => text_of(alloc, slab.remove(id(words)?)),
        "get" => text_of(alloc, slab.get(id(words)?).copied()),
        "set" => set(slab, alloc, words),
        "len" => text_of(alloc, Some(slab.len() as u64)),
        "slots" => text_of(alloc, Some(slab.slots() as u64)),
        "idat" => id_at(slab, alloc, words),
        _ => Err(Fault::Malformed),
    }
}

/// Inserts a value: its id.
fn insert(slab: &mut Slab<u64>, alloc: Global, words: &mut Words<'_>) -> Result<String, Fault> {
    match slab.insert(alloc, number(words)?) {
        Ok(id) => text_of_id(alloc, id),
        Err(InsertError::Full(_)) => Err(Fault::Condition),
        Err(InsertError::NoMemory(_)) => Err(Fault::Memory(AllocError)),
    }
}

/// The id of the value in a slot.
fn id_at(slab: &Slab<u64>, alloc: Global, words: &mut Words<'_>) -> Result<String, Fault> {
    match slab.id_at(number(words)? as usize) {
        Some(id) => text_of_id(alloc, id),
        None => text_of(alloc, None),
    }
}

/// Writes the value at a live id: the one before.
fn set(slab: &mut Slab<u64>, alloc: Global, words: &mut Words<'_>) -> Result<String, Fault> {
    let (at, value) = (id(words)?, number(words)?);
    let before = slab.get_mut(at).map(|place| mem::replace(place, value));
    text_of(alloc, before)
}
