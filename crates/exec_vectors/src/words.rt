//! The words of a line, and how values are written.

ghost use Rattle.std.specs.Prelude.{◌<◌, IfOk};

use crate::fault::Fault;
use exec_base::slab::Id;
use std::alloc::{AllocError, Global};
use std::str::{FromStr, SplitWhitespace};

/// The next word, a number of 64 bits.
pub fn number(words: &mut SplitWhitespace<'_>) -> Result<u64, Fault> {
    match words.next() {
        Some(word) => u64::from_str(word).map_err(|_| Fault::Malformed),
        None => Err(Fault::Malformed),
    }
}

/// The next word, a number of 32 bits.
pub fn short(words: &mut SplitWhitespace<'_>) -> Result<u32, Fault> {
    u32::try_from(number(words)?).map_err(|_| Fault::Malformed)
}

/// The next word, which only names the one after it, a number.
pub fn named(words: &mut SplitWhitespace<'_>) -> Result<u64, Fault> {
    let _name = words.next();
    number(words)
}

/// The next two words, an index and a generation.
pub fn id(words: &mut SplitWhitespace<'_>) -> Result<Id, Fault> {
    Ok(Id {
        index: short(words)?,
        generation: number(words)?,
    })
}

/// An id as its two words.
pub fn text_of_id(alloc: Global, id: Id) -> Result<String, Fault> {
    format!(in alloc; "{} {}", id.index, id.generation).map_err(Fault::Memory)
}

/// A number, or `none`.
pub fn text_of(alloc: Global, value: Option<u64>) -> Result<String, Fault> {
    match value {
        Some(value) => format!(in alloc; "{value}").map_err(Fault::Memory),
        None => word_of(alloc, "none"),
    }
}

/// This word.
pub fn word_of(alloc: Global, word: &str) -> Result<String, Fault> {
    String::from_str(alloc, word).map_err(Fault::Memory)
}

/// The next word, a number below this one.
pub fn place(words: &mut SplitWhitespace<'_>, below: usize) -> Result<usize, Fault>
    ensures { IfOk result (λ place. place < below) }
{
    let place = number(words)? as usize;
    if place < below {
        Ok(place)
    } else {
        Err(Fault::Malformed)
    }
}

/// A list of numbers: `empty`, or those that follow one another by the first and the last.
pub fn text_of_list(alloc: Global, values: &[u64]) -> Result<String, AllocError> {
    if values.is_empty() {
        return String::from_str(alloc, "empty");
    }
    let mut text = String::new(alloc);
    let mut before = None;
    for (index, value) in values.iter().enumerate() {
        let begins = before != Some(value.wrapping_sub(1));
        let ends = values.get(index + 1).copied() != Some(value.wrapping_add(1));
        if begins {
            let space = if index == 0 { "" } else { " " };
            text.push_str(format!(in alloc; "{space}{value}")?.as_str())?;
        } else if ends {
            text.push_str(format!(in alloc; "-{value}")?.as_str())?;
        }
        before = Some(*value);
    }
    Ok(text)
}
