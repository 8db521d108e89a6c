//! The words of a line, and how values are written.

use crate::fault::Fault;
use exec_base::error::{Error, Word};
use exec_bufs::buf::IoBuf;
use exec_bufs::bufs::IoBufs;
use exec_outcomes::outcome::OpResult;
use exec_request::window::{Opcode, Window};
use std::alloc::{AllocError, Global};
use std::str::{FromStr, SplitWhitespace};

/// The next word, a number of 64 bits.
pub fn number(words: &mut SplitWhitespace<'_>) -> Result<u64, Fault> {
    match words.next() {
        Some(word) => u64::from_str(word).map_err(|_| Fault::Malformed),
        None => Err(Fault::Malformed),
    }
}

/// The next word, how many bytes: fewer than a megabyte here.
pub fn size(words: &mut SplitWhitespace<'_>) -> Result<usize, Fault> {
    let count = number(words)?;
    if count > 1 << 20 {
        return Err(Fault::Condition);
    }
    Ok(count as usize)
}

/// The next word, a result: a count, or a minus sign and an error number.
pub fn result(words: &mut SplitWhitespace<'_>) -> Result<OpResult, Fault> {
    let word = words.next().unwrap_or("");
    match word.strip_prefix("-") {
        Some(code) => match u64::from_str(code) {
            Ok(code) => Ok(OpResult::Errno(code)),
            Err(_) => Err(Fault::Malformed),
        },
        None => match u64::from_str(word) {
            Ok(count) => Ok(OpResult::Count(count)),
            Err(_) => Err(Fault::Malformed),
        },
    }
}

/// The byte at this place of all that is moved one way.
pub fn byte_at(place: u64) -> u8 {
    (place % 251) as u8
}

/// The words that are left, chunks by their lengths: `LEN`, or `LENxCOUNT` for equal ones. Their bytes are those of the
/// places from 0 on.
pub fn chunks(alloc: Global, words: &mut SplitWhitespace<'_>) -> Result<IoBufs, Fault> {
    let mut bufs = IoBufs::new(alloc);
    for word in words {
        let (length, count) = word.split_once("x").unwrap_or((word, "1"));
        let length = u32::from_str(length).map_err(|_| Fault::Malformed)?;
        let count = u32::from_str(count).map_err(|_| Fault::Malformed)?;
        add_chunks(alloc, &mut bufs, length, count)?;
    }
    Ok(bufs)
}

/// Adds so many chunks of this length.
fn add_chunks(alloc: Global, bufs: &mut IoBufs, length: u32, count: u32) -> Result<(), Fault> {
    for _ in 0..count {
        let bytes = bytes_from(alloc, bufs.len() as u64, length as usize)?;
        if bufs.len() > 1 << 40 || bytes.len() > 1 << 40 {
            return Err(Fault::Condition);
        }
        if bufs.push(alloc, IoBuf::from(bytes)).is_err() {
            return Err(Fault::Memory(AllocError));
        }
    }
    Ok(())
}

/// The bytes of so many places from one on.
pub fn bytes_from(alloc: Global, place: u64, count: usize) -> Result<Vec<u8>, AllocError> {
    let mut bytes = Vec::with_capacity(alloc, count)?;
    let mut at = place;
    for _ in 0..count {
        bytes.push(byte_at(at))?;
        at = at.wrapping_add(1);
    }
    Ok(bytes)
}

/// How a request ended, by its word.
pub fn text_of_end(alloc: Global, ended: Result<(), Error>) -> Result<String, AllocError> {
    match ended {
        Ok(()) => String::from_str(alloc, "ok"),
        Err(error) => {
            let word = Word(error);
            format!(in alloc; "{word}")
        }
    }
}

/// A window, by its words.
pub fn text_of_window(alloc: Global, window: Window) -> Result<String, AllocError> {
    let kind = operation(window.kind, window.direct);
    let Window {
        offset,
        length,
        chunks,
        ..
    } = window;
    let hint = window.hint as u8;
    let dsync = window.dsync as u8;
    let datasync = (window.kind == Opcode::Sync) as u8;
    format!(in alloc;
        "{kind} offset {offset} len {length} chunks {chunks} hint {hint} dsync {dsync} datasync {datasync}"
    )
}

/// An operation and what it is on, by their words.
fn operation(kind: Opcode, direct: bool) -> &'static str {
    match kind {
        Opcode::Send => "Send socket",
        Opcode::Recv => "Recv socket",
        Opcode::Read if direct => "Read direct",
        Opcode::Read => "Read file",
        Opcode::Write => "Write file",
        Opcode::Sync => "Fsync file",
        Opcode::Connect => "Connect socket",
        Opcode::Poll => "PollAdd listener",
        Opcode::Cancel | Opcode::Wake => "no request",
    }
}
