//! The words of a line: numbers, names, results, ends, and requests.

use crate::fault::Fault;
use exec_base::error::{Cause, Error};
use exec_base::slab::Id;
use exec_bufs::buf::{IoBuf, IoBufMut};
use exec_bufs::bufs::IoBufs;
use exec_outcomes::outcome::OpResult;
use exec_request::buffers::WriteBuffers;
use exec_request::cache::Cache;
use exec_request::read_at::ReadAtRequest;
use exec_request::request::Request;
use exec_request::send::SendRequest;
use exec_request::sync::SyncRequest;
use exec_request::write_at::{WriteAtRequest, WriteAtState};
use exec_waiters::waiter_id::WaiterId;
use std::alloc::{AllocError, Global};
use std::str::{FromStr, SplitWhitespace};

/// A number.
pub fn number(words: &mut SplitWhitespace<'_>) -> Result<u64, Fault> {
    match words.next() {
        Some(word) => u64::from_str(word).map_err(|_| Fault::Malformed),
        None => Err(Fault::Malformed),
    }
}

/// A number of 32 bits.
pub fn small(words: &mut SplitWhitespace<'_>) -> Result<u32, Fault> {
    u32::try_from(number(words)?).map_err(|_| Fault::Malformed)
}

/// The name of a request, by `INDEX GENERATION`.
pub fn name(words: &mut SplitWhitespace<'_>) -> Result<WaiterId, Fault> {
    let index = small(words)?;
    let generation = number(words)?;
    Ok(WaiterId(Id { index, generation }))
}

/// A result: a count, or an error number with a minus before it.
pub fn result(words: &mut SplitWhitespace<'_>) -> Result<OpResult, Fault> {
    let word = words.next().unwrap_or("");
    match word.strip_prefix("-") {
        Some(code) => match u64::from_str(code) {
            Ok(code) => Ok(OpResult::Errno(code)),
            Err(_) => Err(Fault::Malformed),
        },
        None => match u64::from_str(word) {
            Ok(count) => Ok(OpResult::Count(count)),
            Err(_) => Err(Fault::Malformed),
        },
    }
}

/// How a request ends.
pub fn ended(words: &mut SplitWhitespace<'_>) -> Result<Result<(), Error>, Fault> {
    match words.next() {
        Some("ok") => Ok(Ok(())),
        Some("Timeout") => Ok(Err(Error::Timeout)),
        Some("SendFailed") => Ok(Err(Error::SendFailed)),
        Some("ReadFailed") => Ok(Err(Error::ReadFailed)),
        Some("WriteFailed") => Ok(Err(Error::WriteFailed)),
        Some("BlobInsufficientLength") => Ok(Err(Error::BlobInsufficientLength)),
        Some("Io") => Ok(Err(Error::Io(Cause::Code(code(words)?)))),
        _ => Err(Fault::Malformed),
    }
}

/// An error number.
fn code(words: &mut SplitWhitespace<'_>) -> Result<u16, Fault> {
    u16::try_from(number(words)?).map_err(|_| Fault::Malformed)
}

/// Eight bytes to send or write.
fn eight_bytes(alloc: Global) -> Result<IoBufs, Fault> {
    let bytes = Vec::from_array(alloc, [1u8, 2, 3, 4, 5, 6, 7, 8])?;
    let mut bufs = IoBufs::new(alloc);
    if bufs.push(alloc, IoBuf::from(bytes)).is_err() {
        return Err(Fault::Memory(AllocError));
    }
    Ok(bufs)
}

/// A write of eight bytes.
fn write(alloc: Global, state: WriteAtState) -> Result<Request, Fault> {
    let write = WriteBuffers::from(eight_bytes(alloc)?);
    if write.remaining_len() > 8 || state.is_syncing() {
        return Err(Fault::Condition);
    }
    Ok(Request::WriteAt(WriteAtRequest::new(1, 0, write, state, Cache::Enabled, 0)))
}

/// A request of this kind.
pub fn request(alloc: Global, words: &mut SplitWhitespace<'_>) -> Result<Request, Fault> {
    Ok(match words.next() {
        Some("send") => {
            let write = WriteBuffers::from(eight_bytes(alloc)?);
            Request::Send(SendRequest::new(3, write, None))
        }
        Some("read") => {
            let mut buf = IoBufMut::with_capacity(alloc, 8)?;
            buf.set_len(8);
            if buf.len() > 8 {
                drop(buf);
                return Err(Fault::Condition);
            }
            Request::ReadAt(ReadAtRequest::new(1, 0, buf, Cache::Enabled))
        }
        Some("write") => write(alloc, WriteAtState::Writing)?,
        Some("dsync") => write(alloc, WriteAtState::WritingSync)?,
        Some("sync") => Request::Sync(SyncRequest::new(1, 0)),
        _ => return Err(Fault::Malformed),
    })
}
