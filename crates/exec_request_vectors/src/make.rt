//! The makers of requests.

use crate::fault::Fault;
use crate::words::{chunks, number, size};
use exec_bufs::buf::IoBufMut;
use exec_request::buffers::WriteBuffers;
use exec_request::cache::Cache;
use exec_request::connect::{ConnectRequest, SockAddr};
use exec_request::poll::PollRequest;
use exec_request::read_at::ReadAtRequest;
use exec_request::recv::RecvRequest;
use exec_request::request::Request;
use exec_request::send::SendRequest;
use exec_request::sync::SyncRequest;
use exec_request::write_at::{WriteAtRequest, WriteAtState};
use std::alloc::Global;
use std::str::SplitWhitespace;

/// The address of every connect.
pub const ADDRESS: SockAddr = SockAddr::V6([7; 16], 80, 5, 6);

/// Makes the request of these words, or None where a direct read can't be. `seen` is what the open's record answers.
pub fn request(
    alloc: Global,
    words: &mut SplitWhitespace<'_>,
    seen: u64,
) -> Result<Option<Request>, Fault> {
    Ok(Some(match words.next() {
        Some("send") => {
            let write = WriteBuffers::from(chunks(alloc, words)?);
            Request::Send(SendRequest::new(3, write, None))
        }
        Some("recv") => receive(alloc, words)?,
        Some("read") => read(alloc, words)?,
        Some("direct") => return direct(alloc, words),
        Some("write") => write(alloc, words, seen)?,
        Some("sync") => Request::Sync(SyncRequest::new(1, seen)),
        Some("connect") => Request::Connect(ConnectRequest::new(3, ADDRESS, None)),
        Some("poll") => Request::Poll(PollRequest::new(4, None)),
        _ => return Err(Fault::Malformed),
    }))
}

/// A receive, by `CAPACITY OFFSET LEN EXACT`.
fn receive(alloc: Global, words: &mut SplitWhitespace<'_>) -> Result<Request, Fault> {
    let capacity = size(words)?;
    let offset = size(words)?;
    let len = size(words)?;
    let exact = number(words)? == 1;
    let buf = IoBufMut::with_capacity(alloc, capacity)?;
    if offset > len || len > buf.capacity() {
        return Err(Fault::Condition);
    }
    Ok(Request::Recv(RecvRequest::new(3, buf, offset, len, exact, None)))
}

/// A read, by `OFFSET LEN HINT`.
fn read(alloc: Global, words: &mut SplitWhitespace<'_>) -> Result<Request, Fault> {
    let offset = number(words)?;
    let len = size(words)?;
    let mut buf = IoBufMut::with_capacity(alloc, len)?;
    buf.set_len(len);
    if buf.len() as u64 > u64::MAX - offset {
        return Err(Fault::Condition);
    }
    Ok(Request::ReadAt(ReadAtRequest::new(1, offset, buf, cache(words)?)))
}

/// A direct read, by `OFFSET LEN`.
fn direct(alloc: Global, words: &mut SplitWhitespace<'_>) -> Result<Option<Request>, Fault> {
    let offset = number(words)?;
    let len = number(words)? as usize;
    Ok(ReadAtRequest::direct(alloc, 1, offset, len)?.map(Request::ReadAt))
}

/// A write, by `STATE OFFSET HINT CHUNKS`.
fn write(alloc: Global, words: &mut SplitWhitespace<'_>, seen: u64) -> Result<Request, Fault> {
    let state = match words.next() {
        Some("writing") => WriteAtState::Writing,
        Some("dsync") => WriteAtState::WritingSync,
        Some("many") => WriteAtState::WritingBeforeSync,
        _ => return Err(Fault::Malformed),
    };
    let offset = number(words)?;
    let cache = cache(words)?;
    let write = WriteBuffers::from(chunks(alloc, words)?);
    if write.remaining_len() as u64 > u64::MAX - offset || state.is_syncing() {
        return Err(Fault::Condition);
    }
    Ok(Request::WriteAt(WriteAtRequest::new(1, offset, write, state, cache, seen)))
}

/// Whether the hint is asked for.
fn cache(words: &mut SplitWhitespace<'_>) -> Result<Cache, Fault> {
    Ok(if number(words)? == 1 {
        Cache::Disabled
    } else {
        Cache::Enabled
    })
}
