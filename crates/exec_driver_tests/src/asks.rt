//! The requests of the tables, and what is found of them.

use crate::found::demand;
use crate::worker::{buffers, send};
use exec_base::error::Error;
use exec_bufs::buf::IoBufMut;
use exec_request::cache::Cache;
use exec_request::connect::{ConnectRequest, SockAddr};
use exec_request::output::RequestOutput;
use exec_request::poll::PollRequest;
use exec_request::read_at::ReadAtRequest;
use exec_request::recv::RecvRequest;
use exec_request::request::Request;
use exec_request::sync::SyncRequest;
use exec_request::write_at::{WriteAtRequest, WriteAtState};
use exec_time::timers::Observation;
use std::alloc::Global;
use std::process::Abort;

/// A request to ask for.
#[derive(Clone, Copy)]
pub enum Ask {
    /// A send of ten bytes to socket 0 that has to end by 10 ms.
    Send,
    /// A receive of up to eight bytes from socket 3.
    Receive,
    /// A readiness poll of listener 2, and by when it has to end.
    Poll(Option<u64>),
    /// A write of these bytes to open 0 from this byte on, and whether they may stay in the page cache.
    Write(u64, &'static [u8], Cache),
    /// A write of ten bytes to open 0, each operation of which is durable.
    DurableWrite,
    /// A read of the first four bytes of open 0.
    Read,
    /// A sync of open 0, of which the caller saw so many writes.
    Sync(u64),
    /// A connect of this socket to this address.
    Connect(u32, SockAddr),
}

/// What a task finds.
#[derive(Clone, Copy)]
pub enum Seen {
    /// A send has ended so.
    Send(Result<(), Error>),
    /// A receive has these bytes.
    Received(&'static [u8]),
    /// A read has these bytes.
    Read(&'static [u8]),
    /// A write has ended so.
    Write(Result<(), Error>),
    /// A sync has ended so.
    Sync(Result<(), Error>),
}

/// Makes what is asked for. It fails where memory is wanting, or where a write is far off.
pub fn request(rt: &impl Abort, alloc: Global, ask: Ask) -> Request {
    match ask {
        Ask::Send => send(alloc).expect(rt, "no memory"),
        Ask::Poll(deadline) => Request::Poll(PollRequest::new(2, deadline)),
        Ask::Sync(seen) => Request::Sync(SyncRequest::new(0, seen)),
        Ask::Connect(fd, address) => Request::Connect(ConnectRequest::new(fd, address, None)),
        Ask::Receive => receive(rt, alloc),
        Ask::Read => read(rt, alloc),
        Ask::DurableWrite => durable_write(rt, alloc),
        Ask::Write(at, bytes, cache) => write(rt, alloc, at, bytes, cache),
    }
}

fn receive(rt: &impl Abort, alloc: Global) -> Request {
    let buf = IoBufMut::with_capacity(alloc, 8).expect(rt, "no memory");
    Request::Recv(RecvRequest::new(3, buf, 0, 8, false, None))
}

fn read(rt: &impl Abort, alloc: Global) -> Request {
    let bytes = Vec::from_array(alloc, [7u8; 4]).expect(rt, "no memory");
    let buf = IoBufMut::from(bytes);
    demand(rt, buf.len() <= 4, "too long");
    Request::ReadAt(ReadAtRequest::new(0, 0, buf, Cache::Enabled))
}

fn durable_write(rt: &impl Abort, alloc: Global) -> Request {
    let write = buffers(alloc, b"0123456789").expect(rt, "no memory");
    let state = WriteAtState::WritingSync;
    Request::WriteAt(WriteAtRequest::new(0, 0, write, state, Cache::Enabled, 0))
}

fn write(rt: &impl Abort, alloc: Global, at: u64, bytes: &[u8], cache: Cache) -> Request {
    demand(rt, at <= 100, "too far");
    let write = buffers(alloc, bytes).expect(rt, "no memory");
    let state = WriteAtState::Writing;
    Request::WriteAt(WriteAtRequest::new(0, at, write, state, cache, 0))
}

/// Whether a task found this.
pub fn is_seen(found: &Observation<RequestOutput>, seen: Seen) -> bool {
    match found {
        Observation::Ready(output) => is_output(output, seen),
        _ => false,
    }
}

fn is_output(output: &RequestOutput, seen: Seen) -> bool {
    match seen {
        Seen::Send(ended) => matches!(output, RequestOutput::Send(told) if is_so(told, ended)),
        Seen::Write(ended) => matches!(output, RequestOutput::WriteAt(told) if is_so(told, ended)),
        Seen::Sync(ended) => matches!(output, RequestOutput::Sync(told) if is_so(told, ended)),
        Seen::Received(bytes) => has_received(output, bytes),
        Seen::Read(bytes) => has_read(output, bytes),
    }
}

fn is_so(told: &Result<(), Error>, ended: Result<(), Error>) -> bool {
    *told == ended
}

fn has_received(output: &RequestOutput, bytes: &[u8]) -> bool {
    match output {
        RequestOutput::Recv(Ok((buf, count))) => {
            *count == bytes.len() && buf.as_slice() == bytes
        }
        _ => false,
    }
}

fn has_read(output: &RequestOutput, bytes: &[u8]) -> bool {
    match output {
        RequestOutput::ReadAt(Ok(buf)) => buf.as_slice() == bytes,
        _ => false,
    }
}
