//! The requests of the worked examples.

use exec_base::error::Error;
use exec_bufs::buf::{IoBuf, IoBufMut};
use exec_bufs::bufs::IoBufs;
use exec_request::buffers::WriteBuffers;
use exec_request::cache::Cache;
use exec_request::connect::{ConnectRequest, SockAddr};
use exec_request::open_record::OpenRecord;
use exec_request::poll::PollRequest;
use exec_request::read_at::ReadAtRequest;
use exec_request::recv::RecvRequest;
use exec_request::request::Request;
use exec_request::send::SendRequest;
use exec_request::sync::SyncRequest;
use exec_request::write_at::{WriteAtRequest, WriteAtState};
use std::alloc::Global;
use std::test::Fail;

/// A request to make.
pub enum Ask {
    /// A send of so many chunks of so many bytes each, with its deadline.
    Send(usize, usize, Option<u64>),
    /// An exact receive of 8 bytes, whose socket was made 4.
    Receive,
    /// A connect of socket 5.
    Connect,
    /// A readiness poll of listener 6.
    Poll,
    /// A direct read of 3000 bytes at 5000.
    Direct,
    /// A read of 100 bytes with the hint.
    Read,
    /// A write of one chunk of so many bytes at the file's start.
    Write(usize, WriteAtState),
    /// A sync that covers so many changes.
    Sync(u64),
}

/// Makes what is asked for, with this record of its open. An `Err` where memory is wanting.
pub fn request(alloc: Global, ask: &Ask, open_: &Option<OpenRecord>) -> Result<Request, Fail> {
    match *ask {
        Ask::Send(count, length, deadline) => send(alloc, count, length, deadline),
        Ask::Receive => receive(alloc),
        Ask::Connect => {
            let address = SockAddr::V4([127, 0, 0, 1], 80);
            Ok(Request::Connect(ConnectRequest::new(5, address, None)))
        }
        Ask::Poll => Ok(Request::Poll(PollRequest::new(6, Some(9)))),
        Ask::Direct => direct(alloc),
        Ask::Read => read(alloc),
        Ask::Write(length, state) => write(alloc, length, state, open_),
        Ask::Sync(seen) => Ok(Request::Sync(SyncRequest::new(2, seen))),
    }
}

/// Chunks of so many bytes each.
pub fn chunks(alloc: Global, count: usize, length: usize) -> Result<IoBufs, Fail> {
    let mut bufs = IoBufs::new(alloc);
    for _ in 0..count {
        let bytes = vec![in alloc; 7u8; length]?;
        if bufs.len() <= 1 << 40 && length <= 1 << 40 {
            bufs.push(alloc, IoBuf::from(bytes))?;
        }
    }
    Ok(bufs)
}

fn send(
    alloc: Global,
    count: usize,
    length: usize,
    deadline: Option<u64>,
) -> Result<Request, Fail> {
    let write = WriteBuffers::from(chunks(alloc, count, length)?);
    Ok(Request::Send(SendRequest::new(3, write, deadline)))
}

fn receive(alloc: Global) -> Result<Request, Fail> {
    let buf = IoBufMut::with_capacity(alloc, 8)?;
    let mut request = RecvRequest::new(3, buf, 0, 8, true, Some(1_000));
    request.fd = 4;
    Ok(Request::Recv(request))
}

fn direct(alloc: Global) -> Result<Request, Fail> {
    match ReadAtRequest::direct(alloc, 1, 5_000, 3_000)? {
        Some(read) => Ok(Request::ReadAt(read)),
        None => Err("no direct read".into()),
    }
}

fn read(alloc: Global) -> Result<Request, Fail> {
    let bytes = vec![in alloc; 0u8; 100]?;
    let buf = IoBufMut::from(bytes);
    if buf.len() > 100 {
        return Err(Fail::from(Error::Full));
    }
    Ok(Request::ReadAt(ReadAtRequest::new(1, 0, buf, Cache::Disabled)))
}

fn write(
    alloc: Global,
    length: usize,
    state: WriteAtState,
    open_: &Option<OpenRecord>,
) -> Result<Request, Fail> {
    let seen = match open_ {
        Some(record) => record.begin_sync(),
        None => 0,
    };
    let write = WriteBuffers::from(chunks(alloc, 1, length)?);
    if write.remaining_len() > 1 << 50 || state.is_syncing() {
        return Err(Fail::from(Error::Full));
    }
    Ok(Request::WriteAt(WriteAtRequest::new(2, 0, write, state, Cache::Enabled, seen)))
}
