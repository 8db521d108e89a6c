//! The requests that words ask for.

ghost use Rattle.std.specs.Prelude.{◌≡◌, ◌+◌, ◌<◌, ◌^◌, ℕ, true, false, replicate, Some, IfOk, IfSome, IfNone, OnErr, if◌then◌else◌};
ghost use Rattle.exec_outcomes.specs.{Accounts.is_durable, declared.outcome.Kind.Kind as kind};
ghost use Rattle.exec_request.specs.{Hints.asks_hint, Requests.asked_of, Syncing.{is_syncing, write_kind}, declared.buffers.WriteBuffers.TheVariants.Single};
ghost use Rattle.exec_machine.specs.Requests.{of_file, of_socket};
ghost use Rattle.exec_task.specs.Sight.{Sight};
ghost use Rattle.exec_run.specs.Asking.{asks_of_range, asks_of_socket, asks_of_sync, asks_request, moves_bytes, range_operation, CanAsk, CoversSeen, IsFresh, IsInTime, IsRequestOf, IsSocketPart, IsWanted};

use crate::file_range::{FileRange, range_of};
use exec_bufs::buf::{IoBuf, IoBufMut};
use exec_machine::config::ScriptWord;
use exec_request::buffers::WriteBuffers;
use exec_request::cache::Cache;
use exec_request::connect::{ConnectRequest, SockAddr};
use exec_request::poll::PollRequest;
use exec_request::read_at::ReadAtRequest;
use exec_request::recv::RecvRequest;
use exec_request::request::Request;
use exec_request::send::SendRequest;
use exec_request::sync::SyncRequest;
use exec_request::write_at::{WriteAtRequest, WriteAtState};
use exec_task::body::Around;
use exec_text::limits::MOST_ASKED;
use std::alloc::{AllocError, Global};

/// How long requests may take, in nanoseconds.
#[derive(Clone, Copy)]
pub struct Limits {
    /// One of a socket or a listener that is no connect.
    pub rw: u64,
    /// A connect.
    pub connect: u64,
}

/// The request that a word asks for at the moment that is seen, if it asks for one.
#[tactic(auto, using(crate::proofs::Wanted::request_by))]
pub(crate) fn request_of<A: Around>(
    alloc: Global,
    around: &A,
    limits: Limits,
    word: ScriptWord,
) -> Result<Option<Request>, AllocError>
    ensures some { (it : Sight) → A.sees around.now ≡ Some it → IfOk result (λ x. IfSome x
        (IsRequestOf it limits word)) }
    ensures none { (it : Sight) → A.sees around.now ≡ Some it → IfOk result (λ x. IfNone x (CanAsk word →
        IsInTime it.moment limits → asks_request word ≡ false)) }
    ensures err { OnErr result (moves_bytes word ≡ true) }
{
    if let Some(request) = socket_request_of(alloc, around.now(), limits, word)? {
        return Ok(Some(request));
    }
    if let Some(request) = range_request_of(alloc, around, word)? {
        return Ok(Some(request));
    }
    Ok(sync_request_of(around, word))
}

/// The request of a socket or listener that a word asks for at this moment, if it asks for one.
fn socket_request_of(
    alloc: Global,
    now: u64,
    limits: Limits,
    word: ScriptWord,
) -> Result<Option<Request>, AllocError>
    ensures some { IfOk result (λ x. IfSome x (IsWanted limits now word)) }
    ensures undurable { IfOk result (λ x. IfSome x (λ r. is_durable (asked_of r).kind ≡ false)) }
    ensures none { IfOk result (λ x. IfNone x (CanAsk word → IsInTime now limits → asks_of_socket word ≡ false)) }
    ensures err { OnErr result (moves_bytes word ≡ true) }
{
    let Some(deadline) = deadline_of(now, limits.rw) else {
        return Ok(None);
    };
    match word {
        ScriptWord::Send { socket, length } => send_of(alloc, socket, length, deadline),
        ScriptWord::Recv { socket, length } => recv_of(alloc, socket, length, false, deadline),
        ScriptWord::Fill { socket, length } => recv_of(alloc, socket, length, true, deadline),
        ScriptWord::Poll { listener } => Ok(poll_of(listener, deadline)),
        ScriptWord::Connect { socket } => Ok(connect_of(now, limits.connect, socket)),
        _ => Ok(None),
    }
}

/// The request that a word asks for which reads or writes a range of a file, if it asks for one.
fn range_request_of<A: Around>(
    alloc: Global,
    around: &A,
    word: ScriptWord,
) -> Result<Option<Request>, AllocError>
    ensures some { (limits : Limits) (moment : ℕ) → IfOk result (λ x. IfSome x (IsWanted limits moment word)) }
    ensures covers { (it : Sight) → A.sees around.now ≡ Some it → IfOk result (λ x. IfSome x (CoversSeen it)) }
    ensures none { IfOk result (λ x. IfNone x (CanAsk word → asks_of_range word ≡ false)) }
    ensures err { OnErr result (moves_bytes word ≡ true) }
{
    let Some(range) = range_of(word) else {
        return Ok(None);
    };
    match word {
        ScriptWord::Read { .. } => read_of(alloc, range, Cache::Enabled),
        ScriptWord::Hint { .. } => read_of(alloc, range, Cache::Disabled),
        ScriptWord::Direct { .. } => direct_of(alloc, range),
        ScriptWord::Write { .. } => write_of(alloc, around, range, WriteAtState::Writing),
        ScriptWord::Dsync { .. } => write_of(alloc, around, range, WriteAtState::WritingSync),
        ScriptWord::Many { .. } => write_of(alloc, around, range, WriteAtState::WritingBeforeSync),
        _ => Ok(None),
    }
}

/// The sync that a word asks for, if it asks for one.
fn sync_request_of<A: Around>(around: &A, word: ScriptWord) -> Option<Request>
    ensures some { (limits : Limits) (moment : ℕ) → IfSome result (IsWanted limits moment word) }
    ensures covers { (it : Sight) → A.sees around.now ≡ Some it → IfSome result (CoversSeen it) }
    ensures none { IfNone result (CanAsk word → asks_of_sync word ≡ false) }
{
    match word {
        ScriptWord::Sync { file } => sync_of(around, file),
        _ => None,
    }
}

/// The moment so much later, unless that is too late to be said.
fn deadline_of(now: u64, rw: u64) -> Option<u64>
    ensures some { IfSome result (λ moment. moment ≡ now + rw) }
    ensures none { IfNone result (now + rw < 2 ^ 64 → ⊥) }
{
    now.checked_add(rw)
}

/// A send of so many bytes, unless these are too many or there is no such socket.
fn send_of(
    alloc: Global,
    socket: usize,
    length: u64,
    deadline: u64,
) -> Result<Option<Request>, AllocError>
    ensures some { IfOk result (λ x. IfSome x (IsFresh (of_socket kind.Send socket length deadline))) }
    ensures none { IfOk result (λ x. IfNone x (IsSocketPart socket length → ⊥)) }
{
    let Ok(fd) = u32::try_from(socket) else {
        return Ok(None);
    };
    if length > MOST_ASKED {
        return Ok(None);
    }
    let write = bytes_of(alloc, length)?;
    Ok(Some(Request::Send(SendRequest::new(fd, write, Some(deadline)))))
}

/// So many bytes that are to be written.
fn bytes_of(alloc: Global, length: u64) -> Result<WriteBuffers, AllocError>
    ensures { IfOk result (λ write. write ≡ Single (replicate length 0) 0) }
{
    let bytes = vec![in alloc; 0u8; length as usize]?;
    Ok(WriteBuffers::Single {
        buf: IoBuf::from(bytes),
        offset: 0,
    })
}

/// A receive of so many bytes, or of as many at most, unless these are too many or there is no such socket.
fn recv_of(
    alloc: Global,
    socket: usize,
    length: u64,
    exact: bool,
    deadline: u64,
) -> Result<Option<Request>, AllocError>
    ensures some { IfOk result (λ x. IfSome x (IsFresh (of_socket (if exact then kind.Fill else kind.Recv) socket
        length deadline))) }
    ensures none { IfOk result (λ x. IfNone x (IsSocketPart socket length → ⊥)) }
{
    let Ok(fd) = u32::try_from(socket) else {
        return Ok(None);
    };
    if length > MOST_ASKED {
        return Ok(None);
    }
    let count = length as usize;
    let buf = IoBufMut::with_capacity(alloc, count)?;
    let recv = RecvRequest::new(fd, buf, 0, count, exact, Some(deadline));
    Ok(Some(Request::Recv(recv)))
}

/// A poll of the listener, unless there is none.
fn poll_of(listener: usize, deadline: u64) -> Option<Request>
    ensures some { IfSome result (IsFresh (of_socket kind.Poll listener 1 deadline)) }
    ensures none { IfNone result (listener < 2 ^ 32 → ⊥) }
{
    let fd = u32::try_from(listener).ok()?;
    Some(Request::Poll(PollRequest::new(fd, Some(deadline))))
}

/// A connect of the socket at this moment, whose deadline is so much later, unless there is no such socket.
fn connect_of(now: u64, connect: u64, socket: usize) -> Option<Request>
    ensures some { IfSome result (IsFresh (of_socket kind.Connect socket 1 (now + connect))) }
    ensures none { IfNone result (now + connect < 2 ^ 64 → socket < 2 ^ 32 → ⊥) }
{
    let deadline = deadline_of(now, connect)?;
    let fd = u32::try_from(socket).ok()?;
    let address = SockAddr::V4([0, 0, 0, 0], 0);
    Some(Request::Connect(ConnectRequest::new(fd, address, Some(deadline))))
}

/// A read of the range through the page cache.
fn read_of(alloc: Global, range: FileRange, cache: Cache) -> Result<Option<Request>, AllocError>
    ensures some { IfOk result (λ x. IfSome x (IsFresh (of_file (if asks_hint cache then kind.Hint else kind.Read)
        range.file range.offset range.length))) }
    ensures none { IfOk result (λ x. IfNone x ⊥) }
{
    let count = range.length as usize;
    let mut buf = IoBufMut::with_capacity(alloc, count)?;
    buf.set_len(count);
    let read = ReadAtRequest::new(range.file, range.offset, buf, cache);
    Ok(Some(Request::ReadAt(read)))
}

/// A read of the range past the page cache, unless that is empty.
fn direct_of(alloc: Global, range: FileRange) -> Result<Option<Request>, AllocError>
    ensures some { IfOk result (λ x. IfSome x (IsFresh (range_operation kind.Direct range.file range.offset
        range.length))) }
    ensures none { IfOk result (λ x. IfNone x (0 < range.length → ⊥)) }
{
    let FileRange {
        file,
        offset,
        length,
    } = range;
    match ReadAtRequest::direct(alloc, file, offset, length as usize)? {
        Some(read) => Ok(Some(Request::ReadAt(read))),
        None => Ok(None),
    }
}

/// A write of as many bytes as the range has, as durable as this state says.
fn write_of<A: Around>(
    alloc: Global,
    around: &A,
    range: FileRange,
    state: WriteAtState,
) -> Result<Option<Request>, AllocError>
    requires { is_syncing state ≡ false }
    ensures some { IfOk result (λ x. IfSome x (IsFresh (of_file (write_kind state) range.file range.offset
        range.length))) }
    ensures covers { (it : Sight) → A.sees around.now ≡ Some it → IfOk result (λ x. IfSome x (CoversSeen it)) }
    ensures none { IfOk result (λ x. IfNone x ⊥) }
{
    let write = bytes_of(alloc, range.length)?;
    let seen = around.begin_sync(range.file);
    let cache = Cache::Enabled;
    let request = WriteAtRequest::new(range.file, range.offset, write, state, cache, seen);
    Ok(Some(Request::WriteAt(request)))
}

/// A sync of the file, unless there is none.
fn sync_of<A: Around>(around: &A, file: usize) -> Option<Request>
    ensures some { IfSome result (IsFresh (of_file kind.Sync file 0 1)) }
    ensures covers { (it : Sight) → A.sees around.now ≡ Some it → IfSome result (CoversSeen it) }
    ensures none { IfNone result (file < 2 ^ 32 → ⊥) }
{
    let file = u32::try_from(file).ok()?;
    Some(Request::Sync(SyncRequest::new(file, around.begin_sync(file))))
}
