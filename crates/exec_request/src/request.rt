//! A request of any kind.
//!
//! A request owns its numbers and its buffers, and lets go of them only when it is completed, which is when none of
//! its operations is under way: the result of an operation alone says that the kernel has done with the memory.
//! Calls that concern a file are lent the record of its open; where a request has no file there is none.

ghost use Rattle.std.specs.Prelude.{◌≡◌, ◌+◌, ◌≤◌, ◌&&◌, Bool, IsTrue, true, List, length, take, drop, if◌then◌else◌};
ghost use Rattle.exec_bufs.specs.Buffers.{resized};
ghost use Rattle.exec_outcomes.specs.{Accounts.is_durable, Lawful.{is_lawful, window_of}, Outcomes.{HasCome, is_unsupported}, declared.outcome.Judged.Judged};
ghost use Rattle.exec_request.specs.{Hints.{AsksOn, has_hint, without_hint}, Judging.{Judges, judged_as}, Bytes.{window_bytes, lent_of, filled_of, filled_at}, Kept.{kept_of, owned_by}, States.as_answer, Windows.{most_of, moves_in, moves_out}, Requests.{asked_of, cursor_of, hinted_of, deadline_of, goes_on_alone, gate_of, outcome_if_granted, window_by, record_after, output_of, retired_of}};

use crate::connect::ConnectRequest;
use crate::open_record::OpenRecord;
use crate::output::{RequestOutput, RetiredResources};
use crate::poll::PollRequest;
use crate::read_at::ReadAtRequest;
use crate::recv::RecvRequest;
use crate::results::WaiterState;
use crate::send::SendRequest;
use crate::sync::SyncRequest;
use crate::window::Window;
use crate::write_at::{WriteAtRequest, WriteAtState};
use exec_base::error::Error;
use exec_outcomes::outcome::{Kind, LARGEST_COUNT, OpResult};

/// What a task asks the kernel for, with what the kernel may use meanwhile. Ports `Request`.
#[derive(Debug, Drop)]
pub enum Request {
    /// All bytes of its buffers go to a socket.
    Send(SendRequest),
    /// Bytes come from a socket into a buffer.
    Recv(RecvRequest),
    /// A range of a file is read.
    ReadAt(ReadAtRequest),
    /// All bytes of its buffers go to a file, and may be made durable.
    WriteAt(WriteAtRequest),
    /// A file is made durable.
    Sync(SyncRequest),
    /// A socket is connected.
    Connect(ConnectRequest),
    /// One event of a listener is awaited.
    Poll(PollRequest),
}

impl Request {
    /// What it asks for, by the word of a log.
    pub fn kind(&self) -> Kind
        ensures { result ≡ (asked_of self.now).kind }
    {
        match self {
            Request::Send(_) => Kind::Send,
            Request::Recv(recv) => recv.kind(),
            Request::ReadAt(read) => read.way.kind(),
            Request::WriteAt(write) => write.state.kind(),
            Request::Sync(_) => Kind::Sync,
            Request::Connect(_) => Kind::Connect,
            Request::Poll(_) => Kind::Poll,
        }
    }

    /// The moment in nanoseconds from which on the request is too late; requests on files have none. Ports
    /// `deadline`.
    pub fn deadline(&self) -> Option<u64>
        ensures { result ≡ deadline_of self.now }
    {
        match self {
            Request::Send(send) => send.deadline,
            Request::Recv(recv) => recv.deadline,
            Request::Connect(connect) => connect.deadline,
            Request::Poll(poll) => poll.deadline,
            Request::ReadAt(_) | Request::WriteAt(_) | Request::Sync(_) => None,
        }
    }

    /// Whether it goes on to its end where nobody waits for it any more. Ports `retains_on_orphan`.
    pub fn retains_on_orphan(&self) -> bool
        ensures { result ≡ goes_on_alone self.now }
    {
        matches!(self, Request::WriteAt(_) | Request::Sync(_))
    }

    /// The open whose permit it needs, where it is durable. Ports `durability`.
    pub fn durability(&self) -> Option<u32>
        ensures { result ≡ gate_of self.now }
    {
        match self {
            Request::Sync(sync) => Some(sync.file),
            Request::WriteAt(write) => match write.state {
                WriteAtState::Writing => None,
                _ => Some(write.file),
            },
            _ => None,
        }
    }

    /// What ends a durable request that has its permit before it has any operation: a failure that its open keeps,
    /// and for a sync that there is nothing to make durable. The caller must have a durable request. Ports
    /// `prepare_durability`.
    pub fn prepare_durability(&self, open_: &Option<OpenRecord>) -> Option<Result<(), Error>>
        requires { is_durable (asked_of self.now).kind ≡ true }
        ensures { as_answer result ≡ outcome_if_granted self.now open_.now }
    {
        let Some(record) = open_ else {
            return None;
        };
        if let Some(error) = record.failure() {
            return Some(Err(error));
        }
        match self {
            Request::Sync(_) if !record.is_dirty() => Some(Ok(())),
            _ => None,
        }
    }

    /// What the next operation will ask of the kernel. Nothing changes.
    pub fn window(&self, open_: &Option<OpenRecord>) -> Window
        ensures window { result ≡ window_by (has_hint open_.now) self.now }
        ensures left { most_of result ≤ window_of (asked_of self.now) (cursor_of self.now) }
    {
        match self {
            Request::Send(send) => send.build_sqe(),
            Request::Recv(recv) => recv.build_sqe(),
            Request::ReadAt(read) => read.window(open_),
            Request::WriteAt(write) => write.window(open_),
            Request::Sync(sync) => sync.build_sqe(),
            Request::Connect(connect) => connect.build_sqe(),
            Request::Poll(poll) => poll.build_sqe(),
        }
    }

    /// What the next operation asks of the kernel. A request gives up the hint that its open has given up. Ports
    /// `build_sqe`.
    pub fn build_sqe(&mut self, open_: &Option<OpenRecord>) -> Window
        ensures window { result ≡ window_by (has_hint open_.now) self.old }
        ensures left { most_of result ≤ window_of (asked_of self.old) (cursor_of self.old) }
        ensures fits { most_of result ≤ window_of (asked_of self.new) (cursor_of self.new) }
        ensures hint { hinted_of self.new ≡ result.hint }
        ensures again { window_by true self.new ≡ result }
        ensures goes_on { (results : List Judged) → HasCome (asked_of self.old) (cursor_of self.old) results → HasCome (asked_of self.new) (cursor_of self.new) results }
        ensures asks { AsksOn (cursor_of self.old).hinted (cursor_of self.new).hinted (has_hint open_.now) }
        ensures kept { kept_of self.new ≡ kept_of self.old }
    {
        match self {
            Request::Send(send) => send.build_sqe(),
            Request::Recv(recv) => recv.build_sqe(),
            Request::ReadAt(read) => read.build_sqe(open_),
            Request::WriteAt(write) => write.build_sqe(open_),
            Request::Sync(sync) => sync.build_sqe(),
            Request::Connect(connect) => connect.build_sqe(),
            Request::Poll(poll) => poll.build_sqe(),
        }
    }

    /// Copies bytes of the next window of a send or a write, from its byte `at` on, as many as `into` has. The caller
    /// must have such a request, and the window must have the bytes.
    pub fn copy_window(&self, at: usize, into: &mut [u8])
        requires out { moves_out (window_by true self.now).kind ≡ true }
        requires within { at + length into.old ≤ (window_by true self.now).length }
        ensures { into.new ≡ take (length into.old) (drop at (window_bytes self.now)) }
    {
        match self {
            Request::Send(send) => send.write.copy_batch(at, into),
            Request::WriteAt(write) => write.write.copy_batch(at, into),
            Request::Recv(_)
            | Request::ReadAt(_)
            | Request::Sync(_)
            | Request::Connect(_)
            | Request::Poll(_) => unreachable!(),
        }
    }

    /// Fills `count` bytes of the next window of a receive or a read, from its byte `at` on: with these bytes, and
    /// with zeros after their end. A receive's buffer grows to hold them, within its capacity. The caller must have
    /// such a request, and the window must have the room.
    pub fn fill_window(&mut self, at: usize, count: usize, bytes: &[u8])
        requires comes { moves_in (window_by true self.old).kind ≡ true }
        requires within { at + count ≤ (window_by true self.old).length }
        requires whole { length bytes.now ≤ count }
        ensures buffer { lent_of self.new ≡ filled_at (filled_of self.old + at) (resized count bytes.now) (lent_of self.old) }
        ensures kept { kept_of self.new ≡ record (kept_of self.old) { owned = owned_by self.new } }
        ensures place { filled_of self.new ≡ filled_of self.old }
        ensures cursor { cursor_of self.new ≡ cursor_of self.old }
        ensures window { (hinted : Bool) → window_by hinted self.new ≡ window_by hinted self.old }
    {
        match self {
            Request::Recv(recv) => recv.fill(at, count, bytes),
            Request::ReadAt(read) => read.fill(at, count, bytes),
            Request::Send(_)
            | Request::WriteAt(_)
            | Request::Sync(_)
            | Request::Connect(_)
            | Request::Poll(_) => unreachable!(),
        }
    }

    /// Whether the kernel may give this result for the next operation.
    pub fn may_give(&self, given: OpResult) -> bool
        ensures { result ≡ is_lawful (window_of (asked_of self.now) (cursor_of self.now)) given }
    {
        given.is_lawful(self.window_len())
    }

    /// The most that the next operation may answer.
    fn window_len(&self) -> u64
        ensures { result ≡ window_of (asked_of self.now) (cursor_of self.now) }
    {
        match self {
            Request::Send(send) => send.window_len(),
            Request::Recv(recv) => recv.window_len(),
            Request::ReadAt(read) => read.window_len(),
            Request::WriteAt(write) => write.window_len(),
            Request::Sync(_) | Request::Connect(_) | Request::Poll(_) => LARGEST_COUNT,
        }
    }

    /// Judges the next result. Answers the outcome that all results so far give, or None where another operation is
    /// needed. A refused hint is given up, also by the open. The caller must know that the kernel may give this result
    /// for the operation, as `may_give` says. Ports `on_cqe`.
    pub fn on_cqe(
        &mut self,
        state: WaiterState,
        given: OpResult,
        open_: &mut Option<OpenRecord>,
    ) -> Option<Result<(), Error>>
        requires lawful { IsTrue (is_lawful (window_of (asked_of self.old) (cursor_of self.old)) given) }
        ensures judges { Judges (asked_of self.old) (cursor_of self.old) (cursor_of self.new) (judged_as (hinted_of self.old) state given) (as_answer result) }
        ensures kept { kept_of self.new ≡ kept_of self.old }
        ensures open { open_.new ≡ (if hinted_of self.old && is_unsupported given then without_hint open_.old else open_.old) }
    {
        match self {
            Request::Send(send) => send.on_cqe(state, given),
            Request::Recv(recv) => recv.on_cqe(state, given),
            Request::ReadAt(read) => read.on_cqe(state, given, open_),
            Request::WriteAt(write) => write.on_cqe(state, given, open_),
            Request::Sync(sync) => sync.on_cqe(state, given),
            Request::Connect(connect) => connect.on_cqe(state, given),
            Request::Poll(poll) => poll.on_cqe(state, given),
        }
    }

    /// Ends the request with this outcome: answers what is told of it, and all that it owned. None of its operations
    /// may be under way. The record of its open takes the end of a write or a sync in. Ports `complete`.
    pub fn complete(
        self,
        ended: Result<(), Error>,
        open_: &mut Option<OpenRecord>,
    ) -> (RequestOutput, RetiredResources)
        ensures told { result.0 ≡ output_of self ended open_.old }
        ensures retired { result.1 ≡ retired_of self }
        ensures open { open_.new ≡ record_after self ended open_.old }
    {
        match self {
            Request::Send(send) => send.complete(ended),
            Request::Recv(recv) => recv.complete(ended),
            Request::ReadAt(read) => read.complete(ended),
            Request::WriteAt(write) => write.complete(ended, open_),
            Request::Sync(sync) => sync.complete(ended, open_),
            Request::Connect(connect) => connect.complete(ended),
            Request::Poll(poll) => poll.complete(ended),
        }
    }
}
