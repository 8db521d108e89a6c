//! A receive: bytes of a socket come into a buffer, from a place in it on.
//!
//! One that isn't exact is done by any byte. An exact one goes on until its whole range is filled.

ghost use Rattle.std.specs.Prelude.{◌≤◌};

use crate::bytes::fill;
use crate::judge::judge;
use crate::output::{RequestOutput, RetiredResources};
use crate::results::{LARGEST_WINDOW, WaiterState, counted_by};
use crate::window::{Opcode, Window};
use exec_base::error::Error;
use exec_bufs::buf::IoBufMut;
use exec_outcomes::outcome::{Kind, OpResult};

/// A receive into a buffer. Ports `RecvRequest`.
#[derive(Debug, Drop)]
pub struct RecvRequest {
    /// The socket.
    pub fd: u32,
    /// The buffer, whose bytes from `offset` to `len` are to be received.
    pub buf: IoBufMut,
    /// Where the first byte was to go.
    pub start: usize,
    /// Where the next byte goes.
    pub offset: usize,
    /// Where the range ends.
    pub len: usize,
    /// Whether the whole range must be filled.
    pub exact: bool,
    /// The moment in nanoseconds from which on the request is too late, if there is one.
    pub deadline: Option<u64>,
    pub ghost begun: { start ≤ offset },
    pub ghost within: { offset ≤ len },
    pub ghost fits: { len ≤ buf.capacity },
}

impl RecvRequest {
    ghost use Rattle.std.specs.Prelude.{◌≡◌, ◌+◌, IsTrue, false, length};
    ghost use Rattle.exec_bufs.specs.Buffers.{resized};
    ghost use Rattle.exec_request.specs.Bytes.{filled_at};
    ghost use Rattle.exec_request.specs.Kept.Owned.{BytesIn};
    ghost use Rattle.exec_outcomes.specs.Lawful.{is_lawful, window_of};
    ghost use Rattle.exec_outcomes.specs.Outcomes.{outcome_next, bytes_of};
    ghost use Rattle.exec_request.specs.States.{as_answer, received};
    ghost use Rattle.exec_request.specs.Kept.{recv_kept};
    ghost use Rattle.exec_request.specs.Judging.{Judges, judged_as};
    ghost use Rattle.exec_request.specs.Views.{recv_asked, recv_cursor, recv_window};

    /// A receive into this buffer from `offset` to `len`, of which nothing has come yet. The caller must have an
    /// `offset` of at most `len`, and a `len` of at most the buffer's capacity.
    pub fn new(
        fd: u32,
        buf: IoBufMut,
        offset: usize,
        len: usize,
        exact: bool,
        deadline: Option<u64>,
    ) -> Self
        requires within { offset ≤ len }
        requires fits { len ≤ buf.capacity }
        ensures fd { result.fd ≡ fd }
        ensures buf { result.buf ≡ buf }
        ensures start { result.start ≡ offset }
        ensures offset { result.offset ≡ offset }
        ensures len { result.len ≡ len }
        ensures exact { result.exact ≡ exact }
        ensures deadline { result.deadline ≡ deadline }
    {
        RecvRequest {
            fd,
            buf,
            start: offset,
            offset,
            len,
            exact,
            deadline,
        }
    }

    /// Its kind.
    pub(crate) fn kind(&self) -> Kind
        ensures { result ≡ (recv_asked self.now).kind }
    {
        if self.exact {
            return Kind::Fill;
        }
        Kind::Recv
    }

    /// What the next operation asks of the kernel.
    pub fn build_sqe(&self) -> Window
        ensures window { result ≡ recv_window self.now }
        ensures left { result.length ≡ window_of (recv_asked self.now) (recv_cursor self.now) }
    {
        Window::plain(Opcode::Recv, self.fd, self.window_len() as u32, 1)
    }

    /// The most that the next operation may answer.
    pub(crate) fn window_len(&self) -> u64
        ensures { result ≡ window_of (recv_asked self.now) (recv_cursor self.now) }
    {
        ((self.len - self.offset) as u64).min(LARGEST_WINDOW)
    }

    /// Fills bytes of the next window; the buffer grows to hold them.
    pub(crate) fn fill(&mut self, at: usize, count: usize, bytes: &[u8])
        requires within { at + count ≤ (recv_window self.old).length }
        requires whole { length bytes.now ≤ count }
        ensures buffer { self.new.buf ≡ filled_at (self.old.offset + at) (resized count bytes.now) self.old.buf }
        ensures kept { recv_kept self.new ≡ record (recv_kept self.old) { owned = BytesIn self.new.buf } }
        ensures offset { self.new.offset ≡ self.old.offset }
    {
        fill(&mut self.buf, self.offset + at, count, bytes);
    }

    /// Judges the next result. Answers the outcome that all results so far give, or None where another
    /// operation is needed. The caller must know that the kernel may give this result for the operation.
    pub fn on_cqe(&mut self, state: WaiterState, given: OpResult) -> Option<Result<(), Error>>
        requires lawful { IsTrue (is_lawful (window_of (recv_asked self.old) (recv_cursor self.old)) given) }
        ensures judges { Judges (recv_asked self.old) (recv_cursor self.old) (recv_cursor self.new) (judged_as false state given) (as_answer result) }
        ensures kept { recv_kept self.new ≡ recv_kept self.old }
        ensures start { self.new.start ≡ self.old.start }
        ensures offset { self.new.offset ≡ self.old.offset + bytes_of given }
        ensures len { self.new.len ≡ self.old.len }
    {
        let outcome = self.judge(state.is_cancelled(), given);
        self.offset += counted_by(given) as usize;
        outcome
    }

    /// Ends the request: what is told of it, with the buffer, and all else that it owned.
    pub fn complete(self, ended: Result<(), Error>) -> (RequestOutput, RetiredResources)
        ensures told { result.0 ≡ RequestOutput.Recv (received self.buf self.offset ended) }
        ensures retired { result.1 ≡ RetiredResources.Socket self.fd }
    {
        let fd = self.fd;
        let told = match ended {
            Ok(()) => Ok((self.buf, self.offset)),
            Err(error) => Err((self.buf, error)),
        };
        (RequestOutput::Recv(told), RetiredResources::Socket { fd })
    }

    /// What one more result means, after as many bytes as were received.
    fn judge(&self, cancelled: bool, given: OpResult) -> Option<Result<(), Error>>
        requires { IsTrue (is_lawful (window_of (recv_asked self.now) (recv_cursor self.now)) given) }
        ensures { as_answer result ≡ outcome_next (recv_asked self.now) (recv_cursor self.now) (record { result = given; hinted = false; cancelled = cancelled }) }
    {
        let left = (self.len - self.offset) as u64;
        judge(self.kind(), left, false, cancelled, given)
    }
}
