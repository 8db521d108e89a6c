//! A send: all bytes of its buffers go to a socket.
//!
//! The kernel takes as many as it likes at a time, and the next operation goes on from there. The buffers are
//! kept until the request is completed.

ghost use Rattle.std.specs.Prelude.{◌≡◌, true};
ghost use Rattle.exec_request.specs.Buffers.{is_sound};

use crate::buffers::WriteBuffers;
use crate::judge::judge;
use crate::output::{RequestOutput, RetiredResources};
use crate::results::{LARGEST_WINDOW, WaiterState, counted_by};
use crate::window::{Opcode, Window};
use exec_base::error::Error;
use exec_outcomes::outcome::{Kind, OpResult};

/// A send of all bytes of its buffers. Ports `SendRequest`.
#[derive(Debug, Drop)]
pub struct SendRequest {
    /// The socket.
    pub fd: u32,
    /// The bytes, and how many were sent.
    pub write: WriteBuffers,
    /// The moment in nanoseconds from which on the request is too late, if there is one.
    pub deadline: Option<u64>,
    pub ghost sound: { is_sound write ≡ true },
}

impl SendRequest {
    ghost use Rattle.std.specs.Prelude.{◌≤◌, IsTrue, false};
    ghost use Rattle.exec_outcomes.specs.Lawful.{is_lawful, window_of};
    ghost use Rattle.exec_outcomes.specs.Outcomes.{outcome_next};
    ghost use Rattle.exec_request.specs.States.{as_answer};
    ghost use Rattle.exec_request.specs.Kept.{send_kept};
    ghost use Rattle.exec_request.specs.Judging.{Judges, judged_as};
    ghost use Rattle.exec_request.specs.Views.{send_asked, send_cursor, send_window};

    /// A send of these bytes. Some may have gone already. The caller must have bytes with a sound place, as
    /// `WriteBuffers::from` makes it and `advance` keeps it.
    pub fn new(fd: u32, write: WriteBuffers, deadline: Option<u64>) -> Self
        requires { is_sound write ≡ true }
        ensures fd { result.fd ≡ fd }
        ensures write { result.write ≡ write }
        ensures deadline { result.deadline ≡ deadline }
    {
        SendRequest {
            fd,
            write,
            deadline,
        }
    }

    /// What the next operation asks of the kernel.
    pub fn build_sqe(&self) -> Window
        ensures window { result ≡ send_window self.now }
        ensures left { result.length ≤ window_of (send_asked self.now) (send_cursor self.now) }
    {
        let length = self.write.batch_len() as u32;
        Window::plain(Opcode::Send, self.fd, length, self.write.batch_chunks())
    }

    /// The most that the next operation may answer.
    pub(crate) fn window_len(&self) -> u64
        ensures { result ≡ window_of (send_asked self.now) (send_cursor self.now) }
    {
        (self.write.remaining_len() as u64).min(LARGEST_WINDOW)
    }

    /// Judges the next result. Answers the outcome that all results so far give, or None where another
    /// operation is needed. The caller must know that the kernel may give this result for the operation.
    pub fn on_cqe(&mut self, state: WaiterState, given: OpResult) -> Option<Result<(), Error>>
        requires lawful { IsTrue (is_lawful (window_of (send_asked self.old) (send_cursor self.old)) given) }
        ensures judges { Judges (send_asked self.old) (send_cursor self.old) (send_cursor self.new) (judged_as false state given) (as_answer result) }
        ensures kept { send_kept self.new ≡ send_kept self.old }
    {
        let outcome = self.judge(state.is_cancelled(), given);
        self.write.advance(counted_by(given) as usize);
        outcome
    }

    /// Ends the request: what is told of it, and all that it owned.
    pub fn complete(self, ended: Result<(), Error>) -> (RequestOutput, RetiredResources)
        ensures told { result.0 ≡ RequestOutput.Send ended }
        ensures retired { result.1 ≡ RetiredResources.Send self.fd self.write }
    {
        let retired = RetiredResources::Send {
            fd: self.fd,
            write: self.write,
        };
        (RequestOutput::Send(ended), retired)
    }

    /// What one more result means, after as many bytes as were sent.
    fn judge(&self, cancelled: bool, given: OpResult) -> Option<Result<(), Error>>
        requires { IsTrue (is_lawful (window_of (send_asked self.now) (send_cursor self.now)) given) }
        ensures { as_answer result ≡ outcome_next (send_asked self.now) (send_cursor self.now) (record { result = given; hinted = false; cancelled = cancelled }) }
    {
        let left = self.write.remaining_len() as u64;
        judge(Kind::Send, left, false, cancelled, given)
    }
}
