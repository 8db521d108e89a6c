//! A poll: one event of a listener is awaited, and nothing is taken from it.

ghost use Rattle.std.specs.Prelude.{◌≡◌, IsTrue, false};
ghost use Rattle.exec_outcomes.specs.Lawful.{is_lawful, window_of};
ghost use Rattle.exec_request.specs.{States.as_answer, Judging.{Judges, judged_as}, Views.{poll_asked, poll_cursor, poll_window}};

use crate::judge::judge;
use crate::output::{RequestOutput, RetiredResources};
use crate::results::WaiterState;
use crate::window::{Opcode, Window};
use exec_base::error::Error;
use exec_outcomes::outcome::{Kind, OpResult};

/// A poll of a listener. Ports `PollRequest`.
#[derive(Debug, Drop, PartialEq, Eq)]
pub struct PollRequest {
    /// The listener.
    pub fd: u32,
    /// The moment in nanoseconds from which on the request is too late, if there is one.
    pub deadline: Option<u64>,
}

impl PollRequest {
    /// A poll of which nothing has come yet.
    pub fn new(fd: u32, deadline: Option<u64>) -> Self
        ensures { result ≡ record { fd = fd; deadline = deadline } }
    {
        PollRequest { fd, deadline }
    }

    /// What the next operation asks of the kernel.
    pub fn build_sqe(&self) -> Window
        ensures { result ≡ poll_window self.now }
    {
        Window::plain(Opcode::Poll, self.fd, 0, 0)
    }

    /// Ends the request: what is told of it, and all that it owned.
    pub fn complete(self, ended: Result<(), Error>) -> (RequestOutput, RetiredResources)
        ensures told { result.0 ≡ RequestOutput.Poll ended }
        ensures retired { result.1 ≡ RetiredResources.Listener self.fd }
    {
        let retired = RetiredResources::Listener { fd: self.fd };
        (RequestOutput::Poll(ended), retired)
    }

    /// Judges the next result. Answers the outcome that all results so far give, or None where another
    /// operation is needed. The caller must know that the kernel may give this result for the operation.
    pub fn on_cqe(&self, state: WaiterState, given: OpResult) -> Option<Result<(), Error>>
        requires { IsTrue (is_lawful (window_of (poll_asked self.now) (poll_cursor self.now)) given) }
        ensures { Judges (poll_asked self.now) (poll_cursor self.now) (poll_cursor self.now) (judged_as false state given) (as_answer result) }
    {
        judge(Kind::Poll, 1, false, state.is_cancelled(), given)
    }
}
