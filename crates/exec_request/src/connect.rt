//! A connect: a socket is connected to an address.
//!
//! A connect that is cancelled may have been made all the same, and counts as made then.

ghost use Rattle.std.specs.Prelude.{◌≡◌, IsTrue, false};
ghost use Rattle.exec_outcomes.specs.Lawful.{is_lawful, window_of};
ghost use Rattle.exec_request.specs.{States.as_answer, Judging.{Judges, judged_as}, Views.{connect_asked, connect_cursor, connect_window}};

use crate::judge::judge;
use crate::output::{RequestOutput, RetiredResources};
use crate::results::WaiterState;
use crate::window::{Opcode, Window};
use exec_base::error::Error;
use exec_outcomes::outcome::{Kind, OpResult};

/// An address of the network. Ports `SockAddr`.
#[derive(Clone, Copy, Debug, PartialEq, Eq)]
pub enum SockAddr {
    /// An address of version 4 with its port.
    V4([u8; 4], u16),
    /// An address of version 6 with its port, flow information and scope.
    V6([u8; 16], u16, u32, u32),
}

/// A connect of a socket. Ports `ConnectRequest`.
#[derive(Debug, Drop, PartialEq, Eq)]
pub struct ConnectRequest {
    /// The socket.
    pub fd: u32,
    /// Where it is to be connected to.
    pub address: SockAddr,
    /// The moment in nanoseconds from which on the request is too late, if there is one.
    pub deadline: Option<u64>,
}

impl ConnectRequest {
    /// A connect of which nothing has come yet.
    pub fn new(fd: u32, address: SockAddr, deadline: Option<u64>) -> Self
        ensures { result ≡ record { fd = fd; address = address; deadline = deadline } }
    {
        ConnectRequest {
            fd,
            address,
            deadline,
        }
    }

    /// What the next operation asks of the kernel.
    pub fn build_sqe(&self) -> Window
        ensures { result ≡ connect_window self.now }
    {
        Window::plain(Opcode::Connect, self.fd, 0, 0)
    }

    /// Ends the request: what is told of it, and all that it owned.
    pub fn complete(self, ended: Result<(), Error>) -> (RequestOutput, RetiredResources)
        ensures told { result.0 ≡ RequestOutput.Connect ended }
        ensures retired { result.1 ≡ RetiredResources.Connect self.fd self.address }
    {
        let retired = RetiredResources::Connect {
            fd: self.fd,
            address: self.address,
        };
        (RequestOutput::Connect(ended), retired)
    }

    /// Judges the next result. Answers the outcome that all results so far give, or None where another
    /// operation is needed. The caller must know that the kernel may give this result for the operation.
    pub fn on_cqe(&self, state: WaiterState, given: OpResult) -> Option<Result<(), Error>>
        requires { IsTrue (is_lawful (window_of (connect_asked self.now) (connect_cursor self.now)) given) }
        ensures { Judges (connect_asked self.now) (connect_cursor self.now) (connect_cursor self.now) (judged_as false state given) (as_answer result) }
    {
        judge(Kind::Connect, 1, false, state.is_cancelled(), given)
    }
}
