//! What comes of a request that is over: the answer for who waits for it, and what it owned.
//!
//! Both leave the executor's own state before anyone else sees them, so an owner's end never runs within it.

ghost use Rattle.std.specs.Prelude.{◌≡◌};
ghost use Rattle.exec_request.specs.States.{as_outcome};

use crate::buffers::WriteBuffers;
use crate::connect::SockAddr;
use exec_base::error::Error;
use exec_bufs::buf::IoBufMut;
use exec_outcomes::outcome::Outcome;

/// The answer of a request. Ports `RequestOutput`.
#[derive(Debug, Drop)]
pub enum RequestOutput {
    /// Of a send.
    Send(Result<(), Error>),
    /// Of a receive: its buffer, and on Ok how far it is filled.
    Recv(Result<(IoBufMut, usize), (IoBufMut, Error)>),
    /// Of a read: its buffer, which an error leaves empty.
    ReadAt(Result<IoBufMut, (IoBufMut, Error)>),
    /// Of a write, with its sync.
    WriteAt(Result<(), Error>),
    /// Of a sync.
    Sync(Result<(), Error>),
    /// Of a connect.
    Connect(Result<(), Error>),
    /// Of a poll.
    Poll(Result<(), Error>),
}

/// What a request owned. Ports `RetiredResources`.
#[derive(Debug, Drop)]
pub enum RetiredResources {
    /// The listener of a poll.
    Listener {
        /// Its number.
        fd: u32,
    },
    /// The socket of a receive.
    Socket {
        /// Its number.
        fd: u32,
    },
    /// The socket and the bytes of a send.
    Send {
        /// The socket's number.
        fd: u32,
        /// All of the bytes.
        write: WriteBuffers,
    },
    /// The open of a read, a write or a sync, with the bytes of a write.
    File {
        /// The open's number.
        file: u32,
        /// All of the bytes, where it was a write.
        write: Option<WriteBuffers>,
    },
    /// The socket and the address of a connect.
    Connect {
        /// The socket's number.
        fd: u32,
        /// Where it was to be connected to.
        address: SockAddr,
    },
}

/// How a request ended, as the word that a log tells.
pub fn to_outcome(ended: Result<(), Error>) -> Outcome
    ensures { result ≡ as_outcome ended }
{
    match ended {
        Ok(()) => Outcome::Success,
        Err(error) => Outcome::Failure(error),
    }
}
