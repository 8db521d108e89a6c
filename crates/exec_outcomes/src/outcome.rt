//! The words in which results and outcomes are told.

ghost use Rattle.std.specs.Prelude.{◌≡◌};
ghost use Rattle.exec_outcomes.specs.Lawful.{is_lawful};

use exec_base::error::{Error, Word};
use std::fmt;

/// What a request asks for, by the word of a script that makes it. Ports the variants of `Request`, with what
/// tells one from another among those of one variant.
#[derive(Clone, Copy, Debug, PartialEq, Eq)]
pub enum Kind {
    /// To be told of one event of a listener.
    Poll,
    /// To send all bytes of a buffer to a socket.
    Send,
    /// To receive some bytes.
    Recv,
    /// To receive exactly so many bytes.
    Fill,
    /// To connect a socket.
    Connect,
    /// To read exactly so many bytes of a file.
    Read,
    /// The same, with the hint to keep them out of the page cache.
    Hint,
    /// The same, past the page cache, by whole pages.
    Direct,
    /// To write bytes to a file.
    Write,
    /// The same, each operation durable by itself.
    Dsync,
    /// The same, made durable by one sync after all operations.
    Many,
    /// To make durable what was written.
    Sync,
}

/// The largest count that a result can say, which is the largest `i32`.
pub const LARGEST_COUNT: u64 = 0x7fff_ffff;
/// The largest error number that a result can say.
const LARGEST_ERRNO: u64 = 4095;

/// The result of one operation, as the kernel gave it.
#[derive(Clone, Copy, Debug, PartialEq, Eq)]
pub enum OpResult {
    /// So many bytes were moved.
    Count(u64),
    /// The operation failed with this error number, which is at least 1.
    Errno(u64),
}

impl OpResult {
    /// Whether the kernel may give it for an operation that may answer so much: a count of at most that, which an i32
    /// can say, or an error number that there is.
    pub fn is_lawful(self, window: u64) -> bool
        ensures { result ≡ is_lawful window self }
    {
        match self {
            OpResult::Count(count) => count <= window && count <= LARGEST_COUNT,
            OpResult::Errno(code) => 1 <= code && code <= LARGEST_ERRNO,
        }
    }
}

/// A result together with what counts for its meaning.
#[derive(Clone, Copy, Debug, PartialEq, Eq)]
pub struct Judged {
    /// The result.
    pub result: OpResult,
    /// Whether its operation had the hint.
    pub hinted: bool,
    /// Whether cancellation of the request had been asked for when the result was reaped.
    pub cancelled: bool,
}

/// How a request ended.
#[derive(Clone, Copy, Debug, PartialEq, Eq)]
pub enum Outcome {
    /// All that was asked for was done.
    Success,
    /// It was not, for this reason.
    Failure(Error),
}

impl fmt::Display for Kind {
    ghost use Rattle.std.specs.Prelude.{Some};
    ghost use Rattle.exec_outcomes.specs.Text.{text_of_kind};

    ghost output = { λ k. Some (text_of_kind k) };

    fn fmt<W: fmt::Write>(&self, f: &mut fmt::Formatter<W>) -> fmt::Result {
        match self {
            Kind::Poll => write!(f, "poll"),
            Kind::Send => write!(f, "send"),
            Kind::Recv => write!(f, "recv"),
            Kind::Fill => write!(f, "fill"),
            Kind::Connect => write!(f, "conn"),
            Kind::Read => write!(f, "read"),
            Kind::Hint => write!(f, "hint"),
            Kind::Direct => write!(f, "direct"),
            Kind::Write => write!(f, "write"),
            Kind::Dsync => write!(f, "dsync"),
            Kind::Many => write!(f, "many"),
            Kind::Sync => write!(f, "sync"),
        }
    }
}

impl fmt::Display for OpResult {
    ghost use Rattle.std.specs.Prelude.{Some};
    ghost use Rattle.exec_outcomes.specs.Text.{text_of_result};

    ghost output = { λ r. Some (text_of_result r) };

    fn fmt<W: fmt::Write>(&self, f: &mut fmt::Formatter<W>) -> fmt::Result {
        match self {
            OpResult::Count(count) => write!(f, "{count}"),
            OpResult::Errno(code) => write!(f, "-{code}"),
        }
    }
}

impl fmt::Display for Outcome {
    ghost use Rattle.std.specs.Prelude.{Some};
    ghost use Rattle.exec_outcomes.specs.Text.{text_of_outcome};

    ghost output = { λ o. Some (text_of_outcome o) };

    fn fmt<W: fmt::Write>(&self, f: &mut fmt::Formatter<W>) -> fmt::Result {
        match self {
            Outcome::Success => write!(f, "ok"),
            Outcome::Failure(error) => {
                let word = Word(*error);
                write!(f, "{word}")
            }
        }
    }
}
