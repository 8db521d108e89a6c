use std::fmt;
use thiserror::Error;

/// What lies behind an [`Error::Io`], a failed sync or a failed resize.
#[derive(Clone, Copy, Debug, PartialEq, Eq, Error)]
pub enum Cause {
    /// The error number of the operation, as the kernel gave it.
    #[error("{0}")]
    Code(u16),
    /// The request was out of the range that the executor can serve.
    #[error("InvalidInput")]
    InvalidInput,
    /// The worker was closing or gone.
    #[error("Closed")]
    Closed,
}

/// Why a request or a call didn't succeed. Ports `commonware_runtime::Error`: an open is named by its
/// number, and `Display` is the outcome word of a log line, as [`Word`] has it.
#[derive(Clone, Copy, Debug, PartialEq, Eq, Error)]
#[error("{}", Word(*self))]
pub enum Error {
    /// The deadline passed, or the request was given up.
    Timeout,
    /// The other side is closed.
    Closed,
    /// A send moved no byte, or the kernel refused it.
    SendFailed,
    /// A receive found the end, or the kernel refused it.
    RecvFailed,
    /// A read was refused.
    ReadFailed,
    /// A write was refused.
    WriteFailed,
    /// A connection could not be made or accepted.
    ConnectionFailed,
    /// A number is no listener, or is bound already.
    BindFailed,
    /// The operation failed for a cause that is handed on.
    Io(Cause),
    /// A read came to the end of its file before its length.
    BlobInsufficientLength,
    /// The end of a range is above what an offset can say.
    OffsetOverflow,
    /// A sync of this open failed, now or before. The word doesn't show the open's number.
    BlobSyncFailed(u32, Cause),
    /// The file of this open could not be resized. The word doesn't show the open's number.
    BlobResizeFailed(u32, Cause),
    /// There was no memory.
    NoMemory,
    /// A table has no place left.
    Full,
}

/// The outcome word of an error, as a log line has it: the variant's name, and after a space its cause
/// where it has one. A cause is its code in decimal, or `InvalidInput`, or `Closed`.
#[derive(Clone, Copy)]
pub struct Word(pub Error);

impl fmt::Display for Word {
    ghost use Rattle.std.specs.Prelude.{Some};
    ghost use Rattle.exec_base.specs.Error.{word_of};

    ghost output = { λ w. Some (word_of w.0) };

    fn fmt<W: fmt::Write>(&self, f: &mut fmt::Formatter<W>) -> fmt::Result {
        match self.0 {
            Error::Timeout => f.write_str("Timeout"),
            Error::Closed => f.write_str("Closed"),
            Error::SendFailed => f.write_str("SendFailed"),
            Error::RecvFailed => f.write_str("RecvFailed"),
            Error::ReadFailed => f.write_str("ReadFailed"),
            Error::WriteFailed => f.write_str("WriteFailed"),
            Error::ConnectionFailed => f.write_str("ConnectionFailed"),
            Error::BindFailed => f.write_str("BindFailed"),
            Error::Io(cause) => write!(f, "Io {}", CauseWord(cause)),
            Error::BlobInsufficientLength => f.write_str("BlobInsufficientLength"),
            Error::OffsetOverflow => f.write_str("OffsetOverflow"),
            Error::BlobSyncFailed(_, cause) => write!(f, "BlobSyncFailed {}", CauseWord(cause)),
            Error::BlobResizeFailed(_, cause) => write!(f, "BlobResizeFailed {}", CauseWord(cause)),
            Error::NoMemory => f.write_str("NoMemory"),
            Error::Full => f.write_str("Full"),
        }
    }
}

/// The word of a cause, which ends the word of its error.
#[derive(Clone, Copy)]
struct CauseWord(Cause);

impl fmt::Display for CauseWord {
    ghost use Rattle.std.specs.Prelude.{Some};
    ghost use Rattle.exec_base.specs.Error.{cause_word};

    ghost output = { λ w. Some (cause_word w.0) };

    fn fmt<W: fmt::Write>(&self, f: &mut fmt::Formatter<W>) -> fmt::Result {
        match self.0 {
            Cause::Code(code) => write!(f, "{code}"),
            Cause::InvalidInput => f.write_str("InvalidInput"),
            Cause::Closed => f.write_str("Closed"),
        }
    }
}
