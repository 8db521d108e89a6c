//! Why a trace was not run to its end.

ghost use Rattle.std.specs.Prelude.{◌≡◌};
ghost use Rattle.exec_run.specs.declared.trace_error.TraceError.TheVariants.{NoMemory};

use crate::field::OutOfRange;
use std::alloc::AllocError;
use thiserror::Error;

/// Why a trace was not run, or not to its end.
#[derive(Clone, Copy, Debug, PartialEq, Eq, Error)]
pub enum TraceError {
    /// A call of the source failed.
    #[error("ReadFault")]
    ReadFault,
    /// The text has more than 2^26 bytes, and this is the number of the first byte too many. Or its lines
    /// ask for more than 2^24 steps, and this is for how many.
    #[error("TooLong {0}")]
    TooLong(u128),
    /// This line, counted from 1, is the first at which the text is no trace.
    #[error("Syntax {0}")]
    Syntax(usize),
    /// This part of the configuration is the first that is out of its range.
    #[error("Config {0}")]
    Config(OutOfRange),
    /// A call of the sink failed.
    #[error("WriteFault")]
    WriteFault,
    /// There was no memory for the text, for the executor or for a line.
    #[error("NoMemory")]
    NoMemory,
}

impl From<AllocError> for TraceError {
    ghost from_gives = { λ _ e. e ≡ NoMemory };

    fn from(_error: AllocError) -> TraceError {
        TraceError::NoMemory
    }
}
