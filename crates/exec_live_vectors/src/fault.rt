//! Why a line has no answer.

use std::alloc::AllocError;
use thiserror::Error;

/// Why a line has no answer.
#[derive(Debug, Drop, Error)]
pub enum Fault {
    /// It is no case and no call of the part.
    #[error("malformed")]
    Malformed,
    /// The call asks of its caller what isn't so.
    #[error("out of its conditions")]
    Condition,
    /// No public call of the live parts answers it.
    #[error("not replayed")]
    Unasked,
    /// There was no memory.
    #[error("no memory")]
    Memory(#[from(alloc)] AllocError),
}
