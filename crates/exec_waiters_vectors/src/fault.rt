//! Why a line could not be replayed.

use std::alloc::AllocError;
use thiserror::Error;

/// Why a line could not be replayed.
#[derive(Debug, Drop, Error)]
pub enum Fault {
    /// It is no case and no call of the part.
    #[error("malformed")]
    Malformed,
    /// The call asks of its caller what isn't so.
    #[error("out of its conditions")]
    Condition,
    /// There was no memory.
    #[error("no memory")]
    Memory(#[from(alloc)] AllocError),
}
