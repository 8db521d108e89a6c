//! What comes of a completion, and of taking an observer away.

use crate::waiter_id::WaiterId;
use exec_base::error::Error;

/// What comes of a completion. Ports `CompletionOutcome`.
#[derive(Debug, Drop, PartialEq, Eq)]
pub enum CompletionOutcome {
    /// The request needs another operation.
    Requeue(WaiterId),
    /// The request ends so, which is to be told to `Waiters::finish`.
    Complete(WaiterId, Result<(), Error>),
}

/// A request whose observer `Waiters::close` took away.
#[derive(Clone, Copy, Debug, PartialEq, Eq)]
pub struct Closed {
    /// Which.
    pub id: WaiterId,
    /// Whether it is to be cancelled.
    pub cancels: bool,
}
