//! The numbers of results, and how a waiter stands when one is reaped.

ghost use Rattle.std.specs.Prelude.{◌≡◌};
ghost use Rattle.exec_outcomes.specs.Outcomes.{bytes_of};
ghost use Rattle.exec_request.specs.States.{asks_cancel};

use exec_outcomes::outcome::OpResult;

/// EINTR: the operation was interrupted.
pub const INTERRUPTED: u64 = 4;
/// EAGAIN: the operation would have had to wait.
pub const WOULD_BLOCK: u64 = 11;
/// EOPNOTSUPP: the kernel doesn't know the hint.
pub const UNSUPPORTED: u64 = 95;
/// EISCONN: the socket is connected.
pub const CONNECTED: u64 = 106;
/// EALREADY: a connect is under way.
pub const PENDING: u64 = 114;
/// ECANCELED: the operation was cancelled.
pub const CANCELED: u64 = 125;

/// The largest window of an operation, in bytes.
pub const LARGEST_WINDOW: u64 = 0xffff_ffff;
/// The alignment of direct reads, in bytes. Ports `DIRECT_ALIGN`.
pub const DIRECT_ALIGN: u64 = 4096;

/// How the waiter of a request stands when a result is reaped. Ports `WaiterState`.
#[derive(Clone, Copy, Debug, PartialEq, Eq)]
pub enum WaiterState {
    /// Nobody has asked for cancellation.
    Active {
        /// The tick of the wheel at which its deadline comes, where it has one.
        target_tick: Option<u64>,
    },
    /// Cancellation was asked for.
    CancelRequested,
}

impl WaiterState {
    /// Whether cancellation was asked for.
    pub fn is_cancelled(self) -> bool
        ensures { result ≡ asks_cancel self }
    {
        matches!(self, WaiterState::CancelRequested)
    }
}

/// How many bytes a result counts.
pub(crate) fn counted_by(given: OpResult) -> u64
    ensures { result ≡ bytes_of given }
{
    match given {
        OpResult::Count(count) => count,
        OpResult::Errno(_) => 0,
    }
}
