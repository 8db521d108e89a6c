//! The two ends of the program: a source that it reads, and a sink that it writes.
//!
//! Bytes come and go in pieces, and each call either does what it says or fails. Each end has a count of
//! faults: it rises at a call that fails and at no other. So who holds the end can tell from the count alone
//! whether it failed, and a caller that answers something else in place of a failure can be told to be wrong.
//!
//! A source is read by `take` until it answers 0. What it still holds is `left`: a good call moves its front into
//! the caller's buffer, a failed one moves nothing, so reading goes on where it stopped.
//!
//! A sink is in two states with each of its bytes: `given` (it has them) and `passed` (whoever reads behind it
//! has them as well). `give` adds to what is given, and may hold bytes back; `flush` passes on all that was
//! given, or fails. Who is done with a sink flushes it, and may say that its bytes have gone out only where that
//! went well.
//!
//! What an end holds is told where it is known: ends in memory know it, ends over std's reader and writer don't.

ghost use Rattle.std.specs.{Prelude.{◌≡◌, ℕ, ◌<◌, ◌≤◌, min, List, length, take, Option, IfOk, IfSome, OnOk, OnErr}, Io.KnownBytes.append_known};
ghost use Rattle.exec_base.specs.Io.{Rose, Takes, one_more};

mod memory;
mod standard;
mod sure;

pub use memory::{MemInput, MemOutput};
pub use standard::{StdInput, StdOutput};
pub use sure::{SureInput, SureOutput};
use thiserror::Error;

/// Why a call of a source or a sink gave nothing: it failed, and its count of faults rose.
#[derive(Clone, Copy, Debug, PartialEq, Eq, Error)]
#[error("the source or the sink failed")]
pub struct Failed;

/// The end that the program reads: bytes that come in pieces.
pub trait Input {
    // How many calls have failed so far. It never falls, and stands still at the end of `u64`.
    ghost faults: { Self → ℕ };

    // What the source still holds, where that is known.
    ghost left: { Self → Option (List ℕ) };

    /// Moves the next bytes into the front of `buf`, and answers how many. 0 only at the end.
    ///
    /// A call that fails moves no byte, and the next one goes on where the last good one stopped. The caller must have
    /// a `buf` with room for one byte at least.
    fn take(&mut self, buf: &mut [u8]) -> Result<usize, Failed>
        requires { 0 < length buf.old }
        ensures count { faults self.old ≤ faults self.new }
        ensures well { OnOk result (faults self.new ≡ faults self.old) }
        ensures failed { OnErr result (Rose (faults self.old) (faults self.new)) }
        ensures within { IfOk result (λ n. n ≤ length buf.new) }
        ensures told { IfOk result (λ n.
            IfSome (left self.old) (λ bytes. Takes bytes n buf.new (left self.new))) }
        ensures kept_when_failed { OnErr result (left self.new ≡ left self.old) };
}

/// The end that the program writes: bytes that go out in pieces.
pub trait Output {
    // How many calls have failed so far. It never falls, and stands still at the end of `u64`.
    ghost faults: { Self → ℕ };

    // The bytes that the sink was given so far, where that is known.
    ghost given: { Self → Option (List ℕ) };

    // Those of them that it has passed on, where that is known.
    ghost passed: { Self → Option (List ℕ) };

    /// Takes the front of `piece`, at least one byte, and answers how many.
    ///
    /// A call that fails takes no byte. The caller must have a piece of one byte at least.
    fn give(&mut self, piece: &[u8]) -> Result<usize, Failed>
        requires { 0 < length piece.now }
        ensures count { faults self.old ≤ faults self.new }
        ensures well { OnOk result (faults self.new ≡ faults self.old) }
        ensures failed { OnErr result (Rose (faults self.old) (faults self.new)) }
        ensures within { IfOk result (λ n. (0 < n) × (n ≤ length piece.now)) }
        ensures told { IfOk result (λ n.
            given self.new ≡ append_known (given self.old) (take n piece.now)) }
        ensures kept_when_failed { OnErr result (given self.new ≡ given self.old) };

    /// Passes on all that the sink was given.
    ///
    /// Of a call that fails it isn't known how much it passed on.
    fn flush(&mut self) -> Result<(), Failed>
        ensures count { faults self.old ≤ faults self.new }
        ensures well { OnOk result (faults self.new ≡ faults self.old) }
        ensures failed { OnErr result (Rose (faults self.old) (faults self.new)) }
        ensures kept { given self.new ≡ given self.old }
        ensures passes { OnOk result (passed self.new ≡ given self.new) };
}

/// A count of faults after one more, which stands still at the end of `u64`.
fn raised(faults: u64) -> u64
    ensures { result ≡ one_more faults }
{
    faults.saturating_add(1)
}

/// Copies into the front of `to` what both have room for, `most` bytes at most, and answers how many.
fn copy_front(from: &[u8], to: &mut [u8], most: usize) -> usize
    ensures count { result ≡ min (min (length from.now) (length to.old)) most }
    ensures front { take result to.new ≡ take result from.now }
{
    let count = from.len().min(to.len()).min(most);
    to[..count].copy_from_slice(&from[..count]);
    count
}
