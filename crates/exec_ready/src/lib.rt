//! The queue of runnables of a worker.
//!
//! A worker that closes lets go of what is left in its queue: it pops and discards until the queue
//! is empty. A runnable under a thief's claim is left to the thief. The tasks of the discarded ones
//! are cleared by the drain of the closed task set.
#![tactic(auto)]

ghost use Rattle.std.specs.Prelude.{◌≡◌, []};
ghost use Rattle.exec_live_queue.specs.Kinds.{Does, IsDrained, handed};
ghost use Rattle.exec_ready.specs.Discards.{HasDiscarded, IsEmptied};

use exec_live_queue::owner::Owner;
use exec_task::runnable::Runnable;

#[cfg(test)]
mod tests;

/// The owner of a worker's run queue. Ports `Ready`.
pub type Ready = Owner<Runnable>;

/// Pops and discards until the queue is empty: it takes every runnable that no thief claims. The
/// caller must know that the task set is closed, so that the tasks are cleared, and be in the
/// middle of no overflow. Ports `Ready::discard`.
#[tactic(auto, using(crate::proofs::Discarding::begins, crate::proofs::Discarding::goes_on, crate::proofs::Discarding::ends))]
pub fn discard(ready: &mut Ready)
    requires whole { handed ready.old ≡ [] }
    ensures whole { handed ready.new ≡ [] }
    ensures drained { IsDrained ready.new }
    ensures discarded { Does HasDiscarded IsEmptied ready.old ready.new }
{
    'runnables: while let Some(runnable) = ready.pop() {
        runnable.discard();
    }
}
