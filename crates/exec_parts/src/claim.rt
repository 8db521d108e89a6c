//! The claim of a published worker, for whom it is woken.
//!
//! The lowest of the set that was found is claimed, where the set is still that one. A claim that finds another set is
//! made again, by what was found.

ghost use Rattle.std.specs.Prelude.{◌≡◌, ◌-◌, IsSome};
ghost use Rattle.exec_words.specs.Idle.{lowest_of};
ghost use Rattle.exec_parts.specs.{Words.{exchanged, idle_after}, Pooled.as_claimed};

use crate::parts::worker::Worker;
use exec_words::idle::{PureIdle, WorkerSet};

/// What came of the claim of a worker.
pub enum Claimed {
    /// This worker was claimed.
    Worker(usize),
    /// No worker was in the set.
    Nobody,
    /// The set has changed since it was loaded: this one was found.
    Again(WorkerSet),
}

/// Claims the lowest worker of the set that was found. The caller must have found one.
#[tactic(auto, using(crate::proofs::Claims::claims_nobody))]
pub fn claim(idle: &mut PureIdle, set: &WorkerSet) -> Claimed
    requires some { IsSome (lowest_of set.now.has) }
    ensures answer { result ≡ as_claimed (exchanged set.now idle.old) }
    ensures idle { idle.new ≡ idle_after (exchanged set.now idle.old) idle.old }
{
    match idle.claim_exchange(set) {
        Ok(worker) => Claimed::Worker(worker),
        Err(found) => match found.lowest() {
            Some(_) => Claimed::Again(found),
            None => Claimed::Nobody,
        },
    }
}
