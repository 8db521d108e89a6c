//! Laws of what operations end with.

ghost use Rattle.std.specs.Prelude.{◌≡◌, ℕ, true, false, [], ◌∷◌};
ghost use Rattle.exec_outcomes.specs.declared.outcome.OpResult.TheVariants.{Count, Errno};
ghost use Rattle.exec_driver.specs.{Driving.Driving, Placed.Says};
ghost use Rattle.exec_driver_laws.specs.{Lawful.{is_within, AreWithin, CompletesLawfully, EndsLawfully}, Owning.IsOwned, OwningExamples.{answered, its_entry, polling}, Sharing.{Gates, CallsOne, IsRun}};
ghost use Rattle.exec_ring.specs.{Examples.{send_flying, bytes}, Kernels.landed};

/// No completion of an operation under way is dropped. At each moment of a run, what a ring has of a request in flight is
/// within what that may ask for: the window of its entry or operation is no larger, and a completion has a result that it
/// allows. So a reap takes the completion in, and the request goes on or ends.
pub fn completions_are_taken_in<S, F>()
    ensures kept { (drivers drivers' : ℕ → Driving S F) (gates gates' : Gates) → CallsOne drivers drivers' gates gates' → ((i : ℕ) → Says (drivers i)) → ((i : ℕ) → IsOwned (drivers i)) → ((i : ℕ) → AreWithin (drivers i)) → (i : ℕ) → AreWithin (drivers' i) }
    ensures always { (drivers : ℕ → ℕ → Driving S F) (gates : ℕ → Gates) → IsRun drivers gates → (n worker : ℕ) → AreWithin (drivers n worker) }
    ensures taken_in { (drivers : ℕ → ℕ → Driving S F) (gates : ℕ → Gates) → IsRun drivers gates → (n worker : ℕ) → CompletesLawfully (drivers n worker) }
{}

/// A send of ten bytes is within a window of ten, and of no smaller one; user data that a ring has nothing of is within any.
/// It ends lawfully with ten bytes or with an error number, but not with eleven bytes. The entry of a poll is within what
/// that may ask for. What a poll may end with is a count or an error number, and no error number is 5000.
#[tactic(auto, using(std::proofs::lemmas::Bool::Decides::eqb_tells, crate::proofs::Workers::too_long, crate::proofs::Workers::unlawful))]
pub fn results()
    ensures ten { is_within send_flying 7 10 ≡ true }
    ensures nine { is_within send_flying 7 9 ≡ false }
    ensures nothing { is_within send_flying 8 0 ≡ true }
    ensures lands { EndsLawfully send_flying (landed send_flying 7 (bytes 10)) }
    ensures fails { EndsLawfully send_flying (landed send_flying 7 (Errno 32)) }
    ensures too_long { EndsLawfully send_flying (landed send_flying 7 (bytes 11)) → ⊥ }
    ensures polled { AreWithin (polling true (its_entry ∷ [])) }
    ensures lawful { CompletesLawfully (answered (Count 1)) }
    ensures unlawful { CompletesLawfully (answered (Errno 5000)) → ⊥ }
{}
