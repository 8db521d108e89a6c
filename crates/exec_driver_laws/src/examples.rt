//! Worked examples of drivers that share gates.

ghost use Rattle.std.specs.Prelude.{◌≡◌, true, false, Some, None, Ok};
ghost use Rattle.exec_base.specs.declared.error.Error.TheVariants.{Timeout};
ghost use Rattle.exec_driver.specs.{Examples.{first, idle}, Placed.Says};
ghost use Rattle.exec_outcomes.specs.declared.outcome.OpResult.TheVariants.{Count};
ghost use Rattle.exec_driver_laws.specs.{Examples.{workers, held, gates, spoiling, no_requests, astray}, Serving.{IsCalls}, Laws.{ShareGates, failure_at}, Sharing.{LineUp, FailsFrom, key_of, end_told}};

/// Gates: workers share one whose holder's request alone was granted the permit, and don't where two were.
#[tactic(auto, using(crate::proofs::Workers::not_shared))]
pub fn gates()
    ensures shared { LineUp (workers false) gates }
    ensures two_granted { ShareGates (workers true) held → ⊥ }
{}

/// Failures: a call says of an open what is kept of it, or none does; a reap ends a request, or it goes on; and a run in
/// which an open keeps a failure after the first call.
#[tactic(auto, using(crate::proofs::Workers::spoils))]
pub fn failures()
    ensures kept { failure_at (spoiling 1).opens 1 ≡ Some Timeout }
    ensures other { failure_at (spoiling 1).opens 0 ≡ None }
    ensures ended { end_told 3 (Some (record { id = first; given = Count 5; ended = Some (Ok tt); permit = None })) ≡ Some (key_of 3 first, Ok tt) }
    ensures goes_on { end_told 3 (Some (record { id = first; given = Count 5; ended = None; permit = None })) ≡ None }
    ensures spoils { FailsFrom no_requests spoiling 1 7 1 Timeout }
    ensures not_yet { FailsFrom no_requests spoiling 0 7 1 Timeout → ⊥ }
{}

/// Calls of a worker: what each driver says holds of one without requests, and of none that has a request due which isn't
/// there; and a run's first call is one.
#[tactic(auto, using(crate::proofs::Workers::not_said, crate::proofs::Workers::one_call))]
pub fn calls()
    ensures says { Says idle }
    ensures not_said { Says astray → ⊥ }
    ensures one_call { IsCalls 0 idle idle (spoiling 0) (spoiling 1).opens }
{}
