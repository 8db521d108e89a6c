//! Worked examples of what is said of requests and of runnables, proved by computation.

ghost use Rattle.std.specs.Prelude.{◌≡◌, true, false, [], ◌∷◌, Some, None};
ghost use Rattle.exec_base.specs.declared.error.Error.TheVariants.{Timeout};
ghost use Rattle.exec_outcomes.specs.declared.outcome.Kind.TheVariants as kind;
ghost use Rattle.exec_outcomes.specs.declared.outcome.Outcome.TheVariants.{Success, Failure};
ghost use Rattle.exec_machine.specs.declared.state.RequestPhase.TheVariants as phase;
ghost use Rattle.exec_machine.specs.declared.state.TaskPhase.TheVariants as task;
ghost use Rattle.exec_core.specs.{Examples.{bare_desk, flagged, holding, of_open, task_zero, with_closed_set, with_task}, Once.QueuesOnce, Turns.{TakeTurns, has_permit}};

/// Which request has the permit of its open: one that is durable, and neither waits for the permit nor is over.
pub fn permits()
    ensures granted { has_permit (of_open kind.Sync phase.Queued) ≡ true }
    ensures in_flight { has_permit (of_open kind.Dsync phase.Flying) ≡ true }
    ensures waiting { has_permit (of_open kind.Sync phase.Gated) ≡ false }
    ensures over { has_permit (of_open kind.Many (phase.Resolved Success)) ≡ false }
    ensures not_durable { has_permit (of_open kind.Write phase.Flying) ≡ false }
{}

/// Requests that take turns: a sync in flight and one that waits for it. Refused are two in flight at once, and a write
/// that was cancelled before it was over.
pub fn turns()
    ensures of_two { TakeTurns (of_open kind.Sync phase.Flying ∷ of_open kind.Sync phase.Gated ∷ []) }
    ensures both_in_flight { TakeTurns (of_open kind.Sync phase.Flying ∷ of_open kind.Dsync phase.Flying ∷ []) → ⊥ }
    ensures cancelled { TakeTurns (record (of_open kind.Write phase.Flying) { cancelled = true } ∷ []) → ⊥ }
    ensures cancelled_late { TakeTurns (record (of_open kind.Write (phase.Resolved (Failure Timeout))) { cancelled = true } ∷ []) }
{}

/// An ordinary task that is to be polled stands in one queue, or in one hand; or its runnable was let go, once the task set
/// is closed. Refused are one that stands in a queue and in a hand at once, one that is to be polled and stands nowhere
/// while the set is open, and one that waits and stands in a queue.
pub fn ordinary_tasks()
    ensures in_a_queue { QueuesOnce (with_task (task_zero None task.Queued) bare_desk (0 ∷ [])) }
    ensures in_a_hand { QueuesOnce (with_task (task_zero None task.Queued) holding []) }
    ensures let_go { QueuesOnce (with_closed_set (with_task (task_zero None task.Queued) bare_desk [])) }
    ensures twice { QueuesOnce (with_task (task_zero None task.Queued) holding (0 ∷ [])) → ⊥ }
    ensures nowhere { QueuesOnce (with_task (task_zero None task.Queued) bare_desk []) → ⊥ }
    ensures waiting { QueuesOnce (with_task (task_zero None task.Idle) bare_desk (0 ∷ [])) → ⊥ }
{}

/// A root that is to be polled has its runnable in the flag of its worker, or in the hand, where it is polled next. Refused
/// are one in neither, also once the task set is closed; one in both; one in a queue besides; one in the hand, which isn't
/// polled next; and one that waits, though the flag is set.
pub fn roots()
    ensures in_the_flag { QueuesOnce (with_task (task_zero (Some 0) task.Queued) (flagged bare_desk) []) }
    ensures in_the_hand { QueuesOnce (with_task (task_zero (Some 0) task.Queued) holding []) }
    ensures nowhere { QueuesOnce (with_task (task_zero (Some 0) task.Queued) bare_desk []) → ⊥ }
    ensures not_let_go { QueuesOnce (with_closed_set (with_task (task_zero (Some 0) task.Queued) bare_desk [])) → ⊥ }
    ensures twice { QueuesOnce (with_task (task_zero (Some 0) task.Queued) (flagged holding) []) → ⊥ }
    ensures in_a_queue { QueuesOnce (with_task (task_zero (Some 0) task.Queued) (flagged bare_desk) (0 ∷ [])) → ⊥ }
    ensures not_next { QueuesOnce (with_task (task_zero (Some 0) task.Queued) (record bare_desk { hand = Some 0 }) []) → ⊥ }
    ensures waiting { QueuesOnce (with_task (task_zero (Some 0) task.Idle) (flagged bare_desk) []) → ⊥ }
{}
