//! Worked examples of phases, runnables, sets and drains, proved by computation: good ones and refused ones.

ghost use Rattle.std.specs.Prelude.{◌≡◌, ◌≢◌, [], ◌∷◌, Some, None, true, ℕ};
ghost use Rattle.exec_task.specs.{Phases.{is_idle, queued_body, body_of, woken, begun, pended, pend_answer, cleared, runnable_of, over}, TaskRuns.{AreCalls, after_all, after_pending_poll, Call.{Wake, Begin, Pend, Done, Clear}, Meanwhile.{Wakes, Clears}}, TaskSet.{held, shard_of, removed, IsRefused, to_come, drain_of, next_shard}, Sight.grows, Polls.ended_by, Examples.{no, in_phase, cleared_in, fresh, two_left, four_in_two}, declared.{task.Phase.Phase, body.{Ended.Ended, Act.Act}, runnable.AfterPoll.AfterPoll, tasks.Refusal.Refusal}};

/// What a wake makes of a phase, and when it publishes a runnable; and which polls begin.
pub fn wakes_and_beginnings()
    ensures idle { woken {B = ℕ} (Phase.Idle 7) ≡ Phase.Queued 7 }
    ensures running { woken {B = ℕ} Phase.Running ≡ Phase.Notified }
    ensures over { woken {B = ℕ} Phase.Complete ≡ Phase.Complete }
    ensures publishes { is_idle {B = ℕ} (Phase.Idle 7) ≡ true }
    ensures not_in_a_poll { is_idle {B = ℕ} Phase.Running ≢ true }
    ensures body { queued_body {B = ℕ} (Phase.Queued 7) ≡ Some 7 }
    ensures begun { begun {B = ℕ} (Phase.Queued 7) ≡ Phase.Running }
    ensures stale { queued_body {B = ℕ} Phase.Complete ≡ None }
    ensures not_twice { queued_body {B = ℕ} (begun {B = ℕ} (Phase.Queued 7)) ≢ Some 7 }
{}

/// A poll that ends pending: with no wake, with one, and after a clear.
pub fn pends()
    ensures idle { pended (in_phase Phase.Running) 8 ≡ in_phase (Phase.Idle 8) }
    ensures nothing { pend_answer (in_phase Phase.Running) ≡ AfterPoll.Done }
    ensures queued { pended (in_phase Phase.Notified) 8 ≡ in_phase (Phase.Queued 8) }
    ensures requeued { pend_answer (in_phase Phase.Notified) ≡ AfterPoll.Requeue (runnable_of (in_phase Phase.Notified)) }
    ensures over { pended (cleared_in Phase.Notified) 8 ≡ in_phase Phase.Complete }
    ensures retired { pend_answer (cleared_in Phase.Notified) ≡ AfterPoll.Retire (no 5) Ended.Closed }
    ensures not_asleep { pended (in_phase Phase.Notified) 8 ≢ in_phase (Phase.Idle 8) }
{}

/// A clear ends a task that nobody polls, and marks one that is polled.
pub fn clears()
    ensures queued { cleared (in_phase (Phase.Queued 7)) ≡ in_phase Phase.Complete }
    ensures body { body_of {B = ℕ} (Phase.Queued 7) ≡ Some 7 }
    ensures polled { cleared (in_phase Phase.Running) ≡ cleared_in Phase.Running }
    ensures not_the_polled_body { body_of {B = ℕ} Phase.Running ≢ Some 7 }
    ensures done { over (cleared_in Phase.Running) ≡ in_phase Phase.Complete }
{}

/// Calls on a new task: two wakes in a poll give one runnable back; nobody polls it twice at once.
pub fn calls()
    ensures good { AreCalls fresh (Begin ∷ Wake ∷ Wake ∷ Pend 8 ∷ Begin ∷ Done ∷ []) }
    ensures one { (after_all fresh (Begin ∷ Wake ∷ Wake ∷ Pend 8 ∷ [])).runnables ≡ 1 }
    ensures none { (after_all fresh (Begin ∷ Wake ∷ Clear ∷ Pend 8 ∷ [])).runnables ≡ 0 }
    ensures not_two_polls { AreCalls fresh (Begin ∷ Begin ∷ []) → ⊥ }
    ensures not_unasked { AreCalls fresh (Pend 8 ∷ []) → ⊥ }
    ensures meanwhile { after_pending_poll (in_phase Phase.Running) (Wakes ∷ Wakes ∷ []) ≡ AfterPoll.Requeue (runnable_of (in_phase Phase.Running)) }
    ensures cleared { after_pending_poll (in_phase Phase.Running) (Wakes ∷ Clears ∷ []) ≡ AfterPoll.Retire (no 5) Ended.Closed }
{}

/// Tasks 1 and 3 are left of five in one shard, and four tasks stand in two: what drains of them hand out.
pub fn drains()
    ensures held { held two_left (no 3) ≡ Some 30 }
    ensures removed { held two_left (no 2) ≡ None }
    ensures unknown { removed two_left (no 9) ≡ two_left }
    ensures closed { IsRefused two_left 60 (Refusal.Closed 60) → ⊥ }
    ensures two { to_come two_left.shards 0 1 ≡ (3, 30) ∷ (1, 10) ∷ [] }
    ensures newest_first { to_come two_left.shards 0 1 ≢ (1, 10) ∷ (3, 30) ∷ [] }
    ensures seventh { shard_of four_in_two (no 7) ≡ 1 }
    ensures round { to_come four_in_two.shards 1 2 ≡ (3, 30) ∷ (1, 10) ∷ (2, 20) ∷ (0, 0) ∷ [] }
    ensures worker_one { drain_of four_in_two 1 ≡ record { at = 0; left = 2 } }
    ensures first_again { next_shard 8 7 ≡ 0 }
{}

/// Which acts take memory, and which end the task.
pub fn acts()
    ensures spawns { grows {B = ℕ} (Act.Spawn 7) ≡ true }
    ensures sleeps { grows {B = ℕ} (Act.Sleep 5) ≢ true }
    ensures done { ended_by {B = ℕ} (Act.Done 3) ≡ Some (Ended.Done 3) }
    ensures goes_on { ended_by {B = ℕ} Act.Yield ≡ None }
{}
