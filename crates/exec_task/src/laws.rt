//! Laws of tasks and of their set, over whatever calls come in whatever order.

ghost use Rattle.std.specs.Prelude.{◌≡◌, ℕ, ◌+◌, ◌<◌, ◌≤◌, List, length, Bool, count_by, sum_by};
ghost use Rattle.exec_base.specs.declared.task_no.TaskNo.{TaskNo};
ghost use Rattle.exec_task.specs.{Phases.pend_answer, TaskSet.{Set, to_come}, TaskRuns.{Call, AreCalls, IsOneRight, Meanwhile, new_task, after_all, after_meanwhile, just_begun, after_pending_poll}};

/// A task has at most one runnable, in a queue, a hand or a running poll; and none is lost: there
/// is exactly one where the task is queued or polled, and none where it is idle.
#[tactic(auto, using(crate::proofs::Rights::at_most_one, crate::proofs::Rights::exactly_one))]
pub fn a_task_has_at_most_one_runnable<B>()
    ensures one { (number : TaskNo) (owner : ℕ) (body : B) (calls : List (Call B))
        → AreCalls (new_task number owner body) calls
        → let l = after_all (new_task number owner body) calls in l.runnables + l.polls ≤ 1 }
    ensures exactly { (number : TaskNo) (owner : ℕ) (body : B) (calls : List (Call B))
        → AreCalls (new_task number owner body) calls
        → let l = after_all (new_task number owner body) calls in
        IsOneRight l.task.phase l.runnables l.polls }
{}

/// A wake in a poll that ends pending gives exactly one requeue, however many came, and none where the task is cleared.
#[tactic(auto, using(crate::proofs::Rights::one_requeue))]
pub fn wakes_in_a_poll_requeue_once<B>()
    ensures { (number : TaskNo) (owner : ℕ) (meanwhile : List Meanwhile) →
        pend_answer (after_meanwhile (just_begun {B = B} number owner) meanwhile) ≡ after_pending_poll (just_begun {B = B} number owner) meanwhile }
{}

/// A drain hands each task out once: of any kind of tasks there are as many among those that come as the set holds.
#[tactic(auto, using(crate::proofs::Rounds::whole_round))]
pub fn a_drain_hands_each_task_out_once<T>()
    ensures { (s : Set T) (at : ℕ) (kind : ℕ × T → Bool) → at < length s.shards →
        count_by kind (to_come s.shards at (length s.shards)) ≡ sum_by (λ shard. count_by kind shard) s.shards }
{}
