//! Laws of run queues and of the search count, over whatever calls come in whatever order.

ghost use Rattle.std.specs.Prelude.{◌≡◌, ◌+◌, ◌++◌, ℕ, Bool, List, count_by};
ghost use Rattle.exec_words.specs.{IdleRuns.Change as Move, IdleRuns.after_all as after_moves, IdleRuns.nothing, QueueRuns.Change, QueueRuns.IsWithin, QueueRuns.begun, QueueRuns.after_all};

/// Each value that was put in is in one place, of those that left at the front, those that
/// overflows handed out, and those that are left. So none is handed out twice, and none is lost.
pub fn each_value_leaves_once()
    ensures { (real : ℕ) (changes : List (Change ℕ)) (p : ℕ → Bool)
        → let h = after_all (begun real) changes in
        count_by p h.put ≡ count_by p h.front + count_by p h.handed_out
        + count_by p h.queue.values + count_by p h.queue.held }
{}

/// What leaves at the front, with what is left behind it, comes in the order in which it was put
/// in; and so does what overflows hand out at the other end.
pub fn values_leave_in_order()
    ensures front { (real : ℕ) (changes : List (Change ℕ))
        → let h = after_all (begun real) changes in
        IsWithin (h.front ++ (h.queue.values ++ h.queue.held)) h.put }
    ensures back { (real : ℕ) (changes : List (Change ℕ))
        → let h = after_all (begun real) changes in
        IsWithin h.handed_out h.put }
{}

/// The search count is what was added and exchanged in, less what was subtracted.
#[tactic(auto, using(crate::proofs::Counts::stays_a_sum))]
pub fn the_count_is_a_sum()
    ensures { (moves : List Move) → let t = after_moves nothing moves in t.count + t.went_out ≡ t.came_in }
{}
