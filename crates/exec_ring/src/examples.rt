//! Worked examples of what calls do to a ring, proved by computation: what is lawful, and what is refused.

ghost use Rattle.std.specs.Prelude.{◌≡◌, ◌≢◌, true, false, pos, negsuc, [], ◌∷◌};
ghost use Rattle.exec_ring.specs.{Completions.{wake_completion, acknowledged}, Rings.{fresh, completions}, Kernels.{entered, may_land, landed, with_wake, with_poll, reaped}, Examples.{a_send, the_poll, its_cancel, three_staged, without_wakes, send_flying, poll_armed, bytes, failed_with}};

/// An enter takes all entries in, and none where the kernel is busy, for that once.
pub fn an_enter()
    ensures all { entered three_staged ≡ record (fresh 4) { flying = a_send ∷ []; armed = true; posted = without_wakes (acknowledged 4294967295) ∷ []; places = 3 } }
    ensures none { entered (record three_staged { busy = true }) ≡ three_staged }
    ensures not_a_part { entered three_staged ≢ record three_staged { staged = its_cancel ∷ the_poll ∷ []; flying = a_send ∷ [] } }
{}

/// An operation of ten bytes may end with at most ten, or with an error number from 1 to 4095, once.
pub fn a_landing()
    ensures whole { may_land send_flying 7 (bytes 10) ≡ true }
    ensures a_byte_too_long { may_land send_flying 7 (bytes 11) ≡ false }
    ensures error { may_land send_flying 7 (failed_with 4095) ≡ true }
    ensures no_error { may_land send_flying 7 (failed_with 0) ≡ false }
    ensures past_errors { may_land send_flying 7 (failed_with 4096) ≡ false }
    ensures another { may_land send_flying 8 (bytes 10) ≡ false }
    ensures twice { may_land (landed send_flying 7 (bytes 10)) 7 (bytes 10) ≡ false }
    ensures staged_only { may_land three_staged 7 (bytes 10) ≡ false }
    ensures told { completions (landed send_flying 7 (failed_with 125)) ≡ record { user_data = 7; result = negsuc 124; more = true } ∷ [] }
{}

/// A wake of an armed poll is there at once, each for itself; the last one ends the poll; and one that is raised
/// without a poll is kept until there is one.
pub fn wakes()
    ensures once { completions (with_wake poll_armed) ≡ wake_completion true ∷ [] }
    ensures twice { completions (with_wake (with_wake poll_armed)) ≡ wake_completion true ∷ wake_completion true ∷ [] }
    ensures last { with_wake (record poll_armed { last = true }) ≡ record (fresh 4) { posted = without_wakes (wake_completion false) ∷ []; places = 3 } }
    ensures kept { with_wake (fresh 4) ≡ record (fresh 4) { raised = true } }
    ensures then_told { completions (with_poll (record (fresh 4) { raised = true })) ≡ wake_completion true ∷ [] }
{}

/// Completions come in the order in which they were told, wakes among them.
pub fn an_order()
    ensures first { completions (landed (with_wake (record send_flying { armed = true })) 7 (bytes 10)) ≡ wake_completion true ∷ record { user_data = 7; result = pos 10; more = true } ∷ [] }
    ensures rest { completions (reaped (landed (with_wake (record send_flying { armed = true })) 7 (bytes 10))) ≡ record { user_data = 7; result = pos 10; more = true } ∷ [] }
    ensures not_swapped { completions (landed (with_wake (record send_flying { armed = true })) 7 (bytes 10)) ≢ record { user_data = 7; result = pos 10; more = true } ∷ wake_completion true ∷ [] }
{}
