//! Worked examples of short runs, proved by computation: what may come after them and what not.

ghost use Rattle.std.specs.Prelude.{◌≡◌, true, [], ◌∷◌, ◌++◌, Some, None};
ghost use Rattle.exec_base.specs.declared.error.Error.TheVariants.{Timeout, ReadFailed};
ghost use Rattle.exec_outcomes.specs.declared.outcome.{OpResult.TheVariants.{Count, Errno}, Outcome.TheVariants.{Success, Failure}};
ghost use Rattle.exec_machine.specs.{declared.{event.Event.TheVariants.{Turn, Begin, Pend, Done, Closed, Wait, Timer, Grant, Stage, Enter, Reap, Expire, Cancel, Send, Apply, Sleep, Close, End, Land, Clock, Peer}, config.ScriptWord.ScriptWord as word, step.Action.Action as action, state.MailMessage.MailMessage as message}, Choice.Payer.{ByRequest, BySleeper, ByAct}, Progress.is_rightly_asleep, Examples.{says, does, refuses, pays}};
ghost use Rattle.exec_machine_examples.specs.ShortRuns.{reached_by, are_run, fails_after, waking, before_a_wake, a_wake, idling, passed_over, sending, a_wait, polled_elsewhere, polled_again, root_over, got_after_forward, yielding, awaited_elsewhere, forwarded_as_left_out, cleared_by, writing, a_write, a_forwarded_write, sleeping, a_sleep, cleared_in_a_poll, making, a_closed_set, with_a_task, a_live_task, with_a_worker, a_live_worker, an_end_with_a_sleeper, a_sleeping_root, another_end, ring_of_two, a_full_ring, reading, a_refused_read, hinting, a_refused_hint, a_hint_refused_later, direct, a_refused_direct, filling, a_part, letting_go_of, a_write_let_go, a_late_send_let_go, write_and_sync, a_write_ahead, write_and_syncs, a_synced_write, syncing, three_gated, two_files, two_gated, napping_worker, a_late_worker, sending_worker, a_late_send, two_sends, two_enrolled, two_due, nearly_due, eight_slots, sampled_after, eight_slots_late, sampled_late};

/// A task wakes the one that its word says, and goes on in its poll. Words that give no act are
/// passed over, and not met again. A poll may not end on another worker's request, and may once
/// that was forwarded. A task that has got what was forwarded goes on with its next word, and one
/// that waits for that doesn't begin to wait again. A forward goes into the inbox whatever is said
/// of it.
pub fn goes_on()
    ensures another { fails_after waking before_a_wake (pays (action.Work 0) 0 ByAct) ≡ 1 ∷ [] }
    ensures woke { are_run waking (a_wake ++ does 0 (Done 0) ∷ []) ≡ true }
    ensures idle_words { are_run idling (passed_over ++ does 0 (Done 0) ∷ []) ≡ true }
    ensures not_forwarded { fails_after sending polled_elsewhere (does 1 (Pend 2)) ≡ 3 ∷ [] }
    ensures forwarded { are_run sending (polled_elsewhere
        ++ does 1 (Send 0 (message.ForwardRequest 0)) ∷ does 1 (Pend 2) ∷ []) ≡ true }
    ensures got { are_run sending (got_after_forward ++ pays (action.Work 0) 2 ByAct ∷ []) ≡ true }
    ensures again { fails_after sending polled_again (does 0 (Wait (Some 0))) ≡ 1 ∷ 4 ∷ [] }
    ensures still { are_run sending (polled_again ++ does 0 (Pend 2) ∷ []) ≡ true }
    ensures not_left_out { are_run sending (forwarded_as_left_out
        ++ does 0 (Apply (message.ForwardRequest 0)) ∷ []) ≡ true }
{}

/// A request pays also where its task has not waited for it before it was forwarded. A worker pays
/// for another worker's request once that closes, and not before. A write that nobody holds any
/// more owes a wake where it was forwarded, and none where it was not; a sleeper that was taken
/// away owes one.
pub fn owes_a_wake()
    ensures awaited { are_run yielding (awaited_elsewhere
        ++ pays (action.Work 0) 2 (ByRequest 0) ∷ []) ≡ true }
    ensures still_open { fails_after sending (a_wait ++ root_over)
        (pays (action.Work 1) 2 (ByRequest 0)) ≡ 1 ∷ [] }
    ensures closes { are_run sending (a_wait ++ root_over
        ++ does 0 Close ∷ pays (action.Work 1) 2 (ByRequest 0) ∷ []) ≡ true }
    ensures cleared { are_run writing (a_write ++ cleared_by (message.CancelRequest 0)) ≡ true }
    ensures let_go { fails_after writing (a_write ++ cleared_by (message.CancelRequest 0))
        (pays (action.Work 1) 2 (ByRequest 0)) ≡ 1 ∷ [] }
    ensures forwarded { are_run writing (a_forwarded_write ++ cleared_by (message.CancelRequest 0)
        ++ pays (action.Work 1) 2 (ByRequest 0) ∷ []) ≡ true }
    ensures taken_away { are_run sleeping (a_sleep ++ cleared_by (message.CancelTimer 0)
        ++ pays (action.Work 1) 2 (BySleeper 0) ∷ []) ≡ true }
{}

/// What a task was to sleep on is taken away where the task is cleared in its poll: its worker
/// sleeps without end. It is gone with the end of its worker, and not with that of another.
pub fn takes_sleepers_away()
    ensures cleared { are_run sleeping (cleared_in_a_poll ++ does 1 (Sleep None) ∷ []) ≡ true }
    ensures its_moment { fails_after sleeping cleared_in_a_poll (does 1 (Sleep (Some 1000000))) ≡
        2 ∷ [] }
    ensures all_end { are_run sleeping an_end_with_a_sleeper ≡ true }
    ensures ended { is_rightly_asleep sleeping.config (reached_by sleeping an_end_with_a_sleeper) ≡
        true }
    ensures another { are_run a_sleeping_root (another_end ++ does 0 (Sleep (Some 1000000)) ∷ []) ≡
        true }
{}

/// A task that is to make a worker meets the closed set. Worker zero has closed the queue. A worker
/// of the pool doesn't end while a task of the set is live, and does while the root of a dedicated
/// worker is.
pub fn comes_to_an_end()
    ensures set { are_run making (a_closed_set ++ does 1 Closed ∷ does 1 (Done 2) ∷ []) ≡ true }
    ensures queue { (reached_by with_a_task a_live_task).common.queue_closed ≡ true }
    ensures drained { are_run with_a_task a_live_task ≡ true }
    ensures task { fails_after with_a_task a_live_task (does 0 End) ≡ 5 ∷ [] }
    ensures root { are_run with_a_worker (a_live_worker ++ does 0 End ∷ []) ≡ true }
{}

/// Of two deadlines of one moment the first that was made is told first, and by its own worker
/// alone. A worker sleeps until its moment, and not shorter. Where the wheel didn't go all the way
/// round a deadline is told by its tick, where it did by its slot.
pub fn is_due_in_order()
    ensures later { fails_after two_sends two_due (does 0 (Expire 1 (Some (Failure Timeout)))) ≡
        2 ∷ [] }
    ensures elsewhere { fails_after two_sends two_due
        (does 1 (Expire 0 (Some (Failure Timeout)))) ≡ 2 ∷ [] }
    ensures both { are_run two_sends (two_due ++ does 0 (Expire 0 (Some (Failure Timeout))) ∷
        does 0 (Expire 1 (Some (Failure Timeout))) ∷ []) ≡ true }
    ensures nearly { are_run two_sends (nearly_due ++ refuses (action.Work 0) ∷
        says (action.Clock 1) Clock ∷ does 0 Turn ∷ []) ≡ true }
    ensures by_tick { are_run eight_slots (sampled_after 0 0 39999999
        ++ does 0 (Expire 0 (Some (Failure Timeout))) ∷
        does 0 (Expire 1 (Some (Failure Timeout))) ∷ []) ≡ true }
    ensures by_slot { are_run eight_slots (sampled_after 0 0 40000000
        ++ does 0 (Expire 1 (Some (Failure Timeout))) ∷
        does 0 (Expire 0 (Some (Failure Timeout))) ∷ []) ≡ true }
    ensures slot_by_tick { fails_after eight_slots (sampled_after 0 0 39999999)
        (does 0 (Expire 1 (Some (Failure Timeout)))) ≡ 2 ∷ [] }
    ensures tick_by_slot { fails_after eight_slots (sampled_after 0 0 40000000)
        (does 0 (Expire 0 (Some (Failure Timeout)))) ≡ 2 ∷ [] }
{}

/// A ring is full of what is in flight. What is staged is told to the kernel by its own worker
/// alone. Durable requests of one open go one after another, those of two don't wait for each
/// other. A sync is to be done while a write isn't over, and not once another sync has covered it.
/// Peers are counted.
pub fn is_staged_and_granted()
    ensures filled { are_run ring_of_two a_full_ring ≡ true }
    ensures full { fails_after ring_of_two a_full_ring (does 0 (Stage 3)) ≡ 7 ∷ [] }
    ensures enters { are_run two_sends (two_enrolled ++ does 0 (Stage 0) ∷ does 1 Enter ∷ []) ≡
        true }
    ensures entered_elsewhere { fails_after two_sends
        (two_enrolled ++ does 0 (Stage 0) ∷ does 1 Enter ∷ [])
        (says (action.Land 0 (Count 8)) Land) ≡ 0 ∷ [] }
    ensures entered { are_run two_sends (two_enrolled ++ does 0 (Stage 0) ∷ does 0 Enter ∷
        says (action.Land 0 (Count 8)) Land ∷ []) ≡ true }
    ensures in_order { are_run syncing (three_gated ++ does 0 (Grant 0 (Some Success)) ∷
        does 0 (Grant 1 (Some Success)) ∷ does 0 (Grant 2 (Some Success)) ∷ []) ≡ true }
    ensures not_yet { fails_after syncing (three_gated ++ does 0 (Grant 0 (Some Success)) ∷ [])
        (does 0 (Grant 2 (Some Success))) ≡ 4 ∷ [] }
    ensures of_two { are_run two_files (two_gated ++ does 0 (Grant 1 (Some Success)) ∷
        does 0 (Grant 0 (Some Success)) ∷ []) ≡ true }
    ensures to_be_synced { are_run write_and_sync (a_write_ahead ++ does 0 (Grant 1 None) ∷ []) ≡
        true }
    ensures synced { are_run write_and_syncs (a_synced_write
        ++ does 0 (Grant 2 (Some Success)) ∷ []) ≡ true }
    ensures peers { (reached_by reading (says (action.Peer 0) Peer ∷ says (action.Peer 0) Peer ∷
        [])).common.listeners ≡ 2 ∷ [] }
{}

/// A refusal that is none of a hint is a failure, and so is one after the first of an open. A hint
/// stands until then, and a direct read that goes on as a buffered one has it. Of what has come in
/// part no more than the rest can land.
pub fn goes_on_in_parts()
    ensures no_hint { are_run reading (a_refused_read
        ++ does 0 (Reap 0 (Errno 95) (Some (Failure ReadFailed))) ∷ []) ≡ true }
    ensures second_hint { are_run hinting (a_refused_hint
        ++ does 0 (Reap 1 (Errno 95) (Some (Failure ReadFailed))) ∷ []) ≡ true }
    ensures hint_stands { are_run hinting (a_hint_refused_later ++ does 0 (Reap 1 (Errno 95) None) ∷
        []) ≡ true }
    ensures buffered { are_run direct (a_refused_direct ++ does 0 (Reap 0 (Errno 95) None) ∷ []) ≡
        true }
    ensures rest { are_run filling (a_part ++ says (action.Land 0 (Count 5)) Land ∷
        does 0 (Reap 0 (Count 5) (Some Success)) ∷ []) ≡ true }
    ensures more { fails_after filling a_part (says (action.Land 0 (Count 6)) Land) ≡ 0 ∷ [] }
{}

/// A write that is let go of in flight isn't cancelled. A send whose deadline had come is cancelled
/// once, though it is let go of after that.
pub fn is_let_go_in_flight()
    ensures write { are_run (letting_go_of (word.Write 0 0 8)) a_write_let_go ≡ true }
    ensures not_cancelled { fails_after (letting_go_of (word.Write 0 0 8)) a_write_let_go
        (does 0 (Cancel 0)) ≡ 2 ∷ 5 ∷ [] }
    ensures send { are_run (letting_go_of (word.Send 0 8)) a_late_send_let_go ≡ true }
    ensures once { fails_after (letting_go_of (word.Send 0 8)) a_late_send_let_go
        (does 0 (Cancel 0)) ≡ 2 ∷ 6 ∷ [] }
{}

/// A dedicated worker counts its first sleep, and the ticks and slots of its wheel, from when it
/// began: a deadline is due at the first tick that isn't before it.
pub fn begins_late()
    ensures sleeps { are_run napping_worker (a_late_worker
        ++ does 1 (Begin 1) ∷ does 1 (Timer 0 6000005) ∷ []) ≡ true }
    ensures ticks { are_run sending_worker (a_late_send ++ does 1 (Sleep (Some 21000000)) ∷ []) ≡
        true }
    ensures slots { are_run eight_slots_late (sampled_late
        ++ does 1 (Expire 1 (Some (Failure Timeout))) ∷
        does 1 (Expire 0 (Some (Failure Timeout))) ∷ []) ≡ true }
{}
