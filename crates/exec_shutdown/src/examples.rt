//! Worked examples of stops and of shutdown.

ghost use Rattle.std.specs.Prelude.{◌≡◌, true, false, [], ◌∷◌, Some};
ghost use Rattle.exec_outcomes.specs.declared.outcome.Outcome.TheVariants.{Success};
ghost use Rattle.exec_machine.specs.{Closing.own_after_stop, Mail.posted, Tasks.{new_own, new_seat}, declared.state.{Code.TheVariants.Root, Rest.TheVariants.Forever, RequestPhase.TheVariants.Resolved, TaskPhase.TaskPhase as task, WorkerPhase.TheVariants.{Closing, Ended}}};
ghost use Rattle.exec_moves.specs.Plays.{first_playing};
ghost use Rattle.exec_books.specs.Examples.{its_request, one_asleep};
ghost use Rattle.exec_rest.specs.Examples.{rested, two_waiting};
ghost use Rattle.exec_settled.specs.Examples.{closing_with};
ghost use Rattle.exec_shutdown.specs.{Shutdown.{ShutsDown, is_at_standstill}, Stopping.{StopsAll, WaitsForStop, is_waiting, owes_root}, Examples.{done_root, held, stopped_with, two, waiting_root}};
ghost use Rattle.exec_machine.specs.declared.state.MailMessage.TheVariants as message;
ghost use Rattle.exec_machine.specs.declared.state.Next.TheVariants as next;
ghost use Rattle.exec_machine.specs.declared.state.Waiting.TheVariants as waiting;

/// The root of a worker that waits until the pool is stopped waits where it is idle, or its poll has begun to; not where it
/// is queued, was woken in its poll, looks again, or is over. It holds nothing, and waits for nothing else. Worker zero, which
/// has stopped a pool of two, has a letter to the root of worker 1, and none to its own; a cancel is none.
pub fn a_root_that_waits()
    ensures idle { is_waiting waiting_root ≡ true }
    ensures begins { is_waiting (record waiting_root { phase = task.Running 1 }) ≡ true }
    ensures queued { is_waiting (record waiting_root { phase = task.Queued }) ≡ false }
    ensures noted { is_waiting (record waiting_root { phase = task.Noted 1 }) ≡ false }
    ensures looks { is_waiting (record waiting_root { phase = task.Running 1; waiting = waiting.Woken }) ≡ false }
    ensures over { is_waiting (record waiting_root { phase = task.Done }) ≡ false }
    ensures waits { WaitsForStop 1 waiting_root }
    ensures holds { WaitsForStop 1 (record waiting_root { held = 0 ∷ [] }) → ⊥ }
    ensures sleeps { WaitsForStop 1 (record waiting_root { waiting = waiting.Timer 0 }) → ⊥ }
    ensures of_another { WaitsForStop 2 waiting_root → ⊥ }
    ensures letter { owes_root 1 (own_after_stop two (new_own 0 0)) ≡ true }
    ensures no_letter { owes_root 0 (own_after_stop two (new_own 0 0)) ≡ false }
    ensures cancel { owes_root 1 (record (new_own 0 0) { owed = record { to = 1; message = message.CancelRequest 7 } ∷ [] }) ≡ false }
{}

/// A stop is under way to the root of worker 1 while worker zero has yet to send its letter. Refused is a stopped pool in
/// which that root waits, and is told by nobody; one that is to have a worker less; and one whose worker 1 has passed the barrier,
/// and is open, or is held there, and isn't to close its mailbox next; hasn't passed it, and closes its mailbox next, has closed it,
/// or has ended; sleeps, and has a letter to send; isn't open, and polls a task, or has a root that isn't over; or has a root that
/// doesn't wait for the stop alone.
pub fn a_stop_under_way()
    ensures owed { StopsAll two (stopped_with (own_after_stop two (new_own 0 0)) (new_own 0 1) (new_seat true) waiting_root) }
    ensures untold { StopsAll two (stopped_with (new_own 0 0) (new_own 0 1) (new_seat true) waiting_root) → ⊥ }
    ensures pool { StopsAll (record two { workers = 1 }) (stopped_with (own_after_stop two (new_own 0 0)) (new_own 0 1)
        (new_seat true) waiting_root) → ⊥ }
    ensures passed { StopsAll two (stopped_with (new_own 0 0) (record (new_own 0 1) { next = next.ClosesMailbox })
        (posted message.Root (record (new_seat true) { left = true })) waiting_root) → ⊥ }
    ensures waits { StopsAll two (stopped_with (new_own 0 0) (new_own 0 1)
        (record (new_seat true) { phase = Closing; left = true }) done_root) → ⊥ }
    ensures shuts { StopsAll two (stopped_with (new_own 0 0) (record (new_own 0 1) { next = next.ClosesMailbox })
        (record (new_seat true) { phase = Closing }) done_root) → ⊥ }
    ensures shut { StopsAll two (stopped_with (new_own 0 0) (new_own 0 1)
        (record (new_seat true) { phase = Closing; mailbox_closed = true }) done_root) → ⊥ }
    ensures over { StopsAll two (stopped_with (new_own 0 0) (new_own 0 1) (record (new_seat true) { phase = Ended }) done_root) → ⊥ }
    ensures sent { StopsAll two (stopped_with (new_own 0 0) (record (new_own 0 1) { owed = record { to = 0; message = message.Root } ∷ [] })
        (posted message.Root (record (new_seat true) { rest = Forever })) waiting_root) → ⊥ }
    ensures idle { StopsAll two (stopped_with (new_own 0 0) (record (new_own 0 1) { polls = Some 1 })
        (record (new_seat true) { phase = Closing }) done_root) → ⊥ }
    ensures closed { StopsAll two (stopped_with (new_own 0 0) (new_own 0 1)
        (posted message.Root (record (new_seat true) { phase = Closing })) waiting_root) → ⊥ }
    ensures roots { StopsAll two (stopped_with (new_own 0 0) (new_own 0 1) (posted message.Root (new_seat true))
        (record waiting_root { code = Root })) → ⊥ }
{}

/// Two workers sleep, which are both open; or one is closing, and the kernel has a request of it. Refused is a standstill in which
/// that request is over, and one in which a worker is held at the shutdown barrier, since another one, of which the kernel has a
/// request, sleeps and has not passed that. Where a worker is awake, and not held, there is no standstill.
pub fn a_shutdown()
    ensures opened { ShutsDown rested.world }
    ensures waits { ShutsDown (closing_with (record its_request { worker = 1 })).world }
    ensures stuck { ShutsDown (closing_with (record its_request { worker = 1; phase = Resolved Success })).world → ⊥ }
    ensures held { ShutsDown held → ⊥ }
    ensures alone { is_at_standstill one_asleep.world ≡ true }
    ensures awake { is_at_standstill (first_playing two_waiting).world ≡ false }
{}
