//! Worked examples of what is unfinished, and of quiet lines on end, proved by computation.

ghost use Rattle.std.specs.Prelude.{◌≡◌, true, false, [], ◌∷◌, ◌++◌, Some, None};
ghost use Rattle.exec_outcomes.specs.declared.outcome.OpResult.TheVariants.{Count};
ghost use Rattle.exec_machine.specs.{declared.{event.{Event.TheVariants.{Begin, Busy, Clock}, StepResult.TheVariants.{Did, Refused}}, state.{WorkerPhase.WorkerPhase as worker, TaskPhase.TaskPhase as task, Waiting.Waiting as waiting, Call.Call as call}}, World.{own_of, seat_of, no_open}, Progress.{quiet_bound, all_asleep, is_rightly_asleep}};
ghost use Rattle.exec_machine_examples.specs.Unfinished.{one_worker, the_config, spinning, at_first, with_root, with_seat, with_own, waits, asleep, with_requests, with_sleeper, with_open, at_clock, send_in, send_over, cancelled, gated_sync, until_five, with_one, napping, closing, is_right, turns, are_solo};
ghost use Rattle.exec_machine.specs.declared.step.Action.TheVariants as action;
ghost use Rattle.exec_machine.specs.declared.state.RequestPhase.TheVariants as phase;
ghost use Rattle.exec_machine.specs.declared.state.MailMessage.TheVariants as message;

/// Nothing is unfinished while the one request is in flight and its deadline ahead, also once its
/// cancel was told; where a cancel is untold of a request that is over; while a request waits for
/// another's permit, or has no place in the ring; while the sleeper that the root waits for is
/// ahead; and while the root waits for a wake.
pub fn finished()
    ensures flight { is_right (with_one (send_in phase.Flying)) ≡ true }
    ensures told { is_right (with_one (record cancelled { cancel_staged = true })) ≡ true }
    ensures over { is_right (with_one send_over) ≡ true }
    ensures untold_of_none { is_right (with_own (record (own_of (with_one send_over) 0)
        { untold = 0 ∷ [] }) (with_one send_over)) ≡ true }
    ensures behind { is_right (with_open (record no_open { holder = Some 1 })
        (with_one gated_sync)) ≡ true }
    ensures no_place { is_rightly_asleep (one_worker 1)
        (with_requests 1 (send_in phase.Flying ∷ send_in phase.Queued ∷ []) (asleep waiting.Wake)) ≡
        true }
    ensures nap { is_right napping ≡ true }
    ensures wait { is_right (asleep waiting.Wake) ≡ true }
{}

/// A task is unfinished that is to be polled or in a poll, that was woken since its last poll
/// began, or that has got what it waits for; and so is a message.
pub fn unfinished_tasks()
    ensures queued { is_right (with_root (record (waits waiting.Wake) { phase = task.Queued })
        napping) ≡ false }
    ensures running { is_right (with_root (record (waits waiting.Wake) { phase = task.Running 0 })
        napping) ≡ false }
    ensures woken { is_right (with_root (record (waits waiting.Wake) { fresh = false }) napping) ≡
        false }
    ensures resolved { is_right (with_root (waits (waiting.Request 0)) (with_one send_over)) ≡
        false }
    ensures fired { is_right (with_sleeper (record until_five { fired = true }) napping) ≡ false }
    ensures message { is_right (with_seat (record (seat_of napping.common 0)
        { inbox = message.Root ∷ [] }) napping) ≡ false }
{}

/// A request is unfinished that may be granted, staged, entered, reaped, enrolled or released, that
/// is due, or whose cancel the kernel wasn't told; and so is a sleeper that is due.
pub fn unfinished_requests()
    ensures permit { is_right (with_open (record no_open { holder = Some 0 }) (with_one gated_sync))
        ≡ false }
    ensures ready { is_right (with_one (send_in phase.Queued)) ≡ false }
    ensures place { is_rightly_asleep (one_worker 2)
        (with_requests 1 (send_in phase.Flying ∷ send_in phase.Queued ∷ []) (asleep waiting.Wake)) ≡
        false }
    ensures staged { is_right (with_one (send_in phase.Staged)) ≡ false }
    ensures landed { is_right (with_one (send_in (phase.Landed (Count 10)))) ≡ false }
    ensures unenrolled { is_right (with_one (record (send_in phase.Flying) { timer = None })) ≡
        false }
    ensures unstaged { is_right (with_one cancelled) ≡ false }
    ensures untold { is_right (with_own (record (own_of (with_one cancelled) 0) { untold = 0 ∷ [] })
        (with_one (record cancelled { cancel_staged = true }))) ≡ false }
    ensures unreleased { is_right (with_one (record send_over { released = false })) ≡ false }
    ensures due { is_right (at_clock 10000000 (with_one (send_in phase.Flying))) ≡ false }
    ensures sleeper { is_right (at_clock 5000000 napping) ≡ false }
{}

/// A worker that is open though its root is over has to close; one that closes and sleeps has a
/// request that isn't over.
pub fn unfinished_workers()
    ensures open { is_right (with_root (record (waits waiting.Nothing) { phase = task.Done })
        (with_one (send_in phase.Flying))) ≡ false }
    ensures closes { is_right (closing (send_in phase.Flying ∷ [])) ≡ true }
    ensures stuck { is_right (closing (send_over ∷ [])) ≡ false }
{}

/// All sleep where each open worker does and each other has ended, while no call is half done.
pub fn who_sleeps()
    ensures asleep { all_asleep napping ≡ true }
    ensures awake { all_asleep at_first ≡ false }
    ensures closing { all_asleep (closing (send_over ∷ [])) ≡ false }
    ensures ended { all_asleep (with_seat (record (seat_of at_first.common 0)
        { phase = worker.Ended }) at_first) ≡ true }
    ensures called { all_asleep (record napping {
      common = record napping.common
          { callers = call.HalfDone ∷ [] };
    }) ≡ false }
{}

/// One party may have 2175 quiet lines on end here, and not one more. A refused line doesn't end a
/// stretch; another that is not quiet does, and so does any line of another party, also of a
/// caller. Workers, spins, requests and sleepers allow more; while a worker closes nothing counts.
pub fn stretches()
    ensures bound { quiet_bound the_config at_first ≡ 2176 }
    ensures just_enough { are_solo at_first (turns (action.Work 0) 2175) ≡ true }
    ensures one_more { are_solo at_first (turns (action.Work 0) 2176) ≡ false }
    ensures refused { are_solo at_first (turns (action.Work 0) 2000
        ++ record { action = action.Work 0; said = Refused } ∷ turns (action.Work 0) 176) ≡ false }
    ensures clock { are_solo at_first (turns (action.Work 0) 2000
        ++ record { action = action.Clock 1; said = Did Clock } ∷
        turns (action.Work 0) 176) ≡ true }
    ensures caller { are_solo at_first (turns (action.Work 0) 2000
        ++ turns (action.GoOn 0) 1 ++ turns (action.Work 0) 176) ≡ true }
    ensures a_caller_too { are_solo at_first (turns (action.GoOn 0) 2176) ≡ false }
    ensures busy { are_solo at_first (turns (action.Work 0) 2175
        ++ record { action = action.Work 0; said = Did Busy } ∷ []) ≡ false }
    ensures begins { are_solo at_first (turns (action.Work 0) 2000
        ++ record { action = action.Work 0; said = Did (Begin 0) } ∷ turns (action.Work 0) 176) ≡
        true }
    ensures more_requests { are_solo (with_one (send_in phase.Flying)) (turns (action.Work 0) 2179)
        ≡ true }
    ensures no_more_requests { are_solo (with_one send_over) (turns (action.Work 0) 2180) ≡ false }
    ensures spins { quiet_bound (spinning 1) (with_sleeper until_five (with_one send_over)) ≡ 2600 }
    ensures spins_not { quiet_bound (spinning 0) at_first ≡ 2432 }
    ensures closing { are_solo (closing (send_over ∷ [])) (turns (action.Work 0) 2176) ≡ true }
{}
