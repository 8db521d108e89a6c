//! Worked examples, proved by computation: single moves, and whole logs of one worker.

ghost use Rattle.std.specs.Prelude.{◌≡◌, true, false, [], ◌∷◌, Some};
ghost use Rattle.exec_outcomes.specs.declared.outcome.{OpResult.TheVariants.Count, Outcome.TheVariants.Success};
ghost use Rattle.exec_machine.specs.{declared.{event.Event.TheVariants.{Turn, Serve, Enter, Reap, Sleep, Close, Stop, End}, state.MailMessage.TheVariants.Root, step.{Action.Action as action, Step.Step as step}}, Choice.Payer.ByRequest, Examples.{usual, does, pays}, Logs.a_send, MoreLogs.{a_deadline, a_late_enrolment, deadlines_in_order, the_wheel_goes_round, a_clock_in_a_service, a_clock_between_samples, a_cancel_in_time, parts, what_a_task_held}};
ghost use Rattle.exec_moves.specs.{declared.{handing.{First.First as first, AfterPop.AfterPop as popped, InPop.InPop as pop}, place.{InPick.InPick as pick, Place.Place as at}}, Cells.Cell.{IdleSet, SearchCount, Inbox}, Claim.latched, Departures.{Departs, two_sends}, Global.one_count_more, Look.publish, Pick.count_down, Plays.{first_desk, first_things, IsPlayed}, Send.posted, Thing.{mailbox_of, set_idle, set_mailbox}, Touches.OnlyTouches};
ghost use Rattle.exec_words.specs.declared.word.WaitTarget.TheVariants as target;

/// The pick that brings the countdown to its end looks at the global queue first.
pub fn the_global_look()
    ensures far { (count_down usual (record (first_desk usual 0) { countdown = 2 })).desk.place
        ≡ at.Pop pop.PopAlone (popped.Pick first.Own) }
    ensures near { (count_down usual (record (first_desk usual 0) { countdown = 1 })).desk.place
        ≡ at.Pick (pick.LoadMirror first.Global) }
    ensures set_back { (count_down usual (record (first_desk usual 0) { countdown = 1 })).desk.countdown ≡ 31 }
{}

/// The log that the moves make of a trace is the good one, line by line, and at each line the place says what the machine has
/// of the worker.
pub fn logs_by_moves()
    ensures of_a_send { IsPlayed a_send }
    ensures of_a_deadline { IsPlayed a_deadline }
    ensures of_a_late_enrolment { IsPlayed a_late_enrolment }
{}

/// The same of deadlines in their order, of the clock within a service, and of what is let go.
pub fn more_logs_by_moves()
    ensures of_deadlines_in_order { IsPlayed deadlines_in_order }
    ensures of_the_wheel_goes_round { IsPlayed the_wheel_goes_round }
    ensures of_a_clock_in_a_service { IsPlayed a_clock_in_a_service }
    ensures of_a_clock_between_samples { IsPlayed a_clock_between_samples }
    ensures of_a_cancel_in_time { IsPlayed a_cancel_in_time }
    ensures of_parts { IsPlayed parts }
    ensures of_what_a_task_held { IsPlayed what_a_task_held }
{}

/// What the machine may allow, and no log by moves has. A turn skips its callbacks; a service leaves out its first reap, or puts
/// its last enter off though a task is to be woken; a worker sleeps without its second look, or leaves out the service after a
/// wait; a root that is over isn't followed by the closing; a closing leaves the global queue open, forgets to stop the pool, or
/// never ends.
pub fn refused_lines()
    ensures skips_callbacks { Departs a_send.plan (step.Work 0 36 ∷ step.One (action.Land 0 (Count 10)) ∷ step.Work 0 19 ∷ [])
        (pays (action.Work 0) 0 (ByRequest 0)) (does 0 Turn) }
    ensures leaves_out_the_reap { Departs a_send.plan (step.Work 0 36 ∷ step.One (action.Land 0 (Count 10)) ∷ step.Work 0 12 ∷ [])
        (does 0 (Reap 0 (Count 10) (Some Success))) (does 0 Serve) }
    ensures always_defers { Departs two_sends (step.Work 0 38 ∷ step.One (action.Land 1 (Count 10)) ∷ step.Work 0 15 ∷ [])
        (does 0 Enter) (does 0 Serve) }
    ensures sleeps_at_once { Departs a_send.plan (step.Work 0 34 ∷ step.One (action.Land 0 (Count 10)) ∷ [])
        (does 0 Turn) (does 0 (Sleep (Some 10000000))) }
    ensures leaves_out_the_service { Departs a_send.plan (step.Work 0 36 ∷ step.One (action.Land 0 (Count 10)) ∷ step.Work 0 11 ∷ [])
        (does 0 Serve) (does 0 Turn) }
    ensures never_closes { Departs a_send.plan (step.Work 0 36 ∷ step.One (action.Land 0 (Count 10)) ∷ step.Work 0 33 ∷ [])
        (does 0 Close) (does 0 Turn) }
    ensures leaves_the_queue_open { Departs a_send.plan (step.Work 0 36 ∷ step.One (action.Land 0 (Count 10)) ∷ step.Work 0 35 ∷ [])
        (does 0 Turn) (does 0 Stop) }
    ensures never_stops { Departs a_send.plan (step.Work 0 36 ∷ step.One (action.Land 0 (Count 10)) ∷ step.Work 0 36 ∷ [])
        (does 0 Stop) (does 0 Turn) }
    ensures never_ends { Departs a_send.plan (step.Work 0 36 ∷ step.One (action.Land 0 (Count 10)) ∷ step.Work 0 52 ∷ [])
        (does 0 End) (does 0 Turn) }
{}

/// Steps that change more than what they name: who publishes itself begins a search too, who returns a search count takes
/// itself out of the idle set, a message sets the latch of its worker, or arms it.
pub fn refused_touches()
    ensures publishes_and_counts { let x = first_things usual in
        OnlyTouches IdleSet x (set_idle x (one_count_more (publish 0 (first_desk usual 0) x.idle).thing)) → ⊥ }
    ensures leaves_and_clears { let x = record (first_things usual) { idle = record { published = true ∷ []; count = 1 } } in
        OnlyTouches SearchCount x (set_idle x (record { published = false ∷ []; count = 0 })) → ⊥ }
    ensures sends_and_latches { let x = first_things usual in let m = posted Root (mailbox_of x 0) in
        OnlyTouches (Inbox 0) x (set_mailbox 0 x (record m { word = latched m.word })) → ⊥ }
    ensures sends_and_arms { let x = first_things usual in let m = posted Root (mailbox_of x 0) in
        OnlyTouches (Inbox 0) x (set_mailbox 0 x (record m { word = record m.word { target = target.Ring } })) → ⊥ }
{}
