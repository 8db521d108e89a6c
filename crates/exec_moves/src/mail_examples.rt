//! Worked examples of what tasks have with other workers, of gates and of dedicated workers, proved by computation:
//! single moves, and whole logs.

ghost use Rattle.std.specs.Prelude.{◌≡◌, true, false, [], ◌∷◌, ◌++◌, Some, None};
ghost use Rattle.exec_base.specs.declared.error.{Error.TheVariants.BlobSyncFailed, Cause.TheVariants.Code};
ghost use Rattle.exec_outcomes.specs.declared.outcome.{OpResult.TheVariants.{Count, Errno}, Outcome.TheVariants.{Success, Failure}};
ghost use Rattle.exec_machine.specs.{declared.{event.Event.TheVariants.{Turn, Serve, Got, Grant, Send, Rouse}, state.MailMessage.TheVariants.{ForwardRequest, CancelRequest}, step.{Action.Action as action, Step.Step as step}}, World.{no_own, request_of}, Examples.{usual, does}, Logs.{durable_writes, a_stolen_task, a_forward, a_sleeper_elsewhere, the_barrier}, MoreLogs.{sleepers, two_kinds}};
ghost use Rattle.exec_moves.specs.{declared.{handing.{AfterCancels.AfterCancels as cancels, AfterPush.AfterPush as push, InGlobal.InGlobal as global}, idling.InWordWait.InWordWait as word, place.{InClosing.InClosing as closing, InLoads.InLoads as load, InPick.InPick as pick, InService.InService as service, Round.Round as round, Place.Place as at}}, Callback.first_load, Close.after_close, Departures.{Departs, a_call}, MailLogs.{a_cancel, a_service, after_reaping, leaves_gate, one_written, sends_first, two_writes, with_dedicated}, Pick.begin_turn, Plays.{first_desk, IsPlayed}, Poll.hear_request, Send.spawn, Serve.signal, Slots.{entered, no_slots, vacated}, State.no_word, Submit.try_gate, Told.{in_order, lets_go_requests, told_of_forward}, Wait.read_clock};
ghost use Rattle.exec_words.specs.declared.word.WaitTarget.TheVariants as target;

/// A dedicated worker polls its root alone, looks at its wake word alone, waits without a search, hands what it spawns
/// to the pool, and closes beside it.
pub fn a_dedicated_worker()
    ensures picks_nothing { (begin_turn 1 with_dedicated (first_desk usual 1)).desk.place ≡ at.TakeRootFlag }
    ensures of_the_pool { (begin_turn 0 with_dedicated (first_desk usual 0)).desk.place ≡ at.Pick pick.CountDown }
    ensures loads_its_word { first_load with_dedicated 1 round.First
        ≡ at.Loads (load.LoadOwnWord (record { ready = false })) round.First }
    ensures waits { (read_clock usual 1 no_own with_dedicated (first_desk usual 1)).desk.place
        ≡ at.WordWait word.ArmWord }
    ensures spawns { (spawn usual 1 1 0 with_dedicated (first_desk usual 1) []).desk.place
        ≡ at.Global global.Append (push.Act 1) }
    ensures closes { after_close usual 1 with_dedicated ≡ at.Closing closing.CloseMailbox }
{}

/// What comes takes the slot that was freed last, or else a new one.
pub fn slots()
    ensures new { (entered 5 (entered 3 no_slots)).held ≡ Some 3 ∷ Some 5 ∷ [] }
    ensures freed { (vacated 3 (entered 5 (entered 3 no_slots))).held ≡ None ∷ Some 5 ∷ [] }
    ensures last_freed { (entered 7 (vacated 5 (vacated 3 (entered 5 (entered 3 no_slots))))).held
        ≡ None ∷ Some 7 ∷ [] }
{}

/// At a gate the first is granted, by its own worker. One that is over leaves the gate, and the worker of the next is
/// signalled, and roused where it waits.
pub fn a_gate()
    ensures grants { (try_gate 0 a_service 0 two_writes (first_desk usual 0) (0 ∷ 1 ∷ [])).event ≡ Grant 0 None }
    ensures stands_behind { (try_gate 1 a_service 0 two_writes (first_desk usual 1) (0 ∷ 1 ∷ [])).event ≡ Serve }
    ensures not_yet_left { (try_gate 1 a_service 0 one_written (first_desk usual 1) (0 ∷ 1 ∷ [])).event ≡ Serve }
    ensures leaves { (leaves_gate (0 ∷ 1 ∷ [])).thing ≡ 1 ∷ [] }
    ensures signals { (leaves_gate (0 ∷ 1 ∷ [])).desk.place ≡ at.Service (service.Signal 1 after_reaping) a_service }
    ensures nobody { (leaves_gate (0 ∷ [])).desk.place ≡ at.Service service.AdvanceWheel a_service }
    ensures rouses { (signal 1 a_service after_reaping (first_desk usual 0)
        (record no_word { target = target.Ring })).desk.place ≡ at.Service (service.Raise true 1 after_reaping) a_service }
    ensures latches { (signal 1 a_service after_reaping (first_desk usual 0) no_word).thing
        ≡ record no_word { latch = true } }
{}

/// A task that waits elsewhere takes the end once it was sent. A forward that comes too late has the end sent at once.
pub fn an_end_that_is_sent()
    ensures unheard { (hear_request 2 0 one_written (first_desk usual 1) []).event ≡ Turn }
    ensures heard { (hear_request 2 0 one_written (first_desk usual 1) (0 ∷ [])).event ≡ Got 0 Success }
    ensures in_time { (told_of_forward 0 (request_of two_writes 0)
        (record (first_desk usual 0) { requests = entered 0 no_slots; awaited = 0 ∷ [] })).awaited ≡ [] }
    ensures too_late { (told_of_forward 0 (request_of one_written 0) (first_desk usual 0)).results ≡ 0 ∷ [] }
    ensures sorted { in_order 2 (in_order 4 (in_order 2 [])) ≡ 2 ∷ 4 ∷ [] }
{}

/// What a task held that is over is let go of on its own worker, and each other worker is told, a letter each step.
pub fn letters()
    ensures owed { (lets_go_requests 0 two_writes (0 ∷ 1 ∷ []) (first_desk usual 0)).letters ≡ a_cancel 1 1 ∷ [] }
    ensures sent { sends_first.event ≡ Send 1 (CancelRequest 1) }
    ensures left { sends_first.desk.letters ≡ a_cancel 1 2 ∷ [] }
    ensures next { sends_first.desk.place ≡ at.SendCancel cancels.Pick }
{}

/// The log that the moves make is the good one: of a task that another worker polls than the one that has its request
/// or its sleeper, and of one that a worker drains while another has what it held.
pub fn logs_with_mail()
    ensures of_a_forward { IsPlayed a_forward }
    ensures of_a_sleeper_elsewhere { IsPlayed a_sleeper_elsewhere }
    ensures of_the_barrier { IsPlayed the_barrier }
{}

/// The same of a permit that goes from worker to worker, one of them dedicated; of a task that is stolen; and of
/// sleepers and requests of several kinds.
pub fn logs_with_gates()
    ensures of_durable_writes { IsPlayed durable_writes }
    ensures of_a_stolen_task { IsPlayed a_stolen_task }
    ensures of_sleepers { IsPlayed sleepers }
    ensures of_two_kinds { IsPlayed two_kinds }
{}

/// What no log by moves has, though the machine allows it. A poll of another worker's request asks for no forward; a task
/// that is over leaves the set before its letters are sent; a write is granted before the one that is over has left their
/// gate; or the worker of the next holder is signalled, and not roused.
pub fn refused_mail_lines()
    ensures forgets_to_forward { Departs a_forward.plan
        (a_call ++ step.Work 0 50 ∷ step.One (action.Land 0 (Count 8)) ∷ step.Work 0 14
        ∷ step.One (action.Wake 0 2) ∷ step.One (action.GoOn 0) ∷ step.One (action.GoOn 0) ∷ step.One (action.GoOn 0)
        ∷ step.Work 1 7 ∷ [])
        (does 1 (Send 0 (ForwardRequest 0))) (does 1 Turn) }
    ensures forgets_a_letter { Departs a_stolen_task.plan (a_call ++ a_call ++ step.Work 0 25 ∷ step.Work 1 44 ∷ [])
        (does 1 (Send 0 (CancelRequest 0))) (does 1 Turn) }
    ensures grants_too_early { Departs durable_writes.plan
        (step.Work 0 11 ∷ step.Work 1 7 ∷ step.Work 0 26 ∷ step.One (action.Land 0 (Errno 5)) ∷ step.Work 0 13
        ∷ step.Work 1 5 ∷ [])
        (does 1 Serve) (does 1 (Grant 1 (Some (Failure (BlobSyncFailed 0 (Code 5)))))) }
    ensures forgets_to_rouse { Departs durable_writes.plan
        (step.Work 0 11 ∷ step.Work 1 7 ∷ step.Work 0 8 ∷ step.Work 1 18 ∷ step.Work 0 17
        ∷ step.One (action.Land 0 (Errno 5)) ∷ step.Work 0 16 ∷ [])
        (does 0 (Rouse 1)) (does 0 Serve) }
{}
