//! Worked examples of several workers and of callers, proved by computation: single moves, and whole logs.

ghost use Rattle.std.specs.Prelude.{◌≡◌, true, false, [], ◌∷◌, ◌++◌, length, Some};
ghost use Rattle.exec_words.specs.Examples.{five, full};
ghost use Rattle.exec_machine.specs.{declared.{event.Event.TheVariants.{Turn, Begin, Spawn, Clear, Apply, Rouse, Return}, state.MailMessage.TheVariants.Root, step.{Action.Action as action, Step.Step as step}}, Choice.Payer.ByAct, Examples.{usual, says, does, posts}, MoreLogs.{wakes_of_roots, closed, a_busy_ring}};
ghost use Rattle.exec_moves.specs.{declared.{handing.{AfterPush.AfterPush as push, InPush.InPush as pushes}, idling.InScan.InScan as scan, place.Place.Place as at}, Pop.shard_count, Push.{load_push_head, flow_over}, Search.claim_half, State.{no_wake_poll, told_once, dropped}, Plays.{first_desk, IsPlayed}, Departures.{Departs, a_call}, PoolLogs.{a_spawn_beside_the_look, a_worker_is_roused, a_steal, a_wake_in_a_poll, two_close, a_claim_beside_the_last_look}};

/// The task set has four shards for each worker of the next power of two.
pub fn shards()
    ensures alone { shard_count usual ≡ 4 }
    ensures three { shard_count (record usual { workers = 3 }) ≡ 16 }
    ensures most { shard_count (record usual { workers = 64 }) ≡ 256 }
{}

/// A push into a full queue takes its newest half out.
pub fn a_full_queue()
    ensures flows_over { (load_push_head push.Pick (first_desk usual 0) full).desk.place
        ≡ at.Push (pushes.FlowOver (record { real = 0; gap = 0 })) push.Pick }
    ensures half { length (flow_over push.Pick (record { real = 0; gap = 0 }) (first_desk usual 0) full).desk.loot
        ≡ 128 }
{}

/// Of five values two are stolen, and claimed until they are released.
pub fn a_claim()
    ensures two { (claim_half (record usual { workers = 2 }) 0 (record { start = 1; passed = 0 })
        (record { real = 0; gap = 0 }) 5 (first_desk usual 0) five).desk.loot ≡ 1 ∷ 2 ∷ [] }
    ensures place { (claim_half (record usual { workers = 2 }) 0 (record { start = 1; passed = 0 })
        (record { real = 0; gap = 0 }) 5 (first_desk usual 0) five).desk.place
        ≡ at.Scan (scan.MoveHalf 1 (record { real = 2; gap = 2 })) }
{}

/// A wake that ends the wake poll before an operation lands is dropped as that is reaped, whatever lands behind.
pub fn an_ended_wake_poll()
    ensures again { told_once (told_once (record no_wake_poll { armed = true }))
        ≡ told_once (record no_wake_poll { armed = true }) }
    ensures at_first { (told_once (record no_wake_poll { armed = true; last = true })).ended ≡ Some 0 }
    ensures between { dropped (7 ∷ []) (record no_wake_poll { ended = Some 1 }) ≡ no_wake_poll }
    ensures behind { dropped (6 ∷ 7 ∷ []) (record no_wake_poll { ended = Some 1 })
        ≡ record no_wake_poll { ended = Some 1 } }
    ensures at_the_end { dropped [] (record no_wake_poll { told = true; ended = Some 0 }) ≡ no_wake_poll }
{}

/// The log that the moves make of a trace of several workers and callers is the good one, line by line, and at each
/// line each place says what the machine has of its party.
pub fn pool_logs_by_moves()
    ensures of_a_spawn_beside_the_look { IsPlayed a_spawn_beside_the_look }
    ensures of_a_worker_is_roused { IsPlayed a_worker_is_roused }
    ensures of_a_steal { IsPlayed a_steal }
    ensures of_a_wake_in_a_poll { IsPlayed a_wake_in_a_poll }
    ensures of_two_close { IsPlayed two_close }
    ensures of_a_claim_beside_the_last_look { IsPlayed a_claim_beside_the_last_look }
{}

/// The same of roots that are woken from elsewhere, of a closed task set, and of a wake poll that ends.
pub fn more_pool_logs_by_moves()
    ensures of_wakes_of_roots { IsPlayed wakes_of_roots }
    ensures of_closed { IsPlayed closed }
    ensures of_a_busy_ring { IsPlayed a_busy_ring }
{}

/// What no log by moves has. The worker looks at the global queue before its bit is in, so that the caller finds nobody
/// to claim; a claim isn't followed by its signal; or the signal by the rousing; a steal takes both of two values; a
/// wake in a poll queues the task twice, and the second runnable is let go later; a drain skips a task that it has
/// taken; or a worker keeps the second of two search counts, so that nobody kicks as it leaves.
pub fn refused_pool_lines()
    ensures looks_before_the_bit { Departs a_spawn_beside_the_look.plan
        (step.Work 1 31 ∷ step.One (action.Spawn 0 0) ∷ step.One (action.GoOn 0) ∷ step.One (action.GoOn 0) ∷ [])
        (says (action.GoOn 0) Turn) (says (action.GoOn 0) Return) }
    ensures forgets_to_signal { Departs a_worker_is_roused.plan
        (step.Work 1 40 ∷ a_call ++ step.One (action.GoOn 0) ∷ [])
        (says (action.GoOn 0) Turn) (says (action.GoOn 0) Return) }
    ensures forgets_to_rouse { Departs a_worker_is_roused.plan
        (step.Work 1 40 ∷ a_call ++ step.One (action.GoOn 0) ∷ step.One (action.GoOn 0) ∷ [])
        (says (action.GoOn 0) (Rouse 1)) (says (action.GoOn 0) Turn) }
    ensures steals_all { Departs a_steal.plan (a_call ++ a_call ++ a_call ++ a_call ++ step.Work 0 7 ∷ step.Work 1 52
        ∷ step.Work 0 5 ∷ [])
        (does 0 (Begin 4)) (does 0 Turn) }
    ensures queues_twice { Departs a_wake_in_a_poll.plan (a_call ++ step.Work 0 8 ∷ step.One (action.Wake 0 2)
        ∷ step.One (action.GoOn 0) ∷ step.Work 0 14 ∷ [])
        (does 0 (Begin 0)) (does 0 Turn) }
    ensures skips_a_task { Departs two_close.plan (step.Work 1 8 ∷ a_call ++ step.Work 0 24 ∷ [])
        (does 0 (Clear 2)) (does 0 Turn) }
    ensures keeps_a_count { Departs a_claim_beside_the_last_look.plan
        (a_call ++ a_call ++ step.Work 0 15 ∷ step.One (action.Spawn 0 1) ∷ step.One (action.GoOn 0)
        ∷ step.One (action.GoOn 0) ∷ step.One (action.GoOn 0) ∷ step.Work 0 6 ∷ step.Work 1 31 ∷ step.Work 0 7
        ∷ step.Work 1 6 ∷ step.One (action.Spawn 1 0) ∷ step.One (action.GoOn 1) ∷ step.One (action.GoOn 1)
        ∷ step.One (action.GoOn 1) ∷ step.One (action.GoOn 1) ∷ step.One (action.GoOn 1) ∷ step.One (action.GoOn 1)
        ∷ step.Work 1 13 ∷ [])
        (does 1 Turn) (does 1 (Begin 2)) }
{}

/// A second message to a root isn't left out, though the first wasn't taken; and it is applied.
pub fn refused_messages()
    ensures sends_twice { Departs wakes_of_roots.plan (step.Work 1 8 ∷ step.Work 0 7 ∷ [])
        (posts (action.Work 0) 1 ByAct true) (posts (action.Work 0) 1 ByAct false) }
    ensures applies_twice { Departs wakes_of_roots.plan (step.Work 1 8 ∷ step.Work 0 35 ∷ step.Work 1 13 ∷ [])
        (does 1 Turn) (does 1 (Apply Root)) }
{}
