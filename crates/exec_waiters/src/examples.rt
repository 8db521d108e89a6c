//! Worked examples of what calls do to the requests of a worker, proved by computation.

ghost use Rattle.std.specs.Prelude.{◌≡◌, ◌≢◌, [], ◌∷◌, Some, None, Ok, Err, true, false};
ghost use Rattle.exec_base.specs.{Slab.{value_at, next_id}, declared.error.Error.Error as error};
ghost use Rattle.exec_request.specs.declared.{output.{RequestOutput.RequestOutput as output, RetiredResources.RetiredResources as retired}, results.WaiterState.WaiterState as stands};
ghost use Rattle.exec_time.specs.declared.timers.Observation.TheVariants as observation;
ghost use Rattle.exec_waiters.specs.{Ids.{user_data_of, index_in, generation_in}, Told.nothing_told, States.{suits, is_held_by, may_stage, named as named_by}, Events.{newcomer, with_permit, with_state, may_cancel, seen_by, seen_in, told_by_forward, told_by_orphan, told_by_close, told_by_finish, asks_cancel_by_orphan, finished, forwarded, orphaned, taken}, Examples.{task, named, poll, sync, here, elsewhere, detached, nobody, awaited, flying, alone, done}, declared.waiter.Entry.TheVariants.{Pending, Ready}};

/// The user data of an id has its index and the low half of its generation.
pub fn user_data_of_an_id()
    ensures seven { user_data_of (record { index = 7; generation = 4294967299 }) ≡ 12884901895 }
    ensures index { index_in 12884901895 ≡ 7 }
    ensures generation { generation_in 12884901895 ≡ 3 }
    ensures half { user_data_of (record { index = 7; generation = 3 }) ≡ 12884901895 }
    ensures not_the_next { user_data_of (record { index = 7; generation = 4 }) ≢ 12884901895 }
{}

/// A completion names a request only while the operation with its user data is under way.
pub fn what_a_completion_names()
    ensures under_way { named_by (alone (flying here)) 0 ≡ Some (named 0 0) }
    ensures not_staged { named_by (alone (awaited here)) 0 ≡ None }
    ensures of_a_later_one { named_by (alone (flying here)) 4294967296 ≡ None }
    ensures of_another_slot { named_by (alone (flying here)) 1 ≡ None }
{}

/// The phases of a request: when its next operation may be staged, and when its cancel asked for.
pub fn phases()
    ensures queued { may_stage (Some (awaited here)) ≡ true }
    ensures gated { may_stage (Some (newcomer sync here)) ≡ false }
    ensures granted { may_stage (Some (with_permit (newcomer sync here))) ≡ true }
    ensures under_way { may_stage (Some (flying here)) ≡ false }
    ensures cancelled { may_stage (Some (with_state stands.CancelRequested (awaited here))) ≡ false }
    ensures first_cancel { may_cancel (Some (flying here)) ≡ true }
    ensures second_cancel { may_cancel (Some (with_state stands.CancelRequested (flying here))) ≡ false }
{}

/// Who may wait, and who can let a request go.
pub fn observers()
    ensures sync_alone { suits sync detached ≡ true }
    ensures no_poll { suits poll detached ≡ false }
    ensures a_task { is_held_by here ≡ true }
    ensures one_elsewhere { is_held_by elsewhere ≡ true }
    ensures no_detached_one { is_held_by detached ≡ false }
    ensures not_nobody { is_held_by nobody ≡ false }
    ensures the_one_woken { seen_in (task 3) (Pending (awaited here)) ≡ observation.Pending }
    ensures another { seen_in (task 4) (Pending (awaited here)) ≡ observation.Refresh }
{}

/// Letting go: a poll is cancelled and a sync is not; who waited elsewhere is told, and a task of the worker is woken
/// only where the worker closes.
pub fn letting_go()
    ensures poll_cancelled { asks_cancel_by_orphan (Some (Pending (flying here))) ≡ true }
    ensures sync_goes_on { asks_cancel_by_orphan (Some (Pending (newcomer sync elsewhere))) ≡ false }
    ensures closed { (told_by_orphan (named 0 0) (Some (Pending (newcomer sync elsewhere)))).results ≡ record { id = record { 0 = named 0 0 }; sender = 6; result = Err error.Closed } ∷ [] }
    ensures nothing { told_by_orphan (named 0 0) (Some (Pending (newcomer sync detached))) ≡ nothing_told }
    ensures no_wake { (told_by_orphan (named 0 0) (Some (Pending (awaited here)))).wakes ≡ [] }
    ensures wake { (told_by_close (named 0 0) (Some (Pending (awaited here)))).wakes ≡ task 3 ∷ [] }
    ensures too_late { (told_by_forward (named 0 0) 9 (Some (Pending (awaited elsewhere)))).results ≡ record { id = record { 0 = named 0 0 }; sender = 9; result = Err error.Closed } ∷ [] }
    ensures in_time { forwarded (alone (awaited here)) (named 0 0) 6 ≡ alone (awaited elsewhere) }
{}

/// The end of a request: its output stays for a task of the worker and else leaves at once; what it owned is retired in
/// any case.
pub fn ends()
    ensures kept { value_at (finished (alone (awaited here)) (named 0 0) (awaited here) (Ok tt) None) (named 0 0) ≡ Some (Ready (output.Poll (Ok tt))) }
    ensures woken { (told_by_finish (named 0 0) (awaited here) (Ok tt) None).wakes ≡ task 3 ∷ [] }
    ensures retired { (told_by_finish (named 0 0) (awaited here) (Ok tt) None).resources ≡ record { id = record { 0 = named 0 0 }; resources = retired.Listener 4 } ∷ [] }
    ensures gone { value_at (finished (alone (awaited nobody)) (named 0 0) (awaited nobody) (Err error.Timeout) None) (named 0 0) ≡ None }
    ensures next { next_id (finished (alone (awaited nobody)) (named 0 0) (awaited nobody) (Err error.Timeout) None) ≡ Some (named 0 1) }
    ensures let_go { (told_by_finish (named 0 0) (awaited nobody) (Err error.Timeout) None).outputs ≡ record { id = record { 0 = named 0 0 }; output = output.Poll (Err error.Timeout) } ∷ [] }
    ensures answered { (told_by_finish (named 0 0) (awaited elsewhere) (Ok tt) None).results ≡ record { id = record { 0 = named 0 0 }; sender = 6; result = Ok (output.Poll (Ok tt)) } ∷ [] }
    ensures not_lost { (told_by_finish (named 0 0) (awaited elsewhere) (Ok tt) None).results ≢ [] }
    ensures not_kept { value_at (finished (alone (awaited elsewhere)) (named 0 0) (awaited elsewhere) (Ok tt) None) (named 0 0) ≡ None }
    ensures sent { (told_by_finish (named 0 0) (newcomer sync detached) (Ok tt) None).completions ≡ record { sender = 5; result = Ok tt } ∷ [] }
    ensures nothing_else { (told_by_finish (named 0 0) (newcomer sync detached) (Ok tt) None).outputs ≡ [] }
{}

/// An output that is kept for a task: it is taken by the one that looks, sent to who waits elsewhere from now on, and let
/// go where nobody waits any more or the worker closes, which wakes no task for it. Its slot is free then.
pub fn kept_outputs()
    ensures seen { seen_by (task 4) (value_at done (named 0 0)) ≡ observation.Ready (output.Poll (Ok tt)) }
    ensures sent { (told_by_forward (named 0 0) 9 (value_at done (named 0 0))).results ≡ record { id = record { 0 = named 0 0 }; sender = 9; result = Ok (output.Poll (Ok tt)) } ∷ [] }
    ensures not_closed { (told_by_forward (named 0 0) 9 (value_at done (named 0 0))).results ≢ record { id = record { 0 = named 0 0 }; sender = 9; result = Err error.Closed } ∷ [] }
    ensures let_go { (told_by_orphan (named 0 0) (value_at done (named 0 0))).outputs ≡ record { id = record { 0 = named 0 0 }; output = output.Poll (Ok tt) } ∷ [] }
    ensures closed { told_by_close (named 0 0) (value_at done (named 0 0)) ≡ told_by_orphan (named 0 0) (value_at done (named 0 0)) }
    ensures taken { value_at (taken done (named 0 0)) (named 0 0) ≡ None }
    ensures forwarded { value_at (forwarded done (named 0 0) 9) (named 0 0) ≡ None }
    ensures orphaned { value_at (orphaned done (named 0 0)) (named 0 0) ≡ None }
{}
