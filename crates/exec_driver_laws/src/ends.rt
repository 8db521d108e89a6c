//! Laws of the end of a request, whichever way it comes.

ghost use Rattle.std.specs.Prelude.{◌≡◌, ◌≢◌, ℕ, ◌<◌, ◌≤◌, ◌^◌, IsSomeAnd, [], Option, Some, None, Result, Err};
ghost use Rattle.exec_base.specs.{Slab.{Slab, value_at}, declared.{error.Error.Error, slab.Id.Id, task_no.TaskNo.TaskNo}};
ghost use Rattle.exec_outcomes.specs.Accounts.{Account};
ghost use Rattle.exec_request.specs.{Requests.output_of, States.Ended, declared.output.RequestOutput.RequestOutput};
ghost use Rattle.exec_time.specs.declared.timers.Observation.TheVariants as observation;
ghost use Rattle.exec_waiters.specs.{Events.{forwarded, seen_by, taken, told_by_close, told_by_forward, told_by_orphan, told_to, with_observer}, declared.{observer.Observer.{Observer, TheVariants.{Forwarded, Orphaned}}, waiter.{Entry.{Entry, TheVariants.Ready}, Waiter.Waiter}, waiter_id.WaiterId.WaiterId}};
ghost use Rattle.exec_driver.specs.{Driving.{Driving, request_at}, Steps.{cancelled_at, enrolled_by, expired, queued_or_ended, let_go, placed_at, timed_out, told_at_admission, told_by_cancel, told_by_end, told_by_enrolment, told_by_let_go}};
ghost use Rattle.exec_opens.specs.declared.opens.WaiterKey.{WaiterKey};
ghost use Rattle.exec_driver_laws.specs.{Ends.{gives_back, leaves_output, nowhere, outputs_after, placed_for, places_of}, Sharing.{Call, Gates, IsRun, end_by, lets_out}};

/// What a request owned comes back with its end, once, and with no step after which it goes on. So it is as its
/// operation is over or it is granted the permit, as it is cancelled or its deadline has come, as its deadline is
/// enrolled, as it is admitted, which may be too late, and as who waits for it lets it go or is closed. Of a request that
/// is over nothing comes back any more.
pub fn what_a_request_owned_comes_back_with_its_end<S, F>()
    ensures over_or_granted { (d : Driving S F) (id : WaiterId) (w : Waiter S F) (how : Option Ended) (account : Option Account) → request_at d id ≡ Some w → (told_by_end id w how account).resources ≡ gives_back id w (request_at (queued_or_ended d id w how account) id) }
    ensures cancelled { (d : Driving S F) (id : WaiterId) (w : Waiter S F) → request_at d id ≡ Some w → (told_by_cancel id (Some w)).resources ≡ gives_back id w (request_at (cancelled_at d id) id) }
    ensures expired { (d : Driving S F) (id : WaiterId) (w : Waiter S F) → request_at d id ≡ Some w → (told_by_cancel id (Some w)).resources ≡ gives_back id w (request_at (expired d id) id) }
    ensures enrolled { (d : Driving S F) (id : WaiterId) (w : Waiter S F) (tick : Result ℕ Error) → request_at d id ≡ Some w → (told_by_enrolment id w tick).resources ≡ gives_back id w (request_at (enrolled_by d id w tick) id) }
    ensures admitted { (d : Driving S F) (id : WaiterId) (w : Waiter S F) (now : ℕ) → request_at d id ≡ Some w → (told_at_admission id w now).resources ≡ gives_back id w (request_at (placed_at d id w now) id) }
    ensures let_go { (d : Driving S F) (id : WaiterId) (w : Waiter S F) → request_at d id ≡ Some w → (told_by_let_go d id (told_by_orphan id.0 (value_at d.requests id.0))).resources ≡ gives_back id w (request_at (let_go d id) id) }
    ensures closed { (d : Driving S F) (id : WaiterId) (w : Waiter S F) → request_at d id ≡ Some w → (told_by_let_go d id (told_by_close id.0 (value_at d.requests id.0))).resources ≡ gives_back id w (request_at (let_go d id) id) }
    ensures over_before { (d : Driving S F) (id : WaiterId) → request_at d id ≡ None → (told_by_let_go d id (told_by_orphan id.0 (value_at d.requests id.0))).resources ≡ [] }
{}

/// The output of a request, and with it the buffer of a receive or a read, stands in one place once it ends, by who waits
/// for it: a task of the worker has it kept in the entry, who waits elsewhere is sent it, of a detached sync the ending is
/// sent, and where nobody waits it is let go. So it is by each step that ends a request. A step after which it goes on
/// leaves no output. Who lets a request go takes none; where that was someone elsewhere, he is sent `Closed`.
#[tactic(auto, using(crate::proofs::Outputs::at_admission, crate::proofs::Outputs::when_closed, crate::proofs::Outputs::when_let_go))]
pub fn the_output_of_a_request_has_one_place<S, F>()
    ensures one { (id : WaiterId) (output : RequestOutput) (observer : Observer S F) → places_of (placed_for id output observer) ≡ 1 }
    ensures over { (d : Driving S F) (id : WaiterId) (w : Waiter S F) (how : Ended) (account : Option Account) → request_at d id ≡ Some w → outputs_after (told_by_end id w (Some how) account) (value_at (queued_or_ended d id w (Some how) account).requests id.0) ≡ placed_for id (output_of w.request how account) w.observer }
    ensures goes_on { (d : Driving S F) (id : WaiterId) (w : Waiter S F) (account : Option Account) → request_at d id ≡ Some w → outputs_after (told_by_end id w None account) (value_at (queued_or_ended d id w None account).requests id.0) ≡ nowhere }
    ensures cancelled { (d : Driving S F) (id : WaiterId) (w : Waiter S F) → request_at d id ≡ Some w → outputs_after (told_by_cancel id (Some w)) (value_at (cancelled_at d id).requests id.0) ≡ leaves_output id w timed_out None (request_at (cancelled_at d id) id) }
    ensures expired { (d : Driving S F) (id : WaiterId) (w : Waiter S F) → request_at d id ≡ Some w → outputs_after (told_by_cancel id (Some w)) (value_at (expired d id).requests id.0) ≡ leaves_output id w timed_out None (request_at (expired d id) id) }
    ensures enrolled { (d : Driving S F) (id : WaiterId) (w : Waiter S F) (error : Error) → request_at d id ≡ Some w → outputs_after (told_by_enrolment id w (Err error)) (value_at (enrolled_by d id w (Err error)).requests id.0) ≡ placed_for id (output_of w.request (Err error) None) w.observer }
    ensures admitted { (d : Driving S F) (id : WaiterId) (w : Waiter S F) (now : ℕ) → request_at d id ≡ Some w → outputs_after (told_at_admission id w now) (value_at (placed_at d id w now).requests id.0) ≡ leaves_output id w timed_out None (request_at (placed_at d id w now) id) }
    ensures let_go { (d : Driving S F) (id : WaiterId) (w : Waiter S F) → request_at d id ≡ Some w → outputs_after (told_by_let_go d id (told_by_orphan id.0 (value_at d.requests id.0))) (value_at (let_go d id).requests id.0)
        ≡ record (leaves_output id (with_observer Orphaned w) timed_out None (request_at (let_go d id) id)) { sent = (told_to id.0 w.observer).results } }
    ensures closed { (d : Driving S F) (id : WaiterId) (w : Waiter S F) → request_at d id ≡ Some w → outputs_after (told_by_let_go d id (told_by_close id.0 (value_at d.requests id.0))) (value_at (let_go d id).requests id.0)
        ≡ record (leaves_output id (with_observer Orphaned w) timed_out None (request_at (let_go d id) id)) { sent = (told_to id.0 w.observer).results } }
{}

/// An output that is kept leaves once, and its slot has none then: to the task that looks, to who waits elsewhere from now
/// on, as if he had waited at the end, or let go where nobody waits any more or the worker closes.
pub fn a_kept_output_leaves_once<S, F>()
    ensures seen { (s : Slab (Entry S F)) (id : Id) (task : TaskNo) (output : RequestOutput) → value_at s id ≡ Some (Ready output) → seen_by task (value_at s id) ≡ observation.Ready output }
    ensures taken { (s : Slab (Entry S F)) (id : Id) (output : RequestOutput) → value_at s id ≡ Some (Ready output) → value_at (taken s id) id ≡ None }
    ensures forwarded { (s : Slab (Entry S F)) (id : WaiterId) (sender : F) (output : RequestOutput) → value_at s id.0 ≡ Some (Ready output) → outputs_after (told_by_forward id.0 sender (value_at s id.0)) (value_at (forwarded s id.0 sender) id.0) ≡ placed_for id output (Forwarded sender) }
    ensures let_go { (d : Driving S F) (id : WaiterId) (output : RequestOutput) → value_at d.requests id.0 ≡ Some (Ready output) → outputs_after (told_by_let_go d id (told_by_orphan id.0 (value_at d.requests id.0))) (value_at (let_go d id).requests id.0) ≡ placed_for id output Orphaned }
    ensures stays { (worker : ℕ) (old new : Driving S F) (g g' : Gates) (call : Call worker old new g g') (id : WaiterId) (output : RequestOutput) → lets_out call ≢ Some id → value_at old.requests id.0 ≡ Some (Ready output) → value_at new.requests id.0 ≡ Some (Ready output) }
    ensures closed { (d : Driving S F) (id : WaiterId) (output : RequestOutput) → value_at d.requests id.0 ≡ Some (Ready output) → outputs_after (told_by_let_go d id (told_by_close id.0 (value_at d.requests id.0))) (value_at (let_go d id).requests id.0) ≡ placed_for id output Orphaned }
{}

/// Over a run, a request that is gone stays gone: its name, whose generation is one of 64 bits, is of no request any
/// more. So a request ends once: of two calls whose grant or reap says that it ended, each is the other.
pub fn who_is_gone_stays_gone<S, F>()
    ensures gone { (drivers : ℕ → ℕ → Driving S F) (g : ℕ → Gates) → IsRun drivers g → (n k m : ℕ) → n ≤ k → k ≤ m → (key : WaiterKey) (w : Waiter S F) → key.id.0.generation < 2 ^ 64 → request_at (drivers n key.worker) key.id ≡ Some w →
        request_at (drivers k key.worker) key.id ≡ None → request_at (drivers m key.worker) key.id ≡ None }
    ensures once { (drivers : ℕ → ℕ → Driving S F) (g : ℕ → Gates) (run : IsRun drivers g) (n m : ℕ) (key : WaiterKey) → key.id.0.generation < 2 ^ 64 → IsSomeAnd (end_by (run.next n).call) (λ e. e.0 ≡ key) →
        IsSomeAnd (end_by (run.next m).call) (λ e. e.0 ≡ key) → n ≡ m }
{}
