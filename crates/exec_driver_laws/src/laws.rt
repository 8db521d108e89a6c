//! Laws of drivers, and of drivers that share gates.

ghost use Rattle.std.specs.Prelude.{◌≡◌, ◌≢◌, ℕ, suc, IsSomeAnd, Bool, [], ◌∷◌, true, false, List, Option, Some, None, Ok, Err};
ghost use Rattle.exec_base.specs.declared.{error.Error.Error, slab.Id.Id};
ghost use Rattle.exec_outcomes.specs.{Accounts.{Account, is_durable}, declared.outcome.Outcome.TheVariants.Failure};
ghost use Rattle.exec_request.specs.{Requests.{asked_of, deadline_of, gate_of, goes_on_alone, outcome_if_granted, output_of, retired_of}, States.{Ended, asks_cancel}, declared.request.Request.Request};
ghost use Rattle.exec_ring.specs.declared.completion.Completion.{Completion};
ghost use Rattle.exec_waiters.specs.{Events.ending_of, Ids.user_data_of, States.{waiter_at, is_flying}, Told.nothing_told, declared.{deferred.Deferred.Deferred, waiter.Waiter.Waiter, waiter_id.WaiterId.WaiterId}};
ghost use Rattle.exec_driver.specs.{Driving.{Driving, request_at}, Placed.{ListsRequests, HasDeadlines}, Steps.{let_go, without_observer, ended, cancelled_at, told_by_cancel, told_by_end, noted, completed_in, Grants, ReapsNext}, declared.driver.{reaping.Reaped.Reaped, staging.Granted.Granted}, Service.{Parks, Reached, ServesInOrder}};
ghost use Rattle.exec_driver_laws.specs.{Ends.{EndsUnwell, told_in}, Laws.{is_listed, failure_in, failure_at, ShareGates, IsDurableFlight, GoesOnFlying}, Sharing.{Gates, LineUp, Call, CallsOne, AreFresh, IsRun, FailsFrom, end_by, sets_account_of}, Serving.{Calls, IsCalls}};
ghost use Rattle.exec_lists.specs.Lists.{is_among};
ghost use Rattle.exec_opens.specs.{Opens.OpenState, declared.opens.WaiterKey.WaiterKey};

use exec_waiters::laws::{
    a_recycled_slot_takes_no_old_completion, a_request_is_resolved_at_most_once,
};

/// Of the durable requests of an open at most one has an operation under way, whatever workers have them.
pub fn at_most_one_durable_request_of_an_open_is_in_flight<S, F>()
    ensures { (drivers : ℕ → Driving S F) (opens : List OpenState) (a b : WaiterKey) (file : ℕ) → ShareGates drivers opens → IsDurableFlight (drivers a.worker) a.id file → IsDurableFlight (drivers b.worker) b.id file → a ≡ b }
{}

/// A write or a sync that nobody waits for is not cancelled, and it has no deadline that could cancel it: who is due, and
/// so is cancelled as it expires, is no write and no sync. What is asked of the driver for that each driver says of itself
/// (`Driver::lists_requests`, `Driver::has_deadlines`). So at no moment of a run was a write or a sync cancelled, whoever
/// waits for it; and where one that was there is gone after a call, that was a grant or a reap which says that it ended.
pub fn unobserved_writes_and_syncs_are_never_cancelled<S, F>()
    ensures goes_on { (d : Driving S F) (id : WaiterId) (w : Waiter S F) → request_at d id ≡ Some w → goes_on_alone w.request ≡ true → let_go d id ≡ without_observer d id }
    ensures untimed { (r : Request) → goes_on_alone r ≡ true → deadline_of r ≡ None }
    ensures never_due { (d : Driving S F) (id : WaiterId) (w : Waiter S F) → ListsRequests d → HasDeadlines d → is_among id d.lists.due ≡ true → request_at d id ≡ Some w → goes_on_alone w.request ≡ false }
    ensures always { (drivers : ℕ → ℕ → Driving S F) (g : ℕ → Gates) → IsRun drivers g → (n i : ℕ) (id : WaiterId) (w : Waiter S F) → request_at (drivers n i) id ≡ Some w → goes_on_alone w.request ≡ true → asks_cancel w.state ≡ false }
    ensures ends_told { (drivers : ℕ → ℕ → Driving S F) (g : ℕ → Gates) (run : IsRun drivers g) (n : ℕ) (key : WaiterKey) (w : Waiter S F) → request_at (drivers n key.worker) key.id ≡ Some w →
        goes_on_alone w.request ≡ true → request_at (drivers (suc n) key.worker) key.id ≡ None → IsSomeAnd (end_by (run.next n).call) (λ e. e.0 ≡ key) }
{}

/// Once its open keeps a failure, a durable request ends with that failure as it is granted the permit, and a success
/// of its operations is told as that failure, to whoever waits for it and in the output that is kept. A kept failure
/// stays the same, whatever calls workers make, until a caller says himself what is kept of the open; and until then no
/// durable request of the open ends well, nor does the call by which it ends tell so or keep such an output.
pub fn no_durable_request_ends_well_after_a_kept_failure<S, F>()
    ensures granted { (r : Request) (account : Account) (error : Error) → is_durable (asked_of r).kind ≡ true → account.failure ≡ Some error → outcome_if_granted r (Some account) ≡ Some (Failure error) }
    ensures over { (r : Request) (account : Account) (error : Error) → is_durable (asked_of r).kind ≡ true → account.failure ≡ Some error → ending_of (output_of r (Ok tt) (Some account)) ≡ Err error }
    ensures never_well { (r : Request) (how : Ended) (account : Option Account) (error : Error) → is_durable (asked_of r).kind ≡ true → failure_in account ≡ Some error → ending_of (output_of r how account) ≢ Ok tt }
    ensures at_grant { (old new : Driving S F) (opens opens' : List OpenState) (before after : Deferred S F) (worker file : ℕ) (granted : Granted) (w : Waiter S F) (error : Error) →
        Grants old new opens opens' before after worker file granted → request_at old granted.id ≡ Some w → failure_at opens file ≡ Some error → granted.ended ≡ Some (Err error) }
    ensures at_reap { (old new : Driving S F) (opens opens' : List OpenState) (before after : Deferred S F) (r : Reaped) (w : Waiter S F) (file : ℕ) (error : Error) →
        ReapsNext old new opens opens' before after (Some r) → request_at old r.id ≡ Some w → gate_of w.request ≡ Some file → failure_at opens file ≡ Some error → r.ended ≢ Some (Ok tt) }
    ensures told_at_grant { (old new : Driving S F) (opens opens' : List OpenState) (before after : Deferred S F) (worker file : ℕ) (granted : Granted) (w : Waiter S F) (error : Error) →
        Grants old new opens opens' before after worker file granted → request_at old granted.id ≡ Some w → gate_of w.request ≡ Some file → failure_at opens file ≡ Some error → EndsUnwell new before after granted.id }
    ensures told_at_reap { (old new : Driving S F) (opens opens' : List OpenState) (before after : Deferred S F) (r : Reaped) (w : Waiter S F) (file : ℕ) (error : Error) →
        ReapsNext old new opens opens' before after (Some r) → request_at old r.id ≡ Some w → gate_of w.request ≡ Some file → failure_at opens file ≡ Some error → EndsUnwell new before after r.id }
    ensures stays { (worker : ℕ) (old new : Driving S F) (g g' : Gates) (call : Call worker old new g g') (file : ℕ) (error : Error) →
        sets_account_of call ≢ Some file → failure_at g.opens file ≡ Some error → failure_at g'.opens file ≡ Some error }
    ensures fails_on { (drivers : ℕ → ℕ → Driving S F) (gates : ℕ → Gates) (n later file : ℕ) (error : Error) → FailsFrom drivers gates n later file error → failure_at (gates later).opens file ≡ Some error }
    ensures never_after { (drivers : ℕ → ℕ → Driving S F) (gates : ℕ → Gates) (n later file : ℕ) (error : Error) (fails : FailsFrom drivers gates n later file error) (key : WaiterKey) (w : Waiter S F) →
        request_at (drivers later key.worker) key.id ≡ Some w → gate_of w.request ≡ Some file → end_by (fails.run.next later).call ≢ Some (key, Ok tt) }
    ensures never_told { (drivers : ℕ → ℕ → Driving S F) (gates : ℕ → Gates) (n later file : ℕ) (error : Error) (fails : FailsFrom drivers gates n later file error) (key : WaiterKey) (w : Waiter S F) →
        request_at (drivers later key.worker) key.id ≡ Some w → gate_of w.request ≡ Some file → IsSomeAnd (end_by (fails.run.next later).call) (λ e. e.0 ≡ key) →
        IsSomeAnd (told_in (fails.run.next later).call) (λ t. EndsUnwell (drivers (suc later) key.worker) t.0 t.1 key.id) }
{}

/// A request that has ended is over for good: its name is of no request, and stands in no list. What it owned comes
/// back with its end, once, and with no other step of a request that goes on.
#[tactic(auto, using(crate::proofs::Promises::unlisted))]
pub fn a_request_ends_once<S, F>()
    ensures over { (d : Driving S F) (id : WaiterId) (w : Waiter S F) (how : Ended) (account : Option Account) → request_at d id ≡ Some w → request_at (ended d id w how account) id ≡ None }
    ensures unlisted { (d : Driving S F) (id : WaiterId) (w : Waiter S F) (how : Ended) (account : Option Account) → is_listed id (ended d id w how account).lists ≡ false }
    ensures given_back { (id : WaiterId) (w : Waiter S F) (how : Ended) (account : Option Account) → (told_by_end id w (Some how) account).resources ≡ record { id = id; resources = retired_of w.request } ∷ [] }
    ensures kept { (id : WaiterId) (w : Waiter S F) (account : Option Account) → told_by_end id w None account ≡ nothing_told }
{
    a_request_is_resolved_at_most_once::<S, F>();
}

/// While the kernel may have an operation of a request, a cancel lets nothing of it go: not as it is asked for, nor
/// as it is acknowledged.
#[tactic(auto, using(crate::proofs::Promises::flying_on))]
pub fn a_cancel_lets_nothing_go<S, F>()
    ensures asked { (d : Driving S F) (id : WaiterId) (w : Waiter S F) → request_at d id ≡ Some w → w.in_flight ≡ true → GoesOnFlying (cancelled_at d id) id w }
    ensures untold { (id : WaiterId) (w : Waiter S F) → w.in_flight ≡ true → told_by_cancel id (Some w) ≡ nothing_told }
    ensures acknowledged { (c : Completion) (d : Driving S F) → (noted c d).requests ≡ d.requests }
{}

/// A completion is taken in by the request alone whose operation is under way with its user data.
#[tactic(auto, using(crate::proofs::Promises::completed_named))]
pub fn a_completion_is_of_its_own_request<S, F>()
    ensures own { (d : Driving S F) (c : Completion) (id : Id) → completed_in d c ≡ Some id → user_data_of id ≡ c.user_data }
    ensures under_way { (d : Driving S F) (c : Completion) (id : Id) → completed_in d c ≡ Some id → is_flying (waiter_at d.requests id) ≡ true }
{
    a_recycled_slot_takes_no_old_completion::<S, F>();
}

/// Drivers that share gates go on sharing them, whatever calls their workers make on them and on the opens: they do so
/// while there is no request, a call of one worker keeps it, and so it holds after each call of a run. At no moment of
/// a run has an open two durable requests with an operation under way.
pub fn drivers_go_on_sharing_gates<S, F>()
    ensures first { (drivers : ℕ → Driving S F) (gates : Gates) → AreFresh drivers gates → LineUp drivers gates }
    ensures kept { (drivers drivers' : ℕ → Driving S F) (gates gates' : Gates) → CallsOne drivers drivers' gates gates' → LineUp drivers gates → LineUp drivers' gates' }
    ensures always { (drivers : ℕ → ℕ → Driving S F) (gates : ℕ → Gates) → IsRun drivers gates → (n : ℕ) → LineUp (drivers n) (gates n) }
    ensures one { (drivers : ℕ → ℕ → Driving S F) (gates : ℕ → Gates) → IsRun drivers gates → (n : ℕ) (a b : WaiterKey) (file : ℕ) → IsDurableFlight (drivers n a.worker) a.id file → IsDurableFlight (drivers n b.worker) b.id file → a ≡ b }
{}

/// A whole service is calls of its worker, one after the other, which leave the opens as it does, and a whole wait on the
/// ring is, which leaves them as they are; and drivers that share gates go on sharing them, whatever calls a worker makes
/// one after the other. `Driver::service` and `Driver::park` say that they go in that order.
pub fn services_and_waits_are_calls_of_their_worker<S, F>()
    ensures calls { (worker now : ℕ) (defer answer : Bool) (old new : Reached S F) (g : Gates) → ServesInOrder worker now defer answer old new → g.opens ≡ old.opens → IsCalls worker old.driver new.driver g new.opens }
    ensures waits { (worker : ℕ) (calm : Bool) (old new : Driving S F) (g : Gates) → Parks calm old new → IsCalls worker old new g g.opens }
    ensures kept { (worker : ℕ) (drivers drivers' : ℕ → Driving S F) (g h : Gates) → Calls worker (drivers worker) g (drivers' worker) h →
        ((other : ℕ) → other ≢ worker → drivers' other ≡ drivers other) → LineUp drivers g → LineUp drivers' h }
{}
