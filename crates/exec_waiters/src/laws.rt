//! Laws of the requests of a worker.

ghost use Rattle.std.specs.Prelude.{◌≡◌, ◌≢◌, ◌<◌, ◌^◌, ℕ, true, [], ◌∷◌, Option, Some, None};
ghost use Rattle.exec_base.specs.{Slab.{Slab, value_at, IsPast}, declared.slab.Id.Id};
ghost use Rattle.exec_outcomes.specs.Accounts.{Account};
ghost use Rattle.exec_request.specs.{Requests.retired_of, States.Ended};
ghost use Rattle.exec_waiters.specs.{Ids.user_data_of, States.{waiter_at, is_flying, named}, Events.{finished, told_by_finish, told_by_forward, told_by_orphan, told_by_close}, declared.waiter.{Waiter.Waiter, Entry.Entry}};

/// A completion is taken in by the request alone whose operation is under way with its user data, and by no other that
/// had the slot before: while the operation is under way, its user data names its request.
pub fn a_recycled_slot_takes_no_old_completion<S, F>()
    ensures named { (s : Slab (Entry S F)) (id : Id) → id.index < 4294967296 → is_flying (waiter_at s id) ≡ true → named s (user_data_of id) ≡ Some id }
    ensures under_way { (s : Slab (Entry S F)) (id : Id) (user_data : ℕ) → named s user_data ≡ Some id → is_flying (waiter_at s id) ≡ true }
    ensures own { (s : Slab (Entry S F)) (id : Id) (user_data : ℕ) → named s user_data ≡ Some id → user_data_of id ≡ user_data }
{}

/// A request is over once it was finished: from then on its id names no request, and no insert gives it again. No other
/// entry changes.
#[tactic(auto, using(crate::proofs::Over::others))]
pub fn a_request_is_resolved_at_most_once<S, F>()
    ensures over { (s : Slab (Entry S F)) (id : Id) (w : Waiter S F) (ended : Ended) (account : Option Account) → waiter_at s id ≡ Some w → waiter_at (finished s id w ended account) id ≡ None }
    ensures past { (s : Slab (Entry S F)) (id : Id) (w : Waiter S F) (ended : Ended) (account : Option Account) → id.generation < 2 ^ 64 → waiter_at s id ≡ Some w → IsPast (finished s id w ended account) id }
    ensures others { (s : Slab (Entry S F)) (id other : Id) (w : Waiter S F) (ended : Ended) (account : Option Account) → waiter_at s id ≡ Some w → other ≢ id → value_at (finished s id w ended account) other ≡ value_at s other }
{}

/// What a request owned comes back once, as it is finished, which asks that none of its operations is under way. No
/// other call gives any of it up.
pub fn what_a_request_owned_comes_back_once<S, F>()
    ensures finish { (id : Id) (w : Waiter S F) (ended : Ended) (account : Option Account) → (told_by_finish id w ended account).resources ≡ record { id = record { 0 = id }; resources = retired_of w.request } ∷ [] }
    ensures forward { (id : Id) (sender : F) (entry : Option (Entry S F)) → (told_by_forward id sender entry).resources ≡ [] }
    ensures orphan { (id : Id) (entry : Option (Entry S F)) → (told_by_orphan id entry).resources ≡ [] }
    ensures close { (id : Id) (entry : Option (Entry S F)) → (told_by_close id entry).resources ≡ [] }
{}
