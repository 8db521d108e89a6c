//! Laws of the operations that rings have: whose they are.

ghost use Rattle.std.specs.Prelude.{◌≡◌, ◌<◌, ℕ, suc, Bool, true, false, IsSomeAnd, [], ◌∷◌, Some, None};
ghost use Rattle.exec_base.specs.declared.slab.Id.{Id};
ghost use Rattle.exec_opens.specs.declared.opens.WaiterKey.{WaiterKey};
ghost use Rattle.exec_request.specs.Windows.{cancel_window, wake_window};
ghost use Rattle.exec_ring.specs.{Completions.is_operation, Kernels.{MayAllLand, all_taken, may_have, with_entry, with_wake}, Rings.RingState, declared.completion.Completion.Completion};
ghost use Rattle.exec_waiters.specs.{Ids.user_data_of, declared.{waiter.Waiter.Waiter, waiter_id.WaiterId.WaiterId}};
ghost use Rattle.exec_driver.specs.{Admission.with_rooms, Driving.{Driving, request_at}, Examples.first, Placed.Says, Steps.{advanced_to, cancel_staged, completed_in, entered, poll_staged}};
ghost use Rattle.exec_driver_laws.specs.{Lawful.EndsLawfully, Owning.{operations_in, KeepsOperations, is_under_way, IsOwned, HasOwner}, OwningExamples.{polling, its_entry}, Sharing.{Gates, CallsOne, IsRun, end_by_reap}, Waiting.KeepsPlaces};

/// What else a worker does leaves the operations of its ring, and what is to be staged, waits at gates or is to be
/// enrolled: it stages a cancel or the wake poll, enters the kernel, raises a wake, goes on to a moment, says how the next
/// enter or wake goes, or makes and gives up room. What lands within an enter may land, as each driver says (`Says`): so
/// an operation ends with a result that its window allows. The lists change where a cancel is staged, where deadlines have
/// come, and with the rooms.
#[tactic(auto, using(crate::proofs::OwningRing::cancel_keeps, crate::proofs::OwningRing::poll_keeps, crate::proofs::OwningRing::entered_keeps, crate::proofs::OwningRing::wake_keeps, crate::proofs::OwningRing::advance_places, crate::proofs::OwningRing::cancel_within, crate::proofs::OwningRing::poll_within, crate::proofs::OwningRing::enter_within, crate::proofs::OwningRing::wake_within))]
pub fn other_calls_leave_operations_and_places<S, F>()
    ensures cancel { (d : Driving S F) (id : WaiterId) → KeepsOperations d.ring (cancel_staged d id).ring }
    ensures poll { (d : Driving S F) → KeepsOperations d.ring (poll_staged d).ring }
    ensures enter { (d : Driving S F) → MayAllLand d.landings (all_taken d.ring) → KeepsOperations d.ring (entered d).ring }
    ensures raise { (ring : RingState) → KeepsOperations ring (with_wake ring) }
    ensures advance { (d : Driving S F) (now : ℕ) → KeepsOperations d.ring (advanced_to d now).ring }
    ensures flags { (ring : RingState) (busy last : Bool) → KeepsOperations ring (record ring { busy = busy; last = last }) }
    ensures rooms { (like d : Driving S F) → KeepsOperations d.ring (with_rooms like d).ring }
    ensures cancel_lawful { (d : Driving S F) (id : WaiterId) → EndsLawfully d.ring (cancel_staged d id).ring }
    ensures poll_lawful { (d : Driving S F) → EndsLawfully d.ring (poll_staged d).ring }
    ensures enter_lawful { (d : Driving S F) → MayAllLand d.landings (all_taken d.ring) → EndsLawfully d.ring (entered d).ring }
    ensures raise_lawful { (ring : RingState) → EndsLawfully ring (with_wake ring) }
    ensures advance_lawful { (d : Driving S F) (now : ℕ) → EndsLawfully d.ring (advanced_to d now).ring }
    ensures flags_lawful { (ring : RingState) (busy last : Bool) → EndsLawfully ring (record ring { busy = busy; last = last }) }
    ensures rooms_lawful { (like d : Driving S F) → EndsLawfully d.ring (with_rooms like d).ring }
    ensures cancel_places { (d : Driving S F) (id : WaiterId) → KeepsPlaces d.lists (cancel_staged d id).lists }
    ensures advance_places { (d : Driving S F) (now : ℕ) → KeepsPlaces d.lists (advanced_to d now).lists }
    ensures rooms_places { (like d : Driving S F) → KeepsPlaces d.lists (with_rooms like d).lists }
{}

/// At each moment of a run, while a ring has an operation, be it staged, under way or completed, the request that it is
/// of is there and in flight, so it still owns its buffers; and the ring has no other of it. So no request that has the
/// slot later takes the completion: as long as the ring has the operation it is of the same request, and of no other
/// is its completion taken in. A request with an operation under way ends with a reap alone, which says so.
pub fn an_operation_is_of_a_request_in_flight<S, F>()
    ensures kept { (drivers drivers' : ℕ → Driving S F) (gates gates' : Gates) → CallsOne drivers drivers' gates gates' → ((i : ℕ) → Says (drivers i)) → ((i : ℕ) → IsOwned (drivers i)) → (i : ℕ) → IsOwned (drivers' i) }
    ensures always { (drivers : ℕ → ℕ → Driving S F) (gates : ℕ → Gates) → IsRun drivers gates → (n worker : ℕ) → IsOwned (drivers n worker) }
    ensures names { (drivers : ℕ → ℕ → Driving S F) (gates : ℕ → Gates) → IsRun drivers gates → (n worker : ℕ) (id : WaiterId) (w : Waiter S F) → request_at (drivers n worker) id ≡ Some w → is_operation (user_data_of id.0) ≡ true }
    ensures owner { (drivers : ℕ → ℕ → Driving S F) (gates : ℕ → Gates) → IsRun drivers gates → (n worker user_data : ℕ) → is_operation user_data ≡ true → 0 < operations_in (drivers n worker).ring user_data → HasOwner (drivers n worker) user_data }
    ensures stays { (drivers : ℕ → ℕ → Driving S F) (gates : ℕ → Gates) → IsRun drivers gates → (n worker user_data : ℕ) → is_operation user_data ≡ true →
        (a : HasOwner (drivers n worker) user_data) (b : HasOwner (drivers (suc n) worker) user_data) → b.id ≡ a.id }
    ensures taken { (drivers : ℕ → ℕ → Driving S F) (gates : ℕ → Gates) → IsRun drivers gates → (n worker : ℕ) (c : Completion) (id : Id) (a : HasOwner (drivers n worker) c.user_data) →
        completed_in (drivers n worker) c ≡ Some id → id ≡ a.id.0 }
    ensures gone { (drivers : ℕ → ℕ → Driving S F) (gates : ℕ → Gates) (run : IsRun drivers gates) (n : ℕ) (key : WaiterKey) (w : Waiter S F) → request_at (drivers n key.worker) key.id ≡ Some w →
        w.in_flight ≡ true → request_at (drivers (suc n) key.worker) key.id ≡ None → IsSomeAnd (end_by_reap (run.next n).call) (λ e. e.0 ≡ key) }
{}

/// An entry has the user data of its kind: a wake poll that of wakes, a cancel that of cancels, and an operation neither.
pub fn user_data_of_entries()
    ensures wake { may_have wake_window.kind 18446744073709551615 ≡ true }
    ensures wake_as_cancel { may_have wake_window.kind 4294967295 ≡ false }
    ensures cancel { may_have (cancel_window 7).kind 4294967295 ≡ true }
    ensures cancel_as_operation { may_have (cancel_window 7).kind 7 ≡ false }
    ensures operation { may_have its_entry.window.kind (user_data_of first.0) ≡ true }
    ensures operation_as_wake { may_have its_entry.window.kind 18446744073709551615 ≡ false }
    ensures operation_as_cancel { may_have its_entry.window.kind 4294967295 ≡ false }
{}

/// Whose operations are: a poll under way owns the one that its ring has; one that has none owns none, and none has two.
/// The user data of cancels and of the wake poll is that of no operation, and the entry of a wake poll is none whatever its
/// user data. Who loses an operation, or brings one, doesn't keep them.
#[tactic(auto, using(std::proofs::lemmas::Bool::Decides::eqb_tells, crate::proofs::OwningRuns::unowned, crate::proofs::OwningRuns::two))]
pub fn operations()
    ensures owned { IsOwned (polling true (its_entry ∷ [])) }
    ensures one { operations_in (polling true (its_entry ∷ [])).ring (user_data_of first.0) ≡ 1 }
    ensures under_way { is_under_way (polling true []) (user_data_of first.0) ≡ true }
    ensures idle { is_under_way (polling false []) (user_data_of first.0) ≡ false }
    ensures of_none { IsOwned (polling false (its_entry ∷ [])) → ⊥ }
    ensures twice { IsOwned (polling true (its_entry ∷ its_entry ∷ [])) → ⊥ }
    ensures cancels { is_operation 4294967295 ≡ false }
    ensures wakes { is_operation 18446744073709551615 ≡ false }
    ensures poll { is_operation (user_data_of first.0) ≡ true }
    ensures entry { operations_in (with_entry (polling true []).ring its_entry.window (user_data_of first.0)) (user_data_of first.0) ≡ 1 }
    ensures wake_entry { operations_in (with_entry (polling true []).ring wake_window (user_data_of first.0)) (user_data_of first.0) ≡ 0 }
    ensures kept { KeepsOperations (polling true (its_entry ∷ [])).ring (record (polling true (its_entry ∷ [])).ring { wakes = 1 }) }
    ensures lost { KeepsOperations (polling true (its_entry ∷ [])).ring (polling true []).ring → ⊥ }
    ensures brought { KeepsOperations (polling true []).ring (polling true (its_entry ∷ [])).ring → ⊥ }
{}
