//! Laws of where requests are that aren't over.

ghost use Rattle.std.specs.Prelude.{◌≡◌, ℕ, Some, true, false, [], ◌∷◌};
ghost use Rattle.exec_waiters.specs.{Examples.{here, poll, sync}, declared.{waiter.Waiter.Waiter, waiter_id.WaiterId.WaiterId}};
ghost use Rattle.exec_driver.specs.{Driving.{Driving, request_at}, Examples.{first, with_one}, Placed.Says, Steps.newcomer};
ghost use Rattle.exec_driver_laws.specs.{OwningExamples.{its_entry, polling}, Sharing.{Gates, CallsOne, IsRun}, Waiting.{ArePlaced, AreTimed, AreUnderWay, KeepsPlaces, Waits, is_placed}};
ghost use Rattle.exec_lists.specs.Lists.{no_lists, with_due, with_enrolment, with_gated, with_queued};

/// No request is forgotten. At each moment of a run, each that isn't over is to be staged or waits at its gate, and stands
/// in its driver's list of these (in the line of its open from when it joined: `who_joined_stands_in_line`); or it has an
/// operation under way, which its ring has, once, be it staged, under way or completed. A deadline that has no tick in the
/// wheel is to be enrolled, and stands in the list of these, unless the cancel of its request was asked for.
pub fn no_request_is_forgotten<S, F>()
    ensures kept { (drivers drivers' : ℕ → Driving S F) (gates gates' : Gates) → CallsOne drivers drivers' gates gates' → ((i : ℕ) → Says (drivers i)) → ((i : ℕ) → ArePlaced (drivers i)) → (i : ℕ) → ArePlaced (drivers' i) }
    ensures kept_timed { (drivers drivers' : ℕ → Driving S F) (gates gates' : Gates) → CallsOne drivers drivers' gates gates' → ((i : ℕ) → AreTimed (drivers i)) → (i : ℕ) → AreTimed (drivers' i) }
    ensures timed { (drivers : ℕ → ℕ → Driving S F) (gates : ℕ → Gates) → IsRun drivers gates → (n worker : ℕ) → AreTimed (drivers n worker) }
    ensures waits { (drivers : ℕ → ℕ → Driving S F) (gates : ℕ → Gates) → IsRun drivers gates → (n worker : ℕ) (id : WaiterId) (w : Waiter S F) → request_at (drivers n worker) id ≡ Some w → w.in_flight ≡ false → Waits (drivers n worker) id w }
    ensures under_way { (drivers : ℕ → ℕ → Driving S F) (gates : ℕ → Gates) → IsRun drivers gates → (n worker : ℕ) → AreUnderWay (drivers n worker) }
{}

/// Where requests are: a poll that came in is to be staged, and a sync waits at its gate; neither is so where no list has
/// it, or another than its own. The deadline of that poll is to be enrolled, which isn't so where no list has it. The
/// operation of one under way is in the ring; where it isn't, nothing will come of it. Who is due is in no such place, as
/// who is gated or to be enrolled is.
#[tactic(auto, using(std::proofs::lemmas::Bool::Decides::eqb_tells, crate::proofs::Workers::forgotten, crate::proofs::Workers::unenrolled, crate::proofs::Workers::lost))]
pub fn places()
    ensures queued { Waits (with_one poll 0) first (newcomer poll here) }
    ensures gated { Waits (with_one sync 0) first (newcomer sync here) }
    ensures placed { ArePlaced (with_one poll 0) }
    ensures unlisted { Waits (record (with_one poll 0) { lists = no_lists }) first (newcomer poll here) → ⊥ }
    ensures forgotten { ArePlaced (record (with_one poll 0) { lists = no_lists }) → ⊥ }
    ensures misplaced { is_placed (with_queued first no_lists) first (Some (newcomer sync here)) ≡ false }
    ensures timed { AreTimed (with_one poll 0) }
    ensures unenrolled { AreTimed (record (with_one poll 0) { lists = no_lists }) → ⊥ }
    ensures there { AreUnderWay (polling true (its_entry ∷ [])) }
    ensures lost { AreUnderWay (polling true []) → ⊥ }
    ensures due { KeepsPlaces no_lists (with_due first no_lists) }
    ensures staged { KeepsPlaces no_lists (with_gated first no_lists) → ⊥ }
    ensures enrols { KeepsPlaces no_lists (with_enrolment first no_lists) → ⊥ }
{}
