//! Worked examples of what calls do to a driver, proved by computation.

ghost use Rattle.std.specs.Prelude.{◌≡◌, ℕ, [], ◌∷◌, Some, None, Ok, Err, true, false};
ghost use Rattle.exec_base.specs.{Slab.value_at, declared.error.{Cause.Cause as cause, Error.Error as error}};
ghost use Rattle.exec_request.specs.declared.output.RequestOutput.{RequestOutput as output};
ghost use Rattle.exec_ring.specs.Completions.{acknowledged, wake_completion, completed};
ghost use Rattle.exec_outcomes.specs.declared.outcome.OpResult.TheVariants.{Count, Errno};
ghost use Rattle.exec_waiters.specs.{Examples.{poll, sync}, declared.{waiter.Entry.TheVariants.Ready, deferred.Deferred.Deferred}};
ghost use Rattle.exec_driver.specs.{Driving.may_stage_one, Steps.{cancelled_at, let_go, cancel_staged, cancel_entry, poll_staged, entered, noted, completed_in, is_control, is_turn_of, tick_for, lowest_gate}, Service.{ServesInOrder, reached}, Turns.{may_wait, finds_busy, is_taken, is_calm}, Examples.{first, wheel, idle, with_one, flying}};
ghost use Rattle.exec_lists.specs.Lists.{no_lists};

/// Admission: a poll is queued and its deadline to be enrolled, one whose deadline has come is over, and a sync waits
/// at the gate of its open, which grants only to the worker of its holder.
pub fn admissions()
    ensures queued { (with_one poll 0).lists.queued ≡ first ∷ [] }
    ensures unenrolled { (with_one poll 0).lists.enrolments ≡ first ∷ [] }
    ensures in_time { may_stage_one (with_one poll 9) ≡ true }
    ensures too_late { value_at (with_one poll 10).requests first.0 ≡ Some (Ready (output.Poll (Err error.Timeout))) }
    ensures unlisted { (with_one poll 10).lists ≡ no_lists }
    ensures gated { (with_one sync 0).lists.gated ≡ first ∷ [] }
    ensures unstaged { may_stage_one (with_one sync 0) ≡ false }
    ensures gate { lowest_gate 0 (with_one sync 0).requests (with_one sync 0).lists.gated None ≡ Some 1 }
    ensures past { lowest_gate 2 (with_one sync 0).requests (with_one sync 0).lists.gated None ≡ None }
    ensures turn { is_turn_of 3 (with_one sync 0).lists (Some (record { worker = 3; id = first })) ≡ true }
    ensures another { is_turn_of 4 (with_one sync 0).lists (Some (record { worker = 3; id = first })) ≡ false }
{}

/// A cancel: what is queued ends at once; of what is in flight the cancel is to be staged, once; a sync that nobody
/// waits for stays. The acknowledgement ends nothing.
pub fn cancels()
    ensures ended { value_at (cancelled_at (with_one poll 0) first).requests first.0 ≡ Some (Ready (output.Poll (Err error.Timeout))) }
    ensures asked { (cancelled_at flying first).lists.cancels ≡ first ∷ [] }
    ensures once { cancelled_at (cancelled_at flying first) first ≡ cancelled_at flying first }
    ensures over { cancelled_at idle first ≡ idle }
    ensures alone { (let_go (with_one sync 0) first).lists.gated ≡ first ∷ [] }
    ensures orphan { (let_go flying first).lists.cancels ≡ first ∷ [] }
    ensures staged { (cancel_staged (cancelled_at flying first) first).ring.staged ≡ cancel_entry first ∷ [] }
    ensures under_way { (cancel_staged (cancelled_at flying first) first).cancels_under_way ≡ 1 }
    ensures acknowledged { noted (acknowledged 4294967295) (cancel_staged flying first) ≡ record (cancel_staged flying first) { cancels_under_way = 0 } }
{}

/// Which completion is of which request: that of the operation under way, and no other.
pub fn completions()
    ensures own { completed_in flying (completed 0 (Count 1)) ≡ Some first.0 }
    ensures of_another { completed_in flying (completed 1 (Count 1)) ≡ None }
    ensures of_a_later { completed_in flying (completed 4294967296 (Count 1)) ≡ None }
    ensures not_staged { completed_in (with_one poll 0) (completed 0 (Count 1)) ≡ None }
    ensures unlawful { completed_in flying (completed 0 (Errno 4096)) ≡ None }
    ensures wake { is_control (wake_completion true) ≡ true }
    ensures last { (noted (wake_completion false) (record idle { armed = true })).armed ≡ false }
{}

/// Deadlines: at the first tick that isn't before it, none that has passed, and none beyond the wheel.
#[tactic(auto, unfolding(exec_time::specs::Wheel::target_of))]
pub fn deadlines()
    ensures ahead { tick_for wheel 7 6 ≡ Ok 2 }
    ensures at_a_tick { tick_for wheel 10 6 ≡ Ok 2 }
    ensures passed { tick_for wheel 5 6 ≡ Err error.Timeout }
    ensures beyond { tick_for wheel 21 6 ≡ Err (error.Io cause.InvalidInput) }
{}

/// When a worker may wait: nothing is to be submitted, the wake poll is out or has room, its word is calm, and the kernel
/// isn't busy, which is so only once where a full queue is entered first. It sleeps once the kernel has what was staged.
pub fn waits()
    ensures idle { may_wait idle ≡ true }
    ensures pending { may_wait (with_one poll 0) ≡ false }
    ensures gated { may_wait (with_one sync 0) ≡ true }
    ensures no_room { may_wait (record idle { ring = record idle.ring { size = 0 } }) ≡ false }
    ensures calm { is_calm false true ≡ true }
    ensures signalled { is_calm true true ≡ false }
    ensures another_batch { is_calm false false ≡ false }
    ensures free { finds_busy idle ≡ false }
    ensures busy { finds_busy (record idle { ring = record idle.ring { busy = true } }) ≡ true }
    ensures busy_before { finds_busy (record idle { ring = record idle.ring { size = 0; busy = true } }) ≡ false }
    ensures staged { is_taken (poll_staged idle) ≡ false }
    ensures taken { is_taken (entered (poll_staged idle)) ≡ true }
{}

/// A service of a driver without requests stages the wake poll, and makes no other step.
pub fn services()
    ensures idle { (told : Deferred ℕ ℕ) → ServesInOrder 3 0 false false (reached idle [] told None) (reached (poll_staged idle) [] told None) }
{}
