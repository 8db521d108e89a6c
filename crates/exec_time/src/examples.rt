//! Worked examples of wheels, sleepers and sleeps, proved by computation.

ghost use Rattle.std.specs.Prelude.{◌≡◌, ℕ, ◌+◌, ◌-◌, ◌^◌, [], ◌∷◌, Some, None, Ok, Err, true, false};
ghost use Rattle.exec_time.specs.{Layouts.{slots_of, longest}, Wheel.{target_of, scheduled, removed, next_moment}, Turning.advanced, WheelExamples.{ms, name, short, late, three_ahead, two_ahead, one_stale, two_left}, Sleepers.{wakes_of, completions_of, is_forwarded, observation, displaced, deadline_at, left_at, IsFirst, IsDue, IsLowest}, SleepExamples.{task, named, local, forwarded, two}, Sleep.{asleep, heard, after_hearing, sleeper_of}, declared.{timers.{TimerId.TimerId as TimerName, Observation.TheVariants.{Ready, Pending, Refresh}}, sleep.SleepState.SleepState as state}};
ghost use Rattle.exec_base.specs.{Slab.{value_at, removed as gone_from}, declared.error.Error.Error as error};

/// How many slots a wheel has, and which layouts there are not.
#[tactic(auto, unfolding(crate::specs::Layouts::slots_of))]
pub fn layouts()
    ensures least { slots_of 1 (ms 5) ≡ Some 4 }
    ensures short { slots_of (ms 15) (ms 5) ≡ Some 8 }
    ensures minute { slots_of (ms 60000) (ms 5) ≡ Some 16384 }
    ensures most { slots_of 1048574 1 ≡ Some 1048576 }
    ensures too_many { slots_of 1048575 1 ≡ None }
    ensures no_horizon { slots_of 0 1 ≡ None }
    ensures no_tick { slots_of 1 0 ≡ None }
    ensures longest { slots_of longest longest ≡ Some 4 }
    ensures too_far { slots_of (longest + 1) longest ≡ None }
    ensures too_long { slots_of longest (longest + 1) ≡ None }
{}

/// The tick of a deadline depends on where the wheel stands.
#[tactic(auto, unfolding(crate::specs::Wheel::target_of, crate::specs::Wheel::scheduled, crate::specs::Wheel::least_active, crate::specs::Turning::advanced, crate::specs::Turning::slots_passed, crate::specs::WheelExamples::short, crate::specs::WheelExamples::late))]
pub fn targets()
    ensures behind { target_of short (ms 60016) (ms 60001) ≡ None }
    ensures there { target_of late (ms 60016) (ms 60001) ≡ Some (Some 12004) }
    ensures passed { target_of late (ms 60001) (ms 60001) ≡ Some None }
    ensures too_far { target_of late (ms 60016 + 1) (ms 60001) ≡ None }
    ensures fires { next_moment (scheduled late (name 0 0) 12004) ≡ Some (ms 60020) }
{}

/// What comes out, and in which order.
#[tactic(auto, unfolding(crate::specs::Wheel::scheduled, crate::specs::Wheel::removed, crate::specs::Wheel::least_active, crate::specs::Turning::advanced, crate::specs::Turning::slots_passed, crate::specs::WheelExamples::three_ahead, crate::specs::WheelExamples::two_ahead, crate::specs::WheelExamples::one_stale))]
pub fn orders()
    ensures too_early { (advanced three_ahead (ms 154)).answer ≡ None }
    ensures by_bucket { (advanced three_ahead (ms 165)).wheel.ready ≡ name 1 0 ∷ name 3 0 ∷ name 2 0 ∷ [] }
    ensures count { (advanced three_ahead (ms 165)).answer ≡ Some 3 }
    ensures whole_turn { (advanced two_ahead (ms 160)).wheel.ready ≡ name 2 0 ∷ name 1 0 ∷ [] }
    ensures stale_too { (advanced one_stale (ms 50)).wheel.ready ≡ name 7 0 ∷ name 7 1 ∷ [] }
{}

/// The next deadline is that of the least active tick.
#[tactic(auto, unfolding(crate::specs::Wheel::scheduled, crate::specs::Wheel::removed, crate::specs::Wheel::least_active, crate::specs::Turning::advanced, crate::specs::Turning::slots_passed, crate::specs::WheelExamples::two_left))]
pub fn next_deadlines()
    ensures first { next_moment two_left ≡ Some (ms 320) }
    ensures second { next_moment (removed two_left 64) ≡ Some (ms 645) }
    ensures nothing { next_moment (removed (removed two_left 64) 129) ≡ None }
{}

/// What a task finds at a sleeper, and whom it takes the place of.
pub fn looks()
    ensures gone { observation {S = ℕ} (task 5) None ≡ Ready tt }
    ensures same { observation (task 5) (value_at two (named 0)) ≡ Pending }
    ensures another { observation (task 4) (value_at two (named 0)) ≡ Refresh }
    ensures replaces { displaced (task 4) (value_at two (named 0)) ≡ Ok (task 5) }
    ensures too_late { displaced (task 4) (value_at (gone_from two (named 0)) (named 0)) ≡ Err (task 4) }
    ensures here { is_forwarded (value_at two (named 0)) ≡ false }
    ensures elsewhere { is_forwarded (value_at two (named 1)) ≡ true }
{}

/// Whom the end of a sleeper is told, and how.
pub fn endings()
    ensures wake { wakes_of local.observer ≡ task 5 ∷ [] }
    ensures nothing_sent { completions_of (Ok tt) local.observer ≡ [] }
    ensures no_wake { wakes_of forwarded.observer ≡ [] }
    ensures sent { completions_of (Err error.Closed) forwarded.observer ≡ record { sender = 7; result = Err error.Closed } ∷ [] }
{}

/// When a sleeper is due, and which one comes first.
pub fn dues()
    ensures deadline { deadline_at two (named 1) ≡ Some 20 }
    ensures early { left_at 19 (Some forwarded) ≡ Some forwarded }
    ensures due { left_at 20 (Some forwarded) ≡ None }
    ensures later { left_at 20 (Some local) ≡ Some local }
    ensures is_due { IsDue two 20 (named 1) }
    ensures is_not_due { IsDue two 29 (named 0) → ⊥ }
    ensures comes_first { IsFirst two 20 (named 1) }
    ensures comes_second { IsFirst two 30 (named 0) → ⊥ }
    ensures lowest { IsLowest two (named 0) }
    ensures not_lowest { IsLowest two (named 1) → ⊥ }
{}

/// When a sleep ends.
pub fn sleeps()
    ensures none { asleep 0 5 ≡ state.Done }
    ensures short { asleep 1 5 ≡ state.Waiting 6 }
    ensures cut { asleep (2 ^ 64 - 1) 5 ≡ state.Waiting (longest + 5) }
    ensures last { asleep 9 (2 ^ 64 - 1) ≡ state.Waiting (2 ^ 64 - 1) }
{}

/// Which sleeper is let go with a sleep: it is removed, and who hears of it elsewhere is told.
pub fn releases()
    ensures registered { (id : TimerName) → sleeper_of (state.Registered 3 id) ≡ Some (3, id) }
    ensures forwarded { (id : TimerName) → sleeper_of (state.Forwarded 4 id) ≡ Some (4, id) }
    ensures none_yet { sleeper_of (asleep 1 5) ≡ None }
    ensures over { sleeper_of (asleep 0 5) ≡ None }
{}

/// What a forwarded sleep hears.
pub fn answers()
    ensures waits { heard (Ok None) ≡ Ok false }
    ensures over { heard (Ok (Some (Ok tt))) ≡ Ok true }
    ensures refused { heard (Ok (Some (Err error.Full))) ≡ Err error.Full }
    ensures closed { heard (Err error.Full) ≡ Err error.Closed }
    ensures stays { (id : TimerName) → after_hearing (state.Forwarded 3 id) (Ok None) ≡ state.Forwarded 3 id }
    ensures ends { (id : TimerName) → after_hearing (state.Forwarded 3 id) (Err error.Closed) ≡ state.Done }
{}
