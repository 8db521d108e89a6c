//! Laws of wheels, and of the order of sleepers.

ghost use Rattle.std.specs.{Prelude.{◌≡◌, ◌↔◌, ℕ, ◌+◌, ◌<◌, ◌≤◌, List, [], Contains}, declared.cmp.Ordering.TheVariants.{Less, Equal, Greater}};
ghost use Rattle.exec_base.specs.{Slab.IsBefore, declared.slab.Id.Id};
ghost use Rattle.exec_time.specs.{Wheel.{Wheel, IsSettled, IsWithinReach, fresh, scheduled, removed, slot_of, moment_of}, Turning.advanced, WheelRuns.{Call, WasScheduled, after_all}, declared.timers.TimerId.TimerId};

use crate::timers::TimerId;

/// Each active entry is less than a revolution ahead, whatever calls are made on a wheel.
pub fn entries_are_within_reach()
    ensures begins { (horizon tick start slots : ℕ) → IsWithinReach (fresh horizon tick start slots) }
    ensures scheduled { (w : Wheel) (id : Id) (tick : ℕ) → IsWithinReach w → tick < w.current + w.slots → IsWithinReach (scheduled w id tick) }
    ensures removed { (w : Wheel) (tick : ℕ) → IsWithinReach w → IsWithinReach (removed w tick) }
    ensures advanced { (w : Wheel) (now : ℕ) → IsWithinReach w → IsWithinReach (advanced w now).wheel }
{}

/// The bucket of an active entry comes out at the first advance to its moment or a later one, and at none before.
pub fn active_entries_come_out_on_time()
    ensures never_early { (w : Wheel) (now tick : ℕ) → IsSettled w → IsWithinReach w → 0 < w.tick → 0 < w.active tick → now < moment_of w tick → (advanced w now).wheel.bucket (slot_of w tick) ≡ w.bucket (slot_of w tick) }
    ensures then_empty { (w : Wheel) (now tick : ℕ) → IsSettled w → IsWithinReach w → 0 < w.tick → 0 < w.active tick → moment_of w tick ≤ now → (advanced w now).wheel.bucket (slot_of w tick) ≡ [] }
    ensures then_out { (w : Wheel) (now tick : ℕ) (id : Id) → IsSettled w → IsWithinReach w → 0 < w.tick → 0 < w.active tick → moment_of w tick ≤ now → Contains (w.bucket (slot_of w tick)) id → Contains (advanced w now).wheel.ready id }
{}

/// An id that comes out was scheduled, whatever calls are made on a wheel. Where its tick has no active entry any more,
/// it was removed: it is stale, and no other cause makes it so. `calls` has the latest call first.
pub fn what_comes_out_was_scheduled()
    ensures { (horizon tick start slots : ℕ) (calls : List Call) (id : Id) → Contains (after_all (fresh horizon tick start slots) calls).ready id → WasScheduled (after_all (fresh horizon tick start slots) calls) calls id }
{}

/// Sleepers are ordered as their ids are, by index and then by generation. Two that are equal in this order are the same.
pub fn sleepers_are_ordered_as_their_ids()
    ensures less { (a b : TimerId) → (⟦<TimerId as Ord>⟧.cmp a b ≡ Less) ↔ IsBefore a.0 b.0 }
    ensures equal { (a b : TimerId) → (⟦<TimerId as Ord>⟧.cmp a b ≡ Equal) ↔ (a ≡ b) }
    ensures greater { (a b : TimerId) → (⟦<TimerId as Ord>⟧.cmp a b ≡ Greater) ↔ IsBefore b.0 a.0 }
{}
