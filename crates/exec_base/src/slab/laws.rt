//! Laws and worked examples of slabs.

ghost use Rattle.std.specs.{Prelude.{List, ◌<◌, ◌≡◌, ◌≢◌, ◌↔◌, ◌^◌, ◌-◌, ℕ, None, Some, IsSome, length}, declared.cmp.Ordering.TheVariants.{Less, Equal, Greater}};
ghost use Rattle.exec_base.specs.{declared.slab.Id.Id, Slab.{Slab, IsBefore, value_at, next_id, inserted, written, live_count, IsPast, Updates}, SlabRuns.{Change, NoneTwice, empty_from, ids_given}, SlabExamples.{named, three, one_left, refilled, last_but_one, retired}};

use super::Id;

/// No id is given twice, whatever calls are made on a slab.
pub fn no_id_is_given_twice()
    ensures { (first : ℕ) (changes : List (Change ℕ)) → first < 2 ^ 64 → NoneTwice (ids_given (empty_from first) changes) }
{}

/// Ids are ordered by index and then by generation. Two that are equal in this order are the same id.
pub fn ids_are_ordered_by_index_and_then_by_generation()
    ensures less { (a b : Id) → (⟦<Id as Ord>⟧.cmp a b ≡ Less) ↔ IsBefore a b }
    ensures equal { (a b : Id) → (⟦<Id as Ord>⟧.cmp a b ≡ Equal) ↔ (a ≡ b) }
    ensures greater { (a b : Id) → (⟦<Id as Ord>⟧.cmp a b ≡ Greater) ↔ IsBefore b a }
{}

/// A write through `get_mut` changes the value of its id and nothing else, and which ids are past stays.
pub fn a_write_changes_one_value()
    ensures map { (s : Slab ℕ) (id : Id) (value : ℕ) → IsSome (value_at s id) →
        Updates s (written s id value) id (Some value) }
    ensures past { (s : Slab ℕ) (id other : Id) (value : ℕ) → IsSome (value_at s id) →
        IsPast (written s id value) other ↔ IsPast s other }
{}

/// Three values, of which the first and then the last are removed: their slots are taken again, the last first, with
/// the next generation. The old ids name nothing.
pub fn slots_are_taken_again()
    ensures fourth { next_id three ≡ Some (named 3 0) }
    ensures last_freed { next_id one_left ≡ Some (named 2 1) }
    ensures first_freed { next_id (inserted one_left 4) ≡ Some (named 0 1) }
    ensures values { live_count refilled ≡ 3 }
    ensures slots { length refilled.slots ≡ 3 }
    ensures new { value_at refilled (named 2 1) ≡ Some 4 }
    ensures stale { value_at refilled (named 2 0) ≡ None }
    ensures not_the_old_id { next_id one_left ≢ Some (named 2 0) }
    ensures not_the_first { next_id one_left ≢ Some (named 0 1) }
{}

/// A slot whose value had the last generation is taken no more.
pub fn a_slot_retires()
    ensures last { next_id last_but_one ≡ Some (named 0 (2 ^ 64 - 1)) }
    ensures retired { next_id retired ≡ Some (named 1 (2 ^ 64 - 2)) }
    ensures not_again { next_id retired ≢ Some (named 0 0) }
{}
