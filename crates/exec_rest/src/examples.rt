//! Worked examples of the facts that keep wakes from being lost: places, states that have them, and states that are refused.

ghost use Rattle.std.specs.Prelude.{◌≡◌, true, false, [], Some, None};
ghost use Rattle.exec_words.specs.declared.idle.WorkerSet.{WorkerSet};
ghost use Rattle.exec_machine.specs.Progress.{all_asleep};
ghost use Rattle.exec_moves.specs.declared.{handing.{AfterKick.AfterKick, AfterPush.AfterPush, AfterSignal.AfterSignal, AfterClaim.AfterClaim as claim, InSignal.InSignal as signal}, idling.{AfterWait.AfterWait, InRingWait.InRingWait, InWordWait.InWordWait as word, Stay.Stay as stay}, place.Place.Place as at};
ghost use Rattle.exec_rest.specs.{AtRest.{AreBare, AreFresh, IsAtRest, IsPlaced, IsShut}, Examples.{two_waiting, rested, with_a_runnable, with_a_latch, with_a_closed_set, with_a_message, with_an_end}, Places.{has_looked, is_dry, is_published, owes, raises, signals}, Posted.IsPosted, Rested.{IsPoolOpen, IsRestful, NothingWaits, has_bit, is_latched, place_at}};

/// What is known of a worker by its place. Who waits on its wake word has put its bit into the idle set, found the global
/// queue empty after that, and found its run queue empty. Who waits on its ring while it closes has no bit there. Who takes
/// its bit out has it in up to then, and its look no longer counts. Who signals worker 3 next owes nothing to the global
/// queue. Who claims a worker owes that, if it put something there; not if it kicks.
pub fn places()
    ensures waits_published { is_published (at.WordWait word.SleepOnWord) ≡ true }
    ensures waits_looked { has_looked (at.WordWait word.SleepOnWord) ≡ true }
    ensures waits_dry { is_dry (at.WordWait word.SleepOnWord) ≡ true }
    ensures closes_unpublished { (x : InRingWait) → is_published (at.RingWait x stay.Closing) ≡ false }
    ensures withdraws_published { (n : AfterWait) → is_published (at.Withdraw n) ≡ true }
    ensures withdraws_unlooked { (n : AfterWait) → has_looked (at.Withdraw n) ≡ false }
    ensures signals_three { (b : AfterSignal) → signals (at.Signal signal.SetLatch 3 b) ≡ Some 3 }
    ensures raises_none { (b : AfterSignal) → raises (at.Signal signal.SetLatch 3 b) ≡ None }
    ensures signals_unowing { (b : AfterSignal) → owes (at.Signal signal.SetLatch 3 b) ≡ false }
    ensures claims_owing { (set : WorkerSet) (b : AfterPush) → owes (at.ClaimWorker set (claim.Global b)) ≡ true }
    ensures kicks_unowing { (set : WorkerSet) (b : AfterKick) → owes (at.ClaimWorker set (claim.Kick b)) ≡ false }
{}

/// Two workers whose roots wait make their steps until both sleep. All are asleep then, each on its wake word with its bit
/// in the idle set; nothing is in the global queue, and nobody was signalled.
pub fn two_workers_at_rest()
    ensures asleep { all_asleep rested.world ≡ true }
    ensures first_place { place_at two_waiting.config rested 0 ≡ at.WordWait word.DisarmWord }
    ensures second_place { place_at two_waiting.config rested 1 ≡ at.WordWait word.DisarmWord }
    ensures first_bit { has_bit two_waiting.config rested 0 ≡ true }
    ensures second_bit { has_bit two_waiting.config rested 1 ≡ true }
    ensures global { rested.things.global ≡ [] }
    ensures first_latch { is_latched two_waiting.config rested 0 ≡ false }
    ensures second_latch { is_latched two_waiting.config rested 1 ≡ false }
{}

/// Of the same two all holds that the laws of rest ask for, and what they say: nothing is left to be run. Nor is any task to be
/// polled, nor has anybody a message.
pub fn a_rest()
    ensures restful { IsRestful two_waiting.config rested }
    ensures posted { IsPosted two_waiting.config rested }
    ensures placed { IsPlaced two_waiting.config rested }
    ensures bare { AreBare two_waiting.config rested }
    ensures shut { IsShut rested }
    ensures fresh { AreFresh rested }
    ensures waits { NothingWaits two_waiting.config rested }
    ensures at_rest { IsAtRest two_waiting.config rested }
{}

/// Of the same two workers, states that are refused. A task lies in the global queue, and nobody is to look for a worker:
/// all have looked before. A worker that sleeps was signalled, and nobody is to end its wait.
pub fn a_lost_wake()
    ensures uncovered { IsRestful two_waiting.config with_a_runnable → ⊥ }
    ensures unrung { IsRestful two_waiting.config with_a_latch → ⊥ }
    ensures left_behind { NothingWaits two_waiting.config with_a_runnable → ⊥ }
    ensures left_signalled { NothingWaits two_waiting.config with_a_latch → ⊥ }
{}

/// No worker of the pool of the two has ended. Refused is a pool of which one has.
pub fn an_open_pool()
    ensures going { IsPoolOpen two_waiting.config rested }
    ensures ended { IsPoolOpen two_waiting.config with_an_end → ⊥ }
{}

/// Nobody but worker zero closes the task set: refused is a state in which it was closed, while worker zero goes on.
pub fn a_closed_set()
    ensures too_early { IsPlaced two_waiting.config with_a_closed_set → ⊥ }
{}

/// Refused as a rest is what has a task in the global queue, or a message in an inbox.
pub fn no_rest()
    ensures left_behind { IsAtRest two_waiting.config with_a_runnable → ⊥ }
    ensures left_unread { IsAtRest two_waiting.config with_a_message → ⊥ }
{}
