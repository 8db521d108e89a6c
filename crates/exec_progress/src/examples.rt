//! Worked examples of what a worker has left.

ghost use Rattle.std.specs.Prelude.{◌≡◌, ℕ, true};
ghost use Rattle.exec_machine.specs.{Progress.quiet_bound, World.own_of};
ghost use Rattle.exec_moves.specs.{State.{Desk, Things}, declared.{handing.{InPush.InPush, AfterPush.AfterPush as push}, idling.{InLook.InLook as look, InScan.InScan as scan, InWordWait.InWordWait as word}, place.Place.Place as at}};
ghost use Rattle.exec_rest.specs.Examples.{rested, two_waiting, with_a_latch};
ghost use Rattle.exec_settled.specs.Examples.{second, with_second};
ghost use Rattle.exec_progress.specs.{Left.left_to, Granted.IsGranted, Ranks.rank, Owed.{beginning, flagging, spins_owed, stage, turns_owed}, Paced.{AreAimed, HaveCounts, HavePace, IsPaced}};
ghost use Rattle.exec_moves.specs.declared.place.InClosing.TheVariants as closing;

/// Of two workers: a turn begins 74 steps above the sleep, the last look 15, and a spin of three looks 10, whatever the
/// worker has. All that a turn takes up is ahead where it begins; once its last pick is made the queues are not.
pub fn places()
    ensures sleeps { (i : ℕ) → (d : Desk) → (x : Things) →
        rank two_waiting.config i d x (at.WordWait word.SleepOnWord) ≡ 0 }
    ensures spins { (i : ℕ) → (d : Desk) → (x : Things) →
        rank two_waiting.config i d x (at.WordWait (word.SpinOnBatch 3)) ≡ 10 }
    ensures looks { (i : ℕ) → (d : Desk) → (x : Things) → rank two_waiting.config i d x (at.Look look.Publish) ≡ 15 }
    ensures begins { (i : ℕ) → (d : Desk) → (x : Things) → rank two_waiting.config i d x at.BeginTurn ≡ 74 }
    ensures all_ahead { stage 64 at.BeginTurn ≡ beginning }
    ensures picked { (p : InPush) → stage 0 (at.Push p push.Pick) ≡ flagging }
{}

/// Two workers whose roots wait have made their steps until both sleep. All that the law takes for granted holds of
/// them, and all that is carried. Each has 107 steps left, if it is roused: 102 down to the next sleep, and a spin, for
/// which there are no looks. The bound is 2304.
pub fn two_at_rest()
    ensures granted { IsGranted two_waiting.config rested }
    ensures paced { IsPaced 0 two_waiting.config rested }
    ensures left { left_to two_waiting.config rested 1 ≡ 107 }
    ensures bound { quiet_bound two_waiting.config rested.world ≡ 2304 }
{}

/// Worker 1 was signalled. Where it is about to wait that is good for one more turn, with a spin of its own; where a turn
/// begins, which takes the latch out, for none. A root that is to be polled is good for one more turn once the flag was
/// looked at, and for none before.
pub fn signs()
    ensures waits { turns_owed two_waiting.config 1 (own_of rested.world 1) rested.world.common
        (record second { place = at.WordWait word.ArmWord }) with_a_latch.things ≡ 1 }
    ensures spins { spins_owed two_waiting.config 1 (own_of rested.world 1) rested.world.common
        (record second { place = at.WordWait word.ArmWord }) with_a_latch.things ≡ 1 }
    ensures begins { turns_owed two_waiting.config 1 (own_of rested.world 1) rested.world.common
        (record second { place = at.BeginTurn }) with_a_latch.things ≡ 0 }
    ensures tests { turns_owed two_waiting.config 1 (own_of rested.world 1) rested.world.common
        (record second { place = at.ReadClock; root_ready = true }) rested.things ≡ 1 }
    ensures takes { turns_owed two_waiting.config 1 (own_of rested.world 1) rested.world.common
        (record second { place = at.TakeRootFlag; root_ready = true }) rested.things ≡ 0 }
{}

/// States that are refused: a worker that begins a turn while its wake word says that it sleeps; one that scans without a
/// search count; one that puts what it has stolen into its queue, and has nothing; an open one in the midst of a closing.
pub fn refused()
    ensures unarmed { AreAimed two_waiting.config (with_second (record second { place = at.BeginTurn })) → ⊥ }
    ensures uncounted { HaveCounts two_waiting.config
        (with_second (record second { place = at.Scan scan.LoadScanHead })) → ⊥ }
    ensures empty_handed { HavePace two_waiting.config
        (with_second (record second { place = at.Scan scan.StoreMoved })) → ⊥ }
    ensures closing { IsGranted two_waiting.config
        (with_second (record second { place = at.Closing closing.CloseQueue })) → ⊥ }
{}
