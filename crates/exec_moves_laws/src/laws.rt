//! The law of what a step sees.

ghost use Rattle.std.specs.Prelude.{ℕ};
ghost use Rattle.exec_machine.specs.{declared.{config.Configuration.Configuration, step.Action.Action}, World.{Common, Own}};
ghost use Rattle.exec_moves.specs.{State.{Desk, Things}, Call.CallDesk, Cells.{names, names_by_caller}, Move.move, MoveOfCaller.move_of_caller};
ghost use Rattle.exec_moves_laws.specs.Sees.{LooksAlike, GoesAlike, CallsAlike};

/// A step sees, of the things that parties share beside the machine's common part, the one that its place names, and no
/// other: with things that look alike there it does the same, and leaves what looks alike there again.
pub fn a_step_sees_one_thing()
    ensures of_a_worker { (c : Configuration) (i : ℕ) (me : Own) (s : Common) (d : Desk) (x y : Things) →
        LooksAlike (names c i me s d d.place) x y →
        GoesAlike (names c i me s d d.place) (move c i me s d x) (move c i me s d y) }
    ensures of_a_caller { (c : Configuration) (s : Common) (d : CallDesk) (x y : Things) (a : Action) →
        LooksAlike (names_by_caller c s d.place a) x y →
        CallsAlike (names_by_caller c s d.place a) (move_of_caller c s d x a) (move_of_caller c s d y a) }
{}
