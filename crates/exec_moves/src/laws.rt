//! The laws of moves: for every trace, and for each step.

ghost use Rattle.std.specs.Prelude.{◌≡◌, ℕ, List};
ghost use Rattle.exec_machine.specs.{declared.{config.Configuration.Configuration, step.{Action.Action, Step.Step}}, World.{Common, Own}, Progress.Plan, Examples.Told};
ghost use Rattle.exec_moves.specs.{State.{Desk, Things}, Call.CallDesk, Cells.{names, names_by_caller}, Move.move, MoveOfCaller.move_of_caller, Touches.OnlyTouches, Plays.{Plays, log_by_moves}};

/// A trace has one log by moves: what the moves make is one, and so two of one trace are the same,
/// line by line and with what each line leaves open.
pub fn a_trace_has_one_log()
    ensures made { (p : Plan) (steps : List Step) → Plays p steps (log_by_moves p steps) }
    ensures same { (p : Plan) (steps : List Step) (told other : List Told) →
        Plays p steps told → Plays p steps other → told ≡ other }
{}

/// A step changes, of the things that parties share beside the machine's common part, the one that its place names, and
/// no other.
pub fn a_step_touches_one_thing()
    ensures of_a_worker { (c : Configuration) (i : ℕ) (me : Own) (s : Common) (d : Desk) (x : Things) →
        OnlyTouches (names c i me s d d.place) x (move c i me s d x).thing }
    ensures of_a_caller { (c : Configuration) (s : Common) (d : CallDesk) (x : Things) (a : Action) →
        OnlyTouches (names_by_caller c s d.place a) x (move_of_caller c s d x a).thing }
{}
