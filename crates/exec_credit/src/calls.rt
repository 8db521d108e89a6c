//! The law of credit for outside callers, among any number of workers.

ghost use Rattle.std.specs.Prelude.{◌≡◌, ◌<◌, ◌≤◌, ℕ, true, false};
ghost use Rattle.exec_machine.specs.{declared.{config.Configuration.Configuration, step.Action.Action as action}, Text.is_quiet, World.Common};
ghost use Rattle.exec_moves.specs.{Call.CallDesk, MoveOfCaller.move_of_caller, State.Things, declared.handing.CallPlace.CallPlace};
ghost use Rattle.exec_words.specs.Idle.{Idle};
ghost use Rattle.exec_credit.specs.CallCredit.{call_credit, most_credit};

/// The first step of a call is never quiet; each quiet one after it costs credit, of which there is never more than `most_credit`,
/// that is six.
pub fn a_quiet_step_of_a_caller_costs_credit()
    ensures spawns { (c : Configuration) (s : Common) (d : CallDesk) (x : Things) (j k : ℕ) →
        is_quiet (move_of_caller c s d x (action.Spawn j k)).event ≡ false }
    ensures wakes { (c : Configuration) (s : Common) (d : CallDesk) (x : Things) (j t : ℕ) →
        is_quiet (move_of_caller c s d x (action.Wake j t)).event ≡ false }
    ensures falls { (c : Configuration) (s : Common) (d : CallDesk) (x : Things) (j : ℕ) → let m = move_of_caller c s d x (action.GoOn j) in
        is_quiet m.event ≡ true → call_credit m.desk.place m.thing.idle < call_credit d.place x.idle }
    ensures most { (p : CallPlace) (x : Idle) → call_credit p x ≤ most_credit }
{}
