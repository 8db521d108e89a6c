//! The laws of shutdown: for every line of a run, and for every state of an executor.

ghost use Rattle.std.specs.Prelude.{◌≡◌, length};
ghost use Rattle.exec_machine.specs.{declared.{config.Configuration.Configuration, event.StepResult.StepResult, step.Action.Action}, Choice.Choice, Progress.{Plan, begin}, Run.{Follows, after_line}, World.World};
ghost use Rattle.exec_moves.specs.Plays.{Playing};
ghost use Rattle.exec_books.specs.Booked.{IsBooked};
ghost use Rattle.exec_rest.specs.{AtRest.IsPlaced, Rested.IsRestful};
ghost use Rattle.exec_settled.specs.{Given.IsGiven, Parked.NobodySleepsOnWork};
ghost use Rattle.exec_shutdown.specs.{Shutdown.ShutsDown, Stopping.StopsAll};

/// Once the pool is stopped each of its workers comes to know: so it is in the first state, and after each line that follows.
pub fn a_stop_comes_to_each_worker()
    ensures first { (p : Plan) → StopsAll p.config (begin p) }
    ensures kept { (c : Configuration) (w : World) (a : Action) (said : StepResult) (choice : Choice) →
        length w.workers ≡ length w.common.seats → Follows c w a said choice → StopsAll c w → StopsAll c (after_line c w a said choice) }
{}

/// Where nobody can take a step nobody is held at the shutdown barrier; and where a worker is closing the kernel has an
/// operation.
pub fn shutdown_waits_for_the_kernel_alone()
    ensures shuts { (c : Configuration) (x : Playing) → IsPlaced c x → IsGiven c x → IsRestful c x → IsBooked x.world → StopsAll c x.world →
        NobodySleepsOnWork c x → ShutsDown x.world }
{}
