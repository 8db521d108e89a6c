//! The law of the books, for every line of a run; and what a line of a worker leaves alone.

ghost use Rattle.std.specs.Prelude.{◌≡◌, ℕ, length};
ghost use Rattle.exec_machine.specs.{declared.{config.Configuration.Configuration, event.{Event.Event, StepResult.{StepResult, TheVariants.Did}}, step.Action.{Action, TheVariants.Work}}, After.after, Choice.Choice, Progress.{Plan, begin}, Run.{Follows, after_line}, World.{World, own_of}};
ghost use Rattle.exec_books.specs.{Booked.{FirstIsOwn, IsBooked}, Reach.OnlyReaches};

/// What workers have is in their books in the first state, and after each line that follows.
pub fn each_line_keeps_the_books()
    ensures first { (p : Plan) → IsBooked (begin p) }
    ensures kept { (c : Configuration) (w : World) (a : Action) (said : StepResult) (choice : Choice) →
        length w.workers ≡ length w.common.seats → ((i : ℕ) → FirstIsOwn w.common i) → Follows c w a said choice →
        IsBooked w → IsBooked (after_line c w a said choice) }
{}

/// A line of a worker leaves what is common as it was, but for its own seat, tasks that it polls or names, requests and
/// sleepers of its own, and what it says itself: what it makes or closes, where it sends a message, whom it rouses, of which
/// open its request is, and which request or sleeper of another it takes, forwards, or has pay a wake.
pub fn a_line_reaches_only_what_it_is_about()
    ensures { (c : Configuration) (w : World) (i : ℕ) (e : Event) (choice : Choice) → FirstIsOwn w.common i →
        Follows c w (Work i) (Did e) choice →
        OnlyReaches i (own_of w i) e choice w.common (after c w i e choice).common }
{}
