//! Bodies that run scripts.
//!
//! The abstract machine knows tasks by their scripts: which one, and how far. A body shows where it stands by what it is
//! left to do and by what it is told next. So a body whose act got no memory stands where it stood, though it has made
//! the act: it will be told that it was refused.

use exec_task::body::Body;

/// A body that runs a script.
pub trait Scripted: Body {
    ghost use Rattle.std.specs.Prelude.{ℕ, List, Option};
    ghost use Rattle.exec_parts.specs.{Words.{Plan, Said}, Spots.Spot, Scripts.{IsAnswered, IsNamed, Plays}};

    // It runs the script of a task of this plan: of the root of this worker, or of an ordinary task.
    ghost runs: { Self.Left → Plan → Option ℕ → Type 0 };

    // The requests that it holds once it is told this next, the oldest first.
    ghost holds: { Self.Left → Option Said → List ℕ };

    // Where it stands once it is told this next. Where nothing is known of that yet, it waits.
    ghost spot: { Self.Left → Option Said → Spot };

    // What it is told changes that only where there was no memory.
    ghost answered: { IsAnswered spot };

    // It does what its script says. A body that it makes begins the script that its word names.
    ghost plays: { Plays Self.left runs holds spot Self.gives };

    // Where it begins a script, its name is the number of that.
    ghost named: { IsNamed runs spot Self.name_of };
}
