//! What was found against what has to come.
//!
//! Each comparison stands in a function of its own, which is proved once: written out at its place, an `assert_eq!` is
//! longer than all that a step does. `at` is the number of the step, counted from 0, which a failed one names.

ghost use Rattle.std.specs.Prelude.{◌≡◌, true, false};

use std::fmt::Debug;
use std::process::Abort;

/// Fails unless this was found.
pub fn same<T: PartialEq + Debug>(rt: &impl Abort, at: usize, found: &T, wanted: &T) {
    assert_eq!(rt; *found, *wanted, "at step {at}");
}

/// Fails unless this holds.
pub fn holds(rt: &impl Abort, at: usize, found: bool) {
    assert!(rt; found, "at step {at}");
}

/// Fails unless a call may be made. From then on it may.
pub fn demand(rt: &impl Abort, may: bool, why_not: &str)
    ensures { may ≡ true }
{
    assert!(rt; may, "{why_not}");
}

/// Fails where something is in the way of a call. From then on nothing is.
pub fn refuse(rt: &impl Abort, is_there: bool, what: &str)
    ensures { is_there ≡ false }
{
    assert!(rt; !is_there, "{what}");
}
