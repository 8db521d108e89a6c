//! What was found against what has to come.
//!
//! Each comparison is made in a function of its own, which is proved once: written out at its place, an `assert_eq!` is
//! longer than all that a test does. One that fails tells what was looked at, as it is written.

ghost use Rattle.std.specs.Prelude.{◌≡◌, true};

use std::fmt::Debug;
use std::process::Abort;

/// Fails unless this was found.
macro_rules! same {
    ($rt:expr; $found:expr, $wanted:expr $(,)?) => {
        $crate::found::compare($rt, stringify!($found), $found, $wanted)
    };
}

/// Fails unless this holds. From then on it does.
macro_rules! holds {
    ($rt:expr; $found:expr $(,)?) => {
        $crate::found::require($rt, stringify!($found), $found)
    };
}

pub(crate) use holds;
pub(crate) use same;

/// Fails unless the same was found, and says of what.
pub fn compare<T: PartialEq + Debug + Drop>(rt: &impl Abort, what: &str, found: T, wanted: T) {
    assert_eq!(rt; found, wanted, "{what}");
}

/// Fails unless this holds, and says what. From then on it does.
pub fn require(rt: &impl Abort, what: &str, found: bool)
    ensures { found ≡ true }
{
    assert!(rt; found, "{what}");
}
