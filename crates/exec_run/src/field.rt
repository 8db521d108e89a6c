//! The parts of a configuration that have ranges.

ghost use Rattle.std.specs.Prelude.{◌≡◌, ◌≤◌, length};
ghost use Rattle.exec_run.specs.Ranges.{text_of_field};

use std::fmt;
use thiserror::Error;

/// A part of a configuration that has a range.
#[derive(Clone, Copy, Debug, PartialEq, Eq)]
pub enum Field {
    /// How many workers there are.
    Workers,
    /// Every how many picks the global queue is looked at first.
    Interval,
    /// How many operations a ring can hold.
    Ring,
    /// The tick of the timeout wheel.
    Tick,
    /// How long a connect may take.
    Connect,
    /// How long another request of a socket may take.
    Rw,
    /// The four numbers of the spin.
    Spin,
    /// How many files are open.
    Files,
    /// How many sockets there are.
    Sockets,
    /// The slots of the timeout wheel, by its tick and its longest deadline.
    Layout,
}

/// A part of a configuration that is out of its range.
#[derive(Clone, Copy, Debug, PartialEq, Eq, Error)]
#[error("{field} {value}")]
pub struct OutOfRange {
    /// Which part it is.
    pub field: Field,
    /// What it says: of the spin its first number, of the layout the tick.
    pub value: u64,
}

impl Field {
    /// The name that it has in a header and in an error.
    pub fn name(self) -> &'static str
        ensures text { result.now ≡ text_of_field self }
        ensures short { length result.now ≤ 8 }
    {
        match self {
            Field::Workers => "workers",
            Field::Interval => "interval",
            Field::Ring => "ring",
            Field::Tick => "tick",
            Field::Connect => "connect",
            Field::Rw => "rw",
            Field::Spin => "spin",
            Field::Files => "files",
            Field::Sockets => "sockets",
            Field::Layout => "layout",
        }
    }
}

impl fmt::Display for Field {
    ghost use Rattle.std.specs.Prelude.{Some};

    ghost output = { λ f. Some (text_of_field f) };

    fn fmt<W: fmt::Write>(&self, f: &mut fmt::Formatter<W>) -> fmt::Result {
        f.write_str(self.name())
    }
}
