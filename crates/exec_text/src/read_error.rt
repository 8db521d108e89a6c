//! Why a trace could not be read.

ghost use Rattle.std.specs.Prelude.{◌≡◌};
ghost use Rattle.exec_text.specs.declared.read_error.ReadError.TheVariants.{Syntax};

use thiserror::Error;

/// Why a text was not read. `Display` has the words in which the program complains, without `error`.
#[derive(Clone, Copy, Debug, PartialEq, Eq, Error)]
pub enum ReadError {
    /// This line, counted from 1, is the first at which the text is no trace. Where the text ends too
    /// early it's the line after the last.
    #[error("Syntax {0}")]
    Syntax(usize),
    /// The text is a trace, and there was no memory for it.
    #[error("NoMemory")]
    NoMemory,
}

/// The first line at which a text is no trace, counted from 1.
#[derive(Clone, Copy, Debug, PartialEq, Eq)]
pub(crate) struct FaultyLine {
    pub(crate) number: usize,
}

impl From<FaultyLine> for ReadError {
    ghost from_gives = { λ fault e. e ≡ Syntax fault.number };

    fn from(fault: FaultyLine) -> ReadError {
        ReadError::Syntax(fault.number)
    }
}
