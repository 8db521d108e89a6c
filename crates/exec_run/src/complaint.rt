//! What the program says where it doesn't run a trace.

ghost use Rattle.std.specs.Prelude.{◌≡◌, ◌<◌, ◌≤◌, ◌++◌, Some, length, decimal};
ghost use Rattle.exec_run.specs.{Explains.complaint_line, Refusal.{status_of, text_of_complaint}};

use crate::field::OutOfRange;
use arrayvec::ArrayString;
use itoa::Buffer;
use std::fmt;

/// The most bytes that the line of a complaint has.
const MOST: usize = 64;

/// Why the program ran nothing.
#[derive(Clone, Copy, Debug, PartialEq, Eq)]
pub enum Complaint {
    /// The words are not those of a call of it.
    Usage,
    /// The source failed.
    ReadFault,
    /// The text is too long, or asks for too many steps.
    TooLong(u128),
    /// This line is the first at which the text is no trace.
    Syntax(usize),
    /// This part of the configuration is the first that is out of its range.
    Config(OutOfRange),
}

impl Complaint {
    /// The status that the program ends with.
    pub fn status(self) -> u8
        ensures { result ≡ status_of self }
    {
        match self {
            Complaint::Usage => 1,
            Complaint::Syntax(_) => 2,
            Complaint::Config(_) => 3,
            Complaint::TooLong(_) => 4,
            Complaint::ReadFault => 5,
        }
    }
}

impl Complaint {
    /// Its text, which takes no memory but its own.
    fn text(self) -> ArrayString<MOST>
        ensures text { result.bytes ≡ text_of_complaint self }
        ensures short { length result.bytes < MOST }
    {
        match self {
            Complaint::Usage => numberless("error Usage"),
            Complaint::ReadFault => numberless("error ReadFault"),
            Complaint::Syntax(line) => numbered(numberless("error Syntax "), line as u128),
            Complaint::TooLong(count) => numbered(numberless("error TooLong "), count),
            Complaint::Config(OutOfRange { field, value }) => {
                let mut words = numberless("error Config ");
                words.push_str(field.name());
                words.push_str(" ");
                numbered(words, u128::from(value))
            }
        }
    }

    /// Its line, with the line feed. It is made without asking for memory, so that what there is to complain of
    /// is never lost to the want of it.
    pub(crate) fn line(self) -> ArrayString<MOST>
        ensures { result.bytes ≡ complaint_line self }
    {
        let mut line = self.text();
        line.push_str("\n");
        line
    }
}

/// These words, which are few.
fn numberless(words: &str) -> ArrayString<MOST>
    requires { length words.now ≤ 15 }
    ensures { result.bytes ≡ words.now }
{
    let mut text = ArrayString::new();
    text.push_str(words);
    text
}

/// These words with the number behind them.
fn numbered(words: ArrayString<MOST>, number: u128) -> ArrayString<MOST>
    requires { length words.bytes ≤ 22 }
    ensures text { result.bytes ≡ words.bytes ++ decimal number }
    ensures short { length result.bytes < MOST }
{
    let mut text = words;
    let mut digits = Buffer::new();
    text.push_str(digits.format(number));
    text
}

impl fmt::Display for Complaint {
    ghost output = { λ x. Some (text_of_complaint x) };

    fn fmt<W: fmt::Write>(&self, f: &mut fmt::Formatter<W>) -> fmt::Result {
        f.write_str(self.text().as_str())
    }
}
