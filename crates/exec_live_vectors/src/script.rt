//! The lines of a case.

/// A call with what the original answered.
#[derive(Clone, Copy)]
pub struct Line<'a> {
    /// The whole line.
    pub text: &'a str,
    /// The call.
    pub call: &'a str,
    /// The answer.
    pub wanted: &'a str,
}

/// The lines that are still to be played.
#[derive(Drop)]
pub struct Script<'a> {
    rest: &'a [String],
}

impl<'a> Script<'a> {
    /// These lines, up to the next case.
    pub fn new(rest: &'a [String]) -> Self {
        Script { rest }
    }

    /// How many lines follow at most.
    pub fn len(&self) -> usize {
        self.rest.len()
    }

    /// The next line of the case.
    pub fn next(&mut self) -> Option<Line<'a>> {
        let (text, rest) = self.rest.split_first()?;
        let text = text.as_str();
        let (call, wanted) = text.split_once(" = ")?;
        self.rest = rest;
        Some(Line { text, call, wanted })
    }
}
