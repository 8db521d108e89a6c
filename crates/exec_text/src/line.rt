//! The lines of a text, one at a time.

ghost use Rattle.std.specs.{Prelude.{◌≡◌, ◌≢◌, ℕ, ◌+◌, ◌-◌, ◌<◌, ◌≤◌, [], ◌∷◌, ◌==◌, length, drop, slice_index, slice_index_or, IfOk, IfErr, IfSome, IfNone}, Str.Lines.{lines, strip_carriage_return}};
ghost use Rattle.exec_text.specs.{Grammar.says_something, Reading.{IsBeforeLine, IsNextSaid, IsLastSaid, IsMissing}};

use crate::read_error::FaultyLine;

/// A text and a place between two of its lines.
#[derive(Drop)]
pub(crate) struct Lines<'a> {
    /// The whole text.
    pub(crate) text: &'a [u8],
    /// Where the next line begins.
    from: usize,
    /// How many lines stand before it.
    pub(crate) number: usize,
    ghost place: { IsBeforeLine text.now from number },
}

impl<'a> Lines<'a> {
    /// The place before the first line.
    pub(crate) fn new(text: &'a [u8]) -> Lines<'a>
        ensures text { result.text.now ≡ text.now }
        ensures first { result.number ≡ 0 }
    {
        Lines {
            text,
            from: 0,
            number: 0,
        }
    }

    /// The same place, from which one can look ahead.
    pub(crate) fn ahead(&self) -> Lines<'a>
        ensures text { result.text.now ≡ self.now.text.now }
        ensures same { result.number ≡ self.now.number }
    {
        let Lines { text, from, number } = *self;
        Lines { text, from, number }
    }

    /// The next line that says something.
    pub(crate) fn next_said(&mut self) -> Option<&'a [u8]>
        ensures text { self.new.text.now ≡ self.old.text.now }
        ensures found { IfSome result (λ line. IsNextSaid self.old.text.now self.old.number self.new.number line.now) }
        ensures none { IfNone result (IsLastSaid self.old.text.now self.old.number self.new.number) }
    {
        while let Some(line) = self.next_line() {
            if says_something(line) {
                return Some(line);
            }
        }
        None
    }

    /// The next line that says something. Where there is none, the line after the last is missing.
    pub(crate) fn expect_said(&mut self) -> Result<&'a [u8], FaultyLine>
        ensures text { self.new.text.now ≡ self.old.text.now }
        ensures found { IfOk result (λ line. IsNextSaid self.old.text.now self.old.number self.new.number line.now) }
        ensures missing { IfErr result (λ e. IsMissing self.old.text.now self.old.number e.number) }
    {
        match self.next_said() {
            Some(line) => Ok(line),
            None => Err(FaultyLine {
                number: self.number + 1,
            }),
        }
    }

    /// That the line which was given last is at fault.
    pub(crate) fn fault(&self) -> FaultyLine
        ensures { result.number ≡ self.now.number }
    {
        FaultyLine {
            number: self.number,
        }
    }

    /// The next line.
    fn next_line(&mut self) -> Option<&'a [u8]>
        ensures text { self.new.text.now ≡ self.old.text.now }
        ensures found { IfSome result (λ line. line.now ≡ slice_index_or (lines self.old.text.now) self.old.number []) }
        ensures within { IfSome result (λ _. self.old.number < length (lines self.old.text.now)) }
        ensures next { IfSome result (λ _. self.new.number ≡ self.old.number + 1) }
        ensures none { IfNone result (self.old.number ≡ length (lines self.old.text.now)) }
        ensures stays { IfNone result (self.new.number ≡ self.old.number) }
    {
        let rest = &self.text[self.from..];
        if rest.is_empty() {
            return None;
        }
        let (line, length) = first_line(rest);
        self.from += length;
        self.number += 1;
        Some(line)
    }
}

/// Whether a line is neither blank nor a comment.
fn says_something(line: &[u8]) -> bool
    ensures { result ≡ says_something line.now }
{
    match line {
        [] => false,
        [first, ..] => *first != b'#',
    }
}

/// The first line, and how many bytes it takes together with its end.
fn first_line(text: &[u8]) -> (&[u8], usize)
    requires { 0 < length text.now }
    ensures first { lines text.now ≡ result.0.now ∷ lines (drop result.1 text.now) }
    ensures some { 0 < result.1 }
    ensures within { result.1 ≤ length text.now }
{
    match line_end(text) {
        Some(end) => (without_return(&text[..end]), end + 1),
        None => (text, text.len()),
    }
}

/// Where the first line feed stands.
fn line_end(text: &[u8]) -> Option<usize>
    ensures within { IfSome result (λ n. n < length text.now) }
    ensures at { IfSome result (λ n. slice_index text.now n ≡ 10) }
    ensures first { IfSome result (λ n. (k : ℕ) → k < n → slice_index text.now k ≢ 10) }
    ensures none { IfNone result ((k : ℕ) → k < length text.now → slice_index text.now k ≢ 10) }
{
    text.iter().position(|byte| *byte == b'\n')
}

/// The line without the carriage return at its end, if it has one.
fn without_return(line: &[u8]) -> &[u8]
    ensures { result.now ≡ strip_carriage_return line.now }
{
    match line {
        [front @ .., b'\r'] => front,
        _ => line,
    }
}
