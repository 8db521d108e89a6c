//! The text is read from its source and checked.
//!
//! The source is read in pieces up to its end, or up to one byte more than a text may have. Then the whole text is
//! checked: first against the grammar, then for how many steps it asks, then for the ranges of its configuration.
//! So of several faults the one that is told is the first in this order, and nothing runs before all is checked.
//!
//! A source that fails is `ReadFault`. Want of memory is told only of a source that hasn't failed, and where it
//! comes in the reading of the grammar, only of a text that is a trace.

ghost use Rattle.std.specs.Prelude.{◌≡◌, ◌+◌, ◌<◌, ◌≤◌, [], Some, IfOk, IfErr, IfSome, OnOk, length};
ghost use Rattle.exec_run.specs.{Refusal.{IsTextIn, TakesWithin, most_bytes}, Reading.{ReadsPiece, CannotTake, CannotRead, IsChecked, CannotRun}};

use crate::ranges::first_out_of_range;
use crate::trace_error::TraceError;
use exec_base::io::{Failed, Input};
use exec_base::limits::MOST_STEPS;
use exec_text::trace::Trace;
use exec_text::{ReadError, read_trace, total_steps};
use std::alloc::Global;

/// The most bytes that a text may have.
const MOST_TEXT: usize = 67_108_864;
/// The most bytes that one call reads.
const PIECE: usize = 4096;

/// Moves the next bytes of the source to the end of the text, and answers how many. 0 only at the end.
fn read_piece<I: Input>(
    source: &mut I,
    buffer: &mut [u8],
    text: &mut Vec<u8>,
) -> Result<usize, TraceError>
    requires { 0 < length buffer.old }
    ensures count { I.faults source.old ≤ I.faults source.new }
    ensures well { OnOk result (I.faults source.new ≡ I.faults source.old) }
    ensures within { IfOk result (λ count. count ≤ length buffer.old) }
    ensures read { IfOk result (ReadsPiece (I.left source.old) (I.left source.new) text.old.items text.new.items) }
    ensures taken { TakesWithin (length buffer.old) (I.left source.old) (I.left source.new) }
    ensures err { IfErr result (λ e. CannotTake e (I.faults source.old) (I.faults source.new)) }
{
    match source.take(buffer) {
        Ok(count) => {
            text.extend_from_slice(&buffer[..count])?;
            Ok(count)
        }
        Err(Failed) => Err(TraceError::ReadFault),
    }
}

/// All bytes of the source, unless these are too many.
pub fn read_all<I: Input>(alloc: Global, source: &mut I) -> Result<Vec<u8>, TraceError>
    ensures whole { IfOk result (λ text. IsTextIn (I.left source.old) text.items) }
    ensures well { OnOk result (I.faults source.new ≡ I.faults source.old) }
    ensures to_end { OnOk result (IfSome (I.left source.old) (λ _. I.left source.new ≡ Some [])) }
    ensures few { TakesWithin (most_bytes + 1) (I.left source.old) (I.left source.new) }
    ensures err { IfErr result (λ e. CannotRead e (I.left source.old) (I.faults source.old) (I.faults source.new)) }
{
    let mut buffer = [0; PIECE];
    let mut text = Vec::new(alloc);
    'pieces: while text.len() <= MOST_TEXT {
        let room = (MOST_TEXT + 1 - text.len()).min(PIECE);
        let count = read_piece(source, &mut buffer[..room], &mut text)?;
        if count == 0 {
            return Ok(text);
        }
    }
    Err(TraceError::TooLong(text.len() as u128))
}

/// The trace that the text spells, unless it asks for too many steps or its configuration is out of range.
pub fn check(alloc: Global, text: &[u8]) -> Result<Trace, TraceError>
    ensures ok { IfOk result (IsChecked text.now) }
    ensures err { IfErr result (λ e. CannotRun e text.now) }
{
    let trace = match read_trace(alloc, text) {
        Ok(trace) => trace,
        Err(ReadError::Syntax(line)) => return Err(TraceError::Syntax(line)),
        Err(ReadError::NoMemory) => return Err(TraceError::NoMemory),
    };
    let total = total_steps(trace.steps.as_slice());
    if total > u128::from(MOST_STEPS) {
        return Err(TraceError::TooLong(total));
    }
    if let Some(part) = first_out_of_range(trace.config) {
        return Err(TraceError::Config(part));
    }
    Ok(trace)
}
