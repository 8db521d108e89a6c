//! Bounds of what the words of a line say.

ghost use Rattle.std.specs.Prelude.{◌≡◌, ◌<◌, ◌≤◌, ◌^◌, IfSome, IfNone};
ghost use Rattle.exec_text.specs.Reading.{names_within};

use crate::limits::{LAST_OFFSET, MOST_ASKED};
use exec_machine::config::ScriptWord;

/// The number, as that of one of so many.
pub(crate) fn place_among(number: u64, count: usize) -> Option<usize>
    ensures found { IfSome result (λ place. place ≡ number) }
    ensures within { IfSome result (λ place. place < count) }
    ensures none { IfNone result (count ≤ number) }
{
    let place = number as usize;
    if place < count {
        return Some(place);
    }
    None
}

/// The number, as that of a place in a file.
pub(crate) fn offset_of(number: u64) -> Option<u64>
    ensures found { IfSome result (λ offset. offset ≡ number) }
    ensures within { IfSome result (λ offset. offset ≤ 2 ^ 62) }
    ensures none { IfNone result (2 ^ 62 < number) }
{
    if number > LAST_OFFSET {
        return None;
    }
    Some(number)
}

/// The number, as that of the bytes that one word asks for.
pub(crate) fn length_of(number: u64) -> Option<u64>
    ensures found { IfSome result (λ length. length ≡ number) }
    ensures some { IfSome result (λ length. 0 < length) }
    ensures most { IfSome result (λ length. length ≤ 1048576) }
    ensures none { IfNone result (0 < number → 1048576 < number) }
{
    if number == 0 || number > MOST_ASKED {
        return None;
    }
    Some(number)
}

/// Whether the word names no script, or one of so many. Until they are counted it may name each.
pub(crate) fn names_within(scripts: Option<usize>, word: ScriptWord) -> bool
    ensures { result ≡ names_within scripts word }
{
    match word {
        ScriptWord::Spawn { script } | ScriptWord::Dedicated { script } => match scripts {
            Some(count) => script < count,
            None => true,
        },
        _ => true,
    }
}
