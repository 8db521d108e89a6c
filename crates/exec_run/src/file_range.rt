//! Ranges of files that words read and write.

ghost use Rattle.std.specs.Prelude.{◌≡◌, ◌≤◌, ◌^◌, false, IfSome, IfNone};
ghost use Rattle.exec_run.specs.Asking.{asks_of_range, CanAsk, IsFilePart, IsRangeOf};

use exec_machine::config::ScriptWord;
use exec_text::limits::{LAST_OFFSET, MOST_ASKED};

/// A range of a file.
#[derive(Clone, Copy)]
pub(crate) struct FileRange {
    /// The file.
    pub(crate) file: u32,
    /// Where the range begins.
    pub(crate) offset: u64,
    /// How many bytes it has.
    pub(crate) length: u64,
    pub(crate) ghost early: { offset ≤ 2 ^ 62 },
    pub(crate) ghost few: { length ≤ 1048576 },
}

/// The range that a word reads or writes, if it does so.
pub(crate) fn range_of(word: ScriptWord) -> Option<FileRange>
    ensures some { IfSome result (λ r. IsRangeOf word r.file r.offset r.length) }
    ensures none { IfNone result (CanAsk word → asks_of_range word ≡ false) }
{
    match word {
        ScriptWord::Read {
            file,
            offset,
            length,
        }
        | ScriptWord::Hint {
            file,
            offset,
            length,
        }
        | ScriptWord::Direct {
            file,
            offset,
            length,
        }
        | ScriptWord::Write {
            file,
            offset,
            length,
        }
        | ScriptWord::Dsync {
            file,
            offset,
            length,
        }
        | ScriptWord::Many {
            file,
            offset,
            length,
        } => range_at(file, offset, length),
        _ => None,
    }
}

/// So many bytes of the file from this offset on, unless these are too many or too far or there is no such file.
fn range_at(file: usize, offset: u64, length: u64) -> Option<FileRange>
    ensures file { IfSome result (λ r. r.file ≡ file) }
    ensures offset { IfSome result (λ r. r.offset ≡ offset) }
    ensures length { IfSome result (λ r. r.length ≡ length) }
    ensures none { IfNone result (IsFilePart file offset length → ⊥) }
{
    let file = u32::try_from(file).ok()?;
    if offset > LAST_OFFSET || length > MOST_ASKED {
        return None;
    }
    Some(FileRange {
        file,
        offset,
        length,
    })
}
