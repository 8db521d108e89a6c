//! The words of a script.

ghost use Rattle.std.specs.Prelude.{◌≡◌, ◌≢◌, ℕ, List, [], ◌∷◌, codes, IfSome, IfNone};
ghost use Rattle.exec_machine.specs.declared.config.{Configuration.Configuration, ScriptWord.ScriptWord};
ghost use Rattle.exec_text.specs.{Grammar.{text_of_words, HeaderFits, FileFits, WordFits}, Kept.Keeps, Reading.{NoSpace, IsSpelled, IsNoWord, IsWord, IsLineOf, AllRight}};

use crate::bounds::{length_of, names_within, offset_of, place_among};
use crate::field::{first_field, next_field};
use crate::kept::Kept;
use crate::number::next_number;
use exec_machine::config::{Configuration, ScriptWord};

/// The words of a line of this name, of which there is at least one. They come behind those that were kept.
///
/// `scripts` is how many scripts there are, once they are counted.
pub(crate) fn words_in(
    name: &[u8],
    kept: Kept<ScriptWord>,
    config: &Configuration,
    scripts: Option<usize>,
    line: &[u8],
) -> Option<Kept<ScriptWord>>
    requires fits { HeaderFits config.now }
    requires name { NoSpace name.now }
    requires none { Keeps kept [] }
    ensures found { IfSome result (λ all. (words : List ScriptWord)
        × IsLineOf config.now scripts name.now line.now words × Keeps all words) }
    ensures none { IfNone result ((words : List ScriptWord) → IsLineOf config.now scripts name.now line.now words → ⊥) }
{
    let (first, rest) = first_field(line);
    if first != name || rest.is_empty() {
        return None;
    }
    words_of(kept, config, scripts, rest)
}

/// The words that the bytes spell, a space before each. They come behind those that were kept.
fn words_of(
    kept: Kept<ScriptWord>,
    config: &Configuration,
    scripts: Option<usize>,
    bytes: &[u8],
) -> Option<Kept<ScriptWord>>
    requires fits { HeaderFits config.now }
    requires none { Keeps kept [] }
    ensures found { IfSome result (λ all. (words : List ScriptWord) × (bytes.now ≡ text_of_words words)
        × AllRight config.now scripts words × Keeps all words) }
    ensures none { IfNone result ((words : List ScriptWord) → AllRight config.now scripts words →
        bytes.now ≢ text_of_words words) }
{
    let mut words = kept;
    let mut rest = bytes;
    while !rest.is_empty() {
        let (word, after) = next_word(config, rest)?;
        if !names_within(scripts, word) {
            return None;
        }
        words = words.with(word);
        rest = after;
    }
    Some(words)
}

/// The word behind the space at the front, and the rest. How many numbers it has depends on its name.
fn next_word<'a>(config: &Configuration, bytes: &'a [u8]) -> Option<(ScriptWord, &'a [u8])>
    requires { HeaderFits config.now }
    ensures found { IfSome result (λ x. IsWord config.now bytes.now x.0 x.1.now) }
    ensures none { IfNone result ((word : ScriptWord) (rest : List ℕ) → IsWord config.now bytes.now word rest → ⊥) }
{
    let (name, rest) = next_field(bytes)?;
    if let Some(word) = plain_word(name) {
        return Some((word, rest));
    }
    let (first, rest) = next_number(rest)?;
    if let Some(word) = numbered_word(config, name, first) {
        return Some((word, rest));
    }
    let (second, rest) = next_number(rest)?;
    if let Some(word) = socket_word(config, name, first, second) {
        return Some((word, rest));
    }
    let (third, rest) = next_number(rest)?;
    let word = file_word(config, name, first, second, third)?;
    Some((word, rest))
}

/// The word that is this name alone.
fn plain_word(name: &[u8]) -> Option<ScriptWord>
    ensures found { IfSome result (IsSpelled name.now []) }
    ensures fits { IfSome result (λ word. (config : Configuration) → WordFits config word) }
    ensures none { IfNone result ((config : Configuration) → IsNoWord config name.now []) }
{
    if name == b"await".as_slice() {
        return Some(ScriptWord::Await);
    }
    if name == b"drop".as_slice() {
        return Some(ScriptWord::Drop);
    }
    if name == b"yield".as_slice() {
        return Some(ScriptWord::Yield);
    }
    if name == b"end".as_slice() {
        return Some(ScriptWord::End);
    }
    None
}

/// The word that is this name and this number.
fn numbered_word(config: &Configuration, name: &[u8], number: u64) -> Option<ScriptWord>
    ensures found { IfSome result (IsSpelled name.now (number ∷ [])) }
    ensures fits { IfSome result (WordFits config.now) }
    ensures none { IfNone result (IsNoWord config.now name.now (number ∷ [])) }
{
    if name == b"sleep".as_slice() {
        return Some(ScriptWord::Sleep { time: number });
    }
    if name == b"fault".as_slice() {
        return Some(ScriptWord::Fault { code: number });
    }
    let place = number as usize;
    if name == b"spawn".as_slice() {
        return Some(ScriptWord::Spawn { script: place });
    }
    if name == b"dedicated".as_slice() {
        return Some(ScriptWord::Dedicated { script: place });
    }
    if name == b"wake".as_slice() {
        return Some(ScriptWord::Wake { task: place });
    }
    if name == b"poll".as_slice() {
        let listener = place_among(number, config.sockets)?;
        return Some(ScriptWord::Poll { listener });
    }
    if name == b"conn".as_slice() {
        let socket = place_among(number, config.sockets)?;
        return Some(ScriptWord::Connect { socket });
    }
    if name == b"sync".as_slice() {
        let file = place_among(number, config.files)?;
        return Some(ScriptWord::Sync { file });
    }
    None
}

/// The word that is this name, a socket and a length.
fn socket_word(config: &Configuration, name: &[u8], socket: u64, length: u64) -> Option<ScriptWord>
    ensures found { IfSome result (IsSpelled name.now (socket ∷ length ∷ [])) }
    ensures fits { IfSome result (WordFits config.now) }
    ensures none { IfNone result (IsNoWord config.now name.now (socket ∷ length ∷ [])) }
{
    let socket = place_among(socket, config.sockets)?;
    let length = length_of(length)?;
    if name == b"send".as_slice() {
        return Some(ScriptWord::Send { socket, length });
    }
    if name == b"recv".as_slice() {
        return Some(ScriptWord::Recv { socket, length });
    }
    if name == b"fill".as_slice() {
        return Some(ScriptWord::Fill { socket, length });
    }
    None
}

/// The word that is this name, a file, an offset in it and a length.
fn file_word(
    config: &Configuration,
    name: &[u8],
    file: u64,
    offset: u64,
    length: u64,
) -> Option<ScriptWord>
    ensures found { IfSome result (IsSpelled name.now (file ∷ offset ∷ length ∷ [])) }
    ensures fits { IfSome result (WordFits config.now) }
    ensures none { IfNone result (IsNoWord config.now name.now (file ∷ offset ∷ length ∷ [])) }
{
    let file = place_among(file, config.files)?;
    let offset = offset_of(offset)?;
    let length = length_of(length)?;
    if let Some(word) = read_word(name, file, offset, length) {
        return Some(word);
    }
    let word = write_word(name, file, offset, length)?;
    Some(word)
}

/// The word of this name that reads these bytes of the file.
fn read_word(name: &[u8], file: usize, offset: u64, length: u64) -> Option<ScriptWord>
    ensures found { IfSome result (IsSpelled name.now (file ∷ offset ∷ length ∷ [])) }
    ensures fits { IfSome result (λ word. (config : Configuration) → FileFits config file offset length →
        WordFits config word) }
    ensures none { IfNone result ((name.now ≢ codes "read") × (name.now ≢ codes "hint")
        × (name.now ≢ codes "direct")) }
{
    if name == b"read".as_slice() {
        return Some(ScriptWord::Read {
            file,
            offset,
            length,
        });
    }
    if name == b"hint".as_slice() {
        return Some(ScriptWord::Hint {
            file,
            offset,
            length,
        });
    }
    if name == b"direct".as_slice() {
        return Some(ScriptWord::Direct {
            file,
            offset,
            length,
        });
    }
    None
}

/// The word of this name that writes these bytes of the file.
fn write_word(name: &[u8], file: usize, offset: u64, length: u64) -> Option<ScriptWord>
    ensures found { IfSome result (IsSpelled name.now (file ∷ offset ∷ length ∷ [])) }
    ensures fits { IfSome result (λ word. (config : Configuration) → FileFits config file offset length →
        WordFits config word) }
    ensures none { IfNone result ((name.now ≢ codes "write") × (name.now ≢ codes "dsync")
        × (name.now ≢ codes "many")) }
{
    if name == b"write".as_slice() {
        return Some(ScriptWord::Write {
            file,
            offset,
            length,
        });
    }
    if name == b"dsync".as_slice() {
        return Some(ScriptWord::Dsync {
            file,
            offset,
            length,
        });
    }
    if name == b"many".as_slice() {
        return Some(ScriptWord::Many {
            file,
            offset,
            length,
        });
    }
    None
}
