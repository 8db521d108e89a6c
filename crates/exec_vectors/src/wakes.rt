//! Calls on a wake word. Each answer ends with the word as the original packs it: how the worker
//! waits, the latch, and the number of batches.

ghost use Rattle.std.specs.Prelude.{◌≢◌, ◌<◌, ◌^◌, IfOk};
ghost use Rattle.exec_words.specs.declared.word.WaitTarget.{WaitTarget as WaitMode};

use crate::fault::Fault;
use crate::words::short;
use exec_words::SUBMISSION_SEQ_MASK;
use exec_words::word::{PureWord, WaitTarget};
use std::alloc::Global;
use std::str::SplitWhitespace as Words;

/// The next word, the number of a batch.
fn batch(words: &mut Words<'_>) -> Result<u32, Fault>
    ensures { IfOk result (λ batch. batch < 2 ^ 29) }
{
    let batch = short(words)?;
    if batch > SUBMISSION_SEQ_MASK {
        return Err(Fault::Condition);
    }
    Ok(batch)
}

/// The word with `B` published batches.
pub fn begin(words: &mut Words<'_>) -> Result<PureWord, Fault> {
    Ok(PureWord::at(batch(words)?))
}

/// Arms a wait, and tells whether it may begin. The target must be a wait.
fn arm(
    word: &mut PureWord,
    target: WaitTarget,
    words: &mut Words<'_>,
) -> Result<&'static str, Fault>
    requires { target ≢ WaitMode.None }
{
    let processed = batch(words)?;
    if word.target != WaitTarget::None {
        return Err(Fault::Condition);
    }
    Ok(flag(word.arm(target).still_idle(processed)))
}

/// Arms a wait to sleep, which ends at once.
fn park(word: &mut PureWord, words: &mut Words<'_>) -> Result<&'static str, Fault> {
    arm(word, WaitTarget::Sleeping, words)?;
    word.disarm();
    Ok("none")
}

/// Tells whether there is more than these batches, or a signal.
fn pending(word: &PureWord, words: &mut Words<'_>) -> Result<&'static str, Fault> {
    Ok(flag(word.pending(batch(words)?)))
}

/// Makes a call on a wake word, and answers what it gave.
pub fn answer(word: &mut PureWord, alloc: Global, words: &mut Words<'_>) -> Result<String, Fault> {
    let given = match words.next().unwrap_or("") {
        "wake" => Ok(done(word.wake())),
        "consume" => Ok(done(word.consume_signal())),
        "disarm" => Ok(done(word.disarm())),
        "publish" => Ok(flag(word.publish())),
        "signalled" => Ok(flag(word.latch)),
        "pending" => pending(word, words),
        "arm" => arm(word, WaitTarget::Ring, words),
        "park" => park(word, words),
        _ => Err(Fault::Malformed),
    }?;
    format!(in alloc; "{given} word {}", packed(word)).map_err(Fault::Memory)
}

fn done(_found: PureWord) -> &'static str {
    "ok"
}

fn flag(is: bool) -> &'static str {
    if is { "1" } else { "0" }
}

/// The word as one number.
fn packed(word: &PureWord) -> u64 {
    let wait = match word.target {
        WaitTarget::None => 0,
        WaitTarget::Sleeping => 1,
        WaitTarget::Ring => 2,
    };
    let latch = if word.latch { 4u64 } else { 0 };
    word.batch as u64 * 8 + latch + wait
}
