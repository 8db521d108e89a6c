//! From the words and the source to the sink and the status.
//!
//! First the words are looked at, then the source is read and checked, then the trace is run and its log given, then
//! the sink is flushed. Where one of these can't be done the rest is left out, and the status says which it was:
//! words, text, configuration and source are complained of in one line of the sink, which is flushed as well; a
//! sink that fails is told by the status alone.
//!
//! What a status means is said by the counts of faults: with 0 neither rose, with 5 that of the source did, with 6
//! that of the sink, and with 7 neither did.

ghost use Rattle.std.specs.Prelude.{◌≡◌, ◌+◌, ◌≤◌, [], Some, IfErr, IfSome, IfNone, OnOk};
ghost use Rattle.exec_run.specs.{Refusal.{AskForTrace, AskForSomeTrace, TakesWithin, most_bytes}, Log.GaveLog, Explains.{NoneRose, IsCauseOf, IsGivenAt, Explains, Completes}, Steps.Complains};

use crate::complaint::Complaint;
use crate::reading::{check, read_all};
use crate::stepping::log_trace;
use crate::trace_error::TraceError;
use crate::writing::give_complaint;
use exec_base::io::{Failed, Input, Output};
use std::alloc::Global;

/// The status where the sink fails.
const WRITE_FAULT: u8 = 6;
/// The status where there is no memory, also for what the program needs besides.
pub const NO_MEMORY: u8 = 7;

/// Reads a trace from the source, runs it, and gives its log to the sink, line by line. A quiet log is the same
/// without the lines whose event is `turn`, `serve`, `enter` or `busy`.
///
/// Nothing is given before the whole text is read and checked. The errors, in this order: `ReadFault` where
/// the source fails, `TooLong` where the text has too many bytes, `Syntax` where it is no trace, `TooLong`
/// where it asks for too many steps, `Config` where a part of its configuration is out of range, and this names
/// the first. Then the run begins, which ends with `WriteFault` where the sink fails.
/// `NoMemory` comes wherever an allocation fails.
pub fn run_trace<I: Input, O: Output>(
    alloc: Global,
    source: &mut I,
    sink: &mut O,
    quiet: bool,
) -> Result<(), TraceError>
    // The source held a trace, and the sink was given a log of it.
    ensures ok { OnOk result (GaveLog quiet (I.left source.old) (O.given sink.old) (O.given sink.new)) }
    // All of it was passed on.
    ensures passes { OnOk result (O.passed sink.new ≡ O.given sink.new) }
    // Neither end failed.
    ensures well { OnOk result (NoneRose (I.faults source.old) (I.faults source.new)
        (O.faults sink.old) (O.faults sink.new)) }
    // The counts of faults never fall.
    ensures count { O.faults sink.old ≤ O.faults sink.new }
    // The source was read to its end.
    ensures to_end { OnOk result (IfSome (I.left source.old) (λ _. I.left source.new ≡ Some [])) }
    // At most one byte more than a text may have was taken of it.
    ensures few { TakesWithin (most_bytes + 1) (I.left source.old) (I.left source.new) }
    // Each error has its cause.
    ensures err { IfErr result (λ e. IsCauseOf e (I.left source.old)
        (I.faults source.old) (I.faults source.new) (O.faults sink.old) (O.faults sink.new)) }
    // What was given up to an error is nothing or a front of a log.
    ensures given { IfErr result (λ e. IsGivenAt quiet e (I.left source.old) (O.given sink.old) (O.given sink.new)) }
{
    let text = read_all(alloc, source)?;
    let trace = check(alloc, text.as_slice())?;
    log_trace(alloc, sink, quiet, trace)
}

/// Whether the log is to be quiet, where the words ask for the run of a trace.
#[tactic(auto, using(crate::proofs::RunLemmas::one_word, crate::proofs::RunLemmas::two_words))]
fn asked_quiet(words: &[String]) -> Option<bool>
    ensures some { IfSome result (λ quiet. AskForTrace quiet words.now) }
    ensures none { IfNone result (AskForSomeTrace words.now → ⊥) }
{
    match words {
        [command] if command.as_str() == "trace" => Some(false),
        [command, detail] if command.as_str() == "trace" && detail.as_str() == "quiet" => {
            Some(true)
        }
        _ => None,
    }
}

/// Gives the complaint, and answers the status.
fn complain<O: Output>(sink: &mut O, complaint: Complaint) -> u8
    ensures { Complains complaint result (O.given sink.old) (O.given sink.new) (O.passed sink.new)
        (O.faults sink.old) (O.faults sink.new) }
{
    match give_complaint(sink, complaint) {
        Ok(()) => complaint.status(),
        Err(Failed) => WRITE_FAULT,
    }
}

/// The whole program: the words say what to run, and the answer is the status.
///
/// The words `trace` run the trace of the source, and the words `trace quiet` run it with a quiet log.
/// Statuses: 0 where its whole log was given; 1 where the words are anything else; 2 where the text is no
/// trace, 3 where its configuration is out of range, 4 where it's too long, 5 where the source fails; 6 where
/// the sink fails; 7 where there is no memory. By 1 to 5 the sink is given one line that begins with `error`.
pub fn run<I: Input, O: Output>(alloc: Global, words: &[String], source: &mut I, sink: &mut O) -> u8
    // The status says what happened.
    ensures explains { Explains result words.now (I.left source.old)
        (I.faults source.old) (I.faults source.new) (O.given sink.old) (O.given sink.new)
        (O.passed sink.new) (O.faults sink.old) (O.faults sink.new) }
    // A trace that may be run has its whole log, unless there was no memory.
    ensures completes { Completes result words.now (I.left source.old)
        (I.faults source.old) (I.faults source.new) (O.given sink.old) (O.given sink.new)
        (O.passed sink.new) (O.faults sink.old) (O.faults sink.new) }
    // The source was read to its end.
    ensures to_end { result ≡ 0 → IfSome (I.left source.old) (λ _. I.left source.new ≡ Some []) }
    // At most one byte more than a text may have was taken of it.
    ensures few { TakesWithin (most_bytes + 1) (I.left source.old) (I.left source.new) }
    // For words that ask for no trace it isn't read.
    ensures unread { (AskForSomeTrace words.now → ⊥) → source.new ≡ source.old }
{
    let Some(quiet) = asked_quiet(words) else {
        return complain(sink, Complaint::Usage);
    };
    match run_trace(alloc, source, sink, quiet) {
        Ok(()) => 0,
        Err(TraceError::WriteFault) => WRITE_FAULT,
        Err(TraceError::NoMemory) => NO_MEMORY,
        Err(TraceError::ReadFault) => complain(sink, Complaint::ReadFault),
        Err(TraceError::TooLong(count)) => complain(sink, Complaint::TooLong(count)),
        Err(TraceError::Syntax(line)) => complain(sink, Complaint::Syntax(line)),
        Err(TraceError::Config(part)) => complain(sink, Complaint::Config(part)),
    }
}
