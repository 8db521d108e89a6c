//! Lines are given to the sink.
//!
//! Each line is put together first, and then given by a call of its own, which is repeated only while less than
//! the rest of it was taken. What was given is thus a front of the lines at each moment, whole lines but for the
//! last. A log is flushed once, after its last line, and so is a complaint.
//!
//! A sink that fails is `WriteFault`, and nothing is given after it. A line of the log asks for memory for its
//! text, before a byte of it is given; the line of a complaint doesn't, so that a fault is told also where there
//! is no memory.

ghost use Rattle.std.specs.Prelude.{◌≡◌, ◌≤◌, IfOk, IfErr, OnOk, OnErr, string_bytes};
ghost use Rattle.exec_base.specs.Io.{Rose};
ghost use Rattle.exec_machine.specs.Text.{is_quiet_line};
ghost use Rattle.exec_run.specs.{Log.{Gave, GaveFront}, Explains.complaint_line, Steps.{BrokeBy, whole_line, told_of_line}};

use crate::complaint::Complaint;
use crate::trace_error::TraceError;
use exec_base::io::{Failed, Output};
use exec_machine::event::{Event, Line, StepResult};
use std::alloc::{AllocError, Global};

/// For how many bytes the text of a line has room from the start: more than most lines have, so that it seldom grows.
const LINE: usize = 64;

/// Gives the bytes, again and again while less than the rest of them is taken.
fn give_all<O: Output>(sink: &mut O, bytes: &[u8]) -> Result<(), Failed>
    ensures count { O.faults sink.old ≤ O.faults sink.new }
    ensures well { OnOk result (O.faults sink.new ≡ O.faults sink.old) }
    ensures ok { OnOk result (Gave (O.given sink.old) (O.given sink.new) bytes.now) }
    ensures failed { OnErr result (Rose (O.faults sink.old) (O.faults sink.new)) }
    ensures front { OnErr result (GaveFront (O.given sink.old) (O.given sink.new) bytes.now) }
{
    let mut at = 0;
    'rests: while at < bytes.len() {
        match sink.give(&bytes[at..]) {
            Ok(count) => at += count,
            Err(failed) => return Err(failed),
        }
    }
    Ok(())
}

/// The text of a line, with a line feed.
fn text_of(alloc: Global, line: Line) -> Result<String, AllocError>
    ensures { IfOk result (λ text. string_bytes text ≡ whole_line line) }
{
    let mut text = String::with_capacity(alloc, LINE)?;
    write!(text, "{line}\n")?;
    Ok(text)
}

/// Gives the line and a line feed.
#[tactic(auto, using(crate::proofs::StepLemmas::on_err, crate::proofs::StepLemmas::no_front))]
fn give_line<O: Output>(alloc: Global, sink: &mut O, line: Line) -> Result<(), TraceError>
    ensures count { O.faults sink.old ≤ O.faults sink.new }
    ensures well { OnOk result (O.faults sink.new ≡ O.faults sink.old) }
    ensures ok { OnOk result (Gave (O.given sink.old) (O.given sink.new) (whole_line line)) }
    ensures why { IfErr result (λ e. BrokeBy e (O.faults sink.old) (O.faults sink.new)) }
    ensures front { OnErr result (GaveFront (O.given sink.old) (O.given sink.new) (whole_line line)) }
{
    let text = text_of(alloc, line)?;
    match give_all(sink, text.as_bytes()) {
        Ok(()) => Ok(()),
        Err(Failed) => Err(TraceError::WriteFault),
    }
}

/// Whether nothing that others could see has happened.
fn is_quiet(line: Line) -> bool
    ensures { result ≡ is_quiet_line line }
{
    matches!(
        line.said,
        StepResult::Did(Event::Turn | Event::Serve | Event::Enter | Event::Busy)
    )
}

/// Gives the line, unless it is quiet and the log is to be quiet.
pub fn tell_line<O: Output>(
    alloc: Global,
    sink: &mut O,
    quiet: bool,
    line: Line,
) -> Result<(), TraceError>
    ensures count { O.faults sink.old ≤ O.faults sink.new }
    ensures well { OnOk result (O.faults sink.new ≡ O.faults sink.old) }
    ensures ok { OnOk result (Gave (O.given sink.old) (O.given sink.new) (told_of_line quiet line)) }
    ensures why { IfErr result (λ e. BrokeBy e (O.faults sink.old) (O.faults sink.new)) }
    ensures front { OnErr result (GaveFront (O.given sink.old) (O.given sink.new) (told_of_line quiet line)) }
{
    if quiet && is_quiet(line) {
        return Ok(());
    }
    give_line(alloc, sink, line)
}

/// Passes on all that the sink was given.
pub fn flush_all<O: Output>(sink: &mut O) -> Result<(), TraceError>
    ensures count { O.faults sink.old ≤ O.faults sink.new }
    ensures well { OnOk result (O.faults sink.new ≡ O.faults sink.old) }
    ensures same { O.given sink.new ≡ O.given sink.old }
    ensures passes { OnOk result (O.passed sink.new ≡ O.given sink.new) }
    ensures why { IfErr result (λ e. BrokeBy e (O.faults sink.old) (O.faults sink.new)) }
{
    match sink.flush() {
        Ok(()) => Ok(()),
        Err(Failed) => Err(TraceError::WriteFault),
    }
}

/// Gives the line of the complaint and nothing after it, and passes it on.
#[tactic(auto, using(crate::proofs::StepLemmas::on_err, crate::proofs::StepLemmas::whole_front))]
pub fn give_complaint<O: Output>(sink: &mut O, complaint: Complaint) -> Result<(), Failed>
    ensures well { OnOk result (O.faults sink.new ≡ O.faults sink.old) }
    ensures ok { OnOk result (Gave (O.given sink.old) (O.given sink.new) (complaint_line complaint)) }
    ensures passes { OnOk result (O.passed sink.new ≡ O.given sink.new) }
    ensures failed { OnErr result (Rose (O.faults sink.old) (O.faults sink.new)) }
    ensures front { OnErr result (GaveFront (O.given sink.old) (O.given sink.new) (complaint_line complaint)) }
{
    give_all(sink, complaint.line().as_str().as_bytes())?;
    sink.flush()
}
