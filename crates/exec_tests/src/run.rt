//! Whole runs: a trace or a text that is none, between ends that fail or don't, with the log or the complaint. The logs
//! of other runs stand in `runs`.

use crate::found::same;
use exec_base::io::{MemInput, MemOutput};
use exec_run::field::{Field, OutOfRange};
use exec_run::{Complaint, TraceError, run, run_trace};
use std::alloc::Global;
use std::test::Fail;

/// A trace whose root sends ten bytes, awaits them and ends.
const EXAMPLE: &str = "workers 1
interval 31
ring 16
tick 5000000
connect 10000000
rw 10000000
spin 0 0 0 0
files 0
sockets 1
root send 0 10 await end
steps
w 0 1000
k 0 10
w 0 1000
";

/// Its quiet log.
const QUIET_LOG: &str = "w 0 begin 0
w 0 admit 0 send
w 0 wait 0
w 0 pend 0
w 0 enrol 0
w 0 stage 0
w 0 sleep 10000000
w 0 refused
k 0 10 land
w 0 reap 0 10 ok
w 0 wake 0
w 0 release 0
w 0 begin 0
w 0 got 0 ok
w 0 done 0
w 0 close
w 0 stop
w 0 end
w 0 refused
";

/// A header with no files and no sockets.
const HEADER: &str = "workers 1
interval 31
ring 16
tick 5000000
connect 10000000
rw 10000000
spin 0 0 0 0
files 0
sockets 0
";

/// A source of the text that gives so many bytes a call, and fails at the calls with these numbers.
fn source_of(alloc: Global, text: &str, failing: &[u64], most: usize) -> Result<MemInput, Fail> {
    let bytes = text.as_bytes().to_vec(alloc)?;
    Ok(MemInput::new(bytes, failing.to_vec(alloc)?, most.max(1)))
}

/// The words of a call, with a space between two.
fn words_of(alloc: Global, text: &str) -> Result<Vec<String>, Fail> {
    let mut words = Vec::new(alloc);
    for word in text.split(' ') {
        words.push(String::from_str(alloc, word)?)?;
    }
    Ok(words)
}

/// The status of a call with these words for this trace, and what was written.
pub(crate) fn call(alloc: Global, text: &str, trace: &str) -> Result<(u8, MemOutput), Fail> {
    let words = words_of(alloc, text)?;
    let mut source = source_of(alloc, trace, [].as_slice(), 4096)?;
    let mut sink = MemOutput::new(alloc, vec![in alloc]?, 4096);
    let status = run(alloc, words.as_slice(), &mut source, &mut sink);
    Ok((status, sink))
}

#[test]
fn the_example_gives_its_quiet_log(rt: HostRuntime) -> Result<(), Fail> {
    let (status, sink) = call(rt.alloc(), "trace quiet", EXAMPLE)?;
    same!(&rt; status, 0);
    same!(&rt; sink.bytes(), QUIET_LOG.as_bytes());
    same!(&rt; sink.passed(), QUIET_LOG.as_bytes());
    Ok(())
}

#[test]
fn other_words_are_a_usage_error(rt: HostRuntime) -> Result<(), Fail> {
    for words in [
        "",
        "traces",
        "trace ",
        "quiet",
        "trace loud",
        "quiet trace",
        "trace quiet quiet",
    ] {
        let (status, sink) = call(rt.alloc(), words, EXAMPLE)?;
        same!(&rt; status, 1);
        same!(&rt; sink.bytes(), b"error Usage\n".as_slice());
        same!(&rt; sink.passed(), b"error Usage\n".as_slice());
    }
    Ok(())
}

#[test]
fn a_text_that_is_no_trace_is_a_syntax_error(rt: HostRuntime) -> Result<(), Fail> {
    for words in ["trace", "trace quiet"] {
        let (status, sink) = call(rt.alloc(), words, "workers 1\ninter")?;
        same!(&rt; status, 2);
        same!(&rt; sink.bytes(), b"error Syntax 2\n".as_slice());
    }
    Ok(())
}

#[test]
fn too_many_steps_are_a_length_error(rt: HostRuntime) -> Result<(), Fail> {
    let text = format!(in rt.alloc(); "{EXAMPLE}w 0 16775216\n")?;
    let (status, sink) = call(rt.alloc(), "trace", text.as_str())?;
    same!(&rt; status, 4);
    same!(&rt; sink.bytes(), b"error TooLong 16777217\n".as_slice());
    Ok(())
}

#[test]
fn a_part_out_of_range_is_a_configuration_error(rt: HostRuntime) -> Result<(), Fail> {
    let text = format!(in rt.alloc(); "{HEADER}root end\nsteps\n")?;
    for (part, bad, expected) in [
        ("workers 1", "workers 65", "error Config workers 65\n"),
        ("interval 31", "interval 0", "error Config interval 0\n"),
        ("ring 16", "ring 32769", "error Config ring 32769\n"),
        (
            "interval 31",
            "interval 4294967296",
            "error Config interval 4294967296\n",
        ),
        (
            "rw 10000000",
            "rw 946080000000000001",
            "error Config rw 946080000000000001\n",
        ),
        (
            "spin 0 0 0 0",
            "spin 0 0 0 4294967296",
            "error Config spin 0\n",
        ),
        ("files 0", "files 65", "error Config files 65\n"),
        ("sockets 0", "sockets 1025", "error Config sockets 1025\n"),
        (
            "spin 0 0 0 0",
            "spin 18446744073709551615 0 0 0",
            "error Config spin 18446744073709551615\n",
        ),
        ("tick 5000000", "tick 9", "error Config layout 9\n"),
    ] {
        let bad_text = text.as_str().replacen(rt.alloc(), part, bad, 1)?;
        let (status, sink) = call(rt.alloc(), "trace", bad_text.as_str())?;
        same!(&rt; status, 3);
        same!(&rt; sink.bytes(), expected.as_bytes());
    }
    Ok(())
}

#[test]
fn the_grammar_and_the_steps_are_tested_before_the_ranges(rt: HostRuntime) -> Result<(), Fail> {
    let header = HEADER.replacen(rt.alloc(), "workers 1", "workers 65", 1)?;
    for (body, status, expected) in [
        ("root end\nstep\n", 2, "error Syntax 11\n"),
        (
            "root end\nsteps\nw 0 16777217\n",
            4,
            "error TooLong 16777217\n",
        ),
        (
            "root end\nsteps\nw 0 16777216\n",
            3,
            "error Config workers 65\n",
        ),
    ] {
        let text = format!(in rt.alloc(); "{header}{body}")?;
        let (given, sink) = call(rt.alloc(), "trace quiet", text.as_str())?;
        same!(&rt; given, status);
        same!(&rt; sink.bytes(), expected.as_bytes());
    }
    Ok(())
}

#[test]
fn a_source_that_fails_is_a_read_error(rt: HostRuntime) -> Result<(), Fail> {
    let words = words_of(rt.alloc(), "trace")?;
    let mut source = source_of(rt.alloc(), "workers 1\ninter", [3].as_slice(), 5)?;
    let mut sink = MemOutput::new(rt.alloc(), vec![in rt.alloc()]?, 4096);
    let status = run(rt.alloc(), words.as_slice(), &mut source, &mut sink);
    same!(&rt; status, 5);
    same!(&rt; sink.bytes(), b"error ReadFault\n".as_slice());
    Ok(())
}

#[test]
fn a_sink_that_fails_keeps_the_lines_before(rt: HostRuntime) -> Result<(), Fail> {
    let mut source = source_of(rt.alloc(), EXAMPLE, [].as_slice(), 4096)?;
    let mut sink = MemOutput::new(rt.alloc(), vec![in rt.alloc(); 4]?, 4096);
    let outcome = run_trace(rt.alloc(), &mut source, &mut sink, false);
    same!(&rt; outcome, Err(TraceError::WriteFault));
    same!(&rt; sink.bytes(), b"w 0 turn\nw 0 turn\nw 0 turn\n".as_slice());
    Ok(())
}

#[test]
fn a_sink_that_fails_keeps_the_quiet_lines_before(rt: HostRuntime) -> Result<(), Fail> {
    let mut source = source_of(rt.alloc(), EXAMPLE, [].as_slice(), 4096)?;
    let mut sink = MemOutput::new(rt.alloc(), vec![in rt.alloc(); 4]?, 4096);
    let outcome = run_trace(rt.alloc(), &mut source, &mut sink, true);
    same!(&rt; outcome, Err(TraceError::WriteFault));
    same!(&rt; sink.bytes(), b"w 0 begin 0\nw 0 admit 0 send\nw 0 wait 0\n".as_slice());
    Ok(())
}

#[test]
fn a_sink_that_fails_ends_the_program(rt: HostRuntime) -> Result<(), Fail> {
    let words = Vec::new(rt.alloc());
    let mut source = source_of(rt.alloc(), EXAMPLE, [].as_slice(), 4096)?;
    let mut sink = MemOutput::new(rt.alloc(), vec![in rt.alloc(); 2]?, 7);
    let status = run(rt.alloc(), words.as_slice(), &mut source, &mut sink);
    same!(&rt; status, 6);
    same!(&rt; sink.bytes(), b"error U".as_slice());
    Ok(())
}

#[test]
fn a_log_that_is_not_passed_on_ends_the_program(rt: HostRuntime) -> Result<(), Fail> {
    let words = words_of(rt.alloc(), "trace quiet")?;
    // The 19 lines are given by a call each, and the next call is the flush.
    for (failing, expected) in [(20, 6), (21, 0)] {
        let mut source = source_of(rt.alloc(), EXAMPLE, [].as_slice(), 4096)?;
        let mut sink = MemOutput::new(rt.alloc(), vec![in rt.alloc(); failing]?, 4096);
        let status = run(rt.alloc(), words.as_slice(), &mut source, &mut sink);
        same!(&rt; status, expected);
        same!(&rt; sink.bytes(), QUIET_LOG.as_bytes());
        let passed = if expected == 0 { QUIET_LOG } else { "" };
        same!(&rt; sink.passed(), passed.as_bytes());
    }
    Ok(())
}

#[test]
fn a_complaint_is_flushed_once(rt: HostRuntime) -> Result<(), Fail> {
    let words = Vec::new(rt.alloc());
    for (failing, expected) in [(2, 6), (3, 1)] {
        let mut source = source_of(rt.alloc(), EXAMPLE, [].as_slice(), 4096)?;
        let mut sink = MemOutput::new(rt.alloc(), vec![in rt.alloc(); failing]?, 4096);
        let status = run(rt.alloc(), words.as_slice(), &mut source, &mut sink);
        same!(&rt; status, expected);
        same!(&rt; sink.bytes(), b"error Usage\n".as_slice());
    }
    Ok(())
}

#[test]
fn complaints_show_their_words(rt: HostRuntime) -> Result<(), Fail> {
    let shown = format!(in rt.alloc(); "{}", Complaint::TooLong(67_108_865))?;
    same!(&rt; shown.as_str(), "error TooLong 67108865");
    let field = Field::Layout;
    let shown = format!(in rt.alloc(); "{}", Complaint::Config(OutOfRange { field, value: 1 }))?;
    same!(&rt; shown.as_str(), "error Config layout 1");
    Ok(())
}
