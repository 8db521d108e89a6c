//! The words of errors, and the ends in memory, sure ones and those over readers and writers.

use crate::found::{holds, same};
use exec_base::error::{Cause, Error, Word};
use exec_base::io::{
    Failed, Input, MemInput, MemOutput, Output, StdInput, StdOutput, SureInput, SureOutput,
};
use std::alloc::Global;
use std::io::{self, ErrorKind, Read, Write};
use std::test::Fail;

type Outcomes = Vec<Result<usize, Failed>>;

/// A reader that fails, and a writer that takes no byte and cannot flush.
#[derive(Drop)]
struct Broken;

impl Read for Broken {
    fn read(&mut self, _buf: &mut [u8]) -> io::Result<usize> {
        Err(io::Error::from(ErrorKind::Interrupted))
    }
}

impl Write for Broken {
    fn write(&mut self, _buf: &[u8]) -> io::Result<usize> {
        Ok(0)
    }

    fn flush(&mut self) -> io::Result<()> {
        Err(io::Error::from(ErrorKind::Other))
    }
}

/// A writer that counts its flushes, and fails from the second on.
#[derive(Drop)]
struct Counted {
    flushes: u32,
}

impl Write for Counted {
    fn write(&mut self, buf: &[u8]) -> io::Result<usize> {
        Ok(buf.len())
    }

    fn flush(&mut self) -> io::Result<()> {
        self.flushes = self.flushes.saturating_add(1);
        if self.flushes > 1 {
            return Err(io::Error::from(ErrorKind::Other));
        }
        Ok(())
    }
}

/// Takes pieces up to the end, past every failure, and adds them to `bytes`.
fn take_all<I: Input>(alloc: Global, input: &mut I, bytes: &mut Vec<u8>) -> Result<Outcomes, Fail> {
    let mut outcomes = Vec::new(alloc);
    let mut piece = [0; 8];
    for _ in 0..20 {
        let outcome = input.take(&mut piece);
        if let Ok(count) = outcome {
            bytes.extend_from_slice(&piece[..count])?;
        }
        outcomes.push(outcome)?;
        if outcome == Ok(0) {
            break;
        }
    }
    Ok(outcomes)
}

/// Gives four pieces and flushes; the flush counts as 0 bytes.
fn give_four<O: Output>(alloc: Global, output: &mut O) -> Result<Outcomes, Fail> {
    let mut outcomes = Vec::new(alloc);
    for piece in [b"one ", b"two ", b"six ", b"ten "] {
        outcomes.push(output.give(piece))?;
    }
    outcomes.push(output.flush().map(|()| 0))?;
    Ok(outcomes)
}

#[test]
fn errors_show_their_words(rt: HostRuntime) -> Result<(), Fail> {
    for (error, word) in [
        (Error::Timeout, "Timeout"),
        (Error::Closed, "Closed"),
        (Error::SendFailed, "SendFailed"),
        (Error::RecvFailed, "RecvFailed"),
        (Error::ReadFailed, "ReadFailed"),
        (Error::WriteFailed, "WriteFailed"),
        (Error::ConnectionFailed, "ConnectionFailed"),
        (Error::BindFailed, "BindFailed"),
        (Error::Io(Cause::Code(5)), "Io 5"),
        (Error::Io(Cause::InvalidInput), "Io InvalidInput"),
        (Error::Io(Cause::Closed), "Io Closed"),
        (Error::BlobInsufficientLength, "BlobInsufficientLength"),
        (Error::OffsetOverflow, "OffsetOverflow"),
        (Error::BlobSyncFailed(3, Cause::Code(5)), "BlobSyncFailed 5"),
        (
            Error::BlobResizeFailed(4, Cause::InvalidInput),
            "BlobResizeFailed InvalidInput",
        ),
        (Error::NoMemory, "NoMemory"),
        (Error::Full, "Full"),
    ] {
        let shown = format!(in rt.alloc(); "{error}")?;
        same!(&rt; shown.as_str(), word);
        let shown = format!(in rt.alloc(); "{}", Word(error))?;
        same!(&rt; shown.as_str(), word);
    }
    Ok(())
}

#[test]
fn memory_input_gives_all_past_a_failure(rt: HostRuntime) -> Result<(), Fail> {
    let text = b"twelve bytes".to_vec(rt.alloc())?;
    let mut input = MemInput::new(text, vec![in rt.alloc(); 3]?, 5);
    let mut bytes = Vec::new(rt.alloc());
    let outcomes = take_all(rt.alloc(), &mut input, &mut bytes)?;
    same!(&rt; outcomes.as_slice(), [Ok(5), Ok(5), Err(Failed), Ok(2), Ok(0)].as_slice());
    same!(&rt; bytes.as_slice(), b"twelve bytes".as_slice());
    Ok(())
}

#[test]
fn memory_output_keeps_what_it_took_before_a_failure(rt: HostRuntime) -> Result<(), Fail> {
    let mut output = MemOutput::new(rt.alloc(), vec![in rt.alloc(); 4]?, 3);
    let outcomes = give_four(rt.alloc(), &mut output)?;
    same!(&rt; outcomes.as_slice(), [Ok(3), Ok(3), Ok(3), Err(Failed), Ok(0)].as_slice());
    same!(&rt; output.bytes(), b"onetwosix".as_slice());
    same!(&rt; output.passed(), b"onetwosix".as_slice());
    Ok(())
}

#[test]
fn memory_output_passes_on_by_a_flush_alone(rt: HostRuntime) -> Result<(), Fail> {
    let mut output = MemOutput::new(rt.alloc(), vec![in rt.alloc(); 3]?, 8);
    same!(&rt; output.give(b"one "), Ok(4));
    same!(&rt; output.passed(), b"".as_slice());
    same!(&rt; output.flush(), Ok(()));
    same!(&rt; output.passed(), b"one ".as_slice());
    same!(&rt; output.flush(), Err(Failed));
    same!(&rt; output.passed(), b"one ".as_slice());
    Ok(())
}

#[test]
fn a_standard_output_hands_each_flush_on(rt: HostRuntime) {
    let mut output = StdOutput::new(Counted { flushes: 0 });
    same!(&rt; output.flush(), Ok(()));
    same!(&rt; output.flush(), Err(Failed));
    same!(&rt; output.into_writer().flushes, 2);
}

#[test]
fn sure_ends_never_fail(rt: HostRuntime) -> Result<(), Fail> {
    let mut input = SureInput::new(b"twelve bytes".to_vec(rt.alloc())?);
    let mut bytes = Vec::new(rt.alloc());
    let outcomes = take_all(rt.alloc(), &mut input, &mut bytes)?;
    same!(&rt; outcomes.as_slice(), [Ok(8), Ok(4), Ok(0)].as_slice());
    same!(&rt; bytes.as_slice(), b"twelve bytes".as_slice());
    let mut output = SureOutput::new();
    let outcomes = give_four(rt.alloc(), &mut output)?;
    same!(&rt; outcomes.as_slice(), [Ok(4), Ok(4), Ok(4), Ok(4), Ok(0)].as_slice());
    same!(&rt; output.taken(), 16);
    Ok(())
}

#[test]
fn standard_ends_pass_bytes_on(rt: HostRuntime) -> Result<(), Fail> {
    let mut input = StdInput::new(b"twelve bytes".as_slice());
    let mut bytes = Vec::new(rt.alloc());
    let outcomes = take_all(rt.alloc(), &mut input, &mut bytes)?;
    same!(&rt; outcomes.as_slice(), [Ok(8), Ok(4), Ok(0)].as_slice());
    same!(&rt; bytes.as_slice(), b"twelve bytes".as_slice());
    let mut output = StdOutput::new(Vec::new(rt.alloc()));
    let outcomes = give_four(rt.alloc(), &mut output)?;
    same!(&rt; outcomes.as_slice(), [Ok(4), Ok(4), Ok(4), Ok(4), Ok(0)].as_slice());
    same!(&rt; output.into_writer().as_slice(), b"one two six ten ".as_slice());
    Ok(())
}

#[test]
fn standard_ends_fail_with_what_is_below(rt: HostRuntime) -> Result<(), Fail> {
    let mut piece = [0; 8];
    same!(&rt; StdInput::new(Broken).take(&mut piece), Err(Failed));
    let outcomes = give_four(rt.alloc(), &mut StdOutput::new(Broken))?;
    holds!(&rt; outcomes.iter().all(|outcome| *outcome == Err(Failed)));
    Ok(())
}
