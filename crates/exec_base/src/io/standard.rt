ghost use Rattle.std.specs.{Prelude.{◌≡◌, ◌+◌, ◌<◌, ◌≤◌, None, length, take, IfOk}, Io.KnownBytes.{Keeps, ReadConsumes, WriteAppends}};
ghost use Rattle.exec_base.specs.Io.{CountsFault};

use super::{Failed, Input, Output, raised};
use std::io::{Read, Write};

/// A source over std's reader, whose bytes a generic caller does not know. An error of the reader, of any
/// kind, is a fault, and its answer 0 is the end.
#[derive(Drop)]
pub struct StdInput<R: Read + Drop> {
    reader: R,
    faults: u64,
}

impl<R: Read + Drop> StdInput<R> {
    /// A source that reads from `reader`.
    pub fn new(reader: R) -> Self
        ensures reads { result.reader ≡ reader }
        ensures no_faults { result.faults ≡ 0 }
    {
        StdInput { reader, faults: 0 }
    }
}

impl<R: Read + Drop> Input for StdInput<R> {
    ghost faults = { λ s. s.faults };

    ghost left = { λ _. None };

    fn take(&mut self, buf: &mut [u8]) -> Result<usize, Failed>
        requires { 0 < length buf.old }
        ensures within { IfOk result (λ n. n ≤ length buf.new) }
        ensures count { self.old.faults ≤ self.new.faults }
        ensures fault { CountsFault self.old.faults self.new.faults result }
        ensures read { ReadConsumes (R.remaining self.old.reader) (R.remaining self.new.reader)
            result buf.new }
    {
        match self.reader.read(buf) {
            Ok(count) => Ok(count),
            Err(_) => {
                self.faults = raised(self.faults);
                Err(Failed)
            }
        }
    }
}

/// A sink over std's writer, whose bytes a generic caller does not know. An error of the writer, of any
/// kind, is a fault, and so is a write that takes no byte. A flush is handed on to the writer; that it is can be
/// said by no clause, and a test shows it.
#[derive(Drop)]
pub struct StdOutput<W: Write + Drop> {
    writer: W,
    faults: u64,
}

impl<W: Write + Drop> StdOutput<W> {
    /// A sink that writes to `writer`.
    pub fn new(writer: W) -> Self
        ensures writes { result.writer ≡ writer }
        ensures no_faults { result.faults ≡ 0 }
    {
        StdOutput { writer, faults: 0 }
    }

    /// The writer, with what it was given.
    pub fn into_writer(self) -> W
        ensures { result ≡ self.writer }
    {
        self.writer
    }
}

impl<W: Write + Drop> Output for StdOutput<W> {
    ghost faults = { λ s. s.faults };

    ghost given = { λ _. None };

    ghost passed = { λ _. None };

    fn give(&mut self, piece: &[u8]) -> Result<usize, Failed>
        requires { 0 < length piece.now }
        ensures within { IfOk result (λ n. (0 < n) × (n ≤ length piece.now)) }
        ensures count { self.old.faults ≤ self.new.faults }
        ensures fault { CountsFault self.old.faults self.new.faults result }
        ensures written { WriteAppends (W.contents self.old.writer) (W.contents self.new.writer)
            result piece.now }
    {
        match self.writer.write(piece) {
            Ok(count) if count > 0 => Ok(count),
            _ => {
                self.faults = raised(self.faults);
                Err(Failed)
            }
        }
    }

    fn flush(&mut self) -> Result<(), Failed>
        ensures count { self.old.faults ≤ self.new.faults }
        ensures fault { CountsFault self.old.faults self.new.faults result }
        ensures same_bytes { Keeps (W.contents self.old.writer) (W.contents self.new.writer) }
    {
        match self.writer.flush() {
            Ok(()) => Ok(()),
            Err(_) => {
                self.faults = raised(self.faults);
                Err(Failed)
            }
        }
    }
}
