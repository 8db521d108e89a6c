ghost use Rattle.std.specs.Prelude.{◌≡◌, ◌+◌, ◌-◌, ◌<◌, ◌≤◌, min, Some, None, Ok, length, take, drop, vec_len, IsOk, IfOk};
ghost use Rattle.exec_base.specs.Io.{Takes};

use super::{Failed, Input, Output, copy_front};

/// A source over bytes in memory that never fails.
#[derive(Drop)]
pub struct SureInput {
    bytes: Vec<u8>,
    at: usize,
    ghost in_bytes: { at ≤ vec_len bytes },
}

impl SureInput {
    /// A source that holds `bytes`.
    pub fn new(bytes: Vec<u8>) -> Self
        ensures { ⟦<SureInput as Input>⟧.left result ≡ Some bytes.items }
    {
        SureInput { bytes, at: 0 }
    }
}

impl Input for SureInput {
    ghost faults = { λ _. 0 };

    ghost left = { λ s. Some (drop s.at s.bytes.items) };

    fn take(&mut self, buf: &mut [u8]) -> Result<usize, Failed>
        requires { 0 < length buf.old }
        ensures told { IfOk result (λ n. Takes (drop self.old.at self.old.bytes.items) n buf.new
            (Some (drop self.new.at self.new.bytes.items))) }
        ensures as_many { result ≡ Ok (min (vec_len self.old.bytes - self.old.at) (length buf.new)) }
    {
        let room = buf.len();
        let count = copy_front(&self.bytes[self.at..], buf, room);
        self.at += count;
        Ok(count)
    }
}

/// A sink that never fails, takes every byte, and keeps only how many it took.
#[derive(Drop)]
pub struct SureOutput {
    taken: u64,
}

impl SureOutput {
    /// A sink that has taken no byte.
    pub fn new() -> Self
        ensures { result.taken ≡ 0 }
    {
        SureOutput { taken: 0 }
    }

    /// How many bytes it took so far, which stands still at the end of `u64`.
    pub fn taken(&self) -> u64
        ensures { result ≡ self.now.taken }
    {
        self.taken
    }
}

impl Output for SureOutput {
    ghost faults = { λ _. 0 };

    ghost given = { λ _. None };

    ghost passed = { λ _. None };

    fn give(&mut self, piece: &[u8]) -> Result<usize, Failed>
        requires { 0 < length piece.now }
        ensures every_byte { result ≡ Ok (length piece.now) }
        ensures counted { self.new.taken ≡ min (self.old.taken + length piece.now) u64.MAX }
    {
        self.taken = self.taken.saturating_add(piece.len() as u64);
        Ok(piece.len())
    }

    fn flush(&mut self) -> Result<(), Failed>
        ensures sure { IsOk result }
        ensures same { self.new.taken ≡ self.old.taken }
    {
        Ok(())
    }
}
