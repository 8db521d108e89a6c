//! A buffer of bytes, and one with room for more.

ghost use Rattle.std.specs.{Prelude.{◌≡◌, ℕ, ◌-◌, ◌≤◌, List, [], length, take, drop, vec_len, vec_capacity, IfOk}, Borrow.sem};
ghost use Rattle.exec_bufs.specs.{Buffers.resized, Lending.LendsBytes};

use std::alloc::{AllocError, Global};
use std::marker::Model;

/// Bytes that no one changes any more. A clause sees them as a list. Ports `IoBuf`.
#[derive(Debug, Drop)]
pub struct IoBuf {
    /// The bytes, after others that were dropped.
    bytes: Vec<u8>,
    /// How many were dropped.
    start: usize,
}

impl Model for IoBuf {
    ghost use Rattle.std.specs.Prelude.{ℕ, ◌≤◌, List, drop, vec_len};

    ghost Value = { List ℕ };

    ghost view = { λ b. drop b.start b.bytes.items };

    ghost invariant = { λ b. b.start ≤ vec_len b.bytes };
}

impl From<Vec<u8>> for IoBuf {
    ghost from_gives = { λ bytes b. b ≡ bytes.items };

    /// These bytes.
    fn from(bytes: Vec<u8>) -> IoBuf {
        IoBuf { bytes, start: 0 }
    }
}

impl IoBuf {
    /// How many bytes there are.
    pub fn len(&self) -> usize
        ensures { result ≡ length self.now }
    {
        self.bytes.len() - self.start
    }

    /// The bytes.
    pub fn as_slice(&self) -> &[u8]
        ensures { result.now ≡ self.now }
    {
        &self.bytes.as_slice()[self.start..]
    }
}

/// Bytes with room for more: a list of bytes with a capacity, which counts the bytes too. Ports `IoBufMut`.
#[derive(Debug, Drop)]
pub struct IoBufMut {
    /// The bytes, after others that were dropped.
    bytes: Vec<u8>,
    /// How many were dropped.
    start: usize,
    /// Where the room ends.
    end: usize,
}

impl Model for IoBufMut {
    ghost use Rattle.std.specs.Prelude.{◌-◌, ◌≤◌, drop, vec_len, vec_capacity};
    ghost use Rattle.exec_bufs.specs.Buffers.{Buffer, LiesWithin};

    ghost Value = { Buffer };

    ghost view = { λ b. record { bytes = drop b.start b.bytes.items; capacity = b.end - b.start } };

    ghost invariant = { λ b. LiesWithin b.start b.end (vec_len b.bytes) (vec_capacity b.bytes) };
}

impl From<Vec<u8>> for IoBufMut {
    ghost from_gives = { λ bytes b. b ≡ record { bytes = bytes.items; capacity = vec_capacity bytes } };

    /// These bytes, with the room of their `Vec`.
    fn from(bytes: Vec<u8>) -> IoBufMut {
        let end = bytes.capacity();
        IoBufMut {
            bytes,
            start: 0,
            end,
        }
    }
}

impl IoBufMut {
    /// No byte, and room for so many. An `Err` comes only for want of memory.
    pub fn with_capacity(alloc: Global, capacity: usize) -> Result<IoBufMut, AllocError>
        ensures { IfOk result (λ b. b ≡ record { bytes = []; capacity = capacity }) }
    {
        let bytes = Vec::with_capacity(alloc, capacity)?;
        Ok(IoBufMut {
            bytes,
            start: 0,
            end: capacity,
        })
    }

    /// These bytes, with no room for more.
    pub(crate) fn full(bytes: Vec<u8>) -> IoBufMut
        ensures { result ≡ record { bytes = bytes.items; capacity = vec_len bytes } }
    {
        let end = bytes.len();
        IoBufMut {
            bytes,
            start: 0,
            end,
        }
    }

    /// How many bytes there are. That is at most the capacity.
    pub fn len(&self) -> usize
        ensures len { result ≡ length self.now.bytes }
        ensures within { result ≤ self.now.capacity }
    {
        self.bytes.len() - self.start
    }

    /// How many bytes there is room for, with those that are there.
    pub fn capacity(&self) -> usize
        ensures capacity { result ≡ self.now.capacity }
        ensures holds { length self.now.bytes ≤ result }
    {
        self.end - self.start
    }

    /// The bytes.
    pub fn as_slice(&self) -> &[u8]
        ensures { result.now ≡ self.now.bytes }
    {
        &self.bytes.as_slice()[self.start..]
    }

    /// The bytes, for writing.
    pub fn as_mut_slice(&mut self) -> &mut [u8]
        ensures* writes_back { sem 𝓛 (LendsBytes self.entry result) }
        ensures value { result.now ≡ self.old.bytes }
    {
        let start = self.start;
        self.bytes.slice_mut(start..)
    }

    /// Makes the length `count`, which the capacity must allow: bytes past that end go, and new bytes are 0.
    pub fn set_len(&mut self, count: usize)
        requires { count ≤ self.old.capacity }
        ensures { self.new ≡ record self.old { bytes = resized count self.old.bytes } }
    {
        let _ = self.bytes.resize(self.start + count, 0);
    }

    /// Keeps the first `count` bytes, or all where there are no more.
    pub fn truncate(&mut self, count: usize)
        ensures { self.new ≡ record self.old { bytes = take count self.old.bytes } }
    {
        if count < self.len() {
            self.bytes.truncate(self.start + count);
        }
    }

    /// Drops the first `count` bytes, of which there must be as many. Their room is lost too.
    pub fn advance(&mut self, count: usize)
        requires { count ≤ length self.old.bytes }
        ensures { self.new ≡ record { bytes = drop count self.old.bytes; capacity = self.old.capacity - count } }
    {
        self.start += count;
    }

    /// Drops all bytes, and keeps the room.
    pub fn clear(&mut self)
        ensures { self.new ≡ record self.old { bytes = [] } }
    {
        self.bytes.truncate(self.start);
    }

    /// These bytes, to be changed no more.
    pub fn freeze(self) -> IoBuf
        ensures { result ≡ self.bytes }
    {
        IoBuf {
            bytes: self.bytes,
            start: self.start,
        }
    }
}
