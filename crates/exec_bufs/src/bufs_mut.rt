//! A list of chunks with room for more bytes.

ghost use Rattle.std.specs.{Prelude.{◌≡◌, ◌+◌, ◌^◌, ◌-◌, ◌≤◌, ◌↔◌, [], ◌∷◌, ◌++◌, min, length, IsTrue, IfOk, IfErr, IsOk, OnOk, OnErr, slice_get}, Option.option_copied};
ghost use Rattle.exec_bufs.specs.Buffers.{bytes_of, filled, room, cuts, spread, joined, most};

use crate::buf::IoBufMut;
use std::alloc::{AllocError, AllocFailed, Global};
use std::marker::Model;

/// Chunks with room for more bytes, one after another. A clause sees them as a list of buffers. Ports
/// `IoBufsMut`.
#[derive(Debug, Drop)]
pub struct IoBufsMut {
    chunks: Vec<IoBufMut>,
    /// How many bytes they have.
    len: usize,
}

impl Model for IoBufsMut {
    ghost use Rattle.std.specs.Prelude.{◌≡◌, List};
    ghost use Rattle.exec_bufs.specs.Buffers.{Buffer, filled};

    ghost Value = { List Buffer };

    ghost view = { λ b. b.chunks.items };

    ghost invariant = { λ b. b.len ≡ filled b.chunks.items };
}

impl IoBufsMut {
    /// No chunk.
    pub fn new(alloc: Global) -> IoBufsMut
        ensures { result ≡ [] }
    {
        IoBufsMut {
            chunks: Vec::new(alloc),
            len: 0,
        }
    }

    /// Adds a chunk at the end, also an empty one. An `Err` comes only for want of memory, and hands the chunk
    /// back. The caller must have at most 2^63 - 1 bytes with those of the chunk.
    pub fn push(&mut self, _alloc: Global, chunk: IoBufMut) -> Result<(), AllocFailed<IoBufMut>>
        requires { filled self.old + length chunk.bytes ≤ most }
        ensures ok { OnOk result (self.new ≡ self.old ++ chunk ∷ []) }
        ensures bytes { OnOk result (bytes_of self.new ≡ bytes_of self.old ++ chunk.bytes) }
        ensures sum { OnOk result (filled self.new ≡ filled self.old + length chunk.bytes) }
        ensures room { OnOk result (room self.new ≡ room self.old + chunk.capacity) }
        ensures err { OnErr result (self.new ≡ self.old) }
        ensures handed_back { IfErr result (λ e. e.value ≡ chunk) }
    {
        let more = chunk.len();
        self.chunks.push(chunk)?;
        self.len += more;
        Ok(())
    }

    /// How many bytes there are.
    pub fn len(&self) -> usize
        ensures sum { result ≡ filled self.now }
        ensures bytes { result ≡ length (bytes_of self.now) }
    {
        self.len
    }

    /// How many bytes there is room for, with those that are there; the largest number where it is more.
    pub fn capacity(&self) -> usize
        ensures { result ≡ min (room self.now) (2 ^ 64 - 1) }
    {
        let mut capacity = 0usize;
        for chunk in &self.chunks {
            capacity = capacity.saturating_add(chunk.capacity());
        }
        capacity
    }

    /// How many chunks there are.
    pub fn chunk_count(&self) -> usize
        ensures { result ≡ length self.now }
    {
        self.chunks.len()
    }

    /// Whether there is at most one chunk.
    pub fn is_single(&self) -> bool
        ensures { IsTrue result ↔ (length self.now ≤ 1) }
    {
        self.chunks.len() <= 1
    }

    /// The chunk of this number, from 0 on, or None past the last.
    pub fn chunk_at(&self, index: usize) -> Option<&IoBufMut>
        ensures { option_copied result ≡ slice_get self.now index }
    {
        self.chunks.get(index)
    }

    /// Makes the length `count`, which the capacities together must allow: the first chunks are filled up to
    /// their capacities, the next one has the rest, and those after it have none. A byte stays where its chunk
    /// is still so long, and new bytes are 0.
    pub fn set_len(&mut self, count: usize)
        requires { count ≤ room self.old }
        ensures chunks { self.new ≡ spread count self.old }
        ensures sum { filled self.new ≡ count }
        ensures room { room self.new ≡ room self.old }
    {
        set_lens(&mut self.chunks, count);
        self.len = count;
    }

    /// Writes these bytes over all bytes, of which there must be as many. The chunks stay as long as they are.
    pub fn copy_from_slice(&mut self, bytes: &[u8])
        requires { length bytes.now ≡ filled self.old }
        ensures bytes { bytes_of self.new ≡ bytes.now }
        ensures cuts { cuts self.new ≡ cuts self.old }
        ensures sum { filled self.new ≡ filled self.old }
        ensures room { room self.new ≡ room self.old }
    {
        pour(&mut self.chunks, bytes);
    }

    /// All bytes in one buffer. One chunk is handed over as it is, with its room; more are copied, with no
    /// room for more bytes. An `Err` comes only for want of memory, where there is more than one chunk, and
    /// hands the value back.
    pub fn coalesce(mut self, alloc: Global) -> Result<IoBufMut, AllocFailed<IoBufsMut>>
        ensures ok { IfOk result (λ buffer. buffer ≡ joined self) }
        ensures bytes { IfOk result (λ buffer. buffer.bytes ≡ bytes_of self) }
        ensures handed_back { IfErr result (λ e. e.value ≡ self) }
        ensures only_where_it_copies { length self ≤ 1 → IsOk result }
    {
        if self.chunks.len() > 1 {
            return match all_bytes(alloc, &self.chunks, self.len) {
                Ok(buffer) => Ok(buffer),
                Err(_) => Err(AllocFailed { value: self }),
            };
        }
        match self.chunks.pop() {
            Some(chunk) => Ok(chunk),
            None => Ok(IoBufMut::from(Vec::new(*self.chunks.allocator()))),
        }
    }
}

/// The bytes of these chunks, one after another, which are so many.
fn all_bytes(alloc: Global, chunks: &[IoBufMut], len: usize) -> Result<IoBufMut, AllocError>
    ensures { IfOk result (λ buffer. buffer ≡ record { bytes = bytes_of chunks.now; capacity = filled chunks.now }) }
{
    let mut bytes = Vec::with_capacity(alloc, len)?;
    for chunk in chunks {
        bytes.extend_from_slice(chunk.as_slice())?;
    }
    Ok(IoBufMut::full(bytes))
}

/// Gives the chunks their lengths where all have `count` bytes together.
fn set_lens(chunks: &mut [IoBufMut], count: usize)
    ensures { chunks.new ≡ spread count chunks.old }
{
    let mut left = count;
    for chunk in chunks {
        let here = left.min(chunk.capacity());
        chunk.set_len(here);
        left -= here;
    }
}

/// Writes the bytes over those of the chunks, which are as many.
fn pour(chunks: &mut [IoBufMut], bytes: &[u8])
    requires { length bytes.now ≡ filled chunks.old }
    ensures bytes { bytes_of chunks.new ≡ bytes.now }
    ensures cuts { cuts chunks.new ≡ cuts chunks.old }
{
    let mut rest = bytes;
    for chunk in chunks {
        let (here, later) = rest.split_at(chunk.len());
        chunk.as_mut_slice().copy_from_slice(here);
        rest = later;
    }
}
