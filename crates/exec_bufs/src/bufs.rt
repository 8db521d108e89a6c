//! A list of chunks of bytes.

ghost use Rattle.std.specs.{Prelude.{◌≡◌, ℕ, ◌+◌, ◌<◌, ◌≤◌, List, [], ◌++◌, length, IfOk, IfErr, OnOk, OnErr, IsOk, IsErr, IfSome, slice_get, ◌↔◌}, List.concat, Option.option_copied};
ghost use Rattle.exec_bufs.specs.Buffers.{total, with_chunk, most};

use crate::buf::IoBuf;
use std::alloc::{AllocError, AllocFailed, Global};
use std::marker::Model;

/// Chunks of bytes, one after another, of which none is empty. A clause sees them as a list of lists; how
/// many bytes they have is at most 2^63 - 1. Ports `IoBufs`.
#[derive(Debug, Drop)]
pub struct IoBufs {
    chunks: Vec<IoBuf>,
    /// How many bytes they have.
    len: usize,
}

impl Model for IoBufs {
    ghost use Rattle.std.specs.Prelude.{◌≡◌, ◌≤◌, ℕ, List};
    ghost use Rattle.exec_bufs.specs.Buffers.{AreChunks};

    ghost Value = { List (List ℕ) };

    ghost view = { λ b. b.chunks.items };

    ghost invariant = { λ b. AreChunks b.chunks.items b.len };
}

impl IoBufs {
    /// No chunk.
    pub fn new(alloc: Global) -> IoBufs
        ensures { result ≡ [] }
    {
        IoBufs {
            chunks: Vec::new(alloc),
            len: 0,
        }
    }

    /// Adds a chunk at the end; an empty one is dropped. An `Err` comes only for want of memory, and hands
    /// the chunk back. The caller must have at most 2^63 - 1 bytes with those of the chunk.
    pub fn push(&mut self, _alloc: Global, chunk: IoBuf) -> Result<(), AllocFailed<IoBuf>>
        requires { total self.old + length chunk ≤ most }
        ensures ok { OnOk result (self.new ≡ with_chunk self.old chunk) }
        ensures bytes { OnOk result (concat self.new ≡ concat self.old ++ chunk) }
        ensures sum { OnOk result (total self.new ≡ total self.old + length chunk) }
        ensures err { OnErr result (self.new ≡ self.old) }
        ensures handed_back { IfErr result (λ e. e.value ≡ chunk) }
        ensures only_where_it_grows { chunk ≡ [] → IsOk result }
    {
        let more = chunk.len();
        if more == 0 {
            return Ok(());
        }
        self.chunks.push(chunk)?;
        self.len += more;
        Ok(())
    }

    /// How many bytes there are.
    pub fn len(&self) -> usize
        ensures sum { result ≡ total self.now }
        ensures bytes { result ≡ length (concat self.now) }
        ensures at_most { result ≤ most }
    {
        self.len
    }

    /// How many chunks there are.
    pub fn chunk_count(&self) -> usize
        ensures { result ≡ length self.now }
    {
        self.chunks.len()
    }

    /// The bytes of the chunk of this number, from 0 on, or None past the last. There is at least one.
    pub fn chunk_at(&self, index: usize) -> Option<&[u8]>
        ensures chunk { option_copied result ≡ slice_get self.now index }
        ensures not_empty { IfSome result (λ chunk. 0 < length chunk.now) }
    {
        self.chunks.get(index).map(|chunk| chunk.as_slice())
    }

    /// The one chunk, or an empty buffer where there is none. Gives the value back where it has more than one.
    pub fn try_into_single(mut self) -> Result<IoBuf, IoBufs>
        ensures single { IfOk result (λ chunk. chunk ≡ concat self) }
        ensures several { IfErr result (λ chunks. chunks ≡ self) }
        ensures which { IsErr result ↔ (1 < length self) }
    {
        if self.chunks.len() > 1 {
            return Err(self);
        }
        match self.chunks.pop() {
            Some(chunk) => Ok(chunk),
            None => Ok(IoBuf::from(Vec::new(*self.chunks.allocator()))),
        }
    }

    /// All bytes in one buffer. One chunk is handed over as it is; more are copied. An `Err` comes only for
    /// want of memory, where there is more than one chunk, and hands the value back.
    pub fn coalesce(self, alloc: Global) -> Result<IoBuf, AllocFailed<IoBufs>>
        ensures ok { IfOk result (λ bytes. bytes ≡ concat self) }
        ensures handed_back { IfErr result (λ e. e.value ≡ self) }
        ensures only_where_it_copies { length self ≤ 1 → IsOk result }
    {
        match self.try_into_single() {
            Ok(chunk) => Ok(chunk),
            Err(several) => match joined(alloc, &several.chunks, several.len) {
                Ok(bytes) => Ok(IoBuf::from(bytes)),
                Err(_) => Err(AllocFailed { value: several }),
            },
        }
    }
}

/// The bytes of these chunks, one after another, which are so many.
fn joined(alloc: Global, chunks: &[IoBuf], len: usize) -> Result<Vec<u8>, AllocError>
    ensures { IfOk result (λ bytes. bytes.items ≡ concat chunks.now) }
{
    let mut bytes = Vec::with_capacity(alloc, len)?;
    for chunk in chunks {
        bytes.extend_from_slice(chunk.as_slice())?;
    }
    Ok(bytes)
}
