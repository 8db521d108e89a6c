//! The bytes of a send or a write.
//!
//! One buffer is kept as it is, and several as a list of chunks with a place in it: the next chunk, and how many of
//! its bytes have gone. A chunk that has gone stays owned until the request is completed, since what it is made of
//! may belong to a caller. No operation takes more than 1,024 chunks, nor more bytes than its length can say.

ghost use Rattle.std.specs.Prelude.{◌≡◌, true, IsTrue, ◌+◌, ◌-◌, ◌<◌, ◌≤◌, ◌↔◌, [], length, take, drop, min, slice_index_or};
ghost use Rattle.exec_bufs.specs.Buffers.{total};
ghost use Rattle.exec_request.specs.{Buffers.{length_of, moved_of, owners_of, is_sound, is_within, batch_of, chunks_of}, Bytes.batch_bytes, Kept.rewound};

use crate::bytes::{chunk_len, copy_chunks};
use crate::results::LARGEST_WINDOW;
use exec_bufs::buf::IoBuf;
use exec_bufs::bufs::IoBufs;

/// The most chunks that one operation takes. Ports `IOVEC_BATCH_SIZE`.
pub const IOVEC_BATCH_SIZE: usize = 1024;

/// Bytes to send or to write, and how many of them have gone. Their place is sound where it agrees with how many are
/// left, and where of several chunks the next one isn't used up. Ports `WriteBuffers`.
#[derive(Debug, Drop)]
pub enum WriteBuffers {
    /// Bytes in one buffer.
    Single {
        /// The buffer.
        buf: IoBuf,
        /// How many of its bytes have gone.
        offset: usize,
    },
    /// Bytes in several chunks.
    Vectored {
        /// The chunks, those that have gone too.
        bufs: IoBufs,
        /// The number of the next chunk.
        chunk: usize,
        /// How many of its bytes have gone.
        offset: usize,
        /// How many bytes are left in all.
        remaining: usize,
    },
}

impl From<IoBufs> for WriteBuffers {
    ghost use Rattle.std.specs.Prelude.{◌≡◌, true, length, nat_le, if◌then◌else◌};
    ghost use Rattle.exec_bufs.specs.Buffers.{total};
    ghost use Rattle.std.specs.List.{concat};
    ghost use Rattle.exec_request.specs.Buffers.{length_of, moved_of, owners_of, is_sound};
    ghost use Rattle.exec_request.specs.declared.buffers.WriteBuffers.TheVariants.{Single, Vectored};

    ghost from_gives = { λ bufs w. (length_of w ≡ total bufs) × (moved_of w ≡ 0) × (is_sound w ≡ true) × (concat (owners_of w) ≡ concat bufs)
        × (w ≡ (if nat_le (length bufs) 1 then Single (concat bufs) 0 else Vectored bufs 0 0 (total bufs))) };

    /// All of these bytes, of which none has gone. One chunk is kept as it is, and several in their cuts.
    fn from(bufs: IoBufs) -> WriteBuffers {
        let remaining = bufs.len();
        match bufs.try_into_single() {
            Ok(buf) => WriteBuffers::Single { buf, offset: 0 },
            Err(bufs) => WriteBuffers::Vectored {
                remaining,
                bufs,
                chunk: 0,
                offset: 0,
            },
        }
    }
}

impl WriteBuffers {
    /// How many bytes there are, those that have gone too.
    pub fn total_len(&self) -> usize
        ensures { result ≡ length_of self.now }
    {
        match self {
            WriteBuffers::Single { buf, .. } => buf.len(),
            WriteBuffers::Vectored { bufs, .. } => bufs.len(),
        }
    }

    /// How many bytes are left. The caller must have a sound place, as `from` makes it and `advance` keeps it.
    pub fn remaining_len(&self) -> usize
        requires { is_sound self.now ≡ true }
        ensures { result + moved_of self.now ≡ length_of self.now }
    {
        match self {
            WriteBuffers::Single { buf, offset } => buf.len() - *offset,
            WriteBuffers::Vectored { remaining, .. } => *remaining,
        }
    }

    /// Whether no byte is left. The caller must have a sound place, as `from` makes it and `advance` keeps it.
    pub fn is_complete(&self) -> bool
        requires { is_sound self.now ≡ true }
        ensures { IsTrue result ↔ (moved_of self.now ≡ length_of self.now) }
    {
        self.remaining_len() == 0
    }

    /// So many bytes have gone. Every buffer is kept, and the next operation begins past the chunks that are used up.
    /// The caller must have a sound place, as `from` makes it and this call keeps it, with as many bytes left.
    pub fn advance(&mut self, count: usize)
        requires sound { is_sound self.old ≡ true }
        requires left { moved_of self.old + count ≤ length_of self.old }
        ensures sound { is_sound self.new ≡ true }
        ensures moved { moved_of self.new ≡ moved_of self.old + count }
        ensures same { length_of self.new ≡ length_of self.old }
        ensures kept { rewound self.new ≡ rewound self.old }
    {
        match self {
            WriteBuffers::Single { buf, offset } => {
                let left = buf.len() - *offset - count;
                *offset = buf.len() - left;
            }
            WriteBuffers::Vectored {
                bufs,
                chunk,
                offset,
                remaining,
            } => {
                let (next, gone) = place_after(bufs, *chunk, *offset, count);
                *chunk = next;
                *offset = gone;
                *remaining -= count;
            }
        }
    }

    /// How many bytes the next operation takes.
    pub(crate) fn batch_len(&self) -> u64
        requires { is_sound self.now ≡ true }
        ensures batch { result ≡ batch_of self.now }
        ensures left { result + moved_of self.now ≤ length_of self.now }
    {
        let left = match self {
            WriteBuffers::Single { buf, offset } => buf.len() - *offset,
            WriteBuffers::Vectored {
                bufs,
                chunk,
                offset,
                ..
            } => next_chunks_len(bufs, *chunk) - *offset,
        };
        (left as u64).min(LARGEST_WINDOW)
    }

    /// Copies bytes of the next operation, from its byte `at` on, as many as `into` has.
    pub(crate) fn copy_batch(&self, at: usize, into: &mut [u8])
        requires sound { is_sound self.now ≡ true }
        requires within { at + length into.old ≤ batch_of self.now }
        ensures { into.new ≡ take (length into.old) (drop at (batch_bytes self.now)) }
    {
        match self {
            WriteBuffers::Single { buf, offset } => {
                let rest = &buf.as_slice()[*offset..];
                into.copy_from_slice(&rest[at..at + into.len()]);
            }
            WriteBuffers::Vectored {
                bufs,
                chunk,
                offset,
                ..
            } => {
                let _all = bufs.len();
                copy_chunks(bufs, *chunk, *offset + at, into);
            }
        }
    }

    /// In how many chunks the bytes of the next operation lie.
    pub(crate) fn batch_chunks(&self) -> u32
        ensures { result ≡ chunks_of self.now }
    {
        match self {
            WriteBuffers::Single { .. } => 1,
            WriteBuffers::Vectored { bufs, chunk, .. } => {
                bufs.chunk_count()
                    .saturating_sub(*chunk)
                    .min(IOVEC_BATCH_SIZE) as u32
            }
        }
    }
}

/// The place in these chunks after `count` more bytes: the number of a chunk, and how many of its bytes lie before. A
/// chunk that is used up is passed.
fn place_after(bufs: &IoBufs, chunk: usize, offset: usize, count: usize) -> (usize, usize)
    requires within { total (take chunk bufs.now) + offset + count ≤ total bufs.now }
    requires begun { offset ≤ length (slice_index_or bufs.now chunk []) }
    ensures place { total (take result.0 bufs.now) + result.1 ≡ total (take chunk bufs.now) + offset + count }
    ensures begun { is_within result.1 (slice_index_or bufs.now result.0 []) ≡ true }
{
    let mut gone = offset;
    let mut left = count;
    let end = bufs.chunk_count();
    for at in chunk..end {
        let here = chunk_len(bufs, at) - gone;
        if left < here {
            return (at, gone + left);
        }
        left -= here;
        gone = 0;
    }
    (end.max(chunk), 0)
}

/// How many bytes the next chunks have that one operation takes.
fn next_chunks_len(bufs: &IoBufs, chunk: usize) -> usize
    ensures { result ≡ total (take 1024 (drop chunk bufs.now)) }
{
    let _all = bufs.len();
    let mut sum = 0usize;
    let end = bufs
        .chunk_count()
        .min(chunk.saturating_add(IOVEC_BATCH_SIZE));
    for index in chunk..end {
        sum += chunk_len(bufs, index);
    }
    sum
}
