//! How the bytes of a window move: out of the chunks of a send or a write, and into the buffer of a receive or a read.
//!
//! Whoever stands for the kernel calls these as an operation lands, and never has the memory itself.

ghost use Rattle.std.specs.{Prelude.{◌≡◌, ◌+◌, ◌-◌, ◌≤◌, [], ◌++◌, length, take, drop, min, replicate, slice_index_or}, List.concat};
ghost use Rattle.exec_bufs.specs.Buffers.{resized, total};
ghost use Rattle.exec_request.specs.Bytes.{filled_at};

use exec_bufs::buf::IoBufMut;
use exec_bufs::bufs::IoBufs;

/// Writes these bytes into a buffer from its byte `at` on, and zeros after them where there are fewer than `count`. The
/// buffer grows to hold them.
pub(crate) fn fill(buf: &mut IoBufMut, at: usize, count: usize, bytes: &[u8])
    requires room { at + count ≤ buf.old.capacity }
    requires whole { length bytes.now ≤ count }
    ensures { buf.new ≡ filled_at at (resized count bytes.now) buf.old }
{
    let _room = buf.capacity();
    grow(buf, at + count);
    overwrite(buf.as_mut_slice(), at, count, bytes);
}

/// Makes a buffer as long as `end` where it is shorter; new bytes are 0.
fn grow(buf: &mut IoBufMut, end: usize)
    requires { end ≤ buf.old.capacity }
    ensures { buf.new ≡ record buf.old { bytes = buf.old.bytes ++ replicate (end - length buf.old.bytes) 0 } }
{
    if buf.len() < end {
        buf.set_len(end);
    }
}

/// Writes these bytes over others from the byte `at` on, and zeros after them where there are fewer than `count`.
fn overwrite(bytes: &mut [u8], at: usize, count: usize, with: &[u8])
    requires fits { at + count ≤ length bytes.old }
    requires whole { length with.now ≤ count }
    ensures { bytes.new ≡ take at bytes.old ++ (resized count with.now ++ drop (at + count) bytes.old) }
{
    let edge = at + with.len();
    let end = at + count;
    bytes[at..edge].copy_from_slice(with);
    bytes[edge..end].fill(0);
}

/// Copies bytes of these chunks, from the byte `skip` of the chunk `chunk` on, as many as `into` has.
pub(crate) fn copy_chunks(bufs: &IoBufs, chunk: usize, skip: usize, into: &mut [u8])
    requires { skip + length into.old ≤ total (drop chunk bufs.now) }
    ensures { into.new ≡ take (length into.old) (drop skip (concat (drop chunk bufs.now))) }
{
    let mut ahead = skip;
    let mut done = 0usize;
    let end = bufs.chunk_count();
    for at in chunk..end {
        done += copy_chunk(bufs, at, ahead, into, done);
        ahead = ahead.saturating_sub(chunk_len(bufs, at));
    }
}

/// Copies bytes of one chunk, from its byte `skip` on, to `into` from `done` on, as many as there are and fit. Answers
/// how many.
fn copy_chunk(bufs: &IoBufs, at: usize, skip: usize, into: &mut [u8], done: usize) -> usize
    requires { done ≤ length into.old }
    ensures count { result ≡ min (length (slice_index_or bufs.now at []) - skip) (length into.old - done) }
    ensures into { into.new ≡ take done into.old ++ (take result (drop skip (slice_index_or bufs.now at [])) ++ drop (done + result) into.old) }
{
    let Some(bytes) = bufs.chunk_at(at) else {
        return 0;
    };
    let from = skip.min(bytes.len());
    let count = (bytes.len() - from).min(into.len() - done);
    into[done..done + count].copy_from_slice(&bytes[from..from + count]);
    count
}

/// How many bytes this chunk has: none past the last.
pub(crate) fn chunk_len(bufs: &IoBufs, at: usize) -> usize
    ensures { result ≡ length (slice_index_or bufs.now at []) }
{
    match bufs.chunk_at(at) {
        Some(bytes) => bytes.len(),
        None => 0,
    }
}
