//! The byte containers: what they show, the room that they keep, and lists of them.

ghost use Rattle.std.specs.Prelude.{◌≡◌, ◌≤◌, length, IfOk};

use crate::found::{holds, same};
use exec_bufs::buf::{IoBuf, IoBufMut};
use exec_bufs::bufs::IoBufs;
use exec_bufs::bufs_mut::IoBufsMut;
use std::alloc::{AllocError, Global};
use std::test::Fail;

/// The bytes of a text.
fn frozen(alloc: Global, text: &str) -> Result<IoBuf, AllocError>
    ensures { IfOk result (λ b. b ≡ text.now) }
{
    Ok(IoBuf::from(text.as_bytes().to_vec(alloc)?))
}

/// Those of a text, with so much room.
fn buffer(alloc: Global, text: &str, capacity: usize) -> Result<IoBufMut, Fail>
    requires { length text.now ≤ capacity }
    ensures { IfOk result (λ b. b ≡ record { bytes = text.now; capacity = capacity }) }
{
    let mut buffer = IoBufMut::with_capacity(alloc, capacity)?;
    buffer.set_len(text.len());
    buffer.as_mut_slice().copy_from_slice(text.as_bytes());
    Ok(buffer)
}

#[test]
fn a_buffer_shows_its_bytes(rt: HostRuntime) -> Result<(), Fail> {
    let abc = frozen(rt.alloc(), "abc")?;
    same!(&rt; abc.len(), 3);
    same!(&rt; abc.as_slice(), b"abc".as_slice());
    let none = frozen(rt.alloc(), "")?;
    same!(&rt; none.len(), 0);
    same!(&rt; none.as_slice(), b"".as_slice());
    Ok(())
}

#[test]
fn new_bytes_are_zero_after_a_cut(rt: HostRuntime) -> Result<(), Fail> {
    let mut abcd = buffer(rt.alloc(), "abcd", 6)?;
    same!(&rt; (abcd.len(), abcd.capacity()), (4, 6));
    abcd.truncate(9);
    same!(&rt; abcd.as_slice(), b"abcd".as_slice());
    abcd.truncate(1);
    same!(&rt; abcd.as_slice(), b"a".as_slice());
    abcd.set_len(3);
    same!(&rt; abcd.as_slice(), b"a\0\0".as_slice());
    abcd.set_len(2);
    abcd.set_len(6);
    same!(&rt; abcd.as_slice(), b"a\0\0\0\0\0".as_slice());
    same!(&rt; abcd.capacity(), 6);
    Ok(())
}

#[test]
fn the_room_of_dropped_bytes_is_lost(rt: HostRuntime) -> Result<(), Fail> {
    let mut abcd = buffer(rt.alloc(), "abcd", 6)?;
    abcd.advance(0);
    same!(&rt; (abcd.len(), abcd.capacity()), (4, 6));
    abcd.advance(3);
    same!(&rt; abcd.as_slice(), b"d".as_slice());
    same!(&rt; abcd.capacity(), 3);
    abcd.as_mut_slice()[0] = b'e';
    abcd.set_len(3);
    same!(&rt; abcd.as_slice(), b"e\0\0".as_slice());
    abcd.advance(3);
    same!(&rt; (abcd.len(), abcd.capacity()), (0, 0));
    abcd.set_len(0);
    same!(&rt; abcd.freeze().len(), 0);
    Ok(())
}

#[test]
fn a_cleared_buffer_keeps_its_room(rt: HostRuntime) -> Result<(), Fail> {
    let mut abcd = buffer(rt.alloc(), "abcd", 6)?;
    abcd.advance(1);
    abcd.clear();
    same!(&rt; (abcd.len(), abcd.capacity()), (0, 5));
    abcd.set_len(2);
    same!(&rt; abcd.freeze().as_slice(), b"\0\0".as_slice());
    Ok(())
}

#[test]
fn a_vector_becomes_a_buffer(rt: HostRuntime) -> Result<(), Fail> {
    let mut vector = Vec::with_capacity(rt.alloc(), 8)?;
    vector.extend_from_slice(b"abc")?;
    let mut abc = IoBufMut::from(vector);
    same!(&rt; abc.as_slice(), b"abc".as_slice());
    same!(&rt; abc.capacity(), 8);
    abc.advance(1);
    let bc = abc.freeze();
    same!(&rt; bc.as_slice(), b"bc".as_slice());
    same!(&rt; bc.len(), 2);
    Ok(())
}

/// Two bytes, none, and one more.
fn ab_and_c(alloc: Global) -> Result<IoBufs, Fail> {
    let mut chunks = IoBufs::new(alloc);
    chunks.push(alloc, frozen(alloc, "ab")?)?;
    chunks.push(alloc, frozen(alloc, "")?)?;
    chunks.push(alloc, frozen(alloc, "c")?)?;
    Ok(chunks)
}

#[test]
fn chunks_are_kept_in_order(rt: HostRuntime) -> Result<(), Fail> {
    let none = IoBufs::new(rt.alloc());
    same!(&rt; (none.chunk_count(), none.len()), (0, 0));
    let chunks = ab_and_c(rt.alloc())?;
    same!(&rt; (chunks.chunk_count(), chunks.len()), (2, 3));
    same!(&rt; chunks.chunk_at(0), Some(b"ab".as_slice()));
    same!(&rt; chunks.chunk_at(1), Some(b"c".as_slice()));
    same!(&rt; chunks.chunk_at(2), None);
    let chunks = match chunks.try_into_single() {
        Ok(_) => return Err(Fail::from(AllocError)),
        Err(chunks) => chunks,
    };
    same!(&rt; (chunks.chunk_count(), chunks.len()), (2, 3));
    let all = chunks.coalesce(rt.alloc())?;
    same!(&rt; all.as_slice(), b"abc".as_slice());
    Ok(())
}

#[test]
fn at_most_one_chunk_is_single(rt: HostRuntime) -> Result<(), Fail> {
    let none = IoBufs::new(rt.alloc());
    same!(&rt; none.coalesce(rt.alloc())?.len(), 0);
    let none = IoBufs::new(rt.alloc());
    holds!(&rt; none.try_into_single().is_ok_and(|chunk| chunk.len() == 0));
    let mut one = IoBufs::new(rt.alloc());
    one.push(rt.alloc(), frozen(rt.alloc(), "ab")?)?;
    holds!(&rt; one.try_into_single()
            .is_ok_and(|chunk| chunk.as_slice() == b"ab".as_slice()));
    let mut one = IoBufs::new(rt.alloc());
    one.push(rt.alloc(), frozen(rt.alloc(), "ab")?)?;
    same!(&rt; one.coalesce(rt.alloc())?.as_slice(), b"ab".as_slice());
    Ok(())
}

#[test]
fn lengths_fill_chunk_by_chunk(rt: HostRuntime) -> Result<(), Fail> {
    let mut chunks = IoBufsMut::new(rt.alloc());
    holds!(&rt; chunks.is_single());
    chunks.push(rt.alloc(), buffer(rt.alloc(), "a", 2)?)?;
    holds!(&rt; chunks.is_single());
    chunks.push(rt.alloc(), buffer(rt.alloc(), "", 0)?)?;
    chunks.push(rt.alloc(), buffer(rt.alloc(), "bcd", 4)?)?;
    holds!(&rt; !chunks.is_single());
    same!(&rt; (chunks.chunk_count(), chunks.len(), chunks.capacity()), (3, 4, 6));
    chunks.set_len(5);
    same!(&rt; chunks.len(), 5);
    holds!(&rt; shows(&chunks, &["a\0", "", "bcd"]));
    chunks.copy_from_slice(b"vwxyz");
    holds!(&rt; shows(&chunks, &["vw", "", "xyz"]));
    chunks.set_len(1);
    holds!(&rt; shows(&chunks, &["v", "", ""]));
    chunks.set_len(6);
    holds!(&rt; shows(&chunks, &["v\0", "", "\0\0\0\0"]));
    chunks.set_len(3);
    let all = chunks.coalesce(rt.alloc())?;
    same!(&rt; all.as_slice(), b"v\0\0".as_slice());
    same!(&rt; all.capacity(), 3);
    Ok(())
}

#[test]
fn a_lone_chunk_keeps_its_room(rt: HostRuntime) -> Result<(), Fail> {
    let mut one = IoBufsMut::new(rt.alloc());
    one.push(rt.alloc(), buffer(rt.alloc(), "ab", 4)?)?;
    let all = one.coalesce(rt.alloc())?;
    same!(&rt; all.as_slice(), b"ab".as_slice());
    same!(&rt; all.capacity(), 4);
    let none = IoBufsMut::new(rt.alloc()).coalesce(rt.alloc())?;
    same!(&rt; (none.len(), none.capacity()), (0, 0));
    Ok(())
}

/// Whether the chunks have these bytes.
fn shows(chunks: &IoBufsMut, texts: &[&str]) -> bool {
    let same = |(at, text): (usize, &&str)| {
        chunks
            .chunk_at(at)
            .is_some_and(|chunk| chunk.as_slice() == text.as_bytes())
    };
    chunks.chunk_count() == texts.len() && texts.iter().enumerate().all(same)
}
