//! Small calls once each, with ample memory. What has to come of them is what their names and signatures mean.

use crate::make::chunks;
use exec_base::error::Error;
use exec_outcomes::outcome::Outcome;
use exec_request::buffers::WriteBuffers;
use exec_request::output::to_outcome;
use std::alloc::Global;
use std::test::Fail;

/// How many bytes there are in so many chunks, and how many are left, where so many have gone.
fn lengths(
    alloc: Global,
    count: usize,
    length: usize,
    gone: usize,
) -> Result<(usize, usize), Fail> {
    let mut write = WriteBuffers::from(chunks(alloc, count, length)?);
    if write.remaining_len() < gone {
        return Err(Fail::from(Error::Full));
    }
    write.advance(gone);
    Ok((write.total_len(), write.remaining_len()))
}

#[test]
fn bytes_that_have_gone_are_counted(rt: HostRuntime) -> Result<(), Fail> {
    assert_eq!(rt; lengths(rt.alloc(), 1, 10, 4)?, (10, 6));
    assert_eq!(rt; lengths(rt.alloc(), 2, 5, 7)?, (10, 3));
    Ok(())
}

#[test]
fn an_end_is_an_outcome(rt: HostRuntime) {
    assert!(rt; to_outcome(Ok(())) == Outcome::Success);
    assert!(rt; to_outcome(Err(Error::Timeout)) == Outcome::Failure(Error::Timeout));
}
