//! Requests from their making to their end, with the windows and answers that the original gave.

use crate::make::Ask;
use crate::trial::{Answer, Kept, Step, Told, Wanted, play};
use exec_base::error::{Cause, Error};
use exec_outcomes::outcome::OpResult::{Count, Errno};
use exec_request::write_at::WriteAtState;
use std::test::Fail;

const MORE: Answer = None;

const OK: Answer = Some(Ok(()));

const IO: Result<(), Error> = Err(Error::Io(Cause::Code(5)));

const KEPT: Error = Error::BlobSyncFailed(2, Cause::Code(5));

const SENDS: &[Step] = &[
    Step::Make(Ask::Send(1, 10, Some(1_000))),
    Step::Turn(Wanted::Sends(10), Errno(11), MORE),
    Step::Turn(Wanted::Sends(10), Count(4), MORE),
    Step::Turn(Wanted::Sends(6), Errno(4), MORE),
    Step::Turn(Wanted::Sends(6), Count(6), OK),
    Step::Asks(Some(1_000), false, None),
    Step::End(Ok(()), Told::Sent, Kept::Sender(3, 10)),
    Step::Make(Ask::Send(1, 10, Some(1_000))),
    Step::Turn(Wanted::Sends(10), Count(4), MORE),
    Step::Turn(Wanted::Sends(6), Count(0), Some(Err(Error::SendFailed))),
];

#[test]
fn sends_of_ten_bytes(rt: HostRuntime) -> Result<(), Fail> {
    play(&rt, rt.alloc(), SENDS)
}

const RECEIVES: &[Step] = &[
    Step::Make(Ask::Receive),
    Step::Turn(Wanted::Receives(8), Count(3), MORE),
    Step::Cancelled(Wanted::Receives(5), Count(2), Some(Err(Error::Timeout))),
    Step::End(
        Err(Error::Timeout),
        Told::NotReceived(Error::Timeout),
        Kept::Socket(4),
    ),
    Step::Make(Ask::Receive),
    Step::Turn(Wanted::Receives(8), Count(3), MORE),
    Step::Cancelled(Wanted::Receives(5), Count(5), OK),
    Step::End(Ok(()), Told::Received(8), Kept::Any),
];

#[test]
fn exact_receives_whose_deadline_passes(rt: HostRuntime) -> Result<(), Fail> {
    play(&rt, rt.alloc(), RECEIVES)
}

const TIMEOUT: Result<(), Error> = Err(Error::Timeout);

const FAILED: Result<(), Error> = Err(Error::ConnectionFailed);

const REFUSED: Result<(), Error> = Err(Error::Io(Cause::Code(111)));

const CONNECTS: &[Step] = &[
    Step::Make(Ask::Connect),
    Step::Cancelled(Wanted::Connects, Count(0), OK),
    Step::End(Ok(()), Told::Any, Kept::Connect(5)),
    Step::Make(Ask::Connect),
    Step::Cancelled(Wanted::Connects, Errno(106), OK),
    Step::End(Ok(()), Told::Any, Kept::Connect(5)),
    Step::Make(Ask::Connect),
    Step::Cancelled(Wanted::Connects, Count(1), Some(FAILED)),
    Step::End(FAILED, Told::Any, Kept::Connect(5)),
    Step::Make(Ask::Connect),
    Step::Cancelled(Wanted::Connects, Errno(114), Some(TIMEOUT)),
    Step::End(TIMEOUT, Told::Any, Kept::Connect(5)),
    Step::Make(Ask::Connect),
    Step::Cancelled(Wanted::Connects, Errno(125), Some(TIMEOUT)),
    Step::End(TIMEOUT, Told::Any, Kept::Connect(5)),
    Step::Make(Ask::Connect),
    Step::Cancelled(Wanted::Connects, Errno(111), Some(REFUSED)),
    Step::End(REFUSED, Told::Any, Kept::Connect(5)),
];

const POLLS: &[Step] = &[
    Step::Make(Ask::Poll),
    Step::Turn(Wanted::Polls, Errno(11), MORE),
    Step::Cancelled(Wanted::Polls, Count(1), OK),
    Step::End(Ok(()), Told::Polled, Kept::Listener(6)),
];

#[test]
fn cancelled_connects_and_polls(rt: HostRuntime) -> Result<(), Fail> {
    play(&rt, rt.alloc(), CONNECTS)?;
    play(&rt, rt.alloc(), POLLS)
}

const DIRECT_READS: &[Step] = &[
    Step::Open,
    Step::Make(Ask::Direct),
    Step::Turn(Wanted::ReadsDirectly(4096, 4096), Count(3904), OK),
    Step::End(Ok(()), Told::Read(3_000), Kept::File(1, false)),
    Step::Make(Ask::Direct),
    Step::Turn(Wanted::ReadsDirectly(4096, 4096), Count(2000), MORE),
    Step::Turn(Wanted::Reads(5000, 3000, true), Count(3000), OK),
    Step::Make(Ask::Direct),
    Step::Turn(Wanted::ReadsDirectly(4096, 4096), Count(0), MORE),
    Step::Turn(
        Wanted::Reads(5000, 3000, true),
        Count(0),
        Some(Err(Error::BlobInsufficientLength)),
    ),
    Step::Shows(0, false, true, None),
    Step::Direct(0, 0, false),
    Step::Direct(9_223_372_036_854_771_712, 4_095, false),
    Step::Direct(9_223_372_036_854_767_617, 4_096, false),
    Step::Direct(18_446_744_073_709_551_615, 1, false),
    Step::Direct(9_223_372_036_854_767_616, 4_095, true),
];

#[test]
fn direct_reads(rt: HostRuntime) -> Result<(), Fail> {
    play(&rt, rt.alloc(), DIRECT_READS)
}

const HINTED_READS: &[Step] = &[
    Step::Open,
    Step::Make(Ask::Read),
    Step::Turn(Wanted::Reads(0, 100, true), Errno(95), MORE),
    Step::Turn(Wanted::Reads(0, 100, false), Count(100), OK),
    Step::Shows(0, false, false, None),
    Step::Make(Ask::Read),
    Step::Turn(Wanted::Reads(0, 100, false), Count(100), OK),
    Step::Open,
    Step::Make(Ask::Read),
    Step::Turn(Wanted::Reads(0, 100, true), Errno(95), MORE),
    Step::Turn(
        Wanted::Reads(0, 100, false),
        Errno(95),
        Some(Err(Error::ReadFailed)),
    ),
    Step::End(
        Err(Error::ReadFailed),
        Told::NotRead(Error::ReadFailed),
        Kept::Any,
    ),
];

#[test]
fn reads_with_the_hint(rt: HostRuntime) -> Result<(), Fail> {
    play(&rt, rt.alloc(), HINTED_READS)
}

const SYNCED_WRITES: &[Step] = &[
    Step::Open,
    Step::Make(Ask::Write(10, WriteAtState::WritingBeforeSync)),
    Step::Asks(None, true, Some(2)),
    Step::Turn(Wanted::Writes(10, false), Count(10), MORE),
    Step::Turn(Wanted::Syncs, Errno(11), MORE),
    Step::Turn(Wanted::Syncs, Count(0), OK),
    Step::End(Ok(()), Told::Written(Ok(())), Kept::Any),
    Step::Shows(0, false, true, None),
    Step::Open,
    Step::Make(Ask::Write(10, WriteAtState::WritingBeforeSync)),
    Step::Asks(None, true, Some(2)),
    Step::Turn(Wanted::Writes(10, false), Count(10), MORE),
    Step::Turn(Wanted::Syncs, Errno(11), MORE),
    Step::Turn(Wanted::Syncs, Errno(5), Some(IO)),
    Step::End(IO, Told::Written(IO), Kept::Any),
    Step::Shows(1, true, true, Some(KEPT)),
];

#[test]
fn writes_with_a_trailing_sync(rt: HostRuntime) -> Result<(), Fail> {
    play(&rt, rt.alloc(), SYNCED_WRITES)
}

const FAILED_WRITES: &[Step] = &[
    Step::Open,
    Step::Make(Ask::Write(8, WriteAtState::WritingSync)),
    Step::Swap,
    Step::Make(Ask::Write(8, WriteAtState::WritingSync)),
    Step::Swap,
    Step::Turn(Wanted::Writes(8, true), Errno(5), Some(IO)),
    Step::End(IO, Told::Written(IO), Kept::File(2, true)),
    Step::Shows(1, true, true, Some(KEPT)),
    Step::Swap,
    Step::Writes(WriteAtState::WritingSync),
    Step::End(Err(KEPT), Told::Written(Err(KEPT)), Kept::Any),
    Step::Shows(2, true, true, Some(KEPT)),
    Step::Grant(2, Some(Err(KEPT))),
    Step::Make(Ask::Sync(1)),
    Step::End(Ok(()), Told::Synced(Err(KEPT)), Kept::Any),
    Step::Open,
    Step::Grant(2, OK),
];

#[test]
fn durable_requests_after_a_failure(rt: HostRuntime) -> Result<(), Fail> {
    play(&rt, rt.alloc(), FAILED_WRITES)
}

const CHUNKS: &[Step] = &[
    Step::Make(Ask::Send(1_025, 5, None)),
    Step::Turn(Wanted::Sends(5120), Count(3), MORE),
    Step::Turn(Wanted::Sends(5117), Count(5_117), MORE),
    Step::Turn(Wanted::Sends(5), Count(5), OK),
];

#[test]
fn many_chunks(rt: HostRuntime) -> Result<(), Fail> {
    play(&rt, rt.alloc(), CHUNKS)
}
