//! Requests of each kind through a driver: what is told of them, the bytes that move, and what comes back. What has to
//! come of each step is what the rules of requests, of opens and of the ring say.

use crate::asks::{Ask, Seen};
use crate::steps::{Lent, Look, Step, Turn, Wait};
use crate::trial::play;
use crate::worker::{FIRST, NEXT, SECOND};
use exec_base::error::{Cause, Error};
use exec_driver::driver::{Granted, Reaped};
use exec_outcomes::outcome::OpResult;
use exec_outcomes::outcome::OpResult::{Count, Errno};
use exec_request::cache::Cache;
use exec_request::connect::SockAddr;
use std::process::Abort;

/// What a receive of up to eight bytes has from five.
const RECEIVE: &[Step] = &[
    Step::Lent(Lent::Feed(3, b"abcde")),
    Step::Wait(Wait::Admit(Ask::Receive, FIRST)),
    Step::Turn(Turn::Stage(Some(FIRST))),
    Step::Turn(Turn::Land(FIRST, Count(3), Ok(()))),
    Step::Turn(Turn::Over(FIRST, Count(3), Ok(()))),
    Step::Lent(Lent::Received(3, b"abc")),
    Step::Wait(Wait::Observe(FIRST, 1, Seen::Received(b"abc"))),
];

#[test]
fn a_receive_ends_with_any_byte(rt: HostRuntime) {
    play(&rt, rt.alloc(), 4, RECEIVE);
}

/// The answer to a hint that is refused.
const UNSUPPORTED: OpResult = Errno(95);

/// The first request needs another operation after that answer.
const GOES_ON: Reaped = Reaped {
    id: FIRST,
    given: UNSUPPORTED,
    ended: None,
    permit: None,
};

/// A write whose hint is refused.
const HINTED_WRITE: &[Step] = &[
    Step::Wait(Wait::Admit(Ask::Write(4, b"0123456789", Cache::Disabled), FIRST)),
    Step::Turn(Turn::Stage(Some(FIRST))),
    Step::Turn(Turn::Land(FIRST, UNSUPPORTED, Ok(()))),
    Step::Turn(Turn::Reap(Some(GOES_ON))),
    Step::Lent(Lent::Hinted(0, false)),
    Step::Turn(Turn::Stage(Some(FIRST))),
    Step::Turn(Turn::Land(FIRST, Count(10), Ok(()))),
    Step::Turn(Turn::Over(FIRST, Count(10), Ok(()))),
    Step::Lent(Lent::Byte(0, 3, 0)),
    Step::Lent(Lent::Byte(0, 4, b'0')),
    Step::Lent(Lent::Byte(0, 13, b'9')),
    Step::Lent(Lent::Byte(0, 14, 0)),
];

#[test]
fn a_refused_hint_is_the_last(rt: HostRuntime) {
    play(&rt, rt.alloc(), 4, HINTED_WRITE);
}

/// A write, and a read of what it wrote.
const READ_BACK: &[Step] = &[
    Step::Wait(Wait::Admit(Ask::Write(1, b"abc", Cache::Enabled), FIRST)),
    Step::Turn(Turn::Stage(Some(FIRST))),
    Step::Turn(Turn::Land(FIRST, Count(3), Ok(()))),
    Step::Turn(Turn::Over(FIRST, Count(3), Ok(()))),
    Step::Wait(Wait::Orphan(FIRST)),
    Step::Wait(Wait::Admit(Ask::Read, NEXT)),
    Step::Turn(Turn::Stage(Some(NEXT))),
    Step::Turn(Turn::Land(NEXT, Count(4), Ok(()))),
    Step::Turn(Turn::Over(NEXT, Count(4), Ok(()))),
    Step::Wait(Wait::Observe(NEXT, 1, Seen::Read(b"\0abc"))),
];

#[test]
fn a_read_sees_what_was_written(rt: HostRuntime) {
    play(&rt, rt.alloc(), 4, READ_BACK);
}

/// The first request has the permit of its open.
const GRANTED: Granted = Granted {
    id: FIRST,
    ended: None,
};

/// The answer to a sync that fails.
const NO_SYNC: OpResult = Errno(5);

/// The first request ends with that answer, and gives up the permit.
const FAILED: Reaped = Reaped {
    id: FIRST,
    given: NO_SYNC,
    ended: Some(Err(Error::Io(Cause::Code(5)))),
    permit: Some(0),
};

/// What its open keeps.
const KEPT: Error = Error::BlobSyncFailed(0, Cause::Code(5));

/// A sync that fails.
const FAILED_SYNC: &[Step] = &[
    Step::Lent(Lent::BeginWrite(0)),
    Step::Wait(Wait::Admit(Ask::Sync(1), FIRST)),
    Step::Wait(Wait::Join(0, FIRST)),
    Step::Turn(Turn::Grant(0, Some(GRANTED))),
    Step::Turn(Turn::Stage(Some(FIRST))),
    Step::Turn(Turn::Land(FIRST, NO_SYNC, Ok(()))),
    Step::Turn(Turn::Reap(Some(FAILED))),
    Step::Lent(Lent::Leave(0, None)),
    Step::Lent(Lent::Holder(0, None)),
    Step::Lent(Lent::Failure(0, Some(KEPT))),
];

#[test]
fn a_failed_sync_is_kept(rt: HostRuntime) {
    play(&rt, rt.alloc(), 4, FAILED_SYNC);
}

/// How the sync ends beside a write that fails.
const WRITE_FAILED: Result<(), Error> = Err(Error::WriteFailed);

/// The first request ends so, and gives up the permit.
const TOLD: Reaped = Reaped {
    id: FIRST,
    given: Count(0),
    ended: Some(WRITE_FAILED),
    permit: Some(0),
};

/// A sync that succeeds after its open has kept a failure.
const POISONED_SYNC: &[Step] = &[
    Step::Lent(Lent::BeginWrite(0)),
    Step::Wait(Wait::Admit(Ask::Sync(1), FIRST)),
    Step::Wait(Wait::Join(0, FIRST)),
    Step::Turn(Turn::Grant(0, Some(GRANTED))),
    Step::Turn(Turn::Stage(Some(FIRST))),
    Step::Lent(Lent::Poison(0, Error::WriteFailed)),
    Step::Turn(Turn::Land(FIRST, Count(0), Ok(()))),
    Step::Turn(Turn::Reap(Some(TOLD))),
    Step::Wait(Wait::Observe(FIRST, 1, Seen::Sync(WRITE_FAILED))),
];

#[test]
fn a_kept_failure_is_told_for_a_success(rt: HostRuntime) {
    play(&rt, rt.alloc(), 4, POISONED_SYNC);
}

/// An address of the fourth version.
const NEAR: SockAddr = SockAddr::V4([127, 0, 0, 1], 8080);

/// An address of the sixth version.
const FAR: SockAddr = SockAddr::V6([7; 16], 443, 1, 2);

/// The answer to a connect that is refused.
const NO_CONNECT: OpResult = Errno(111);

/// How it ends.
const REFUSED: Result<(), Error> = Err(Error::Io(Cause::Code(111)));

/// A connect that succeeds, and one that is refused.
const CONNECTS: &[Step] = &[
    Step::Wait(Wait::Admit(Ask::Connect(5, NEAR), FIRST)),
    Step::Turn(Turn::Stage(Some(FIRST))),
    Step::Turn(Turn::Land(FIRST, Count(0), Ok(()))),
    Step::Turn(Turn::Over(FIRST, Count(0), Ok(()))),
    Step::Wait(Wait::LetGo(5, NEAR)),
    Step::Wait(Wait::Admit(Ask::Connect(6, FAR), SECOND)),
    Step::Turn(Turn::Stage(Some(SECOND))),
    Step::Turn(Turn::Land(SECOND, NO_CONNECT, Ok(()))),
    Step::Turn(Turn::Over(SECOND, NO_CONNECT, REFUSED)),
    Step::Wait(Wait::LetGo(6, FAR)),
    Step::Look(Look::Len(0)),
];

#[test]
fn a_connect_gives_its_address_back(rt: HostRuntime) {
    play(&rt, rt.alloc(), 4, CONNECTS);
}
