//! Requests through a driver: services, deadlines, gates. What has to come of each step is what the rules of requests
//! and of the ring say, but for two tables that say so.

use crate::asks::{Ask, Seen};
use crate::steps::{Lent, Look, Sign, Step, Turn, Wait};
use crate::trial::play;
use crate::worker::{FIRST, MILLI, SECOND, THIRD};
use exec_base::error::{Cause, Error};
use exec_driver::driver::{Enrolled, Granted};
use exec_opens::opens::WaiterKey;
use exec_outcomes::outcome::OpResult;
use exec_outcomes::outcome::OpResult::{Count, Errno};
use exec_ring::landing::Unlawful;
use exec_ring::ring::Entered;
use std::process::Abort;

/// What comes of a result that comes twice.
const TWICE: Result<(), Unlawful> = Err(Unlawful(0, Count(10)));

/// The worked example that was asked for, and looks between its calls by the rules.
const SEND: &[Step] = &[
    Step::Wait(Wait::Admit(Ask::Send, FIRST)),
    Step::Look(Look::Is(Sign::Pending, true)),
    Step::Turn(Turn::Serve((0, 0, false), false)),
    Step::Look(Look::Is(Sign::Pending, false)),
    Step::Look(Look::NextDeadline(Some(10 * MILLI))),
    Step::Turn(Turn::Land(FIRST, Count(11), Err(Unlawful(0, Count(11))))),
    Step::Turn(Turn::Land(FIRST, Count(10), Ok(()))),
    Step::Lent(Lent::Sent(0, b"0123456789")),
    Step::Turn(Turn::Land(FIRST, Count(10), TWICE)),
    Step::Turn(Turn::Serve((0, 1, false), false)),
    Step::Look(Look::Len(0)),
    Step::Look(Look::Is(Sign::Empty, true)),
    Step::Look(Look::NextDeadline(None)),
    Step::Look(Look::Counts((0, 0, 1, 0, 0))),
    Step::Wait(Wait::Observe(FIRST, 3, Seen::Send(Ok(())))),
    Step::Turn(Turn::Land(FIRST, Count(10), TWICE)),
    Step::Wait(Wait::Forward(FIRST, 9)),
    Step::Look(Look::Refused(1)),
    Step::Wait(Wait::Orphan(FIRST)),
    Step::Look(Look::Counts((0, 0, 1, 0, 1))),
];

#[test]
fn a_send_lands_once(rt: HostRuntime) {
    play(&rt, rt.alloc(), 4, SEND);
}

/// How the write ends that fails.
const FAILED: Result<(), Error> = Err(Error::Io(Cause::Code(5)));

/// How the next one ends.
const KEPT: Result<(), Error> = Err(Error::BlobSyncFailed(0, Cause::Code(5)));

/// The first request of worker 0 has the permit.
const HOLDER: WaiterKey = WaiterKey {
    worker: 0,
    id: FIRST,
};

/// The worked example that was asked for, and looks between its calls by the rules.
const FAILED_WRITE: &[Step] = &[
    Step::Wait(Wait::Admit(Ask::DurableWrite, FIRST)),
    Step::Wait(Wait::Join(0, FIRST)),
    Step::Swap,
    Step::Wait(Wait::Admit(Ask::DurableWrite, FIRST)),
    Step::Wait(Wait::Join(1, FIRST)),
    Step::Swap,
    Step::Turn(Turn::Serve((0, 0, false), false)),
    Step::Swap,
    Step::Turn(Turn::Serve((1, 0, false), false)),
    Step::Lent(Lent::Holder(0, Some(HOLDER))),
    Step::Turn(Turn::Land(FIRST, Count(10), Err(Unlawful(0, Count(10))))),
    Step::Swap,
    Step::Turn(Turn::Land(FIRST, Errno(5), Ok(()))),
    Step::Turn(Turn::Serve((0, 1, false), false)),
    Step::Look(Look::Last(Some(1))),
    Step::Wait(Wait::Observe(FIRST, 1, Seen::Write(FAILED))),
    Step::Swap,
    Step::Turn(Turn::Serve((1, 1, false), false)),
    Step::Wait(Wait::Observe(FIRST, 2, Seen::Write(KEPT))),
    Step::Lent(Lent::Holder(0, None)),
    Step::Look(Look::Counts((0, 0, 1, 0, 0))),
    Step::Swap,
    Step::Look(Look::Counts((0, 0, 1, 0, 0))),
];

#[test]
fn a_failed_write_fails_the_next(rt: HostRuntime) {
    play(&rt, rt.alloc(), 4, FAILED_WRITE);
}

/// The answer to an operation that is cancelled.
const GONE: OpResult = Errno(125);

/// Two sends whose deadlines come.
const DUE: &[Step] = &[
    Step::Wait(Wait::Admit(Ask::Send, FIRST)),
    Step::Wait(Wait::Admit(Ask::Send, SECOND)),
    Step::Turn(Turn::Serve((0, 0, false), false)),
    Step::Look(Look::Is(Sign::MayStage, false)),
    Step::Turn(Turn::Advance(9 * MILLI)),
    Step::Look(Look::Is(Sign::Due, false)),
    Step::Turn(Turn::Advance(10 * MILLI)),
    Step::Turn(Turn::Expire(Some(FIRST))),
    Step::Turn(Turn::Expire(Some(SECOND))),
    Step::Turn(Turn::Expire(None)),
    Step::Look(Look::Counts((0, 0, 1, 0, 0))),
    Step::Look(Look::Len(1)),
    Step::Look(Look::Is(Sign::Cancels, true)),
    Step::Wait(Wait::Orphan(FIRST)),
    Step::Turn(Turn::StageCancel(Some(FIRST))),
    Step::Look(Look::Is(Sign::Full, true)),
    Step::Turn(Turn::Enter(Entered::Taken(1))),
    Step::Turn(Turn::Reap(None)),
    Step::Look(Look::Len(1)),
    Step::Look(Look::Counts((0, 0, 1, 0, 0))),
    Step::Turn(Turn::Land(FIRST, GONE, Ok(()))),
    Step::Turn(Turn::Over(FIRST, GONE, Err(Error::Timeout))),
    Step::Look(Look::Is(Sign::Empty, true)),
    Step::Look(Look::Counts((0, 1, 2, 0, 0))),
];

#[test]
fn what_is_due_is_cancelled_once(rt: HostRuntime) {
    play(&rt, rt.alloc(), 1, DUE);
}

/// A worker that waits on its ring, and is woken.
const WAITING: &[Step] = &[
    Step::Wait(Wait::Admit(Ask::Poll(None), FIRST)),
    Step::Turn(Turn::Park(true, false)),
    Step::Turn(Turn::Serve((0, 0, true), true)),
    Step::Turn(Turn::Park(false, false)),
    Step::Turn(Turn::Park(true, true)),
    Step::Look(Look::MaySleep(3, Some(4), true)),
    Step::Look(Look::MaySleep(4, Some(4), false)),
    Step::Turn(Turn::WakeLast),
    Step::Look(Look::MaySleep(3, None, false)),
    Step::Turn(Turn::Reap(None)),
    Step::Look(Look::Is(Sign::NeedsWakePoll, true)),
    Step::Turn(Turn::Busy),
    Step::Turn(Turn::Enter(Entered::Busy)),
];

#[test]
fn a_worker_waits_on_its_ring(rt: HostRuntime) {
    play(&rt, rt.alloc(), 4, WAITING);
}

/// A worker whose kernel is busy before it took in what was staged, and then once more.
const BUSY: &[Step] = &[
    Step::Wait(Wait::Admit(Ask::Poll(None), FIRST)),
    Step::Turn(Turn::Serve((0, 0, true), true)),
    Step::Turn(Turn::Busy),
    Step::Turn(Turn::Park(true, false)),
    Step::Look(Look::MaySleep(3, None, false)),
    Step::Turn(Turn::Park(true, true)),
    Step::Look(Look::MaySleep(3, None, true)),
    Step::Turn(Turn::Busy),
    Step::Turn(Turn::Park(true, false)),
    Step::Turn(Turn::Park(true, true)),
];

#[test]
fn nobody_waits_where_the_kernel_was_busy(rt: HostRuntime) {
    play(&rt, rt.alloc(), 4, BUSY);
}

/// A worker whose ring has no room for the wake poll at first.
const NO_ROOM: &[Step] = &[
    Step::Wait(Wait::Admit(Ask::Poll(None), FIRST)),
    Step::Turn(Turn::Busy),
    Step::Turn(Turn::Stage(Some(FIRST))),
    Step::Look(Look::Is(Sign::Pending, false)),
    Step::Look(Look::Is(Sign::Full, true)),
    Step::Turn(Turn::Busy),
    Step::Turn(Turn::Park(true, false)),
    Step::Look(Look::Is(Sign::NeedsWakePoll, true)),
    Step::Turn(Turn::Park(true, true)),
    Step::Look(Look::Is(Sign::NeedsWakePoll, false)),
    Step::Look(Look::MaySleep(3, None, true)),
];

#[test]
fn nobody_waits_where_the_wake_poll_has_no_room(rt: HostRuntime) {
    play(&rt, rt.alloc(), 1, NO_ROOM);
}

/// The first request ends, since its deadline has passed.
const LATE: Enrolled = Enrolled {
    id: FIRST,
    ended: Some(Error::Timeout),
};

/// The second is on the wheel.
const ENROLLED: Enrolled = Enrolled {
    id: SECOND,
    ended: None,
};

/// The third ends, since its deadline is too far off.
const TOO_FAR: Enrolled = Enrolled {
    id: THIRD,
    ended: Some(Error::Io(Cause::InvalidInput)),
};

/// When they are enrolled, in nanoseconds.
const NOW: u64 = 6 * MILLI;

/// Three polls with deadlines.
const DEADLINES: &[Step] = &[
    Step::Wait(Wait::Admit(Ask::Poll(Some(5 * MILLI)), FIRST)),
    Step::Wait(Wait::Admit(Ask::Poll(Some(7 * MILLI)), SECOND)),
    Step::Wait(Wait::Admit(Ask::Poll(Some(21 * MILLI)), THIRD)),
    Step::Turn(Turn::Advance(NOW)),
    Step::Turn(Turn::Enrol(NOW, Some(LATE))),
    Step::Turn(Turn::Enrol(NOW, Some(ENROLLED))),
    Step::Turn(Turn::Enrol(NOW, Some(TOO_FAR))),
    Step::Turn(Turn::Enrol(NOW, None)),
    Step::Look(Look::NextDeadline(Some(10 * MILLI))),
    Step::Look(Look::Len(1)),
    Step::Look(Look::Counts((0, 0, 2, 0, 0))),
    Step::Look(Look::FirstObserved(Some(FIRST))),
    Step::Wait(Wait::Close(Some(FIRST))),
    Step::Look(Look::FirstObserved(Some(SECOND))),
    Step::Wait(Wait::Close(Some(SECOND))),
    Step::Look(Look::Len(0)),
    Step::Look(Look::Counts((0, 2, 3, 0, 0))),
];

#[test]
fn deadlines_are_enrolled_in_order(rt: HostRuntime) {
    play(&rt, rt.alloc(), 4, DEADLINES);
}

/// The first request has the permit, and ends at once.
const GRANTED: Granted = Granted {
    id: FIRST,
    ended: Some(Ok(())),
};

/// A sync of an open that was not written.
const CLEAN_SYNC: &[Step] = &[
    Step::Wait(Wait::Admit(Ask::Sync(0), FIRST)),
    Step::Look(Look::NextGate(0, Some(0))),
    Step::Look(Look::NextGate(1, None)),
    Step::Turn(Turn::Grant(0, None)),
    Step::Wait(Wait::Join(0, FIRST)),
    Step::Turn(Turn::Grant(0, Some(GRANTED))),
    Step::Lent(Lent::Leave(0, None)),
    Step::Look(Look::NextGate(0, None)),
];

#[test]
fn a_clean_sync_ends_at_its_grant(rt: HostRuntime) {
    play(&rt, rt.alloc(), 4, CLEAN_SYNC);
}
