//! Tests of drivers as tables: each step is a call with the answer that has to come, or a look.

use crate::asks::{Ask, Seen};
use crate::found::Counts;
use exec_base::error::Error;
use exec_base::task_no::TaskNo;
use exec_driver::driver::{Enrolled, Granted, Reaped};
use exec_opens::opens::WaiterKey;
use exec_outcomes::outcome::OpResult;
use exec_request::connect::SockAddr;
use exec_ring::landing::Unlawful;
use exec_ring::ring::Entered;
use exec_waiters::waiter_id::WaiterId;

/// A step. What it has besides its arguments is what has to come of it.
#[derive(Clone, Copy)]
pub enum Step {
    /// The other worker goes on from here.
    Swap,
    /// What concerns who waits for a request.
    Wait(Wait),
    /// A part of a service.
    Turn(Turn),
    /// A look at the driver.
    Look(Look),
    /// What the opens and the store have.
    Lent(Lent),
}

/// A call of who asks for requests and waits for them.
#[derive(Clone, Copy)]
pub enum Wait {
    /// A request is admitted under this name.
    Admit(Ask, WaiterId),
    /// A request takes its place in the line of its open, as one of this worker.
    Join(u32, WaiterId),
    /// A task finds this.
    Observe(WaiterId, u32, Seen),
    /// Another task waits, in place of this one.
    SetWaker(WaiterId, u32, Option<TaskNo>),
    /// The outcome is to be sent on by this sender.
    Forward(WaiterId, u32),
    /// Nobody waits any more.
    Orphan(WaiterId),
    /// The next request loses its observer, as the worker closes.
    Close(Option<WaiterId>),
    /// What a connect owned is let go.
    LetGo(u32, SockAddr),
}

/// A part of a service, or what the kernel does.
#[derive(Clone, Copy)]
pub enum Turn {
    /// A whole service by worker, moment in nanoseconds and whether the entry is put off.
    Serve((u32, u64, bool), bool),
    /// The wheel advances to this moment, in nanoseconds.
    Advance(u64),
    /// The first request that is due is told.
    Expire(Option<WaiterId>),
    /// The first deadline is enrolled, at this moment in nanoseconds.
    Enrol(u64, Option<Enrolled>),
    /// Worker 0 takes the permit of this open.
    Grant(u32, Option<Granted>),
    /// The first request is staged, and the kernel takes it in.
    Stage(Option<WaiterId>),
    /// The first cancel is staged.
    StageCancel(Option<WaiterId>),
    /// The wake poll is staged.
    StageWakePoll(bool),
    /// The kernel takes in what was staged.
    Enter(Entered),
    /// The kernel is busy, and takes nothing in at the next enter.
    Busy,
    /// A result comes from the kernel.
    Land(WaiterId, OpResult, Result<(), Unlawful>),
    /// The next completion is taken in.
    Reap(Option<Reaped>),
    /// The next completion is taken in: it ends a request so, which gives up no permit.
    Over(WaiterId, OpResult, Result<(), Error>),
    /// The worker makes ready to sleep, with a word that is calm or isn't.
    Park(bool, bool),
    /// A wake is raised, which ends the wake poll.
    WakeLast,
}

/// A look at the driver.
#[derive(Clone, Copy)]
pub enum Look {
    /// Whether something is so.
    Is(Sign, bool),
    /// A task of the worker may look at a request, and waits for it.
    Seen(WaiterId, bool),
    /// Whose observer is let go next, as the worker closes.
    FirstObserved(Option<WaiterId>),
    /// Whether the worker may sleep now, in nanoseconds, where its next deadline is this.
    MaySleep(u64, Option<u64>, bool),
    /// How many requests are not over.
    Len(usize),
    /// How many entries the ring has room for.
    RingSize(usize),
    /// How much of each kind is to be told.
    Counts(Counts),
    /// When the next deadline comes, in nanoseconds.
    NextDeadline(Option<u64>),
    /// At which open a request waits next, from this on.
    NextGate(u32, Option<u32>),
    /// Whom the worker signalled last.
    Last(Option<u32>),
    /// So many results are to be sent on, and the first is `Closed`.
    Refused(usize),
    /// The user data of a name.
    UserData(WaiterId, u64),
}

/// What may be so of a driver.
#[derive(Clone, Copy)]
pub enum Sign {
    /// No request is there that is not over.
    Empty,
    /// A submission is pending.
    Pending,
    /// A service that may put it off has to enter.
    MustEnter,
    /// A deadline is to be enrolled.
    Enrolments,
    /// A deadline has come.
    Due,
    /// A cancel is to be staged.
    Cancels,
    /// A request may be staged.
    MayStage,
    /// The submission queue is full.
    Full,
    /// The wake poll is wanted.
    NeedsWakePoll,
    /// A completion is there.
    Completion,
}

/// What the opens and the store have.
#[derive(Clone, Copy)]
pub enum Lent {
    /// A plain write of this open begins.
    BeginWrite(u32),
    /// This open keeps a failure.
    Poison(u32, Error),
    /// Who has the permit of this open.
    Holder(u32, Option<WaiterKey>),
    /// The permit of this open is given up, and who has it next.
    Leave(u32, Option<WaiterKey>),
    /// Whether operations of this open may still have the hint.
    Hinted(u32, bool),
    /// The failure that this open keeps.
    Failure(u32, Option<Error>),
    /// This comes to a socket.
    Feed(u32, &'static [u8]),
    /// This was sent to a socket.
    Sent(u32, &'static [u8]),
    /// This was received from a socket.
    Received(u32, &'static [u8]),
    /// A file has this byte at this place.
    Byte(u32, u64, u8),
}
