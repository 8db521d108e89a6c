//! Where a worker is: which step it takes next.
//!
//! A worker is one party of many, and between two of its steps any other may take some. So all that it knows of where
//! it stands is its place with what that carries; all else it looks up anew. Each place is named as the function that
//! takes its step, in the file of its group. A step names one shared thing at most, which stands in brackets below. Of
//! the things that parties share beside the machine's common part it sees that one and changes no other; the common
//! part it is lent whole, and what it makes of that its event says. The end that is sent into a one-shot and whether
//! its task still holds it are read as one thing: a task that is over has let go of its side, and who sends finds so by
//! the send itself. What a step finds it decides at once: tests, jumps and ends are no steps.
//!
//! A part that several ways go through, as the callbacks, a service or a push, carries where it leads. Parts call parts
//! in no circle, so the types say what may come next. What hands something on has its places in `handing`, search, look
//! and waits have theirs in `idling`.
//!
//! A turn, from top to bottom. Every step is a `turn` where no event is named, within a service a `serve`.
//!
//! ```text
//! BeginTurn                                     -> CountDown
//! CountDown                                     -> POP, or LoadMirror where the global look comes first
//! POP            [own run queue]                what came is polled; else on to LoadMirror or TakeRootFlag
//! LoadMirror     [global queue]                 nothing there: on to POP or TakeRootFlag
//! LoadHead       [own run queue]                how much room there is
//! TakeShare      [global queue, own tail]       the first is polled
//! POLL                                          of an ordinary task: CountDown, after 64 polls TakeRootFlag
//! TakeRootFlag                                  set: POLL; else on to CALLBACKS
//! POLL                                          a root that is done: CLOSING; else on to CALLBACKS
//! CALLBACKS                                     -> LOADS
//! LOADS                                         may the service put its last enter off?   -> SERVICE
//! SERVICE                                       -> MAIL
//! MAIL                                          -> CALLBACKS
//! CALLBACKS                                     -> LOADS
//! LOADS, TestForWork, ReadClock                 is anything ready or due?
//!                                               yes: LEAVE, [SERVICE, CALLBACKS], then BeginTurn
//! SEARCH, SCAN                                  of several workers: is anything to be stolen?
//!                                               yes: as above
//! LOOK                                          the own bit goes in; is anything there?
//!                                               yes: Withdraw, then as above, or SCAN
//! RING WAIT, WORD WAIT                          with requests, without
//! Withdraw       [idle set]                     -> [SERVICE, CALLBACKS], BeginTurn
//! ```
//!
//! A dedicated worker polls its root alone. It has no run queue and no bit in the idle set: it makes no pick, loads its
//! wake word alone, neither searches nor looks before it waits, and withdraws nothing. What it makes or wakes goes into
//! the global queue.
//!
//! The parts:
//!
//! ```text
//! POLL        LEAVE                             only with a search count
//!             BeginPoll      [the task]         begin T: what it waits for is looked at, else it acts; a plain turn
//!                                               where the task was cleared, and that is all
//!             Resume         [the task]         got .., or pend T where its await is still open. What another worker has,
//!                            [an inbox]         it is asked to send, once: send I forward .., with its SIGNAL, then Pend;
//!                            [a one-shot]       from then on got .., or a plain turn and then Pend
//!             Act            [the task]         the event of the act; then JoinGate after a durable request, the push
//!                            [an inbox]         of a task that was made (LoadSpawnHead) or woken, a SIGNAL after a send:
//!                                               of a wake, of a forward (and then Pend), or of a cancel
//!             LoadSpawnHead  [own run queue]    only with several workers: empty: PUSH, else GLOBAL
//!             JoinGate       [a gate]
//!             Pend           [the task]         pend T, then PUSH where it was woken meanwhile; where it was cleared
//!                                               meanwhile, CANCELS
//!             RemoveTask     [a shard]          after done T of an ordinary task, and its CANCELS
//! CANCELS     SendCancel     [an inbox]         send I cancel .. of each thing of another worker that a task held which
//!                                               is over, with its SIGNAL
//! CALLBACKS   TakeBatch                         nothing there: on
//!             LEAVE                             only with a search count
//!             CallBack       [the task]         wake T, and PUSH where it was idle; a plain turn for an output; release R;
//!                            [a one-shot]       a plain turn for the end of a thing that is sent to a task elsewhere
//!             WakeWaiter     [the task]         wake T of that task, which isn't over, and PUSH where it was idle
//! LOADS       LoadOwnHead [run queue], LoadOwnMirror [global queue], LoadOwnWord [wake word]
//! SERVICE     Sample         [wake word]        samples the clock, takes a latch out
//!             Reap           [ring]             reap R ..: again while there is one
//!             PassPermit     [a gate]           the next holder is named
//!             Signal         [a wake word]      and its worker signalled: the own one too
//!             Raise          [a seat]           rouse I where it sleeps
//!             AdvanceWheel                      finds what is due
//!             Submit         [ring, or a gate]  expire, enrol, a gate's grant, cancel, stage; enter where full; the end
//!             EnterLast      [ring]             enter or busy, unless put off
//!             Reap           [ring]
//!             EndService                        fire each sleeper that is due, then the end
//! MAIL        LoadMailWord [wake word], TakeMail [inbox], Apply [the root]   apply M: 64 at most
//! CLOSING     Close; worker zero: CloseQueue [global queue], OpenBarrier [barrier], Stop, TellRoot [an inbox] each
//!             with its SIGNAL; POP until empty; Visit [a shard], Clear [a task] with CANCELS each; LeaveBarrier [barrier];
//!             a dedicated worker from here on; CloseMailbox [inbox]; Orphan each, CloseSleeper each; CALLBACKS, SERVICE,
//!             CALLBACKS, and RING WAIT, SERVICE, CALLBACKS while requests stand; End
//! POP         PopAlone       [own run queue]    a lone worker's, in one action
//!             LoadPopHead    [own run queue]    empty: that is all
//!             ExchangePop    [own run queue]    lost: judged by what was found there
//!             StorePop       [own run queue]    a lone value without a claim
//! LEAVE       LeaveSearch    [idle set]         the last count: KICK
//! PUSH        LoadPushHead   [own run queue]
//!             StoreValue     [own run queue]    two values at least, and several workers: KICK
//!             FlowOver       [own run queue]    lost: LoadPushHead again
//!             StoreOldest    [own run queue]    then GLOBAL, as for a value that doesn't fit
//! GLOBAL      Append         [global queue]     closed: let go, and that is all
//!             LoadGlobalSet  [idle set]         empty: that is all
//!             AddGlobalCount [idle set]         then CLAIM
//!             ReturnGlobalCount [idle set]      nobody was claimed: LoadGlobalSet again where it was the last
//! KICK        LoadKickCount  [idle set]         somebody searches: that is all
//!             LoadKickSet    [idle set]         empty: that is all
//!             ExchangeKickCount [idle set]      somebody searches: that is all; else CLAIM
//!             ReturnKickCount [idle set]        nobody was claimed: begins again where it was the last
//! CLAIM       ClaimWorker    [idle set]         lost: again with what was found, while a worker is there
//! SIGNAL      SetLatch       [a wake word]      a wait bit without a latch: Raise
//!             Raise          [a seat]           rouse I where it sleeps
//! ```

use crate::handing::{
    AfterCallbacks, AfterCancels, AfterClaim, AfterKick, AfterLeave, AfterPop, AfterPush,
    AfterSignal, First, Heard, InGlobal, InKick, InPop, InPush, InSignal,
};
use crate::idling::{AfterWait, InLook, InRingWait, InScan, InSearch, InWordWait, Stay};
use exec_task::drain::Drain;
use exec_words::idle::WorkerSet;

/// The steps of a pick.
#[derive(Clone, Copy)]
pub enum InPick {
    /// The count down to the global look.
    CountDown,
    /// The load of the global queue's length.
    LoadMirror {
        first: First,
    },
    /// The load of the own queue's head, for its room.
    LoadHead {
        first: First,
    },
    /// The taking of a share, with the room and the values of the own queue by the head that was loaded.
    TakeShare {
        first: First,
        room: usize,
        held: usize,
    },
}

/// The steps of a poll of this task.
#[derive(Clone, Copy)]
pub enum InPoll {
    /// The start of the poll.
    BeginPoll,
    /// A look at what the task waits for.
    Resume,
    /// The next act of its body.
    Act,
    /// The durable request that it just made joins the gate of its open.
    JoinGate { request: usize },
    /// The load of the own queue's head, for the task that it just made.
    LoadSpawnHead,
    /// The end of a poll that waits.
    Pend,
    /// An ordinary task that is over leaves the task set.
    RemoveTask,
}

/// The steps of the callbacks.
#[derive(Clone, Copy)]
pub enum InCallbacks {
    /// The taking of the batch.
    TakeBatch,
    /// One item of the batch.
    CallBack,
    /// The wake of this task, which was sent the end of that thing of this worker.
    WakeWaiter { task: usize, of: Heard },
}

/// Which of the two looks at the own words it is.
#[derive(Clone, Copy)]
pub enum Round {
    /// Before the service.
    First,
    /// After it.
    Second,
}

/// What the loads have found so far: whether something is ready by them.
#[derive(Clone, Copy)]
pub struct Found {
    /// The own queue had a value, or the global one.
    pub ready: bool,
}

/// The loads of the own words.
#[derive(Clone, Copy)]
pub enum InLoads {
    /// The head of the own run queue.
    LoadOwnHead,
    /// The length of the global queue.
    LoadOwnMirror { found: Found },
    /// The wake word.
    LoadOwnWord { found: Found },
}

/// What follows a service.
#[derive(Clone, Copy)]
pub enum AfterService {
    /// The mailbox.
    Mail,
    /// Callbacks, and then the next turn.
    Begin,
    /// Callbacks, and then the end of a closing worker.
    Finish,
}

/// One service of the ring.
#[derive(Clone, Copy)]
pub struct Service {
    /// Whether the last enter may be left out.
    pub defer: bool,
    /// What follows.
    pub back: AfterService,
}

/// Which reaping of a service it is.
#[derive(Clone, Copy)]
pub enum Reaping {
    /// Before the staging.
    First,
    /// After it.
    Last,
}

/// What follows once the permit of an open was given up.
#[derive(Clone, Copy)]
pub enum AfterPermit {
    /// Another completion is there.
    Reap { reaping: Reaping },
    /// The reaping is over.
    Reaped { reaping: Reaping },
    /// The gate of the next open, from this number on.
    Submit { gate: u32 },
}

/// The steps of a service.
#[derive(Clone, Copy)]
pub enum InService {
    /// The sampling of the clock.
    Sample,
    /// The judging of a completion.
    Reap {
        reaping: Reaping,
    },
    /// The permit of this open is given up.
    PassPermit {
        file: u32,
        back: AfterPermit,
    },
    /// The worker of the permit's next holder is signalled.
    Signal {
        worker: usize,
        back: AfterPermit,
    },
    /// The wait that was found there is ended: of the ring, or of the word.
    Raise {
        ring: bool,
        worker: usize,
        back: AfterPermit,
    },
    /// The advance of the timeout wheel.
    AdvanceWheel,
    /// What is next of: a deadline that is due, one to be enrolled, a gate from this number on, a cancel or an operation
    /// to be staged; and where none is left the end of staging.
    Submit {
        gate: u32,
    },
    /// The last enter.
    EnterLast,
    /// A sleeper that is due, and where none is left the end of the service.
    EndService,
}

/// The steps at the mailbox.
#[derive(Clone, Copy)]
pub enum InMail {
    /// The load of the wake word.
    LoadMailWord,
    /// The taking of a batch of messages.
    TakeMail,
    /// A message of the batch, after so many in this turn. Whether a step at the mailbox came before it in this turn; none did
    /// before the first message of what an earlier turn left, which follows the service at once.
    Apply { applied: usize, taken: bool },
}

/// The steps of a closing, beside its callbacks, services and waits.
#[derive(Clone, Copy)]
pub enum InClosing {
    /// The closing begins.
    Close,
    /// The global queue is closed and emptied.
    CloseQueue,
    /// The shutdown barrier is opened.
    OpenBarrier,
    /// The pool is stopped.
    Stop,
    /// The root of this worker is told so.
    TellRoot { worker: usize },
    /// The visit of a shard of the task set.
    Visit { drain: Drain },
    /// The task that the visit found is cleared.
    Clear { task: usize, drain: Drain },
    /// The worker passes the shutdown barrier.
    LeaveBarrier,
    /// The mailbox is closed.
    CloseMailbox,
    /// A request that is still observed is let go.
    Orphan,
    /// A sleeper is removed.
    CloseSleeper,
    /// The end of the worker.
    End,
}

/// The next step of a worker.
#[derive(Clone, Copy)]
pub enum Place {
    /// A turn begins.
    BeginTurn,
    /// A pick from the queues.
    Pick(InPick),
    /// The root flag is taken.
    TakeRootFlag,
    /// A poll of this task.
    Poll(usize, InPoll),
    /// The callbacks.
    Callbacks(InCallbacks, AfterCallbacks),
    /// The loads of the own words.
    Loads(InLoads, Round),
    /// A service.
    Service(InService, Service),
    /// The mailbox.
    Mail(InMail),
    /// The test whether something is to be done, after the loads have found this.
    TestForWork { found: Found },
    /// The reading of the clock.
    ReadClock,
    /// What comes before a scan.
    Search(InSearch),
    /// A scan of the other run queues.
    Scan(InScan),
    /// The look once nothing was to be stolen: the own bit goes into the idle set, and all is looked at once more.
    Look(InLook),
    /// A wait on the ring.
    RingWait(InRingWait, Stay),
    /// A wait on the wake word.
    WordWait(InWordWait),
    /// The own bit goes out of the idle set.
    Withdraw(AfterWait),
    /// The closing.
    Closing(InClosing),
    /// A pop of the own run queue.
    Pop(InPop, AfterPop),
    /// The held search count is returned.
    LeaveSearch(AfterLeave),
    /// A push into the own run queue.
    Push(InPush, AfterPush),
    /// A push into the global queue.
    Global(InGlobal, AfterPush),
    /// A kick.
    Kick(InKick, AfterKick),
    /// A worker of the set that was found is claimed.
    ClaimWorker(WorkerSet, AfterClaim),
    /// This worker is signalled.
    Signal(InSignal, usize, AfterSignal),
    /// Another worker is told that nobody waits any more for a thing of it, which a task held that is over.
    SendCancel(AfterCancels),
}
