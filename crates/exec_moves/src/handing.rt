//! Where a party is that hands something on: a runnable, a search count, a signal.
//!
//! Several ways of a worker go through these parts, and outside callers through some of them. So each carries where it
//! leads, or is wrapped by who does. They call each other in no circle:
//!
//! ```text
//! POP     the own queue's oldest value                  -> a pick, or the emptying of a closing worker's queue
//! LEAVE   a held search count is returned               -> KICK, where it was the last
//! PUSH    the runnable in the hand, into the own queue  -> KICK, where others may steal; GLOBAL, where it doesn't fit
//! GLOBAL  all in the hands, into the global queue       -> CLAIM, where a worker is published
//! KICK    a search begins, where there is none          -> CLAIM, where a worker is published
//! CLAIM   a published worker gets the reserved count    -> SIGNAL; and without one back, to return the count
//! SIGNAL  a worker is to wake
//! ```
//!
//! Who returns the last count without a claim looks again: KICK begins anew, GLOBAL loads the set once more.

use exec_task::drain::Drain;
use exec_words::head::Head;
use exec_words::idle::WorkerSet;

/// Which queue a pick looks at first.
#[derive(Clone, Copy)]
pub enum First {
    /// The own run queue.
    Own,
    /// The global queue.
    Global,
}

/// What follows the callbacks.
#[derive(Clone, Copy)]
pub enum AfterCallbacks {
    /// The loads that decide whether the service may put its last enter off.
    Look,
    /// The loads that decide whether the worker may wait.
    Test,
    /// The next turn.
    Begin,
    /// The first service of a closing worker.
    Drain,
    /// The end of a closing worker, or another wait for its requests.
    Finish,
}

/// The steps of a pop of the own run queue.
#[derive(Clone, Copy)]
pub enum InPop {
    /// The pop of a lone worker, in one action.
    PopAlone,
    /// The load of the head.
    LoadPopHead,
    /// The exchange of the head that was found.
    ExchangePop { head: Head },
    /// The store of the head, for a lone value without a claim.
    StorePop,
}

/// What follows a pop.
#[derive(Clone, Copy)]
pub enum AfterPop {
    /// The poll of what came, or the rest of the pick.
    Pick { first: First },
    /// What came is let go, and the next pop; or the drain.
    Discard,
}

/// What follows once the held search count was returned.
#[derive(Clone, Copy)]
pub enum AfterLeave {
    /// The poll of this task, whose runnable is in the hand.
    Poll { task: usize },
    /// The items of the callbacks.
    CallBack { next: AfterCallbacks },
    /// The next turn, after what was put off.
    Begin,
}

/// The steps of a push of the runnable in the hand into the own run queue.
#[derive(Clone, Copy)]
pub enum InPush {
    /// The load of the head, for what fits.
    LoadPushHead,
    /// The store of the tail behind a value that fits, of which there are so many then.
    StoreValue { length: usize },
    /// The exchange of a full queue's head: its newest half goes into the hand.
    FlowOver { head: Head },
    /// The store of the tail behind the oldest half.
    StoreOldest,
}

/// What follows a push.
#[derive(Clone, Copy)]
pub enum AfterPush {
    /// The next act of this task, which is polled.
    Act { task: usize },
    /// The next pick.
    Pick,
    /// The next item of the callbacks.
    CallBack { next: AfterCallbacks },
}

/// The steps of a push of all in the hands into the global queue.
#[derive(Clone, Copy)]
pub enum InGlobal {
    /// The section that appends it; a closed queue lets it go.
    Append,
    /// The load of the idle set.
    LoadGlobalSet,
    /// A search count is added, for a worker of the set that was found.
    AddGlobalCount { set: WorkerSet },
    /// Nobody was claimed: the count is returned.
    ReturnGlobalCount,
}

/// The steps of a kick.
#[derive(Clone, Copy)]
pub enum InKick {
    /// The load of the search count.
    LoadKickCount,
    /// The load of the idle set.
    LoadKickSet,
    /// The exchange of the search count 0 to 1, for a worker of the set that was found.
    ExchangeKickCount { set: WorkerSet },
    /// Nobody was claimed: the count is returned.
    ReturnKickCount,
}

/// What follows a kick.
#[derive(Clone, Copy)]
pub enum AfterKick {
    /// What follows a returned count.
    Leave(AfterLeave),
    /// What follows a push.
    Push(AfterPush),
}

/// For whom a worker is claimed.
#[derive(Clone, Copy)]
pub enum AfterClaim {
    /// For a kick.
    Kick(AfterKick),
    /// For a push into the global queue.
    Global(AfterPush),
}

/// The steps of a signal.
#[derive(Clone, Copy)]
pub enum InSignal {
    /// The latch goes into the wake word.
    SetLatch,
    /// The wait that was found there is ended: of the ring, or of the word.
    Raise { ring: bool },
}

/// A thing of a worker for which a task waits elsewhere.
#[derive(Clone, Copy, Debug, PartialEq, Eq)]
pub enum Heard {
    /// This request.
    Request(usize),
    /// This sleeper.
    Timer(usize),
}

/// What follows once other workers were told of all that a task held which is over.
#[derive(Clone, Copy)]
pub enum AfterCancels {
    /// This task leaves the task set.
    Remove { task: usize },
    /// The next pick.
    Pick,
    /// The next visit of a drain.
    Visit { drain: Drain },
}

/// What follows a message to another worker.
#[derive(Clone, Copy)]
pub enum AfterSend {
    /// The next act of this task, which is polled.
    Act { task: usize },
    /// The end of the poll of this task, which waits for a thing of that worker.
    Pend { task: usize },
    /// The next message of what a task held that is over.
    Cancels(AfterCancels),
    /// The message to the root of this worker of a pool that stops, or after the last the emptying of the own queue.
    Tell { worker: usize },
}

/// Why a worker was signalled.
#[derive(Clone, Copy)]
pub enum AfterSignal {
    /// It was claimed.
    Claim(AfterClaim),
    /// It was sent a message.
    Send(AfterSend),
}

/// Where an outside caller is.
#[derive(Clone, Copy)]
pub enum CallPlace {
    /// It has no call half done.
    Nothing,
    /// It pushes the runnable in its hand into the global queue.
    Global(InGlobal),
    /// It claims a worker of the set that it found.
    ClaimWorker { set: WorkerSet },
    /// It signals this worker.
    Signal(InSignal, usize),
    /// Its call is over.
    Return,
}
