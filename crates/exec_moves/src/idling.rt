//! Where a worker is that found nothing to do: it searches, looks once more, and waits.
//!
//! ```text
//! SEARCH      LoadSearchCount [idle set], AddSearchCount [idle set]        several workers; half search already: LOOK
//! SCAN        LoadScanHead    [own run queue]     moves the generator on; less than half is free: LOOK
//!             LoadTheirHead   [a run queue]       claimed: on to the next queue, and after the last to LOOK
//!             LoadTheirTail   [the same]          less than two values: on; more than 256: LoadTheirHead again
//!             ClaimHalf       [the same]          lost: judged by what was found there
//!             MoveHalf
//!             ReleaseHalf     [the same]          again until it succeeds
//!             StoreMoved      [own run queue]     yes, something is there
//! LOOK        Publish         [idle set]
//!             ReturnLookCount [idle set]          only with a search count
//!             LookAtMirror    [global queue]      something there: Withdraw, KICK where the last count was returned
//!             LookAtCount     [idle set]          somebody searches: the wait
//!             LookAtHead, LookAtTail [a run queue]  of each other worker; none to steal from: the wait
//!             ExchangeLookCount [idle set]        somebody searches: the wait
//!             Withdraw        [idle set]
//!             ReturnClaimed   [idle set]          where a claim came besides; SCAN
//! RING WAIT   EnterFullRing   [ring]              only where the submission queue is full
//!             TestRing        [ring]              anything to stage: out
//!             ArmRing         [wake word]         a latch or another batch: out
//!             EnterRing       [ring]              something there, or busy: out
//!             SleepOnRing     [ring]              sleep U, or a turn where something came
//!             DisarmRing      [wake word]
//! WORD WAIT   SpinOnBatch, SpinOnLatch, TakeLatch [wake word]
//!             ArmWord, SleepOnWord, DisarmWord    [wake word]
//! ```
//!
//! In each wait the bits go in before the last look, and the look before the sleep: who comes later finds the bits, and
//! who came earlier is found. In the look the own bit goes in before all looks, for the same reason.

use exec_words::head::Head;

/// The steps before a scan.
#[derive(Clone, Copy)]
pub enum InSearch {
    /// The load of the search count.
    LoadSearchCount,
    /// A search count is added.
    AddSearchCount,
}

/// How far a scan has come: from this worker on it has passed so many.
#[derive(Clone, Copy)]
pub struct Scan {
    /// Where it began.
    pub start: usize,
    /// How many workers it has passed, the own one too.
    pub passed: usize,
}

/// The steps of a scan of the other run queues.
#[derive(Clone, Copy)]
pub enum InScan {
    /// The load of the own head, for its room.
    LoadScanHead,
    /// The load of the head of the queue that is next.
    LoadTheirHead { scan: Scan },
    /// The load of its tail, after a head without a claim.
    LoadTheirTail { scan: Scan, head: Head },
    /// The exchange of its head for a claim of half of the values up to that tail.
    ClaimHalf { scan: Scan, head: Head, tail: u64 },
    /// The values are moved.
    MoveHalf { from: usize, head: Head },
    /// The exchange of its head for one without the claim.
    ReleaseHalf { from: usize, head: Head },
    /// The store of the own tail behind the values that were moved.
    StoreMoved,
}

/// The looks after the own bit went into the idle set.
#[derive(Clone, Copy)]
pub enum InLook {
    /// The own bit goes into the idle set.
    Publish,
    /// The held search count is returned.
    ReturnLookCount,
    /// The load of the global queue's length. Whether the worker returned the last count.
    LookAtMirror { last: bool },
    /// The load of the search count.
    LookAtCount,
    /// The load of the head of this worker's queue.
    LookAtHead { worker: usize },
    /// The load of its tail, after this head.
    LookAtTail { worker: usize, head: Head },
    /// The exchange of the search count 0 to 1, since a queue can be stolen from.
    ExchangeLookCount,
    /// A claim came besides: its count is returned.
    ReturnClaimed,
}

/// In the midst of what a worker waits on its ring.
#[derive(Clone, Copy)]
pub enum Stay {
    /// In a turn.
    Turn,
    /// While it closes.
    Closing,
}

/// The steps of a wait on the ring.
#[derive(Clone, Copy)]
pub enum InRingWait {
    /// The enter of a full submission queue.
    EnterFullRing,
    /// The test for submissions.
    TestRing,
    /// The ring bit goes into the wake word.
    ArmRing,
    /// The enter of the wait.
    EnterRing,
    /// The last look, and the sleep.
    SleepOnRing,
    /// The wait bits go out of the wake word.
    DisarmRing { next: AfterWait },
}

/// The steps of a wait on the wake word.
#[derive(Clone, Copy)]
pub enum InWordWait {
    /// A look for another batch, of so many looks that are left.
    SpinOnBatch { left: u64 },
    /// A look for a latch, the last of its round.
    SpinOnLatch { left: u64 },
    /// The latch goes out of the wake word, after a look that met something.
    TakeLatch,
    /// The sleeping bit goes into the wake word.
    ArmWord,
    /// The last look, and the sleep.
    SleepOnWord,
    /// The wait bits go out of the wake word.
    DisarmWord,
}

/// What follows a wait or a look that led to none: once the own bit is out of the idle set.
#[derive(Clone, Copy)]
pub enum AfterWait {
    /// The next turn.
    Begin,
    /// A service with callbacks, and then the next turn.
    Serve,
    /// What the worker has put off, where it has, and then the next turn. A kick comes first, where the worker returned
    /// the last search count and nobody claimed it.
    MakeUp { last: bool },
    /// A scan, since the worker holds a search count.
    Search,
}
