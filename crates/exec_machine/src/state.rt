//! The parts of the abstract machine's state that code keeps as they are.

use exec_outcomes::outcome::{Kind, OpResult, Outcome};
use std::fmt;

/// How far a worker has come.
#[derive(Clone, Copy, Debug, PartialEq, Eq)]
pub enum WorkerPhase {
    /// It polls tasks.
    Open,
    /// It ends what it has begun.
    Closing,
    /// It takes no further step.
    Ended,
}

/// Whether a worker sleeps.
#[derive(Clone, Copy, Debug, PartialEq, Eq)]
pub enum Rest {
    /// It doesn't.
    Awake,
    /// Until the clock reaches this moment, in nanoseconds, or something wakes it.
    Until(u64),
    /// Until something wakes it.
    Forever,
}

/// What the next line of a worker has to do. Where it has to do something, that line is a turn.
#[derive(Clone, Copy, Debug, PartialEq, Eq)]
pub enum Next {
    /// Nothing that is settled.
    Free,
    /// The durable request that it has just made joins the gate of its open.
    Joins(usize),
    /// The global queue closes.
    ClosesQueue,
    /// Its mailbox closes.
    ClosesMailbox,
}

/// What a task runs.
#[derive(Clone, Copy, Debug, PartialEq, Eq)]
pub enum Code {
    /// The script of the root line.
    Root,
    /// The script of this number.
    Script(usize),
    /// It waits for a wake again and again until the pool is stopped, and then ends.
    Waits,
}

/// How a task stands.
#[derive(Clone, Copy, Debug, PartialEq, Eq)]
pub enum TaskPhase {
    /// It waits for a wake.
    Idle,
    /// It waits for a poll.
    Queued,
    /// This worker polls it.
    Running(usize),
    /// This worker polls it, and a wake came meanwhile.
    Noted(usize),
    /// It is over.
    Done,
}

/// What a task waits for.
#[derive(Clone, Copy, Debug, PartialEq, Eq)]
pub enum Waiting {
    /// For nothing: its next act is the next word of its script.
    Nothing,
    /// For this request.
    Request(usize),
    /// For this sleeper.
    Timer(usize),
    /// For a wake alone.
    Wake,
    /// A wake alone has come, and the task has yet to take it.
    Woken,
    /// It has let others go first.
    Yielded,
}

/// How far something was handed to its own worker.
#[derive(Clone, Copy, Debug, PartialEq, Eq)]
pub enum Forwarding {
    /// It wasn't.
    Unsent,
    /// The message was sent.
    Sent,
    /// The message was applied.
    Applied,
}

/// How far an operation of a request has come.
#[derive(Clone, Copy, Debug)]
pub enum RequestPhase {
    /// The request waits for the permit of its open.
    Gated,
    /// It waits for a place in the submission queue.
    Queued,
    /// Its operation is in the submission queue.
    Staged,
    /// The kernel has its operation.
    Flying,
    /// The operation has landed with this result.
    Landed(OpResult),
    /// The request is over, with this outcome.
    Resolved(Outcome),
}

/// What a request asks for, and how much of it is done.
#[derive(Clone, Copy, Debug)]
pub struct Operation {
    /// What it asks for.
    pub kind: Kind,
    /// The number of its socket, listener or open.
    pub target: usize,
    /// Where in the file it begins, in bytes.
    pub offset: u64,
    /// How many bytes it moves. A poll, a connect and a sync count as 1.
    pub length: u64,
    /// How many bytes lie before them in the aligned range of a direct read.
    pub skip: u64,
    /// The moment from which it is too late, in nanoseconds.
    pub deadline: Option<u64>,
    /// The mutations of its open that were seen when it was made.
    pub seen: u64,
    /// How many bytes its present part has moved.
    pub moved: u64,
    /// Whether it has passed on to its second part.
    pub switched: bool,
    /// Whether no hint of its operations was refused.
    pub unrefused: bool,
    /// Whether its last operation had the hint.
    pub hinted: bool,
}

/// How a request stands.
#[derive(Clone, Copy, Debug)]
pub struct Request {
    /// What it asks for, and how much of it is done.
    pub operation: Operation,
    /// The worker that made it.
    pub worker: usize,
    /// How far it has come.
    pub phase: RequestPhase,
    /// The moment at which its deadline fires, in nanoseconds, while that is on the wheel.
    pub timer: Option<u64>,
    /// Whether a task still holds it.
    pub observed: bool,
    /// Whether its cancellation was asked for.
    pub cancelled: bool,
    /// Whether its cancel was put into the submission queue.
    pub cancel_staged: bool,
    /// Whether what it owned was let go.
    pub released: bool,
    /// The task that has waited for it.
    pub waiter: Option<usize>,
    /// How many wakes it has paid.
    pub wakes_paid: u64,
    /// How far it was handed to its own worker.
    pub forwarding: Forwarding,
}

/// How a sleeper stands: a task waits for its moment.
#[derive(Clone, Copy, Debug)]
pub struct Sleeper {
    /// Its moment, in nanoseconds.
    pub until: u64,
    /// The worker that made it.
    pub worker: usize,
    /// The task that waits for it.
    pub task: usize,
    /// Whether its moment has come and was told.
    pub fired: bool,
    /// Whether it was taken away before that.
    pub removed: bool,
    /// How many wakes it has paid.
    pub wakes_paid: u64,
    /// How far it was handed to its own worker.
    pub forwarding: Forwarding,
}

/// What a worker is told through its inbox.
#[derive(Clone, Copy, Debug, PartialEq, Eq)]
pub enum MailMessage {
    /// Its root is woken.
    Root,
    /// A task of another worker waits for this request.
    ForwardRequest(usize),
    /// A task of another worker waits for this sleeper.
    ForwardTimer(usize),
    /// A task of another worker has let go of this request.
    CancelRequest(usize),
    /// A task of another worker has let go of this sleeper.
    CancelTimer(usize),
}

/// A message with the worker that it goes to.
#[derive(Clone, Copy, Debug, PartialEq, Eq)]
pub struct Letter {
    /// The worker that it goes to.
    pub to: usize,
    /// What that worker is told.
    pub message: MailMessage,
}

/// How an outside caller stands. What it does was told by the first step of its call.
#[derive(Clone, Copy, Debug, PartialEq, Eq)]
pub enum Call {
    /// It has no call half done.
    Nothing,
    /// It has.
    HalfDone,
}

impl fmt::Display for MailMessage {
    ghost use Rattle.std.specs.Prelude.{Some};
    ghost use Rattle.exec_machine.specs.Text.{text_of_message};

    ghost output = { λ m. Some (text_of_message m) };

    fn fmt<W: fmt::Write>(&self, f: &mut fmt::Formatter<W>) -> fmt::Result {
        match self {
            MailMessage::Root => write!(f, "root"),
            MailMessage::ForwardRequest(request) => write!(f, "forward {request}"),
            MailMessage::ForwardTimer(timer) => write!(f, "forward timer {timer}"),
            MailMessage::CancelRequest(request) => write!(f, "cancel {request}"),
            MailMessage::CancelTimer(timer) => write!(f, "cancel timer {timer}"),
        }
    }
}
