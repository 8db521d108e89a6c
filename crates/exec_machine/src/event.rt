//! The events of the abstract machine, and the lines of a log.
//!
//! Events and lines are compared nowhere, so they have no `PartialEq`, which is dear to prove for 42
//! variants.

ghost use Rattle.std.specs.{Fmt.{WritesOnOk}};
ghost use Rattle.exec_machine.specs.Text.{text_of_request};

use crate::state::MailMessage;
use crate::step::Action;
use exec_outcomes::outcome::{Kind, OpResult, Outcome};
use std::fmt;

/// What happens in one step of a party. Tasks, requests and workers go by number.
#[derive(Clone, Copy, Debug)]
pub enum Event {
    /// A step that changes nothing, or does what the worker's next line had to do, or by which a
    /// closing worker passes the shutdown barrier.
    Turn,
    /// A step inside a service that changes nothing but the sampled moment.
    Serve,
    /// A poll of the task begins.
    Begin {
        task: usize,
    },
    /// The poll of the task ends pending.
    Pend {
        task: usize,
    },
    /// The task is over.
    Done {
        task: usize,
    },
    /// The task is over, with this fault.
    Fault {
        task: usize,
        code: u64,
    },
    /// A task of the script is made.
    Spawn {
        task: usize,
        script: usize,
    },
    /// A task is made that has a worker of its own.
    Dedicated {
        task: usize,
        worker: usize,
    },
    /// What an act, a call or a message met was closed.
    Closed,
    /// A task that the closing pool drains is over, or ends with its poll.
    Clear {
        task: usize,
    },
    /// The polled task makes a request. With an outcome where its deadline had passed.
    Admit {
        request: usize,
        kind: Kind,
        outcome: Option<Outcome>,
    },
    /// The polled task waits for the request, or for a wake alone.
    Wait {
        request: Option<usize>,
    },
    /// The polled task takes the resolved request.
    Got {
        request: usize,
        outcome: Outcome,
    },
    /// The polled task lets go of the request.
    Drop {
        request: usize,
    },
    /// The polled task makes a sleeper until a moment in nanoseconds, and waits for it.
    Timer {
        timer: usize,
        until: u64,
    },
    /// The polled task takes the fired sleeper.
    GotTimer {
        timer: usize,
    },
    /// The polled task was woken, and goes on.
    Pass,
    /// The task is woken.
    Wake {
        task: usize,
    },
    /// The request has the permit of its open, or is over by what is known of the open.
    Grant {
        request: usize,
        outcome: Option<Outcome>,
    },
    /// The deadline of the request is on the wheel, or the request is resolved.
    Enrol {
        request: usize,
        outcome: Option<Outcome>,
    },
    /// The operation of the request is put into the submission queue.
    Stage {
        request: usize,
    },
    /// The kernel takes all that is staged.
    Enter,
    /// The kernel takes nothing.
    Busy,
    /// A landed result is judged. Without an outcome another operation is needed.
    Reap {
        request: usize,
        result: OpResult,
        outcome: Option<Outcome>,
    },
    /// The deadline of the request has come. It is over where the kernel doesn't have it, else
    /// cancelled.
    Expire {
        request: usize,
        outcome: Option<Outcome>,
    },
    /// The cancel of the request is put into the submission queue.
    Cancel {
        request: usize,
    },
    /// A closing worker lets go of the request in place of the task that holds it.
    Orphan {
        request: usize,
        outcome: Option<Outcome>,
    },
    /// What the request owned is let go.
    Release {
        request: usize,
    },
    /// The moment of the sleeper has come.
    Fire {
        timer: usize,
    },
    /// The message goes to the worker.
    Send {
        worker: usize,
        message: MailMessage,
    },
    /// The worker acts by the first message of its inbox.
    Apply {
        message: MailMessage,
    },
    /// The sleeping worker is woken.
    Rouse {
        worker: usize,
    },
    /// The worker sleeps until a moment in nanoseconds, or without end.
    Sleep {
        until: Option<u64>,
    },
    /// The worker begins to close.
    Close,
    /// The pool is stopped.
    Stop,
    /// The worker has ended.
    End,
    /// The caller's call is over.
    Return,
    /// The operation has landed.
    Land,
    /// The clock has moved.
    Clock,
    /// A ring was set busy, or its wake poll to end.
    Set,
    /// The wait of a worker has returned for nothing.
    Stir,
    /// A peer has come.
    Peer,
}

/// What became of a step.
#[derive(Clone, Copy, Debug)]
pub enum StepResult {
    /// The step was not enabled, and nothing changed.
    Refused,
    /// This happened.
    Did(Event),
}

/// A line of a log.
#[derive(Clone, Copy, Debug)]
pub struct Line {
    /// The step.
    pub action: Action,
    /// What became of it.
    pub said: StepResult,
}

impl fmt::Display for Event {
    ghost use Rattle.std.specs.Prelude.{Some};
    ghost use Rattle.exec_machine.specs.Text.{text_of_event};

    ghost output = { λ e. Some (text_of_event e) };

    fn fmt<W: fmt::Write>(&self, f: &mut fmt::Formatter<W>) -> fmt::Result {
        match self {
            Event::Begin { task } => write!(f, "begin {task}"),
            Event::Pend { task } => write!(f, "pend {task}"),
            Event::Done { task } => write!(f, "done {task}"),
            Event::Fault { task, code } => write!(f, "fault {task} {code}"),
            Event::Spawn { task, script } => write!(f, "spawn {task} {script}"),
            Event::Dedicated { task, worker } => write!(f, "dedicated {task} {worker}"),
            Event::Clear { task } => write!(f, "clear {task}"),
            Event::Timer { timer, until } => write!(f, "timer {timer} {until}"),
            Event::GotTimer { timer } => write!(f, "got timer {timer}"),
            Event::Wake { task } => write!(f, "wake {task}"),
            Event::Fire { timer } => write!(f, "fire {timer}"),
            Event::Send { worker, message } => write!(f, "send {worker} {message}"),
            Event::Apply { message } => write!(f, "apply {message}"),
            Event::Rouse { worker } => write!(f, "rouse {worker}"),
            Event::Sleep { until: None } => write!(f, "sleep ever"),
            Event::Sleep { until: Some(until) } => write!(f, "sleep {until}"),
            Event::Turn => write!(f, "turn"),
            Event::Serve => write!(f, "serve"),
            Event::Closed => write!(f, "closed"),
            Event::Pass => write!(f, "got pass"),
            Event::Enter => write!(f, "enter"),
            Event::Busy => write!(f, "busy"),
            Event::Close => write!(f, "close"),
            Event::Stop => write!(f, "stop"),
            Event::End => write!(f, "end"),
            Event::Return => write!(f, "return"),
            Event::Land => write!(f, "land"),
            Event::Clock => write!(f, "clock"),
            Event::Set => write!(f, "set"),
            Event::Stir => write!(f, "stir"),
            Event::Peer => write!(f, "peer"),
            _ => fmt_of_request(self, f),
        }
    }
}

// How an event of a request is written, and nothing for any other.
fn fmt_of_request<W: fmt::Write>(event: &Event, f: &mut fmt::Formatter<W>) -> fmt::Result
    ensures { WritesOnOk W.write_str_gives f.old result (text_of_request event.now) f.new }
{
    match event {
        Event::Admit {
            request,
            kind,
            outcome,
        } => write!(f, "admit {request} {kind}{}", EndText(*outcome)),
        Event::Wait { request: None } => write!(f, "wait none"),
        Event::Wait {
            request: Some(request),
        } => write!(f, "wait {request}"),
        Event::Got { request, outcome } => write!(f, "got {request} {outcome}"),
        Event::Drop { request } => write!(f, "drop {request}"),
        Event::Grant { request, outcome } => write!(f, "grant {request}{}", EndText(*outcome)),
        Event::Enrol { request, outcome } => write!(f, "enrol {request}{}", EndText(*outcome)),
        Event::Stage { request } => write!(f, "stage {request}"),
        Event::Reap {
            request,
            result,
            outcome,
        } => write!(f, "reap {request} {result} {}", VerdictText(*outcome)),
        Event::Expire { request, outcome } => write!(f, "expire {request}{}", EndText(*outcome)),
        Event::Cancel { request } => write!(f, "cancel {request}"),
        Event::Orphan { request, outcome } => write!(f, "orphan {request}{}", EndText(*outcome)),
        Event::Release { request } => write!(f, "release {request}"),
        _ => Ok(()),
    }
}

// A space and the outcome, where there is one.
#[derive(Clone, Copy)]
struct EndText(Option<Outcome>);

impl fmt::Display for EndText {
    ghost use Rattle.std.specs.Prelude.{Some};
    ghost use Rattle.exec_machine.specs.Text.{text_of_end};

    ghost output = { λ it. Some (text_of_end it.0) };

    fn fmt<W: fmt::Write>(&self, f: &mut fmt::Formatter<W>) -> fmt::Result {
        match self.0 {
            None => Ok(()),
            Some(outcome) => write!(f, " {outcome}"),
        }
    }
}

// The outcome, or `more`.
#[derive(Clone, Copy)]
struct VerdictText(Option<Outcome>);

impl fmt::Display for VerdictText {
    ghost use Rattle.std.specs.Prelude.{Some};
    ghost use Rattle.exec_machine.specs.Text.{text_of_verdict};

    ghost output = { λ it. Some (text_of_verdict it.0) };

    fn fmt<W: fmt::Write>(&self, f: &mut fmt::Formatter<W>) -> fmt::Result {
        match self.0 {
            None => write!(f, "more"),
            Some(outcome) => write!(f, "{outcome}"),
        }
    }
}

impl fmt::Display for Line {
    ghost use Rattle.std.specs.Prelude.{Some};
    ghost use Rattle.exec_machine.specs.Text.{text_of_line};

    ghost output = { λ l. Some (text_of_line l) };

    fn fmt<W: fmt::Write>(&self, f: &mut fmt::Formatter<W>) -> fmt::Result {
        let action = self.action;
        match self.said {
            StepResult::Refused => write!(f, "{action} refused"),
            StepResult::Did(event) => write!(f, "{action} {event}"),
        }
    }
}
