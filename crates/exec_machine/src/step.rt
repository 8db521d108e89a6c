//! The steps that a trace asks for.

use exec_outcomes::outcome::OpResult;
use std::fmt;

/// A line of a trace below `steps`.
#[derive(Clone, Copy, Debug)]
pub enum Step {
    /// The worker takes so many steps.
    Work { worker: usize, count: u64 },
    /// Any other line asks for one step.
    One { action: Action },
}

/// How many outside callers there are.
pub const CALLERS: usize = 16;

/// One step of one party.
#[derive(Clone, Copy, Debug)]
pub enum Action {
    /// The worker takes one step.
    Work { worker: usize },
    /// The caller begins to spawn a task of the script.
    Spawn { caller: usize, script: usize },
    /// The caller begins to wake the task.
    Wake { caller: usize, task: usize },
    /// The caller goes on with its call.
    GoOn { caller: usize },
    /// The clock moves by so many nanoseconds.
    Clock { by: u64 },
    /// The operation of the request lands with the result.
    Land { request: usize, result: OpResult },
    /// The next enter of the worker's ring is busy.
    SetBusy { worker: usize },
    /// The next wake of the worker's ring ends its wake poll.
    EndPoll { worker: usize },
    /// The wait of the worker returns for nothing.
    Stir { worker: usize },
    /// A peer comes to the listener.
    Peer { listener: usize },
}

impl fmt::Display for Action {
    ghost use Rattle.std.specs.Prelude.{Some};
    ghost use Rattle.exec_machine.specs.Text.{text_of_action};

    ghost output = { λ a. Some (text_of_action a) };

    fn fmt<W: fmt::Write>(&self, f: &mut fmt::Formatter<W>) -> fmt::Result {
        match self {
            Action::Work { worker } => write!(f, "w {worker}"),
            Action::Spawn { caller, script } => write!(f, "x {caller} spawn {script}"),
            Action::Wake { caller, task } => write!(f, "x {caller} wake {task}"),
            Action::GoOn { caller } => write!(f, "x {caller}"),
            Action::Clock { by } => write!(f, "c {by}"),
            Action::Land { request, result } => write!(f, "k {request} {result}"),
            Action::SetBusy { worker } => write!(f, "b {worker}"),
            Action::EndPoll { worker } => write!(f, "m {worker}"),
            Action::Stir { worker } => write!(f, "e {worker}"),
            Action::Peer { listener } => write!(f, "l {listener}"),
        }
    }
}
