//! One poll of a task.
//!
//! A poll is made of sections on the task and of steps of its body. `begin` takes the body out of the task; then who
//! polls says what the body is told first, steps it, and carries out its act, again and again. The poll ends with
//! `pend`, where an act leaves the body waiting, or with `done`, where it is through. In between others may wake the
//! task, or clear it. `Polls` (`specs/Polls.antt`) says what a poll may do.
//!
//! `TaskCell` is the task as its poller reaches it: the task itself, or a shared one behind a lock.
//! `Carrier` is who polls: what a body sees of it (`Around`), and how it carries out acts.

ghost use Rattle.std.specs.Prelude.{◌≡◌, ◌-◌, ◌^◌, Bool, IsTrue, OnSome, Option};
ghost use Rattle.exec_task.specs.{declared.body.Ended.Ended, declared.body.Said.Said, declared.poll.Asked.Asked, declared.runnable.AfterPoll.AfterPoll, declared.runnable.Runnable.Runnable, Polls.StepsTo, Polls.Turns, Polls.Polls, Polls.PollsTask};

use crate::body::{Act, Around, Body, Ended, Said};
use crate::runnable::{AfterPoll, Runnable};
use crate::task::Task;
use exec_base::task_no::TaskNo;
use std::alloc::Global;

/// What a poll asks of who carries it out.
#[derive(Drop)]
pub enum Asked<B> {
    /// The poll begins. What is the body told? `Start` at its first poll, later what came of that
    /// for which it waits, or what was kept at `NoMemory`; nothing where it still waits.
    Resume,
    /// The body does this, which is neither `Done` nor `Fault`.
    CarryOut(Act<B>),
    /// A step of the body got no memory, and this is what it was told. What is it told now? The same, where the step is
    /// to be made again at once. Nothing, where the poll ends pending; what was told is then kept for the next `Resume`.
    NoMemory(Said),
}

/// A task as its poller reaches it. Each call is one section on it.
pub trait TaskCell<B> {
    // Whether this is its runnable.
    ghost is_its: { Self → Runnable → Type 0 };

    // Whether who holds the cell polls the task.
    ghost is_polled: { Self → Bool };

    // What each section finds and leaves.
    ghost begins: { Self → Runnable → Option B → Self → Type 0 };

    ghost pends: { Self → B → AfterPoll → Self → Type 0 };

    ghost ends: { Self → Ended → AfterPoll → Self → Type 0 };

    /// Takes the body out, for a poll with this runnable. None where that is stale. The caller must have a runnable of
    /// this task.
    fn begin(&mut self, runnable: Runnable) -> Option<B>
        requires { is_its self.old runnable }
        ensures begun { begins self.old runnable result self.new }
        ensures polled { OnSome result (IsTrue (is_polled self.new)) };

    /// Gives the body back: the poll ends pending. The caller must be who polls the task.
    fn pend(&mut self, body: B) -> AfterPoll
        requires { IsTrue (is_polled self.old) }
        ensures { pends self.old body result self.new };

    /// Ends the task with the poll. The caller must be who polls it.
    fn done(&mut self, how: Ended) -> AfterPoll
        requires { IsTrue (is_polled self.old) }
        ensures { ends self.old how result self.new };
}

impl<B: Drop> TaskCell<B> for Task<B> {
    ghost use Rattle.std.specs.Prelude.{◌≡◌};
    ghost use Rattle.exec_task.specs.{declared.runnable.AfterPoll.AfterPoll, Phases.is_polled as is_polled_phase, Phases.queued_body, Phases.begun, Phases.runnable_of, Phases.pended, Phases.pend_answer, Phases.over};

    ghost is_its = { λ t r. r ≡ runnable_of t };

    ghost is_polled = { λ t. is_polled_phase t.phase };

    ghost begins = { λ t r body t'. (body ≡ queued_body t.phase) × (t' ≡ record t { phase = begun t.phase }) };

    ghost pends = { λ t body a t'. (a ≡ pend_answer t) × (t' ≡ pended t body) };

    ghost ends = { λ t how a t'. (a ≡ AfterPoll.Retire t.number how) × (t' ≡ over t) };

    fn begin(&mut self, runnable: Runnable) -> Option<B> {
        Task::begin(self, runnable)
    }

    fn pend(&mut self, body: B) -> AfterPoll {
        Task::pend(self, body)
    }

    fn done(&mut self, how: Ended) -> AfterPoll {
        Task::done(self, how)
    }
}

/// Who polls tasks: what their bodies see, and how their acts are carried out.
pub trait Carrier<B, C: TaskCell<B>>: Around {
    // What carrying out finds, answers and leaves.
    ghost carries: { Self → C → Asked B → Option Said → Self → C → Type 0 };

    /// Carries out what the poll of this task asks, and answers what the body is told. Nothing
    /// where the poll ends pending; then the next poll of the task begins with `Resume`. The caller
    /// must be who polls the task.
    fn carry_out(&mut self, cell: &mut C, asked: Asked<B>) -> Option<Said>
        requires { IsTrue (C.is_polled cell.old) }
        ensures carried { carries self.old cell.old asked result self.new cell.new }
        ensures polled { IsTrue (C.is_polled cell.new) };
}

/// What one turn of a poll came to.
#[derive(Debug, Drop)]
pub enum Turn {
    /// The body is through.
    Through(Ended),
    /// The poll ends pending.
    Waits,
    /// The body is told this, and goes on.
    Told(Said),
}

// One turn: the body makes its next act, and the act is carried out. Without memory who polls gets back what it was told.
fn take_turn<B: Body + Drop, C: TaskCell<B>, W: Carrier<B, C>>(
    alloc: Global,
    body: &mut B,
    cell: &mut C,
    worker: &mut W,
    said: Said,
) -> Turn
    requires { IsTrue (C.is_polled cell.old) }
    ensures turns { Turns (StepsTo B.left B.gives W.sees) W.carries (record { worker = worker.old; cell = cell.old; body = body.old }) said result (record { worker = worker.new; cell = cell.new; body = body.new }) }
    ensures polled { IsTrue (C.is_polled cell.new) }
{
    let asked = match body.step(alloc, worker, said) {
        Ok(Act::Done(outcome)) => return Turn::Through(Ended::Done(outcome)),
        Ok(Act::Fault(code)) => return Turn::Through(Ended::Fault(code)),
        Ok(act) => Asked::CarryOut(act),
        Err(untold) => Asked::NoMemory(untold),
    };
    match worker.carry_out(cell, asked) {
        Some(told) => Turn::Told(told),
        None => Turn::Waits,
    }
}

// Turn by turn, until the poll ends.
fn run<B: Body + Drop, C: TaskCell<B>, W: Carrier<B, C>>(
    alloc: Global,
    mut body: B,
    cell: &mut C,
    worker: &mut W,
    first: Said,
) -> AfterPoll
    requires { IsTrue (C.is_polled cell.old) }
    ensures { Polls (StepsTo B.left B.gives W.sees) W.carries C.pends C.ends (2 ^ 64 - 1) (record { worker = worker.old; cell = cell.old; body = body }) first result worker.new cell.new }
{
    let mut said = first;
    for _ in 0..u64::MAX {
        match take_turn(alloc, &mut body, cell, worker, said) {
            Turn::Through(how) => return cell.done(how),
            Turn::Waits => return cell.pend(body),
            Turn::Told(told) => said = told,
        }
    }
    cell.done(Ended::Closed)
}

impl Runnable {
    /// Polls its task once: begins the poll, steps the body and carries out its acts until the poll ends, and ends it.
    /// `owner` is the identity of the task set (`Tasks::id`), `cell` the task, and `worker` is who polls: what the body
    /// sees, and how its acts are carried out. The caller must have the runnable of this task, which belongs to this
    /// set. A stale one is discarded. It takes no memory but for the body's acts; where a body gets none for an act,
    /// `worker` is handed what the body was told (`Asked::NoMemory`). A poll ends after at most 2^64 - 1 steps of its body; the task is then ended as
    /// if it had been cleared.
    pub fn poll<B: Body + Drop, C: TaskCell<B>, W: Carrier<B, C>>(
        self,
        alloc: Global,
        owner: u64,
        cell: &mut C,
        worker: &mut W,
    ) -> AfterPoll
        requires its { C.is_its cell.old self }
        requires owner { self.owner ≡ owner }
        ensures { PollsTask (StepsTo B.left B.gives W.sees) W.carries C.pends C.ends C.begins self cell.old worker.old result worker.new cell.new }
    {
        let _owner = owner;
        let Some(body) = cell.begin(self) else {
            return AfterPoll::Done;
        };
        match worker.carry_out(cell, Asked::Resume) {
            Some(told) => run(alloc, body, cell, worker, told),
            None => cell.pend(body),
        }
    }
}
