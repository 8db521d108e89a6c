//! The right to poll a task once.
//!
//! A runnable comes from the making of its task, or from a wake that finds the task idle; a poll that ends pending
//! after a wake gives its own back. It can't be copied, so a task has at most one, in a queue, in a hand or in a
//! running poll. Who has it hands it to a queue (`schedule`, `spawn`), polls its task with it, or discards it. That of
//! a task that was cleared meanwhile is stale: its poll does nothing. It may be dropped, so that queues which hold it
//! may be; a lost one leaves its task queued for good.

ghost use Rattle.std.specs.Prelude.{◌≡◌, MatchBool};
ghost use Rattle.exec_task.specs.Phases.{Spawns};

use crate::body::Ended;
use crate::place::Place;
use exec_base::task_no::TaskNo;

/// The right to poll a task once. Ports `Runnable`.
#[must_use]
#[derive(Debug, Drop)]
pub struct Runnable {
    task: TaskNo,
    owner: u64,
}

/// What is left to do for who polled a task.
#[must_use]
#[derive(Debug, Drop)]
pub enum AfterPoll {
    /// Nothing. The poll ended pending with no wake in it, or the runnable was stale.
    Done,
    /// Queue the runnable again: a wake came during the poll.
    Requeue(Runnable),
    /// Remove the task of this number from its set: it has ended so.
    Retire(TaskNo, Ended),
}

impl Runnable {
    // The runnable of this task. Only a task makes it.
    pub(crate) fn new(task: TaskNo, owner: u64) -> Self
        ensures { result ≡ record { task = task; owner = owner } }
    {
        Runnable { task, owner }
    }

    /// The number of its task.
    pub fn task(&self) -> TaskNo
        ensures { result ≡ self.now.task }
    {
        self.task
    }

    /// The identity of the task set that its task belongs to.
    pub fn owner(&self) -> u64
        ensures { result ≡ self.now.owner }
    {
        self.owner
    }

    /// Hands a woken task's runnable on: into the run queue of the worker at hand, where that
    /// serves the task's set, and else into the global queue. A closed global queue discards it.
    pub fn schedule<P: Place>(self, place: &mut P)
        ensures { MatchBool (P.serving place.old self.owner) (P.enqueues place.old self place.new) (P.pushes place.old self place.new) }
    {
        if place.serves(self.owner) {
            place.enqueue(self);
        } else {
            self.push_global(place);
        }
    }

    /// Hands a new task's first runnable on: the worker at hand keeps it where it serves the task's
    /// set, and has nothing else queued or is the only worker. Else it goes into the global queue,
    /// so that another worker may start it. A closed global queue discards it.
    pub fn spawn<P: Place>(self, place: &mut P)
        ensures { Spawns P.serving P.shows_empty P.workers_of P.enqueues P.pushes place.old self place.new }
    {
        let is_empty = place.is_empty();
        let is_kept = is_empty || place.workers() == 1;
        if place.serves(self.owner) && is_kept {
            place.enqueue(self);
        } else {
            self.push_global(place);
        }
    }

    fn push_global<P: Place>(self, place: &mut P)
        ensures { P.pushes place.old self place.new }
    {
        if let Err(runnable) = place.push(self) {
            runnable.discard();
        }
    }

    /// Lets the runnable go. The caller must know that its task is over, or that the closed task
    /// set, or who was handed the task back, clears it.
    pub fn discard(self) {}
}
