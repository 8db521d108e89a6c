//! Tests of registrations as tables: each step is a call on one registration with what has to come of it.

use crate::desk::{Awaited, Desk, name};
use crate::found::{holds, same};
use exec_base::error::{Cause, Error};
use exec_base::one_shot::OneShot;
use exec_base::task_no::TaskNo;
use exec_opens::opens::Opens;
use exec_registration::mail::Cancel;
use exec_registration::operation::Operation;
use exec_registration::registration::{Registration, RegistrationState};
use exec_request::output::RequestOutput;
use exec_ring::store::Store;
use exec_waiters::waiter_id::WaiterId;
use std::alloc::Global;
use std::process::Abort;

/// What is done with one registration of a request of the first worker.
#[derive(Clone, Copy)]
pub struct Round<'a> {
    /// How it is made.
    pub made: Made,
    /// What is done with it.
    pub steps: &'a [Visit],
    /// Who lets it go.
    pub let_go: LetGo,
    /// What is done after that.
    pub after: &'a [Visit],
}

/// How a registration is made.
#[derive(Clone, Copy)]
pub enum Made {
    /// A readiness poll is registered at its worker.
    Listen,
    /// It is of the first request that its worker ever named, which nobody asked for.
    Invent,
    /// A closing worker refused it.
    Refuse,
}

/// Who lets a registration go.
#[derive(Clone, Copy)]
pub enum LetGo {
    /// Its worker.
    Here,
    /// Who has no worker.
    Away,
}

/// A step of a round.
#[derive(Clone, Copy)]
pub enum Visit {
    /// Its worker polls it for a task.
    Poll(u32, Heard),
    /// The other worker polls it for a task.
    PollThere(u32, Heard),
    /// Who has no worker polls it.
    PollAway(Heard),
    /// The forward that the other worker sent comes to its worker.
    Carry,
    /// The result that its worker has to send, by sender 9, comes to the one-shot.
    Send,
    /// The cancel that was sent of this request comes to its worker.
    Cancel(WaiterId),
    /// The first request is staged.
    Stage,
    /// The operation of its request fails with error number 5, and is taken in.
    Fail,
    /// Its worker closes.
    Close,
    /// The mail of its worker closes.
    CloseMail,
    /// So many places are made in its worker's mail.
    Places(usize),
    /// This task alone is to be woken.
    Wakes(u32),
    /// It is over.
    Over,
    /// It waits for the request in slot 0 of worker 0, or for nothing.
    Pending(bool),
    /// Neither worker was asked for more.
    Unasked,
    /// Whether a cancel is to be staged.
    Cancels(bool),
    /// Whether its worker has no request that is not over.
    Empty(bool),
}

/// What a poll answers.
#[derive(Clone, Copy)]
pub enum Heard {
    /// Not yet.
    Nothing,
    /// Error number 5.
    Failed,
    /// There is nothing to wait for.
    Closed,
}

/// Two workers with their mail, that share an open and a store, and where a result comes to.
#[derive(Drop)]
struct Desks {
    ours: Desk,
    theirs: Desk,
    opens: Opens,
    store: Store,
    answer: Awaited,
}

/// Plays these rounds, of which each step must answer as it says, with workers 0 and 1 of which nothing was asked. It
/// fails where memory is wanting.
pub fn play(rt: &impl Abort, alloc: Global, rounds: &[Round]) {
    let mut desks = Desks::new(rt, alloc);
    for round in rounds {
        desks.play_one(rt, alloc, round);
    }
    drop(desks);
}

impl Desks {
    fn new(rt: &impl Abort, alloc: Global) -> Self {
        let mut store = Store::new(alloc);
        let ours = Desk::new(alloc, 0, &mut store).expect(rt, "no worker");
        let theirs = Desk::new(alloc, 1, &mut store).expect(rt, "no worker");
        let opens = Opens::new(alloc, 1).expect(rt, "no memory");
        Desks {
            ours,
            theirs,
            opens,
            store,
            answer: OneShot::new(),
        }
    }

    fn play_one(&mut self, rt: &impl Abort, alloc: Global, round: &Round) {
        let mut op = self.make(rt, alloc, round.made);
        self.visit_all(rt, alloc, &mut op, round.steps);
        match round.let_go {
            LetGo::Here => self.ours.release(rt, alloc, op),
            LetGo::Away => self.ours.release_away(op),
        }
        self.take_all(rt, alloc, round.after);
    }

    fn make(&mut self, rt: &impl Abort, alloc: Global, made: Made) -> Operation {
        match made {
            Made::Listen => {
                let op = self.ours.listen(alloc, &mut self.opens, &mut self.store);
                op.expect(rt, "not registered")
            }
            Made::Invent => Registration::new(0, name(0, 0)),
            Made::Refuse => Registration::closed(),
        }
    }

    fn visit_all(&mut self, rt: &impl Abort, alloc: Global, op: &mut Operation, steps: &[Visit]) {
        for (at, step) in steps.iter().enumerate() {
            self.visit(rt, alloc, at, op, *step);
        }
    }

    fn visit(
        &mut self,
        rt: &impl Abort,
        alloc: Global,
        at: usize,
        op: &mut Operation,
        step: Visit,
    ) {
        match step {
            Visit::Poll(task, heard) => {
                let told = self.ours.poll(rt, alloc, op, task, &mut self.answer);
                hear(rt, at, told, heard);
            }
            Visit::PollThere(task, heard) => {
                let told = self.theirs.poll(rt, alloc, op, task, &mut self.answer);
                hear(rt, at, told, heard);
            }
            Visit::PollAway(heard) => {
                let told = self.ours.poll_away(op, &mut self.answer);
                hear(rt, at, told, heard);
            }
            Visit::Over => holds(rt, at, is_over(op)),
            Visit::Pending(waits) => same(rt, at, &op.pending(), &awaited(waits)),
            step => self.take(rt, alloc, at, step),
        }
    }

    fn take_all(&mut self, rt: &impl Abort, alloc: Global, steps: &[Visit]) {
        for (at, step) in steps.iter().enumerate() {
            self.take(rt, alloc, at, *step);
        }
    }

    fn take(&mut self, rt: &impl Abort, alloc: Global, at: usize, step: Visit) {
        match step {
            Visit::Carry => self.carry(rt, alloc),
            Visit::Send => self.send(rt, at),
            Visit::Cancel(id) => self.cancel(rt, alloc, at, id),
            Visit::Stage => self.ours.stage_first(rt, &self.opens),
            Visit::Fail => {
                self.ours
                    .fail_first(rt, alloc, &mut self.opens, &mut self.store);
            }
            Visit::Close => self.ours.close(),
            Visit::CloseMail => self.ours.close_mail(),
            step => self.look(rt, at, step),
        }
    }

    fn look(&self, rt: &impl Abort, at: usize, step: Visit) {
        match step {
            Visit::Places(places) => same(rt, at, &self.ours.places(), &places),
            Visit::Wakes(task) => {
                same(rt, at, &self.ours.wakes(), &[TaskNo(task)].as_slice());
            }
            Visit::Unasked => {
                holds(rt, at, self.ours.is_unasked());
                holds(rt, at, self.theirs.is_unasked());
            }
            Visit::Cancels(some) => same(rt, at, &self.ours.has_cancels(), &some),
            Visit::Empty(none) => same(rt, at, &self.ours.is_empty(), &none),
            _ => holds(rt, at, false),
        }
    }

    fn carry(&mut self, rt: &impl Abort, alloc: Global) {
        let forward = self.theirs.take_forward().expect(rt, "no forward");
        self.ours.apply(rt, alloc, forward);
    }

    fn send(&mut self, rt: &impl Abort, at: usize) {
        let told = self.ours.take_result().expect(rt, "no result");
        same(rt, at, &told.sender, &9);
        let sent = self.answer.send(told.result);
        holds(rt, at, sent.is_ok());
        drop(sent);
    }

    fn cancel(&mut self, rt: &impl Abort, alloc: Global, at: usize, id: WaiterId) {
        let sent = self.ours.take_cancel();
        same(rt, at, &sent, &Some(Cancel::Waiter(id)));
        self.ours.apply_cancel(rt, alloc, sent);
    }
}

/// The worker and the name of what a registration waits for that was made first, or nothing.
fn awaited(waits: bool) -> Option<(u32, WaiterId)> {
    if waits { Some((0, name(0, 0))) } else { None }
}

/// Whether a registration is over.
fn is_over(op: &Operation) -> bool {
    matches!(op.state(), RegistrationState::Done)
}

/// Fails unless a poll answered this.
fn hear(rt: &impl Abort, at: usize, told: Result<Option<RequestOutput>, Error>, heard: Heard) {
    holds(rt, at, is_heard(&told, heard));
    drop(told);
}

/// Whether a poll answered this.
fn is_heard(told: &Result<Option<RequestOutput>, Error>, heard: Heard) -> bool {
    match heard {
        Heard::Nothing => matches!(told, Ok(None)),
        Heard::Closed => matches!(told, Err(Error::Closed)),
        Heard::Failed => matches!(
            told,
            Ok(Some(RequestOutput::Poll(Err(Error::Io(Cause::Code(5))))))
        ),
    }
}
