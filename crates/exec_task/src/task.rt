//! A task: its number, and its phase with its body.
//!
//! The phases, and who moves them:
//!
//! | From | To | Who |
//! |---|---|---|
//! | Idle | Queued | a wake, which publishes a runnable |
//! | Running | Notified | a wake: a poll that ends pending requeues its runnable |
//! | Queued, Notified, Complete | the same | a wake does nothing more |
//! | Queued | Running | who polls, with the runnable (`begin`) |
//! | Running | Idle | the poll that ends pending (`pend`) |
//! | Notified | Queued | the same, which requeues its runnable |
//! | Running, Notified | Complete | the poll whose body is through (`done`), and `pend` of a cleared task |
//! | Idle, Queued | Complete | `clear`, which hands the body out |
//! | Running, Notified | the same, and cancelled | `clear`: the poll then ends the task |
//!
//! A phase has the body exactly where nobody polls it, so two workers can't: the type says so. The
//! cancelled flag stands only while the task is polled (the invariant). A live worker puts each
//! task under a lock of its own, and makes each call here one section on it.

ghost use Rattle.std.specs.Prelude.{◌≡◌, IsTrue, if◌then◌else◌, Some, None, false};
ghost use Rattle.exec_task.specs.{Phases.{Task, is_polled, is_idle, body_of, queued_body, begun, runnable_of, woken, pended, pend_answer, over, cleared}, declared.{task.Phase.Phase, runnable.AfterPoll.AfterPoll}};

use crate::body::Ended;
use crate::runnable::{AfterPoll, Runnable};
use exec_base::task_no::TaskNo;
use std::marker::Model;
use std::mem;

/// Where a task stands. It has the body where nobody polls it, and it isn't over.
#[derive(Drop)]
pub enum Phase<B> {
    /// It waits for a wake, and has no runnable.
    Idle(B),
    /// Its runnable waits to poll it.
    Queued(B),
    /// Who has its runnable polls it.
    Running,
    /// It is polled, and was woken meanwhile.
    Notified,
    /// It is over.
    Complete,
}

/// A task: its number, the identity of the set that it belongs to, and where it stands. Ports the cell behind `Task`.
#[derive(Drop)]
pub struct Task<B> {
    number: TaskNo,
    owner: u64,
    phase: Phase<B>,
    // Whether it was cleared while it is polled.
    cancelled: bool,
}

impl<B> Model for Task<B> {
    ghost use Rattle.std.specs.Prelude.{IsTrue};
    ghost use Rattle.exec_task.specs.Phases.{Task as Stand, is_polled};

    ghost Value = { Stand B };

    ghost view = { λ t. record { number = t.number; owner = t.owner; phase = t.phase; cancelled = t.cancelled } };

    ghost invariant = { λ t. IsTrue t.cancelled → IsTrue (is_polled t.phase) };
}

impl<B: Drop> Phase<B> {
    // The body that waits to be polled; everything else stays.
    fn begin(&mut self) -> Option<B>
        ensures body { result ≡ queued_body self.old }
        ensures begun { self.new ≡ begun self.old }
    {
        match mem::replace(self, Phase::Running) {
            Phase::Queued(body) => Some(body),
            other => {
                *self = other;
                None
            }
        }
    }

    // Queues an idle body. Answers whether it did.
    fn queue(&mut self) -> bool
        ensures idle { result ≡ is_idle self.old }
        ensures woken { self.new ≡ woken self.old }
    {
        match mem::replace(self, Phase::Notified) {
            Phase::Idle(body) => {
                *self = Phase::Queued(body);
                return true;
            }
            Phase::Running => {}
            other => *self = other,
        }
        false
    }

    fn is_polled(&self) -> bool
        ensures { result ≡ is_polled self.now }
    {
        matches!(self, Phase::Running | Phase::Notified)
    }
}

impl<B: Drop> Task<B> {
    /// A new task of this number and task set, with its first poll queued, and its first runnable.
    pub fn new(number: TaskNo, owner: u64, body: B) -> (Self, Runnable)
        ensures task { result.0 ≡ record { number = number; owner = owner; phase = Phase.Queued body; cancelled = false } }
        ensures runnable { result.1 ≡ runnable_of result.0 }
    {
        let task = Task {
            number,
            owner,
            phase: Phase::Queued(body),
            cancelled: false,
        };
        (task, Runnable::new(number, owner))
    }

    /// Its number.
    pub fn number(&self) -> TaskNo
        ensures { result ≡ self.now.number }
    {
        self.number
    }

    /// The identity of the task set that it belongs to.
    pub fn owner(&self) -> u64
        ensures { result ≡ self.now.owner }
    {
        self.owner
    }

    /// Where it stands.
    pub fn phase(&self) -> &Phase<B>
        ensures { result.now ≡ self.now.phase }
    {
        &self.phase
    }

    /// Whether it was cleared in the poll that runs.
    pub fn is_cancelled(&self) -> bool
        ensures { result ≡ self.now.cancelled }
    {
        self.cancelled
    }

    /// A wake. Answers the runnable of a task that was idle; a task that is polled remembers the wake.
    pub fn wake(&mut self) -> Option<Runnable>
        ensures runnable { result ≡ (if is_idle self.old.phase then Some (runnable_of self.old) else None) }
        ensures woken { self.new ≡ record self.old { phase = woken self.old.phase } }
    {
        if self.phase.queue() {
            Some(Runnable::new(self.number, self.owner))
        } else {
            None
        }
    }

    /// Begins a poll with the task's runnable, and hands the body out. None where the runnable is stale: the task was
    /// cleared; it is discarded then, and nothing changes. The caller must have taken the runnable of this very task.
    pub fn begin(&mut self, runnable: Runnable) -> Option<B>
        requires { runnable ≡ runnable_of self.old }
        ensures body { result ≡ queued_body self.old.phase }
        ensures begun { self.new ≡ record self.old { phase = begun self.old.phase } }
    {
        runnable.discard();
        self.phase.begin()
    }

    /// Ends a poll that is pending, and takes the body back. A task that was woken meanwhile is queued again, and its
    /// runnable comes back. One that was cleared meanwhile is over. The caller must be who polls the task.
    pub fn pend(&mut self, body: B) -> AfterPoll
        requires { IsTrue (is_polled self.old.phase) }
        ensures answer { result ≡ pend_answer self.old }
        ensures pended { self.new ≡ pended self.old body }
    {
        if self.cancelled {
            return self.done(Ended::Closed);
        }
        if matches!(self.phase, Phase::Running) {
            self.phase = Phase::Idle(body);
            return AfterPoll::Done;
        }
        self.phase = Phase::Queued(body);
        AfterPoll::Requeue(Runnable::new(self.number, self.owner))
    }

    /// Ends a poll whose body is through, or is cleared: the task is over, and has to leave its
    /// set. The caller must be who polls the task.
    pub fn done(&mut self, how: Ended) -> AfterPoll
        requires { IsTrue (is_polled self.old.phase) }
        ensures answer { result ≡ AfterPoll.Retire self.old.number how }
        ensures over { self.new ≡ over self.old }
    {
        self.phase = Phase::Complete;
        self.cancelled = false;
        AfterPoll::Retire(self.number, how)
    }

    /// Clears the task, as the closed task set does. Where nobody polls it, it is over, and its
    /// body comes out. A poll that runs ends it, even a pending one. A task that is over stays.
    pub fn clear(&mut self) -> Option<B>
        ensures body { result ≡ body_of self.old.phase }
        ensures cleared { self.new ≡ cleared self.old }
    {
        if self.phase.is_polled() {
            self.cancelled = true;
            return None;
        }
        match mem::replace(&mut self.phase, Phase::Complete) {
            Phase::Idle(body) | Phase::Queued(body) => Some(body),
            _ => None,
        }
    }
}
