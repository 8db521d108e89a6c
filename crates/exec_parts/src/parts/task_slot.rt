//! A task as the executor keeps it.
//!
//! The phase of a task and its body are its cell (`exec_task::task::Task`). A poll takes the body out of the cell; here
//! it lies beside it, until the poll gives it back or the task is over. So where a body stands in its script is seen
//! from the task at any time, whoever polls it. Beside that stands what the executor does for the task: what it holds,
//! what it waits for, and what its body is told next.
//!
//! Who polls a task acts for it; others wake it or clear it, each by one section on the cell.

ghost use Rattle.std.specs.{Prelude.{◌≡◌, ◌-◌, ◌<◌, [], ◌∷◌, ◌++◌, length, not, slice_get, take, option_to_list, is_some, Some, None, IsSome, IsTrue, IfOk, OnErr, OnOk, true, false, if◌then◌else◌}, Vec.vec_capacity};
ghost use Rattle.exec_parts.specs.{Words.{Open, begun, begun_waiting, is_idle, is_polled, over, pend_answer, pended, polled, queued_body, runnable_of, sent, woken}, Calls.heard_in, Phased.is_complete, Records.numbers_held, Pooled.cleared_slot, Polls.{Acts, pended_slot}};

use crate::parts::held::Held;
use exec_base::error::Error;
use exec_base::one_shot::OneShot;
use exec_base::task_no::TaskNo;
use exec_machine::state::Waiting;
use exec_request::output::RequestOutput;
use exec_task::body::{Act, Around, Body, Ended, Said};
use exec_task::runnable::{AfterPoll, Runnable};
use exec_task::task::{Phase, Task};
use std::alloc::{AllocError, Global};
use std::mem;

/// A task with all that is kept of it.
#[derive(Drop)]
pub struct TaskSlot<B> {
    // Its phase, with its body where nobody polls it.
    cell: Task<B>,
    // Its body, where the cell hasn't got it: somebody polls it, or it is over.
    body: Option<B>,
    // What its body is told next, where that is known. What it waits for may tell it else.
    told: Option<Said>,
    // The requests that it has neither taken nor dropped, the oldest first.
    held: Vec<Held>,
    // What it waits for.
    waiting: Waiting,
    // Where the output comes of a request of another worker that it waits for.
    output: OneShot<Result<RequestOutput, Error>>,
    // Whether its last poll began after its last wake.
    fresh: bool,
    // Whether it was cleared.
    cleared: bool,
    // The worker whose root it is.
    home: Option<usize>,
    // The worker that polls it, or polled it last.
    poller: usize,
}

impl<B: Drop> TaskSlot<B> {
    /// The task of this number with this body, to be polled for the first time, and its runnable. Where it is a root,
    /// this worker is its home.
    pub fn new(
        alloc: Global,
        number: TaskNo,
        owner: u64,
        home: Option<usize>,
        body: B,
    ) -> (Self, Runnable)
        ensures runnable { result.1 ≡ runnable_of result.0.cell }
        ensures cell { result.0.cell ≡ record { number = number; owner = owner; phase = Phase.Queued body; cancelled = false } }
        ensures held { result.0.held.items ≡ [] }
        ensures slot { result.0 ≡ record { cell = result.0.cell; body = None; told = Some Said.Start; held = result.0.held; waiting = Waiting.Nothing; output = Open; fresh = false; cleared = false; home = home; poller = 0 } }
    {
        let (cell, runnable) = Task::new(number, owner, body);
        let slot = TaskSlot {
            cell,
            body: None,
            told: Some(Said::Start),
            held: Vec::new(alloc),
            waiting: Waiting::Nothing,
            output: OneShot::new(),
            fresh: false,
            cleared: false,
            home,
            poller: 0,
        };
        (slot, runnable)
    }

    /// The worker whose root it is.
    pub fn home(&self) -> Option<usize>
        ensures { result ≡ self.now.home }
    {
        self.home
    }

    /// Its number, by which it is woken.
    pub fn number(&self) -> TaskNo
        ensures { result ≡ self.now.cell.number }
    {
        self.cell.number()
    }

    /// What it waits for.
    pub fn waiting(&self) -> Waiting
        ensures { result ≡ self.now.waiting }
    {
        self.waiting
    }

    /// The newest request that it holds.
    pub fn newest(&self) -> Option<usize>
        ensures { result ≡ slice_get (numbers_held self.now.held.items) (length (numbers_held self.now.held.items) - 1) }
    {
        Some(self.held.last()?.number)
    }

    /// Begins a poll by this worker, with the task's runnable. False where the runnable is stale, since the task was
    /// cleared; then nothing changes. A wake alone is taken by the poll, and what let others go first goes on. The
    /// caller must have the runnable of this very task.
    pub fn begin(&mut self, runnable: Runnable, worker: usize) -> bool
        requires { runnable ≡ runnable_of self.old.cell }
        ensures answer { result ≡ is_some (queued_body self.old.cell.phase) }
        ensures begun { result ≡ true → self.new ≡ record self.old { cell = record self.old.cell { phase = begun self.old.cell.phase }; body = queued_body self.old.cell.phase; waiting = begun_waiting self.old.waiting; fresh = true; poller = worker } }
        ensures same { result ≡ false → self.new ≡ self.old }
    {
        let Some(body) = self.cell.begin(runnable) else {
            return false;
        };
        self.body = Some(body);
        self.poller = worker;
        self.fresh = true;
        self.waiting = match self.waiting {
            Waiting::Wake => Waiting::Woken,
            Waiting::Yielded => Waiting::Nothing,
            other => other,
        };
        true
    }

    /// The body is told this next.
    pub fn tell(&mut self, said: Said)
        ensures { self.new ≡ record self.old { told = Some said } }
    {
        self.told = Some(said);
    }

    /// The polled task waits for this.
    pub fn wait_for(&mut self, what: Waiting)
        ensures { self.new ≡ record self.old { waiting = what } }
    {
        self.waiting = what;
    }

    /// What the polled task waited for has come, and its body is told so.
    pub fn take(&mut self, said: Said)
        ensures { self.new ≡ record self.old { waiting = Waiting.Nothing; told = Some said } }
    {
        self.waiting = Waiting::Nothing;
        self.told = Some(said);
    }

    /// Makes room for one more request that it holds. Where there is no memory all stays as it is.
    pub fn reserve(&mut self, _alloc: Global) -> Result<(), AllocError>
        ensures items { self.new.held.items ≡ self.old.held.items }
        ensures same { self.new ≡ record self.old { held = self.new.held } }
        ensures room { OnOk result (length self.new.held.items < vec_capacity self.new.held) }
    {
        self.held.reserve(1)
    }

    /// It holds one more request of this worker. The caller must have made room for it.
    pub fn hold(&mut self, number: usize, worker: usize)
        requires room { length self.old.held.items < vec_capacity self.old.held }
        ensures all { self.new.held.items ≡ self.old.held.items ++ record { number = number; worker = worker } ∷ [] }
        ensures held { numbers_held self.new.held.items ≡ numbers_held self.old.held.items ++ number ∷ [] }
        ensures same { self.new ≡ record self.old { held = self.new.held } }
    {
        self.held.push_reserved(Held { number, worker });
    }

    /// It holds the newest of its requests no more.
    pub fn let_go(&mut self) -> Option<usize>
        ensures all { self.new.held.items ≡ take (length self.old.held.items - 1) self.old.held.items }
        ensures held { numbers_held self.old.held.items ≡ numbers_held self.new.held.items ++ option_to_list result }
        ensures some { 0 < length (numbers_held self.old.held.items) → IsSome result }
        ensures same { self.new ≡ record self.old { held = self.new.held } }
    {
        Some(self.held.pop()?.number)
    }

    /// It holds no request any more. Answers those that it held.
    pub(crate) fn take_held(&mut self) -> Vec<Held>
        ensures all { result ≡ self.old.held }
        ensures none { self.new.held.items ≡ [] }
        ensures same { self.new ≡ record self.old { held = self.new.held } }
    {
        let none = Vec::new(*self.held.allocator());
        mem::replace(&mut self.held, none)
    }

    /// Whether it is over.
    pub fn is_over(&self) -> bool
        ensures { result ≡ is_complete self.now.cell.phase }
    {
        matches!(self.cell.phase(), Phase::Complete)
    }

    /// The polled task waits for this request of another worker, whose output will be sent.
    pub fn await_output(&mut self, request: usize)
        ensures { self.new ≡ record self.old { waiting = Waiting.Request request; output = Open } }
    {
        self.waiting = Waiting::Request(request);
        self.output = OneShot::new();
    }

    /// Sends it the output that it waits for. Answers whether it isn't over, and so takes that.
    pub fn send_output(&mut self, output: Result<RequestOutput, Error>) -> bool
        ensures hears { result ≡ not (is_complete self.old.cell.phase) }
        ensures sent { self.new ≡ record self.old { output = sent self.old.output output } }
    {
        drop(self.output.send(output));
        !self.is_over()
    }

    /// Takes the output that was sent. None where none was sent yet, `Closed` where none will be.
    pub fn hear_output(&mut self) -> Option<Result<RequestOutput, Error>>
        ensures heard { result ≡ heard_in self.old.output }
        ensures polled { self.new ≡ record self.old { output = polled self.old.output } }
    {
        self.output.poll().unwrap_or_else(|error| Some(Err(error)))
    }

    /// Wakes it. Answers its runnable where it was idle; a task that is polled remembers the wake.
    pub fn wake(&mut self) -> Option<Runnable>
        ensures runnable { result ≡ (if is_idle self.old.cell.phase then Some (runnable_of self.old.cell) else None) }
        ensures woken { self.new ≡ record self.old { fresh = false; cell = record self.old.cell { phase = woken self.old.cell.phase } } }
    {
        self.fresh = false;
        self.cell.wake()
    }

    /// Ends a poll that waits. A task that was woken meanwhile is queued again, and its runnable comes back; one that
    /// was cleared meanwhile is over, and keeps its body, which shows where it stood. The caller must be who polls it,
    /// and know that the slot has the body, and says as the task does whether it was cleared.
    pub fn pend(&mut self) -> AfterPoll
        requires polled { IsTrue (is_polled self.old.cell.phase) }
        requires body { IsSome self.old.body }
        requires agrees { self.old.cell.cancelled ≡ self.old.cleared }
        ensures answer { result ≡ pend_answer self.old.cell }
        ensures pended { self.new ≡ pended_slot self.old }
    {
        if self.cleared {
            return self.cell.done(Ended::Closed);
        }
        self.cell.pend(self.body.take().unwrap())
    }

    /// Clears it. Where nobody polls it, it is over, and its body stays, which shows where it stood.
    pub fn clear(&mut self)
        ensures { self.new ≡ cleared_slot self.old }
    {
        self.cleared = true;
        if let Some(body) = self.cell.clear() {
            self.body = Some(body);
        }
    }

    /// Ends it with the poll. The caller must be who polls it.
    pub fn done(&mut self, how: Ended) -> AfterPoll
        requires polled { IsTrue (is_polled self.old.cell.phase) }
        ensures answer { result ≡ AfterPoll.Retire self.old.cell.number how }
        ensures over { self.new ≡ record self.old { cell = over self.old.cell } }
    {
        self.cell.done(how)
    }
}

impl<B: Body + Drop> TaskSlot<B> {
    /// The next act of the body of a polled task, which hears what it is told. Where the act wants memory and there is
    /// none, all is as before. The caller must know that the slot has the body, and what that is told.
    pub fn step<A: Around>(&mut self, alloc: Global, around: &mut A) -> Result<Act<B>, AllocError>
        requires told { IsSome self.old.told }
        requires body { IsSome self.old.body }
        ensures acts { IfOk result (λ act. Acts B.left B.gives self.old self.new (A.sees around.old) (A.sees around.new) act) }
        ensures kept { OnErr result (self.new ≡ self.old) }
        ensures seen { OnErr result (A.sees around.new ≡ A.sees around.old) }
    {
        let said = self.told.take().unwrap();
        let body = self.body.as_mut().unwrap();
        match body.step(alloc, around, said) {
            Ok(act) => Ok(act),
            Err(said) => {
                // Let go by a call, so that its drop is proved once (docs/DECISIONS.md, 49).
                drop(self.told.replace(said));
                Err(AllocError)
            }
        }
    }
}
