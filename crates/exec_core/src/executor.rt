//! One executor as one value, and what stands around a step: whether it may be taken, and what became of it.
//!
//! A step that gets no memory leaves all that can be seen as it was, but the executor is spent by it: no step may follow.

ghost use Rattle.std.specs.Prelude.{◌≡◌, ◌+◌, ◌<◌, true, false, length, slice_get, slice_set, slice_index_or, IfOk, OnOk, OnErr};
ghost use Rattle.exec_machine.specs.{Callers.is_enabled, Progress.Plan};
ghost use Rattle.exec_moves.specs.Plays.{Playing, first_playing};
ghost use Rattle.exec_parts.specs.declared.parts.worker.Worker.{Worker as Party};
ghost use Rattle.exec_invariants.specs.{Acting.PerformsAll, Sound.Sound, Whole.{IsWhole, Profile}};
ghost use Rattle.exec_core.specs.{Configs.configuration_of as configuration_told, Lift.{world, CanBeAsked, Stands, IsReady, Shows, Applies, Calls, Carries, Keeps, Takes, IsPlanOf, IsAsBefore, WorkerSteps, WorkerStays, Sees, EndsPoll, Lands, may_take}, Ranges.is_in_range, Steady.{IsPacedThere, IsSteadyThere}};

use crate::config::Config;
use crate::setting_up::{configuration_of, first_shared, first_workers};
use exec_base::limits::LAST_MOMENT;
use exec_machine::event::{Event, Line, StepResult};
use exec_machine::step::{Action, CALLERS};
use exec_outcomes::outcome::OpResult;
use exec_parts::parts::nursery::Nursery;
use exec_parts::parts::shared::Shared;
use exec_parts::parts::worker::Worker;
use exec_parts::scripted::Scripted;
use exec_polling::caller::Caller;
use exec_serving::lines;
use exec_steps::step::step;
use std::alloc::{AllocError, Global};

/// One executor: its workers, and what they share.
#[derive(Drop)]
pub struct Core<B> {
    workers: Vec<Worker>,
    shared: Shared<B>,
    // The outside callers, by number.
    callers: Vec<Caller>,
    // Whether a step got no memory.
    spent: bool,
}

impl<B: Scripted + Drop> Core<B> {
    /// An executor whose workers' roots run these bodies, with so many open files and sockets, where so many looks of a
    /// spinning worker take a microsecond. An `Err` comes only for want of memory. The caller must have a configuration
    /// whose parts are in their ranges, as many bodies as workers, and a plan that the bodies begin.
    #[tactic(auto, using(crate::proofs::Beginning::in_range))]
    pub fn new(
        alloc: Global,
        config: &Config,
        iters_per_us: u64,
        files: usize,
        sockets: usize,
        roots: Vec<B>,
    ) -> Result<Self, AllocError>
        requires config { is_in_range (configuration_told config.now iters_per_us files sockets) ≡ true }
        requires plan { (p : Plan) × IsPlanOf B.left B.runs B.holds B.spot p (configuration_told config.now iters_per_us files sockets) roots.items }
        ensures begins { IfOk result (λ core. (p : Plan) → IsPlanOf B.left B.runs B.holds B.spot p (configuration_told config.now iters_per_us files sockets) roots.items →
            Shows B.left B.runs B.holds B.spot p core (first_playing p)) }
        ensures ready { IfOk result (λ core. (p : Plan) → IsPlanOf B.left B.runs B.holds B.spot p (configuration_told config.now iters_per_us files sockets) roots.items →
            IsReady B.left B.runs B.holds p core) }
        ensures asked { IfOk result (λ core. CanBeAsked core) }
        ensures rests { OnOk result ((p : Plan) → IsPlanOf B.left B.runs B.holds B.spot p (configuration_told config.now iters_per_us files sockets) roots.items →
            IsSteadyThere p.config (first_playing p)) }
        ensures paced { OnOk result ((p : Plan) → IsPlanOf B.left B.runs B.holds B.spot p (configuration_told config.now iters_per_us files sockets) roots.items →
            IsPacedThere 0 p.config (first_playing p)) }
    {
        let configuration = configuration_of(config, iters_per_us, files, sockets);
        let (mut shared, runnables) = first_shared(alloc, configuration, roots)?;
        let workers = first_workers(alloc, &configuration, runnables, &mut shared.store)?;
        let mut callers = Vec::with_capacity(alloc, CALLERS)?;
        for _ in 0..CALLERS {
            callers.push_reserved(Caller::new());
        }
        Ok(Core {
            workers,
            shared,
            callers,
            spent: false,
        })
    }

    /// Whether a step got no memory, so that none may follow.
    pub fn is_spent(&self) -> bool
        ensures { result ≡ self.now.spent }
    {
        self.spent
    }

    /// Whether the step may be taken. It can be asked of each executor that `new` or `apply` left, also of a spent one, which
    /// answers as before the step that got no memory.
    #[tactic(auto, using(crate::proofs::Applying::enabled_as))]
    pub fn enabled(&self, action: Action) -> bool
        requires asked { CanBeAsked self.now }
        ensures enabled { (p : Plan) → result ≡ is_enabled (world B.left B.spot p self.now).common action }
    {
        self.may_take(action)
    }

    /// The same, by what is shared.
    #[tactic(auto, using(crate::proofs::Taking::item_there, crate::proofs::Taking::item_missing))]
    fn may_take(&self, action: Action) -> bool
        requires asked { CanBeAsked self.now }
        ensures { result ≡ may_take self.now action }
    {
        let seats = &self.shared.seats;
        let callers = &self.callers;
        match action {
            // Who has left the pool is held at the shutdown barrier until all have.
            Action::Work { worker } => seats.get(worker).is_some_and(|seat| {
                seat.is_awake()
                    && !seat.has_ended()
                    && !(seat.pool && seat.left && !self.shared.all_left())
            }),
            Action::Clock { by } => self.shared.clock.saturating_add(by) <= LAST_MOMENT,
            Action::Land { request, result } => {
                let requests = &self.shared.requests;
                requests.get(request).is_some_and(|it| it.may_land(result))
            }
            Action::Stir { worker } => seats.get(worker).is_some_and(|seat| !seat.is_awake()),
            Action::SetBusy { worker } | Action::EndPoll { worker } => {
                seats.get(worker).is_some_and(|seat| !seat.has_ended())
            }
            Action::Peer { listener } => listener < self.shared.listeners.len(),
            Action::Spawn { caller, .. } => callers.get(caller).is_some_and(|it| it.is_free()),
            Action::Wake { caller, task } => {
                callers.get(caller).is_some_and(|it| it.is_free()) && task < self.shared.tasks.len()
            }
            Action::GoOn { caller } => callers.get(caller).is_some_and(|it| !it.is_free()),
        }
    }

    /// Takes the step if it may be taken, and answers its line. A caller's spawn carries the body of the task. An `Err`
    /// comes only of a step that may be taken, for want of memory or where a number is at its end: of tasks, workers,
    /// requests or sleepers (below 2^32), or of the peers of a listener (below 2^64). After an `Err` the executor stands as
    /// before the step, and is spent. The caller must know that it isn't spent, and that its bodies perform a plan, in
    /// which the body that is carried begins the script of that number.
    #[tactic(auto, using(crate::proofs::Taking::asked))]
    pub fn apply(
        &mut self,
        alloc: Global,
        action: Action,
        body: Option<B>,
    ) -> Result<Line, AllocError>
        requires ready { (p : Plan) × IsReady B.left B.runs B.holds p self.old × Carries B.left B.runs B.holds B.spot B.name_of p action body }
        ensures applies { IfOk result (λ line. (p : Plan) (x : Playing) → Shows B.left B.runs B.holds B.spot p self.old x → Carries B.left B.runs B.holds B.spot B.name_of p action body →
            Applies B.left B.runs B.holds B.spot p x action line self.new) }
        ensures ready { OnOk result ((p : Plan) → IsReady B.left B.runs B.holds p self.old → Carries B.left B.runs B.holds B.spot B.name_of p action body → IsReady B.left B.runs B.holds p self.new) }
        ensures asked { CanBeAsked self.new }
        ensures wants { OnErr result ((p : Plan) → is_enabled (world B.left B.spot p self.old).common action ≡ true) }
        ensures same { OnErr result (IsAsBefore B.left B.spot self.old self.new) }
        ensures spent { OnErr result (self.new.spent ≡ true) }
    {
        if !self.may_take(action) {
            return Ok(Line {
                action,
                said: StepResult::Refused,
            });
        }
        let event = self.take(alloc, action, body)?;
        Ok(Line {
            action,
            said: StepResult::Did(event),
        })
    }

    /// Takes a step that may be taken. Without memory for it the executor is spent.
    #[tactic(auto, using(crate::proofs::Taking::lines_taken))]
    fn take(&mut self, alloc: Global, action: Action, body: Option<B>) -> Result<Event, AllocError>
        requires ready { (p : Plan) × IsReady B.left B.runs B.holds p self.old × Carries B.left B.runs B.holds B.spot B.name_of p action body }
        requires enabled { may_take self.old action ≡ true }
        ensures takes { IfOk result (λ event. (p : Plan) → self.old.shared.config ≡ p.config → PerformsAll B.left B.runs B.holds p self.old.shared → Takes B.left B.spot p self.old action event self.new) }
        ensures keeps { OnOk result (Keeps B.left B.runs B.holds B.spot B.name_of action body self.old self.new) }
        ensures stands { OnOk result (Stands self.new × (self.new.spent ≡ false)) }
        ensures same { OnErr result (IsAsBefore B.left B.spot self.old self.new) }
        ensures spent { OnErr result (self.new.spent ≡ true) }
    {
        match action {
            Action::Work { worker } => self.work(alloc, worker),
            Action::Clock { by } => Ok(lines::move_clock(&mut self.shared, by)),
            Action::Land { request, result } => Ok(self.land(request, result)),
            Action::Stir { worker } => Ok(lines::stir(&mut self.shared, worker)),
            Action::SetBusy { worker } => Ok(self.set_busy(worker)),
            Action::EndPoll { worker } => Ok(self.end_poll(worker)),
            Action::Peer { listener } => self.bring_peer(listener),
            Action::Spawn { caller, script } => self.spawn(alloc, caller, script, body),
            Action::Wake { caller, task } => Ok(self.wake(caller, task)),
            Action::GoOn { caller } => Ok(self.go_on(caller)),
        }
    }

    /// A caller begins to spawn a task of this body. Without memory for it the executor is spent.
    #[tactic(auto, using(crate::proofs::Taking::caller_read))]
    fn spawn(
        &mut self,
        alloc: Global,
        caller: usize,
        script: usize,
        body: Option<B>,
    ) -> Result<Event, AllocError>
        requires ready { (p : Plan) × IsReady B.left B.runs B.holds p self.old × Carries B.left B.runs B.holds B.spot B.name_of p (Action.Spawn caller script) body }
        requires enabled { may_take self.old (Action.Spawn caller script) ≡ true }
        ensures calls { IfOk result (λ event. Calls B.left B.spot (Action.Spawn caller script) caller self.old event self.new) }
        ensures keeps { OnOk result (Keeps B.left B.runs B.holds B.spot B.name_of (Action.Spawn caller script) body self.old self.new) }
        ensures same { OnErr result (IsAsBefore B.left B.spot self.old self.new) }
        ensures spent { OnErr result (self.new.spent ≡ true) }
    {
        let Some(body) = body else { unreachable!() };
        let spawned = self.callers[caller].spawn(alloc, body, &mut self.shared);
        self.spent = spawned.is_err();
        spawned
    }

    /// A caller begins to wake a task.
    #[tactic(auto, using(crate::proofs::Taking::caller_read))]
    fn wake(&mut self, caller: usize, task: usize) -> Event
        requires stands { Stands self.old }
        requires enabled { may_take self.old (Action.Wake caller task) ≡ true }
        ensures calls { Calls B.left B.spot (Action.Wake caller task) caller self.old result self.new }
    {
        self.callers[caller].wake(task, &mut self.shared)
    }

    /// A caller goes on with its call.
    #[tactic(auto, using(crate::proofs::Taking::caller_read))]
    fn go_on(&mut self, caller: usize) -> Event
        requires stands { Stands self.old }
        requires enabled { may_take self.old (Action.GoOn caller) ≡ true }
        ensures calls { Calls B.left B.spot (Action.GoOn caller) caller self.old result self.new }
    {
        self.callers[caller].go_on(&mut self.shared)
    }

    /// A step of this worker, which may take one. Without memory for it the executor is spent.
    #[tactic(auto, using(crate::proofs::Taking::worker_read, crate::proofs::Lifting::owned, crate::proofs::Lifting::asleep))]
    fn work(&mut self, alloc: Global, worker: usize) -> Result<Event, AllocError>
        requires ready { (p : Plan) × IsReady B.left B.runs B.holds p self.old }
        requires enabled { may_take self.old (Action.Work worker) ≡ true }
        ensures steps { IfOk result (λ event. WorkerSteps B.left B.runs B.holds B.spot worker self.old event self.new) }
        ensures stays { OnErr result (WorkerStays B.left B.spot worker self.old self.new) }
        ensures spent { OnErr result (self.new.spent ≡ true) }
    {
        let mut nursery = Nursery::new(self.workers.reserve(1).is_ok());
        let stepped = step(
            &mut self.workers[worker],
            alloc,
            &mut self.shared,
            &mut nursery,
        );
        self.spent = stepped.is_err();
        let Nursery { has_room: _, born } = nursery;
        if let Some(born) = born {
            self.workers.push_reserved(born);
        }
        stepped
    }

    /// The operation of a request, which the kernel has, lands with this result.
    fn land(&mut self, request: usize, given: OpResult) -> Event
        requires stands { Stands self.old }
        requires enabled { may_take self.old (Action.Land request given) ≡ true }
        ensures event { result ≡ Event.Land }
        ensures lands { Lands B.left B.spot request given self.old self.new }
    {
        let worker = self.shared.requests[request].shown.worker;
        lines::land(&mut self.workers[worker], request, given, &mut self.shared)
    }

    /// The next enter of the ring of this worker takes nothing.
    fn set_busy(&mut self, worker: usize) -> Event
        requires stands { Stands self.old }
        requires enabled { may_take self.old (Action.SetBusy worker) ≡ true }
        ensures event { result ≡ Event.Set }
        ensures sees { Sees worker (λ seen. record seen { busy = true }) self.old self.new }
    {
        lines::set_busy(&mut self.workers[worker], &self.shared)
    }

    /// The next wake completion of the ring of this worker ends its wake poll.
    fn end_poll(&mut self, worker: usize) -> Event
        requires stands { Stands self.old }
        requires enabled { may_take self.old (Action.EndPoll worker) ≡ true }
        ensures event { result ≡ Event.Set }
        ensures ends { EndsPoll B.left B.spot worker self.old self.new }
    {
        lines::end_poll(&mut self.workers[worker], &mut self.shared)
    }

    /// A peer comes to this listener. Where it can't be counted the executor is spent.
    fn bring_peer(&mut self, listener: usize) -> Result<Event, AllocError>
        requires there { listener < length self.old.shared.listeners.items }
        ensures event { IfOk result (λ event. event ≡ Event.Peer) }
        ensures one_more { OnOk result (self.new.shared.listeners.items ≡ slice_set self.old.shared.listeners.items listener (slice_index_or self.old.shared.listeners.items listener 0 + 1)) }
        ensures workers { self.new.workers ≡ self.old.workers }
        ensures callers { self.new.callers ≡ self.old.callers }
        ensures listeners { self.new.shared ≡ record self.old.shared { listeners = self.new.shared.listeners } }
        ensures same { OnErr result (self.new.shared ≡ self.old.shared) }
        ensures spent { OnErr result (self.new.spent ≡ true) }
        ensures unspent { OnOk result (self.new.spent ≡ false) }
        ensures sound { (w : Party) → Sound w self.old.shared → Sound w self.new.shared }
        ensures whole { (x : Profile) → IsWhole x self.old.shared → IsWhole x self.new.shared }
    {
        let came = lines::bring_peer(&mut self.shared, listener);
        self.spent = came.is_err();
        came
    }
}
