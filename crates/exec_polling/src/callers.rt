//! The steps of an outside caller, which spawns or wakes a task.
//!
//! It has no run queue, so what it queues goes into the global queue, and it claims and signals a worker as a worker
//! does. Its call is over by a step of its own.

ghost use Rattle.std.specs.Prelude.{◌≡◌, ◌+◌, ◌-◌, ◌^◌, ◌<◌, ◌++◌, true, false, length, option_to_list, None, IfOk, OnErr, IsSome, if◌then◌else◌};
ghost use Rattle.exec_words.specs.{Global.spare_places, Idle.lowest_of};
ghost use Rattle.exec_moves.specs.{Call.after_claim, Claim.{claimed, idle_after}};
ghost use Rattle.exec_parts.specs.{MailPosts.HaveMailboxes, Phased.TurnsChair, Polls.OfSlot, Pooled.{chair_latched, chair_raised, chair_sent, event_rousing, event_sent, HasPlaceFor, OfChair, SameButRoom, woken_slot}, Things.TurnsSlot};
ghost use Rattle.exec_polling.specs.Calling.{CallSound, CallSteps, HasCallWhole, SpawnsByCall, WakesByCall, is_free, place_after_append, place_by_count, place_by_mail, place_by_set, place_by_word, with_woken, StillPerformsWith};

use crate::caller::Caller;
use exec_machine::event::Event;
use exec_machine::state::MailMessage;
use exec_moves::handing::{CallPlace, InGlobal, InSignal};
use exec_parts::claim::{Claimed, claim};
use exec_parts::parts::shared::Shared;
use exec_parts::scripted::Scripted;
use exec_parts::signal::{mail, rouse};
use exec_task::runnable::Runnable;
use exec_words::global::GlobalQueue;
use exec_words::idle::{PureIdle, WorkerSet};
use exec_words::word::WaitTarget;
use std::alloc::{AllocError, Global};

impl Caller {
    /// Begins to spawn a task of this body, unless the task set is closed. Err comes only for want of memory or of a
    /// number below 2^32, and then nothing that can be seen has changed. The caller must have no call half done, be
    /// sound with what all share, and know that the balances of all parties hold.
    pub fn spawn<B: Scripted + Drop>(
        &mut self,
        alloc: Global,
        body: B,
        shared: &mut Shared<B>,
    ) -> Result<Event, AllocError>
        requires sound { CallSound self.old shared.old }
        requires free { is_free self.old.place ≡ true }
        requires whole { HasCallWhole self.old shared.old }
        ensures made { IfOk result (λ event. SpawnsByCall B.left B.spot (B.spot (B.left body))
            (B.name_of (B.left body)) self.old shared.old event self.new shared.new) }
        ensures performs { IfOk result (λ event. StillPerformsWith B.left B.runs B.holds B.spot body
            (B.name_of (B.left body)) shared.old shared.new) }
        ensures same { OnErr result (self.new ≡ self.old) }
        ensures stays { OnErr result (SameButRoom shared.old shared.new) }
    {
        let script = body.name() as usize;
        let Some(runnable) = shared.make_task(alloc, body)? else {
            self.place = CallPlace::Return;
            return Ok(Event::Closed);
        };
        let task = runnable.task().0 as usize;
        self.hand = Some(runnable);
        self.place = CallPlace::Global(InGlobal::Append);
        Ok(Event::Spawn { task, script })
    }

    /// Begins to wake this task. The caller must have no call half done, be sound with what all share, and know that
    /// there is such a task, and that each mailbox has one wake of its root at most, a place for one where it has none,
    /// and nothing once it is closed.
    pub fn wake<B: Scripted + Drop>(&mut self, task: usize, shared: &mut Shared<B>) -> Event
        requires sound { CallSound self.old shared.old }
        requires free { is_free self.old.place ≡ true }
        requires there { task < length shared.old.tasks.items }
        requires mail { HaveMailboxes shared.old }
        ensures wakes { WakesByCall B.left B.spot task self.old shared.old result self.new shared.new }
    {
        match shared.tasks[task].home() {
            Some(home) => self.wake_root(home, shared),
            None => self.wake_ordinary(task, shared),
        }
    }

    /// Sends a worker the message that wakes its root.
    fn wake_root<B: Drop>(&mut self, home: usize, shared: &mut Shared<B>) -> Event
        requires there { home < length shared.old.seats.items }
        requires place { OfChair home shared.old (λ chair. HasPlaceFor MailMessage.Root chair.mailbox) }
        ensures event { OfChair home shared.old (λ chair. result ≡ event_sent home MailMessage.Root chair.mailbox) }
        ensures goes { OfChair home shared.old (λ chair. self.new
            ≡ record self.old { place = place_by_mail home chair.mailbox }) }
        ensures chair { TurnsChair home (chair_sent MailMessage.Root) shared.old shared.new }
        ensures kept { shared.new ≡ record shared.old { seats = shared.new.seats } }
    {
        let (event, asks) = mail(home, MailMessage::Root, &mut shared.seats[home]);
        self.place = if asks {
            CallPlace::Signal(InSignal::SetLatch, home)
        } else {
            CallPlace::Return
        };
        event
    }

    /// Wakes an ordinary task, and goes on to queue it where it was idle.
    fn wake_ordinary<B: Drop>(&mut self, task: usize, shared: &mut Shared<B>) -> Event
        requires there { task < length shared.old.tasks.items }
        ensures event { result ≡ Event.Wake task }
        ensures goes { OfSlot task shared.old (λ slot. self.new ≡ with_woken slot self.old) }
        ensures task { TurnsSlot task shared.old shared.new woken_slot }
    {
        self.place = match shared.tasks[task].wake() {
            Some(runnable) => {
                self.hand = Some(runnable);
                CallPlace::Global(InGlobal::Append)
            }
            None => CallPlace::Return,
        };
        Event::Wake { task }
    }

    /// Goes on with the call. The caller must have one half done, be sound with what all share, and know that the
    /// balances of all parties hold.
    pub fn go_on<B: Scripted + Drop>(&mut self, shared: &mut Shared<B>) -> Event
        requires sound { CallSound self.old shared.old }
        requires whole { HasCallWhole self.old shared.old }
        requires going { is_free self.old.place ≡ false }
        ensures steps { CallSteps B.left B.spot self.old shared.old result self.new shared.new }
    {
        match self.place {
            CallPlace::Nothing => unreachable!(),
            CallPlace::Global(at) => self.push_global(at, shared),
            CallPlace::ClaimWorker { set } => self.claim_worker(set, &mut shared.idle),
            CallPlace::Signal(at, worker) => self.signal(at, worker, shared),
            CallPlace::Return => self.finish(),
        }
    }

    /// Takes the next step of a push into the global queue.
    fn push_global<B: Scripted + Drop>(&mut self, at: InGlobal, shared: &mut Shared<B>) -> Event
        requires sound { CallSound self.old shared.old }
        requires whole { HasCallWhole self.old shared.old }
        requires here { self.old.place ≡ CallPlace.Global at }
        ensures steps { CallSteps B.left B.spot self.old shared.old result self.new shared.new }
    {
        match at {
            InGlobal::Append => self.append(&mut shared.global),
            InGlobal::LoadGlobalSet => self.load_global_set(&shared.idle),
            InGlobal::AddGlobalCount { set } => self.add_global_count(set, &mut shared.idle),
            InGlobal::ReturnGlobalCount => self.return_global_count(&mut shared.idle),
        }
    }

    /// Appends the runnable in the hand. A closed queue lets it go.
    fn append(&mut self, global: &mut GlobalQueue<Runnable>) -> Event
        requires hand { IsSome self.old.hand }
        requires places { global.old.closed ≡ false → 0 < spare_places global.old }
        ensures event { result ≡ Event.Turn }
        ensures goes { self.new ≡ record self.old { place = place_after_append global.old.closed; hand = None } }
        ensures global { global.new ≡ record global.old {
          values = (if global.old.closed then global.old.values
              else global.old.values ++ option_to_list self.old.hand);
        } }
    {
        let Some(runnable) = self.hand.take() else {
            unreachable!()
        };
        self.place = match global.push(runnable) {
            Ok(()) => CallPlace::Global(InGlobal::LoadGlobalSet),
            Err(runnable) => {
                runnable.discard();
                CallPlace::Return
            }
        };
        Event::Turn
    }

    /// Loads the idle set.
    fn load_global_set(&mut self, idle: &PureIdle) -> Event
        ensures event { result ≡ Event.Turn }
        ensures goes { self.new ≡ record self.old { place = place_by_set idle.now } }
    {
        let set = idle.set();
        self.place = match set.lowest() {
            Some(_) => CallPlace::Global(InGlobal::AddGlobalCount { set }),
            None => CallPlace::Return,
        };
        Event::Turn
    }

    /// Adds a search count, for the worker that is claimed next.
    fn add_global_count(&mut self, set: WorkerSet, idle: &mut PureIdle) -> Event
        requires few { idle.old.count + 1 < 2 ^ 64 }
        ensures event { result ≡ Event.Turn }
        ensures goes { self.new ≡ record self.old { place = CallPlace.ClaimWorker set } }
        ensures idle { idle.new ≡ record idle.old { count = idle.old.count + 1 } }
    {
        idle.add();
        self.place = CallPlace::ClaimWorker { set };
        Event::Turn
    }

    /// Returns the search count, since nobody was claimed. Who returned the last looks at the set again.
    fn return_global_count(&mut self, idle: &mut PureIdle) -> Event
        requires holds { 0 < idle.old.count }
        ensures event { result ≡ Event.Turn }
        ensures goes { self.new ≡ record self.old { place = place_by_count idle.old } }
        ensures idle { idle.new ≡ record idle.old { count = idle.old.count - 1 } }
    {
        self.place = if idle.subtract() == 1 {
            CallPlace::Global(InGlobal::LoadGlobalSet)
        } else {
            CallPlace::Return
        };
        Event::Turn
    }

    /// Claims the lowest worker of the set that was found.
    fn claim_worker(&mut self, set: WorkerSet, idle: &mut PureIdle) -> Event
        requires some { IsSome (lowest_of set.has) }
        ensures event { result ≡ Event.Turn }
        ensures goes { self.new ≡ record self.old { place = after_claim (claimed set idle.old) } }
        ensures idle { idle.new ≡ idle_after (claimed set idle.old) idle.old }
    {
        self.place = match claim(idle, &set) {
            Claimed::Worker(worker) => CallPlace::Signal(InSignal::SetLatch, worker),
            Claimed::Again(set) => CallPlace::ClaimWorker { set },
            Claimed::Nobody => CallPlace::Global(InGlobal::ReturnGlobalCount),
        };
        Event::Turn
    }

    /// Takes the next step of the signal to a worker.
    fn signal<B: Scripted + Drop>(
        &mut self,
        at: InSignal,
        worker: usize,
        shared: &mut Shared<B>,
    ) -> Event
        requires sound { CallSound self.old shared.old }
        requires here { self.old.place ≡ CallPlace.Signal at worker }
        ensures steps { CallSteps B.left B.spot self.old shared.old result self.new shared.new }
    {
        match at {
            InSignal::SetLatch => self.set_latch(worker, shared),
            InSignal::Raise { ring } => self.raise(ring, worker, shared),
        }
    }

    /// Puts the latch into the wake word of the worker.
    fn set_latch<B: Drop>(&mut self, worker: usize, shared: &mut Shared<B>) -> Event
        requires there { worker < length shared.old.seats.items }
        ensures event { result ≡ Event.Turn }
        ensures goes { OfChair worker shared.old (λ chair. self.new
            ≡ record self.old { place = place_by_word worker chair.mailbox.waker }) }
        ensures chair { TurnsChair worker chair_latched shared.old shared.new }
        ensures kept { shared.new ≡ record shared.old { seats = shared.new.seats } }
    {
        self.place = match shared.seats[worker].signal() {
            Some(target) => {
                let ring = target == WaitTarget::Ring;
                CallPlace::Signal(InSignal::Raise { ring }, worker)
            }
            None => CallPlace::Return,
        };
        Event::Turn
    }

    /// Ends the wait of the worker.
    fn raise<B: Drop>(&mut self, ring: bool, worker: usize, shared: &mut Shared<B>) -> Event
        requires there { worker < length shared.old.seats.items }
        ensures event { OfChair worker shared.old (λ chair. result ≡ event_rousing worker chair.rest) }
        ensures goes { self.new ≡ record self.old { place = CallPlace.Return } }
        ensures chair { TurnsChair worker (chair_raised ring) shared.old shared.new }
        ensures kept { shared.new ≡ record shared.old { seats = shared.new.seats } }
    {
        self.place = CallPlace::Return;
        rouse(ring, worker, &mut shared.seats[worker])
    }

    /// The call is over.
    fn finish(&mut self) -> Event
        ensures event { result ≡ Event.Return }
        ensures goes { self.new ≡ record self.old { place = CallPlace.Nothing } }
    {
        self.place = CallPlace::Nothing;
        Event::Return
    }
}
