//! A worker: what only it touches, and how it begins, of the pool or for a dedicated task.

ghost use Rattle.std.specs.Prelude.{◌≡◌, ◌+◌, ◌^◌, ◌<◌, [], IfOk, true, false};
ghost use Rattle.exec_parts.specs.{Words.{HasPlaces, IsFreshDriver, IsPunctual, Same, horizon, is_untold, seen}, Dedicated.{Begins, MayBegin, spins_in}, Pooled.with_raises, Records.HasNoNames, Tests.{is_anything_told, has_open_requests, HasToldDue, IsNextMoment}, View.driver_of};

use crate::parts::letters::Letters;
use crate::parts::mail::{Mail, Reply};
use crate::parts::names::Names;
use crate::parts::role::Role;
use crate::parts::seat::Seat;
use exec_base::spinner::{Spinner, SpinnerConfig};
use exec_driver::driver::Driver;
use exec_driver::home::Home;
use exec_machine::config::Configuration;
use exec_moves::place::Place;
use exec_ring::sim_ring::SimRing;
use exec_ring::store::Store;
use exec_task::runnable::Runnable;
use exec_words::HALF;
use exec_words::reserved::Reserved;
use std::alloc::{AllocError, Global};

/// So much may be told before anything was made: once by each message of a turn, and once more.
const FIRST_TOLD: usize = 65;

/// The moments of a worker, in nanoseconds.
#[derive(Clone, Copy, Debug, PartialEq, Eq)]
pub struct Moments {
    /// When it began.
    pub start: u64,
    /// What it sampled last.
    pub sampled: u64,
    /// What it had sampled before that.
    pub before: u64,
    /// What it read off the clock before it last went on to wait.
    pub read: u64,
}

/// What the service of this turn put off.
#[derive(Clone, Copy, Debug, PartialEq, Eq)]
pub struct PutOff {
    /// Whether it was one that may put its last enter off.
    pub defer: bool,
    /// Whether it did.
    pub enter: bool,
}

impl Moments {
    /// Those of a worker that begins now, and has yet to wait.
    pub fn new(now: u64) -> Self
        ensures { result ≡ record { start = now; sampled = now; before = now; read = 0 } }
    {
        Moments {
            start: now,
            sampled: now,
            before: now,
            read: 0,
        }
    }
}

/// A worker: what only it touches.
#[derive(Drop)]
pub struct Worker {
    /// Its next step.
    pub place: Place,
    /// Its number.
    pub index: usize,
    /// How many workers the pool has.
    pub workers: usize,
    /// Which work it runs.
    pub role: Role,
    /// The number of its root.
    pub root: usize,
    /// Its requests and sleepers, and what they leave to be told.
    pub home: Home<SimRing, Reply, Reply>,
    /// Their numbers.
    pub names: Names,
    /// When it began, and what it sampled.
    pub moments: Moments,
    /// The runnable of its root, where that is to be polled: the root flag.
    pub root_ready: Option<Runnable>,
    /// The runnable in its hand: of the task that is polled next, or of one that is to be queued.
    pub hand: Option<Runnable>,
    /// The runnables that it has moved out of a queue, in the midst of a steal or of an overflow.
    pub loot: Reserved<Runnable>,
    /// So many picks are left in this turn.
    pub picks: u64,
    /// Whether it holds a search count.
    pub searching: bool,
    /// The number of a generator that says where its next scan begins.
    pub rng: u32,
    /// So many picks are left to the next global look.
    pub countdown: u64,
    /// What the service of this turn put off.
    pub put_off: PutOff,
    /// The messages of the batch that it took, and has yet to apply.
    pub batch: Reserved<Mail>,
    /// How many batches it took, modulo 2^29.
    pub processed: u32,
    /// How long it looks before it sleeps.
    pub spinner: Spinner,
    /// The moment at which it went to sleep on its wake word, where it did.
    pub slept: Option<u64>,
    /// The messages that it has yet to send about what a task held that is over.
    pub letters: Letters,
}

impl Worker {
    /// The worker of this number, which begins at this moment, and whose root has this number and is to be polled with
    /// this runnable. An `Err` comes only for want of memory. The caller must have a configuration in its ranges, and a
    /// number below 2^32 - 1.
    pub fn begin(
        alloc: Global,
        configuration: &Configuration,
        role: Role,
        index: usize,
        root: usize,
        runnable: Runnable,
        now: u64,
        store: &mut Store,
    ) -> Result<Self, AllocError>
        requires ranges { MayBegin configuration.now }
        requires few { index + 1 < 2 ^ 32 }
        ensures begins { IfOk result (λ w. Begins configuration.now role index root runnable now w) }
        ensures store { Same store.old store.new }
    {
        let size = configuration.ring.next_power_of_two() as usize;
        let rooms = (
            Names::new(alloc, size)?,
            Reserved::with_places(alloc, HALF + 1)?,
            Reserved::with_places(alloc, 1)?,
        );
        let Ok(home) = first_home(alloc, configuration, size, index, now, store) else {
            // Let go by a call, so that its drop is proved once (docs/DECISIONS.md, 49).
            drop(rooms);
            return Err(AllocError);
        };
        let (names, loot, batch) = rooms;
        Ok(Worker {
            place: Place::BeginTurn,
            index,
            workers: configuration.workers,
            role,
            root,
            home,
            names,
            moments: Moments::new(now),
            root_ready: Some(runnable),
            hand: None,
            loot,
            picks: 0,
            searching: false,
            rng: index as u32 + 1,
            countdown: configuration.interval,
            put_off: PutOff {
                defer: false,
                enter: false,
            },
            batch,
            processed: 0,
            spinner: Spinner::new(&spins_of(configuration), configuration.spin.iterations),
            slept: None,
            letters: Letters::new(alloc),
        })
    }

    /// Its ring gets the wakes that were raised for it.
    pub fn take_raises(&mut self, seat: &mut Seat)
        ensures driver { driver_of self.new ≡ with_raises seat.old.raised (driver_of self.old) }
        ensures same { self.new ≡ record self.old { home = record self.old.home { driver = self.new.home.driver } } }
        ensures seat { seat.new ≡ record seat.old { raised = 0 } }
    {
        self.home.driver.lands_nothing();
        while seat.raised > 0 {
            seat.raised -= 1;
            self.home.driver.raise();
            self.home.driver.lands_nothing();
        }
    }

    /// Whether something waits for the callbacks.
    pub fn has_callbacks(&self) -> bool
        ensures { result ≡ is_anything_told self.now }
    {
        !self.home.deferred.is_empty()
    }

    /// Whether it has requests that are not over.
    pub fn has_requests(&self) -> bool
        ensures { result ≡ has_open_requests self.now }
    {
        !self.home.driver.is_empty()
    }

    /// The first moment at which a deadline or a sleeper is due, in nanoseconds. A closing worker waits for no sleeper.
    /// The caller must have told each request whose deadline has come, and know that any other comes out of the wheel
    /// at its tick.
    pub fn next_moment(&mut self) -> Option<u64>
        requires told { HasToldDue self.old }
        ensures moment { IsNextMoment self.old result }
        ensures same { self.new ≡ self.old }
    {
        self.home.driver.tells_deadlines();
        let deadline = self.home.driver.next_deadline();
        if self.home.closing {
            return deadline;
        }
        match (deadline, self.home.timers.next_deadline()) {
            (None, until) => until,
            (Some(deadline), Some(until)) if until < deadline => Some(until),
            (Some(deadline), _) => Some(deadline),
        }
    }
}

/// What worker `index` has of its own at first, with a ring of this size, and a wheel that begins now. An `Err` comes only
/// for want of memory.
fn first_home(
    alloc: Global,
    configuration: &Configuration,
    size: usize,
    index: usize,
    now: u64,
    store: &mut Store,
) -> Result<Home<SimRing, Reply, Reply>, AllocError>
    requires ranges { MayBegin configuration.now }
    requires few { index < 2 ^ 32 }
    ensures worker { IfOk result (λ home. home.worker ≡ index) }
    ensures open { IfOk result (λ home. home.closing ≡ false) }
    ensures fresh { IfOk result (λ home. IsFreshDriver (seen home.driver) size (horizon configuration.now) configuration.now.tick now) }
    ensures punctual { IfOk result (λ home. IsPunctual (seen home.driver)) }
    ensures asleep { IfOk result (λ home. (home.timers.slots ≡ []) × (home.timers.vacant ≡ []) × (home.timers.first ≡ 0)) }
    ensures untold { IfOk result (λ home. is_untold home.deferred ≡ true) }
    ensures room { IfOk result (λ home. HasPlaces home.deferred 65) }
    ensures store { Same store.old store.new }
{
    let longest = configuration.connect.max(configuration.rw);
    let ring = SimRing::new(alloc, size)?;
    let Ok(driver) = Driver::new(alloc, ring, longest, configuration.tick, now, store) else {
        return Err(AllocError);
    };
    let mut home = Home::new(alloc, index as u32, driver);
    if home.deferred.reserve(alloc, FIRST_TOLD).is_err() {
        // Let go by a call, so that its drop is proved once (docs/DECISIONS.md, 49).
        drop(home);
        return Err(AllocError);
    }
    Ok(home)
}

/// How long a worker looks before it sleeps.
fn spins_of(configuration: &Configuration) -> SpinnerConfig
    ensures { result ≡ spins_in configuration.now }
{
    SpinnerConfig {
        budget_us: configuration.spin.budget,
        max_budget_us: configuration.spin.most,
        quick_wake_us: configuration.spin.quick,
    }
}
