//! A worker as its tasks see it: what it polls for, and its own end of its run queue.

ghost use Rattle.std.specs.Prelude.{◌≡◌, ◌<◌, ◌==◌, ◌&&◌, not, [], ◌∷◌};
ghost use Rattle.exec_base.specs.Slab.{value_at};
ghost use Rattle.exec_words.specs.Queue.{room_of, published};
ghost use Rattle.exec_waiters.specs.{Told.{HasPlaces, Tells}, Events.told_by_orphan};
ghost use Rattle.exec_driver.specs.{Punctual.IsPunctual, Steps.{let_go, told_by_let_go}};
ghost use Rattle.exec_parts.specs.{View.driver_of, Roles.is_pool};

use exec_driver::home::Home;
use exec_parts::parts::mail::Reply;
use exec_parts::parts::role::Role;
use exec_parts::parts::seat::Seat;
use exec_parts::parts::worker::Worker;
use exec_ring::sim_ring::SimRing;
use exec_task::runnable::Runnable;
use exec_task::tasks::Tasks;
use exec_waiters::waiter_id::WaiterId;
use exec_words::queue::PureQueue;

/// A worker as its tasks see it, with its seat and the task set of its pool. Ports `Local`.
#[derive(Drop)]
pub struct Local<'a> {
    worker: &'a mut Worker,
    // Its own.
    seat: &'a mut Seat,
    // Those of its pool.
    tasks: &'a Tasks<()>,
}

impl<'a> Local<'a> {
    /// This worker, as its tasks see it. The caller must lend the worker's own seat, and the task set that its pool shares.
    pub fn new(worker: &'a mut Worker, seat: &'a mut Seat, tasks: &'a Tasks<()>) -> Self
        ensures worker { result.worker.now ≡ worker.old }
        ensures seat { result.seat.now ≡ seat.old }
        ensures tasks { result.tasks.now ≡ tasks.now }
        ensures same_worker { result.worker.ghost_name ≡ worker.entry.ghost_name }
        ensures same_seat { result.seat.ghost_name ≡ seat.entry.ghost_name }
    {
        Local {
            worker,
            seat,
            tasks,
        }
    }

    /// Whether it polls tasks of the set of this identity, which is that of its pool, and isn't closing. Ports `serves`.
    pub fn serves(&self, owner: u64) -> bool
        ensures { result ≡ is_pool self.now.worker.now.role && (self.now.tasks.now.id == owner) && not self.now.worker.now.home.closing }
    {
        self.worker.role.is_pool() && self.tasks.id() == owner && !self.worker.home.closing
    }

    /// Which work it runs. Ports `role`.
    pub fn role(&self) -> Role
        ensures { result ≡ self.now.worker.now.role }
    {
        self.worker.role
    }

    /// How many workers its pool has. Ports `workers`.
    pub fn workers(&self) -> usize
        ensures { result ≡ self.now.worker.now.workers }
    {
        self.worker.workers
    }

    /// Its requests and sleepers, what they leave to be told, and whether it closes.
    pub fn home(&self) -> &Home<SimRing, Reply, Reply>
        ensures { result.now ≡ self.now.worker.now.home }
    {
        &self.worker.home
    }

    /// Its run queue. Ports `ready`.
    pub fn ready(&self) -> &PureQueue<Runnable>
        ensures { result.now ≡ self.now.seat.now.queue }
    {
        &self.seat.queue
    }

    /// Puts a runnable into its run queue. Ports `enqueue`, of which an overflow is for the caller: it must have room, and
    /// be in the middle of no overflow.
    pub fn enqueue(&mut self, runnable: Runnable)
        requires room { 0 < room_of self.old.seat.now.queue }
        requires whole { self.old.seat.now.queue.held ≡ [] }
        ensures queued { self.new.seat.now ≡ record self.old.seat.now { queue = published self.old.seat.now.queue (runnable ∷ []) } }
        ensures worker { self.new.worker.now ≡ self.old.worker.now }
        ensures same_seat { self.new.seat.ghost_name ≡ self.old.seat.ghost_name }
        ensures same_worker { self.new.worker.ghost_name ≡ self.old.worker.ghost_name }
        ensures tasks { self.new.tasks ≡ self.old.tasks }
    {
        self.seat.queue.push_fitting(runnable);
    }

    /// Nobody waits for the request from now on. The caller must have made room for two in each list of what is to be told.
    /// Ports `cancel` where the waiter is of this worker; a sleeper of it is let go of by `timers.cancel`.
    pub fn cancel(&mut self, id: WaiterId)
        requires room { HasPlaces self.old.worker.now.home.deferred 2 }
        ensures let_go { driver_of self.new.worker.now ≡ let_go (driver_of self.old.worker.now) id }
        ensures told { Tells self.old.worker.now.home.deferred self.new.worker.now.home.deferred (told_by_let_go (driver_of self.old.worker.now) id (told_by_orphan id.0 (value_at (driver_of self.old.worker.now).requests id.0))) }
        ensures punctual { IsPunctual (driver_of self.old.worker.now) → IsPunctual (driver_of self.new.worker.now) }
        ensures same { self.new.worker.now ≡ record self.old.worker.now { home = record self.old.worker.now.home { driver = self.new.worker.now.home.driver; deferred = self.new.worker.now.home.deferred } } }
        ensures seat { self.new.seat.now ≡ self.old.seat.now }
        ensures same_seat { self.new.seat.ghost_name ≡ self.old.seat.ghost_name }
        ensures same_worker { self.new.worker.ghost_name ≡ self.old.worker.ghost_name }
        ensures tasks { self.new.tasks ≡ self.old.tasks }
    {
        let home = &mut self.worker.home;
        home.driver.orphan(id, &mut home.deferred);
    }
}
