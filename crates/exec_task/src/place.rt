//! Where a runnable is handed to, and how the root of a worker is woken: what a wake or a spawn
//! needs of the worker at whose hand it happens.

ghost use Rattle.std.specs.Prelude.{◌≡◌, ℕ, Bool, IfErr, MatchBool};

use crate::runnable::Runnable;
use std::alloc::{AllocError, Global};

/// Where runnables go: the run queue of the worker at hand, if there is one, and the global queue of its pool.
pub trait Place {
    ghost use Rattle.exec_task.specs.declared.runnable.Runnable.{Runnable};

    ghost serving: { Self → ℕ → Bool };

    // What the run queue may answer when it is asked whether it is empty. Others may steal from a live one.
    ghost shows_empty: { Self → Bool → Type 0 };

    ghost workers_of: { Self → ℕ };

    // What an enqueued runnable leaves.
    ghost enqueues: { Self → Runnable → Self → Type 0 };

    // What a pushed runnable leaves, also where the global queue is closed.
    ghost pushes: { Self → Runnable → Self → Type 0 };

    // What a reservation leaves, also a refused one.
    ghost reserves: { Self → Self → Type 0 };

    /// Whether a worker is at hand that belongs to the task set of this identity, and isn't closing.
    fn serves(&self, owner: u64) -> bool
        ensures { result ≡ serving self.now owner };

    /// Whether the run queue of the worker at hand is empty. True where there is none.
    fn is_empty(&self) -> bool
        ensures { shows_empty self.now result };

    /// How many workers the pool has.
    fn workers(&self) -> usize
        ensures { result ≡ workers_of self.now };

    /// Puts the runnable into the run queue of the worker at hand, or, where that is full, into the global queue. The
    /// caller must know that a worker is at hand. It takes no memory of a registered task.
    fn enqueue(&mut self, runnable: Runnable)
        ensures { enqueues self.old runnable self.new };

    /// Puts the runnable into the global queue. Gives it back where that is closed. It takes no
    /// memory of a registered task.
    fn push(&mut self, runnable: Runnable) -> Result<(), Runnable>
        ensures back { IfErr result (λ back. back ≡ runnable) }
        ensures pushed { pushes self.old runnable self.new };

    /// Makes room in the global queue for one more task. What was there stays as it was. An `Err` comes only for want
    /// of memory.
    fn reserve(&mut self, alloc: Global) -> Result<(), AllocError>
        ensures { reserves self.old self.new };
}

/// How the roots of workers are reached from the worker at hand.
pub trait Roots {
    ghost is_near: { Self → ℕ → Bool };

    ghost closing: { Self → Bool };

    // What a flag that is set leaves.
    ghost flags: { Self → Self → Type 0 };

    // What a message leaves that wakes the root of this worker.
    ghost sends: { Self → ℕ → Self → Type 0 };

    /// Whether the worker at hand is this one.
    fn is_home(&self, worker: u32) -> bool
        ensures { result ≡ is_near self.now worker };

    /// Whether the worker at hand is closing.
    fn is_closing(&self) -> bool
        ensures { result ≡ closing self.now };

    /// Marks the root of the worker at hand as ready.
    fn set_root_ready(&mut self)
        ensures { flags self.old self.new };

    /// Sends the worker the message that wakes its root. A closed inbox drops it. It takes no memory.
    fn send_root(&mut self, worker: u32)
        ensures { sends self.old worker self.new };
}

/// The waker of the root of a worker. Ports `RootWaker`.
#[derive(Clone, Copy, Debug, PartialEq, Eq)]
pub struct RootWaker {
    home: u32,
}

impl RootWaker {
    /// The waker of the root of this worker.
    pub fn new(home: u32) -> Self
        ensures { result ≡ record { home = home } }
    {
        RootWaker { home }
    }

    /// Wakes the root. On its own worker it is marked as ready, unless that worker is closing; from
    /// elsewhere its worker is sent a message.
    pub fn wake<R: Roots>(&self, near: &mut R)
        ensures elsewhere { MatchBool (R.is_near near.old self.now.home) (MatchBool (R.closing near.old) (near.new ≡ near.old) (R.flags near.old near.new)) (R.sends near.old self.now.home near.new) }
    {
        if !near.is_home(self.home) {
            near.send_root(self.home);
            return;
        }
        if near.is_closing() {
            return;
        }
        near.set_root_ready();
    }
}
