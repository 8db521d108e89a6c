//! What a worker has of its own that its tasks' requests and sleepers live in.
//!
//! Ports `Local`, of which the core has the rest.

ghost use Rattle.std.specs.Prelude.{◌≡◌, [], true, false};
ghost use Rattle.exec_waiters.specs.Told.{is_untold};

use crate::driver::Driver;
use exec_ring::ring::Ring;
use exec_time::timers::Timers;
use exec_waiters::deferred::Deferred;
use std::alloc::Global;

/// The driver of a worker with its sleepers, and what they leave to be told.
#[derive(Drop)]
pub struct Home<R: Ring, S, F> {
    /// The worker's number.
    pub worker: u32,
    /// Whether it takes no new requests and sleepers.
    pub closing: bool,
    /// Its requests.
    pub driver: Driver<R, S, F>,
    /// Its sleepers.
    pub timers: Timers<S>,
    /// What is left to be told.
    pub deferred: Deferred<S, F>,
}

impl<R: Ring + Drop, S: Drop, F: Drop> Home<R, S, F> {
    /// A worker with this driver, which has no sleepers and nothing to tell.
    pub fn new(alloc: Global, worker: u32, driver: Driver<R, S, F>) -> Self
        ensures worker { result.worker ≡ worker }
        ensures open { result.closing ≡ false }
        ensures driver { result.driver ≡ driver }
        ensures asleep { (result.timers.slots ≡ []) × (result.timers.vacant ≡ []) × (result.timers.first ≡ 0) }
        ensures untold { is_untold result.deferred ≡ true }
    {
        Home {
            worker,
            closing: false,
            driver,
            timers: Timers::new(alloc),
            deferred: Deferred::new(alloc),
        }
    }
}
