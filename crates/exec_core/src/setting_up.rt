//! The workers of a new executor, and what they share.

ghost use Rattle.std.specs.Prelude.{◌≡◌, ◌<◌, ◌≤◌, true, length, IfOk};
ghost use Rattle.exec_core.specs.{Configs.configuration_of as configuration_told, Firsts.{AllBegin, IsFirst}, Ranges.is_in_range};

use crate::config::Config;
use exec_base::task_no::TaskNo;
use exec_machine::config::{Configuration, Spin};
use exec_parts::parts::role::Role;
use exec_parts::parts::seat::Seat;
use exec_parts::parts::shared::Shared;
use exec_parts::parts::task_slot::TaskSlot;
use exec_parts::parts::worker::Worker;
use exec_parts::scripted::Scripted;
use exec_ring::store::Store;
use exec_task::runnable::Runnable;
use std::alloc::{AllocError, Global};

/// What the abstract machine is told of the set-up.
pub(crate) fn configuration_of(
    config: &Config,
    iters_per_us: u64,
    files: usize,
    sockets: usize,
) -> Configuration
    ensures { result ≡ configuration_told config.now iters_per_us files sockets }
{
    let ring = config.ring_config();
    let spin = config.idle_spinner();
    Configuration {
        workers: config.worker_threads(),
        interval: u64::from(config.global_queue_interval()),
        ring: u64::from(ring.size),
        tick: ring.timeout_wheel_tick,
        connect: config.connect_timeout(),
        rw: config.read_write_timeout(),
        spin: Spin {
            budget: spin.budget_us,
            most: spin.max_budget_us,
            quick: spin.quick_wake_us,
            iterations: iters_per_us,
        },
        files,
        sockets,
    }
}

/// What the workers share at first: the root of each is queued, with its runnable; these are their bodies. `Err` only for
/// want of memory. The caller must have some workers and at most 64, and as many bodies.
pub(crate) fn first_shared<B: Scripted + Drop>(
    alloc: Global,
    configuration: Configuration,
    roots: Vec<B>,
) -> Result<(Shared<B>, Vec<Runnable>), AllocError>
    requires some { 0 < configuration.workers }
    requires few { configuration.workers ≤ 64 }
    requires many { length roots.items ≡ configuration.workers }
    ensures first { IfOk result (λ made. IsFirst configuration roots.items made.0 made.1.items) }
{
    let mut shared = Shared::new(alloc, configuration)?;
    shared.global.reserve(alloc, roots.len())?;
    let mut runnables = Vec::with_capacity(alloc, roots.len())?;
    for root in roots {
        // One more worker: its seat, and its root.
        let number = shared.tasks.len();
        shared.seats.push(Seat::new(alloc, true)?)?;
        let (slot, runnable) = TaskSlot::new(
            alloc,
            TaskNo(number as u32),
            shared.set.id(),
            Some(number),
            root,
        );
        shared.tasks.push(slot)?;
        runnables.push(runnable)?;
    }
    Ok((shared, runnables))
}

/// The workers of the pool, whose roots are to be polled with these runnables. `Err` only for want of memory. The caller
/// must have a configuration in its ranges, and at most 64 runnables.
#[tactic(auto, using(crate::proofs::Beginning::may_begin, crate::proofs::Beginning::in_range))]
pub(crate) fn first_workers(
    alloc: Global,
    configuration: &Configuration,
    runnables: Vec<Runnable>,
    store: &mut Store,
) -> Result<Vec<Worker>, AllocError>
    requires in_range { is_in_range configuration.now ≡ true }
    requires few { length runnables.items ≤ 64 }
    ensures begin { IfOk result (λ ws. AllBegin configuration.now runnables.items ws.items) }
{
    let mut workers = Vec::with_capacity(alloc, runnables.len())?;
    for runnable in runnables {
        let index = workers.len();
        let role = Role::Pool(index as u32);
        workers.push(Worker::begin(alloc, configuration, role, index, index, runnable, 0, store)?)?;
    }
    Ok(workers)
}
