//! A worker as its tasks see it: whose tasks it polls, its run queue, and a request of it that nobody waits for any more.

ghost use Rattle.std.specs.Prelude.{IfOk};
ghost use Rattle.exec_parts.specs.Records.{IsFreshSeat};
ghost use Rattle.exec_waiters.specs.Told.{HasPlaces};

use crate::found::holds;
use exec_base::task_no::TaskNo;
use exec_core::local::Local;
use exec_machine::config::{Configuration, Spin};
use exec_opens::opens::Opens;
use exec_parts::parts::mail::Reply;
use exec_parts::parts::role::Role;
use exec_parts::parts::seat::Seat;
use exec_parts::parts::worker::Worker;
use exec_request::poll::PollRequest;
use exec_request::request::Request;
use exec_ring::store::Store;
use exec_task::runnable::Runnable;
use exec_task::task::Task;
use exec_task::tasks::Tasks;
use exec_waiters::deferred::Deferred;
use exec_waiters::observer::Observer;
use std::alloc::{AllocError, Global};
use std::process::Abort;
use std::test::Fail;

/// The task set of the pool.
const OWN: u64 = 1;

/// A pool of one worker.
const ALONE: Configuration = Configuration {
    workers: 1,
    interval: 31,
    ring: 16,
    tick: 5_000_000,
    connect: 10_000_000,
    rw: 10_000_000,
    spin: Spin {
        budget: 0,
        most: 0,
        quick: 0,
        iterations: 0,
    },
    files: 0,
    sockets: 1,
};

/// The first runnable of a task of this number.
fn runnable(number: u32) -> Runnable {
    let (_task, runnable) = Task::new(TaskNo(number), OWN, ());
    runnable
}

/// The worker of the pool, which begins. `Err` only for want of memory.
fn worker(alloc: Global, store: &mut Store) -> Result<Worker, AllocError> {
    Worker::begin(alloc, &ALONE, Role::Pool(0), 0, 0, runnable(0), 0, store)
}

/// Makes room for two in each list of what is to be told. It fails where memory is wanting.
fn make_room(rt: &impl Abort, alloc: Global, told: &mut Deferred<Reply, Reply>)
    ensures { HasPlaces told.new 2 }
{
    if told.reserve(alloc, 2).is_err() {
        panic!(rt; "no memory");
    }
}

#[test]
fn a_worker_polls_tasks_of_its_own_set_until_it_closes(rt: HostRuntime) -> Result<(), Fail> {
    let alloc = rt.alloc();
    let mut seat = Seat::new(alloc, true)?;
    let mut worker = worker(alloc, &mut Store::new(alloc))?;
    let tasks = Tasks::new(alloc, 1)?;
    let local = Local::new(&mut worker, &mut seat, &tasks);
    holds!(&rt; local.serves(OWN));
    holds!(&rt; !local.serves(OWN + 1));
    holds!(&rt; local.role() == Role::Pool(0));
    holds!(&rt; local.workers() == 1);
    worker.home.closing = true;
    let closing = Local::new(&mut worker, &mut seat, &tasks);
    holds!(&rt; !closing.serves(OWN));
    drop(worker);
    Ok(())
}

#[test]
fn a_runnable_goes_into_the_run_queue(rt: HostRuntime) -> Result<(), Fail> {
    let alloc = rt.alloc();
    let mut seat = Seat::new(alloc, true)?;
    let mut worker = worker(alloc, &mut Store::new(alloc))?;
    let tasks = Tasks::new(alloc, 1)?;
    let mut local = Local::new(&mut worker, &mut seat, &tasks);
    let before = local.ready().len();
    local.enqueue(runnable(1));
    let after = local.ready().len();
    holds!(&rt; before == 0);
    holds!(&rt; after == 1);
    drop(worker);
    Ok(())
}

#[test]
fn a_request_that_nobody_waits_for_is_let_go(rt: HostRuntime) -> Result<(), Fail> {
    let alloc = rt.alloc();
    let mut store = Store::new(alloc);
    let mut opens = Opens::new(alloc, 0)?;
    let mut seat = Seat::new(alloc, true)?;
    let mut worker = worker(alloc, &mut store)?;
    let Ok(id) = worker.home.driver.admit(
        alloc,
        Request::Poll(PollRequest::new(0, None)),
        Observer::Local(None),
        0,
        &mut opens,
        &mut worker.home.deferred,
        &mut store,
    )
    else {
        panic!(rt; "no memory");
    };
    let has_one = worker.has_requests() && !worker.has_callbacks();
    make_room(&rt, alloc, &mut worker.home.deferred);
    let tasks = Tasks::new(alloc, 1)?;
    let mut local = Local::new(&mut worker, &mut seat, &tasks);
    local.cancel(id);
    holds!(&rt; has_one);
    holds!(&rt; !worker.has_requests());
    holds!(&rt; worker.has_callbacks());
    drop(worker);
    Ok(())
}
