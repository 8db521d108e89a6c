//! The act that makes a task with a worker of its own.
//!
//! The task is the root of the new worker and is polled by no other. The worker exists from this step on: its root is
//! flagged, and it begins at the moment of the clock. Whoever has the list of workers takes it in after the step.

ghost use Rattle.std.specs.Prelude.{◌<◌, length, IfOk, OnErr};
ghost use Rattle.exec_parts.specs.Dedicated.{DedicatesIf, MakesDedicated, MakesNobody, MayBegin, RefusesDedicated};

use crate::spawning::refused;
use exec_base::error::Error;
use exec_base::task_no::TaskNo;
use exec_machine::event::Event;
use exec_moves::place::{InPoll, Place};
use exec_parts::parts::nursery::Nursery;
use exec_parts::parts::role::Role;
use exec_parts::parts::seat::Seat;
use exec_parts::parts::shared::Shared;
use exec_parts::parts::task_slot::TaskSlot;
use exec_parts::parts::worker::Worker;
use exec_parts::scripted::Scripted;
use exec_task::body::Said;
use std::alloc::{AllocError, Global};

/// The task makes another of this body with a worker of its own, unless the task set is closed. Err as of `spawn`, also
/// where the workers' numbers have come to their end. The caller must
/// know that there is such a task, and must have a configuration in its ranges.
pub fn dedicate<B: Scripted + Drop>(
    worker: &mut Worker,
    alloc: Global,
    task: usize,
    body: B,
    shared: &mut Shared<B>,
    nursery: &mut Nursery,
) -> Result<Event, AllocError>
    requires there { task < length shared.old.tasks.items }
    requires ranges { MayBegin shared.old.config }
    ensures made { IfOk result (DedicatesIf task body worker.old worker.new shared.old shared.new nursery.old nursery.new) }
    ensures refused { OnErr result (RefusesDedicated task worker.old worker.new shared.old shared.new nursery.old nursery.new) }
{
    if shared.set.is_closed() {
        shared.tasks[task].tell(Said::Refused(Error::Closed));
        worker.place = Place::Poll(task, InPoll::Act);
        return Ok(Event::Closed);
    }
    let made = shared.tasks.len();
    let other = shared.seats.len();
    let Ok(number) = make_dedicated(shared, alloc, body, nursery) else {
        shared.tasks[task].tell(refused());
        return Err(AllocError);
    };
    shared.tasks[task].tell(Said::Spawned(number));
    worker.place = Place::Poll(task, InPoll::Act);
    Ok(Event::Dedicated {
        task: made,
        worker: other,
    })
}

/// Makes a task of this body under the next number, and the next worker, whose root it is. The global queue has a
/// place for each task, also for such a root. On Err nothing that can be seen has changed.
fn make_dedicated<B: Drop>(
    shared: &mut Shared<B>,
    alloc: Global,
    body: B,
    nursery: &mut Nursery,
) -> Result<TaskNo, AllocError>
    requires ranges { MayBegin shared.old.config }
    ensures made { IfOk result (MakesDedicated body shared.old shared.new nursery.old nursery.new) }
    ensures same { OnErr result (MakesNobody shared.old shared.new nursery.old nursery.new) }
{
    let count = shared.tasks.len();
    let worker = shared.seats.len();
    let Ok(number) = u32::try_from(count) else {
        return Err(AllocError);
    };
    if !nursery.has_room || worker >= u32::MAX as usize {
        return Err(AllocError);
    }
    shared.tasks.reserve(1)?;
    shared.seats.reserve(1)?;
    shared.global.reserve(alloc, count + 1)?;
    let seat = Seat::new(alloc, false)?;
    let number = TaskNo(number);
    let (slot, runnable) = TaskSlot::new(alloc, number, shared.set.id(), Some(worker), body);
    let role = Role::Dedicated;
    let Ok(born) = Worker::begin(
        alloc,
        &shared.config,
        role,
        worker,
        count,
        runnable,
        shared.clock,
        &mut shared.store,
    ) else {
        // Let go by a call, so that its drop is proved once (docs/DECISIONS.md, 49).
        drop(slot);
        drop(seat);
        return Err(AllocError);
    };
    shared.tasks.push_reserved(slot);
    shared.seats.push_reserved(seat);
    // Let go by a call, so that its drop is proved once (docs/DECISIONS.md, 49).
    drop(nursery.born.replace(born));
    Ok(number)
}
