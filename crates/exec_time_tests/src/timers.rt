//! The sleepers of a worker: their names, and in which order they fire.

use crate::found::{holds, same};
use exec_base::task_no::TaskNo;
use exec_time::notes::Notes;
use exec_time::timers::Timers;
use std::test::Fail;

#[test]
fn sleepers_are_named_in_order_and_fire_by_deadline(rt: HostRuntime) -> Result<(), Fail> {
    let mut timers = Timers::<u32>::new(rt.alloc());
    let mut notes = Notes::new(rt.alloc());
    let first = timers.insert(rt.alloc(), 20, TaskNo(1));
    let second = timers.insert(rt.alloc(), 10, TaskNo(2));
    holds!(&rt; first.is_ok_and(|id| id.0.index == 0));
    holds!(&rt; second.is_ok_and(|id| id.0.index == 1));
    same!(&rt; (timers.len(), timers.next_deadline()), (2, Some(10)));
    notes.reserve(rt.alloc(), timers.len())?;
    timers.expire(20, &mut notes);
    same!(&rt; notes.wakes.as_slices().0, [TaskNo(2), TaskNo(1)].as_slice());
    same!(&rt; (timers.len(), timers.next_deadline()), (0, None));
    Ok(())
}

#[test]
fn sleepers_of_one_deadline_fire_by_id_also_after_a_cancel(rt: HostRuntime) -> Result<(), Fail> {
    let mut timers = Timers::<u32>::new(rt.alloc());
    let mut notes = Notes::new(rt.alloc());
    let first = timers.insert(rt.alloc(), 10, TaskNo(1))?;
    timers.insert(rt.alloc(), 20, TaskNo(2))?;
    timers.insert(rt.alloc(), 30, TaskNo(3))?;
    notes.reserve(rt.alloc(), 1)?;
    timers.cancel(first, &mut notes);
    same!(&rt; timers.next_deadline(), Some(20));
    timers.insert(rt.alloc(), 20, TaskNo(4))?;
    notes.reserve(rt.alloc(), timers.len())?;
    timers.expire(20, &mut notes);
    notes.reserve(rt.alloc(), timers.len())?;
    timers.clear(&mut notes);
    same!(&rt; notes.wakes.as_slices().0, [TaskNo(4), TaskNo(2), TaskNo(3)].as_slice());
    Ok(())
}
