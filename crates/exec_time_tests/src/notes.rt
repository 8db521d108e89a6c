//! Notes: what has room is noted.

use crate::found::{holds, same};
use exec_base::error::Error;
use exec_base::task_no::TaskNo;
use exec_time::notes::{ForwardedResult, Notes};

#[test]
fn what_has_room_is_noted_in_order(rt: HostRuntime) {
    let mut notes = Notes::new(rt.alloc());
    same!(&rt; notes.wakes.len(), 0);
    same!(&rt; notes.completions.len(), 0);
    let room = notes.reserve(rt.alloc(), 2).is_ok();
    holds!(&rt; room);
    notes.wakes.push_back_reserved(TaskNo(4));
    notes.wakes.push_back_reserved(TaskNo(3));
    notes.completions.push_back_reserved(ForwardedResult {
        sender: 9u32,
        result: Err(Error::Closed),
    });
    same!(&rt; notes.wakes.as_slices().0, [TaskNo(4), TaskNo(3)].as_slice());
    same!(&rt; notes.completions.len(), 1);
    same!(&rt; notes.completions[0].sender, 9);
    same!(&rt; notes.completions[0].result, Err(Error::Closed));
}
