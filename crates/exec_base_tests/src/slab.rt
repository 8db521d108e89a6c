//! A slab whose slots are freed and taken again.

use crate::found::{holds, same};
use exec_base::slab::{Id, InsertError, Slab};
use std::alloc::Global;
use std::test::Fail;

fn id((index, generation): (u32, u64)) -> Id {
    Id { index, generation }
}

/// Whether an insert of the value gives the id.
fn gives(slab: &mut Slab<u64>, alloc: Global, value: u64, wanted: (u32, u64)) -> bool {
    matches!(slab.insert(alloc, value), Ok(got) if got == id(wanted))
}

#[test]
fn freed_slots_are_taken_last_first(rt: HostRuntime) -> Result<(), Fail> {
    let mut slab = Slab::with_capacity(rt.alloc(), 3)?;
    for (value, wanted) in [(1, (0, 0)), (2, (1, 0)), (3, (2, 0))] {
        holds!(&rt; gives(&mut slab, rt.alloc(), value, wanted));
    }
    same!(&rt; slab.remove(id((0, 0))), Some(1));
    same!(&rt; slab.remove(id((2, 0))), Some(3));
    let made = slab.insert_with(rt.alloc(), |made: Id| made.index as u64 + 10);
    holds!(&rt; made.is_ok_and(|made| made == id((2, 1))));
    same!(&rt; slab.get(id((2, 1))).copied(), Some(12));
    holds!(&rt; gives(&mut slab, rt.alloc(), 5, (0, 1)));
    same!(&rt; slab.next_id(), Some(id((3, 0))));
    same!(&rt; slab.len(), 3);
    same!(&rt; slab.slots(), 3);
    Ok(())
}

#[test]
fn a_refused_insert_shows_its_reason(rt: HostRuntime) -> Result<(), Fail> {
    for (refused, word) in [
        (InsertError::Full(7), "Full"),
        (InsertError::NoMemory(7), "NoMemory"),
    ] {
        let shown = format!(in rt.alloc(); "{refused}")?;
        same!(&rt; shown.as_str(), word);
    }
    Ok(())
}
