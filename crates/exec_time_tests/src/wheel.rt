//! The wheel: its layouts, and a deadline that comes out.

use crate::found::{holds, same};
use exec_base::slab::Id;
use exec_time::wheel::{Layout, Span, TimeoutWheel};
use std::alloc::Global;
use std::process::Abort;
use std::test::Fail;

const MS: u64 = 1_000_000;

#[test]
fn layouts(rt: HostRuntime) -> Result<(), Fail> {
    for (horizon, tick, slots) in [
        (1, 5 * MS, 4),
        (15 * MS, 5 * MS, 8),
        (60_000 * MS, 5 * MS, 16_384),
        (1_048_574, 1, 1_048_576),
    ] {
        same!(&rt; TimeoutWheel::validate_layout(horizon, tick), Ok(slots));
    }
    let refused = TimeoutWheel::validate_layout(1_048_575, 1);
    same!(&rt; refused, Err(Layout));
    let shown = format!(in rt.alloc(); "{Layout}, {Span}")?;
    same!(&rt; shown.as_str(), "no wheel has this horizon and tick, the wheel does not reach the deadline");
    Ok(())
}

/// A wheel of 100 ms, in ticks of 5 ms.
fn wheel(rt: &impl Abort, alloc: Global) -> Result<TimeoutWheel, Fail> {
    let valid = TimeoutWheel::validate_layout(100 * MS, 5 * MS).is_ok();
    holds!(rt; valid);
    Ok(TimeoutWheel::new(alloc, 100 * MS, 5 * MS, 0)?)
}

#[test]
fn a_deadline_comes_out_at_its_tick(rt: HostRuntime) -> Result<(), Fail> {
    let mut wheel = wheel(&rt, rt.alloc())?;
    same!(&rt; (wheel.tick(), wheel.slots(), wheel.room()), (5 * MS, 32, 0));
    let refused = wheel.reserve(rt.alloc(), usize::MAX).is_err();
    holds!(&rt; refused);
    wheel.reserve(rt.alloc(), 3)?;
    holds!(&rt; wheel.room() >= 3);
    same!(&rt; wheel.checked_target_tick(11 * MS, 0), Ok(Some(3)));
    let may = wheel.is_settled() && wheel.is_ahead(3) && wheel.room() > 0;
    holds!(&rt; may);
    let id = Id {
        index: 1,
        generation: 0,
    };
    wheel.schedule(id, 3);
    holds!(&rt; wheel.is_active(3) && !wheel.is_ahead(32));
    let settled = wheel.is_settled();
    holds!(&rt; settled);
    same!(&rt; wheel.advance(15 * MS), Some(1));
    same!(&rt; (wheel.drained(), wheel.drained()), (Some(id), None));
    holds!(&rt; !wheel.is_settled());
    Ok(())
}
