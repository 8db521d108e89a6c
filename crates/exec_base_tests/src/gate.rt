//! A gate that several wait at.

use crate::found::{holds, same};
use exec_base::gate::Gate;
use std::test::Fail;

#[test]
fn those_who_wait_are_served_in_order(rt: HostRuntime) -> Result<(), Fail> {
    let mut gate = Gate::new(rt.alloc());
    holds!(&rt; gate.enter(3));
    gate.reserve(rt.alloc(), 1)?;
    holds!(&rt; !gate.enter(5));
    gate.reserve(rt.alloc(), 1)?;
    holds!(&rt; !gate.enter(4));
    same!(&rt; (gate.holder(), gate.waiting()), (Some(3), 2));
    same!(&rt; gate.leave(), Some(5));
    same!(&rt; gate.holder(), Some(5));
    same!(&rt; gate.leave(), Some(4));
    same!(&rt; gate.leave(), None);
    same!(&rt; (gate.holder(), gate.waiting()), (None, 0));
    holds!(&rt; gate.enter(6));
    Ok(())
}
