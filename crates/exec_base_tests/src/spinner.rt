//! Spinners at the ends of their ranges, and their configurations.

use crate::found::{holds, same};
use exec_base::spinner::{Spinner, SpinnerConfig};
use std::test::Fail;

/// Spins with a condition that is true from this call on, or never at 0. Answers whether it hit, and the calls.
fn spin_until(spinner: &mut Spinner, call: u64) -> (bool, u64) {
    let mut calls = 0u64;
    let hit = spinner.spin(&mut || {
        calls = calls.saturating_add(1);
        calls == call
    });
    (hit, calls)
}

#[test]
fn sums_stand_still_at_the_end(rt: HostRuntime) {
    let cfg = SpinnerConfig {
        budget_us: u64::MAX,
        max_budget_us: u64::MAX,
        quick_wake_us: u64::MAX,
    };
    let mut spinner = Spinner::new(&cfg, 1000);
    same!(&rt; spinner.budget(), u64::MAX);
    spinner.on_wake(u64::MAX);
    same!(&rt; spinner.budget(), u64::MAX);
    same!(&rt; spinner.floor(), u64::MAX / 4);
    // Nanoseconds times looks pass 64 bits here, and their quotient doesn't.
    let wide = SpinnerConfig {
        budget_us: 1,
        max_budget_us: 1 << 60,
        quick_wake_us: 1 << 40,
    };
    let mut spinner = Spinner::new(&wide, (1 << 32) - 1);
    spinner.on_wake(1 << 40);
    same!(&rt; spinner.floor(), 1180591623663758867);
}

#[test]
fn configurations(rt: HostRuntime) -> Result<(), Fail> {
    let cfg = SpinnerConfig::default();
    let SpinnerConfig {
        budget_us,
        max_budget_us,
        quick_wake_us,
    } = cfg.clone()?;
    same!(&rt; (budget_us, max_budget_us, quick_wake_us), (2, 10, 10));
    holds!(&rt; cfg.clone()? == cfg);
    let mut off = Spinner::new(&SpinnerConfig::disabled(), 1000);
    same!(&rt; spin_until(&mut off, 1), (false, 0));
    let mut on = Spinner::new(&cfg, 5);
    same!(&rt; spin_until(&mut on, 10), (true, 10));
    same!(&rt; spin_until(&mut on, 0), (false, 12));
    Ok(())
}
