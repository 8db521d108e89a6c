//! Adaptive spinning before a worker parks.
//!
//! A worker that finds nothing to do looks again and again for a while before it parks, since parking and waking
//! cost more than a few looks. How many looks it makes, its budget, follows what happens:
//!
//! - a hit, work that came while it looked, makes the budget grow by a quarter;
//! - a miss makes it shrink by an eighth, but not below the floor, which shrinks by a sixteenth;
//! - a quick wake, work that came soon after it parked, makes it grow by a half, and moves the floor a quarter of
//!   the way to the number of looks that would have met the work.
//!
//! All numbers are looks ("iterations"). How many fit into a microsecond is told by the maker of the spinner, which
//! upstream measures. A sum that would pass 2^64 - 1 stands still there.
//!
//! A spinner has no states but its numbers: the budget lies between the least and the greatest of its configuration,
//! and the floor isn't above the greatest (`IsInBounds`). `after_hit`, `after_miss` and `after_wake` say what each
//! event makes of them. A budget of 0 stays 0, so a spinner that is switched off never calls.

ghost use Rattle.std.specs.Prelude.{◌≡◌, ◌≢◌, ◌≤◌, ◌<◌, true, false};
ghost use Rattle.exec_base.specs.Spinner.{begun, after_hit, after_miss, after_wake, after_spin, looks_in, IsSpun, ten_to_fifty};

use std::hint;
use std::marker::Model;

/// How a worker spins. All fields are in microseconds.
#[derive(Clone, Debug, PartialEq, Eq, Drop)]
pub struct SpinnerConfig {
    /// The first and the least budget. 0 switches spinning off.
    pub budget_us: u64,
    /// The greatest budget.
    pub max_budget_us: u64,
    /// Up to how long a sleep counts as a quick wake.
    pub quick_wake_us: u64,
}

impl SpinnerConfig {
    /// No spinning.
    pub const fn disabled() -> Self
        ensures { result ≡ record { budget_us = 0; max_budget_us = 0; quick_wake_us = 0 } }
    {
        SpinnerConfig {
            budget_us: 0,
            max_budget_us: 0,
            quick_wake_us: 0,
        }
    }
}

impl Default for SpinnerConfig {
    ghost use Rattle.std.specs.Prelude.{◌≡◌};

    ghost is_default = { λ c. c ≡ record { budget_us = 2; max_budget_us = 10; quick_wake_us = 10 } };

    fn default() -> Self {
        SpinnerConfig {
            budget_us: 2,
            max_budget_us: 10,
            quick_wake_us: 10,
        }
    }
}

/// The budget of a worker, and what it learned. Ports `commonware_runtime`'s `iouring::spinner::Spinner`.
#[derive(Drop)]
pub struct Spinner {
    budget: u64,
    // What the budget doesn't fall below, learned from quick wakes.
    floor: u64,
    min_budget: u64,
    max_budget: u64,
    iters_per_us: u64,
    // Up to how many nanoseconds a sleep counts as a quick wake.
    quick_wake: u64,
}

impl Model for Spinner {
    ghost use Rattle.exec_base.specs.Spinner.{Spinner as Looks};

    ghost Value = { Looks };

    ghost use Rattle.exec_base.specs.SpinnerLayout.{spinner_of, IsInBounds};

    ghost view = { spinner_of };

    ghost invariant = { IsInBounds };
}

impl Spinner {
    /// A spinner at its least budget, where so many looks take a microsecond. The caller must have a configuration
    /// whose least budget isn't above its greatest.
    pub fn new(cfg: &SpinnerConfig, iters_per_us: u64) -> Self
        requires { cfg.now.budget_us ≤ cfg.now.max_budget_us }
        ensures { result ≡ begun cfg.now iters_per_us }
    {
        let min_budget = cfg.budget_us.saturating_mul(iters_per_us);
        Spinner {
            budget: min_budget,
            floor: min_budget,
            min_budget,
            max_budget: cfg.max_budget_us.saturating_mul(iters_per_us),
            iters_per_us,
            quick_wake: cfg.quick_wake_us.saturating_mul(1000),
        }
    }

    /// How many looks the next spin makes at most.
    pub fn budget(&self) -> u64
        ensures budget { result ≡ self.now.budget }
        ensures least { self.now.min_budget ≤ result }
        ensures most { result ≤ self.now.max_budget }
    {
        self.budget
    }

    /// What the budget doesn't fall below after a miss, in looks. It is learned from quick wakes.
    pub fn floor(&self) -> u64
        ensures { result ≡ self.now.floor }
    {
        self.floor
    }

    /// Calls `condition` until it is true, or as often as the budget says, and answers whether it was true. It is
    /// called no more once the answer is known. The budget is adapted. With budget 0 nothing is called and nothing
    /// changes. The caller must have a condition that may always be called.
    pub fn spin<C: FnMut() -> bool>(&mut self, condition: &mut C) -> bool
        requires { C.IsAlwaysCallable condition.old }
        ensures calls { IsSpun C.step self.old.budget condition.old condition.new result }
        ensures adapted { self.new ≡ after_spin self.old result }
    {
        for _ in 0..self.budget {
            if condition() {
                self.on_hit();
                return true;
            }
            hint::spin_loop();
        }
        self.on_miss();
        false
    }

    /// Work came while the worker looked.
    pub fn on_hit(&mut self)
        ensures { self.new ≡ after_hit self.old }
    {
        let grown = self.budget.saturating_add(self.budget / 4);
        self.budget = grown.min(self.max_budget);
    }

    /// The budget was used up without work. With budget 0 nothing changes.
    pub fn on_miss(&mut self)
        ensures { self.new ≡ after_miss self.old }
    {
        if self.budget == 0 {
            return;
        }
        self.floor -= self.floor / 16;
        let shrunk = self.budget - self.budget / 8;
        self.budget = shrunk.max(self.floor).max(self.min_budget);
    }

    /// The worker parked, slept for so many nanoseconds, and was woken by work.
    pub fn on_wake(&mut self, nanos: u64)
        ensures { self.new ≡ after_wake self.old nanos }
    {
        if nanos > self.quick_wake {
            return;
        }
        let grown = self.budget.saturating_add(self.budget / 2);
        self.budget = grown.min(self.max_budget);
        let looks = looks_in(nanos, self.iters_per_us);
        let floor = self.floor.saturating_mul(3).saturating_add(looks) / 4;
        self.floor = floor.min(self.max_budget);
    }
}

// How many looks fit into so many nanoseconds.
fn looks_in(nanos: u64, iters_per_us: u64) -> u64
    ensures { result ≡ looks_in nanos iters_per_us }
{
    let looks = nanos as u128 * iters_per_us as u128 / 1000;
    u64::try_from(looks).unwrap_or(u64::MAX)
}

/// Budget 10, at most 50 and quick wakes up to 50 microseconds, with 5 looks a microsecond.
pub fn budgets()
    ensures begun { ten_to_fifty.budget ≡ 50 }
    ensures hit { (after_spin ten_to_fifty true).budget ≡ 62 }
    ensures miss { (after_spin (after_spin ten_to_fifty true) false).budget ≡ 55 }
    ensures woken { (after_wake ten_to_fifty 30000).budget ≡ 75 }
    ensures floor { (after_wake ten_to_fifty 30000).floor ≡ 75 }
    ensures edge { after_wake ten_to_fifty 50000 ≢ ten_to_fifty }
    ensures slow { after_wake ten_to_fifty 50001 ≡ ten_to_fifty }
{}
