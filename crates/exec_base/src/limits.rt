//! Limits that more than one crate keeps to, each said once.

/// The most workers.
pub const MOST_WORKERS: usize = 64;

/// The most slots of a timeout wheel.
pub const MOST_SLOTS: u64 = 1_048_576;

/// The longest timeout, the longest tick of a wheel and the longest sleep, in nanoseconds: 30 years of 365 days.
pub const LONGEST_TIMEOUT: u64 = 946_080_000_000_000_000;

/// The last moment that a clock reaches, in nanoseconds.
pub const LAST_MOMENT: u64 = 1 << 62;

/// The most steps that a trace may ask for, over all its lines.
pub const MOST_STEPS: u64 = 1 << 24;
