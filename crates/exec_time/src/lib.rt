//! Deadlines: the wheel that holds those of requests, the sleepers of a worker, and a sleep.
#![tactic(auto)]

mod entries;
pub mod examples;
pub mod laws;
pub mod notes;
pub mod sleep;
mod ticks;
pub mod timers;
pub mod wheel;
