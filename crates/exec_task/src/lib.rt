//! Tasks: their phases, what they run, and the set of those that are live.
#![tactic(auto)]

pub mod body;
pub mod drain;
pub mod examples;
pub mod laws;
pub mod place;
pub mod poll;
pub mod runnable;
pub mod task;
pub mod tasks;
