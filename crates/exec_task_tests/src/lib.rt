//! Tests of tasks, polls and the task set, apart from their crate, so that it is proved once.
#![tactic(auto)]

#[cfg(test)]
mod poll;
#[cfg(test)]
mod tasks;
