//! One step of a worker: its place says which function takes it.
//!
//! `step` is the whole step of a worker. Polls, services, messages and the closing have crates of their own; the places
//! of a turn, of the run queues and of the looks for work stand here. Their contracts say that the step is the
//! machine's, that what holds of the worker holds again, and what it leaves of what the others rely on.
#![tactic(auto)]

pub mod kick;
pub mod loads;
pub mod look;
pub mod pop;
pub mod push;
pub mod search;
pub mod signal;
pub mod step;
pub mod turn;
