//! The polls of tasks, and the calls from outside: who makes tasks, wakes them, and has them do what their bodies ask
//! for.
//!
//! Each place has a function, which says what the worker does there; `poll` finds it (`send_cancel` the whole step of
//! `exec_steps` does), and says what the step is to the machine and to all parties. The steps of outside callers stand whole here (`callers`).
#![tactic(auto)]

pub mod caller;
pub mod callers;
pub mod poll;
pub mod registering;
pub mod resuming;
pub mod sending;
