//! No wake is lost: where all workers of a pool sleep, nothing is left to be run.
//!
//! The moves (`exec_moves`) say what each step of a worker and of a caller does. Here stands what holds in each state to
//! which they lead, for any number of workers and callers (`specs/Rested.antt`): of who puts a task into the global
//! queue and who goes to sleep, one always finds the other. Who put one in looks for a worker in the idle set
//! afterwards; who put itself into the set looks at the global queue afterwards. A worker that was found has its bit
//! taken out, its latch set and its wait ended, one after the other, and in between it is known who makes the next
//! step.
//!
//! Each fact is about one worker, or about all of them and one queue, and names only what it needs: so a step is
//! looked at once (what a move minds: `proofs/Heeds.antt`), and most steps mind nothing. No code is spoken of: whoever
//! makes moves has the law, if its lists are laid out as they should be (`IsLaidOut`).
#![tactic(auto)]

pub mod examples;
pub mod laws;
