//! The closing of a worker: a function for each place, the one that finds it, and what its step is to the machine and to
//! all parties.
#![tactic(auto)]

pub mod clearing;
pub mod closing;
