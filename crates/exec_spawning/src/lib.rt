//! The acts of a task that concern other tasks, and the end of a task: one is made, for the pool or with a worker of its
//! own, or is woken; and a task that is over leaves the task set.
//!
//! Each is what the polling worker does for one act, or at a place of its own, with the task that it polls and what
//! workers share; `exec_polling` finds which, and says what the step is to the machine and to all parties.
#![tactic(auto)]

pub mod dedicating;
pub mod ending;
pub mod spawning;
