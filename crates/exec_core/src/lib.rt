//! The executor as one value that takes a step at a time.
//!
//! `Core` has the workers and what they share (`exec_parts`) and the callers (`exec_polling`), says which steps may be
//! taken, and takes them: a worker's by `exec_steps`, one of the kernel, the clock or a peer by `exec_serving`.
//! A step of a worker touches that worker and what is shared, and nothing of another worker: that is seen in its type,
//! and from it follows that the whole takes a step of the abstract machine (`specs/Lift`).
#![tactic(auto)]

pub mod config;
pub mod examples;
pub mod executor;
pub mod laws;
pub mod local;
mod setting_up;

pub use exec_parts::parts::role::Role;
