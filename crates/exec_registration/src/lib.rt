//! Registrations: how a task waits for a request or a sleeper of a worker, also once it is polled by another one.
#![tactic(auto)]

pub mod examples;
pub mod keys;
pub mod mail;
pub mod operation;
pub mod registration;
