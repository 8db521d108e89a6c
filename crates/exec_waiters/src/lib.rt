//! The requests of a worker: who waits for each, how it stands, and what is left to be told of it.
#![tactic(auto)]

pub mod completed;
pub mod deferred;
pub mod examples;
pub mod laws;
pub mod observer;
pub mod waiter;
pub mod waiter_id;
pub mod waiters;
