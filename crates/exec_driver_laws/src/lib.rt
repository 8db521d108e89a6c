//! Laws of drivers: whatever calls workers make, one durable request of an open is in flight at most, and each request
//! ends once.
#![tactic(auto)]

pub mod ends;
pub mod examples;
pub mod lawful;
pub mod laws;
pub mod lines;
pub mod owning;
pub mod registering;
pub mod runs;
pub mod waiting;
