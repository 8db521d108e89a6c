//! The opens that workers share, by number: for each what is kept of it, and the line of its durable requests.
#![tactic(auto)]

pub mod examples;
pub mod opens;
