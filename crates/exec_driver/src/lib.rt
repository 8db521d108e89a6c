//! The driver of a worker: its requests, their deadlines, their ring, and the gates of the opens that they need.
#![tactic(auto)]

pub mod armed;
pub mod driver;
pub mod examples;
pub mod home;
