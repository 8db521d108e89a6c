//! The ring of a worker, and a kernel in memory that stands behind it.
#![tactic(auto)]

pub mod completion;
pub mod examples;
pub mod file;
pub mod landing;
pub mod ring;
pub mod sim_ring;
pub mod socket;
pub mod store;
