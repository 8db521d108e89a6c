//! The byte containers of the port: a buffer of bytes, one with room for more, and lists of each.
#![tactic(auto)]

pub mod buf;
pub mod bufs;
pub mod bufs_mut;
pub mod examples;
