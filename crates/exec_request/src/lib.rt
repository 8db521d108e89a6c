//! The requests that a task makes of the kernel, each with the buffers that it owns.
#![tactic(auto)]

pub mod buffers;
mod bytes;
pub mod cache;
pub mod connect;
pub mod examples;
mod judge;
pub mod open_record;
pub mod output;
pub mod poll;
pub mod read_at;
pub mod recv;
pub mod request;
pub mod results;
pub mod send;
pub mod sync;
pub mod way;
pub mod window;
pub mod write_at;
