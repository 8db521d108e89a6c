//! The services of a worker's ring, its two waits, and the steps of the kernel, the clock and the peers.
//!
//! Each place has a function, which says what the worker does there; `service`, `wait_on_ring` and `wait_on_word` find
//! it, and say what the step is to the machine and to all parties. The steps of the kernel, the clock and the peers stand
//! whole here (`lines`).
#![tactic(auto)]

pub mod lines;
pub mod reaping;
pub mod ring_wait;
pub mod service;
pub mod submitting;
pub mod word_wait;
