//! What every part of the executor stands on: its errors, the two ends that it reads and writes, and the small
//! parts that hold no request: a slab, a gate, a one-shot, a spinner, and the way to another worker.
#![tactic(auto)]

pub mod error;
pub mod gate;
pub mod io;
pub mod limits;
pub mod one_shot;
pub mod post;
pub mod slab;
pub mod spinner;
pub mod task_no;
