//! The state of an executor, part by part.

pub mod around;
pub mod held;
pub mod letters;
pub mod mail;
pub mod names;
pub mod nursery;
pub mod record;
pub mod role;
pub mod seat;
pub mod shared;
pub mod sleeping;
pub mod task_slot;
pub mod worker;
