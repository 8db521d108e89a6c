//! What the workers of an executor have and share, and what several groups of their steps do alike.
//!
//! An executor is a list of workers and what they share. `parts` has the state: what only its own worker touches
//! (`Worker`), what others may touch of a worker (`Seat`), and what belongs to all (`Shared`). Beside it stand acts on
//! others' seats and on tasks, most of which several groups make (`sending`, `signal`, `waking`, `claim`), and where
//! parts of a turn lead (`ways`).
//!
//! The steps themselves stand in the crates of their groups, one function a place, which are those of
//! `exec_moves::place`. Each takes `&mut Worker`, and `&mut Shared` where it names a shared thing. So what a step does
//! not name can't change by it, and that a step leaves the other workers alone is seen in its type. What a step does is a
//! definition: from its place, its local values and the one shared thing, the event, the next place, and what becomes of
//! them. Its function says that, and the little that it needs; what holds of all workers together is said of the whole
//! step, by the function of its group that finds it.
#![tactic(auto)]

pub mod claim;
pub mod parts;
pub mod scripted;
pub mod sending;
pub mod signal;
pub mod waking;
pub mod ways;
