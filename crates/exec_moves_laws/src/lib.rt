//! A step sees the one shared thing that its place names.
//!
//! The moves (`exec_moves`) say what each step does, and a law there that it writes, of the things that parties share
//! beside the machine's common part, only the one that its place names. Here stands that it reads no other either. Two
//! states of those things that look alike there (`specs/Sees.antt`), however they differ elsewhere, have the same event,
//! the same choice and the same desk come of the step, and look alike there again. Of the common part, which a move has
//! whole, nothing is said. No code is spoken of: whoever makes moves has the law.
#![tactic(auto)]

pub mod examples;
pub mod laws;
