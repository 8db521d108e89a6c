//! What the results of an operation mean.
//!
//! A request asks the kernel for an operation, and where the results so far don't decide its outcome, for
//! another. This crate says which results a kernel may give (`specs/Lawful.antt`), what a list of results means
//! (`specs/Outcomes.antt`), as a function of the whole list, and what an ended request makes of the record of its
//! open (`specs/Accounts.antt`). It has no state and does nothing.
#![tactic(auto)]

pub mod examples;
pub mod laws;
pub mod outcome;
