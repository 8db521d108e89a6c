//! The reader of traces.
//!
//! `specs/Grammar.antt` says which texts are traces, and what each says. [`read_trace`] gives the trace that a text
//! spells, or the first line at which the text is no trace. Want of memory is told only of a
//! text that is a trace: `kept.rt` says how.
//!
//! The lines are read one after another (`line.rt`): the header by a table (`header.rt`), the lines of tasks, which
//! are counted first (`task.rt`) and read word by word (`word.rt`, within `bounds.rt`), the mark `steps`, and the steps
//! (`step.rt`). What can't want memory has a type that says so: its error is a `FaultyLine`.
#![tactic(auto)]

mod bounds;
mod field;
mod header;
mod kept;
pub mod limits;
mod line;
mod number;
mod read;
mod read_error;
mod step;
mod task;
pub mod trace;
mod word;

pub use read::{one_fault, one_meaning, read_trace, total_steps};
pub use read_error::ReadError;
