//! A trace is read from a source, run, and its log is written to a sink.
//!
//! `run_trace` does this for a text, and `run` is the whole program between its words and its status.
//! What they ensure is said in `specs/`: `Log.antt` says what a log or a front of one is, `Refusal.antt` why
//! a text is not run, `Ranges.antt` which configurations may be run, and `Explains.antt` what an error or a status
//! says. `script.rt` is the body that a task runs.
#![tactic(auto)]

mod asking;
mod complaint;
pub mod examples;
pub mod field;
mod file_range;
mod passing;
mod ranges;
mod reading;
mod running;
pub mod script;
mod setting_up;
mod stepping;
mod trace_error;
mod writing;

pub use complaint::Complaint;
pub use running::{NO_MEMORY, run, run_trace};
pub use trace_error::TraceError;
