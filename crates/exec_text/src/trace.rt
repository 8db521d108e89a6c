//! What a trace says, as it is read.

use exec_machine::config::{Configuration, ScriptWord};
use exec_machine::step::Step;

/// A whole trace.
#[derive(Debug, Drop)]
pub struct Trace {
    /// The configuration.
    pub config: Configuration,
    /// The scripts, by number.
    pub scripts: Vec<Vec<ScriptWord>>,
    /// The script of the root task.
    pub root: Vec<ScriptWord>,
    /// The steps, in order.
    pub steps: Vec<Step>,
}
