//! Reads texts, and compares what was read with what has to come of it.

use exec_text::trace::Trace;
use exec_text::{ReadError, read_trace, total_steps};
use std::alloc::Global;
use std::fmt::Debug;
use std::process::Abort;
use std::test::Fail;

/// What of a trace is looked at.
pub enum Of {
    /// The configuration.
    Config,
    /// All scripts.
    Scripts,
    /// The last script, if there is one.
    LastScript,
    /// The root's script.
    Root,
    /// The steps.
    Steps,
    /// How many steps they are.
    Total,
}

/// What stands around the part of a text that a row names.
pub struct Frame {
    /// What comes first.
    pub header: &'static str,
    /// What comes then, before the part.
    pub before: &'static str,
    /// What comes after the part.
    pub after: &'static str,
}

/// The text of a header and a body is a trace, and says this: each row is what is looked at, and how `Debug` writes it.
pub fn says(
    rt: &impl Abort,
    alloc: Global,
    header: &str,
    body: &str,
    rows: &[(Of, &str)],
) -> Result<(), Fail> {
    let text = format!(in alloc; "{header}{body}")?;
    for (of, wanted) in rows {
        let said = look(alloc, text.as_str(), of)?;
        assert_eq!(rt; said.as_str(), *wanted);
    }
    Ok(())
}

fn look(alloc: Global, text: &str, of: &Of) -> Result<String, Fail> {
    let trace = read(alloc, text)?;
    match of {
        Of::Config => shown(alloc, &trace.config),
        Of::Scripts => shown(alloc, &trace.scripts),
        Of::LastScript => shown(alloc, &trace.scripts.last()),
        Of::Root => shown(alloc, &trace.root),
        Of::Steps => shown(alloc, &trace.steps),
        Of::Total => shown(alloc, &total_steps(&trace.steps)),
    }
}

fn read(alloc: Global, text: &str) -> Result<Trace, Fail> {
    match tried(alloc, text) {
        Ok(trace) => Ok(trace),
        Err(_) => Err("the text is no trace".into()),
    }
}

/// Reads a text. What the reader promises ends here, since no test needs it.
fn tried(alloc: Global, text: &str) -> Result<Trace, ReadError> {
    read_trace(alloc, text.as_bytes())
}

fn shown<T: Debug>(alloc: Global, value: &T) -> Result<String, Fail> {
    Ok(format!(in alloc; "{value:?}")?)
}

/// Each of these parts makes the text around it go wrong, each at the line beside it.
pub fn faults(
    rt: &impl Abort,
    alloc: Global,
    frame: &Frame,
    rows: &[(&str, usize)],
) -> Result<(), Fail> {
    for (part, line) in rows {
        let found = fault_around(alloc, frame, part)?;
        assert_eq!(rt; found, Some(*line), "at {part:?}");
    }
    Ok(())
}

/// Each of these parts makes the text around it go wrong at this line.
pub fn faults_at(
    rt: &impl Abort,
    alloc: Global,
    line: usize,
    frame: &Frame,
    parts: &[&str],
) -> Result<(), Fail> {
    for part in parts {
        let found = fault_around(alloc, frame, part)?;
        assert_eq!(rt; found, Some(line), "at {part:?}");
    }
    Ok(())
}

fn fault_around(alloc: Global, frame: &Frame, part: &str) -> Result<Option<usize>, Fail> {
    let Frame {
        header,
        before,
        after,
    } = frame;
    let text = format!(in alloc; "{header}{before}{part}{after}")?;
    Ok(fault(alloc, text.as_str()))
}

/// The line at which a text is no trace. None where it is one, or where memory is wanting.
pub fn fault(alloc: Global, text: &str) -> Option<usize> {
    match tried(alloc, text) {
        Err(ReadError::Syntax(line)) => Some(line),
        _ => None,
    }
}

/// Whether a text is a trace.
pub fn is_trace(alloc: Global, text: &str) -> bool {
    tried(alloc, text).is_ok()
}
