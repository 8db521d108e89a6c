//! The program: its words come from the command line, the trace from standard input, and the log goes to
//! standard output.
#![tactic(auto)]

use exec_base::io::{StdInput, StdOutput};
use exec_run::{NO_MEMORY, run};
use std::env;
use std::io::{self, BufWriter};
use std::process::ExitCode;

/// Runs the program between the standard ends, and answers its status. An error means that the words or the buffer
/// could not be had.
fn status(rt: &HostRuntime) -> io::Result<u8> {
    let words: Vec<String> = env::args(rt)?.skip(1).collect(rt.alloc())?;
    let mut source = StdInput::new(rt.reader());
    let mut sink = StdOutput::new(BufWriter::new(rt.alloc(), io::writer(rt))?);
    Ok(run(rt.alloc(), words.as_slice(), &mut source, &mut sink))
}

fn main(rt: HostRuntime) -> ExitCode {
    ExitCode::from(status(&rt).unwrap_or(NO_MEMORY))
}
