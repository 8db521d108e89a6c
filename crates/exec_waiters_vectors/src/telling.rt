//! What a call left to be told, by its words.

use exec_base::error::{Error, Word};
use exec_request::output::RequestOutput;
use exec_waiters::deferred::Deferred;
use std::alloc::{AllocError, Global};
use std::str::FromStr;

/// How a request ended, by its word.
pub fn text_of_end(alloc: Global, ended: Result<(), Error>) -> Result<String, AllocError> {
    match ended {
        Ok(()) => String::from_str(alloc, "ok"),
        Err(error) => {
            let word = Word(error);
            format!(in alloc; "{word}")
        }
    }
}

/// What an output says.
pub fn end_of(output: &RequestOutput) -> Result<(), Error> {
    match output {
        RequestOutput::Send(ended)
        | RequestOutput::WriteAt(ended)
        | RequestOutput::Sync(ended)
        | RequestOutput::Connect(ended)
        | RequestOutput::Poll(ended) => *ended,
        RequestOutput::Recv(Ok(_)) | RequestOutput::ReadAt(Ok(_)) => Ok(()),
        RequestOutput::Recv(Err((_, error))) | RequestOutput::ReadAt(Err((_, error))) => {
            Err(*error)
        }
    }
}

fn result_of(told: &Result<RequestOutput, Error>) -> Result<(), Error> {
    match told {
        Ok(output) => end_of(output),
        Err(error) => Err(*error),
    }
}

/// The lists, by their words.
pub fn text_of_lists(alloc: Global, deferred: &Deferred<u64, u64>) -> Result<String, AllocError> {
    let wakes = wakes(alloc, deferred)?;
    let completions = completions(alloc, deferred)?;
    let results = results(alloc, deferred)?;
    let outputs = deferred.outputs.len();
    let resources = deferred.resources.len();
    format!(in alloc;
        "wakes {wakes} outputs {outputs} resources {resources} completions {completions} results {results}"
    )
}

fn wakes(alloc: Global, deferred: &Deferred<u64, u64>) -> Result<String, AllocError> {
    // The number of wakes is told by the wakes alone where there are any.
    let mut text = String::new(alloc);
    if deferred.notes.wakes.is_empty() {
        text.push_str("0")?;
    }
    let mut first = true;
    for wake in &deferred.notes.wakes {
        if !first {
            text.push_str(" ")?;
        }
        first = false;
        let number = wake.0;
        text.push_str(format!(in alloc; "{number}")?.as_str())?;
    }
    let count = deferred.notes.wakes.len();
    if count == 0 {
        return Ok(text);
    }
    format!(in alloc; "{count} {text}")
}

fn completions(alloc: Global, deferred: &Deferred<u64, u64>) -> Result<String, AllocError> {
    let count = deferred.notes.completions.len();
    let mut text = format!(in alloc; "{count}")?;
    for completion in &deferred.notes.completions {
        let word = text_of_end(alloc, completion.result)?;
        let sender = completion.sender;
        text.push_str(format!(in alloc; " {sender} {word}")?.as_str())?;
    }
    Ok(text)
}

fn results(alloc: Global, deferred: &Deferred<u64, u64>) -> Result<String, AllocError> {
    let count = deferred.results.len();
    let mut text = format!(in alloc; "{count}")?;
    for answer in &deferred.results {
        let word = text_of_end(alloc, result_of(&answer.result))?;
        let sender = answer.sender;
        text.push_str(format!(in alloc; " {sender} {word}")?.as_str())?;
    }
    Ok(text)
}
