//! An open with its requests, and the calls on them.

use crate::fault::Fault;
use crate::make::{self, ADDRESS};
use crate::moving::{move_bytes, place_of};
use crate::words::{bytes_from, number, result, size, text_of_end, text_of_window};
use exec_base::error::{Cause, Error};
use exec_bufs::buf::IoBufMut;
use exec_outcomes::outcome::{Kind, OpResult};
use exec_request::open_record::OpenRecord;
use exec_request::output::{RequestOutput, RetiredResources};
use exec_request::request::Request;
use exec_request::results::WaiterState;
use std::alloc::{AllocError, Global};
use std::str::SplitWhitespace;

/// A request with how it ended, once it has.
#[derive(Drop)]
struct Known {
    /// The request, until it is completed.
    request: Option<Request>,
    /// How it ended.
    ended: Result<(), Error>,
    /// How many bytes it has moved.
    moved: u64,
    /// Where the range of a read begins in the file.
    place: u64,
}

/// The open of a case, and its requests by their numbers.
#[derive(Drop)]
pub struct Open {
    record: Option<OpenRecord>,
    requests: Vec<Known>,
}

impl Open {
    /// A fresh open.
    pub fn new(alloc: Global) -> Open {
        Open {
            record: Some(OpenRecord::new()),
            requests: Vec::new(alloc),
        }
    }

    /// Makes a call, and answers what it gave.
    pub fn answer(&mut self, alloc: Global, call: &str) -> Result<String, Fault> {
        let mut words = call.split_whitespace();
        let operation = words.next().unwrap_or("");
        if operation == "open" {
            return self.change(alloc, &mut words);
        }
        let index = size(&mut words)?;
        if operation == "new" {
            return self.make(alloc, index, &mut words);
        }
        let Some(known) = self.requests.get_mut(index) else {
            return Err(Fault::Malformed);
        };
        match operation {
            "grant" => grant(known, alloc, &self.record),
            "stage" => stage(known, alloc, &self.record),
            "cqe" => land(known, alloc, &mut words, &mut self.record),
            "end" => end(known, alloc, &mut self.record),
            _ => Err(Fault::Malformed),
        }
    }

    /// A call on the record of the open.
    fn change(&mut self, alloc: Global, words: &mut SplitWhitespace<'_>) -> Result<String, Fault> {
        if let Some(record) = &mut self.record {
            change_record(record, words)?;
        }
        text_of_record(alloc, &self.record)
    }

    /// Makes a request of this number, the next one.
    fn make(
        &mut self,
        alloc: Global,
        index: usize,
        words: &mut SplitWhitespace<'_>,
    ) -> Result<String, Fault> {
        if index != self.requests.len() {
            return Err(Fault::Malformed);
        }
        let seen = seen_of(&self.record);
        let request = make::request(alloc, words, seen)?;
        let word = word_of(alloc, &request, seen)?;
        let known = Known {
            place: place_of(&request),
            request,
            ended: Ok(()),
            moved: 0,
        };
        if self.requests.push(known).is_err() {
            return Err(Fault::Memory(AllocError));
        }
        Ok(word)
    }
}

fn change_record(record: &mut OpenRecord, words: &mut SplitWhitespace<'_>) -> Result<(), Fault> {
    match words.next() {
        Some("write") => record.write(),
        Some("complete") => record.complete(),
        Some("poison") => {
            let code = number(words)?;
            let code = u16::try_from(code).map_err(|_| Fault::Malformed)?;
            record.poison(Error::BlobSyncFailed(1, Cause::Code(code)));
        }
        _ => return Err(Fault::Malformed),
    }
    Ok(())
}

/// What a sync that is made now would cover.
fn seen_of(record: &Option<OpenRecord>) -> u64 {
    match record {
        Some(record) => record.begin_sync(),
        None => 0,
    }
}

/// What is answered where a request was made, or couldn't be.
fn word_of(alloc: Global, request: &Option<Request>, seen: u64) -> Result<String, AllocError> {
    match request {
        None => String::from_str(alloc, "none"),
        Some(Request::WriteAt(_) | Request::Sync(_)) => format!(in alloc; "seen {seen}"),
        Some(_) => String::from_str(alloc, "ok"),
    }
}

/// What ends a durable request that has its permit.
fn grant(known: &mut Known, alloc: Global, record: &Option<OpenRecord>) -> Result<String, Fault> {
    let Some(request) = &known.request else {
        return Err(Fault::Malformed);
    };
    let prepared = match request.kind() {
        Kind::Sync | Kind::Dsync | Kind::Many => request.prepare_durability(record),
        _ => return Err(Fault::Condition),
    };
    match prepared {
        Some(ended) => {
            known.ended = ended;
            Ok(text_of_end(alloc, ended)?)
        }
        None => Ok(String::from_str(alloc, "none")?),
    }
}

/// The next window. Looking at it first gives the same.
fn stage(known: &mut Known, alloc: Global, record: &Option<OpenRecord>) -> Result<String, Fault> {
    let Some(request) = &mut known.request else {
        return Err(Fault::Malformed);
    };
    let seen = request.window(record);
    let window = request.build_sqe(record);
    if seen != window {
        return Err(Fault::Differs);
    }
    Ok(text_of_window(alloc, window)?)
}

/// A result comes, with its bytes. Answers how the request ends, or `more`.
fn land(
    known: &mut Known,
    alloc: Global,
    words: &mut SplitWhitespace<'_>,
    record: &mut Option<OpenRecord>,
) -> Result<String, Fault> {
    let Some(request) = &mut known.request else {
        return Err(Fault::Malformed);
    };
    let given = result(words)?;
    let cancelled = number(words)? == 1;
    if let OpResult::Count(count) = given {
        let moved = move_bytes(request, alloc, known.moved, count)?;
        known.moved = known.moved.saturating_add(moved);
    }
    match judge(request, cancelled, given, record)? {
        Some(ended) => {
            known.ended = ended;
            Ok(text_of_end(alloc, ended)?)
        }
        None => Ok(String::from_str(alloc, "more")?),
    }
}

/// What a request makes of a result.
fn judge(
    request: &mut Request,
    cancelled: bool,
    given: OpResult,
    record: &mut Option<OpenRecord>,
) -> Result<Option<Result<(), Error>>, Fault> {
    if !request.may_give(given) {
        return Err(Fault::Condition);
    }
    let state = if cancelled {
        WaiterState::CancelRequested
    } else {
        WaiterState::Active { target_tick: None }
    };
    Ok(request.on_cqe(state, given, record))
}

/// Ends a request as its results said, and compares the bytes that it hands back.
fn end(known: &mut Known, alloc: Global, record: &mut Option<OpenRecord>) -> Result<String, Fault> {
    let Some(request) = known.request.take() else {
        return Err(Fault::Malformed);
    };
    let (told, retired) = request.complete(known.ended, record);
    if !is_kept(&retired) {
        return Err(Fault::Differs);
    }
    told_text(known, alloc, told, record)
}

/// Whether the address of a connect came back, where it was one.
fn is_kept(retired: &RetiredResources) -> bool {
    match retired {
        RetiredResources::Connect { address, .. } => *address == ADDRESS,
        _ => true,
    }
}

/// What is told of a request that is over, and the record of its open where it has one.
fn told_text(
    known: &Known,
    alloc: Global,
    told: RequestOutput,
    record: &Option<OpenRecord>,
) -> Result<String, Fault> {
    match told {
        RequestOutput::Send(ended) | RequestOutput::Connect(ended) | RequestOutput::Poll(ended) => {
            Ok(text_of_end(alloc, ended)?)
        }
        RequestOutput::WriteAt(ended) | RequestOutput::Sync(ended) => {
            end_and_record(alloc, ended, record)
        }
        RequestOutput::Recv(received) => text_of_receive(alloc, received, known.moved),
        RequestOutput::ReadAt(Ok(buf)) => text_of_read(alloc, buf, known.place, record),
        RequestOutput::ReadAt(Err((buf, error))) => failed_read(alloc, buf.len(), error, record),
    }
}

/// How a write or a sync ended.
fn end_and_record(
    alloc: Global,
    ended: Result<(), Error>,
    record: &Option<OpenRecord>,
) -> Result<String, Fault> {
    let word = text_of_end(alloc, ended)?;
    let record = text_of_record(alloc, record)?;
    Ok(format!(in alloc; "{word} {record}")?)
}

/// How a receive ended that moved so many bytes, which must be the last of its buffer.
fn text_of_receive(
    alloc: Global,
    received: Result<(IoBufMut, usize), (IoBufMut, Error)>,
    moved: u64,
) -> Result<String, Fault> {
    let (buf, offset) = match received {
        Ok(filled) => filled,
        Err((_, error)) => return Ok(text_of_end(alloc, Err(error))?),
    };
    let wanted = bytes_from(alloc, 0, moved as usize)?;
    let begins = offset.saturating_sub(wanted.len());
    match buf.as_slice().get(begins..offset) {
        Some(bytes) if bytes == wanted.as_slice() => Ok(format!(in alloc; "ok offset {offset}")?),
        _ => Err(Fault::Differs),
    }
}

/// How a read ended well, whose bytes must be those of its place.
fn text_of_read(
    alloc: Global,
    buf: IoBufMut,
    place: u64,
    record: &Option<OpenRecord>,
) -> Result<String, Fault> {
    let len = buf.len();
    let wanted = bytes_from(alloc, place, len)?;
    if buf.as_slice() != wanted.as_slice() {
        return Err(Fault::Differs);
    }
    let record = text_of_record(alloc, record)?;
    Ok(format!(in alloc; "ok len {len} {record}")?)
}

/// How a read failed, with a buffer of this length.
fn failed_read(
    alloc: Global,
    len: usize,
    error: Error,
    record: &Option<OpenRecord>,
) -> Result<String, Fault> {
    let word = text_of_end(alloc, Err(error))?;
    let record = text_of_record(alloc, record)?;
    Ok(format!(in alloc; "{word} len {len} {record}")?)
}

/// The record of an open, as far as it can be read.
fn text_of_record(alloc: Global, record: &Option<OpenRecord>) -> Result<String, Fault> {
    let Some(record) = record else {
        return Err(Fault::Malformed);
    };
    let failure = text_of_failure(alloc, record.failure())?;
    let mutations = record.begin_sync();
    let dirty = record.is_dirty() as u8;
    let hinted = record.hinted() as u8;
    Ok(format!(in alloc; "mutations {mutations} dirty {dirty} hinted {hinted} failure {failure}")?)
}

/// The failure that an open keeps, or `none`.
fn text_of_failure(alloc: Global, failure: Option<Error>) -> Result<String, AllocError> {
    match failure {
        Some(error) => text_of_end(alloc, Err(error)),
        None => String::from_str(alloc, "none"),
    }
}
