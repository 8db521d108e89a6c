//! What plays a table of steps: two requests, of which one goes on, and the record of their open.

use crate::make::{self, Ask};
use exec_base::error::Error;
use exec_outcomes::outcome::OpResult;
use exec_request::buffers::WriteBuffers;
use exec_request::open_record::OpenRecord;
use exec_request::output::{RequestOutput, RetiredResources};
use exec_request::read_at::ReadAtRequest;
use exec_request::request::Request;
use exec_request::results::WaiterState;
use exec_request::sync::SyncRequest;
use exec_request::window::{Opcode, Window};
use exec_request::write_at::WriteAtState;
use std::alloc::Global;
use std::mem;
use std::process::Abort;
use std::test::Fail;

/// What a request answers to a result: how it ended, or None where it goes on.
pub type Answer = Option<Result<(), Error>>;

/// A step. What it has besides its arguments is what has to come of it.
pub enum Step {
    /// A fresh record of the open. Before the first of these there is none.
    Open,
    /// A request is made, and goes on in place of the one before.
    Make(Ask),
    /// The other request goes on from here.
    Swap,
    /// An operation is asked for, and this comes of it: what the request answers.
    Turn(Wanted, OpResult, Answer),
    /// As a turn, where cancellation had been asked for.
    Cancelled(Wanted, OpResult, Answer),
    /// The request ends so: what is told, and what comes back.
    End(Result<(), Error>, Told, Kept),
    /// The deadline of the request, whether it goes on where nobody waits, and the open whose permit it needs.
    Asks(Option<u64>, bool, Option<u32>),
    /// How far the request is, which is a write.
    Writes(WriteAtState),
    /// What ends a sync that covers so many changes as it gets its permit.
    Grant(u64, Answer),
    /// Whether a direct read of a range can be made, by its offset and length.
    Direct(u64, usize, bool),
    /// What the record says: its changes, whether one isn't covered, whether it still has the hint, and its failure.
    Shows(u64, bool, bool, Option<Error>),
}

/// An operation that is asked for.
pub enum Wanted {
    /// A send of so many bytes.
    Sends(u32),
    /// A receive of so many bytes.
    Receives(u32),
    /// A read, by its offset and length, and whether it has the hint.
    Reads(u64, u32, bool),
    /// A direct read, by its offset and length.
    ReadsDirectly(u64, u32),
    /// A write of so many bytes at the file's start, and whether it is durable.
    Writes(u32, bool),
    /// A sync.
    Syncs,
    /// A connect.
    Connects,
    /// A readiness poll.
    Polls,
}

/// What is told of a request that is over.
pub enum Told {
    /// It isn't looked at.
    Any,
    /// A send ended well.
    Sent,
    /// A poll ended well.
    Polled,
    /// A receive ended well, with so many bytes.
    Received(usize),
    /// A receive ended so.
    NotReceived(Error),
    /// A read ended well, with so many bytes.
    Read(usize),
    /// A read ended so, with an empty buffer.
    NotRead(Error),
    /// A write ended so.
    Written(Result<(), Error>),
    /// A sync ended so.
    Synced(Result<(), Error>),
}

/// What comes back of a request that is over.
pub enum Kept {
    /// It isn't looked at.
    Any,
    /// A listener.
    Listener(u32),
    /// The socket of a receive.
    Socket(u32),
    /// The socket of a send, and one chunk of which so many bytes have gone.
    Sender(u32, usize),
    /// The socket of a connect.
    Connect(u32),
    /// An open, and whether there are the bytes of a write.
    File(u32, bool),
}

/// Plays these steps one after another. What comes of one has to be what the step says.
pub fn play(rt: &impl Abort, alloc: Global, steps: &[Step]) -> Result<(), Fail> {
    let mut trial = Trial {
        request: None,
        other: None,
        open_: None,
    };
    for (at, step) in steps.iter().enumerate() {
        let is_so = trial.take(alloc, step)?;
        assert!(rt; is_so, "at step {at}, counted from 0");
    }
    Ok(())
}

/// A request that goes on, another one, and the record of their open.
#[derive(Drop)]
struct Trial {
    request: Option<Request>,
    other: Option<Request>,
    open_: Option<OpenRecord>,
}

impl Trial {
    /// Takes a step: whether what comes of it is what the step says.
    fn take(&mut self, alloc: Global, step: &Step) -> Result<bool, Fail> {
        Ok(match step {
            Step::Open => {
                self.open_ = Some(OpenRecord::new());
                true
            }
            Step::Make(ask) => {
                self.request = Some(make::request(alloc, ask, &self.open_)?);
                true
            }
            Step::Swap => {
                mem::swap(&mut self.request, &mut self.other);
                true
            }
            Step::Turn(wanted, given, answer) => self.turn(false, wanted, *given, *answer),
            Step::Cancelled(wanted, given, answer) => self.turn(true, wanted, *given, *answer),
            Step::End(ended, told, kept) => self.end(*ended, told, kept),
            Step::Direct(offset, length, is_made) => {
                can_read_directly(alloc, *offset, *length)? == *is_made
            }
            step => self.look(step),
        })
    }

    /// Lets the request ask for its next operation, and gives it this result.
    fn turn(&mut self, cancelled: bool, wanted: &Wanted, given: OpResult, answer: Answer) -> bool {
        let Some(request) = &mut self.request else {
            return false;
        };
        let window = request.build_sqe(&self.open_);
        if window != window_of(wanted, window) || !request.may_give(given) {
            return false;
        }
        let state = if cancelled {
            WaiterState::CancelRequested
        } else {
            WaiterState::Active { target_tick: None }
        };
        request.on_cqe(state, given, &mut self.open_) == answer
    }

    /// Ends the request.
    fn end(&mut self, ended: Result<(), Error>, told: &Told, kept: &Kept) -> bool {
        let Some(request) = self.request.take() else {
            return false;
        };
        let (output, retired) = request.complete(ended, &mut self.open_);
        is_told(&output, told) && is_kept(&retired, kept)
    }

    /// Whether a step that is a look finds what it says.
    fn look(&self, step: &Step) -> bool {
        match step {
            Step::Asks(deadline, retains, open_) => self.asks(*deadline, *retains, *open_),
            Step::Writes(state) => self.writes(*state),
            Step::Grant(seen, answer) => granted(*seen, &self.open_) == *answer,
            Step::Shows(changes, dirty, hinted, failure) => {
                self.shows(*changes, *dirty, *hinted) && self.failure() == *failure
            }
            _ => false,
        }
    }

    fn asks(&self, deadline: Option<u64>, retains: bool, open_: Option<u32>) -> bool {
        let Some(request) = &self.request else {
            return false;
        };
        request.deadline() == deadline
            && request.retains_on_orphan() == retains
            && request.durability() == open_
    }

    fn writes(&self, state: WriteAtState) -> bool {
        match &self.request {
            Some(Request::WriteAt(write)) => write.state == state,
            _ => false,
        }
    }

    fn shows(&self, changes: u64, dirty: bool, hinted: bool) -> bool {
        match &self.open_ {
            Some(record) => {
                record.begin_sync() == changes
                    && record.is_dirty() == dirty
                    && record.hinted() == hinted
            }
            None => false,
        }
    }

    fn failure(&self) -> Option<Error> {
        match &self.open_ {
            Some(record) => record.failure(),
            None => None,
        }
    }
}

fn granted(seen: u64, open_: &Option<OpenRecord>) -> Answer {
    Request::Sync(SyncRequest::new(2, seen)).prepare_durability(open_)
}

fn can_read_directly(alloc: Global, offset: u64, length: usize) -> Result<bool, Fail> {
    Ok(ReadAtRequest::direct(alloc, 1, offset, length)?.is_some())
}

/// What is wanted as a window. Its target and its chunks are those of the window that came, since no step says them.
fn window_of(wanted: &Wanted, came: Window) -> Window {
    match *wanted {
        Wanted::Sends(length) => plain(Opcode::Send, 0, length, came),
        Wanted::Receives(length) => plain(Opcode::Recv, 0, length, came),
        Wanted::Reads(offset, length, hint) => Window {
            hint,
            ..plain(Opcode::Read, offset, length, came)
        },
        Wanted::ReadsDirectly(offset, length) => Window {
            direct: true,
            ..plain(Opcode::Read, offset, length, came)
        },
        Wanted::Writes(length, dsync) => Window {
            dsync,
            ..plain(Opcode::Write, 0, length, came)
        },
        Wanted::Syncs => plain(Opcode::Sync, 0, 0, came),
        Wanted::Connects => plain(Opcode::Connect, 0, 0, came),
        Wanted::Polls => plain(Opcode::Poll, 0, 0, came),
    }
}

/// A window without the hint that is neither direct nor durable.
fn plain(kind: Opcode, offset: u64, length: u32, came: Window) -> Window {
    Window {
        kind,
        offset,
        length,
        hint: false,
        direct: false,
        dsync: false,
        ..came
    }
}

fn is_told(output: &RequestOutput, told: &Told) -> bool {
    match told {
        Told::Any => true,
        Told::Sent => matches!(output, RequestOutput::Send(Ok(()))),
        Told::Polled => matches!(output, RequestOutput::Poll(Ok(()))),
        Told::Received(count) => matches!(output, RequestOutput::Recv(Ok((_, n))) if *n == *count),
        Told::NotReceived(error) => {
            matches!(output, RequestOutput::Recv(Err((_, e))) if *e == *error)
        }
        Told::Read(count) =>
            matches!(output, RequestOutput::ReadAt(Ok(buf)) if buf.len() == *count),
        Told::NotRead(error) => {
            matches!(output, RequestOutput::ReadAt(Err((buf, e))) if buf.len() == 0 && *e == *error)
        }
        Told::Written(ended) => matches!(output, RequestOutput::WriteAt(told) if *told == *ended),
        Told::Synced(ended) => matches!(output, RequestOutput::Sync(told) if *told == *ended),
    }
}

fn is_kept(retired: &RetiredResources, kept: &Kept) -> bool {
    match kept {
        Kept::Any => true,
        Kept::Listener(at) => matches!(retired, RetiredResources::Listener { fd } if *fd == *at),
        Kept::Socket(at) => matches!(retired, RetiredResources::Socket { fd } if *fd == *at),
        Kept::Connect(at) => matches!(retired, RetiredResources::Connect { fd, .. } if *fd == *at),
        Kept::Sender(at, gone) => matches!(
            retired,
            RetiredResources::Send {
                fd,
                write: WriteBuffers::Single { offset, .. }
            } if *fd == *at && *offset == *gone
        ),
        Kept::File(at, written) => matches!(
            retired,
            RetiredResources::File { file, write } if *file == *at && write.is_some() == *written
        ),
    }
}
