//! The record of a request.
//!
//! A driver forgets what is over and taken, and gives its slot again. What the executor has made known of each request
//! stays: what it asked for, whose it was, how far it came, and how it ended. While the request is with its driver, its
//! record says the same as the driver; each event of a request changes both. Results are not kept: as the request
//! itself, its record has a cursor that stands for all of them. A request has one part or two: a direct read may go on
//! through the page cache, and a write may end with a sync. The cursor says which part it is in, how many bytes that has
//! moved, and whether a hint was refused.

ghost use Rattle.std.specs.Prelude.{◌≡◌, ◌≤◌, not, ◌+◌, ◌^◌, ◌<◌, ◌&&◌, Bool, false, nat_le};
ghost use Rattle.exec_parts.specs.{Words.{asked_in, asked_of, asks_hint, bytes_of, counted_for, cursor_in, dropped, ends_by_drop, expired, flown, granted, is_durable, is_flying, is_lawful, is_of_file, is_resolved, is_unsent, is_unsupported, moves_on, new_request, outcome_at_expiry, part_now, reaped, resolved, resolved_if, target_of, window_of}, Records.{outcome_in, offset_in, operation_in, seen_in, IsCountable, IsInRange}, Calls.{paying, releasing, forwarded_for}};

use exec_base::error::Error;
use exec_machine::state::{Forwarding, Operation, Request, RequestPhase};
use exec_outcomes::outcome::{Kind, LARGEST_COUNT, OpResult, Outcome};
use exec_request::read_at::DIRECT_CHUNK;
use exec_request::request::Request as Asked;
use exec_request::results::LARGEST_WINDOW;
use exec_request::way::Way;
use exec_waiters::waiter_id::WaiterId;

/// The record of a request, with its name in its driver.
#[derive(Clone, Copy, Debug)]
pub struct Record {
    /// What is known of it.
    pub shown: Request,
    /// Its name in the driver of its worker, as long as it has one.
    pub id: WaiterId,
    /// Whether its output was sent to the task that waits for it elsewhere.
    pub sent: bool,
}

impl Record {
    /// The record of a request that a worker has just made.
    pub fn new(worker: usize, id: WaiterId, operation: Operation) -> Self
        ensures { result ≡ record { shown = new_request worker operation; id = id; sent = false } }
    {
        let phase = if is_durable(operation.kind) {
            RequestPhase::Gated
        } else {
            RequestPhase::Queued
        };
        Record {
            shown: Request {
                operation,
                worker,
                phase,
                timer: None,
                observed: true,
                cancelled: false,
                cancel_staged: false,
                released: false,
                waiter: None,
                wakes_paid: 0,
                forwarding: Forwarding::Unsent,
            },
            id,
            sent: false,
        }
    }

    /// It is over so.
    pub fn resolve(&mut self, outcome: Outcome)
        ensures { self.new ≡ record self.old { shown = resolved outcome self.old.shown } }
    {
        self.shown.phase = RequestPhase::Resolved(outcome);
        self.shown.timer = None;
    }

    /// It is over, where it has an outcome.
    pub(crate) fn resolve_if(&mut self, outcome: Option<Outcome>)
        ensures { self.new ≡ record self.old { shown = resolved_if outcome self.old.shown } }
    {
        if let Some(outcome) = outcome {
            self.resolve(outcome);
        }
    }

    /// How it ended, where it is over.
    pub fn outcome(&self) -> Option<Outcome>
        ensures { result ≡ outcome_in self.now.shown.phase }
    {
        match self.shown.phase {
            RequestPhase::Resolved(outcome) => Some(outcome),
            _ => None,
        }
    }

    /// Whether it is over.
    pub fn is_over(&self) -> bool
        ensures { result ≡ is_resolved self.now.shown.phase }
    {
        matches!(self.shown.phase, RequestPhase::Resolved(_))
    }

    /// Whether the kernel has its operation, and may end it with this result. The caller must know that the bytes of a
    /// direct read, rounded up to whole pages, can be counted.
    pub fn may_land(&self, given: OpResult) -> bool
        requires bytes { IsCountable self.now.shown.operation }
        ensures { result ≡ (is_flying self.now.shown.phase && is_lawful (window_of (asked_in self.now.shown.operation) (cursor_in self.now.shown.operation)) given) }
    {
        matches!(self.shown.phase, RequestPhase::Flying)
            && given.is_lawful(window(&self.shown.operation))
    }

    /// Nobody holds it any more. A write or a sync goes on; any other is over where the kernel doesn't have it, and
    /// cancelled where the kernel does. Answers whether it is over by that.
    pub fn let_go(&mut self) -> bool
        ensures ended { result ≡ ends_by_drop self.old.shown }
        ensures shown { self.new.shown ≡ dropped self.old.shown }
        ensures id { self.new.id ≡ self.old.id }
        ensures sent { self.new.sent ≡ self.old.sent }
    {
        self.shown.observed = false;
        match (self.shown.operation.kind, self.shown.phase) {
            (Kind::Write | Kind::Dsync | Kind::Many | Kind::Sync, _) => {}
            (_, RequestPhase::Queued) => {
                self.resolve(Outcome::Failure(Error::Timeout));
                return true;
            }
            (_, RequestPhase::Staged | RequestPhase::Flying | RequestPhase::Landed(_))
                if !self.shown.cancelled => {
                self.shown.cancelled = true;
                self.shown.timer = None;
            }
            _ => {}
        }
        false
    }

    /// Its deadline has come. It is over where the kernel doesn't have it, and then this is its outcome; else it is
    /// cancelled.
    pub fn expire(&mut self) -> Option<Outcome>
        ensures outcome { result ≡ outcome_at_expiry self.old.shown }
        ensures expired { self.new ≡ record self.old { shown = expired result self.old.shown } }
    {
        if matches!(self.shown.phase, RequestPhase::Queued) {
            let outcome = Outcome::Failure(Error::Timeout);
            self.resolve(outcome);
            return Some(outcome);
        }
        self.shown.cancelled = true;
        self.shown.timer = None;
        None
    }

    /// Its operation is put into the submission queue, with the hint or without.
    pub fn stage(&mut self, hinted: bool)
        ensures shown { self.new.shown ≡ record self.old.shown { operation = record self.old.shown.operation { hinted = hinted }; phase = RequestPhase.Staged } }
        ensures id { self.new.id ≡ self.old.id }
        ensures sent { self.new.sent ≡ self.old.sent }
    {
        self.shown.operation.hinted = hinted;
        self.shown.phase = RequestPhase::Staged;
    }

    /// It pays a wake. The caller must know that it has paid one at most.
    pub fn pay(&mut self)
        requires { self.old.shown.wakes_paid ≤ 1 }
        ensures { self.new ≡ paying self.old }
    {
        self.shown.wakes_paid += 1;
    }

    /// What it owned is let go.
    pub fn release(&mut self)
        ensures { self.new ≡ releasing self.old }
    {
        self.shown.released = true;
    }

    /// The kernel has its operation, where that was in the submission queue.
    pub fn fly(&mut self)
        ensures flown { self.new ≡ record self.old { shown = flown self.old.shown.worker self.old.shown } }
    {
        if matches!(self.shown.phase, RequestPhase::Staged) {
            self.shown.phase = RequestPhase::Flying;
        }
    }

    /// It has the permit of its open, or is over by what is known of that.
    pub fn grant(&mut self, outcome: Option<Outcome>)
        ensures { self.new ≡ record self.old { shown = granted outcome self.old.shown } }
    {
        self.shown.phase = RequestPhase::Queued;
        self.resolve_if(outcome);
    }

    /// Whether its next operation asks for the hint, where its open has that: a read that was made so, or one that was
    /// direct and isn't any more, as long as no hint of it was refused.
    pub fn asks_hint(&self) -> bool
        ensures { result ≡ (asks_hint self.now.shown.operation && self.now.shown.operation.unrefused) }
    {
        let operation = &self.shown.operation;
        match operation.kind {
            Kind::Hint => operation.unrefused,
            Kind::Direct => operation.switched && operation.unrefused,
            _ => false,
        }
    }

    /// A task of another worker waits for it, and its worker is told so.
    pub fn forward(&mut self, task: usize)
        ensures { self.new ≡ forwarded_for task self.old }
    {
        self.shown.waiter = Some(task);
        self.shown.forwarding = Forwarding::Sent;
    }

    /// Whether a task of another worker waited for it at any time.
    pub fn was_forwarded(&self) -> bool
        ensures { result ≡ not (is_unsent self.now.shown.forwarding) }
    {
        !matches!(self.shown.forwarding, Forwarding::Unsent)
    }

    /// A result of it was judged, and what it gives. One that was to be asked for again moved nothing; a refused hint is
    /// given up; and where the first part of two is over, the second begins. The caller must know that the bytes that it
    /// has moved then, and the bytes of a direct read, rounded up to whole pages, can be counted.
    pub fn judge(&mut self, given: OpResult, outcome: Option<Outcome>)
        requires lawful { bytes_of given + self.old.shown.operation.moved < 2 ^ 64 }
        requires bytes { IsCountable self.old.shown.operation }
        ensures { self.new ≡ record self.old { shown = reaped given outcome self.old.shown } }
    {
        let operation = &mut self.shown.operation;
        if begins_second(operation, given) {
            operation.moved = 0;
            operation.switched = true;
        } else {
            operation.moved += moved_by(operation, given);
        }
        operation.unrefused = operation.unrefused && !refuses_hint(operation, given);
        self.shown.phase = RequestPhase::Queued;
        self.resolve_if(outcome);
    }
}

/// What a request asks for, as its record has it. The caller must know that the range of a direct read begins below
/// 2^64.
pub fn operation_of(asked: &Asked) -> Operation
    requires range { IsInRange asked.now }
    ensures { result ≡ operation_in asked.now }
{
    let (target, offset, skip, length) = footprint(asked);
    Operation {
        kind: asked.kind(),
        target: target as usize,
        offset,
        length,
        skip,
        deadline: asked.deadline(),
        seen: seen_by(asked),
        moved: 0,
        switched: false,
        unrefused: true,
        hinted: false,
    }
}

/// Its socket, listener or open, where in the file it begins, how many bytes lie before that in the whole pages of a
/// direct read, and how many bytes it moves; what moves none counts as 1.
fn footprint(asked: &Asked) -> (u32, u64, u64, u64)
    requires range { IsInRange asked.now }
    ensures target { result.0 ≡ target_of asked.now }
    ensures offset { result.1 ≡ offset_in asked.now }
    ensures skip { result.2 ≡ (asked_of asked.now).skip }
    ensures length { result.3 ≡ (asked_of asked.now).length }
{
    match asked {
        Asked::Send(send) => (send.fd, 0, 0, send.write.total_len() as u64),
        Asked::Recv(recv) => (recv.fd, 0, 0, (recv.len - recv.start) as u64),
        Asked::Connect(connect) => (connect.fd, 0, 0, 1),
        Asked::Poll(poll) => (poll.fd, 0, 0, 1),
        Asked::Sync(sync) => (sync.file, 0, 0, 1),
        Asked::WriteAt(write) => (write.file, write.offset, 0, write.write.total_len() as u64),
        Asked::ReadAt(read) => match read.way {
            Way::Direct { skip, len } | Way::Switched { skip, len } => {
                (
                    read.file,
                    read.offset + skip as u64,
                    skip as u64,
                    len as u64,
                )
            }
            Way::Buffered | Way::Hinted => (read.file, read.offset, 0, read.buf.len() as u64),
        },
    }
}

/// The mutations of its open that a sync of it covers.
fn seen_by(asked: &Asked) -> u64
    ensures { result ≡ seen_in asked.now }
{
    match asked {
        Asked::WriteAt(write) => write.seen,
        Asked::Sync(sync) => sync.seen,
        _ => 0,
    }
}

/// Whether a request of this kind needs the permit of its open.
pub fn is_durable(kind: Kind) -> bool
    ensures { result ≡ is_durable kind }
{
    matches!(kind, Kind::Dsync | Kind::Many | Kind::Sync)
}

/// Whether a request of this kind is one of an open.
pub fn is_of_file(kind: Kind) -> bool
    ensures { result ≡ is_of_file kind }
{
    !matches!(
        kind,
        Kind::Poll | Kind::Send | Kind::Recv | Kind::Fill | Kind::Connect
    )
}

/// Whether the kernel refuses the hint of the operation.
fn refuses_hint(operation: &Operation, given: OpResult) -> bool
    ensures { result ≡ (operation.now.hinted && is_unsupported given) }
{
    operation.hinted && matches!(given, OpResult::Errno(95))
}

/// How many bytes a result adds to the part that the request is in.
fn moved_by(operation: &Operation, given: OpResult) -> u64
    requires bytes { IsCountable operation.now }
    ensures { result ≡ counted_for (part_now (asked_in operation.now) (cursor_in operation.now)) given }
{
    match (part(operation).0, given) {
        (Kind::Poll | Kind::Connect | Kind::Sync, _) | (_, OpResult::Errno(_)) => 0,
        (_, OpResult::Count(count)) => count,
    }
}

/// Whether the second part of a request begins by this result: a direct read goes on through the page cache, and a write
/// has written all that its sync is to make durable.
fn begins_second(operation: &Operation, given: OpResult) -> bool
    requires bytes { IsCountable operation.now }
    requires lawful { bytes_of given + operation.now.moved < 2 ^ 64 }
    ensures { (cancelled : Bool) → result ≡ moves_on (asked_in operation.now) (cursor_in operation.now) (record { result = given; hinted = operation.now.hinted; cancelled = cancelled }) }
{
    // A result may say nothing, so that the same is asked for again. A connect has one more such result.
    let is_transient = matches!(given, OpResult::Errno(4 | 11));
    if operation.switched || is_transient || refuses_hint(operation, given) {
        return false;
    }
    let total = operation.moved + moved_by(operation, given);
    let did_some = matches!(given, OpResult::Count(count) if count > 0);
    let is_done = did_some && total >= part(operation).1;
    match (operation.kind, given) {
        // A direct read goes on as such after whole pages, and ends as such where it was cancelled.
        (Kind::Direct, OpResult::Errno(code)) => code != 125,
        (Kind::Direct, OpResult::Count(count)) => !is_done && (count == 0 || count % 4096 != 0),
        (Kind::Many, _) => is_done,
        _ => false,
    }
}

/// The kind of the part that a request is in, and how many bytes that has.
fn part(operation: &Operation) -> (Kind, u64)
    requires bytes { IsCountable operation.now }
    ensures kind { result.0 ≡ (part_now (asked_in operation.now) (cursor_in operation.now)).kind }
    ensures length { result.1 ≡ (part_now (asked_in operation.now) (cursor_in operation.now)).length }
{
    let length = operation.length;
    match operation.kind {
        Kind::Direct if operation.switched => (Kind::Read, length),
        Kind::Direct => (Kind::Direct, operation.skip.saturating_add(length)),
        Kind::Many if operation.switched => (Kind::Sync, length),
        kind => (kind, length),
    }
}

/// The most that the next operation may answer.
fn window(operation: &Operation) -> u64
    requires bytes { IsCountable operation.now }
    ensures { result ≡ window_of (asked_in operation.now) (cursor_in operation.now) }
{
    let (kind, length) = part(operation);
    match kind {
        Kind::Poll | Kind::Connect | Kind::Sync => LARGEST_COUNT,
        Kind::Direct => {
            let pages = length.saturating_add(4095) / 4096 * 4096;
            pages.saturating_sub(operation.moved).min(DIRECT_CHUNK)
        }
        _ => length.saturating_sub(operation.moved).min(LARGEST_WINDOW),
    }
}
