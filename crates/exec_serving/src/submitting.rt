//! The middle of a service: deadlines, gates and stagings.
//!
//! They share one place, since each step there takes what is next: a deadline that is due; then a new one, which goes on
//! the wheel; then a gate at which a request of this worker waits, by the numbers of the opens; then a cancel, and then a
//! request, which go into the submission queue; and where none is left the end of staging, with the wake poll. A step
//! that finds nothing is thus the end, and no place says how much is left. A full submission queue is entered first,
//! where something is to go into it; an enter that took nothing ends the staging by itself.

ghost use Rattle.exec_invariants.specs.{Submits.{IsDueIn, IsGatedIn, IsIdle, IsNewIn}, Sound.SoundAt, Works.Steps, Raises.Enters, Submitting.{AreNamed, EndsStaging, StagesCancel, StagesRequest, must_flush, after_flush, takes_hint}};
ghost use Rattle.exec_parts.specs.{declared.parts.worker.Worker.Worker, Serving.{AreKnown, IsOnWheel, first_tick, outcome_of_error, with_staging_ended}, View.{driver_of, desk_of}};
ghost use Rattle.std.specs.{Prelude.{◌+◌, ◌<◌, ◌≡◌, ◌^◌, true, false, length, is_some, unwrap_or, Some, None}, Vec.vec_capacity, VecDeque.deque_capacity};
ghost use Rattle.exec_machine.specs.{Deadlines.{outcome_at_expiry, expired, enrolled}, Requests.{joined_if, granted}};
ghost use Rattle.exec_moves.specs.Submit.{after_grant};
ghost use Rattle.exec_driver.specs.{Driving.{is_full, may_stage_one}, Punctual.IsPunctual};
ghost use Rattle.exec_lists.specs.Lists.{has_first, first_of};
ghost use Rattle.exec_waiters.specs.declared.waiter_id.WaiterId.{WaiterId};

use crate::reaping::outcome_of;
use crate::service::{end_staging, enter, go};
use exec_driver::driver::Enrolled;
use exec_machine::event::Event;
use exec_moves::place::{AfterPermit, InService, Place, Service};
use exec_opens::opens::Opens;
use exec_outcomes::outcome::Outcome;
use exec_parts::parts::record::Record;
use exec_parts::parts::shared::Shared;
use exec_parts::parts::worker::Worker;
use exec_parts::scripted::Scripted;
use exec_waiters::waiter_id::WaiterId;

/// Does what is next.
pub(crate) fn submit<B: Scripted + Drop>(
    worker: &mut Worker,
    service: Service,
    gate: u32,
    shared: &mut Shared<B>,
) -> Event
    requires sound { SoundAt (Place.Service (InService.Submit gate) service) worker.old shared.old }
    ensures steps { Steps B.left B.spot worker.old shared.old result worker.new shared.new }
{
    worker.home.driver.lists_requests();
    if worker.home.driver.has_due() {
        return expire(worker, shared);
    }
    if worker.home.driver.has_enrolments() {
        return enrol(worker, shared);
    }
    match worker.home.driver.next_gate(gate) {
        Some(file) => try_gate(worker, service, file, shared),
        None => stage_next(worker, service, shared),
    }
}

/// The deadline that is due first has come for its request. The caller must know that one is due.
fn expire<B: Scripted + Drop>(worker: &mut Worker, shared: &mut Shared<B>) -> Event
    requires due { IsDueIn worker.old shared.old }
    ensures steps { Steps B.left B.spot worker.old shared.old result worker.new shared.new }
{
    let Some(id) = worker.home.driver.expire(&mut worker.home.deferred) else {
        unreachable!()
    };
    let request = worker.names.request(id);
    tell_expired(worker, request, &mut shared.requests[request])
}

/// The deadline that is the first new one goes on the wheel, or ends its request. The caller must know that there is
/// one, and that none is due.
fn enrol<B: Scripted + Drop>(worker: &mut Worker, shared: &mut Shared<B>) -> Event
    requires new { IsNewIn worker.old shared.old }
    ensures steps { Steps B.left B.spot worker.old shared.old result worker.new shared.new }
{
    let sampled = worker.moments.sampled;
    worker.home.driver.tells_deadlines();
    let Some(enrolled) = worker.home.driver.enrol(sampled, &mut worker.home.deferred) else {
        unreachable!()
    };
    let request = worker.names.request(enrolled.id);
    bounds_name(enrolled.id);
    let tick = shared.config.tick;
    tell_enrolled(
        worker,
        request,
        enrolled,
        tick,
        &mut shared.requests[request],
    )
}

/// Looks at a gate where a request of this worker waits, which is granted where it has its turn.
fn try_gate<B: Scripted + Drop>(
    worker: &mut Worker,
    service: Service,
    file: u32,
    shared: &mut Shared<B>,
) -> Event
    requires gated { IsGatedIn service file worker.old shared.old }
    ensures steps { Steps B.left B.spot worker.old shared.old result worker.new shared.new }
{
    go(worker, service, InService::Submit { gate: file + 1 });
    let granted = worker.home.driver.grant(
        worker.index as u32,
        file,
        &mut shared.opens,
        &mut worker.home.deferred,
    );
    let Some(granted) = granted else {
        return Event::Serve;
    };
    let request = worker.names.request(granted.id);
    let outcome = outcome_of(granted.ended);
    tell_granted(
        worker,
        service,
        file,
        request,
        outcome,
        &mut shared.requests[request],
    )
}

/// Stages the next cancel or operation, and where there is none ends the staging. A full submission queue is entered
/// first, where something is to go into it.
fn stage_next<B: Scripted + Drop>(
    worker: &mut Worker,
    service: Service,
    shared: &mut Shared<B>,
) -> Event
    requires idle { IsIdle service worker.old shared.old }
    ensures steps { Steps B.left B.spot worker.old shared.old result worker.new shared.new }
{
    if must_flush(worker) {
        return flush(worker, service, shared);
    }
    if worker.home.driver.has_cancels() {
        return stage_cancel(worker, shared);
    }
    if worker.home.driver.may_stage() {
        return stage(worker, shared);
    }
    stage_poll(worker, service)
}

/// Tells that the deadline of a request has come. The caller must have a place for the request among those that
/// have ended.
fn tell_expired(worker: &mut Worker, request: usize, it: &mut Record) -> Event
    requires room { length worker.old.names.ended.items < deque_capacity worker.old.names.ended }
    ensures event { result ≡ Event.Expire request (outcome_at_expiry it.old.shown) }
    ensures shown { it.new.shown ≡ expired (outcome_at_expiry it.old.shown) it.old.shown }
    ensures id { it.new.id ≡ it.old.id }
    ensures sent { it.new.sent ≡ it.old.sent }
    ensures capacity { deque_capacity worker.new.names.ended ≡ deque_capacity worker.old.names.ended }
    ensures ended { worker.new.names.ended.items ≡ joined_if (is_some (outcome_at_expiry it.old.shown)) worker.old.names.ended.items request }
    ensures still { outcome_at_expiry it.old.shown ≡ None → worker.new.names ≡ worker.old.names }
    ensures same { worker.new ≡ record worker.old { names = record worker.old.names { ended = worker.new.names.ended } } }
{
    let outcome = it.expire();
    if outcome.is_some() {
        worker.names.end(request);
    }
    Event::Expire { request, outcome }
}

/// Tells that the deadline of a request is on the wheel, or how the request ended. The caller must have a place for
/// the request among those that have ended, and a tick above 0, and know that one that goes on has a deadline that
/// isn't before the worker's start, and is more than a tick before 2^64.
fn tell_enrolled(
    worker: &mut Worker,
    request: usize,
    done: Enrolled,
    tick: u64,
    it: &mut Record,
) -> Event
    requires room { length worker.old.names.ended.items < deque_capacity worker.old.names.ended }
    requires tick { 0 < tick }
    requires timed { done.ended ≡ None → IsOnWheel worker.old.moments.start tick it.old.shown.operation.deadline }
    ensures event { result ≡ Event.Enrol request (outcome_of_error done.ended) }
    ensures shown { it.new.shown ≡ enrolled (first_tick worker.old.moments.start tick (unwrap_or it.old.shown.operation.deadline 0)) (outcome_of_error done.ended) it.old.shown }
    ensures id { it.new.id ≡ it.old.id }
    ensures sent { it.new.sent ≡ it.old.sent }
    ensures capacity { deque_capacity worker.new.names.ended ≡ deque_capacity worker.old.names.ended }
    ensures ended { worker.new.names.ended.items ≡ joined_if (is_some done.ended) worker.old.names.ended.items request }
    ensures still { done.ended ≡ None → worker.new.names ≡ worker.old.names }
    ensures same { worker.new ≡ record worker.old { names = record worker.old.names { ended = worker.new.names.ended } } }
{
    match done.ended {
        Some(error) => {
            let outcome = Outcome::Failure(error);
            it.resolve(outcome);
            worker.names.end(request);
            Event::Enrol {
                request,
                outcome: Some(outcome),
            }
        }
        None => {
            it.shown.timer = timer_of(worker.moments.start, tick, it.shown.operation.deadline);
            Event::Enrol {
                request,
                outcome: None,
            }
        }
    }
}

/// Tells that a request has the permit of its open, or how it ended by that. The caller must have a place for the
/// request among those that have ended, and know that the number of the open is below 2^32 - 1.
fn tell_granted(
    worker: &mut Worker,
    service: Service,
    file: u32,
    request: usize,
    outcome: Option<Outcome>,
    it: &mut Record,
) -> Event
    requires room { length worker.old.names.ended.items < deque_capacity worker.old.names.ended }
    requires file { file + 1 < 2 ^ 32 }
    ensures event { result ≡ Event.Grant request outcome }
    ensures shown { it.new.shown ≡ granted outcome it.old.shown }
    ensures id { it.new.id ≡ it.old.id }
    ensures sent { it.new.sent ≡ it.old.sent }
    ensures capacity { deque_capacity worker.new.names.ended ≡ deque_capacity worker.old.names.ended }
    ensures ended { worker.new.names.ended.items ≡ joined_if (is_some outcome) worker.old.names.ended.items request }
    ensures still { outcome ≡ None → worker.new.names ≡ worker.old.names }
    ensures same { worker.new ≡ record worker.old { place = (after_grant service file outcome (desk_of worker.old)).place; names = record worker.old.names { ended = worker.new.names.ended } } }
{
    it.grant(outcome);
    let gate = file + 1;
    let next = match outcome {
        Some(_) => {
            worker.names.end(request);
            let back = AfterPermit::Submit { gate };
            InService::PassPermit { file, back }
        }
        None => InService::Submit { gate },
    };
    go(worker, service, next);
    Event::Grant { request, outcome }
}

/// Ends the staging with the wake poll, where it must be staged and the submission queue has room.
fn stage_poll(worker: &mut Worker, service: Service) -> Event
    ensures event { result ≡ Event.Serve }
    ensures punctual { IsPunctual (driver_of worker.old) → IsPunctual (driver_of worker.new) }
    ensures ends { (w : Worker) × EndsStaging worker.old w × (worker.new ≡ with_staging_ended service w) }
{
    worker.home.driver.stage_wake_poll();
    end_staging(worker, service);
    Event::Serve
}

/// Whether the submission queue has no room for what is to go into it.
fn must_flush(worker: &Worker) -> bool
    ensures { result ≡ must_flush (driver_of worker.now) }
{
    let driver = &worker.home.driver;
    let stages = driver.has_cancels() || driver.may_stage();
    driver.is_full() && (stages || driver.needs_wake_poll())
}

/// Stages the cancel of the request that asked for it first. The caller must know that there is one, that the
/// submission queue has room, that each request that asked for it is there, and that the worker has a place for its
/// number.
fn stage_cancel<B: Drop>(worker: &mut Worker, shared: &mut Shared<B>) -> Event
    requires there { has_first (driver_of worker.old).lists.cancels ≡ true }
    requires room { is_full (driver_of worker.old) ≡ false }
    requires named { AreNamed worker.old.names.requests.items (driver_of worker.old).lists.cancels shared.old.requests.items }
    requires place { length worker.old.names.untold.items < vec_capacity worker.old.names.untold }
    ensures stages { (id : WaiterId) → first_of (driver_of worker.old).lists.cancels ≡ Some id → StagesCancel worker.old shared.old result worker.new shared.new id }
    ensures punctual { IsPunctual (driver_of worker.old) → IsPunctual (driver_of worker.new) }
    ensures capacity { vec_capacity worker.new.names.untold ≡ vec_capacity worker.old.names.untold }
{
    let Some(id) = worker.home.driver.stage_cancel() else {
        unreachable!()
    };
    let request = worker.names.request(id);
    worker.names.stage_cancel(request);
    shared.requests[request].shown.cancel_staged = true;
    Event::Cancel { request }
}

/// Stages the operation of the request that was queued first. The caller must know that one may be staged, that the
/// submission queue has room, that no deadline is left to go on the wheel, that each queued request is there, and
/// that the worker has a place for its number.
fn stage<B: Drop>(worker: &mut Worker, shared: &mut Shared<B>) -> Event
    requires may { may_stage_one (driver_of worker.old) ≡ true }
    requires room { is_full (driver_of worker.old) ≡ false }
    requires enrolled { has_first (driver_of worker.old).lists.enrolments ≡ false }
    requires named { AreNamed worker.old.names.requests.items (driver_of worker.old).lists.queued shared.old.requests.items }
    requires place { length worker.old.names.staged.items < vec_capacity worker.old.names.staged }
    ensures stages { (id : WaiterId) → first_of (driver_of worker.old).lists.queued ≡ Some id → StagesRequest worker.old shared.old result worker.new shared.new id }
    ensures punctual { IsPunctual (driver_of worker.old) → IsPunctual (driver_of worker.new) }
    ensures capacity { vec_capacity worker.new.names.staged ≡ vec_capacity worker.old.names.staged }
{
    let Some(id) = worker.home.driver.stage(&shared.opens) else {
        unreachable!()
    };
    let request = worker.names.request(id);
    worker.names.stage(request);
    let record = &mut shared.requests[request];
    let hinted = record.asks_hint() && has_hint(&shared.opens, record.shown.operation.target);
    record.stage(hinted);
    Event::Stage { request }
}

/// Enters a full submission queue. Where the kernel takes nothing, the staging ends. The caller must know that the
/// worker has a seat, and that each request that it staged is there.
fn flush<B: Drop>(worker: &mut Worker, service: Service, shared: &mut Shared<B>) -> Event
    requires there { worker.old.index < length shared.old.seats.items }
    requires known { AreKnown worker.old.names.staged.items shared.old.requests.items }
    ensures enters { (w : Worker) × (it : Enters worker.old shared.old result w shared.new)
        × (worker.new ≡ after_flush service (driver_of it.mid).ring.busy w) }
{
    let event = enter(worker, shared);
    if let Event::Busy = event {
        end_staging(worker, service);
    }
    event
}

/// The moment at which the wheel of a worker that began at `start` tells a deadline: the first tick from it on.
#[tactic(auto, using(crate::proofs::Ticks::ticks_within))]
fn timer_of(start: u64, tick: u64, deadline: Option<u64>) -> Option<u64>
    requires tick { 0 < tick }
    requires timed { IsOnWheel start tick deadline }
    ensures { result ≡ Some (first_tick start tick (unwrap_or deadline 0)) }
{
    let deadline = deadline?;
    let ticks = (deadline - start + (tick - 1)) / tick;
    Some(start + ticks * tick)
}

/// Whether no hint of an open was refused.
fn has_hint(opens: &Opens, file: usize) -> bool
    ensures { result ≡ takes_hint opens.now file }
{
    match opens.account(u32::try_from(file).ok()) {
        Some(account) => account.hinted(),
        None => false,
    }
}

/// A name has a generation of 64 bits.
fn bounds_name(id: WaiterId)
    ensures { id.0.generation < 2 ^ 64 }
{
    let _name = id;
}
