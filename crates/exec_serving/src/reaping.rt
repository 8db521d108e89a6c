//! The completions of a service, and the permits that they give up.
//!
//! A step judges one completion of an operation, and drops what stands before and after it that is none of an operation:
//! wakes, and acknowledgements of cancels. So it finds whether another is there; what lands later is left to the next
//! reaping. The permit of an open that a request gives up goes to the next that waits for it, and the worker of that one
//! is signalled, the own one too.

ghost use Rattle.exec_invariants.specs.{Sound.SoundAt, Works.Steps, Submitting.after_giving_up};
ghost use Rattle.std.specs.{Prelude.{◌+◌, ◌<◌, ◌≡◌, ◌^◌, length, is_some, None, if◌then◌else◌}, Option.option_map, VecDeque.deque_capacity};
ghost use Rattle.exec_machine.specs.{Requests.{joined_if, reaped}, Tests.is_awake};
ghost use Rattle.exec_moves.specs.{Claim.latched, Serve.{after_passing, after_permit as place_after_permit, signal}, State.word_of};
ghost use Rattle.exec_opens.specs.Opens.{next_at, passed, with_open};
ghost use Rattle.exec_outcomes.specs.Outcomes.{bytes_of};
ghost use Rattle.exec_request.specs.States.{as_answer};
ghost use Rattle.exec_parts.specs.{Phased.TurnsChair, Pooled.{OfChair, chair_raised}, Records.IsCountable, View.{desk_of, things_of}, Things.{Goes, Makes, TurnsWord}};

use crate::service::go;
use exec_base::error::Error;
use exec_driver::driver::Reaped;
use exec_machine::event::Event;
use exec_moves::place::{AfterPermit, InService, Place, Reaping, Service};
use exec_opens::opens::Opens;
use exec_outcomes::outcome::Outcome;
use exec_parts::parts::record::Record;
use exec_parts::parts::shared::Shared;
use exec_parts::parts::worker::Worker;
use exec_parts::scripted::Scripted;
use exec_parts::signal::rouse;
use exec_request::output::to_outcome;
use exec_words::word::WaitTarget;

/// Judges the next completion of an operation.
pub(crate) fn reap<B: Scripted + Drop>(
    worker: &mut Worker,
    service: Service,
    reaping: Reaping,
    shared: &mut Shared<B>,
) -> Event
    requires sound { SoundAt (Place.Service (InService.Reap reaping) service) worker.old shared.old }
    ensures steps { Steps B.left B.spot worker.old shared.old result worker.new shared.new }
{
    worker.take_raises(&mut shared.seats[worker.index]);
    worker.home.driver.lists_requests();
    let reaped = worker
        .home
        .driver
        .reap(&mut shared.opens, &mut worker.home.deferred);
    let back = if worker.home.driver.has_completion() {
        AfterPermit::Reap { reaping }
    } else {
        AfterPermit::Reaped { reaping }
    };
    let Some(reaped) = reaped else {
        after_permit(worker, service, back);
        return Event::Serve;
    };
    let request = worker.names.request(reaped.id);
    tell_reaped(
        worker,
        service,
        request,
        reaped,
        back,
        &mut shared.requests[request],
    )
}

/// What a completion has made of its request. The caller must have a place for the request among those that have
/// ended, and know that the bytes that it has moved then, and the bytes of a direct read, rounded up to whole
/// pages, can be counted.
fn tell_reaped(
    worker: &mut Worker,
    service: Service,
    request: usize,
    done: Reaped,
    back: AfterPermit,
    it: &mut Record,
) -> Event
    requires room { length worker.old.names.ended.items < deque_capacity worker.old.names.ended }
    requires lawful { bytes_of done.given + it.old.shown.operation.moved < 2 ^ 64 }
    requires bytes { IsCountable it.old.shown.operation }
    ensures event { result ≡ Event.Reap request done.given (as_answer done.ended) }
    ensures shown { it.new.shown ≡ reaped done.given (as_answer done.ended) it.old.shown }
    ensures id { it.new.id ≡ it.old.id }
    ensures sent { it.new.sent ≡ it.old.sent }
    ensures capacity { deque_capacity worker.new.names.ended ≡ deque_capacity worker.old.names.ended }
    ensures ended { worker.new.names.ended.items ≡ joined_if (is_some (as_answer done.ended)) worker.old.names.ended.items request }
    ensures still { done.ended ≡ None → worker.new.names ≡ worker.old.names }
    ensures same { worker.new ≡ record worker.old { place = Place.Service (after_giving_up done.permit back) service; names = record worker.old.names { ended = worker.new.names.ended } } }
{
    let outcome = outcome_of(done.ended);
    it.judge(done.given, outcome);
    if outcome.is_some() {
        worker.names.end(request);
    }
    match done.permit {
        Some(file) => go(worker, service, InService::PassPermit { file, back }),
        None => after_permit(worker, service, back),
    }
    Event::Reap {
        request,
        result: done.given,
        outcome,
    }
}

/// What follows a completion or a permit that was given up.
fn after_permit(worker: &mut Worker, service: Service, back: AfterPermit)
    ensures { worker.new ≡ record worker.old { place = Place.Service (place_after_permit back) service } }
{
    let next = match back {
        AfterPermit::Reap { reaping } => InService::Reap { reaping },
        AfterPermit::Reaped {
            reaping: Reaping::First,
        } => InService::AdvanceWheel,
        AfterPermit::Reaped {
            reaping: Reaping::Last,
        } => InService::EndService,
        AfterPermit::Submit { gate } => InService::Submit { gate },
    };
    go(worker, service, next);
}

/// The permit of an open goes to the next that waits for it, whose worker is to be signalled.
pub(crate) fn pass_permit(
    worker: &mut Worker,
    service: Service,
    file: u32,
    back: AfterPermit,
    opens: &mut Opens,
) -> Event
    ensures event { result ≡ Event.Serve }
    ensures opens { opens.new ≡ with_open opens.old file passed }
    ensures goes { worker.new ≡ record worker.old { place = Place.Service (after_passing (option_map (λ key. key.worker) (next_at opens.old file)) back) service } }
{
    match opens.leave(file) {
        Some(next) => go(
            worker,
            service,
            InService::Signal {
                worker: next.worker as usize,
                back,
            },
        ),
        None => after_permit(worker, service, back),
    }
    Event::Serve
}

/// Signals the worker that has the permit of an open next: the latch goes into its wake word. The caller must know
/// that there is such a worker.
pub(crate) fn signal_holder<B: Drop>(
    worker: &mut Worker,
    service: Service,
    other: usize,
    back: AfterPermit,
    shared: &mut Shared<B>,
) -> Event
    requires there { other < length shared.old.seats.items }
    ensures makes { Makes (signal other service back (desk_of worker.old) (word_of (things_of shared.old) other)) result worker.new }
    ensures goes { Goes worker.old worker.new }
    ensures word { TurnsWord other shared.old shared.new (latched (word_of (things_of shared.old) other)) }
{
    match shared.seats[other].signal() {
        Some(target) => {
            let ring = target == WaitTarget::Ring;
            go(
                worker,
                service,
                InService::Raise {
                    ring,
                    worker: other,
                    back,
                },
            );
        }
        None => after_permit(worker, service, back),
    }
    Event::Serve
}

/// Ends the wait of the worker that has the permit of an open next. The caller must know that there is such a
/// worker.
pub(crate) fn raise_holder<B: Drop>(
    worker: &mut Worker,
    service: Service,
    ring: bool,
    other: usize,
    back: AfterPermit,
    shared: &mut Shared<B>,
) -> Event
    requires there { other < length shared.old.seats.items }
    ensures event { OfChair other shared.old (λ chair. result ≡ (if is_awake chair.rest then Event.Serve else Event.Rouse other)) }
    ensures goes { worker.new ≡ record worker.old { place = Place.Service (place_after_permit back) service } }
    ensures chair { TurnsChair other (chair_raised ring) shared.old shared.new }
    ensures kept { shared.new ≡ record shared.old { seats = shared.new.seats } }
{
    after_permit(worker, service, back);
    match rouse(ring, other, &mut shared.seats[other]) {
        Event::Turn => Event::Serve,
        roused => roused,
    }
}

/// How a request ended, as the log tells it.
pub(crate) fn outcome_of(ended: Option<Result<(), Error>>) -> Option<Outcome>
    ensures { result ≡ as_answer ended }
{
    match ended {
        Some(ended) => Some(to_outcome(ended)),
        None => None,
    }
}
