//! A service of the ring: what has landed is judged, deadlines and gates are looked at, operations are staged and
//! entered, and sleepers are told.
//!
//! It samples the clock once, and takes out the latch that a granted permit left. Then come the completions that are
//! there (`reaping`), the deadlines, gates and stagings (`submitting`), the last enter unless it may be put off, the
//! completions again, and the sleepers that are due by the moment that was sampled.

ghost use Rattle.exec_invariants.specs.{Sound.SoundAt, Whole.HasWhole, Works.Steps, Raises.Enters};
ghost use Rattle.std.specs.{Prelude.{◌<◌, ◌≡◌, [], length, slice_get, slice_set, true, Some}, Vec.vec_capacity};
ghost use Rattle.exec_moves.specs.{Serve.{sample, unlatched, after_service}, State.word_of};
ghost use Rattle.exec_driver.specs.{Punctual.IsPunctual, Steps.advanced_to};
ghost use Rattle.exec_parts.specs.{Records.number_in, Serving.{AreKnown, flown_in, with_staging_ended}, declared.parts.sleeping.SleeperRecord.SleeperRecord as Sleeper, View.{driver_of, desk_of, things_of}, Things.{Makes, TurnsWord}};

use crate::reaping::{pass_permit, raise_holder, reap, signal_holder};
use crate::submitting::submit;
use exec_machine::event::Event;
use exec_moves::handing::AfterCallbacks;
use exec_moves::place::{AfterService, InCallbacks, InMail, InService, Place, Reaping, Service};
use exec_parts::parts::names::Names;
use exec_parts::parts::record::Record;
use exec_parts::parts::shared::Shared;
use exec_parts::parts::sleeping::SleeperRecord;
use exec_parts::parts::worker::{PutOff, Worker};
use exec_parts::scripted::Scripted;
use exec_ring::ring::Entered;
use exec_time::timers::TimerId;

/// Takes the next step of a service. The caller must know that the worker is at this place and sound with what all
/// share, and that the balances of all parties hold.
pub fn service<B: Scripted + Drop>(
    worker: &mut Worker,
    at: InService,
    service: Service,
    shared: &mut Shared<B>,
) -> Event
    requires sound { SoundAt (Place.Service at service) worker.old shared.old }
    requires whole { HasWhole worker.old shared.old }
    ensures steps { Steps B.left B.spot worker.old shared.old result worker.new shared.new }
{
    match at {
        InService::Sample => sample(worker, service, shared),
        InService::Reap { reaping } => reap(worker, service, reaping, shared),
        InService::PassPermit { file, back } => {
            pass_permit(worker, service, file, back, &mut shared.opens)
        }
        InService::Signal {
            worker: other,
            back,
        } => signal_holder(worker, service, other, back, shared),
        InService::Raise {
            ring,
            worker: other,
            back,
        } => { raise_holder(worker, service, ring, other, back, shared) }
        InService::AdvanceWheel => advance_wheel(worker, service),
        InService::Submit { gate } => submit(worker, service, gate, shared),
        InService::EnterLast => enter_last(worker, service, shared),
        InService::EndService => end_service(worker, service, shared),
    }
}

/// Tells the next sleeper whose moment has come, and where there is none ends the service.
fn end_service<B: Scripted + Drop>(
    worker: &mut Worker,
    service: Service,
    shared: &mut Shared<B>,
) -> Event
    requires sound { SoundAt (Place.Service InService.EndService service) worker.old shared.old }
    ensures steps { Steps B.left B.spot worker.old shared.old result worker.new shared.new }
{
    match worker
        .home
        .timers
        .fire(worker.moments.sampled, &mut worker.home.deferred.notes)
    {
        Some(id) => tell_fired(worker, id, &mut shared.sleepers),
        None => leave_service(worker, service.back),
    }
}

/// Samples the clock, and takes out the latch that a granted permit left. The caller must know that the worker has
/// a seat.
fn sample<B: Drop>(worker: &mut Worker, service: Service, shared: &mut Shared<B>) -> Event
    requires there { worker.old.index < length shared.old.seats.items }
    ensures makes { Makes (sample service (desk_of worker.old)
        (word_of (things_of shared.old) worker.old.index)) result worker.new }
    ensures same { worker.new ≡ record worker.old { place = worker.new.place; moments = record worker.old.moments { before = worker.old.moments.sampled; sampled = shared.old.clock } } }
    ensures word { TurnsWord worker.old.index shared.old shared.new
        (unlatched (word_of (things_of shared.old) worker.old.index)) }
{
    worker.moments.before = worker.moments.sampled;
    worker.moments.sampled = shared.clock;
    shared.seats[worker.index].mailbox.waker.consume_signal();
    go(
        worker,
        service,
        InService::Reap {
            reaping: Reaping::First,
        },
    );
    Event::Serve
}

/// Goes on to this step of the service.
pub(crate) fn go(worker: &mut Worker, service: Service, at: InService)
    ensures { worker.new ≡ record worker.old { place = Place.Service at service } }
{
    worker.place = Place::Service(at, service);
}

/// Advances the timeout wheel. The deadlines that it finds due are told one a step. The caller must have told each
/// request whose deadline has come, and know that any other comes out of the wheel at its tick.
fn advance_wheel(worker: &mut Worker, service: Service) -> Event
    requires punctual { IsPunctual (driver_of worker.old) }
    requires told { (driver_of worker.old).lists.due ≡ [] }
    ensures event { result ≡ Event.Serve }
    ensures driver { driver_of worker.new ≡ advanced_to (driver_of worker.old) worker.old.moments.sampled }
    ensures punctual { IsPunctual (driver_of worker.new) }
    ensures same { worker.new ≡ record worker.old { place = Place.Service (InService.Submit 0) service; home = record worker.old.home { driver = worker.new.home.driver } } }
{
    worker.home.driver.tells_deadlines();
    worker.home.driver.advance(worker.moments.sampled);
    go(worker, service, InService::Submit { gate: 0 });
    Event::Serve
}

/// What follows the staging: the last enter, or the completions where that is put off or nothing stands.
pub(crate) fn end_staging(worker: &mut Worker, service: Service)
    ensures { worker.new ≡ with_staging_ended service worker.old }
{
    let enters = worker
        .home
        .driver
        .must_enter(service.defer, &worker.home.deferred);
    worker.put_off = PutOff {
        defer: service.defer,
        enter: worker.has_requests() && !enters,
    };
    let next = if enters {
        InService::EnterLast
    } else {
        InService::Reap {
            reaping: Reaping::Last,
        }
    };
    go(worker, service, next);
}

/// The last enter of a service. The caller must know that the worker has a seat, and that each request that it
/// staged is there.
fn enter_last<B: Drop>(worker: &mut Worker, service: Service, shared: &mut Shared<B>) -> Event
    requires there { worker.old.index < length shared.old.seats.items }
    requires known { AreKnown worker.old.names.staged.items shared.old.requests.items }
    ensures enters { Enters worker.old shared.old result (record worker.new { place = worker.old.place }) shared.new }
    ensures goes { worker.new.place ≡ Place.Service (InService.Reap Reaping.Last) service }
{
    let event = enter(worker, shared);
    go(
        worker,
        service,
        InService::Reap {
            reaping: Reaping::Last,
        },
    );
    event
}

/// The kernel takes all that is staged, or nothing where it is busy.
pub(crate) fn enter<B: Drop>(worker: &mut Worker, shared: &mut Shared<B>) -> Event
    requires there { worker.old.index < length shared.old.seats.items }
    requires known { AreKnown worker.old.names.staged.items shared.old.requests.items }
    ensures enters { Enters worker.old shared.old result worker.new shared.new }
{
    worker.take_raises(&mut shared.seats[worker.index]);
    worker.home.driver.lands_nothing();
    match worker.home.driver.enter() {
        Entered::Busy => Event::Busy,
        Entered::Taken(_) => {
            worker.names.tell_cancels();
            fly_staged(&mut worker.names, &mut shared.requests);
            Event::Enter
        }
    }
}

/// The service is over.
fn leave_service(worker: &mut Worker, then: AfterService) -> Event
    ensures event { result ≡ Event.Serve }
    ensures goes { worker.new ≡ record worker.old { place = after_service then (desk_of worker.old) } }
{
    worker.place = after_service(worker, then);
    Event::Serve
}

/// Tells that the moment of a sleeper has come. The caller must know that the sleeper of this name is there.
fn tell_fired(worker: &mut Worker, id: TimerId, sleepers: &mut Vec<SleeperRecord>) -> Event
    requires there { number_in worker.old.names.timers.items id.0 < length sleepers.old.items }
    ensures event { result ≡ Event.Fire (number_in worker.old.names.timers.items id.0) }
    ensures same { worker.new ≡ worker.old }
    ensures fired { (z : Sleeper) → slice_get sleepers.old.items (number_in worker.old.names.timers.items id.0) ≡ Some z → sleepers.new.items ≡ slice_set sleepers.old.items (number_in worker.old.names.timers.items id.0) (record z { shown = record z.shown { fired = true } }) }
{
    let timer = worker.names.timer(id);
    sleepers[timer].shown.fired = true;
    Event::Fire { timer }
}

/// Where a service leads.
fn after_service(worker: &Worker, then: AfterService) -> Place
    ensures { result ≡ after_service then (desk_of worker.now) }
{
    match then {
        AfterService::Mail if worker.batch.is_empty() => Place::Mail(InMail::LoadMailWord),
        AfterService::Mail => Place::Mail(InMail::Apply {
            applied: 0,
            taken: false,
        }),
        AfterService::Begin => Place::Callbacks(InCallbacks::TakeBatch, AfterCallbacks::Begin),
        AfterService::Finish => Place::Callbacks(InCallbacks::TakeBatch, AfterCallbacks::Finish),
    }
}

/// What was staged flies.
fn fly_staged(names: &mut Names, requests: &mut Vec<Record>)
    requires known { AreKnown names.old.staged.items requests.old.items }
    ensures staged { names.new.staged.items ≡ [] }
    ensures capacity { vec_capacity names.new.staged ≡ vec_capacity names.old.staged }
    ensures names { names.new ≡ record names.old { staged = names.new.staged } }
    ensures flown { requests.new.items ≡ flown_in names.old.staged.items requests.old.items }
{
    while let Some(request) = names.unstage() {
        requests[request].fly();
    }
}
