//! The loads of the own words, before the service and after it, and the tests that follow.
//!
//! Each load remembers what it found, since no step looks at two words. After the first round the service may put its
//! last enter off where nothing is ready. After the second the worker may go on to wait: from there on nothing was ready
//! and nothing could be staged, which its sleep rests on.
//!
//! Ready is what the worker can do without its ring: a value in its own queue or in the global one, its root, a callback,
//! a message that it took, a batch of messages. A latch alone is none.

ghost use Rattle.exec_invariants.specs.{Sound.SoundAt, Works.Steps};
ghost use Rattle.std.specs.Prelude.{◌<◌, ◌≡◌, ℕ, ◌^◌, ◌||◌, length, Option, true, false, if◌then◌else◌};
ghost use Rattle.exec_moves.specs.{Load.{load_own_head, load_own_mirror, load_own_word, has_mail, is_ready, has_come}, State.{queue_of, word_of}};
ghost use Rattle.exec_driver.specs.Driving.{has_pending};
ghost use Rattle.exec_parts.specs.{Roles.is_pool, View.{driver_of, own_of, desk_of, things_of}, Tests.{leaves_turn_of, HasToldDue, IsNextMoment, IsSearch}, Calls.IsTold, Things.{Makes, Goes}};

use crate::look::wait;
use crate::search::first_search;
use exec_machine::event::Event;
use exec_moves::place::{AfterService, Found, InLoads, InService, Place, Round, Service};
use exec_parts::parts::shared::Shared;
use exec_parts::parts::worker::Worker;
use exec_parts::scripted::Scripted;

/// Takes the next of the loads.
pub(crate) fn load<B: Scripted + Drop>(
    worker: &mut Worker,
    at: InLoads,
    round: Round,
    shared: &Shared<B>,
) -> Event
    requires sound { SoundAt (Place.Loads at round) worker.old shared.now }
    ensures steps { Steps B.left B.spot worker.old shared.now result worker.new shared.now }
{
    match at {
        InLoads::LoadOwnHead => load_own_head(worker, round, shared),
        InLoads::LoadOwnMirror { found } => load_own_mirror(worker, round, found, shared),
        InLoads::LoadOwnWord { found } => load_own_word(worker, round, found, shared),
    }
}

/// Loads the head of the own run queue. The caller must know that the worker has a seat.
fn load_own_head<B: Drop>(worker: &mut Worker, round: Round, shared: &Shared<B>) -> Event
    requires there { worker.old.index < length shared.now.seats.items }
    ensures makes { Makes (load_own_head round (desk_of worker.old)
        (queue_of (things_of shared.now) worker.old.index)) result worker.new }
    ensures goes { Goes worker.old worker.new }
{
    let queue = &shared.seats[worker.index].queue;
    let found = Found {
        ready: queue.head().len(queue.tail()) > 0,
    };
    worker.place = Place::Loads(InLoads::LoadOwnMirror { found }, round);
    Event::Turn
}

/// Loads the length of the global queue.
fn load_own_mirror<B: Drop>(
    worker: &mut Worker,
    round: Round,
    found: Found,
    shared: &Shared<B>,
) -> Event
    ensures makes { Makes (load_own_mirror round found (desk_of worker.old)
        (things_of shared.now).global) result worker.new }
    ensures goes { Goes worker.old worker.new }
{
    let found = Found {
        ready: found.ready || shared.global.mirror() > 0,
    };
    worker.place = Place::Loads(InLoads::LoadOwnWord { found }, round);
    Event::Turn
}

/// Loads the wake word. The caller must know that the worker has a seat, that there is one thing to release for
/// each request that has ended, and that its count of batches is below 2^29.
fn load_own_word<B: Drop>(
    worker: &mut Worker,
    round: Round,
    found: Found,
    shared: &Shared<B>,
) -> Event
    requires there { worker.old.index < length shared.now.seats.items }
    requires told { (live : ℕ) × IsTold worker.old.names.ended.items worker.old.home.deferred live }
    requires processed { worker.old.processed < 2 ^ 29 }
    ensures makes { Makes (load_own_word (own_of worker.old) round found (desk_of worker.old)
        (word_of (things_of shared.now) worker.old.index)) result worker.new }
    ensures goes { Goes worker.old worker.new }
{
    let found = Found {
        ready: found.ready || worker.has_mail(&shared.seats[worker.index].mailbox.waker),
    };
    worker.place = match round {
        Round::First => Place::Service(
            InService::Sample,
            Service {
                defer: !is_ready(worker, found),
                back: AfterService::Mail,
            },
        ),
        Round::Second => Place::TestForWork { found },
    };
    Event::Turn
}

/// Whether something is ready, with what the loads have found.
fn is_ready(worker: &Worker, found: Found) -> bool
    requires told { (live : ℕ) × IsTold worker.now.names.ended.items worker.now.home.deferred live }
    ensures { result ≡ is_ready (own_of worker.now) found (desk_of worker.now) }
{
    found.ready || worker.root_ready.is_some() || worker.has_callbacks() || !worker.batch.is_empty()
}

/// Tests whether something is to be done before it may wait. The caller must know that there is one thing to
/// release for each request that has ended.
pub(crate) fn test_for_work(worker: &mut Worker, found: Found) -> Event
    requires told { (live : ℕ) × IsTold worker.old.names.ended.items worker.old.home.deferred live }
    ensures event { result ≡ Event.Turn }
    ensures goes { worker.new ≡ record worker.old {
      place = (if is_ready (own_of worker.old) found
          (desk_of worker.old) || has_pending (driver_of worker.old) then leaves_turn_of worker.old
          else Place.ReadClock);
    } }
{
    worker.place = if is_ready(worker, found) || worker.home.driver.has_pending_submissions() {
        worker.next_turn()
    } else {
        Place::ReadClock
    };
    Event::Turn
}

/// Reads the clock. A deadline that is due begins the next turn. The caller must have told each request whose
/// deadline has come, know that any other comes out of the wheel at its tick, and have some workers.
pub fn read_clock(worker: &mut Worker, clock: u64, workers: usize, longest_spin: u64) -> Event
    requires told { HasToldDue worker.old }
    requires workers { 0 < workers }
    ensures event { result ≡ Event.Turn }
    ensures goes { worker.new ≡ record worker.old {
      place = worker.new.place;
      moments = record worker.old.moments { read = clock };
    } }
    ensures due { (moment : Option ℕ) × IsNextMoment worker.old moment
        × (has_come clock moment ≡ true → worker.new.place ≡ leaves_turn_of worker.old)
        × (has_come clock moment ≡ false → IsSearch workers longest_spin
        (record worker.old { moments = record worker.old.moments { read = clock } }) worker.new.place) }
{
    worker.moments.read = clock;
    let due = is_due(worker, clock);
    worker.place = after_clock(worker, due, workers, longest_spin);
    Event::Turn
}

/// Where it goes on, by whether something is due. A dedicated worker has no queue to search.
fn after_clock(worker: &mut Worker, due: bool, workers: usize, longest_spin: u64) -> Place
    requires told { HasToldDue worker.old }
    requires workers { 0 < workers }
    ensures next { due ≡ true → result ≡ leaves_turn_of worker.old }
    ensures search { due ≡ false → IsSearch workers longest_spin worker.old result }
    ensures same { worker.new ≡ worker.old }
{
    if due {
        worker.next_turn()
    } else if worker.role.is_pool() {
        first_search(worker, workers)
    } else {
        wait(worker, longest_spin)
    }
}

/// Whether a deadline or a sleeper is due at this moment of the clock.
pub(crate) fn is_due(worker: &mut Worker, clock: u64) -> bool
    requires told { HasToldDue worker.old }
    ensures due { (moment : Option ℕ) × IsNextMoment worker.old moment × (result ≡ has_come clock moment) }
    ensures same { worker.new ≡ worker.old }
{
    match worker.next_moment() {
        Some(moment) => moment <= clock,
        None => false,
    }
}
