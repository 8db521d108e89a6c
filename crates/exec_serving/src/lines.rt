//! The steps of the kernel, the clock and the peers.
//!
//! Each touches what it names and no place: a worker finds what they did at its next look. What lands on a ring and a
//! stray wake rouse its worker; the clock rouses those who slept until its moment.

ghost use Rattle.std.specs.Prelude.{◌≡◌, length, slice_get, true, Some, ◌+◌, ◌^◌, ◌<◌, ◌≤◌, map, slice_set, slice_index_or, IfOk, OnOk, OnErr};
ghost use Rattle.exec_parts.specs.{declared.parts.{record.Record.Record, worker.Worker.Worker as Party}, Phased.TurnsChair, Records.{landed_on, reached, roused}, View.{Views, own_of, desk_of, common_of, things_with, visible, with_view}};
ghost use Rattle.exec_machine.specs.{Callers.after_landing, Progress.Plan};
ghost use Rattle.exec_invariants.specs.{Carried.MayLand, Sound.Sound, Works.{Beside, Suits}, Whole.{IsWhole, Profile}};
ghost use Rattle.exec_moves.specs.{Plays.last_told, State.{passed, wake_poll_of}, Thing.set_wake_poll};
ghost use Rattle.exec_base.specs.declared.limits.TheConstants.{LAST_MOMENT};

use exec_machine::event::Event;
use exec_machine::state::{RequestPhase, Rest};
use exec_outcomes::outcome::OpResult;
use exec_parts::parts::seat::reach_all;
use exec_parts::parts::shared::Shared;
use exec_parts::parts::worker::Worker;
use exec_parts::scripted::Scripted;
use std::alloc::AllocError;

/// The operation of a request of this worker lands with this result, and rouses it. The caller must know that it may
/// land so, and that the worker is sound with what all share.
pub fn land<B: Scripted + Drop>(
    worker: &mut Worker,
    request: usize,
    given: OpResult,
    shared: &mut Shared<B>,
) -> Event
    requires sound { Sound worker.old shared.old }
    requires lands { MayLand shared.old.requests.items request given }
    requires mine { (r : Record) → slice_get shared.old.requests.items request ≡ Some r →
        r.shown.worker ≡ worker.old.index }
    ensures event { result ≡ Event.Land }
    ensures sound { Sound worker.new shared.new }
    ensures own { own_of worker.new ≡ own_of worker.old }
    ensures desk { desk_of worker.new ≡ record (desk_of worker.old) { others = 0 } }
    ensures index { worker.new.index ≡ worker.old.index }
    ensures kept { shared.new ≡ record shared.old { seats = shared.new.seats; requests = shared.new.requests; store = shared.new.store } }
    ensures many { length shared.new.seats.items ≡ length shared.old.seats.items }
    ensures chair { TurnsChair worker.old.index landed_on shared.old shared.new }
    ensures beside { Beside worker.old shared.old worker.new shared.new }
    ensures things { (p : Plan) (vs : Views) → Suits p vs worker.old shared.old →
        things_with (with_view vs worker.old.index (visible worker.new)) shared.new
        ≡ set_wake_poll worker.old.index (things_with vs shared.old)
        (passed (wake_poll_of (things_with vs shared.old) worker.old.index)) }
    ensures common { (p : Plan) (vs : Views) → Suits p vs worker.old shared.old →
        common_of B.left B.spot p (with_view vs worker.old.index (visible worker.new)) shared.new
        ≡ after_landing (common_of B.left B.spot p vs shared.old) request given }
{
    worker.take_raises(&mut shared.seats[worker.index]);
    let record = &mut shared.requests[request];
    if worker
        .home
        .driver
        .land(record.id, given, &mut shared.store)
        .is_err()
    {
        unreachable!()
    }
    record.shown.phase = RequestPhase::Landed(given);
    shared.seats[worker.index].rest = Rest::Awake;
    Event::Land
}

/// The next enter of its ring takes nothing. The caller must know that the worker is sound with what all share.
pub fn set_busy<B: Drop>(worker: &mut Worker, shared: &Shared<B>) -> Event
    requires sound { Sound worker.old shared.now }
    ensures event { result ≡ Event.Set }
    ensures sound { Sound worker.new shared.now }
    ensures own { own_of worker.new ≡ own_of worker.old }
    ensures desk { desk_of worker.new ≡ desk_of worker.old }
    ensures seen { visible worker.new ≡ record (visible worker.old) { busy = true } }
    ensures index { worker.new.index ≡ worker.old.index }
    ensures beside { Beside worker.old shared.now worker.new shared.now }
{
    let _clock = shared.clock;
    worker.home.driver.busy();
    Event::Set
}

/// The next wake completion of its ring ends its wake poll. The caller must know that the worker is sound with what all
/// share.
pub fn end_poll<B: Scripted + Drop>(worker: &mut Worker, shared: &mut Shared<B>) -> Event
    requires sound { Sound worker.old shared.old }
    ensures event { result ≡ Event.Set }
    ensures sound { Sound worker.new shared.new }
    ensures own { own_of worker.new ≡ own_of worker.old }
    ensures desk { desk_of worker.new ≡ desk_of worker.old }
    ensures index { worker.new.index ≡ worker.old.index }
    ensures kept { shared.new ≡ record shared.old { seats = shared.new.seats } }
    ensures beside { Beside worker.old shared.old worker.new shared.new }
    ensures things { (p : Plan) (vs : Views) → Suits p vs worker.old shared.old →
        things_with (with_view vs worker.old.index (visible worker.new)) shared.new
        ≡ set_wake_poll worker.old.index (things_with vs shared.old)
        (last_told (wake_poll_of (things_with vs shared.old) worker.old.index)) }
    ensures common { (p : Plan) (vs : Views) → Suits p vs worker.old shared.old →
        common_of B.left B.spot p (with_view vs worker.old.index (visible worker.new)) shared.new
        ≡ common_of B.left B.spot p vs shared.old }
{
    worker.take_raises(&mut shared.seats[worker.index]);
    worker.home.driver.last();
    Event::Set
}

/// The clock moves by so many nanoseconds, and rouses those who slept until then. The caller must know that it can
/// show that moment.
pub fn move_clock<B: Drop>(shared: &mut Shared<B>, by: u64) -> Event
    requires shown { shared.old.clock + by ≤ LAST_MOMENT }
    ensures event { result ≡ Event.Clock }
    ensures seats { shared.new.seats.items ≡ map (reached (shared.old.clock + by)) shared.old.seats.items }
    ensures kept { shared.new ≡ record shared.old { clock = shared.old.clock + by; seats = shared.new.seats } }
    ensures sound { (w : Party) → Sound w shared.old → Sound w shared.new }
    ensures whole { (x : Profile) → IsWhole x shared.old → IsWhole x shared.new }
{
    shared.clock += by;
    reach_all(&mut shared.seats, shared.clock);
    Event::Clock
}

/// The wait of a worker returns for nothing. The caller must know that there is such a worker.
pub fn stir<B: Drop>(shared: &mut Shared<B>, worker: usize) -> Event
    requires there { worker < length shared.old.seats.items }
    ensures event { result ≡ Event.Stir }
    ensures chair { TurnsChair worker roused shared.old shared.new }
    ensures kept { shared.new ≡ record shared.old { seats = shared.new.seats } }
    ensures sound { (w : Party) → Sound w shared.old → Sound w shared.new }
    ensures whole { (x : Profile) → IsWhole x shared.old → IsWhole x shared.new }
{
    shared.seats[worker].rest = Rest::Awake;
    Event::Stir
}

/// A peer comes to a listener. An `Err` comes only where so many came before that no more can be counted, and then
/// nothing changes. The caller must know that there is such a listener.
#[tactic(auto, using(crate::proofs::Resting::peer_kept, crate::proofs::Resting::peer_whole))]
pub fn bring_peer<B: Drop>(shared: &mut Shared<B>, listener: usize) -> Result<Event, AllocError>
    requires there { listener < length shared.old.listeners.items }
    ensures event { IfOk result (λ event. event ≡ Event.Peer) }
    ensures one_more { OnOk result (shared.new.listeners.items ≡ slice_set shared.old.listeners.items listener (slice_index_or shared.old.listeners.items listener 0 + 1)) }
    ensures kept { shared.new ≡ record shared.old { listeners = shared.new.listeners } }
    ensures same { OnErr result (shared.new ≡ shared.old) }
    ensures full { OnErr result (2 ^ 64 ≤ slice_index_or shared.old.listeners.items listener 0 + 1) }
    ensures sound { (w : Party) → Sound w shared.old → Sound w shared.new }
    ensures whole { (x : Profile) → IsWhole x shared.old → IsWhole x shared.new }
{
    let more = shared.listeners[listener].checked_add(1).ok_or(AllocError)?;
    shared.listeners[listener] = more;
    Ok(Event::Peer)
}
