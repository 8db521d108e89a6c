//! The look before a wait, once the own bit is in the idle set, and the withdrawal after it.
//!
//! Who has work for the pool looks at the idle set after it has put that work where it can be found; so a worker that
//! publishes itself first and looks then misses nothing. It returns the search count that it holds before it looks: who
//! relied on that count is served by the look, or, where the global queue has something, by a kick. Where somebody else
//! searches the worker waits: that one finds what can be stolen, or hands its duty on. One worker alone has no other
//! queue to look at.
//!
//! A worker that withdraws and finds its bit gone was claimed, and holds the claimer's search count.

ghost use Rattle.exec_invariants.specs.{Sound.SoundAt, Whole.HasWhole, Works.Steps};
ghost use Rattle.std.specs.Prelude.{◌+◌, ◌-◌, ◌<◌, ◌≡◌, ℕ, Option, ◌==◌, ◌||◌, not, true, false, length, nat_lt, slice_set, if◌then◌else◌};
ghost use Rattle.exec_words.specs.{Head.is_stealable_at, Idle.is_in, Queue.tail_of};
ghost use Rattle.exec_moves.specs.{Look.{look_at_head, past_own, publish, return_claimed, return_look_count}, State.queue_of};
ghost use Rattle.exec_parts.specs.{Tests.{HasToldDue, IsLook, IsNextMoment, IsWait, has_open_requests, place_withdrawn, ring_wait_of, word_wait_of}, View.{desk_of, things_of}, Things.{Goes, Makes}};

use exec_machine::event::Event;
use exec_moves::idling::{AfterWait, InLook, InScan, Stay};
use exec_moves::place::Place;
use exec_parts::parts::shared::Shared;
use exec_parts::parts::worker::Worker;
use exec_parts::scripted::Scripted;
use exec_words::head::Head;
use exec_words::idle::PureIdle;

/// Takes the next step of the look.
pub(crate) fn look<B: Scripted + Drop>(
    worker: &mut Worker,
    at: InLook,
    shared: &mut Shared<B>,
) -> Event
    requires sound { SoundAt (Place.Look at) worker.old shared.old }
    requires whole { HasWhole worker.old shared.old }
    ensures steps { Steps B.left B.spot worker.old shared.old result worker.new shared.new }
{
    match at {
        InLook::Publish => publish(worker, &mut shared.idle),
        InLook::ReturnLookCount => return_look_count(worker, &mut shared.idle),
        InLook::LookAtMirror { last } => look_at_mirror(worker, last, shared.global.mirror()),
        InLook::LookAtCount => look_at_count(worker, shared),
        InLook::LookAtHead { worker: other } => look_at_head(worker, other, shared),
        InLook::LookAtTail {
            worker: other,
            head,
        } => look_at_tail(worker, other, head, shared),
        InLook::ExchangeLookCount => exchange_look_count(worker, shared),
        InLook::ReturnClaimed => return_claimed(worker, &mut shared.idle),
    }
}

/// Puts the own bit into the idle set. The caller must know that the worker's number is below 64.
pub fn publish(worker: &mut Worker, idle: &mut PureIdle) -> Event
    requires few { worker.old.index < 64 }
    ensures makes { Makes (publish worker.old.index (desk_of worker.old) idle.old) result worker.new }
    ensures goes { Goes worker.old worker.new }
    ensures idle { idle.new ≡ record idle.old { published = slice_set idle.old.published worker.old.index true } }
{
    idle.publish(worker.index);
    worker.place = Place::Look(if worker.searching {
        InLook::ReturnLookCount
    } else {
        InLook::LookAtMirror { last: false }
    });
    Event::Turn
}

/// Returns the search count that the worker holds. The caller must know that the search count isn't 0.
fn return_look_count(worker: &mut Worker, idle: &mut PureIdle) -> Event
    requires holds { 0 < idle.old.count }
    ensures makes { Makes (return_look_count (desk_of worker.old) idle.old) result worker.new }
    ensures same { worker.new ≡ record worker.old { place = worker.new.place; searching = false } }
    ensures idle { idle.new ≡ record idle.old { count = idle.old.count - 1 } }
{
    worker.searching = false;
    let last = idle.subtract() == 1;
    worker.place = Place::Look(InLook::LookAtMirror { last });
    Event::Turn
}

/// Loads the length of the global queue once more.
fn look_at_mirror(worker: &mut Worker, last: bool, mirror: usize) -> Event
    ensures event { result ≡ Event.Turn }
    ensures goes { worker.new ≡ record worker.old {
      place = (if nat_lt 0 mirror
          then Place.Withdraw (AfterWait.MakeUp last) else Place.Look InLook.LookAtCount);
    } }
{
    worker.place = if mirror > 0 {
        Place::Withdraw(AfterWait::MakeUp { last })
    } else {
        Place::Look(InLook::LookAtCount)
    };
    Event::Turn
}

/// Loads the search count. Where nobody searches, the other queues are looked at. The caller must have told each
/// request whose deadline has come, and know that any other comes out of the wheel at its tick, and that the
/// worker's number is below 64.
fn look_at_count<B: Drop>(worker: &mut Worker, shared: &Shared<B>) -> Event
    requires told { HasToldDue worker.old }
    requires few { worker.old.index < 64 }
    ensures event { result ≡ Event.Turn }
    ensures goes { Goes worker.old worker.new }
    ensures looks { shared.now.idle.count ≡ 0 → IsLook shared.now.config 0 worker.old worker.new.place }
    ensures waits { 0 < shared.now.idle.count → IsWait shared.now.config.spin.most worker.old worker.new.place }
{
    if shared.idle.count() > 0 {
        return begin_wait(worker, shared.config.spin.most);
    }
    look_from(worker, 0, shared)
}

/// Goes on to the first other queue from this one on, and after the last to the wait.
fn look_from<B: Drop>(worker: &mut Worker, other: usize, shared: &Shared<B>) -> Event
    requires told { HasToldDue worker.old }
    requires few { worker.old.index < 64 }
    ensures event { result ≡ Event.Turn }
    ensures goes { Goes worker.old worker.new }
    ensures place { IsLook shared.now.config other worker.old worker.new.place }
{
    let other = past_own(worker, other);
    if other < shared.config.workers {
        worker.place = Place::Look(InLook::LookAtHead { worker: other });
        return Event::Turn;
    }
    begin_wait(worker, shared.config.spin.most)
}

/// The first worker from this one on that isn't this worker.
fn past_own(worker: &Worker, other: usize) -> usize
    requires few { worker.now.index < 64 }
    ensures { result ≡ past_own worker.now.index other }
{
    if other == worker.index {
        other + 1
    } else {
        other
    }
}

/// Loads the head of another queue. The caller must know that there is such a worker.
fn look_at_head<B: Drop>(worker: &mut Worker, other: usize, shared: &Shared<B>) -> Event
    requires there { other < length shared.now.seats.items }
    ensures makes { Makes (look_at_head other (desk_of worker.old)
        (queue_of (things_of shared.now) other)) result worker.new }
    ensures goes { Goes worker.old worker.new }
{
    let head = shared.seats[other].queue.head();
    worker.place = Place::Look(InLook::LookAtTail {
        worker: other,
        head,
    });
    Event::Turn
}

/// Loads its tail: with two values at least and no claim it can be stolen from. The caller must have told each
/// request whose deadline has come, and know that any other comes out of the wheel at its tick, that there is such
/// a worker, and that its number and the own one are below 64.
fn look_at_tail<B: Drop>(worker: &mut Worker, other: usize, head: Head, shared: &Shared<B>) -> Event
    requires there { other < length shared.now.seats.items }
    requires told { HasToldDue worker.old }
    requires few { worker.old.index < 64 }
    requires fits { other < 64 }
    ensures event { result ≡ Event.Turn }
    ensures goes { Goes worker.old worker.new }
    ensures steals { is_stealable_at head (tail_of (queue_of (things_of shared.now) other)) ≡ true →
        worker.new.place ≡ Place.Look InLook.ExchangeLookCount }
    ensures looks { is_stealable_at head (tail_of (queue_of (things_of shared.now) other)) ≡ false →
        IsLook shared.now.config (other + 1) worker.old worker.new.place }
{
    if head.is_stealable(shared.seats[other].queue.tail()) {
        worker.place = Place::Look(InLook::ExchangeLookCount);
        return Event::Turn;
    }
    look_from(worker, other + 1, shared)
}

/// Exchanges the search count 0 to 1, to search once more. Where somebody searches, the worker waits. The caller
/// must have told each request whose deadline has come, and know that any other comes out of the wheel at its tick.
fn exchange_look_count<B: Drop>(worker: &mut Worker, shared: &mut Shared<B>) -> Event
    requires told { HasToldDue worker.old }
    ensures event { result ≡ Event.Turn }
    ensures first { shared.old.idle.count ≡ 0 → worker.new
        ≡ record worker.old { place = Place.Withdraw AfterWait.Search; searching = true } }
    ensures later { 0 < shared.old.idle.count → Goes worker.old worker.new }
    ensures waits { 0 < shared.old.idle.count → IsWait shared.old.config.spin.most worker.old worker.new.place }
    ensures idle { shared.new ≡ record shared.old {
      idle = (if shared.old.idle.count == 0
          then record shared.old.idle { count = 1 } else shared.old.idle);
    } }
{
    if shared.idle.count_exchange().is_err() {
        return begin_wait(worker, shared.config.spin.most);
    }
    worker.searching = true;
    worker.place = Place::Withdraw(AfterWait::Search);
    Event::Turn
}

/// Returns the count of a claim that came besides the worker's own. The caller must know that the search count
/// isn't 0.
fn return_claimed(worker: &mut Worker, idle: &mut PureIdle) -> Event
    requires holds { 0 < idle.old.count }
    ensures makes { Makes (return_claimed (desk_of worker.old) idle.old) result worker.new }
    ensures goes { Goes worker.old worker.new }
    ensures idle { idle.new ≡ record idle.old { count = idle.old.count - 1 } }
{
    let _found = idle.subtract();
    worker.place = Place::Scan(InScan::LoadScanHead);
    Event::Turn
}

/// Goes on to the wait.
fn begin_wait(worker: &mut Worker, longest_spin: u64) -> Event
    requires told { HasToldDue worker.old }
    ensures event { result ≡ Event.Turn }
    ensures goes { Goes worker.old worker.new }
    ensures place { IsWait longest_spin worker.old worker.new.place }
{
    worker.place = wait(worker, longest_spin);
    Event::Turn
}

/// The first step of a wait: on the ring with requests, else on the wake word.
pub(crate) fn wait(worker: &mut Worker, longest_spin: u64) -> Place
    requires told { HasToldDue worker.old }
    ensures on_ring { has_open_requests worker.old ≡ true → result ≡ ring_wait_of Stay.Turn worker.old }
    ensures on_word { has_open_requests worker.old ≡ false → (moment : Option ℕ) × IsNextMoment worker.old moment × (result ≡ word_wait_of longest_spin moment worker.old) }
    ensures same { worker.new ≡ worker.old }
{
    if worker.has_requests() {
        worker.ring_wait(Stay::Turn)
    } else {
        worker.word_wait(longest_spin)
    }
}

/// Takes the own bit out of the idle set. Where it was gone, the worker holds the claimer's count. The caller must
/// know that the worker's number is below 64.
pub fn withdraw(worker: &mut Worker, next: AfterWait, idle: &mut PureIdle) -> Event
    requires few { worker.old.index < 64 }
    ensures event { result ≡ Event.Turn }
    ensures goes { worker.new ≡ record worker.old {
      place = place_withdrawn
          (not (is_in idle.old.published worker.old.index)) next (record worker.old { searching = worker.new.searching });
      searching = worker.old.searching || not (is_in idle.old.published worker.old.index);
    } }
    ensures idle { idle.new ≡ record idle.old { published = slice_set idle.old.published worker.old.index false } }
{
    let claimed = !idle.withdraw(worker.index);
    worker.searching = worker.searching || claimed;
    worker.place = worker.after_withdrawal(claimed, next);
    Event::Turn
}
