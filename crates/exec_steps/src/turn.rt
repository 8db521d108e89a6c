//! The beginning of a turn: the picks from the queues, and the root flag.
//!
//! A turn has 64 picks at most. Every so many picks, over all turns, the global queue is looked at first. What a pick
//! finds is polled, and where it finds nothing the root flag is taken.

ghost use Rattle.exec_invariants.specs.{Sound.SoundAt, Whole.HasWhole, Works.Steps};
ghost use Rattle.std.specs.Prelude.{◌-◌, ◌<◌, ◌≡◌, ◌≤◌, [], length, slice_get};
ghost use Rattle.exec_machine.specs.declared.config.Configuration.{Configuration};
ghost use Rattle.exec_words.specs.{Global.{share_queued, share_taken}, Queue.{published, room_of}};
ghost use Rattle.exec_moves.specs.{Pick.{after_empty_look as place_after_look, count_down, load_head, load_mirror}, State.queue_of};
ghost use Rattle.exec_parts.specs.{Phased.TurnsChair, Pooled.{OfChair, polling, with_flag, with_share}, Tests.first_pick_of, View.{desk_of, things_of}, Things.{Goes, Makes}};

use exec_machine::event::Event;
use exec_moves::handing::{AfterCallbacks, AfterLeave, AfterPop, First};
use exec_moves::place::{InCallbacks, InPick, Place};
use exec_parts::parts::shared::Shared;
use exec_parts::parts::worker::Worker;
use exec_parts::scripted::Scripted;
use exec_parts::ways::first_pop;
use exec_task::runnable::Runnable;

/// Takes the next step of a pick.
pub(crate) fn pick<B: Scripted + Drop>(
    worker: &mut Worker,
    at: InPick,
    shared: &mut Shared<B>,
) -> Event
    requires sound { SoundAt (Place.Pick at) worker.old shared.old }
    requires whole { HasWhole worker.old shared.old }
    ensures steps { Steps B.left B.spot worker.old shared.old result worker.new shared.new }
{
    match at {
        InPick::CountDown => count_down(worker, shared.config.interval, shared.config.workers),
        InPick::LoadMirror { first } => load_mirror(worker, first, shared),
        InPick::LoadHead { first } => load_head(worker, first, shared),
        InPick::TakeShare { first, room, held } => take_share(worker, first, room, held, shared),
    }
}

/// How many picks a turn has.
const PICKS: u64 = 64;

/// A turn begins.
pub fn begin_turn(worker: &mut Worker) -> Event
    ensures event { result ≡ Event.Turn }
    ensures goes { worker.new ≡ record worker.old { place = first_pick_of worker.old; picks = 64 } }
{
    worker.picks = PICKS;
    worker.place = if worker.role.is_pool() {
        Place::Pick(InPick::CountDown)
    } else {
        Place::TakeRootFlag
    };
    Event::Turn
}

/// Goes on to the poll of the task of this runnable.
pub(crate) fn poll_next(worker: &mut Worker, runnable: Runnable)
    ensures { worker.new ≡ polling runnable worker.old }
{
    let task = runnable.task().0 as usize;
    worker.hand = Some(runnable);
    worker.place = worker.leave(AfterLeave::Poll { task });
}

/// Counts down to the global look, which then comes first.
pub fn count_down(worker: &mut Worker, interval: u64, workers: usize) -> Event
    ensures makes { (c : Configuration) → c.interval ≡ interval → c.workers ≡ workers →
        Makes (count_down c (desk_of worker.old)) result worker.new }
    ensures same { worker.new ≡ record worker.old {
      place = worker.new.place;
      countdown = worker.new.countdown;
      picks = worker.old.picks - 1;
    } }
{
    worker.picks = worker.picks.saturating_sub(1);
    if worker.countdown <= 1 {
        worker.countdown = interval;
        worker.place = Place::Pick(InPick::LoadMirror {
            first: First::Global,
        });
    } else {
        worker.countdown -= 1;
        worker.place = first_pop(workers, AfterPop::Pick { first: First::Own });
    }
    Event::Turn
}

/// Loads the length of the global queue.
fn load_mirror<B: Drop>(worker: &mut Worker, first: First, shared: &Shared<B>) -> Event
    ensures makes { Makes (load_mirror shared.now.config first (desk_of worker.old)
        (things_of shared.now).global) result worker.new }
    ensures goes { Goes worker.old worker.new }
{
    worker.place = if shared.global.mirror() > 0 {
        Place::Pick(InPick::LoadHead { first })
    } else {
        after_empty_look(first, shared.config.workers)
    };
    Event::Turn
}

/// Loads the head of the own run queue, for its room. The caller must know that the worker has a seat.
fn load_head<B: Drop>(worker: &mut Worker, first: First, shared: &Shared<B>) -> Event
    requires there { worker.old.index < length shared.now.seats.items }
    ensures makes { Makes (load_head first (desk_of worker.old)
        (queue_of (things_of shared.now) worker.old.index)) result worker.new }
    ensures goes { Goes worker.old worker.new }
{
    let queue = &shared.seats[worker.index].queue;
    worker.place = Place::Pick(InPick::TakeShare {
        first,
        room: queue.room(),
        held: queue.len(),
    });
    Event::Turn
}

/// Takes a share of the global queue. The first of it is polled, the others go into the own run queue. The caller
/// must know that the worker has a seat, and that its queue has the room that was found, or more, and is in the
/// middle of no overflow; and must have some workers.
fn take_share<B: Drop>(
    worker: &mut Worker,
    first: First,
    room: usize,
    held: usize,
    shared: &mut Shared<B>,
) -> Event
    requires there { worker.old.index < length shared.old.seats.items }
    requires workers { 0 < shared.old.config.workers }
    requires room { OfChair worker.old.index shared.old (λ chair. room ≤ room_of chair.queue) }
    requires whole { OfChair worker.old.index shared.old (λ chair. chair.queue.held ≡ []) }
    ensures event { result ≡ Event.Turn }
    ensures worker { worker.new ≡ with_share shared.old.config first (slice_get shared.old.global.values 0) worker.old }
    ensures global { shared.new ≡ record shared.old {
      seats = shared.new.seats;
      global = share_taken shared.old.global shared.old.config.workers room held;
    } }
    ensures chair { TurnsChair worker.old.index (λ chair. record chair {
      queue = published chair.queue
          (share_queued shared.old.global shared.old.config.workers room held);
    }) shared.old shared.new }
{
    let workers = shared.config.workers;
    let queue = &mut shared.seats[worker.index].queue;
    match shared.global.take(workers, room, held, queue) {
        Some(runnable) => poll_next(worker, runnable),
        None => worker.place = after_empty_look(first, workers),
    }
    Event::Turn
}

/// Takes the root flag, and where it was set goes on to the poll of the root.
pub(crate) fn take_root_flag(worker: &mut Worker) -> Event
    ensures event { result ≡ Event.Turn }
    ensures worker { worker.new ≡ with_flag worker.old.root_ready worker.old }
{
    match worker.root_ready.take() {
        Some(runnable) => poll_next(worker, runnable),
        None => worker.place = Place::Callbacks(InCallbacks::TakeBatch, AfterCallbacks::Look),
    }
    Event::Turn
}

/// What follows where the global queue was empty.
fn after_empty_look(first: First, workers: usize) -> Place
    ensures { (c : Configuration) → c.workers ≡ workers → result ≡ place_after_look c first }
{
    match first {
        First::Own => Place::TakeRootFlag,
        First::Global => first_pop(workers, AfterPop::Pick { first }),
    }
}
