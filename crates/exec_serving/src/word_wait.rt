//! The wait of a worker without requests: on its wake word.
//!
//! It looks for a while, unless a deadline is near or it has no budget for that; each look is two loads, first for
//! another batch of messages and then for a latch. Then the sleeping bit goes in, and a last look follows before the
//! sleep. Whoever signals after the bit went in rouses the worker.

ghost use Rattle.exec_invariants.specs.{Sound.SoundAt, Works.Steps};
ghost use Rattle.std.specs.Prelude.{◌<◌, ◌≡◌, ◌≤◌, ◌^◌, length, false, None, IfSome, if◌then◌else◌};
ghost use Rattle.exec_moves.specs.{State.word_of, Wait.{spin_on_batch, spin_on_latch, arm_word, after_sleep, disarmed}};
ghost use Rattle.exec_parts.specs.{Pooled.OfChair, View.{desk_of, things_of}, Tests.{after_waiting_of, slept_after}, Things.{Makes, TurnsWord}};

use crate::ring_wait::sleep;
use exec_machine::event::Event;
use exec_moves::idling::{AfterWait, InWordWait};
use exec_moves::place::Place;
use exec_parts::parts::shared::Shared;
use exec_parts::parts::worker::Worker;
use exec_parts::scripted::Scripted;
use exec_words::word::{PureWord, WaitTarget};

/// Takes the next step of a wait on the wake word. The caller must know that the worker is at this place and sound with
/// what all share.
pub fn wait_on_word<B: Scripted + Drop>(
    worker: &mut Worker,
    at: InWordWait,
    shared: &mut Shared<B>,
) -> Event
    requires sound { SoundAt (Place.WordWait at) worker.old shared.old }
    ensures steps { Steps B.left B.spot worker.old shared.old result worker.new shared.new }
{
    match at {
        InWordWait::SpinOnBatch { left } => {
            spin_on_batch(worker, left, &shared.seats[worker.index].mailbox.waker)
        }
        InWordWait::SpinOnLatch { left } => {
            spin_on_latch(worker, left, &shared.seats[worker.index].mailbox.waker)
        }
        InWordWait::TakeLatch => take_latch(worker, shared),
        InWordWait::ArmWord => arm_word(worker, shared),
        InWordWait::SleepOnWord => sleep_on_word(worker, shared),
        InWordWait::DisarmWord => disarm_word(worker, shared),
    }
}

/// Sleeps where the word is as it was left and no deadline is due.
fn sleep_on_word<B: Scripted + Drop>(worker: &mut Worker, shared: &mut Shared<B>) -> Event
    requires sound { SoundAt (Place.WordWait InWordWait.SleepOnWord) worker.old shared.old }
    ensures steps { Steps B.left B.spot worker.old shared.old result worker.new shared.new }
{
    worker.place = Place::WordWait(InWordWait::DisarmWord);
    if !shared.seats[worker.index]
        .mailbox
        .waker
        .still_idle(worker.processed)
    {
        return Event::Turn;
    }
    let event = sleep(worker, shared);
    note_sleep(worker, &event, shared.clock);
    event
}

/// Looks for another batch. The caller must know that the worker's count of batches is below 2^29.
fn spin_on_batch(worker: &mut Worker, left: u64, word: &PureWord) -> Event
    requires processed { worker.old.processed < 2 ^ 29 }
    ensures makes { Makes (spin_on_batch left (desk_of worker.old) word.now) result worker.new }
    ensures same { worker.new ≡ record worker.old { place = worker.new.place; spinner = worker.new.spinner } }
{
    worker.place = Place::WordWait(if worker.has_mail(word) {
        worker.spinner.on_hit();
        InWordWait::TakeLatch
    } else {
        InWordWait::SpinOnLatch { left }
    });
    Event::Turn
}

/// Looks for a latch.
fn spin_on_latch(worker: &mut Worker, left: u64, word: &PureWord) -> Event
    ensures makes { Makes (spin_on_latch left (desk_of worker.old) word.now) result worker.new }
    ensures same { worker.new ≡ record worker.old { place = worker.new.place; spinner = worker.new.spinner } }
{
    worker.place = Place::WordWait(if word.latch {
        worker.spinner.on_hit();
        InWordWait::TakeLatch
    } else if left > 1 {
        InWordWait::SpinOnBatch { left: left - 1 }
    } else {
        worker.spinner.on_miss();
        InWordWait::ArmWord
    });
    Event::Turn
}

/// Takes the latch out of the wake word. The caller must know that the worker has a seat.
fn take_latch<B: Drop>(worker: &mut Worker, shared: &mut Shared<B>) -> Event
    requires there { worker.old.index < length shared.old.seats.items }
    ensures event { result ≡ Event.Turn }
    ensures goes { worker.new ≡ record worker.old { place = after_waiting_of AfterWait.Begin worker.old } }
    ensures word { TurnsWord worker.old.index shared.old shared.new
        (record (word_of (things_of shared.old) worker.old.index) { latch = false }) }
{
    let _found = shared.seats[worker.index].mailbox.waker.consume_signal();
    worker.place = worker.after_waiting(AfterWait::Begin);
    Event::Turn
}

/// Puts the sleeping bit into the wake word. The caller must know that the worker has a seat, that its wake word
/// has no wait bit, and that its count of batches is below 2^29.
fn arm_word<B: Drop>(worker: &mut Worker, shared: &mut Shared<B>) -> Event
    requires there { worker.old.index < length shared.old.seats.items }
    requires unarmed { OfChair worker.old.index shared.old (λ chair. chair.mailbox.waker.target ≡ WaitTarget.None) }
    requires processed { worker.old.processed < 2 ^ 29 }
    ensures makes { Makes (arm_word (desk_of worker.old) (word_of (things_of shared.old) worker.old.index)) result
        worker.new }
    ensures same { worker.new ≡ record worker.old { place = worker.new.place; slept = None } }
    ensures word { TurnsWord worker.old.index shared.old shared.new
        (arm_word (desk_of worker.old) (word_of (things_of shared.old) worker.old.index)).thing }
{
    let word = &mut shared.seats[worker.index].mailbox.waker;
    let found = word.arm(WaitTarget::Sleeping);
    worker.slept = None;
    worker.place = Place::WordWait(after_arming(found.still_idle(worker.processed)));
    Event::Turn
}

/// A worker that slept and was signalled learns how long it slept.
fn wake_up(worker: &mut Worker, latch: bool, clock: u64)
    requires asleep { IfSome worker.old.slept (λ moment. moment ≤ clock) }
    ensures desk { desk_of worker.new ≡ after_sleep clock latch worker.old.slept (desk_of worker.old) }
    ensures same { worker.new ≡ record worker.old { spinner = worker.new.spinner; slept = None } }
{
    match worker.slept.take() {
        Some(slept) if latch => worker.spinner.on_wake(clock - slept),
        _ => {}
    }
}

/// Where it sleeps, the moment at which it went to sleep is kept.
fn note_sleep(worker: &mut Worker, event: &Event, clock: u64)
    ensures { worker.new ≡ record worker.old { slept = slept_after event.now clock worker.old.slept } }
{
    if let Event::Sleep { .. } = event {
        worker.slept = Some(clock);
    }
}

/// Takes the wait bits out of the wake word. The caller must know that the worker has a seat, and that the clock
/// has come to the moment at which it went to sleep, where one is kept.
fn disarm_word<B: Drop>(worker: &mut Worker, shared: &mut Shared<B>) -> Event
    requires there { worker.old.index < length shared.old.seats.items }
    requires asleep { IfSome worker.old.slept (λ moment. moment ≤ shared.old.clock) }
    ensures event { result ≡ Event.Turn }
    ensures desk { desk_of worker.new ≡ record (after_sleep shared.old.clock
        (word_of (things_of shared.old) worker.old.index).latch worker.old.slept
        (desk_of worker.old)) { place = after_waiting_of AfterWait.Begin worker.old } }
    ensures same { worker.new ≡ record worker.old { place = worker.new.place; spinner = worker.new.spinner; slept = None } }
    ensures word { TurnsWord worker.old.index shared.old shared.new
        (disarmed (word_of (things_of shared.old) worker.old.index)) }
{
    let next = worker.after_waiting(AfterWait::Begin);
    let found = shared.seats[worker.index].mailbox.waker.disarm();
    wake_up(worker, found.latch, shared.clock);
    worker.place = next;
    Event::Turn
}

/// What follows the arming: the sleep, where the word was as it was left.
fn after_arming(idle: bool) -> InWordWait
    ensures { result ≡ (if idle then InWordWait.SleepOnWord else InWordWait.DisarmWord) }
{
    if idle {
        InWordWait::SleepOnWord
    } else {
        InWordWait::DisarmWord
    }
}
