//! The signals to other workers.
//!
//! A signal puts the latch into the wake word of a worker. Where that worker waits and nobody signalled it before, its
//! wait is ended by a second step: a wait on its ring has a wake raised there, and a worker that sleeps is roused,
//! whichever of its two waits it is in by then.

ghost use Rattle.exec_invariants.specs.{Sound.SoundAt, Works.Steps};
ghost use Rattle.std.specs.Prelude.{◌+◌, ◌<◌, ◌≡◌, length, if◌then◌else◌};
ghost use Rattle.exec_machine.specs.declared.config.Configuration.{Configuration};
ghost use Rattle.exec_words.specs.Word.{asks_signal};
ghost use Rattle.exec_moves.specs.Claim.{is_ring};
ghost use Rattle.exec_parts.specs.{Phased.TurnsChair, Pooled.{OfChair, chair_latched, chair_raised, event_rousing}, Tests.after_signal_of};

use crate::kick::after_kick;
use crate::push::after_push;
use exec_machine::event::Event;
use exec_moves::handing::{AfterClaim, AfterSignal, InSignal};
use exec_moves::place::Place;
use exec_parts::parts::shared::Shared;
use exec_parts::parts::worker::Worker;
use exec_parts::scripted::Scripted;
use exec_parts::signal::rouse;
use exec_words::word::WaitTarget;

/// Takes the next step of the signal to a worker.
pub(crate) fn signal<B: Scripted + Drop>(
    worker: &mut Worker,
    at: InSignal,
    other: usize,
    back: AfterSignal,
    shared: &mut Shared<B>,
) -> Event
    requires sound { SoundAt (Place.Signal at other back) worker.old shared.old }
    ensures steps { Steps B.left B.spot worker.old shared.old result worker.new shared.new }
{
    match at {
        InSignal::SetLatch => set_latch(worker, other, back, shared),
        InSignal::Raise { ring } => raise(worker, ring, other, back, shared),
    }
}

/// Puts the latch into the wake word of the worker. The caller must know that there is such a worker.
pub fn set_latch<B: Drop>(
    worker: &mut Worker,
    other: usize,
    back: AfterSignal,
    shared: &mut Shared<B>,
) -> Event
    requires there { other < length shared.old.seats.items }
    ensures event { result ≡ Event.Turn }
    ensures goes { OfChair other shared.old (λ chair. worker.new
        ≡ record worker.old {
          place = (if asks_signal chair.mailbox.waker
              then Place.Signal (InSignal.Raise (is_ring chair.mailbox.waker.target)) other back
              else after_signal_of shared.old.config back worker.old);
        }) }
    ensures chair { TurnsChair other chair_latched shared.old shared.new }
    ensures kept { shared.new ≡ record shared.old { seats = shared.new.seats } }
{
    worker.place = match shared.seats[other].signal() {
        Some(target) => {
            let ring = target == WaitTarget::Ring;
            Place::Signal(InSignal::Raise { ring }, other, back)
        }
        None => after_signal(worker, back, shared.config.workers),
    };
    Event::Turn
}

/// Ends the wait of the worker. The caller must know that there is such a worker.
pub fn raise<B: Drop>(
    worker: &mut Worker,
    ring: bool,
    other: usize,
    back: AfterSignal,
    shared: &mut Shared<B>,
) -> Event
    requires there { other < length shared.old.seats.items }
    ensures event { OfChair other shared.old (λ chair. result ≡ event_rousing other chair.rest) }
    ensures goes { worker.new ≡ record worker.old { place = after_signal_of shared.old.config back worker.old } }
    ensures chair { TurnsChair other (chair_raised ring) shared.old shared.new }
    ensures kept { shared.new ≡ record shared.old { seats = shared.new.seats } }
{
    worker.place = after_signal(worker, back, shared.config.workers);
    rouse(ring, other, &mut shared.seats[other])
}

/// Where a signal leads.
fn after_signal(worker: &Worker, back: AfterSignal, workers: usize) -> Place
    ensures { (c : Configuration) → c.workers ≡ workers → result ≡ after_signal_of c back worker.now }
{
    match back {
        AfterSignal::Claim(AfterClaim::Kick(back)) => after_kick(worker, back),
        AfterSignal::Claim(AfterClaim::Global(back)) => after_push(worker, back),
        AfterSignal::Send(back) => worker.after_send(back, workers),
    }
}
