//! The search counts that go from one party to another: a worker leaves its search, a kick begins one, a claim hands
//! its count to a published worker.
//!
//! Who returns the last count can't know whether others relied on it, so it kicks: where nobody searches and a worker
//! is published, that worker is claimed, and gets the count that the kick has reserved. A claim that finds nobody
//! returns the count, and where that was the last the kick begins anew.

ghost use Rattle.exec_invariants.specs.{Sound.SoundAt, Whole.HasWhole, Works.Steps};
ghost use Rattle.std.specs.Prelude.{◌+◌, ◌-◌, ◌<◌, ◌≡◌, ◌==◌, false, IsSome, if◌then◌else◌};
ghost use Rattle.exec_words.specs.Idle.{lowest_of};
ghost use Rattle.exec_moves.specs.{Claim.{claim_worker, claimed, idle_after}, Global.has_any};
ghost use Rattle.exec_parts.specs.{Tests.{after_kick_of, after_return_of}, View.desk_of, Things.{Goes, Makes}};

use crate::push::after_push;
use exec_machine::event::Event;
use exec_moves::handing::{
    AfterClaim, AfterKick, AfterLeave, AfterSignal, InGlobal, InKick, InSignal,
};
use exec_moves::place::Place;
use exec_parts::claim::{Claimed, claim};
use exec_parts::parts::shared::Shared;
use exec_parts::parts::worker::Worker;
use exec_parts::scripted::Scripted;
use exec_words::idle::{PureIdle, WorkerSet};

/// Takes the next step of a kick.
pub(crate) fn kick<B: Scripted + Drop>(
    worker: &mut Worker,
    at: InKick,
    back: AfterKick,
    shared: &mut Shared<B>,
) -> Event
    requires sound { SoundAt (Place.Kick at back) worker.old shared.old }
    requires whole { HasWhole worker.old shared.old }
    ensures steps { Steps B.left B.spot worker.old shared.old result worker.new shared.new }
{
    match at {
        InKick::LoadKickCount => load_kick_count(worker, back, &shared.idle),
        InKick::LoadKickSet => load_kick_set(worker, back, &shared.idle),
        InKick::ExchangeKickCount { set } => {
            exchange_kick_count(worker, set, back, &mut shared.idle)
        }
        InKick::ReturnKickCount => return_kick_count(worker, back, &mut shared.idle),
    }
}

/// Returns the search count that the worker holds. The caller must know that the search count isn't 0.
pub fn leave_search(worker: &mut Worker, back: AfterLeave, idle: &mut PureIdle) -> Event
    requires holds { 0 < idle.old.count }
    ensures event { result ≡ Event.Turn }
    ensures goes { worker.new ≡ record worker.old {
      place = after_return_of (idle.old.count == 1) back worker.old;
      searching = false;
    } }
    ensures idle { idle.new ≡ record idle.old { count = idle.old.count - 1 } }
{
    worker.searching = false;
    let last = idle.subtract() == 1;
    worker.place = worker.after_return(last, back);
    Event::Turn
}

/// Loads the search count: where somebody searches, nobody need be kicked.
fn load_kick_count(worker: &mut Worker, back: AfterKick, idle: &PureIdle) -> Event
    ensures event { result ≡ Event.Turn }
    ensures goes { worker.new ≡ record worker.old {
      place = (if idle.now.count == 0
          then Place.Kick InKick.LoadKickSet back else after_kick_of back worker.old);
    } }
{
    worker.place = if idle.count() == 0 {
        Place::Kick(InKick::LoadKickSet, back)
    } else {
        after_kick(worker, back)
    };
    Event::Turn
}

/// Loads the idle set.
fn load_kick_set(worker: &mut Worker, back: AfterKick, idle: &PureIdle) -> Event
    ensures event { result ≡ Event.Turn }
    ensures goes { worker.new ≡ record worker.old {
      place = (if has_any idle.now
          then Place.Kick (InKick.ExchangeKickCount (record { has = idle.now.published })) back
          else after_kick_of back worker.old);
    } }
{
    let set = idle.set();
    worker.place = match set.lowest() {
        Some(_) => Place::Kick(InKick::ExchangeKickCount { set }, back),
        None => after_kick(worker, back),
    };
    Event::Turn
}

/// Exchanges the search count 0 to 1, for the worker that is claimed next.
fn exchange_kick_count(
    worker: &mut Worker,
    set: WorkerSet,
    back: AfterKick,
    idle: &mut PureIdle,
) -> Event
    ensures event { result ≡ Event.Turn }
    ensures goes { worker.new ≡ record worker.old {
      place = (if idle.old.count == 0
          then Place.ClaimWorker set (AfterClaim.Kick back) else after_kick_of back worker.old);
    } }
    ensures idle { idle.new ≡ (if idle.old.count == 0 then record idle.old { count = 1 } else idle.old) }
{
    worker.place = match idle.count_exchange() {
        Ok(()) => Place::ClaimWorker(set, AfterClaim::Kick(back)),
        Err(_) => after_kick(worker, back),
    };
    Event::Turn
}

/// Returns the search count, since nobody was claimed. Who returned the last kicks again. The caller must know that
/// the search count isn't 0.
fn return_kick_count(worker: &mut Worker, back: AfterKick, idle: &mut PureIdle) -> Event
    requires holds { 0 < idle.old.count }
    ensures event { result ≡ Event.Turn }
    ensures goes { worker.new ≡ record worker.old {
      place = (if idle.old.count == 1
          then Place.Kick InKick.LoadKickCount back else after_kick_of back worker.old);
    } }
    ensures idle { idle.new ≡ record idle.old { count = idle.old.count - 1 } }
{
    worker.place = if idle.subtract() == 1 {
        Place::Kick(InKick::LoadKickCount, back)
    } else {
        after_kick(worker, back)
    };
    Event::Turn
}

/// Where a kick leads.
pub(crate) fn after_kick(worker: &Worker, back: AfterKick) -> Place
    ensures { result ≡ after_kick_of back worker.now }
{
    match back {
        AfterKick::Leave(back) => worker.after_leave(back),
        AfterKick::Push(back) => after_push(worker, back),
    }
}

/// Claims the lowest worker of the set that was found, and goes on to signal it. Where the set has changed, it goes
/// on to try what it finds, or to return the count where that is nobody. The caller must know that somebody is in
/// the set.
pub fn claim_worker(
    worker: &mut Worker,
    set: WorkerSet,
    back: AfterClaim,
    idle: &mut PureIdle,
) -> Event
    requires some { IsSome (lowest_of set.has) }
    ensures makes { Makes (claim_worker set back (desk_of worker.old) idle.old) result worker.new }
    ensures goes { Goes worker.old worker.new }
    ensures idle { idle.new ≡ idle_after (claimed set idle.old) idle.old }
{
    worker.place = match claim(idle, &set) {
        Claimed::Worker(other) => {
            Place::Signal(InSignal::SetLatch, other, AfterSignal::Claim(back))
        }
        Claimed::Again(found) => Place::ClaimWorker(found, back),
        Claimed::Nobody => match back {
            AfterClaim::Kick(back) => Place::Kick(InKick::ReturnKickCount, back),
            AfterClaim::Global(back) => Place::Global(InGlobal::ReturnGlobalCount, back),
        },
    };
    Event::Turn
}
