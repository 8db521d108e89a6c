//! One step of a worker: its place says which.

ghost use Rattle.std.specs.Prelude.{◌≡◌, ℕ, ◌<◌, true, length, slice_get, None, Some, IfOk, OnErr, IsSome};
ghost use Rattle.exec_parts.specs.{declared.parts.record.Record.Record, Phased.IsGoing};
ghost use Rattle.exec_invariants.specs.{Acting.{PerformsOne, StepsWith}, Drained.IsLetOn, Sound.Sound, Whole.HasWhole, Works.Same};

use crate::kick::{claim_worker, kick, leave_search};
use crate::loads::{load, read_clock, test_for_work};
use crate::look::{look, withdraw};
use crate::pop::pop;
use crate::push::{push, push_global};
use crate::search::{scan, search};
use crate::signal::signal;
use crate::turn::{begin_turn, pick, take_root_flag};
use exec_closing::closing::close_down;
use exec_machine::event::Event;
use exec_messages::callbacks::callbacks;
use exec_messages::mail::mail;
use exec_moves::place::Place;
use exec_parts::parts::nursery::Nursery;
use exec_parts::parts::shared::Shared;
use exec_parts::parts::worker::Worker;
use exec_parts::scripted::Scripted;
use exec_polling::poll::poll;
use exec_polling::sending::send_cancel;
use exec_serving::ring_wait::wait_on_ring;
use exec_serving::service::service;
use exec_serving::word_wait::wait_on_word;
use std::alloc::{AllocError, Global};

/// Takes the next step of the worker, and answers what happens. A worker that it makes is in the nursery then. Err
/// comes only for want of memory, or where the numbers of tasks, workers, requests or sleepers have come to their end, and
/// then nothing that can be seen has changed. The caller must know that the worker is sound with what all share, that the
/// balances of all parties hold, and that the bodies of all tasks perform a plan of this configuration; that the worker
/// has not ended, that all of the pool have passed the barrier where it has, and that each request is one of a worker
/// that is there. The caller must have an empty nursery.
pub fn step<B: Scripted + Drop>(
    worker: &mut Worker,
    alloc: Global,
    shared: &mut Shared<B>,
    nursery: &mut Nursery,
) -> Result<Event, AllocError>
    requires sound { Sound worker.old shared.old }
    requires whole { HasWhole worker.old shared.old }
    requires performs { PerformsOne B.left B.runs B.holds shared.old }
    requires going { IsGoing worker.old.index shared.old.seats.items }
    requires let_on { IsLetOn worker.old.index shared.old.seats.items }
    requires staff { (k : ℕ) (r : Record) → slice_get shared.old.requests.items k ≡ Some r →
        r.shown.worker < length shared.old.seats.items }
    requires none_yet { nursery.old.born ≡ None }
    ensures steps { IfOk result (λ event. StepsWith B.left B.runs B.holds B.spot nursery.new.born
        worker.old shared.old event worker.new shared.new) }
    ensures room { IsSome nursery.new.born → nursery.old.has_room ≡ true }
    ensures same { OnErr result (Same B.left B.spot worker.old shared.old worker.new shared.new) }
    ensures nobody { OnErr result (nursery.new.born ≡ None) }
{
    match worker.place {
        Place::BeginTurn => Ok(begin_turn(worker)),
        Place::Pick(at) => Ok(pick(worker, at, shared)),
        Place::TakeRootFlag => Ok(take_root_flag(worker)),
        Place::Poll(task, at) => poll(worker, alloc, task, at, shared, nursery),
        Place::Callbacks(at, then) => Ok(callbacks(worker, at, then, shared)),
        Place::Loads(at, round) => Ok(load(worker, at, round, shared)),
        Place::Service(at, turn) => Ok(service(worker, at, turn, shared)),
        Place::Mail(at) => Ok(mail(worker, at, shared)),
        Place::TestForWork { found } => Ok(test_for_work(worker, found)),
        Place::ReadClock => {
            let longest_spin = shared.config.spin.most;
            Ok(read_clock(worker, shared.clock, shared.config.workers, longest_spin))
        }
        Place::Search(at) => Ok(search(worker, at, shared)),
        Place::Scan(at) => Ok(scan(worker, at, shared)),
        Place::Look(at) => Ok(look(worker, at, shared)),
        Place::RingWait(at, stay) => Ok(wait_on_ring(worker, at, stay, shared)),
        Place::WordWait(at) => Ok(wait_on_word(worker, at, shared)),
        Place::Withdraw(then) => Ok(withdraw(worker, then, &mut shared.idle)),
        Place::Closing(at) => Ok(close_down(worker, alloc, at, shared)),
        Place::Pop(at, back) => Ok(pop(worker, at, back, shared)),
        Place::LeaveSearch(back) => Ok(leave_search(worker, back, &mut shared.idle)),
        Place::Push(at, back) => Ok(push(worker, at, back, shared)),
        Place::Global(at, back) => Ok(push_global(worker, at, back, shared)),
        Place::Kick(at, back) => Ok(kick(worker, at, back, shared)),
        Place::ClaimWorker(set, back) => Ok(claim_worker(worker, set, back, &mut shared.idle)),
        Place::Signal(at, other, back) => Ok(signal(worker, at, other, back, shared)),
        Place::SendCancel(back) => Ok(send_cancel(worker, back, shared)),
    }
}
