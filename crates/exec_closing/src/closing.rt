//! The closing of a worker, once its root is over.
//!
//! Worker zero closes the task set and the global queue, opens the shutdown barrier and stops the pool. Each worker of
//! the pool empties its run queue, drains the task set, passes the barrier, and closes its mailbox. Then it lets go of
//! what tasks still hold and sleep for, and serves its requests until none is left.

ghost use Rattle.exec_invariants.specs.{Drained.IsLetOn, Sound.SoundAt, Whole.HasWhole, Works.Steps};
ghost use Rattle.exec_parts.specs.{Phased.{IsGoing, TurnsChair}, Calls.sleeper_gone_with, Ending.{ClosesOn, ClosesSleeper, MayCloseSleeper, MayOrphan, Orphans}, Pooled.{MaySend, OfChair, Sends}, Records.outcome_in, Roles.{is_pool, owns_runner}, View.{driver_of, message_of}};
ghost use Rattle.std.specs.Prelude.{◌+◌, ◌<◌, ◌≡◌, ◌||◌, [], true, length, map, None, if◌then◌else◌};
ghost use Rattle.exec_words.specs.{Inbox.{batch_handed, batch_taken, shut}, Word.next_batch as batch_after};
ghost use Rattle.exec_moves.specs.{Close.batches_closed, Parts.{first_pop, tells_from}};

use crate::clearing::{clear, visit};
use exec_machine::event::Event;
use exec_machine::state::{MailMessage, WorkerPhase};
use exec_moves::handing::{AfterCallbacks, AfterPop, AfterSend};
use exec_moves::place::{InCallbacks, InClosing, Place};
use exec_outcomes::outcome::Outcome;
use exec_parts::parts::mail::Subject;
use exec_parts::parts::record::Record;
use exec_parts::parts::shared::Shared;
use exec_parts::parts::sleeping::remove_all_of;
use exec_parts::parts::worker::Worker;
use exec_parts::scripted::Scripted;
use exec_parts::ways::{first_pop, tell_from};
use exec_words::inbox::Message;
use exec_words::reserved::Reserved;
use exec_words::word::next_batch;
use std::alloc::Global;

/// Takes the next step of a closing. The caller must know that the worker is at this place and sound with what all
/// share, that the balances of all parties hold, that the worker has not ended, and that all of the pool have passed the
/// barrier where it has.
pub fn close_down<B: Scripted + Drop>(
    worker: &mut Worker,
    alloc: Global,
    at: InClosing,
    shared: &mut Shared<B>,
) -> Event
    requires sound { SoundAt (Place.Closing at) worker.old shared.old }
    requires whole { HasWhole worker.old shared.old }
    requires going { IsGoing worker.old.index shared.old.seats.items }
    requires let_on { IsLetOn worker.old.index shared.old.seats.items }
    ensures steps { Steps B.left B.spot worker.old shared.old result worker.new shared.new }
{
    match at {
        InClosing::Close => close(worker, shared),
        InClosing::CloseQueue => close_queue(worker, alloc, shared),
        InClosing::OpenBarrier => open_barrier(worker, shared),
        InClosing::Stop => stop(worker, shared),
        InClosing::TellRoot { worker: other } => tell_root(worker, other, shared),
        InClosing::Visit { drain } => visit(worker, drain, &mut shared.set),
        InClosing::Clear { task, drain } => clear(worker, task, drain, shared),
        InClosing::LeaveBarrier => leave_barrier(worker, shared),
        InClosing::CloseMailbox => close_mailbox(worker, shared),
        InClosing::Orphan => orphan_next(worker, shared),
        InClosing::CloseSleeper => close_sleeper(worker, shared),
        InClosing::End => end(worker, shared),
    }
}

/// The closing begins. Worker zero closes the task set. The caller must know that the worker has a seat.
fn close<B: Drop>(worker: &mut Worker, shared: &mut Shared<B>) -> Event
    requires there { worker.old.index < length shared.old.seats.items }
    ensures event { result ≡ Event.Close }
    ensures worker { worker.new ≡ record worker.old {
      place = (if owns_runner worker.old.role then Place.Closing InClosing.CloseQueue
          else if is_pool worker.old.role then first_pop shared.old.config AfterPop.Discard
          else Place.Closing InClosing.CloseMailbox);
      home = record worker.old.home { closing = true };
    } }
    ensures chair { TurnsChair worker.old.index (λ chair. record chair { phase = WorkerPhase.Closing }) shared.old shared.new }
    ensures kept { shared.new ≡ record shared.old {
      seats = shared.new.seats;
      set = record shared.old.set { closed = shared.old.set.closed || owns_runner worker.old.role };
    } }
{
    shared.seats[worker.index].phase = WorkerPhase::Closing;
    worker.home.closing = true;
    worker.place = if worker.role.owns_runner() {
        shared.set.close();
        Place::Closing(InClosing::CloseQueue)
    } else if worker.role.is_pool() {
        first_pop(shared.config.workers, AfterPop::Discard)
    } else {
        Place::Closing(InClosing::CloseMailbox)
    };
    Event::Close
}

/// Closes the global queue. What it held is let go: its tasks are drained.
fn close_queue<B: Drop>(worker: &mut Worker, alloc: Global, shared: &mut Shared<B>) -> Event
    ensures event { result ≡ Event.Turn }
    ensures worker { worker.new ≡ record worker.old { place = Place.Closing InClosing.OpenBarrier } }
    ensures kept { shared.new ≡ record shared.old { global = record { values = []; places = 0; closed = true } } }
{
    let _discarded = shared.global.close(alloc);
    worker.place = Place::Closing(InClosing::OpenBarrier);
    Event::Turn
}

/// Opens the shutdown barrier.
fn open_barrier<B: Drop>(worker: &mut Worker, shared: &mut Shared<B>) -> Event
    ensures event { result ≡ Event.Turn }
    ensures worker { worker.new ≡ record worker.old { place = Place.Closing InClosing.Stop } }
    ensures kept { shared.new ≡ record shared.old { barrier_open = true } }
{
    shared.barrier_open = true;
    worker.place = Place::Closing(InClosing::Stop);
    Event::Turn
}

/// Stops the pool. The roots of the other workers are told next.
fn stop<B: Drop>(worker: &mut Worker, shared: &mut Shared<B>) -> Event
    ensures event { result ≡ Event.Stop }
    ensures worker { worker.new ≡ record worker.old { place = tells_from shared.old.config 1 } }
    ensures kept { shared.new ≡ record shared.old { stopped = true } }
{
    shared.stopped = true;
    worker.place = tell_from(1, shared.config.workers);
    Event::Stop
}

/// Sends the root of this worker the message that the pool is stopped. The caller must know that there is such a
/// worker, and that an open mailbox has a place for the message where no other wake of the root is in it.
fn tell_root<B: Drop>(worker: &mut Worker, other: usize, shared: &mut Shared<B>) -> Event
    requires may { MaySend other MailMessage.Root shared.old }
    ensures sends { Sends other MailMessage.Root (AfterSend.Tell (other + 1)) worker.old worker.new shared.old shared.new result }
{
    let next = AfterSend::Tell { worker: other + 1 };
    worker.send(other, MailMessage::Root, next, shared)
}

/// Passes the shutdown barrier. The caller must know that the worker has a seat.
fn leave_barrier<B: Drop>(worker: &mut Worker, shared: &mut Shared<B>) -> Event
    requires there { worker.old.index < length shared.old.seats.items }
    ensures event { result ≡ Event.Turn }
    ensures worker { worker.new ≡ record worker.old { place = Place.Closing InClosing.CloseMailbox } }
    ensures chair { TurnsChair worker.old.index (λ chair. record chair { left = true }) shared.old shared.new }
    ensures kept { shared.new ≡ record shared.old { seats = shared.new.seats } }
{
    shared.seats[worker.index].left = true;
    worker.place = Place::Closing(InClosing::CloseMailbox);
    Event::Turn
}

/// Closes the mailbox. What stood in it counts as a batch that was taken; that and what wasn't applied is let go.
/// The caller must know that the worker has a seat.
fn close_mailbox<B: Drop>(worker: &mut Worker, shared: &mut Shared<B>) -> Event
    requires there { worker.old.index < length shared.old.seats.items }
    ensures event { result ≡ Event.Turn }
    ensures worker { OfChair worker.old.index shared.old (λ chair. worker.new
        ≡ record worker.old {
          place = worker.new.place;
          batch = worker.new.batch;
          processed = batches_closed
              (map message_of chair.mailbox.inbox.messages) worker.old.processed;
        }) }
    ensures place { ClosesOn (driver_of worker.new) worker.new.home.timers worker.new.place }
    ensures batch { OfChair worker.old.index shared.old (λ chair. worker.new.batch
        ≡ record (batch_handed chair.mailbox.inbox (record worker.old.batch { values = [] })) { values = [] }) }
    ensures chair { TurnsChair worker.old.index (λ chair. record chair {
      mailbox = record chair.mailbox {
        inbox = shut
            (batch_taken chair.mailbox.inbox (record worker.old.batch { values = [] }));
      };
    }) shared.old shared.new }
    ensures kept { shared.new ≡ record shared.old { seats = shared.new.seats } }
{
    let_go_all(&mut worker.batch);
    let had_mail = shared.seats[worker.index]
        .mailbox
        .inbox
        .close(&mut worker.batch);
    let_go_all(&mut worker.batch);
    worker.processed = after_closing(worker.processed, had_mail);
    worker.place = next_of_closing(worker);
    Event::Turn
}

/// What is let go next: a request that somebody holds, then a sleeper, and then the callbacks follow.
fn next_of_closing(worker: &Worker) -> Place
    ensures { ClosesOn (driver_of worker.now) worker.now.home.timers result }
{
    if worker.home.driver.first_observed().is_some() {
        Place::Closing(InClosing::Orphan)
    } else if worker.home.timers.len() > 0 {
        Place::Closing(InClosing::CloseSleeper)
    } else {
        Place::Callbacks(InCallbacks::TakeBatch, AfterCallbacks::Drain)
    }
}

/// Lets go of the request in the first slot that somebody holds. The caller must know that there is one, that it is
/// there under its number, that there is room for two of each in what is to be told, and where it ends by this a
/// place for it among the requests that have ended.
fn orphan_next<B: Drop>(worker: &mut Worker, shared: &mut Shared<B>) -> Event
    requires may { MayOrphan worker.old shared.old }
    ensures orphans { Orphans worker.old worker.new shared.old shared.new result }
{
    worker.home.driver.lists_requests();
    let Some(id) = worker.home.driver.close(&mut worker.home.deferred) else {
        unreachable!()
    };
    let request = worker.names.request(id);
    let record = &mut shared.requests[request];
    let ended = record.let_go();
    let outcome = outcome_if(ended, record);
    worker.names.end_if(ended, request);
    worker.place = next_of_closing(worker);
    Event::Orphan { request, outcome }
}

/// Lets go of the sleeper in the first slot that has one, and tells its task. It counts as removed once the worker
/// has ended. The caller must know that there is one, that it is there under its number, and that there is room for
/// one more wake and one more end to be told.
fn close_sleeper<B: Drop>(worker: &mut Worker, shared: &mut Shared<B>) -> Event
    requires may { MayCloseSleeper worker.old shared.old }
    ensures closes { ClosesSleeper worker.old worker.new shared.old shared.new result }
{
    let notes = &mut worker.home.deferred.notes;
    let Some(id) = worker.home.timers.close_next(notes) else {
        unreachable!()
    };
    shared.sleepers[worker.names.timer(id)].close();
    worker.place = next_of_closing(worker);
    Event::Turn
}

/// The worker has ended, and none of its sleepers is there any more. The caller must know that it has a seat.
fn end<B: Drop>(worker: &mut Worker, shared: &mut Shared<B>) -> Event
    requires there { worker.old.index < length shared.old.seats.items }
    ensures event { result ≡ Event.End }
    ensures worker { worker.new ≡ record worker.old { place = Place.Closing InClosing.End } }
    ensures chair { TurnsChair worker.old.index (λ chair. record chair { phase = WorkerPhase.Ended }) shared.old shared.new }
    ensures sleepers { shared.new.sleepers.items ≡ map (sleeper_gone_with worker.old.index) shared.old.sleepers.items }
    ensures kept { shared.new ≡ record shared.old { seats = shared.new.seats; sleepers = shared.new.sleepers } }
{
    shared.seats[worker.index].phase = WorkerPhase::Ended;
    remove_all_of(worker.index, &mut shared.sleepers);
    worker.place = Place::Closing(InClosing::End);
    Event::End
}

/// How a request ended by being let go, where it did.
fn outcome_if(ended: bool, record: &Record) -> Option<Outcome>
    ensures { result ≡ (if ended then outcome_in record.now.shown.phase else None) }
{
    if ended { record.outcome() } else { None }
}

/// How many batches were taken, once what stood in the mailbox counts as one.
fn after_closing(processed: u32, had_mail: bool) -> u32
    ensures { result ≡ (if had_mail then batch_after processed else processed) }
{
    if had_mail {
        next_batch(processed)
    } else {
        processed
    }
}

/// Lets go of the messages of a batch.
fn let_go_all(batch: &mut Reserved<Message<Subject, Subject>>)
    ensures { batch.new ≡ record batch.old { values = [] } }
{
    while let Some(_message) = batch.pop() {}
}
