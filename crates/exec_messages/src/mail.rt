//! The mailbox: messages that others sent are taken in batches, and applied one a step.
//!
//! A turn applies 64 messages at most; what is left of a batch comes first in the next turn. A message wakes the root, or
//! is about a request or a sleeper of this worker: that a task waits for it elsewhere, or that nobody holds it any more.

ghost use Rattle.exec_invariants.specs.{Sound.SoundAt, Whole.HasWhole, Works.Steps};
ghost use Rattle.std.specs.Prelude.{◌+◌, ◌<◌, ◌≡◌, ◌^◌, [], length, map, slice_get, Some};
ghost use Rattle.exec_words.specs.Inbox.{batch_handed, batch_taken};
ghost use Rattle.exec_moves.specs.{Mail.{after_message, load_mail_word, take_mail, to_callbacks as place_of_callbacks}, State.{inbox_of, word_of}};
ghost use Rattle.exec_parts.specs.{Phased.TurnsChair, MailTakes.{ForwardsRequest, ForwardsTimer, Applies, MayForward, MayForwardTimer, MayTake, Takes}, Pooled.OfChair, View.{cancel_of, desk_of, forward_of, message_of, things_of}, Things.{Goes, Makes}};

use exec_base::task_no::TaskNo;
use exec_machine::event::Event;
use exec_machine::state::{Forwarding, MailMessage};
use exec_moves::handing::{AfterCallbacks, Heard};
use exec_moves::place::{InCallbacks, InMail, Place};
use exec_parts::parts::mail::{MESSAGES, Mail, Reply, Subject};
use exec_parts::parts::record::Record;
use exec_parts::parts::shared::Shared;
use exec_parts::parts::sleeping::SleeperRecord;
use exec_parts::parts::worker::Worker;
use exec_parts::scripted::Scripted;
use exec_words::inbox::Message;
use exec_words::word::next_batch;

/// Takes the next step at the mailbox. The caller must know that the worker is at this place and sound with what all
/// share, and that the balances of all parties hold.
pub fn mail<B: Scripted + Drop>(worker: &mut Worker, at: InMail, shared: &mut Shared<B>) -> Event
    requires sound { SoundAt (Place.Mail at) worker.old shared.old }
    requires whole { HasWhole worker.old shared.old }
    ensures steps { Steps B.left B.spot worker.old shared.old result worker.new shared.new }
{
    match at {
        InMail::LoadMailWord => load_mail_word(worker, shared),
        InMail::TakeMail => take_mail(worker, shared),
        InMail::Apply { applied, .. } => apply(worker, applied, shared),
    }
}

/// Loads the wake word, for another batch. The caller must know that the worker has a seat, and that its count of
/// batches is below 2^29.
fn load_mail_word<B: Drop>(worker: &mut Worker, shared: &Shared<B>) -> Event
    requires there { worker.old.index < length shared.now.seats.items }
    requires processed { worker.old.processed < 2 ^ 29 }
    ensures makes { Makes (load_mail_word (desk_of worker.old)
        (word_of (things_of shared.now) worker.old.index)) result worker.new }
    ensures goes { Goes worker.old worker.new }
{
    worker.place = if worker.has_mail(&shared.seats[worker.index].mailbox.waker) {
        Place::Mail(InMail::TakeMail)
    } else {
        to_callbacks()
    };
    Event::Turn
}

/// Takes the messages that are there, as one batch. The caller must know that the worker has a seat, and must have
/// applied the whole batch before.
fn take_mail<B: Drop>(worker: &mut Worker, shared: &mut Shared<B>) -> Event
    requires there { worker.old.index < length shared.old.seats.items }
    requires batch { worker.old.batch.values ≡ [] }
    ensures makes { Makes (take_mail (desk_of worker.old) (inbox_of (things_of shared.old) worker.old.index)) result
        worker.new }
    ensures same { worker.new ≡ record worker.old {
      place = worker.new.place;
      batch = worker.new.batch;
      processed = worker.new.processed;
    } }
    ensures batch { OfChair worker.old.index shared.old (λ chair. worker.new.batch
        ≡ batch_handed chair.mailbox.inbox worker.old.batch) }
    ensures chair { TurnsChair worker.old.index (λ chair. record
        chair { mailbox = record chair.mailbox { inbox = batch_taken chair.mailbox.inbox worker.old.batch } })
        shared.old shared.new }
    ensures kept { shared.new ≡ record shared.old { seats = shared.new.seats } }
{
    if shared.seats[worker.index]
        .mailbox
        .inbox
        .take(&mut worker.batch)
    {
        worker.processed = next_batch(worker.processed);
    }
    worker.place = after_message(worker, 0);
    Event::Turn
}

/// Applies the first message of the batch, after so many in this turn. The caller must know that there is one, that
/// fewer than 64 were applied, that what it is about is there, with room for what it tells or ends, that a request
/// to be forwarded has a task that waits for it, that a sleeper to be forwarded wasn't before, and that their tasks
/// have numbers of 32 bits.
fn apply<B: Scripted + Drop>(worker: &mut Worker, applied: usize, shared: &mut Shared<B>) -> Event
    requires some { 0 < length worker.old.batch.values }
    requires few { applied < 64 }
    requires may { (mail : Message Subject Subject) → slice_get worker.old.batch.values 0 ≡ Some mail → MayTake (message_of mail) worker.old shared.old }
    ensures applies { Applies applied worker.old worker.new shared.old shared.new result }
{
    let Some(mail) = worker.batch.pop() else {
        unreachable!()
    };
    let message = take_effect(worker, mail, shared);
    worker.place = after_message(worker, applied + 1);
    Event::Apply { message }
}

/// A message takes effect.
fn take_effect<B: Scripted + Drop>(
    worker: &mut Worker,
    mail: Mail,
    shared: &mut Shared<B>,
) -> MailMessage
    requires may { MayTake (message_of mail) worker.old shared.old }
    ensures message { result ≡ message_of mail }
    ensures takes { Takes (message_of mail) worker.old worker.new shared.old shared.new }
{
    match mail {
        Message::WakeRoot => {
            worker.wake_own_root(shared);
            MailMessage::Root
        }
        Message::Forward(subject) => take_forward(worker, subject, shared),
        Message::Cancel(subject) => take_cancel(worker, subject, shared),
    }
}

/// A task waits for this elsewhere.
fn take_forward<B: Drop>(
    worker: &mut Worker,
    subject: Subject,
    shared: &mut Shared<B>,
) -> MailMessage
    requires may { MayTake (forward_of subject) worker.old shared.old }
    ensures message { result ≡ forward_of subject }
    ensures takes { Takes (forward_of subject) worker.old worker.new shared.old shared.new }
{
    match subject {
        Subject::Request(request) => {
            forward_request(worker, request, &mut shared.requests[request]);
            MailMessage::ForwardRequest(request)
        }
        Subject::Timer(timer) => {
            forward_timer(worker, timer, &mut shared.sleepers[timer]);
            MailMessage::ForwardTimer(timer)
        }
    }
}

/// Nobody holds this any more.
fn take_cancel<B: Drop>(
    worker: &mut Worker,
    subject: Subject,
    shared: &mut Shared<B>,
) -> MailMessage
    requires may { MayTake (cancel_of subject) worker.old shared.old }
    ensures message { result ≡ cancel_of subject }
    ensures takes { Takes (cancel_of subject) worker.old worker.new shared.old shared.new }
{
    match subject {
        Subject::Request(request) => {
            worker.orphan_request(request, shared);
            MailMessage::CancelRequest(request)
        }
        Subject::Timer(timer) => {
            worker.remove_sleeper(timer, shared);
            MailMessage::CancelTimer(timer)
        }
    }
}

/// The output of a request will be sent to the task that waits for it elsewhere. Where it is there, it is told next.
fn forward_request(worker: &mut Worker, request: usize, record: &mut Record)
    requires may { MayForward record.old worker.old }
    ensures forwards { ForwardsRequest request record.old record.new worker.old worker.new }
{
    let Some(task) = record.shown.waiter else {
        unreachable!()
    };
    let reply = Reply {
        task: TaskNo(task as u32),
        of: Heard::Request(request),
    };
    worker.home.driver.lists_requests();
    worker
        .home
        .driver
        .forward(record.id, reply, &mut worker.home.deferred);
    record.shown.forwarding = Forwarding::Applied;
}

/// The end of a sleeper will be sent to the task that waits for it elsewhere. Where it has come, it is told next.
fn forward_timer(worker: &mut Worker, timer: usize, record: &mut SleeperRecord)
    requires may { MayForwardTimer record.old worker.old }
    ensures forwards { ForwardsTimer timer record.old record.new worker.old worker.new }
{
    let reply = Reply {
        task: TaskNo(record.shown.task as u32),
        of: Heard::Timer(timer),
    };
    let notes = &mut worker.home.deferred.notes;
    worker.home.timers.forward(record.id, reply, notes);
    record.shown.forwarding = Forwarding::Applied;
}

/// The next message, or the callbacks once so many were applied that the rest waits for the next turn.
fn after_message(worker: &Worker, applied: usize) -> Place
    ensures { result ≡ after_message applied (map message_of worker.now.batch.values) }
{
    if worker.batch.is_empty() || applied >= MESSAGES {
        return to_callbacks();
    }
    Place::Mail(InMail::Apply {
        applied,
        taken: true,
    })
}

/// The callbacks after the mailbox.
fn to_callbacks() -> Place
    ensures { result ≡ place_of_callbacks }
{
    Place::Callbacks(InCallbacks::TakeBatch, AfterCallbacks::Test)
}
