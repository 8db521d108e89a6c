//! Messages to other workers about what they have for a task: that it waits for the result elsewhere, and that nobody
//! holds it any more.
//!
//! A task that is polled by one worker may wait for what another has. The first such poll asks that worker for the
//! result, which comes to the task itself, whoever polls it then; from then on each poll looks there.

ghost use Rattle.std.specs.Prelude.{◌<◌, length, false};
ghost use Rattle.exec_moves.specs.Send.{first_letter};
ghost use Rattle.exec_parts.specs.{MailPosts.{AsksEnd, AsksOutput, HearsEnd, HearsOutput, MayAskEnd, MayAskOutput, MayHearEnd, MayHearOutput, SendsLetter}, Pooled.MaySend, View.{desk_of, letters_in}};

use crate::resuming::take_sleep;
use exec_machine::event::Event;
use exec_machine::state::MailMessage;
use exec_moves::handing::{AfterCancels, AfterSend};
use exec_moves::place::{InPoll, Place};
use exec_parts::parts::shared::Shared;
use exec_parts::parts::worker::Worker;
use exec_parts::scripted::Scripted;
use exec_task::body::Said;

/// The task waits for a request of another worker, which is asked for its output. The caller must know that the
/// task, the request and the worker that has it are there, and that the mailbox of that worker has a place for the
/// message, unless it is closed.
pub(crate) fn ask_output<B: Scripted + Drop>(
    worker: &mut Worker,
    task: usize,
    request: usize,
    shared: &mut Shared<B>,
) -> Event
    requires may { MayAskOutput task request shared.old }
    ensures asks { AsksOutput task request worker.old worker.new shared.old shared.new result }
{
    let record = &mut shared.requests[request];
    record.forward(task);
    let other = record.shown.worker;
    shared.tasks[task].await_output(request);
    let message = MailMessage::ForwardRequest(request);
    worker.send(other, message, AfterSend::Pend { task }, shared)
}

/// The task waits for its sleeper on another worker, which is asked for its end. The caller must know that the
/// sleeper and the worker that has it are there, and that the mailbox of that worker has a place for the message,
/// unless it is closed.
pub(crate) fn ask_end<B: Scripted + Drop>(
    worker: &mut Worker,
    task: usize,
    timer: usize,
    shared: &mut Shared<B>,
) -> Event
    requires may { MayAskEnd timer shared.old }
    ensures asks { AsksEnd task timer worker.old worker.new shared.old shared.new result }
{
    let record = &mut shared.sleepers[timer];
    record.forward();
    let other = record.shown.worker;
    let message = MailMessage::ForwardTimer(timer);
    worker.send(other, message, AfterSend::Pend { task }, shared)
}

/// The task looks whether the output was sent that it waits for. Where it wasn't the poll ends next. The caller
/// must know that the task and the request are there; and where the output was sent that the request is over, that
/// its output lies with the task, and that the task holds some request.
pub fn hear_output<B: Scripted + Drop>(
    worker: &mut Worker,
    task: usize,
    request: usize,
    shared: &mut Shared<B>,
) -> Event
    requires may { MayHearOutput task request shared.old }
    ensures hears { HearsOutput task request worker.old worker.new shared.old shared.new result }
{
    if !shared.requests[request].sent {
        worker.place = Place::Poll(task, InPoll::Pend);
        return Event::Turn;
    }
    let record = &mut shared.requests[request];
    let Some(outcome) = record.outcome() else {
        unreachable!()
    };
    record.shown.observed = false;
    let slot = &mut shared.tasks[task];
    let Some(heard) = slot.hear_output() else {
        unreachable!()
    };
    let Ok(output) = heard else { unreachable!() };
    slot.let_go();
    slot.take(Said::Output(output));
    worker.place = Place::Poll(task, InPoll::Act);
    Event::Got { request, outcome }
}

/// The task looks whether the end of its sleep was sent. Where it wasn't the poll ends next. The caller must know
/// that the task and the sleeper are there.
pub(crate) fn hear_end<B: Scripted + Drop>(
    worker: &mut Worker,
    task: usize,
    timer: usize,
    shared: &mut Shared<B>,
) -> Event
    requires may { MayHearEnd task timer shared.old }
    ensures hears { HearsEnd task timer worker.old worker.new shared.old shared.new result }
{
    if !shared.sleepers[timer].sent {
        worker.place = Place::Poll(task, InPoll::Pend);
        return Event::Turn;
    }
    take_sleep(worker, task, timer, shared)
}

/// Sends the next message about what a task held that is over. The caller must know that there is one, that the
/// worker to which it goes is there, and that the mailbox of that worker has a place for it, unless it is closed.
pub fn send_cancel<B: Drop>(
    worker: &mut Worker,
    back: AfterCancels,
    shared: &mut Shared<B>,
) -> Event
    requires some { 0 < length (letters_in worker.old.letters) }
    requires may { MaySend (first_letter (desk_of worker.old)).to (first_letter (desk_of worker.old)).message shared.old }
    ensures sends { SendsLetter back worker.old worker.new shared.old shared.new result }
{
    let Some(letter) = worker.letters.next() else {
        unreachable!()
    };
    worker.send(letter.to, letter.message, AfterSend::Cancels(back), shared)
}
