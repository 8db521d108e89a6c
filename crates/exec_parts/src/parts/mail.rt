//! What workers tell each other, and whom a result goes to that is told elsewhere.

ghost use Rattle.std.specs.Prelude.{◌≡◌};
ghost use Rattle.exec_parts.specs.View.{mail_of as seen_mail};

use exec_base::task_no::TaskNo;
use exec_machine::state::MailMessage;
use exec_moves::handing::Heard;
use exec_words::inbox::Message;
use exec_words::mailbox::Mailbox;

/// How many messages a worker applies in one turn at most.
pub const MESSAGES: usize = 64;

/// What a message is about, by its number among all of the executor.
#[derive(Clone, Copy, Debug, PartialEq, Eq, Drop)]
pub enum Subject {
    /// A request.
    Request(usize),
    /// A sleeper.
    Timer(usize),
}

/// A message to a worker.
pub type Mail = Message<Subject, Subject>;

/// The mailbox of a worker.
pub type Post = Mailbox<Subject, Subject>;

/// Whom a result goes to: the task that waits for it on another worker.
#[derive(Clone, Copy, Debug, PartialEq, Eq, Drop)]
pub struct Reply {
    /// The task.
    pub task: TaskNo,
    /// What it waits for.
    pub of: Heard,
}

/// A message as its worker takes it.
pub(crate) fn mail_of(message: MailMessage) -> Mail
    ensures { result ≡ seen_mail message }
{
    match message {
        MailMessage::Root => Message::WakeRoot,
        MailMessage::ForwardRequest(request) => Message::Forward(Subject::Request(request)),
        MailMessage::ForwardTimer(timer) => Message::Forward(Subject::Timer(timer)),
        MailMessage::CancelRequest(request) => Message::Cancel(Subject::Request(request)),
        MailMessage::CancelTimer(timer) => Message::Cancel(Subject::Timer(timer)),
    }
}
