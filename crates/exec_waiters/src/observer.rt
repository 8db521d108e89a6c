//! Who waits for a request.

ghost use Rattle.std.specs.Prelude.{◌≡◌};
ghost use Rattle.exec_waiters.specs.{States.{suits, is_held_by, is_local}, Events.waker_in};

use exec_base::task_no::TaskNo;
use exec_outcomes::outcome::Kind;
use exec_request::request::Request;

/// Where the outcome of a request goes. `S` is what the outcome of a sync is sent by, `F` what the output of a request
/// is sent by. Ports `Observer`.
#[derive(Drop)]
pub enum Observer<S, F> {
    /// To a task of the worker, which takes the output. None as long as the task hasn't said whom to wake.
    Local(Option<TaskNo>),
    /// Elsewhere: the output is sent.
    Forwarded(F),
    /// Elsewhere, of a sync that no task of the worker waits for: whether it went well is sent.
    DetachedSync(S),
    /// Nowhere: nobody waits any more.
    Orphaned,
}

impl<S: Drop, F: Drop> Observer<S, F> {
    /// Whether it may wait for this request: where its outcome alone is to be sent, only for a sync.
    pub fn suits(&self, request: &Request) -> bool
        ensures { result ≡ suits request.now self.now }
    {
        !matches!(self, Observer::DetachedSync(_)) || request.kind() == Kind::Sync
    }

    /// Whether someone waits who can let the request go: not so where nobody waits, nor where a sync was begun whose
    /// outcome alone is sent.
    pub(crate) fn is_held(&self) -> bool
        ensures { result ≡ is_held_by self.now }
    {
        matches!(self, Observer::Local(_) | Observer::Forwarded(_))
    }

    /// The task that would be woken.
    pub(crate) fn waker(&self) -> Option<TaskNo>
        ensures { result ≡ waker_in self.now }
    {
        match self {
            Observer::Local(waker) => *waker,
            _ => None,
        }
    }

    /// Whether a task of the worker waits.
    pub(crate) fn is_local(&self) -> bool
        ensures { result ≡ is_local self.now }
    {
        matches!(self, Observer::Local(_))
    }
}
