//! What a worker's parts leave to be told and let go once their own work is done.
//!
//! A part that ends something doesn't wake, send or let go by itself, since that may lead back into the part. It puts
//! what is left to do into these lists, and the worker does it once the part is done. `Tells` says what a call puts
//! there. The room is made by the caller before (`HasPlaces`), so a call that tells takes no memory.

ghost use Rattle.std.specs.Prelude.{◌≡◌, [], OnOk, true, false};
ghost use Rattle.exec_waiters.specs.{Told.{HasPlaces, HasWakePlace, Tells, nothing_told, is_untold, awake}, States.is_local, Events.{told_to, output_told, fits}};

use crate::observer::Observer;
use crate::waiter_id::WaiterId;
use exec_base::error::Error;
use exec_base::task_no::TaskNo;
use exec_request::output::{RequestOutput, RetiredResources};
use exec_time::notes::{ForwardedResult, Notes};
use std::alloc::{AllocError, Global};
use std::collections::VecDeque;

/// An output that nobody takes any more.
#[derive(Drop)]
pub struct Untaken {
    /// Of which request.
    pub id: WaiterId,
    /// The output.
    pub output: RequestOutput,
}

/// What a request owned that is over.
#[derive(Drop)]
pub struct Retired {
    /// Which request.
    pub id: WaiterId,
    /// All that it owned, but for what its output hands back.
    pub resources: RetiredResources,
}

/// An output for who waits elsewhere, with the way to send it.
#[derive(Drop)]
pub struct Answer<F> {
    /// Of which request.
    pub id: WaiterId,
    /// Where the output goes.
    pub sender: F,
    /// The output, or that there is none any more.
    pub result: Result<RequestOutput, Error>,
}

/// The five lists: wakes and completions (in `notes`), outputs, resources, results, each in order of coming. `S` is
/// what a completion is sent by, `F` what a result is sent by. Ports `Deferred`.
#[derive(Drop)]
pub struct Deferred<S, F> {
    /// The tasks to be woken, and the outcomes of sleepers and detached syncs to be sent.
    pub notes: Notes<S>,
    /// The outputs to be let go.
    pub outputs: VecDeque<Untaken>,
    /// What ended requests owned, to be let go.
    pub resources: VecDeque<Retired>,
    /// The outputs to be sent.
    pub results: VecDeque<Answer<F>>,
}

impl<S: Drop, F: Drop> Deferred<S, F> {
    /// Nothing to be told. It takes no memory.
    pub fn new(alloc: Global) -> Self
        ensures wakes { result.notes.wakes.items ≡ [] }
        ensures completions { result.notes.completions.items ≡ [] }
        ensures outputs { result.outputs.items ≡ [] }
        ensures resources { result.resources.items ≡ [] }
        ensures results { result.results.items ≡ [] }
    {
        Deferred {
            notes: Notes::new(alloc),
            outputs: VecDeque::new(alloc),
            resources: VecDeque::new(alloc),
            results: VecDeque::new(alloc),
        }
    }

    /// Whether nothing is to be told.
    pub fn is_empty(&self) -> bool
        ensures { result ≡ is_untold self.now }
    {
        self.notes.wakes.is_empty()
            && self.notes.completions.is_empty()
            && self.outputs.is_empty()
            && self.resources.is_empty()
            && self.results.is_empty()
    }

    /// Makes room for `n` more in each list. Err where there is no memory; what is to be told stays in any case.
    pub fn reserve(&mut self, alloc: Global, n: usize) -> Result<(), AllocError>
        ensures same { Tells self.old self.new nothing_told }
        ensures ok { OnOk result (HasPlaces self.new n) }
    {
        self.notes.reserve(alloc, n)?;
        self.outputs.reserve(n)?;
        self.resources.reserve(n)?;
        self.results.reserve(n)
    }

    /// A task is to be woken, where there is one. The caller must have made room.
    pub fn wake(&mut self, waker: Option<TaskNo>)
        requires room { HasWakePlace self.old }
        ensures { Tells self.old self.new (awake waker) }
    {
        if let Some(task) = waker {
            self.notes.wakes.push_back_reserved(task);
        }
    }

    /// Who waited for a request is turned away: one elsewhere is sent `Closed`. The caller must have made room.
    pub(crate) fn turn_away(&mut self, id: WaiterId, observer: Observer<S, F>)
        requires room { HasPlaces self.old 1 }
        ensures { Tells self.old self.new (told_to id.0 observer) }
    {
        if let Observer::Forwarded(sender) = observer {
            let result = Err(Error::Closed);
            let answer = Answer { id, sender, result };
            self.results.push_back_reserved(answer);
        }
    }

    /// The output of a request goes to who waits elsewhere, or is let go where nobody waits. The caller must have made
    /// room, and must have a sync's output where its outcome alone is to be sent.
    pub(crate) fn deliver(&mut self, id: WaiterId, output: RequestOutput, observer: Observer<S, F>)
        requires room { HasPlaces self.old 1 }
        requires elsewhere { is_local observer ≡ false }
        requires fits { fits output observer ≡ true }
        ensures { Tells self.old self.new (output_told id.0 output observer) }
    {
        match observer {
            Observer::Forwarded(sender) => {
                let result = Ok(output);
                let answer = Answer { id, sender, result };
                self.results.push_back_reserved(answer);
            }
            Observer::DetachedSync(sender) => match output {
                RequestOutput::Sync(result) => self
                    .notes
                    .completions
                    .push_back_reserved(ForwardedResult { sender, result }),
                _ => unreachable!(),
            },
            Observer::Orphaned => self.outputs.push_back_reserved(Untaken { id, output }),
            Observer::Local(_) => unreachable!(),
        }
    }
}
