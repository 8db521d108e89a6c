//! One request with its observer and its flags, and what stands under an id.

ghost use Rattle.std.specs.Prelude.{◌≡◌, Some, IsSome};
ghost use Rattle.exec_waiters.specs.{States.{tick_in, takes_tick, file_of, needs_permit, waiter_at}, Events.admitted, Lends.lends_waiter_at};
ghost use Rattle.std.specs.Borrow.{sem};

use crate::observer::Observer;
use crate::waiter_id::WaiterId;
use exec_base::slab::Slab;
use exec_request::output::RequestOutput;
use exec_request::request::Request;
use exec_request::results::WaiterState;
use exec_time::wheel::Tick;

/// A request that is not over. Ports the private `Waiter`.
#[derive(Drop)]
pub(crate) struct Waiter<S, F> {
    // Whether its cancel was asked for, and else the tick of the wheel at which it would be.
    pub(crate) state: WaiterState,
    // Whether the kernel may have an operation of it.
    pub(crate) in_flight: bool,
    // Who waits for it.
    pub(crate) observer: Observer<S, F>,
    // What it asks for, with all that the kernel may use.
    pub(crate) request: Request,
    // Whether it has the permit of its open, which it keeps to its end.
    pub(crate) permit: bool,
}

/// What stands under an id. Ports the private `Entry`.
#[derive(Drop)]
pub(crate) enum Entry<S, F> {
    /// A request that is not over.
    Pending(Waiter<S, F>),
    /// The output of one that is, kept for a task of the worker.
    Ready(RequestOutput),
}

/// A request that was refused, and who was to wait for it.
#[derive(Drop)]
pub struct Refused<S, F> {
    /// The request.
    pub request: Request,
    /// Who was to wait.
    pub observer: Observer<S, F>,
}

impl<S: Drop, F: Drop> Waiter<S, F> {
    /// A request that was admitted, of which nothing was done.
    pub(crate) fn new(asked: Refused<S, F>) -> Self
        ensures { Entry.Pending result ≡ admitted asked.request asked.observer }
    {
        Waiter {
            state: WaiterState::Active { target_tick: None },
            in_flight: false,
            observer: asked.observer,
            request: asked.request,
            permit: false,
        }
    }

    /// The tick of the wheel that goes with it.
    pub(crate) fn tick(&self) -> Option<Tick>
        ensures { result ≡ tick_in self.now.state }
    {
        match self.state {
            WaiterState::Active { target_tick } => target_tick,
            WaiterState::CancelRequested => None,
        }
    }

    /// Whether no tick was set, and nobody asked for its cancel.
    pub(crate) fn awaits_tick(&self) -> bool
        ensures { result ≡ takes_tick self.now.state }
    {
        matches!(self.state, WaiterState::Active { target_tick: None })
    }

    /// The open whose record its calls are lent.
    pub(crate) fn file(&self) -> Option<u32>
        ensures { result ≡ file_of self.now.request }
    {
        match &self.request {
            Request::ReadAt(read) => Some(read.file),
            Request::WriteAt(write) => Some(write.file),
            Request::Sync(sync) => Some(sync.file),
            _ => None,
        }
    }

    /// Whether it is durable and has no permit.
    pub(crate) fn needs_permit(&self) -> bool
        ensures { result ≡ needs_permit self.now }
    {
        self.request.durability().is_some() && !self.permit
    }
}

/// The request with this id, for writing. The caller must have one that isn't over.
pub(crate) fn waiter_mut<S, F>(entries: &mut Slab<Entry<S, F>>, id: WaiterId) -> &mut Waiter<S, F>
    requires { IsSome (waiter_at entries.old id.0) }
    ensures* lends { sem 𝓛 (lends_waiter_at S.row F.row entries.entry id.0 result) }
    ensures value { waiter_at entries.old id.0 ≡ Some result.now }
{
    match entries.get_mut(id.0) {
        Some(Entry::Pending(waiter)) => waiter,
        _ => unreachable!(),
    }
}
