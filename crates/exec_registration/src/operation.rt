//! Requests that a worker's tasks register, and syncs whose outcome alone is sent.
//!
//! A registered request is admitted with all the memory that it will need, and with the places for its forward and its
//! cancel in the worker's mail. A closing worker takes none: the request is let go, and the registration says `Closed`
//! at its first poll. A sync that is begun needs no task: where the open keeps a failure, or nothing is to be made
//! durable, it is over at once, and else its outcome is sent once it ended.

ghost use Rattle.std.specs.Prelude.{◌≡◌, ◌+◌, ◌<◌, length, true, false, Some, None, Ok, Err, IfOk, IfErr, IfSome, OnOk, OnErr};
ghost use Rattle.exec_base.specs.declared.error.Error.TheVariants as error;
ghost use Rattle.exec_driver.specs.{Admission.IsRefused, Footprints.footprint_of};
ghost use Rattle.exec_opens.specs.Opens.{account_in};
ghost use Rattle.exec_ring.specs.Stores.{Reserves};
ghost use Rattle.exec_registration.specs.{Homes.{StaysPunctual, home_of}, Admissions.{Registers, Begins, TakesIn, IsKept, Untouched, over_at_once}, declared.{operation.Started.Started as started, registration.RegistrationState.RegistrationState as state}};
ghost use Rattle.exec_request.specs.{Requests.gate_of, declared.request.Request.Request as request_of};
ghost use Rattle.exec_waiters.specs.{States.suits, declared.observer.Observer.Observer as observer_of};

use crate::mail::Places;
use crate::registration::Registration;
use exec_base::error::Error;
use exec_base::slab::InsertError;
use exec_driver::home::Home;
use exec_opens::opens::Opens;
use exec_request::open_record::OpenRecord;
use exec_request::request::Request;
use exec_request::sync::SyncRequest;
use exec_ring::ring::Ring;
use exec_ring::store::Store;
use exec_waiters::observer::Observer;
use exec_waiters::waiter::Refused;
use exec_waiters::waiter_id::WaiterId;
use std::alloc::Global;

/// A registration of a request. Ports `Operation`.
pub type Operation = Registration<WaiterId>;

/// How a sync began.
#[derive(Clone, Copy, Debug, PartialEq, Eq)]
pub enum Started {
    /// It is over, and nothing will be sent: it failed, or nothing was to be made durable, or its worker closes.
    Over(Result<(), Error>),
    /// It goes on under this name, and its outcome will be sent.
    UnderWay(WaiterId),
}

/// How many messages a registration may cause: its forward and its cancel.
const MESSAGES: usize = 2;

impl Registration<WaiterId> {
    /// Registers a request at this worker at the moment `now`. A closing worker takes none, lets the request go, and
    /// answers a registration that is `Closed`. A durable request has to join the line of its open by `Driver::join`,
    /// once; the caller must have an open of that number, since no other ever gives a permit.
    ///
    /// The two places in the mail stay when the request is over, and no call of a registration gives them back. Its
    /// worker does, by `Places::release`, once the registration was let go and what it sent was applied. One that is
    /// `Closed` has none.
    ///
    /// `Full` comes only where each index that a request may have is used up, and none is taken then; `NoMemory` only
    /// where there is no memory. The request comes back, and nothing changes, nor how many places the ring has. Ports
    /// `Operation::register`.
    pub fn register<R: Ring + Drop, S: Drop, F: Drop, M: Places>(
        alloc: Global,
        request: Request,
        home: &mut Home<R, S, F>,
        now: u64,
        opens: &mut Opens,
        store: &mut Store,
        mail: &mut M,
    ) -> Result<Operation, InsertError<Refused<S, F>>>
        requires open { IfSome (gate_of request) (λ file. file < length opens.old) }
        ensures closed { home.old.closing ≡ true → (result ≡ Ok state.Closed) × Untouched (home_of home.old) (home_of home.new) opens.old opens.new store.old store.new × (M.places mail.new ≡ M.places mail.old) }
        ensures registers { home.old.closing ≡ false → IfOk result (Registers (home_of home.old) (home_of home.new) opens.old opens.new request now) }
        ensures stored { home.old.closing ≡ false → OnOk result (Reserves (footprint_of request) store.old store.new) }
        ensures placed { home.old.closing ≡ false → OnOk result (M.places mail.new ≡ M.places mail.old + 2) }
        ensures refused { IfErr result (IsRefused (home_of home.old).driver.requests (record { request = request; observer = observer_of.Local None })) }
        ensures kept { OnErr result (IsKept (home_of home.old) (home_of home.new) opens.old opens.new store.old store.new) }
        ensures unplaced { OnErr result (M.places mail.new ≡ M.places mail.old) }
        ensures punctual { StaysPunctual (home_of home.old) (home_of home.new) }
    {
        if home.closing {
            return Ok(Registration::closed());
        }
        let observer = Observer::Local(None);
        if mail.reserve(alloc, MESSAGES).is_err() {
            return Err(InsertError::NoMemory(Refused { request, observer }));
        }
        match take_in(alloc, request, observer, home, now, opens, store) {
            Ok(id) => Ok(Registration::new(home.worker, id)),
            Err(refused) => {
                mail.release(MESSAGES);
                Err(refused)
            }
        }
    }
}

/// Begins a sync at this worker, of which `sender` sends the outcome. A sync has no deadline, so no moment counts. A
/// failure that its open keeps is the outcome at once, and success where every change is durable; else a closing worker
/// answers `Closed`, and an open one registers the sync, which has to join the line of its open by `Driver::join`,
/// once; the caller must have an open of that number. Nobody can let it go, and an error of the kernel is sent as it
/// came, without the open's number.
///
/// `Full` comes only where each index that a request may have is used up, and none is taken then; `NoMemory` only where
/// there is no memory. The request and its sender come back, and nothing changes, nor how many places the ring has.
/// Ports `start_sync`.
pub fn start_sync<R: Ring + Drop, S: Drop, F: Drop>(
    alloc: Global,
    request: SyncRequest,
    sender: S,
    home: &mut Home<R, S, F>,
    opens: &mut Opens,
    store: &mut Store,
) -> Result<Started, InsertError<Refused<S, F>>>
    requires open { request.file < length opens.old }
    ensures over { IfSome (over_at_once (account_in opens.old (Some request.file))) (λ ended. (result ≡ Ok (started.Over ended)) × Untouched (home_of home.old) (home_of home.new) opens.old opens.new store.old store.new) }
    ensures closed { over_at_once (account_in opens.old (Some request.file)) ≡ None → home.old.closing ≡ true → (result ≡ Ok (started.Over (Err error.Closed))) × Untouched (home_of home.old) (home_of home.new) opens.old opens.new store.old store.new }
    ensures begins { over_at_once (account_in opens.old (Some request.file)) ≡ None → home.old.closing ≡ false → IfOk result (Begins (home_of home.old) (home_of home.new) opens.old opens.new (request_of.Sync request) (observer_of.DetachedSync sender) 0) }
    ensures stored { over_at_once (account_in opens.old (Some request.file)) ≡ None → home.old.closing ≡ false → OnOk result (Reserves (footprint_of (request_of.Sync request)) store.old store.new) }
    ensures refused { IfErr result (IsRefused (home_of home.old).driver.requests (record { request = request_of.Sync request; observer = observer_of.DetachedSync sender })) }
    ensures kept { OnErr result (IsKept (home_of home.old) (home_of home.new) opens.old opens.new store.old store.new) }
    ensures punctual { StaysPunctual (home_of home.old) (home_of home.new) }
{
    match barrier(opens.account(Some(request.file))) {
        Some(ended) => return Ok(Started::Over(ended)),
        None if home.closing => return Ok(Started::Over(Err(Error::Closed))),
        None => {}
    }
    let request = Request::Sync(request);
    let observer = Observer::DetachedSync(sender);
    let id = take_in(alloc, request, observer, home, 0, opens, store)?;
    Ok(Started::UnderWay(id))
}

/// What ends a sync before it is a request: a failure that its open keeps, or that every change is durable. Ports the
/// barrier of a blob.
fn barrier(account: Option<OpenRecord>) -> Option<Result<(), Error>>
    ensures { result ≡ over_at_once account }
{
    let account = account?;
    match account.failure() {
        Some(error) => Some(Err(error)),
        None if account.is_dirty() => None,
        None => Some(Ok(())),
    }
}

/// Admits a request at this worker.
fn take_in<R: Ring + Drop, S: Drop, F: Drop>(
    alloc: Global,
    request: Request,
    observer: Observer<S, F>,
    home: &mut Home<R, S, F>,
    now: u64,
    opens: &mut Opens,
    store: &mut Store,
) -> Result<WaiterId, InsertError<Refused<S, F>>>
    requires suits { suits request observer ≡ true }
    ensures takes { IfOk result (TakesIn (home_of home.old) (home_of home.new) opens.old opens.new request observer now) }
    ensures stored { OnOk result (Reserves (footprint_of request) store.old store.new) }
    ensures refused { IfErr result (IsRefused (home_of home.old).driver.requests (record { request = request; observer = observer })) }
    ensures kept { OnErr result (IsKept (home_of home.old) (home_of home.new) opens.old opens.new store.old store.new) }
    ensures punctual { StaysPunctual (home_of home.old) (home_of home.new) }
{
    let deferred = &mut home.deferred;
    home.driver
        .admit(alloc, request, observer, now, opens, deferred, store)
}
