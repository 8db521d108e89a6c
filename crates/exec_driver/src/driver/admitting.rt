//! Admission: a request comes in, with all the memory that it will need.

ghost use Rattle.std.specs.Prelude.{◌≡◌, ◌+◌, ◌*◌, ◌-◌, ◌^◌, ◌<◌, ◌≤◌, ◌⊎◌, ◌↔◌, true, false, Some, None, IfOk, IfErr, IfSome, IsTrue, OnOk, OnErr};
ghost use Rattle.exec_base.specs.Slab.{next_id, live_count, IsPast, TakesId};
ghost use Rattle.exec_request.specs.Requests.{gate_of};
ghost use Rattle.exec_ring.specs.{Rings.taken_places, Stores.{Same, Reserves, Releases}};
ghost use Rattle.exec_waiters.specs.{States.{suits, gate_in, pending_count, is_full}, Told.{HasPlaces, Tells, nothing_told}};
ghost use Rattle.exec_opens.specs.Opens.{open_named, with_named, placed, joined};
ghost use Rattle.exec_driver.specs.{Driving.{seen, request_at}, Punctual.IsPunctual, Steps.{placed_at, told_at_admission, newcomer, plainly_written, taken_in, is_late}, Footprints.{footprint_of, widened}, Admission.{IsRefused, Admits, with_rooms, HasTwoMore, HasFewSpare}};

use super::Driver;
use exec_base::error::Error;
use exec_base::slab::InsertError;
use exec_opens::opens::{Opens, WaiterKey};
use exec_request::request::Request;
use exec_request::window::Window;
use exec_request::write_at::WriteAtState;
use exec_ring::ring::Ring;
use exec_ring::store::Store;
use exec_waiters::deferred::Deferred;
use exec_waiters::observer::Observer;
use exec_waiters::waiter::Refused;
use exec_waiters::waiter_id::WaiterId;
use std::alloc::{AllocError, Global};

impl<R: Ring + Drop, S: Drop, F: Drop> Driver<R, S, F> {
    /// Takes a request in, with who waits for it. Where its deadline isn't after `now` it ends with `Timeout` at once.
    /// A durable one is gated, and has to join the line of its open by `join`; any other is queued. Of a plain write
    /// its open is told that a change begins.
    ///
    /// `Full` comes only where each index below 2^32 - 1 is that of a request, of an output or of a retired slot, and
    /// none is admitted then; `NoMemory` only where there is no memory. The request and who waits for it come back, and
    /// nothing changes. The ring keeps few places that requests left which are
    /// over, however many there were. The caller must have a sync where its outcome alone is to be sent, and for a
    /// durable request an open of its number: no other ever gives it the permit. Ports `admit`.
    pub fn admit(
        &mut self,
        alloc: Global,
        request: Request,
        observer: Observer<S, F>,
        now: u64,
        opens: &mut Opens,
        deferred: &mut Deferred<S, F>,
        store: &mut Store,
    ) -> Result<WaiterId, InsertError<Refused<S, F>>>
        requires suits { suits request observer ≡ true }
        ensures id { IfOk result (λ id. next_id (seen self.old).requests ≡ Some id.0) }
        ensures not_full { OnOk result (is_full (seen self.old).requests ≡ false) }
        ensures slot { IfOk result (λ id. id.0.index < 4294967295) }
        ensures admits { IfOk result (λ id. Admits (seen self.old) (seen self.new) opens.old opens.new id request observer now) }
        ensures told { IfOk result (λ id. Tells deferred.old deferred.new (told_at_admission id (newcomer request observer) now)) }
        ensures places { OnOk result (HasPlaces deferred.new (2 * live_count (seen self.new).requests)) }
        ensures stored { OnOk result (Reserves (footprint_of request) store.old store.new) }
        ensures never_before { IfOk result (λ id. IsPast (seen self.old).requests id.0 → ⊥) }
        ensures never_again { IfOk result (λ id. TakesId (seen self.old).requests (seen self.new).requests id.0) }
        ensures refused { IfErr result (IsRefused (seen self.old).requests (record { request = request; observer = observer })) }
        ensures kept { OnErr result (seen self.new ≡ with_rooms (seen self.new) (seen self.old)) }
        ensures opens { OnErr result (opens.new ≡ opens.old) }
        ensures spare { OnOk result (HasFewSpare (seen self.new)) }
        ensures spots { OnErr result ((seen self.new).ring.places ≡ (seen self.old).ring.places) }
        ensures untold { OnErr result (Tells deferred.old deferred.new nothing_told) }
        ensures unstored { OnErr result (Same store.old store.new) }
        ensures joins { IfOk result (λ id. IfSome (open_named opens.new (gate_in (request_at (seen self.new) id))) (λ o. 0 < o.coming)) }
        ensures punctual { IsPunctual (seen self.old) → IsPunctual (seen self.new) }
    {
        let window = footprint(&request);
        let gate = request.durability();
        let written = plainly_written(&request);
        if self.make_room(alloc, window, gate, opens, store).is_err() {
            return Err(InsertError::NoMemory(Refused { request, observer }));
        }
        match self.take_in(alloc, request, observer, now, deferred) {
            Ok(id) => {
                opens.begin_write(written);
                self.trim(store);
                Ok(id)
            }
            Err(refused) => {
                self.give_up_places(window, store);
                opens.release(gate);
                Err(refused)
            }
        }
    }

    /// A durable request that was admitted joins the line of its open. Nothing changes for any other request. The
    /// caller must have one that stands nowhere in the line yet, in the place that `admit` made for it: `may_join` says
    /// only that some place is free there, and one that joins twice comes to hold the gate after its end, for good. It
    /// must also have an open of that number, since nothing changes where there is none, and name by `worker` the number
    /// under which the worker will `grant` or `service`. Else nobody grants the permit, and the request waits for good.
    pub fn join(&self, worker: u32, id: WaiterId, opens: &mut Opens)
        requires made { IfSome (open_named opens.old (gate_in (request_at (seen self.now) id))) (λ o. 0 < o.coming) }
        ensures { opens.new ≡ with_named opens.old (gate_in (request_at (seen self.now) id)) (joined (record { worker = worker; id = id })) }
    {
        if let Some(file) = self.waiters.durability(id) {
            opens.join(file, WaiterKey { worker, id });
        }
    }

    /// Whether a request may join the line of its open: a place was made there that nobody took, or none is needed. So
    /// it is for one that was admitted just now.
    pub fn may_join(&self, id: WaiterId, opens: &Opens) -> bool
        ensures { IsTrue result ↔ IfSome (open_named opens.now (gate_in (request_at (seen self.now) id))) (λ o. 0 < o.coming) }
    {
        match self.waiters.durability(id) {
            Some(file) => opens.has_place(file),
            None => true,
        }
    }

    // Makes room in the ring and the store for a request with this window, and for its cancel, and a place in the line
    // of this gate.
    fn make_room(
        &mut self,
        alloc: Global,
        window: Window,
        gate: Option<u32>,
        opens: &mut Opens,
        store: &mut Store,
    ) -> Result<(), AllocError>
        requires { window.offset + window.length < 2 ^ 64 }
        ensures same { seen self.new ≡ with_rooms (seen self.new) (seen self.old) }
        ensures ok { OnOk result ((seen self.new).ring.places ≡ (seen self.old).ring.places + 2) }
        ensures err { OnErr result ((seen self.new).ring.places ≡ (seen self.old).ring.places) }
        ensures two { OnOk result (HasTwoMore (seen self.new)) }
        ensures stored { OnOk result (Reserves window store.old store.new) }
        ensures unstored { OnErr result (Same store.old store.new) }
        ensures placed { OnOk result (opens.new ≡ with_named opens.old gate placed) }
        ensures kept { OnErr result (opens.new ≡ opens.old) }
    {
        let places = self.places.checked_add(2).ok_or(AllocError)?;
        self.ring.reserve(alloc, window, store)?;
        if self.ring.reserve(alloc, Window::cancel(0), store).is_err() {
            self.ring.release(window, store);
            return Err(AllocError);
        }
        self.places = places;
        if opens.reserve(alloc, gate).is_err() {
            self.give_up_places(window, store);
            return Err(AllocError);
        }
        Ok(())
    }

    // Gives up the two places in the ring that were made for a request that isn't admitted, and the room for its bytes.
    fn give_up_places(&mut self, window: Window, store: &mut Store)
        requires made { HasTwoMore (seen self.old) }
        ensures same { seen self.new ≡ with_rooms (seen self.new) (seen self.old) }
        ensures places { (seen self.new).ring.places + 2 ≡ (seen self.old).ring.places }
        ensures store { Releases window store.old store.new }
    {
        self.ring.release(Window::cancel(0), store);
        self.ring.release(window, store);
        self.places -= 2;
    }

    // Gives up the places in the ring that requests left which are over.
    fn trim(&mut self, store: &mut Store)
        ensures same { seen self.new ≡ with_rooms (seen self.new) (seen self.old) }
        ensures spare { HasFewSpare (seen self.new) }
        ensures store { Same store.old store.new }
    {
        let others = self.cancels_under_way.saturating_add(1);
        let wanted = self.waiters.len().saturating_mul(2).saturating_add(others);
        let spare = self.places.saturating_sub(wanted);
        give_up(&mut self.ring, spare, store);
        self.places -= spare;
    }

    // Takes a request in for which the ring has two places more than the others need.
    fn take_in(
        &mut self,
        alloc: Global,
        request: Request,
        observer: Observer<S, F>,
        now: u64,
        deferred: &mut Deferred<S, F>,
    ) -> Result<WaiterId, InsertError<Refused<S, F>>>
        requires suits { suits request observer ≡ true }
        requires places { HasTwoMore (seen self.old) }
        ensures id { IfOk result (λ id. next_id (seen self.old).requests ≡ Some id.0) }
        ensures not_full { OnOk result (is_full (seen self.old).requests ≡ false) }
        ensures taken { IfOk result (λ id. seen self.new ≡ with_rooms (seen self.new) (placed_at (taken_in (seen self.old) request observer) id (newcomer request observer) now)) }
        ensures told { IfOk result (λ id. Tells deferred.old deferred.new (told_at_admission id (newcomer request observer) now)) }
        ensures places { OnOk result (HasPlaces deferred.new (2 * live_count (seen self.new).requests)) }
        ensures never_before { IfOk result (λ id. IsPast (seen self.old).requests id.0 → ⊥) }
        ensures never_again { IfOk result (λ id. TakesId (seen self.old).requests (seen self.new).requests id.0) }
        ensures refused { IfErr result (IsRefused (seen self.old).requests (record { request = request; observer = observer })) }
        ensures kept { OnErr result (seen self.new ≡ with_rooms (seen self.new) (seen self.old)) }
        ensures spots { (seen self.new).ring ≡ (seen self.old).ring }
        ensures untold { OnErr result (Tells deferred.old deferred.new nothing_told) }
        ensures gate { IfOk result (λ id. (gate_in (request_at (seen self.new) id) ≡ gate_of request) ⊎ (gate_in (request_at (seen self.new) id) ≡ None)) }
        ensures punctual { IsPunctual (seen self.old) → IsPunctual (seen self.new) }
    {
        let Ok(count) = self.make_places(alloc, deferred) else {
            return Err(InsertError::NoMemory(Refused { request, observer }));
        };
        if self.wheel.reserve(alloc, count).is_err() {
            return Err(InsertError::NoMemory(Refused { request, observer }));
        }
        let id = self.waiters.insert(alloc, request, observer)?;
        let deadline = self.waiters.deadline(id);
        if is_late(deadline, now) {
            self.refuse(id, Error::Timeout, deferred);
            return Ok(id);
        }
        let is_gated = self.waiters.durability(id).is_some();
        self.lists.place(id, deadline.is_some(), is_gated);
        Ok(id)
    }

    // Makes room in the lists for one more request, and in what is to be told: what may be told of each later, and what
    // is told of this one where it is too late. Answers how many requests there will be.
    fn make_places(
        &mut self,
        alloc: Global,
        deferred: &mut Deferred<S, F>,
    ) -> Result<usize, AllocError>
        ensures same { seen self.new ≡ with_rooms (seen self.new) (seen self.old) }
        ensures ring { (seen self.new).ring ≡ (seen self.old).ring }
        ensures lists { OnOk result (pending_count (seen self.old).requests + 1 ≤ (seen self.new).lists.room) }
        ensures count { IfOk result (λ n. n ≡ pending_count (seen self.old).requests + 1) }
        ensures told { Tells deferred.old deferred.new nothing_told }
        ensures places { OnOk result (HasPlaces deferred.new (2 * (live_count (seen self.old).requests + 1) + 1)) }
    {
        let count = self.waiters.len().checked_add(1).ok_or(AllocError)?;
        let live = self.waiters.live().checked_add(1).ok_or(AllocError)?;
        self.lists.make_room(alloc, live)?;
        let later = live.checked_mul(2).ok_or(AllocError)?;
        deferred.reserve(alloc, later.checked_add(1).ok_or(AllocError)?)?;
        Ok(count)
    }
}

/// Gives up so many places of a ring. The caller must leave those that are taken.
fn give_up<R: Ring>(ring: &mut R, spare: usize, store: &mut Store)
    requires { taken_places (R.state ring.old) + spare ≤ (R.state ring.old).places }
    ensures ring { R.state ring.new ≡ record (R.state ring.old) { places = (R.state ring.old).places - spare } }
    ensures store { Same store.old store.new }
{
    'spare: for _ in 0..spare {
        ring.release(Window::cancel(0), store);
    }
}

/// The window of all bytes that a request moves, for which there must be room.
fn footprint(request: &Request) -> Window
    ensures window { result ≡ footprint_of request.now }
    ensures ends { result.offset + result.length < 2 ^ 64 }
{
    let window = request.window(&None);
    match request {
        Request::Send(send) => widen(window, send.write.remaining_len()),
        Request::WriteAt(write) => widen(window, write.write.remaining_len()),
        _ => window,
    }
}

/// A window of so many bytes, where it can have so many.
fn widen(window: Window, count: usize) -> Window
    ensures { result ≡ widened window count }
{
    match u32::try_from(count) {
        Ok(length) => Window { length, ..window },
        Err(_) => window,
    }
}

/// The open that a plain write changes.
fn plainly_written(request: &Request) -> Option<u32>
    ensures { result ≡ plainly_written request.now }
{
    match request {
        Request::WriteAt(write) if write.state == WriteAtState::Writing => Some(write.file),
        _ => None,
    }
}

/// Whether a deadline isn't after now.
fn is_late(deadline: Option<u64>, now: u64) -> bool
    ensures { result ≡ is_late deadline now }
{
    deadline.is_some_and(|deadline| deadline <= now)
}
