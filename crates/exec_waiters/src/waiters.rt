//! The requests of a worker.
//!
//! A request keeps one id from its admission until its output was taken. Until it is over its entry owns it, with all
//! that the kernel may use, and says who waits for it. Then its output stays under the same id for a task of the
//! worker, or leaves at once for who waits elsewhere, and the slot is free for another request.
//!
//! ```text
//!   insert ──▶ Pending ──stage──▶ Pending, in flight ──on_completion──▶ Pending
//!                 └──finish──▶ Ready ──observe, forward, orphan──▶ gone     (a task of the worker waits)
//!                 └──finish──▶ gone                                         (else)
//! ```
//!
//! The kernel may use what a request owns from `stage` on until the completion of that operation was taken in; `finish`
//! asks that it has none, and it alone lets go of what a request owned. So a slot whose operation is under way is
//! never freed, and the user data of an operation, which has but half of the generation, still names its own request
//! and no other: a completion that names none is told as such and changes nothing.
//!
//! What a caller sees is the slab of entries (`specs/States.antt`); what each call does to it is one function of
//! `specs/Events.antt`. Nothing is woken, sent or let go here: it is put into `Deferred`, in room that the caller has
//! made. Only `new` and `insert` take memory. Moments are in nanoseconds.

ghost use Rattle.std.specs.{Prelude.{◌≡◌, ◌≤◌, ◌==◌, [], Some, IfOk, IfErr, OnOk, OnErr, true, false}, Option.option_copied};
ghost use Rattle.exec_base.specs.Slab.{next_id, inserted, live_count, IsPast, Updates, TakesId};
ghost use Rattle.exec_waiters.specs.{States.{waiter_at, suits, pending_count, flying_count, is_full}, Events.{admitted, IsTurnedDown}};

mod looking;
mod observing;
mod operating;

use crate::observer::Observer;
use crate::waiter::{Entry, Refused, Waiter};
use crate::waiter_id::WaiterId;
use exec_base::slab::{InsertError, Slab};
use exec_request::request::Request;
use std::alloc::{AllocError, Global};
use std::marker::Model;

/// The index that no request gets: other user data has its number.
const LAST_INDEX: usize = 0xffff_ffff;

/// The requests of a worker. `S` is what the outcome of a detached sync is sent by, `F` what an output is sent by.
/// Ports `Waiters`.
#[derive(Drop)]
pub struct Waiters<S, F> {
    entries: Slab<Entry<S, F>>,
    // How many requests are not over.
    pending: usize,
    // How many of them have an operation that the kernel may have.
    in_flight: usize,
    // No slot below this one has a request that someone can let go, so the search for one begins here.
    held_from: usize,
}

impl<S, F> Model for Waiters<S, F> {
    ghost use Rattle.exec_base.specs.Slab.{Slab as Slots};
    ghost use Rattle.exec_waiters.specs.declared.waiter.Entry.{Entry as Entered};
    ghost use Rattle.exec_waiters.specs.Layout.{IsKept};

    ghost Value = { Slots (Entered S F) };

    ghost view = { λ w. w.entries };

    ghost invariant = { λ w. IsKept w.entries w.pending w.in_flight w.held_from };
}

impl<S: Drop, F: Drop> Waiters<S, F> {
    /// No requests, with memory for `capacity` of them. Err only for want of memory.
    pub fn new(alloc: Global, capacity: usize) -> Result<Self, AllocError>
        ensures slots { IfOk result (λ w. w.slots ≡ []) }
        ensures vacant { IfOk result (λ w. w.vacant ≡ []) }
        ensures first { IfOk result (λ w. w.first ≡ 0) }
        ensures room { IfOk result (λ w. capacity ≤ w.room) }
    {
        Ok(Waiters {
            entries: Slab::with_capacity(alloc, capacity)?,
            pending: 0,
            in_flight: 0,
            held_from: 0,
        })
    }

    /// No requests, and no memory for any. The first one in each slot has this generation.
    pub fn starting_at(alloc: Global, generation: u64) -> Self
        ensures slots { result.slots ≡ [] }
        ensures vacant { result.vacant ≡ [] }
        ensures first { result.first ≡ generation }
    {
        Waiters {
            entries: Slab::starting_at(alloc, generation),
            pending: 0,
            in_flight: 0,
            held_from: 0,
        }
    }

    /// How many requests are not over. Outputs that are kept don't count.
    pub fn len(&self) -> usize
        ensures { result ≡ pending_count self.now }
    {
        self.pending
    }

    /// How many ids stand for something: requests that are not over, and outputs that are kept.
    pub fn live(&self) -> usize
        ensures { result ≡ live_count self.now }
    {
        self.entries.len()
    }

    /// Whether all requests are over.
    pub fn is_empty(&self) -> bool
        ensures { result ≡ (pending_count self.now == 0) }
    {
        self.pending == 0
    }

    /// Of how many requests the kernel may have an operation. Cancels don't count.
    pub fn in_flight(&self) -> usize
        ensures { result ≡ flying_count self.now }
    {
        self.in_flight
    }

    /// One more request, and who waits for it. `Full` comes just where the next slot is that of the last index,
    /// `NoMemory` only where there is no memory; then nothing changes. The caller must have a sync where its outcome
    /// alone is to be sent.
    pub fn insert(
        &mut self,
        alloc: Global,
        request: Request,
        observer: Observer<S, F>,
    ) -> Result<WaiterId, InsertError<Refused<S, F>>>
        requires suits { suits request observer ≡ true }
        ensures id { IfOk result (λ id. next_id self.old ≡ Some id.0) }
        ensures inserted { OnOk result (self.new ≡ record (inserted self.old (admitted request observer)) { room = self.new.room }) }
        ensures map { IfOk result (λ id. Updates self.old self.new id.0 (Some (admitted request observer))) }
        ensures never_before { IfOk result (λ id. IsPast self.old id.0 → ⊥) }
        ensures never_again { IfOk result (λ id. TakesId self.old self.new id.0) }
        ensures room { self.old.room ≤ self.new.room }
        ensures refused { IfErr result (IsTurnedDown self.old (record { request = request; observer = observer })) }
        ensures not_full { OnOk result (is_full self.old ≡ false) }
        ensures kept { OnErr result (self.new ≡ self.old) }
    {
        let refused = Refused { request, observer };
        match self.entries.next_id() {
            Some(next) if (next.index as usize) < LAST_INDEX => {}
            _ => return Err(InsertError::Full(refused)),
        }
        let entry = Entry::Pending(Waiter::new(refused));
        match self.entries.insert(alloc, entry) {
            Ok(id) => {
                self.pending += 1;
                self.held_from = self.held_from.min(id.index as usize);
                Ok(WaiterId(id))
            }
            Err(InsertError::NoMemory(Entry::Pending(waiter))) => {
                Err(InsertError::NoMemory(Refused {
                    request: waiter.request,
                    observer: waiter.observer,
                }))
            }
            Err(_) => unreachable!(),
        }
    }

    // The request with this id that is not over.
    fn get(&self, id: WaiterId) -> Option<&Waiter<S, F>>
        ensures { option_copied result ≡ waiter_at self.now id.0 }
    {
        match self.entries.get(id.0)? {
            Entry::Pending(waiter) => Some(waiter),
            Entry::Ready(_) => None,
        }
    }
}
