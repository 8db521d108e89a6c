//! A ring with a kernel in memory, which does what it is told: it ends an operation when it is told its result.
//!
//! An entry is staged, and the kernel takes it in at the next `enter`. An operation then flies until `land` tells its
//! result; a cancel is acknowledged at once, and ends nothing by itself; the wake poll stays until a wake completion
//! ends it. Completions wait in the order in which they came until they are reaped.
//!
//! Each entry has a place from `stage` until its completion is reaped, for which `reserve` made room, so nothing
//! but `reserve` takes memory. Wakes come from others and can't be counted on, so they take no place: those that
//! come between two completions are kept as a number.

ghost use Rattle.std.specs.Prelude.{◌≡◌, ◌+◌, ◌-◌, ◌<◌, true, IsTrue, IsSome, IfOk, OnOk, OnErr};
ghost use Rattle.exec_outcomes.specs.Lawful.{is_lawful};
ghost use Rattle.exec_ring.specs.{Rings.{fresh, taken_places}, Kernels.{is_of, last_place, flight_of, allowed_window, without_flight, landed, with_completion, woken, with_poll, taken_in}};

use crate::completion::{Completion, Posted, Submission, UserData};
use crate::ring::{Entered, Ring};
use crate::store::Store;
use exec_outcomes::outcome::OpResult;
use exec_request::window::{Opcode, Window};
use std::alloc::{AllocError, Global};
use std::collections::VecDeque;
use std::marker::Model;

/// A ring with a kernel in memory.
#[derive(Drop)]
pub struct SimRing {
    /// How many entries the submission queue has room for.
    size: usize,
    /// The submission queue.
    staged: VecDeque<Submission>,
    /// The operations that the kernel has, in the order in which it took them in. One is looked for from the last on, and
    /// where it leaves no more move than were looked at.
    flying: Vec<Submission>,
    /// Whether the kernel has the wake poll.
    armed: bool,
    /// Whether a wake was raised while it had none.
    raised: bool,
    /// The completions that were not reaped, with the wakes before each.
    posted: VecDeque<Posted>,
    /// The wakes after the last of them.
    wakes: u64,
    /// Whether the next enter takes nothing.
    busy: bool,
    /// Whether the next wake completion ends the wake poll.
    last: bool,
    /// For how many entries there is room until they are reaped.
    places: usize,
}

impl Model for SimRing {
    ghost use Rattle.exec_ring.specs.Rings.{RingState};

    ghost Value = { RingState };

    ghost use Rattle.exec_ring.specs.Layout.{state_of, HasRoom};

    ghost view = { state_of };

    ghost invariant = { HasRoom };
}

impl SimRing {
    /// A ring with room for so many entries in its submission queue. An `Err` comes only for want of memory.
    pub fn new(alloc: Global, size: usize) -> Result<SimRing, AllocError>
        ensures { IfOk result (λ r. r ≡ fresh size) }
    {
        Ok(SimRing {
            size,
            staged: VecDeque::with_capacity(alloc, size)?,
            flying: Vec::new(alloc),
            armed: false,
            raised: false,
            posted: VecDeque::new(alloc),
            wakes: 0,
            busy: false,
            last: false,
            places: 0,
        })
    }

    /// The next enter takes nothing.
    pub fn busy(&mut self)
        ensures { self.new ≡ record self.old { busy = true } }
    {
        self.busy = true;
    }

    /// The next wake completion ends the wake poll.
    pub fn last(&mut self)
        ensures { self.new ≡ record self.old { last = true } }
    {
        self.last = true;
    }

    /// Room for one more entry, until its completion is reaped.
    fn reserve_place(&mut self) -> Result<(), AllocError>
        ensures ok { OnOk result (self.new ≡ record self.old { places = self.old.places + 1 }) }
        ensures free { OnOk result (taken_places self.new < self.new.places) }
        ensures err { OnErr result (self.new ≡ self.old) }
    {
        let places = self.places.checked_add(1).ok_or(AllocError)?;
        self.flying.reserve(places - self.flying.len())?;
        self.posted.reserve(places - self.posted.len())?;
        self.places = places;
        Ok(())
    }

    /// One more completion.
    fn post(&mut self, completion: Completion)
        requires { taken_places self.old < self.old.places }
        ensures { self.new ≡ with_completion self.old completion }
    {
        let wakes = self.wakes;
        self.posted.push_back_reserved(Posted { wakes, completion });
        self.wakes = 0;
    }

    /// A wake of the poll that the kernel has.
    fn wake(&mut self)
        requires { self.old.armed ≡ true }
        ensures { self.new ≡ woken self.old }
    {
        if self.last {
            self.armed = false;
            self.last = false;
            self.post(Completion::wake(false));
        } else {
            self.wakes = self.wakes.saturating_add(1);
        }
    }

    /// The kernel has the wake poll from now on.
    fn arm(&mut self)
        requires { taken_places self.old < self.old.places }
        ensures { self.new ≡ with_poll self.old }
    {
        self.armed = true;
        if self.raised {
            self.raised = false;
            self.wake();
        }
    }

    /// The kernel takes this entry in.
    fn take_in(&mut self, entry: Submission)
        requires { taken_places self.old < self.old.places }
        ensures { self.new ≡ taken_in self.old entry }
    {
        match entry.window.kind {
            Opcode::Cancel => self.post(Completion::acknowledgement(entry.user_data)),
            Opcode::Wake => self.arm(),
            _ => self.flying.push_reserved(entry),
        }
    }

    /// The window of the operation with this user data, where the kernel has it and may end it so.
    pub(crate) fn allowed(&self, user_data: UserData, given: OpResult) -> Option<Window>
        ensures { result ≡ allowed_window (flight_of self.now user_data) given }
    {
        let window = self.flight(user_data)?.window;
        if given.is_lawful(window.most()) {
            Some(window)
        } else {
            None
        }
    }

    /// The operation with this user data, where the kernel has it.
    fn flight(&self, user_data: UserData) -> Option<Submission>
        ensures { result ≡ flight_of self.now user_data }
    {
        self.flying.get(last_of(&self.flying, user_data)).copied()
    }

    /// The operation with this user data has ended with this result.
    pub(crate) fn end(&mut self, user_data: UserData, given: OpResult)
        requires flies { IsSome (flight_of self.old user_data) }
        requires given { IsTrue (is_lawful 2147483647 given) }
        ensures { self.new ≡ landed self.old user_data given }
    {
        self.remove_flight(user_data);
        self.post(Completion::new(user_data, given));
    }

    /// The kernel has the operation with this user data no more.
    fn remove_flight(&mut self, user_data: UserData)
        requires { IsSome (flight_of self.old user_data) }
        ensures after { self.new ≡ without_flight self.old user_data }
        ensures place { taken_places self.new + 1 ≡ taken_places self.old }
        ensures within { taken_places self.new < self.new.places }
    {
        let at = last_of(&self.flying, user_data);
        self.flying.remove(at);
    }
}

/// The place of the last entry with this user data, or their number where there is none.
fn last_of(flying: &[Submission], user_data: UserData) -> usize
    ensures { result ≡ last_place (is_of user_data) flying.now }
{
    match flying
        .iter()
        .rposition(|entry| entry.user_data == user_data)
    {
        Some(at) => at,
        None => flying.len(),
    }
}

impl Ring for SimRing {
    ghost use Rattle.std.specs.Prelude.{[]};

    ghost state = { λ r. r };

    ghost landings = { λ _. [] };

    fn stage(&mut self, window: Window, user_data: UserData) {
        self.staged
            .push_back_reserved(Submission { window, user_data });
    }

    fn enter(&mut self) -> Entered {
        if self.busy {
            self.busy = false;
            return Entered::Busy;
        }
        let taken = self.staged.len();
        while let Some(entry) = self.staged.pop_front() {
            self.take_in(entry);
        }
        Entered::Taken(taken)
    }

    fn reap(&mut self) -> Option<Completion> {
        match self.posted.pop_front() {
            Some(first) if first.wakes == 0 => Some(first.completion),
            Some(first) => {
                let wakes = first.wakes - 1;
                self.posted.push_front_reserved(Posted { wakes, ..first });
                Some(Completion::wake(true))
            }
            None if self.wakes == 0 => None,
            None => {
                self.wakes -= 1;
                Some(Completion::wake(true))
            }
        }
    }

    fn peek(&self) -> Option<Completion> {
        match self.posted.front() {
            Some(first) if first.wakes == 0 => Some(first.completion),
            None if self.wakes == 0 => None,
            _ => Some(Completion::wake(true)),
        }
    }

    fn is_quiet(&self) -> bool {
        self.posted.is_empty() && self.wakes == 0
    }

    fn raise(&mut self) {
        if self.armed {
            self.wake();
        } else {
            self.raised = true;
        }
    }

    fn room(&self) -> usize {
        self.size - self.staged.len()
    }

    fn reserve(
        &mut self,
        alloc: Global,
        window: Window,
        store: &mut Store,
    ) -> Result<(), AllocError> {
        self.reserve_place()?;
        if store.reserve(alloc, window).is_err() {
            self.places -= 1;
            return Err(AllocError);
        }
        Ok(())
    }

    fn release(&mut self, window: Window, store: &mut Store) {
        self.places -= 1;
        store.release(window);
    }

    ghost may_land = { λ _. tt };
}
