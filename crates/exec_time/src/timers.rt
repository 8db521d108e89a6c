//! The sleepers of a worker.
//!
//! A sleeper is a deadline with its observer: a task of the worker itself, which is woken, or one elsewhere, to
//! which a result is sent. Who holds a sleeper has its `TimerId`; an id is never given again, so a call with the
//! id of a sleeper that fired or was cancelled is told so, or changes nothing. Sleepers fire by deadline, and
//! those of one deadline by id. What is to be told goes into `Notes`, for which the caller has made room. Only
//! `insert` takes memory. Moments are in nanoseconds.
//!
//! The sleepers are in a slab, by id. An index beside it has their deadlines in the order in which they fire, so the
//! first one, for which a worker asks again and again, is found without a look at the others. Who closes one after
//! another begins each time at the slot of the last one, and so passes each slot once. A contract sees the slab alone;
//! that the index has each sleeper and nothing else is the invariant, `IsIndexed`.

ghost use Rattle.std.specs.Prelude.{◌≡◌, ℕ, ◌+◌, ◌<◌, ◌≤◌, ◌↔◌, [], Some, None, Ok, Err, IsSome, IfSome, IfNone, IfOk, IfErr, ◌⊎◌, OnOk, OnErr, OnSome, false};
ghost use Rattle.exec_base.specs.{Slab.{value_at, next_id, inserted, removed, written, live_count, IsFull, IsPast, Updates, TakesId}, declared.{slab.Id.Id as Name, error.Error.Error as error}};
ghost use Rattle.exec_time.specs.{Notes.{HasRoom, Adds}, Sleepers.{wakes_of, completions_of}};

use crate::notes::{ForwardedResult, Notes};
use exec_base::error::Error;
use exec_base::slab::{Id, Slab};
use exec_base::task_no::TaskNo;
use std::alloc::Global;
use std::collections::BTreeSet;
use std::marker::Model;
use std::mem;

/// The name of a sleeper. Names are ordered by index and then by generation.
#[derive(Clone, Copy, Debug, PartialEq, Eq, PartialOrd, Ord)]
pub struct TimerId(pub Id);

/// What a task finds that looks at something of its worker.
#[derive(Drop)]
pub enum Observation<T> {
    /// It is over, with this value.
    Ready(T),
    /// It is not over, and will wake this task.
    Pending,
    /// It is not over, and would wake another task.
    Refresh,
}

/// Who is told of a sleeper's end.
#[derive(Drop)]
pub enum Observer<S> {
    /// A task of the sleeper's worker, which is woken.
    Local(TaskNo),
    /// One elsewhere, to whom a result is sent.
    Forwarded(S),
}

/// A sleeper.
#[derive(Drop)]
pub struct Sleeper<S> {
    /// The moment from which on it is due.
    pub deadline: u64,
    /// Who is told.
    pub observer: Observer<S>,
}

/// The sleepers of a worker. `S` is what a result is sent by. Ports `Timers`.
#[derive(Drop)]
pub struct Timers<S> {
    sleepers: Slab<Sleeper<S>>,
    // The sleepers in the order in which they fire: each one's deadline with its id.
    order: BTreeSet<(u64, TimerId)>,
    // No slot below this index has a sleeper.
    empty_below: usize,
}

impl<S> Model for Timers<S> {
    ghost use Rattle.exec_base.specs.Slab.{Slab as Slots};
    ghost use Rattle.exec_time.specs.declared.timers.Sleeper.{Sleeper as Sleeping};
    ghost use Rattle.exec_time.specs.Index.{IsIndexed};

    ghost Value = { Slots (Sleeping S) };

    ghost view = { λ t. t.sleepers };

    ghost invariant = { λ t. IsIndexed t.sleepers t.order t.empty_below };
}

impl<S: Drop> Timers<S> {
    ghost use Rattle.exec_time.specs.Sleepers.{is_forwarded, observation, displaced, IsEmpty, IsFirst, Ends, IsDue, FiresTo, left_at, IsLowest, ClosesTo};
    ghost use Rattle.exec_time.specs.declared.timers.Observer.TheVariants.{Local, Forwarded};
    ghost use Rattle.exec_time.specs.declared.timers.Sleeper.{Sleeper as Sleeping};

    /// No sleepers. It takes no memory.
    pub fn new(alloc: Global) -> Self
        ensures slots { result.slots ≡ [] }
        ensures vacant { result.vacant ≡ [] }
        ensures first { result.first ≡ 0 }
    {
        Timers {
            sleepers: Slab::starting_at(alloc, 0),
            order: BTreeSet::new(alloc),
            empty_below: 0,
        }
    }

    /// One more sleeper, which wakes this task. `Full` just where no more sleepers can be named, as the slab's insert
    /// has it, `NoMemory` where there is no memory; then nothing changes.
    pub fn insert(&mut self, alloc: Global, deadline: u64, waker: TaskNo) -> Result<TimerId, Error>
        ensures id { IfOk result (λ id. next_id self.old ≡ Some id.0) }
        ensures inserted { OnOk result (self.new ≡ record (inserted self.old (record { deadline = deadline; observer = Local waker })) { room = self.new.room }) }
        ensures map { IfOk result (λ id. Updates self.old self.new id.0 (Some (record { deadline = deadline; observer = Local waker }))) }
        ensures never_before { IfOk result (λ id. IsPast self.old id.0 → ⊥) }
        ensures never_again { IfOk result (λ id. TakesId self.old self.new id.0) }
        ensures full { (result ≡ Err error.Full) ↔ IsFull self.old }
        ensures cause { IfErr result (λ e. (e ≡ error.Full) ⊎ (e ≡ error.NoMemory)) }
        ensures kept { OnErr result (self.new ≡ self.old) }
    {
        let Some(next) = self.sleepers.next_id() else {
            return Err(Error::Full);
        };
        let place = (deadline, TimerId(next));
        let Ok(_new) = self.order.insert(place) else {
            return Err(Error::NoMemory);
        };
        let sleeper = Sleeper {
            deadline,
            observer: Observer::Local(waker),
        };
        let Ok(id) = self.sleepers.insert(alloc, sleeper) else {
            self.order.remove(&place);
            return Err(Error::NoMemory);
        };
        self.empty_below = self.empty_below.min(id.index as usize);
        Ok(TimerId(id))
    }

    /// How many sleepers there are.
    pub fn len(&self) -> usize
        ensures { result ≡ live_count self.now }
    {
        self.sleepers.len()
    }

    /// Whether a sleeper is there and observed elsewhere.
    pub fn is_forwarded(&self, id: TimerId) -> bool
        ensures { result ≡ is_forwarded (value_at self.now id.0) }
    {
        match self.sleepers.get(id.0) {
            None => false,
            Some(sleeper) => matches!(&sleeper.observer, Observer::Forwarded(_)),
        }
    }

    /// What a task of the worker finds. The caller must know that the sleeper isn't observed elsewhere.
    pub fn observe(&self, id: TimerId, waker: TaskNo) -> Observation<()>
        requires observed { is_forwarded (value_at self.now id.0) ≡ false }
        ensures { result ≡ observation waker (value_at self.now id.0) }
    {
        match self.sleepers.get(id.0) {
            None => Observation::Ready(()),
            Some(sleeper) => match &sleeper.observer {
                Observer::Local(current) if current.0 == waker.0 => Observation::Pending,
                _ => Observation::Refresh,
            },
        }
    }

    /// Has the sleeper wake this task from now on, and answers the one that it would have woken. Err with the
    /// same waker where the sleeper is gone. The caller must know that the sleeper isn't observed elsewhere.
    pub fn refresh(&mut self, id: TimerId, waker: TaskNo) -> Result<TaskNo, TaskNo>
        requires observed { is_forwarded (value_at self.old id.0) ≡ false }
        ensures answer { result ≡ displaced waker (value_at self.old id.0) }
        ensures refreshed { (sleeper : Sleeping S) → value_at self.old id.0 ≡ Some sleeper → self.new ≡ written self.old id.0 (record sleeper { observer = Local waker }) }
        ensures gone { value_at self.old id.0 ≡ None → self.new ≡ self.old }
    {
        let Some(sleeper) = self.sleepers.get_mut(id.0) else {
            return Err(waker);
        };
        match mem::replace(&mut sleeper.observer, Observer::Local(waker)) {
            Observer::Local(current) => Ok(current),
            Observer::Forwarded(_) => unreachable!(),
        }
    }

    /// Has a result sent by this from now on, in place of a wake. Where the sleeper is gone it has fired, and the
    /// result is sent at once. The caller must know that the sleeper isn't observed elsewhere yet, and must have made
    /// room for one wake and one completion.
    pub fn forward(&mut self, id: TimerId, sender: S, notes: &mut Notes<S>)
        requires observed { is_forwarded (value_at self.old id.0) ≡ false }
        requires room { HasRoom notes.old 1 }
        ensures forwarded { (sleeper : Sleeping S) → value_at self.old id.0 ≡ Some sleeper → (self.new ≡ written self.old id.0 (record sleeper { observer = Forwarded sender })) × Adds notes.old notes.new [] [] }
        ensures gone { value_at self.old id.0 ≡ None → (self.new ≡ self.old) × Adds notes.old notes.new [] (completions_of (Ok tt) (Forwarded sender)) }
    {
        let Some(sleeper) = self.sleepers.get_mut(id.0) else {
            notes.completions.push_back_reserved(ForwardedResult {
                sender,
                result: Ok(()),
            });
            return;
        };
        match mem::replace(&mut sleeper.observer, Observer::Forwarded(sender)) {
            Observer::Local(_) => {}
            Observer::Forwarded(_) => unreachable!(),
        }
    }

    /// Removes a sleeper without a wake. One that is observed elsewhere has `Closed` sent. Nothing changes where
    /// it is gone. The caller must have made room for one wake and one completion.
    pub fn cancel(&mut self, id: TimerId, notes: &mut Notes<S>)
        requires room { HasRoom notes.old 1 }
        ensures cancelled { (sleeper : Sleeping S) → value_at self.old id.0 ≡ Some sleeper → (self.new ≡ removed self.old id.0) × Adds notes.old notes.new [] (completions_of (Err error.Closed) sleeper.observer) }
        ensures gone { value_at self.old id.0 ≡ None → (self.new ≡ self.old) × Adds notes.old notes.new [] [] }
    {
        let Some(sleeper) = self.take(id) else {
            return;
        };
        let Sleeper {
            deadline: _,
            observer,
        } = sleeper;
        match observer {
            Observer::Local(_unwoken) => {}
            Observer::Forwarded(sender) => notes.completions.push_back_reserved(ForwardedResult {
                sender,
                result: Err(Error::Closed),
            }),
        }
    }

    /// The earliest deadline. None where nobody sleeps.
    pub fn next_deadline(&mut self) -> Option<u64>
        ensures same { self.new ≡ self.old }
        ensures earliest { IfSome result (λ deadline. (id : Name) × IsFirst self.old deadline id) }
        ensures none { IfNone result (IsEmpty self.old) }
    {
        let (deadline, _) = self.first()?;
        Some(deadline)
    }

    /// Removes the first sleeper and tells its observer, where it is due at the moment `now`. None where no
    /// sleeper is due. Where anybody sleeps, the caller must have made room for one wake and one completion.
    pub fn fire(&mut self, now: u64, notes: &mut Notes<S>) -> Option<TimerId>
        requires room { 0 < live_count self.old → HasRoom notes.old 1 }
        ensures first { IfSome result (λ id. (deadline : ℕ) × (deadline ≤ now) × IsFirst self.old deadline id.0) }
        ensures fired { IfSome result (λ id. Ends self.old self.new notes.new notes.old id.0 (Ok tt)) }
        ensures none_due { IfNone result ((id : Name) → IsDue self.old now id → ⊥) }
        ensures same { IfNone result ((self.new ≡ self.old) × (notes.new ≡ notes.old)) }
    {
        let (deadline, id) = self.first()?;
        if deadline > now {
            return None;
        }
        self.end(id, Ok(()), notes);
        Some(id)
    }

    /// Removes each sleeper that is due at the moment `now` and tells its observer, the first one first. The caller
    /// must have made room for as many wakes and completions as there are sleepers.
    pub fn expire(&mut self, now: u64, notes: &mut Notes<S>)
        requires room { HasRoom notes.old (live_count self.old) }
        ensures fired { FiresTo now self.old notes.old self.new notes.new }
        ensures exact { (id : Name) → value_at self.new id ≡ left_at now (value_at self.old id) }
    {
        'due: while let Some(_fired) = self.fire(now, notes) {}
    }

    /// Removes the sleeper in the first slot that has one, and tells its observer that the worker closes: a wake,
    /// or `Closed`. None where nobody sleeps. Where anybody does, the caller must have made room for one wake and one
    /// completion.
    pub fn close_next(&mut self, notes: &mut Notes<S>) -> Option<TimerId>
        requires room { 0 < live_count self.old → HasRoom notes.old 1 }
        ensures lowest { IfSome result (λ id. IsLowest self.old id.0) }
        ensures closed { IfSome result (λ id. Ends self.old self.new notes.new notes.old id.0 (Err error.Closed)) }
        ensures none { IfNone result (IsEmpty self.old) }
        ensures same { IfNone result ((self.new ≡ self.old) × (notes.new ≡ notes.old)) }
    {
        let id = self.lowest()?;
        self.end(id, Err(Error::Closed), notes);
        Some(id)
    }

    /// Removes all sleepers in order of their slots, and tells each observer that the worker closes. The caller must
    /// have made room for as many wakes and completions as there are sleepers.
    pub fn clear(&mut self, notes: &mut Notes<S>)
        requires room { HasRoom notes.old (live_count self.old) }
        ensures closed { ClosesTo self.old notes.old self.new notes.new }
        ensures empty { IsEmpty self.new }
    {
        'open: while let Some(_closed) = self.close_next(notes) {}
    }

    /// The sleeper in the first slot that has one.
    fn lowest(&mut self) -> Option<TimerId>
        ensures same { self.new ≡ self.old }
        ensures lowest { IfSome result (λ id. IsLowest self.old id.0) }
        ensures there { IfSome result (λ id. IsSome (value_at self.old id.0)) }
        ensures none { IfNone result (IsEmpty self.old) }
    {
        while self.empty_below < self.sleepers.slots() {
            if let Some(id) = self.sleepers.id_at(self.empty_below) {
                return Some(TimerId(id));
            }
            self.empty_below += 1;
        }
        None
    }

    /// Takes a sleeper out. None where it is gone, and then nothing changes.
    fn take(&mut self, id: TimerId) -> Option<Sleeper<S>>
        ensures value { result ≡ value_at self.old id.0 }
        ensures removed { OnSome result (self.new ≡ removed self.old id.0) }
        ensures map { OnSome result (Updates self.old self.new id.0 None) }
        ensures kept { IfNone result (self.new ≡ self.old) }
    {
        let sleeper = self.sleepers.remove(id.0)?;
        self.order.remove(&(sleeper.deadline, id));
        Some(sleeper)
    }

    /// Removes a sleeper that is there, and tells its observer the result.
    fn end(&mut self, id: TimerId, result_told: Result<(), Error>, notes: &mut Notes<S>)
        requires there { IsSome (value_at self.old id.0) }
        requires room { HasRoom notes.old 1 }
        ensures { Ends self.old self.new notes.new notes.old id.0 result_told }
    {
        let Some(sleeper) = self.take(id) else {
            unreachable!()
        };
        let Sleeper {
            deadline: _,
            observer,
        } = sleeper;
        tell(observer, result_told, notes);
    }

    /// The first sleeper, with its deadline.
    fn first(&self) -> Option<(u64, TimerId)>
        ensures first { IfSome result (λ at. IsFirst self.now at.0 at.1.0) }
        ensures none { IfNone result (IsEmpty self.now) }
    {
        self.order.first().copied()
    }
}

/// Tells an observer the result: a wake, or a completion.
fn tell<S: Drop>(observer: Observer<S>, result_told: Result<(), Error>, notes: &mut Notes<S>)
    requires room { HasRoom notes.old 1 }
    ensures { Adds notes.old notes.new (wakes_of observer) (completions_of result_told observer) }
{
    match observer {
        Observer::Local(waker) => notes.wakes.push_back_reserved(waker),
        Observer::Forwarded(sender) => notes.completions.push_back_reserved(ForwardedResult {
            sender,
            result: result_told,
        }),
    }
}
