//! The numbers of what a worker has.
//!
//! A driver and its sleepers know what they have by slot, and give slots again; the executor numbers its requests and
//! sleepers in the order of making, and gives no number twice. Here stands the number of what has each slot now. What
//! has ended keeps its number until it is released, in the order of ending, since its slot may be given again before.

ghost use Rattle.std.specs.{Prelude.{◌≡◌, ◌≢◌, ℕ, ◌+◌, ◌-◌, ◌<◌, ◌≤◌, [], true, false, ◌∷◌, ◌++◌, length, drop, slice_get, option_to_list, Some, IfNone, IfOk, OnOk, OnSome}, Vec.vec_capacity, VecDeque.deque_capacity};
ghost use Rattle.exec_parts.specs.{Words.joined_if, Records.{SameNames, HasNoNames, HasRequestRoom, HasTimerRoom, number_in}};

use exec_time::timers::TimerId;
use exec_waiters::waiter_id::WaiterId;
use std::alloc::{AllocError, Global};
use std::collections::VecDeque;

/// The numbers of the requests and the sleepers of a worker.
#[derive(Drop)]
pub struct Names {
    // The number of the request that has each slot of the driver, or had it last.
    requests: Vec<usize>,
    // The same of the sleepers.
    timers: Vec<usize>,
    // The requests that are over and not released, in the order in which they ended.
    ended: VecDeque<usize>,
    // Those whose operation is in the submission queue.
    staged: Vec<usize>,
    // Those whose cancel is in the submission queue.
    untold: Vec<usize>,
    // How many are not released.
    unreleased: usize,
}

impl Names {
    /// No requests and no sleepers, of a worker whose submission queue has so many entries. Err only for want of memory.
    pub fn new(alloc: Global, entries: usize) -> Result<Self, AllocError>
        ensures names { IfOk result (HasNoNames entries) }
    {
        Ok(Names {
            requests: Vec::new(alloc),
            timers: Vec::new(alloc),
            ended: VecDeque::new(alloc),
            staged: Vec::with_capacity(alloc, entries)?,
            untold: Vec::with_capacity(alloc, entries)?,
            unreleased: 0,
        })
    }

    /// Makes room for one more request. Where there is no memory all stays as it is.
    pub fn reserve_request(&mut self, _alloc: Global) -> Result<(), AllocError>
        ensures kept { SameNames self.old self.new }
        ensures room { OnOk result (HasRequestRoom self.new) }
    {
        let unreleased = self.unreleased.checked_add(1).ok_or(AllocError)?;
        self.requests.reserve(1)?;
        self.ended
            .reserve(unreleased.saturating_sub(self.ended.len()))
    }

    /// Makes room for one more sleeper. Where there is no memory all stays as it is.
    pub fn reserve_timer(&mut self, _alloc: Global) -> Result<(), AllocError>
        ensures kept { SameNames self.old self.new }
        ensures room { OnOk result (HasTimerRoom self.new) }
    {
        self.timers.reserve(1)
    }

    /// The request of this number has this slot now. The caller must have made room for it, and know that the slot had
    /// a number before, or is the next.
    pub fn name_request(&mut self, id: WaiterId, number: usize)
        requires room { HasRequestRoom self.old }
        requires slot { id.0.index ≤ length self.old.requests.items }
        ensures number { slice_get self.new.requests.items id.0.index ≡ Some number }
        ensures others { (k : ℕ) → k ≢ id.0.index → slice_get self.new.requests.items k ≡ slice_get self.old.requests.items k }
        ensures longer { length self.old.requests.items ≤ length self.new.requests.items }
        ensures same { self.new ≡ record self.old { requests = self.new.requests; unreleased = self.old.unreleased + 1 } }
    {
        match self.requests.get_mut(id.0.index as usize) {
            Some(named) => *named = number,
            None => self.requests.push_reserved(number),
        }
        self.unreleased += 1;
    }

    /// The sleeper of this number has this slot now. The caller must have made room for it, and know that the slot had
    /// a number before, or is the next.
    pub fn name_timer(&mut self, id: TimerId, number: usize)
        requires room { HasTimerRoom self.old }
        requires slot { id.0.index ≤ length self.old.timers.items }
        ensures number { slice_get self.new.timers.items id.0.index ≡ Some number }
        ensures others { (k : ℕ) → k ≢ id.0.index → slice_get self.new.timers.items k ≡ slice_get self.old.timers.items k }
        ensures longer { length self.old.timers.items ≤ length self.new.timers.items }
        ensures same { self.new ≡ record self.old { timers = self.new.timers } }
    {
        match self.timers.get_mut(id.0.index as usize) {
            Some(named) => *named = number,
            None => self.timers.push_reserved(number),
        }
    }

    /// The number of a request that isn't over, or was so until this step.
    pub fn request(&self, id: WaiterId) -> usize
        ensures { result ≡ number_in self.now.requests.items id.0 }
    {
        self.requests.get(id.0.index as usize).copied().unwrap_or(0)
    }

    /// The number of a sleeper that is there, or was so until this step.
    pub fn timer(&self, id: TimerId) -> usize
        ensures { result ≡ number_in self.now.timers.items id.0 }
    {
        self.timers.get(id.0.index as usize).copied().unwrap_or(0)
    }

    /// How many slots the requests have had at most: no more of them can have something to tell at once.
    pub fn slots(&self) -> usize
        ensures { result ≡ length self.now.requests.items }
    {
        self.requests.len()
    }

    /// The request is over. The caller must have made room for it, and tell each once.
    pub fn end(&mut self, number: usize)
        requires room { length self.old.ended.items < deque_capacity self.old.ended }
        ensures ended { self.new.ended.items ≡ self.old.ended.items ++ number ∷ [] }
        ensures capacity { deque_capacity self.new.ended ≡ deque_capacity self.old.ended }
        ensures same { self.new ≡ record self.old { ended = self.new.ended } }
    {
        self.ended.push_back_reserved(number);
    }

    /// The request is over, where it is. The caller must have made room for it, and tell each once.
    pub fn end_if(&mut self, over: bool, number: usize)
        requires room { over ≡ true → length self.old.ended.items < deque_capacity self.old.ended }
        ensures ended { self.new.ended.items ≡ joined_if over self.old.ended.items number }
        ensures capacity { deque_capacity self.new.ended ≡ deque_capacity self.old.ended }
        ensures still { over ≡ false → self.new.ended ≡ self.old.ended }
        ensures same { self.new ≡ record self.old { ended = self.new.ended } }
    {
        if over {
            self.end(number);
        }
    }

    /// The request that ended first of those that aren't released, which is so now. The caller must know that all of
    /// them count as unreleased.
    pub fn release(&mut self) -> Option<usize>
        requires { length self.old.ended.items ≤ self.old.unreleased }
        ensures number { result ≡ slice_get self.old.ended.items 0 }
        ensures ended { self.new.ended.items ≡ drop 1 self.old.ended.items }
        ensures capacity { deque_capacity self.new.ended ≡ deque_capacity self.old.ended }
        ensures same { self.new ≡ record self.old { ended = self.new.ended; unreleased = self.new.unreleased } }
        ensures unreleased { OnSome result (self.new.unreleased + 1 ≡ self.old.unreleased) }
        ensures none { IfNone result (self.new.unreleased ≡ self.old.unreleased) }
    {
        let number = self.ended.pop_front()?;
        self.unreleased -= 1;
        Some(number)
    }

    /// The operation of the request is in the submission queue. The caller must have made room for it.
    pub fn stage(&mut self, number: usize)
        requires room { length self.old.staged.items < vec_capacity self.old.staged }
        ensures staged { self.new.staged.items ≡ self.old.staged.items ++ number ∷ [] }
        ensures capacity { vec_capacity self.new.staged ≡ vec_capacity self.old.staged }
        ensures same { self.new ≡ record self.old { staged = self.new.staged } }
    {
        self.staged.push_reserved(number);
    }

    /// The cancel of the request is in the submission queue. The caller must have made room for it.
    pub fn stage_cancel(&mut self, number: usize)
        requires room { length self.old.untold.items < vec_capacity self.old.untold }
        ensures untold { self.new.untold.items ≡ self.old.untold.items ++ number ∷ [] }
        ensures capacity { vec_capacity self.new.untold ≡ vec_capacity self.old.untold }
        ensures same { self.new ≡ record self.old { untold = self.new.untold } }
    {
        self.untold.push_reserved(number);
    }

    /// The kernel was told of all cancels that were in the submission queue.
    pub fn tell_cancels(&mut self)
        ensures untold { self.new.untold.items ≡ [] }
        ensures capacity { vec_capacity self.new.untold ≡ vec_capacity self.old.untold }
        ensures same { self.new ≡ record self.old { untold = self.new.untold } }
    {
        self.untold.clear();
    }

    /// One of the requests whose operation is in the submission queue, which counts no more as such.
    pub fn unstage(&mut self) -> Option<usize>
        ensures staged { self.old.staged.items ≡ self.new.staged.items ++ option_to_list result }
        ensures none { IfNone result (self.old.staged.items ≡ []) }
        ensures capacity { vec_capacity self.new.staged ≡ vec_capacity self.old.staged }
        ensures same { self.new ≡ record self.old { staged = self.new.staged } }
    {
        self.staged.pop()
    }
}
