//! The seat of a worker: what others may read or change of it.
//!
//! Other workers steal from its run queue, signal its wake word and send to its inbox; callers do the latter two. The
//! kernel and the clock wake it, and who closes asks whether it has passed the barrier.

ghost use Rattle.std.specs.Prelude.{◌≡◌, ◌+◌, ◌^◌, ◌<◌, map, not, Some, None, IfOk, OnOk, if◌then◌else◌};
ghost use Rattle.exec_parts.specs.{Words.{asks_signal, has_ended, is_awake}, Pooled.{chair_latched, chair_raised}, Records.{reached, HasMailRoom, IsFreshSeat, MakesMail}};

use crate::parts::mail::{Mail, Post};
use exec_machine::state::{Rest, WorkerPhase};
use exec_task::runnable::Runnable;
use exec_words::mailbox::Mailbox;
use exec_words::queue::PureQueue;
use exec_words::reserved::Reserved;
use exec_words::word::WaitTarget;
use std::alloc::{AllocError, Global};

/// The seat of a worker.
#[derive(Drop)]
pub struct Seat {
    /// How far the worker has come.
    pub phase: WorkerPhase,
    /// Whether it is of the pool.
    pub pool: bool,
    /// Whether it has passed the shutdown barrier.
    pub left: bool,
    /// Whether it sleeps.
    pub rest: Rest,
    /// Its run queue.
    pub queue: PureQueue<Runnable>,
    /// Its wake word, and the messages that it hasn't taken.
    pub mailbox: Post,
    /// How many wakes were raised for its ring that the ring hasn't got yet.
    pub raised: u64,
    /// How many requests and sleepers it has made: two messages may come about each.
    pub made: usize,
}

impl Seat {
    /// The seat of a worker that begins. Err only for want of memory.
    pub fn new(alloc: Global, pool: bool) -> Result<Self, AllocError>
        ensures seat { IfOk result (λ s. IsFreshSeat pool s) }
    {
        Ok(Seat {
            phase: WorkerPhase::Open,
            pool,
            left: false,
            rest: Rest::Awake,
            queue: PureQueue::at(alloc, 0)?,
            mailbox: Mailbox::new(alloc)?,
            raised: 0,
            made: 0,
        })
    }

    /// Whether it doesn't sleep.
    pub fn is_awake(&self) -> bool
        ensures { result ≡ is_awake self.now.rest }
    {
        matches!(self.rest, Rest::Awake)
    }

    /// Whether it takes no further step.
    pub fn has_ended(&self) -> bool
        ensures { result ≡ has_ended self.now.phase }
    {
        matches!(self.phase, WorkerPhase::Ended)
    }

    /// Signals the worker: the latch goes into its wake word. Answers whether a wait is to be ended: that of its ring,
    /// or that of its word.
    pub fn signal(&mut self) -> Option<WaitTarget>
        ensures target { result ≡ (if asks_signal self.old.mailbox.waker then Some self.old.mailbox.waker.target else None) }
        ensures latched { self.new ≡ chair_latched self.old }
    {
        let found = self.mailbox.waker.wake();
        match (found.target, found.latch) {
            (WaitTarget::None, _) | (_, true) => None,
            (target, false) => Some(target),
        }
    }

    /// Ends the wait of the worker: that of its ring has a wake raised there besides. Answers whether it slept.
    pub fn raise(&mut self, ring: bool) -> bool
        ensures slept { result ≡ not (is_awake self.old.rest) }
        ensures raised { self.new ≡ chair_raised ring self.old }
    {
        self.raised = self.raised.saturating_add(u64::from(ring));
        let slept = !self.is_awake();
        self.rest = Rest::Awake;
        slept
    }

    /// Makes places for the messages that may come about its requests and sleepers and about one more, and for the wake
    /// of its root, in its inbox and in the batch that its worker takes. Where there is no memory all stays as it is.
    pub fn reserve_mail(
        &mut self,
        alloc: Global,
        batch: &mut Reserved<Mail>,
    ) -> Result<(), AllocError>
        ensures kept { MakesMail self.old self.new batch.old batch.new }
        ensures room { OnOk result (HasMailRoom self.new batch.new) }
    {
        let made = self.made.checked_add(1).ok_or(AllocError)?;
        let places = made.checked_mul(2).ok_or(AllocError)?;
        let all = places.checked_add(1).ok_or(AllocError)?;
        self.mailbox.reserve(alloc, all)?;
        batch.reserve(alloc, all)
    }

    /// It has made one more request or sleeper. The caller must have made room for it.
    pub fn count_made(&mut self)
        requires { self.old.made + 1 < 2 ^ 64 }
        ensures { self.new ≡ record self.old { made = self.old.made + 1 } }
    {
        self.made += 1;
    }
}

/// The clock has come to this moment, in nanoseconds, for each of these.
pub fn reach_all(seats: &mut [Seat], clock: u64)
    ensures { seats.new ≡ map (reached clock) seats.old }
{
    for seat in seats {
        if matches!(seat.rest, Rest::Until(moment) if moment <= clock) {
            seat.rest = Rest::Awake;
        }
    }
}
