//! The run queue of a worker: shared with thieves, or exclusive.
//!
//! The queue of a worker with others beside it is shared: its words and slots lie at one place, and whoever acts on
//! it has a seat there. A queue is made with its first seat, from which the seats of all thieves are split off before
//! it becomes the owner's. A lone worker's queue is exclusive: a plain queue that its owner holds whole. It has the
//! same calls, but no seat for a thief, and its owner takes nothing from other queues. Ports `Queue`.

ghost use Rattle.std.specs.Prelude.{◌≡◌, ◌+◌, ◌^◌, ◌≤◌, ◌⊎◌, ◌<◌, [], IfOk, IsTrue, IsFalse};
ghost use Rattle.exec_live_queue.specs.Calls.{HasKept};

use crate::exclusive::ExclusiveOwner;
use crate::head::{gap_of, head_of, real_of};
use crate::inner::{Inner, words_of};
use crate::owner::{Owner, SharedOwner};
use crate::steal::{NoPause, Pause, steal_once, take_aim};
use crate::thief::{another, see_head};
use crate::view::Place;
use crate::{HEAD, SLOTS, TAIL, WORDS};
use atomic_table::Table;
use crossbeam_utils::CachePadded;
use exec_words::head::Head;
use exec_words::queue::Steal;
use std::alloc::{AllocError, Global};
use std::marker::Model;
use std::sync::{Arc, Wait};

/// A queue.
#[derive(Drop)]
pub enum Queue<T> {
    /// Thieves may steal from it.
    Shared(SharedQueue<T>),
    /// No thief gets at it. Its owner takes its memory here.
    Exclusive(Global),
}

/// A seat at a queue.
#[derive(Drop)]
pub enum QueueSeat<T> {
    /// The first seat, or a thief's, at a shared queue.
    Shared(SharedSeat<T>),
    /// The one seat at an exclusive queue.
    Exclusive(LoneSeat),
}

/// The seat at an exclusive queue: only the call that makes the queue makes it.
#[derive(Drop)]
pub struct LoneSeat {
    alloc: Global,
}

/// A queue, from which others steal. Its words and slots lie in one place, which its owner holds too.
#[derive(Drop)]
pub struct SharedQueue<T> {
    inner: Arc<Inner<T>, Global>,
    start: u64,
}

impl<T> Model for SharedQueue<T> {
    ghost use Rattle.std.specs.Prelude.{◌≡◌, ◌+◌, ◌^◌, ◌≤◌};
    ghost use Rattle.crossbeam_utils.specs.Padded.{padded_value};
    ghost use Rattle.exec_live_queue.specs.Handles.{Shown};

    ghost Value = { Shown };

    ghost view = { λ q. record { table = (padded_value q.inner.value).shared.table_id; start = q.start } };

    ghost invariant = { λ q. ((padded_value q.inner.value).shared.table_id.words ≡ 24) × ((padded_value q.inner.value).shared.table_id.slots ≡ 256) × (q.start + 512 ≤ 2 ^ 55) };
}

/// A seat at a shared queue.
#[derive(Drop)]
pub struct SharedSeat<T> {
    place: Place<T>,
}

impl<T> Model for SharedSeat<T> {
    ghost use Rattle.std.specs.Prelude.{◌≡◌, ◌≢◌, []};
    ghost use Rattle.exec_live_queue.specs.Handles.{Seated};
    ghost use Rattle.exec_live_queue.specs.declared.view.Stage.TheVariants.{Claimed};

    ghost Value = { Seated T };

    ghost view = { λ s. record { table = s.place.table_id; view = s.place.me.0 } };

    ghost invariant = { λ s. (s.place.me.1 ≡ []) × (s.place.me.0.stage ≢ Claimed) };
}

impl<T> Queue<T> {
    ghost use Rattle.exec_live_queue.specs.Kinds.{IsSeat, IsThief, IsStolen, IsStolenInto, IsNewcomer, StartsAt, begun, first_of, handed, theft};

    /// An empty queue whose first value gets the count 0, and its first seat.
    pub fn shared(alloc: Global) -> Result<(Self, QueueSeat<T>), AllocError>
    where
        T: Drop,
        ensures start { IfOk result (λ r. StartsAt 0 r.0) }
        ensures first { IfOk result (λ r. IsSeat r.0 r.1 × (r.1 ≡ first_of r.0)) }
    {
        Queue::at(alloc, 0)
    }

    /// An empty queue whose first value gets the count `start`, and its first seat. The caller must
    /// take a count that isn't past that at which a queue is spent.
    pub fn at(alloc: Global, start: u64) -> Result<(Self, QueueSeat<T>), AllocError>
    where
        T: Drop,
        requires { start + 512 ≤ 2 ^ 55 }
        ensures start { IfOk result (λ r. StartsAt start r.0) }
        ensures first { IfOk result (λ r. IsSeat r.0 r.1 × (r.1 ≡ first_of r.0)) }
    {
        let mut words = [0; WORDS];
        words[HEAD] = head_of(start, 0);
        words[TAIL] = start;
        let (table, place) = Table::vacant(alloc, &words, SLOTS as usize, &start)?;
        let inner = Arc::new(alloc, CachePadded::new(table))?;
        let queue = Queue::Shared(SharedQueue { inner, start });
        Ok((queue, QueueSeat::Shared(SharedSeat { place })))
    }

    /// An empty queue that no thief gets at, and its one seat.
    pub fn exclusive(alloc: Global) -> (Self, QueueSeat<T>)
        ensures { result.1 ≡ first_of result.0 }
    {
        let seat = LoneSeat { alloc };
        (Queue::Exclusive(alloc), QueueSeat::Exclusive(seat))
    }

    /// One more seat, a thief's, split off any seat at this queue. The queue must be shared.
    pub fn seat(&self, from: &mut QueueSeat<T>) -> QueueSeat<T>
        requires { IsSeat self.now from.old }
        ensures same { from.new ≡ from.old }
        ensures thief { IsThief self.now result }
        ensures seat { IsNewcomer self.now result }
    {
        let Queue::Shared(queue) = self else {
            unreachable!();
        };
        match from {
            QueueSeat::Shared(from) => {
                let place = another(words_of(&queue.inner), &mut from.place);
                QueueSeat::Shared(SharedSeat { place })
            }
            QueueSeat::Exclusive(_) => unreachable!(),
        }
    }

    /// The owner, for the first seat of this queue. The caller must give the very seat that this
    /// queue was made with. Err where no more handles fit, and at an exclusive queue where no memory
    /// is left.
    pub fn owner(&self, first: QueueSeat<T>) -> Result<Owner<T>, AllocError>
    where
        T: Drop,
        requires { first ≡ first_of self.now }
        ensures begun { IfOk result (λ o. o ≡ begun self.now) }
        ensures whole { IfOk result (λ o. handed o ≡ []) }
    {
        match self {
            Queue::Shared(queue) => match first {
                QueueSeat::Shared(SharedSeat { place: seat }) => Ok(Owner::Shared(SharedOwner {
                    inner: Arc::try_clone(&queue.inner)?,
                    seat,
                    tail: queue.start,
                    left: 0,
                })),
                QueueSeat::Exclusive(_) => unreachable!(),
            },
            Queue::Exclusive(alloc) => Ok(Owner::Exclusive(ExclusiveOwner::at(*alloc, 0)?)),
        }
    }

    /// Whether a thief may claim half of the values, by the head and the tail that this call loads:
    /// no claim is held, and there are two values at least. The caller must give a thief's seat at this
    /// queue, which is shared then.
    pub fn is_stealable(&self, seat: &mut QueueSeat<T>) -> bool
        requires seat { IsThief self.now seat.old }
        ensures same { IsThief self.now seat.new }
        ensures kept { HasKept (theft seat.old) (theft seat.new) }
        ensures stealable { IsTrue result → ((theft seat.new).gap ≡ 0) × ((theft seat.new).at + 2 ≤ (theft seat.new).upto) }
        ensures dry { IsFalse result → (0 < (theft seat.new).gap) ⊎ ((theft seat.new).upto < (theft seat.new).at + 2) }
    {
        let Queue::Shared(queue) = self else {
            unreachable!();
        };
        match seat {
            QueueSeat::Shared(seat) => take_aim(words_of(&queue.inner), &mut seat.place).is_some(),
            QueueSeat::Exclusive(_) => unreachable!(),
        }
    }

    /// Loads the head. The caller must give a thief's seat at this queue, which is shared then.
    pub fn head(&self, seat: &mut QueueSeat<T>) -> Head
        requires seat { IsThief self.now seat.old }
        ensures same { IsThief self.now seat.new }
        ensures kept { HasKept (theft seat.old) (theft seat.new) }
        ensures head { (result.real ≡ (theft seat.new).at) × (result.gap ≡ (theft seat.new).gap) }
    {
        let Queue::Shared(queue) = self else {
            unreachable!();
        };
        match seat {
            QueueSeat::Shared(seat) => {
                let seen = see_head(words_of(&queue.inner), &mut seat.place);
                Head {
                    real: real_of(seen),
                    gap: gap_of(seen) as usize,
                }
            }
            QueueSeat::Exclusive(_) => unreachable!(),
        }
    }

    /// One try of a steal: half of the values of this queue, rounded down, move to the end of the thief's own queue,
    /// in order. `Nothing` where the own queue is exclusive, spent, or has fewer than 128 places free, where another
    /// claim is held, and where this queue has fewer than two values; `Again` where the head has changed since it was
    /// loaded. The caller must give a thief's seat at this queue, which is shared then, and be in the middle of no
    /// overflow of the own queue.
    pub fn steal_once(&self, seat: &mut QueueSeat<T>, into: &mut Owner<T>) -> Steal
        requires seat { IsThief self.now seat.old }
        requires whole { handed into.old ≡ [] }
        ensures same { IsThief self.now seat.new × (handed into.new ≡ []) }
        ensures stolen { IsStolen into.old (theft seat.old) into.new (theft seat.new) result }
    {
        self.steal_paused(seat, into, &mut NoPause)
    }

    /// The same, and the thief is held up between its claim and its release. The caller must give what it must there.
    pub fn steal_paused<P: Pause>(
        &self,
        seat: &mut QueueSeat<T>,
        into: &mut Owner<T>,
        pause: &mut P,
    ) -> Steal
        requires seat { IsThief self.now seat.old }
        requires whole { handed into.old ≡ [] }
        ensures same { IsThief self.now seat.new × (handed into.new ≡ []) }
        ensures stolen { IsStolen into.old (theft seat.old) into.new (theft seat.new) result }
    {
        let Queue::Shared(queue) = self else {
            unreachable!();
        };
        match seat {
            QueueSeat::Shared(seat) => match into {
                Owner::Shared(into) => {
                    let (source, words) = (words_of(&queue.inner), words_of(&into.inner));
                    let from = &mut seat.place;
                    let answer = steal_once(source, from, words, &mut into.seat, into.tail, pause);
                    if let Steal::Moved(count) = &answer {
                        into.tail += *count as u64;
                    }
                    answer
                }
                Owner::Exclusive(_) => Steal::Nothing,
            },
            QueueSeat::Exclusive(_) => unreachable!(),
        }
    }

    /// Steals until a try doesn't find that the head has changed since it was loaded. Answers how many values moved.
    /// The caller must give a thief's seat at this queue, which is shared then, and be in the middle of no overflow of
    /// the own queue.
    pub fn steal_into<R: Wait>(&self, rt: &R, seat: &mut QueueSeat<T>, into: &mut Owner<T>) -> usize
        requires seat { IsThief self.now seat.old }
        requires whole { handed into.old ≡ [] }
        ensures same { IsThief self.now seat.new × (handed into.new ≡ []) }
        ensures stolen { IsStolenInto into.old (theft seat.old) into.new (theft seat.new) result }
    {
        'tries: for _ in rt.forever() {
            match self.steal_once(seat, into) {
                Steal::Moved(count) => return count,
                Steal::Nothing => return 0,
                Steal::Again(_) => {}
            }
        }
        unreachable!()
    }
}
