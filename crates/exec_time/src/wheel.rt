//! The wheel that holds the deadlines of requests.
//!
//! A wheel counts ticks from its start. An entry is an id at a tick; it lies in the bucket of that tick's slot,
//! the tick modulo the number of slots. To advance is to pass buckets, and the ids of a bucket that is passed
//! come out, where any entry is due. An entry is active until `remove` is called for its tick. What is not
//! active is stale: its id stays in its bucket, and may come out later, so a caller must know which ids still
//! stand for something. Moments and lengths of time are in nanoseconds.

ghost use Rattle.std.specs.{Prelude.{◌≡◌, ℕ, ◌+◌, ◌-◌, ◌*◌, ◌^◌, ◌<◌, ◌≤◌, [], ◌∷◌, map, not, ◌||◌, nat_lt, vec_len, min, ◌==◌, ◌%◌, ◌↔◌, IsTrue, if◌then◌else◌, IsSome, IfSome, IfNone, IsSomeAnd, IfOk, OnOk, MatchResult}, List.range_with_len, VecDeque.{deque_len, deque_capacity}};
ghost use Rattle.exec_time.specs.{Layouts.{slots_of, is_out_of_range as out_of_range}, Entries.{active_in, IsBySlot, IsRising}};

use crate::entries::{Entry, collect, discard, has_any, make_way, put};
use crate::ticks::{is_among, join, least, leave};
use exec_base::limits::{LONGEST_TIMEOUT, MOST_SLOTS};
use exec_base::slab::Id;
use std::alloc::{AllocError, Global};
use std::collections::VecDeque;
use thiserror::Error;

/// A tick of a wheel, counted from the wheel's start.
pub type Tick = u64;

/// The horizon or the tick of a wheel is none at all or too long, or its wheel would have too many slots.
#[derive(Clone, Copy, Debug, PartialEq, Eq, Error)]
#[error("no wheel has this horizon and tick")]
pub struct Layout;

/// The deadline is further ahead than the wheel reaches.
#[derive(Clone, Copy, Debug, PartialEq, Eq, Error)]
#[error("the wheel does not reach the deadline")]
pub struct Span;

/// A wheel of deadlines. Ports `TimeoutWheel`.
#[derive(Drop)]
pub struct TimeoutWheel {
    /// The moment at which tick 0 stands.
    start: u64,
    /// How long a tick is, in nanoseconds.
    tick: u64,
    /// How far ahead a deadline may be, in nanoseconds.
    horizon: u64,
    /// How many slots there are.
    slots: u64,
    /// The tick that the wheel stands at.
    current: Tick,
    /// What is scheduled and didn't come out, stale entries too, by slot, and in a slot in order of scheduling.
    entries: Vec<Entry>,
    /// The tick of each active entry, ascending.
    active: VecDeque<Tick>,
    /// The ids that came out and were not handed out yet.
    ready: VecDeque<Id>,
    ghost by_slot: { IsBySlot slots entries.items },
    ghost rising: { IsRising active.items },
    ghost turns: { 0 < tick },
    ghost has_slots: { 0 < slots },
    ghost in_span: { (t : ℕ) → 0 < active_in active.items t → t < current + slots },
    ghost in_time: { (t : ℕ) → 0 < active_in active.items t → start + t * tick < 2 ^ 64 },
    ghost has_room: { deque_len ready + vec_len entries ≤ deque_capacity ready },
}

#[tactic(auto, unfolding(crate::specs::WheelView::wheel_of, crate::specs::WheelView::room_of))]
impl TimeoutWheel {
    ghost use Rattle.exec_time.specs.Wheel.{fresh, IsSettled, next_moment, target_of, scheduled, removed, slot_of, tick_at, moment_of, least_active};
    ghost use Rattle.exec_time.specs.Turning.{advanced, emptied, ticks_passed, turned_out};
    ghost use Rattle.exec_time.specs.WheelView.{wheel_of, room_of};

    /// The longest horizon and the longest tick: 30 years of 365 days.
    pub const MAX_TIMEOUT: u64 = LONGEST_TIMEOUT;

    /// The number of slots of a wheel with this horizon and tick, both in nanoseconds: the least power of two
    /// that is the ticks of the horizon and two more. `Layout` where the horizon or the tick is 0 or above
    /// `MAX_TIMEOUT`, or the slots are above `MOST_SLOTS`.
    pub fn validate_layout(horizon: u64, tick: u64) -> Result<usize, Layout>
        ensures { MatchResult result (λ slots. slots_of horizon tick ≡ Some slots) (λ _. slots_of horizon tick ≡ None) }
    {
        if is_out_of_range(horizon) || is_out_of_range(tick) {
            return Err(Layout);
        }
        let needed = horizon.div_ceil(tick) + 2;
        if needed > MOST_SLOTS {
            return Err(Layout);
        }
        Ok(needed.next_power_of_two() as usize)
    }

    /// A wheel with nothing in it, whose tick 0 stands at `start`. The caller must have a layout that
    /// `validate_layout` takes. Err where there is no memory.
    pub fn new(alloc: Global, horizon: u64, tick: u64, start: u64) -> Result<Self, AllocError>
        requires layout { IsSome (slots_of horizon tick) }
        ensures { IfOk result (λ w. IsSomeAnd (slots_of horizon tick) (λ slots. wheel_of w ≡ fresh horizon tick start slots)) }
    {
        let slots = match Self::validate_layout(horizon, tick) {
            Ok(slots) => slots as u64,
            Err(Layout) => unreachable!(),
        };
        Ok(TimeoutWheel {
            start,
            tick,
            horizon,
            slots,
            current: 0,
            entries: Vec::new(alloc),
            active: VecDeque::new(alloc),
            ready: VecDeque::new(alloc),
        })
    }

    /// Makes room for `n` more entries, which `schedule` then takes without memory. Err where there is no
    /// memory, and then nothing changes.
    pub fn reserve(&mut self, _alloc: Global, n: usize) -> Result<(), AllocError>
        ensures same { wheel_of self.new ≡ wheel_of self.old }
        ensures room { room_of self.old ≤ room_of self.new }
        ensures ok { OnOk result (n ≤ room_of self.new) }
    {
        self.entries.reserve(n)?;
        self.active.reserve(n)?;
        let Some(more) = self.entries.len().checked_add(n) else {
            return Err(AllocError);
        };
        self.ready.reserve(more)
    }

    /// The tick at which a deadline fires, seen from the moment `now`: the first that isn't before it. None
    /// where the deadline isn't after `now`. `Span` where it is further from `now` than the horizon, or where
    /// the tick isn't ahead of the wheel by less than a revolution.
    #[tactic(auto, unfolding(crate::specs::WheelView::wheel_of, crate::specs::Wheel::target_of))]
    pub fn checked_target_tick(&self, deadline: u64, now: u64) -> Result<Option<Tick>, Span>
        ensures { MatchResult result (λ tick. target_of (wheel_of self.now) deadline now ≡ Some tick) (λ _. target_of (wheel_of self.now) deadline now ≡ None) }
    {
        if deadline <= now {
            return Ok(None);
        }
        if deadline - now > self.horizon {
            return Err(Span);
        }
        let target = deadline.saturating_sub(self.start).div_ceil(self.tick);
        if target > self.current && target - self.current < self.slots {
            Ok(Some(target))
        } else {
            Err(Span)
        }
    }

    /// Schedules an id at a tick ahead, less than a revolution away, whose moment is below 2^64 (`is_ahead`). The
    /// entry is active until `remove` is called for its tick. The caller must have removed all entries up to the
    /// current tick (`is_settled`), and must have made room for one more.
    pub fn schedule(&mut self, id: Id, tick: Tick)
        requires settled { IsSettled (wheel_of self.old) }
        requires ahead { (wheel_of self.old).current < tick }
        requires span { tick < (wheel_of self.old).current + (wheel_of self.old).slots }
        requires in_time { moment_of (wheel_of self.old) tick < 2 ^ 64 }
        requires room { 0 < room_of self.old }
        ensures scheduled { wheel_of self.new ≡ scheduled (wheel_of self.old) id tick }
        ensures room { room_of self.old ≤ room_of self.new + 1 }
    {
        let was = join(&mut self.active, tick);
        make_way(&mut self.entries, self.slots, tick % self.slots, was);
        put(&mut self.entries, self.slots, Entry { tick, id });
    }

    /// Says that an entry of this tick is active no more. The caller must name a tick that has an active entry.
    pub fn remove(&mut self, tick: Tick)
        requires active { 0 < (wheel_of self.old).active tick }
        ensures removed { wheel_of self.new ≡ removed (wheel_of self.old) tick }
        ensures room { room_of self.old ≤ room_of self.new }
    {
        leave(&mut self.active, tick);
    }

    /// Goes on to the tick at the moment `now`, and makes the ids of the buckets that are passed ready for
    /// `drained` where any entry is due. Answers how many; None where the wheel doesn't move, has no active
    /// entry or none that is due. The caller must have removed all entries up to the current tick.
    pub fn advance(&mut self, now: u64) -> Option<usize>
        requires settled { IsSettled (wheel_of self.old) }
        ensures wheel { wheel_of self.new ≡ (advanced (wheel_of self.old) now).wheel }
        ensures answer { result ≡ (advanced (wheel_of self.old) now).answer }
        ensures room { room_of self.old ≤ room_of self.new }
    {
        let tick = self.tick_at(now);
        if tick <= self.current {
            return None;
        }
        match self.least_active() {
            None => {
                self.current = tick;
                self.entries.clear();
                None
            }
            Some(least) if tick < least => {
                self.current = tick;
                None
            }
            Some(_) => self.turn_out(tick),
        }
    }

    /// Hands out the next id that is ready. None where there is none.
    pub fn drained(&mut self) -> Option<Id>
        ensures some { IfSome result (λ id. wheel_of self.old ≡ record (wheel_of self.new) { ready = id ∷ (wheel_of self.new).ready }) }
        ensures none { IfNone result (((wheel_of self.old).ready ≡ []) × (wheel_of self.new ≡ wheel_of self.old)) }
        ensures room { room_of self.old ≤ room_of self.new }
    {
        self.ready.pop_front()
    }

    /// The moment of the least tick that has an active entry. None where nothing is active. The caller must have
    /// removed all entries up to the current tick.
    pub fn next_deadline(&self) -> Option<u64>
        requires settled { IsSettled (wheel_of self.now) }
        ensures { result ≡ next_moment (wheel_of self.now) }
    {
        let least = self.least_active()?;
        Some(self.start + least * self.tick)
    }

    /// How long a tick is, in nanoseconds.
    pub fn tick(&self) -> u64
        ensures { result ≡ (wheel_of self.now).tick }
    {
        self.tick
    }

    /// How many slots the wheel has.
    pub fn slots(&self) -> usize
        ensures { result ≡ (wheel_of self.now).slots }
    {
        self.slots as usize
    }

    /// How many more entries `schedule` takes without memory.
    pub fn room(&self) -> usize
        ensures { result ≡ room_of self.now }
    {
        let scheduled = self.entries.len();
        let entries = self.entries.capacity() - scheduled;
        let active = self.active.capacity() - self.active.len();
        let ready = self.ready.capacity() - self.ready.len() - scheduled;
        entries.min(active).min(ready)
    }

    /// Whether all entries up to the current tick were removed.
    pub fn is_settled(&self) -> bool
        ensures { IsTrue result ↔ IsSettled (wheel_of self.now) }
    {
        match least(&self.active) {
            None => true,
            Some(tick) => self.current < tick,
        }
    }

    /// Whether a tick is ahead and less than a revolution away, and its moment below 2^64.
    pub fn is_ahead(&self, tick: Tick) -> bool
        ensures ahead { IsTrue result → (wheel_of self.now).current < tick }
        ensures span { IsTrue result → tick < (wheel_of self.now).current + (wheel_of self.now).slots }
        ensures in_time { IsTrue result → moment_of (wheel_of self.now) tick < 2 ^ 64 }
        ensures whole { (wheel_of self.now).current < tick → tick < (wheel_of self.now).current + (wheel_of self.now).slots → moment_of (wheel_of self.now) tick < 2 ^ 64 → IsTrue result }
    {
        let Some(offset) = tick.checked_mul(self.tick) else {
            return false;
        };
        self.start.checked_add(offset).is_some()
            && self.current < tick
            && tick - self.current < self.slots
    }

    /// Whether a tick has an active entry.
    pub fn is_active(&self, tick: Tick) -> bool
        ensures { IsTrue result ↔ (0 < (wheel_of self.now).active tick) }
    {
        is_among(&self.active, tick)
    }

    /// The tick at a moment.
    fn tick_at(&self, now: u64) -> Tick
        ensures { result ≡ tick_at (wheel_of self.now) now }
    {
        now.saturating_sub(self.start) / self.tick
    }

    /// The least tick that has an active entry.
    fn least_active(&self) -> Option<Tick>
        requires settled { IsSettled (wheel_of self.now) }
        ensures least { result ≡ least_active (wheel_of self.now) }
        ensures active { IfSome result (λ tick. 0 < active_in self.now.active.items tick) }
    {
        least(&self.active)
    }

    /// Empties the buckets that are passed on the way to this tick, at which an entry is due.
    fn turn_out(&mut self, tick: Tick) -> Option<usize>
        requires ahead { self.old.current < tick }
        ensures wheel { wheel_of self.new ≡ (turned_out (wheel_of self.old) tick).wheel }
        ensures answer { result ≡ (turned_out (wheel_of self.old) tick).answer }
        ensures room { room_of self.old ≤ room_of self.new }
    {
        let (first, count) = self.ticks_passed(tick);
        let before = self.ready.len();
        self.empty_buckets(first, count);
        self.current = tick;
        count_if_any(self.ready.len() - before, count == self.slots)
    }

    /// The ticks whose buckets are passed on the way to this tick: the first and how many.
    fn ticks_passed(&self, tick: Tick) -> (Tick, u64)
        requires ahead { self.now.current < tick }
        ensures ticks { range_with_len result.0 result.1 ≡ ticks_passed (wheel_of self.now) tick }
        ensures count { result.1 ≡ min (tick - self.now.current) self.now.slots }
        ensures fits { result.0 + result.1 ≤ 2 ^ 64 }
    {
        let elapsed = tick - self.current;
        if elapsed >= self.slots {
            (0, self.slots)
        } else {
            (self.current + 1, elapsed)
        }
    }

    /// Empties the buckets of `count` ticks from `first` on, at most a revolution.
    fn empty_buckets(&mut self, first: Tick, count: u64)
        requires fits { first + count ≤ 2 ^ 64 }
        requires revolution { count ≤ self.old.slots }
        ensures wheel { wheel_of self.new ≡ emptied (wheel_of self.old) (map (slot_of (wheel_of self.old)) (range_with_len first count)) }
        ensures room { room_of self.old ≤ room_of self.new }
    {
        for step in 0..count {
            self.empty_bucket((first + step) % self.slots);
        }
    }

    /// Empties the bucket of a slot: its ids are ready.
    fn empty_bucket(&mut self, slot: u64)
        ensures wheel { wheel_of self.new ≡ emptied (wheel_of self.old) (slot ∷ []) }
        ensures room { room_of self.old ≤ room_of self.new }
    {
        if has_any(&self.entries, self.slots, slot) {
            collect(&self.entries, self.slots, slot, &mut self.ready);
            discard(&mut self.entries, self.slots, slot);
        }
    }
}

/// A count, where it isn't 0, or a full revolution passed.
fn count_if_any(count: usize, is_full: bool) -> Option<usize>
    ensures { result ≡ (if is_full || nat_lt 0 count then Some count else None) }
{
    if is_full || count > 0 {
        Some(count)
    } else {
        None
    }
}

/// Whether a length of time is none at all, or too long.
fn is_out_of_range(nanos: u64) -> bool
    ensures { result ≡ out_of_range nanos }
{
    nanos == 0 || nanos > TimeoutWheel::MAX_TIMEOUT
}
