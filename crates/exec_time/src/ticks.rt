//! The ticks of the active entries of a wheel, ascending, so that the least is the first, and one is found by halving.
//! What is staged last mostly ends last: a deque takes the first ones out and puts late ones in without moving the rest.

ghost use Rattle.std.specs.{Prelude.{◌≡◌, ℕ, ◌+◌, ◌-◌, ◌<◌, ◌≤◌, length, nat_lt, slice_index_or, ◌==◌, if◌then◌else◌, true, Contains, All, IfSome, IfNone, IfOk, IfErr, MatchResult}, VecDeque.{deque_len, deque_capacity}};
ghost use Rattle.exec_time.specs.Entries.{active_in, IsRising, IsPlaceOf};

use crate::wheel::Tick;
use std::collections::VecDeque;

/// Where a tick stands among these, or where it would.
fn place_of(ticks: &VecDeque<Tick>, tick: Tick) -> Result<usize, usize>
    requires rising { IsRising ticks.now.items }
    ensures place { MatchResult result (IsPlaceOf tick ticks.now.items) (IsPlaceOf tick ticks.now.items) }
    ensures found { IfOk result (λ i. (i < length ticks.now.items) × (slice_index_or ticks.now.items i tick ≡ tick)) }
    ensures there { IfOk result (λ _. nat_lt 0 (active_in ticks.now.items tick) ≡ true) }
    ensures missed { IfErr result (λ _. active_in ticks.now.items tick ≡ 0) }
{
    ticks.binary_search(&tick)
}

/// Whether a tick is among these.
pub(crate) fn is_among(ticks: &VecDeque<Tick>, tick: Tick) -> bool
    requires rising { IsRising ticks.now.items }
    ensures { result ≡ nat_lt 0 (active_in ticks.now.items tick) }
{
    place_of(ticks, tick).is_ok()
}

/// The least of these.
pub(crate) fn least(ticks: &VecDeque<Tick>) -> Option<Tick>
    requires rising { IsRising ticks.now.items }
    ensures none { IfNone result (length ticks.now.items ≡ 0) }
    ensures among { IfSome result (Contains ticks.now.items) }
    ensures least { IfSome result (λ least. All (λ tick. least ≤ tick) ticks.now.items) }
{
    ticks.front().copied()
}

/// Puts a tick among these, and answers whether it was there. The caller must have room for it.
pub(crate) fn join(ticks: &mut VecDeque<Tick>, tick: Tick) -> bool
    requires rising { IsRising ticks.old.items }
    requires room { deque_len ticks.old < deque_capacity ticks.old }
    ensures was { result ≡ nat_lt 0 (active_in ticks.old.items tick) }
    ensures counts { (t : ℕ) → active_in ticks.new.items t ≡ (if t == tick then active_in ticks.old.items t + 1 else active_in ticks.old.items t) }
    ensures rising { IsRising ticks.new.items }
    ensures more { deque_len ticks.new ≡ deque_len ticks.old + 1 }
    ensures capacity { deque_capacity ticks.old ≤ deque_capacity ticks.new }
{
    match place_of(ticks, tick) {
        Ok(place) => {
            put_at(ticks, place, tick);
            true
        }
        Err(place) => {
            put_at(ticks, place, tick);
            false
        }
    }
}

/// Puts a tick in at a place that it may stand at.
fn put_at(ticks: &mut VecDeque<Tick>, place: usize, tick: Tick)
    requires rising { IsRising ticks.old.items }
    requires place { IsPlaceOf tick ticks.old.items place }
    requires room { deque_len ticks.old < deque_capacity ticks.old }
    ensures counts { (t : ℕ) → active_in ticks.new.items t ≡ (if t == tick then active_in ticks.old.items t + 1 else active_in ticks.old.items t) }
    ensures rising { IsRising ticks.new.items }
    ensures more { deque_len ticks.new ≡ deque_len ticks.old + 1 }
    ensures capacity { deque_capacity ticks.old ≤ deque_capacity ticks.new }
{
    match ticks.insert(place, tick) {
        Ok(()) => {}
        Err(_) => unreachable!(),
    }
}

/// Takes a tick out of these, once. The caller must name one of them.
pub(crate) fn leave(ticks: &mut VecDeque<Tick>, tick: Tick)
    requires rising { IsRising ticks.old.items }
    requires there { 0 < active_in ticks.old.items tick }
    ensures counts { (t : ℕ) → active_in ticks.new.items t ≡ (if t == tick then active_in ticks.old.items t - 1 else active_in ticks.old.items t) }
    ensures rising { IsRising ticks.new.items }
    ensures fewer { deque_len ticks.new ≤ deque_len ticks.old }
    ensures capacity { deque_capacity ticks.old ≤ deque_capacity ticks.new }
{
    match place_of(ticks, tick) {
        Ok(place) => {
            ticks.remove(place);
        }
        Err(_) => unreachable!(),
    }
}
