//! Calls on a wheel.

use crate::fault::Fault;
use crate::words::{id, named, number, text_of, text_of_id, word_of};
use exec_time::wheel::{Layout, TimeoutWheel};
use std::alloc::Global;
use std::str::SplitWhitespace as Words;

/// The wheel of `H tick T start S`.
pub fn begin(alloc: Global, words: &mut Words<'_>) -> Result<TimeoutWheel, Fault> {
    let horizon = number(words)?;
    let tick = named(words)?;
    let start = named(words)?;
    if TimeoutWheel::validate_layout(horizon, tick).is_err() {
        return Err(Fault::Condition);
    }
    Ok(TimeoutWheel::new(alloc, horizon, tick, start)?)
}

/// The slots of a layout, or that it is refused.
pub fn layout(alloc: Global, words: &mut Words<'_>) -> Result<String, Fault> {
    match TimeoutWheel::validate_layout(named(words)?, number(words)?) {
        Ok(slots) => text_of(alloc, Some(slots as u64)),
        Err(Layout) => word_of(alloc, "refused"),
    }
}

/// Makes a call on a wheel, and answers what it gave.
pub fn answer(
    wheel: &mut TimeoutWheel,
    alloc: Global,
    words: &mut Words<'_>,
) -> Result<String, Fault> {
    match words.next().unwrap_or("") {
        "target" => target(wheel, alloc, words),
        "schedule" => schedule(wheel, alloc, words),
        "remove" => remove(wheel, alloc, words),
        "advance" => advance(wheel, alloc, words),
        "next" => next(wheel, alloc),
        _ => Err(Fault::Malformed),
    }
}

/// The next deadline.
fn next(wheel: &TimeoutWheel, alloc: Global) -> Result<String, Fault> {
    if !wheel.is_settled() {
        return Err(Fault::Condition);
    }
    text_of(alloc, wheel.next_deadline())
}

/// The tick of a deadline.
fn target(wheel: &TimeoutWheel, alloc: Global, words: &mut Words<'_>) -> Result<String, Fault> {
    match wheel.checked_target_tick(number(words)?, number(words)?) {
        Ok(tick) => text_of(alloc, tick),
        Err(_) => word_of(alloc, "span"),
    }
}

/// Schedules an id.
fn schedule(
    wheel: &mut TimeoutWheel,
    alloc: Global,
    words: &mut Words<'_>,
) -> Result<String, Fault> {
    let (id, tick) = (id(words)?, number(words)?);
    wheel.reserve(alloc, 1)?;
    if wheel.room() == 0 || !wheel.is_settled() || !wheel.is_ahead(tick) {
        return Err(Fault::Condition);
    }
    wheel.schedule(id, tick);
    word_of(alloc, "ok")
}

/// Says that an entry is active no more.
fn remove(wheel: &mut TimeoutWheel, alloc: Global, words: &mut Words<'_>) -> Result<String, Fault> {
    let tick = number(words)?;
    if !wheel.is_active(tick) {
        return Err(Fault::Condition);
    }
    wheel.remove(tick);
    word_of(alloc, "ok")
}

/// Goes on, and tells how many ids come out and which.
fn advance(
    wheel: &mut TimeoutWheel,
    alloc: Global,
    words: &mut Words<'_>,
) -> Result<String, Fault> {
    let now = number(words)?;
    if !wheel.is_settled() {
        return Err(Fault::Condition);
    }
    match wheel.advance(now) {
        Some(count) => drained(wheel, alloc, count),
        None => text_of(alloc, None),
    }
}

/// So many ids that come out.
fn drained(wheel: &mut TimeoutWheel, alloc: Global, count: usize) -> Result<String, Fault> {
    let mut given = format!(in alloc; "{count}")?;
    for _ in 0..count {
        if let Some(id) = wheel.drained() {
            given.push(' ')?;
            given.push_str(text_of_id(alloc, id)?.as_str())?;
        }
    }
    Ok(given)
}
