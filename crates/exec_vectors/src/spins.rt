//! Calls on a spinner. Each answer ends with the budget and the floor after the call.

use crate::fault::Fault;
use crate::words::{named, number, word_of};
use exec_base::spinner::{Spinner, SpinnerConfig};
use std::alloc::Global;
use std::str::SplitWhitespace as Words;

/// The spinner of `B max M quick Q iters I`.
pub fn begin(words: &mut Words<'_>) -> Result<Spinner, Fault> {
    let cfg = SpinnerConfig {
        budget_us: number(words)?,
        max_budget_us: named(words)?,
        quick_wake_us: named(words)?,
    };
    let looks = named(words)?;
    if cfg.budget_us > cfg.max_budget_us {
        return Err(Fault::Condition);
    }
    Ok(Spinner::new(&cfg, looks))
}

/// Makes a call on a spinner, and answers what it gave.
pub fn answer(
    spinner: &mut Spinner,
    alloc: Global,
    words: &mut Words<'_>,
) -> Result<String, Fault> {
    let given = match words.next().unwrap_or("") {
        "begin" => word_of(alloc, ""),
        "spin" => spin(spinner, alloc, words),
        "wake" => wake(spinner, alloc, words),
        _ => Err(Fault::Malformed),
    }?;
    let (budget, floor) = (spinner.budget(), spinner.floor());
    format!(in alloc; "{given}budget {budget} floor {floor}").map_err(Fault::Memory)
}

/// A wake after so long.
fn wake(spinner: &mut Spinner, alloc: Global, words: &mut Words<'_>) -> Result<String, Fault> {
    spinner.on_wake(number(words)?);
    word_of(alloc, "")
}

/// Spins with a condition that is true from this call on, or never at 0. Answers whether it hit, and the calls.
fn spin(spinner: &mut Spinner, alloc: Global, words: &mut Words<'_>) -> Result<String, Fault> {
    let call = number(words)?;
    let mut calls = 0u64;
    let hit = spinner.spin(&mut || {
        calls = calls.saturating_add(1);
        calls == call
    });
    let word = if hit { "hit" } else { "miss" };
    format!(in alloc; "{word} calls {calls} ").map_err(Fault::Memory)
}
