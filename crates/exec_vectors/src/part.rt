//! The part that a case speaks of.

use crate::fault::Fault;
use crate::queues::Queues;
use crate::shares::Busy;
use crate::sleepers::Sleepers;
use crate::words::named;
use crate::{slots, spins, ticks, wakes};
use exec_base::slab::Slab;
use exec_base::spinner::Spinner;
use exec_time::wheel::TimeoutWheel;
use exec_words::word::PureWord;
use std::alloc::Global;
use std::str::SplitWhitespace as Words;

/// The part that a case speaks of.
#[derive(Drop)]
pub enum Part {
    /// No case has begun.
    Nothing,
    /// Layouts of wheels alone.
    Layouts,
    /// A slab of numbers.
    Slab(Slab<u64>),
    /// A spinner.
    Spinner(Spinner),
    /// A wheel of deadlines.
    Wheel(TimeoutWheel),
    /// The sleepers of a worker.
    Sleepers(Sleepers),
    /// Run queues.
    Queues(Queues),
    /// A wake word.
    Word(PureWord),
    /// The queues of a pool whose workers are busy.
    Busy(Busy),
}

impl Part {
    /// The part that a line `case N ..` begins.
    pub fn begin(alloc: Global, line: &str) -> Result<Part, Fault> {
        let mut words = line.split_whitespace();
        let _number = named(&mut words)?;
        Part::of_kind(alloc, &mut words)
    }

    /// The part that the next word names, as the words after it say.
    fn of_kind(alloc: Global, words: &mut Words<'_>) -> Result<Part, Fault> {
        match words.next() {
            Some("layouts") => Ok(Part::Layouts),
            Some("sleepers") => Ok(Part::Sleepers(Sleepers::new(alloc))),
            Some("start") => slots::begin(alloc, words).map(Part::Slab),
            Some("shared" | "exclusive") => Queues::begin(alloc, words).map(Part::Queues),
            Some("batch") => wakes::begin(words).map(Part::Word),
            Some("workers") => Busy::begin(alloc, words).map(Part::Busy),
            Some("budget") => spins::begin(words).map(Part::Spinner),
            Some("horizon") => ticks::begin(alloc, words).map(Part::Wheel),
            _ => Err(Fault::Malformed),
        }
    }

    /// Makes a call, and answers what it gave.
    pub fn answer(&mut self, alloc: Global, call: &str) -> Result<String, Fault> {
        let mut words = call.split_whitespace();
        match self {
            Part::Nothing => Err(Fault::Malformed),
            Part::Layouts => ticks::layout(alloc, &mut words),
            Part::Slab(slab) => slots::answer(slab, alloc, &mut words),
            Part::Spinner(spinner) => spins::answer(spinner, alloc, &mut words),
            Part::Wheel(wheel) => ticks::answer(wheel, alloc, &mut words),
            Part::Sleepers(sleepers) => sleepers.answer(alloc, &mut words),
            Part::Queues(queues) => queues.answer(alloc, &mut words),
            Part::Word(word) => wakes::answer(word, alloc, &mut words),
            Part::Busy(busy) => busy.answer(alloc, &mut words),
        }
    }
}
