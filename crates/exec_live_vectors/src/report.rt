//! What a replay found.

use crate::fault::Fault;
use crate::script::{Line, Script};
use std::alloc::{AllocError, Global};

/// What a replay found.
#[derive(Drop)]
pub struct Report {
    alloc: Global,
    /// A text for each answer that differs.
    pub differences: Vec<String>,
    /// How many lines were answered.
    pub answers: u64,
    /// How many answers differ.
    pub differ: u64,
    /// How many lines no public call answers.
    pub unasked: u64,
    /// How many lines follow a second claim that would be held beside one.
    pub beside: u64,
}

impl Report {
    /// Nothing was played.
    pub fn new(alloc: Global) -> Self {
        Report {
            alloc,
            differences: Vec::new(alloc),
            answers: 0,
            differ: 0,
            unasked: 0,
            beside: 0,
        }
    }

    /// Compares an answer with what is wanted.
    pub fn note(&mut self, line: Line<'_>, given: Result<String, Fault>) {
        if let Err(Fault::Unasked) = &given {
            self.unasked = self.unasked.saturating_add(1);
            return;
        }
        self.answers = self.answers.saturating_add(1);
        let text = match &given {
            Ok(given) if given.as_str() == line.wanted => return,
            Ok(given) => format!(in self.alloc; "{}: {given}", line.text),
            Err(fault) => format!(in self.alloc; "{}: {fault}", line.text),
        };
        self.differ = self.differ.saturating_add(1);
        self.keep(text);
    }

    /// Keeps a text, if there is memory: the count says the same.
    fn keep(&mut self, text: Result<String, AllocError>) {
        if let Ok(text) = text {
            let _kept = self.differences.push(text);
        }
    }

    /// Passes over the rest of a case.
    pub fn pass_over(&mut self, script: &mut Script<'_>) {
        for _ in 0..script.len() {
            if script.next().is_none() {
                return;
            }
            self.beside = self.beside.saturating_add(1);
        }
    }
}
