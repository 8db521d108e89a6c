//! The messages that a worker has yet to send about what a task held that is over.
//!
//! A task that ends holds requests, and may wait for a sleeper. What its last worker has of them is let go in the step
//! that ends it; the workers of the others are told, one a step, the oldest request first and the sleeper last. The list
//! of the task itself comes here for that, so none of it takes memory.

ghost use Rattle.std.specs.Prelude.{◌≡◌, [], drop, slice_get, None};
ghost use Rattle.exec_parts.specs.{Words.is_empty, View.letters_in};

use crate::parts::held::Held;
use exec_machine::state::{Letter, MailMessage};
use std::alloc::Global;

/// What is to be told of.
#[derive(Drop)]
pub struct Letters {
    /// The requests, the oldest first.
    pub requests: Vec<Held>,
    /// The sleeper.
    pub timer: Option<Held>,
}

impl Letters {
    /// Nothing is to be told.
    pub fn new(alloc: Global) -> Self
        ensures requests { result.requests.items ≡ [] }
        ensures timer { result.timer ≡ None }
    {
        Letters {
            requests: Vec::new(alloc),
            timer: None,
        }
    }

    /// Whether nothing is to be told.
    pub fn is_empty(&self) -> bool
        ensures { result ≡ is_empty (letters_in self.now) }
    {
        self.requests.is_empty() && self.timer.is_none()
    }

    /// Takes the first message. None where there is none.
    pub fn next(&mut self) -> Option<Letter>
        ensures first { result ≡ slice_get (letters_in self.old) 0 }
        ensures left { letters_in self.new ≡ drop 1 (letters_in self.old) }
    {
        let (to, message) = if self.requests.is_empty() {
            let held = self.timer.take()?;
            (held.worker, MailMessage::CancelTimer(held.number))
        } else {
            let held = self.requests.remove(0);
            (held.worker, MailMessage::CancelRequest(held.number))
        };
        Some(Letter { to, message })
    }
}
