//! What a worker's parts leave to be told once their own work is done: wakes and completions.
//!
//! A part that ends something, a sleeper here, doesn't wake or send by itself, since that may lead back into the
//! part. It notes what is to be told, and its caller tells it once the part is done. `Adds` says what a call notes.
//! The room for a note is made by the caller before (`HasRoom`), so a call that notes takes no memory.

ghost use Rattle.std.specs.Prelude.{◌≡◌, [], OnOk};
ghost use Rattle.exec_time.specs.Notes.{HasRoom, Adds};

use exec_base::error::Error;
use exec_base::task_no::TaskNo;
use std::alloc::{AllocError, Global};
use std::collections::VecDeque;

/// A result for who waits elsewhere, with the way to send it.
#[derive(Drop)]
pub struct ForwardedResult<S> {
    /// Where the result goes.
    pub sender: S,
    /// The result: success, or why there is none.
    pub result: Result<(), Error>,
}

/// Wakes and completions, in order of coming. `S` is what a result is sent by.
#[derive(Drop)]
pub struct Notes<S> {
    /// The tasks to be woken.
    pub wakes: VecDeque<TaskNo>,
    /// The results to be sent.
    pub completions: VecDeque<ForwardedResult<S>>,
}

impl<S> Notes<S> {
    /// Nothing noted. It takes no memory.
    pub fn new(alloc: Global) -> Self
        ensures wakes { result.wakes.items ≡ [] }
        ensures completions { result.completions.items ≡ [] }
    {
        Notes {
            wakes: VecDeque::new(alloc),
            completions: VecDeque::new(alloc),
        }
    }

    /// Makes room for `n` more wakes and `n` more completions, which are then noted without memory. Err where
    /// there is no memory; what is noted stays in any case.
    pub fn reserve(&mut self, _alloc: Global, n: usize) -> Result<(), AllocError>
        ensures same { Adds self.old self.new [] [] }
        ensures ok { OnOk result (HasRoom self.new n) }
    {
        self.wakes.reserve(n)?;
        self.completions.reserve(n)
    }
}
