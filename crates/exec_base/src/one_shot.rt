//! A channel for one value, once.
//!
//! The value that is sent first is delivered once, by a `poll`. A one-shot that is closed before delivers
//! nothing. Taking the value closes the one-shot, so who polls again is told that it is closed.
//!
//! ```text
//!   Open ──send──▶ Sent ──poll──▶ Closed
//!     └───────────close──────────▶ Closed
//! ```
//!
//! One end sends or closes, the other polls or closes. `sent`, `polled` and `closed` say what each call makes of each
//! state, `send_answer` and `poll_answer` what it answers: nothing leads out of `Closed`, and only `Open` takes a
//! value, so none is delivered twice and none is lost without being handed back.
//!
//! Ports the one-shot channel that `commonware_runtime` takes from the crate `futures`, as one value that both ends
//! use.

ghost use Rattle.std.specs.Prelude.{◌≡◌, Ok, Err, Some, None};
ghost use Rattle.exec_base.specs.{OneShot.{sent, polled, closed, send_answer, poll_answer, waiting}, declared.error.Error.Error as error};
ghost use Rattle.exec_base.specs.declared.one_shot.OneShotState.TheVariants as state;

use crate::error::Error;
use std::marker::Model;
use std::mem;

/// How a one-shot stands.
#[derive(Drop)]
pub enum OneShotState<T> {
    /// Nothing was sent, and it isn't closed.
    Open,
    /// The value was sent, and nobody has taken it.
    Sent(T),
    /// It was closed before a value was sent, or its value was taken.
    Closed,
}

/// A channel for one value, once. No call takes memory.
#[derive(Drop)]
pub struct OneShot<T> {
    state: OneShotState<T>,
}

impl<T> Model for OneShot<T> {
    ghost use Rattle.exec_base.specs.declared.one_shot.OneShotState.{OneShotState as Stand};

    ghost Value = { Stand T };

    ghost view = { λ s. s.state };
}

impl<T> OneShot<T> {
    /// An open one-shot.
    pub fn new() -> Self
        ensures { result ≡ state.Open }
    {
        OneShot {
            state: OneShotState::Open,
        }
    }

    /// Sends the value. Gives it back where the one-shot is closed, or has had its value already.
    pub fn send(&mut self, value: T) -> Result<(), T>
        ensures answer { result ≡ send_answer self.old value }
        ensures sent { self.new ≡ sent self.old value }
    {
        if !matches!(&self.state, OneShotState::Open) {
            return Err(value);
        }
        match mem::replace(&mut self.state, OneShotState::Sent(value)) {
            OneShotState::Open => Ok(()),
            _ => unreachable!(),
        }
    }

    /// Takes the value, which closes the one-shot. `Ok(None)` where none was sent yet and it isn't closed,
    /// `Error::Closed` where it is closed and holds no value.
    pub fn poll(&mut self) -> Result<Option<T>, Error>
        ensures answer { result ≡ poll_answer self.old }
        ensures polled { self.new ≡ polled self.old }
    {
        match &self.state {
            OneShotState::Open => return Ok(None),
            OneShotState::Closed => return Err(Error::Closed),
            OneShotState::Sent(_) => {}
        }
        let taken = mem::replace(&mut self.state, OneShotState::Closed);
        match taken {
            OneShotState::Sent(value) => Ok(Some(value)),
            _ => unreachable!(),
        }
    }

    /// Closes the one-shot. A value that was sent stays to be taken.
    pub fn close(&mut self)
        ensures { self.new ≡ closed self.old }
    {
        if !matches!(&self.state, OneShotState::Open) {
            return;
        }
        match mem::replace(&mut self.state, OneShotState::Closed) {
            OneShotState::Open => {}
            _ => unreachable!(),
        }
    }
}

/// A value is delivered once, and none after a close.
pub fn one_value_once()
    ensures waits { poll_answer waiting ≡ Ok None }
    ensures sent { send_answer waiting 7 ≡ Ok tt }
    ensures first { poll_answer (sent waiting 7) ≡ Ok (Some 7) }
    ensures second { poll_answer (polled (sent waiting 7)) ≡ Err error.Closed }
    ensures back { send_answer (sent waiting 7) 8 ≡ Err 8 }
    ensures still_first { poll_answer (closed (sent waiting 7)) ≡ Ok (Some 7) }
    ensures closed { poll_answer (closed waiting) ≡ Err error.Closed }
    ensures refused { send_answer (closed waiting) 7 ≡ Err 7 }
{}
