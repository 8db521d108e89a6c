//! The mail of a worker as tests have it: it keeps what came last of each kind.

use exec_base::post::Post;
use exec_registration::mail::{Cancel, Forward, Places};
use std::alloc::{AllocError, Global};

/// The mail of a worker: what came last of each kind, unless it is closed.
#[derive(Drop)]
pub struct Mail {
    /// How many places are reserved.
    pub places: usize,
    /// Whether it is closed.
    pub closed: bool,
    /// The forward that was sent last.
    pub forwarded: Option<Forward<u32, u32>>,
    /// The cancel that was sent last.
    pub cancelled: Option<Cancel>,
}

impl Mail {
    /// No mail.
    pub fn new() -> Self {
        Mail {
            places: 0,
            closed: false,
            forwarded: None,
            cancelled: None,
        }
    }

    /// Whether nothing was asked of another worker.
    pub fn is_empty(&self) -> bool {
        self.forwarded.is_none() && self.cancelled.is_none()
    }
}

impl Places for Mail {
    ghost places = { λ m. m.places };

    fn reserve(&mut self, _alloc: Global, n: usize) -> Result<(), AllocError> {
        self.places = self.places.checked_add(n).ok_or(AllocError)?;
        Ok(())
    }

    fn release(&mut self, n: usize) {
        self.places -= n;
    }
}

impl Post<Forward<u32, u32>> for Mail {
    ghost use Rattle.std.specs.Prelude.{None};

    ghost closed = { λ m. m.closed };

    ghost taken = { λ _. None };

    ghost has_place = { λ _ _. Unit {0} };

    fn send(&mut self, message: Forward<u32, u32>) -> Result<(), Forward<u32, u32>> {
        if self.closed {
            return Err(message);
        }
        self.forwarded = Some(message);
        Ok(())
    }
}

impl Post<Cancel> for Mail {
    ghost use Rattle.std.specs.Prelude.{None};

    ghost closed = { λ m. m.closed };

    ghost taken = { λ _. None };

    ghost has_place = { λ _ _. Unit {0} };

    fn send(&mut self, message: Cancel) -> Result<(), Cancel> {
        if self.closed {
            return Err(message);
        }
        self.cancelled = Some(message);
        Ok(())
    }
}
