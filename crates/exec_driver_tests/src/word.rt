//! A wake word that only its worker has.

ghost use Rattle.std.specs.Prelude.{◌≡◌, false};

use exec_driver::armed::Armed;

/// A wake word that nobody armed, and that is as its worker left it, or has a signal.
#[derive(Drop)]
pub struct Word {
    signalled: bool,
    /// Whether the worker waits on its ring.
    pub armed: bool,
}

impl Word {
    /// A word without a signal, or with one.
    pub fn new(calm: bool) -> Self
        ensures { result.armed ≡ false }
    {
        Word {
            signalled: !calm,
            armed: false,
        }
    }
}

impl Armed for Word {
    ghost use Rattle.std.specs.Prelude.{true};

    ghost is_signalled = { λ w. w.signalled };

    ghost is_caught_up = { λ _ _. true };

    ghost is_armed = { λ w. w.armed };

    fn arm(&mut self, _processed: u32) -> bool {
        self.armed = true;
        !self.signalled
    }

    fn disarm(&mut self) {
        self.armed = false;
        self.signalled = false;
    }
}
