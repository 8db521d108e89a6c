//! What a driver is lent to reach workers: the wake word of its own, and the signals to all.
//!
//! A worker arms its word before it waits on its ring: from then on who sends it something raises a wake in its ring. So
//! the word stays armed while it sleeps, and the worker disarms it before it goes on. The word refuses where something
//! was sent since the worker last looked, or where a signal stands there; the worker must look then, and may not wait.
//!
//! Who gives up the permit of an open signals the worker of the next holder, the own one too, since a permit is granted
//! by a service of that worker.

ghost use Rattle.std.specs.Prelude.{◌≡◌, ℕ, Bool, true, false, List, Option};
ghost use Rattle.exec_driver.specs.Turns.{signalled_too, is_calm};

/// The wake word of a worker.
pub trait Armed {
    // A signal stands there.
    ghost is_signalled: { Self → Bool };
    // No batch of messages was sent but so many, which were taken.
    ghost is_caught_up: { Self → ℕ → Bool };
    // The worker waits on its ring: who sends it something raises a wake there.
    ghost is_armed: { Self → Bool };

    /// Says that the worker waits on its ring from now on, having taken `processed` batches of messages. False just
    /// where a signal stands there or another batch was sent. The caller must not wait already.
    fn arm(&mut self, processed: u32) -> bool
        requires unarmed { is_armed self.old ≡ false }
        ensures calm { result ≡ is_calm (is_signalled self.old) (is_caught_up self.old processed) }
        ensures armed { is_armed self.new ≡ true }
        ensures signal { is_signalled self.new ≡ is_signalled self.old }
        ensures batches { (taken : ℕ) → is_caught_up self.new taken ≡ is_caught_up self.old taken };

    /// Says that the worker waits no more, and takes the signal out.
    fn disarm(&mut self)
        ensures disarmed { is_armed self.new ≡ false }
        ensures signal { is_signalled self.new ≡ false }
        ensures batches { (taken : ℕ) → is_caught_up self.new taken ≡ is_caught_up self.old taken };
}

/// The signals to workers.
pub trait Signals {
    // Whom it signalled so far, the first first, where that is known.
    ghost signalled: { Self → Option (List ℕ) };

    /// Signals a worker, also where it was signalled before: it may have taken that signal out by now.
    fn signal(&mut self, worker: u32)
        ensures { signalled self.new ≡ signalled_too (signalled self.old) worker };
}
