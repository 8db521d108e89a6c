//! The wake word of a worker: how it waits, whether it is to wake, and how many batches of mail were published.
//!
//! A worker that is about to wait arms its word, and waits only where it finds no latch and no
//! batch that it hasn't taken. Whoever has something for the worker sets the latch: the first one
//! to do so while a wait is armed rouses the worker, and a latch that comes earlier keeps the next
//! wait from beginning. The end of a wait takes wait and latch out.
//!
//! Mail is published before it is signalled: the first message of a batch raises the batch number, and a signal must
//! follow exactly where a wait is armed and no latch stands. Where none is armed, the worker sees the number.
//!
//! Each call that changes the word is one operation on it, and answers what it found where that
//! decides. Ports the state of `commonware_runtime`'s `iouring::waker`.

ghost use Rattle.std.specs.Prelude.{◌≡◌, ◌≢◌, ◌<◌, ◌^◌, ◌&&◌, ◌==◌, not, true, false};
ghost use Rattle.exec_words.specs.{declared.word.WaitTarget.WaitTarget, Word.asks_signal, Word.is_idle_at, Word.next_batch};

use super::BATCHES;

/// How a worker waits.
#[derive(Clone, Copy, Debug, PartialEq, Eq)]
pub enum WaitTarget {
    /// It doesn't.
    None,
    /// It sleeps on its wake word.
    Sleeping,
    /// It waits on its ring.
    Ring,
}

/// The wake word of a worker. What it shows is a copy of the whole word.
#[derive(Clone, Copy, Debug, PartialEq, Eq)]
pub struct PureWord {
    /// How the worker waits.
    pub target: WaitTarget,
    /// Whether it is to wake.
    pub latch: bool,
    /// How many batches were published, modulo 2^29.
    pub batch: u32,
}

impl PureWord {
    /// Nobody waits, no latch stands, and so many batches were published: at most `SUBMISSION_SEQ_MASK`.
    pub fn at(batch: u32) -> Self
        requires { batch < 2 ^ 29 }
        ensures { result ≡ record { target = WaitTarget.None; latch = false; batch = batch } }
    {
        PureWord {
            target: WaitTarget::None,
            latch: false,
            batch,
        }
    }

    /// Arms a wait: the or of its bit into the word. Answers the word that it found. The caller must not wait already,
    /// and must name a wait: `WaitTarget::None` has no bit, so that nobody would signal the worker.
    pub fn arm(&mut self, target: WaitTarget) -> PureWord
        requires unarmed { self.old.target ≡ WaitTarget.None }
        requires wait { target ≢ WaitTarget.None }
        ensures found { result ≡ self.old }
        ensures armed { self.new ≡ record self.old { target = target } }
    {
        let found = *self;
        self.target = target;
        found
    }

    /// Signals the worker: the or of the latch into the word. Answers the word that it found: the
    /// worker is to be roused where that was armed, without a latch.
    pub fn wake(&mut self) -> PureWord
        ensures found { result ≡ self.old }
        ensures latched { self.new ≡ record self.old { latch = true } }
    {
        let found = *self;
        self.latch = true;
        found
    }

    /// Publishes a batch. Answers whether a signal must follow: exactly where a wait is armed and no latch stands.
    pub fn publish(&mut self) -> bool
        ensures asks { result ≡ asks_signal self.old }
        ensures published { self.new ≡ record self.old { batch = next_batch self.old.batch } }
    {
        let asks = self.target != WaitTarget::None && !self.latch;
        self.batch = next_batch(self.batch);
        asks
    }

    /// Ends a wait: the and of wait bits and latch out of the word. Answers the word that it found.
    pub fn disarm(&mut self) -> PureWord
        ensures found { result ≡ self.old }
        ensures disarmed { self.new ≡ record self.old { target = WaitTarget.None; latch = false } }
    {
        let found = *self;
        self.target = WaitTarget::None;
        self.latch = false;
        found
    }

    /// Takes the latch alone out of the word, after a look that found it. Answers what it found.
    pub fn consume_signal(&mut self) -> PureWord
        ensures found { result ≡ self.old }
        ensures consumed { self.new ≡ record self.old { latch = false } }
    {
        let found = *self;
        self.latch = false;
        found
    }

    /// Whether a batch was published that isn't among the processed ones, a number of at most `SUBMISSION_SEQ_MASK`.
    pub fn pending(&self, processed: u32) -> bool
        requires { processed < 2 ^ 29 }
        ensures { result ≡ not (self.now.batch == processed) }
    {
        self.batch != processed
    }

    /// Whether a wait that found this word may begin: no latch stands, and all batches are
    /// processed, a number of at most `SUBMISSION_SEQ_MASK`.
    pub fn still_idle(&self, processed: u32) -> bool
        requires { processed < 2 ^ 29 }
        ensures { result ≡ is_idle_at self.now processed }
    {
        !self.latch && self.batch == processed
    }
}

/// The number of the batch after this one, modulo 2^29.
pub fn next_batch(batch: u32) -> u32
    ensures next { result ≡ next_batch batch }
    ensures in_range { result < 2 ^ 29 }
{
    batch.wrapping_add(1) % BATCHES
}
