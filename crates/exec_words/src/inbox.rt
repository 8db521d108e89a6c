//! The messages that wait for one worker, in batches.
//!
//! Anyone sends, under a lock; the worker takes all that is there at once, as one batch, and applies it in order. The
//! first message of a batch publishes it in the worker's wake word, so batches published less batches taken is 1 where
//! an open inbox holds a message, and else 0. That the worker's root is to be woken stands at most once in a batch. A
//! closed inbox gives each message back, and what stood in it when it closed counts as taken. Ports the `Inbox` and
//! `Message` of `commonware_runtime`'s `iouring::mailbox`.

ghost use Rattle.std.specs.Prelude.{◌≡◌, ◌<◌, [], max, false, true, ◌&&◌, IsOk, IfOk, OnOk, IfErr, OnErr, ◌↔◌};
ghost use Rattle.exec_words.specs.Word.{asks_signal};

use super::reserved::Reserved;
use super::word::{PureWord, next_batch};
use std::alloc::{AllocError, Global};
use std::marker::Model;

/// What is sent to a worker. `F` and `C` are what the last two carry.
#[derive(Debug, PartialEq, Eq, Drop)]
pub enum Message<F, C> {
    /// Wake the root of the worker, which no other worker can poll.
    WakeRoot,
    /// Send the result of a request or a sleeper to another thread.
    Forward(F),
    /// A request or a sleeper is no longer observed.
    Cancel(C),
}

/// The messages of a worker that it hasn't taken. Only `reserve` takes memory.
#[derive(Drop)]
pub struct Inbox<F, C> {
    messages: Reserved<Message<F, C>>,
    // Whether a wake of the root is among them.
    has_root: bool,
    closed: bool,
    published: u32,
    taken: u32,
}

impl<F, C> Model for Inbox<F, C> {
    ghost use Rattle.exec_words.specs.Inbox.{Inbox as Letters, IsLaidOut};

    ghost Value = { Letters F C };

    ghost view = { λ i. record {
      messages = i.messages.values;
      places = i.messages.places;
      closed = i.closed;
      published = i.published;
      taken = i.taken;
    } };

    ghost invariant = { λ i. IsLaidOut i.messages.values i.has_root i.closed i.published i.taken };
}

impl<F, C> Inbox<F, C> {
    ghost use Rattle.exec_words.specs.Inbox.{without_mail, sent, is_dropped, opens_batch, word_after, batch_taken, batch_handed, has_mail, shut, IsCounted, spare_places};

    /// An open inbox without messages and places.
    pub fn new(alloc: Global) -> Self
        ensures { result ≡ without_mail 0 }
    {
        Inbox {
            messages: Reserved::new(alloc),
            has_root: false,
            closed: false,
            published: 0,
            taken: 0,
        }
    }

    /// Makes places for `n` messages in all, those that are there already among them. Where there
    /// is no memory the inbox stays as it is.
    pub fn reserve(&mut self, alloc: Global, n: usize) -> Result<(), AllocError>
        ensures places { OnOk result (self.new ≡ record self.old { places = max self.old.places n }) }
        ensures kept { OnErr result (self.new ≡ self.old) }
    {
        self.messages.reserve(alloc, n)
    }

    /// Whether it takes no more messages.
    pub fn is_closed(&self) -> bool
        ensures closed { result ≡ self.now.closed }
        ensures counted { IsCounted self.now }
    {
        self.closed
    }

    /// Appends a message, and publishes the batch that it begins in the worker's wake word. Answers whether a signal
    /// must follow. A second wake of the root beside one that isn't taken is dropped. Gives the message back exactly
    /// where the inbox is closed, and nothing changes then. The caller must have reserved the message's place.
    pub fn send(
        &mut self,
        word: &mut PureWord,
        message: Message<F, C>,
    ) -> Result<bool, Message<F, C>>
    where
        F: Drop,
        C: Drop,
        requires { self.old.closed ≡ false → is_dropped self.old message ≡ false → 0 < spare_places self.old }
        ensures closed { IsOk result ↔ (self.old.closed ≡ false) }
        ensures asks { IfOk result (λ asks. asks ≡ (opens_batch self.old message && asks_signal word.old)) }
        ensures sent { OnOk result (self.new ≡ sent self.old message) }
        ensures word { OnOk result (word.new ≡ word_after self.old message word.old) }
        ensures back { IfErr result (λ m. m ≡ message) }
        ensures kept { OnErr result (self.new ≡ self.old) }
        ensures word_kept { OnErr result (word.new ≡ word.old) }
    {
        if self.closed {
            return Err(message);
        }
        let is_root = matches!(message, Message::WakeRoot);
        if is_root && self.has_root {
            return Ok(false);
        }
        let is_first = self.messages.is_empty();
        self.has_root = is_root || self.has_root;
        self.messages.push(message);
        if !is_first {
            return Ok(false);
        }
        self.published = next_batch(self.published);
        Ok(word.publish())
    }

    /// Takes all messages as one batch into `batch`, whose places stay here in exchange. False exactly where there is
    /// none, and nothing changes then. The caller must have applied the batch before: `batch` is empty.
    pub fn take(&mut self, batch: &mut Reserved<Message<F, C>>) -> bool
        requires { batch.old.values ≡ [] }
        ensures answer { result ≡ has_mail self.old }
        ensures taken { self.new ≡ batch_taken self.old batch.old }
        ensures handed { batch.new ≡ batch_handed self.old batch.old }
    {
        if self.messages.is_empty() {
            return false;
        }
        self.messages.swap(batch);
        self.has_root = false;
        self.taken = next_batch(self.taken);
        true
    }

    /// Closes the inbox. What stood in it counts as a batch that was taken, and goes into `batch`, for the worker to
    /// let go; the answer is whether there was one. The caller must have let go of the batch before: `batch` is empty.
    pub fn close(&mut self, batch: &mut Reserved<Message<F, C>>) -> bool
        requires { batch.old.values ≡ [] }
        ensures answer { result ≡ has_mail self.old }
        ensures closed { self.new ≡ shut (batch_taken self.old batch.old) }
        ensures handed { batch.new ≡ batch_handed self.old batch.old }
    {
        let had_mail = self.take(batch);
        self.closed = true;
        had_mail
    }
}
