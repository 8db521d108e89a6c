//! The way to a worker for everyone else: its inbox and its wake word, over plain values.
//!
//! `send` is a whole sending, where nobody acts in between: the section that appends and publishes, and then the signal
//! where one is asked for. An executor that makes these one by one calls `Inbox::send` and `PureWord::wake`. What
//! concerns the inbox alone, as reserving, taking and closing, leaves the wake word as it is. Ports the `Mailbox` of
//! `commonware_runtime`'s `iouring::mailbox`.

ghost use Rattle.std.specs.Prelude.{◌≡◌, ◌<◌, [], false, max, IsOk, IfOk, OnOk, IfErr, OnErr, ◌↔◌};
ghost use Rattle.exec_words.specs.declared.word.WaitTarget.{WaitTarget};

use super::inbox::{Inbox, Message};
use super::reserved::Reserved;
use super::word::PureWord;
use std::alloc::{AllocError, Global};

/// The inbox of a worker, with its wake word.
#[derive(Drop)]
pub struct Mailbox<F, C> {
    /// The wake word.
    pub waker: PureWord,
    /// The messages that the worker hasn't taken.
    pub inbox: Inbox<F, C>,
}

impl<F, C> Mailbox<F, C> {
    ghost use Rattle.exec_words.specs.Inbox.{without_mail, sent, is_dropped, spare_places, word_signalled, has_mail, batch_taken, batch_handed, shut};

    /// An open mailbox with a fresh wake word, and a place for a wake of the root. An `Err` comes only for want of
    /// memory.
    pub fn new(alloc: Global) -> Result<Self, AllocError>
    where
        F: Drop,
        C: Drop,
        ensures inbox { IfOk result (λ m. m.inbox ≡ without_mail 1) }
        ensures waker { IfOk result (λ m. m.waker ≡ record { target = WaitTarget.None; latch = false; batch = 0 }) }
    {
        let mut inbox = Inbox::new(alloc);
        inbox.reserve(alloc, 1)?;
        Ok(Mailbox {
            waker: PureWord::at(0),
            inbox,
        })
    }

    /// Sends a message, and signals the worker where the batch that it begins asks for it. A second wake of the root
    /// beside one that isn't taken is dropped. Gives the message back exactly where the mailbox is closed, and nothing
    /// changes then. The caller must have reserved the message's place.
    pub fn send(&mut self, message: Message<F, C>) -> Result<(), Message<F, C>>
    where
        F: Drop,
        C: Drop,
        requires { self.old.inbox.closed ≡ false → is_dropped self.old.inbox message ≡ false
            → 0 < spare_places self.old.inbox }
        ensures closed { IsOk result ↔ (self.old.inbox.closed ≡ false) }
        ensures sent { OnOk result (self.new.inbox ≡ sent self.old.inbox message) }
        ensures waker { OnOk result (self.new.waker ≡ word_signalled self.old.inbox message self.old.waker) }
        ensures back { IfErr result (λ m. m ≡ message) }
        ensures kept { OnErr result (self.new ≡ self.old) }
    {
        if self.inbox.send(&mut self.waker, message)? {
            self.waker.wake();
        }
        Ok(())
    }

    /// Makes places, as `Inbox::reserve` does.
    pub fn reserve(&mut self, alloc: Global, n: usize) -> Result<(), AllocError>
        ensures places { OnOk result (self.new.inbox ≡ record self.old.inbox { places = max self.old.inbox.places n }) }
        ensures kept { OnErr result (self.new.inbox ≡ self.old.inbox) }
        ensures waker { self.new.waker ≡ self.old.waker }
    {
        self.inbox.reserve(alloc, n)
    }

    /// Takes all messages as one batch, as `Inbox::take` does. `batch` must be empty.
    pub fn take(&mut self, batch: &mut Reserved<Message<F, C>>) -> bool
        requires { batch.old.values ≡ [] }
        ensures answer { result ≡ has_mail self.old.inbox }
        ensures taken { self.new ≡ record self.old { inbox = batch_taken self.old.inbox batch.old } }
        ensures handed { batch.new ≡ batch_handed self.old.inbox batch.old }
    {
        self.inbox.take(batch)
    }

    /// Closes the inbox, as `Inbox::close` does. `batch` must be empty.
    pub fn close(&mut self, batch: &mut Reserved<Message<F, C>>) -> bool
        requires { batch.old.values ≡ [] }
        ensures answer { result ≡ has_mail self.old.inbox }
        ensures closed { self.new ≡ record self.old { inbox = shut (batch_taken self.old.inbox batch.old) } }
        ensures handed { batch.new ≡ batch_handed self.old.inbox batch.old }
    {
        self.inbox.close(batch)
    }
}
