//! How a task waits for something that stays with one worker: a request or a sleeper.
//!
//! A registration knows the worker and the name of the thing, its key. A poll by that worker looks at the thing itself,
//! and has it wake the task. The first poll by anyone else sends that worker the message to send the result, which
//! comes to a one-shot; from then on each poll looks there, whoever polls. Once the result was answered it is over.
//!
//! ```text
//!   Waiting ──poll by another worker──▶ Forwarded
//!      └─ it has ended, or closing ─┴─ result heard ─▶ Done ◀── poll ── Closed
//! ```
//!
//! A registration that a closing worker refused is `Closed`, and the first poll says so.
//!
//! Who registers pays for all that may follow: the thing itself has its memory, and the mail of its worker has one place
//! for the forward and one for the cancel (`Places`). So a poll and a release take none, and are never refused for it. The
//! worker gives the two places back once the registration was let go and what it sent was applied.
//!
//! A registration can't be dropped: who doesn't want it any more lets it go by `release`, also where it is over. What it
//! still waits for is then observed by nobody: it is let go here, where it is this worker's, and elsewhere by a message.

ghost use Rattle.std.specs.Prelude.{◌≡◌, ℕ, ◌≢◌, Some, Ok, Err, None, true, false};
ghost use Rattle.exec_base.specs.{OneShot.{poll_answer, polled}, declared.error.Error.Error as error};
ghost use Rattle.exec_time.specs.declared.timers.Observation.TheVariants as observation;
ghost use Rattle.exec_registration.specs.{Homes.{HomeState, StaysPunctual, home_of}, Mail.{HasRoomFor, Cancels, IsUnheld}, Looks.{if_ready, after_look}, Registrations.{told_by_look, state_after, heard, after_hearing, pending_of, Asks, Sends}, declared.{mail.{Cancel.Cancel as CancelOf, Forward.Forward as ForwardOf}, registration.RegistrationState.RegistrationState as state}};

use crate::mail::{Cancel, Forward};
use exec_base::error::Error;
use exec_base::one_shot::OneShot;
use exec_base::post::Post;
use exec_base::task_no::TaskNo;
use exec_driver::home::Home;
use exec_ring::ring::Ring;
use exec_time::timers::Observation;
use std::marker::Model;

/// The name of something that stays with its worker, and what a registration does with it there. Ports `Key`.
pub trait Key<S, F>: Copy {
    ghost use Rattle.exec_base.specs.declared.task_no.TaskNo.{TaskNo as Task};
    ghost use Rattle.exec_time.specs.declared.timers.Observation.{Observation as Found};

    /// What the thing gives at its end.
    type Output: Drop;
    /// What that is sent by to who waits elsewhere.
    type Sender: Drop;

    // A task of the worker may look at the thing: such a task waits for it, or has yet to take what it gave.
    ghost may_look: { Self → HomeState S F → Type 0 };

    // What a task finds, with the one that it would have woken.
    ghost found: { Self → Task → HomeState S F → Found Self.Output };

    // The things of the worker once the task took what this one gave, and once this one is to wake the task.
    ghost taken: { Self → HomeState S F → HomeState S F };

    ghost awaited: { Self → Task → HomeState S F → HomeState S F };

    // The messages to its worker.
    ghost forward_by: { Self → Self.Sender → ForwardOf S F };

    ghost cancel_of: { Self → CancelOf };

    /// What a task of the worker finds. What the thing gave is taken. The caller must know that a task of the worker
    /// may look at it.
    fn observe<R: Ring + Drop>(
        self,
        waker: TaskNo,
        home: &mut Home<R, S, F>,
    ) -> Observation<Self::Output>
    where
        S: Drop,
        F: Drop,
        requires seen { may_look self (home_of home.old) }
        ensures answer { result ≡ found self waker (home_of home.old) }
        ensures taken { home_of home.new ≡ if_ready result (taken self (home_of home.old)) (home_of home.old) }
        ensures punctual { StaysPunctual (home_of home.old) (home_of home.new) };

    /// Has the thing wake this task, which may look at it again and then finds so. The caller must have found that the
    /// thing would wake another task, or none.
    fn refresh<R: Ring + Drop>(self, waker: TaskNo, home: &mut Home<R, S, F>)
    where
        S: Drop,
        F: Drop,
        requires seen { may_look self (home_of home.old) }
        requires stale { found self waker (home_of home.old) ≡ observation.Refresh }
        ensures awaited { home_of home.new ≡ awaited self waker (home_of home.old) }
        ensures wakes { found self waker (home_of home.new) ≡ observation.Pending }
        ensures still { may_look self (home_of home.new) }
        ensures punctual { StaysPunctual (home_of home.old) (home_of home.new) };

    /// The message that has its worker send the result by this.
    fn forward(self, sender: Self::Sender) -> Forward<S, F>
        ensures { result ≡ forward_by self sender };

    /// The message that nobody waits for it any more.
    fn cancel(self) -> Cancel
        ensures { result ≡ cancel_of self };
}

/// How a registration stands.
#[derive(Clone, Copy)]
pub enum RegistrationState<K> {
    /// It waits for the thing of this worker with this key.
    Waiting(u32, K),
    /// So it does, and the result is sent.
    Forwarded(u32, K),
    /// Its worker was closing and refused it, which is to be told.
    Closed,
    /// It is over.
    Done,
}

/// A registration. Ports `Registration`.
pub struct Registration<K> {
    state: RegistrationState<K>,
}

impl<K> Model for Registration<K> {
    ghost use Rattle.exec_registration.specs.declared.registration.RegistrationState.{RegistrationState as Stand};

    ghost Value = { Stand K };

    ghost view = { λ r. r.state };
}

impl<K: Copy> Registration<K> {
    /// A registration for the thing of this worker with this key. The caller must have made places for its forward and
    /// its cancel in that worker's mail.
    pub fn new(worker: u32, key: K) -> Self
        ensures { result ≡ state.Waiting worker key }
    {
        let state = RegistrationState::Waiting(worker, key);
        Registration { state }
    }

    /// A registration that a closing worker refused.
    pub fn closed() -> Self
        ensures { result ≡ state.Closed }
    {
        let state = RegistrationState::Closed;
        Registration { state }
    }

    /// How it stands.
    pub fn state(&self) -> RegistrationState<K>
        ensures { result ≡ self.now }
    {
        self.state
    }

    /// A poll for the task `waker` by a worker. Its output comes once: `Ok(None)` says that it isn't there yet; then the
    /// task will be woken, or the result will come to `answer`.
    ///
    /// `sender`, `post` and `answer` serve a thing of another worker: the first such poll sends that worker, by `post`,
    /// the message to send the result by `sender`, and it comes to the one-shot `answer`. Each such poll must bring the
    /// same one-shot. The caller must not poll what is over, must have made a place for that message, and room for two
    /// of each in what is to be told where the worker closes; and must know that a thing of this worker that wasn't
    /// forwarded is observed by this registration.
    ///
    /// `Closed` comes only where the thing's worker closes or closed: where it refused the registration, where this
    /// worker is it and closes, which lets the thing go, where the post or the one-shot is closed, or where `Closed` is
    /// the result that was sent. Any error ends the registration.
    pub fn poll<R: Ring + Drop, S: Drop, F: Drop, P: Post<Forward<S, F>>>(
        &mut self,
        waker: TaskNo,
        home: &mut Home<R, S, F>,
        sender: K::Sender,
        post: &mut P,
        answer: &mut OneShot<Result<K::Output, Error>>,
    ) -> Result<Option<K::Output>, Error>
    where
        K: Key<S, F>,
        requires goes_on { self.old ≡ state.Done → ⊥ }
        requires seen { (key : K) → self.old ≡ state.Waiting home.old.worker key → home.old.closing ≡ false → K.may_look key (home_of home.old) }
        requires room { (key : K) → self.old ≡ state.Waiting home.old.worker key → home.old.closing ≡ true → HasRoomFor (home_of home.old) (K.cancel_of key) }
        requires place { (at : ℕ) (key : K) → self.old ≡ state.Waiting at key → at ≢ home.old.worker → P.has_place post.old (K.forward_by key sender) }
        ensures refused { self.old ≡ state.Closed → (result ≡ Err error.Closed) × (self.new ≡ state.Done) × (home_of home.new ≡ home_of home.old) × (post.new ≡ post.old) × (answer.new ≡ answer.old) }
        ensures looks { (key : K) → self.old ≡ state.Waiting home.old.worker key → home.old.closing ≡ false → let seen = K.found key waker (home_of home.old) in (result ≡ told_by_look seen) × (self.new ≡ state_after self.old seen) × (home_of home.new ≡ after_look seen (K.taken key (home_of home.old)) (K.awaited key waker (home_of home.old)) (home_of home.old)) }
        ensures closing { (key : K) → self.old ≡ state.Waiting home.old.worker key → home.old.closing ≡ true → (result ≡ Err error.Closed) × (self.new ≡ state.Done) × Cancels (home_of home.old) (home_of home.new) (K.cancel_of key) }
        ensures wakes { (key : K) → self.old ≡ state.Waiting home.old.worker key → home.old.closing ≡ false → result ≡ Ok None → (K.found key waker (home_of home.new) ≡ observation.Pending) × K.may_look key (home_of home.new) }
        ensures stays_here { (key : K) → self.old ≡ state.Waiting home.old.worker key → (post.new ≡ post.old) × (answer.new ≡ answer.old) }
        ensures asks { (at : ℕ) (key : K) → self.old ≡ state.Waiting at key → at ≢ home.old.worker → (home_of home.new ≡ home_of home.old) × Asks P.closed P.taken post.old post.new (K.forward_by key sender) at key self.new answer.old answer.new result }
        ensures shut { (at : ℕ) (key : K) → self.old ≡ state.Waiting at key → at ≢ home.old.worker → P.closed post.old ≡ true → (result ≡ Err error.Closed) × (self.new ≡ state.Done) × (answer.new ≡ answer.old) }
        ensures hears { (at : ℕ) (key : K) → self.old ≡ state.Forwarded at key → (home_of home.new ≡ home_of home.old) × (post.new ≡ post.old) × (result ≡ heard (poll_answer answer.old)) × (self.new ≡ after_hearing self.old (poll_answer answer.old)) × (answer.new ≡ polled answer.old) }
        ensures punctual { StaysPunctual (home_of home.old) (home_of home.new) }
    {
        match self.state {
            RegistrationState::Waiting(at, key) if at == home.worker => {
                self.poll_here(key, waker, home)
            }
            _ => self.poll_elsewhere(sender, post, answer),
        }
    }

    /// A poll by who has no worker, or another one: as [`Registration::poll`] there.
    pub fn poll_elsewhere<S: Drop, F: Drop, P: Post<Forward<S, F>>>(
        &mut self,
        sender: K::Sender,
        post: &mut P,
        answer: &mut OneShot<Result<K::Output, Error>>,
    ) -> Result<Option<K::Output>, Error>
    where
        K: Key<S, F>,
        requires goes_on { self.old ≡ state.Done → ⊥ }
        requires place { (at : ℕ) (key : K) → self.old ≡ state.Waiting at key → P.has_place post.old (K.forward_by key sender) }
        ensures refused { self.old ≡ state.Closed → (result ≡ Err error.Closed) × (self.new ≡ state.Done) × (post.new ≡ post.old) × (answer.new ≡ answer.old) }
        ensures asks { (at : ℕ) (key : K) → self.old ≡ state.Waiting at key → Asks P.closed P.taken post.old post.new (K.forward_by key sender) at key self.new answer.old answer.new result }
        ensures shut { (at : ℕ) (key : K) → self.old ≡ state.Waiting at key → P.closed post.old ≡ true → (result ≡ Err error.Closed) × (self.new ≡ state.Done) × (answer.new ≡ answer.old) }
        ensures hears { (at : ℕ) (key : K) → self.old ≡ state.Forwarded at key → (post.new ≡ post.old) × (result ≡ heard (poll_answer answer.old)) × (self.new ≡ after_hearing self.old (poll_answer answer.old)) × (answer.new ≡ polled answer.old) }
    {
        match self.state {
            RegistrationState::Done => unreachable!(),
            RegistrationState::Closed => self.end(Err(Error::Closed)),
            RegistrationState::Forwarded(_, _) => self.hear(answer),
            RegistrationState::Waiting(at, key) => {
                if post.send(key.forward(sender)).is_err() {
                    return self.end(Err(Error::Closed));
                }
                self.state = RegistrationState::Forwarded(at, key);
                self.hear(answer)
            }
        }
    }

    /// Lets the registration go. What it still waits for is observed by nobody from then on: a thing of this worker is
    /// cancelled here, and one of another worker by a message, which a closed post refuses, since a worker that is gone
    /// has let all go. Nothing is to be done for one that is over.
    ///
    /// The caller must have made a place for that message, and room for two of each in what is to be told. Ports
    /// `release`, and stands for the drop of a registration.
    pub fn release<R: Ring + Drop, S: Drop, F: Drop, P: Post<Cancel>>(
        self,
        home: &mut Home<R, S, F>,
        post: &mut P,
    )
    where
        K: Key<S, F>,
        requires room { (key : K) → pending_of self ≡ Some (home.old.worker, key) → HasRoomFor (home_of home.old) (K.cancel_of key) }
        requires place { (at : ℕ) (key : K) → pending_of self ≡ Some (at, key) → at ≢ home.old.worker → P.has_place post.old (K.cancel_of key) }
        ensures here { (key : K) → pending_of self ≡ Some (home.old.worker, key) → Cancels (home_of home.old) (home_of home.new) (K.cancel_of key) × (post.new ≡ post.old) }
        ensures unheld { (key : K) → pending_of self ≡ Some (home.old.worker, key) → IsUnheld (home_of home.new) (K.cancel_of key) }
        ensures elsewhere { (at : ℕ) (key : K) → pending_of self ≡ Some (at, key) → at ≢ home.old.worker → (home_of home.new ≡ home_of home.old) × Sends P.closed P.taken post.old post.new (K.cancel_of key) }
        ensures over { pending_of self ≡ None → (home_of home.new ≡ home_of home.old) × (post.new ≡ post.old) }
        ensures punctual { StaysPunctual (home_of home.old) (home_of home.new) }
    {
        match self.pending() {
            Some((at, key)) if at == home.worker => {
                key.cancel().apply(home);
                let Registration { state: _over } = self;
            }
            _ => self.release_elsewhere::<S, F, P>(post),
        }
    }

    /// Lets the registration go by who has no worker, or another one: as [`Registration::release`] there.
    pub fn release_elsewhere<S: Drop, F: Drop, P: Post<Cancel>>(self, post: &mut P)
    where
        K: Key<S, F>,
        requires place { (at : ℕ) (key : K) → pending_of self ≡ Some (at, key) → P.has_place post.old (K.cancel_of key) }
        ensures elsewhere { (at : ℕ) (key : K) → pending_of self ≡ Some (at, key) → Sends P.closed P.taken post.old post.new (K.cancel_of key) }
        ensures over { pending_of self ≡ None → post.new ≡ post.old }
    {
        if let Some((_, key)) = self.pending() {
            let _sent = post.send(key.cancel());
        }
        let Registration { state: _over } = self;
    }

    /// The worker and the key of what it still waits for. None where it is over.
    pub fn pending(&self) -> Option<(u32, K)>
        ensures { result ≡ pending_of self.now }
    {
        match self.state {
            RegistrationState::Waiting(at, key) | RegistrationState::Forwarded(at, key) => {
                Some((at, key))
            }
            RegistrationState::Closed | RegistrationState::Done => None,
        }
    }

    // A poll by the thing's own worker, to which it wasn't forwarded.
    fn poll_here<R: Ring + Drop, S: Drop, F: Drop>(
        &mut self,
        key: K,
        waker: TaskNo,
        home: &mut Home<R, S, F>,
    ) -> Result<Option<K::Output>, Error>
    where
        K: Key<S, F>,
        requires seen { home.old.closing ≡ false → K.may_look key (home_of home.old) }
        requires room { home.old.closing ≡ true → HasRoomFor (home_of home.old) (K.cancel_of key) }
        ensures looks { home.old.closing ≡ false → let seen = K.found key waker (home_of home.old) in (result ≡ told_by_look seen) × (self.new ≡ state_after self.old seen) × (home_of home.new ≡ after_look seen (K.taken key (home_of home.old)) (K.awaited key waker (home_of home.old)) (home_of home.old)) }
        ensures wakes { home.old.closing ≡ false → result ≡ Ok None → (K.found key waker (home_of home.new) ≡ observation.Pending) × K.may_look key (home_of home.new) }
        ensures closing { home.old.closing ≡ true → (result ≡ Err error.Closed) × (self.new ≡ state.Done) × Cancels (home_of home.old) (home_of home.new) (K.cancel_of key) }
        ensures punctual { StaysPunctual (home_of home.old) (home_of home.new) }
    {
        if home.closing {
            key.cancel().apply(home);
            return self.end(Err(Error::Closed));
        }
        match key.observe(waker, home) {
            Observation::Ready(output) => self.end(Ok(Some(output))),
            Observation::Pending => Ok(None),
            Observation::Refresh => {
                key.refresh(waker, home);
                Ok(None)
            }
        }
    }

    // Looks at the one-shot of a thing that was forwarded.
    fn hear<T: Drop>(&mut self, answer: &mut OneShot<Result<T, Error>>) -> Result<Option<T>, Error>
        ensures heard { result ≡ heard (poll_answer answer.old) }
        ensures state { self.new ≡ after_hearing self.old (poll_answer answer.old) }
        ensures answer { answer.new ≡ polled answer.old }
    {
        match answer.poll() {
            Ok(None) => Ok(None),
            Ok(Some(sent)) => self.end(sent.map(Some)),
            Err(_) => self.end(Err(Error::Closed)),
        }
    }

    // The registration is over, with this answer.
    fn end<T>(&mut self, told: Result<Option<T>, Error>) -> Result<Option<T>, Error>
        ensures told { result ≡ told }
        ensures over { self.new ≡ state.Done }
    {
        self.state = RegistrationState::Done;
        told
    }
}
