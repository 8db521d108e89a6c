//! A sleep of a task.
//!
//! A sleep has a deadline from its making (`Waiting`). Its first poll before the deadline registers a sleeper with
//! the worker that polls it (`Registered`). While it is polled by that worker each further poll looks at the sleeper.
//! The first poll by another worker sends the sleeper's worker a message, by which the result is to come to a
//! one-shot (`Forwarded`); from then on each poll looks there, whoever polls. A sleep that is over stays so (`Done`).
//! Moments are in nanoseconds.
//!
//! ```text
//!   Waiting ──poll──▶ Registered ──poll by another worker──▶ Forwarded
//!      └─ deadline passed ─┴─ sleeper gone, or closing ─┴─ result heard ─▶ Done
//! ```
//!
//! The sleeper belongs to its worker. A task that goes to another worker has only the id, and asks by a message. An
//! error ends the sleep, but for want of room for a sleeper, which leaves all as it was.
//!
//! A sleep can't be dropped: who doesn't want it any more lets it go by `release`, also where it is over. Its sleeper
//! is then removed, here where it is this worker's, and elsewhere by a message.

ghost use Rattle.std.specs.Prelude.{◌≡◌, ◌≢◌, ℕ, ◌-◌, ◌<◌, ◌≤◌, [], Some, None, Ok, Err, true, false, IfOk, OnOk, IfErr};
ghost use Rattle.exec_time.specs.{declared.{sleep.TimerMessage.TheVariants.{Cancel, Forward}, timers.{Observer.TheVariants.Local, Sleeper.Sleeper as Sleeping, TimerId.TimerId as TimerName}}, Sleepers.{is_forwarded, completions_of}, Notes.{Adds, HasRoom}};
ghost use Rattle.exec_base.specs.{OneShot.{poll_answer, polled}, Slab.{value_at, removed, written}, declared.error.Error.Error as error};
ghost use Rattle.exec_time.specs.declared.sleep.SleepState.TheVariants as state;

use crate::notes::Notes;
use crate::timers::{TimerId, Timers};
use crate::wheel::TimeoutWheel;
use exec_base::error::Error;
use exec_base::one_shot::OneShot;
use exec_base::post::Post;
use exec_base::task_no::TaskNo;
use std::alloc::Global;
use std::marker::Model;

/// A message to the worker of a sleeper.
#[derive(Drop)]
pub enum TimerMessage<S> {
    /// The result is to be sent by this.
    Forward(TimerId, S),
    /// The sleeper is to be removed.
    Cancel(TimerId),
}

/// How a sleep stands.
#[derive(Clone, Copy)]
pub enum SleepState {
    /// It has no sleeper yet, and ends at this moment.
    Waiting(u64),
    /// It has this sleeper of this worker.
    Registered(u32, TimerId),
    /// It has this sleeper of this worker, which sends the result.
    Forwarded(u32, TimerId),
    /// It is over.
    Done,
}

/// The worker that polls, and how it stands.
#[derive(Clone, Copy)]
pub struct Here {
    /// Its number.
    pub worker: u32,
    /// The moment that it has sampled.
    pub now: u64,
    /// Whether it closes.
    pub closing: bool,
}

/// A sleep. Ports `Sleep`.
pub struct Sleep {
    state: SleepState,
}

impl Model for Sleep {
    ghost use Rattle.exec_time.specs.declared.sleep.SleepState.{SleepState as Stand};

    ghost Value = { Stand };

    ghost view = { λ s. s.state };
}

impl Sleep {
    ghost use Rattle.exec_time.specs.Sleep.{asleep, heard, after_hearing, is_local, sleeper_of, Registers, Asks, Sends, IsRefused};

    /// A sleep for `duration` nanoseconds from `now` on. None at all is over at once, and more than
    /// `TimeoutWheel::MAX_TIMEOUT` is cut to that.
    pub fn new(duration: u64, now: u64) -> Self
        ensures { result ≡ asleep duration now }
    {
        if duration == 0 {
            return Sleep {
                state: SleepState::Done,
            };
        }
        let deadline = now.saturating_add(duration.min(TimeoutWheel::MAX_TIMEOUT));
        Sleep {
            state: SleepState::Waiting(deadline),
        }
    }

    /// A sleep until the moment `instant`, as `new` makes it for the time from `now` to there: over at once where
    /// that isn't after `now`.
    pub fn until(instant: u64, now: u64) -> Self
        ensures { result ≡ asleep (instant - now) now }
    {
        Sleep::new(instant.saturating_sub(now), now)
    }

    /// How the sleep stands.
    pub fn state(&self) -> SleepState
        ensures { result ≡ self.now }
    {
        self.state
    }

    /// Whether a poll by this worker needs no other one: the sleep has no sleeper, or one of this worker that isn't
    /// forwarded.
    pub fn is_local(&self, worker: u32) -> bool
        ensures { result ≡ is_local self.now worker }
    {
        match self.state {
            SleepState::Registered(at, _) => at == worker,
            SleepState::Forwarded(_, _) => false,
            SleepState::Waiting(_) | SleepState::Done => true,
        }
    }

    /// A poll by the worker `here`, with its sleepers: true where the sleep is over. False where it isn't; then
    /// `waker` will be woken, or the result will come to `answer`.
    ///
    /// `sender`, `post` and `answer` serve a sleep whose sleeper is another worker's: the first such poll sends that
    /// worker, by `post`, the message to send the result by `sender`, and it comes to the one-shot `answer`. Each such
    /// poll must bring the same one-shot. The caller must have reserved a place for that message, and must know that
    /// a sleeper of its own worker isn't forwarded but by the sleep itself.
    ///
    /// `Closed` comes only where this worker closes, where the post or the one-shot is closed, or where it is the
    /// result that was sent. A closing worker makes no sleeper, and a poll there leaves the one that the sleep had, which
    /// goes with the worker's others (`Timers::clear`). `Full` and `NoMemory` come only where a sleeper is to be made, as
    /// `Timers::insert` has them, and then nothing changes. Any other error ends the sleep.
    pub fn poll<S: Drop, P: Post<TimerMessage<S>>>(
        &mut self,
        alloc: Global,
        waker: TaskNo,
        here: Here,
        timers: &mut Timers<S>,
        sender: S,
        post: &mut P,
        answer: &mut OneShot<Result<(), Error>>,
    ) -> Result<bool, Error>
        requires own { (id : TimerName) → self.old ≡ state.Registered here.worker id → is_forwarded (value_at timers.old id.0) ≡ false }
        requires place { (at : ℕ) (id : TimerName) → self.old ≡ state.Registered at id → at ≢ here.worker → P.has_place post.old (Forward id sender) }
        ensures over { self.old ≡ state.Done → (result ≡ Ok true) × (self.new ≡ state.Done) × (timers.new ≡ timers.old) }
        ensures elapsed { (deadline : ℕ) → self.old ≡ state.Waiting deadline → deadline ≤ here.now → (result ≡ Ok true) × (self.new ≡ state.Done) × (timers.new ≡ timers.old) }
        ensures closing_new { (deadline : ℕ) → self.old ≡ state.Waiting deadline → here.now < deadline → here.closing ≡ true → (result ≡ Err error.Closed) × (self.new ≡ state.Done) × (timers.new ≡ timers.old) }
        ensures registers { (deadline : ℕ) → self.old ≡ state.Waiting deadline → here.now < deadline → here.closing ≡ false → OnOk result (Registers self.new timers.old timers.new here.worker deadline waker) × IfOk result (λ over. over ≡ false) × IfErr result (IsRefused self.old self.new timers.old timers.new) }
        ensures closing_old { (id : TimerName) → self.old ≡ state.Registered here.worker id → here.closing ≡ true → (result ≡ Err error.Closed) × (self.new ≡ state.Done) × (timers.new ≡ timers.old) }
        ensures waits { (id : TimerName) → self.old ≡ state.Registered here.worker id → here.closing ≡ false → (sleeper : Sleeping S) → value_at timers.old id.0 ≡ Some sleeper → (result ≡ Ok false) × (self.new ≡ self.old) × (timers.new ≡ written timers.old id.0 (record sleeper { observer = Local waker })) }
        ensures fired { (id : TimerName) → self.old ≡ state.Registered here.worker id → here.closing ≡ false → value_at timers.old id.0 ≡ None → (result ≡ Ok true) × (self.new ≡ state.Done) × (timers.new ≡ timers.old) }
        ensures stays_here { is_local self.old here.worker ≡ true → (post.new ≡ post.old) × (answer.new ≡ answer.old) }
        ensures asks { (at : ℕ) (id : TimerName) → self.old ≡ state.Registered at id → at ≢ here.worker → (timers.new ≡ timers.old) × Asks P.closed P.taken post.old post.new at id sender self.new answer.old answer.new result }
        ensures open { (at : ℕ) (id : TimerName) → self.old ≡ state.Registered at id → at ≢ here.worker → P.closed post.old ≡ true → (result ≡ Err error.Closed) × (self.new ≡ state.Done) × (answer.new ≡ answer.old) }
        ensures hears { (at : ℕ) (id : TimerName) → self.old ≡ state.Forwarded at id → (timers.new ≡ timers.old) × (post.new ≡ post.old) × (result ≡ heard (poll_answer answer.old)) × (self.new ≡ after_hearing self.old (poll_answer answer.old)) × (answer.new ≡ polled answer.old) }
    {
        if self.is_local(here.worker) {
            self.poll_here(alloc, waker, here, timers)
        } else {
            self.poll_elsewhere(sender, post, answer)
        }
    }

    /// Lets the sleep go by the worker `worker`: nothing comes of its sleeper any more. One of this worker is removed
    /// without a wake, and has `Closed` sent where it is forwarded. One of another worker is removed there, by a message
    /// that only a closed post refuses, since a worker that is gone has let all go. Nothing is to be done for a sleep
    /// without a sleeper.
    ///
    /// The caller must have reserved a place for that message, and made room for one wake and one completion. Stands
    /// for the drop of a sleep.
    pub fn release<S: Drop, P: Post<TimerMessage<S>>>(
        self,
        worker: u32,
        timers: &mut Timers<S>,
        notes: &mut Notes<S>,
        post: &mut P,
    )
        requires room { (id : TimerName) → sleeper_of self ≡ Some (worker, id) → HasRoom notes.old 1 }
        requires place { (at : ℕ) (id : TimerName) → sleeper_of self ≡ Some (at, id) → at ≢ worker → P.has_place post.old (Cancel id) }
        ensures removed { (id : TimerName) (sleeper : Sleeping S) → sleeper_of self ≡ Some (worker, id) → value_at timers.old id.0 ≡ Some sleeper → (timers.new ≡ removed timers.old id.0) × Adds notes.old notes.new [] (completions_of (Err error.Closed) sleeper.observer) }
        ensures gone { (id : TimerName) → sleeper_of self ≡ Some (worker, id) → value_at timers.old id.0 ≡ None → (timers.new ≡ timers.old) × Adds notes.old notes.new [] [] }
        ensures here { (id : TimerName) → sleeper_of self ≡ Some (worker, id) → post.new ≡ post.old }
        ensures elsewhere { (at : ℕ) (id : TimerName) → sleeper_of self ≡ Some (at, id) → at ≢ worker → (timers.new ≡ timers.old) × (notes.new ≡ notes.old) × Sends P.closed P.taken post.old post.new (Cancel id) }
        ensures over { sleeper_of self ≡ None → (timers.new ≡ timers.old) × (notes.new ≡ notes.old) × (post.new ≡ post.old) }
    {
        match self.sleeper() {
            Some((at, id)) if at == worker => timers.cancel(id, notes),
            Some((_, id)) => {
                let _sent = post.send(TimerMessage::Cancel(id));
            }
            None => {}
        }
        let Sleep { state: _over } = self;
    }

    /// The sleeper that it may have, with its worker's number. None where it has none yet, or is over.
    pub fn sleeper(&self) -> Option<(u32, TimerId)>
        ensures { result ≡ sleeper_of self.now }
    {
        match self.state {
            SleepState::Registered(at, id) | SleepState::Forwarded(at, id) => Some((at, id)),
            SleepState::Waiting(_) | SleepState::Done => None,
        }
    }

    /// A poll that needs no other worker.
    fn poll_here<S: Drop>(
        &mut self,
        alloc: Global,
        waker: TaskNo,
        here: Here,
        timers: &mut Timers<S>,
    ) -> Result<bool, Error>
        requires local { is_local self.old here.worker ≡ true }
        requires own { (id : TimerName) → self.old ≡ state.Registered here.worker id → is_forwarded (value_at timers.old id.0) ≡ false }
        ensures over { self.old ≡ state.Done → (result ≡ Ok true) × (self.new ≡ state.Done) × (timers.new ≡ timers.old) }
        ensures elapsed { (deadline : ℕ) → self.old ≡ state.Waiting deadline → deadline ≤ here.now → (result ≡ Ok true) × (self.new ≡ state.Done) × (timers.new ≡ timers.old) }
        ensures closing_new { (deadline : ℕ) → self.old ≡ state.Waiting deadline → here.now < deadline → here.closing ≡ true → (result ≡ Err error.Closed) × (self.new ≡ state.Done) × (timers.new ≡ timers.old) }
        ensures registers { (deadline : ℕ) → self.old ≡ state.Waiting deadline → here.now < deadline → here.closing ≡ false → OnOk result (Registers self.new timers.old timers.new here.worker deadline waker) × IfOk result (λ over. over ≡ false) × IfErr result (IsRefused self.old self.new timers.old timers.new) }
        ensures closing_old { (id : TimerName) → self.old ≡ state.Registered here.worker id → here.closing ≡ true → (result ≡ Err error.Closed) × (self.new ≡ state.Done) × (timers.new ≡ timers.old) }
        ensures waits { (id : TimerName) → self.old ≡ state.Registered here.worker id → here.closing ≡ false → (sleeper : Sleeping S) → value_at timers.old id.0 ≡ Some sleeper → (result ≡ Ok false) × (self.new ≡ self.old) × (timers.new ≡ written timers.old id.0 (record sleeper { observer = Local waker })) }
        ensures fired { (id : TimerName) → self.old ≡ state.Registered here.worker id → here.closing ≡ false → value_at timers.old id.0 ≡ None → (result ≡ Ok true) × (self.new ≡ state.Done) × (timers.new ≡ timers.old) }
    {
        match self.state {
            SleepState::Done => Ok(true),
            SleepState::Forwarded(_, _) => unreachable!(),
            SleepState::Waiting(deadline) if deadline <= here.now => Ok(self.finish()),
            SleepState::Waiting(_) | SleepState::Registered(_, _) if here.closing => {
                self.finish();
                Err(Error::Closed)
            }
            SleepState::Waiting(deadline) => {
                let id = timers.insert(alloc, deadline, waker)?;
                self.state = SleepState::Registered(here.worker, id);
                Ok(false)
            }
            SleepState::Registered(_, id) => match timers.refresh(id, waker) {
                Ok(_) => Ok(false),
                Err(_) => Ok(self.finish()),
            },
        }
    }

    /// A poll of a sleep whose sleeper is another worker's, or was so before.
    fn poll_elsewhere<S: Drop, P: Post<TimerMessage<S>>>(
        &mut self,
        sender: S,
        post: &mut P,
        answer: &mut OneShot<Result<(), Error>>,
    ) -> Result<bool, Error>
        requires made { (deadline : ℕ) → self.old ≡ state.Waiting deadline → ⊥ }
        requires not_over { self.old ≡ state.Done → ⊥ }
        requires place { (at : ℕ) (id : TimerName) → self.old ≡ state.Registered at id → P.has_place post.old (Forward id sender) }
        ensures asks { (at : ℕ) (id : TimerName) → self.old ≡ state.Registered at id → Asks P.closed P.taken post.old post.new at id sender self.new answer.old answer.new result }
        ensures open { (at : ℕ) (id : TimerName) → self.old ≡ state.Registered at id → P.closed post.old ≡ true → (result ≡ Err error.Closed) × (self.new ≡ state.Done) × (answer.new ≡ answer.old) }
        ensures hears { (at : ℕ) (id : TimerName) → self.old ≡ state.Forwarded at id → (post.new ≡ post.old) × (result ≡ heard (poll_answer answer.old)) × (self.new ≡ after_hearing self.old (poll_answer answer.old)) × (answer.new ≡ polled answer.old) }
    {
        match self.state {
            SleepState::Waiting(_) | SleepState::Done => unreachable!(),
            SleepState::Forwarded(_, _) => self.hear(answer),
            SleepState::Registered(at, id) => {
                if post.send(TimerMessage::Forward(id, sender)).is_err() {
                    self.finish();
                    return Err(Error::Closed);
                }
                self.state = SleepState::Forwarded(at, id);
                self.hear(answer)
            }
        }
    }

    /// Looks at the one-shot of a forwarded sleep.
    fn hear(&mut self, answer: &mut OneShot<Result<(), Error>>) -> Result<bool, Error>
        ensures heard { result ≡ heard (poll_answer answer.old) }
        ensures state { self.new ≡ after_hearing self.old (poll_answer answer.old) }
        ensures answer { answer.new ≡ polled answer.old }
    {
        match answer.poll() {
            Ok(None) => Ok(false),
            Ok(Some(result_sent)) => {
                self.finish();
                result_sent.map(|()| true)
            }
            Err(_) => {
                self.finish();
                Err(Error::Closed)
            }
        }
    }

    /// The sleep is over.
    fn finish(&mut self) -> bool
        ensures over { result ≡ true }
        ensures done { self.new ≡ state.Done }
    {
        self.state = SleepState::Done;
        true
    }
}
