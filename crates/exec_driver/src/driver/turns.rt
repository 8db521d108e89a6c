//! A whole service, and a whole wait on the ring, made of their steps.
//!
//! A service goes through these in order: what completed is reaped; what is due is told, and cancelled where the kernel
//! has it; deadlines are enrolled; permits are granted; what may be staged is staged; the kernel takes it in; and what
//! completed by then is reaped. A worker's own loop makes the same steps one by one.
//!
//! Afterwards no completion is there, and no deadline is due or to be enrolled. No cancel waits either, unless the
//! kernel was busy. What may still wait to be staged is a request that goes on, one beyond as many as the ring has
//! entries, and what a busy kernel left. Each step ends a request or none and tells of one end at most, so the room that
//! was there for the ends of all requests is there for those that are left.

ghost use Rattle.std.specs.Prelude.{◌≡◌, ℕ, ◌<◌, ◌≤◌, ◌&&◌, ◌||◌, ◌==◌, not, [], true, false, IsTrue};
ghost use Rattle.exec_ring.specs.Kernels.{is_quiet};
ghost use Rattle.exec_time.specs.Wheel.{IsWithinReach};
ghost use Rattle.exec_waiters.specs.States.{pending_count};
ghost use Rattle.exec_opens.specs.Opens.{next_at, with_open, passed};
ghost use Rattle.exec_driver.specs.{Driving.{seen, is_full, may_stage_one}, Punctual.IsPunctual, Placed.Says, Sound.IsSound, Service.{Repeats, ReapsOne, ExpiresOne, EnrolsOne, GrantsAt, GrantsAll, StagesOneEntry, StagesAll, ServesInOrder, is_unstaged, Parks, reached, entered_if}, Steps.with_landings, Turns.{CanTell, GoesOn, Serves, StaysDone, IsStaged, unstaged, unreaped, may_wait, made_way, must_enter, finds_busy, is_after, is_calm, is_taken, PassesTo}};
ghost use Rattle.exec_lists.specs.Lists.{has_first};

use super::Driver;
use super::reaping::Reaped;
use super::staging::Granted;
use crate::armed::{Armed, Signals};
use exec_opens::opens::Opens;
use exec_ring::ring::{Entered, Ring};
use exec_waiters::deferred::Deferred;

impl<R: Ring + Drop, S: Drop, F: Drop> Driver<R, S, F> {
    /// Serves the requests at the moment `now`: takes completions in, tells what is due, enrols deadlines, grants
    /// permits, stages cancels and requests, and lets the kernel work. Whose permit comes next is signalled. Each of these
    /// goes on until nothing is left of it, but for what the kernel has completed or a permit allows only later.
    ///
    /// Answers whether it left its last enter out: where `defer` is set, requests stand, and neither is anything to
    /// be told nor a submission pending.
    ///
    /// The caller must have told what was due, have a ring that takes an entry at all, and have a punctual driver: each
    /// deadline in its wheel is due or ahead there, as a new one has it and each call keeps it. `worker` must be the
    /// number under which its requests joined the lines of their opens. What is to be told must have room for the end
    /// of each request and for one more: `admit` makes it, and before the first request the caller must, by
    /// `Deferred::reserve`. Ports `service`.
    pub fn service<W: Signals>(
        &mut self,
        worker: u32,
        now: u64,
        defer: bool,
        opens: &mut Opens,
        deferred: &mut Deferred<S, F>,
        workers: &mut W,
    ) -> bool
        requires room { CanTell (seen self.old) deferred.old }
        requires punctual { IsPunctual (seen self.old) }
        requires told { has_first (seen self.old).lists.due ≡ false }
        requires ring { 0 < (seen self.old).ring.size }
        ensures serves { Serves (seen self.old) (seen self.new) deferred.old deferred.new }
        ensures reaped { is_quiet (seen self.new).ring ≡ true }
        ensures told { has_first (seen self.new).lists.due ≡ false }
        ensures enrolled { has_first (seen self.new).lists.enrolments ≡ false }
        ensures cancelled { (seen self.old).ring.busy ≡ false → has_first (seen self.new).lists.cancels ≡ false }
        ensures steps { ServesInOrder worker now defer result (reached (seen self.old) opens.old deferred.old (W.signalled workers.old)) (reached (seen self.new) opens.new deferred.new (W.signalled workers.new)) }
        ensures put_off { IsTrue result → IsTrue defer }
        ensures stand { IsTrue result → (pending_count (seen self.new).requests == 0) ≡ false }
    {
        self.sound();
        self.reap_all(opens, deferred, workers);
        self.sound();
        self.advance(now);
        self.sound();
        self.expire_all(deferred);
        self.enrol_all(now, deferred);
        self.grant_all(worker, opens, deferred, workers);
        self.stage_all(opens);
        let enters = self.must_enter(defer, deferred);
        self.enter_if(enters);
        self.sound();
        self.reap_all(opens, deferred, workers);
        self.is_put_off(enters)
    }

    /// Whether a service has to let the kernel work at its end: requests stand, and it isn't to be put off, or
    /// something is to be told, or a submission is pending.
    pub fn must_enter(&self, defer: bool, deferred: &Deferred<S, F>) -> bool
        ensures { result ≡ must_enter (seen self.now) defer deferred.now }
    {
        !self.is_empty() && (!defer || !deferred.is_empty() || self.has_pending_submissions())
    }

    /// Whether a worker that entered its ring may sleep: no completion is there, its deadline is after `now`, and the
    /// kernel has all that was staged. What a busy kernel left couldn't wake it, so it has to enter again.
    pub fn may_sleep(&self, now: u64, deadline: Option<u64>) -> bool
        ensures { result ≡ (is_after now deadline && is_quiet (seen self.now).ring && is_taken (seen self.now)) }
    {
        let later = deadline.is_none_or(|deadline| deadline > now);
        later && self.ring.is_quiet() && self.ring.room() == self.limit
    }

    /// Makes ready to wait on the ring, having taken `processed` batches of messages, and enters it. Where it answers
    /// true the kernel has all that was staged and the word stays armed: the worker sleeps while `may_sleep` says so, and
    /// must disarm the word before it goes on. False just where it may not wait: a submission is pending, the wake poll
    /// has no room, the word had a signal or another batch, or the kernel was busy; then the word isn't armed. A signal
    /// that stood there is taken out where nothing was pending and the poll had room, so the caller must serve next; the
    /// batches are still to be taken. The caller must not wait already. Ports `park`.
    pub fn park<A: Armed>(&mut self, processed: u32, word: &mut A) -> bool
        requires unarmed { A.is_armed word.old ≡ false }
        ensures answer { result ≡ (may_wait (seen self.old) && (is_calm (A.is_signalled word.old) (A.is_caught_up word.old processed) && not (finds_busy (seen self.old)))) }
        ensures parks { Parks (is_calm (A.is_signalled word.old) (A.is_caught_up word.old processed)) (seen self.old) (seen self.new) }
        ensures waits { A.is_armed word.new ≡ result }
        ensures calm { IsTrue result → is_calm (A.is_signalled word.new) (A.is_caught_up word.new processed) ≡ true }
        ensures untouched { may_wait (seen self.old) ≡ false → word.new ≡ word.old }
        ensures signal { A.is_signalled word.new ≡ (A.is_signalled word.old && not (may_wait (seen self.old))) }
        ensures batches { (taken : ℕ) → A.is_caught_up word.new taken ≡ A.is_caught_up word.old taken }
        ensures armed { IsTrue result → (seen self.new).armed ≡ true }
        ensures entered { IsTrue result → (seen self.new).ring.staged ≡ [] }
        ensures same { seen self.new ≡ record (seen self.old) { ring = (seen self.new).ring; landings = (seen self.new).landings; armed = (seen self.new).armed } }
        ensures punctual { IsPunctual (seen self.old) → IsPunctual (seen self.new) }
    {
        self.sound();
        self.make_way();
        self.sound();
        if self.has_pending_submissions() {
            return false;
        }
        if !self.stage_wake_poll() {
            return false;
        }
        self.sound();
        let calm = word.arm(processed);
        let waits = self.enter_armed(calm, word);
        self.sound();
        disarm_unless(waits, word);
        waits
    }

    // Lets the kernel work, where the word stood calm, and answers whether it did. The worker waits from before then on:
    // who sends it something meanwhile must raise a wake in its ring.
    fn enter_armed<A: Armed>(&mut self, calm: bool, word: &A) -> bool
        requires armed { A.is_armed word.now ≡ true }
        ensures answer { result ≡ (calm && not (seen self.old).ring.busy) }
        ensures going { GoesOn (seen self.old) (seen self.new) }
        ensures entered { IsTrue calm → (seen self.old).ring.busy ≡ false → (seen self.new).ring.staged ≡ [] }
        ensures works { seen self.new ≡ with_landings (seen self.new) (entered_if calm (seen self.old)) }
        ensures same { seen self.new ≡ record (seen self.old) { ring = (seen self.new).ring; landings = (seen self.new).landings } }
    {
        let _armed = word;
        self.enter_if(calm)
    }

    // Lets the kernel work, where this is set. Answers whether it did: not where it was busy.
    fn enter_if(&mut self, enters: bool) -> bool
        ensures answer { result ≡ (enters && not (seen self.old).ring.busy) }
        ensures going { GoesOn (seen self.old) (seen self.new) }
        ensures entered { IsTrue enters → (seen self.old).ring.busy ≡ false → (seen self.new).ring.staged ≡ [] }
        ensures works { seen self.new ≡ with_landings (seen self.new) (entered_if enters (seen self.old)) }
        ensures same { seen self.new ≡ record (seen self.old) { ring = (seen self.new).ring; landings = (seen self.new).landings } }
        ensures done { StaysDone (seen self.old) (seen self.new) }
    {
        enters && matches!(self.enter(), Entered::Taken(_))
    }

    // Enters a full queue.
    fn make_way(&mut self)
        ensures { seen self.new ≡ with_landings (seen self.new) (made_way (seen self.old)) }
    {
        if self.is_full() {
            self.enter();
        }
    }

    // What holds of a driver between its calls, for a proof to see.
    fn sound(&self)
        ensures sound { IsSound (seen self.now) }
        ensures says { Says (seen self.now) }
        ensures reach { IsWithinReach (seen self.now).wheel }
        ensures tick { 0 < (seen self.now).wheel.tick }
        ensures slots { 0 < (seen self.now).wheel.slots }
    {
        let _lists = &self.lists;
    }

    // Takes all completions in that are there, and gives up the permits of those that are over.
    fn reap_all<W: Signals>(
        &mut self,
        opens: &mut Opens,
        deferred: &mut Deferred<S, F>,
        workers: &mut W,
    )
        requires room { CanTell (seen self.old) deferred.old }
        ensures serves { Serves (seen self.old) (seen self.new) deferred.old deferred.new }
        ensures done { StaysDone (seen self.old) (seen self.new) }
        ensures quiet { is_quiet (seen self.new).ring ≡ true }
        ensures reaps { Repeats ReapsOne (reached (seen self.old) opens.old deferred.old (W.signalled workers.old)) (reached (seen self.new) opens.new deferred.new (W.signalled workers.new)) }
    {
        'completions: while self.has_completion() {
            self.reap_one(opens, deferred, workers);
        }
    }

    // Takes the next completion in, and gives up the permit of a request that is over.
    fn reap_one<W: Signals>(
        &mut self,
        opens: &mut Opens,
        deferred: &mut Deferred<S, F>,
        workers: &mut W,
    )
        requires room { CanTell (seen self.old) deferred.old }
        ensures serves { Serves (seen self.old) (seen self.new) deferred.old deferred.new }
        ensures done { StaysDone (seen self.old) (seen self.new) }
        ensures reaps { ReapsOne (reached (seen self.old) opens.old deferred.old (W.signalled workers.old)) (reached (seen self.new) opens.new deferred.new (W.signalled workers.new)) }
        ensures fewer { is_quiet (seen self.old).ring ≡ false → unreaped (seen self.new).ring < unreaped (seen self.old).ring }
    {
        let reaped = self.reap(opens, deferred);
        self.sound();
        if let Some(
            Reaped {
                permit: Some(file),
                ..
            },
        ) = reaped
        {
            pass_on(file, opens, workers);
        }
    }

    // Tells all whose deadline has come.
    fn expire_all(&mut self, deferred: &mut Deferred<S, F>)
        requires room { CanTell (seen self.old) deferred.old }
        ensures serves { Serves (seen self.old) (seen self.new) deferred.old deferred.new }
        ensures told { has_first (seen self.new).lists.due ≡ false }
        ensures expires { Repeats ExpiresOne (seen self.old, deferred.old) (seen self.new, deferred.new) }
    {
        'due: while self.has_due() {
            self.sound();
            self.expire(deferred);
            self.sound();
        }
    }

    // Enrols all deadlines that are to be.
    fn enrol_all(&mut self, now: u64, deferred: &mut Deferred<S, F>)
        requires room { CanTell (seen self.old) deferred.old }
        requires punctual { IsPunctual (seen self.old) }
        requires told { has_first (seen self.old).lists.due ≡ false }
        ensures serves { Serves (seen self.old) (seen self.new) deferred.old deferred.new }
        ensures told { has_first (seen self.new).lists.due ≡ false }
        ensures enrolled { has_first (seen self.new).lists.enrolments ≡ false }
        ensures enrols { Repeats (EnrolsOne now) (seen self.old, deferred.old) (seen self.new, deferred.new) }
    {
        'enrolments: while self.has_enrolments() {
            self.sound();
            self.enrol(now, deferred);
            self.sound();
        }
    }

    // Grants the permit of each open at whose gate a request of this worker waits.
    fn grant_all<W: Signals>(
        &mut self,
        worker: u32,
        opens: &mut Opens,
        deferred: &mut Deferred<S, F>,
        workers: &mut W,
    )
        requires room { CanTell (seen self.old) deferred.old }
        ensures serves { Serves (seen self.old) (seen self.new) deferred.old deferred.new }
        ensures done { StaysDone (seen self.old) (seen self.new) }
        ensures grants { GrantsAll worker (reached (seen self.old) opens.old deferred.old (W.signalled workers.old)) (reached (seen self.new) opens.new deferred.new (W.signalled workers.new)) }
    {
        let mut from = 0;
        'gates: while let Some(file) = self.next_gate(from) {
            self.grant_one(worker, file, opens, deferred, workers);
            let Some(next) = file.checked_add(1) else {
                return;
            };
            from = next;
        }
    }

    // Grants the permit of an open, where a request of this worker has its turn there.
    fn grant_one<W: Signals>(
        &mut self,
        worker: u32,
        file: u32,
        opens: &mut Opens,
        deferred: &mut Deferred<S, F>,
        workers: &mut W,
    )
        requires room { CanTell (seen self.old) deferred.old }
        ensures serves { Serves (seen self.old) (seen self.new) deferred.old deferred.new }
        ensures done { StaysDone (seen self.old) (seen self.new) }
        ensures grants { GrantsAt worker file (reached (seen self.old) opens.old deferred.old (W.signalled workers.old)) (reached (seen self.new) opens.new deferred.new (W.signalled workers.new)) }
    {
        self.sound();
        let granted = self.grant(worker, file, opens, deferred);
        self.sound();
        if let Some(Granted { ended: Some(_), .. }) = granted {
            pass_on(file, opens, workers);
        }
    }

    // Stages all that may be staged, and enters a full queue, until an enter takes nothing.
    fn stage_all(&mut self, opens: &Opens)
        requires enrolled { has_first (seen self.old).lists.enrolments ≡ false }
        requires ring { 0 < (seen self.old).ring.size }
        ensures going { GoesOn (seen self.old) (seen self.new) }
        ensures done { StaysDone (seen self.old) (seen self.new) }
        ensures staged { (seen self.old).ring.busy ≡ false → IsStaged (seen self.new) }
        ensures full { is_full (seen self.new) ≡ false → IsStaged (seen self.new) }
        ensures stages { StagesAll opens.now (seen self.old) (seen self.new) }
    {
        'queues: while self.stage_some(opens) {
            let entered = self.enter();
            self.sound();
            match entered {
                Entered::Busy => return,
                Entered::Taken(_) => {}
            }
        }
    }

    // Stages until nothing is left, and then the wake poll, or until the queue is full. Answers whether it is full.
    fn stage_some(&mut self, opens: &Opens) -> bool
        requires enrolled { has_first (seen self.old).lists.enrolments ≡ false }
        ensures going { GoesOn (seen self.old) (seen self.new) }
        ensures done { StaysDone (seen self.old) (seen self.new) }
        ensures full { IsTrue result → is_full (seen self.new) ≡ true }
        ensures left { IsTrue result → is_unstaged (seen self.new) ≡ true }
        ensures staged { result ≡ false → IsStaged (seen self.new) }
        ensures stages { Repeats (StagesOneEntry opens.now) (seen self.old) (seen self.new) }
        ensures less { unstaged (seen self.new) ≤ unstaged (seen self.old) }
        ensures some { IsTrue result → is_full (seen self.old) ≡ false → unstaged (seen self.new) < unstaged (seen self.old) }
    {
        'entries: while self.has_cancels() || self.may_stage() {
            if self.is_full() {
                return true;
            }
            self.stage_one(opens);
        }
        let polled = self.stage_wake_poll();
        self.sound();
        !polled
    }

    // Stages the next cancel, or else the next request.
    fn stage_one(&mut self, opens: &Opens)
        requires room { is_full (seen self.old) ≡ false }
        requires some { (has_first (seen self.old).lists.cancels || may_stage_one (seen self.old)) ≡ true }
        requires enrolled { has_first (seen self.old).lists.enrolments ≡ false }
        ensures going { GoesOn (seen self.old) (seen self.new) }
        ensures done { StaysDone (seen self.old) (seen self.new) }
        ensures stages { StagesOneEntry opens.now (seen self.old) (seen self.new) }
        ensures fewer { unstaged (seen self.new) < unstaged (seen self.old) }
    {
        self.sound();
        if self.stage_cancel().is_none() {
            self.stage(opens);
            self.sound();
        } else {
            self.sound();
        }
    }
}

/// The worker waits no more, unless it still is to.
fn disarm_unless<A: Armed>(waits: bool, word: &mut A)
    requires armed { A.is_armed word.old ≡ true }
    ensures waits { A.is_armed word.new ≡ waits }
    ensures same { IsTrue waits → word.new ≡ word.old }
    ensures signal { A.is_signalled word.new ≡ (A.is_signalled word.old && waits) }
    ensures batches { (taken : ℕ) → A.is_caught_up word.new taken ≡ A.is_caught_up word.old taken }
{
    if !waits {
        word.disarm();
    }
}

/// The holder gives the permit of an open up, and the worker of the next holder is signalled.
fn pass_on<W: Signals>(file: u32, opens: &mut Opens, workers: &mut W)
    ensures opens { opens.new ≡ with_open opens.old file passed }
    ensures signalled { PassesTo (next_at opens.old file) (W.signalled workers.old) (W.signalled workers.new) }
{
    if let Some(next) = opens.leave(file) {
        workers.signal(next.worker);
    }
}
