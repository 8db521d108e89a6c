//! Where the parts of a turn lead, and how those begin to which others lead: places, by what a worker has and by what it
//! just did. Who takes a step at such a place is the crate of its group.

ghost use Rattle.std.specs.Prelude.{◌≡◌, ◌<◌, ◌-◌, ◌^◌, ◌||◌, false, true, Option, ℕ};
ghost use Rattle.exec_parts.specs.{Words.{Configuration, after_send as place_after_send, after_visit, cancels_left, first_pop as place_of_pop, has_mail, next_pick as place_of_pick, serve as place_of_service, tells_from}, Tests.{first_load_of, after_callbacks_of, next_callback_of, after_leave_of, after_return_of, leave_of, has_put_off, leaves_turn_of, after_waiting_of, place_withdrawn, first_push_of, ring_wait_of, HasToldDue, IsNextMoment, word_wait_of}, View.{desk_of, letters_in}};

use crate::parts::worker::Worker;
use exec_moves::handing::{
    AfterCallbacks, AfterCancels, AfterKick, AfterLeave, AfterPop, AfterPush, AfterSend, InGlobal,
    InKick, InPop, InPush,
};
use exec_moves::idling::{AfterWait, InLook, InRingWait, InScan, InWordWait, Stay};
use exec_moves::place::{
    AfterService, Found, InCallbacks, InClosing, InLoads, InPick, InPoll, InService, Place, Round,
    Service,
};
use exec_task::drain::Drain;
use exec_words::word::PureWord;

impl Worker {
    /// The next item of the batch, or where the callbacks lead.
    pub fn next_callback(&self, next: AfterCallbacks) -> Place
        ensures { result ≡ next_callback_of next self.now }
    {
        if self.has_callbacks() {
            Place::Callbacks(InCallbacks::CallBack, next)
        } else {
            self.after_callbacks(next)
        }
    }

    /// Where the callbacks lead once all are made.
    pub fn after_callbacks(&self, next: AfterCallbacks) -> Place
        ensures { result ≡ after_callbacks_of next self.now }
    {
        match next {
            AfterCallbacks::Look => self.first_load(Round::First),
            AfterCallbacks::Test => self.first_load(Round::Second),
            AfterCallbacks::Begin => Place::BeginTurn,
            AfterCallbacks::Drain => serve(AfterService::Finish),
            AfterCallbacks::Finish if self.has_requests() => self.ring_wait(Stay::Closing),
            AfterCallbacks::Finish => Place::Closing(InClosing::End),
        }
    }

    /// Goes on to this, once the search count is returned where the worker holds one.
    pub fn leave(&self, back: AfterLeave) -> Place
        ensures { result ≡ leave_of back self.now }
    {
        if self.searching {
            Place::LeaveSearch(back)
        } else {
            self.after_leave(back)
        }
    }

    /// What follows a returned count: a kick where it was the last.
    pub fn after_return(&self, last: bool, back: AfterLeave) -> Place
        ensures { result ≡ after_return_of last back self.now }
    {
        if last {
            Place::Kick(InKick::LoadKickCount, AfterKick::Leave(back))
        } else {
            self.after_leave(back)
        }
    }

    /// Where a worker goes that holds no search count any more.
    pub fn after_leave(&self, back: AfterLeave) -> Place
        ensures { result ≡ after_leave_of back self.now }
    {
        match back {
            AfterLeave::Poll { task } => Place::Poll(task, InPoll::BeginPoll),
            AfterLeave::CallBack { next } => Place::Callbacks(InCallbacks::CallBack, next),
            AfterLeave::Begin if self.has_put_off() => serve(AfterService::Begin),
            AfterLeave::Begin => Place::BeginTurn,
        }
    }

    // The first of the loads. A dedicated worker has no queues to look at.
    fn first_load(&self, round: Round) -> Place
        ensures { result ≡ first_load_of round self.now }
    {
        if self.role.is_pool() {
            Place::Loads(InLoads::LoadOwnHead, round)
        } else {
            let found = Found { ready: false };
            Place::Loads(InLoads::LoadOwnWord { found }, round)
        }
    }

    /// Whether a batch of messages was published that it hasn't taken. The caller must know that it has taken fewer than
    /// 2^29, which wake words count.
    pub fn has_mail(&self, word: &PureWord) -> bool
        requires processed { self.now.processed < 2 ^ 29 }
        ensures { result ≡ has_mail (desk_of self.now) word.now }
    {
        word.pending(self.processed)
    }

    // Whether the service of this turn put something off that is to be done.
    fn has_put_off(&self) -> bool
        ensures { result ≡ has_put_off self.now }
    {
        let pending = self.home.driver.has_pending_submissions();
        (self.put_off.enter && self.has_requests()) || (self.put_off.defer && pending)
    }

    /// The next turn: after the search that the worker leaves, where it holds a search count, and after what the
    /// service of this one has put off, where it has.
    pub fn next_turn(&self) -> Place
        ensures { result ≡ leaves_turn_of self.now }
    {
        self.leave(AfterLeave::Begin)
    }

    /// What follows a wait. A dedicated worker has no bit in the idle set to take out.
    pub fn after_waiting(&self, next: AfterWait) -> Place
        ensures { result ≡ after_waiting_of next self.now }
    {
        if self.role.is_pool() {
            Place::Withdraw(next)
        } else {
            self.after_withdrawal(false, next)
        }
    }

    /// What follows a withdrawal, by whether a claim came.
    pub fn after_withdrawal(&self, claimed: bool, next: AfterWait) -> Place
        ensures { result ≡ place_withdrawn claimed next self.now }
    {
        match (next, claimed) {
            (AfterWait::Begin, _) => Place::BeginTurn,
            (AfterWait::Serve, _) => serve(AfterService::Begin),
            (AfterWait::MakeUp { .. }, true) => self.next_turn(),
            (AfterWait::MakeUp { last }, false) => self.after_return(last, AfterLeave::Begin),
            (AfterWait::Search, true) => Place::Look(InLook::ReturnClaimed),
            (AfterWait::Search, false) => Place::Scan(InScan::LoadScanHead),
        }
    }

    /// The first step of the way of a runnable in the hand into a queue: a worker of the pool has its own, any other
    /// takes the global one.
    pub fn first_push(&self, back: AfterPush) -> Place
        ensures { result ≡ first_push_of back self.now }
    {
        if self.role.is_pool() {
            Place::Push(InPush::LoadPushHead, back)
        } else {
            Place::Global(InGlobal::Append, back)
        }
    }

    /// The first step of a wait on the ring. A full submission queue is entered first.
    pub fn ring_wait(&self, stay: Stay) -> Place
        ensures { result ≡ ring_wait_of stay self.now }
    {
        if self.home.driver.is_full() {
            Place::RingWait(InRingWait::EnterFullRing, stay)
        } else {
            Place::RingWait(InRingWait::TestRing, stay)
        }
    }

    /// The next message about what a task held that is over, or where they lead.
    pub fn after_cancels(&self, back: AfterCancels) -> Place
        ensures { result ≡ cancels_left back (desk_of self.now) (letters_in self.now.letters) }
    {
        match back {
            _ if !self.letters.is_empty() => Place::SendCancel(back),
            AfterCancels::Remove { task } => Place::Poll(task, InPoll::RemoveTask),
            AfterCancels::Pick => self.next_pick(),
            AfterCancels::Visit { drain } => Place::Closing(after_a_visit(drain)),
        }
    }

    /// Where a message leads.
    pub fn after_send(&self, back: AfterSend, workers: usize) -> Place
        ensures { (c : Configuration) → c.workers ≡ workers → result ≡ place_after_send c back (desk_of self.now) }
    {
        match back {
            AfterSend::Act { task } => Place::Poll(task, InPoll::Act),
            AfterSend::Tell { worker } => tell_from(worker, workers),
            AfterSend::Pend { task } => Place::Poll(task, InPoll::Pend),
            AfterSend::Cancels(back) => self.after_cancels(back),
        }
    }

    /// The next pick, or where the turn has no more the root flag.
    pub fn next_pick(&self) -> Place
        ensures { result ≡ place_of_pick (desk_of self.now) }
    {
        if self.picks == 0 {
            Place::TakeRootFlag
        } else {
            Place::Pick(InPick::CountDown)
        }
    }

    /// The first step of a wait on the wake word: a look, where there is a budget for some and no deadline is near. The
    /// caller must have told all that is due.
    pub fn word_wait(&mut self, longest_spin: u64) -> Place
        requires told { HasToldDue self.old }
        ensures place { (moment : Option ℕ) × IsNextMoment self.old moment × (result ≡ word_wait_of longest_spin moment self.old) }
        ensures same { self.new ≡ self.old }
    {
        let left = self.spinner.budget();
        let read = self.moments.read;
        let next = self.next_moment();
        let is_near = next.is_some_and(|next| next.saturating_sub(read).div_ceil(1000)
            <= longest_spin);
        if left > 0 && !is_near {
            Place::WordWait(InWordWait::SpinOnBatch { left })
        } else {
            Place::WordWait(InWordWait::ArmWord)
        }
    }
}

/// The first step of a service that puts nothing off.
pub fn serve(back: AfterService) -> Place
    ensures { result ≡ place_of_service back }
{
    Place::Service(InService::Sample, Service { defer: false, back })
}

/// The next visit, or what follows the last.
pub fn after_a_visit(drain: Drain) -> InClosing
    ensures { result ≡ after_visit drain }
{
    if drain.is_over() {
        InClosing::LeaveBarrier
    } else {
        InClosing::Visit { drain }
    }
}

/// The first step of a pop, in a pool of so many workers.
pub fn first_pop(workers: usize, back: AfterPop) -> Place
    ensures { (c : Configuration) → c.workers ≡ workers → result ≡ place_of_pop c back }
{
    if workers > 1 {
        Place::Pop(InPop::LoadPopHead, back)
    } else {
        Place::Pop(InPop::PopAlone, back)
    }
}

/// The stop is told to the roots of all workers from this one on, and then the own run queue is emptied.
pub fn tell_from(worker: usize, workers: usize) -> Place
    ensures { (c : Configuration) → c.workers ≡ workers → result ≡ tells_from c worker }
{
    if worker < workers {
        Place::Closing(InClosing::TellRoot { worker })
    } else {
        first_pop(workers, AfterPop::Discard)
    }
}
