//! What a task runs.
//!
//! A body is a state that a poll of its task steps: it is told what came of its last act (`Said`), and answers its next
//! one (`Act`). Who polls carries the act out, and steps it again, until the body is through, or the act leaves it
//! waiting; then the next poll goes on from there. A body sees of its worker what `Around` shows, and nothing else: it
//! makes no request, spawns nothing and wakes nobody by itself.
//!
//! What a body means is a relation (`gives`) between what it is left to do, what it is told and what it sees, and the
//! act that it makes and what is left then. Code over any body is proved by that relation alone.

ghost use Rattle.std.specs.Prelude.{◌≡◌, ℕ, Option, IfSome, IfOk, IfErr, OnErr, nat_lt, option_map, slice_get};
ghost use Rattle.exec_outcomes.specs.Accounts.{is_dirty};
ghost use Rattle.exec_task.specs.{declared.body.Act.Act, declared.body.Said.Said, Sight.Sight, Sight.WouldGrow, Sight.open_at, Sight.peers_at, Sight.peer_taken, Sight.bind_answer, Sight.bound};

use exec_base::error::Error;
use exec_base::task_no::TaskNo;
use exec_request::output::RequestOutput;
use exec_request::request::Request;
use std::alloc::Global;

/// What a body is told at a step.
#[derive(Debug, Drop)]
pub enum Said {
    /// Its first poll begins.
    Start,
    /// Its request was made, and has this number.
    Admitted(u32),
    /// The request that it waited for is over, with this answer.
    Output(RequestOutput),
    /// It has slept.
    Slept,
    /// Its task was made, and has this number.
    Spawned(TaskNo),
    /// Its act came to nothing: `Closed` on a closing worker or a closed task set, `NoMemory` where
    /// a growth was refused, `Full` where there are no numbers left.
    Refused(Error),
    /// Nothing: it goes on.
    Pass,
}

/// What a body does next.
#[derive(Drop)]
pub enum Act<B> {
    /// Makes a request. Told by `Admitted`, or `Refused`.
    Register(Request),
    /// Waits for the request of this number, told by `Output`; with no number for a wake alone, told by `Pass`.
    Await(Option<u32>),
    /// Lets go of the request of this number. Told by `Pass`.
    Drop(u32),
    /// Sleeps for so many nanoseconds. Told by `Slept`; by `Pass` where it doesn't sleep at all.
    Sleep(u64),
    /// Makes a task of this body. Told by `Spawned`, or `Refused`.
    Spawn(B),
    /// Makes a task of this body, with a worker of its own. Told by `Spawned`, or `Refused`.
    Dedicated(B),
    /// Wakes a task. Told by `Pass`.
    Wake(TaskNo),
    /// Lets others go first. Told by `Pass`, at the next poll.
    Yield,
    /// Is through, with this result.
    Done(u64),
    /// Is through, with this fault.
    Fault(u64),
}

/// How a task ended.
#[derive(Clone, Copy, Debug, PartialEq, Eq)]
pub enum Ended {
    /// Its body was through, with this result.
    Done(u64),
    /// Its body was through, with this fault.
    Fault(u64),
    /// It was cleared, or never ran: its task set was closed.
    Closed,
}

/// What a body sees of the worker that polls it. Files and listeners go by their numbers.
pub trait Around {
    // What can be seen, where that is known. A live worker's opens change under other hands.
    ghost sees: { Self → Option Sight };

    /// The worker's sampled moment in nanoseconds.
    fn now(&self) -> u64
        ensures { IfSome (sees self.now) (λ s. result ≡ s.moment) };

    /// The failure that the record of the file's open keeps.
    fn failure(&self, file: u32) -> Option<Error>
        ensures { IfSome (sees self.now) (λ s. result ≡ (open_at s file).failure) };

    /// Whether the record of the file's open has a change that no sync covers.
    fn is_dirty(&self, file: u32) -> bool
        ensures { IfSome (sees self.now) (λ s. result ≡ is_dirty (open_at s file)) };

    /// How many changes of the file a sync that is made now will cover.
    fn begin_sync(&self, file: u32) -> u64
        ensures { IfSome (sees self.now) (λ s. result ≡ (open_at s file).mutations) };

    /// Whether there is, or was, a task of this number.
    fn has_task(&self, task: TaskNo) -> bool
        ensures { IfSome (sees self.now) (λ s. result ≡ nat_lt task.0 s.tasks) };

    /// Whether the pool is stopped.
    fn is_stopped(&self) -> bool
        ensures { IfSome (sees self.now) (λ s. result ≡ s.stopped) };

    /// Takes the peer that has waited longest at the listener, and answers the number of its
    /// socket. None where none waits.
    fn peer(&mut self, listener: u32) -> Option<u32>
        ensures first { IfSome (sees self.old) (λ s. result ≡ slice_get (peers_at s listener) 0) }
        ensures taken { sees self.new ≡ option_map (λ s. peer_taken s listener) (sees self.old) };

    /// Binds the listener. `BindFailed` exactly where the number is no listener, or it is bound.
    fn bind(&mut self, listener: u32) -> Result<(), Error>
        ensures answer { IfSome (sees self.old) (λ s. result ≡ bind_answer s listener) }
        ensures bound { sees self.new ≡ option_map (λ s. bound s listener) (sees self.old) };
}

/// What a task runs: a state that is stepped by hand.
pub trait Body {
    /// What is left to do, for proofs alone.
    type Left;

    ghost left: { Self → Self.Left };

    // The body is left with the first, sees the second and is told the third: it makes this act,
    // and from then on is left with the fifth and sees the last.
    ghost gives: { Self.Left → Option Sight → Said → Act Self → Self.Left → Option Sight → Type 0 };

    // What its spawn shows.
    ghost name_of: { Self.Left → ℕ };

    /// What the event of its spawn shows: the number of its script.
    fn name(&self) -> u32
        ensures { result ≡ name_of (left self.now) };

    /// The next act, once the body is told what came of the last. It takes memory only where the act is a `Register`,
    /// `Spawn` or `Dedicated`. Where there is none it gives back what it was told, and body and worker are as before: who
    /// polls keeps that, and the body is told it again at its next step.
    fn step<A: Around>(
        &mut self,
        alloc: Global,
        around: &mut A,
        said: Said,
    ) -> Result<Act<Self>, Said>
        ensures act { IfOk result (λ act. gives (left self.old) (A.sees around.old) said act (left self.new) (A.sees around.new)) }
        ensures back { IfErr result (λ back. back ≡ said) }
        ensures grows { OnErr result (WouldGrow gives (left self.old) (A.sees around.old) said) }
        ensures kept { OnErr result (self.new ≡ self.old) }
        ensures seen { OnErr result (A.sees around.new ≡ A.sees around.old) };
}
