//! What goes to the worker of a request or a sleeper, from who isn't there.
//!
//! A request and a sleeper stay with the worker that made them. Who waits elsewhere asks by a `Forward` to have the
//! result sent, once; who lets go elsewhere says so by a `Cancel`. The worker applies each message as it comes to it in
//! its mail. One that names what is over already changes nothing there, and is answered by what is known: a forward of
//! a sleeper that is gone by `Ok`, of a request by its output where that is kept, and else by `Closed`.

ghost use Rattle.std.specs.Prelude.{◌≡◌, ℕ, ◌+◌, ◌≤◌, OnOk, OnErr};
ghost use Rattle.exec_registration.specs.{Homes.{StaysPunctual, home_of}, Mail.{MayForward, Forwards, HasRoomFor, Cancels, IsUnheld}};

use exec_driver::home::Home;
use exec_ring::ring::Ring;
use exec_time::timers::TimerId;
use exec_waiters::waiter_id::WaiterId;
use std::alloc::{AllocError, Global};

/// Who waits is elsewhere: the result is to be sent. `S` is what the result of a sleeper is sent by, `F` what the
/// output of a request is sent by. Ports `Forward`.
#[derive(Drop)]
pub enum Forward<S, F> {
    /// That of this request.
    Waiter(WaiterId, F),
    /// That of this sleeper.
    Timer(TimerId, S),
}

/// Nobody waits any more. Ports `Cancel`.
#[derive(Clone, Copy, Debug, PartialEq, Eq)]
pub enum Cancel {
    /// For this request.
    Waiter(WaiterId),
    /// For this sleeper.
    Timer(TimerId),
}

/// The places for messages of registrations in the mail of a worker. Whoever registers makes one for the forward and one
/// for the cancel. The worker gives both up once the registration was let go and what it sent was applied.
pub trait Places {
    // For how many messages there are places.
    ghost places: { Self → ℕ };

    /// Makes places for `n` more messages. Err where there is no memory, and then nothing changes.
    fn reserve(&mut self, alloc: Global, n: usize) -> Result<(), AllocError>
        ensures made { OnOk result (places self.new ≡ places self.old + n) }
        ensures kept { OnErr result (places self.new ≡ places self.old) };

    /// Gives up places for `n` messages. The caller must have made them.
    fn release(&mut self, n: usize)
        requires made { n ≤ places self.old }
        ensures { places self.new + n ≡ places self.old };
}

impl<S: Drop, F: Drop> Forward<S, F> {
    /// Applies the message at its worker. The caller must have made room for one of each in what is to be told, and must
    /// know that a sleeper was not forwarded before.
    pub fn apply<R: Ring + Drop>(self, home: &mut Home<R, S, F>)
        requires may { MayForward (home_of home.old) self }
        ensures forwards { Forwards (home_of home.old) (home_of home.new) self }
        ensures punctual { StaysPunctual (home_of home.old) (home_of home.new) }
    {
        match self {
            Forward::Waiter(id, sender) => home.driver.forward(id, sender, &mut home.deferred),
            Forward::Timer(id, sender) => {
                home.timers.forward(id, sender, &mut home.deferred.notes);
            }
        }
    }
}

impl Cancel {
    /// Applies the message at its worker: from then on nobody holds the thing. The caller must have made room for two of
    /// each in what is to be told.
    #[tactic(auto, using(crate::proofs::Unheld::let_go_unheld))]
    pub fn apply<R: Ring + Drop, S: Drop, F: Drop>(self, home: &mut Home<R, S, F>)
        requires room { HasRoomFor (home_of home.old) self }
        ensures cancels { Cancels (home_of home.old) (home_of home.new) self }
        ensures unheld { IsUnheld (home_of home.new) self }
        ensures punctual { StaysPunctual (home_of home.old) (home_of home.new) }
    {
        match self {
            Cancel::Waiter(id) => home.driver.orphan(id, &mut home.deferred),
            Cancel::Timer(id) => home.timers.cancel(id, &mut home.deferred.notes),
        }
    }
}
