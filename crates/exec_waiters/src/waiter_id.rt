//! The names of requests, and the numbers by which a ring knows their operations.
//!
//! A request has one id from its admission until its result was taken. An operation goes into a ring under the id's
//! user data, which has the index and the low half of the generation. That is enough: while the operation is under way
//! its request keeps the slot, so the slot tells the whole id.

ghost use Rattle.std.specs.Prelude.{◌≡◌};
ghost use Rattle.exec_waiters.specs.Ids.{user_data_of};

use exec_base::slab::Id;
use exec_ring::completion::UserData;

/// The name of a request of a worker. Ports `WaiterId`.
#[derive(Clone, Copy, Debug, PartialEq, Eq)]
pub struct WaiterId(pub Id);

impl WaiterId {
    /// The user data of the request's operations: the generation modulo 2^32, and the index below it. Ports
    /// `user_data`.
    pub fn user_data(self) -> UserData
        ensures { result ≡ user_data_of self.0 }
    {
        (self.0.generation % 0x1_0000_0000) * 0x1_0000_0000 + u64::from(self.0.index)
    }
}
