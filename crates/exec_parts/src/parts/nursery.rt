//! Where a worker is kept that a step has made, until it stands among the others.
//!
//! A step of a worker can't touch the list of workers. Whoever has that makes room in it before the step, and takes the
//! new worker into it afterwards.

ghost use Rattle.std.specs.Prelude.{◌≡◌, None};

use crate::parts::worker::Worker;

/// A worker that was made, and whether one may be.
#[derive(Drop)]
pub struct Nursery {
    /// Whether there is room for one more worker.
    pub has_room: bool,
    /// The worker that was made.
    pub born: Option<Worker>,
}

impl Nursery {
    /// None was made yet. Whether one may be is for the caller to say, who has the list of workers.
    pub fn new(has_room: bool) -> Self
        ensures { result ≡ record { has_room = has_room; born = None } }
    {
        Nursery {
            has_room,
            born: None,
        }
    }
}
