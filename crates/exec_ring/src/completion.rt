//! What goes into a ring and what comes out of it.
//!
//! An entry of the submission queue is a window with the user data by which its completion is known. A
//! completion has that user data and a number: a count of bytes, or an error number with a minus before it.
//!
//! Two numbers are kept for what is no operation of a request: wakes, and acknowledgements of cancels. No
//! request has them, since the last slot of a worker's requests is never given.

ghost use Rattle.std.specs.Prelude.{◌≡◌, IsTrue, true};
ghost use Rattle.exec_outcomes.specs.Lawful.{is_lawful};
ghost use Rattle.exec_ring.specs.Completions.{number_of, result_in, is_wake, acknowledged, wake_completion};

use exec_outcomes::outcome::OpResult;
use exec_request::window::Window;

/// What tells one operation from another in a ring.
pub type UserData = u64;

/// The user data of the wake poll and of its completions.
pub const WAKE_USER_DATA: UserData = 0xffff_ffff_ffff_ffff;

/// The user data of every cancel, and so of its acknowledgement. Ports `CANCEL_USER_DATA`.
pub const CANCEL_USER_DATA: UserData = 0xffff_ffff;

/// The number that a wake completion has: the event that the poll waits for.
const WAKE_RESULT: i32 = 1;

/// An entry of a submission queue. Stands for a submission of the original.
#[derive(Clone, Copy, Debug, PartialEq, Eq)]
pub struct Submission {
    /// What is asked of the kernel.
    pub window: Window,
    /// What its completion is known by.
    pub user_data: UserData,
}

/// What the kernel tells of an operation that is over, or of a wake.
#[derive(Clone, Copy, Debug, PartialEq, Eq)]
pub struct Completion {
    /// What it is the completion of.
    pub user_data: UserData,
    /// A count of bytes, or an error number with a minus before it.
    pub result: i32,
    /// False in a wake completion that ended the wake poll, and in no other.
    pub more: bool,
}

/// A completion that was not reaped, and how many wakes came right before it.
#[derive(Clone, Copy, Debug, PartialEq, Eq)]
pub struct Posted {
    /// The wakes before it that left the wake poll where it was.
    pub wakes: u64,
    /// The completion.
    pub completion: Completion,
}

impl Completion {
    /// The completion of an operation. The caller must have a result that a kernel may give.
    pub fn new(user_data: UserData, given: OpResult) -> Completion
        requires { IsTrue (is_lawful 2147483647 given) }
        ensures { result ≡ record { user_data = user_data; result = number_of given; more = true } }
    {
        Completion {
            user_data,
            result: match given {
                OpResult::Count(count) => count as i32,
                OpResult::Errno(code) => -(code as i32),
            },
            more: true,
        }
    }

    /// A wake. Unless there is `more` to come, it ended the wake poll.
    pub fn wake(more: bool) -> Completion
        ensures { result ≡ wake_completion more }
    {
        Completion {
            user_data: WAKE_USER_DATA,
            result: WAKE_RESULT,
            more,
        }
    }

    /// That a cancel was taken in.
    pub fn acknowledgement(user_data: UserData) -> Completion
        ensures { result ≡ acknowledged user_data }
    {
        Completion {
            user_data,
            result: 0,
            more: true,
        }
    }

    /// Whether it is a wake.
    pub fn is_wake(self) -> bool
        ensures { result ≡ is_wake self }
    {
        self.user_data == WAKE_USER_DATA
    }

    /// What its number says.
    pub fn given(self) -> OpResult
        ensures { result ≡ result_in self.result }
    {
        if self.result < 0 {
            OpResult::Errno(u64::from(self.result.unsigned_abs()))
        } else {
            OpResult::Count(u64::from(self.result.unsigned_abs()))
        }
    }
}
