//! The ring of a worker: how its requests reach the kernel, and how their results come back.
//!
//! A driver puts an entry into the submission queue with `stage`: the window of an operation, the cancel of one, or
//! the wake poll. With `enter` the kernel takes all entries in, in their order, or none where it is busy. What is over
//! comes back with `reap`, in the order in which it came: a completion for each operation, one for each cancel, which
//! only says that it was taken in, and one for each wake. The wake poll stays in the kernel until a wake completion
//! says that there are no more; then it must be staged again before a worker may wait on its ring.
//!
//! The submission queue never holds more than its size: the caller looks at `room` first, and enters a full queue
//! before it stages more. The caller must have made room, by `reserve`, for each entry that is staged and not yet
//! reaped, so no other call takes memory. A request keeps what was reserved for it from one operation to the next. With
//! `release` the place of an entry is given up once no request needs it, and the room for bytes where a request is
//! refused its admission; what a request leaves of that when it is over is its owner's to give back (`Store::release`).
//!
//! A clause sees a ring by its `state`. What lands within an enter is `landings`: nothing in a ring whose kernel is
//! told what to do, and some operations in one that ends them by itself, each with a result that its window allows.

ghost use Rattle.std.specs.Prelude.{◌≡◌, ◌+◌, ◌-◌, ◌^◌, ◌<◌, List, length, IsTrue, OnOk, OnErr};
ghost use Rattle.exec_ring.specs.{Rings.{RingState, taken_places}, Kernels.{Landing, with_entry, may_have, answer_of_enter, entered_with, next_completion, reaped, is_quiet as has_no_completion, with_wake, MayAllLand, all_taken}, Stores.{Same, Reserves, Releases}};

use crate::completion::{Completion, UserData};
use crate::store::Store;
use exec_request::window::Window;
use std::alloc::{AllocError, Global};

/// What an enter did.
#[derive(Clone, Copy, Debug, PartialEq, Eq)]
pub enum Entered {
    /// The kernel took all entries, which were so many.
    Taken(usize),
    /// The kernel was busy, and took none.
    Busy,
}

/// The ring of a worker.
pub trait Ring {
    // The ring as clauses see it.
    ghost state: { Self → RingState };

    // The operations that end within the next enter once it took its entries in, in their order.
    ghost landings: { Self → List Landing };

    /// Puts an entry into the submission queue. The caller must have looked at `room`, and have made room for the
    /// entry by `reserve`. The wake poll has the user data `WAKE_USER_DATA`, a cancel `CANCEL_USER_DATA`, and an operation
    /// neither.
    fn stage(&mut self, window: Window, user_data: UserData)
        requires room { length (state self.old).staged < (state self.old).size }
        requires place { taken_places (state self.old) < (state self.old).places }
        requires own { IsTrue (may_have window.kind user_data) }
        ensures { state self.new ≡ with_entry (state self.old) window user_data };

    /// The kernel takes all entries in, or none where it is busy.
    fn enter(&mut self) -> Entered
        ensures answer { result ≡ answer_of_enter (state self.old) }
        ensures after { state self.new ≡ entered_with (landings self.old) (state self.old) };

    /// Takes out the first completion. None where there is none.
    fn reap(&mut self) -> Option<Completion>
        ensures answer { result ≡ next_completion (state self.old) }
        ensures after { state self.new ≡ reaped (state self.old) };

    /// The first completion, which stays there. None where there is none.
    fn peek(&self) -> Option<Completion>
        ensures { result ≡ next_completion (state self.now) };

    /// Whether no completion is there, so that `reap` would answer None.
    fn is_quiet(&self) -> bool
        ensures { result ≡ has_no_completion (state self.now) };

    /// Raises a wake: a completion that is there at once where the kernel has the wake poll, and else as soon as it
    /// has.
    fn raise(&mut self)
        ensures { state self.new ≡ with_wake (state self.old) };

    /// How many more entries the submission queue has room for.
    fn room(&self) -> usize
        ensures { result + length (state self.now).staged ≡ (state self.now).size };

    /// Makes room for one more entry until its completion is reaped, and in the store for the bytes of its window. An
    /// `Err` comes only for want of memory, and changes nothing. The caller must have a window that ends within what
    /// 64 bits can say.
    fn reserve(
        &mut self,
        alloc: Global,
        window: Window,
        store: &mut Store,
    ) -> Result<(), AllocError>
        requires { window.offset + window.length < 2 ^ 64 }
        ensures ok { OnOk result (state self.new ≡ record (state self.old) { places = (state self.old).places + 1 }) }
        ensures stored { OnOk result (Reserves window store.old store.new) }
        ensures err { OnErr result (state self.new ≡ state self.old) }
        ensures same { OnErr result (Same store.old store.new) };

    /// Gives up the room for an entry that `reserve` made, and in the store for the bytes of its window. The caller
    /// must have had it, and no entry in it.
    fn release(&mut self, window: Window, store: &mut Store)
        requires { taken_places (state self.old) < (state self.old).places }
        ensures ring { state self.new ≡ record (state self.old) { places = (state self.old).places - 1 } }
        ensures store { Releases window store.old store.new };

    // What lands within an enter may land.
    ghost may_land: { (r : Self) → MayAllLand (landings r) (all_taken (state r)) };
}
