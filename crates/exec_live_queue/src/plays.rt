//! What each step tells the seat that makes it. These types are for the proofs alone.

ghost use Rattle.std.specs.Prelude.{min};
ghost use Rattle.exec_live_queue.specs.Plays.{laid, returned, pops, pops_last, flows_over, publishes, restores, saw_head, saw_tail, claims, releases, newcomer};

use crate::view::View;
use atomic_table::{Play, Split};

/// The owner loads the head.
pub struct Look;

impl<T> Play<Option<T>, View<T>> for Look {
    ghost then = { laid (λ room. 0) };
}

/// The owner loads the head, and takes the free slot behind the tail, if there is one.
pub struct TakeOne;

impl<T> Play<Option<T>, View<T>> for TakeOne {
    ghost then = { laid (λ room. min room 1) };
}

/// The owner loads the head, and takes all free slots.
pub struct TakeRoom;

impl<T> Play<Option<T>, View<T>> for TakeRoom {
    ghost then = { laid (λ room. room) };
}

/// The owner loads the head, and gives its slots back, which are empty.
pub struct GiveBack;

impl<T> Play<Option<T>, View<T>> for GiveBack {
    ghost then = { returned };
}

/// The owner pops by an exchange of the head.
pub struct Pop;

impl<T> Play<Option<T>, View<T>> for Pop {
    ghost then = { pops };
}

/// The owner pops a lone value by a store of the head.
pub struct PopLast;

impl<T> Play<Option<T>, View<T>> for PopLast {
    ghost then = { pops_last };
}

/// A full queue flows over, by an exchange of the head.
pub struct FlowOver;

impl<T> Play<Option<T>, View<T>> for FlowOver {
    ghost then = { flows_over };
}

/// The owner shows what it wrote, by a store of the tail.
pub struct Publish;

impl<T> Play<Option<T>, View<T>> for Publish {
    ghost then = { publishes };
}

/// The owner shows the half that it kept aside, by a store of the tail.
pub struct Restore;

impl<T> Play<Option<T>, View<T>> for Restore {
    ghost then = { restores };
}

/// A thief loads the head.
pub struct SeeHead;

impl<T> Play<Option<T>, View<T>> for SeeHead {
    ghost then = { saw_head };
}

/// A thief loads the tail.
pub struct SeeTail;

impl<T> Play<Option<T>, View<T>> for SeeTail {
    ghost then = { saw_tail };
}

/// A thief claims, by an exchange of the head.
pub struct Claim;

impl<T> Play<Option<T>, View<T>> for Claim {
    ghost then = { claims };
}

/// A thief releases its claim, by an exchange of the head.
pub struct Release;

impl<T> Play<Option<T>, View<T>> for Release {
    ghost then = { releases };
}

/// A seat for one more thief.
pub struct Another;

impl<T> Split<View<T>> for Another {
    ghost left = { λ v. v };

    ghost right = { λ v. newcomer };
}
