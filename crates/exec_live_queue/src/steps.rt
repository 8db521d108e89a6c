//! The steps of a queue's owner, one atomic step each.
//!
//! A step names the table and the owner's seat there. `Tells` says that the seat is the same, and what
//! the step told it. Each takes the seat as the step before it left it: at rest, nothing is out with
//! the owner, and no overflow is under way.

ghost use Rattle.std.specs.Prelude.{◌≡◌, ◌+◌, ◌^◌, ◌<◌, ◌≤◌, min};
ghost use Rattle.exec_live_queue.specs.{Plays.{flows_over, laid, pops, pops_last, publishes, restores, returned}, Seats.{Rests, HasEmptied, HasFilled, FlowsOver, IsSeen, Tells}};

use crate::head::{gap_of, head_of, real_of};
use crate::plays::{FlowOver, GiveBack, Look, Pop, PopLast, Publish, Restore, TakeOne, TakeRoom};
use crate::view::{Place, Words};
use crate::{HEAD, SLOTS, TAIL};

/// Loads the head. The seat must be the owner's at rest.
pub fn look<T>(words: &Words<T>, seat: &mut Place<T>) -> u64
    requires { Rests words.now seat.old }
    ensures seen { IsSeen seat.new.me.0.own result }
    ensures laid { Tells (laid (λ room. 0)) seat.old 0 result seat.new }
{
    words.load::<Look>(seat, HEAD)
}

/// Loads the head, and takes the free slot behind the tail, if there is one. The seat must be the
/// owner's at rest.
pub fn take_one<T>(words: &Words<T>, seat: &mut Place<T>) -> u64
    requires { Rests words.now seat.old }
    ensures seen { IsSeen seat.new.me.0.own result }
    ensures laid { Tells (laid (λ room. min room 1)) seat.old 0 result seat.new }
{
    words.load::<TakeOne>(seat, HEAD)
}

/// Loads the head, and takes all free slots. The seat must be the owner's at rest.
pub fn take_room<T>(words: &Words<T>, seat: &mut Place<T>) -> u64
    requires { Rests words.now seat.old }
    ensures seen { IsSeen seat.new.me.0.own result }
    ensures laid { Tells (laid (λ room. room)) seat.old 0 result seat.new }
{
    words.load::<TakeRoom>(seat, HEAD)
}

/// Loads the head, and gives the slots that are out with the owner back. There must be one, and all must be empty.
pub fn give_back<T>(words: &Words<T>, seat: &mut Place<T>) -> u64
    requires { HasEmptied words.now seat.old }
    ensures seen { IsSeen seat.new.me.0.own result }
    ensures returned { Tells returned seat.old 0 result seat.new }
{
    words.load::<GiveBack>(seat, HEAD)
}

/// Pops the front value by an exchange of the head that was `seen`, and answers the head that it
/// found: `seen`, where it popped. The seat must be the owner's at rest, and `seen` the head that it
/// saw last, with a value.
pub fn pop_exchange<T>(words: &Words<T>, seat: &mut Place<T>, seen: u64) -> u64
    requires rests { Rests words.now seat.old }
    requires seen { IsSeen seat.old.me.0.own seen }
    requires value { seat.old.me.0.own.saw_real < seat.old.me.0.own.tail }
    ensures { Tells pops seat.old seen result seat.new }
{
    let gap = gap_of(seen);
    // Beside a claim the gap grows.
    let next = head_of(real_of(seen) + 1, gap + gap.min(1));
    words.compare_exchange::<Pop>(seat, HEAD, seen, next)
}

/// Pops a lone value by a store of the head. The seat must be the owner's at rest, and `seen` the head
/// that it saw last, with one value and no claim.
pub fn pop_last<T>(words: &Words<T>, seat: &mut Place<T>, seen: u64)
    requires rests { Rests words.now seat.old }
    requires seen { IsSeen seat.old.me.0.own seen }
    requires unclaimed { seat.old.me.0.own.saw_gap ≡ 0 }
    requires lone { seat.old.me.0.own.saw_real + 1 ≡ seat.old.me.0.own.tail }
    ensures { Tells pops_last seat.old 0 0 seat.new }
{
    words.store::<PopLast>(seat, HEAD, head_of(real_of(seen) + 1, 0));
}

/// Begins an overflow by an exchange of the head that was `seen`, and answers the head that it found: `seen`, where
/// it began. The seat must be the owner's at rest, and `seen` the head that it saw last, of a full queue without a claim,
/// which isn't spent.
#[cold]
#[inline(never)]
pub fn flow_over<T>(words: &Words<T>, seat: &mut Place<T>, seen: u64) -> u64
    requires rests { Rests words.now seat.old }
    requires seen { IsSeen seat.old.me.0.own seen }
    requires unclaimed { seat.old.me.0.own.saw_gap ≡ 0 }
    requires full { seat.old.me.0.own.saw_real + 256 ≡ seat.old.me.0.own.tail }
    requires unspent { seat.old.me.0.own.tail + 512 ≤ 2 ^ 55 }
    ensures { Tells flows_over seat.old seen result seat.new }
{
    let next = head_of(real_of(seen) + SLOTS, 0);
    words.compare_exchange::<FlowOver>(seat, HEAD, seen, next)
}

/// Shows the values that the owner wrote behind the others, by a store of the tail that is one past
/// the last of them, and gives back the slots that it left empty. The caller must give that tail, and
/// have filled the slots behind the others in order, in the middle of no overflow.
pub fn publish<T>(words: &Words<T>, seat: &mut Place<T>, tail: u64)
    requires { HasFilled words.now seat.old tail }
    ensures { Tells publishes seat.old 0 0 seat.new }
{
    words.store::<Publish>(seat, TAIL, tail);
}

/// Ends an overflow: shows the half that was kept aside, by a store of the tail that is one past the last of it. The
/// caller must have begun one, and give that tail.
pub fn restore<T>(words: &Words<T>, seat: &mut Place<T>, tail: u64)
    requires flows_over { FlowsOver words.now seat.old }
    requires tail { tail ≡ seat.old.me.0.own.tail + 128 }
    ensures { Tells restores seat.old 0 0 seat.new }
{
    words.store::<Restore>(seat, TAIL, tail);
}
