//! The steps of a thief, one atomic step each.

ghost use Rattle.std.specs.Prelude.{◌≡◌, ◌≢◌, ◌+◌, ◌/◌, ◌%◌, ◌^◌, ◌<◌, []};
ghost use Rattle.exec_live_queue.specs.{Numbers.{half, head_word}, Plays.{claims, newcomer, releases, saw_head, saw_tail}, declared.view.Stage.TheVariants.{Owns, SawHead, Claimed}, Seats.{IsAt, MayClaim, MayRelease, SameSeat, Tells}};

use crate::head::{GAPS, gap_of, real_of};
use crate::plays::{Another, Claim, Release, SeeHead, SeeTail};
use crate::view::{Place, Words};
use crate::{HEAD, TAIL};

/// Loads the head. The seat must be a thief's that holds no claim.
pub fn see_head<T>(words: &Words<T>, seat: &mut Place<T>) -> u64
    requires at { IsAt words.now seat.old }
    requires thief { seat.old.me.0.stage ≢ Owns }
    requires unclaimed { seat.old.me.0.stage ≢ Claimed }
    ensures { Tells saw_head seat.old 0 result seat.new }
{
    words.load::<SeeHead>(seat, HEAD)
}

/// Loads the tail. The seat must be a thief's that has loaded the head.
pub fn see_tail<T>(words: &Words<T>, seat: &mut Place<T>) -> u64
    requires at { IsAt words.now seat.old }
    requires head { seat.old.me.0.stage ≡ SawHead }
    ensures { Tells saw_tail seat.old 0 result seat.new }
{
    words.load::<SeeTail>(seat, TAIL)
}

/// Claims half of the values that the thief saw, by an exchange of the head that was `seen`, and
/// answers the head that it found: `seen`, where it claimed. The caller must have seen two values at
/// least and no claim, and give half of them, rounded down, as `count`; the label behind twice as many
/// must be below 2^55.
pub fn claim<T>(words: &Words<T>, seat: &mut Place<T>, seen: u64, count: u64) -> u64
    requires may { MayClaim words.now seat.old }
    requires seen { (seen / 512 ≡ seat.old.me.0.theft.at) × (seen % 512 ≡ 0) }
    requires half { count ≡ half seat.old.me.0.theft }
    requires small { seat.old.me.0.theft.at + count + count < 2 ^ 55 }
    ensures { Tells claims seat.old seen result seat.new }
{
    let next = real_of(seen) * GAPS + count * GAPS + count;
    words.compare_exchange::<Claim>(seat, HEAD, seen, next)
}

/// Releases the claim by an exchange of the head that was `seen`, and answers the head that it
/// found: `seen`, where it released. The caller must hold a claim, have emptied its slots, and give as
/// `seen` the head behind the claim, with the gap that the thief knows.
pub fn release<T>(words: &Words<T>, seat: &mut Place<T>, seen: u64) -> u64
    requires may { MayRelease words.now seat.old }
    requires seen { seen ≡ head_word (seat.old.me.0.theft.at + seat.old.me.0.theft.gap) seat.old.me.0.theft.gap }
    requires small { seat.old.me.0.theft.gap < 512 }
    ensures { Tells releases seat.old seen result seat.new }
{
    let next = seen - gap_of(seen);
    words.compare_exchange::<Release>(seat, HEAD, seen, next)
}

/// A seat for one more thief, split off any seat at this table.
pub fn another<T>(words: &Words<T>, seat: &mut Place<T>) -> Place<T>
    requires { IsAt words.now seat.old }
    ensures same { (SameSeat seat.old seat.new) × (seat.new.me ≡ seat.old.me) }
    ensures another { (result.table_id ≡ seat.old.table_id) × (result.me ≡ (newcomer, [])) }
{
    words.split_seat::<Another>(seat)
}
