//! One try of a steal: half of the values of another queue move to the end of the thief's own.

ghost use Rattle.std.specs.Prelude.{◌≡◌, ◌+◌, ◌/◌, ◌%◌, ◌^◌, ◌<◌, ◌≤◌, ◌⊎◌, ℕ, List, [], length, replicate, None, IfSome, IfNone};
ghost use Rattle.exec_live_queue.specs.{Numbers.half, Plays.hand, Calls.{AfterSteal, HasKept, Fills, Empties}, Seats.{IsAt, IsThief, Rests, SameSeat, MayClaim, MayRelease}, declared.view.Stage.TheVariants.Idle};

use crate::HALF;
use crate::head::{gap_of, head_of, real_of};
use crate::slots::{put, take};
use crate::steps::{look, publish, take_room};
use crate::thief::{claim, release, see_head, see_tail};
use crate::view::{Place, Words};
use exec_words::SPENT;
use exec_words::head::Head;
use exec_words::queue::Steal;

/// Where a thief may be held up.
#[derive(Clone, Copy, Debug, PartialEq, Eq)]
pub enum Spot {
    /// It holds its claim, and has moved no value yet.
    Claimed,
}

/// What a thief does at a spot. What ships does nothing; a test lets others go on there.
pub trait Pause {
    /// Called between the claim and the release.
    fn at(&mut self, spot: Spot);
}

/// The pause that ships.
#[derive(Clone, Copy, Drop)]
pub struct NoPause;

impl Pause for NoPause {
    fn at(&mut self, _spot: Spot) {}
}

/// What a thief has seen that it may claim.
#[derive(Clone, Copy)]
pub(crate) struct Aim {
    /// The head.
    pub(crate) seen: u64,
    /// How many values.
    pub(crate) count: u64,
}

/// One try of a steal. The caller must give a thief's seat at the other queue, which holds no claim,
/// and the owner's seat of its own queue at rest, and the tail of that.
pub fn steal_once<T, P: Pause>(
    source: &Words<T>,
    from: &mut Place<T>,
    into: &Words<T>,
    seat: &mut Place<T>,
    tail: u64,
    pause: &mut P,
) -> Steal
    requires source { (IsAt source.now from.old) × IsThief from.old.me }
    requires into { Rests into.now seat.old }
    requires tail { tail ≡ seat.old.me.0.own.tail }
    ensures same { SameSeat from.old from.new × SameSeat seat.old seat.new }
    ensures rests { Rests into.now seat.new }
    ensures thief { IsThief from.new.me }
    ensures stolen { AfterSteal seat.old.me.0.own from.old.me.0.theft seat.new.me.0.own from.new.me.0.theft result }
{
    if tail >= SPENT {
        return Steal::Nothing;
    }
    let own = look(into, seat);
    if tail - real_of(own) + gap_of(own) > HALF {
        return Steal::Nothing;
    }
    let Some(aim) = take_aim(source, from) else {
        return Steal::Nothing;
    };
    let found = claim(source, from, aim.seen, aim.count);
    if found != aim.seen {
        let real = real_of(found);
        let gap = gap_of(found) as usize;
        return Steal::Again(Head { real, gap });
    }
    pause.at(Spot::Claimed);
    take_room(into, seat);
    let at = real_of(aim.seen);
    carry_over(source, from, into, seat, at, tail, aim.count);
    release_claim(source, from, at, aim.count);
    publish(into, seat, tail + aim.count);
    Steal::Moved(aim.count as usize)
}

/// Loads head and tail. None where a claim is held, or there are fewer than two values. The seat must
/// be a thief's that holds no claim.
pub(crate) fn take_aim<T>(source: &Words<T>, from: &mut Place<T>) -> Option<Aim>
    requires source { (IsAt source.now from.old) × IsThief from.old.me }
    ensures same { SameSeat from.old from.new }
    ensures thief { IsThief from.new.me }
    ensures kept { HasKept from.old.me.0.theft from.new.me.0.theft }
    ensures aim { IfSome result (λ a. MayClaim source.now from.new × (a.seen / 512 ≡ from.new.me.0.theft.at) × (a.seen % 512 ≡ 0) × (a.count ≡ half from.new.me.0.theft) × (from.new.me.0.theft.upto + 256 ≤ 2 ^ 55)) }
    ensures no_aim { IfNone result ((0 < from.new.me.0.theft.gap) ⊎ (from.new.me.0.theft.upto < from.new.me.0.theft.at + 2)) }
{
    let seen = see_head(source, from);
    if gap_of(seen) > 0 {
        return None;
    }
    let tail = see_tail(source, from);
    if tail < real_of(seen) + 2 {
        return None;
    }
    let count = (tail - real_of(seen)) / 2;
    Some(Aim { seen, count })
}

// Releases a claim: each failure shows a wider gap, since the owner popped past the claim.
#[tactic(auto, using(crate::proofs::Looks::gap_of_word))]
fn release_claim<T>(words: &Words<T>, seat: &mut Place<T>, at: u64, count: u64)
    requires may { MayRelease words.now seat.old }
    requires claimed { (at ≡ seat.old.me.0.theft.at) × (count ≡ seat.old.me.0.theft.gap) }
    requires small { (at + count < 2 ^ 55) × (count ≤ 128) }
    ensures same { SameSeat seat.old seat.new }
    ensures kept { HasKept seat.old.me.0.theft seat.new.me.0.theft × (seat.new.me.0.theft.at ≡ seat.old.me.0.theft.at) × (seat.new.me.0.theft.upto ≡ seat.old.me.0.theft.upto) }
    ensures idle { (seat.new.me.0.stage ≡ Idle) × (seat.new.me.1 ≡ []) }
{
    let mut seen = head_of(at + count, count);
    'tries: loop {
        let found = release(words, seat, seen);
        if found == seen {
            return;
        }
        seen = found;
    }
}

/// Moves the values of a claim: from the slots of the other queue to the free slots behind the tail
/// of the thief's own.
#[tactic(auto, using(crate::proofs::Moves::carry_start, crate::proofs::Moves::carry_end))]
fn carry_over<T>(
    source: &Words<T>,
    from: &mut Place<T>,
    into: &Words<T>,
    seat: &mut Place<T>,
    at: u64,
    tail: u64,
    count: u64,
)
    requires source { IsAt source.now from.old }
    requires into { IsAt into.now seat.old }
    requires small { (at + count < 2 ^ 55) × (tail + count < 2 ^ 55) }
    requires claimed { (xs : _) × (length xs ≡ count) × Empties from.old.me from.old.me.0 at 0 xs }
    requires free { (r : ℕ) × Fills seat.old.me seat.old.me.0 tail (count + r) [] }
    ensures same { SameSeat from.old from.new × SameSeat seat.old seat.new }
    ensures emptied { from.new.me ≡ (from.old.me.0, hand at (replicate count None)) }
    ensures moved { (xs : List T) (r : ℕ) → length xs ≡ count → Empties from.old.me from.old.me.0 at 0 xs → Fills seat.old.me seat.old.me.0 tail (count + r) []
        → Empties from.new.me from.old.me.0 at count [] × Fills seat.new.me seat.old.me.0 tail r xs }
{
    for i in 0..count {
        let value = take(source, from, at + i);
        put(into, seat, tail + i, value);
    }
}
