//! Workers that publish and withdraw on threads of their own.

ghost use Rattle.std.specs.Prelude.{◌≡◌, ◌+◌, ◌<◌, false, if◌then◌else◌};
ghost use Rattle.exec_live_idle.specs.{Idle.{knows, IsSeatOf, IsSame}, Live.next_number};

use super::claims;
use crate::found::{holds, same};
use exec_live_idle::seat::{Idle, IdleSeat};
use std::process::Abort;
use std::test::Fail;
use std::thread::join;

/// A worker's seat at an idle set, which remembers what it did. It holds a count where it was
/// claimed.
struct Hand<'a> {
    idle: &'a Idle,
    seat: IdleSeat,
    published: bool,
    claimed: bool,
    ghost at: { IsSeatOf idle.now seat },
    ghost worker: { (knows seat).number < (knows seat).workers },
    ghost known: { (knows seat).published ≡ published },
    ghost held: { (knows seat).held ≡ (if claimed then 1 else 0) },
}

impl<'a> Hand<'a> {
    /// The hand of the worker of the caller's number.
    fn new(idle: &'a Idle, caller: &mut IdleSeat) -> Self
        requires at { IsSeatOf idle.now caller.old }
        requires unpublished { (knows caller.old).published ≡ false }
        requires more { (knows caller.old).number + 1 < (knows caller.old).end }
        requires worker { (knows caller.old).number < (knows caller.old).workers }
        ensures same { IsSame caller.old caller.new }
        ensures left { knows caller.new ≡ next_number (knows caller.old) }
    {
        Hand {
            idle,
            seat: idle.seat(caller),
            published: false,
            claimed: false,
        }
    }

    fn publish(&mut self, rt: &impl Abort) {
        holds!(rt; !self.published);
        self.idle.set_bit(&mut self.seat);
        self.published = true;
    }

    fn withdraw(&mut self, rt: &impl Abort) {
        holds!(rt; self.published && !self.claimed);
        self.claimed = !self.idle.withdraw(&mut self.seat);
        self.published = false;
    }

    /// Ends the hand. Answers whether it was claimed, and then returned the last count.
    fn end(self, rt: &impl Abort) -> Option<bool> {
        holds!(rt; !self.published);
        let Hand {
            idle,
            mut seat,
            published: _,
            claimed,
        } = self;
        if !claimed {
            drop(seat.leave());
            return None;
        }
        let last = idle.subtract(&mut seat);
        drop(seat.leave());
        Some(last)
    }
}

#[test]
fn three_threads_publish_at_once(rt: HostRuntime) -> Result<(), Fail> {
    let (idle, mut caller) = Idle::new(rt.alloc(), 3)?;
    let mut zero = Hand::new(&idle, &mut caller);
    let mut one = Hand::new(&idle, &mut caller);
    let mut two = Hand::new(&idle, &mut caller);
    join(
        &rt,
        || join(&rt, || zero.publish(&rt), || one.publish(&rt)),
        || two.publish(&rt),
    );
    same!(&rt; idle.look(&mut caller), 7);
    idle.add(&mut caller);
    claims(&rt, &idle, &mut caller, 0);
    join(
        &rt,
        || join(&rt, || zero.withdraw(&rt), || one.withdraw(&rt)),
        || two.withdraw(&rt),
    );
    same!(&rt; [zero.end(&rt), one.end(&rt), two.end(&rt)], [Some(true), None, None]);
    drop(caller.leave());
    drop(idle);
    Ok(())
}

#[test]
fn three_threads_publish_in_turn(rt: HostRuntime) -> Result<(), Fail> {
    let (idle, mut caller) = Idle::new(rt.alloc(), 3)?;
    let mut zero = Hand::new(&idle, &mut caller);
    let mut one = Hand::new(&idle, &mut caller);
    let mut two = Hand::new(&idle, &mut caller);
    join(&rt, || zero.publish(&rt), || {});
    join(&rt, || one.publish(&rt), || {});
    join(&rt, || two.publish(&rt), || {});
    idle.add(&mut caller);
    claims(&rt, &idle, &mut caller, 0);
    join(&rt, || zero.withdraw(&rt), || {});
    join(&rt, || two.withdraw(&rt), || {});
    join(&rt, || one.withdraw(&rt), || {});
    same!(&rt; [zero.end(&rt), one.end(&rt), two.end(&rt)], [Some(true), None, None]);
    drop(caller.leave());
    drop(idle);
    Ok(())
}
