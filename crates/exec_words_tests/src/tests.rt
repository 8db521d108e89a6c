//! Worked examples of what the workers of a pool share, step by step.

ghost use Rattle.std.specs.Prelude.{◌-◌, ◌^◌, ◌<◌};

use crate::found::{holds, same};
use exec_words::HALF;
use exec_words::global::GlobalQueue;
use exec_words::head::Head;
use exec_words::idle::{Park, PureIdle};
use exec_words::inbox::Message;
use exec_words::mailbox::Mailbox;
use exec_words::queue::{PureQueue, PushAnswer};
use exec_words::reserved::Reserved;
use exec_words::word::{PureWord, WaitTarget};
use std::alloc::Global;
use std::ops::Range;
use std::process::Abort;

/// A worker's run queue with its owner's hand.
#[derive(Drop)]
struct Local {
    queue: PureQueue<u64>,
    hand: Reserved<u64>,
}

impl Local {
    fn at(rt: &impl Abort, alloc: Global, real: u64) -> Self
        requires { real < 2 ^ 55 - 512 }
    {
        Local {
            queue: PureQueue::at(alloc, real).expect(rt, "no memory"),
            hand: Reserved::with_places(alloc, 256).expect(rt, "no memory"),
        }
    }

    /// With these values, pushed one by one.
    fn holding(rt: &impl Abort, alloc: Global, values: Range<u64>) -> Self {
        let mut local = Local::at(rt, alloc, 0);
        for value in values {
            holds!(rt; matches!(local.push(rt, value), PushAnswer::Pushed(_)));
        }
        local
    }

    fn push(&mut self, rt: &impl Abort, value: u64) -> PushAnswer<u64> {
        holds!(rt; self.queue.is_whole() && self.hand.spare() >= HALF);
        self.queue.push(value, &mut self.hand)
    }

    /// What a thief claims, by head and tail as they are: how many values.
    fn claim(&mut self, rt: &impl Abort, thief: &mut Local) -> usize {
        let (head, tail) = (self.queue.head(), self.queue.tail());
        if thief.queue.room() < HALF || !head.is_stealable(tail) {
            return 0;
        }
        holds!(rt; thief.hand.spare() >= HALF);
        self.queue
            .claim_exchange(head, tail, &mut thief.hand)
            .unwrap_or(0)
    }

    /// A whole steal: how many values moved.
    fn steal(&mut self, rt: &impl Abort, thief: &mut Local) -> usize {
        let count = self.claim(rt, thief);
        same!(rt; self.queue.release_exchange(self.queue.head()), Ok(()));
        holds!(rt; thief.queue.is_whole() && count <= thief.hand.len().min(thief.queue.room()));
        thief.queue.publish(count, &mut thief.hand);
        count
    }
}

#[test]
fn a_full_queue_flows_over(rt: HostRuntime) {
    let mut local = Local::holding(&rt, rt.alloc(), 0..256);
    holds!(&rt; matches!(local.push(&rt, 256), PushAnswer::Overflow(256)));
    for value in 0..128 {
        same!(&rt; local.queue.pop(), Some(value));
        same!(&rt; local.hand.pop(), Some(value + 128));
    }
    holds!(&rt; local.queue.len() == 0 && local.hand.is_empty());
}

#[test]
fn a_full_queue_beside_a_claim_takes_nothing(rt: HostRuntime) {
    let mut local = Local::holding(&rt, rt.alloc(), 0..256);
    same!(&rt; local.claim(&rt, &mut Local::at(&rt, rt.alloc(), 0)), 128);
    holds!(&rt; matches!(local.push(&rt, 256), PushAnswer::Claimed(256)));
    same!(&rt; local.queue.len(), 128);
}

#[test]
fn a_release_frees_the_pops_past_its_claim(rt: HostRuntime) {
    let mut local = Local::holding(&rt, rt.alloc(), 0..5);
    same!(&rt; local.claim(&rt, &mut Local::at(&rt, rt.alloc(), 0)), 2);
    same!(&rt; (local.queue.pop(), local.queue.pop()), (Some(2), Some(3)));
    let seen = Head { real: 4, gap: 4 };
    same!(&rt; (local.queue.head(), local.queue.room()), (seen, 251));
    same!(&rt; local.queue.release_exchange(seen), Ok(()));
    same!(&rt; (local.queue.head(), local.queue.room()), (Head { real: 4, gap: 0 }, 255));
}

#[test]
fn a_spent_queue_takes_no_more(rt: HostRuntime) {
    let mut local = Local::at(&rt, rt.alloc(), (1 << 55) - 513);
    holds!(&rt; matches!(local.push(&rt, 1), PushAnswer::Pushed(1)));
    holds!(&rt; matches!(local.push(&rt, 2), PushAnswer::Spent(2)));
    same!(&rt; local.queue.room(), 0);
    let mut other = Local::holding(&rt, rt.alloc(), 3..7);
    same!(&rt; other.steal(&rt, &mut local), 0);
    same!(&rt; local.queue.pop(), Some(1));
}

#[test]
fn a_lone_value_stays_with_its_owner(rt: HostRuntime) {
    let (mut zero, mut one) = (Local::at(&rt, rt.alloc(), 0), Local::at(&rt, rt.alloc(), 0));
    let mut two = Local::holding(&rt, rt.alloc(), 0..5);
    same!(&rt; two.steal(&rt, &mut zero), 2);
    same!(&rt; (zero.queue.pop(), zero.queue.pop()), (Some(0), Some(1)));
    same!(&rt; two.steal(&rt, &mut one), 1);
    same!(&rt; (one.queue.pop(), two.queue.pop()), (Some(2), Some(3)));
    same!(&rt; two.steal(&rt, &mut one), 0);
    same!(&rt; two.queue.len(), 1);
}

/// A global queue of so many values.
fn global_of(rt: &impl Abort, alloc: Global, count: usize) -> GlobalQueue<u64> {
    let mut global = GlobalQueue::new(alloc);
    global.reserve(alloc, count).expect(rt, "no memory");
    for value in 0..count {
        holds!(rt; global.spare() > 0);
        holds!(rt; global.push(value as u64).is_ok());
    }
    global
}

/// How many values one of so many workers takes from a global queue of `count`. Its own queue was
/// given `held` values, and a thief has claimed half of them where it is full.
fn share(rt: &impl Abort, alloc: Global, workers: usize, count: usize, held: u64) -> usize
    requires { 0 < workers }
{
    let mut global = global_of(rt, alloc, count);
    let mut local = Local::holding(rt, alloc, 0..held);
    if held == 256 {
        same!(rt; local.claim(rt, &mut Local::at(rt, alloc, 0)), 128);
    }
    let (room, held) = (local.queue.room(), local.queue.len());
    holds!(rt; local.queue.is_whole());
    same!(rt; global.take(workers, room, held, &mut local.queue), Some(0));
    count.saturating_sub(global.mirror())
}

#[test]
fn shares(rt: HostRuntime) {
    same!(&rt; share(&rt, rt.alloc(), 4, 8, 0), 3);
    same!(&rt; share(&rt, rt.alloc(), 1, 130, 0), 129);
    same!(&rt; share(&rt, rt.alloc(), 1, 300, 100), 29);
    same!(&rt; share(&rt, rt.alloc(), 1, 300, 256), 1);
}

/// The last look of worker 0 of two, which holds no count: its answer, whether the worker stays
/// published, and the search count.
fn look(idle: &mut PureIdle, global: &GlobalQueue<u64>, other: &Local) -> (Park, bool, usize) {
    idle.publish(0);
    let is_stealable = other.queue.head().is_stealable(other.queue.tail());
    let park = if global.mirror() != 0 {
        Park::Run
    } else if idle.count() != 0 || !is_stealable || idle.count_exchange().is_err() {
        Park::Wait
    } else {
        Park::Search
    };
    if park != Park::Wait {
        idle.withdraw(0);
    }
    (park, idle.set().has[0], idle.count())
}

#[test]
fn a_last_look_has_three_answers(rt: HostRuntime) {
    let (mut idle, mut searched) = (PureIdle::new(), PureIdle::new());
    let (full, none) = (global_of(&rt, rt.alloc(), 1), GlobalQueue::new(rt.alloc()));
    let other = Local::holding(&rt, rt.alloc(), 0..2);
    searched.add();
    same!(&rt; look(&mut idle, &full, &other), (Park::Run, false, 0));
    same!(&rt; look(&mut searched, &none, &other), (Park::Wait, true, 1));
    same!(&rt; look(&mut idle, &none, &other), (Park::Search, false, 1));
}

#[test]
fn a_batch_is_signalled_once(rt: HostRuntime) {
    let mut word = PureWord::at(0);
    holds!(&rt; word.arm(WaitTarget::Ring).still_idle(0));
    holds!(&rt; word.publish());
    word.wake();
    holds!(&rt; !word.publish());
    word.disarm();
    holds!(&rt; !word.latch && word.pending(0));
}

#[test]
fn a_batch_is_published_once(rt: HostRuntime) {
    let mut mailbox: Mailbox<u8, u32> = Mailbox::new(rt.alloc()).expect(&rt, "no memory");
    let mut batch = Reserved::with_places(rt.alloc(), 2).expect(&rt, "no memory");
    mailbox.reserve(rt.alloc(), 2).expect(&rt, "no memory");
    holds!(&rt; mailbox.send(Message::WakeRoot).is_ok());
    holds!(&rt; mailbox.send(Message::Cancel(7)).is_ok());
    holds!(&rt; mailbox.waker.pending(0) && mailbox.take(&mut batch));
    holds!(&rt; matches!(batch.pop(), Some(Message::WakeRoot)));
    holds!(&rt; matches!(batch.pop(), Some(Message::Cancel(7))));
    holds!(&rt; !mailbox.waker.pending(1));
    holds!(&rt; mailbox.send(Message::WakeRoot).is_ok());
    holds!(&rt; mailbox.waker.pending(1));
}
