//! The calls of a shared and of an exclusive queue on live values.

ghost use Rattle.std.specs.Prelude.{◌≡◌, ◌+◌, ◌^◌, ◌≤◌, [], IfOk};
ghost use Rattle.exec_live_queue.specs.{Kinds.{IsThief, handed}, Lent.{left_of, lender}};

use crate::found::{holds, same};
use exec_live_queue::head::{gap_of, head_of, real_of};
use exec_live_queue::lent::{Overflow, Push, Settled};
use exec_live_queue::owner::Owner;
use exec_live_queue::queue::{Queue, QueueSeat};
use exec_words::queue::Steal;
use exec_words::reserved::Reserved;
use std::alloc::{AllocError, Global};
use std::process::Abort;
use std::test::Fail;

/// A shared queue with its owner, and a seat of a thief there.
pub fn made(
    alloc: Global,
    start: u64,
) -> Result<(Queue<u64>, Owner<u64>, QueueSeat<u64>), AllocError>
    requires { start + 512 ≤ 2 ^ 55 }
    ensures { IfOk result (λ r. (handed r.1 ≡ []) × IsThief r.0 r.2) }
{
    let (queue, mut first) = Queue::at(alloc, start)?;
    let thief = queue.seat(&mut first);
    let Ok(owner) = queue.owner(first) else {
        drop(thief);
        drop(queue);
        return Err(AllocError);
    };
    Ok((queue, owner, thief))
}

/// The same. It fails where memory is wanting.
pub fn must_make(
    rt: &impl Abort,
    alloc: Global,
    start: u64,
) -> (Queue<u64>, Owner<u64>, QueueSeat<u64>)
    requires { start + 512 ≤ 2 ^ 55 }
    ensures { (handed result.1 ≡ []) × IsThief result.0 result.2 }
{
    match made(alloc, start) {
        Ok(made) => made,
        Err(_) => panic!(rt; "no memory"),
    }
}

/// The owner of an exclusive queue.
fn alone(alloc: Global) -> Result<Owner<u64>, AllocError>
    ensures { IfOk result (λ o. handed o ≡ []) }
{
    let (queue, first) = Queue::exclusive(alloc);
    let owner = queue.owner(first);
    drop(queue);
    owner
}

/// Pushes the values from `from` on, and answers how many were published.
pub fn push_all(owner: &mut Owner<u64>, from: u64, count: u64) -> u64
    requires { (handed owner.old ≡ []) × (from + count ≤ 2 ^ 20) }
    ensures { handed owner.new ≡ [] }
{
    let mut pushed = 0;
    for i in 0..count {
        if let Some(Settled::Pushed(_)) = push(owner, from + i) {
            pushed += 1;
        }
    }
    pushed
}

/// Pushes a value, and takes what flows over. None where something did.
pub fn push(owner: &mut Owner<u64>, value: u64) -> Option<Settled<u64>>
    requires { handed owner.old ≡ [] }
    ensures { handed owner.new ≡ [] }
{
    match owner.push(value) {
        Push::Settled(answer) => Some(answer),
        Push::Overflow(mut overflow) => {
            drain(&mut overflow);
            overflow.finish();
            None
        }
    }
}

/// Takes what flows over, and answers how many values that were, and the last of them.
fn drain(overflow: &mut Overflow<'_, u64>) -> (u64, Option<u64>)
    ensures same { lender overflow.new ≡ lender overflow.old }
    ensures dry { left_of overflow.new ≡ [] }
{
    let mut count: u64 = 0;
    let mut last = None;
    'left: loop {
        match overflow.next() {
            Some(value) => {
                count = count.wrapping_add(1);
                last = Some(value);
            }
            None => return (count, last),
        }
    }
}

/// Pops so many values, and answers the last.
pub fn pop_all(owner: &mut Owner<u64>, count: u64) -> Option<u64>
    requires { handed owner.old ≡ [] }
    ensures { handed owner.new ≡ [] }
{
    let mut last = None;
    'pops: for _ in 0..count {
        last = owner.pop();
    }
    last
}

/// Lets an owner go whose queue is empty.
pub fn let_go(rt: &impl Abort, mut owner: Owner<u64>)
    requires { handed owner ≡ [] }
{
    match owner.pop() {
        None => owner.leave(),
        Some(_) => panic!(rt; "the queue has a value"),
    }
}

/// Lets two queues go, each with a seat.
pub fn let_queues_go(
    queue: Queue<u64>,
    thief: QueueSeat<u64>,
    other: Queue<u64>,
    seat: QueueSeat<u64>,
) {
    drop(seat);
    drop(other);
    drop(thief);
    drop(queue);
}

/// Three values go in and come out in order.
fn three_in_order(rt: &impl Abort, mut owner: Owner<u64>)
    requires { handed owner ≡ [] }
{
    same!(rt; push_all(&mut owner, 10, 3), 3);
    same!(rt; (owner.len(), owner.room(), owner.is_empty()), (3, 253, false));
    same!(rt; (owner.pop(), owner.pop(), owner.pop()), (Some(10), Some(11), Some(12)));
    same!(rt; (owner.len(), owner.room(), owner.is_empty()), (0, 256, true));
    let_go(rt, owner);
}

/// Of 257 pushes the oldest 128 values stay, and the other 129 are handed out in order.
fn half_of_257_stay(rt: &impl Abort, mut owner: Owner<u64>)
    requires { handed owner ≡ [] }
{
    same!(rt; push_all(&mut owner, 0, 256), 256);
    same!(rt; (owner.len(), owner.room()), (256, 0));
    match owner.push(256) {
        Push::Overflow(mut overflow) => {
            same!(rt; (overflow.len(), overflow.next(), overflow.len()), (128, Some(128), 127));
            same!(rt; drain(&mut overflow), (127, Some(255)));
            same!(rt; overflow.finish(), 256);
        }
        Push::Settled(_) => panic!(rt; "the queue isn't full"),
    }
    same!(rt; (owner.len(), owner.room()), (128, 128));
    same!(rt; (owner.pop(), pop_all(&mut owner, 127)), (Some(0), Some(127)));
    let_go(rt, owner);
}

/// A batch goes in behind the other values.
fn a_batch_goes_in(rt: &impl Abort, mut owner: Owner<u64>, alloc: Global)
    requires { handed owner ≡ [] }
{
    let mut batch = batch_of_three(rt, alloc);
    same!(rt; push_all(&mut owner, 10, 1), 1);
    if batch.len() > owner.room() {
        panic!(rt; "no room");
    }
    owner.push_batch(&mut batch);
    same!(rt; (batch.len(), owner.len()), (0, 4));
    same!(rt; (owner.pop(), owner.pop(), owner.pop(), owner.pop()), (Some(10), Some(7), Some(8), Some(9)));
    drop(batch);
    let_go(rt, owner);
}

fn batch_of_three(rt: &impl Abort, alloc: Global) -> Reserved<u64> {
    let mut batch = match Reserved::with_places(alloc, 3) {
        Ok(batch) => batch,
        Err(_) => panic!(rt; "no memory"),
    };
    batch.push(7);
    batch.push(8);
    batch.push(9);
    batch
}

#[test]
fn values_leave_in_order(rt: HostRuntime) -> Result<(), Fail> {
    let (queue, owner, thief) = made(rt.alloc(), 0)?;
    three_in_order(&rt, owner);
    drop(thief);
    drop(queue);
    three_in_order(&rt, alone(rt.alloc())?);
    Ok(())
}

#[test]
fn a_full_queue_hands_out_its_newest_half(rt: HostRuntime) -> Result<(), Fail> {
    let (queue, owner, thief) = made(rt.alloc(), 0)?;
    half_of_257_stay(&rt, owner);
    drop(thief);
    drop(queue);
    half_of_257_stay(&rt, alone(rt.alloc())?);
    Ok(())
}

#[test]
fn a_batch_comes_out_in_order(rt: HostRuntime) -> Result<(), Fail> {
    let (queue, owner, thief) = made(rt.alloc(), 0)?;
    a_batch_goes_in(&rt, owner, rt.alloc());
    drop(thief);
    drop(queue);
    a_batch_goes_in(&rt, alone(rt.alloc())?, rt.alloc());
    Ok(())
}

#[test]
fn a_spent_queue_takes_no_more(rt: HostRuntime) -> Result<(), Fail> {
    let (queue, mut owner, thief) = made(rt.alloc(), (1 << 55) - 512)?;
    same!(&rt; push(&mut owner, 7), Some(Settled::Spent(7)));
    same!(&rt; (owner.room(), owner.len()), (0, 0));
    let_go(&rt, owner);
    drop(thief);
    drop(queue);
    Ok(())
}

#[test]
fn a_thief_takes_the_oldest_half(rt: HostRuntime) -> Result<(), Fail> {
    let (queue, mut owner, mut thief) = made(rt.alloc(), 0)?;
    let (other, mut into, seat) = must_make(&rt, rt.alloc(), 0);
    holds!(&rt; !queue.is_stealable(&mut thief));
    same!(&rt; push_all(&mut owner, 0, 5), 5);
    holds!(&rt; queue.is_stealable(&mut thief));
    same!(&rt; queue.steal_once(&mut thief, &mut into), Steal::Moved(2));
    same!(&rt; (into.pop(), into.pop()), (Some(0), Some(1)));
    same!(&rt; (owner.pop(), owner.pop()), (Some(2), Some(3)));
    same!(&rt; queue.steal_once(&mut thief, &mut into), Steal::Nothing);
    same!(&rt; owner.pop(), Some(4));
    let_go(&rt, owner);
    let_go(&rt, into);
    let_queues_go(queue, thief, other, seat);
    Ok(())
}

#[test]
fn a_queue_before_its_end_takes_one_more(rt: HostRuntime) -> Result<(), Fail> {
    let (queue, mut owner, mut thief) = made(rt.alloc(), 0)?;
    let (other, mut last, seat) = must_make(&rt, rt.alloc(), (1 << 55) - 513);
    same!(&rt; push(&mut last, 7), Some(Settled::Pushed(1)));
    same!(&rt; push(&mut last, 8), Some(Settled::Spent(8)));
    same!(&rt; (last.room(), last.len()), (0, 1));
    same!(&rt; push_all(&mut owner, 0, 4), 4);
    same!(&rt; queue.steal_once(&mut thief, &mut last), Steal::Nothing);
    same!(&rt; (last.pop(), last.pop()), (Some(7), None));
    same!(&rt; (owner.pop(), pop_all(&mut owner, 3)), (Some(0), Some(3)));
    let_go(&rt, owner);
    let_go(&rt, last);
    let_queues_go(queue, thief, other, seat);
    Ok(())
}

#[test]
fn a_thief_needs_128_places_free(rt: HostRuntime) -> Result<(), Fail> {
    let (queue, mut owner, mut thief) = made(rt.alloc(), 0)?;
    let (other, mut into, seat) = must_make(&rt, rt.alloc(), 0);
    same!(&rt; push_all(&mut owner, 1000, 4), 4);
    same!(&rt; push_all(&mut into, 0, 129), 129);
    same!(&rt; queue.steal_once(&mut thief, &mut into), Steal::Nothing);
    same!(&rt; (owner.len(), into.len(), into.room()), (4, 129, 127));
    same!(&rt; (into.pop(), into.room()), (Some(0), 128));
    same!(&rt; queue.steal_once(&mut thief, &mut into), Steal::Moved(2));
    same!(&rt; (owner.pop(), owner.pop()), (Some(1002), Some(1003)));
    same!(&rt; (pop_all(&mut into, 128), into.pop(), into.pop()), (Some(128), Some(1000), Some(1001)));
    let_go(&rt, owner);
    let_go(&rt, into);
    let_queues_go(queue, thief, other, seat);
    Ok(())
}

#[test]
fn a_head_is_taken_apart_again(rt: HostRuntime) -> Result<(), Fail> {
    let head = head_of(1000, 256);
    same!(&rt; (head, real_of(head), gap_of(head)), (512_256, 1000, 256));
    Ok(())
}
