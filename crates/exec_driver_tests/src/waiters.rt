//! The requests of a worker through their lives: who waits, what is told, what a slot is taken for. What has to come of
//! each call is what the rules of requests say, but for two tables that say so.

use crate::found::same;
use crate::requests::{Call, Found, Look, Requests, Wait, play};
use crate::worker::{FIRST, NEXT, SECOND, THIRD, name};
use exec_base::error::Error;
use exec_base::slab::Id;
use exec_outcomes::outcome::OpResult::{Count, Errno};
use exec_ring::landing::Unlawful;
use exec_ring::sim_ring::SimRing;
use exec_ring::store::Store;
use exec_waiters::waiter_id::WaiterId;
use exec_waiters::waiters::Waiters;
use std::process::Abort;

/// Slot, generation and user data: the original's answers.
const USER_DATA: &[(u32, u64, u64)] = &[
    (7, 4_294_967_299, 12_884_901_895),
    (0, 4_294_967_296, 0),
    (
        4_294_967_294,
        18_446_744_073_709_551_615,
        18_446_744_073_709_551_614,
    ),
    (7, 2_147_483_648, 9_223_372_036_854_775_815),
];

#[test]
fn user_data_has_the_low_half_of_the_generation(rt: HostRuntime) {
    for (at, (index, generation, wanted)) in USER_DATA.iter().enumerate() {
        same(&rt, at, &name(*index, *generation).user_data(), wanted);
    }
}

/// A poll from its admission to its end.
const ONE_LIFE: &[Call] = &[
    Call::Admit(None, FIRST),
    Call::Look(Look::Deadline(FIRST, Some(10))),
    Call::Look(Look::OpenOf(FIRST, None)),
    Call::SetDeadline(FIRST, 641),
    Call::Stage(FIRST, 0),
    Call::Look(Look::Sizes(1, 1, 1)),
    Call::Requeue(0, Errno(11), FIRST),
    Call::Stale(0, Count(1)),
    Call::Stage(FIRST, 0),
    Call::Complete(0, Count(1), FIRST, Ok(())),
    Call::Finish(FIRST, Ok(()), Some(641)),
    Call::Look(Look::Sizes(0, 1, 0)),
    Call::Look(Look::Counts((0, 0, 1, 0, 0))),
    Call::Look(Look::Retired(FIRST)),
    Call::Cancel(FIRST, false),
];

#[test]
fn a_request_ends_once(rt: HostRuntime) {
    play(&rt, rt.alloc(), ONE_LIFE);
}

/// A task that looks at its request, before and after its end.
const LOOKS: &[Call] = &[
    Call::Admit(None, FIRST),
    Call::Wait(Wait::Observe(FIRST, 4, Found::Refresh)),
    Call::Wait(Wait::SetWaker(FIRST, 4, None)),
    Call::Wait(Wait::Observe(FIRST, 4, Found::Pending)),
    Call::Finish(FIRST, Ok(()), None),
    Call::Look(Look::Wakes(4)),
    Call::Wait(Wait::Observe(FIRST, 4, Found::Ready)),
    Call::Wait(Wait::Forward(FIRST, 9)),
    Call::Look(Look::Refused),
];

#[test]
fn a_task_looks_at_its_request(rt: HostRuntime) {
    play(&rt, rt.alloc(), LOOKS);
}

/// An old completion for a slot that was taken again.
const RECYCLED: &[Call] = &[
    Call::Admit(None, FIRST),
    Call::Wait(Wait::Orphan(FIRST, true)),
    Call::Finish(FIRST, Err(Error::Timeout), None),
    Call::Look(Look::Counts((0, 1, 1, 0, 0))),
    Call::Admit(None, NEXT),
    Call::Stage(NEXT, 4_294_967_296),
    Call::Stale(0, Count(1)),
    Call::Look(Look::Named(4_294_967_296, Some(NEXT))),
];

#[test]
fn a_recycled_slot_takes_no_old_completion(rt: HostRuntime) {
    play(&rt, rt.alloc(), RECYCLED);
}

/// A request of the generation at which user data come back.
const FAR_OFF: WaiterId = WaiterId(Id {
    index: 0,
    generation: 4_294_967_296,
});

/// The worked example that was asked for.
const COMES_BACK: &[Call] = &[
    Call::Admit(None, FAR_OFF),
    Call::Stage(FAR_OFF, 0),
    Call::Complete(0, Count(1), FAR_OFF, Ok(())),
];

#[test]
fn user_data_comes_back_after_half_of_the_generations(rt: HostRuntime) {
    let waiters = Waiters::starting_at(rt.alloc(), 4_294_967_296);
    let mut requests = Requests::new(rt.alloc(), waiters);
    requests.play(&rt, rt.alloc(), COMES_BACK);
    drop(requests);
}

/// A sync that nobody of the worker waits for.
const SYNC: &[Call] = &[
    Call::Admit(Some(5), FIRST),
    Call::Look(Look::Durability(FIRST, Some(1))),
    Call::Look(Look::OpenOf(FIRST, Some(1))),
    Call::Acquire(FIRST, Some(Ok(()))),
    Call::Finish(FIRST, Ok(()), None),
    Call::Look(Look::Counts((0, 0, 1, 1, 0))),
    Call::Look(Look::Sent(5)),
    Call::Look(Look::Sizes(0, 0, 0)),
];

#[test]
fn a_sync_is_told_of_alone(rt: HostRuntime) {
    play(&rt, rt.alloc(), SYNC);
}

/// Three requests of a worker that closes.
const CLOSING: &[Call] = &[
    Call::Admit(None, FIRST),
    Call::Admit(Some(5), SECOND),
    Call::Admit(None, THIRD),
    Call::Wait(Wait::SetWaker(FIRST, 3, None)),
    Call::Wait(Wait::Close(FIRST, true)),
    Call::Wait(Wait::Close(THIRD, true)),
    Call::Wait(Wait::Closed),
    Call::Look(Look::Counts((1, 0, 0, 0, 0))),
];

#[test]
fn what_closes_goes_in_order_of_slots(rt: HostRuntime) {
    play(&rt, rt.alloc(), CLOSING);
}

/// A poll that is under way.
const STAGED: &[Call] = &[Call::Admit(None, FIRST), Call::Stage(FIRST, 0)];

#[test]
fn nothing_lands_that_the_ring_has_not(rt: HostRuntime) {
    let alloc = rt.alloc();
    let waiters = Waiters::new(alloc, 4).expect(&rt, "no memory");
    let mut requests = Requests::new(alloc, waiters);
    let given = Count(1);
    requests.play(&rt, alloc, STAGED);
    let mut store = Store::new(alloc);
    let mut ring = SimRing::new(alloc, 2).expect(&rt, "no memory");
    let landed = requests.land(&rt, FIRST, given, &mut ring, &mut store);
    same(&rt, 2, &landed, &Err(Unlawful(0, given)));
    drop(ring);
    drop(store);
    drop(requests);
}
