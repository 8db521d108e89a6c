//! Each small call once, with ample memory, calls that come too late, and an admission for which memory may be wanting.
//! What has to come of them is what the rules of requests, of opens and of the ring say, but for one row that says so.

ghost use Rattle.std.specs.Prelude.{◌<◌, IfSome};
ghost use Rattle.exec_opens.specs.Opens.{open_at};

use crate::asks::{Ask, request};
use crate::found::{
    demand, holds, same, same_count, same_counts, same_key, same_name, same_number,
};
use crate::steps::{Look, Sign, Step, Turn, Wait};
use crate::trial::play;
use crate::worker::{FIRST, MILLI, NEXT, Worker, bytes, counts, make_room, name, send};
use exec_base::slab::Id;
use exec_base::task_no::TaskNo;
use exec_driver::driver::Enrolled;
use exec_driver::home::Home;
use exec_opens::opens::{Opens, WaiterKey};
use exec_outcomes::outcome::OpResult;
use exec_outcomes::outcome::OpResult::{Count, Errno};
use exec_request::open_record::OpenRecord;
use exec_request::window::{Opcode, Window};
use exec_ring::completion::{CANCEL_USER_DATA, Completion};
use exec_ring::landing::Unlawful;
use exec_ring::ring::{Entered, Ring};
use exec_ring::sim_ring::SimRing;
use exec_ring::store::Store;
use exec_waiters::deferred::Deferred;
use exec_waiters::observer::Observer;
use exec_waiters::waiter_id::WaiterId;
use std::alloc::Global;
use std::process::Abort;

type Watch = Observer<u32, u32>;

/// The first request is on the wheel.
const ENROLLED: Enrolled = Enrolled {
    id: FIRST,
    ended: None,
};

/// The parts of a service one after another.
const SERVICE: &[Step] = &[
    Step::Look(Look::RingSize(4)),
    Step::Wait(Wait::Admit(Ask::Poll(Some(10 * MILLI)), FIRST)),
    Step::Look(Look::Seen(FIRST, true)),
    Step::Wait(Wait::SetWaker(FIRST, 4, None)),
    Step::Wait(Wait::SetWaker(FIRST, 5, Some(TaskNo(4)))),
    Step::Look(Look::Is(Sign::Enrolments, true)),
    Step::Look(Look::Is(Sign::MustEnter, true)),
    Step::Turn(Turn::Advance(0)),
    Step::Turn(Turn::Enrol(0, Some(ENROLLED))),
    Step::Look(Look::Is(Sign::Cancels, false)),
    Step::Look(Look::Is(Sign::MayStage, true)),
    Step::Look(Look::Is(Sign::NeedsWakePoll, true)),
    Step::Turn(Turn::StageWakePoll(true)),
    Step::Look(Look::Is(Sign::NeedsWakePoll, false)),
    Step::Look(Look::Is(Sign::Full, false)),
    Step::Turn(Turn::Stage(Some(FIRST))),
    Step::Look(Look::Is(Sign::Completion, false)),
    Step::Look(Look::Is(Sign::MustEnter, false)),
    Step::Turn(Turn::Land(FIRST, Count(1), Ok(()))),
    Step::Look(Look::Is(Sign::Completion, true)),
    Step::Turn(Turn::Over(FIRST, Count(1), Ok(()))),
    Step::Look(Look::Is(Sign::Empty, true)),
    Step::Look(Look::Is(Sign::Completion, false)),
    Step::Look(Look::Counts((1, 0, 1, 0, 0))),
];

#[test]
fn a_service_step_by_step(rt: HostRuntime) {
    play(&rt, rt.alloc(), 4, SERVICE);
}

/// A cancel of a send that has its result already.
const LATE_CANCEL: &[Step] = &[
    Step::Wait(Wait::Admit(Ask::Send, FIRST)),
    Step::Turn(Turn::Serve((0, 0, false), false)),
    Step::Turn(Turn::Land(FIRST, Count(10), Ok(()))),
    Step::Turn(Turn::Advance(10 * MILLI)),
    Step::Turn(Turn::Expire(Some(FIRST))),
    Step::Turn(Turn::StageCancel(Some(FIRST))),
    Step::Turn(Turn::Enter(Entered::Taken(1))),
    Step::Turn(Turn::Over(FIRST, Count(10), Ok(()))),
    Step::Look(Look::Is(Sign::Empty, true)),
    Step::Look(Look::Is(Sign::Completion, false)),
    Step::Turn(Turn::Reap(None)),
    Step::Look(Look::Counts((0, 0, 1, 0, 0))),
];

#[test]
fn a_late_cancel_changes_nothing(rt: HostRuntime) {
    play(&rt, rt.alloc(), 4, LATE_CANCEL);
}

/// The third request that has the first slot.
const LATEST: WaiterId = WaiterId(Id {
    index: 0,
    generation: 2,
});

/// A request of a late generation.
const FAR_OFF: WaiterId = WaiterId(Id {
    index: 7,
    generation: (1 << 32) + 3,
});

/// Calls on names of which nothing is there any more.
const GONE: &[Step] = &[
    Step::Wait(Wait::Admit(Ask::Send, FIRST)),
    Step::Wait(Wait::Orphan(FIRST)),
    Step::Wait(Wait::Admit(Ask::Send, NEXT)),
    Step::Wait(Wait::Orphan(NEXT)),
    Step::Look(Look::Len(0)),
    Step::Look(Look::Counts((0, 2, 2, 0, 0))),
    Step::Wait(Wait::Admit(Ask::Send, LATEST)),
    Step::Turn(Turn::Serve((0, 0, false), false)),
    Step::Turn(Turn::Land(FIRST, Count(10), Err(Unlawful(0, Count(10))))),
    Step::Wait(Wait::Orphan(FIRST)),
    Step::Wait(Wait::Forward(FIRST, 9)),
    Step::Look(Look::Refused(1)),
    Step::Look(Look::Seen(FIRST, false)),
    Step::Look(Look::Len(1)),
    Step::Look(Look::Counts((0, 2, 2, 0, 1))),
    Step::Turn(Turn::Land(LATEST, Errno(104), Ok(()))),
    // this row is the worked example that was asked for
    Step::Look(Look::UserData(FAR_OFF, (3 << 32) + 7)),
];

#[test]
fn what_is_gone_stays_gone(rt: HostRuntime) {
    play(&rt, rt.alloc(), 4, GONE);
}

#[test]
fn a_home_is_new(rt: HostRuntime) {
    let alloc = rt.alloc();
    let mut store = Store::new(alloc);
    let ours = Worker::new(alloc, 4, &mut store).expect(&rt, "no worker");
    ours.driver().lands_nothing();
    ours.driver().flies_permitted();
    ours.driver().has_deadlines();
    ours.driver().lists_requests();
    ours.driver().tells_deadlines();
    let home: Home<SimRing, u32, u32> = Home::new(alloc, 3, ours.into_driver());
    same_number(&rt, 0, Some(home.worker), Some(3));
    same_count(&rt, 1, home.driver.len(), 0);
    holds(&rt, 2, !home.closing);
    holds(&rt, 3, home.deferred.is_empty());
    drop(home);
    drop(store);
}

#[test]
fn opens_have_records(rt: HostRuntime) {
    let mut opens = Opens::new(rt.alloc(), 2).expect(&rt, "no memory");
    same_count(&rt, 0, opens.len(), 2);
    opens.begin_write(Some(1));
    let mut written = OpenRecord::new();
    written.write();
    holds(&rt, 1, written.is_dirty());
    same(&rt, 2, &opens.account(Some(1)), &Some(written));
    same(&rt, 3, &opens.account(Some(0)), &Some(OpenRecord::new()));
    holds(&rt, 4, opens.account(Some(2)).is_none());
    opens.set_account(Some(0), Some(written));
    same(&rt, 5, &opens.account(Some(0)), &Some(written));
    opens.set_account(Some(1), None);
    holds(&rt, 6, opens.account(Some(1)).is_none());
    drop(opens);
}

/// Open 1 gets a place for one more, who may then join its line.
fn make_place(rt: &impl Abort, alloc: Global, opens: &mut Opens)
    ensures { IfSome (open_at opens.new 1) (λ o. 0 < o.coming) }
{
    let made = opens.reserve(alloc, Some(1));
    demand(rt, made.is_ok(), "no memory");
    demand(rt, opens.has_place(1), "no place");
}

/// A request of this worker joins the line of open 1.
fn line_up(rt: &impl Abort, alloc: Global, opens: &mut Opens, key: WaiterKey) {
    make_place(rt, alloc, opens);
    opens.join(1, key);
}

/// A place in the line of open 1 is made, and given up.
fn give_up(rt: &impl Abort, alloc: Global, opens: &mut Opens) {
    make_place(rt, alloc, opens);
    opens.release(Some(1));
}

#[test]
fn opens_have_gates(rt: HostRuntime) {
    let alloc = rt.alloc();
    let mut opens = Opens::new(alloc, 2).expect(&rt, "no memory");
    give_up(&rt, alloc, &mut opens);
    let id = name(5, 0);
    let (first, second) = (WaiterKey { worker: 0, id }, WaiterKey { worker: 1, id });
    line_up(&rt, alloc, &mut opens, first);
    line_up(&rt, alloc, &mut opens, second);
    same_key(&rt, 0, opens.holder(1), Some(first));
    same_key(&rt, 1, opens.leave(1), Some(second));
    same_key(&rt, 2, opens.leave(1), None);
    same_key(&rt, 3, opens.holder(1), None);
    same_key(&rt, 4, opens.holder(2), None);
    drop(opens);
}

#[test]
fn completions_say_what_they_are(rt: HostRuntime) {
    let failed = Completion {
        user_data: 7,
        result: -5,
        more: true,
    };
    same(&rt, 0, &failed.given(), &Errno(5));
    holds(&rt, 1, !failed.is_wake());
    same(&rt, 2, &Completion::wake(false).given(), &bytes(1));
    holds(&rt, 3, Completion::wake(false).is_wake());
}

#[test]
fn a_look_leaves_a_completion_there(rt: HostRuntime) {
    let (alloc, cancel) = (rt.alloc(), Window::cancel(7));
    let mut store = Store::new(alloc);
    let mut ring = SimRing::new(alloc, 1).expect(&rt, "no memory");
    let made = ring.reserve(alloc, cancel, &mut store);
    demand(&rt, made.is_ok(), "no memory");
    ring.stage(cancel, CANCEL_USER_DATA);
    same(&rt, 0, &ring.peek(), &None);
    same(&rt, 1, &ring.enter(), &Entered::Taken(1));
    let taken_in = Some(Completion::acknowledgement(CANCEL_USER_DATA));
    same(&rt, 2, &ring.peek(), &taken_in);
    same(&rt, 3, &ring.reap(), &taken_in);
    same(&rt, 4, &ring.peek(), &None);
    drop(ring);
    drop(store);
}

#[test]
fn a_store_has_the_room_that_was_made(rt: HostRuntime) {
    let alloc = rt.alloc();
    let mut store = Store::new(alloc);
    let window = Window {
        kind: Opcode::Send,
        offset: 0,
        length: 10,
        ..Window::wake()
    };
    holds(&rt, 0, store.has_room(window, 0));
    holds(&rt, 1, !store.has_room(window, 1));
    demand(&rt, store.reserve(alloc, window).is_ok(), "no memory");
    holds(&rt, 2, store.has_room(window, 10));
    holds(&rt, 3, !store.has_room(window, 11));
    store.release(window);
    holds(&rt, 4, !store.has_room(window, 1));
    drop(store);
}

#[test]
fn an_outcome_alone_is_sent_of_a_sync(rt: HostRuntime) {
    let sync = request(&rt, rt.alloc(), Ask::Sync(0));
    let send = request(&rt, rt.alloc(), Ask::Send);
    let (alone, whole) = (Watch::DetachedSync(5), Watch::Forwarded(9));
    holds(&rt, 0, alone.suits(&sync));
    holds(&rt, 1, !alone.suits(&send));
    holds(&rt, 2, whole.suits(&send));
    drop(alone);
    drop(whole);
    drop(sync);
    drop(send);
}

#[test]
fn a_task_is_to_be_woken(rt: HostRuntime) {
    let mut told: Deferred<u32, u32> = Deferred::new(rt.alloc());
    make_room(&rt, rt.alloc(), &mut told, 1);
    told.wake(Some(TaskNo(4)));
    same_counts(&rt, 0, counts(&told), (1, 0, 0, 0, 0));
    drop(told);
}

/// Nothing is there of an admission that was refused.
fn is_bare(rt: &impl Abort, ours: &Worker) {
    same_count(rt, 0, ours.driver().len(), 0);
    same_counts(rt, 0, ours.counts(), (0, 0, 0, 0, 0));
    holds(rt, 0, !ours.driver().has_pending_submissions());
}

/// A send is admitted for which memory may be wanting: then nothing is left, and the next one is made.
fn admit_again(
    rt: &impl Abort,
    alloc: Global,
    ours: &mut Worker,
    opens: &mut Opens,
    store: &mut Store,
) {
    let Ok(request) = send(alloc) else {
        return;
    };
    if ours.admit(alloc, request, opens, store).is_none() {
        is_bare(rt, ours);
        let next = send(alloc).expect(rt, "no memory");
        same_name(
            rt,
            1,
            ours.admit(alloc, next, opens, store),
            Some(name(0, 0)),
        );
    }
    same_count(rt, 2, ours.driver().len(), 1);
    same_counts(rt, 2, ours.counts(), (0, 0, 0, 0, 0));
}

/// With ample memory this is one admission. By hand it is one for which memory is wanting, which leaves the worker as it
/// was, and the next one: say `rt try --test --fail-alloc N` with N from 7 to 23, the allocations of the first.
#[test]
fn a_send_is_admitted_or_tried_again(rt: HostRuntime) {
    let alloc = rt.alloc();
    let mut store = Store::new(alloc);
    let Ok(mut opens) = Opens::new(alloc, 1) else {
        drop(store);
        return;
    };
    let Some(mut ours) = Worker::new(alloc, 4, &mut store) else {
        drop(opens);
        drop(store);
        return;
    };
    admit_again(&rt, alloc, &mut ours, &mut opens, &mut store);
    drop(ours);
    drop(opens);
    drop(store);
}
