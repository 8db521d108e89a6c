//! A push of the runnable in the hand into the own run queue, and of all in the hands into the global queue.
//!
//! A value that fits is published by a store of the tail; where there are two then, another worker could steal one, and
//! is kicked. A full queue without a claim flows over: its newest half goes into the hands, its oldest half stays, and
//! the half goes into the global queue with the value behind it. Beside a claim only the value goes there.
//!
//! Who has appended to the global queue looks for a published worker afterwards, and claims it: so of the two, who
//! appends and who goes to sleep, one sees the other.

ghost use Rattle.exec_invariants.specs.{Sound.SoundAt, Whole.HasWhole, Works.Steps};
ghost use Rattle.std.specs.Prelude.{◌+◌, ◌-◌, ◌<◌, ◌≡◌, ◌^◌, ◌≤◌, ◌==◌, ◌&&◌, nat_le, nat_lt, ◌++◌, [], false, length, option_to_list, IsSome, None, if◌then◌else◌};
ghost use Rattle.exec_words.specs.{Head.is_spent, Global.spare_places, Queue.{head_of, published, restored, room_of, tail_of}, Reserved.spare};
ghost use Rattle.exec_moves.specs.{Claim.set_of, Global.{add_global_count, has_any}, Pop.same_head, Push.{load_push_head, store_oldest}, State.queue_of};
ghost use Rattle.exec_parts.specs.{Phased.TurnsChair, Pooled.{OfChair, overflowed_if, with_overflow}, Tests.after_push_of, View.{desk_of, things_of}, Things.{Goes, Makes}};

use exec_machine::event::Event;
use exec_moves::handing::{AfterClaim, AfterKick, AfterPush, InGlobal, InKick, InPush};
use exec_moves::place::{InPoll, Place};
use exec_parts::parts::shared::Shared;
use exec_parts::parts::worker::Worker;
use exec_parts::scripted::Scripted;
use exec_words::head::{Fit, Head};
use exec_words::idle::{PureIdle, WorkerSet};

/// Takes the next step of a push into the own run queue.
pub(crate) fn push<B: Scripted + Drop>(
    worker: &mut Worker,
    at: InPush,
    back: AfterPush,
    shared: &mut Shared<B>,
) -> Event
    requires sound { SoundAt (Place.Push at back) worker.old shared.old }
    requires whole { HasWhole worker.old shared.old }
    ensures steps { Steps B.left B.spot worker.old shared.old result worker.new shared.new }
{
    match at {
        InPush::LoadPushHead => load_push_head(worker, back, shared),
        InPush::StoreValue { length: count } => store_value(worker, count, back, shared),
        InPush::FlowOver { head } => flow_over(worker, head, back, shared),
        InPush::StoreOldest => store_oldest(worker, back, shared),
    }
}

/// Takes the next step of a push into the global queue.
pub(crate) fn push_global<B: Scripted + Drop>(
    worker: &mut Worker,
    at: InGlobal,
    back: AfterPush,
    shared: &mut Shared<B>,
) -> Event
    requires sound { SoundAt (Place.Global at back) worker.old shared.old }
    requires whole { HasWhole worker.old shared.old }
    ensures steps { Steps B.left B.spot worker.old shared.old result worker.new shared.new }
{
    match at {
        InGlobal::Append => append(worker, back, shared),
        InGlobal::LoadGlobalSet => load_global_set(worker, back, &shared.idle),
        InGlobal::AddGlobalCount { set } => add_global_count(worker, set, back, &mut shared.idle),
        InGlobal::ReturnGlobalCount => return_global_count(worker, back, &mut shared.idle),
    }
}

/// Loads the own head, for what fits. The caller must know that the worker has a seat.
pub fn load_push_head<B: Drop>(worker: &mut Worker, back: AfterPush, shared: &Shared<B>) -> Event
    requires there { worker.old.index < length shared.now.seats.items }
    ensures makes { Makes (load_push_head back (desk_of worker.old)
        (queue_of (things_of shared.now) worker.old.index)) result worker.new }
    ensures goes { Goes worker.old worker.new }
    ensures within { OfChair worker.old.index shared.now (λ chair.
        length chair.queue.values + chair.queue.gap ≤ 256) }
{
    let queue = &shared.seats[worker.index].queue;
    let head = queue.head();
    worker.place = match head.fit(queue.tail()) {
        Fit::Room(length) => Place::Push(InPush::StoreValue { length }, back),
        Fit::Overflow => Place::Push(InPush::FlowOver { head }, back),
        Fit::Claimed | Fit::Spent => Place::Global(InGlobal::Append, back),
    };
    Event::Turn
}

/// Stores the tail behind the value, of which the queue has so many then by the head that was loaded. The caller
/// must know that the worker has a seat and a runnable in the hand, and that its queue has room and is in the
/// middle of no overflow.
fn store_value<B: Drop>(
    worker: &mut Worker,
    count: usize,
    back: AfterPush,
    shared: &mut Shared<B>,
) -> Event
    requires there { worker.old.index < length shared.old.seats.items }
    requires hand { IsSome worker.old.hand }
    requires room { OfChair worker.old.index shared.old (λ chair. 0 < room_of chair.queue) }
    requires whole { OfChair worker.old.index shared.old (λ chair. chair.queue.held ≡ []) }
    ensures event { result ≡ Event.Turn }
    ensures goes { worker.new ≡ record worker.old {
      place = (if nat_le 2 count && nat_lt 1 shared.old.config.workers
          then Place.Kick InKick.LoadKickCount (AfterKick.Push back) else after_push_of back worker.old);
      hand = None;
    } }
    ensures chair { TurnsChair worker.old.index (λ chair. record chair {
      queue = published chair.queue
          (option_to_list worker.old.hand);
    }) shared.old shared.new }
    ensures kept { shared.new ≡ record shared.old { seats = shared.new.seats } }
{
    let Some(runnable) = worker.hand.take() else {
        unreachable!()
    };
    shared.seats[worker.index].queue.push_fitting(runnable);
    worker.place = if count >= 2 && shared.config.workers > 1 {
        Place::Kick(InKick::LoadKickCount, AfterKick::Push(back))
    } else {
        after_push(worker, back)
    };
    Event::Turn
}

/// Exchanges the head of a full queue: its newest half goes into the hands. The caller must know that the worker
/// has a seat, that its queue has 256 values by this head, isn't spent, and is in the middle of no other overflow,
/// and that its loot is empty, with 129 places.
pub fn flow_over<B: Drop>(
    worker: &mut Worker,
    head: Head,
    back: AfterPush,
    shared: &mut Shared<B>,
) -> Event
    requires there { worker.old.index < length shared.old.seats.items }
    requires full { OfChair worker.old.index shared.old (λ chair. head.real + 256 ≡ tail_of chair.queue) }
    requires unspent { OfChair worker.old.index shared.old (λ chair. is_spent (tail_of chair.queue) ≡ false) }
    requires whole { OfChair worker.old.index shared.old (λ chair. chair.queue.held ≡ []) }
    requires empty { worker.old.loot.values ≡ [] }
    requires places { 129 ≤ spare worker.old.loot }
    ensures event { result ≡ Event.Turn }
    ensures worker { OfChair worker.old.index shared.old (λ chair. worker.new
        ≡ with_overflow (same_head head (head_of chair.queue)) back chair.queue worker.old) }
    ensures chair { TurnsChair worker.old.index (λ chair. record chair {
      queue = overflowed_if (same_head head
          (head_of chair.queue)) chair.queue;
    }) shared.old shared.new }
    ensures kept { shared.new ≡ record shared.old { seats = shared.new.seats } }
{
    let queue = &mut shared.seats[worker.index].queue;
    match queue.overflow_exchange(head, &mut worker.loot) {
        Ok(()) => worker.place = Place::Push(InPush::StoreOldest, back),
        Err(_) => worker.place = Place::Push(InPush::LoadPushHead, back),
    }
    Event::Turn
}

/// Stores the tail behind the oldest half. The caller must know that the worker has a seat, and that its queue has
/// no other values.
fn store_oldest<B: Drop>(worker: &mut Worker, back: AfterPush, shared: &mut Shared<B>) -> Event
    requires there { worker.old.index < length shared.old.seats.items }
    requires empty { OfChair worker.old.index shared.old (λ chair. chair.queue.values ≡ []) }
    ensures makes { Makes (store_oldest back (desk_of worker.old)
        (queue_of (things_of shared.old) worker.old.index)) result worker.new }
    ensures goes { Goes worker.old worker.new }
    ensures chair { TurnsChair worker.old.index (λ chair. record chair { queue = restored chair.queue }) shared.old
        shared.new }
    ensures kept { shared.new ≡ record shared.old { seats = shared.new.seats } }
{
    shared.seats[worker.index].queue.restore();
    worker.place = Place::Global(InGlobal::Append, back);
    Event::Turn
}

/// Where a push leads.
pub(crate) fn after_push(worker: &Worker, back: AfterPush) -> Place
    ensures { result ≡ after_push_of back worker.now }
{
    match back {
        AfterPush::Act { task } => Place::Poll(task, InPoll::Act),
        AfterPush::Pick => worker.next_pick(),
        AfterPush::CallBack { next } => worker.next_callback(next),
    }
}

/// Appends all in the hands: the loot, and then the runnable. A closed queue lets them go. The caller must have a
/// place for each of them in the global queue, unless that is closed, and one more in the loot.
pub fn append<B: Drop>(worker: &mut Worker, back: AfterPush, shared: &mut Shared<B>) -> Event
    requires places { shared.old.global.closed ≡ false →
        length worker.old.loot.values + length (option_to_list worker.old.hand) ≤ spare_places shared.old.global }
    requires room { 1 ≤ spare worker.old.loot }
    ensures event { result ≡ Event.Turn }
    ensures goes { worker.new ≡ record worker.old {
      place = (if shared.old.global.closed
          then after_push_of back worker.old else Place.Global InGlobal.LoadGlobalSet back);
      hand = None;
      loot = record worker.old.loot { values = [] };
    } }
    ensures global { shared.new ≡ record shared.old {
      global = record
          shared.old.global {
            values = (if shared.old.global.closed then shared.old.global.values
                else shared.old.global.values ++ (worker.old.loot.values ++ option_to_list worker.old.hand));
          };
    } }
{
    let gone = after_push(worker, back);
    if let Some(runnable) = worker.hand.take() {
        worker.loot.push(runnable);
    }
    worker.place = if shared.global.append(&mut worker.loot) {
        Place::Global(InGlobal::LoadGlobalSet, back)
    } else {
        let_loot_go(worker);
        gone
    };
    Event::Turn
}

/// Lets go of the loot.
fn let_loot_go(worker: &mut Worker)
    ensures { worker.new ≡ record worker.old { loot = record worker.old.loot { values = [] } } }
{
    while let Some(runnable) = worker.loot.pop() {
        runnable.discard();
    }
}

/// Loads the idle set.
pub fn load_global_set(worker: &mut Worker, back: AfterPush, idle: &PureIdle) -> Event
    ensures event { result ≡ Event.Turn }
    ensures goes { worker.new ≡ record worker.old {
      place = (if has_any idle.now
          then Place.Global (InGlobal.AddGlobalCount (set_of idle.now)) back else after_push_of back worker.old);
    } }
{
    let set = idle.set();
    worker.place = match set.lowest() {
        Some(_) => Place::Global(InGlobal::AddGlobalCount { set }, back),
        None => after_push(worker, back),
    };
    Event::Turn
}

/// Adds a search count, for the worker that is claimed next. The caller must know that the search count then is
/// below 2^64.
pub fn add_global_count(
    worker: &mut Worker,
    set: WorkerSet,
    back: AfterPush,
    idle: &mut PureIdle,
) -> Event
    requires few { idle.old.count + 1 < 2 ^ 64 }
    ensures makes { Makes (add_global_count set back (desk_of worker.old) idle.old) result worker.new }
    ensures goes { Goes worker.old worker.new }
    ensures idle { idle.new ≡ record idle.old { count = idle.old.count + 1 } }
{
    idle.add();
    worker.place = Place::ClaimWorker(set, AfterClaim::Global(back));
    Event::Turn
}

/// Returns the search count, since nobody was claimed. Who returned the last looks at the set again. The caller
/// must know that the search count isn't 0.
pub fn return_global_count(worker: &mut Worker, back: AfterPush, idle: &mut PureIdle) -> Event
    requires holds { 0 < idle.old.count }
    ensures event { result ≡ Event.Turn }
    ensures goes { worker.new ≡ record worker.old {
      place = (if idle.old.count == 1 then Place.Global InGlobal.LoadGlobalSet back else after_push_of back worker.old);
    } }
    ensures idle { idle.new ≡ record idle.old { count = idle.old.count - 1 } }
{
    worker.place = if idle.subtract() == 1 {
        Place::Global(InGlobal::LoadGlobalSet, back)
    } else {
        after_push(worker, back)
    };
    Event::Turn
}
