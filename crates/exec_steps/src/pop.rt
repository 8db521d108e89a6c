//! A pop of the own run queue, in a pick and at the emptying of a closing worker's queue.
//!
//! A lone worker's queue has no thieves, so its pop is one action. Else the worker loads the head and exchanges it;
//! where a thief was faster, it goes by the head that it found. A lone value without a claim no thief takes, so a store
//! is enough for that. The tail is the owner's own.

ghost use Rattle.exec_invariants.specs.{Sound.SoundAt, Whole.HasWhole, Works.Steps};
ghost use Rattle.std.specs.Prelude.{◌-◌, ◌<◌, ◌≡◌, ◌^◌, true, length, slice_get, Some};
ghost use Rattle.exec_machine.specs.declared.config.Configuration.{Configuration};
ghost use Rattle.exec_words.specs.Queue.{head_of, popped, tail_of};
ghost use Rattle.exec_moves.specs.Pop.{after_empty_pop as after_none, judge_pop as judged, same_head, shard_count};
ghost use Rattle.exec_parts.specs.{Phased.TurnsChair, Pooled.{OfChair, is_discard, popped_if, popped_if_any, with_exchanged, with_judged, with_popped}};

use crate::turn::poll_next;
use exec_machine::event::Event;
use exec_moves::handing::{AfterPop, First, InPop};
use exec_moves::place::{InClosing, InPick, Place};
use exec_parts::parts::shared::Shared;
use exec_parts::parts::worker::Worker;
use exec_parts::scripted::Scripted;
use exec_parts::ways::first_pop;
use exec_task::runnable::Runnable;
use exec_words::head::Head;

/// Takes the next step of a pop.
pub(crate) fn pop<B: Scripted + Drop>(
    worker: &mut Worker,
    at: InPop,
    back: AfterPop,
    shared: &mut Shared<B>,
) -> Event
    requires sound { SoundAt (Place.Pop at back) worker.old shared.old }
    requires whole { HasWhole worker.old shared.old }
    ensures steps { Steps B.left B.spot worker.old shared.old result worker.new shared.new }
{
    match at {
        InPop::PopAlone => pop_alone(worker, back, shared),
        InPop::LoadPopHead => load_pop_head(worker, back, shared),
        InPop::ExchangePop { head } => exchange_pop(worker, head, back, shared),
        InPop::StorePop => store_pop(worker, back, shared),
    }
}

/// Pops the queue of a lone worker. The caller must know that the worker has a seat and a number of 32 bits, and
/// that the task set has the shards of the configuration, and is closed where the queue is emptied.
fn pop_alone<B: Drop>(worker: &mut Worker, back: AfterPop, shared: &mut Shared<B>) -> Event
    requires there { worker.old.index < length shared.old.seats.items }
    requires closed { is_discard back ≡ true → shared.old.set.closed ≡ true }
    requires shards { length shared.old.set.shards ≡ shard_count shared.old.config }
    requires few { worker.old.index < 2 ^ 32 }
    ensures event { result ≡ Event.Turn }
    ensures worker { OfChair worker.old.index shared.old (λ chair. worker.new
        ≡ with_popped shared.old.config back (slice_get chair.queue.values 0) worker.old) }
    ensures chair { TurnsChair worker.old.index (λ chair. record chair { queue = popped_if_any chair.queue })
        shared.old shared.new }
    ensures kept { shared.new ≡ record shared.old { seats = shared.new.seats } }
{
    let popped = shared.seats[worker.index].queue.pop();
    match popped {
        Some(runnable) => after_pop(worker, runnable, back, shared.config.workers),
        None => after_empty_pop(worker, back, shared),
    }
    Event::Turn
}

/// Loads the head. The caller must know that the worker has a seat and a number of 32 bits, and that the task set
/// has the shards of the configuration, and is closed where the queue is emptied.
fn load_pop_head<B: Drop>(worker: &mut Worker, back: AfterPop, shared: &Shared<B>) -> Event
    requires there { worker.old.index < length shared.now.seats.items }
    requires closed { is_discard back ≡ true → shared.now.set.closed ≡ true }
    requires shards { length shared.now.set.shards ≡ shard_count shared.now.config }
    requires few { worker.old.index < 2 ^ 32 }
    ensures event { result ≡ Event.Turn }
    ensures worker { OfChair worker.old.index shared.now (λ chair. worker.new
        ≡ with_judged shared.now.config back chair.queue worker.old) }
{
    let head = shared.seats[worker.index].queue.head();
    judge_pop(worker, head, back, shared);
    Event::Turn
}

/// Exchanges the head that was found for one past the oldest value. The caller must know that the worker has a seat
/// and a number of 32 bits, that the task set has the shards of the configuration, and is closed where the queue is
/// emptied; and must have seen a value: the head that was found is before the tail.
fn exchange_pop<B: Drop>(
    worker: &mut Worker,
    head: Head,
    back: AfterPop,
    shared: &mut Shared<B>,
) -> Event
    requires there { worker.old.index < length shared.old.seats.items }
    requires closed { is_discard back ≡ true → shared.old.set.closed ≡ true }
    requires shards { length shared.old.set.shards ≡ shard_count shared.old.config }
    requires few { worker.old.index < 2 ^ 32 }
    requires seen { OfChair worker.old.index shared.old (λ chair. head.real < tail_of chair.queue) }
    ensures event { result ≡ Event.Turn }
    ensures worker { OfChair worker.old.index shared.old (λ chair. worker.new
        ≡ with_exchanged (same_head head (head_of chair.queue)) shared.old.config back chair.queue worker.old) }
    ensures chair { TurnsChair worker.old.index (λ chair. record chair {
      queue = popped_if (same_head head
          (head_of chair.queue)) chair.queue;
    }) shared.old shared.new }
    ensures kept { shared.new ≡ record shared.old { seats = shared.new.seats } }
{
    match shared.seats[worker.index].queue.pop_exchange(head) {
        Ok(runnable) => after_pop(worker, runnable, back, shared.config.workers),
        Err(found) => judge_pop(worker, found, back, shared),
    }
    Event::Turn
}

/// Stores the head past a lone value without a claim. The caller must know that the worker has a seat, and that its
/// queue has one value and no claim.
fn store_pop<B: Drop>(worker: &mut Worker, back: AfterPop, shared: &mut Shared<B>) -> Event
    requires there { worker.old.index < length shared.old.seats.items }
    requires lone { OfChair worker.old.index shared.old (λ chair. length chair.queue.values ≡ 1) }
    requires unclaimed { OfChair worker.old.index shared.old (λ chair. chair.queue.gap ≡ 0) }
    ensures event { result ≡ Event.Turn }
    ensures worker { OfChair worker.old.index shared.old (λ chair. worker.new
        ≡ with_popped shared.old.config back (slice_get chair.queue.values 0) worker.old) }
    ensures chair { TurnsChair worker.old.index (λ chair. record chair { queue = popped chair.queue }) shared.old
        shared.new }
    ensures kept { shared.new ≡ record shared.old { seats = shared.new.seats } }
{
    let runnable = shared.seats[worker.index].queue.pop_last();
    after_pop(worker, runnable, back, shared.config.workers);
    Event::Turn
}

/// Goes on by the head that was found.
fn judge_pop<B: Drop>(worker: &mut Worker, head: Head, back: AfterPop, shared: &Shared<B>)
    requires there { worker.old.index < length shared.now.seats.items }
    requires closed { is_discard back ≡ true → shared.now.set.closed ≡ true }
    requires shards { length shared.now.set.shards ≡ shard_count shared.now.config }
    requires few { worker.old.index < 2 ^ 32 }
    ensures goes { OfChair worker.old.index shared.now (λ chair. worker.new
        ≡ record worker.old {
          place = judged shared.now.config worker.old.index back head
              (tail_of chair.queue - head.real);
        }) }
{
    let len = head.len(shared.seats[worker.index].queue.tail());
    if len == 0 {
        after_empty_pop(worker, back, shared);
    } else if len == 1 && head.gap == 0 {
        worker.place = Place::Pop(InPop::StorePop, back);
    } else {
        worker.place = Place::Pop(InPop::ExchangePop { head }, back);
    }
}

/// What follows once something came: its poll, or its end and the next pop.
fn after_pop(worker: &mut Worker, runnable: Runnable, back: AfterPop, workers: usize)
    ensures { (c : Configuration) → c.workers ≡ workers → worker.new ≡ with_popped c back (Some runnable) worker.old }
{
    match back {
        AfterPop::Pick { .. } => poll_next(worker, runnable),
        AfterPop::Discard => {
            runnable.discard();
            worker.place = first_pop(workers, back);
        }
    }
}

/// What follows where the queue was empty.
fn after_empty_pop<B: Drop>(worker: &mut Worker, back: AfterPop, shared: &Shared<B>)
    requires closed { is_discard back ≡ true → shared.now.set.closed ≡ true }
    requires shards { length shared.now.set.shards ≡ shard_count shared.now.config }
    requires few { worker.old.index < 2 ^ 32 }
    ensures goes { worker.new ≡ record worker.old { place = after_none shared.now.config worker.old.index back } }
{
    worker.place = match back {
        AfterPop::Pick { first: First::Own } => Place::Pick(InPick::LoadMirror {
            first: First::Own,
        }),
        AfterPop::Pick {
            first: First::Global,
        } => Place::TakeRootFlag,
        AfterPop::Discard => Place::Closing(InClosing::Visit {
            drain: shared.set.drain(worker.index as u32),
        }),
    };
}
