//! The search of a worker with nothing to do: half of the values of another run queue move into its own.
//!
//! A worker searches only while less than half of the workers do, and holds a search count from then on, until it
//! leaves the search or looks once more. It goes over the other queues once, from a worker on that a generator picks.
//! At each it loads the head and then the tail, and exchanges the head for a claim of half of what lies between; what
//! it can't take it passes. The values are moved while the claim stands, and published by a store of its own tail after
//! the release.

ghost use Rattle.exec_invariants.specs.{Sound.SoundAt, Whole.HasWhole, Works.Steps};
ghost use Rattle.std.specs.Prelude.{◌+◌, ◌-◌, ◌<◌, ◌≡◌, ◌^◌, ◌≤◌, [], length, true};
ghost use Rattle.exec_words.specs.{Generator.stirred, Head.claim_at, Queue.{head_of, published, room_of, tail_of}, Reserved.{extended, spare}};
ghost use Rattle.exec_machine.specs.declared.config.Configuration.{Configuration};
ghost use Rattle.exec_moves.specs.{Pop.same_head, Search.{add_search_count, claim_half, from_of as number_from, judge_head as judged, load_scan_head, load_search_count, load_their_head, load_their_tail, looks_at, move_half, past as scan_past, release_half}, State.queue_of};
ghost use Rattle.exec_parts.specs.{Phased.TurnsChair, Pooled.{OfChair, claimed_if, released_if, taken_if}, Tests.{first_search_of, leaves_turn_of}, View.{desk_of, things_of}, Things.{Goes, Makes}};

use exec_machine::event::Event;
use exec_moves::idling::{InLook, InScan, InSearch, Scan};
use exec_moves::place::Place;
use exec_parts::parts::shared::Shared;
use exec_parts::parts::worker::Worker;
use exec_parts::scripted::Scripted;
use exec_words::generator::stirred;
use exec_words::head::Head;
use exec_words::idle::PureIdle;
use exec_words::{CAPACITY, HALF, STEALABLE};

/// Takes the next step before a scan.
pub(crate) fn search<B: Scripted + Drop>(
    worker: &mut Worker,
    at: InSearch,
    shared: &mut Shared<B>,
) -> Event
    requires sound { SoundAt (Place.Search at) worker.old shared.old }
    requires whole { HasWhole worker.old shared.old }
    ensures steps { Steps B.left B.spot worker.old shared.old result worker.new shared.new }
{
    match at {
        InSearch::LoadSearchCount => {
            load_search_count(worker, &shared.idle, shared.config.workers)
        }
        InSearch::AddSearchCount => add_search_count(worker, &mut shared.idle),
    }
}

/// Takes the next step of a scan.
pub(crate) fn scan<B: Scripted + Drop>(
    worker: &mut Worker,
    at: InScan,
    shared: &mut Shared<B>,
) -> Event
    requires sound { SoundAt (Place.Scan at) worker.old shared.old }
    requires whole { HasWhole worker.old shared.old }
    ensures steps { Steps B.left B.spot worker.old shared.old result worker.new shared.new }
{
    match at {
        InScan::LoadScanHead => load_scan_head(worker, shared),
        InScan::LoadTheirHead { scan } => load_their_head(worker, scan, shared),
        InScan::LoadTheirTail { scan, head } => load_their_tail(worker, scan, head, shared),
        InScan::ClaimHalf { scan, head, tail } => claim_half(worker, scan, head, tail, shared),
        InScan::MoveHalf { from, head } => move_half(worker, from, head),
        InScan::ReleaseHalf { from, head } => release_half(worker, from, head, shared),
        InScan::StoreMoved => store_moved(worker, shared),
    }
}

/// The first step of a worker that has nothing to do and isn't due: a search, or the look where it is alone.
pub(crate) fn first_search(worker: &Worker, workers: usize) -> Place
    requires workers { 0 < workers }
    ensures { result ≡ first_search_of workers worker.now }
{
    if workers == 1 {
        Place::Look(InLook::Publish)
    } else if worker.searching {
        Place::Scan(InScan::LoadScanHead)
    } else {
        Place::Search(InSearch::LoadSearchCount)
    }
}

/// Loads the search count: where half of the workers search, this one doesn't.
fn load_search_count(worker: &mut Worker, idle: &PureIdle, workers: usize) -> Event
    ensures makes { (c : Configuration) → c.workers ≡ workers →
        Makes (load_search_count c (desk_of worker.old) idle.now) result worker.new }
    ensures goes { Goes worker.old worker.new }
{
    worker.place = if idle.count() >= workers.div_ceil(2) {
        Place::Look(InLook::Publish)
    } else {
        Place::Search(InSearch::AddSearchCount)
    };
    Event::Turn
}

/// Adds a search count, which the worker holds from now on. The caller must know that the search count then is
/// below 2^64.
fn add_search_count(worker: &mut Worker, idle: &mut PureIdle) -> Event
    requires few { idle.old.count + 1 < 2 ^ 64 }
    ensures makes { Makes (add_search_count (desk_of worker.old) idle.old) result worker.new }
    ensures same { worker.new ≡ record worker.old { place = worker.new.place; searching = true } }
    ensures idle { idle.new ≡ record idle.old { count = idle.old.count + 1 } }
{
    idle.add();
    worker.searching = true;
    worker.place = Place::Scan(InScan::LoadScanHead);
    Event::Turn
}

/// Loads the own head, for its room: a scan wants half of the places free. The caller must know that the worker has
/// a seat, and must have some workers.
fn load_scan_head<B: Drop>(worker: &mut Worker, shared: &Shared<B>) -> Event
    requires there { worker.old.index < length shared.now.seats.items }
    requires workers { 0 < shared.now.config.workers }
    ensures makes { Makes (load_scan_head shared.now.config worker.old.index (desk_of worker.old)
        (queue_of (things_of shared.now) worker.old.index)) result worker.new }
    ensures same { worker.new ≡ record worker.old { place = worker.new.place; rng = stirred worker.old.rng } }
{
    worker.rng = stirred(worker.rng);
    let workers = shared.config.workers;
    let scan = Scan {
        start: worker.rng as usize % workers,
        passed: 0,
    };
    worker.place = if shared.seats[worker.index].queue.room() < HALF {
        Place::Look(InLook::Publish)
    } else {
        look_at(worker, scan, workers)
    };
    Event::Turn
}

/// Goes on to the queue that is next, which isn't the own one. After the last the scan has failed.
fn look_at(worker: &Worker, scan: Scan, workers: usize) -> Place
    requires workers { 0 < workers }
    requires few { scan.start + scan.passed + 1 < 2 ^ 64 }
    ensures { (c : Configuration) → c.workers ≡ workers → result ≡ looks_at c worker.now.index scan }
{
    let scan = if from_of(scan, workers) == worker.index {
        past(scan)
    } else {
        scan
    };
    if scan.passed < workers {
        Place::Scan(InScan::LoadTheirHead { scan })
    } else {
        Place::Look(InLook::Publish)
    }
}

/// Loads the head of another queue. The caller must have some workers and a seat for each, and know that the two
/// numbers of the scan come to less than 2^64 - 2.
fn load_their_head<B: Drop>(worker: &mut Worker, scan: Scan, shared: &Shared<B>) -> Event
    requires workers { 0 < shared.now.config.workers }
    requires seats { shared.now.config.workers ≤ length shared.now.seats.items }
    requires few { scan.start + scan.passed + 2 < 2 ^ 64 }
    ensures makes { Makes (load_their_head shared.now.config worker.old.index scan (desk_of worker.old)
        (queue_of (things_of shared.now) (number_from shared.now.config scan))) result worker.new }
    ensures goes { Goes worker.old worker.new }
{
    let workers = shared.config.workers;
    let head = shared.seats[from_of(scan, workers)].queue.head();
    worker.place = judge_head(worker, scan, head, workers);
    Event::Turn
}

/// Goes on by the head that was found: its tail is loaded, unless a claim stands.
fn judge_head(worker: &Worker, scan: Scan, head: Head, workers: usize) -> Place
    requires workers { 0 < workers }
    requires few { scan.start + scan.passed + 2 < 2 ^ 64 }
    ensures { (c : Configuration) → c.workers ≡ workers → result ≡ judged c worker.now.index scan head }
{
    if head.gap == 0 {
        Place::Scan(InScan::LoadTheirTail { scan, head })
    } else {
        look_at(worker, past(scan), workers)
    }
}

/// Loads the tail of another queue. An overflow can come between the two loads; then the head is too old. The
/// caller must have some workers and a seat for each, and know that the two numbers of the scan come to less than
/// 2^64 - 2.
fn load_their_tail<B: Drop>(
    worker: &mut Worker,
    scan: Scan,
    head: Head,
    shared: &Shared<B>,
) -> Event
    requires workers { 0 < shared.now.config.workers }
    requires seats { shared.now.config.workers ≤ length shared.now.seats.items }
    requires few { scan.start + scan.passed + 2 < 2 ^ 64 }
    ensures makes { Makes (load_their_tail shared.now.config worker.old.index scan head (desk_of worker.old)
        (queue_of (things_of shared.now) (number_from shared.now.config scan))) result worker.new }
    ensures goes { Goes worker.old worker.new }
{
    let workers = shared.config.workers;
    let tail = shared.seats[from_of(scan, workers)].queue.tail();
    let len = head.len(tail);
    worker.place = if len > CAPACITY {
        Place::Scan(InScan::LoadTheirHead { scan })
    } else if len < STEALABLE {
        look_at(worker, past(scan), workers)
    } else {
        Place::Scan(InScan::ClaimHalf { scan, head, tail })
    };
    Event::Turn
}

/// Exchanges the head of another queue for a claim of half of its values, which go into the hands. The caller must
/// have some workers and a seat for each, and know that the two numbers of the scan come to less than 2^64 - 2;
/// must have seen no claim, two values at least, and a tail that isn't past that of the queue; and must have an
/// empty loot with 128 places.
pub fn claim_half<B: Drop>(
    worker: &mut Worker,
    scan: Scan,
    head: Head,
    tail: u64,
    shared: &mut Shared<B>,
) -> Event
    requires workers { 0 < shared.old.config.workers }
    requires seats { shared.old.config.workers ≤ length shared.old.seats.items }
    requires few { scan.start + scan.passed + 2 < 2 ^ 64 }
    requires unclaimed { head.gap ≡ 0 }
    requires stealable { head.real + 2 ≤ tail }
    requires past { OfChair (number_from shared.old.config scan) shared.old (λ chair. tail ≤ tail_of chair.queue) }
    requires empty { worker.old.loot.values ≡ [] }
    requires places { 128 ≤ spare worker.old.loot }
    ensures makes { Makes (claim_half shared.old.config worker.old.index scan head tail (desk_of worker.old)
        (queue_of (things_of shared.old) (number_from shared.old.config scan))) result worker.new }
    ensures loot { OfChair (number_from shared.old.config scan) shared.old
        (λ chair. worker.new.loot ≡ extended worker.old.loot
        (taken_if (same_head head (head_of chair.queue)) (claim_at head tail) chair.queue.values)) }
    ensures same { worker.new ≡ record worker.old { place = worker.new.place; loot = worker.new.loot } }
    ensures chair { TurnsChair (number_from shared.old.config scan)
        (λ chair. record chair {
          queue = claimed_if (same_head head (head_of chair.queue))
              (claim_at head tail) chair.queue;
        }) shared.old shared.new }
    ensures kept { shared.new ≡ record shared.old { seats = shared.new.seats } }
{
    let workers = shared.config.workers;
    let from = from_of(scan, workers);
    let claimed = shared.seats[from]
        .queue
        .claim_exchange(head, tail, &mut worker.loot);
    match claimed {
        Ok(count) => {
            let head = Head {
                real: head.real + count as u64,
                gap: count,
            };
            worker.place = Place::Scan(InScan::MoveHalf { from, head });
            Event::Turn
        }
        Err(found) => {
            worker.place = judge_head(worker, scan, found, workers);
            Event::Turn
        }
    }
}

/// Moves the values.
pub fn move_half(worker: &mut Worker, from: usize, head: Head) -> Event
    ensures makes { Makes (move_half from head (desk_of worker.old)) result worker.new }
    ensures goes { Goes worker.old worker.new }
{
    worker.place = Place::Scan(InScan::ReleaseHalf { from, head });
    Event::Turn
}

/// Exchanges the head of the other queue for one without the claim. The caller must know that there is such a
/// worker.
fn release_half<B: Drop>(
    worker: &mut Worker,
    from: usize,
    head: Head,
    shared: &mut Shared<B>,
) -> Event
    requires there { from < length shared.old.seats.items }
    ensures makes { Makes (release_half from head (desk_of worker.old)
        (queue_of (things_of shared.old) from)) result worker.new }
    ensures goes { Goes worker.old worker.new }
    ensures chair { TurnsChair from (λ chair. record chair {
      queue = released_if (same_head head
          (head_of chair.queue)) chair.queue;
    }) shared.old shared.new }
    ensures kept { shared.new ≡ record shared.old { seats = shared.new.seats } }
{
    let next = match shared.seats[from].queue.release_exchange(head) {
        Ok(()) => InScan::StoreMoved,
        Err(head) => InScan::ReleaseHalf { from, head },
    };
    worker.place = Place::Scan(next);
    Event::Turn
}

/// Stores the own tail behind the values that were moved. The caller must know that the worker has a seat, and that
/// its queue has room for them and is in the middle of no overflow.
fn store_moved<B: Drop>(worker: &mut Worker, shared: &mut Shared<B>) -> Event
    requires there { worker.old.index < length shared.old.seats.items }
    requires room { OfChair worker.old.index shared.old (λ chair. length worker.old.loot.values ≤ room_of chair.queue) }
    requires whole { OfChair worker.old.index shared.old (λ chair. chair.queue.held ≡ []) }
    ensures event { result ≡ Event.Turn }
    ensures goes { worker.new ≡ record worker.old {
      place = leaves_turn_of worker.old;
      loot = record worker.old.loot { values = [] };
    } }
    ensures chair { TurnsChair worker.old.index (λ chair. record
        chair { queue = published chair.queue worker.old.loot.values }) shared.old shared.new }
    ensures kept { shared.new ≡ record shared.old { seats = shared.new.seats } }
{
    let count = worker.loot.len();
    shared.seats[worker.index]
        .queue
        .publish(count, &mut worker.loot);
    worker.place = worker.next_turn();
    Event::Turn
}

/// The worker whose queue is next.
fn from_of(scan: Scan, workers: usize) -> usize
    requires workers { 0 < workers }
    requires few { scan.start + scan.passed < 2 ^ 64 }
    ensures number { (c : Configuration) → c.workers ≡ workers → result ≡ number_from c scan }
    ensures within { result < workers }
{
    (scan.start + scan.passed) % workers
}

/// The scan past the queue that was next.
fn past(scan: Scan) -> Scan
    requires { scan.passed + 1 < 2 ^ 64 }
    ensures { result ≡ scan_past scan }
{
    Scan {
        passed: scan.passed + 1,
        ..scan
    }
}
