//! The cases of a pool: the live idle set with a searcher for each worker, over a fake pool.

ghost use Rattle.std.specs.Prelude.{◌≡◌, ◌≤◌, false};
ghost use Rattle.exec_live_idle.specs.{Idle.{knows, IsSeatOf}, Live.first_view};

use crate::fault::Fault;
use crate::player::Player;
use crate::pool::Pool;
use crate::report::Report;
use crate::script::Script;
use crate::shares;
use crate::words::{flag, place};
use exec_live_idle::seat::{Idle, IdleSeat};
use exec_words::idle::Park;
use std::alloc::{AllocError, AllocFailed, Global};
use std::str::SplitWhitespace;
use std::sync::Wait;

/// Plays a case with so many workers.
pub fn play<R: Wait>(
    rt: &R,
    alloc: Global,
    workers: u64,
    script: &mut Script<'_>,
    report: &mut Report,
) -> Result<(), Fault> {
    let workers = workers as usize;
    if workers > 64 {
        return Err(Fault::Condition);
    }
    let mut pool = Pool::new(alloc, workers);
    pool.queues.fill(alloc, workers)?;
    let (idle, mut caller) = Idle::new(alloc, workers)?;
    let mut players = gather(rt, alloc, &idle, &mut caller, workers);
    play_lines(
        rt,
        alloc,
        &idle,
        &mut caller,
        &mut players,
        &mut pool,
        script,
        report,
    );
    while let Some(player) = players.pop() {
        player.end(rt, alloc);
    }
    players.destroy_empty();
    drop(caller.leave());
    Ok(())
}

/// Plays the lines of a case.
fn play_lines<R: Wait>(
    rt: &R,
    alloc: Global,
    idle: &Idle,
    caller: &mut IdleSeat,
    players: &mut Vec<Player<'_>>,
    pool: &mut Pool,
    script: &mut Script<'_>,
    report: &mut Report,
)
    requires at { IsSeatOf idle.now caller.old }
    requires free { (knows caller.old).held ≡ 0 }
    requires unpublished { (knows caller.old).published ≡ false }
    requires workers { (knows caller.old).workers ≡ pool.old.bell.workers }
    ensures free { (knows caller.new).held ≡ 0 }
    ensures unpublished { (knows caller.new).published ≡ false }
{
    for _ in 0..script.len() {
        let Some(line) = script.next() else {
            return;
        };
        let given = answer(rt, alloc, idle, caller, players, pool, line.call);
        report.note(line, given);
    }
}

/// The workers, none of which is parked.
fn gather<'a, R: Wait>(
    rt: &R,
    alloc: Global,
    idle: &'a Idle,
    caller: &mut IdleSeat,
    workers: usize,
) -> Vec<Player<'a>>
    requires at { IsSeatOf idle.now caller.old }
    requires workers { workers ≤ 64 }
    requires view { knows caller.old ≡ first_view workers }
    ensures at { IsSeatOf idle.now caller.new }
    ensures free { (knows caller.new).held ≡ 0 }
    ensures unpublished { (knows caller.new).published ≡ false }
    ensures workers { (knows caller.new).workers ≡ workers }
{
    let mut players = Vec::new(alloc);
    for made in 0..workers {
        let player = Player::new(idle, idle.seat(caller), workers);
        if let Err(failed) = players.push(player) {
            let AllocFailed { value } = failed;
            value.end(rt, alloc);
        }
    }
    players
}

/// Makes a call, and answers what it gave, and then the set, the count and who was woken.
fn answer<R: Wait>(
    rt: &R,
    alloc: Global,
    idle: &Idle,
    caller: &mut IdleSeat,
    players: &mut Vec<Player<'_>>,
    pool: &mut Pool,
    call: &str,
) -> Result<String, Fault>
    requires at { IsSeatOf idle.now caller.old }
    requires free { (knows caller.old).held ≡ 0 }
    requires unpublished { (knows caller.old).published ≡ false }
    requires workers { (knows caller.old).workers ≡ pool.old.bell.workers }
    ensures at { IsSeatOf idle.now caller.new }
    ensures free { (knows caller.new).held ≡ 0 }
    ensures unpublished { (knows caller.new).published ≡ false }
    ensures workers { (knows caller.new).workers ≡ pool.new.bell.workers }
{
    pool.begin();
    let mut words = call.split_whitespace();
    let operation = words.next().unwrap_or("");
    let given = make(
        rt, alloc, idle, caller, players, pool, operation, &mut words,
    );
    let (set, count) = (idle.look(caller), idle.count(caller));
    let woken = woken(alloc, pool)?;
    Ok(format!(in alloc; "{} idle {set} count {count} woken{woken}", given?)?)
}

/// Makes a call, and answers what it gave.
fn make<R: Wait>(
    rt: &R,
    alloc: Global,
    idle: &Idle,
    caller: &mut IdleSeat,
    players: &mut Vec<Player<'_>>,
    pool: &mut Pool,
    operation: &str,
    words: &mut SplitWhitespace<'_>,
) -> Result<String, Fault>
    requires at { IsSeatOf idle.now caller.old }
    requires free { (knows caller.old).held ≡ 0 }
    requires unpublished { (knows caller.old).published ≡ false }
    requires workers { (knows caller.old).workers ≡ pool.old.bell.workers }
    ensures at { IsSeatOf idle.now caller.new }
    ensures free { (knows caller.new).held ≡ 0 }
    ensures unpublished { (knows caller.new).published ≡ false }
    ensures workers { (knows caller.new).workers ≡ pool.new.bell.workers }
{
    match operation {
        "park" | "look" | "search" | "leave" | "finish" => {
            of_worker(rt, alloc, players, pool, operation, words)
        }
        "push" | "enqueue" => shares::put(rt, alloc, idle, caller, pool, operation, words),
        _ => {
            let workers = pool.bell.workers;
            shares::answer(alloc, &mut pool.queues, workers, operation, words)
        }
    }
}

/// Who was woken, as the words that end an answer.
fn woken(alloc: Global, pool: &Pool) -> Result<String, AllocError> {
    let mut text = String::new(alloc);
    for (worker, is_woken) in pool.bell.woken.iter().enumerate() {
        if *is_woken {
            text.push_str(format!(in alloc; " {worker}")?.as_str())?;
        }
    }
    Ok(text)
}

/// Makes a call of a worker, and answers what it gave.
fn of_worker<R: Wait>(
    rt: &R,
    alloc: Global,
    players: &mut Vec<Player<'_>>,
    pool: &mut Pool,
    operation: &str,
    words: &mut SplitWhitespace<'_>,
) -> Result<String, Fault>
    ensures { pool.new.bell.workers ≡ pool.old.bell.workers }
{
    let at = place(words, players.len())?;
    let player = &mut players[at];
    match operation {
        "park" => {
            let word = match player.park(rt, pool)? {
                Park::Wait => "Wait",
                Park::Run => "Run",
                Park::Search => "Search",
            };
            Ok(String::from_str(alloc, word)?)
        }
        "look" => {
            let runs = flag(alloc, player.look(rt, pool)?)?;
            Ok(format!(in alloc; "{runs} moved {}", pool.moved)?)
        }
        "search" => {
            player.search(rt, pool)?;
            Ok(format!(in alloc; "moved {}", pool.moved)?)
        }
        "leave" => {
            player.leave(rt, pool)?;
            Ok(String::from_str(alloc, "ok")?)
        }
        _ => {
            let holds = flag(alloc, player.finish()?)?;
            Ok(format!(in alloc; "holds {holds}")?)
        }
    }
}
