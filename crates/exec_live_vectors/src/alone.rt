//! The exclusive queues of a case, replayed as what they are: the calls of their owners.
//!
//! An exclusive queue takes nothing from others here, so what is replayed of one ends at the first steal that moved
//! values into it.

ghost use Rattle.std.specs.Prelude.{◌≡◌, []};
ghost use Rattle.exec_live_queue.specs.Kinds.{handed};

use crate::fault::Fault;
use crate::locals::{let_go, owned};
use crate::report::Report;
use crate::script::{Line, Script};
use crate::words::number;
use exec_live_queue::exclusive::ExclusiveOwner;
use exec_live_queue::owner::Owner;
use exec_words::SPENT;
use std::alloc::Global;
use std::str::SplitWhitespace;
use std::sync::Wait;

/// Replays each exclusive queue of a case, whose queues these words name: each by its kind and the count of its first
/// value.
pub fn play<R: Wait>(
    rt: &R,
    alloc: Global,
    words: &mut SplitWhitespace<'_>,
    lines: &[String],
    report: &mut Report,
) -> Result<(), Fault> {
    for at in 0..64 {
        let Some(kind) = words.next() else {
            return Ok(());
        };
        let start = number(words)?;
        if kind != "exclusive" {
            continue;
        }
        if start > SPENT {
            return Err(Fault::Condition);
        }
        let owner = Owner::Exclusive(ExclusiveOwner::at(alloc, start)?);
        play_one(rt, alloc, owner, at, &mut Script::new(lines), report);
    }
    Err(Fault::Malformed)
}

/// Replays the calls of the owner of the queue at this place.
fn play_one<R: Wait>(
    rt: &R,
    alloc: Global,
    mut owner: Owner<u64>,
    at: u64,
    script: &mut Script<'_>,
    report: &mut Report,
)
    requires { handed owner ≡ [] }
{
    for _ in 0..script.len() {
        let Some(line) = script.next() else {
            break;
        };
        let Ok(goes_on) = play_line(alloc, &mut owner, at, line, report) else {
            break;
        };
        if !goes_on {
            break;
        }
    }
    let_go(rt, owner);
}

/// Replays a line, if it is a call of this owner. False where it moved values into its queue. Err where it is no call.
fn play_line(
    alloc: Global,
    owner: &mut Owner<u64>,
    at: u64,
    line: Line<'_>,
    report: &mut Report,
) -> Result<bool, Fault>
    requires { handed owner.old ≡ [] }
    ensures { handed owner.new ≡ [] }
{
    let mut words = line.call.split_whitespace();
    let operation = words.next().unwrap_or("");
    let first = number(&mut words)?;
    match operation {
        "steal" | "begin" => Ok(number(&mut words)? != at || line.wanted == "0"),
        "push" | "pop" | "pops" | "batch" | "len" | "room" if first == at => {
            let given = owned(alloc, owner, operation, &mut words);
            report.note(line, given);
            Ok(true)
        }
        _ => Ok(true),
    }
}
