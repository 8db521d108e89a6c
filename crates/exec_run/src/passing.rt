//! The words of a script: which of them comes next.
//!
//! A word that asks for nothing is passed over: a `drop` where nothing is held, and a `wake` of a task that isn't
//! there.

ghost use Rattle.std.specs.Prelude.{◌≡◌, ◌+◌, ◌<◌, ◌≤◌, ◌^◌, nat_lt, not, true, length, drop, Some};
ghost use Rattle.exec_task.specs.Sight.{Sight};
ghost use Rattle.exec_run.specs.Script.{is_passed, passed_over, word_at, word_of_wait};

use exec_base::task_no::TaskNo;
use exec_machine::config::ScriptWord;
use exec_task::body::Around;

/// What a body does that waits for the stop of the pool.
pub(crate) fn word_of_wait(stopped: bool) -> ScriptWord
    ensures { result ≡ word_of_wait stopped }
{
    if stopped {
        ScriptWord::End
    } else {
        ScriptWord::Await
    }
}

/// The number of the first word from this one on that asks for something, where a script holds something or nothing.
#[tactic(auto, using(crate::proofs::Acts::goes_on))]
pub(crate) fn next_place<A: Around>(
    words: &[ScriptWord],
    holds: bool,
    around: &A,
    from: usize,
) -> usize
    ensures { (it : Sight) → A.sees around.now ≡ Some it → it.tasks ≤ 2 ^ 32 →
        result ≡ from + passed_over (not holds) it.tasks (drop from words.now) }
{
    let mut place = from;
    while is_idle(words, holds, around, place) {
        place += 1;
    }
    place
}

/// Whether the word of this number asks for nothing, where a script holds something or nothing.
fn is_idle<A: Around>(words: &[ScriptWord], holds: bool, around: &A, place: usize) -> bool
    ensures within { result ≡ true → place < length words.now }
    ensures passed { (it : Sight) → A.sees around.now ≡ Some it → it.tasks ≤ 2 ^ 32 →
        result ≡ is_passed (not holds) it.tasks (word_at words.now place) }
{
    match word_of(words, place) {
        ScriptWord::Drop => !holds,
        ScriptWord::Wake { task } => !has_task(around, task),
        _ => false,
    }
}

/// Whether there is a task of this number.
fn has_task<A: Around>(around: &A, task: usize) -> bool
    ensures { (it : Sight) → A.sees around.now ≡ Some it → it.tasks ≤ 2 ^ 32 → result ≡ nat_lt task it.tasks }
{
    match u32::try_from(task) {
        Ok(number) => around.has_task(TaskNo(number)),
        Err(_) => false,
    }
}

/// The word of this number. Past the last it is the end.
pub(crate) fn word_of(words: &[ScriptWord], place: usize) -> ScriptWord
    ensures { result ≡ word_at words.now place }
{
    words.get(place).copied().unwrap_or(ScriptWord::End)
}

/// The number behind this one, where that is of a word; else this one.
pub(crate) fn place_past(words: &[ScriptWord], place: usize) -> usize
    ensures past { place < length words.now → result ≡ place + 1 }
    ensures stays { length words.now ≤ place → result ≡ place }
{
    if place < words.len() {
        place + 1
    } else {
        place
    }
}
