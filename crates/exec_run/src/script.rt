//! The bodies of tasks: a script, or a wait for the stop of the pool.
//!
//! A script makes the acts of its words, one after another: it is told what came of the last, and goes on with the word
//! behind it. So it keeps which word is next, where the last one stood, what it asked for, and which requests it holds.
//! An act for which there was no memory is made again. A word that asks for nothing is passed: a `drop` where nothing
//! is held, and a `wake` of a task that isn't there. The root of a worker other than the first has no words: it waits
//! for a wake again and again, until the pool is stopped.

ghost use Rattle.std.specs.Prelude.{◌≡◌, ◌≢◌, ℕ, ◌+◌, ◌<◌, ◌≤◌, ◌^◌, false, is_some, IsTrue, [], length, vec_capacity, Some, IfSome, IfNone, OnOk, OnErr};
ghost use Rattle.exec_machine.specs.{Progress.Plan, Tasks.without_newest};
ghost use Rattle.exec_parts.specs.Scripts.{IsBorn};
ghost use Rattle.exec_run.specs.{Script.{begun, held_by, place_by, newest, script_begun, word_in, word_of_wait, words_of_all, asked_by, CanPlay, IsProgram, IsPlainActOf}, Asking.asks_request, declared.script.Asked.Asked as question};
ghost use Rattle.exec_task.specs.{declared.body.Act.TheVariants.{Dedicated, Register, Spawn, Wake}, Sight.Sight};
ghost use Rattle.exec_machine.specs.declared.state.Code.TheVariants as code;

use crate::asking::{Limits, request_of};
use crate::passing::{next_place, place_past, word_of, word_of_wait};
use exec_base::error::Error;
use exec_base::task_no::TaskNo;
use exec_machine::config::ScriptWord;
use exec_machine::state::Code;
use exec_parts::scripted::Scripted;
use exec_request::request::Request;
use exec_task::body::{Act, Around, Body, Said};
use std::alloc::{AllocError, Global};
use std::marker::Model;

/// So many names are there of 32 bits.
const NAMES: usize = 4_294_967_296;

/// What a script asked for last.
#[derive(Clone, Copy, Debug, PartialEq, Eq)]
pub enum Asked {
    /// A request.
    Request,
    /// To let the newest request go.
    LettingGo,
    /// To end.
    Ending,
    /// Anything else.
    Other,
}

/// What all bodies of a trace know.
#[derive(Clone, Copy)]
pub struct Program<'a> {
    /// The scripts, by number.
    pub scripts: &'a [Vec<ScriptWord>],
    /// How long requests may take.
    pub limits: Limits,
}

/// Who makes the bodies of scripts.
pub trait Scripts<B: Scripted> {
    // It knows the scripts of this plan.
    ghost knows: { Self → Plan → Type 0 };

    /// The body of the script of this number, which is to begin. None where there is no such script.
    fn body(&self, alloc: Global, script: usize) -> Option<B>
        ensures born { IfSome result (λ b. (p : Plan) → knows self.now p →
            IsBorn B.runs B.holds B.spot p script (B.left b)) }
        ensures none { IfNone result ((p : Plan) → knows self.now p → length p.scripts ≤ script) };
}

impl<'a> Scripts<Script<'a>> for Program<'a> {
    ghost knows = { λ it p. IsProgram (words_of_all it.scripts.now) it.limits p };

    fn body(&self, alloc: Global, script: usize) -> Option<Script<'a>> {
        Script::numbered(alloc, script, *self)
    }
}

/// A script, with how far it has come.
#[derive(Drop)]
pub struct Script<'a> {
    /// Which one it is.
    code: Code,
    /// Its words.
    words: &'a [ScriptWord],
    /// What all bodies know.
    program: Program<'a>,
    /// The number of the next word.
    place: usize,
    /// The number of the word that was next before the last act.
    before: usize,
    /// The requests that it made and neither took nor let go, the oldest first.
    held: Vec<u32>,
    /// What it asked for by its last act. Where that was a request there is room to hold it.
    asked: Asked,
}

impl<'a> Model for Script<'a> {
    ghost use Rattle.std.specs.Prelude.{◌≡◌, ◌<◌, length, vec_capacity};
    ghost use Rattle.exec_run.specs.{declared.script.Asked.TheVariants.Request, Script.{Played, words_of_all}};

    ghost Value = { Played };

    ghost view = { λ s. record {
      code = s.code;
      words = s.words.now;
      scripts = words_of_all s.program.scripts.now;
      limits = s.program.limits;
      place = s.place;
      before = s.before;
      held = s.held.items;
      asked = s.asked;
    } };

    ghost invariant = { λ s. s.asked ≡ Request → length s.held.items < vec_capacity s.held };
}

impl<'a> Script<'a> {
    ghost use Rattle.exec_run.specs.Script.{Played};

    /// The script of the root line, which is to begin.
    pub(crate) fn root(alloc: Global, words: &'a [ScriptWord], program: Program<'a>) -> Self
        ensures { result ≡ begun code.Root words.now (words_of_all program.entry.scripts.now) program.entry.limits }
    {
        Script::new(alloc, Code::Root, words, program)
    }

    /// The wait for the stop of the pool, which is to begin.
    pub(crate) fn waits(alloc: Global, program: Program<'a>) -> Self
        ensures { result ≡ begun code.Waits [] (words_of_all program.entry.scripts.now) program.entry.limits }
    {
        Script::new(alloc, Code::Waits, &[], program)
    }

    /// The script of this number, which is to begin. None where there is no such script.
    pub(crate) fn numbered(alloc: Global, script: usize, program: Program<'a>) -> Option<Self>
        ensures some { IfSome result (λ b. b ≡ script_begun (words_of_all program.entry.scripts.now) program.entry.limits
            script) }
        ensures within { IfSome result (λ b. script < length (words_of_all program.entry.scripts.now)) }
        ensures none { IfNone result (length (words_of_all program.entry.scripts.now) ≤ script) }
    {
        let words = program.scripts.get(script)?;
        Some(Script::new(alloc, Code::Script(script), words.as_slice(), program))
    }

    /// A script of these words that is to begin.
    fn new(alloc: Global, code: Code, words: &'a [ScriptWord], program: Program<'a>) -> Self
        ensures { result ≡ begun code words.now (words_of_all program.entry.scripts.now) program.entry.limits }
    {
        Script {
            code,
            words,
            program,
            place: 0,
            before: 0,
            held: Vec::new(alloc),
            asked: Asked::Other,
        }
    }

    /// The number of the word that would be next, were it told this.
    fn place_told(&self, said: &Said) -> usize
        ensures { result ≡ place_by self.now said.now }
    {
        match (self.asked, said) {
            (Asked::Ending, _) | (_, Said::Refused(Error::NoMemory)) => self.before,
            _ => self.place,
        }
    }

    /// The word of this number. A body without words waits until the pool is stopped.
    fn word<A: Around>(&self, place: usize, around: &A) -> ScriptWord
        ensures { (it : Sight) → A.sees around.now ≡ Some it →
            result ≡ word_in self.now.code self.now.words it.stopped place }
    {
        match self.code {
            Code::Waits => word_of_wait(around.is_stopped()),
            Code::Root | Code::Script(_) => word_of(self.words, place),
        }
    }
}

/// The newest of the requests that are held by a script which asked for this, were it told so.
fn newest_told(held: &[u32], asked: Asked, said: &Said) -> Option<u32>
    ensures { result ≡ newest (held_by asked held.now said.now) }
{
    match (asked, said) {
        (Asked::Request, Said::Admitted(request)) => Some(*request),
        (Asked::LettingGo, Said::Pass) | (_, Said::Output(_)) => last_but_one(held),
        _ => held.last().copied(),
    }
}

/// Takes in what a script is told that asked for this. The caller must have room for a request that was asked for.
fn hear(held: &mut Vec<u32>, asked: Asked, said: &Said)
    requires { asked ≡ question.Request → length held.old.items < vec_capacity held.old }
    ensures held { held.new.items ≡ held_by asked held.old.items said.now }
    ensures room { vec_capacity held.old ≤ vec_capacity held.new }
    ensures few { length held.new.items ≤ length held.old.items + 1 }
{
    match (asked, said) {
        (Asked::Request, Said::Admitted(request)) => held.push_reserved(*request),
        (Asked::LettingGo, Said::Pass) | (_, Said::Output(_)) => {
            held.pop();
        }
        _ => {}
    }
}

/// What the act asks for.
fn asked_by(act: &Act<Script>) -> Asked
    ensures { result ≡ asked_by act.now }
{
    match act {
        Act::Register(_) => Asked::Request,
        Act::Drop(_) => Asked::LettingGo,
        Act::Done(_) | Act::Fault(_) => Asked::Ending,
        _ => Asked::Other,
    }
}

/// Makes room for one more request than may be told next, where that is needed.
fn make_room(held: &mut Vec<u32>, needed: bool) -> Result<(), AllocError>
    ensures items { held.new.items ≡ held.old.items }
    ensures capacity { vec_capacity held.old ≤ vec_capacity held.new }
    ensures room { OnOk result (IsTrue needed → length held.old.items + 1 < vec_capacity held.new) }
    ensures err { OnErr result (IsTrue needed) }
{
    if needed {
        held.reserve(2)?;
    }
    Ok(())
}

/// The last element but one.
fn last_but_one(held: &[u32]) -> Option<u32>
    ensures { result ≡ newest (without_newest held.now) }
{
    match held {
        [.., one, _] => Some(*one),
        _ => None,
    }
}

/// The act of a word, of a task that holds this as its newest: to make the request that it asks for, or another.
fn act_of<'a>(
    alloc: Global,
    word: ScriptWord,
    newest: Option<u32>,
    request: Option<Request>,
    program: Program<'a>,
) -> Act<Script<'a>>
    ensures some { IfSome request (λ r. result ≡ Register r) }
    ensures none { (many : ℕ) → IfNone request (CanPlay many word → asks_request word ≡ false →
        IsPlainActOf (words_of_all program.entry.scripts.now) program.entry.limits word newest result) }
    ensures asked { asked_by result ≡ question.Request → IsTrue (is_some request) }
{
    match (word, newest, request) {
        (_, _, Some(request)) => Act::Register(request),
        (ScriptWord::Await, newest, None) => Act::Await(newest),
        (ScriptWord::Drop, Some(request), None) => Act::Drop(request),
        (ScriptWord::Sleep { time }, _, None) => Act::Sleep(time),
        (ScriptWord::Yield, _, None) => Act::Yield,
        (ScriptWord::Fault { code }, _, None) => Act::Fault(code),
        (ScriptWord::Wake { task }, _, None) => wake_of(task),
        (ScriptWord::Spawn { script }, _, None) => spawn_of(alloc, script, program),
        (ScriptWord::Dedicated { script }, _, None) => dedicated_of(alloc, script, program),
        _ => Act::Done(0),
    }
}

/// The wake of the task of this number.
fn wake_of<'a>(task: usize) -> Act<Script<'a>>
    ensures wakes { task < 2 ^ 32 → result ≡ Wake (record { 0 = task }) }
    ensures no_request { asked_by result ≢ question.Request }
{
    match u32::try_from(task) {
        Ok(number) => Act::Wake(TaskNo(number)),
        Err(_) => Act::Done(0),
    }
}

/// The spawn of a task of the script of this number.
fn spawn_of<'a>(alloc: Global, script: usize, program: Program<'a>) -> Act<Script<'a>>
    ensures spawns { script < length (words_of_all program.entry.scripts.now) →
        result ≡ Spawn (script_begun (words_of_all program.entry.scripts.now) program.entry.limits script) }
    ensures no_request { asked_by result ≢ question.Request }
{
    match Script::numbered(alloc, script, program) {
        Some(body) => Act::Spawn(body),
        None => Act::Done(0),
    }
}

/// The spawn of a task of the script of this number with a worker of its own.
fn dedicated_of<'a>(alloc: Global, script: usize, program: Program<'a>) -> Act<Script<'a>>
    ensures makes { script < length (words_of_all program.entry.scripts.now) →
        result ≡ Dedicated (script_begun (words_of_all program.entry.scripts.now) program.entry.limits script) }
    ensures no_request { asked_by result ≢ question.Request }
{
    match Script::numbered(alloc, script, program) {
        Some(body) => Act::Dedicated(body),
        None => Act::Done(0),
    }
}

impl<'a> Scripted for Script<'a> {
    ghost use Rattle.exec_run.specs.{Script.{Runs, spot_told, held_told}, ScriptPlays.{script_answered, script_named, script_plays}};

    ghost runs = { Runs };

    ghost holds = { held_told };

    ghost spot = { spot_told };

    ghost answered = { script_answered };

    ghost plays = { script_plays };

    ghost named = { script_named };
}

impl<'a> Body for Script<'a> {
    ghost use Rattle.exec_run.specs.Script.{itself, name_of, gives};

    type Left = Script<'a>;

    ghost left = { itself };

    ghost gives = { gives };

    ghost name_of = { name_of };

    fn name(&self) -> u32 {
        match self.code {
            Code::Script(number) => (number % NAMES) as u32,
            Code::Root | Code::Waits => 0,
        }
    }

    fn step<A: Around>(
        &mut self,
        alloc: Global,
        around: &mut A,
        said: Said,
    ) -> Result<Act<Self>, Said> {
        let newest = newest_told(self.held.as_slice(), self.asked, &said);
        let place = next_place(self.words, newest.is_some(), around, self.place_told(&said));
        let word = self.word(place, around);
        let Ok(request) = request_of(alloc, around, self.program.limits, word) else {
            return Err(said);
        };
        let Ok(()) = make_room(&mut self.held, request.is_some()) else {
            // Let go by a call, so that its drop is proved once (docs/DECISIONS.md, 49).
            drop(request);
            return Err(said);
        };
        let act = act_of(alloc, word, newest, request, self.program);
        self.before = self.place_told(&said);
        hear(&mut self.held, self.asked, &said);
        self.place = place_past(self.words, place);
        self.asked = asked_by(&act);
        Ok(act)
    }
}
