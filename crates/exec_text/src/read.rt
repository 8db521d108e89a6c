//! A trace is read from its text.

ghost use Rattle.std.specs.Prelude.{◌≡◌, ℕ, List, [], ◌∷◌, ◌++◌, All, codes, map, sum_by, OnOk, IfOk, IfErr};
ghost use Rattle.exec_machine.specs.declared.{config.{Configuration.Configuration, ScriptWord.ScriptWord}, step.Step.Step};
ghost use Rattle.exec_text.specs.{Grammar.{text_of_step, StepFits, StepNames, meaning_of, IsTraceOf, IsFirstFault, ScriptsThatCount, count_of}, Reading.{IsUnread, said_before, all_said, IsTop, IsMarkedTop}, Kept.Keeps, Laws.{TraceHasNoFault, FaultIsOne, MeaningIsOne}};

use crate::header::read_header;
use crate::kept::Kept;
use crate::line::Lines;
use crate::read_error::{FaultyLine, ReadError};
use crate::step::step_of;
use crate::task::{count_scripts, read_tasks};
use crate::trace::Trace;
use exec_machine::step::Step;
use std::alloc::Global;

/// The trace that the text spells. `Syntax` comes just where the text is none, and names the first line at which it is
/// none; `NoMemory` comes only where it is one.
pub fn read_trace(alloc: Global, text: &[u8]) -> Result<Trace, ReadError>
    ensures ok { IfOk result (λ t. IsTraceOf text.now (meaning_of t)) }
    ensures unread { IfErr result (λ e. IsUnread e text.now) }
{
    let mut lines = Lines::new(text);
    let config = read_header(&mut lines)?;
    let count = count_scripts(&config, &lines);
    let tasks = read_tasks(alloc, &config, count, &mut lines)?;
    read_mark(&mut lines)?;
    let kept_steps = read_steps(alloc, count, &mut lines)?;
    let scripts = tasks.scripts.whole()?;
    let root = tasks.root.whole()?;
    let steps = kept_steps.whole()?;
    Ok(Trace {
        config,
        scripts,
        root,
        steps,
    })
}

/// Reads the line `steps`.
fn read_mark(lines: &mut Lines) -> Result<(), FaultyLine>
    requires { (c : Configuration) × (count : ℕ) × (scripts : List (List ScriptWord)) × (root : List ScriptWord)
        × IsTop c count (said_before lines.old.text.now lines.old.number) scripts root
        × ScriptsThatCount lines.old.text.now count }
    ensures text { lines.new.text.now ≡ lines.old.text.now }
    ensures ok { OnOk result (said_before lines.new.text.now lines.new.number ≡ said_before lines.old.text.now lines.old.number ++ codes "steps" ∷ []) }
    ensures fault { IfErr result (λ e. IsFirstFault lines.old.text.now e.number) }
{
    let line = lines.expect_said()?;
    if line != b"steps".as_slice() {
        return Err(lines.fault());
    }
    Ok(())
}

/// Reads the lines below `steps`, where there are so many scripts.
fn read_steps(alloc: Global, scripts: usize, lines: &mut Lines) -> Result<Kept<Step>, FaultyLine>
    requires top { (c : Configuration) × (tasks : List (List ScriptWord)) × (root : List ScriptWord)
        × IsMarkedTop c scripts (said_before lines.old.text.now lines.old.number) tasks root }
    requires counted { ScriptsThatCount lines.old.text.now scripts }
    ensures ok { IfOk result (λ kept. (steps : List Step)
        × (all_said lines.old.text.now ≡ said_before lines.old.text.now lines.old.number ++ map text_of_step steps)
        × All StepFits steps × All (StepNames scripts) steps × Keeps kept steps) }
    ensures fault { IfErr result (λ e. IsFirstFault lines.old.text.now e.number) }
{
    let mut steps = Kept::new(alloc);
    while let Some(line) = lines.next_said() {
        let Some(step) = step_of(line, scripts) else {
            return Err(lines.fault());
        };
        steps = steps.with(step);
    }
    Ok(steps)
}

/// How many steps the lines ask for.
pub fn total_steps(steps: &[Step]) -> u128
    ensures { result ≡ sum_by count_of steps.now }
{
    let mut total = 0;
    for step in steps {
        total += match step {
            Step::Work { count, .. } => u128::from(*count),
            Step::One { .. } => 1,
        };
    }
    total
}

/// A text that is a trace has no first fault, and a text has one first fault at most.
pub fn one_fault()
    ensures trace { TraceHasNoFault }
    ensures same { FaultIsOne }
{}

/// A text has one meaning at most.
pub fn one_meaning()
    ensures { MeaningIsOne }
{}
