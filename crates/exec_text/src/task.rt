//! The lines of tasks: `script` lines, and the line of the root behind them.
//!
//! A word may name a script that comes later. So the scripts are counted first, and then their lines are read again,
//! and each number of a script is held against the count.

ghost use Rattle.std.specs.Prelude.{◌≡◌, List, IfOk, IfErr, IfSome, IfNone};
ghost use Rattle.exec_machine.specs.declared.config.ScriptWord.{ScriptWord};
ghost use Rattle.exec_text.specs.{Grammar.{HeaderFits, IsFirstFault, ScriptsThatCount}, Reading.{said_before, header, IsScript, IsRoot, IsTaskLine, HasTasks}};

use crate::kept::Kept;
use crate::line::Lines;
use crate::read_error::FaultyLine;
use crate::word::words_in;
use exec_machine::config::{Configuration, ScriptWord};
use std::alloc::Global;

/// The words of one line.
#[derive(Drop)]
pub(crate) enum TaskLine {
    /// Those of a script.
    Script(Kept<ScriptWord>),
    /// Those of the root.
    Root(Kept<ScriptWord>),
}

/// The words of all these lines.
#[derive(Drop)]
pub(crate) struct Tasks {
    /// Those of each script, in order.
    pub(crate) scripts: Kept<Vec<ScriptWord>>,
    /// Those of the root.
    pub(crate) root: Kept<ScriptWord>,
}

/// How many scripts count: the lines behind the header that are `script` lines, up to the first that is none.
pub(crate) fn count_scripts(config: &Configuration, lines: &Lines) -> usize
    requires said { said_before lines.now.text.now lines.now.number ≡ header config.now }
    requires fits { HeaderFits config.now }
    ensures { ScriptsThatCount lines.now.text.now result }
{
    let mut ahead = lines.ahead();
    let mut count = 0;
    while let Some(line) = ahead.next_said() {
        let Some(_) = words_in(b"script", Kept::Lost, config, None, line) else {
            return count;
        };
        count += 1;
    }
    count
}

/// Reads these lines, where so many scripts count.
pub(crate) fn read_tasks(
    alloc: Global,
    config: &Configuration,
    count: usize,
    lines: &mut Lines,
) -> Result<Tasks, FaultyLine>
    requires said { said_before lines.old.text.now lines.old.number ≡ header config.now }
    requires fits { HeaderFits config.now }
    requires counted { ScriptsThatCount lines.old.text.now count }
    ensures text { lines.new.text.now ≡ lines.old.text.now }
    ensures ok { IfOk result (HasTasks config.now count (said_before lines.new.text.now lines.new.number)) }
    ensures fault { IfErr result (λ e. IsFirstFault lines.old.text.now e.number) }
{
    let mut scripts = Kept::new(alloc);
    'tasks: loop {
        let line = lines.expect_said()?;
        match task_of(alloc, config, count, line) {
            Some(TaskLine::Script(words)) => scripts = scripts.with_list(words),
            Some(TaskLine::Root(root)) => return Ok(Tasks { scripts, root }),
            None => return Err(lines.fault()),
        }
    }
}

/// The words of the line, where so many scripts count.
fn task_of(alloc: Global, config: &Configuration, count: usize, line: &[u8]) -> Option<TaskLine>
    requires { HeaderFits config.now }
    ensures found { IfSome result (IsTaskLine config.now count line.now) }
    ensures no_script { IfNone result ((words : List ScriptWord) → IsScript config.now count line.now words → ⊥) }
    ensures no_root { IfNone result ((root : List ScriptWord) → IsRoot config.now count line.now root → ⊥) }
{
    if let Some(words) = words_in(b"script", Kept::new(alloc), config, Some(count), line) {
        return Some(TaskLine::Script(words));
    }
    let words = words_in(b"root", Kept::new(alloc), config, Some(count), line)?;
    Some(TaskLine::Root(words))
}
