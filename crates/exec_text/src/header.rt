//! The header, one line for each value.

ghost use Rattle.std.specs.Prelude.{◌≡◌, ◌≢◌, ℕ, ◌<◌, ◌^◌, [], ◌∷◌, ◌++◌, decimal, IfOk, IfErr, IfSome, IfNone};
ghost use Rattle.exec_machine.specs.declared.config.Spin.{Spin};
ghost use Rattle.exec_text.specs.{Grammar.{HeaderFits, IsFirstFault}, Reading.{IsStuck, said_before, header, text_of_spin, SpinFits}};

use crate::line::Lines;
use crate::number::{next_number, number};
use crate::read_error::FaultyLine;
use exec_machine::config::{Configuration, Spin};

/// Reads the header: a row for each line, with its word and how its value is read.
pub(crate) fn read_header(lines: &mut Lines) -> Result<Configuration, FaultyLine>
    requires { lines.old.number ≡ 0 }
    ensures text { lines.new.text.now ≡ lines.old.text.now }
    ensures ok { IfOk result (λ c. said_before lines.new.text.now lines.new.number ≡ header c) }
    ensures fits { IfOk result HeaderFits }
    ensures fault { IfErr result (λ e. IsFirstFault lines.old.text.now e.number) }
{
    Ok(Configuration {
        workers: read_value(lines, "workers")? as usize,
        interval: read_value(lines, "interval")?,
        ring: read_value(lines, "ring")?,
        tick: read_value(lines, "tick")?,
        connect: read_value(lines, "connect")?,
        rw: read_value(lines, "rw")?,
        spin: read_spin(lines)?,
        files: read_value(lines, "files")? as usize,
        sockets: read_value(lines, "sockets")? as usize,
    })
}

/// Reads a line of the header that has one number behind this name.
fn read_value(lines: &mut Lines, name: &str) -> Result<u64, FaultyLine>
    ensures text { lines.new.text.now ≡ lines.old.text.now }
    ensures ok { IfOk result (λ n. said_before lines.new.text.now lines.new.number ≡ said_before lines.old.text.now lines.old.number ++ (name.now ++ 32 ∷ decimal n) ∷ []) }
    ensures fault { IfErr result (λ e. IsStuck lines.old.text.now lines.old.number (λ line. (n : ℕ) → n < 2 ^ 64 → line ≢ name.now ++ 32 ∷ decimal n) e.number) }
{
    let line = lines.expect_said()?;
    match value_of(line, name) {
        Some(value) => Ok(value),
        None => Err(lines.fault()),
    }
}

/// The number of a line that is this name, a space and a number.
fn value_of(line: &[u8], name: &str) -> Option<u64>
    ensures found { IfSome result (λ n. line.now ≡ name.now ++ 32 ∷ decimal n) }
    ensures none { IfNone result ((n : ℕ) → n < 2 ^ 64 → line.now ≢ name.now ++ 32 ∷ decimal n) }
{
    match line.strip_prefix(name.as_bytes())? {
        [b' ', value @ ..] => number(value),
        _ => None,
    }
}

/// Reads the line of the spin.
fn read_spin(lines: &mut Lines) -> Result<Spin, FaultyLine>
    ensures text { lines.new.text.now ≡ lines.old.text.now }
    ensures ok { IfOk result (λ s. said_before lines.new.text.now lines.new.number ≡ said_before lines.old.text.now lines.old.number ++ text_of_spin s ∷ []) }
    ensures fits { IfOk result SpinFits }
    ensures fault { IfErr result (λ e. IsStuck lines.old.text.now lines.old.number (λ line. (s : Spin) → SpinFits s → line ≢ text_of_spin s) e.number) }
{
    let line = lines.expect_said()?;
    match spin_of(line) {
        Some(spin) => Ok(spin),
        None => Err(lines.fault()),
    }
}

/// The spin that the line spells.
fn spin_of(line: &[u8]) -> Option<Spin>
    ensures found { IfSome result (λ s. line.now ≡ text_of_spin s) }
    ensures fits { IfSome result SpinFits }
    ensures none { IfNone result ((s : Spin) → SpinFits s → line.now ≢ text_of_spin s) }
{
    let rest = line.strip_prefix(b"spin".as_slice())?;
    let (budget, rest) = next_number(rest)?;
    let (most, rest) = next_number(rest)?;
    let (quick, rest) = next_number(rest)?;
    let (iterations, rest) = next_number(rest)?;
    if !rest.is_empty() {
        return None;
    }
    Some(Spin {
        budget,
        most,
        quick,
        iterations,
    })
}
