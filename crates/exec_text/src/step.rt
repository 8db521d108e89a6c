//! The lines below `steps`.

ghost use Rattle.std.specs.Prelude.{◌≡◌, ◌≢◌, ℕ, ◌<◌, ◌^◌, ◌∷◌, ◌++◌, length, codes, decimal, IfSome, IfNone};
ghost use Rattle.exec_outcomes.specs.{declared.outcome.OpResult.OpResult, Text.text_of_result};
ghost use Rattle.exec_machine.specs.declared.step.{Action.Action, Step.Step};
ghost use Rattle.exec_text.specs.{Grammar.{text_of_step, StepFits, StepNames, ResultFits}, Reading.IsCall};

use crate::field::{first_field, next_field};
use crate::number::{next_number, number, positive};
use exec_machine::step::{Action, CALLERS, Step};
use exec_outcomes::outcome::OpResult;

/// The step that the line spells, where there are so many scripts.
pub(crate) fn step_of(line: &[u8], scripts: usize) -> Option<Step>
    ensures found { IfSome result (λ s. line.now ≡ text_of_step s) }
    ensures fits { IfSome result StepFits }
    ensures named { IfSome result (StepNames scripts) }
    ensures none { IfNone result ((s : Step) → StepFits s → StepNames scripts s → line.now ≢ text_of_step s) }
{
    let (kind, rest) = first_field(line);
    let (first, rest) = next_number(rest)?;
    if kind == b"w".as_slice() {
        return work_of(first as usize, rest);
    }
    if kind == b"k".as_slice() {
        return landing_of(first as usize, rest);
    }
    if kind == b"x".as_slice() {
        let action = call_of(first as usize, scripts, rest)?;
        return Some(Step::One { action });
    }
    if !rest.is_empty() {
        return None;
    }
    let action = action_of(kind, first)?;
    Some(Step::One { action })
}

/// The action that is this letter and this number.
fn action_of(letter: &[u8], number: u64) -> Option<Action>
    ensures found { IfSome result (λ a. letter.now ++ 32 ∷ decimal number ≡ text_of_step (Step.One a)) }
    ensures fits { IfSome result (λ a. StepFits (Step.One a)) }
    ensures named { IfSome result (λ a. (count : ℕ) → StepNames count (Step.One a)) }
    ensures none { IfNone result ((letter.now ≢ codes "c") × (letter.now ≢ codes "b") × (letter.now ≢ codes "m")
        × (letter.now ≢ codes "e")) }
{
    if letter == b"c".as_slice() {
        return Some(Action::Clock { by: number });
    }
    let worker = number as usize;
    if letter == b"b".as_slice() {
        return Some(Action::SetBusy { worker });
    }
    if letter == b"m".as_slice() {
        return Some(Action::EndPoll { worker });
    }
    if letter == b"e".as_slice() {
        return Some(Action::Stir { worker });
    }
    None
}

/// The step of this caller, as the bytes behind its number say: its call goes on, or it begins one.
fn call_of(caller: usize, scripts: usize, bytes: &[u8]) -> Option<Action>
    ensures found { IfSome result (IsCall caller scripts bytes.now) }
    ensures few { IfSome result (λ _. caller < 16) }
    ensures none { IfNone result ((a : Action) → caller < 16 → IsCall caller scripts bytes.now a → ⊥) }
{
    if caller >= CALLERS {
        return None;
    }
    if bytes.is_empty() {
        return Some(Action::GoOn { caller });
    }
    begun_by(caller, scripts, bytes)
}

/// The call that the caller begins, as the bytes behind its number say.
fn begun_by(caller: usize, scripts: usize, bytes: &[u8]) -> Option<Action>
    requires { 0 < length bytes.now }
    ensures found { IfSome result (IsCall caller scripts bytes.now) }
    ensures none { IfNone result ((a : Action) → IsCall caller scripts bytes.now a → ⊥) }
{
    let (name, rest) = next_field(bytes)?;
    let (number, rest) = next_number(rest)?;
    if !rest.is_empty() {
        return None;
    }
    let place = number as usize;
    if name == b"wake".as_slice() {
        return Some(Action::Wake {
            caller,
            task: place,
        });
    }
    if name == b"spawn".as_slice() && place < scripts {
        return Some(Action::Spawn {
            caller,
            script: place,
        });
    }
    None
}

/// The step in which the worker takes so many steps, as the bytes behind it say.
fn work_of(worker: usize, bytes: &[u8]) -> Option<Step>
    ensures found { IfSome result (λ s. codes "w " ++ decimal worker ++ bytes.now ≡ text_of_step s) }
    ensures fits { IfSome result StepFits }
    ensures none { IfNone result ((n : ℕ) → 0 < n → n < 2 ^ 64 → bytes.now ≢ 32 ∷ decimal n) }
{
    let [b' ', count @ ..] = bytes else {
        return None;
    };
    let count = positive(count)?;
    Some(Step::Work { worker, count })
}

/// The step in which the operation of the request lands with the result that the bytes behind it spell.
fn landing_of(request: usize, bytes: &[u8]) -> Option<Step>
    ensures found { IfSome result (λ s. codes "k " ++ decimal request ++ bytes.now ≡ text_of_step s) }
    ensures fits { IfSome result StepFits }
    ensures none { IfNone result ((o : OpResult) → ResultFits o → bytes.now ≢ 32 ∷ text_of_result o) }
{
    let [b' ', outcome @ ..] = bytes else {
        return None;
    };
    let result = result_of(outcome)?;
    Some(Step::One {
        action: Action::Land { request, result },
    })
}

/// The result that the bytes spell: a count, or an error number behind a minus sign.
fn result_of(bytes: &[u8]) -> Option<OpResult>
    ensures found { IfSome result (λ o. bytes.now ≡ text_of_result o) }
    ensures fits { IfSome result ResultFits }
    ensures none { IfNone result ((o : OpResult) → ResultFits o → bytes.now ≢ text_of_result o) }
{
    match bytes {
        [b'-', code @ ..] => Some(OpResult::Errno(positive(code)?)),
        _ => Some(OpResult::Count(number(bytes)?)),
    }
}
