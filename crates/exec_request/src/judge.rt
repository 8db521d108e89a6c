//! What one more result means: one judge for requests of every kind.
//!
//! Some results say nothing, so that the same is asked for again. Any other decides where it moved nothing or all that
//! was left, and its kind says what that means. A direct read and a write that a sync trails have a second part, a
//! buffered read and the sync, which are judged as requests of those kinds; a result that passes on to it doesn't end
//! the request. Where a result leaves a request open, one whose cancellation was asked for is given up.

ghost use Rattle.std.specs.Prelude.{◌≡◌, ◌&&◌, IsTrue, true, false};
ghost use Rattle.exec_outcomes.specs.{Lawful.is_lawful, Outcomes.{suits_direct, takes_any, verdict_of, verdict_of_count, verdict_of_error}};
ghost use Rattle.exec_request.specs.{States.{as_outcome, as_answer}, Judging.{judged_alone, is_heard, is_enough, passes, ends}};

use crate::results::{
    CANCELED, CONNECTED, DIRECT_ALIGN, INTERRUPTED, PENDING, UNSUPPORTED, WOULD_BLOCK, counted_by,
};
use exec_base::error::{Cause, Error};
use exec_outcomes::outcome::{Kind, OpResult};

/// Answers how a request of this kind ends by one more result, or None where it needs another operation. `left` is how
/// many bytes of its present part are left, `hinted` whether its operation had the hint, and `cancelled` whether
/// cancellation had been asked for when the result was reaped.
pub(crate) fn judge(
    kind: Kind,
    left: u64,
    hinted: bool,
    cancelled: bool,
    given: OpResult,
) -> Option<Result<(), Error>>
    requires { IsTrue (is_lawful 4294967295 given) }
    ensures { as_answer result ≡ judged_alone kind left hinted cancelled given }
{
    if is_end(kind, left, hinted, given) {
        return Some(verdict(kind, given, cancelled));
    }
    if cancelled {
        return Some(Err(Error::Timeout));
    }
    None
}

/// Whether one more result passes on to the second part of a request.
pub(crate) fn moves_on(kind: Kind, left: u64, hinted: bool, given: OpResult) -> bool
    ensures { result ≡ (is_heard kind hinted given && passes kind left given) }
{
    is_said(kind, hinted, given) && is_passed(kind, left, given)
}

/// Whether one more result ends a request.
fn is_end(kind: Kind, left: u64, hinted: bool, given: OpResult) -> bool
    ensures { result ≡ ends kind left hinted given }
{
    let decides = counted_by(given) == 0 || is_all(kind, left, given);
    is_said(kind, hinted, given) && decides && !is_passed(kind, left, given)
}

/// Whether a result says anything. An interrupted operation doesn't, nor one that would have had to wait, a connect
/// that is under way, or the refusal of a hint.
fn is_said(kind: Kind, hinted: bool, given: OpResult) -> bool
    ensures { result ≡ is_heard kind hinted given }
{
    match given {
        OpResult::Count(_) => true,
        OpResult::Errno(INTERRUPTED | WOULD_BLOCK) => false,
        OpResult::Errno(PENDING) => !matches!(kind, Kind::Connect),
        OpResult::Errno(UNSUPPORTED) => !hinted,
        OpResult::Errno(_) => true,
    }
}

/// Whether a result moved all that was left; of some kinds any count is all.
fn is_all(kind: Kind, left: u64, given: OpResult) -> bool
    ensures { result ≡ is_enough kind left given }
{
    let count = counted_by(given);
    count > 0 && (is_any_all(kind) || count >= left)
}

/// Whether any count is all that a request of this kind asks for.
fn is_any_all(kind: Kind) -> bool
    ensures { result ≡ takes_any kind }
{
    matches!(kind, Kind::Recv | Kind::Connect | Kind::Poll | Kind::Sync)
}

/// Whether a result passes on to the second part: a direct read where it neither ends nor stays at a page, and a write
/// that a sync trails where all is written.
fn is_passed(kind: Kind, left: u64, given: OpResult) -> bool
    ensures { result ≡ passes kind left given }
{
    match kind {
        Kind::Direct => !is_all(kind, left, given) && !keeps_pages(given),
        Kind::Many => is_all(kind, left, given),
        _ => false,
    }
}

/// Whether a direct read stays one: its result ends at a page, or its operation was cancelled.
fn keeps_pages(given: OpResult) -> bool
    ensures { result ≡ suits_direct given }
{
    match given {
        OpResult::Count(count) => count > 0 && count % DIRECT_ALIGN == 0,
        OpResult::Errno(code) => code == CANCELED,
    }
}

/// What a result means that ends a request.
fn verdict(kind: Kind, given: OpResult, cancelled: bool) -> Result<(), Error>
    requires { IsTrue (is_lawful 4294967295 given) }
    ensures { as_outcome result ≡ verdict_of kind given cancelled }
{
    match given {
        OpResult::Count(0) => verdict_of_nothing(kind),
        OpResult::Count(_) => verdict_of_some(kind),
        OpResult::Errno(code) => verdict_of_error(kind, code as u16, cancelled),
    }
}

/// What it means that nothing was moved.
fn verdict_of_nothing(kind: Kind) -> Result<(), Error>
    ensures { as_outcome result ≡ verdict_of_count kind false }
{
    match kind {
        Kind::Connect | Kind::Poll | Kind::Sync => Ok(()),
        Kind::Send => Err(Error::SendFailed),
        Kind::Recv | Kind::Fill => Err(Error::RecvFailed),
        Kind::Write | Kind::Dsync | Kind::Many => Err(Error::WriteFailed),
        Kind::Read | Kind::Hint | Kind::Direct => Err(Error::BlobInsufficientLength),
    }
}

/// What it means that something was moved which ends the request.
fn verdict_of_some(kind: Kind) -> Result<(), Error>
    ensures { as_outcome result ≡ verdict_of_count kind true }
{
    match kind {
        Kind::Connect => Err(Error::ConnectionFailed),
        _ => Ok(()),
    }
}

/// What an error of the kernel means, by its number. A cancelled operation is no failure of its own where cancellation
/// was asked for, and a connect of what is connected has its end.
fn verdict_of_error(kind: Kind, code: u16, cancelled: bool) -> Result<(), Error>
    ensures { as_outcome result ≡ verdict_of_error kind code cancelled }
{
    let given_up = cancelled && code as u64 == CANCELED;
    match kind {
        Kind::Connect if code as u64 == CONNECTED => Ok(()),
        Kind::Send | Kind::Recv | Kind::Fill | Kind::Connect | Kind::Poll if given_up => {
            Err(Error::Timeout)
        }
        Kind::Connect | Kind::Poll | Kind::Sync | Kind::Dsync => {
            Err(Error::Io(Cause::Code(code)))
        }
        Kind::Send => Err(Error::SendFailed),
        Kind::Recv | Kind::Fill => Err(Error::RecvFailed),
        Kind::Write | Kind::Many => Err(Error::WriteFailed),
        Kind::Read | Kind::Hint | Kind::Direct => Err(Error::ReadFailed),
    }
}
