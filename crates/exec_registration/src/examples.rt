//! Worked examples of what a poll and the beginning of a sync answer.

ghost use Rattle.std.specs.Prelude.{◌≡◌, Some, None, Ok, Err, true, false};
ghost use Rattle.exec_base.specs.{OneShot.poll_answer, declared.error.Error.Error as error};
ghost use Rattle.exec_outcomes.specs.Accounts.{fresh_account, changed, covered, poisoned};
ghost use Rattle.exec_registration.specs.{Admissions.over_at_once, Examples.{waiting, forwarded, refused, over, ended, waits, wakes_another, nothing_sent, given, turned_away, never_sent}, Looks.after_look, Registrations.{pending_of, told_by_look, state_after, heard, after_hearing}};

/// What a thing gave is answered and taken, and the registration is over; until then it waits on, and has the thing
/// wake its task where it would wake another.
pub fn a_look_at_the_thing_itself()
    ensures output { told_by_look ended ≡ Ok (Some 7) }
    ensures is_over { state_after waiting ended ≡ over }
    ensures is_taken { after_look ended true false false ≡ true }
    ensures not_yet { told_by_look waits ≡ Ok None }
    ensures waits_on { state_after waiting wakes_another ≡ waiting }
    ensures stays { after_look waits true true false ≡ false }
    ensures is_awaited { after_look wakes_another false true false ≡ true }
{}

/// Who waits elsewhere hears nothing, then what was sent, once; or that nothing will be.
pub fn a_look_at_the_one_shot()
    ensures nothing { heard (poll_answer nothing_sent) ≡ Ok None }
    ensures waits_on { after_hearing forwarded (poll_answer nothing_sent) ≡ forwarded }
    ensures output { heard (poll_answer given) ≡ Ok (Some 7) }
    ensures is_over { after_hearing forwarded (poll_answer given) ≡ over }
    ensures gone { heard (poll_answer turned_away) ≡ Err error.Closed }
    ensures never { heard (poll_answer never_sent) ≡ Err error.Closed }
{}

/// There is something to let go while the thing's worker may know of who waits.
pub fn what_is_let_go()
    ensures here { pending_of waiting ≡ Some (3, 5) }
    ensures elsewhere { pending_of forwarded ≡ Some (3, 5) }
    ensures never { pending_of refused ≡ None }
    ensures is_over { pending_of over ≡ None }
{}

/// A sync of a clean open is over, and so is one of an open with a failure, be it clean or not.
pub fn a_sync_that_is_over_at_once()
    ensures clean { over_at_once (Some fresh_account) ≡ Some (Ok tt) }
    ensures dirty { over_at_once (Some (changed fresh_account)) ≡ None }
    ensures is_covered { over_at_once (Some (covered 1 (changed fresh_account))) ≡ Some (Ok tt) }
    ensures failed { over_at_once (Some (poisoned error.WriteFailed (changed fresh_account))) ≡ Some (Err error.WriteFailed) }
    ensures unknown { over_at_once None ≡ None }
{}
