//! What was found against what has to come.
//!
//! Each comparison stands in a function of its own, which is proved once: written out at its place, an `assert_eq!` is
//! longer than all that a step does. `at` is the number of the step, counted from 0, which a failed one names.

ghost use Rattle.std.specs.Prelude.{◌≡◌, true, false};

use exec_driver::driver::Reaped;
use exec_opens::opens::WaiterKey;
use exec_waiters::waiter_id::WaiterId;
use std::fmt::Debug;
use std::process::Abort;

/// How many of each list there are: wakes, outputs, resources, completions, results.
pub type Counts = (usize, usize, usize, usize, usize);

/// Fails unless this was found.
pub fn same<T: PartialEq + Debug>(rt: &impl Abort, at: usize, found: &T, wanted: &T) {
    assert_eq!(rt; *found, *wanted, "at step {at}");
}

/// Fails unless this holds.
pub fn holds(rt: &impl Abort, at: usize, found: bool) {
    assert!(rt; found, "at step {at}");
}

/// Fails unless a call may be made. From then on it may.
pub fn demand(rt: &impl Abort, may: bool, why_not: &str)
    ensures { may ≡ true }
{
    assert!(rt; may, "{why_not}");
}

/// Fails where something is in the way of a call. From then on nothing is.
pub fn refuse(rt: &impl Abort, is_there: bool, what: &str)
    ensures { is_there ≡ false }
{
    assert!(rt; !is_there, "{what}");
}

/// Fails unless this answer was found.
pub fn same_answer(rt: &impl Abort, at: usize, found: bool, wanted: bool) {
    same(rt, at, &found, &wanted);
}

/// Fails unless there are so many.
pub fn same_count(rt: &impl Abort, at: usize, found: usize, wanted: usize) {
    same(rt, at, &found, &wanted);
}

/// Fails unless there are so many of each list.
pub fn same_counts(rt: &impl Abort, at: usize, found: Counts, wanted: Counts) {
    same(rt, at, &found, &wanted);
}

/// Fails unless this request was found.
pub fn same_name(rt: &impl Abort, at: usize, found: Option<WaiterId>, wanted: Option<WaiterId>) {
    same(rt, at, &found, &wanted);
}

/// Fails unless this open or worker was found.
pub fn same_number(rt: &impl Abort, at: usize, found: Option<u32>, wanted: Option<u32>) {
    same(rt, at, &found, &wanted);
}

/// Fails unless this moment or tick was found.
pub fn same_moment(rt: &impl Abort, at: usize, found: Option<u64>, wanted: Option<u64>) {
    same(rt, at, &found, &wanted);
}

/// Fails unless this one has a permit.
pub fn same_key(rt: &impl Abort, at: usize, found: Option<WaiterKey>, wanted: Option<WaiterKey>) {
    same(rt, at, &found, &wanted);
}

/// Fails unless this completion was taken in.
pub fn same_reaped(rt: &impl Abort, at: usize, found: Option<Reaped>, wanted: Option<Reaped>) {
    same(rt, at, &found, &wanted);
}

/// Fails unless these bytes were found.
pub fn same_bytes(rt: &impl Abort, at: usize, found: &[u8], wanted: &[u8]) {
    same(rt, at, &found, &wanted);
}
