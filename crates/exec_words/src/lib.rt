//! What the workers of a pool share, as plain data: each call is one atomic step.
//!
//! Each operation that an executor makes on a shared thing in one step is one call here: a load, a store, an exchange
//! that may fail and then tells what it found, or what is done under one lock. Nothing waits, and no call but a maker
//! or a `reserve` takes memory. So an executor in one thread makes its steps of these calls in any order, and what runs
//! in threads is proved to make the same transitions. The things are a worker's run queue (`queue`), the queue of all
//! workers (`global`), the set of idle ones with its search count (`idle`), the wake word (`word`), and messages for
//! one worker in batches (`inbox`, `mailbox`). Beside them stands the generator of a worker's searches (`generator`).
#![tactic(auto)]

pub mod examples;
pub mod generator;
pub mod global;
pub mod head;
pub mod idle;
pub mod inbox;
pub mod laws;
pub mod mailbox;
pub mod queue;
pub mod reserved;
pub mod word;

use exec_base::limits::MOST_WORKERS;

/// How many values a run queue holds.
pub const CAPACITY: usize = 256;
/// How many values an overflow keeps, and the most that a steal takes: half the capacity.
pub const HALF: usize = 128;
/// The fewest values of an unclaimed queue of which a steal takes any: half, rounded down.
pub const STEALABLE: usize = 2;
/// The most workers that a pool has.
pub const MAX_WORKERS: usize = MOST_WORKERS;
/// The greatest number of a batch: they are counted modulo 2^29.
pub const SUBMISSION_SEQ_MASK: u32 = BATCHES - 1;
/// How many numbers of batches there are.
const BATCHES: u32 = 1 << 29;
/// The count of values from which on a run queue takes no more.
pub const SPENT: u64 = (1 << 55) - 512;
