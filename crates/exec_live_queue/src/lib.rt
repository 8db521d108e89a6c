//! The run queue of a worker: shared by running threads, or exclusive to a lone worker.
//!
//! An exclusive queue is a plain one: its calls take no atomic step, and no thief gets at it. A shared queue is a
//! table of words and 256 slots, which threads change in single atomic steps. Two words are used, in the middle of
//! others that keep their cache lines clear of other data. The first is the head: the count `real` of the front
//! value, and the gap. The second is the tail: the count one past the last value. A value's count is its label, and
//! it lies in the slot `label % 256`. One seat at the table is the owner's: only its holder pushes and pops. Each
//! other seat is a thief's.
//!
//! Each step here is a call of `exec_words`' `PureQueue`; what one that changes a word does to the queue its play says
//! (`specs/Plays.antt`). An exchange that is lost is a load of the head.
//!
//! | Step | Call of `PureQueue` |
//! |---|---|
//! | `look`, `see_head` | `head` |
//! | `take_one`, `take_room`, `give_back` | `head`, and free slots go out with the owner or come back |
//! | `see_tail` | `tail` |
//! | `pop_exchange`, `pop_last` | those of the same name |
//! | `publish` | `push_fitting` for one value, `publish` for several |
//! | `flow_over`, `restore` | `overflow_exchange`, `restore` |
//! | `claim`, `release` | `claim_exchange`, `release_exchange` |
//!
//! The rule that every step keeps is `specs/Live.antt`, which begins with a page on what each word means, who may do
//! what, and why no value is lost or handed out twice.
//!
//! - `queue` and `owner`: a queue of either kind with its seats, and its owner.
//! - `lent`: what a push answers, and what reads an overflow.
//! - `exclusive`: the owner of an exclusive queue.
//! - `pop`, `push`, `overflow`, `batch` and `steal`: what they do, over the words and a seat.
//! - `steps` and `thief`: the steps of the owner and of a thief, one function each.
//! - `slots`: what a seat does with the slots that are out with it.
//! - `head` and `inner`: the head as a word, and where the words and slots lie.
//! - `view` and `plays`: what a seat knows, and what each step tells it, for the proofs alone.
#![tactic(auto)]

pub mod batch;
pub mod examples;
pub mod exclusive;
pub mod head;
pub mod inner;
pub mod lent;
pub mod overflow;
pub mod owner;
pub mod plays;
pub mod pop;
pub mod push;
pub mod queue;
pub mod slots;
pub mod steal;
pub mod steps;
pub mod thief;
pub mod view;

/// How many slots a queue has.
pub const SLOTS: u64 = exec_words::CAPACITY as u64;
/// How many values an overflow keeps, and how many it hands out: half the slots.
pub const HALF: u64 = exec_words::HALF as u64;
/// How many words a table has. Only two of them are used; no other data lies on their cache lines.
pub const WORDS: usize = 24;
/// The word of a table that is the head.
pub const HEAD: usize = 11;
/// The word of a table that is the tail.
pub const TAIL: usize = 12;
