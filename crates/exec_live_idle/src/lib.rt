//! The idle set and the search count of a pool, as running threads share them.
//!
//! A pool shares two words. The set has a bit for each worker that is published: about to sleep, or
//! asleep, and not claimed yet. The count is how many search counts there are: each is the duty to
//! look for work, or to hand that duty on. Threads load or change one of the two words in single
//! atomic steps; `idle` has a table of which call of `exec_words`' `PureIdle` each step is. The rule
//! that every step keeps is `specs/Live.antt`, which begins with a page on what each word means, who
//! may do what, and why no count is lost.
//!
//! - `seat`, `idle`: an idle set, a seat at it, and the calls that are one atomic step, or a claim.
//! - `notify`: how a worker is woken for a backlog, or for a push into the global queue.
//! - `searcher`, `park`: a worker's part in searching and parking, over what `backlog` says of its
//!   pool.
//! - `view`, `plays`: what a seat knows, and what each step tells it, for the proofs alone.
//! - `laws`: what the plays say that a step does is what its call of `PureIdle` does. `examples`: worked examples.
#![tactic(auto)]

pub mod backlog;
pub mod examples;
pub mod idle;
pub mod laws;
pub mod notify;
pub mod park;
pub mod plays;
pub mod searcher;
pub mod seat;
pub mod view;

/// The word of a table that is the idle set.
pub const SET: usize = 0;
/// The word of a table that is the search count.
pub const COUNT: usize = 1;
