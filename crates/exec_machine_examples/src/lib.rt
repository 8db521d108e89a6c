//! Worked examples of the abstract machine, apart from its definitions, so that these are proved without them and
//! another example is a matter of this crate alone.
//!
//! `examples` has whole logs that are good, and of each a table of lines that may not come in it, with the tests that
//! they fail. `unfinished` looks at states that are made up: who is rightly asleep there, and how many quiet lines one
//! party may have on end. `short_runs` has runs without what a worker does between two tasks, and what may come after
//! them. `numbers` has numbers at their ends. Each is a function that does nothing, whose clauses are computed. The
//! logs themselves stand in `exec_machine`, since the moves play them too, but for those of `LettingGo`.
#![tactic(auto)]

pub mod examples;
pub mod numbers;
pub mod short_runs;
pub mod unfinished;
