//! The abstract machine of an executor with many workers.
//!
//! The machine says what an executor may do, and nothing of how. Its state has a part for each
//! worker that is the worker's own, and one that is common to all parties (`specs/World.antt`):
//! tasks, requests, sleepers and open files by number, the clock, and for each worker a seat with
//! what others may read or change of it. Parties are the workers, outside callers, the clock, the
//! kernel and the peers.
//!
//! A step of a worker is one event. The files of `specs/` say for each event when it may come
//! (`may_..`, a list of tests) and what it changes: `Tasks` has the acts of tasks and their wakes,
//! `Requests` the way of a request from its admission to its release, `Deadlines` what has to do
//! with time, `Mail` the messages between workers, `Closing` how a worker and the pool end.
//! `Allowed` and `After` find each event by its name. They are local: a guard sees the worker's own
//! part and the common part, and after an event only these two have changed. `Callers` has the
//! steps of all other parties, and which steps are enabled.
//!
//! `Run` says which list of log lines is a run, `Progress` that no party turns for ever in it and
//! that no worker sleeps on work, and `Text` how lines are written. Where an event leaves something
//! open, a run tells it line by line (`Choice`), so a run can be computed: those of
//! `exec_machine_examples` are. `Logs` and `MoreLogs` are good ones, which the moves play too.
//!
//! The crate has the words that code and clauses share, how they are shown, and laws over whole
//! runs as functions that do nothing. It has no state and does nothing.
#![tactic(auto)]

pub mod config;
pub mod event;
pub mod laws;
pub mod state;
pub mod step;
