//! Where a worker's own part names its requests and sleepers, and until when a worker sleeps: by the machine alone.
//!
//! A worker finds what it has to do in lists of its own: which requests are ready, which have landed, whose deadline is new,
//! whose cancel is to be staged, which are over. Here stands that these lists are whole, for any number of workers
//! (`specs/Booked.antt`): a request that waits for something stands in the list for that, of its own worker, which counts how
//! many are in flight, and how many it hasn't released. A durable request stands at the gate of its open until it has the
//! permit, and has that until it is over. A worker that has ended has nothing left; who waits elsewhere for a request or a
//! sleeper, and has said so, has a message under way; and who sleeps does so until what is due next. Each line of a run keeps
//! this, whoever makes it.
//!
//! An event of a worker changes its own requests, and of others' at most who waits for them (`proofs/Spares.antt`).
//! What it leaves of all that is common is a law too (`specs/Reach.antt`).
#![tactic(auto)]

pub mod examples;
pub mod laws;
