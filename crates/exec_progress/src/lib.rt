//! No worker turns for ever, among any number of workers and callers: laws by the moves alone.
//!
//! A worker that has nothing to do goes down from the beginning of a turn to its sleep. It comes up again, to another turn,
//! only where it has seen a sign that there is something to do. A sure sign brings a line that isn't quiet where the turn
//! takes it up: a value in a queue a poll, a message its application, a due deadline its expiry. Any other sign is gone
//! where it is taken up, and so is good for one turn: a latch, an acknowledged cancel, a ring that was set busy. So a
//! number falls at each quiet step (`specs/Effort.antt`): how far it is down to the sleep (`specs/Ranks.antt`), a second
//! scan, where the last look may find something to steal, and a whole turn for each that is owed (`specs/Owed.antt`).
//!
//! What is known of a worker at its place is `specs/Going.antt`. Some of it is carried from step to step
//! (`specs/Paced.antt`), some holds since wakes and messages aren't lost (`exec_rest`), and the rest is given of each
//! state by whoever's parts say the same (`specs/Granted.antt`). While a worker isn't closing the number is never as large as
//! the bound on quiet lines.
#![tactic(auto)]

pub mod examples;
pub mod laws;
