//! Where a worker can be, and what each of its steps does.
//!
//! The abstract machine (`exec_machine`) says what an executor may do. Here stands what this executor does: the places
//! of a worker (`place`, `handing`, `idling`), and for each place the move that its step is (`specs/Move.antt`; those
//! of an outside caller in `specs/MoveOfCaller.antt`). A move is a function of the place, of what the party has of its
//! own, of the machine's state, and of the one shared thing that the place names; so a trace has one log. What a move
//! makes of the machine's state is told by its event and its choice alone.
#![tactic(auto)]

pub mod examples;
pub mod handing;
pub mod idling;
pub mod laws;
pub mod mail_examples;
pub mod place;
pub mod pool_examples;
