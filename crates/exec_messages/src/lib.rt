//! What is told: the callbacks of a worker, and the messages that other workers sent it.
//!
//! Each place has a function, which says what the worker does there; `callbacks` and `mail` find it, and say what the
//! step is to the machine and to all parties.
#![tactic(auto)]

pub mod callbacks;
pub mod mail;
