//! What holds of a worker, and of all of them together, between two steps of an executor; and the lemmas on it that
//! several groups of steps share.
//!
//! There is no code here. `Sound` is what holds of a worker and of what it shares; `Whole` what holds of all parties
//! together, as balances over their profiles; `Spares` what a step leaves of what the others rely on; `Works` what a
//! step is to the machine.
#![tactic(auto)]
