//! No outside caller turns for ever: each of its quiet steps costs credit.
//!
//! The moves (`exec_moves`) say what each step does. Here stands how many quiet steps a call still has
//! (`specs/CallCredit.antt`), and that this falls at each of them, whatever workers and other callers did before. Of workers
//! the same is in `exec_progress`; what it needs of single spinners, rings and deadlines is proved here
//! (`specs/Spins.antt` and the lemmas in `proofs`). No code is spoken of: whoever makes moves has the law.
#![tactic(auto)]

pub mod calls;
pub mod examples;
