//! Whoever sleeps has nothing to do, whatever others do, or is woken next; no request is forgotten; nothing is unfinished where
//! all workers sleep; and a closing worker sleeps only while a request of its own isn't over (`specs/Parked.antt`).
//!
//! Beside what keeps wakes and messages from being lost (`exec_rest`) stands here, by the moves, what a worker has found
//! done before it sleeps, and has left so (`specs/Settled.antt`): nothing waits for its callbacks or its service, the kernel
//! has what was staged, nothing has landed. Two things come from elsewhere. A permit that a worker passes on goes to a
//! request of another worker, which is signalled after it (`specs/Permits.antt`). And what a task waits for may be
//! another worker's, which sends its end, and wakes the task after that (`specs/Awaited.antt`). In between it is known who
//! makes the next step.
#![tactic(auto)]

pub mod examples;
pub mod laws;
