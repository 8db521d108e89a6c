//! Shutdown doesn't wait for itself: where nobody can take a step nobody is held at the shutdown barrier, and where a worker is
//! closing the kernel has an operation (`specs/Shutdown.antt`).
//!
//! Worker zero closes as its root is over, and stops the pool. A stop comes to each other worker of the pool: worker zero sends a
//! message to its root, which waits for nothing else, and is over once it looks. So that worker closes too (`specs/Stopping.antt`,
//! by the machine alone). Each worker of the pool lets the tasks go, passes the shutdown barrier, and goes on once all have passed
//! it; so whoever is held there waits for one that is awake. After that, and a dedicated worker at once, it waits for its requests,
//! and sleeps only while each that isn't over is held up (`exec_settled`): by the kernel, or by another request that is.
#![tactic(auto)]

pub mod examples;
pub mod laws;
