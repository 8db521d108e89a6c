//! What a task has with a worker.

/// A request or a sleeper that a task has.
#[derive(Clone, Copy, Debug)]
pub struct Held {
    /// Its number among all of the executor.
    pub number: usize,
    /// The worker that has it.
    pub worker: usize,
}
