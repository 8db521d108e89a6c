//! The number of a task.

/// The number of a task, which is also its waker: who wakes a task has to know nothing else of it.
///
/// Numbers are given in order of making, from 0 on, and none is given twice. Ports `commonware_runtime`'s use
/// of `std::task::Waker`.
#[derive(Clone, Copy, Debug, PartialEq, Eq, PartialOrd, Ord)]
pub struct TaskNo(pub u32);
