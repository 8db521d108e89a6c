//! What a body sees of the worker that polls it.

use exec_base::error::Error;
use exec_base::task_no::TaskNo;
use exec_opens::opens::Opens;
use exec_task::body::Around;

/// What a body sees: the moment that its worker sampled last, the records of the opens, how many tasks there are, and
/// whether the pool is stopped. No listener is there yet.
#[derive(Drop)]
pub struct Sighted<'a> {
    /// The moment, in nanoseconds.
    pub moment: u64,
    /// The opens.
    pub opens: &'a Opens,
    /// How many tasks there are, also of those that are over.
    pub tasks: usize,
    /// Whether the pool is stopped.
    pub stopped: bool,
}

#[tactic(auto, using(crate::proofs::Sights::account_there))]
impl<'a> Around for Sighted<'a> {
    ghost use Rattle.std.specs.Prelude.{Some};
    ghost use Rattle.exec_parts.specs.Polls.{sight_of};

    ghost sees = { λ s. Some (sight_of s.moment s.tasks s.stopped s.opens.now) };

    fn now(&self) -> u64 {
        self.moment
    }

    fn failure(&self, file: u32) -> Option<Error> {
        self.opens.account(Some(file))?.failure()
    }

    fn is_dirty(&self, file: u32) -> bool {
        let account = self.opens.account(Some(file));
        account.is_some_and(|record| record.is_dirty())
    }

    fn begin_sync(&self, file: u32) -> u64 {
        let account = self.opens.account(Some(file));
        account.map_or(0, |record| record.begin_sync())
    }

    fn has_task(&self, task: TaskNo) -> bool {
        (task.0 as usize) < self.tasks
    }

    fn is_stopped(&self) -> bool {
        self.stopped
    }

    fn peer(&mut self, _listener: u32) -> Option<u32> {
        None
    }

    fn bind(&mut self, _listener: u32) -> Result<(), Error> {
        Err(Error::BindFailed)
    }
}
