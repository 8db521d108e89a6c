//! A sync: what was written to a file is made durable.
//!
//! It covers the changes that its open had seen when it was made, and never those that came later.

ghost use Rattle.std.specs.Prelude.{◌≡◌, IsTrue, false, None};
ghost use Rattle.exec_outcomes.specs.{Accounts.{account_after, outcome_told}, Lawful.{is_lawful, window_of}, declared.outcome.Kind.TheVariants.Sync};
ghost use Rattle.exec_request.specs.{States.{as_outcome, as_answer, result_of, told_by, account_by}, Judging.{Judges, judged_as}, Views.{sync_asked, sync_cursor, sync_window}};

use crate::judge::judge;
use crate::open_record::{OpenRecord, kept_as};
use crate::output::{RequestOutput, RetiredResources};
use crate::results::WaiterState;
use crate::window::{Opcode, Window};
use exec_base::error::Error;
use exec_outcomes::outcome::{Kind, OpResult};

/// A sync of an open. Ports `SyncRequest`.
#[derive(Debug, Drop, PartialEq, Eq)]
pub struct SyncRequest {
    /// The open.
    pub file: u32,
    /// The changes that it covers.
    pub seen: u64,
}

impl SyncRequest {
    /// A sync that covers so many changes, as `begin_sync` answered.
    pub fn new(file: u32, seen: u64) -> Self
        ensures { result ≡ record { file = file; seen = seen } }
    {
        SyncRequest { file, seen }
    }

    /// What the next operation asks of the kernel.
    pub fn build_sqe(&self) -> Window
        ensures { result ≡ sync_window self.now }
    {
        Window::plain(Opcode::Sync, self.file, 0, 0)
    }

    /// Judges the next result. Answers the outcome that all results so far give, or None where another
    /// operation is needed. The caller must know that the kernel may give this result for the operation.
    pub fn on_cqe(&self, state: WaiterState, given: OpResult) -> Option<Result<(), Error>>
        requires { IsTrue (is_lawful (window_of (sync_asked self.now) (sync_cursor self.now)) given) }
        ensures { Judges (sync_asked self.now) (sync_cursor self.now) (sync_cursor self.now) (judged_as false state given) (as_answer result) }
    {
        judge(Kind::Sync, 1, false, state.is_cancelled(), given)
    }

    /// Ends the request: what is told of it, and all that it owned. The record of its open takes its end in.
    pub fn complete(
        self,
        ended: Result<(), Error>,
        open_: &mut Option<OpenRecord>,
    ) -> (RequestOutput, RetiredResources)
        ensures told { result.0 ≡ RequestOutput.Sync (told_by Sync ended open_.old) }
        ensures retired { result.1 ≡ RetiredResources.File self.file None }
        ensures open { open_.new ≡ account_by self.file false self.seen Sync ended open_.old }
    {
        let told = match open_ {
            Some(books) => self.settle(ended, books),
            None => ended,
        };
        let retired = RetiredResources::File {
            file: self.file,
            write: None,
        };
        (RequestOutput::Sync(told), retired)
    }

    /// Ends the request with this outcome, which the record of its open takes in. Answers what is told of it:
    /// a failure of the open in place of a success.
    pub(crate) fn settle(
        &self,
        ended: Result<(), Error>,
        books: &mut OpenRecord,
    ) -> Result<(), Error>
        ensures account { books.new ≡ account_after self.now.file false self.now.seen Sync (as_outcome ended) books.old }
        ensures told { result ≡ result_of (outcome_told Sync books.old (as_outcome ended)) }
    {
        match ended {
            Ok(()) => books.end_sync(self.seen),
            Err(error) => {
                books.poison(kept_as(self.file, error));
                Err(error)
            }
        }
    }
}
