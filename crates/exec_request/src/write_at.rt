//! A write: all bytes of its buffers go to a file, from an offset on.
//!
//! It is durable in no way, or each of its operations is durable by itself, or one sync trails them all. The trailing
//! sync begins once every byte is written, and what its results count is no bytes.

ghost use Rattle.std.specs.Prelude.{◌≡◌, ◌+◌, ◌-◌, ◌<◌, ◌^◌, true};
ghost use Rattle.exec_request.specs.{Buffers.{length_of, moved_of, is_sound}, Syncing.is_syncing};

use crate::buffers::WriteBuffers;
use crate::cache::Cache;
use crate::judge::judge;
use crate::open_record::{OpenRecord, kept_as};
use crate::output::{RequestOutput, RetiredResources};
use crate::results::{LARGEST_WINDOW, WaiterState, counted_by};
use crate::window::{Opcode, Window};
use exec_base::error::Error;
use exec_outcomes::outcome::{Kind, LARGEST_COUNT, OpResult};

/// How durable a write is, and how far. Ports `WriteAtState`.
#[derive(Clone, Copy, Debug, PartialEq, Eq)]
pub enum WriteAtState {
    /// It writes, and nothing is durable by it.
    Writing,
    /// It writes, and each operation is durable when it ends.
    WritingSync,
    /// It writes, and a sync follows.
    WritingBeforeSync,
    /// All is written, and the sync that follows is under way.
    Syncing,
}

impl WriteAtState {
    ghost use Rattle.exec_request.specs.Syncing.{is_syncing, write_kind};

    /// The kind of a write that is so durable.
    pub fn kind(self) -> Kind
        ensures { result ≡ write_kind self }
    {
        match self {
            WriteAtState::Writing => Kind::Write,
            WriteAtState::WritingSync => Kind::Dsync,
            WriteAtState::WritingBeforeSync | WriteAtState::Syncing => Kind::Many,
        }
    }

    /// Whether the trailing sync has begun.
    pub fn is_syncing(self) -> bool
        ensures { result ≡ is_syncing self }
    {
        matches!(self, WriteAtState::Syncing)
    }
}

/// A write of all bytes of its buffers. Ports `WriteAtRequest`.
#[derive(Debug, Drop)]
pub struct WriteAtRequest {
    /// The open.
    pub file: u32,
    /// Where the next byte goes in the file.
    pub offset: u64,
    /// The bytes, and how many were written.
    pub write: WriteBuffers,
    /// How durable it is, and how far.
    pub state: WriteAtState,
    /// Whether its operations still ask for the hint.
    pub cache: Cache,
    /// The changes of the open that a trailing sync covers.
    pub seen: u64,
    pub ghost sound: { is_sound write ≡ true },
    pub ghost ends: { offset + (length_of write - moved_of write) < 2 ^ 64 },
    pub ghost written: { is_syncing state ≡ true → moved_of write ≡ length_of write },
}

impl WriteAtRequest {
    ghost use Rattle.std.specs.Prelude.{◌≤◌, ◌&&◌, Bool, IsTrue, Some, if◌then◌else◌};
    ghost use Rattle.exec_outcomes.specs.Lawful.{is_lawful, window_of};
    ghost use Rattle.exec_outcomes.specs.Outcomes.{cursor_next, is_unsupported, outcome_next};
    ghost use Rattle.exec_outcomes.specs.declared.outcome.Outcome.TheVariants.{Success};
    ghost use Rattle.exec_request.specs.Hints.{has_hint, cache_for, without_hint};
    ghost use Rattle.exec_request.specs.States.{as_outcome, as_answer, result_of, told_by, account_by};
    ghost use Rattle.exec_request.specs.Kept.{write_kept};
    ghost use Rattle.exec_request.specs.Judging.{Judges, judged_as};
    ghost use Rattle.exec_outcomes.specs.Accounts.{account_after, after_success, after_failure, outcome_told};
    ghost use Rattle.exec_request.specs.Syncing.{write_kind};
    ghost use Rattle.exec_request.specs.Windows.{most_of};
    ghost use Rattle.exec_request.specs.Views.{write_asked, write_cursor, write_hinted, write_window};

    /// A write of these bytes, some of which may have been written already, from `offset` on. `seen` is what
    /// `begin_sync` of the open's record answered. A trailing sync begins only where all is written. The caller must
    /// have bytes with a sound place, as `WriteBuffers::from` makes it and `advance` keeps it, of which those that are
    /// left end below 2^64 in the file, and none is left where the trailing sync has begun.
    pub fn new(
        file: u32,
        offset: u64,
        write: WriteBuffers,
        state: WriteAtState,
        cache: Cache,
        seen: u64,
    ) -> Self
        requires sound { is_sound write ≡ true }
        requires ends { offset + (length_of write - moved_of write) < 2 ^ 64 }
        requires written { is_syncing state ≡ true → moved_of write ≡ length_of write }
        ensures file { result.file ≡ file }
        ensures offset { result.offset ≡ offset }
        ensures write { result.write ≡ write }
        ensures state { result.state ≡ state }
        ensures cache { result.cache ≡ cache }
        ensures seen { result.seen ≡ seen }
    {
        WriteAtRequest {
            file,
            offset,
            write,
            state,
            cache,
            seen,
        }
    }

    /// What the next operation will ask of the kernel. Nothing changes.
    pub fn window(&self, open_: &Option<OpenRecord>) -> Window
        ensures window { result ≡ write_window (has_hint open_.now) self.now }
        ensures left { most_of result ≤ window_of (write_asked self.now) (write_cursor self.now) }
    {
        if self.state.is_syncing() {
            return Window::plain(Opcode::Sync, self.file, 0, 0);
        }
        Window {
            kind: Opcode::Write,
            target: self.file,
            offset: self.offset,
            length: self.write.batch_len() as u32,
            chunks: self.write.batch_chunks(),
            hint: self.cache.rw_flag(open_),
            direct: false,
            dsync: matches!(self.state, WriteAtState::WritingSync),
        }
    }

    /// What the next operation asks of the kernel. A request gives up the hint that its open has given up.
    pub fn build_sqe(&mut self, open_: &Option<OpenRecord>) -> Window
        ensures window { result ≡ write_window (has_hint open_.now) self.old }
        ensures left { most_of result ≤ window_of (write_asked self.old) (write_cursor self.old) }
        ensures again { write_window true self.new ≡ result }
        ensures after { self.new ≡ record self.old { cache = if is_syncing self.old.state then self.old.cache else cache_for (has_hint open_.now) self.old.cache } }
    {
        let window = self.window(open_);
        if !self.state.is_syncing() {
            self.cache.give_up(open_);
        }
        window
    }

    /// Whether its last operation had the hint.
    fn is_hinted(&self) -> bool
        ensures { result ≡ write_hinted self.now }
    {
        !self.state.is_syncing() && self.cache.is_disabled()
    }

    /// Judges the next result. Answers the outcome that all results so far give, or None where another
    /// operation is needed. A refused hint is given up, also by the open. The caller must know that the kernel may
    /// give this result for the operation.
    pub fn on_cqe(
        &mut self,
        state: WaiterState,
        given: OpResult,
        open_: &mut Option<OpenRecord>,
    ) -> Option<Result<(), Error>>
        requires lawful { IsTrue (is_lawful (window_of (write_asked self.old) (write_cursor self.old)) given) }
        ensures judges { Judges (write_asked self.old) (write_cursor self.old) (write_cursor self.new) (judged_as (write_hinted self.old) state given) (as_answer result) }
        ensures kept { write_kept self.new ≡ write_kept self.old }
        ensures open { open_.new ≡ (if write_hinted self.old && is_unsupported given then without_hint open_.old else open_.old) }
    {
        let hinted = self.is_hinted();
        let outcome = self.judge(state.is_cancelled(), given);
        self.go_on(given);
        self.cache.fallback(hinted, given, open_);
        outcome
    }

    /// The most that the next operation may answer.
    pub(crate) fn window_len(&self) -> u64
        ensures { result ≡ window_of (write_asked self.now) (write_cursor self.now) }
    {
        if self.state.is_syncing() {
            return LARGEST_COUNT;
        }
        (self.write.remaining_len() as u64).min(LARGEST_WINDOW)
    }

    /// Ends the request: what is told of it, and all that it owned. The record of its open takes its end in.
    pub fn complete(
        self,
        ended: Result<(), Error>,
        open_: &mut Option<OpenRecord>,
    ) -> (RequestOutput, RetiredResources)
        ensures told { result.0 ≡ RequestOutput.WriteAt (told_by (write_kind self.state) ended open_.old) }
        ensures retired { result.1 ≡ RetiredResources.File self.file (Some self.write) }
        ensures open { open_.new ≡ account_by self.file (is_syncing self.state) self.seen (write_kind self.state) ended open_.old }
    {
        let told = match open_ {
            Some(books) => self.settle(ended, books),
            None => ended,
        };
        let retired = RetiredResources::File {
            file: self.file,
            write: Some(self.write),
        };
        (RequestOutput::WriteAt(told), retired)
    }

    /// Ends the request with this outcome, which the record of its open takes in. Answers what is told of it:
    /// a failure of the open in place of a durable success. Ports `wrote` of an open, with the end of a trailing
    /// sync.
    pub(crate) fn settle(
        &self,
        ended: Result<(), Error>,
        books: &mut OpenRecord,
    ) -> Result<(), Error>
        ensures account { books.new ≡ account_after self.now.file (is_syncing self.now.state) self.now.seen (write_kind self.now.state) (as_outcome ended) books.old }
        ensures told { result ≡ result_of (outcome_told (write_kind self.now.state) books.old (as_outcome ended)) }
    {
        match ended {
            Ok(()) => self.settle_success(books),
            Err(error) => {
                self.settle_failure(error, books);
                Err(error)
            }
        }
    }

    /// All was written, and made durable as asked.
    fn settle_success(&self, books: &mut OpenRecord) -> Result<(), Error>
        ensures account { books.new ≡ after_success self.now.seen (write_kind self.now.state) books.old }
        ensures told { result ≡ result_of (outcome_told (write_kind self.now.state) books.old Success) }
    {
        match self.state {
            WriteAtState::Writing => {
                books.complete();
                Ok(())
            }
            WriteAtState::WritingSync => match books.failure() {
                Some(error) => Err(error),
                None => Ok(()),
            },
            WriteAtState::WritingBeforeSync | WriteAtState::Syncing => books.end_sync(self.seen),
        }
    }

    /// It failed, and where it was to be durable by then the failure is kept.
    fn settle_failure(&self, error: Error, books: &mut OpenRecord)
        ensures { books.new ≡ after_failure self.now.file (is_syncing self.now.state) error (write_kind self.now.state) books.old }
    {
        match self.state {
            WriteAtState::Writing => {}
            WriteAtState::WritingBeforeSync => books.write(),
            WriteAtState::WritingSync | WriteAtState::Syncing => {
                books.write();
                books.poison(kept_as(self.file, error));
            }
        }
    }

    /// Counts the bytes of one more result, or begins the trailing sync.
    fn go_on(&mut self, given: OpResult)
        requires lawful { IsTrue (is_lawful (window_of (write_asked self.old) (write_cursor self.old)) given) }
        ensures cursor { (cancelled : Bool) → let next = cursor_next (write_asked self.old) (write_cursor self.old) (record { result = given; hinted = write_hinted self.old; cancelled = cancelled }) in
            ((if is_syncing self.new.state then 0 else moved_of self.new.write) ≡ next.moved) × (is_syncing self.new.state ≡ next.switched) }
        ensures kept { write_kept self.new ≡ write_kept self.old }
        ensures cache { self.new.cache ≡ self.old.cache }
    {
        if self.state.is_syncing() {
            return;
        }
        let count = counted_by(given);
        self.write.advance(count as usize);
        self.offset += count;
        let trails = matches!(self.state, WriteAtState::WritingBeforeSync);
        if trails && count > 0 && self.write.is_complete() {
            self.state = WriteAtState::Syncing;
        }
    }

    /// What one more result means.
    fn judge(&self, cancelled: bool, given: OpResult) -> Option<Result<(), Error>>
        requires { IsTrue (is_lawful (window_of (write_asked self.now) (write_cursor self.now)) given) }
        ensures { as_answer result ≡ outcome_next (write_asked self.now) (write_cursor self.now) (record { result = given; hinted = write_hinted self.now; cancelled = cancelled }) }
    {
        if self.state.is_syncing() {
            return judge(Kind::Sync, 1, false, cancelled, given);
        }
        let left = self.write.remaining_len() as u64;
        judge(
            self.state.kind(),
            left,
            self.cache.is_disabled(),
            cancelled,
            given,
        )
    }
}
