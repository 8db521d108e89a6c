//! What an executor keeps of an open file: how many changes the file had through this open, how many of them a
//! sync has covered, the first failure of a sync, and whether the kernel still takes the hint to keep bytes out of
//! the page cache.
//!
//! A plain write counts a change when it is admitted and another when it has ended well, so a sync that began in
//! between covers the first and not the second. A sync covers what it saw when it was made. A failed sync may
//! have taken the kernel's only word of lost bytes, so its failure stays, and no later one replaces it.

ghost use Rattle.std.specs.Prelude.{◌≡◌, false};
ghost use Rattle.exec_outcomes.specs.Accounts.{fresh_account, changed, covered, poisoned, is_dirty, kept_as as kept_by};
ghost use Rattle.exec_request.specs.States.{covered_or_failed};

use exec_base::error::Error;
use std::marker::Model;

/// The record of an open. A clause sees it as its account. Ports the tracker of an open and its
/// `dont_cache_supported`.
#[derive(Clone, Copy, Debug, PartialEq, Eq)]
pub struct OpenRecord {
    /// How many changes the file had; stands still at its end.
    changes: u64,
    /// How many of them a sync has covered.
    synced: u64,
    /// The first failure of a sync.
    kept: Option<Error>,
    /// Whether operations may still have the hint.
    hint: bool,
}

impl Model for OpenRecord {
    ghost use Rattle.exec_outcomes.specs.Accounts.{Account};

    ghost Value = { Account };

    ghost view = { λ r. record { mutations = r.changes; frontier = r.synced; failure = r.kept; hinted = r.hint } };

    ghost inverse = { λ a. record { changes = a.mutations; synced = a.frontier; kept = a.failure; hint = a.hinted } };
}

impl OpenRecord {
    /// No change, no failure, and the hint is taken.
    pub fn new() -> Self
        ensures { result ≡ fresh_account }
    {
        OpenRecord {
            changes: 0,
            synced: 0,
            kept: None,
            hint: true,
        }
    }

    /// One more change begins, or came of a failed durable write. Ports `write` of the tracker.
    pub fn write(&mut self)
        ensures { self.new ≡ changed self.old }
    {
        self.changes = self.changes.saturating_add(1);
    }

    /// A plain write has ended well. Ports `complete` of the tracker.
    pub fn complete(&mut self)
        ensures { self.new ≡ changed self.old }
    {
        self.changes = self.changes.saturating_add(1);
    }

    /// The changes that a sync which is made now will cover. Ports `begin_sync` of the tracker.
    pub fn begin_sync(&self) -> u64
        ensures { result ≡ self.now.mutations }
    {
        self.changes
    }

    /// A sync went well that covers so many changes. Answers the kept failure, where there is one; it covers
    /// nothing then. Ports `end_sync` of the tracker.
    pub fn end_sync(&mut self, seen: u64) -> Result<(), Error>
        ensures account { self.new ≡ covered seen self.old }
        ensures answer { result ≡ covered_or_failed self.old.failure }
    {
        match self.kept {
            Some(error) => Err(error),
            None => {
                self.synced = self.synced.max(seen);
                Ok(())
            }
        }
    }

    /// A sync failed. The first failure stays. Ports `poison` of the tracker.
    pub fn poison(&mut self, error: Error)
        ensures { self.new ≡ poisoned error self.old }
    {
        if self.kept.is_none() {
            self.kept = Some(error);
        }
    }

    /// The first failure of a sync, if there was one. Ports `failure` of the tracker.
    pub fn failure(&self) -> Option<Error>
        ensures { result ≡ self.now.failure }
    {
        self.kept
    }

    /// Whether some change may not be covered. Ports `is_dirty` of the tracker.
    pub fn is_dirty(&self) -> bool
        ensures { result ≡ is_dirty self.now }
    {
        self.changes != self.synced || self.changes == u64::MAX
    }

    /// Whether operations may still have the hint. Ports `dont_cache_supported`.
    pub fn hinted(&self) -> bool
        ensures { result ≡ self.now.hinted }
    {
        self.hint
    }

    /// The kernel doesn't know the hint: no operation has it any more.
    pub(crate) fn drop_hint(&mut self)
        ensures { self.new ≡ record self.old { hinted = false } }
    {
        self.hint = false;
    }
}

/// An error as it is kept of a failed sync of that open: one of the kernel by the open's number. Ports `sync_failed`.
pub(crate) fn kept_as(file: u32, error: Error) -> Error
    ensures { result ≡ kept_by file error }
{
    match error {
        Error::Io(cause) => Error::BlobSyncFailed(file, cause),
        error => error,
    }
}
