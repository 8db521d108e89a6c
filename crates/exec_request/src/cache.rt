//! The hint to keep the bytes of an operation out of the page cache.
//!
//! A request that asks for it has it in its operations as long as its open has it. Where the kernel refuses it, the
//! request goes on without, once, and its open gives it up for all requests.

ghost use Rattle.std.specs.Prelude.{◌≡◌, ◌&&◌, if◌then◌else◌};
ghost use Rattle.exec_outcomes.specs.Outcomes.{is_unsupported};
ghost use Rattle.exec_request.specs.Hints.{asks_hint, has_hint, cache_for, without_hint};

use crate::open_record::OpenRecord;
use crate::results::UNSUPPORTED;
use exec_outcomes::outcome::OpResult;

/// Whether a request leaves its bytes in the page cache. Ports `Cache`.
#[derive(Clone, Copy, Debug, PartialEq, Eq)]
pub enum Cache {
    /// It does.
    Enabled,
    /// It asks for the hint.
    Disabled,
}

impl Cache {
    /// Whether it asks for the hint.
    pub(crate) fn is_disabled(self) -> bool
        ensures { result ≡ asks_hint self }
    {
        matches!(self, Cache::Disabled)
    }

    /// Whether the next operation has the hint. Ports `rw_flag`.
    pub(crate) fn rw_flag(self, open_: &Option<OpenRecord>) -> bool
        ensures { result ≡ (asks_hint self && has_hint open_.now) }
    {
        self.is_disabled() && open_hinted(open_)
    }

    /// Gives the hint up where the open has.
    pub(crate) fn give_up(&mut self, open_: &Option<OpenRecord>)
        ensures { self.new ≡ cache_for (has_hint open_.now) self.old }
    {
        if !open_hinted(open_) {
            *self = Cache::Enabled;
        }
    }

    /// Gives the hint up where an operation had it and this result refuses it. Ports `fallback`.
    pub(crate) fn fallback(&mut self, hinted: bool, given: OpResult, open_: &mut Option<OpenRecord>)
        ensures cache { self.new ≡ (if hinted && is_unsupported given then Cache.Enabled else self.old) }
        ensures open { open_.new ≡ (if hinted && is_unsupported given then without_hint open_.old else open_.old) }
    {
        if hinted && is_refusal(given) {
            *self = Cache::Enabled;
            if let Some(record) = open_ {
                record.drop_hint();
            }
        }
    }
}

/// Whether this result says that the kernel doesn't know the hint.
fn is_refusal(given: OpResult) -> bool
    ensures { result ≡ is_unsupported given }
{
    matches!(given, OpResult::Errno(UNSUPPORTED))
}

/// Whether operations of this open may have the hint.
fn open_hinted(open_: &Option<OpenRecord>) -> bool
    ensures { result ≡ has_hint open_.now }
{
    match open_ {
        Some(record) => record.hinted(),
        None => false,
    }
}
