//! How a read goes: through the page cache, with the hint or without it, or past it by whole pages.

ghost use Rattle.std.specs.Prelude.{◌≡◌, ℕ};
ghost use Rattle.exec_request.specs.Ways.{asked_by, is_direct};

use exec_outcomes::outcome::Kind;

/// How a read was made, and how it goes now. Ports `Direct` and where it may stand.
#[derive(Clone, Copy, Debug, PartialEq, Eq)]
pub enum Way {
    /// Through the page cache.
    Buffered,
    /// Through the page cache, made with the hint to leave nothing in it.
    Hinted,
    /// By whole pages into a buffer of whole pages.
    Direct {
        /// The bytes of that buffer before the range.
        skip: usize,
        /// The length of the range.
        len: usize,
    },
    /// Through the page cache, made as a direct read.
    Switched {
        /// The bytes that lay before the range then.
        skip: usize,
        /// The length of the range.
        len: usize,
    },
}

impl Way {
    /// The kind of a read that was made so.
    pub fn kind(self) -> Kind
        ensures { (length : ℕ) → result ≡ (asked_by self length).kind }
    {
        match self {
            Way::Buffered => Kind::Read,
            Way::Hinted => Kind::Hint,
            Way::Direct { .. } | Way::Switched { .. } => Kind::Direct,
        }
    }

    /// Whether it passes the page cache by.
    pub fn is_direct(self) -> bool
        ensures { result ≡ is_direct self }
    {
        matches!(self, Way::Direct { .. })
    }
}
