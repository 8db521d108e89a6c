//! Limits of what the words of a trace ask for, each said once: the run of a trace relies on them too.

/// The last offset in a file, in bytes.
pub const LAST_OFFSET: u64 = 1 << 62;

/// The most bytes that one word asks for.
pub const MOST_ASKED: u64 = 1_048_576;
