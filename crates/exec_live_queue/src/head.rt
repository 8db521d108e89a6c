//! The head of a queue as one word: the count of the front value, and the gap in the lowest 9 bits.

ghost use Rattle.std.specs.Prelude.{◌≡◌, ◌+◌, ◌^◌, ◌<◌, ◌/◌, ◌%◌};
ghost use Rattle.exec_live_queue.specs.Numbers.{head_word};

/// How many values of a gap a head can tell apart.
pub const GAPS: u64 = 512;

/// The head of this count and gap. The caller must have a count below 2^55, and a gap below 512.
pub fn head_of(real: u64, gap: u64) -> u64
    requires real { real < 2 ^ 55 }
    requires gap { gap < 512 }
    ensures { result ≡ head_word real gap }
{
    real * GAPS + gap
}

/// The count of the front value.
pub fn real_of(head: u64) -> u64
    ensures { result ≡ head / 512 }
{
    head / GAPS
}

/// The gap.
pub fn gap_of(head: u64) -> u64
    ensures { result ≡ head % 512 }
{
    head % GAPS
}
