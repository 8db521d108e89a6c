//! Numbers in decimal.

ghost use Rattle.std.specs.Prelude.{◌≡◌, ◌≢◌, ℕ, ◌<◌, ◌^◌, List, decimal, ◌↔◌, IsTrue, IfSome, IfNone};
ghost use Rattle.exec_text.specs.Reading.{IsPlain, IsNumber};

use crate::field::next_field;

/// The number below 2^64 that the bytes spell, with no sign and no leading zero.
pub(crate) fn number(bytes: &[u8]) -> Option<u64>
    ensures found { IfSome result (λ n. bytes.now ≡ decimal n) }
    ensures none { IfNone result ((n : ℕ) → n < 2 ^ 64 → bytes.now ≢ decimal n) }
{
    if !is_plain(bytes) {
        return None;
    }
    let Ok(text) = str::from_utf8(bytes) else {
        return None;
    };
    text.parse::<u64>().ok()
}

/// Whether there are bytes, with no plus sign and no leading zero at the front.
fn is_plain(bytes: &[u8]) -> bool
    ensures { IsTrue result ↔ IsPlain bytes.now }
{
    match bytes {
        [] => false,
        [b'0'] => true,
        [first, ..] => *first != b'0' && *first != b'+',
    }
}

/// The number that the bytes spell, if it isn't 0.
pub(crate) fn positive(bytes: &[u8]) -> Option<u64>
    ensures found { IfSome result (λ n. bytes.now ≡ decimal n) }
    ensures some { IfSome result (λ n. 0 < n) }
    ensures none { IfNone result ((n : ℕ) → 0 < n → n < 2 ^ 64 → bytes.now ≢ decimal n) }
{
    let number = number(bytes)?;
    if number == 0 {
        return None;
    }
    Some(number)
}

/// The number behind the space at the front, and the rest.
pub(crate) fn next_number(bytes: &[u8]) -> Option<(u64, &[u8])>
    ensures found { IfSome result (λ x. IsNumber bytes.now x.0 x.1.now) }
    ensures none { IfNone result ((n : ℕ) (rest : List ℕ) → IsNumber bytes.now n rest → ⊥) }
{
    let (field, rest) = next_field(bytes)?;
    let number = number(field)?;
    Some((number, rest))
}
