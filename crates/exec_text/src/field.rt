//! The fields of a line, which single spaces set apart.

ghost use Rattle.std.specs.Prelude.{◌≡◌, ◌≢◌, ℕ, List, ◌∷◌, IfSome, IfNone};
ghost use Rattle.exec_text.specs.Reading.{IsField};

/// The bytes before the first space, and the rest from that space on.
pub(crate) fn first_field(bytes: &[u8]) -> (&[u8], &[u8])
    ensures { IsField bytes.now result.0.now result.1.now }
{
    match bytes.iter().position(|byte| *byte == b' ') {
        Some(end) => bytes.split_at(end),
        None => bytes.split_at(bytes.len()),
    }
}

/// The field behind the space at the front, and the rest.
pub(crate) fn next_field(bytes: &[u8]) -> Option<(&[u8], &[u8])>
    ensures found { IfSome result (λ x. (behind : List ℕ) × (bytes.now ≡ 32 ∷ behind) × IsField behind x.0.now x.1.now) }
    ensures none { IfNone result ((behind : List ℕ) → bytes.now ≢ 32 ∷ behind) }
{
    match bytes {
        [b' ', rest @ ..] => Some(first_field(rest)),
        _ => None,
    }
}
