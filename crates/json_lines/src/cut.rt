//! Texts cut at an octet.
ghost use Rattle.std.specs.Prelude.{◌≡◌, ◌<◌, ◌∷◌, ◌==◌, [], MatchOption, length};
ghost use Rattle.std.specs.List.{slice_split};

use line_words::first_place;

/// What stands before the first octet of this kind, and what stands behind it, if there is one.
#[inline]
pub(crate) fn cut_first(octet: u8, text: &[u8]) -> Option<(&[u8], &[u8])>
    ensures parts { MatchOption result (slice_split (λ c. c == octet) text.now ≡ text.now ∷ [])
        (λ p. slice_split (λ c. c == octet) text.now ≡ p.0.now ∷ slice_split (λ c. c == octet) p.1.now) }
    ensures shorter { MatchOption result (Unit {0}) (λ p. length p.1.now < length text.now) }
{
    match first_place(octet, text, 0) {
        Some(at) => Some((&text[..at], &text[at + 1..])),
        None => None,
    }
}
