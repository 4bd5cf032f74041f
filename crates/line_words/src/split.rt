//! A text, split at an octet.
ghost use Rattle.std.specs.Prelude.{◌≡◌};
ghost use Rattle.line_words.specs.Splits.{before_octet, behind_octet};

use crate::place::first_place;

/// What stands before the first place of an octet, and what behind it; the whole text and nothing where it has none.
#[inline]
pub fn split_at_first(octet: u8, text: &[u8]) -> (&[u8], &[u8])
    ensures before { result.0.now ≡ before_octet octet text.now }
    ensures behind { result.1.now ≡ behind_octet octet text.now }
{
    match first_place(octet, text, 0) {
        Some(at) => (&text[..at], &text[at + 1..]),
        None => (text, &[]),
    }
}
