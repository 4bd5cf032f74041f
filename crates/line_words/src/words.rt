//! Words of a line.
ghost use Rattle.std.specs.Prelude.{◌≡◌};
ghost use Rattle.line_words.specs.Words.{word, behind};

use crate::split::split_at_first;

/// What stands before the first space, and what behind it; the whole text and nothing where there is none.
pub fn first_word(text: &[u8]) -> (&[u8], &[u8])
    ensures word { result.0.now ≡ word text.now }
    ensures behind { result.1.now ≡ behind text.now }
{
    split_at_first(b' ', text)
}

/// What stands behind the first space.
pub fn behind_word(text: &[u8]) -> &[u8]
    ensures { result.now ≡ behind text.now }
{
    let (_, behind) = first_word(text);
    behind
}
