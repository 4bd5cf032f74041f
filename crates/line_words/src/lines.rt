//! The lines of a text.
ghost use Rattle.std.specs.Prelude.{◌≡◌, ◌≢◌, ◌++◌, ◌<◌, [], ◌∷◌, All, IfSome, MatchOption, length};
ghost use Rattle.line_words.specs.Lines.{differing_line, whole_lines};

use crate::place::first_place;

/// The first line of a text without its line feed, and what stands behind that; none where the text has no line feed.
#[inline]
pub fn next_line(text: &[u8]) -> Option<(&[u8], &[u8])>
    ensures parts { MatchOption result (All (λ c. c ≢ 10) text.now)
        (λ next. (text.now ≡ next.0.now ++ 10 ∷ next.1.now) × All (λ c. c ≢ 10) next.0.now) }
    ensures lines { MatchOption result (whole_lines text.now ≡ [])
        (λ next. whole_lines text.now ≡ next.0.now ∷ whole_lines next.1.now) }
    ensures shorter { IfSome result (λ next. length next.1.now < length text.now) }
{
    match first_place(b'\n', text, 0) {
        Some(end) => Some((&text[..end], &text[end + 1..])),
        None => None,
    }
}

/// The line, from 1, in which two texts first differ: that behind the line feeds of what both begin with.
pub fn first_difference(text: &[u8], other: &[u8]) -> usize
    ensures { result ≡ differing_line text.now other.now }
{
    let same = text.iter().zip(other.iter()).take_while(|(c, d)| *c == *d);
    same.filter(|(c, _)| **c == b'\n').count() + 1
}
