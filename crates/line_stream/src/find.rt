//! The end of a line.
ghost use Rattle.std.specs.Prelude.{◌≡◌, MatchOption, take};
ghost use Rattle.line_stream.specs.Filled.{EndsAt, HasNoEnd};
ghost use Rattle.line_stream.specs.Lines.{has_line};

use line_words::first_place;

/// Where the first line of a text ends, behind its first line feed, where it has one. Its first octets, up to `seen`, have
/// none.
pub(crate) fn end_of_line(text: &[u8], seen: usize) -> Option<usize>
    requires { HasNoEnd (take seen text.now) }
    ensures { MatchOption result (HasNoEnd text.now) (EndsAt text.now) }
{
    match first_place(b'\n', text, seen) {
        Some(at) => Some(at + 1),
        None => None,
    }
}

/// Whether a whole line stands in front of a text, with its line feed.
pub(crate) fn has_line(text: &[u8]) -> bool
    ensures { result ≡ has_line text.now }
{
    match end_of_line(text, 0) {
        Some(_) => true,
        None => false,
    }
}
