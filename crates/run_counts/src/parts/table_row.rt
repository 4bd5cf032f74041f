//! Lines of tables.
ghost use Rattle.std.specs.Prelude.{◌≡◌, ◌++◌, ℕ, MatchOption};
ghost use Rattle.wire.specs.Tag.{IsVid};
ghost use Rattle.run_counts.specs.Tables.{BeginsWithNone, IsOf, IsRow, row_text};

use line_words::{first_word, number_of};
use segment_set::SegmentSet;
use wire::ether::Vid;

/// A line of tables, which is that of a live entry.
#[derive(Clone, Copy, Debug)]
pub struct TableRow<'a> {
    /// The segment.
    pub(crate) vid: Vid,
    /// Without its line feed.
    pub(crate) line: &'a [u8],
}

/// The first line of a text, where it is one of these segments, and what stands behind it.
pub(crate) fn next_row<'a>(
    text: &'a [u8],
    segments: &SegmentSet,
) -> Option<(TableRow<'a>, &'a [u8])>
    ensures { MatchOption result (BeginsWithNone segments.now text.entry.now)
        (λ next. IsRow segments.now next.0 × (text.entry.now ≡ row_text next.0 ++ next.1.now)) }
{
    let end = text.iter().position(|c| *c == b'\n')?;
    let line = &text[..end];
    let vid = segment_of(line)?;
    if !segments.has(Some(vid)) {
        return None;
    }
    Some((TableRow { vid, line }, &text[end + 1..]))
}

/// The segment that a line begins with.
fn segment_of(line: &[u8]) -> Option<Vid>
    ensures { MatchOption result ((vid : ℕ) → IsVid vid → IsOf vid line.now → ⊥) (λ vid. IsOf vid line.now) }
{
    let (kind, words) = first_word(line);
    if kind != b"segment".as_slice() {
        return None;
    }
    let (number, told) = first_word(words);
    if told.is_empty() {
        return None;
    }
    Vid::new(u16::try_from(number_of(number)?).ok()?)
}
