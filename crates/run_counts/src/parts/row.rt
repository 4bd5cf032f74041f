//! What the lines of a summary tell, one by one.
ghost use Rattle.std.specs.Prelude.{◌≡◌};
ghost use Rattle.run_counts.specs.Rows.{count_in, count_of, cut_in, dropped_in, flow_by, flow_in};
ghost use Rattle.run_counts.specs.Rows.{partial_in, refused_in, row_in, segment_of, tap_of, vid_of};

use crate::Flow;
use line_words::{behind_word, first_word, number_of, octet_of};
use timeline::Tap;
use wire::ether::Vid;

/// What a line tells. Whether the line is written as it has to be is seen where all of them are written again.
#[derive(Clone, Copy, Debug)]
pub enum Row {
    /// How often it was decided in a segment, or in none: number 0 for what was sent, and a reason's number for the drops.
    Count(Option<Vid>, u8, u64),
    /// How many changes were refused for the cause of this number.
    Refused(u8, u64),
    /// What came from a place.
    Arrival(Tap, Flow),
    /// What left at a place.
    Left(Tap, Flow),
    /// How many packets from the underlay had checksums that their senders left to their network cards.
    Partial(u64),
    /// The capture of a place is cut.
    Cut(Tap),
}

/// What a line tells, without its line feed. None: it tells nothing of a summary.
#[tactic(auto, unfolding(crate::specs::Rows::row_in))]
pub fn row_in(line: &[u8]) -> Option<Row>
    ensures { result ≡ row_in line.now }
{
    let (kind, words) = first_word(line);
    if kind == b"segment".as_slice() {
        return count_in(words);
    }
    if kind == b"change".as_slice() {
        return refused_in(behind_word(words));
    }
    if kind == b"place".as_slice() {
        return flow_in(words);
    }
    if kind == b"checksum".as_slice() {
        return partial_in(words);
    }
    if kind == b"cut".as_slice() {
        return cut_in(words);
    }
    None
}

/// `V sent N`, `V dropped NUMBER NAME N`, and the same with `none`.
fn count_in(words: &[u8]) -> Option<Row>
    ensures { result ≡ count_in words.now }
{
    let (word, behind) = first_word(words);
    let segment = segment_of(word)?;
    count_of(segment, behind)
}

/// `sent N` or `dropped NUMBER NAME N` of a segment, or of none.
fn count_of(segment: Option<Vid>, words: &[u8]) -> Option<Row>
    ensures { result ≡ count_of segment words.now }
{
    let (what, behind) = first_word(words);
    if what == b"sent".as_slice() {
        let count = number_of(behind)?;
        return Some(Row::Count(segment, 0, count));
    }
    dropped_in(segment, behind)
}

/// `NUMBER NAME N` of what was dropped in a segment, or in none.
fn dropped_in(segment: Option<Vid>, words: &[u8]) -> Option<Row>
    ensures { result ≡ dropped_in segment words.now }
{
    let (word, behind) = first_word(words);
    let number = octet_of(word)?;
    let count = number_of(behind_word(behind))?;
    Some(Row::Count(segment, number, count))
}

/// `NUMBER NAME N` of refused changes.
fn refused_in(words: &[u8]) -> Option<Row>
    ensures { result ≡ refused_in words.now }
{
    let (word, behind) = first_word(words);
    let number = octet_of(word)?;
    let count = number_of(behind_word(behind))?;
    Some(Row::Refused(number, count))
}

/// `P in N OCTETS`, `P out N OCTETS`.
fn flow_in(words: &[u8]) -> Option<Row>
    ensures { result ≡ flow_in words.now }
{
    let (place, behind) = first_word(words);
    let tap = tap_of(place)?;
    let (direction, numbers) = first_word(behind);
    let flow = flow_by(numbers)?;
    if direction == b"in".as_slice() {
        Some(Row::Arrival(tap, flow))
    } else {
        Some(Row::Left(tap, flow))
    }
}

/// `N OCTETS`.
fn flow_by(words: &[u8]) -> Option<Flow>
    ensures { result ≡ flow_by words.now }
{
    let (word, behind) = first_word(words);
    let frames = number_of(word)?;
    let octets = number_of(behind)?;
    Some(Flow { frames, octets })
}

/// `partial N`.
fn partial_in(words: &[u8]) -> Option<Row>
    ensures { result ≡ partial_in words.now }
{
    let count = number_of(behind_word(words))?;
    Some(Row::Partial(count))
}

/// `P N`. How many records stand before the rest is what came from there, so it is told by another line.
fn cut_in(words: &[u8]) -> Option<Row>
    ensures { result ≡ cut_in words.now }
{
    let (place, _) = first_word(words);
    let tap = tap_of(place)?;
    Some(Row::Cut(tap))
}

/// The segment of a word, which is its VID or `none`.
fn segment_of(word: &[u8]) -> Option<Option<Vid>>
    ensures { result ≡ segment_of word.now }
{
    if word == b"none".as_slice() {
        return Some(None);
    }
    let number = number_of(word)?;
    let vid = vid_of(number)?;
    Some(Some(vid))
}

/// The VID of this number, where there is one.
fn vid_of(number: u64) -> Option<Vid>
    ensures { result ≡ vid_of number }
{
    if number < 4095 {
        Vid::new(number as u16)
    } else {
        None
    }
}

/// The place of a word: `p1` and so on is a port, and any other the underlay.
fn tap_of(word: &[u8]) -> Option<Tap>
    ensures { result ≡ tap_of word.now }
{
    match word {
        [] => None,
        [b'p', digits @ ..] => {
            let port = octet_of(digits)?;
            Some(Tap::Port(port))
        }
        _ => Some(Tap::Underlay),
    }
}
