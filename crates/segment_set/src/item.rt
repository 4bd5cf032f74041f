//! One item of a list of segments.
ghost use Rattle.std.specs.Prelude.{◌≡◌, ◌≤◌, ◌<◌, option_map, IfOk, IfSome, length};
ghost use Rattle.wire.specs.Tag.{IsVid};
ghost use Rattle.segment_set.specs.Lists.{AreVids, cut, item_in, one_vid, vid_in, vid_range};

use crate::fault::ListFault;

/// What an item asks for.
#[derive(Clone, Copy, Debug)]
pub(crate) enum Item {
    /// The segments from this VID to that one.
    Vids(u16, u16),
    /// What comes to no segment.
    Nowhere,
}

/// Takes an item apart: a VID, a range of them, or the word `none`.
pub(crate) fn item_in(text: &str) -> Result<Item, ListFault>
    ensures value { result ≡ item_in text.now }
    ensures vids { IfOk result AreVids }
{
    if text.is_empty() {
        return Err(ListFault::Empty);
    }
    if text == "none" {
        return Ok(Item::Nowhere);
    }
    match cut(text, '-') {
        None => one_vid(vid_in(text.as_bytes())),
        Some((first, last)) => vid_range(vid_in(first.as_bytes()), vid_in(last.as_bytes())),
    }
}

/// What stands before the first of a character and behind it.
pub(crate) fn cut(text: &str, mark: char) -> Option<(&str, &str)>
    requires { mark < 128 }
    ensures value { option_map (λ parts. (parts.0.now, parts.1.now)) result ≡ cut mark text.now }
    ensures shorter { IfSome result (λ parts. length parts.1.now < length text.now) }
{
    text.split_once(mark)
}

/// The VID of some digits, 1 to 4094.
fn vid_in(digits: &[u8]) -> Option<u16>
    ensures value { result ≡ vid_in digits.now }
    ensures vid { IfSome result IsVid }
{
    let mut number = 0;
    for digit in digits {
        if !digit.is_ascii_digit() {
            return None;
        }
        number = number * 10 + u16::from(*digit - b'0');
        if number > 4094 {
            return None;
        }
    }
    if number == 0 { None } else { Some(number) }
}

/// One VID.
fn one_vid(vid: Option<u16>) -> Result<Item, ListFault>
    requires { IfSome vid IsVid }
    ensures value { result ≡ one_vid vid }
    ensures vids { IfOk result AreVids }
{
    match vid {
        Some(vid) => Ok(Item::Vids(vid, vid)),
        None => Err(ListFault::BadVid),
    }
}

/// The VIDs from one to another.
fn vid_range(first: Option<u16>, last: Option<u16>) -> Result<Item, ListFault>
    requires first { IfSome first IsVid }
    requires last { IfSome last IsVid }
    ensures value { result ≡ vid_range first last }
    ensures vids { IfOk result AreVids }
{
    match (first, last) {
        (Some(first), Some(last)) if last < first => Err(ListFault::BadRange),
        (Some(first), Some(last)) => Ok(Item::Vids(first, last)),
        _ => Err(ListFault::BadVid),
    }
}
