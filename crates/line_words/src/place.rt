//! The first place of an octet.
ghost use Rattle.std.specs.Prelude.{◌≡◌, ◌≤◌, ◌+◌, ◌==◌, MatchOption, length, map};
ghost use Rattle.std.specs.Simd.Lanes.{chunk, mask_l};
ghost use Rattle.line_words.specs.Places.{IsFirst, LacksFrom};

use std::simd::prelude::*;

/// How many octets are compared at once.
const LANES: usize = 16;

/// The first place from `from` on where a text has an octet, where it has it.
///
/// Sixteen octets are compared at once, the last of a text together with some before them; one at a time in a shorter text.
#[inline]
pub fn first_place(octet: u8, text: &[u8], from: usize) -> Option<usize>
    ensures { MatchOption result (LacksFrom octet text.now from) (IsFirst octet text.now from) }
{
    if text.len() < LANES {
        return first_by_one(octet, text, from);
    }
    let mut at = from;
    while at < text.len() {
        let start = at.min(text.len() - LANES);
        let marks = marks(octet, text, start) >> (at - start);
        if marks != 0 {
            return Some(at + marks.trailing_zeros() as usize);
        }
        at = start + LANES;
    }
    None
}

/// The same, one octet at a time.
fn first_by_one(octet: u8, text: &[u8], from: usize) -> Option<usize>
    ensures { MatchOption result (LacksFrom octet text.now from) (IsFirst octet text.now from) }
{
    let mut at = from;
    while at < text.len() {
        if text[at] == octet {
            return Some(at);
        }
        at += 1;
    }
    None
}

/// Which of sixteen octets are this one: a bit for each, the lowest for the first.
#[inline]
fn marks(octet: u8, text: &[u8], start: usize) -> u64
    requires { start + LANES ≤ length text.now }
    ensures { result ≡ mask_l (map (λ c. c == octet) (chunk start LANES text.now)) }
{
    u8x16::from_slice(&text[start..])
        .simd_eq(u8x16::splat(octet))
        .to_bitmask()
}
