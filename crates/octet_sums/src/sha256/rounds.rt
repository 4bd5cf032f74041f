//! Rounds of SHA-256 on its eight working variables (FIPS 180-4, 4.1.2 and 6.2.2).
ghost use Rattle.std.specs.Prelude.{◌≡◌, ℕ, ◌+◌, ◌<◌, List};
ghost use Rattle.sha2.specs.Sha256.{add32, big_sigma0, big_sigma1, ch, maj, round, rounds};
ghost use Rattle.octet_sums.specs.Lanes.{four_keyed, rotations};

use std::simd::u32x4;

/// At each bit that of `one` where `by` has a 1, else that of `other`: `Ch` of the standard, with one operation fewer.
#[inline(always)]
fn choice(by: u32, one: u32, other: u32) -> u32
    ensures { result ≡ ch by one other }
{
    other ^ (by & (one ^ other))
}

/// At each bit what two of three have, at least: `Maj` of the standard. It is the bit in the middle, but where that differs from
/// both others. What differs on one side of it is what differs on the other side in the next round, so each is taken once.
#[inline(always)]
fn majority(a: u32, b: u32, c: u32) -> u32
    ensures { result ≡ maj a b c }
{
    let above = a ^ b;
    let below = b ^ c;
    b ^ (above & below)
}

/// The sum without carries of three rotations of a word, by `first` bits, by `second` more, and by `third` more than that. It
/// is taken from the last on, each rotation turning what is behind it too: so the word is copied less often.
#[inline(always)]
fn rotations(word: u32, first: u32, second: u32, third: u32) -> u32
    requires some { (0 < first) × (0 < second) × (0 < third) }
    requires bits { first + second + third < 32 }
    ensures { result ≡ rotations word first (first + second) (first + second + third) }
{
    let last = word ^ word.rotate_right(third);
    let both = word ^ last.rotate_right(second);
    both.rotate_right(first)
}

#[inline(always)]
fn big_sigma0(word: u32) -> u32
    ensures { result ≡ big_sigma0 word }
{
    rotations(word, 2, 11, 9)
}

#[inline(always)]
fn big_sigma1(word: u32) -> u32
    ensures { result ≡ big_sigma1 word }
{
    rotations(word, 6, 5, 14)
}

/// One round with a word that has the round's constant added.
#[inline(always)]
fn round(v: [u32; 8], word: u32) -> [u32; 8]
    ensures { (k w : ℕ) → word ≡ add32 w k → result ≡ round v k w }
{
    let [a, b, c, d, e, f, g, h] = v;
    let t1 = h
        .wrapping_add(big_sigma1(e))
        .wrapping_add(choice(e, f, g))
        .wrapping_add(word);
    let t2 = big_sigma0(a).wrapping_add(majority(a, b, c));
    let (first, fifth) = (t1.wrapping_add(t2), d.wrapping_add(t1));
    [first, a, b, c, fifth, e, f, g]
}

/// Four rounds with such words.
#[inline(always)]
pub(crate) fn four_rounds(v: [u32; 8], keyed: &u32x4) -> [u32; 8]
    ensures { (h words : List ℕ) (t : ℕ) → v ≡ rounds h words t → keyed.now ≡ four_keyed words t
        → result ≡ rounds h words (t + 4) }
{
    let words = keyed.as_array();
    let v = round(v, words[0]);
    let v = round(v, words[1]);
    let v = round(v, words[2]);
    round(v, words[3])
}
