//! Where frames of the same octets are looked for.
ghost use Rattle.std.specs.Prelude.{◌≡◌, ◌<◌, ◌+◌, ◌++◌, get_or, length};
ghost use Rattle.byteorder.specs.Endian.{little_from};
ghost use Rattle.echo_window.specs.Bucket.{bucket_of, sum_of, with_word};

use byteorder::{ByteOrder, LittleEndian};

/// How many buckets there are, a power of two.
pub(crate) const BUCKETS: usize = 16_384;

/// How many octets at the beginning of a frame are summed.
const BEGUN: usize = 60;

/// How many octets the addresses have.
const ADDRESSES: usize = 12;

/// How many octets a word has.
const WORD: usize = 8;

/// An odd number whose bits are spread: 2^64 divided by the golden ratio.
const SPREAD: u64 = 0x9E37_79B9_7F4A_7C15;

/// How many sums one bucket has: 2^64 of them are shared by the buckets.
const SHARE: u64 = 1_125_899_906_842_624;

/// The bucket of a frame of two texts, one behind the other, below 16,384: it depends on the frame's length, its first 60 octets,
/// and its last 8. Frames that differ there share their bucket by chance. Frames that differ nowhere else share it always.
#[inline(always)]
pub(crate) fn bucket_of(front: &[u8], rest: &[u8]) -> usize
    ensures bucket { result ≡ bucket_of (front.now ++ rest.now) }
    ensures bound { result < 16384 }
{
    (sum_of(front, rest, front.len() + rest.len()) / SHARE) as usize
}

/// The sum of two texts, one behind the other, which have so many octets. Mostly the first is empty, or holds the addresses: in
/// each of these cases the compiler knows in which of them each of the words stands.
#[inline(always)]
fn sum_of(front: &[u8], rest: &[u8], count: usize) -> u64
    requires { count ≡ length (front.now ++ rest.now) }
    ensures { result ≡ sum_of (front.now ++ rest.now) }
{
    if front.is_empty() && rest.len() >= BEGUN {
        return sum_of_words(front, rest, count);
    }
    if front.len() == ADDRESSES && rest.len() >= BEGUN - ADDRESSES {
        return sum_of_words(front, rest, count);
    }
    sum_of_words(front, rest, count)
}

/// The same, word by word.
#[inline(always)]
fn sum_of_words(front: &[u8], rest: &[u8], count: usize) -> u64
    requires { count ≡ length (front.now ++ rest.now) }
    ensures { result ≡ sum_of (front.now ++ rest.now) }
{
    let mut sum = count as u64;
    sum = with_word(sum, front, rest, 0);
    sum = with_word(sum, front, rest, 4);
    sum = with_word(sum, front, rest, 12);
    sum = with_word(sum, front, rest, 20);
    sum = with_word(sum, front, rest, 28);
    sum = with_word(sum, front, rest, 36);
    sum = with_word(sum, front, rest, 44);
    sum = with_word(sum, front, rest, 52);
    with_word(sum, front, rest, count.saturating_sub(WORD))
}

/// A sum with the word of two texts, one behind the other, at a place.
#[inline(always)]
fn with_word(sum: u64, front: &[u8], rest: &[u8], at: usize) -> u64
    requires { at < 18446744073709551608 }
    ensures { result ≡ with_word sum at (front.now ++ rest.now) }
{
    sum.wrapping_add(word_at(front, rest, at))
        .wrapping_mul(SPREAD)
}

/// The word of two texts, one behind the other, at a place. Most stand whole in one of them.
#[inline(always)]
fn word_at(front: &[u8], rest: &[u8], at: usize) -> u64
    requires { at < 18446744073709551608 }
    ensures { result ≡ little_from at 8 (front.now ++ rest.now) }
{
    if at >= front.len() && at - front.len() + WORD <= rest.len() {
        return LittleEndian::read_u64(&rest[at - front.len()..]);
    }
    if at + WORD <= front.len() {
        return LittleEndian::read_u64(&front[at..]);
    }
    word_of(front, rest, at)
}

/// The same of single octets, wherever they stand.
fn word_of(front: &[u8], rest: &[u8], at: usize) -> u64
    requires { at < 18446744073709551608 }
    ensures { result ≡ little_from at 8 (front.now ++ rest.now) }
{
    let octets = [
        octet_at(front, rest, at),
        octet_at(front, rest, at + 1),
        octet_at(front, rest, at + 2),
        octet_at(front, rest, at + 3),
        octet_at(front, rest, at + 4),
        octet_at(front, rest, at + 5),
        octet_at(front, rest, at + 6),
        octet_at(front, rest, at + 7),
    ];
    LittleEndian::read_u64(&octets)
}

/// The octet of two texts, one behind the other, at a place; 0 behind their end.
fn octet_at(front: &[u8], rest: &[u8], at: usize) -> u8
    ensures { result ≡ get_or (front.now ++ rest.now) at 0 }
{
    if at < front.len() {
        return front[at];
    }
    if at - front.len() < rest.len() {
        return rest[at - front.len()];
    }
    0
}
