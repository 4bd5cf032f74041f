//! Where records of the same octets, with as many missing, are looked for.
ghost use Rattle.std.specs.Prelude.{◌≡◌, ◌<◌, ◌≤◌, ◌+◌, ◌*◌, ◌/◌, length, drop};
ghost use Rattle.byteorder.specs.Endian.{little_number};
ghost use Rattle.record_match.specs.Bucket.{bucket_by, bucket_of, last_word, word_sum};

use byteorder::{ByteOrder, LittleEndian};

/// How many buckets there are, a power of two.
pub(crate) const BUCKETS: usize = 262_144;

/// An odd number whose bits are spread: 2^64 divided by the golden ratio.
const SPREAD: u64 = 0x9E37_79B9_7F4A_7C15;

/// How many mixed sums one bucket has: 2^64 of them are shared by the buckets.
const SHARE: u64 = 70_368_744_177_664;

/// The octets of a word.
const WORD: usize = 8;

/// The bucket of a record with these octets and so many missing, below 262,144: records that are the same have the same. A sum
/// over all octets by which it is chosen is cheap, and need not tell octets in another order.
pub(crate) fn bucket_of(octets: &[u8], missing: u32) -> u32
    ensures bucket { result ≡ bucket_of missing octets.now }
    ensures bound { result < 262144 }
{
    bucket_by(
        word_sum(octets),
        last_word(octets),
        octets.len() as u64 + missing as u64,
    )
}

/// The bucket of so many octets with this sum of words and this last word.
fn bucket_by(sum: u64, last: u64, count: u64) -> u32
    ensures bucket { result ≡ bucket_by sum last count }
    ensures bound { result < 262144 }
{
    let mixed = sum
        .wrapping_add(last)
        .wrapping_add(count)
        .wrapping_mul(SPREAD);
    (mixed / SHARE) as u32
}

/// The sum of the whole words of eight octets.
fn word_sum(octets: &[u8]) -> u64
    ensures { result ≡ word_sum (length octets.now / 8) octets.now }
{
    let words = octets.len() / WORD;
    let mut sum: u64 = 0;
    let mut i = 0;
    while words - i >= 4 {
        sum = sum
            .wrapping_add(word_at(octets, i))
            .wrapping_add(word_at(octets, i + 1))
            .wrapping_add(word_at(octets, i + 2))
            .wrapping_add(word_at(octets, i + 3));
        i += 4;
    }
    while i < words {
        sum = sum.wrapping_add(word_at(octets, i));
        i += 1;
    }
    sum
}

/// The word with this number, from 0.
#[inline(always)]
fn word_at(octets: &[u8], i: usize) -> u64
    requires { 8 * i + 8 ≤ length octets.now }
    ensures { result ≡ little_number 8 (drop (8 * i) octets.now) }
{
    LittleEndian::read_u64(&octets[WORD * i..])
}

/// The last eight octets as a word; 0 where there are fewer.
fn last_word(octets: &[u8]) -> u64
    ensures { result ≡ last_word octets.now }
{
    if octets.len() < WORD {
        return 0;
    }
    LittleEndian::read_u64(&octets[octets.len() - WORD..])
}
