//! Sums of 16-bit words.
ghost use Rattle.std.specs.Prelude.{◌≡◌, ◌≤◌, ◌<◌, ◌+◌, ◌*◌, ◌^◌, length, drop};
ghost use Rattle.std.specs.Int.{from_bool};
ghost use Rattle.wire.specs.Sum.{total, folded, sent_of, complement};

use byteorder::{BigEndian, ByteOrder, LittleEndian};

/// The sum of the 16-bit big-endian words, an odd end padded with a zero octet (RFC 1071, 1). Of 65,535 octets at most.
pub fn words(bytes: &[u8]) -> u64
    requires { length bytes.now ≤ 65535 }
    ensures sum { result ≡ total bytes.now }
    ensures small { result ≤ 65535 * length bytes.now }
{
    let mut sum: u64 = 0;
    let mut rest = bytes;
    while let [_, _, _, _, behind @ ..] = rest {
        sum += u64::from(BigEndian::read_u16(rest)) + u64::from(BigEndian::read_u16(&rest[2..]));
        rest = behind;
    }
    sum + last_words(rest)
}

/// The sum of the words of a text of three octets at most.
#[inline]
fn last_words(bytes: &[u8]) -> u64
    requires { length bytes.now ≤ 3 }
    ensures sum { result ≡ total bytes.now }
    ensures small { result ≤ 65535 * length bytes.now }
{
    match bytes {
        [a, b, last, ..] => word(*a, *b) + word(*last, 0),
        [a, b] => word(*a, *b),
        [last] => word(*last, 0),
        [] => 0,
    }
}

/// The word of two octets.
#[inline]
fn word(high: u8, low: u8) -> u64
    ensures { result ≡ 256 * high + low }
{
    u64::from(high) * 256 + u64::from(low)
}

/// A sum of words and the sum of one more part, which begins at a word's first octet. The sum is at most 2^40, the part
/// has at most 65,535 octets.
pub fn add_words(sum: u64, part: &[u8]) -> u64
    requires small { sum ≤ 2 ^ 40 }
    requires short { length part.now ≤ 65535 }
    ensures { result ≡ sum + total part.now }
{
    sum + words(part)
}

/// A sum folded to 16 bits by adding its carries: 0 for 0 alone, else 1 to 65,535 (RFC 1071, 1 and 2).
pub fn fold(sum: u64) -> u16
    ensures { result ≡ folded sum }
{
    if sum == 0 {
        0
    } else {
        ((sum - 1) % 65535 + 1) as u16
    }
}

/// The checksum that UDP sends where its pseudo header and its datagram have this sum of words (RFC 768): a computed 0
/// is sent as 65,535.
pub fn sent_sum(sum: u64) -> u16
    ensures { result ≡ sent_of (complement sum) }
{
    match 65535 - fold(sum) {
        0 => 65535,
        checksum => checksum,
    }
}

/// The sum of a text's words, folded to 16 bits: for long texts cheaper than [`words`]. It adds 64-bit words as they
/// lie in memory, low octet first, and each carry out of the 64 bits at the lowest place, since 2^64 folds to 1; then it
/// swaps the octets of the folded sum, which is a product by 256 (RFC 1071, 2 (B) and 2 (A)).
pub fn folded(bytes: &[u8]) -> u16
    ensures { result ≡ folded (total bytes.now) }
{
    let mut sum: u64 = 0;
    let mut carries: u64 = 0;
    let mut rest = bytes;
    while rest.len() >= 64 {
        let (next, carry) = add_block(sum, rest);
        sum = next;
        carries += u64::from(carry);
        rest = &rest[64..];
    }
    while rest.len() >= 8 {
        let (next, carry) = add_word(sum, false, rest);
        sum = next;
        carries += u64::from(carry);
        rest = &rest[8..];
    }
    fold(u64::from(fold(narrowed(sum) + carries)) * 256 + words(rest))
}

/// Adds the first 64 octets to a sum of words with swapped octets; and whether there is a carry.
#[inline(always)]
fn add_block(sum: u64, text: &[u8]) -> (u64, bool)
    requires { 64 ≤ length text.now }
    ensures { folded (256 * (result.0 + from_bool result.1) + total (drop 64 text.now)) ≡ folded (256 * sum + total text.now) }
{
    let (half, carry) = add_half(sum, false, text);
    add_half(half, carry, &text[32..])
}

/// Adds the first 32 octets and a carry to a sum of words with swapped octets; and whether there is a carry.
#[inline(always)]
fn add_half(sum: u64, carry: bool, text: &[u8]) -> (u64, bool)
    requires { 32 ≤ length text.now }
    ensures { folded (256 * (result.0 + from_bool result.1) + total (drop 32 text.now))
        ≡ folded (256 * (sum + from_bool carry) + total text.now) }
{
    let (first, carry) = add_word(sum, carry, text);
    let (second, carry) = add_word(first, carry, &text[8..]);
    let (third, carry) = add_word(second, carry, &text[16..]);
    add_word(third, carry, &text[24..])
}

/// Adds the first 8 octets and a carry to a sum of words with swapped octets; and whether there is a carry.
#[inline(always)]
fn add_word(sum: u64, carry: bool, text: &[u8]) -> (u64, bool)
    requires { 8 ≤ length text.now }
    ensures { folded (256 * (result.0 + from_bool result.1) + total (drop 8 text.now))
        ≡ folded (256 * (sum + from_bool carry) + total text.now) }
{
    plus(sum, LittleEndian::read_u64(text), carry)
}

/// The sum of two words and a carry, modulo 2^64; and whether there is a carry. It is the method `carrying_add` in a form
/// of which the compiler makes one instruction.
#[inline(always)]
fn plus(one: u64, other: u64, carry: bool) -> (u64, bool)
    ensures { result.0 + from_bool result.1 * 2 ^ 64 ≡ one + other + from_bool carry }
{
    let sum = one.wrapping_add(other);
    let total = sum.wrapping_add(u64::from(carry));
    (total, (sum < one) | (total < sum))
}

/// A sum in 33 bits that folds to the same.
#[inline(always)]
fn narrowed(sum: u64) -> u64
    ensures value { folded result ≡ folded sum }
    ensures small { result < 2 ^ 33 }
{
    (sum >> 32) + sum % 0x1_0000_0000
}
