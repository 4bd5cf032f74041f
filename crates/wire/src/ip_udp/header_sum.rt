//! The checksum of an IPv4 header, as its receiver asks for it.
ghost use Rattle.std.specs.Prelude.{◌≡◌, ◌≤◌, ◌+◌, ◌*◌, ◌%◌, ◌^◌, ◌==◌, length, drop};
ghost use Rattle.wire.specs.Sum.{total, folded};

use byteorder::{ByteOrder, LittleEndian};

/// The octets of a header without options.
const SHORTEST: usize = 20;

/// Whether the 16-bit words of a header sum up to all ones (RFC 791, 3.1; RFC 1071, 1). It adds 32-bit words as they lie in
/// memory, low octet first: 2^16 folds to 1, and a sum that is all ones is so whichever octet of a word comes first
/// (RFC 1071, 2 (B)).
#[inline(always)]
pub(crate) fn is_sum_right(header: &[u8]) -> bool
    requires shortest { 20 ≤ length header.now }
    requires longest { length header.now ≤ 60 }
    requires whole { length header.now % 4 ≡ 0 }
    ensures { result ≡ (folded (total header.now) == 65535) }
{
    let mut sum = shortest_words(header);
    let mut rest = &header[SHORTEST..];
    while rest.len() >= 4 {
        sum = add_word(sum, rest);
        rest = &rest[4..];
    }
    sum != 0 && sum % 65535 == 0
}

/// The sum of the first 20 octets' 32-bit words with swapped octets.
#[inline(always)]
fn shortest_words(header: &[u8]) -> u64
    requires { 20 ≤ length header.now }
    ensures sum { folded (256 * result + total (drop 20 header.now)) ≡ folded (total header.now) }
    ensures small { result ≤ 5 * 2 ^ 32 }
{
    let first = add_word(0, header);
    let second = add_word(first, &header[4..]);
    let third = add_word(second, &header[8..]);
    let fourth = add_word(third, &header[12..]);
    add_word(fourth, &header[16..])
}

/// Adds the first 4 octets to a sum of words with swapped octets.
#[inline(always)]
fn add_word(sum: u64, text: &[u8]) -> u64
    requires there { 4 ≤ length text.now }
    requires small { sum ≤ 2 ^ 40 }
    ensures sum { folded (256 * result + total (drop 4 text.now)) ≡ folded (256 * sum + total text.now) }
    ensures small { result ≤ sum + 2 ^ 32 }
{
    sum + u64::from(LittleEndian::read_u32(text))
}
