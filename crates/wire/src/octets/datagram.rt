//! The checksum of a UDP datagram, whatever the family of its addresses.
ghost use Rattle.std.specs.Prelude.{◌≡◌, ◌≤◌, ◌+◌, ◌*◌, ◌%◌, ◌^◌, ◌++◌, length};
ghost use Rattle.wire.specs.Sum.{total, folded, sent_of, complement};

use crate::octets::sum::{folded, sent_sum, words};

/// UDP's protocol number, which is its next header too and stands in both pseudo headers.
pub const UDP: u8 = 17;

/// The checksum to send of a datagram in three parts, between addresses whose words have this sum.
pub(crate) fn datagram_sum(addresses: u64, first: &[u8], second: &[u8], third: &[u8]) -> u16
    requires addresses_fit { addresses ≤ 65535 * 32 }
    requires first_even { length first.now % 2 ≡ 0 }
    requires second_even { length second.now % 2 ≡ 0 }
    requires fits { length first.now + length second.now + length third.now ≤ 65535 }
    ensures { let datagram = first.now ++ second.now ++ third.now in
        result ≡ sent_of (complement (addresses + 17 + length datagram + total datagram)) }
{
    let length = first.len() + second.len() + third.len();
    let front = addresses + u64::from(UDP) + length as u64;
    sent_sum(parts_sum(front, first, second, third))
}

/// A number that folds to what this one and the sum of three parts side by side fold to.
fn parts_sum(front: u64, first: &[u8], second: &[u8], third: &[u8]) -> u64
    requires small { front ≤ 2 ^ 32 }
    requires first_even { length first.now % 2 ≡ 0 }
    requires second_even { length second.now % 2 ≡ 0 }
    requires fits { length first.now + length second.now + length third.now ≤ 65535 }
    ensures { folded result ≡ folded (front + total (first.now ++ second.now ++ third.now)) }
{
    front + words(first) + words(second) + u64::from(folded(third))
}
