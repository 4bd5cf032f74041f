//! Checksums over IPv6, whose own header has none.
ghost use Rattle.std.specs.Prelude.{◌≡◌, ◌≤◌, ◌+◌, ◌%◌, ◌++◌, length};
ghost use Rattle.wire.specs.Sum.{sent, pseudo6};

use crate::octets::datagram::datagram_sum;
use crate::octets::sum::words;

/// The UDP checksum to send over IPv6, of a datagram in three parts whose own checksum field is zero (RFC 8200, 8.1).
/// A computed 0 is sent as 65,535. The first two parts have even length, and all three 65,535 octets at most.
pub fn udp6_sum(src: [u8; 16], dst: [u8; 16], first: &[u8], second: &[u8], third: &[u8]) -> u16
    requires first_even { length first.now % 2 ≡ 0 }
    requires second_even { length second.now % 2 ≡ 0 }
    requires fits { length first.now + length second.now + length third.now ≤ 65535 }
    ensures { let datagram = first.now ++ second.now ++ third.now in
        result ≡ sent (pseudo6 src dst (length datagram) ++ datagram) }
{
    datagram_sum(words(&src) + words(&dst), first, second, third)
}
