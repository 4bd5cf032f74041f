//! Checksums over IPv4.
ghost use Rattle.std.specs.Prelude.{◌≡◌, ◌≤◌, ◌+◌, ◌%◌, ◌++◌, length};
ghost use Rattle.wire.specs.Sum.{check, sent, blanked4, pseudo4};

use crate::octets::datagram::datagram_sum;
use crate::octets::sum::{fold, words};

/// The checksum of an IPv4 header of 20 to 60 octets, a multiple of 4, its checksum field taken as zero (RFC 791, 3.1).
pub fn ip4_sum(header: &[u8]) -> u16
    requires long { 20 ≤ length header.now }
    requires short { length header.now ≤ 60 }
    requires whole { length header.now % 4 ≡ 0 }
    ensures { result ≡ check (blanked4 header.now) }
{
    65535 - fold(words(&header[..10]) + words(&header[12..]))
}

/// The UDP checksum to send over IPv4, of a datagram in three parts whose own checksum field is zero (RFC 768).
/// A computed 0 is sent as 65,535. The first two parts have even length, and all three 65,535 octets at most.
pub fn udp4_sum(src: [u8; 4], dst: [u8; 4], first: &[u8], second: &[u8], third: &[u8]) -> u16
    requires first_even { length first.now % 2 ≡ 0 }
    requires second_even { length second.now % 2 ≡ 0 }
    requires fits { length first.now + length second.now + length third.now ≤ 65535 }
    ensures { let datagram = first.now ++ second.now ++ third.now in
        result ≡ sent (pseudo4 src dst (length datagram) ++ datagram) }
{
    datagram_sum(words(&src) + words(&dst), first, second, third)
}
