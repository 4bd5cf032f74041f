use crate::tests::checks::check;
use wire::octets::{add_words, fold, folded, ip4_sum, udp4_sum, udp6_sum, words};

/// A UDP header without its checksum, a VXLAN header of VNI 5000, and a broadcast frame of 60 octets.
const UDP_AND_VXLAN: [u8; 16] = [
    0xCA, 0x07, 0x12, 0xB5, 0x00, 0x4C, 0, 0, 0x08, 0, 0, 0, 0, 0x13, 0x88, 0,
];

const ADDRESSES: [u8; 12] = [0xFF, 0xFF, 0xFF, 0xFF, 0xFF, 0xFF, 0x02, 0, 0, 0, 0, 0x01];

const BODY: [u8; 48] = [
    0x08, 0x06, 0, 0, 0, 0, 0, 0, 0, 0, 0, 0, 0, 0, 0, 0, 0, 0, 0, 0, 0, 0, 0, 0, 0, 0, 0, 0, 0, 0,
    0, 0, 0, 0, 0, 0, 0, 0, 0, 0, 0, 0, 0, 0, 0, 0, 0, 0,
];

/// 2001:db8::1.
const SOURCE6: [u8; 16] = [0x20, 0x01, 0x0D, 0xB8, 0, 0, 0, 0, 0, 0, 0, 0, 0, 0, 0, 1];

/// 2001:db8::2.
const DESTINATION6: [u8; 16] = [0x20, 0x01, 0x0D, 0xB8, 0, 0, 0, 0, 0, 0, 0, 0, 0, 0, 0, 2];

const HEADER4: [u8; 20] = [
    0x45, 0x00, 0x00, 0x60, 0x00, 0x00, 0x40, 0x00, 0x40, 0x11, 0x00, 0x00, 0xC0, 0x00, 0x02, 0x01,
    0xC0, 0x00, 0x02, 0x02,
];

/// The sum of the example of RFC 1071, section 3.
fn example_sum() -> u64 {
    words(&[0x00, 0x01, 0xF2, 0x03, 0xF4, 0xF5, 0xF6, 0xF7])
}

/// The sum of an odd text.
fn odd_sum() -> u64 {
    words(&[0x12, 0x34, 0x56])
}

/// The sum of the example with one octet more behind it.
fn longer_sum() -> u64 {
    add_words(0x2DDF0, &[0x01])
}

/// The checksum of a datagram of 76 octets from 192.0.2.1 to 192.0.2.2.
fn sum_over_ipv4() -> u16 {
    udp4_sum(
        [192, 0, 2, 1],
        [192, 0, 2, 2],
        &UDP_AND_VXLAN,
        &ADDRESSES,
        &BODY,
    )
}

/// The checksum of the same from 2001:db8::1 to 2001:db8::2.
fn sum_over_ipv6() -> u16 {
    udp6_sum(SOURCE6, DESTINATION6, &UDP_AND_VXLAN, &ADDRESSES, &BODY)
}

/// Between addresses 0.0.0.0 the words 0011 (protocol), 0002 (length) and FFEC sum to FFFF, whose complement is 0.
fn sum_of_all_ones() -> u16 {
    udp4_sum([0; 4], [0; 4], &[], &[], &[0xFF, 0xEC])
}

#[test]
fn sums_are_those_of_the_standard(rt: HostRuntime) {
    check(&rt, example_sum() == 0x2DDF0, "the example of the standard");
    check(&rt, odd_sum() == 0x1234 + 0x5600, "an odd end");
    check(&rt, longer_sum() == 0x2DEF0, "one octet more");
    check(&rt, fold(0x2DDF0) == 0xDDF2, "the example, folded");
    check(&rt, fold(0) == 0, "0, folded");
    check(&rt, fold(65535) == 65535, "65535, folded");
    check(&rt, fold(65536) == 1, "65536, folded");
    check(&rt, ip4_sum(&HEADER4) == 0xB689, "an IPv4 header");
    check(&rt, sum_over_ipv4() == 0x047B, "a datagram over IPv4");
    check(&rt, sum_over_ipv6() == 0x2D0A, "a datagram over IPv6");
    check(&rt, sum_of_all_ones() == 0xFFFF, "all ones for zero");
}

/// Octets that repeat after 251.
fn many_octets() -> [u8; 308] {
    let mut octets = [0; 308];
    for at in 0..octets.len() {
        octets[at] = (at * 37 % 251) as u8;
    }
    octets
}

/// Whether every length to 300 from this place of a word of eight octets folds as the plain sum.
fn folds_from(octets: &[u8; 308], from: usize) -> bool {
    for length in 0..301 {
        let Some(rest) = octets.get(from..) else {
            return false;
        };
        let Some(text) = rest.get(..length) else {
            return false;
        };
        if folded(text) != fold(words(text)) {
            return false;
        }
    }
    true
}

#[test]
fn folds_long_texts_as_the_plain_sum(rt: HostRuntime) {
    let octets = many_octets();
    for from in 0..8 {
        check(&rt, folds_from(&octets, from), "a place of a word");
    }
}
