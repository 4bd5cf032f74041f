use crate::tests::checks::check;
use std::alloc::{AllocError, Global};
use std::test::Fail;
use wire::ip_udp::{Addr, BadUdp, Ip4View, Ip6View, IpFault, SumState, UdpView};

const IP4: (Addr, Addr) = (Addr::V4([192, 0, 2, 1]), Addr::V4([192, 0, 2, 2]));

const IP6: (Addr, Addr) = (
    Addr::V6([0x20, 0x01, 0x0D, 0xB8, 0, 0, 0, 0, 0, 0, 0, 0, 0, 0, 0, 1]),
    Addr::V6([0x20, 0x01, 0x0D, 0xB8, 0, 0, 0, 0, 0, 0, 0, 0, 0, 0, 0, 2]),
);

/// A VXLAN header of VNI 5000, and the addresses and the type of a broadcast frame.
const TUNNEL: [u8; 22] = [
    0x08, 0, 0, 0, 0, 0x13, 0x88, 0, 0xFF, 0xFF, 0xFF, 0xFF, 0xFF, 0xFF, 0x02, 0, 0, 0, 0, 0x01,
    0x08, 0x06,
];

/// An IPv4 header of UDP from 192.0.2.1 to 192.0.2.2.
fn header4(first: u8, total: u8, flags: [u8; 2], checksum: [u8; 2]) -> [u8; 20] {
    let ([flags, offset], [high, low]) = (flags, checksum);
    [
        first, 0, 0, total, 0, 0, flags, offset, 0x40, 0x11, high, low, 192, 0, 2, 1, 192, 0, 2, 2,
    ]
}

/// An IPv6 header from 2001:db8::1 to 2001:db8::2.
fn header6(first: u8, length: u8, next: u8) -> [u8; 40] {
    [
        first, 0, 0, 0, 0, length, next, 0x40, 0x20, 0x01, 0x0D, 0xB8, 0, 0, 0, 0, 0, 0, 0, 0, 0,
        0, 0, 1, 0x20, 0x01, 0x0D, 0xB8, 0, 0, 0, 0, 0, 0, 0, 0, 0, 0, 0, 2,
    ]
}

/// Octets behind what is read.
const TRAILERS: [(&str, &[u8]); 3] = [
    ("before nothing", &[]),
    ("before zeros", &[0; 6]),
    ("before other octets", &[0xAA, 0xBB, 0xCC]),
];

/// Texts side by side.
fn joined(alloc: Global, texts: &[&[u8]]) -> Result<Vec<u8>, AllocError> {
    let mut all = Vec::new(alloc);
    for text in texts {
        all.extend_from_slice(text)?;
    }
    Ok(all)
}

/// A datagram of 76 octets with this checksum, with a frame of 60 octets that has this behind its type, and zeros.
fn datagram(alloc: Global, checksum: [u8; 2], body: [u8; 2]) -> Result<Vec<u8>, AllocError> {
    let head = [0xCA, 0x07, 0x12, 0xB5, 0x00, 0x4C];
    joined(alloc, &[&head, &checksum, &TUNNEL, &body, &[0; 44]])
}

/// Whether these parts, side by side, are read as these parts.
fn reads4(alloc: Global, head: &[u8], payload: &[u8], tail: &[u8]) -> Result<bool, AllocError> {
    let octets = joined(alloc, &[head, payload, tail])?;
    match Ip4View::read(&octets) {
        Ok(packet) => Ok((packet.head(), packet.payload(), packet.tail()) == (head, payload, tail)),
        Err(_) => Ok(false),
    }
}

fn reads6(alloc: Global, head: &[u8], payload: &[u8], tail: &[u8]) -> Result<bool, AllocError> {
    let octets = joined(alloc, &[head, payload, tail])?;
    match Ip6View::read(&octets) {
        Ok(packet) => Ok((packet.head(), packet.payload(), packet.tail()) == (head, payload, tail)),
        Err(_) => Ok(false),
    }
}

fn reads_udp(alloc: Global, head: &[u8], payload: &[u8], tail: &[u8]) -> Result<bool, AllocError> {
    let octets = joined(alloc, &[head, payload, tail])?;
    match UdpView::read(&octets) {
        Ok(view) => Ok((view.payload(), view.tail()) == (payload, tail)),
        Err(_) => Ok(false),
    }
}

#[test]
fn packets_are_their_parts(rt: HostRuntime) -> Result<(), Fail> {
    let alloc = rt.alloc();
    let payload = datagram(alloc, [0x00, 0x00], [0; 2])?;
    let head4 = header4(0x45, 0x60, [0x40, 0x00], [0xB6, 0x89]);
    let head6 = header6(0x60, 0x4C, 17);
    for (case, trailer) in TRAILERS {
        check(&rt, reads4(alloc, &head4, &payload, trailer)?, case);
        check(&rt, reads6(alloc, &head6, &payload, trailer)?, case);
    }
    Ok(())
}

/// An IPv4 header with 40 octets of options, of which this is the last.
fn longest_header4(last: u8) -> [u8; 60] {
    let mut head = [0; 60];
    head[..20].copy_from_slice(&header4(0x4F, 63, [0x40, 0x00], [0xAC, 0xAA]));
    head[59] = last;
    head
}

#[test]
fn the_longest_ipv4_header_has_40_octets_of_options(rt: HostRuntime) -> Result<(), Fail> {
    let alloc = rt.alloc();
    let right = reads4(alloc, &longest_header4(0), &[1, 2, 3], &[4, 5])?;
    check(&rt, right, "with the right sum");
    let changed = reads4(alloc, &longest_header4(1), &[1, 2, 3], &[4, 5])?;
    check(&rt, !changed, "with a changed option");
    Ok(())
}

/// Whether an IPv4 packet is between those addresses, with UDP.
fn tells4(octets: &[u8]) -> bool {
    match Ip4View::read(octets) {
        Ok(packet) => packet.src() == IP4.0 && packet.dst() == IP4.1 && packet.proto() == 17,
        Err(_) => false,
    }
}

/// Whether an IPv6 packet is between those addresses, with ICMPv6.
fn tells6(octets: &[u8]) -> bool {
    match Ip6View::read(octets) {
        Ok(packet) => packet.src() == IP6.0 && packet.dst() == IP6.1 && packet.proto() == 58,
        Err(_) => false,
    }
}

#[test]
fn packets_tell_addresses_and_protocol(rt: HostRuntime) {
    let octets = header4(0x45, 20, [0x40, 0x00], [0xB6, 0xD5]);
    check(&rt, tells4(&octets), "IPv4");
    check(&rt, tells6(&header6(0x60, 0, 58)), "IPv6");
}

const BAD: Option<IpFault> = Some(IpFault::BadIp);

const BAD_SUM: Option<IpFault> = Some(IpFault::BadIpSum);

/// The first octet, the total length and the checksum of a header of 20 octets, and its fault.
const HEADERS4: [(&str, u8, u8, [u8; 2], Option<IpFault>); 9] = [
    ("no payload", 0x45, 20, [0xB6, 0xD5], None),
    ("version 6", 0x65, 20, [0x96, 0xD5], BAD),
    ("an IHL of 4", 0x44, 20, [0xB7, 0xD5], BAD),
    ("an IHL of 6", 0x46, 24, [0xB5, 0xD1], BAD),
    ("a total of 19", 0x45, 19, [0xB6, 0xD6], BAD),
    ("a total of 21", 0x45, 21, [0xB6, 0xD4], BAD),
    ("a wrong sum", 0x45, 20, [0xB6, 0xD4], BAD_SUM),
    ("no sum", 0x45, 20, [0x00, 0x00], BAD_SUM),
    ("a total of 21 and no sum", 0x45, 21, [0x00, 0x00], BAD),
];

/// Whether an IPv4 packet has this fault, and its first 19 octets are none.
fn is_refused4(octets: &[u8; 20], wanted: Option<IpFault>) -> bool {
    Ip4View::read(octets).err() == wanted && Ip4View::read(&octets[..19]).err() == BAD
}

#[test]
fn an_ipv4_header_is_refused_by_its_first_fault(rt: HostRuntime) {
    for (case, first, total, checksum, wanted) in HEADERS4 {
        let octets = header4(first, total, [0x40, 0x00], checksum);
        check(&rt, is_refused4(&octets, wanted), case);
    }
}

/// Flags and offset of an IPv4 header, its checksum, and whether it is a fragment's.
const FLAGS: [(&str, [u8; 2], [u8; 2], bool); 7] = [
    ("no flag", [0x00, 0x00], [0xF6, 0xD5], false),
    ("not to be cut", [0x40, 0x00], [0xB6, 0xD5], false),
    ("the reserved flag", [0x80, 0x00], [0x76, 0xD5], false),
    ("more to come", [0x20, 0x00], [0xD6, 0xD5], true),
    (
        "not to be cut, more to come",
        [0x60, 0x00],
        [0x96, 0xD5],
        true,
    ),
    ("an offset of 1", [0x00, 0x01], [0xF6, 0xD4], true),
    (
        "not to be cut, the last offset",
        [0x5F, 0xFF],
        [0x96, 0xD6],
        true,
    ),
];

/// The next header of an IPv6 packet, and whether it is a fragment's.
const NEXT_HEADERS: [(&str, u8, bool); 3] = [
    ("UDP", 17, false),
    ("routing", 43, false),
    ("fragment", 44, true),
];

fn is_fragment4(octets: &[u8], wanted: bool) -> bool {
    match Ip4View::read(octets) {
        Ok(packet) => packet.is_fragment() == wanted,
        Err(_) => false,
    }
}

fn is_fragment6(octets: &[u8], wanted: bool) -> bool {
    match Ip6View::read(octets) {
        Ok(packet) => packet.is_fragment() == wanted,
        Err(_) => false,
    }
}

#[test]
fn fragments_have_a_flag_or_an_offset(rt: HostRuntime) {
    for (case, flags, checksum, wanted) in FLAGS {
        let octets = header4(0x45, 20, flags, checksum);
        check(&rt, is_fragment4(&octets, wanted), case);
    }
    for (case, next, wanted) in NEXT_HEADERS {
        check(&rt, is_fragment6(&header6(0x60, 0, next), wanted), case);
    }
}

/// The first octet and the payload length of an IPv6 header, and its fault.
const HEADERS6: [(&str, u8, u8, Option<IpFault>); 3] = [
    ("a traffic class", 0x6F, 0, None),
    ("version 4", 0x40, 0, BAD),
    ("a length of 1", 0x60, 1, BAD),
];

/// Whether an IPv6 packet has this fault, and its first 39 octets are none.
fn is_refused6(octets: &[u8; 40], wanted: Option<IpFault>) -> bool {
    Ip6View::read(octets).err() == wanted && Ip6View::read(&octets[..39]).err() == BAD
}

/// Whether these octets are an IPv6 packet whose payload is no datagram.
fn brings_no_datagram(octets: &[u8]) -> bool {
    match Ip6View::read(octets) {
        Ok(packet) => UdpView::read(packet.payload()).is_err(),
        Err(_) => false,
    }
}

#[test]
fn an_ipv6_header_is_refused(rt: HostRuntime) -> Result<(), Fail> {
    for (case, first, length, wanted) in HEADERS6 {
        check(&rt, is_refused6(&header6(first, length, 17), wanted), case);
    }
    // A payload length of 0 leaves no room for a UDP header, whatever stands behind.
    let octets = joined(rt.alloc(), &[&header6(0x60, 0, 17), &TUNNEL])?;
    check(&rt, brings_no_datagram(&octets), "an empty payload");
    Ok(())
}

/// Whether a datagram is from port 51719 to 4789.
fn tells_ports(octets: &[u8]) -> bool {
    match UdpView::read(octets) {
        Ok(view) => view.sport() == 51719 && view.dport() == 4789,
        Err(_) => false,
    }
}

#[test]
fn datagrams_are_their_parts(rt: HostRuntime) -> Result<(), Fail> {
    let head = [0xCA, 0x07, 0x12, 0xB5, 0x00, 0x1E, 0x00, 0x00];
    for (case, trailer) in TRAILERS {
        check(&rt, reads_udp(rt.alloc(), &head, &TUNNEL, trailer)?, case);
    }
    let octets = [0xCA, 0x07, 0x12, 0xB5, 0x00, 0x08, 0x00, 0x00];
    check(&rt, tells_ports(&octets), "its ports");
    Ok(())
}

/// The length in a datagram of 12 octets, and its fault.
const UDP_LENGTHS: [(&str, u8, Option<BadUdp>); 5] = [
    ("length 0", 0, Some(BadUdp)),
    ("length 7", 7, Some(BadUdp)),
    ("length 8", 8, None),
    ("length 12", 12, None),
    ("length 13", 13, Some(BadUdp)),
];

/// Whether 12 octets with this length have this fault, and the first 7 of them are no datagram.
fn is_refused_udp(length: u8, wanted: Option<BadUdp>) -> bool {
    let octets = [0, 0, 0, 0, 0, length, 0, 0, 0, 0, 0, 0];
    UdpView::read(&octets).err() == wanted && UdpView::read(&octets[..7]).is_err()
}

#[test]
fn a_udp_length_is_8_to_what_is_there(rt: HostRuntime) {
    for (case, length, wanted) in UDP_LENGTHS {
        check(&rt, is_refused_udp(length, wanted), case);
    }
}

/// Checksums of a datagram over IPv4, what stands behind its frame's type, and what its sum is.
const CHECKSUMS4: [(&str, [u8; 2], [u8; 2], SumState); 7] = [
    ("over IPv4", [0x04, 0x7B], [0x00, 0x00], SumState::Right),
    ("none over IPv4", [0x00, 0x00], [0x00, 0x00], SumState::Zero),
    (
        "a changed octet",
        [0x04, 0x7B],
        [0x01, 0x00],
        SumState::Wrong,
    ),
    ("all ones", [0xFF, 0xFF], [0x00, 0x00], SumState::Wrong),
    (
        "the pseudo header's sum",
        [0x84, 0x61],
        [0x00, 0x00],
        SumState::Partial,
    ),
    (
        "the pseudo header's sum, and right",
        [0x84, 0x61],
        [0x80, 0x19],
        SumState::Right,
    ),
    (
        "its complement",
        [0x7B, 0x9E],
        [0x00, 0x00],
        SumState::Wrong,
    ),
];

/// The same over IPv6.
const CHECKSUMS6: [(&str, [u8; 2], [u8; 2], SumState); 5] = [
    ("over IPv6", [0x2D, 0x0A], [0x00, 0x00], SumState::Right),
    ("a computed 0", [0xFF, 0xFF], [0x2D, 0x0A], SumState::Right),
    ("none over IPv6", [0x00, 0x00], [0x00, 0x00], SumState::Zero),
    (
        "the pseudo header's sum over IPv6",
        [0x5B, 0xD2],
        [0x01, 0x00],
        SumState::Partial,
    ),
    (
        "the other family's",
        [0x04, 0x7B],
        [0x00, 0x00],
        SumState::Wrong,
    ),
];

/// What the sum of a datagram is over IPv4; None where it is no datagram.
fn sum_over4(octets: &[u8]) -> Option<SumState> {
    match UdpView::read(octets) {
        Ok(view) => Some(view.sum_state(IP4.0, IP4.1)),
        Err(_) => None,
    }
}

/// The same over IPv6.
fn sum_over6(octets: &[u8]) -> Option<SumState> {
    match UdpView::read(octets) {
        Ok(view) => Some(view.sum_state(IP6.0, IP6.1)),
        Err(_) => None,
    }
}

/// A datagram as above, and three octets behind it.
fn before_a_tail(alloc: Global, sum: [u8; 2], body: [u8; 2]) -> Result<Vec<u8>, AllocError> {
    let mut octets = datagram(alloc, sum, body)?;
    octets.extend_from_slice(&[0xAA, 0xBB, 0xCC])?;
    Ok(octets)
}

#[test]
fn a_checksum_covers_the_udp_length(rt: HostRuntime) -> Result<(), Fail> {
    for (case, sum, body, wanted) in &CHECKSUMS4 {
        let octets = before_a_tail(rt.alloc(), *sum, *body)?;
        check(&rt, sum_over4(&octets) == Some(*wanted), case);
    }
    for (case, sum, body, wanted) in &CHECKSUMS6 {
        let octets = before_a_tail(rt.alloc(), *sum, *body)?;
        check(&rt, sum_over6(&octets) == Some(*wanted), case);
    }
    Ok(())
}

#[test]
fn faults_print_their_names(rt: HostRuntime) -> Result<(), Fail> {
    let bad_ip = IpFault::BadIp.to_string(rt.alloc())?;
    check(&rt, bad_ip.as_str() == "BadIp", "BadIp");
    let bad_sum = IpFault::BadIpSum.to_string(rt.alloc())?;
    check(&rt, bad_sum.as_str() == "BadIpSum", "BadIpSum");
    let bad_udp = BadUdp.to_string(rt.alloc())?;
    check(&rt, bad_udp.as_str() == "BadUdp", "BadUdp");
    Ok(())
}
