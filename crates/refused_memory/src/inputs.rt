//! What calls are given, and what they are to answer.
//!
//! Each text is told by a function of its own: where it stands among calls, their proof looks into it.
use test_inputs::capture_texts::ONE_FRAME;
use test_inputs::settings::ENDPOINT;

/// A capture of one frame.
pub(crate) fn capture<'a>() -> &'a [u8] {
    ONE_FRAME
}

/// The octets of the capture between these places.
fn part<'a>(begin: usize, end: usize) -> &'a [u8] {
    match capture().get(begin..end) {
        Some(part) => part,
        None => &[],
    }
}

/// The capture's header.
pub(crate) fn header<'a>() -> &'a [u8] {
    part(0, 24)
}

/// The capture's record.
pub(crate) fn record<'a>() -> &'a [u8] {
    part(24, 54)
}

/// The capture's frame.
pub(crate) fn octets<'a>() -> &'a [u8] {
    part(40, 54)
}

/// The front of the capture up to the first octet of its record.
pub(crate) fn cut<'a>() -> &'a [u8] {
    part(0, 25)
}

/// The capture's frame at each of two interfaces, in the pcapng format: a section header, two interface descriptions and two
/// enhanced packets.
pub(crate) fn two_interfaces<'a>() -> &'a [u8] {
    b"\x0A\x0D\x0D\x0A\x1C\0\0\0\x4D\x3C\x2B\x1A\x01\0\0\0\xFF\xFF\xFF\xFF\xFF\xFF\xFF\xFF\x1C\0\0\0\
\x01\0\0\0\x14\0\0\0\x01\0\0\0\0\0\x04\0\x14\0\0\0\
\x01\0\0\0\x14\0\0\0\x01\0\0\0\0\0\x04\0\x14\0\0\0\
\x06\0\0\0\x30\0\0\0\0\0\0\0\0\0\0\0\x40\x42\x0F\0\x0E\0\0\0\x0E\0\0\0\
\xFF\xFF\xFF\xFF\xFF\xFF\x02\0\0\0\0\x01\x08\x06\0\0\x30\0\0\0\
\x06\0\0\0\x30\0\0\0\x01\0\0\0\0\0\0\0\x40\x42\x0F\0\x0E\0\0\0\x0E\0\0\0\
\xFF\xFF\xFF\xFF\xFF\xFF\x02\0\0\0\0\x01\x08\x06\0\0\x30\0\0\0"
}

/// Settings of three ports and two segments.
pub(crate) fn endpoint<'a>() -> &'a str {
    ENDPOINT
}

/// An endpoint with one port and two segments of three at most, one of which floods to 17 remotes of 20 at most.
pub(crate) fn long_lists<'a>() -> &'a str {
    r#"version = 3
[limits]
segments = 3
flood = 20
[underlay]
mac = "02:00:00:00:aa:01"
next_hop = "02:00:00:00:aa:fe"
ip4 = "192.0.2.1"
[[port]]
pvid = 10
[[segment]]
vid = 10
untagged = [1]
[[segment.tunnel]]
kind = "vxlan"
vni = 5000
flood = [
    "198.51.100.1", "198.51.100.2", "198.51.100.3", "198.51.100.4", "198.51.100.5", "198.51.100.6", "198.51.100.7",
    "198.51.100.8", "198.51.100.9", "198.51.100.10", "198.51.100.11", "198.51.100.12", "198.51.100.13", "198.51.100.14",
    "198.51.100.15", "198.51.100.16", "198.51.100.17",
]
[[segment]]
vid = 20
[[segment.tunnel]]
kind = "geneve"
vni = 6000
flood = ["198.51.100.1"]
"#
}

/// An endpoint with one port and one segment.
pub(crate) fn small<'a>() -> &'a str {
    r#"version = 1
[underlay]
mac = "02:00:00:00:aa:01"
next_hop = "02:00:00:00:aa:fe"
ip4 = "192.0.2.1"
[[port]]
pvid = 10
[[segment]]
vid = 10
vni = 5000
tunnel = "vxlan"
untagged = [1]
flood = ["192.0.2.2"]
"#
}

/// The same in version 2: the keys of each table in the order of their octets, first those of one line, then the tables,
/// and an empty line before each header.
pub(crate) fn small_migrated<'a>() -> &'a str {
    r#"version = 2

[[port]]
pvid = 10

[[segment]]
untagged = [1]
vid = 10

[[segment.tunnel]]
flood = ["192.0.2.2"]
kind = "vxlan"
vni = 5000

[underlay]
ip4 = "192.0.2.1"
mac = "02:00:00:00:aa:01"
next_hop = "02:00:00:00:aa:fe"
"#
}

/// Two changes.
pub(crate) fn changes<'a>() -> &'a str {
    r#"[[change]]
kind = "fix"
at = 0
vid = 10
mac = "02:00:00:00:00:01"
remote = "192.0.2.9"
[[change]]
kind = "flush"
at = 1
vid = 10
"#
}

/// What a run says with the small settings of the two changes, of the capture at the port, and of the capture's front at
/// the underlay.
pub(crate) fn decisions<'a>() -> &'a str {
    "1 0 c 1 10 done\n2 1 c 2 10 done\n3 1000000000 p1 1 10 192.0.2.2=64\ncut u 0\n"
}

/// How many octets leave at the underlay in that run: a header of 24, and one of 16 with a packet of 64.
pub(crate) const PACKETS: usize = 104;

/// What is said of the capture, as one of the underlay.
pub(crate) fn capture_explained<'a>() -> &'a str {
    "1 1000000000 u 1 - drop 12 NotIp\n  ether 0 12\n  type 12 2\n  payload 14 0\n  stop 12 NotIp\n"
}

/// What is decided of the capture's frame at port 1.
pub(crate) fn result<'a>() -> &'a str {
    "p2=14 p3=18 192.0.2.2=64"
}

/// What the built-in sample says.
pub(crate) fn sample_says<'a>() -> &'a str {
    "1 1000000000 p1 1 10 p2=60 p3=60\n2 2000000000 p2 1 10 p1=60\n3 3000000000 p1 2 10 p2=60\n4 4000000000 p2 2 10 drop 35 SamePlace\n"
}

/// What is said of settings and changes that are looked at.
pub(crate) fn looked_at<'a>() -> &'a str {
    "ok: 3 ports, 2 segments, 2 changes\n"
}
