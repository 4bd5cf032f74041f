//! The values of headers, octet for octet.

use packet_layers::HeadKind;
use packet_layers::words::{put_values, word_of};
use std::alloc::Global;
use std::test::Fail;
use test_inputs::octets_of;

/// The kinds, each with the octets of a header and its words.
type Row<'a> = (HeadKind, &'a str, &'a str);

/// Frames, tags and types. The addresses are a broadcast's and a group's; the tags are of a customer and of a provider.
fn frames<'a>() -> &'a [Row<'a>] {
    &[
        (
            HeadKind::Ether,
            "FFFFFFFFFFFF 0200000000AB",
            "ether 02:00:00:00:00:ab > ff:ff:ff:ff:ff:ff",
        ),
        (
            HeadKind::Ether,
            "01005E0A0B0C 021A2B3C4D5E",
            "ether 02:1a:2b:3c:4d:5e > 01:00:5e:0a:0b:0c",
        ),
        (HeadKind::Tag, "8100 600A", "tag 0x8100 vid 10 pcp 3 dei 0"),
        (
            HeadKind::Tag,
            "88A8 FFFE",
            "tag 0x88a8 vid 4094 pcp 7 dei 1",
        ),
        (HeadKind::Kind, "0806", "type 0x0806"),
        (HeadKind::Kind, "86DD", "type 0x86dd"),
    ]
}

/// IPv4: a datagram; a first fragment, a middle one and a last one; options; the largest of each number.
fn ip4<'a>() -> &'a [Row<'a>] {
    &[
        (
            HeadKind::Ip4,
            "45000073000040004011B861C0A80001C0A800C7",
            "ip4 192.168.0.1 > 192.168.0.199 ttl 64 length 115 protocol 17",
        ),
        (
            HeadKind::Ip4,
            "450005DC1234200001060000C0000202C6336401",
            "ip4 192.0.2.2 > 198.51.100.1 ttl 1 length 1500 protocol 6 offset 0 more 1",
        ),
        (
            HeadKind::Ip4,
            "450005DC123420B940010000C0000202C6336401",
            "ip4 192.0.2.2 > 198.51.100.1 ttl 64 length 1500 protocol 1 offset 1480 more 1",
        ),
        (
            HeadKind::Ip4,
            "4500001C123400B940010000C0000202C6336401",
            "ip4 192.0.2.2 > 198.51.100.1 ttl 64 length 28 protocol 1 offset 1480 more 0",
        ),
        (
            HeadKind::Ip4,
            "46FFFFFFFFFF3FFFFFFFFFFFFFFFFFFF0A141E28 01020304",
            "ip4 255.255.255.255 > 10.20.30.40 ttl 255 length 65535 protocol 255 offset 65528 more 1",
        ),
    ]
}

/// IPv6.
fn ip6<'a>() -> &'a [Row<'a>] {
    &[
        (
            HeadKind::Ip6,
            "60000000004F1140 20010DB8 00*11 01 20010DB8 00*11 02",
            "ip6 2001:db8::1 > 2001:db8::2 hop-limit 64 length 79 next-header 17",
        ),
        (
            HeadKind::Ip6,
            "6FFFFFFFFFFF2CFF 20010DB8000000000001000000000001 20010DB8000000010001000100010001",
            "ip6 2001:db8::1:0:0:1 > 2001:db8:0:1:1:1:1:1 hop-limit 255 length 65535 next-header 44",
        ),
        (
            HeadKind::Ip6,
            "6000000000003A01 00*16 00*10 FFFFC0000201",
            "ip6 :: > ::ffff:192.0.2.1 hop-limit 1 length 0 next-header 58",
        ),
    ]
}

/// UDP, VXLAN with its reserved octets set, and Geneve: without options, with 12 octets of them, and with as many as there
/// can be told.
fn tunnels<'a>() -> &'a [Row<'a>] {
    &[
        (
            HeadKind::Udp,
            "C00012B5003A0000",
            "udp 49152 > 4789 length 58 checksum 0x0000",
        ),
        (
            HeadKind::Udp,
            "001517C1FFFF0A1B",
            "udp 21 > 6081 length 65535 checksum 0x0a1b",
        ),
        (HeadKind::Vxlan, "0800000000138800", "vxlan vni 5000"),
        (HeadKind::Vxlan, "FFFFFFFFFFFFFEFF", "vxlan vni 16777214"),
        (
            HeadKind::Geneve,
            "0000655800000100",
            "geneve vni 1 options 0",
        ),
        (
            HeadKind::Geneve,
            "0300655800177000 010200010000000001030000",
            "geneve vni 6000 options 12",
        ),
        (
            HeadKind::Geneve,
            "FF806558FEDCBA98",
            "geneve vni 16702650 options 252",
        ),
    ]
}

/// Headers that are one octet short, of each kind.
fn cut<'a>() -> &'a [Row<'a>] {
    &[
        (HeadKind::Ether, "00*11", "ether"),
        (HeadKind::Tag, "810001", "tag"),
        (HeadKind::Kind, "08", "type"),
        (HeadKind::Ip4, "45 00*18", "ip4"),
        (HeadKind::Ip6, "60 00*38", "ip6"),
        (HeadKind::Udp, "00*7", "udp"),
        (HeadKind::Vxlan, "08 00*6", "vxlan"),
        (HeadKind::Geneve, "00*7", "geneve"),
    ]
}

/// The words of a header.
fn words_of(alloc: Global, kind: HeadKind, octets: &str) -> Result<String, Fail> {
    let octets = octets_of(alloc, octets)?;
    let mut text = String::new(alloc);
    text.push_str(word_of(kind))?;
    put_values(&mut text, kind, octets.as_slice())?;
    Ok(text)
}

/// Whether each header has its words.
fn are_told(alloc: Global, rows: &[Row]) -> Result<bool, Fail> {
    for (kind, octets, words) in rows {
        if words_of(alloc, *kind, octets)?.as_str() != *words {
            return Ok(false);
        }
    }
    Ok(true)
}

#[test]
fn each_header_has_its_values(rt: HostRuntime) -> Result<(), Fail> {
    let alloc = rt.alloc();
    assert!(rt; are_told(alloc, frames())?, "frames, tags and types");
    assert!(rt; are_told(alloc, ip4())?, "IPv4");
    assert!(rt; are_told(alloc, ip6())?, "IPv6");
    assert!(rt; are_told(alloc, tunnels())?, "datagrams and tunnels");
    assert!(rt; are_told(alloc, cut())?, "headers that are cut");
    Ok(())
}
