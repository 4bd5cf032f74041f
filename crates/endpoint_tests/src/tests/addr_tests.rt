//! Groups, and addresses that nobody has.
use crate::tests::checks::check;
use wire::ether::Mac;
use wire::ip_udp::Addr;

/// Addresses, and whether each is a group and is usable.
const ADDRESSES: [(&str, Addr, bool, bool); 11] = [
    (
        "before the groups",
        Addr::V4([223, 255, 255, 255]),
        false,
        true,
    ),
    ("the first group", Addr::V4([224, 0, 0, 0]), true, true),
    ("the last group", Addr::V4([239, 255, 255, 255]), true, true),
    ("behind the groups", Addr::V4([240, 0, 0, 0]), false, true),
    ("nobody", Addr::V4([0; 4]), false, false),
    ("0.0.0.1", Addr::V4([0, 0, 0, 1]), false, true),
    ("everybody", Addr::V4([255; 4]), false, false),
    ("::", Addr::V6([0; 16]), false, false),
    (
        "::1",
        Addr::V6([0, 0, 0, 0, 0, 0, 0, 0, 0, 0, 0, 0, 0, 0, 0, 1]),
        false,
        true,
    ),
    (
        "fe80::1",
        Addr::V6([0xFE, 0x80, 0, 0, 0, 0, 0, 0, 0, 0, 0, 0, 0, 0, 0, 1]),
        false,
        true,
    ),
    (
        "ff02::1",
        Addr::V6([0xFF, 0x02, 0, 0, 0, 0, 0, 0, 0, 0, 0, 0, 0, 0, 0, 1]),
        true,
        true,
    ),
];

fn is_of_kind(addr: Addr, is_group: bool, is_usable: bool) -> bool {
    addr.is_group() == is_group && addr.is_usable() == is_usable
}

#[test]
fn addresses_of_groups_and_of_nobody(rt: HostRuntime) {
    for (case, addr, is_group, is_usable) in ADDRESSES {
        check(&rt, is_of_kind(addr, is_group, is_usable), case);
    }
}

/// Groups, and the MAC address of each. Of an IPv4 group only the low 23 bits are kept (RFC 1112, 6.4).
const GROUP_MACS: [(&str, Addr, Mac); 3] = [
    (
        "239.1.1.1",
        Addr::V4([239, 1, 1, 1]),
        Mac([0x01, 0x00, 0x5E, 0x01, 0x01, 0x01]),
    ),
    (
        "224.129.130.131",
        Addr::V4([224, 0x81, 0x82, 0x83]),
        Mac([0x01, 0x00, 0x5E, 0x01, 0x82, 0x83]),
    ),
    (
        "all DHCP servers",
        Addr::V6([0xFF, 0x05, 0, 0, 0, 0, 0, 0, 0, 0, 0, 0, 0, 0x01, 0, 0x03]),
        Mac([0x33, 0x33, 0x00, 0x01, 0x00, 0x03]),
    ),
];

#[test]
fn groups_have_mac_addresses(rt: HostRuntime) {
    for (case, addr, mac) in GROUP_MACS {
        check(&rt, addr.group_mac() == mac, case);
    }
}
