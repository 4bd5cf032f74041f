use crate::tests::checks::check;
use std::process::Abort;
use wire::ether::{EtherView, Mac, Reason, Tagging, Tci, Vid};

const REASONS: [(Reason, u8, &str); 40] = [
    (Reason::TooLong, 1, "TooLong"),
    (Reason::Sliced, 2, "Sliced"),
    (Reason::Runt, 3, "Runt"),
    (Reason::PortDown, 4, "PortDown"),
    (Reason::BadSource, 5, "BadSource"),
    (Reason::Reserved, 6, "Reserved"),
    (Reason::CutTag, 7, "CutTag"),
    (Reason::BadVid, 8, "BadVid"),
    (Reason::FrameType, 9, "FrameType"),
    (Reason::NoSegment, 10, "NoSegment"),
    (Reason::NotMember, 11, "NotMember"),
    (Reason::NotIp, 12, "NotIp"),
    (Reason::BadIp, 13, "BadIp"),
    (Reason::BadIpSum, 14, "BadIpSum"),
    (Reason::BadOuterSource, 15, "BadOuterSource"),
    (Reason::NotForUs, 16, "NotForUs"),
    (Reason::Fragment, 17, "Fragment"),
    (Reason::NotUdp, 18, "NotUdp"),
    (Reason::BadUdp, 19, "BadUdp"),
    (Reason::NotTunnel, 20, "NotTunnel"),
    (Reason::ZeroSum, 21, "ZeroSum"),
    (Reason::BadUdpSum, 22, "BadUdpSum"),
    (Reason::ShortTunnel, 23, "ShortTunnel"),
    (Reason::NoVniFlag, 24, "NoVniFlag"),
    (Reason::BadVersion, 25, "BadVersion"),
    (Reason::Control, 26, "Control"),
    (Reason::NotEthernet, 27, "NotEthernet"),
    (Reason::BadOptions, 28, "BadOptions"),
    (Reason::CriticalOption, 29, "CriticalOption"),
    (Reason::UnknownVni, 30, "UnknownVni"),
    (Reason::WrongGroup, 31, "WrongGroup"),
    (Reason::UnknownPeer, 32, "UnknownPeer"),
    (Reason::InnerRunt, 33, "InnerRunt"),
    (Reason::InnerTag, 34, "InnerTag"),
    (Reason::SamePlace, 35, "SamePlace"),
    (Reason::Horizon, 36, "Horizon"),
    (Reason::Unreachable, 37, "Unreachable"),
    (Reason::NoOutlet, 38, "NoOutlet"),
    (Reason::TooBig, 39, "TooBig"),
    (Reason::InnerTagOut, 40, "InnerTagOut"),
];

/// Whether a reason has this number and name.
fn is_row(reason: Reason, number: u8, name: &str) -> bool {
    reason.number() == number && reason.name() == name
}

/// Asks for the numbers and names of reasons.
fn check_reasons(rt: &impl Abort, rows: &[(Reason, u8, &str)]) {
    for (reason, number, name) in rows {
        check(rt, is_row(*reason, *number, name), name);
    }
}

#[test]
fn numbers_and_names_are_those_of_the_table(rt: HostRuntime) {
    check_reasons(&rt, &REASONS);
}

#[test]
fn each_reason_is_listed_at_its_number(rt: HostRuntime) {
    for place in 0..40u8 {
        let reason = wire::ether::REASONS[usize::from(place)];
        check(&rt, reason.number() == place + 1, reason.name());
    }
}

const VIDS: [(&str, u16, bool); 5] = [
    ("0", 0, false),
    ("1", 1, true),
    ("4094", 4094, true),
    ("4095", 4095, false),
    ("65535", 65535, false),
];

/// Whether a number is a VID, or none.
fn is_vid(number: u16, wanted: bool) -> bool {
    match Vid::new(number) {
        Some(vid) => wanted && vid.get() == number,
        None => !wanted,
    }
}

/// Priority 5, not drop eligible, VID 10; then 0 and 4095, which no `Vid` is.
const TAGS: [(&str, u16, u8, bool, u16); 3] = [
    ("A00A", 0xA00A, 5, false, 10),
    ("1000", 0x1000, 0, true, 0),
    ("EFFF", 0xEFFF, 7, false, 4095),
];

/// Whether a tag's control information is made of these.
fn is_made_of(bits: u16, pcp: u8, dei: bool, vid: u16) -> bool {
    let tci = Tci::new(bits);
    tci.pcp() == pcp && tci.dei() == dei && tci.vid() == vid
}

#[test]
fn vlan_identifiers_are_1_to_4094(rt: HostRuntime) {
    for (case, number, wanted) in VIDS {
        check(&rt, is_vid(number, wanted), case);
    }
    for (case, bits, pcp, dei, vid) in TAGS {
        check(&rt, is_made_of(bits, pcp, dei, vid), case);
    }
}

/// A frame with one tag.
const ONE_TAG: &[u8] = b"\xFF\xFF\xFF\xFF\xFF\xFF\x02\0\0\0\0\x01\x81\0\xA0\x0A\x08\x06\x00";

/// A frame with two tags, of which the second begins the body.
const TWO_TAGS: &[u8] = b"\xFF\xFF\xFF\xFF\xFF\xFF\x02\0\0\0\0\x01\x81\0\0\x0A\x81\0\0\x64\x08\x06";

/// A frame with a service tag, which is ordinary body.
const SERVICE_TAG: &[u8] = b"\xFF\xFF\xFF\xFF\xFF\xFF\x02\0\0\0\0\x01\x88\xA8\x00\x0A\x08\x06";

/// 16 octets, which have no room for a tag and a body.
const CUT_TAG: &[u8] = b"\xFF\xFF\xFF\xFF\xFF\xFF\x02\0\0\0\0\x01\x81\x00\x00\x0A";

/// Whether a frame is from 02:00:00:00:00:01 to FF:FF:FF:FF:FF:FF.
fn is_broadcast(octets: &[u8]) -> bool {
    match EtherView::read(octets) {
        Ok(view) => view.dst() == Mac([0xFF; 6]) && view.src() == Mac([0x02, 0, 0, 0, 0, 0x01]),
        Err(_) => false,
    }
}

/// Whether a tag comes off a frame with these bits, and this body stands behind it.
fn is_tagged(octets: &[u8], bits: u16, body: &[u8]) -> bool {
    let Ok(view) = EtherView::read(octets) else {
        return false;
    };
    match view.split_tag() {
        Tagging::Tagged(tci, found) => tci == Tci::new(bits) && found == body,
        Tagging::Plain(_) | Tagging::Cut => false,
    }
}

/// Whether a frame has no tag, and this body.
fn is_plain(octets: &[u8], body: &[u8]) -> bool {
    let Ok(view) = EtherView::read(octets) else {
        return false;
    };
    match view.split_tag() {
        Tagging::Plain(found) => found == body,
        Tagging::Tagged(..) | Tagging::Cut => false,
    }
}

/// Whether a frame has no room for its tag.
fn is_cut(octets: &[u8]) -> bool {
    let Ok(view) = EtherView::read(octets) else {
        return false;
    };
    match view.split_tag() {
        Tagging::Cut => true,
        Tagging::Plain(_) | Tagging::Tagged(..) => false,
    }
}

#[test]
fn one_customer_tag_comes_off(rt: HostRuntime) {
    check(&rt, is_broadcast(ONE_TAG), "its addresses");
    let one = is_tagged(ONE_TAG, 0xA00A, &[0x08, 0x06, 0x00]);
    check(&rt, one, "one tag");
    let two = is_tagged(TWO_TAGS, 0x000A, &[0x81, 0x00, 0x00, 0x64, 0x08, 0x06]);
    check(&rt, two, "two tags");
    let service = is_plain(SERVICE_TAG, &[0x88, 0xA8, 0x00, 0x0A, 0x08, 0x06]);
    check(&rt, service, "a service tag");
    check(&rt, is_cut(CUT_TAG), "16 octets");
    let runt = EtherView::read(&[0x02; 13]).is_err();
    check(&rt, runt, "13 octets");
}

/// A service tag of VID 100 and customer tags of VID 10 and 11, behind the addresses.
const STACKED: &[u8] =
    b"\xFF\xFF\xFF\xFF\xFF\xFF\x02\0\0\0\0\x01\x88\xA8\0\x64\x81\0\0\x0A\x81\0\0\x0B\x08\x00";

/// How many tags may be passed, and the octets of those that are.
const PASSED: [(&str, usize, usize); 5] = [
    ("none", 0, 0),
    ("at most 1", 1, 4),
    ("at most 2", 2, 8),
    ("at most 3", 3, 12),
    ("at most 4", 4, 12),
];

/// Frames of which no tag is passed.
const UNPASSED: [(&str, &[u8]); 2] = [
    (
        "a tag of type 9100",
        b"\xFF\xFF\xFF\xFF\xFF\xFF\x02\0\0\0\0\x01\x91\x00\x00\x0A",
    ),
    (
        "a cut tag",
        b"\xFF\xFF\xFF\xFF\xFF\xFF\x02\0\0\0\0\x01\x81\x00\x0A",
    ),
];

/// Whether of these octets behind a frame's addresses so many are of tags that are passed.
fn passes(octets: &[u8], most: usize, tags: usize) -> bool {
    let Ok(view) = EtherView::read(octets) else {
        return false;
    };
    let behind = view.after_addresses();
    let (passed, rest) = view.skip_tags(most);
    passed.len() == tags
        && behind.starts_with(passed)
        && behind.ends_with(rest)
        && passed.len().saturating_add(rest.len()) == behind.len()
}

#[test]
fn tags_of_both_kinds_are_skipped(rt: HostRuntime) {
    for (case, most, tags) in PASSED {
        check(&rt, passes(STACKED, most, tags), case);
    }
    for (case, octets) in UNPASSED {
        check(&rt, passes(octets, 2, 0), case);
    }
}

const ADDRESSES: [(&str, [u8; 6], bool, bool); 5] = [
    ("a station", [0x02, 0, 0, 0, 0, 0x01], false, false),
    ("a group", [0x01, 0x00, 0x5E, 0, 0, 0x01], true, false),
    (
        "the first reserved",
        [0x01, 0x80, 0xC2, 0, 0, 0x00],
        true,
        true,
    ),
    (
        "the last reserved",
        [0x01, 0x80, 0xC2, 0, 0, 0x0F],
        true,
        true,
    ),
    ("the next", [0x01, 0x80, 0xC2, 0, 0, 0x10], true, false),
];

fn is_of_kind(mac: Mac, is_group: bool, is_reserved: bool) -> bool {
    mac.is_group() == is_group && mac.is_reserved() == is_reserved
}

#[test]
fn groups_and_reserved_addresses(rt: HostRuntime) {
    for (case, octets, is_group, is_reserved) in ADDRESSES {
        check(&rt, is_of_kind(Mac(octets), is_group, is_reserved), case);
    }
}
