//! Captures in the pcapng format (draft-ietf-opsawg-pcapng), octet for octet, and the classic captures of them.
//!
//! Wireshark's editcap, mergecap and text2pcap 4.0.17 wrote those that say so. The others are put together from the
//! draft, block by block. Each classic capture is what `editcap -F nsecpcap` made of the pcapng one, header and all.
//!
//! All are told in words: blocks and records by their names, the words of `test_inputs`, and hexadecimal digits.

use pcapng_input::Selection;
use std::alloc::Global;
use std::test::Fail;
use test_inputs::{meaning_of, octets_of};

/// A text, the interfaces whose packets are taken, its classic capture, and what the text is.
pub const ROWS: [(&str, Selection<'static>, &str, &str); 13] = [
    (EDITED, Selection::All, EDITED_CLASSIC, "written by editcap"),
    (
        SECRETS,
        Selection::All,
        EDITED_CLASSIC,
        "a block of another type, and options of a packet",
    ),
    (
        MERGED,
        Selection::All,
        "PCAP ARP_RECORD ARP_RECORD IP_RECORD IP_RECORD",
        "two interfaces",
    ),
    (
        ORDERS,
        Selection::All,
        "PCAP B56B0D5EC0D454070F0000000F000000 ALL M1 080607 IP_RECORD",
        "two sections",
    ),
    (
        HALVES,
        Selection::All,
        "PCAP A55D0D5EB2E60E000F0000000F000000 ALL M1 080607",
        "powers of two",
    ),
    (
        OBSOLETE,
        Selection::All,
        "PCAP A55D0D5E581B00000F0000000F000000 ALL M1 080607",
        "an obsolete packet block",
    ),
    (
        SIMPLE,
        Selection::All,
        "PCAP 00000000000000000F00000011000000 M1 M2 080045",
        "a simple packet block",
    ),
    (
        BEHIND,
        Selection::All,
        "PCAP A35D0D5E581B00000F0000000F000000 ALL M1 080607",
        "an offset below 0",
    ),
    (MERGED, Selection::Number(0), EDITED_CLASSIC, "interface 0"),
    (MERGED, Selection::Number(1), EDITED_CLASSIC, "interface 1"),
    // tshark tells the moment 1577934246.000000003 and 17 octets
    (
        NAMED,
        Selection::Name(b"p2"),
        "PCAP A65D0D5E030000001100000011000000 M1 M2 0800454647",
        "interface p2",
    ),
    (NAMED, Selection::Name(b"p"), "PCAP", "interface p"),
    (MERGED, Selection::Number(2), "PCAP", "no such interface"),
];

/// Blocks of little-endian sections, and records, by their names.
const BLOCKS: [(&str, &str); 12] = [
    // a section header without options
    (
        "SECTION",
        "0A0D0D0A1C000000 4D3C2B1A01000000FFFFFFFFFFFFFFFF 1C000000",
    ),
    // that of editcap, with its name
    (
        "EDITCAP",
        "0A0D0D0A6C000000 4D3C2B1A01000000FFFFFFFFFFFFFFFF \
         0400450045646974636170202857697265736861726B2920342E302E313720284769742076342E302E3137207061636B \
         6167656420617320342E302E31372D302B646562313275332900000000000000 6C000000",
    ),
    // an Ethernet interface without options
    ("INTERFACE", "0100000014000000 0100000000000000 14000000"),
    // the same with a snapshot length of 262,144
    ("LONG", "0100000014000000 0100000000000400 14000000"),
    // a packet of 4 octets on interface 0, at 1970
    (
        "PACKET",
        "0600000024000000 0000000000000000000000000400000004000000 01020304 24000000",
    ),
    // another, which its flags tell as outbound
    (
        "OUTBOUND",
        "0600000030000000 0000000000000000000000000400000004000000 05060708 0200040002000000 00000000 30000000",
    ),
    // a packet of 15 octets
    (
        "ARP",
        "0600000030000000 000000001F9B050080D528720F0000000F000000 ALL M1 080607 00 30000000",
    ),
    // the same at another moment
    (
        "LATER",
        "0600000030000000 000000001F9B050047F326720F0000000F000000 ALL M1 080607 00 30000000",
    ),
    // a packet of 17 octets
    (
        "IP",
        "0600000034000000 000000001F9B0500813536721100000011000000 M1 M2 0800454647 000000 34000000",
    ),
    // the records of PACKET, ARP and IP
    ("PACKET_RECORD", "00000000000000000400000004000000 01020304"),
    (
        "ARP_RECORD",
        "A55D0D5E00CA5B070F0000000F000000 ALL M1 080607",
    ),
    (
        "IP_RECORD",
        "A65D0D5EE80300001100000011000000 M1 M2 0800454647",
    ),
];

/// The octets of words.
pub fn text_of(alloc: Global, words: &str) -> Result<Vec<u8>, Fail> {
    let mut text = Vec::new(alloc);
    for word in words.split_whitespace() {
        text.append(&mut octets_of(alloc, meaning_of(&BLOCKS, word))?)?;
    }
    Ok(text)
}

/// Two packets on one interface without options, behind a section header with an option: `editcap -F pcapng` wrote it.
pub const EDITED: &str = "EDITCAP LONG ARP IP";

/// Its classic capture.
pub const EDITED_CLASSIC: &str = "PCAP ARP_RECORD IP_RECORD";

/// That of a text that ends within the second packet: its first packet, and one octet of a header.
pub const EDITED_CUT: &str = "PCAP ARP_RECORD 00";

/// The same with a block of decryption secrets in front of the interface, and a comment behind the second packet:
/// `editcap --inject-secrets` and `-a` wrote it.
const SECRETS: &str = "EDITCAP \
0A00000028000000 4B534C5414000000434C49454E545F52414E444F4D2030302031310A 28000000 LONG ARP \
0600000044000000 000000001F9B0500813536721100000011000000 M1 M2 0800454647 000000 \
0100050068656C6C6F000000 00000000 44000000";

/// Two interfaces, the first in nanoseconds and the second in microseconds, with the same packets: `mergecap -I none`
/// wrote it.
const MERGED: &str = "0A0D0D0A88000000 4D3C2B1A01000000FFFFFFFFFFFFFFFF \
030015004C696E757820362E31382E34342D66632D76353935000000 \
040046004D65726765636170202857697265736861726B2920342E302E313720284769742076342E302E3137207061636B \
6167656420617320342E302E31372D302B64656231327533290000 00000000 88000000 \
0100000020000000 0100000000000400 0900010009000000 00000000 20000000 LONG \
0600000030000000 010000001F9B050080D528720F0000000F000000 ALL M1 080607 00 30000000 \
0600000030000000 00000000D5F2E51500FC81EF0F0000000F000000 ALL M1 080607 00 30000000 \
0600000034000000 010000001F9B0500813536721100000011000000 M1 M2 0800454647 000000 34000000 \
0600000034000000 00000000D6F2E515E8FFC0231100000011000000 M1 M2 0800454647 000000 34000000";

/// A big-endian section with an interface in milliseconds, 3,600 seconds ahead, and one packet; and a little-endian
/// section with an interface without options, and one packet.
pub const ORDERS: &str = "0A0D0D0A0000001C 1A2B3C4D00010000FFFFFFFFFFFFFFFF 0000001C \
000000010000002C 0001000000000000 0009000103000000 000E00080000000000000E10 00000000 0000002C \
0000000600000030 000000000000016F6435CD030000000F0000000F ALL M1 080607 00 00000030 \
SECTION INTERFACE IP";

/// An interface whose tick is 2^-10 seconds, and a packet one tick behind a full second.
const HALVES: &str = "SECTION 0100000020000000 0100000000000000 090001008A000000 00000000 20000000 \
0600000030000000 0000000078010000019476350F0000000F000000 ALL M1 080607 00 30000000";

/// A packet in an obsolete packet block.
const OBSOLETE: &str = "SECTION INTERFACE \
0200000030000000 000000001F9B050047F326720F0000000F000000 ALL M1 080607 00 30000000";

/// A packet of 17 octets in a simple packet block, on an interface that captures 15.
const SIMPLE: &str = "SECTION 0100000014000000 010000000F000000 14000000 \
0300000020000000 11000000 M1 M2 080045 00 20000000";

/// An interface whose clock is 2 seconds ahead, by an option of -2.
const BEHIND: &str =
    "SECTION 0100000020000000 0100000000000000 0E000800FEFFFFFFFFFFFFFF 20000000 LATER";

/// Interfaces named p1, any and p2, and a packet on each: the second one is no Ethernet (link type 113).
const NAMED: &str = "SECTION 0100000020000000 0100000000000000 0200020070310000 00000000 20000000 \
0100000020000000 7100000000000000 02000300616E7900 00000000 20000000 \
0100000028000000 0100000000000000 0200020070320000 0900010009000000 00000000 28000000 LATER \
0600000030000000 010000001F9B050049F326720F0000000F000000 ALL M1 080607 00 30000000 \
0600000034000000 02000000D6F2E51503FCC0231100000011000000 M1 M2 0800454647 000000 34000000";

/// The classic capture of the packet of 4 octets.
pub const PACKET_CLASSIC: &str = "PCAP PACKET_RECORD";
