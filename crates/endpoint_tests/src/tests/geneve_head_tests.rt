use crate::tests::checks::check;
use std::alloc::{AllocError, Global};
use std::test::Fail;
use wire::ether::Reason;
use wire::geneve::{GeneveFault, GeneveOption, GeneveView, Known, KnownFull, geneve_head};
use wire::vxlan::Vni;

/// Headers, and the VNI of each.
const HEADERS: [(&str, [u8; 8], Result<u32, GeneveFault>); 9] = [
    (
        "VNI 6000",
        [0, 0, 0x65, 0x58, 0x00, 0x17, 0x70, 0],
        Ok(6000),
    ),
    (
        "VNI 6000, the bit C and each reserved bit set",
        [0, 0x7F, 0x65, 0x58, 0x00, 0x17, 0x70, 0xFF],
        Ok(6000),
    ),
    (
        "version 1",
        [0x40, 0x80, 0x65, 0x58, 0, 0, 0, 0],
        Err(GeneveFault::BadVersion),
    ),
    (
        "version 3",
        [0xC0, 0x80, 0x65, 0x58, 0, 0, 0, 0],
        Err(GeneveFault::BadVersion),
    ),
    (
        "version 1 and options that aren't there",
        [0x7F, 0, 0x65, 0x58, 0, 0, 0, 0],
        Err(GeneveFault::BadVersion),
    ),
    (
        "an option that isn't there",
        [0x01, 0x80, 0x08, 0x00, 0, 0, 0, 0],
        Err(GeneveFault::ShortTunnel),
    ),
    (
        "control and IPv4",
        [0, 0x80, 0x08, 0x00, 0, 0, 0, 0],
        Err(GeneveFault::Control),
    ),
    (
        "IPv4",
        [0, 0, 0x08, 0x00, 0, 0, 0, 0],
        Err(GeneveFault::NotEthernet),
    ),
    (
        "type 6559",
        [0, 0, 0x65, 0x59, 0, 0, 0, 0],
        Err(GeneveFault::NotEthernet),
    ),
];

/// Whether a packet has this VNI, or this fault.
fn has_vni(packet: &[u8], wanted: Result<u32, GeneveFault>) -> bool {
    match (GeneveView::read(packet, &Known::new()), wanted) {
        (Ok(view), Ok(vni)) => view.vni().get() == vni,
        (Err(fault), Err(wanted)) => fault == wanted,
        _ => false,
    }
}

#[test]
fn reads_headers(rt: HostRuntime) {
    for (case, header, wanted) in HEADERS {
        check(&rt, has_vni(&header, wanted), case);
    }
}

/// Eight octets of options, and how many options they are.
const OPTIONS: [(&str, [u8; 8], Result<usize, GeneveFault>); 8] = [
    (
        "a critical one",
        [0x01, 0x02, 0x80, 1, 0, 0, 0, 0],
        Err(GeneveFault::CriticalOption),
    ),
    ("one", [0x01, 0x02, 0x00, 1, 0, 0, 0, 0], Ok(1)),
    (
        "two, the second of type 7F",
        [0x01, 0x02, 0x00, 0, 0, 0, 0x7F, 0],
        Ok(2),
    ),
    (
        "two with reserved bits",
        [0x01, 0x02, 0x00, 0xE0, 0, 0, 0, 0xE0],
        Ok(2),
    ),
    (
        "two, the second critical",
        [0x01, 0x02, 0x00, 0, 0, 0, 0x80, 0],
        Err(GeneveFault::CriticalOption),
    ),
    (
        "one that is too long",
        [0x01, 0x02, 0x00, 2, 0, 0, 0, 0],
        Err(GeneveFault::BadOptions),
    ),
    (
        "a critical one that is too long",
        [0x01, 0x02, 0x80, 2, 0, 0, 0, 0],
        Err(GeneveFault::BadOptions),
    ),
    (
        "a critical one before one that is too long",
        [0x01, 0x02, 0x80, 0, 0, 0, 0, 1],
        Err(GeneveFault::BadOptions),
    ),
];

/// Whether a packet with these flags, these options and two octets of payload has so many options, or this fault.
fn has_options(flags: u8, options: [u8; 8], wanted: Result<usize, GeneveFault>) -> bool {
    let [a, b, c, d, e, f, g, h] = options;
    let packet = [
        0x02, flags, 0x65, 0x58, 0, 0x17, 0x70, 0, a, b, c, d, e, f, g, h, 0xAA, 0xBB,
    ];
    match (GeneveView::read(&packet, &Known::new()), wanted) {
        (Ok(view), Ok(count)) => view.options().count() == count,
        (Err(fault), Err(wanted)) => fault == wanted,
        _ => false,
    }
}

#[test]
fn reads_options_whether_the_bit_c_is_set_or_not(rt: HostRuntime) {
    for (case, options, wanted) in OPTIONS {
        check(&rt, has_options(0, options, wanted), case);
        check(&rt, has_options(0x40, options, wanted), case);
    }
}

/// A packet whose critical option has class 258 and type 128.
const CRITICAL: [u8; 16] = [
    0x02, 0, 0x65, 0x58, 0, 0x17, 0x70, 0, 0x01, 0x02, 0x80, 1, 0, 0, 0, 0,
];

/// Whether that packet is taken where the option of this class and type is known.
fn is_taken(class: u16, kind: u8) -> bool {
    let mut known = Known::new();
    known.try_push(class, kind).is_ok() && GeneveView::read(&CRITICAL, &known).is_ok()
}

#[test]
fn takes_known_critical_options(rt: HostRuntime) {
    check(&rt, is_taken(258, 128), "that option is known");
    check(&rt, !is_taken(258, 0), "another type is known");
    check(&rt, !is_taken(259, 128), "another class is known");
}

/// Packets, and the octets of the header and of the payload of each.
const LENGTHS: [(&str, &[u8], Result<(usize, usize), GeneveFault>); 6] = [
    ("no octet", &[], Err(GeneveFault::ShortTunnel)),
    (
        "7 octets",
        &[0x02, 0, 0x65, 0x58, 0, 0x17, 0x70],
        Err(GeneveFault::ShortTunnel),
    ),
    (
        "12 octets",
        &[0x02, 0, 0x65, 0x58, 0, 0x17, 0x70, 0, 0x01, 0x02, 0x00, 1],
        Err(GeneveFault::ShortTunnel),
    ),
    (
        "15 octets",
        &[
            0x02, 0, 0x65, 0x58, 0, 0x17, 0x70, 0, 0x01, 0x02, 0x00, 1, 0, 0, 0,
        ],
        Err(GeneveFault::ShortTunnel),
    ),
    (
        "16 octets",
        &[
            0x02, 0, 0x65, 0x58, 0, 0x17, 0x70, 0, 0x01, 0x02, 0x00, 1, 0, 0, 0, 0,
        ],
        Ok((16, 0)),
    ),
    (
        "17 octets",
        &[
            0x02, 0, 0x65, 0x58, 0, 0x17, 0x70, 0, 0x01, 0x02, 0x00, 1, 0, 0, 0, 0, 0xAA,
        ],
        Ok((16, 1)),
    ),
];

/// Whether a packet has so many octets of header and of payload, or this fault.
fn has_lengths(packet: &[u8], wanted: Result<(usize, usize), GeneveFault>) -> bool {
    match (GeneveView::read(packet, &Known::new()), wanted) {
        (Ok(view), Ok((head, payload))) => {
            view.head().len() == head && view.payload().len() == payload
        }
        (Err(fault), Err(wanted)) => fault == wanted,
        _ => false,
    }
}

/// A packet with 128 octets and 124 of options, the most that a header has, and 40 of payload.
fn longest() -> [u8; 300] {
    let mut packet = [0; 300];
    packet[0] = 63;
    packet[2] = 0x65;
    packet[3] = 0x58;
    packet[5] = 0x17;
    packet[6] = 0x70;
    packet[11] = 31;
    packet[139] = 30;
    packet
}

#[test]
fn needs_the_whole_header(rt: HostRuntime) {
    for (case, packet, wanted) in LENGTHS {
        check(&rt, has_lengths(packet, wanted), case);
    }
    check(&rt, has_lengths(&longest(), Ok((260, 40))), "300 octets");
}

/// A packet with two options.
const TWO_OPTIONS: [u8; 29] = [
    0x05, 0, 0x65, 0x58, 0, 0x17, 0x70, 0, 0x01, 0x02, 0x03, 0xE2, 1, 2, 3, 4, 5, 6, 7, 8, 0xFF,
    0xFE, 0x7F, 1, 9, 10, 11, 12, 0xAA,
];

/// The option of this number, from 0, of a packet.
fn option_of<'a>(packet: &'a [u8], number: usize) -> Option<GeneveOption<'a>> {
    match GeneveView::read(packet, &Known::new()) {
        Ok(view) => view.options().nth(number),
        Err(_) => None,
    }
}

/// Whether a packet has this option at this number.
fn has_option(packet: &[u8], number: usize, class: u16, kind: u8, body: &[u8]) -> bool {
    match option_of(packet, number) {
        Some(option) => option.class == class && option.kind == kind && option.body == body,
        None => false,
    }
}

#[test]
fn hands_out_two_options(rt: HostRuntime) {
    let first = has_option(&TWO_OPTIONS, 0, 0x0102, 0x03, &[1, 2, 3, 4, 5, 6, 7, 8]);
    check(&rt, first, "the first");
    let second = has_option(&TWO_OPTIONS, 1, 0xFFFE, 0x7F, &[9, 10, 11, 12]);
    check(&rt, second, "the second");
    check(&rt, option_of(&TWO_OPTIONS, 2).is_none(), "behind them");
    let packet = longest();
    check(&rt, has_option(&packet, 0, 0, 0, &[0; 124]), "the longest");
    check(&rt, has_option(&packet, 1, 0, 0, &[0; 120]), "the next");
    check(&rt, option_of(&packet, 2).is_none(), "behind the longest");
}

/// The options of class 258 and types 0 to 15, as many as may be known; None where one isn't taken.
fn sixteen() -> Option<Known> {
    let mut known = Known::new();
    for kind in 0..16u8 {
        if known.try_push(258, kind).is_err() {
            return None;
        }
    }
    Some(known)
}

#[test]
fn lists_known_options(rt: HostRuntime) -> Result<(), Fail> {
    let mut known = sixteen().ok_or("sixteen options")?;
    let seventeenth = known.try_push(258, 16);
    check(&rt, seventeenth == Err(KnownFull), "a seventeenth");
    check(&rt, known.pairs().len() == 16, "the number of them");
    check(&rt, known.holds(258, 15), "class 258, type 15");
    check(&rt, !known.holds(258, 16), "class 258, type 16");
    check(&rt, !known.holds(259, 15), "class 259, type 15");
    Ok(())
}

#[test]
fn writes_the_header(rt: HostRuntime) -> Result<(), Fail> {
    let vni = Vni::new(6000).ok_or("a VNI")?;
    let wanted = [0, 0, 0x65, 0x58, 0x00, 0x17, 0x70, 0];
    check(&rt, geneve_head(vni) == wanted, "VNI 6000");
    Ok(())
}

const FAULTS: [(GeneveFault, &str); 6] = [
    (GeneveFault::ShortTunnel, "ShortTunnel"),
    (GeneveFault::BadVersion, "BadVersion"),
    (GeneveFault::Control, "Control"),
    (GeneveFault::NotEthernet, "NotEthernet"),
    (GeneveFault::BadOptions, "BadOptions"),
    (GeneveFault::CriticalOption, "CriticalOption"),
];

/// Whether a fault has this name, and so has its reason of a drop.
fn is_named(alloc: Global, fault: GeneveFault, name: &str) -> Result<bool, AllocError> {
    let text = fault.to_string(alloc)?;
    Ok(text.as_str() == name && Reason::from(fault).name() == name)
}

#[test]
fn names_its_faults_as_the_reasons_of_a_drop(rt: HostRuntime) -> Result<(), Fail> {
    for (fault, name) in FAULTS {
        check(&rt, is_named(rt.alloc(), fault, name)?, name);
    }
    let text = KnownFull.to_string(rt.alloc())?;
    check(&rt, text.as_str() == "KnownFull", "KnownFull");
    Ok(())
}
