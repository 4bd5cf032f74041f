//! Texts of digests that are lent to the parts of a run, and octets that are counted on the way.
use crate::tests::parts::texts::{put_lines, text_in_full};
use part_record::{DigestInput, DigestsFault, LentFault, digests_of, digests_text, see_octets};
use pcap::stream::Input;
use std::alloc::Global;
use std::test::Fail;
use test_inputs::{in_pieces, octets_of};
use timeline::Tap;

/// Texts of digests: of no port, of two, and of 16.
const DIGESTS: [&str; 3] = [
    "tep digests 1/capture u 0 E/",
    "tep digests 1/capture p1 3 A/capture p2 0 E/capture u 18446744073709551615 A/",
    "tep digests 1/capture p1 1 A/capture p2 2 A/capture p3 3 A/capture p4 4 A/capture p5 5 A/capture p6 6 A/capture p7 7 A/\
    capture p8 8 A/capture p9 9 A/capture p10 10 A/capture p11 11 A/capture p12 12 A/capture p13 13 A/capture p14 14 A/\
    capture p15 15 A/capture p16 16 E/capture u 7 E/",
];

/// Whether a text is written again as it was read.
fn is_written_again(alloc: Global, short: &str) -> Result<bool, Fail> {
    let text = text_in_full(alloc, short)?;
    match digests_of(text.as_str()) {
        Ok(digests) => Ok(digests_text(alloc, &digests)?.as_slice() == text.as_bytes()),
        Err(_) => Ok(false),
    }
}

#[test]
fn writes_the_digests_that_it_reads(rt: HostRuntime) -> Result<(), Fail> {
    for short in DIGESTS {
        assert!(rt; is_written_again(rt.alloc(), short)?, "{short}");
    }
    Ok(())
}

/// The text of the digests of so many ports.
fn digests_with_ports(alloc: Global, ports: u16) -> Result<String, Fail> {
    let mut short = String::new(alloc);
    short.push_str("tep digests 1/")?;
    put_lines(&mut short, ports, "capture p", " 24 A/")?;
    short.push_str("capture u 7 E/")?;
    Ok(text_in_full(alloc, short.as_str())?)
}

#[test]
fn writes_digests_of_255_ports_as_it_reads_them(rt: HostRuntime) -> Result<(), Fail> {
    let text = digests_with_ports(rt.alloc(), 255)?;
    assert!(rt; is_written_again(rt.alloc(), text.as_str())?);
    Ok(())
}

#[test]
fn refuses_digests_of_256_ports(rt: HostRuntime) -> Result<(), Fail> {
    let text = digests_with_ports(rt.alloc(), 256)?;
    let fault = digests_of(text.as_str()).err();
    assert!(rt; fault == Some(DigestsFault::Capture));
    Ok(())
}

#[test]
fn reads_octets_and_digest_of_each_capture(rt: HostRuntime) -> Result<(), Fail> {
    let text = text_in_full(rt.alloc(), DIGESTS[1])?;
    let Ok(digests) = digests_of(text.as_str()) else {
        return Err(Fail::from("digests"));
    };
    assert!(rt; digests.ports.len() == 2);
    assert!(rt; digests.ports[0].octets == 3 && digests.ports[0].sum[0] == 0xBA);
    assert!(rt; digests.ports[1].octets == 0 && digests.ports[1].sum[31] == 0x55);
    assert!(rt; digests.underlay.octets == u64::MAX && digests.underlay.sum[31] == 0xAD);
    Ok(())
}

/// Texts that are none of digests, each with the fault that it has.
const FAULTS: [(&str, DigestsFault); 12] = [
    ("", DigestsFault::Head),
    ("tep digests 2/capture u 0 E/", DigestsFault::Head),
    ("tep digests 1", DigestsFault::Head),
    ("tep digests 1/", DigestsFault::Capture),
    ("tep digests 1/capture p1 3 A/", DigestsFault::Capture),
    (
        "tep digests 1/capture p2 3 A/capture u 0 E/",
        DigestsFault::Capture,
    ),
    ("tep digests 1/capture u E/", DigestsFault::Capture),
    ("tep digests 1/capture u 00 E/", DigestsFault::Capture),
    ("tep digests 1/capture u 0  E/", DigestsFault::Capture),
    (
        "tep digests 1/capture u 18446744073709551616 E/",
        DigestsFault::Capture,
    ),
    ("tep digests 1/capture u 0 E", DigestsFault::Capture),
    ("tep digests 1/capture u 0 E//", DigestsFault::Behind),
];

/// Whether a text is refused for this fault.
fn is_refused(alloc: Global, short: &str, fault: DigestsFault) -> Result<bool, Fail> {
    let text = text_in_full(alloc, short)?;
    Ok(digests_of(text.as_str()).err() == Some(fault))
}

#[test]
fn refuses_a_text_that_is_none_of_digests(rt: HostRuntime) -> Result<(), Fail> {
    for (short, fault) in FAULTS {
        assert!(rt; is_refused(rt.alloc(), short, fault)?, "{short}");
    }
    Ok(())
}

/// The octets of captures of ports and of the underlay, and what differs from those that the second text tells.
const CAPTURES: [(&[u64], u64, Option<LentFault>); 7] = [
    (&[3, 0], u64::MAX, None),
    (&[4, 0], u64::MAX, Some(LentFault::Octets(Tap::Port(1)))),
    (&[2, 1], 0, Some(LentFault::Octets(Tap::Port(1)))),
    (&[3, 1], 0, Some(LentFault::Octets(Tap::Port(2)))),
    (&[3, 0], 7, Some(LentFault::Octets(Tap::Underlay))),
    (&[3], u64::MAX, Some(LentFault::Ports)),
    (&[3, 0, 0], u64::MAX, Some(LentFault::Ports)),
];

/// Whether this differs from what a text of digests tells.
fn differs(text: &str, ports: &[u64], underlay: u64, wanted: Option<LentFault>) -> bool {
    match digests_of(text) {
        Ok(digests) => see_octets(&digests, ports, underlay).err() == wanted,
        Err(_) => false,
    }
}

#[test]
fn sees_captures_with_other_octets_than_the_digests_tell(rt: HostRuntime) -> Result<(), Fail> {
    let text = text_in_full(rt.alloc(), DIGESTS[1])?;
    for (ports, underlay, wanted) in &CAPTURES {
        assert!(rt;
            differs(text.as_str(), *ports, *underlay, *wanted),
            "{ports:?} {underlay}"
        );
    }
    Ok(())
}

#[test]
fn counts_the_octets_that_it_hands_on(rt: HostRuntime) -> Result<(), Fail> {
    let text = octets_of(rt.alloc(), "00*50")?;
    let mut input = DigestInput::new(in_pieces(text.as_slice(), 4, 0), false);
    let mut room = [0; 10];
    let mut taken = Vec::new(rt.alloc());
    for _read in 0..text.len() {
        let Ok(n) = input.read(&mut room) else {
            return Err(Fail::from("a read"));
        };
        taken.extend_from_slice(&room[..n])?;
        assert!(rt; input.octets() == taken.len() as u64);
    }
    assert!(rt; taken.as_slice() == text.as_slice());
    assert!(rt; input.digest().is_none());
    Ok(())
}
