//! Runs over devices that move few octets at a time, which write what a run over memory answers.
use crate::tests::rows::rows::{AGEING, Row};
use crate::tests::rows::run::{Manner, WHOLE};
use std::alloc::Global;
use std::fmt::Display;
use std::process::Abort;
use std::test::Fail;
use test_inputs::settings::ENDPOINT;

/// The words for a fault, or `done`.
pub(crate) fn words_of<E: Display + Drop>(
    alloc: Global,
    end: Result<(), E>,
) -> Result<String, Fail> {
    match end {
        Ok(()) => Ok(String::from_str(alloc, "done")?),
        Err(fault) => Ok(format!(in alloc; "{fault}")?),
    }
}

/// Asks for the same texts, or the same fault, in each manner.
fn check_same(rt: &impl Abort, alloc: Global, name: &str, row: &Row) -> Result<(), Fail> {
    for (at_a_read, at_a_write) in [(1, 4096), (7, 1), (4096, 4096)] {
        let manner = Manner {
            at_a_read,
            at_a_write,
            ..WHOLE
        };
        let (written, end) = manner.run(alloc, row)?;
        let ended = words_of(alloc, end)?;
        match row.answered(alloc) {
            Ok(outputs) => {
                assert_eq!(rt; ended.as_str(), "done", "{name} by {at_a_read}");
                let same = written.ports == outputs.ports
                    && written.underlay == outputs.underlay
                    && written.decisions == outputs.decisions;
                assert!(rt; same, "{name} by {at_a_read}: the texts");
            }
            Err(fault) => {
                let expected = words_of(alloc, Err(fault))?;
                assert_eq!(rt; ended.as_str(), expected.as_str(), "{name} by {at_a_read}");
            }
        }
    }
    Ok(())
}

/// Four frames among three ports.
const SAMPLE: [&str; 4] = [
    "1s p1 60 ALL M1 0806",
    "2s p2 60 M1 M2 0800",
    "3s p1 60 M2 M1 0800",
    "4s p2 60 M2 M2 0800",
];

/// Frames of two segments.
const TWO_SEGMENTS: [&str; 4] = [
    "1s p1 60 ALL M1 0806",
    "2s p3 64 ALL M1 81000014 0806",
    "3s p2 60 M1 M2 0800",
    "4s p2 64 M1 M2 81000014 0800",
];

#[test]
fn frames_leave_the_same(rt: HostRuntime) -> Result<(), Fail> {
    let alloc = rt.alloc();
    let rows = [
        (
            "four frames among three ports",
            Row::bridge(alloc, &SAMPLE)?,
        ),
        (
            "a frame to a remote",
            Row::new(alloc, ENDPOINT, &SAMPLE[..1])?,
        ),
        (
            "frames of two segments",
            Row::new(alloc, ENDPOINT, &TWO_SEGMENTS)?,
        ),
        ("an entry that is dead", Row::ageing(alloc, &AGEING)?),
    ];
    for (name, row) in &rows {
        check_same(&rt, alloc, name, row)?;
    }
    Ok(())
}

/// A moment that falls, and records of two captures at one moment, with changes at it.
#[test]
fn events_come_in_the_same_order(rt: HostRuntime) -> Result<(), Fail> {
    let lines = [
        "5s p1 60 ALL M1 0806",
        "3s p1 60 ALL M1 0806",
        "5s p3 64 ALL M1 81000014 0806",
        "5s u 60 ALL M1 0806",
        "0 u 60 ALL M1 0806",
    ];
    let mut row = Row::new(rt.alloc(), ENDPOINT, &lines)?;
    row.changes.push_str(
        "[[change]]\nkind = \"flush\"\nat = 5000000000\nvid = 10\n[[change]]\nkind = \"port_down\"\nat = 5000000000\nport = 9\n",
    )?;
    check_same(&rt, rt.alloc(), "five events at a moment", &row)
}

/// Captures as they lie in files: the name of a case, and a capture octet for octet.
const CAPTURES: [(&str, &str); 9] = [
    ("an empty file", "= p1"),
    ("raw IP", "= u A1B2C3D4 00020004 00*8 00040000 00000065"),
    (
        "a header alone",
        "= u A1B2C3D4 00020004 00*8 00040000 00000001",
    ),
    (
        "big-endian microseconds, 1.5 seconds",
        "= p1 A1B2C3D4 00020004 00*8 00040000 00000001 00000001 0007A120 0000000E 0000000E ALL M1 0806",
    ),
    (
        "a cut rest behind a whole record",
        "= p2 PCAP 01000000 00000000 0E000000 0E000000 ALL M1 0806 02000000",
    ),
    (
        "a record that was cut when it was captured",
        "= p1 PCAP 01000000 00000000 0E000000 0F000000 ALL M1 0806",
    ),
    (
        "a record of 262,145 octets",
        "= p1 PCAP 01000000 00000000 01000400 01000400",
    ),
    (
        "a record of 262,145 octets behind a whole one",
        "= p3 PCAP 01000000 00000000 00000000 00000000 01000000 00000000 01000400 01000400",
    ),
    (
        "a fraction of a second",
        "= u PCAP 01000000 00CA9A3B 00000000 00000000",
    ),
];

#[test]
fn captures_are_read_and_refused_the_same(rt: HostRuntime) -> Result<(), Fail> {
    for (name, line) in CAPTURES {
        let row = Row::bridge(rt.alloc(), &[line])?;
        check_same(&rt, rt.alloc(), name, &row)?;
    }
    Ok(())
}
