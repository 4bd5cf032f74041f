//! What runs tell, from octets written by hand.
ghost use Rattle.std.specs.Prelude.{◌≤◌, length};

use std::alloc::{AllocError, Global};
use std::fmt::Write;
use std::test::Fail;
use test_inputs::capture_texts::{BIG_MICRO, BIG_RAW_IP};
use timeline::{Event, Happening, Timeline, TimelineFault};

// Records of one octet: at 1.5 s, 3 s and 5 s.
const AT_1_5: &[u8] = b"\0\0\0\x01\0\x07\xA1\x20\0\0\0\x01\0\0\0\x02\x0A";

const AT_5_THEN_3: &[u8] = b"\0\0\0\x05\0\0\0\0\0\0\0\x01\0\0\0\x01\x0B\
\0\0\0\x03\0\0\0\0\0\0\0\x01\0\0\0\x01\x0C";

const AT_5: &[u8] = b"\0\0\0\x05\0\0\0\0\0\0\0\x01\0\0\0\x01\x0B";

// Two records, and a third that claims 262,145 octets.
const FAULTY_THIRD: &[u8] = b"\0\0\0\x05\0\0\0\0\0\0\0\x01\0\0\0\x01\x0B\
\0\0\0\x03\0\0\0\0\0\0\0\x01\0\0\0\x01\x0C\
\0\0\0\x03\0\0\0\0\0\x04\0\x01\0\0\0\x01\x0C";

// A record of 1,000,000 microseconds.
const FAULTY_FIRST: &[u8] = b"\0\0\0\x05\0\x0F\x42\x40\0\0\0\x01\0\0\0\x01\x0B";

fn joined(alloc: Global, header: &[u8], records: &[u8]) -> Result<Vec<u8>, AllocError> {
    let mut text = Vec::from_slice(alloc, header)?;
    text.extend_from_slice(records)?;
    Ok(text)
}

/// Puts the line of an event.
fn put_event(words: &mut String, event: &Event) -> Result<(), AllocError> {
    write!(
        words,
        "{} {} {} ",
        event.moment,
        event.source(),
        event.number
    )?;
    match &event.happening {
        Happening::Change(index) => write!(words, "change {index}\n"),
        Happening::Record(_, captured) => write!(
            words,
            "{:?} of {}\n",
            captured.octets, captured.original
        ),
    }
}

/// A run in words: its fault, or a line for each event and each capture that is cut.
fn told(
    alloc: Global,
    changes: &[u64],
    ports: &[Vec<u8>],
    underlay: &[u8],
) -> Result<String, AllocError>
    requires { length ports.now ≤ 255 }
{
    let mut words = String::new(alloc);
    match Timeline::read(alloc, changes, ports, underlay) {
        Ok(timeline) => put_timeline(&mut words, &timeline)?,
        Err(fault) => write!(&mut words, "{fault}")?,
    }
    Ok(words)
}

/// Puts a line for each event and each capture that is cut.
fn put_timeline(words: &mut String, timeline: &Timeline) -> Result<(), AllocError> {
    for event in timeline.events() {
        put_event(words, event)?;
    }
    for cut in timeline.cuts() {
        write!(words, "cut {} {}\n", cut.tap, cut.whole)?;
    }
    Ok(())
}

/// Whether two ports and an underlay with these headers and records are told so.
fn is_told(
    alloc: Global,
    changes: &[u64],
    headers: (&[u8], &[u8], &[u8]),
    records: (&[u8], &[u8], &[u8]),
    expected: &str,
) -> Result<bool, AllocError> {
    let mut ports = Vec::new(alloc);
    ports.push(joined(alloc, headers.0, records.0)?)?;
    ports.push(joined(alloc, headers.1, records.1)?)?;
    let underlay = joined(alloc, headers.2, records.2)?;
    let words = told(alloc, changes, &ports, &underlay)?;
    Ok(words.as_str() == expected)
}

/// A case of changes, and of records of two ports and the underlay.
struct Run {
    case: &'static str,
    changes: &'static [u64],
    records: (&'static [u8], &'static [u8], &'static [u8]),
    expected: &'static str,
}

const RUNS: [Run; 6] = [
    Run {
        case: "nothing",
        changes: &[],
        records: (b"", b"", b""),
        expected: "",
    },
    Run {
        case: "a change and a frame at one moment",
        changes: &[5_000_000_000],
        records: (AT_5, b"", b""),
        expected: "5000000000 c 1 change 0\n5000000000 p1 1 [11] of 1\n",
    },
    Run {
        case: "ports before the underlay",
        changes: &[],
        records: (AT_5, AT_5, AT_5),
        expected: "5000000000 p1 1 [11] of 1\n5000000000 p2 1 [11] of 1\n5000000000 u 1 [11] of 1\n",
    },
    Run {
        case: "by moment before source",
        changes: &[1_500_000_001, 6_000_000_000],
        records: (AT_5, b"", AT_1_5),
        expected: "1500000000 u 1 [10] of 2\n1500000001 c 1 change 0\n5000000000 p1 1 [11] of 1\n6000000000 c 2 change 1\n",
    },
    Run {
        case: "a moment that falls is that of the record before",
        changes: &[4_000_000_000],
        records: (b"", AT_5_THEN_3, b""),
        expected: "4000000000 c 1 change 0\n5000000000 p2 1 [11] of 1\n5000000000 p2 2 [12] of 1\n",
    },
    Run {
        case: "a rest of one octet, and of fifteen",
        changes: &[],
        records: (
            b"\0\0\0\x05\0\0\0\0\0\0\0\x01\0\0\0\x01\x0B\0",
            b"",
            b"\0\0\0\x05\0\0\0\0\0\0\0\x01\0\0\0",
        ),
        expected: "5000000000 p1 1 [11] of 1\ncut p1 1\ncut u 0\n",
    },
];

#[test]
fn merges_changes_and_captures_by_moment(rt: HostRuntime) -> Result<(), Fail> {
    let headers = (BIG_MICRO, BIG_MICRO, BIG_MICRO);
    for run in &RUNS {
        let is_told = is_told(rt.alloc(), run.changes, headers, run.records, run.expected)?;
        assert!(rt; is_told, "the run: {}", run.case);
    }
    Ok(())
}

/// Headers of the second port and of the underlay, records of both ports, and the first fault.
const FAULTS: [(&[u8], &[u8], &[u8], &[u8], &str); 6] = [
    (BIG_MICRO, BIG_MICRO, AT_5, FAULTY_THIRD, "p2: TooLarge 3"),
    (
        BIG_MICRO,
        BIG_MICRO,
        FAULTY_FIRST,
        FAULTY_THIRD,
        "p1: BadFraction 1",
    ),
    // each opening before each record, ports before the underlay
    (b"", BIG_MICRO, FAULTY_FIRST, b"", "p2: NotPcap"),
    (b"", b"", FAULTY_FIRST, b"", "p2: NotPcap"),
    (BIG_RAW_IP, b"", FAULTY_FIRST, b"", "p2: BadLink"),
    (BIG_MICRO, b"", FAULTY_FIRST, b"", "u: NotPcap"),
];

#[test]
fn names_the_first_fault(rt: HostRuntime) -> Result<(), Fail> {
    for (second, third, port1, port2, expected) in &FAULTS {
        let headers = (BIG_MICRO, *second, *third);
        let records = (*port1, *port2, b"".as_slice());
        let is_told = is_told(rt.alloc(), &[], headers, records, expected)?;
        assert!(rt; is_told, "the fault {expected}");
    }
    Ok(())
}

#[test]
fn want_of_memory_has_its_text(rt: HostRuntime) -> Result<(), Fail> {
    let words = TimelineFault::OutOfMemory.to_string(rt.alloc())?;
    assert_eq!(rt; words.as_str(), "memory");
    Ok(())
}
