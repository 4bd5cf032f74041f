//! Captures that are read, from octets written by hand and by tcpdump.
use pcap::text::{Capture, Record, RecordFault};
use std::alloc::{AllocError, Global};
use std::fmt::Write;
use std::test::Fail;
use test_inputs::capture_texts::{
    BIG_MICRO, BIG_NANO, BIG_RAW_IP, BIG_RECORD, LITTLE_MICRO, LITTLE_NANO, LITTLE_RECORD,
};

// Made by `tcpdump -i lo -U --time-stamp-precision=nano -w FILE "udp port 9"` (4.99.3) in a network namespace of its
// own, with one datagram to 127.0.0.1 meanwhile. For it `tcpdump -e -tt --time-stamp-precision=nano -r FILE` prints
// 1795338051.276203733 and length 45.
const TCPDUMP_NANO: &[u8] = b"\x4D\x3C\xB2\xA1\x02\0\x04\0\0\0\0\0\0\0\0\0\0\0\x04\0\x01\0\0\0\
\x43\xAF\x02\x6B\xD5\x88\x76\x10\x2D\0\0\0\x2D\0\0\0\0\0\0\0\0\0\0\0\0\0\0\0\x08\0\
\x45\0\0\x1F\xA8\x68\x40\0\x40\x11\x94\x63\x7F\0\0\x01\x7F\0\0\x01\xE4\x98\0\x09\0\x0B\xFE\x1Etep";

// The same with `-s 20 -Q in --immediate-mode` and without a precision, for two datagrams. For them `tcpdump -e -tt -r
// FILE` prints 1795338094.634761 and length 45, 1795338094.935005 and length 42.
const TCPDUMP_MICRO: &[u8] = b"\xD4\xC3\xB2\xA1\x02\0\x04\0\0\0\0\0\0\0\0\0\x14\0\0\0\x01\0\0\0\
\x6E\xAF\x02\x6B\x89\xAF\x09\0\x14\0\0\0\x2D\0\0\0\0\0\0\0\0\0\0\0\0\0\0\0\x08\0\x45\0\0\x1F\x80\x3E\
\x6E\xAF\x02\x6B\x5D\x44\x0E\0\x14\0\0\0\x2A\0\0\0\0\0\0\0\0\0\0\0\0\0\0\0\x08\0\x45\0\0\x1C\x80\x68";

/// Puts what an answer tells: the moment, octets and original length of a record, or a fault.
fn put_answer(
    words: &mut String,
    answer: Result<Record<'_>, RecordFault>,
) -> Result<(), AllocError> {
    match answer {
        Ok(record) => write!(
            words,
            "{} {:?} of {}, ",
            record.moment, record.octets, record.original
        ),
        Err(fault) => write!(words, "{fault}, "),
    }
}

/// Puts what is told of each record, and how they end.
fn put_answers(words: &mut String, mut capture: Capture<'_>) -> Result<(), AllocError> {
    while let Some(answer) = capture.next() {
        put_answer(words, answer)?;
    }
    words.push_str(if capture.is_cut() { "cut" } else { "end" })
}

/// A capture in words: why it isn't opened, or its records.
fn told(alloc: Global, text: &[u8]) -> Result<String, AllocError> {
    let mut words = String::new(alloc);
    match Capture::open(text) {
        Ok(capture) => put_answers(&mut words, capture)?,
        Err(fault) => write!(&mut words, "{fault}")?,
    }
    Ok(words)
}

/// Whether a capture is told so.
fn is_told(alloc: Global, text: &[u8], expected: &str) -> Result<bool, AllocError> {
    Ok(told(alloc, text)?.as_str() == expected)
}

fn joined(alloc: Global, header: &[u8], record: &[u8], rest: &[u8]) -> Result<Vec<u8>, AllocError> {
    let mut text = Vec::from_slice(alloc, header)?;
    text.extend_from_slice(record)?;
    text.extend_from_slice(rest)?;
    Ok(text)
}

const OPENED: [(&[u8], &str); 15] = [
    (b"", "NotPcap"),
    // a header of which one octet is missing
    (
        b"\x4D\x3C\xB2\xA1\x02\0\x04\0\0\0\0\0\0\0\0\0\0\0\x04\0\x01\0\0",
        "NotPcap",
    ),
    // pcapng, and a magic number that is off by one
    (
        b"\x0A\x0D\x0D\x0A\0\x02\0\x04\0\0\0\0\0\0\0\0\0\0\xFF\xFF\0\0\0\x01",
        "NotPcap",
    ),
    (
        b"\xA1\xB2\xC3\xD5\0\x02\0\x04\0\0\0\0\0\0\0\0\0\0\xFF\xFF\0\0\0\x01",
        "NotPcap",
    ),
    // versions 2.3, 3.4, and 2.4 in the other byte order
    (
        b"\xA1\xB2\xC3\xD4\0\x02\0\x03\0\0\0\0\0\0\0\0\0\0\xFF\xFF\0\0\0\x01",
        "NotPcap",
    ),
    (
        b"\xA1\xB2\xC3\xD4\0\x03\0\x04\0\0\0\0\0\0\0\0\0\0\xFF\xFF\0\0\0\x01",
        "NotPcap",
    ),
    (
        b"\xA1\xB2\xC3\xD4\x02\0\x04\0\0\0\0\0\0\0\0\0\0\0\xFF\xFF\0\0\0\x01",
        "NotPcap",
    ),
    // raw IP; Ethernet in the other byte order; raw IP and version 2.3
    (BIG_RAW_IP, "BadLink"),
    (
        b"\xA1\xB2\xC3\xD4\0\x02\0\x04\0\0\0\0\0\0\0\0\0\0\xFF\xFF\x01\0\0\0",
        "BadLink",
    ),
    (
        b"\xA1\xB2\xC3\xD4\0\x02\0\x03\0\0\0\0\0\0\0\0\0\0\xFF\xFF\0\0\0\x65",
        "NotPcap",
    ),
    // zone, accuracy and snapshot length say nothing
    (
        b"\xA1\xB2\xC3\xD4\0\x02\0\x04\xFF\xFF\xF1\xF0\0\0\0\x09\0\0\0\0\0\0\0\x01",
        "end",
    ),
    (BIG_MICRO, "end"),
    (BIG_NANO, "end"),
    (LITTLE_MICRO, "end"),
    (LITTLE_NANO, "end"),
];

#[test]
fn opens_classic_captures_of_ethernet(rt: HostRuntime) -> Result<(), Fail> {
    for (text, expected) in &OPENED {
        let is_told = is_told(rt.alloc(), text, expected)?;
        assert!(rt; is_told, "{text:?} is {expected}");
    }
    Ok(())
}

/// Headers, records and texts behind them, and what is told of them.
const RECORDS: [(&[u8], &[u8], &[u8], &str); 15] = [
    (BIG_MICRO, BIG_RECORD, b"", "1500000000 [7, 8] of 3, end"),
    (
        LITTLE_MICRO,
        LITTLE_RECORD,
        b"",
        "1500000000 [7, 8] of 3, end",
    ),
    (BIG_NANO, BIG_RECORD, b"", "1000500000 [7, 8] of 3, end"),
    (
        LITTLE_NANO,
        LITTLE_RECORD,
        b"",
        "1000500000 [7, 8] of 3, end",
    ),
    (
        BIG_MICRO,
        BIG_RECORD,
        BIG_RECORD,
        "1500000000 [7, 8] of 3, 1500000000 [7, 8] of 3, end",
    ),
    // more captured than the frame had; nothing captured; the last moment
    (
        BIG_NANO,
        b"\0\0\0\0\0\0\0\0\0\0\0\x02\0\0\0\x01",
        b"\x07\x08",
        "0 [7, 8] of 1, end",
    ),
    (
        BIG_NANO,
        b"\0\0\0\0\0\0\0\x09\0\0\0\0\xFF\xFF\xFF\xFF",
        b"",
        "9 [] of 4294967295, end",
    ),
    (
        BIG_NANO,
        b"\xFF\xFF\xFF\xFF\x3B\x9A\xC9\xFF\0\0\0\0\0\0\0\0",
        b"",
        "4294967295999999999 [] of 0, end",
    ),
    // captured 262,145; 262,144, of which b"" are there; a fault behind a record, with one behind it
    (
        BIG_NANO,
        b"\0\0\0\0\0\0\0\0\0\x04\0\x01\0\0\0\0",
        b"",
        "TooLarge, end",
    ),
    (BIG_NANO, b"\0\0\0\0\0\0\0\0\0\x04\0\0\0\0\0\0", b"", "cut"),
    (
        BIG_NANO,
        BIG_RECORD,
        b"\0\0\0\0\x3B\x9A\xCA\0\0\x04\0\x01\0\0\0\0\0\0\0\0\0\0\0\0\0\0\0\0\0\0\0\0",
        "1000500000 [7, 8] of 3, TooLarge, end",
    ),
    // fractions of 1,000,000 and 999,999 microseconds, and of 1,000,000,000 and 1,000,000 nanoseconds
    (
        BIG_MICRO,
        b"\0\0\0\x01\0\x0F\x42\x40\0\0\0\x01\0\0\0\0",
        b"",
        "BadFraction, end",
    ),
    (
        BIG_MICRO,
        b"\0\0\0\x01\0\x0F\x42\x3F\0\0\0\0\0\0\0\0",
        b"",
        "1999999000 [] of 0, end",
    ),
    (
        BIG_NANO,
        b"\0\0\0\x01\x3B\x9A\xCA\0\0\0\0\0\0\0\0\0",
        BIG_RECORD,
        "BadFraction, end",
    ),
    (
        BIG_NANO,
        b"\0\0\0\x01\0\x0F\x42\x40\0\0\0\0\0\0\0\0",
        b"",
        "1001000000 [] of 0, end",
    ),
];

/// Rests that are no whole record.
const RESTS: [&[u8]; 4] = [
    b"\0",
    b"\0\0\0\x01\0\x07\xA1\x20\0\0\0\x02\0\0\0",
    b"\0\0\0\x01\0\x07\xA1\x20\0\0\0\x02\0\0\0\x03",
    b"\0\0\0\x01\0\x07\xA1\x20\0\0\0\x02\0\0\0\x03\x07",
];

/// Whether what they are side by side is told so.
fn are_told(
    alloc: Global,
    header: &[u8],
    record: &[u8],
    rest: &[u8],
    expected: &str,
) -> Result<bool, AllocError> {
    let text = joined(alloc, header, record, rest)?;
    is_told(alloc, &text, expected)
}

#[test]
fn reads_records_until_the_end_or_a_fault(rt: HostRuntime) -> Result<(), Fail> {
    for (header, record, rest, expected) in &RECORDS {
        let are_told = are_told(rt.alloc(), header, record, rest, expected)?;
        assert!(rt; are_told, "{record:?} and {rest:?} are {expected}");
    }
    let expected = "1500000000 [7, 8] of 3, cut";
    for rest in &RESTS {
        let are_told = are_told(rt.alloc(), BIG_MICRO, BIG_RECORD, rest, expected)?;
        assert!(rt; are_told, "the rest {rest:?} is cut");
    }
    Ok(())
}

/// Whether the next record is this one.
fn is_next(capture: &mut Capture, moment: u64, original: u32, octets: &[u8]) -> bool {
    match capture.next() {
        Some(Ok(record)) => {
            record.moment == moment && record.original == original && record.octets == octets
        }
        _ => false,
    }
}

#[test]
fn reads_what_tcpdump_wrote(rt: HostRuntime) -> Result<(), Fail> {
    let mut capture = Capture::open(TCPDUMP_NANO)?;
    let octets = &TCPDUMP_NANO[40..85];
    assert!(rt; is_next(&mut capture, 1795338051276203733, 45, octets));
    assert!(rt; capture.next().is_none());
    assert!(rt; !capture.is_cut());

    let mut capture = Capture::open(TCPDUMP_MICRO)?;
    let octets = &TCPDUMP_MICRO[40..60];
    assert!(rt; is_next(&mut capture, 1795338094634761000, 45, octets));
    let octets = &TCPDUMP_MICRO[76..96];
    assert!(rt; is_next(&mut capture, 1795338094935005000, 42, octets));
    assert!(rt; capture.next().is_none());
    Ok(())
}
