//! What is in captures.
use capture_survey::{Report, survey_capture};
use pcap::stream::Source;
use std::alloc::Global;
use std::test::Fail;
use test_inputs::{in_pieces, octets_of, three_cells};
use timeline::Tap;

/// Captures: what each is, its tap, its octets as words, and what is told of it, with a slash between two lines.
fn rows<'a>() -> &'a str {
    "\
no records | p1 | PCAP | p1: pcap little-endian nanoseconds ethernet, 0 records
one record | p1 | PCAP 01000000 05000000 01000000 01000000 07 | \
p1: pcap little-endian nanoseconds ethernet, 1 record, first 1.000000005, last 1.000000005
moments that rise | u | PCAP 01000000 05000000 00000000 00000000 02000000 00000000 00000000 00000000 | \
u: pcap little-endian nanoseconds ethernet, 2 records, first 1.000000005, last 2.000000000
one that stays, two earlier than the first | p1 | \
PCAP 02000000 00000000 00000000 00000000 02000000 00000000 00000000 00000000 \
01000000 05000000 00000000 00000000 01000000 06000000 00000000 00000000 | \
p1: pcap little-endian nanoseconds ethernet, 4 records, first 2.000000000, last 2.000000000/p1: 2 records earlier than one before them
one earlier than the one before it | p1 | \
PCAP 01000000 00000000 00000000 00000000 03000000 00000000 00000000 00000000 \
02000000 00000000 00000000 00000000 04000000 00000000 00000000 00000000 | \
p1: pcap little-endian nanoseconds ethernet, 4 records, first 1.000000000, last 4.000000000/p1: 1 record earlier than one before it
of 2 octets none, of 1 two, and a rest of 3 octets | p1 | \
A1B2C3D4 00020004 00000000 00000000 00000000 00000001 \
00000001 0007A120 00000000 00000002 00000001 0007A120 00000002 00000001 0708 000000 | \
p1: pcap big-endian microseconds ethernet, 2 records, first 1.500000000, last 1.500000000/p1: 1 record cut at capture/\
p1: ends in the middle of a record
a record without its last octet | p1 | D4C3B2A1 02000400 00000000 00000000 00000000 01000000 01000000 05000000 02000000 02000000 07 | \
p1: pcap little-endian microseconds ethernet, 0 records/p1: ends in the middle of a record
a frame of 65,535 octets | p1 | PCAP 01000000 00000000 FFFF0000 FFFF0000 00*65535 | \
p1: pcap little-endian nanoseconds ethernet, 1 record, first 1.000000000, last 1.000000000
a frame of 65,536 octets | p1 | PCAP 01000000 00000000 00000100 00000100 00*65535 00 | \
p1: pcap little-endian nanoseconds ethernet, 1 record, first 1.000000000, last 1.000000000/p1: 1 frame longer than 65535 octets
1 octet of 65,550 | u | PCAP 01000000 00000000 01000000 0E000100 00 | \
u: pcap little-endian nanoseconds ethernet, 1 record, first 1.000000000, last 1.000000000/u: 1 record cut at capture
a packet of 65,549 octets | u | PCAP 01000000 00000000 0D000100 0D000100 00*65535 00*14 | \
u: pcap little-endian nanoseconds ethernet, 1 record, first 1.000000000, last 1.000000000
packets of 65,550 octets | u | \
PCAP 01000000 00000000 0E000100 0E000100 00*65535 00*15 01000000 00000000 0E000100 00000000 00*65535 00*15 | \
u: pcap little-endian nanoseconds ethernet, 2 records, first 1.000000000, last 1.000000000/u: 2 packets longer than 65549 octets
raw IP | p1 | A1B2C3D4 00020004 00000000 00000000 00000000 00000065 | BadLink
version 2.3 | p1 | A1B2C3D4 00020003 00000000 00000000 00000000 00000001 | NotPcap
a header without its last octet | p1 | A1B2C3D4 00020004 00000000 00000000 00000000 000000 | NotPcap
262,145 octets captured in the second record | p1 | PCAP 01000000 05000000 00000000 00000000 01000000 05000000 01000400 00000000 | \
TooLarge 2
a second in the fraction of the first | p1 | PCAP 01000000 00CA9A3B 00000000 00000000 | BadFraction 1
"
}

/// The tap of a name.
fn tap_of(name: &str) -> Tap {
    if name == "u" {
        return Tap::Underlay;
    }
    Tap::Port(1)
}

/// What is told of a capture that is read at most 4,096 octets at a time, where the read of a number fails.
fn told(alloc: Global, tap: Tap, text: &[u8], fails_at: u64) -> Result<String, Fail> {
    let mut source = Source::new(alloc, in_pieces(text, 4096, fails_at), 1000)?;
    match survey_capture(&mut source, tap) {
        Ok(survey) => {
            let report = Report {
                tap,
                is_pcapng: false,
                left_out: 0,
                survey,
            };
            Ok(format!(in alloc; "{report}")?)
        }
        Err(fault) => Ok(format!(in alloc; "{fault}\n")?),
    }
}

/// Whether the lines are these, which stand with a slash between two.
fn are_lines(alloc: Global, lines: &str, expected: &str) -> Result<bool, Fail> {
    let mut text = String::new(alloc);
    for line in expected.split('/') {
        text.push_str(line)?;
        text.push_str("\n")?;
    }
    Ok(text.as_str() == lines)
}

/// Whether the capture of words at a tap is told so.
fn is_told(alloc: Global, tap: &str, words: &str, expected: &str) -> Result<bool, Fail> {
    let text = octets_of(alloc, words)?;
    let lines = told(alloc, tap_of(tap), text.as_slice(), 0)?;
    are_lines(alloc, lines.as_str(), expected)
}

#[test]
fn tells_what_is_in_a_capture(rt: HostRuntime) -> Result<(), Fail> {
    for row in rows().lines() {
        let (name, tap, rest) = three_cells(row)?;
        let (words, expected) = rest.split_once(" | ").ok_or("lines")?;
        assert!(rt; is_told(rt.alloc(), tap, words, expected)?, "{name}");
    }
    Ok(())
}

/// A capture of one record of one octet.
fn one_record<'a>() -> &'a str {
    "PCAP 01000000 05000000 01000000 01000000 07"
}

/// The whole capture takes a read, and its end another.
#[test]
fn tells_each_read_that_fails(rt: HostRuntime) -> Result<(), Fail> {
    let text = octets_of(rt.alloc(), one_record())?;
    for fails_at in 1..4 {
        let lines = told(rt.alloc(), Tap::Underlay, text.as_slice(), fails_at)?;
        let is_read = lines.as_str() == "Read\n";
        assert!(rt; is_read == (fails_at < 3), "{fails_at}");
    }
    Ok(())
}
