//! Captures over memory, a few octets at a time, and over inputs that fail.
ghost use Rattle.std.specs.Prelude.{◌≡◌, ◌≢◌};
ghost use Rattle.pcap.specs.Source.{New};

use pcap::stream::{Input, Source, SourceFault};
use pcap::text::Record;
use std::alloc::{AllocError, Global};
use std::fmt::Write;
use std::test::Fail;
use test_inputs::capture_texts::{
    BIG_MICRO, BIG_RAW_IP, BIG_RECORD, LITTLE_NANO, LITTLE_RECORD, TWO_RECORDS,
};
use test_inputs::{Pieces, going_on, in_pieces};

/// Puts the moment, octets and original length of a record.
fn put_lent(words: &mut String, record: Record<'_>) -> Result<(), AllocError> {
    write!(
        words,
        "{} {:?} of {}, ",
        record.moment, record.octets, record.original
    )
}

/// Puts each record that is lent; how they end.
fn put_records<R: Input>(
    words: &mut String,
    source: &mut Source<R>,
) -> Result<Result<(), SourceFault>, AllocError>
    requires { source.old.standing ≢ New }
    ensures { source.new.standing ≢ New }
{
    for _ in 0..100u8 {
        if let Err(fault) = source.fill() {
            return Ok(Err(fault));
        }
        match source.head() {
            Some(record) => put_lent(words, record)?,
            None => break,
        }
    }
    Ok(Ok(()))
}

/// Puts how the records end. The fault has to come again, with no record, and at the end nothing more may come.
fn put_end<R: Input>(
    words: &mut String,
    source: &mut Source<R>,
    answered: Result<(), SourceFault>,
) -> Result<(), AllocError>
    requires { source.old.standing ≢ New }
{
    match answered {
        Ok(()) => words.push_str(if source.is_cut() { "cut" } else { "end" })?,
        Err(fault) => write!(words, "{fault}")?,
    }
    if source.head().is_some() || source.fill() != answered || source.head().is_some() {
        words.push_str(", and then another answer")?;
    }
    Ok(())
}

/// A capture in words: the records that are lent, and how they end.
fn told<R: Input>(alloc: Global, source: &mut Source<R>) -> Result<String, AllocError>
    requires { source.old.standing ≡ New }
{
    let mut words = String::new(alloc);
    let mut answered = source.open();
    if answered.is_ok() {
        answered = put_records(&mut words, source)?;
    }
    put_end(&mut words, source, answered)?;
    Ok(words)
}

/// Whether a text is told so in pieces of so many octets, of which so many are read at most, where a read fails.
fn is_told(
    alloc: Global,
    pieces: Pieces<'_>,
    reads: u64,
    expected: &str,
) -> Result<bool, AllocError> {
    let mut source = Source::new(alloc, pieces, reads)?;
    Ok(told(alloc, &mut source)?.as_str() == expected)
}

/// Whether a header and a text behind it are told so, in pieces of one octet, of seven and of all.
fn are_told(
    alloc: Global,
    header: &[u8],
    behind: &[u8],
    expected: &str,
) -> Result<bool, AllocError> {
    let mut text = Vec::from_slice(alloc, header)?;
    text.extend_from_slice(behind)?;
    for most in [1, 7, 4096] {
        if !is_told(alloc, in_pieces(&text, most, 0), 1000, expected)? {
            return Ok(false);
        }
    }
    Ok(true)
}

/// Headers and texts behind them, and what is told of them.
const CAPTURES: [(&[u8], &[u8], &str); 10] = [
    (b"", b"", "NotPcap"),
    (
        b"\x4D\x3C\xB2\xA1\x02\0\x04\0\0\0\0\0\0\0\0\0\0\0\x04\0\x01\0\0",
        b"",
        "NotPcap",
    ),
    // raw IP
    (BIG_RAW_IP, b"", "BadLink"),
    (LITTLE_NANO, b"", "end"),
    // second 1, fraction 500,000, in microseconds and in nanoseconds, of three octets two
    (BIG_MICRO, BIG_RECORD, "1500000000 [7, 8] of 3, end"),
    (LITTLE_NANO, LITTLE_RECORD, "1000500000 [7, 8] of 3, end"),
    // a rest that is no whole record behind a whole one: in its header, and in its octets
    (
        BIG_MICRO,
        b"\0\0\0\x01\0\x07\xA1\x20\0\0\0\x02\0\0\0\x03\x07\x08\0",
        "1500000000 [7, 8] of 3, cut",
    ),
    (
        BIG_MICRO,
        b"\0\0\0\x01\0\x07\xA1\x20\0\0\0\x02\0\0\0\x03\x07\x08\0\0\0\x01\0\x07\xA1\x20\0\0\0\x02\0\0\0\x03\x07",
        "1500000000 [7, 8] of 3, cut",
    ),
    // captured 262,145, also with too great a fraction; 1,000,000 microseconds, with a record behind
    (
        BIG_MICRO,
        b"\0\0\0\x01\xFF\xFF\xFF\xFF\0\x04\0\x01\0\0\0\0",
        "TooLarge",
    ),
    (
        BIG_MICRO,
        b"\0\0\0\x01\0\x0F\x42\x3F\0\0\0\0\0\0\0\x09\0\0\0\x01\0\x0F\x42\x40\0\0\0\0\0\0\0\0\0\0\0\0\0\0\0\0\0\0\0\0\0\0\0\0",
        "1999999000 [] of 9, BadFraction",
    ),
];

#[test]
fn lends_the_records_in_any_pieces(rt: HostRuntime) -> Result<(), Fail> {
    for (header, behind, expected) in &CAPTURES {
        let are_told = are_told(rt.alloc(), header, behind, expected)?;
        assert!(rt; are_told, "{behind:?} are {expected}");
    }
    Ok(())
}

// One record, at second 1, of octet 6, and a rest of three octets.
const ONE_AND_CUT: &[u8] = b"\xA1\xB2\xC3\xD4\0\x02\0\x04\0\0\0\0\0\0\0\0\0\0\xFF\xFF\0\0\0\x01\
\0\0\0\x01\0\0\0\0\0\0\0\x01\0\0\0\x01\x06\0\0\0";

/// What is told of each capture where the n-th read fails, each read of seven octets, for the last such n. A read is made
/// only for what wasn't read yet. The header ends at octet 24, which the fourth read brings; the two records at octets 43
/// and 60, which the seventh and the ninth bring; the record before the rest at octet 41, which the sixth brings, and the
/// rest at octet 44, which the seventh brings. One more read finds the end.
const FAILING: [(&[u8], u64, &str); 8] = [
    (TWO_RECORDS, 4, "Read"),
    (TWO_RECORDS, 7, "Read"),
    (TWO_RECORDS, 9, "1000000005 [7, 8, 9] of 3, Read"),
    (
        TWO_RECORDS,
        10,
        "1000000005 [7, 8, 9] of 3, 2000000000 [4] of 1, Read",
    ),
    (
        TWO_RECORDS,
        11,
        "1000000005 [7, 8, 9] of 3, 2000000000 [4] of 1, end",
    ),
    (ONE_AND_CUT, 6, "Read"),
    (ONE_AND_CUT, 8, "1000000000 [6] of 1, Read"),
    (ONE_AND_CUT, 9, "1000000000 [6] of 1, cut"),
];

/// The first read of these that is told in other words where it fails.
fn wrong_read(
    alloc: Global,
    text: &[u8],
    first: u64,
    last: u64,
    expected: &str,
) -> Result<Option<u64>, AllocError> {
    for n in first..=last {
        if !is_told(alloc, in_pieces(text, 7, n), 1000, expected)? {
            return Ok(Some(n));
        }
    }
    Ok(None)
}

#[test]
fn tells_each_read_that_fails(rt: HostRuntime) -> Result<(), Fail> {
    let mut first = 1;
    for (text, last, expected) in &FAILING {
        if *last < first {
            first = 1;
        }
        let wrong = wrong_read(rt.alloc(), text, first, *last, expected)?;
        assert_eq!(rt; wrong, None);
        first = last.saturating_add(1);
    }
    Ok(())
}

/// How many records are lent before a read fails, 2,000 at most.
fn lent_by<R: Input>(source: &mut Source<R>) -> u16
    requires { source.old.standing ≢ New }
    ensures { source.new.standing ≢ New }
{
    for lent in 0..2000u16 {
        if source.fill() == Err(SourceFault::Read) {
            return lent;
        }
    }
    2000
}

/// Whether so many records are lent in so many reads, and none behind them, by a global header and zero octets without end
/// behind it, which are records of length 0. It gives one octet a read.
fn lends(alloc: Global, reads: u64, lent: u16) -> Result<bool, AllocError> {
    let endless = going_on(in_pieces(LITTLE_NANO, 1, 0), true);
    let mut source = Source::new(alloc, endless, reads)?;
    Ok(source.open().is_ok() && lent_by(&mut source) == lent && source.head().is_none())
}

/// Whether a capture of two records is opened so, an octet a read, in so many reads, with none left.
fn is_opened(
    alloc: Global,
    reads: u64,
    opened: Result<(), SourceFault>,
) -> Result<bool, AllocError> {
    let mut source = Source::new(alloc, in_pieces(TWO_RECORDS, 1, 0), reads)?;
    Ok(source.open() == opened && source.fill() == Err(SourceFault::Read))
}

/// 1,000 reads of an octet are the header and 61 records; the 62nd would need the 1,001st. A header takes as many reads as
/// it has octets.
#[test]
fn ends_an_endless_capture_at_the_bound(rt: HostRuntime) -> Result<(), Fail> {
    for (reads, lent) in [(1000, 61), (1015, 61), (1016, 62)] {
        let lends = lends(rt.alloc(), reads, lent)?;
        assert!(rt; lends, "{lent} records in {reads} reads");
    }
    for reads in 0..24 {
        let is_refused = is_opened(rt.alloc(), reads, Err(SourceFault::Read))?;
        assert!(rt; is_refused, "{reads} reads");
    }
    assert!(rt; is_opened(rt.alloc(), 24, Ok(()))?, "24 reads");
    Ok(())
}

/// Whether ten octets, five a read, are refused so in so many reads.
fn is_refused(alloc: Global, reads: u64, fault: SourceFault) -> Result<bool, AllocError> {
    let ten = b"\xA1\xB2\xC3\xD4\0\x02\0\x04\0\0";
    let mut source = Source::new(alloc, in_pieces(ten, 5, 0), reads)?;
    Ok(source.open() == Err(fault))
}

/// Where the last read finds the end, the end is told; with one read fewer, one more was needed. Ten octets take two
/// reads of five, and the end one more; two records, 60 octets, take nine of seven, and the end one more.
#[test]
fn finds_the_end_with_its_last_read(rt: HostRuntime) -> Result<(), Fail> {
    assert!(rt; is_refused(rt.alloc(), 2, SourceFault::Read)?);
    assert!(rt; is_refused(rt.alloc(), 3, SourceFault::NotPcap)?);
    for (reads, expected) in [
        (9, "1000000005 [7, 8, 9] of 3, 2000000000 [4] of 1, Read"),
        (10, "1000000005 [7, 8, 9] of 3, 2000000000 [4] of 1, end"),
    ] {
        let pieces = in_pieces(TWO_RECORDS, 7, 0);
        let is_told = is_told(rt.alloc(), pieces, reads, expected)?;
        assert!(rt; is_told, "{reads} reads");
    }
    Ok(())
}
