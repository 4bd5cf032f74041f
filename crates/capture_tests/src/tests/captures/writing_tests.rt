//! Captures that are written, and read again.
use pcap::text::{Capture, Record, put_header, put_record};
use std::alloc::{AllocError, Global};
use std::test::Fail;

/// A header; a record of a tagged frame at 1.5 seconds, in four parts; a record of nothing at the last moment.
const WRITTEN: &[u8] = b"\x4D\x3C\xB2\xA1\x02\0\x04\0\0\0\0\0\0\0\0\0\0\0\x04\0\x01\0\0\0\
\x01\0\0\0\0\x65\xCD\x1D\x0A\0\0\0\x0A\0\0\0\x01\x02\x03\x04\x81\0\0\x0A\x08\x06\
\xFF\xFF\xFF\xFF\xFF\xC9\x9A\x3B\0\0\0\0\0\0\0\0";

/// Whether what is written is so many octets of it.
fn are_written(out: &[u8], length: usize) -> bool {
    Some(out) == WRITTEN.get(..length)
}

#[test]
fn writes_little_endian_nanoseconds(rt: HostRuntime) -> Result<(), Fail> {
    let mut out = Vec::new(rt.alloc());
    put_header(&mut out)?;
    assert!(rt; are_written(&out, 24), "the header");
    put_record(
        &mut out,
        1_500_000_000,
        b"\x01",
        b"\x02\x03\x04",
        b"\x81\0\0\x0A",
        b"\x08\x06",
    )?;
    assert!(rt; are_written(&out, 50), "a record in four parts");
    put_record(&mut out, 4_294_967_295_999_999_999, b"", b"", b"", b"")?;
    assert!(rt; are_written(&out, WRITTEN.len()), "a record of nothing");
    Ok(())
}

/// A capture of one record, as long as they come.
fn longest(alloc: Global) -> Result<Vec<u8>, AllocError> {
    let body = vec![in alloc; 0xA5; 262_132]?;
    let mut out = Vec::new(alloc);
    put_header(&mut out)?;
    put_record(&mut out, 7, b"", &[1; 12], b"", &body)?;
    Ok(out)
}

/// Whether a record is that one.
fn is_longest(record: &Record) -> bool {
    record.moment == 7
        && record.original == 262_144
        && record.octets.len() == 262_144
        && record
            .octets
            .starts_with(b"\x01\x01\x01\x01\x01\x01\x01\x01\x01\x01\x01\x01\xA5")
        && record.octets.last() == Some(&0xA5)
}

#[test]
fn writes_and_reads_the_longest_record(rt: HostRuntime) -> Result<(), Fail> {
    let text = longest(rt.alloc())?;
    let mut capture = Capture::open(&text)?;
    let Some(Ok(record)) = capture.next() else {
        panic!(rt; "no record");
    };
    assert!(rt; is_longest(&record));
    assert!(rt; capture.next().is_none());
    Ok(())
}
