//! The longest record.
use pcap::stream::Source;
use pcap::text::{put_header, put_record};
use std::alloc::{AllocError, Global};
use std::test::Fail;
use test_inputs::in_pieces;

/// The octets of the longest record.
const LONGEST: usize = 262_144;

/// A capture of one record, as long as they come, at the last moment that there is.
fn longest(alloc: Global) -> Result<Vec<u8>, Fail> {
    let body = vec![in alloc; 0xA5; LONGEST]?;
    let mut capture = Vec::new(alloc);
    put_header(&mut capture)?;
    put_record(
        &mut capture,
        4_294_967_295_999_999_999,
        b"",
        b"",
        b"",
        &body,
    )?;
    Ok(capture)
}

/// Whether a capture's first record is the longest, read at most so many octets at a time.
fn is_lent_whole(alloc: Global, capture: &[u8], most: usize) -> Result<bool, AllocError> {
    let mut source = Source::new(alloc, in_pieces(capture, most, 0), 1_000)?;
    if source.open().is_err() || source.fill().is_err() {
        return Ok(false);
    }
    Ok(match source.head() {
        Some(record) => record.octets.len() == LONGEST
            && record.octets.iter().all(|octet| *octet == 0xA5),
        None => false,
    })
}

#[test]
fn the_longest_record_is_lent_whole(rt: HostRuntime) -> Result<(), Fail> {
    let capture = longest(rt.alloc())?;
    for most in [4_096, 1_000_000] {
        let is_whole = is_lent_whole(rt.alloc(), &capture, most)?;
        assert!(rt; is_whole, "at most {most} octets a read");
    }
    Ok(())
}
