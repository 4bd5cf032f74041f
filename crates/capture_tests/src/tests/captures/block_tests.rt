//! Captures written in blocks, to outputs that take little, and to outputs that fail once.
use crate::tests::captures::sink_tests::put_two;
use pcap::stream::{BlockOutput, Output, Sink};
use std::alloc::{AllocError, Global};
use std::test::Fail;
use test_inputs::Room;
use test_inputs::capture_texts::TWO_RECORDS;

/// Whether two records, 60 octets, are written in blocks of this size, by at most seven octets a call. Where the n-th call
/// fails, what was handed on before and behind it is a front of them in order, and all of them if none was refused.
fn writes_two(alloc: Global, size: usize, n: u64) -> Result<bool, AllocError> {
    let mut sink = Sink::new(BlockOutput::new(alloc, Room::new(alloc, 7, n, true), size)?);
    let is_put = put_two(&mut sink).is_ok();
    let mut blocks = sink.into_inner();
    let is_handed_on = blocks.finish().is_ok() || blocks.finish().is_ok();
    let written = blocks.into_inner().octets;
    let is_front = TWO_RECORDS.starts_with(written.as_slice());
    Ok(is_handed_on && is_front && (!is_put || written.len() == 60))
}

#[test]
fn writes_in_blocks(rt: HostRuntime) -> Result<(), Fail> {
    for size in [0, 1, 7, 24, 4096] {
        for n in 0..14 {
            let is_well = writes_two(rt.alloc(), size, n)?;
            assert!(rt; is_well, "blocks of {size}, call {n} fails");
        }
    }
    Ok(())
}

/// How many of 20,000 octets go on where they are written in pieces of this length, in blocks of this size, and others
/// than these do never.
fn gone_on(
    alloc: Global,
    size: usize,
    piece: usize,
    is_finished: bool,
) -> Result<Option<usize>, AllocError> {
    let mut text = Vec::with_capacity(alloc, 20_000)?;
    for i in 0..20_000u32 {
        text.push((i % 251) as u8)?;
    }
    let mut blocks = BlockOutput::new(alloc, Room::new(alloc, 10_000, 0, false), size)?;
    for part in text.chunks(piece.max(1)) {
        if blocks.write_all(part).is_err() {
            return Ok(None);
        }
    }
    if is_finished && blocks.finish().is_err() {
        return Ok(None);
    }
    let written = blocks.into_inner().octets;
    Ok(
        text.starts_with(written.as_slice())
            .then_some(written.len()),
    )
}

#[test]
fn hands_on_full_blocks_alone(rt: HostRuntime) -> Result<(), Fail> {
    let cases = [
        (0, 1_000, 20_000),
        (999, 1_000, 20_000),
        (4_096, 1_000, 16_000),
        (4_096, 10, 16_360),
        (9_999, 5_000, 15_000),
        (10_000, 2_500, 10_000),
        (10_000, 5_000, 10_000),
        (10_000, 1, 10_000),
        (65_536, 5_000, 0),
        (20_000, 1, 0),
        (19_999, 1, 19_999),
    ];
    for (size, piece, gone) in &cases {
        assert_eq!(rt; gone_on(rt.alloc(), *size, *piece, false)?, Some(*gone));
        assert_eq!(rt; gone_on(rt.alloc(), *size, *piece, true)?, Some(20_000));
    }
    Ok(())
}
