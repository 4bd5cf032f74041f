//! Packets that are told as outbound: they are left out and counted.
use crate::tests::pcapng::classic_tests::is_classic_of;
use crate::tests::pcapng::input_tests::{opened, read_on};
use crate::tests::pcapng::texts::{PACKET_CLASSIC, text_of};
use pcapng_input::Selection;
use std::alloc::Global;
use std::test::Fail;

/// How many packets an input of a text left out in the end, by so many octets at a time, where it tells the classic capture
/// of one packet.
fn left_out(alloc: Global, text: &[u8], size: usize) -> Result<Option<u64>, Fail> {
    let mut input = opened(alloc, text, Selection::All, size, 0)?;
    let mut told = Vec::new(alloc);
    let is_whole = read_on(alloc, &mut input, &mut told, size)?;
    let expected = text_of(alloc, PACKET_CLASSIC)?;
    let is_told = is_whole && told.as_slice() == expected.as_slice();
    Ok(is_told.then_some(input.left_out()))
}

/// Two packets are outbound, one in front of the packet that is taken and one behind it.
#[test]
fn leaves_out_and_counts_outbound_packets(rt: HostRuntime) -> Result<(), Fail> {
    let text = text_of(rt.alloc(), "SECTION INTERFACE OUTBOUND PACKET OUTBOUND")?;
    let text = text.as_slice();
    let expected = text_of(rt.alloc(), PACKET_CLASSIC)?;
    assert!(rt; is_classic_of(rt.alloc(), expected.as_slice(), Selection::All, text)?);
    for size in [1, 7, 4096] {
        assert_eq!(rt; left_out(rt.alloc(), text, size)?, Some(2), "by {size}");
    }
    Ok(())
}
