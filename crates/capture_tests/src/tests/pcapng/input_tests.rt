//! Inputs of pcapng texts, read piece by piece.
ghost use Rattle.std.specs.Prelude.{◌≤◌, length, IfOk};

use crate::tests::pcapng::classic_tests::is_classic_of;
use crate::tests::pcapng::texts::{EDITED, EDITED_CLASSIC, PACKET_CLASSIC, ROWS, text_of};
use pcap::stream::{DeviceFault, Input};
use pcapng_input::{CaptureInput, PcapngFault, Selection};
use std::alloc::{AllocError, Global};
use std::test::Fail;
use test_inputs::capture_texts::LITTLE_NANO;
use test_inputs::{Pieces, in_pieces};

/// An input of a text that comes at most so many octets at a time; the read of this number fails, none where it is 0.
pub fn opened<'a>(
    alloc: Global,
    text: &'a [u8],
    selection: Selection<'a>,
    size: usize,
    fails_at: u64,
) -> Result<CaptureInput<'a, Pieces<'a>>, AllocError> {
    CaptureInput::new(alloc, in_pieces(text, size, fails_at), selection, 100_000)
}

/// One read.
fn read(input: &mut CaptureInput<'_, Pieces<'_>>, room: &mut [u8]) -> Result<usize, DeviceFault>
    ensures { IfOk result (λ n. n ≤ length room.new) }
{
    input.read(room)
}

/// The fault that an input met, as it prints: nothing where there is none.
fn fault_of(alloc: Global, input: &CaptureInput<'_, Pieces<'_>>) -> Result<String, AllocError> {
    printed(alloc, input.fault())
}

/// A fault as it prints, if there is one.
fn printed(alloc: Global, fault: Option<PcapngFault>) -> Result<String, AllocError> {
    match fault {
        Some(fault) => format!(in alloc; "{fault}"),
        None => Ok(String::new(alloc)),
    }
}

/// Adds what an input tells, asked for so many octets at once, and says whether it came to the end.
pub fn read_on(
    alloc: Global,
    input: &mut CaptureInput<'_, Pieces<'_>>,
    told: &mut Vec<u8>,
    size: usize,
) -> Result<bool, Fail> {
    let mut room = vec![in alloc; 0u8; size]?;
    for _read in 0..500_000 {
        match read(input, room.as_mut_slice()) {
            Ok(0) => return Ok(true),
            Ok(n) => told.extend_from_slice(&room[..n])?,
            Err(DeviceFault) => return Ok(false),
        }
    }
    Err(Fail::new("an end"))
}

/// Whether an input of a text tells this, by so many octets at a time, and then ends with this fault, as it prints: none
/// where that is empty.
fn tells(
    alloc: Global,
    text: &[u8],
    selection: Selection<'_>,
    size: usize,
    expected: &[u8],
    fault: &str,
) -> Result<bool, Fail> {
    let mut input = opened(alloc, text, selection, size, 0)?;
    let mut told = Vec::new(alloc);
    let is_whole = read_on(alloc, &mut input, &mut told, size)?;
    let met = fault_of(alloc, &input)?;
    Ok(is_whole == fault.is_empty() && told.as_slice() == expected && met.as_str() == fault)
}

/// Whether it tells that by each of these numbers of octets at a time.
fn tells_by(
    alloc: Global,
    text: &[u8],
    selection: Selection<'_>,
    sizes: &[usize],
    expected: &[u8],
    fault: &str,
) -> Result<bool, Fail> {
    for size in sizes {
        if !tells(alloc, text, selection, *size, expected, fault)? {
            return Ok(false);
        }
    }
    Ok(true)
}

/// Whether it tells that by 1, 7 and 4,096 octets at a time.
fn always_tells(
    alloc: Global,
    text: &[u8],
    selection: Selection<'_>,
    expected: &[u8],
    fault: &str,
) -> Result<bool, Fail> {
    tells_by(alloc, text, selection, &[1, 7, 4096], expected, fault)
}

/// Whether a whole text tells that by so many octets at a time, and by a million.
fn tells_long(
    alloc: Global,
    text: &[u8],
    size: usize,
    expected: &[u8],
    fault: &str,
) -> Result<bool, Fail> {
    tells_by(
        alloc,
        text,
        Selection::All,
        &[size, 1_000_000],
        expected,
        fault,
    )
}

/// In memory, and piece by piece.
#[test]
fn reads_what_editcap_reads(rt: HostRuntime) -> Result<(), Fail> {
    for (text, selection, classic, name) in ROWS {
        let text = text_of(rt.alloc(), text)?;
        let classic = text_of(rt.alloc(), classic)?;
        let (text, classic) = (text.as_slice(), classic.as_slice());
        assert!(rt;
            is_classic_of(rt.alloc(), classic, selection, text)?,
            "{name}"
        );
        assert!(rt;
            always_tells(rt.alloc(), text, selection, classic, "")?,
            "{name}, by pieces"
        );
    }
    Ok(())
}

#[test]
fn tells_other_texts_as_they_are(rt: HostRuntime) -> Result<(), Fail> {
    for (text, name) in [
        (EDITED_CLASSIC, "a classic capture"),
        ("0A0D0D", "three octets"),
        ("", "nothing"),
    ] {
        let text = text_of(rt.alloc(), text)?;
        let text = text.as_slice();
        assert!(rt;
            always_tells(rt.alloc(), text, Selection::All, text, "")?,
            "{name}"
        );
    }
    Ok(())
}

/// Where the packets of one interface are asked for, a classic capture is refused.
#[test]
fn takes_one_interface_of_pcapng_alone(rt: HostRuntime) -> Result<(), Fail> {
    let text = text_of(rt.alloc(), EDITED_CLASSIC)?;
    let one = Selection::Number(0);
    let fault = "block 1 at octet 0: NoSection";
    assert!(rt; always_tells(rt.alloc(), text.as_slice(), one, LITTLE_NANO, fault)?);
    Ok(())
}

/// A packet of an interface that wasn't described stands behind one that is told.
#[test]
fn tells_what_stands_in_front_of_a_fault(rt: HostRuntime) -> Result<(), Fail> {
    let text = text_of(rt.alloc(), "SECTION INTERFACE PACKET SECTION PACKET")?;
    let expected = text_of(rt.alloc(), PACKET_CLASSIC)?;
    let fault = "block 5 at octet 112: UnknownInterface";
    assert!(rt;
        always_tells(
            rt.alloc(),
            text.as_slice(),
            Selection::All,
            expected.as_slice(),
            fault
        )?
    );
    Ok(())
}

/// Adds a number of a little-endian section.
fn put_number(text: &mut Vec<u8>, number: u32) -> Result<(), AllocError> {
    text.extend_from_slice(&number.to_le_bytes())
}

/// Adds so many octets, which are 7.
fn put_sevens(text: &mut Vec<u8>, count: usize) -> Result<(), AllocError> {
    text.resize(text.len().saturating_add(count), 7)
}

/// A section, an interface, a block of type 5 with 400,000 octets and this second length, and a packet.
fn with_long_block(alloc: Global, second_length: u32) -> Result<Vec<u8>, Fail> {
    let mut text = text_of(alloc, "SECTION INTERFACE")?;
    put_number(&mut text, 5)?;
    put_number(&mut text, 400_000)?;
    put_sevens(&mut text, 399_988)?;
    put_number(&mut text, second_length)?;
    text.append(&mut text_of(alloc, "PACKET")?)?;
    Ok(text)
}

/// The block has more than there is room for, and a packet stands behind it.
#[test]
fn passes_over_a_long_block(rt: HostRuntime) -> Result<(), Fail> {
    let fault = "block 3 at octet 48: BadLength";
    for (second_length, expected, fault) in [
        (400_000, PACKET_CLASSIC, ""),
        (400_004, "PCAP", fault),
    ] {
        let text = with_long_block(rt.alloc(), second_length)?;
        let expected = text_of(rt.alloc(), expected)?;
        assert!(rt;
            tells_long(
                rt.alloc(),
                text.as_slice(),
                4096,
                expected.as_slice(),
                fault
            )?
        );
    }
    Ok(())
}

/// A section, an interface, a packet, and one of so many octets at 1970, which are 7.
fn with_packet_of(alloc: Global, size: u32) -> Result<Vec<u8>, Fail> {
    let length = size.wrapping_add(32);
    let mut text = text_of(alloc, "SECTION INTERFACE PACKET")?;
    for number in [6, length, 0, 0, 0, size, size] {
        put_number(&mut text, number)?;
    }
    put_sevens(&mut text, size as usize)?;
    put_number(&mut text, length)?;
    Ok(text)
}

/// The classic capture of such a text.
fn packet_of_classic(alloc: Global, size: u32) -> Result<Vec<u8>, Fail> {
    let mut text = text_of(alloc, PACKET_CLASSIC)?;
    for number in [0, 0, size, size] {
        put_number(&mut text, number)?;
    }
    put_sevens(&mut text, size as usize)?;
    Ok(text)
}

/// Each packet is longer than those before it; the last one is the longest that is taken.
#[test]
fn takes_longer_packets_behind_shorter_ones(rt: HostRuntime) -> Result<(), Fail> {
    for octets in [1500, 262_144] {
        let text = with_packet_of(rt.alloc(), octets)?;
        let expected = packet_of_classic(rt.alloc(), octets)?;
        assert!(rt; tells_long(rt.alloc(), text.as_slice(), 4093, expected.as_slice(), "")?);
    }
    Ok(())
}

/// Whether all of a text is told where the read of this number fails, by reads on both sides of it.
fn goes_on(alloc: Global, fails_at: u64) -> Result<bool, Fail> {
    let text = text_of(alloc, EDITED)?;
    let expected = text_of(alloc, EDITED_CLASSIC)?;
    let mut input = opened(alloc, text.as_slice(), Selection::All, 7, fails_at)?;
    let mut told = Vec::new(alloc);
    let has_ended = read_on(alloc, &mut input, &mut told, 7)?;
    let fault = fault_of(alloc, &input)?;
    let is_whole = read_on(alloc, &mut input, &mut told, 7)?;
    let is_told = told.as_slice() == expected.as_slice();
    Ok(!has_ended && fault.is_empty() && is_whole && is_told)
}

/// A read that failed takes nothing: it goes on with the next.
#[test]
fn goes_on_behind_a_read_that_failed(rt: HostRuntime) -> Result<(), Fail> {
    for fails_at in [1, 2, 5, 9] {
        assert!(rt; goes_on(rt.alloc(), fails_at)?, "read {fails_at}");
    }
    Ok(())
}

/// The first read tells the format, the second takes all, and the third fails: no octet that was read waits for it.
#[test]
fn tells_what_was_read_in_front_of_a_read_that_failed(rt: HostRuntime) -> Result<(), Fail> {
    let text = text_of(rt.alloc(), EDITED)?;
    let expected = text_of(rt.alloc(), EDITED_CLASSIC)?;
    let mut input = opened(rt.alloc(), text.as_slice(), Selection::All, 1_000_000, 3)?;
    let mut told = Vec::new(rt.alloc());
    let has_ended = read_on(rt.alloc(), &mut input, &mut told, 4096)?;
    assert!(rt; !has_ended);
    assert!(rt; told.as_slice() == expected.as_slice());
    Ok(())
}
