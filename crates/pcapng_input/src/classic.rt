//! The classic capture of a pcapng text.
ghost use Rattle.std.specs.Prelude.{◌≡◌, ◌<◌, ◌^◌, ◌++◌, length, IfOk, IfErr, IfSome, OnOk, Ok};
ghost use Rattle.pcap.specs.Record.{IsWithinLimits};
ghost use Rattle.pcap.specs.Written.{written_record};
ghost use Rattle.pcapng_input.specs.Classic.{IsErrorOf, classic_text, found_text};

use crate::block::{NextBlock, next_block};
use crate::context::Context;
use crate::fault::PcapngError;
use crate::interface::Selection;
use pcap::text::{Record, put_header, record_head};
use std::alloc::{AllocError, Global};

/// Adds a record.
pub fn put_packet(out: &mut Vec<u8>, packet: &Record<'_>) -> Result<(), AllocError>
    requires { IsWithinLimits packet.now }
    ensures { OnOk result (out.new.items ≡ out.old.items ++ written_record packet.now) }
{
    let captured = packet.octets.len() as u32;
    let head = record_head(packet.moment, captured, packet.original);
    out.extend_from_slice(&head)?;
    out.extend_from_slice(packet.octets)
}

/// Adds a record, if there is one.
fn put_found(out: &mut Vec<u8>, found: Option<Record<'_>>) -> Result<(), AllocError>
    requires { IfSome found IsWithinLimits }
    ensures { OnOk result (out.new.items ≡ out.old.items ++ found_text found.entry) }
{
    match found {
        Some(packet) => put_packet(out, &packet),
        None => Ok(()),
    }
}

/// The classic capture whose records are the packets of a pcapng text, in order, of the interfaces that are selected:
/// little-endian, in nanoseconds, link type Ethernet. Packets that the option `epb_flags` or `pack_flags` tells as outbound are
/// left out.
///
/// `Faulty`: the text's first fault. `OutOfMemory`: memory was refused. A text that ends within a block gives a capture
/// that ends within a record's header. A simple packet block has no moment: its record has that of the one before it,
/// and 1970 where there is none.
pub fn classic_of(
    alloc: Global,
    selection: Selection<'_>,
    text: &[u8],
) -> Result<Vec<u8>, PcapngError>
    ensures capture { IfOk result (λ capture. classic_text selection.entry text.now ≡ Ok capture.items) }
    ensures error { IfErr result (IsErrorOf (classic_text selection.entry text.now)) }
{
    let mut out = Vec::new(alloc);
    put_header(&mut out)?;
    let mut context = Context::new(alloc);
    let mut rest = text;
    loop {
        match next_block(context.order(), rest) {
            NextBlock::Another(block, behind) => {
                let found = match context.step(selection, &block) {
                    Ok(found) => found,
                    Err(error) => return Err(error),
                };
                put_found(&mut out, found)?;
                rest = behind;
            }
            NextBlock::AllRead => return Ok(out),
            NextBlock::CutShort => {
                out.push(0)?;
                return Ok(out);
            }
            NextBlock::Refused(fault) => return Err(PcapngError::Faulty(context.fault(fault))),
        }
    }
}
