//! What is made of the octets that were read of a block.
ghost use Rattle.std.specs.Prelude.{◌≡◌, ◌≤◌, ◌<◌, ◌+◌, ◌^◌, [], length, IfErr, OnErr, OnOk};
ghost use Rattle.pcap.specs.Record.{IsWithinLimits};
ghost use Rattle.pcap.specs.Written.{written_record};
ghost use Rattle.pcapng_input.specs.Block.{longest_block, order_at};
ghost use Rattle.pcapng_input.specs.Classic.{found_text};
ghost use Rattle.pcapng_input.specs.Context.{IsStepError, IsTakenAs};
ghost use Rattle.pcapng_input.specs.Meaning.{IsMeantWithinLimits};
ghost use Rattle.pcapng_input.specs.Reading.{record_meant, step_of};
ghost use Rattle.pcapng_input.specs.State.{IsSettled, size_wanted, wanted_size, wanting_by};

use crate::block::{Block, EMPTY_BLOCK, LONGEST_BLOCK, NextBlock, next_block, order_at};
use crate::context::Context;
use crate::fault::{PcapngError, PcapngFault};
use crate::interface::Selection;
use crate::meaning::BlockMeaning;
use crate::number::number4;
use crate::ready::Ready;
use pcap::text::{Order, Record, record_head};
use std::alloc::AllocError;

/// What is made of the octets that were read of a block.
#[derive(Clone, Copy)]
pub enum Settled {
    /// More of them are wanted.
    Unfinished,
    /// The block has more than there is room for, and is passed over.
    Long { order: Order, size: usize },
    /// It was taken. Its record is ready, if it has one.
    Taken,
    /// The text ends here. What tells that it is cut is ready, if it is.
    Ended,
    /// The block has a fault.
    Refused(PcapngFault),
    /// Memory was refused.
    NoMemory,
}

/// How many octets of a block are wanted, by the length that its first 12 tell.
fn size_wanted(size: usize) -> usize
    ensures { result ≡ size_wanted size }
{
    if size < EMPTY_BLOCK {
        return EMPTY_BLOCK;
    }
    size
}

/// How many octets of a block are wanted, by those that were read of it.
#[tactic(auto, unfolding(crate::specs::State::wanted_size))]
pub fn wanted(section: Option<Order>, held: &[u8]) -> usize
    ensures { result ≡ wanted_size section held.now }
{
    if held.len() < EMPTY_BLOCK {
        return EMPTY_BLOCK;
    }
    match order_at(section, held) {
        None => EMPTY_BLOCK,
        Some(order) => size_wanted(number4(order, &held[4..]) as usize),
    }
}

/// Makes a record ready. Where memory is refused, nothing is ready.
fn put_packet(ready: &mut Ready, packet: &Record<'_>) -> Result<(), AllocError>
    requires { IsWithinLimits packet.now }
    ensures ok { OnOk result (ready.new ≡ written_record packet.now) }
    ensures err { OnErr result (ready.new ≡ []) }
{
    let captured = packet.octets.len() as u32;
    let header = record_head(packet.moment, captured, packet.original);
    ready.put_record(&header, packet.octets)
}

/// Makes the record of a block that means this ready, if it has one.
fn put_meant(ready: &mut Ready, meant: &BlockMeaning<'_>) -> Result<(), AllocError>
    requires limits { IsMeantWithinLimits meant.now }
    requires empty { ready.old ≡ [] }
    ensures ok { OnOk result (ready.new ≡ found_text (record_meant meant.now)) }
    ensures err { OnErr result (ready.new ≡ []) }
{
    match meant {
        BlockMeaning::Packet(packet) => put_packet(ready, packet),
        _ => Ok(()),
    }
}

/// Goes on behind a block, and makes its record ready, if it has one that is selected. After an error nothing has changed.
#[tactic(auto, unfolding(crate::specs::Reading::step_of))]
fn take(
    selection: Selection<'_>,
    context: &mut Context,
    ready: &mut Ready,
    block: &Block<'_>,
) -> Result<(), PcapngError>
    requires empty { ready.old ≡ [] }
    requires blocks { context.old.blocks + 1 < 2 ^ 64 }
    requires offset { context.old.offset + (12 + length block.now.body) < 2 ^ 64 }
    ensures taken { OnOk result (IsTakenAs context.new ready.new (step_of selection.entry context.old block.now)) }
    ensures blocks { OnOk result (context.new.blocks ≡ context.old.blocks + 1) }
    ensures offset { OnOk result (context.new.offset ≡ context.old.offset + (12 + length block.now.body)) }
    ensures fault { IfErr result (IsStepError (step_of selection.entry context.old block.now) context.old) }
    ensures context { OnErr result (context.new ≡ context.old) }
    ensures ready { OnErr result (ready.new ≡ []) }
{
    let meant = match context.meaning(selection, block) {
        Ok(meant) => meant,
        Err(fault) => return Err(PcapngError::Faulty(fault)),
    };
    put_meant(ready, &meant)?;
    context.go_on(block, &meant)?;
    Ok(())
}

/// Where more of a block is wanted than was read of it.
fn unfinished(section: Option<Order>, held: &[u8]) -> Settled
    requires { 12 ≤ length held.now }
    ensures { result ≡ wanting_by (order_at section held.now) held.now }
{
    let Some(order) = order_at(section, held) else {
        return Settled::Unfinished;
    };
    let size = number4(order, &held[4..]) as usize;
    if size > LONGEST_BLOCK {
        return Settled::Long { order, size };
    }
    Settled::Unfinished
}

/// What is made of the octets that were read of a block. There is nothing behind them where `is_more` is false.
pub fn settle(
    selection: Selection<'_>,
    context: &mut Context,
    ready: &mut Ready,
    held: &[u8],
    is_more: bool,
) -> Settled
    requires empty { ready.old ≡ [] }
    requires size { length held.now ≤ longest_block }
    requires part { length held.now ≤ wanted_size context.old.order held.now }
    requires blocks { context.old.blocks + 1 < 2 ^ 64 }
    requires offset { context.old.offset + length held.now < 2 ^ 64 }
    ensures { IsSettled selection.entry context.old context.new held.now ready.new is_more result }
{
    if is_more && held.len() < EMPTY_BLOCK {
        return Settled::Unfinished;
    }
    match next_block(context.order(), held) {
        NextBlock::Another(block, _) => match take(selection, context, ready, &block) {
            Ok(()) => Settled::Taken,
            Err(PcapngError::Faulty(fault)) => Settled::Refused(fault),
            Err(PcapngError::OutOfMemory) => Settled::NoMemory,
        },
        NextBlock::AllRead => Settled::Ended,
        NextBlock::CutShort => {
            if is_more {
                return unfinished(context.order(), held);
            }
            ready.put(&[0]);
            Settled::Ended
        }
        NextBlock::Refused(fault) => Settled::Refused(context.fault(fault)),
    }
}
