//! What blocks mean.
//!
//! Faults of a packet whose interface isn't selected aren't told, but for those of its block and of its interface's number: the
//! capture of a whole switch may have interfaces that aren't Ethernet. "The packet before" of a simple packet block is the last
//! one that is taken, in any section.
ghost use Rattle.std.specs.Prelude.{◌≡◌, ◌≤◌, length, drop, IfOk, IfSome};
ghost use Rattle.pcap.specs.Record.{IsWithinLimits, last_moment, longest};
ghost use Rattle.pcapng_input.specs.Meaning.{IsMeantWithinLimits, behind_octets, block_meaning, head_in};
ghost use Rattle.pcapng_input.specs.Meaning.{head_size, interface_in, interface_named, is_outbound};
ghost use Rattle.pcapng_input.specs.Meaning.{packet_in, packet_meaning, record_meaning, section_in};

use crate::block::{
    Block, INTERFACE_DESCRIPTION, OBSOLETE_PACKET, SECTION_HEADER, SIMPLE_PACKET, is_of_packet,
};
use crate::fault::BlockFault;
use crate::interface::{Interface, Selection, described};
use crate::number::number2;
use crate::packet::{
    PacketHead, SIMPLE_HEAD, TIMED_HEAD, enhanced_head, is_outbound_in, obsolete_head,
    packet_record, simple_head,
};
use pcap::text::Record;

/// The interfaces of a section at most.
const MOST_INTERFACES: usize = 4096;

/// The octets of a section header's body without its options.
const SECTION_BODY: usize = 16;

/// What a block means.
#[derive(Drop)]
pub enum BlockMeaning<'a> {
    /// A section begins, in the block's byte order.
    Section,
    /// An interface is described.
    Described(Interface),
    /// A packet of an interface that is selected.
    Packet(Record<'a>),
    /// An outbound packet of such an interface, which is left out.
    Outbound,
    /// Nothing that a classic capture tells.
    Nothing,
}

impl<'a> BlockMeaning<'a> {
    ghost use Rattle.pcapng_input.specs.Reading.{record_meant};

    /// The record that is meant, if any.
    pub fn record(self) -> Option<Record<'a>>
        ensures { result ≡ record_meant self.entry }
    {
        match self {
            BlockMeaning::Packet(record) => Some(record),
            _ => None,
        }
    }
}

/// The meaning of a section header.
#[tactic(auto, unfolding(crate::specs::Meaning::section_in))]
fn section_in<'a>(block: &Block<'a>) -> Result<BlockMeaning<'a>, BlockFault>
    ensures value { result ≡ section_in block.now }
    ensures limits { IfOk result IsMeantWithinLimits }
{
    if block.body.len() < SECTION_BODY {
        return Err(BlockFault::ShortBlock);
    }
    if number2(block.order, &block.body[4..]) != 1 {
        return Err(BlockFault::BadVersion);
    }
    Ok(BlockMeaning::Section)
}

/// The meaning of the description of an interface, behind those of its section that were described before.
#[tactic(auto, unfolding(crate::specs::Meaning::interface_in))]
fn interface_in<'a>(
    selection: Selection<'_>,
    interfaces: &[Interface],
    block: &Block<'a>,
) -> Result<BlockMeaning<'a>, BlockFault>
    ensures value { result ≡ interface_in selection.entry interfaces.now block.now }
    ensures limits { IfOk result IsMeantWithinLimits }
{
    let number = interfaces.len();
    if number >= MOST_INTERFACES {
        return Err(BlockFault::TooManyInterfaces);
    }
    match described(selection, number, block.order, block.body) {
        Ok(interface) => Ok(BlockMeaning::Described(interface)),
        Err(fault) => Err(fault),
    }
}

/// The octets of a packet, behind a head of this length.
pub fn behind_head<'a>(body: &'a [u8], head: usize) -> &'a [u8]
    requires { head ≤ length body.now }
    ensures { result.now ≡ drop head body.now }
{
    &body[head..]
}

/// The octets in front of a packet's, in a block of this type.
fn head_size(kind: u32) -> usize
    ensures { result ≡ head_size kind }
{
    if kind == SIMPLE_PACKET {
        SIMPLE_HEAD
    } else {
        TIMED_HEAD
    }
}

/// The text behind so many octets of a packet, padded to 32 bits: the options of its block.
fn behind_octets<'a>(size: usize, block: &Block<'a>) -> &'a [u8]
    requires { size ≤ longest }
    ensures { result.now ≡ behind_octets size block.now }
{
    let at = head_size(block.kind) + (size + 3) / 4 * 4;
    if at < block.body.len() {
        return &block.body[at..];
    }
    &[]
}

/// Whether a packet of so many octets is outbound by the options of its block.
fn is_outbound(size: usize, block: &Block<'_>) -> bool
    requires { size ≤ longest }
    ensures { result ≡ is_outbound size block.now }
{
    block.kind != SIMPLE_PACKET && is_outbound_in(block.order, behind_octets(size, block))
}

/// What a packet's record means.
fn record_meaning<'a>(is_left_out: bool, packet: Record<'a>) -> BlockMeaning<'a>
    requires { IsWithinLimits packet }
    ensures value { result ≡ record_meaning is_left_out packet.entry }
    ensures limits { IsMeantWithinLimits result }
{
    if is_left_out {
        return BlockMeaning::Outbound;
    }
    BlockMeaning::Packet(packet)
}

/// What a packet of this block means by its record, if there is one.
fn packet_meaning<'a>(
    block: &Block<'a>,
    found: Result<Option<Record<'a>>, BlockFault>,
) -> Result<BlockMeaning<'a>, BlockFault>
    requires { IfOk found (λ found. IfSome found IsWithinLimits) }
    ensures value { result ≡ packet_meaning block.now found.entry }
    ensures limits { IfOk result IsMeantWithinLimits }
{
    match found {
        Ok(Some(record)) => {
            let is_left_out = is_outbound(record.octets.len(), block);
            Ok(record_meaning(is_left_out, record))
        }
        Ok(None) => Ok(BlockMeaning::Nothing),
        Err(fault) => Err(fault),
    }
}

/// The numbers in front of a packet's octets.
fn head_in(block: &Block<'_>) -> PacketHead
    requires { head_size block.now.kind ≤ length block.now.body }
    ensures { result ≡ head_in block.now }
{
    match block.kind {
        SIMPLE_PACKET => simple_head(block.order, block.body),
        OBSOLETE_PACKET => obsolete_head(block.order, block.body),
        _ => enhanced_head(block.order, block.body),
    }
}

/// The number of the interface that a packet block names. None: the block holds no packet, or ends before that number.
#[tactic(auto, unfolding(crate::specs::Meaning::interface_named))]
pub fn interface_named(block: &Block<'_>) -> Option<u32>
    ensures { result ≡ interface_named block.now }
{
    if !is_of_packet(block.kind) {
        return None;
    }
    if block.body.len() < head_size(block.kind) {
        return None;
    }
    Some(head_in(block).interface)
}

/// The meaning of a packet block; `last` is the moment of the packet before it.
#[tactic(auto, unfolding(crate::specs::Meaning::packet_in))]
fn packet_in<'a>(
    interfaces: &[Interface],
    last: u64,
    block: &Block<'a>,
) -> Result<BlockMeaning<'a>, BlockFault>
    requires { last ≤ last_moment }
    ensures value { result ≡ packet_in interfaces.now last block.now }
    ensures limits { IfOk result IsMeantWithinLimits }
{
    let size = head_size(block.kind);
    if block.body.len() < size {
        return Err(BlockFault::ShortBlock);
    }
    let head = head_in(block);
    let octets = behind_head(block.body, size);
    packet_meaning(block, packet_record(interfaces, last, head, octets))
}

/// What a block means in a section with these interfaces, behind a packet at this moment.
#[tactic(auto, unfolding(crate::specs::Meaning::block_meaning))]
pub fn block_meaning<'a>(
    selection: Selection<'_>,
    interfaces: &[Interface],
    last: u64,
    block: &Block<'a>,
) -> Result<BlockMeaning<'a>, BlockFault>
    requires { last ≤ last_moment }
    ensures value { result ≡ block_meaning selection.entry interfaces.now last block.now }
    ensures limits { IfOk result IsMeantWithinLimits }
{
    match block.kind {
        SECTION_HEADER => section_in(block),
        INTERFACE_DESCRIPTION => interface_in(selection, interfaces, block),
        kind if is_of_packet(kind) => packet_in(interfaces, last, block),
        _ => Ok(BlockMeaning::Nothing),
    }
}
