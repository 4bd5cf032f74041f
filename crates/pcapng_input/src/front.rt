//! The packet that a text of blocks begins with.
//!
//! Whole enhanced packet blocks without options in front of what was read are told where they lie: their records go straight
//! into the caller's octets, as many as fit, and of a packet that isn't asked for, with options or without, the type, both
//! lengths and the number of its interface are looked at. Any other block, one with a fault, and a record that doesn't fit, is
//! taken by itself, once nothing stands in front of it: so a fault is met by the read that tells no more. Nine sources of one
//! interface each over one file of nine make 59 instructions a block and source of it, where each block gathered and taken by
//! itself costs 581; a source of all interfaces 237 a packet in place of 959.
ghost use Rattle.std.specs.Prelude.{◌≡◌, ◌≤◌, length, IfSome};
ghost use Rattle.pcap.specs.Record.{last_moment};
ghost use Rattle.pcapng_input.specs.Front.{IsEnhanced, IsFrontPacket, bare_packet, body_of};

use crate::block::{EMPTY_BLOCK, ENHANCED_PACKET, LONGEST_BLOCK, is_pcapng};
use crate::interface::Interface;
use crate::meaning::behind_head;
use crate::number::number4;
use crate::option::OPTION_HEADER;
use crate::packet::{TIMED_HEAD, enhanced_head, packet_record};
use pcap::text::{Order, Record};

/// The octets of an enhanced packet block without those of its packet.
const AROUND_PACKET: usize = EMPTY_BLOCK + TIMED_HEAD;

/// The packet that a text of blocks begins with.
#[derive(Drop)]
pub enum FrontPacket<'a> {
    /// One of an interface that isn't selected, in a block of so many octets.
    Other(usize),
    /// One of an interface that is, in a block of so many octets.
    Selected(usize, Record<'a>),
    /// Something else than a whole enhanced packet block without options and without a fault.
    Unknown,
}

/// The length of the enhanced packet block that a text begins with, where it is whole.
#[inline(always)]
fn enhanced_block(order: Order, text: &[u8]) -> Option<usize>
    ensures { IfSome result (IsEnhanced order text.now) }
{
    if text.len() < AROUND_PACKET || is_pcapng(text) || number4(order, text) != ENHANCED_PACKET {
        return None;
    }
    let size = number4(order, &text[4..]) as usize;
    if size < AROUND_PACKET || size % 4 != 0 || size > LONGEST_BLOCK || text.len() < size {
        return None;
    }
    if number4(order, &text[size - 4..]) as usize != size {
        return None;
    }
    Some(size)
}

/// The packet of a block of so many octets, whose own these begin with, where behind it there is no room for an option.
#[inline(always)]
fn bare_packet<'a>(size: usize, octets: &[u8], packet: Record<'a>) -> FrontPacket<'a>
    ensures { result ≡ bare_packet size octets.now packet.entry }
{
    if octets.len() < packet.octets.len() + OPTION_HEADER {
        return FrontPacket::Selected(size, packet);
    }
    FrontPacket::Unknown
}

/// The packet that a text of blocks begins with, in a section with these interfaces, behind a packet at this moment. What one
/// that isn't selected holds isn't looked at.
#[inline(always)]
pub fn front_packet<'a>(
    order: Order,
    interfaces: &[Interface],
    last: u64,
    text: &'a [u8],
) -> FrontPacket<'a>
    requires { last ≤ last_moment }
    ensures { IsFrontPacket order interfaces.now last text.now result }
{
    let Some(size) = enhanced_block(order, text) else {
        return FrontPacket::Unknown;
    };
    let body = body_of(text, size);
    let Some(interface) = interfaces.get(number4(order, body) as usize) else {
        return FrontPacket::Unknown;
    };
    if !interface.is_selected {
        return FrontPacket::Other(size);
    }
    let head = enhanced_head(order, body);
    let octets = behind_head(body, TIMED_HEAD);
    match packet_record(interfaces, last, head, octets) {
        Ok(Some(record)) => bare_packet(size, octets, record),
        _ => FrontPacket::Unknown,
    }
}

/// The body of the block of so many octets that a text begins with.
#[inline(always)]
fn body_of<'a>(text: &'a [u8], size: usize) -> &'a [u8]
    requires { (12 ≤ size) × (size ≤ length text.now) }
    ensures { result.now ≡ body_of text.now size }
{
    &text[8..size - 4]
}
