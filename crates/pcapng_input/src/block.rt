//! Blocks.
//!
//! Blocks that are read (sections, interfaces, packets) have at most 327,680 octets: those of the longest packet and 65,536 for
//! the rest, so that a reader piece by piece needs that much room. Blocks of other types have any length.
ghost use Rattle.std.specs.Prelude.{◌≡◌, ◌≤◌, ◌&&◌, nat_le, nat_lt, ℕ, IsFalse, drop, length};
ghost use Rattle.pcap.specs.Style.{number_of};
ghost use Rattle.pcapng_input.specs.Block.{NoBlock, block_by_length, end_by_size, is_no_length, is_of_packet};
ghost use Rattle.pcapng_input.specs.Block.{is_read, is_section, longest_block, next_block, order_at, told_order};
ghost use Rattle.pcapng_input.specs.Seen.{IsShorter, block_seen};

use crate::fault::BlockFault;
use crate::number::number4;
use byteorder::{BigEndian, ByteOrder};
use pcap::text::Order;
use std::marker::Model;

/// The type of a section header, the same in both byte orders.
pub const SECTION_HEADER: u32 = 0x0A0D_0D0A;

/// The type of an interface description.
pub const INTERFACE_DESCRIPTION: u32 = 1;

/// The type of an obsolete packet block.
pub const OBSOLETE_PACKET: u32 = 2;

/// The type of a simple packet block.
pub const SIMPLE_PACKET: u32 = 3;

/// The type of an enhanced packet block.
pub const ENHANCED_PACKET: u32 = 6;

/// What the body of a section header begins with.
const BYTE_ORDER_MAGIC: u32 = 0x1A2B_3C4D;

/// The octets of a block with an empty body.
pub const EMPTY_BLOCK: usize = 12;

/// The octets of a block that is read at most.
pub const LONGEST_BLOCK: usize = 327_680;

/// A block.
#[derive(Drop)]
pub struct Block<'a> {
    pub order: Order,
    pub kind: u32,
    pub body: &'a [u8],
}

impl<'a> Model for Block<'a> {
    ghost use Rattle.pcapng_input.specs.Block.{Block};

    ghost Value = { Block };

    ghost view = { λ b. record { order = b.order; kind = b.kind; body = b.body.now } };
}

/// What comes next in a text of blocks: a block and the text behind it, or how the blocks end.
#[derive(Drop)]
pub enum NextBlock<'a> {
    Another(Block<'a>, &'a [u8]),
    AllRead,
    CutShort,
    Refused(BlockFault),
}

/// Whether a text begins as a section header does, and so as each pcapng text: with the octets 0A 0D 0D 0A.
pub fn is_pcapng(text: &[u8]) -> bool
    ensures { result ≡ (nat_le 4 (length text.now) && is_section text.now) }
{
    text.len() >= 4 && BigEndian::read_u32(text) == SECTION_HEADER
}

/// Whether blocks of this type hold packets.
pub fn is_of_packet(kind: u32) -> bool
    ensures { result ≡ is_of_packet kind }
{
    kind == OBSOLETE_PACKET || kind == SIMPLE_PACKET || kind == ENHANCED_PACKET
}

/// Whether blocks of this type are read.
fn is_read(kind: u32) -> bool
    ensures { result ≡ is_read kind }
{
    kind == SECTION_HEADER || kind == INTERFACE_DESCRIPTION || is_of_packet(kind)
}

/// The byte order that a section header tells.
fn told_order(text: &[u8]) -> Option<Order>
    requires { 12 ≤ length text.now }
    ensures { result ≡ told_order text.now }
{
    if number4(Order::Big, &text[8..]) == BYTE_ORDER_MAGIC {
        return Some(Order::Big);
    }
    if number4(Order::Little, &text[8..]) == BYTE_ORDER_MAGIC {
        return Some(Order::Little);
    }
    None
}

/// The byte order of the block that a text begins with.
pub fn order_at(section: Option<Order>, text: &[u8]) -> Option<Order>
    requires { 12 ≤ length text.now }
    ensures { result ≡ order_at section text.now }
{
    if is_pcapng(text) {
        told_order(text)
    } else {
        section
    }
}

/// Whether no block has this length.
fn is_no_length(size: usize) -> bool
    ensures value { result ≡ is_no_length size }
    ensures room { IsFalse result → 12 ≤ size }
{
    size < EMPTY_BLOCK || size % 4 != 0
}

/// Whether a block of this type and length is one of those that are read, and longer than they may be.
fn is_too_large(kind: u32, size: usize) -> bool
    ensures { result ≡ (is_read kind && nat_lt longest_block size) }
{
    is_read(kind) && size > LONGEST_BLOCK
}

/// How the blocks end where there is no room for another.
fn end_by_size(section: Option<Order>, size: usize) -> NextBlock<'static>
    ensures next { block_seen result ≡ NoBlock (end_by_size section size) }
    ensures shorter { (longest : ℕ) → IsShorter longest result }
{
    match section {
        None => NextBlock::Refused(BlockFault::NoSection),
        Some(_) if size == 0 => NextBlock::AllRead,
        Some(_) => NextBlock::CutShort,
    }
}

/// What a text of 12 octets or more begins with, by the length that it tells in this byte order.
fn block_by_length<'a>(order: Order, text: &'a [u8]) -> NextBlock<'a>
    requires { 12 ≤ length text.now }
    ensures next { block_seen result ≡ block_by_length order (number_of order 4 (drop 4 text.now)) text.now }
    ensures shorter { IsShorter (length text.now) result }
{
    let kind = number4(order, text);
    let size = number4(order, &text[4..]) as usize;
    if is_no_length(size) {
        return NextBlock::Refused(BlockFault::BadLength);
    }
    if is_too_large(kind, size) {
        return NextBlock::Refused(BlockFault::TooLarge);
    }
    if text.len() < size {
        return NextBlock::CutShort;
    }
    if number4(order, &text[size - 4..]) as usize != size {
        return NextBlock::Refused(BlockFault::BadLength);
    }
    let block = Block {
        order,
        kind,
        body: &text[8..size - 4],
    };
    NextBlock::Another(block, &text[size..])
}

/// What comes next in a text of blocks that stands in a section of this byte order, or in none.
#[tactic(auto, unfolding(crate::specs::Block::next_block))]
pub fn next_block<'a>(section: Option<Order>, text: &'a [u8]) -> NextBlock<'a>
    ensures next { block_seen result ≡ next_block section text.now }
    ensures shorter { IsShorter (length text.now) result }
{
    if text.len() < EMPTY_BLOCK {
        return end_by_size(section, text.len());
    }
    match order_at(section, text) {
        None => NextBlock::Refused(BlockFault::NoSection),
        Some(order) => block_by_length(order, text),
    }
}
