//! Packets.
//!
//! A packet that its flags tell as outbound is left out, since a port's capture is what came in there: an outbound one would be
//! learned at the port that it left by. Options of packets are walked as far as their flags, and no fault of theirs is told:
//! what has no direction that is known is taken, as from captures that tell none. So is a packet whose flags have another
//! length than four octets, which Wireshark refuses, since the draft gives them no meaning. How many are left out a check
//! tells, and a run doesn't: what it writes is of the packets that are taken.
ghost use Rattle.std.specs.Prelude.{◌≡◌, ◌≤◌, length, option_map, IfOk, IfSome};
ghost use Rattle.pcap.specs.Record.{IsWithinLimits, last_moment};
ghost use Rattle.pcapng_input.specs.Packet.{enhanced_head, is_outbound_by, is_outbound_in, moment_by};
ghost use Rattle.pcapng_input.specs.Packet.{obsolete_head, packet_record, selected_record, simple_head, timed_head};

use crate::fault::BlockFault;
use crate::interface::Interface;
use crate::moment::{offset_moment, ticks_in_nanoseconds};
use crate::number::{number2, number4};
use crate::option::value_of;
use pcap::text::{LONGEST, Order, Record};

/// The link type of Ethernet, the one that is read.
const ETHERNET: u16 = 1;

/// The octets in front of a packet's in an enhanced and in an obsolete packet block.
pub const TIMED_HEAD: usize = 20;

/// The octets in front of a packet's in a simple packet block.
pub const SIMPLE_HEAD: usize = 4;

/// The options `epb_flags` and `pack_flags`.
const FLAGS: u16 = 2;

/// What the two lowest bits of flags are where a packet is outbound.
const OUTBOUND: u32 = 2;

/// The numbers in front of a packet's octets.
#[derive(Clone, Copy)]
pub struct PacketHead {
    pub interface: u32,
    /// None: the block has no moment.
    pub ticks: Option<u64>,
    /// None: the block doesn't say how many octets were captured.
    pub captured: Option<u32>,
    pub original: u32,
}

/// The numbers in front of the octets of a packet of this interface.
fn timed_head(interface: u32, order: Order, body: &[u8]) -> PacketHead
    requires { 20 ≤ length body.now }
    ensures { result ≡ timed_head interface order body.now }
{
    let high = u64::from(number4(order, &body[4..]));
    let low = u64::from(number4(order, &body[8..]));
    PacketHead {
        interface,
        ticks: Some(high * (1 << 32) + low),
        captured: Some(number4(order, &body[12..])),
        original: number4(order, &body[16..]),
    }
}

/// The head of an enhanced packet block.
#[tactic(auto, unfolding(crate::specs::Packet::enhanced_head))]
pub fn enhanced_head(order: Order, body: &[u8]) -> PacketHead
    requires { 20 ≤ length body.now }
    ensures { result ≡ enhanced_head order body.now }
{
    timed_head(number4(order, body), order, body)
}

/// The head of an obsolete packet block.
#[tactic(auto, unfolding(crate::specs::Packet::obsolete_head))]
pub fn obsolete_head(order: Order, body: &[u8]) -> PacketHead
    requires { 20 ≤ length body.now }
    ensures { result ≡ obsolete_head order body.now }
{
    timed_head(u32::from(number2(order, body)), order, body)
}

/// The head of a simple packet block.
#[tactic(auto, unfolding(crate::specs::Packet::simple_head))]
pub fn simple_head(order: Order, body: &[u8]) -> PacketHead
    requires { 4 ≤ length body.now }
    ensures { result ≡ simple_head order body.now }
{
    PacketHead {
        interface: 0,
        ticks: None,
        captured: None,
        original: number4(order, body),
    }
}

impl PacketHead {
    ghost use Rattle.pcapng_input.specs.Packet.{captured_length};

    /// How many octets were captured of a packet of this interface.
    fn captured_of(self, interface: Interface) -> u32
        ensures { result ≡ captured_length interface self }
    {
        match self.captured {
            Some(captured) => captured,
            None if interface.snap == 0 => self.original,
            None => interface.snap.min(self.original),
        }
    }
}

/// The moment of a packet, in nanoseconds; `last` is that of the packet before it.
fn moment_by(interface: Interface, last: u64, ticks: Option<u64>) -> Option<u64>
    requires { last ≤ last_moment }
    ensures value { result ≡ moment_by interface last ticks }
    ensures limit { IfSome result (λ moment. moment ≤ last_moment) }
{
    match ticks {
        None => Some(last),
        Some(ticks) => offset_moment(
            interface.offset,
            ticks_in_nanoseconds(interface.resolution, ticks),
        ),
    }
}

/// The record of a packet of an interface that is selected.
#[tactic(auto, unfolding(crate::specs::Packet::selected_record))]
fn selected_record<'a>(
    interface: Interface,
    last: u64,
    head: PacketHead,
    octets: &'a [u8],
) -> Result<Option<Record<'a>>, BlockFault>
    requires { last ≤ last_moment }
    ensures value { result ≡ selected_record interface last head octets.now }
    ensures limits { IfOk result (λ found. IfSome found IsWithinLimits) }
{
    let captured = head.captured_of(interface) as usize;
    if interface.link != ETHERNET {
        return Err(BlockFault::BadLink);
    }
    if captured > LONGEST {
        return Err(BlockFault::TooLarge);
    }
    if octets.len() < captured {
        return Err(BlockFault::ShortBlock);
    }
    let Some(moment) = moment_by(interface, last, head.ticks) else {
        return Err(BlockFault::BadMoment);
    };
    Ok(Some(Record {
        moment,
        original: head.original,
        octets: &octets[..captured],
    }))
}

/// The record of a packet with this head and these octets behind it, in a section with these interfaces. None: its
/// interface isn't selected.
pub fn packet_record<'a>(
    interfaces: &[Interface],
    last: u64,
    head: PacketHead,
    octets: &'a [u8],
) -> Result<Option<Record<'a>>, BlockFault>
    requires { last ≤ last_moment }
    ensures value { result ≡ packet_record interfaces.now last head octets.now }
    ensures limits { IfOk result (λ found. IfSome found IsWithinLimits) }
{
    let Some(interface) = interfaces.get(head.interface as usize) else {
        return Err(BlockFault::UnknownInterface);
    };
    if !interface.is_selected {
        return Ok(None);
    }
    selected_record(*interface, last, head, octets)
}

/// Whether a packet with these flags is outbound. Of flags that don't have four octets it isn't known.
fn is_outbound_by(order: Order, flags: Option<&[u8]>) -> bool
    ensures { result ≡ is_outbound_by order (option_map (λ flags. flags.now) flags.entry) }
{
    match flags {
        None => false,
        Some(flags) => flags.len() == 4 && number4(order, flags) % 4 == OUTBOUND,
    }
}

/// Whether a packet is outbound by the options of its block, with which a text begins.
#[tactic(auto, unfolding(crate::specs::Packet::is_outbound_in))]
pub fn is_outbound_in(order: Order, text: &[u8]) -> bool
    ensures { result ≡ is_outbound_in order text.now }
{
    is_outbound_by(order, value_of(order, text, FLAGS))
}
