//! Who sent a packet.
ghost use Rattle.std.specs.Prelude.{◌≡◌};
ghost use Rattle.both_ways.specs.Told.{is_sent, outer_source, source_in, typed_source};
ghost use Rattle.wire.specs.Ip.{Ip4, Ip6};

use overlay::underlay::Underlay;
use wire::ether::EtherView;
use wire::ip_udp::{Addr, IP4_TYPE, IP6_TYPE};

/// The most VLAN tags in front of the type of an outer frame.
const MOST_TAGS: usize = 2;

/// Whether the endpoint itself sent a packet: its outer source is an own address.
#[inline(always)]
pub(crate) fn is_sent(underlay: &Underlay, octets: &[u8]) -> bool
    ensures { result ≡ is_sent underlay.now octets.now }
{
    match outer_source(octets) {
        Some(source) => underlay.is_own(source),
        None => false,
    }
}

/// The outer source address of a packet, where it can be read, whatever else of the packet is wrong or isn't there.
#[inline(always)]
#[tactic(auto, using(crate::proofs::Runts::runt_source))]
fn outer_source(octets: &[u8]) -> Option<Addr>
    ensures { result ≡ outer_source octets.now }
{
    let Ok(frame) = EtherView::read(octets) else {
        return None;
    };
    let (_tags, typed) = frame.skip_tags(MOST_TAGS);
    typed_source(typed)
}

/// The source address in a text that begins with a type.
#[inline(always)]
fn typed_source(typed: &[u8]) -> Option<Addr>
    ensures { result ≡ typed_source typed.now }
{
    if let Some(header) = typed.strip_prefix(&IP4_TYPE) {
        return source4(header);
    }
    if let Some(header) = typed.strip_prefix(&IP6_TYPE) {
        return source6(header);
    }
    None
}

/// The source address of an IPv4 header (RFC 791, 3.1).
#[inline]
fn source4(header: &[u8]) -> Option<Addr>
    ensures { result ≡ source_in Ip4 header.now }
{
    if header.len() < 16 || header[0] / 16 != 4 {
        return None;
    }
    let mut source = [0; 4];
    source.copy_from_slice(&header[12..16]);
    Some(Addr::V4(source))
}

/// The source address of an IPv6 header (RFC 8200, 3).
#[inline]
fn source6(header: &[u8]) -> Option<Addr>
    ensures { result ≡ source_in Ip6 header.now }
{
    if header.len() < 24 || header[0] / 16 != 6 {
        return None;
    }
    let mut source = [0; 16];
    source.copy_from_slice(&header[8..24]);
    Some(Addr::V6(source))
}
