//! What a packet carries in a tunnel.
ghost use Rattle.std.specs.Prelude.{◌≡◌, ◌≤◌, [], IfSome, drop, length};
ghost use Rattle.capture_compare.specs.Tunnelled.{carried_at, carried_by, carried_in, kind_in, tunnelled, tunnelled_whole};
ghost use Rattle.wire.specs.Udp.{SplitsUdp, data_of};
ghost use Rattle.wire.specs.declared.ip_udp.addr.Tunnel.TheVariants as kinds;

use crate::carried::tunnels::Tunnels;
use decapsulate::Packet;
use std::marker::Model;
use wire::geneve::{GeneveView, Known};
use wire::ip_udp::{Addr, Tunnel, UDP, UdpView};
use wire::vxlan::{Vni, VxlanView};

/// The octets of Geneve's header in front of its options (RFC 8926, 3.4).
const FIXED_LENGTH: usize = 8;

/// What a packet carries in a tunnel, and between whom: slices of the packet.
#[derive(Debug, Drop)]
pub struct Tunnelled<'a> {
    /// The kind of the tunnel, by the port of the datagram.
    pub kind: Tunnel,
    /// Who sent it.
    pub source: Addr,
    /// To whom.
    pub destination: Addr,
    /// The number of the network.
    pub vni: Vni,
    /// The texts of the options of Geneve: at most 252 octets, none of VXLAN.
    pub options: &'a [u8],
    /// The text behind the tunnel header.
    pub inner: &'a [u8],
}

impl<'a> Model for Tunnelled<'a> {
    ghost use Rattle.std.specs.Prelude.{◌≤◌, length};
    ghost use Rattle.capture_compare.specs.Tunnelled.{Tunnelled};

    ghost Value = { Tunnelled };

    ghost view = { λ t. record {
      kind = t.kind;
      source = t.source;
      destination = t.destination;
      vni = t.vni;
      options = t.options.now;
      inner = t.inner.now;
    } };

    ghost invariant = { λ t. length t.options.now ≤ 252 };
}

/// What a packet of the underlay carries in a tunnel, by these tunnels' ports; nothing where it is no packet of a tunnel, a
/// fragment of one, one with a critical option that isn't known, or one whose UDP checksum is wrong, or left to the sender's card
/// where that isn't taken.
pub fn tunnelled_in<'a>(tunnels: &Tunnels, octets: &'a [u8]) -> Option<Tunnelled<'a>>
    ensures value { result ≡ tunnelled tunnels.now octets.now }
    ensures short { IfSome result (λ t. length t.inner ≤ length octets.now) }
{
    match Packet::read(octets) {
        Ok(packet) => carried_in(tunnels, &packet),
        Err(_) => None,
    }
}

/// The same of a packet of which so many octets are missing: one that is cut is none of a tunnel.
pub(crate) fn tunnelled_whole<'a>(
    tunnels: &Tunnels,
    octets: &'a [u8],
    missing: u32,
) -> Option<Tunnelled<'a>>
    ensures value { result ≡ tunnelled_whole tunnels.now missing octets.now }
    ensures short { IfSome result (λ t. length t.inner ≤ length octets.now) }
{
    if missing == 0 {
        tunnelled_in(tunnels, octets)
    } else {
        None
    }
}

/// What an IP packet carries.
fn carried_in<'a>(tunnels: &Tunnels, packet: &Packet<'a>) -> Option<Tunnelled<'a>>
    ensures value { result ≡ carried_in tunnels.now packet.now }
    ensures short { IfSome result (λ t. length t.inner ≤ length packet.now.payload) }
{
    if packet.is_fragment || packet.protocol != UDP {
        return None;
    }
    let Ok(datagram) = UdpView::read(packet.payload) else {
        return None;
    };
    let kind = kind_of(tunnels, packet, &datagram);
    carried_at(
        &tunnels.known,
        kind,
        packet.source,
        packet.destination,
        datagram.payload(),
    )
}

/// The kind of tunnel whose datagram a packet has, where its checksum is taken.
fn kind_of(tunnels: &Tunnels, packet: &Packet<'_>, datagram: &UdpView<'_>) -> Option<Tunnel>
    requires { SplitsUdp packet.now.payload datagram.now }
    ensures { result ≡ kind_in tunnels.now packet.now }
{
    let kind = tunnels.kind_at(datagram.dport());
    if kind.is_none() {
        return None;
    }
    if tunnels.is_taken(datagram.sum_state(packet.source, packet.destination)) {
        kind
    } else {
        None
    }
}

/// What data carry that came from one address to another, at the port of a kind.
fn carried_at<'a>(
    known: &Known,
    kind: Option<Tunnel>,
    source: Addr,
    destination: Addr,
    payload: &'a [u8],
) -> Option<Tunnelled<'a>>
    ensures value { result ≡ carried_at known.now kind source destination payload.now }
    ensures short { IfSome result (λ t. length t.inner ≤ length payload.now) }
{
    match kind {
        Some(Tunnel::Vxlan) => vxlan_in(source, destination, payload),
        Some(Tunnel::Geneve) => geneve_in(known, source, destination, payload),
        None => None,
    }
}

/// What data with a VXLAN header carry.
fn vxlan_in<'a>(source: Addr, destination: Addr, payload: &'a [u8]) -> Option<Tunnelled<'a>>
    ensures value { result ≡ carried_by [] kinds.Vxlan source destination payload.now }
    ensures short { IfSome result (λ t. length t.inner ≤ length payload.now) }
{
    let Ok(view) = VxlanView::read(payload) else {
        return None;
    };
    Some(Tunnelled {
        kind: Tunnel::Vxlan,
        source,
        destination,
        vni: view.vni(),
        options: &payload[..0],
        inner: view.payload(),
    })
}

/// What data with a Geneve header carry.
fn geneve_in<'a>(
    known: &Known,
    source: Addr,
    destination: Addr,
    payload: &'a [u8],
) -> Option<Tunnelled<'a>>
    ensures value { result ≡ carried_by known.now kinds.Geneve source destination payload.now }
    ensures short { IfSome result (λ t. length t.inner ≤ length payload.now) }
{
    let Ok(view) = GeneveView::read(payload, known) else {
        return None;
    };
    Some(Tunnelled {
        kind: Tunnel::Geneve,
        source,
        destination,
        vni: view.vni(),
        options: behind_fixed(view.head()),
        inner: view.payload(),
    })
}

/// What stands in a header of Geneve behind its first octets: its options.
fn behind_fixed(head: &[u8]) -> &[u8]
    requires { 8 ≤ length head.now }
    ensures { result.now ≡ drop 8 head.now }
{
    &head[FIXED_LENGTH..]
}
