//! Reading outer packets.
ghost use Rattle.std.specs.Prelude.{◌≡◌, IfOk, Some};
ghost use Rattle.decapsulate.specs.Arrival.{arrival, inner_place, carried_reasons, kind_to, vni_of, inner_of};
ghost use Rattle.wire.specs.First.{first, fault_of};
ghost use Rattle.wire.specs.Frame.{plain, size};
ghost use Rattle.wire.specs.Octets.{part};
ghost use Rattle.wire.specs.Udp.{data_of};

use crate::Arrived;
use crate::datagram::{datagram_of, tunnel_of};
use crate::inner::frame_in;
use crate::packet::Packet;
use overlay::underlay::{Overlay, Underlay};
use wire::ether::{Reason, Refused};
use wire::ip_udp::{Addr, Tunnel};
use wire::vxlan::Vni;

/// What a packet carries in a tunnel to this endpoint, before its segment is known.
#[derive(Debug, Drop)]
pub struct Carried<'a> {
    /// The kind of the tunnel, by the port of the datagram.
    pub kind: Tunnel,
    /// The number of the network.
    pub vni: Vni,
    /// The text behind the tunnel header.
    pub inner: &'a [u8],
}

/// What a whole packet of the underlay brings, or the first reason, of 3, 5, 6 and 12 to 34, why it brings nothing. From
/// `WrongGroup` on the segment is told. Nothing is copied: the frame's parts are slices of the octets.
pub fn unwrap<'a>(under: &Overlay, octets: &'a [u8]) -> Result<Arrived<'a>, Refused>
    ensures value { result ≡ arrival under.now octets.now }
    ensures place { IfOk result (λ arrived.
        plain arrived.frame ≡ part (inner_place arrived.from.0 octets.now) (size arrived.frame) octets.now) }
{
    let packet = match Packet::read(octets) {
        Ok(packet) => packet,
        Err(reason) => return Err(Refused::nowhere(reason)),
    };
    let carried = match carried_in(under.settings(), &packet) {
        Ok(carried) => carried,
        Err(reason) => return Err(Refused::nowhere(reason)),
    };
    let Some((vid, segment)) = under.segment_by(carried.kind, carried.vni) else {
        return Err(Refused::nowhere(Reason::UnknownVni));
    };
    match frame_in(
        segment,
        carried.kind,
        packet.source,
        packet.destination,
        carried.inner,
    ) {
        Ok(frame) => Ok(Arrived {
            vid,
            from: (carried.kind, packet.source),
            frame,
        }),
        Err(reason) => Err(Refused::within(vid, reason)),
    }
}

/// Takes off the headers of a packet, up to the tunnel header: what it carries, or the first reason, of 15 to 29, why it
/// carries nothing to this endpoint.
#[inline(always)]
pub fn carried_in<'a>(underlay: &Underlay, packet: &Packet<'a>) -> Result<Carried<'a>, Reason>
    ensures fault { fault_of result ≡ first (carried_reasons underlay.now packet.now) }
    ensures kind { IfOk result (λ carried. kind_to underlay.now packet.now ≡ Some carried.kind) }
    ensures vni { IfOk result (λ carried. carried.vni ≡ vni_of carried.kind (data_of packet.now.payload)) }
    ensures inner { IfOk result (λ carried. carried.inner.now ≡ inner_of carried.kind (data_of packet.now.payload)) }
{
    packet.check(underlay)?;
    let (kind, data) = datagram_of(packet, underlay)?;
    match tunnel_of(&underlay.known, kind, data) {
        Ok((vni, inner)) => Ok(Carried { kind, vni, inner }),
        Err(reason) => Err(reason),
    }
}
