//! The network that a packet names.
ghost use Rattle.std.specs.Prelude.{◌≡◌, if◌then◌else◌, IfOk, None, Some, is_none};
ghost use Rattle.wire.specs.First.{fault_of, first};
ghost use Rattle.wire.specs.Udp.{data_of};
ghost use Rattle.decapsulate.specs.Arrival.{kind_to, tunnel_reasons, vni_of};
ghost use Rattle.tunnel_traffic.specs.Header.{key_by, key_in, port_reasons};

use crate::rows::TunnelKey;
use decapsulate::{Packet, tunnel_of};
use overlay::underlay::{Overlay, Underlay};
use wire::ether::Reason;
use wire::geneve::Known;
use wire::ip_udp::{Addr, Tunnel, UdpView};

/// The network that the tunnel header of a packet names, and who sent it. None: no tunnel header stands there. Whom the
/// packet is for, and what its checksum says, isn't asked.
pub fn key_in(under: &Overlay, octets: &[u8]) -> Option<TunnelKey>
    ensures { result ≡ key_in under.now.underlay octets.now }
{
    match Packet::read(octets) {
        Ok(packet) => key_by(under, &packet),
        Err(_) => None,
    }
}

/// The network that is named in a packet.
fn key_by(under: &Overlay, packet: &Packet) -> Option<TunnelKey>
    ensures { result ≡ key_by under.now.underlay packet.now }
{
    match data_in(packet, under.settings()) {
        Ok((kind, data)) => key_at(under.known(), kind, packet.source, data),
        Err(_) => None,
    }
}

/// The kind of the tunnels at the port that a packet goes to, and the data of the datagram in it.
fn data_in<'a>(packet: &Packet<'a>, underlay: &Underlay) -> Result<(Tunnel, &'a [u8]), Reason>
    ensures fault { fault_of result ≡ first (port_reasons underlay.now packet.now) }
    ensures kind { IfOk result (λ datagram. kind_to underlay.now packet.now ≡ Some datagram.0) }
    ensures payload { IfOk result (λ datagram. datagram.1.now ≡ data_of packet.now.payload) }
{
    let Ok(view) = UdpView::read(packet.payload) else {
        return Err(Reason::BadUdp);
    };
    match underlay.kind_at(view.dport()) {
        Some(kind) => Ok((kind, view.payload())),
        None => Err(Reason::NotTunnel),
    }
}

/// The network that a tunnel header of a kind names, from this sender.
fn key_at(known: &Known, kind: Tunnel, address: Addr, payload: &[u8]) -> Option<TunnelKey>
    ensures { result ≡ (if is_none (first (tunnel_reasons known.now kind payload.now)) then Some
        (record { kind = kind; vni = vni_of kind payload.now; address = address }) else None) }
{
    match tunnel_of(known, kind, payload) {
        Ok((vni, _)) => Some(TunnelKey { kind, vni, address }),
        Err(_) => None,
    }
}
