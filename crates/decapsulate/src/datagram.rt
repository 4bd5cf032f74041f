//! The UDP datagram in an outer packet, and the tunnel header in it.
ghost use Rattle.std.specs.Prelude.{◌≡◌, IfOk, Some};
ghost use Rattle.decapsulate.specs.Arrival.{kind_to, datagram_reasons, needs_sum, sum_reasons, tunnel_reasons, vni_of, inner_of};
ghost use Rattle.wire.specs.First.{first, fault_of};
ghost use Rattle.wire.specs.Udp.{data_of};

use crate::packet::Packet;
use overlay::underlay::Underlay;
use wire::ether::Reason;
use wire::geneve::{GeneveView, Known};
use wire::ip_udp::{Addr, SumState, Tunnel, UdpView};
use wire::vxlan::{Vni, VxlanView};

/// The kind of the tunnel that a packet came through, and the data of the datagram in it.
#[inline(always)]
pub(crate) fn datagram_of<'a>(
    packet: &Packet<'a>,
    underlay: &Underlay,
) -> Result<(Tunnel, &'a [u8]), Reason>
    ensures fault { fault_of result ≡ first (datagram_reasons underlay.now packet.now) }
    ensures kind { IfOk result (λ datagram. kind_to underlay.now packet.now ≡ Some datagram.0) }
    ensures data { IfOk result (λ datagram. datagram.1.now ≡ data_of packet.now.payload) }
{
    let Ok(view) = UdpView::read(packet.payload) else {
        return Err(Reason::BadUdp);
    };
    let Some(kind) = underlay.kind_at(view.dport()) else {
        return Err(Reason::NotTunnel);
    };
    let state = view.sum_state(packet.source, packet.destination);
    match sum_refusal(underlay, packet.source, state) {
        Some(reason) => Err(reason),
        None => Ok((kind, view.payload())),
    }
}

/// Why a datagram from this address isn't taken whose checksum says this: there is none, and there has to be one; or it is
/// wrong, or left to the card where `partial` isn't set. None: it is taken.
pub fn sum_refusal(underlay: &Underlay, source: Addr, state: SumState) -> Option<Reason>
    ensures { result ≡ first (sum_reasons underlay.now source state) }
{
    match state {
        SumState::Zero if needs_sum(underlay, source) => Some(Reason::ZeroSum),
        SumState::Partial if !underlay.partial => Some(Reason::BadUdpSum),
        SumState::Wrong => Some(Reason::BadUdpSum),
        _ => None,
    }
}

/// Whether datagrams from this address need a checksum: over IPv6, unless `zero6` is set (RFC 6935, 5).
pub fn needs_sum(underlay: &Underlay, source: Addr) -> bool
    ensures { result ≡ needs_sum underlay.now source }
{
    match source {
        Addr::V4(_) => false,
        Addr::V6(_) => !underlay.zero6,
    }
}

/// The network's number in a tunnel header of a kind, and what stands behind it, or the first reason, of 23 to 29, why there is
/// none (RFC 7348, 5; RFC 8926, 3). Options that are known are passed over.
pub fn tunnel_of<'a>(
    known: &Known,
    kind: Tunnel,
    carried: &'a [u8],
) -> Result<(Vni, &'a [u8]), Reason>
    ensures fault { fault_of result ≡ first (tunnel_reasons known.now kind carried.now) }
    ensures vni { IfOk result (λ tunnel. tunnel.0 ≡ vni_of kind carried.now) }
    ensures inner { IfOk result (λ tunnel. tunnel.1.now ≡ inner_of kind carried.now) }
{
    match kind {
        Tunnel::Vxlan => {
            let view = VxlanView::read(carried)?;
            Ok((view.vni(), view.payload()))
        }
        Tunnel::Geneve => {
            let view = GeneveView::read(carried, known)?;
            Ok((view.vni(), view.payload()))
        }
    }
}
