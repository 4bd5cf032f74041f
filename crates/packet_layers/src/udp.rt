//! The UDP datagram in a packet.
ghost use Rattle.std.specs.Prelude.{◌≡◌, ◌≤◌, ◌<◌, ◌+◌, length, IfOk, OnOk, OnErr};
ghost use Rattle.wire.specs.First.{first, fault_of};
ghost use Rattle.wire.specs.Udp.{SplitsUdp, udp_parts};
ghost use Rattle.packet_layers.specs.Dissection.{udp_off};
ghost use Rattle.packet_layers.specs.Code.{udp_reasons, sum_reasons};

use crate::HeadKind;
use crate::apart::Apart;
use decapsulate::{Packet, sum_refusal};
use overlay::underlay::Underlay;
use wire::ether::Reason;
use wire::ip_udp::{UDP, UdpView};

/// The octets of a header.
const HEADER: usize = 8;

/// Takes the UDP header off a packet whose IP header is taken off, and what stands behind the UDP length.
pub(crate) fn take_udp<'a>(
    apart: &mut Apart<'a>,
    packet: &Packet<'a>,
) -> Result<UdpView<'a>, Reason>
    requires heads { length apart.old.heads < 34 }
    requires tails { length apart.old.tails < 10 }
    requires payload { apart.old.payload.octets ≡ packet.now.payload }
    ensures fault { fault_of result ≡ first (udp_reasons packet.now) }
    ensures taken { OnOk result (apart.new ≡ udp_off apart.old) }
    ensures refused { OnErr result (apart.new ≡ apart.old) }
    ensures few_heads { length apart.new.heads ≤ length apart.old.heads + 1 }
    ensures few_tails { length apart.new.tails ≤ length apart.old.tails + 1 }
    ensures view { IfOk result (λ view. view ≡ udp_parts packet.now.payload) }
    ensures split { IfOk result (λ view. SplitsUdp packet.now.payload view) }
{
    if packet.is_fragment {
        return Err(Reason::Fragment);
    }
    if packet.protocol != UDP {
        return Err(Reason::NotUdp);
    }
    let Ok(view) = UdpView::read(packet.payload) else {
        return Err(Reason::BadUdp);
    };
    let (head, _) = packet.payload.split_at(HEADER);
    apart.split(HeadKind::Udp, head, view.payload(), view.tail());
    Ok(view)
}

/// Whether the checksum of the datagram in a packet is taken.
pub(crate) fn check_sum(view: &UdpView, packet: &Packet, underlay: &Underlay) -> Result<(), Reason>
    requires view { view.now ≡ udp_parts packet.now.payload }
    requires split { SplitsUdp packet.now.payload view.now }
    ensures { fault_of result ≡ first (sum_reasons underlay.now packet.now) }
{
    let state = view.sum_state(packet.source, packet.destination);
    match sum_refusal(underlay, packet.source, state) {
        Some(reason) => Err(reason),
        None => Ok(()),
    }
}
