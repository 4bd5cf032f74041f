//! The IP packet in a frame.
ghost use Rattle.std.specs.Prelude.{◌≡◌, ◌≤◌, ◌<◌, ◌+◌, length, drop, IfOk, OnOk, OnErr};
ghost use Rattle.wire.specs.First.{first, fault_of};
ghost use Rattle.wire.specs.Ip.{packet_parts};
ghost use Rattle.wire.specs.IpView.{family_of};
ghost use Rattle.decapsulate.specs.Arrival.{family_named, packet_at, typed_reasons};
ghost use Rattle.packet_layers.specs.Apart.{split};
ghost use Rattle.packet_layers.specs.Dissection.{ip_kind};

use crate::HeadKind;
use crate::apart::Apart;
use decapsulate::{Packet, ip_view};
use wire::ether::Reason;
use wire::ip_udp::IpView;

/// Takes the IP header off a frame whose type is taken off, and what stands behind the IP length. `typed` is what stood
/// behind the tags of the frame, with the type.
pub(crate) fn take_ip<'a>(apart: &mut Apart<'a>, typed: &'a [u8]) -> Result<Packet<'a>, Reason>
    requires heads { length apart.old.heads < 34 }
    requires tails { length apart.old.tails < 10 }
    requires behind { 2 ≤ length typed.now → apart.old.payload.octets ≡ drop 2 typed.now }
    ensures fault { fault_of result ≡ first (typed_reasons typed.now) }
    ensures taken { let f = family_named typed.now in
        OnOk result (apart.new ≡ split (ip_kind f) (packet_parts f apart.old.payload.octets) apart.old) }
    ensures refused { OnErr result (apart.new ≡ apart.old) }
    ensures few_heads { length apart.new.heads ≤ length apart.old.heads + 1 }
    ensures few_tails { length apart.new.tails ≤ length apart.old.tails + 1 }
    ensures payload { IfOk result (λ packet. packet.payload ≡ apart.new.payload.octets) }
    ensures packet { IfOk result (λ packet. packet ≡ packet_at (family_named typed.now) (drop 2 typed.now)) }
{
    match ip_view(typed) {
        Ok(view) => {
            apart.split(kind_of(&view), view.head(), view.payload(), view.tail());
            Ok(Packet::of(&view))
        }
        Err(reason) => Err(reason),
    }
}

/// The kind of a packet's header.
fn kind_of(view: &IpView) -> HeadKind
    ensures { result ≡ ip_kind (family_of view.now) }
{
    match view {
        IpView::V4(_) => HeadKind::Ip4,
        IpView::V6(_) => HeadKind::Ip6,
    }
}
