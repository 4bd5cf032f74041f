//! The frame in a tunnel.
ghost use Rattle.std.specs.Prelude.{◌≡◌, ◌≤◌, length, IfOk, OnOk};
ghost use Rattle.decapsulate.specs.Arrival.{inner_reasons};
ghost use Rattle.wire.specs.First.{first, fault_of};
ghost use Rattle.wire.specs.Ether.{has_tag};
ghost use Rattle.wire.specs.Frame.{frame_of};

use overlay::underlay::{PeerRule, Segment, TagRule};
use wire::ether::{BridgeFrame, EtherView, Reason, Tagging};
use wire::ip_udp::{Addr, Tunnel};

/// The frame that an inner text is, let into a segment; it came through a tunnel of a kind between these outer addresses.
pub(crate) fn frame_in<'a>(
    segment: &Segment,
    kind: Tunnel,
    source: Addr,
    destination: Addr,
    inner: &'a [u8],
) -> Result<BridgeFrame<'a>, Reason>
    ensures fault { fault_of result ≡ first (inner_reasons segment.now kind source destination inner.now) }
    ensures frame { IfOk result (λ frame. frame ≡ frame_of inner.now) }
    ensures long { OnOk result (14 ≤ length inner.now) }
{
    if destination.is_group() && !segment.flood.holds(kind, destination) {
        return Err(Reason::WrongGroup);
    }
    if segment.peers == PeerRule::Listed && !segment.flood.holds(kind, source) {
        return Err(Reason::UnknownPeer);
    }
    let Ok(view) = EtherView::read(inner) else {
        return Err(Reason::InnerRunt);
    };
    if view.src().is_group() {
        return Err(Reason::BadSource);
    }
    if view.dst().is_reserved() {
        return Err(Reason::Reserved);
    }
    if has_tag(&view) && segment.tags != TagRule::Pass {
        return Err(Reason::InnerTag);
    }
    Ok(BridgeFrame {
        pcp: 0,
        dei: false,
        addresses: view.addresses(),
        body: view.after_addresses(),
    })
}

/// Whether the type of a customer tag stands behind the addresses.
fn has_tag(view: &EtherView<'_>) -> bool
    ensures { result ≡ has_tag view.now }
{
    !matches!(view.split_tag(), Tagging::Plain(_))
}
