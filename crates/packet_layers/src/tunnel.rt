//! The tunnel header in a datagram.
ghost use Rattle.std.specs.Prelude.{◌≡◌, ◌≤◌, ◌<◌, ◌+◌, length, Some, OnOk, OnErr};
ghost use Rattle.wire.specs.First.{first, fault_of};
ghost use Rattle.decapsulate.specs.Arrival.{tunnel_reasons};
ghost use Rattle.packet_layers.specs.Dissection.{tunnel_off};

use crate::HeadKind;
use crate::apart::Apart;
use wire::ether::Reason;
use wire::geneve::{GeneveView, Known};
use wire::ip_udp::Tunnel;
use wire::vxlan::VxlanView;

/// Takes the tunnel header of a kind off what is left.
pub(crate) fn take_tunnel(apart: &mut Apart, known: &Known, kind: Tunnel) -> Result<(), Reason>
    requires heads { length apart.old.heads < 34 }
    requires tails { length apart.old.tails < 10 }
    ensures fault { fault_of result ≡ first (tunnel_reasons known.now kind apart.old.payload.octets) }
    ensures taken { OnOk result (apart.new ≡ tunnel_off (Some kind) apart.old) }
    ensures refused { OnErr result (apart.new ≡ apart.old) }
    ensures few_heads { length apart.new.heads ≤ length apart.old.heads + 1 }
    ensures few_tails { length apart.new.tails ≤ length apart.old.tails }
{
    match kind {
        Tunnel::Vxlan => {
            let view = VxlanView::read(apart.left())?;
            apart.split(HeadKind::Vxlan, view.head(), view.payload(), &[]);
        }
        Tunnel::Geneve => {
            let view = GeneveView::read(apart.left(), known)?;
            apart.split(HeadKind::Geneve, view.head(), view.payload(), &[]);
        }
    }
    Ok(())
}
