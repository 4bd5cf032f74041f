//! The heads of the packets in a segment's tunnels.
ghost use Rattle.std.specs.Prelude.{◌≡◌};
ghost use Rattle.std.specs.Option.{option_copied, option_map, option_and_then};
ghost use Rattle.overlay.specs.Heads.{fixed, tunnel_heads, segment_heads, heads_of};

use crate::underlay::{SegmentTunnel, Tunnels, Underlay};
use wire::ip_udp::Tunnel;
use wire::outer::{Template4, Template6, tunnel_head};
use wire::vxlan::Vni;

/// The heads of one tunnel's packets, over each family of which the endpoint has an address.
#[derive(Debug, Drop)]
pub(crate) struct TunnelHeads {
    v4: Option<Template4>,
    v6: Option<Template6>,
}

impl TunnelHeads {
    /// Those of a tunnel of this kind; none where there is no tunnel.
    fn of(underlay: &Underlay, kind: Tunnel, tunnel: Option<SegmentTunnel>) -> TunnelHeads
        ensures { result ≡ tunnel_heads underlay.now kind tunnel }
    {
        match tunnel {
            Some(tunnel) => TunnelHeads {
                v4: template4(underlay, kind, tunnel.vni),
                v6: template6(underlay, kind, tunnel.vni),
            },
            None => TunnelHeads { v4: None, v6: None },
        }
    }
}

/// The heads of the packets in each tunnel that a segment may have.
#[derive(Debug, Drop)]
pub(crate) struct SegmentHeads {
    vxlan: TunnelHeads,
    geneve: TunnelHeads,
}

impl SegmentHeads {
    /// Those of a segment with these tunnels.
    pub(crate) fn of(underlay: &Underlay, tunnels: &Tunnels) -> SegmentHeads
        ensures { result ≡ segment_heads underlay.now tunnels.now }
    {
        SegmentHeads {
            vxlan: TunnelHeads::of(underlay, Tunnel::Vxlan, tunnels.of(Tunnel::Vxlan)),
            geneve: TunnelHeads::of(underlay, Tunnel::Geneve, tunnels.of(Tunnel::Geneve)),
        }
    }

    /// That over IPv4 in the tunnel of a kind.
    pub(crate) fn v4(&self, kind: Tunnel) -> Option<&Template4>
        ensures { option_copied result ≡ (heads_of self.now kind).v4 }
    {
        self.tunnel(kind).v4.as_ref()
    }

    /// That over IPv6 in the tunnel of a kind.
    pub(crate) fn v6(&self, kind: Tunnel) -> Option<&Template6>
        ensures { option_copied result ≡ (heads_of self.now kind).v6 }
    {
        self.tunnel(kind).v6.as_ref()
    }

    /// Those in the tunnel of a kind.
    fn tunnel(&self, kind: Tunnel) -> &TunnelHeads
        ensures { result.now ≡ heads_of self.now kind }
    {
        match kind {
            Tunnel::Vxlan => &self.vxlan,
            Tunnel::Geneve => &self.geneve,
        }
    }
}

/// The head over IPv4 in a tunnel of this kind and VNI, where the endpoint has an IPv4 address.
fn template4(underlay: &Underlay, kind: Tunnel, vni: Vni) -> Option<Template4>
    ensures { result ≡ option_map (fixed underlay.now kind vni) underlay.now.ip4 }
{
    let src = underlay.ip4?;
    let tunnel = tunnel_head(kind, vni);
    let port = underlay.port_of(kind);
    Some(Template4::new(
        underlay.next_hop,
        underlay.mac,
        underlay.ttl,
        src,
        port,
        tunnel,
    ))
}

/// The head over IPv6 in a tunnel of this kind and VNI, where the endpoint has an IPv6 address.
fn template6(underlay: &Underlay, kind: Tunnel, vni: Vni) -> Option<Template6>
    ensures { result ≡ option_map (fixed underlay.now kind vni) underlay.now.ip6 }
{
    let src = underlay.ip6?;
    let tunnel = tunnel_head(kind, vni);
    let port = underlay.port_of(kind);
    Some(Template6::new(
        underlay.next_hop,
        underlay.mac,
        underlay.ttl,
        src,
        port,
        tunnel,
    ))
}
