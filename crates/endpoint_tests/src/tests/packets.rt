//! The addresses and the settings of an endpoint.
ghost use Rattle.std.specs.Prelude.{◌≡◌};

use overlay::underlay::{Hops, Limits, SegmentTunnel, Underlay};
use std::alloc::Global;
use wire::ether::Mac;
use wire::geneve::Known;
use wire::ip_udp::{Addr, Tunnel};
use wire::vxlan::Vni;

/// The next hop of all endpoints.
pub(crate) const NEXT_HOP: Mac = Mac([0x02, 0, 0, 0, 0xAA, 0xFE]);

/// 192.0.2 and this octet.
pub(crate) fn host4(last: u8) -> Addr {
    Addr::V4([192, 0, 2, last])
}

/// 2001:db8:: and this octet.
pub(crate) fn host6(last: u8) -> Addr {
    Addr::V6(octets6(last))
}

/// The octets of 2001:db8:: and this octet.
pub(crate) fn octets6(last: u8) -> [u8; 16] {
    [
        0x20, 0x01, 0x0D, 0xB8, 0, 0, 0, 0, 0, 0, 0, 0, 0, 0, 0, last,
    ]
}

/// The underlay of an endpoint whose addresses end with this octet.
pub(crate) fn underlay(alloc: Global, last: u8) -> Underlay
    ensures { result.limits.segments ≡ 256 }
{
    Underlay {
        mac: Mac([0x02, 0, 0, 0, 0xAA, last]),
        next_hop: NEXT_HOP,
        ip4: Some([192, 0, 2, last]),
        ip6: Some(octets6(last)),
        mtu: 1550,
        ttl: 64,
        vxlan_port: 4789,
        geneve_port: 6081,
        sum4: false,
        sum6: true,
        zero6: true,
        partial: false,
        known: Known::new(),
        hops: Hops::new(alloc),
        limits: Limits {
            ports: 16,
            segments: 256,
            flood: 16,
            hops: 64,
            entries: 8192,
            addresses: 65536,
        },
    }
}

/// A tunnel of a kind with the VNI that these octets spell.
pub(crate) fn tunnel(kind: Tunnel, vni: [u8; 3]) -> SegmentTunnel
    ensures { result.kind ≡ kind }
{
    SegmentTunnel {
        kind,
        vni: Vni::from_octets(vni),
        group: 0,
    }
}
