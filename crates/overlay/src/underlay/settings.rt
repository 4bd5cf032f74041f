//! The settings of the underlay.
ghost use Rattle.std.specs.Prelude.{◌≡◌};
ghost use Rattle.overlay.specs.UnderlaySettings.{own, is_own, kind_at, port_of, hop_to};

use crate::flood::Own;
use crate::underlay::{Hops, Limits};
use wire::ether::Mac;
use wire::geneve::Known;
use wire::ip_udp::{Addr, Tunnel};

/// The settings of the underlay, which no change touches.
#[derive(Debug, Drop)]
pub struct Underlay {
    /// The endpoint's own MAC address, of no group.
    pub mac: Mac,
    /// Where packets go that have no exception, a MAC address of no group.
    pub next_hop: Mac,
    /// The endpoint's own IPv4 address. There is one of either family at least.
    pub ip4: Option<[u8; 4]>,
    /// The endpoint's own IPv6 address.
    pub ip6: Option<[u8; 16]>,
    /// The most octets of an outer IP packet, 1,280 to 65,535.
    pub mtu: u16,
    /// The TTL or hop limit that is sent, 1 to 255.
    pub ttl: u8,
    /// The UDP port of VXLAN tunnels, 1 to 65,535.
    pub vxlan_port: u16,
    /// The UDP port of Geneve tunnels, 1 to 65,535 and another than VXLAN's.
    pub geneve_port: u16,
    /// Whether UDP checksums are computed over IPv4; else 0 is sent (RFC 768).
    pub sum4: bool,
    /// Whether UDP checksums are computed over IPv6; else 0 is sent (RFC 6935, 5).
    pub sum6: bool,
    /// Whether a UDP checksum of 0 is accepted over IPv6 (RFC 6935, 5).
    pub zero6: bool,
    /// Whether a UDP checksum is accepted that a sender left to its network card: the sum of the pseudo header alone.
    pub partial: bool,
    /// The critical Geneve options that are accepted.
    pub known: Known,
    /// The exceptions from the next hop, as many as the limits say at most.
    pub hops: Hops,
    /// How much the endpoint has room for.
    pub limits: Limits,
}

impl Underlay {
    /// The endpoint's own addresses.
    pub fn own(&self) -> Own
        ensures { result ≡ own self.now }
    {
        Own {
            ip4: self.ip4,
            ip6: self.ip6,
        }
    }

    /// Whether an address is the endpoint's own.
    pub fn is_own(&self, addr: Addr) -> bool
        ensures { result ≡ is_own self.now addr }
    {
        match addr {
            Addr::V4(octets) => self.ip4 == Some(octets),
            Addr::V6(octets) => self.ip6 == Some(octets),
        }
    }

    /// The kind of the tunnels at a UDP port, where it is a tunnel port.
    pub fn kind_at(&self, port: u16) -> Option<Tunnel>
        ensures { result ≡ kind_at self.now port }
    {
        if port == self.vxlan_port {
            Some(Tunnel::Vxlan)
        } else if port == self.geneve_port {
            Some(Tunnel::Geneve)
        } else {
            None
        }
    }

    /// The UDP port of the tunnels of a kind.
    pub fn port_of(&self, kind: Tunnel) -> u16
        ensures { result ≡ port_of self.now kind }
    {
        match kind {
            Tunnel::Vxlan => self.vxlan_port,
            Tunnel::Geneve => self.geneve_port,
        }
    }

    /// The MAC address to send to for an address: a group's own, the exception for the address, or the next hop.
    #[inline(always)]
    pub fn hop_to(&self, addr: Addr) -> Mac
        ensures { result ≡ hop_to self.now addr }
    {
        if addr.is_group() {
            return addr.group_mac();
        }
        self.hops.get(addr).unwrap_or(self.next_hop)
    }
}
