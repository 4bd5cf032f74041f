//! The tunnels that packets are looked for.
ghost use Rattle.std.specs.Prelude.{◌≡◌, true, []};
ghost use Rattle.capture_compare.specs.Tunnelled.{is_taken, kind_at};

use wire::geneve::Known;
use wire::ip_udp::{SumState, Tunnel};

/// The port of VXLAN (RFC 7348, 5).
const VXLAN_PORT: u16 = 4789;

/// The port of Geneve (RFC 8926, 3.3).
const GENEVE_PORT: u16 = 6081;

/// What of an endpoint's settings tells which packets are those of tunnels.
#[derive(Debug, Drop)]
pub struct Tunnels {
    /// The UDP port of VXLAN.
    pub vxlan_port: u16,
    /// The UDP port of Geneve, another one.
    pub geneve_port: u16,
    /// The critical options that are known.
    pub known: Known,
    /// Whether a checksum is taken that is left to the sender's card.
    pub partial: bool,
}

impl Tunnels {
    /// Those at the ports of the standards, without known critical options; checksums that are left to a card are taken, since what
    /// goes out is captured in front of it.
    pub fn standard() -> Tunnels
        ensures vxlan { result.vxlan_port ≡ 4789 }
        ensures geneve { result.geneve_port ≡ 6081 }
        ensures known { result.known ≡ [] }
        ensures partial { result.partial ≡ true }
    {
        Tunnels {
            vxlan_port: VXLAN_PORT,
            geneve_port: GENEVE_PORT,
            known: Known::new(),
            partial: true,
        }
    }

    /// The kind of tunnel whose datagrams go to a port.
    pub(crate) fn kind_at(&self, port: u16) -> Option<Tunnel>
        ensures { result ≡ kind_at self.now port }
    {
        if port == self.vxlan_port {
            Some(Tunnel::Vxlan)
        } else if port == self.geneve_port {
            Some(Tunnel::Geneve)
        } else {
            None
        }
    }

    /// Whether a datagram is taken whose UDP checksum says this.
    pub(crate) fn is_taken(&self, state: SumState) -> bool
        ensures { result ≡ is_taken self.now state }
    {
        match state {
            SumState::Zero | SumState::Right => true,
            SumState::Partial => self.partial,
            SumState::Wrong => false,
        }
    }
}
