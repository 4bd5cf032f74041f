//! The endpoint's own addresses.
ghost use Rattle.std.specs.Prelude.{◌≡◌};
ghost use Rattle.overlay.specs.Flood.{has_family, is_own};

use wire::ip_udp::Addr;

/// The endpoint's own address of each family, where it has one.
#[derive(Clone, Copy, Debug, PartialEq, Eq)]
pub struct Own {
    pub ip4: Option<[u8; 4]>,
    pub ip6: Option<[u8; 16]>,
}

impl Own {
    /// Whether there is an own address of the family of this one.
    pub fn has_family(&self, addr: Addr) -> bool
        ensures { result ≡ has_family self.now addr }
    {
        match addr {
            Addr::V4(_) => self.ip4.is_some(),
            Addr::V6(_) => self.ip6.is_some(),
        }
    }

    /// Whether this address is an own one.
    pub fn is_own(&self, addr: Addr) -> bool
        ensures { result ≡ is_own self.now addr }
    {
        match addr {
            Addr::V4(octets) => self.ip4 == Some(octets),
            Addr::V6(octets) => self.ip6 == Some(octets),
        }
    }
}
