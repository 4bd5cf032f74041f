//! Tunnel kinds and addresses.
ghost use Rattle.std.specs.Prelude.{◌≡◌, IsTrue};
ghost use Rattle.wire.specs.Addr.{is_group, is_usable, group_mac};

use crate::ether::Mac;

/// The kind of a tunnel.
#[derive(Clone, Copy, Debug, PartialEq, Eq)]
pub enum Tunnel {
    /// VXLAN (RFC 7348).
    Vxlan,
    /// Geneve (RFC 8926).
    Geneve,
}

/// An address of either family, its octets in the order in which they are sent.
#[derive(Clone, Copy, Debug, PartialEq, Eq)]
pub enum Addr {
    /// IPv4 (RFC 791, 3.2).
    V4([u8; 4]),
    /// IPv6 (RFC 4291, 2).
    V6([u8; 16]),
}

impl Addr {
    /// Whether it is the address of a group: 224.0.0.0/4 (RFC 1112, 4) or ff00::/8 (RFC 4291, 2.7).
    pub fn is_group(self) -> bool
        ensures { result ≡ is_group self }
    {
        match self {
            Addr::V4(octets) => octets[0] / 16 == 14,
            Addr::V6(octets) => octets[0] == 255,
        }
    }

    /// Whether an endpoint can have it or send to it: it is none of 0.0.0.0, 255.255.255.255 and ::.
    pub fn is_usable(self) -> bool
        ensures { result ≡ is_usable self }
    {
        match self {
            Addr::V4(octets) => octets != [0; 4] && octets != [255; 4],
            Addr::V6(octets) => octets != [0; 16],
        }
    }

    /// The MAC address of a group: 01-00-5E and the low 23 bits of an IPv4 group (RFC 1112, 6.4), 33-33 and the low 32
    /// bits of an IPv6 group (RFC 2464, 7).
    pub fn group_mac(self) -> Mac
        requires { IsTrue (is_group self) }
        ensures { result ≡ group_mac self }
    {
        match self {
            Addr::V4(octets) => Mac([0x01, 0x00, 0x5E, octets[1] % 128, octets[2], octets[3]]),
            Addr::V6(octets) => Mac([0x33, 0x33, octets[12], octets[13], octets[14], octets[15]]),
        }
    }
}
