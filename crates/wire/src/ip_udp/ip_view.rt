//! IP packets of either family.
ghost use Rattle.std.specs.Prelude.{◌≡◌, IfOk};
ghost use Rattle.wire.specs.First.{fault_of, first};
ghost use Rattle.wire.specs.Ip.{Ip4, Ip6, SplitsIp, packet_parts, ip_faults, source, destination, protocol, is_fragment};
ghost use Rattle.wire.specs.IpView.{family_of, parts_of};

use crate::ip_udp::{Addr, Ip4View, Ip6View, IpFault};

/// The type of a frame with an IPv4 packet (RFC 894).
pub const IP4_TYPE: [u8; 2] = [0x08, 0x00];
/// The type of a frame with an IPv6 packet (RFC 2464, 3).
pub const IP6_TYPE: [u8; 2] = [0x86, 0xDD];

/// An IP packet of either family and what stands behind it.
#[derive(Debug, Drop)]
pub enum IpView<'a> {
    /// RFC 791, 3.1.
    V4(Ip4View<'a>),
    /// RFC 8200, 3.
    V6(Ip6View<'a>),
}

impl<'a> IpView<'a> {
    /// Reads the IPv4 packet that the octets begin with, as [`Ip4View::read`] does.
    pub fn read4(octets: &'a [u8]) -> Result<IpView<'a>, IpFault>
        ensures fault { fault_of result ≡ first (ip_faults Ip4 octets.now) }
        ensures family { IfOk result (λ packet. family_of packet ≡ Ip4) }
        ensures parts { IfOk result (λ packet. parts_of packet ≡ packet_parts Ip4 octets.now) }
        ensures split { IfOk result (λ packet. SplitsIp Ip4 octets.now (parts_of packet)) }
    {
        match Ip4View::read(octets) {
            Ok(packet) => Ok(IpView::V4(packet)),
            Err(fault) => Err(fault),
        }
    }

    /// Reads the IPv6 packet that the octets begin with, as [`Ip6View::read`] does.
    pub fn read6(octets: &'a [u8]) -> Result<IpView<'a>, IpFault>
        ensures fault { fault_of result ≡ first (ip_faults Ip6 octets.now) }
        ensures family { IfOk result (λ packet. family_of packet ≡ Ip6) }
        ensures parts { IfOk result (λ packet. parts_of packet ≡ packet_parts Ip6 octets.now) }
        ensures split { IfOk result (λ packet. SplitsIp Ip6 octets.now (parts_of packet)) }
    {
        match Ip6View::read(octets) {
            Ok(packet) => Ok(IpView::V6(packet)),
            Err(fault) => Err(fault),
        }
    }

    /// The source address.
    pub fn src(&self) -> Addr
        ensures { result ≡ source (family_of self.now) (parts_of self.now).head }
    {
        match self {
            IpView::V4(packet) => packet.src(),
            IpView::V6(packet) => packet.src(),
        }
    }

    /// The destination address.
    pub fn dst(&self) -> Addr
        ensures { result ≡ destination (family_of self.now) (parts_of self.now).head }
    {
        match self {
            IpView::V4(packet) => packet.dst(),
            IpView::V6(packet) => packet.dst(),
        }
    }

    /// Whether it is a part of a larger packet.
    pub fn is_fragment(&self) -> bool
        ensures { result ≡ is_fragment (family_of self.now) (parts_of self.now).head }
    {
        match self {
            IpView::V4(packet) => packet.is_fragment(),
            IpView::V6(packet) => packet.is_fragment(),
        }
    }

    /// The protocol of the payload, in IPv6 the next header; 17 is UDP.
    pub fn proto(&self) -> u8
        ensures { result ≡ protocol (family_of self.now) (parts_of self.now).head }
    {
        match self {
            IpView::V4(packet) => packet.proto(),
            IpView::V6(packet) => packet.proto(),
        }
    }

    /// The header, with IPv4's options.
    pub fn head(&self) -> &'a [u8]
        ensures { result.now ≡ (parts_of self.now).head }
    {
        match self {
            IpView::V4(packet) => packet.head(),
            IpView::V6(packet) => packet.head(),
        }
    }

    /// What stands behind the header, as long as the header says.
    pub fn payload(&self) -> &'a [u8]
        ensures { result.now ≡ (parts_of self.now).payload }
    {
        match self {
            IpView::V4(packet) => packet.payload(),
            IpView::V6(packet) => packet.payload(),
        }
    }

    /// What stands behind the payload and is no part of the packet, as padding of a short frame.
    pub fn tail(&self) -> &'a [u8]
        ensures { result.now ≡ (parts_of self.now).tail }
    {
        match self {
            IpView::V4(packet) => packet.tail(),
            IpView::V6(packet) => packet.tail(),
        }
    }
}
