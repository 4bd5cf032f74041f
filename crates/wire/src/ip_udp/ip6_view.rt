//! IPv6 packets.
ghost use Rattle.std.specs.Prelude.{◌≡◌, IfOk};
ghost use Rattle.wire.specs.First.{fault_of, first};
ghost use Rattle.wire.specs.Ip.{Ip6, SplitsIp, packet_parts, ip_faults, source, destination, protocol, is_fragment};

use crate::ip_udp::octets::array_at;
use crate::ip_udp::slices::Slices;
use crate::ip_udp::{Addr, IpFault};
use byteorder::{BigEndian, ByteOrder};
use std::marker::Model;

/// The version in the first four bits of an IPv6 header.
const VERSION: u8 = 6;
/// The octets of a header.
const HEADER: usize = 40;
/// The next header of a fragment (RFC 8200, 4.5).
const FRAGMENT: u8 = 44;

/// An IPv6 packet (RFC 8200, 3) and what stands behind it, seen by contracts as its parts.
#[derive(Debug, Drop)]
pub struct Ip6View<'a> {
    slices: Slices<'a>,
}

impl<'a> Model for Ip6View<'a> {
    ghost use Rattle.std.specs.Prelude.{length};
    ghost use Rattle.wire.specs.IpParts.{Parts};
    ghost use Rattle.wire.specs.Ip.{IsHeader6};

    ghost Value = { Parts };

    ghost view = { λ v. v.slices };

    ghost invariant = { λ v. IsHeader6 v.slices.head (length v.slices.payload) };
}

impl<'a> Ip6View<'a> {
    /// Reads the packet that the octets begin with.
    ///
    /// `BadIp`: fewer than 40 octets, a version other than 6, or a payload length beyond the octets. IPv6 has no header
    /// checksum, so it is the only fault.
    pub fn read(octets: &'a [u8]) -> Result<Ip6View<'a>, IpFault>
        ensures fault { fault_of result ≡ first (ip_faults Ip6 octets.now) }
        ensures parts { IfOk result (λ packet. packet ≡ packet_parts Ip6 octets.now) }
        ensures split { IfOk result (λ packet. SplitsIp Ip6 octets.now packet) }
    {
        if octets.len() < HEADER || octets[0] / 16 != VERSION {
            return Err(IpFault::BadIp);
        }
        let end = HEADER + usize::from(BigEndian::read_u16(&octets[4..]));
        if octets.len() < end {
            return Err(IpFault::BadIp);
        }
        let slices = Slices::cut(octets, HEADER, end);
        Ok(Ip6View { slices })
    }

    /// The source address.
    pub fn src(&self) -> Addr
        ensures { result ≡ source Ip6 self.now.head }
    {
        Addr::V6(array_at(self.slices.head, 8))
    }

    /// The destination address.
    pub fn dst(&self) -> Addr
        ensures { result ≡ destination Ip6 self.now.head }
    {
        Addr::V6(array_at(self.slices.head, 24))
    }

    /// Whether it is a part of a larger packet: the next header is Fragment (RFC 8200, 4.5).
    pub fn is_fragment(&self) -> bool
        ensures { result ≡ is_fragment Ip6 self.now.head }
    {
        self.proto() == FRAGMENT
    }

    /// The next header, which says what the payload is; 17 is UDP.
    pub fn proto(&self) -> u8
        ensures { result ≡ protocol Ip6 self.now.head }
    {
        let head = self.slices.head;
        head[6]
    }

    /// The header, 40 octets.
    pub fn head(&self) -> &'a [u8]
        ensures { result.now ≡ self.now.head }
    {
        self.slices.head
    }

    /// What stands behind the header, as long as the payload length says.
    pub fn payload(&self) -> &'a [u8]
        ensures { result.now ≡ self.now.payload }
    {
        self.slices.payload
    }

    /// What stands behind the payload and is no part of the packet, as padding of a short frame.
    pub fn tail(&self) -> &'a [u8]
        ensures { result.now ≡ self.now.tail }
    {
        self.slices.tail
    }
}
