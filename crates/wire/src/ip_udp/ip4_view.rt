//! IPv4 packets.
ghost use Rattle.std.specs.Prelude.{◌≡◌, IfOk};
ghost use Rattle.wire.specs.First.{fault_of, first};
ghost use Rattle.wire.specs.Ip.{Ip4, SplitsIp, IsSumRight, packet_parts, ip_faults, source, destination, protocol, is_fragment};

use crate::ip_udp::header_sum::is_sum_right;
use crate::ip_udp::octets::array_at;
use crate::ip_udp::slices::Slices;
use crate::ip_udp::{Addr, IpFault};
use byteorder::{BigEndian, ByteOrder};
use std::marker::Model;

/// The version in the first four bits of an IPv4 header.
const VERSION: u8 = 4;
/// The octets of a header without options.
const SHORTEST_HEADER: usize = 20;
/// How many fragment offsets there are: the offset has 13 bits, and More Fragments is the bit above them.
const OFFSETS: u16 = 8192;

/// An IPv4 packet (RFC 791, 3.1) and what stands behind it, seen by contracts as its parts.
#[derive(Debug, Drop)]
pub struct Ip4View<'a> {
    slices: Slices<'a>,
}

impl<'a> Model for Ip4View<'a> {
    ghost use Rattle.std.specs.Prelude.{length};
    ghost use Rattle.wire.specs.IpParts.{Parts};
    ghost use Rattle.wire.specs.Ip.{IsHeader4};

    ghost Value = { Parts };

    ghost view = { λ v. v.slices };

    ghost invariant = { λ v. IsHeader4 v.slices.head (length v.slices.payload) };
}

impl<'a> Ip4View<'a> {
    /// Reads the packet that the octets begin with.
    ///
    /// `BadIp`: fewer than 20 octets, a version other than 4, a header length (IHL) below 5 words, or a total length
    /// below the header or beyond the octets. `BadIpSum`: the header checksum is wrong, options included.
    pub fn read(octets: &'a [u8]) -> Result<Ip4View<'a>, IpFault>
        ensures fault { fault_of result ≡ first (ip_faults Ip4 octets.now) }
        ensures parts { IfOk result (λ packet. packet ≡ packet_parts Ip4 octets.now) }
        ensures split { IfOk result (λ packet. SplitsIp Ip4 octets.now packet) }
        ensures sum { IfOk result (λ packet. IsSumRight Ip4 packet.head) }
    {
        if octets.len() < SHORTEST_HEADER || octets[0] / 16 != VERSION {
            return Err(IpFault::BadIp);
        }
        let header = usize::from(octets[0] % 16) * 4;
        let total = usize::from(BigEndian::read_u16(&octets[2..]));
        if header < SHORTEST_HEADER || total < header || octets.len() < total {
            return Err(IpFault::BadIp);
        }
        if !is_sum_right(&octets[..header]) {
            return Err(IpFault::BadIpSum);
        }
        let slices = Slices::cut(octets, header, total);
        Ok(Ip4View { slices })
    }

    /// The source address.
    pub fn src(&self) -> Addr
        ensures { result ≡ source Ip4 self.now.head }
    {
        Addr::V4(array_at(self.slices.head, 12))
    }

    /// The destination address.
    pub fn dst(&self) -> Addr
        ensures { result ≡ destination Ip4 self.now.head }
    {
        Addr::V4(array_at(self.slices.head, 16))
    }

    /// Whether it is a part of a larger packet: More Fragments is set, or the fragment offset is not 0.
    pub fn is_fragment(&self) -> bool
        ensures { result ≡ is_fragment Ip4 self.now.head }
    {
        let flags_and_offset = BigEndian::read_u16(&self.slices.head[6..]);
        flags_and_offset / OFFSETS % 2 == 1 || flags_and_offset % OFFSETS != 0
    }

    /// The protocol of the payload; 17 is UDP.
    pub fn proto(&self) -> u8
        ensures { result ≡ protocol Ip4 self.now.head }
    {
        let head = self.slices.head;
        head[9]
    }

    /// The header with its options, 20 to 60 octets.
    pub fn head(&self) -> &'a [u8]
        ensures { result.now ≡ self.now.head }
    {
        self.slices.head
    }

    /// What stands behind the header, up to the total length.
    pub fn payload(&self) -> &'a [u8]
        ensures { result.now ≡ self.now.payload }
    {
        self.slices.payload
    }

    /// What stands behind the total length and is no part of the packet, as padding of a short frame.
    pub fn tail(&self) -> &'a [u8]
        ensures { result.now ≡ self.now.tail }
    {
        self.slices.tail
    }
}
