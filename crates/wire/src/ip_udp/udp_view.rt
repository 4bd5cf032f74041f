//! UDP datagrams.
//!
//! A checksum left to the sender's card is a state of its own, [`SumState::Partial`], behind `Right`: a checksum
//! that is right stays so where it is the pseudo header's sum too. The view says which it is, the settings whether it is
//! taken; so a story, a look at captures and a summary tell of it whatever the settings are.
ghost use Rattle.std.specs.Prelude.{◌≡◌, ◌^◌, ◌≤◌, ◌++◌, length, IsTrue, IfOk};
ghost use Rattle.wire.specs.Sum.{total, folded};
ghost use Rattle.wire.specs.First.{fault_of, first};
ghost use Rattle.wire.specs.Addr.{address, same_family};
ghost use Rattle.wire.specs.Udp.{SplitsUdp, udp_parts, udp_faults, sport, dport, pseudo, is_partial, sum_state};

use crate::ip_udp::Addr;
use crate::ip_udp::slices::Slices;
use crate::octets::{UDP, fold, folded, words};
use byteorder::{BigEndian, ByteOrder};
use std::marker::Model;
use thiserror::Error;

/// The octets of a header.
const HEADER: usize = 8;

/// The header is cut, or tells a length below 8 or beyond what is there.
#[derive(Clone, Copy, Debug, PartialEq, Eq, Error)]
#[error("BadUdp")]
pub struct BadUdp;

/// What a checksum says of a datagram (RFC 768).
#[derive(Clone, Copy, Debug, PartialEq, Eq)]
pub enum SumState {
    /// The field is 0: the sender computed none.
    Zero,
    /// It is the datagram's.
    Right,
    /// It isn't the datagram's, but the folded sum of the pseudo header alone, with no complement taken: the sender left it
    /// to its network card to sum up the rest.
    Partial,
    /// It is none of these.
    Wrong,
}

/// A UDP datagram (RFC 768) and what stands behind it, seen by contracts as its parts.
#[derive(Debug, Drop)]
pub struct UdpView<'a> {
    slices: Slices<'a>,
}

impl<'a> Model for UdpView<'a> {
    ghost use Rattle.std.specs.Prelude.{length};
    ghost use Rattle.wire.specs.IpParts.{Parts};
    ghost use Rattle.wire.specs.Udp.{IsUdpHeader};

    ghost Value = { Parts };

    ghost view = { λ v. v.slices };

    ghost invariant = { λ v. IsUdpHeader v.slices.head (length v.slices.payload) };
}

impl<'a> UdpView<'a> {
    /// Reads the datagram that an IP payload begins with.
    ///
    /// `BadUdp`: fewer than 8 octets, or a length below 8 or beyond the octets.
    pub fn read(octets: &'a [u8]) -> Result<UdpView<'a>, BadUdp>
        ensures fault { fault_of result ≡ first (udp_faults octets.now) }
        ensures parts { IfOk result (λ datagram. datagram ≡ udp_parts octets.now) }
        ensures split { IfOk result (λ datagram. SplitsUdp octets.now datagram) }
    {
        if octets.len() < HEADER {
            return Err(BadUdp);
        }
        let end = usize::from(BigEndian::read_u16(&octets[4..]));
        if end < HEADER || octets.len() < end {
            return Err(BadUdp);
        }
        let slices = Slices::cut(octets, HEADER, end);
        Ok(UdpView { slices })
    }

    /// The source port.
    pub fn sport(&self) -> u16
        ensures { result ≡ sport self.now.head }
    {
        BigEndian::read_u16(self.slices.head)
    }

    /// The destination port.
    pub fn dport(&self) -> u16
        ensures { result ≡ dport self.now.head }
    {
        BigEndian::read_u16(&self.slices.head[2..])
    }

    /// What stands behind the header, up to the length that the header tells.
    pub fn payload(&self) -> &'a [u8]
        ensures { result.now ≡ self.now.payload }
    {
        self.slices.payload
    }

    /// What stands behind the datagram in its IP payload.
    pub fn tail(&self) -> &'a [u8]
        ensures { result.now ≡ self.now.tail }
    {
        self.slices.tail
    }

    /// What the checksum says of the datagram between these addresses, which are of one family: over the header and the
    /// payload, and not over the tail.
    #[inline(always)]
    pub fn sum_state(&self, src: Addr, dst: Addr) -> SumState
        requires { IsTrue (same_family src dst) }
        ensures { result ≡ sum_state src dst (self.now.head ++ self.now.payload) }
    {
        let told = BigEndian::read_u16(&self.slices.head[6..]);
        if told == 0 {
            SumState::Zero
        } else if self.sum_between(src, dst) == u16::MAX {
            SumState::Right
        } else if told == fold(self.pseudo_words(src, dst)) {
            SumState::Partial
        } else {
            SumState::Wrong
        }
    }

    /// Whether the checksum is left to the sender's card, as [`UdpView::sum_state`] says it; where it isn't, mostly without
    /// the sum of the payload.
    pub fn is_partial(&self, src: Addr, dst: Addr) -> bool
        requires { IsTrue (same_family src dst) }
        ensures { result ≡ is_partial (sum_state src dst (self.now.head ++ self.now.payload)) }
    {
        if BigEndian::read_u16(&self.slices.head[6..]) != fold(self.pseudo_words(src, dst)) {
            return false;
        }
        matches!(self.sum_state(src, dst), SumState::Partial)
    }

    /// The folded sum of the datagram and of its pseudo header between these addresses (RFC 768; RFC 8200, 8.1).
    #[inline(always)]
    fn sum_between(&self, src: Addr, dst: Addr) -> u16
        requires { IsTrue (same_family src dst) }
        ensures { let datagram = self.now.head ++ self.now.payload in
            result ≡ folded (total (pseudo src dst (length datagram) ++ datagram)) }
    {
        let pseudo = self.pseudo_words(src, dst);
        fold(pseudo + words(self.slices.head) + u64::from(folded(self.slices.payload)))
    }

    /// The sum of the words of the pseudo header between these addresses (RFC 768; RFC 8200, 8.1).
    #[inline(always)]
    fn pseudo_words(&self, src: Addr, dst: Addr) -> u64
        requires { IsTrue (same_family src dst) }
        ensures sum { result ≡ total (pseudo src dst (length (self.now.head ++ self.now.payload))) }
        ensures small { result ≤ 2 ^ 22 }
    {
        let length = u64::from(BigEndian::read_u16(&self.slices.head[4..]));
        address_words(src) + address_words(dst) + u64::from(UDP) + length
    }
}

/// The sum of the words of an address.
fn address_words(addr: Addr) -> u64
    ensures sum { result ≡ total (address addr) }
    ensures small { result ≤ 2 ^ 20 }
{
    match addr {
        Addr::V4(octets) => words(&octets),
        Addr::V6(octets) => words(&octets),
    }
}
