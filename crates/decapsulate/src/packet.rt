//! The IP packet in an outer frame.
ghost use Rattle.std.specs.Prelude.{◌≡◌, ◌≤◌, IfOk, length, drop};
ghost use Rattle.decapsulate.specs.Arrival.{packet_in, packet_of, frame_reasons, family_named, typed_reasons, packet_reasons};
ghost use Rattle.wire.specs.First.{first, fault_of};
ghost use Rattle.wire.specs.Ip.{SplitsIp, packet_parts};
ghost use Rattle.wire.specs.IpView.{family_of, parts_of};

use overlay::underlay::Underlay;
use std::marker::Model;
use wire::ether::{EtherView, Reason};
use wire::ip_udp::{Addr, IP4_TYPE, IP6_TYPE, IpFault, IpView, UDP};

/// The most VLAN tags in front of the type of an outer frame.
const MOST_TAGS: usize = 2;

/// A packet of either family, as far as the checks ask for it.
#[derive(Debug, Drop)]
pub struct Packet<'a> {
    pub source: Addr,
    pub destination: Addr,
    pub is_fragment: bool,
    pub protocol: u8,
    /// What stands behind the IP header.
    pub payload: &'a [u8],
}

impl<'a> Model for Packet<'a> {
    ghost use Rattle.std.specs.Prelude.{IsTrue};
    ghost use Rattle.wire.specs.Addr.{same_family};
    ghost use Rattle.decapsulate.specs.Arrival.{Packet};

    ghost Value = { Packet };

    ghost view = { λ p. record {
      source = p.source;
      destination = p.destination;
      is_fragment = p.is_fragment;
      protocol = p.protocol;
      payload = p.payload.now;
    } };

    ghost invariant = { λ p. IsTrue (same_family p.source p.destination) };
}

impl<'a> Packet<'a> {
    /// The packet behind the addresses, at most two tags and the type of a frame.
    /// The first reason, of 3 and 12 to 14, why there is none.
    #[inline(always)]
    pub fn read(octets: &'a [u8]) -> Result<Packet<'a>, Reason>
        ensures fault { fault_of result ≡ first (frame_reasons octets.now) }
        ensures packet { IfOk result (λ packet. packet ≡ packet_in octets.now) }
    {
        let Ok(frame) = EtherView::read(octets) else {
            return Err(Reason::Runt);
        };
        let (_tags, typed) = frame.skip_tags(MOST_TAGS);
        match ip_view(typed) {
            Ok(view) => Ok(Packet::of(&view)),
            Err(reason) => Err(reason),
        }
    }

    /// A packet of either family.
    pub fn of(view: &IpView<'a>) -> Packet<'a>
        ensures { result ≡ packet_of (family_of view.now) (parts_of view.now) }
    {
        Packet {
            source: view.src(),
            destination: view.dst(),
            is_fragment: view.is_fragment(),
            protocol: view.proto(),
            payload: view.payload(),
        }
    }

    /// Whether it is a whole packet from another endpoint to this one, or to a group, that carries UDP.
    #[inline(always)]
    pub(crate) fn check(&self, underlay: &Underlay) -> Result<(), Reason>
        ensures { fault_of result ≡ first (packet_reasons underlay.now self.now) }
    {
        let source = self.source;
        if !source.is_usable() || source.is_group() || underlay.is_own(source) {
            return Err(Reason::BadOuterSource);
        }
        if !self.destination.is_group() && !underlay.is_own(self.destination) {
            return Err(Reason::NotForUs);
        }
        if self.is_fragment {
            return Err(Reason::Fragment);
        }
        if self.protocol != UDP {
            return Err(Reason::NotUdp);
        }
        Ok(())
    }
}

/// The IP packet that stands behind the type of a frame: `typed` is the type and what follows.
///
/// `NotIp`: the type is neither IPv4's nor IPv6's. `BadIp`, `BadIpSum`: as [`IpView`] reads the packet.
#[inline(always)]
pub fn ip_view(typed: &[u8]) -> Result<IpView<'_>, Reason>
    ensures fault { fault_of result ≡ first (typed_reasons typed.now) }
    ensures family { IfOk result (λ view. family_of view ≡ family_named typed.now) }
    ensures parts { IfOk result (λ view. parts_of view ≡ packet_parts (family_named typed.now) (drop 2 typed.now)) }
    ensures long { IfOk result (λ view. 2 ≤ length typed.now) }
    ensures split { IfOk result (λ view. SplitsIp (family_named typed.now) (drop 2 typed.now) (parts_of view)) }
{
    let read = if let Some(text) = typed.strip_prefix(&IP4_TYPE) {
        IpView::read4(text)
    } else if let Some(text) = typed.strip_prefix(&IP6_TYPE) {
        IpView::read6(text)
    } else {
        return Err(Reason::NotIp);
    };
    match read {
        Ok(view) => Ok(view),
        Err(IpFault::BadIp) => Err(Reason::BadIp),
        Err(IpFault::BadIpSum) => Err(Reason::BadIpSum),
    }
}
