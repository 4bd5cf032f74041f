//! What there is to read in a packet of the underlay.
ghost use Rattle.std.specs.Prelude.{◌≡◌};
ghost use Rattle.event_story.specs.Packet.{packet_if, datagram_if, inner_if, datagram_in, kind_of, carried_in};
ghost use Rattle.std.specs.Option.{option_and_then};

use decapsulate::{Packet, ip_view};
use overlay::underlay::Overlay;
use std::marker::Model;
use wire::ether::EtherView;
use wire::geneve::{GeneveView, Known};
use wire::ip_udp::{Tunnel, UdpView};
use wire::vxlan::VxlanView;

/// The most VLAN tags in front of the type of an outer frame.
const MOST_TAGS: usize = 2;

/// What a tunnel header stands before.
#[derive(Drop)]
pub(crate) struct Carried<'a> {
    pub(crate) kind: Tunnel,
    pub(crate) vni: u32,
    pub(crate) inner: &'a [u8],
}

impl<'a> Model for Carried<'a> {
    ghost use Rattle.event_story.specs.Carried.{Carried};

    ghost Value = { Carried };

    ghost view = { λ c. record { kind = c.kind; vni = c.vni; inner = c.inner.now } };
}

/// The IP packet in a frame, where there is one.
pub(crate) fn packet_if<'a>(octets: &'a [u8]) -> Option<Packet<'a>>
    ensures { result ≡ packet_if octets.now }
{
    match EtherView::read(octets) {
        Ok(frame) => {
            let (_tags, typed) = frame.skip_tags(MOST_TAGS);
            match ip_view(typed) {
                Ok(view) => Some(Packet::of(&view)),
                Err(_) => None,
            }
        }
        Err(_) => None,
    }
}

/// The datagram in the payload of a packet, where there is one.
fn datagram_if<'a>(payload: &'a [u8]) -> Option<UdpView<'a>>
    ensures { result ≡ datagram_if payload.now }
{
    match UdpView::read(payload) {
        Ok(view) => Some(view),
        Err(_) => None,
    }
}

/// The datagram of a frame, with its packet.
pub(crate) fn datagram_in<'a>(octets: &'a [u8]) -> Option<(Packet<'a>, UdpView<'a>)>
    ensures { result ≡ datagram_in octets.now }
{
    let packet = packet_if(octets)?;
    let datagram = datagram_if(packet.payload)?;
    Some((packet, datagram))
}

/// What stands in a tunnel of a kind.
fn inner_if<'a>(known: &Known, octets: &'a [u8], kind: Tunnel) -> Option<Carried<'a>>
    ensures { result ≡ inner_if known.now octets.now kind }
{
    match kind {
        Tunnel::Vxlan => match VxlanView::read(octets) {
            Ok(view) => Some(Carried {
                kind,
                vni: view.vni().get(),
                inner: view.payload(),
            }),
            Err(_) => None,
        },
        Tunnel::Geneve => match GeneveView::read(octets, known) {
            Ok(view) => Some(Carried {
                kind,
                vni: view.vni().get(),
                inner: view.payload(),
            }),
            Err(_) => None,
        },
    }
}

/// What stands in the tunnel of a frame.
pub(crate) fn carried_in<'a>(under: &Overlay, octets: &'a [u8]) -> Option<Carried<'a>>
    ensures { result ≡ carried_in under.now octets.now }
{
    let (_packet, datagram) = datagram_in(octets)?;
    let kind = under.kind_at(datagram.dport())?;
    inner_if(under.known(), datagram.payload(), kind)
}

/// The kind of tunnels at the port of the datagram in a frame.
pub(crate) fn kind_in(under: &Overlay, octets: &[u8]) -> Option<Tunnel>
    ensures { result ≡ option_and_then (kind_of under.now.underlay) (datagram_in octets.now) }
{
    let (_packet, datagram) = datagram_in(octets)?;
    under.kind_at(datagram.dport())
}
