//! How a packet of the underlay comes to a segment, test by test.
ghost use Rattle.std.specs.Prelude.{◌≡◌, ◌++◌, OnOk};
ghost use Rattle.std.specs.Option.{option_map, option_and_then};
ghost use Rattle.overlay.specs.Overlay.{segment_at};
ghost use Rattle.event_story.specs.Ether as ether;
ghost use Rattle.event_story.specs.Packet.{packet_tests, packet_if, datagram_in, carried_in, if_refuses, or_else};
ghost use Rattle.event_story.specs.Packet.{header_refused, vni_fact, ip_fact, receiver_fact, udp_fact, sum_fact};
ghost use Rattle.event_story.specs.Packet.{kind_of, peer_fact, group_fact, packet_fact, packet_facts_of};
ghost use Rattle.endpoint_core.specs.Among.{segment_of};
ghost use Rattle.event_story.specs.declared.fact.Fact.TheVariants as facts;

use crate::ether::{destination_fact, header_fact, source_fact, tag_fact};
use crate::fact::Fact;
use crate::reading::{carried_in, datagram_in, kind_in, packet_if};
use crate::refusal::{put, refusal_of, refuses};
use endpoint_core::{Arrival, segment_of};
use overlay::underlay::{Overlay, PeerRule};
use std::alloc::AllocError;
use wire::ether::{Reason, Refused, Vid};

/// Puts what each test saw of a packet of the underlay, up to the one that refuses, behind some facts. The packet came so to a
/// segment or to none. `AllocError`: there was no room for them.
pub(crate) fn put_packet_facts(
    facts: &mut Vec<Fact>,
    under: &Overlay,
    original: u32,
    octets: &[u8],
    came: &Result<Arrival, Refused>,
) -> Result<(), AllocError>
    ensures { OnOk result (facts.new.items ≡ facts.old.items ++ packet_facts_of under.now original octets.now came.now) }
{
    let refusal = refusal_of(came);
    let tests = packet_tests();
    for test in &tests {
        let saw = packet_fact(under, original, octets, came, *test);
        put(facts, saw)?;
        if refuses(refusal, *test) {
            return Ok(());
        }
    }
    Ok(())
}

/// The tests in their order.
fn packet_tests() -> [Reason; 28]
    ensures { result ≡ packet_tests }
{
    [
        Reason::TooLong,
        Reason::Sliced,
        Reason::Runt,
        Reason::NotIp,
        Reason::BadIp,
        Reason::BadIpSum,
        Reason::BadOuterSource,
        Reason::NotForUs,
        Reason::Fragment,
        Reason::NotUdp,
        Reason::BadUdp,
        Reason::NotTunnel,
        Reason::ZeroSum,
        Reason::BadUdpSum,
        Reason::ShortTunnel,
        Reason::NoVniFlag,
        Reason::BadVersion,
        Reason::Control,
        Reason::NotEthernet,
        Reason::BadOptions,
        Reason::CriticalOption,
        Reason::UnknownVni,
        Reason::WrongGroup,
        Reason::UnknownPeer,
        Reason::InnerRunt,
        Reason::BadSource,
        Reason::Reserved,
        Reason::InnerTag,
    ]
}

/// What a test saw.
fn packet_fact(
    under: &Overlay,
    original: u32,
    octets: &[u8],
    came: &Result<Arrival, Refused>,
    test: Reason,
) -> Option<Fact>
    ensures { result ≡ packet_fact under.now original octets.now came.now test }
{
    match test {
        Reason::TooLong => Some(Fact::Length {
            octets: octets.len(),
            most: 65_549,
        }),
        Reason::Sliced => Some(Fact::Captured {
            octets: octets.len(),
            original,
        }),
        Reason::Runt => Some(header_fact(octets)),
        Reason::NotIp => if_refuses(came, test, Fact::NotIp),
        Reason::BadIp => or_else(came, test, Fact::BadIp, ip_fact(octets)),
        Reason::BadIpSum => if_refuses(came, test, Fact::BadIpSum),
        Reason::BadOuterSource => Some(Fact::Sender {
            other: !refuses(refusal_of(came), test),
        }),
        Reason::NotForUs => receiver_fact(under, octets),
        Reason::Fragment => if_refuses(came, test, Fact::Fragment),
        Reason::NotUdp => protocol_fact(octets),
        Reason::BadUdp => or_else(came, test, Fact::BadUdp, udp_fact(octets)),
        Reason::NotTunnel => tunnel_port_fact(under, octets),
        Reason::ZeroSum => if_refuses(came, test, Fact::NoSum),
        Reason::BadUdpSum => sum_fact(octets),
        Reason::UnknownVni => vni_fact(under, octets, segment_of(came)),
        Reason::WrongGroup => group_fact(octets, came),
        Reason::UnknownPeer => peer_fact(under, came),
        Reason::InnerRunt => inner_header_fact(under, octets),
        Reason::BadSource => inner_source_fact(under, octets),
        Reason::Reserved => inner_destination_fact(under, octets),
        Reason::InnerTag => or_else(came, test, Fact::InnerTag, inner_tag_fact(under, octets)),
        _ => header_refused(under, octets, came, test),
    }
}

/// A fact that only a test which refuses has to tell.
fn if_refuses(came: &Result<Arrival, Refused>, test: Reason, fact: Fact) -> Option<Fact>
    ensures { result ≡ if_refuses came.now test fact }
{
    or_else(came, test, fact, None)
}

/// The one fact where the test refuses, or else the other.
fn or_else(
    came: &Result<Arrival, Refused>,
    test: Reason,
    fact: Fact,
    otherwise: Option<Fact>,
) -> Option<Fact>
    ensures { result ≡ or_else came.now test fact otherwise }
{
    if refuses(refusal_of(came), test) {
        Some(fact)
    } else {
        otherwise
    }
}

/// The addresses of the packet in a frame.
fn ip_fact(octets: &[u8]) -> Option<Fact>
    ensures { result ≡ option_map ip_fact (packet_if octets.now) }
{
    let packet = packet_if(octets)?;
    Some(Fact::Ip {
        source: packet.source,
        destination: packet.destination,
    })
}

/// Whose its destination is.
fn receiver_fact(under: &Overlay, octets: &[u8]) -> Option<Fact>
    ensures { result ≡ option_map (receiver_fact under.now.underlay) (packet_if octets.now) }
{
    let packet = packet_if(octets)?;
    Some(Fact::Receiver {
        group: packet.destination.is_group(),
        own: under.settings().is_own(packet.destination),
    })
}

/// What it carries.
fn protocol_fact(octets: &[u8]) -> Option<Fact>
    ensures { result ≡ option_map (λ p. facts.Protocol p.protocol) (packet_if octets.now) }
{
    let packet = packet_if(octets)?;
    Some(Fact::Protocol {
        number: packet.protocol,
    })
}

/// The ports of the datagram in a frame.
fn udp_fact(octets: &[u8]) -> Option<Fact>
    ensures { result ≡ option_map udp_fact (datagram_in octets.now) }
{
    let (_packet, datagram) = datagram_in(octets)?;
    Some(Fact::Udp {
        source: datagram.sport(),
        destination: datagram.dport(),
    })
}

/// The tunnels at its port.
fn tunnel_port_fact(under: &Overlay, octets: &[u8]) -> Option<Fact>
    ensures { result ≡ option_map (λ found. facts.TunnelPort (kind_of under.now.underlay found)) (datagram_in octets.now) }
{
    let (_packet, datagram) = datagram_in(octets)?;
    Some(Fact::TunnelPort {
        kind: under.kind_at(datagram.dport()),
    })
}

/// What its checksum says.
fn sum_fact(octets: &[u8]) -> Option<Fact>
    ensures { result ≡ option_map sum_fact (datagram_in octets.now) }
{
    let (packet, datagram) = datagram_in(octets)?;
    Some(Fact::Sum {
        state: datagram.sum_state(packet.source, packet.destination),
    })
}

/// A tunnel header that is refused.
fn header_refused(
    under: &Overlay,
    octets: &[u8],
    came: &Result<Arrival, Refused>,
    test: Reason,
) -> Option<Fact>
    ensures { result ≡ header_refused under.now octets.now came.now test }
{
    if !refuses(refusal_of(came), test) {
        return None;
    }
    let kind = kind_in(under, octets)?;
    Some(Fact::Header { kind, reason: test })
}

/// The segment of the VNI in a frame.
fn vni_fact(under: &Overlay, octets: &[u8], segment: Option<Vid>) -> Option<Fact>
    ensures { result ≡ option_map (vni_fact segment) (carried_in under.now octets.now) }
{
    let carried = carried_in(under, octets)?;
    let (kind, vni) = (carried.kind, carried.vni);
    match segment {
        None => Some(Fact::NoVni { kind, vni }),
        Some(vid) => Some(Fact::Vni {
            kind,
            vni,
            segment: vid.get(),
        }),
    }
}

/// Whether a group's packets are for the segment.
fn group_fact(octets: &[u8], came: &Result<Arrival, Refused>) -> Option<Fact>
    ensures { result ≡ option_and_then (group_fact came.now) (packet_if octets.now) }
{
    let packet = packet_if(octets)?;
    if !packet.destination.is_group() {
        return None;
    }
    Some(Fact::Group {
        listed: !refuses(refusal_of(came), Reason::WrongGroup),
    })
}

/// Whether the sender may send to the segment.
fn peer_fact(under: &Overlay, came: &Result<Arrival, Refused>) -> Option<Fact>
    ensures { result ≡ option_map (peer_fact came.now) (option_and_then (segment_at under.now) (segment_of came.now)) }
{
    let vid = segment_of(came)?;
    if !under.has(vid) {
        return None;
    }
    match under.segment(vid).peers {
        PeerRule::Any => Some(Fact::AnyPeer),
        PeerRule::Listed => Some(Fact::Peer {
            listed: !refuses(refusal_of(came), Reason::UnknownPeer),
        }),
    }
}

/// The addresses of the frame in the tunnel.
fn inner_header_fact(under: &Overlay, octets: &[u8]) -> Option<Fact>
    ensures { result ≡ option_map (λ x. ether.header_fact x.inner) (carried_in under.now octets.now) }
{
    let carried = carried_in(under, octets)?;
    Some(header_fact(carried.inner))
}

/// Whether its source is a group's address.
fn inner_source_fact(under: &Overlay, octets: &[u8]) -> Option<Fact>
    ensures { result ≡ option_and_then (λ x. ether.source_fact x.inner) (carried_in under.now octets.now) }
{
    let carried = carried_in(under, octets)?;
    source_fact(carried.inner)
}

/// Whether its destination is a group's address, or reserved.
fn inner_destination_fact(under: &Overlay, octets: &[u8]) -> Option<Fact>
    ensures { result ≡ option_and_then (λ x. ether.destination_fact x.inner) (carried_in under.now octets.now) }
{
    let carried = carried_in(under, octets)?;
    destination_fact(carried.inner)
}

/// Its tag.
fn inner_tag_fact(under: &Overlay, octets: &[u8]) -> Option<Fact>
    ensures { result ≡ option_and_then (λ x. ether.tag_fact x.inner) (carried_in under.now octets.now) }
{
    let carried = carried_in(under, octets)?;
    tag_fact(carried.inner)
}
