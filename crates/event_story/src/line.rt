//! Facts as lines.
ghost use Rattle.std.specs.Prelude.{◌≡◌, ◌++◌, OnOk, string_bytes};
ghost use Rattle.event_story.specs.Line.{words, fact_line, facts_text};

use crate::fact::Fact;
use crate::phrase::{
    put_accepts, put_at_port, put_both, put_dead, put_ether, put_full, put_header, put_in_tunnel,
    put_ip, put_known, put_learned, put_no_vni, put_ports, put_protocol, put_segment, put_short,
    put_tag, put_tunnel_port, put_vni,
};
use change_story::words::{
    destination_word, either, group_word, put_behind_place, put_listed, put_member, put_name,
    put_stood, put_up, receiver_word, sum_word,
};
use filter_db::Place;
use std::alloc::AllocError;

/// Puts the lines of some facts behind a text. `AllocError`: there was no room for them.
pub(crate) fn put_facts(text: &mut String, facts: &[Fact]) -> Result<(), AllocError>
    ensures { OnOk result (string_bytes text.new ≡ string_bytes text.old ++ facts_text facts.now) }
{
    for fact in facts {
        put_fact(text, *fact)?;
    }
    Ok(())
}

/// Puts the line of a fact.
fn put_fact(text: &mut String, fact: Fact) -> Result<(), AllocError>
    ensures { OnOk result (string_bytes text.new ≡ string_bytes text.old ++ fact_line fact) }
{
    text.push_str("  ")?;
    put_words(text, fact)?;
    text.push('\n')
}

/// Puts what a test saw.
fn put_words(text: &mut String, fact: Fact) -> Result<(), AllocError>
    ensures { OnOk result (string_bytes text.new ≡ string_bytes text.old ++ words fact) }
{
    match fact {
        Fact::Length { octets, most } => {
            put_both(text, "length ", octets as u64, ", at most ", most as u64)
        }
        Fact::Captured { octets, original } => {
            put_both(
                text,
                "captured ",
                octets as u64,
                " of ",
                u64::from(original),
            )
        }
        Fact::Short { octets } => put_short(text, octets),
        Fact::Ether {
            source,
            destination,
        } => put_ether(text, source, destination),
        Fact::Source { group } => put_name(text, "source ", group_word(group)),
        Fact::Destination { group, reserved } => {
            put_name(text, "destination ", destination_word(group, reserved))
        }
        Fact::Port { port, up } => put_up(text, port, up),
        Fact::Tag { vid, pcp, dei } => put_tag(text, vid, pcp, dei),
        Fact::NoTag => text.push_str("no tag"),
        Fact::CutTag => text.push_str("tag cut short"),
        Fact::ReservedVid => text.push_str("vid 4095 reserved"),
        Fact::Accepts {
            port,
            tagged,
            taken,
        } => put_accepts(text, port, tagged, taken),
        Fact::Segment { vid, by_tag } => put_segment(text, "segment ", vid, by_tag),
        Fact::NoSegment { vid, by_tag } => put_segment(text, "no segment ", vid, by_tag),
        Fact::Member { port, egress } => put_member(text, port, egress),
        Fact::NotIp => text.push_str("neither ip4 nor ip6"),
        Fact::BadIp => text.push_str("ip header cut, or a length wrong"),
        Fact::BadIpSum => text.push_str("ip4 header checksum wrong"),
        Fact::Ip {
            source,
            destination,
        } => put_ip(text, source, destination),
        Fact::Sender { other } => text.push_str(either(
            other,
            "sender another endpoint",
            "sender no other endpoint",
        )),
        Fact::Receiver { group, own } => text.push_str(receiver_word(group, own)),
        Fact::Fragment => text.push_str("fragment"),
        Fact::Protocol { number } => put_protocol(text, number),
        Fact::BadUdp => text.push_str("udp header cut, or its length wrong"),
        Fact::Udp {
            source,
            destination,
        } => put_both(
            text,
            "udp ",
            u64::from(source),
            " > ",
            u64::from(destination),
        ),
        Fact::TunnelPort { kind } => put_tunnel_port(text, kind),
        Fact::NoSum => text.push_str("no udp checksum over ip6"),
        Fact::Sum { state } => put_name(text, "udp checksum ", sum_word(state)),
        Fact::Header { kind, reason } => put_header(text, kind, reason.name()),
        Fact::Vni { kind, vni, segment } => put_vni(text, kind, vni, segment),
        Fact::NoVni { kind, vni } => put_no_vni(text, kind, vni),
        Fact::Group { listed } => put_listed(text, "group", listed),
        Fact::Peer { listed } => put_listed(text, "sender", listed),
        Fact::AnyPeer => text.push_str("any sender"),
        Fact::InnerTag => text.push_str("inner tag, which the segment drops"),
        Fact::NotLearning => text.push_str("source not learned, learning is off"),
        Fact::Learned { place, stood } => put_learned(text, place, stood),
        Fact::Fixed { stood } => put_stood(text, "source not learned, it is at ", stood),
        Fact::Full { limit } => put_full(text, limit),
        Fact::ToGroup => text.push_str("destination a group, flooded"),
        Fact::Known { stood } => put_known(text, stood),
        Fact::Dead { stood, since } => put_dead(text, stood, since),
        Fact::Same { place } => put_behind_place(text, place, " is where it came from"),
        Fact::Horizon { place } => {
            put_behind_place(text, place, " is of the sender's horizon group")
        }
        Fact::Shut { place } => put_behind_place(text, place, " down, or no member"),
        Fact::PortsDown { first, last } => put_ports(text, first, last, " down"),
        Fact::NoMembers { first, last } => put_ports(text, first, last, " no member"),
        Fact::Nobody => text.push_str("nobody to flood to"),
        Fact::AtPort { port, egress } => put_at_port(text, port, egress),
        Fact::InTunnel {
            kind,
            addr,
            vni,
            hop,
            packet,
            mtu,
            reason,
        } => {
            let place = Place::Remote(kind, addr);
            put_in_tunnel(text, place, vni, hop, packet, mtu, reason)
        }
    }
}
