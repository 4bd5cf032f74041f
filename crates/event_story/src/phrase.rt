//! What tests saw: values between words.
ghost use Rattle.std.specs.Prelude.{◌≡◌, ◌++◌, if◌then◌else◌, OnOk, codes, decimal, string_bytes};
ghost use Rattle.endpoint_core.specs.Text.{addr_text};
ghost use Rattle.change_story.specs.Words.{mac_text, place_text, port_text, tunnel_word, origin_word, egress_word, stood_text};
ghost use Rattle.event_story.specs.Line.{unsent_text, length_text, learned_text, known_text, ports_text, tunnel_port_text};

use change_story::words::{
    egress_word, either, origin_word, put_at, put_hop, put_mac, put_name, put_stood, tunnel_word,
};
use endpoint_core::put_addr;
use filter_db::{Entry, Place};
use overlay::ports::Egress;
use std::alloc::AllocError;
use std::fmt::Write;
use wire::ether::{Mac, Reason};
use wire::ip_udp::{Addr, Tunnel};

/// Puts two numbers, each behind its words.
pub(crate) fn put_both(
    text: &mut String,
    front: &str,
    one: u64,
    between: &str,
    other: u64,
) -> Result<(), AllocError>
    ensures { OnOk result (string_bytes text.new ≡ string_bytes text.old ++ (front.now ++ decimal one ++ between.now ++ decimal other)) }
{
    write!(text, "{front}{one}{between}{other}")
}

pub(crate) fn put_short(text: &mut String, octets: usize) -> Result<(), AllocError>
    ensures { OnOk result (string_bytes text.new
        ≡ string_bytes text.old ++ (codes "octets " ++ decimal octets ++ codes ", fewer than 14")) }
{
    write!(text, "octets {octets}, fewer than 14")
}

pub(crate) fn put_protocol(text: &mut String, number: u8) -> Result<(), AllocError>
    ensures { OnOk result (string_bytes text.new ≡ string_bytes text.old ++ (codes "protocol " ++ decimal number)) }
{
    write!(text, "protocol {number}")
}

pub(crate) fn put_ether(text: &mut String, source: Mac, destination: Mac) -> Result<(), AllocError>
    ensures { OnOk result (string_bytes text.new
        ≡ string_bytes text.old ++ (codes "ether " ++ mac_text source ++ codes " > " ++ mac_text destination)) }
{
    text.push_str("ether ")?;
    put_mac(text, &source.0)?;
    text.push_str(" > ")?;
    put_mac(text, &destination.0)
}

pub(crate) fn put_tag(text: &mut String, vid: u16, pcp: u8, dei: bool) -> Result<(), AllocError>
    ensures { OnOk result (string_bytes text.new ≡ string_bytes text.old
        ++ (codes "tag vid " ++ decimal vid ++ codes " pcp " ++ decimal pcp ++ codes " dei " ++ (if dei then codes "1" else codes "0"))) }
{
    let bit = either(dei, "1", "0");
    write!(text, "tag vid {vid} pcp {pcp} dei {bit}")
}

pub(crate) fn put_accepts(
    text: &mut String,
    port: u8,
    tagged: bool,
    taken: bool,
) -> Result<(), AllocError>
    ensures { OnOk result (string_bytes text.new ≡ string_bytes text.old
        ++ (port_text port ++ (if taken then codes " takes " else codes " refuses ")
        ++ (if tagged then codes "frames with a vid" else codes "frames without a vid"))) }
{
    let takes = either(taken, " takes ", " refuses ");
    let frames = either(tagged, "frames with a vid", "frames without a vid");
    write!(text, "port p{port}{takes}{frames}")
}

/// Puts the VID of a frame behind a text, and where it comes from.
pub(crate) fn put_segment(
    text: &mut String,
    front: &str,
    vid: u16,
    by_tag: bool,
) -> Result<(), AllocError>
    ensures { OnOk result (string_bytes text.new ≡ string_bytes text.old
        ++ (front.now ++ decimal vid ++ codes " by the vid of " ++ origin_word by_tag)) }
{
    let origin = origin_word(by_tag);
    write!(text, "{front}{vid} by the vid of {origin}")
}

pub(crate) fn put_ip(text: &mut String, source: Addr, destination: Addr) -> Result<(), AllocError>
    ensures { OnOk result (string_bytes text.new
        ≡ string_bytes text.old ++ (codes "ip " ++ addr_text source ++ codes " > " ++ addr_text destination)) }
{
    text.push_str("ip ")?;
    put_addr(text, source)?;
    text.push_str(" > ")?;
    put_addr(text, destination)
}

/// Puts a port, or those from one number to another, before a text.
pub(crate) fn put_ports(
    text: &mut String,
    first: u8,
    last: u8,
    behind: &str,
) -> Result<(), AllocError>
    ensures { OnOk result (string_bytes text.new ≡ string_bytes text.old ++ (ports_text first last ++ behind.now)) }
{
    if first == last {
        return write!(text, "port p{first}{behind}");
    }
    write!(text, "ports p{first}-p{last}{behind}")
}

pub(crate) fn put_tunnel_port(text: &mut String, kind: Option<Tunnel>) -> Result<(), AllocError>
    ensures { OnOk result (string_bytes text.new ≡ string_bytes text.old ++ tunnel_port_text kind) }
{
    match kind {
        None => text.push_str("port of no tunnel"),
        Some(kind) => put_name(text, "port of ", tunnel_word(kind)),
    }
}

pub(crate) fn put_header(text: &mut String, kind: Tunnel, name: &str) -> Result<(), AllocError>
    ensures { OnOk result (string_bytes text.new ≡ string_bytes text.old ++ (tunnel_word kind ++ codes " header " ++ name.now)) }
{
    let word = tunnel_word(kind);
    write!(text, "{word} header {name}")
}

pub(crate) fn put_vni(
    text: &mut String,
    kind: Tunnel,
    vni: u32,
    segment: u16,
) -> Result<(), AllocError>
    ensures { OnOk result (string_bytes text.new ≡ string_bytes text.old
        ++ (tunnel_word kind ++ codes " vni " ++ decimal vni ++ codes " of segment " ++ decimal segment)) }
{
    let word = tunnel_word(kind);
    write!(text, "{word} vni {vni} of segment {segment}")
}

pub(crate) fn put_no_vni(text: &mut String, kind: Tunnel, vni: u32) -> Result<(), AllocError>
    ensures { OnOk result (string_bytes text.new ≡ string_bytes text.old
        ++ (tunnel_word kind ++ codes " vni " ++ decimal vni ++ codes " of no segment")) }
{
    let word = tunnel_word(kind);
    write!(text, "{word} vni {vni} of no segment")
}

pub(crate) fn put_learned(
    text: &mut String,
    place: Place,
    stood: Option<Entry>,
) -> Result<(), AllocError>
    ensures { OnOk result (string_bytes text.new ≡ string_bytes text.old ++ learned_text place stood) }
{
    match stood {
        None => put_at(text, "source new at ", place),
        Some(stood) => {
            put_at(text, "source learned at ", place)?;
            put_stood(text, ", before at ", stood)
        }
    }
}

pub(crate) fn put_full(text: &mut String, limit: u32) -> Result<(), AllocError>
    ensures { OnOk result (string_bytes text.new ≡ string_bytes text.old
        ++ (codes "source not learned, the table has its limit of " ++ decimal limit)) }
{
    write!(
        text,
        "source not learned, the table has its limit of {limit}"
    )
}

pub(crate) fn put_known(text: &mut String, stood: Option<Entry>) -> Result<(), AllocError>
    ensures { OnOk result (string_bytes text.new ≡ string_bytes text.old ++ known_text stood) }
{
    match stood {
        None => text.push_str("destination unknown, flooded"),
        Some(stood) => put_stood(text, "destination at ", stood),
    }
}

pub(crate) fn put_dead(text: &mut String, stood: Entry, since: u64) -> Result<(), AllocError>
    ensures { OnOk result (string_bytes text.new ≡ string_bytes text.old
        ++ (codes "destination dead since " ++ decimal since ++ codes ", before at " ++ stood_text stood ++ codes ", flooded")) }
{
    write!(text, "destination dead since {since}")?;
    put_stood(text, ", before at ", stood)?;
    text.push_str(", flooded")
}

pub(crate) fn put_at_port(
    text: &mut String,
    port: u8,
    egress: Option<Egress>,
) -> Result<(), AllocError>
    ensures { OnOk result (string_bytes text.new ≡ string_bytes text.old ++ (codes "out p" ++ decimal port ++ egress_word egress)) }
{
    let word = egress_word(egress);
    write!(text, "out p{port}{word}")
}

pub(crate) fn put_in_tunnel(
    text: &mut String,
    place: Place,
    vni: u32,
    hop: Mac,
    packet: usize,
    mtu: u16,
    reason: Option<Reason>,
) -> Result<(), AllocError>
    ensures { OnOk result (string_bytes text.new ≡ string_bytes text.old
        ++ (codes "out " ++ place_text place ++ codes " vni " ++ decimal vni
        ++ codes " next hop " ++ mac_text hop ++ length_text packet mtu ++ unsent_text reason)) }
{
    put_at(text, "out ", place)?;
    write!(text, " vni {vni}")?;
    put_hop(text, " next hop ", hop)?;
    put_length(text, packet, mtu)?;
    put_unsent(text, reason)
}

fn put_length(text: &mut String, packet: usize, mtu: u16) -> Result<(), AllocError>
    ensures { OnOk result (string_bytes text.new ≡ string_bytes text.old ++ length_text packet mtu) }
{
    write!(text, ", packet {packet} of at most {mtu}")
}

fn put_unsent(text: &mut String, reason: Option<Reason>) -> Result<(), AllocError>
    ensures { OnOk result (string_bytes text.new ≡ string_bytes text.old ++ unsent_text reason) }
{
    match reason {
        None => Ok(()),
        Some(reason) => put_name(text, ", not sent ", reason.name()),
    }
}
