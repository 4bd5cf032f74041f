//! Words, and the values among them.
ghost use Rattle.std.specs.Prelude.{◌≡◌, ◌++◌, if◌then◌else◌, OnOk, codes, decimal, string_bytes};
ghost use Rattle.change_story.specs.Words.{behind_colons, mac_text, place_text, port_text, up_word, tunnel_word, group_word};
ghost use Rattle.change_story.specs.Words.{destination_word, origin_word, member_word, receiver_word, sum_word, listed_word};
ghost use Rattle.change_story.specs.Words.{last_text, egress_word, stood_text};

use endpoint_core::{put_hex, put_place};
use filter_db::{Entry, Place};
use overlay::ports::Egress;
use std::alloc::AllocError;
use std::fmt::Write;
use wire::ether::Mac;
use wire::ip_udp::{SumState, Tunnel};

/// Puts a MAC address: its octets in two hexadecimal digits each, with colons between them. `AllocError`: there was no room for it.
pub fn put_mac(text: &mut String, octets: &[u8]) -> Result<(), AllocError>
    ensures { OnOk result (string_bytes text.new ≡ string_bytes text.old ++ mac_text octets.now) }
{
    let [first, rest @ ..] = octets else {
        return Ok(());
    };
    put_hex(text, *first)?;
    for octet in rest {
        text.push(':')?;
        put_hex(text, *octet)?;
    }
    Ok(())
}

/// Puts a place behind a text, a remote with the kind of its tunnel. `AllocError`: there was no room for it.
pub fn put_at(text: &mut String, front: &str, place: Place) -> Result<(), AllocError>
    ensures { OnOk result (string_bytes text.new ≡ string_bytes text.old ++ (front.now ++ place_text place)) }
{
    text.push_str(front)?;
    put_place(text, true, place)
}

/// Puts a place before a text. `AllocError`: there was no room for it.
pub fn put_behind_place(text: &mut String, place: Place, behind: &str) -> Result<(), AllocError>
    ensures { OnOk result (string_bytes text.new ≡ string_bytes text.old ++ (place_text place ++ behind.now)) }
{
    put_place(text, true, place)?;
    text.push_str(behind)
}

/// Puts where an entry stands, and the moment at which it was last seen there or that it is fixed, behind a text.
/// `AllocError`: there was no room for it.
pub fn put_stood(text: &mut String, front: &str, stood: Entry) -> Result<(), AllocError>
    ensures { OnOk result (string_bytes text.new ≡ string_bytes text.old ++ (front.now ++ stood_text stood)) }
{
    put_at(text, front, stood.place)?;
    match stood.last {
        None => text.push_str(" fixed"),
        Some(last) => write!(text, " seen at {last}"),
    }
}

/// Puts a MAC address behind a text. `AllocError`: there was no room for it.
pub fn put_hop(text: &mut String, front: &str, hop: Mac) -> Result<(), AllocError>
    ensures { OnOk result (string_bytes text.new ≡ string_bytes text.old ++ (front.now ++ mac_text hop)) }
{
    text.push_str(front)?;
    put_mac(text, &hop.0)
}

/// Puts a name behind a text. `AllocError`: there was no room for it.
pub fn put_name(text: &mut String, front: &str, name: &str) -> Result<(), AllocError>
    ensures { OnOk result (string_bytes text.new ≡ string_bytes text.old ++ (front.now ++ name.now)) }
{
    text.push_str(front)?;
    text.push_str(name)
}

/// Puts a port, and whether it is up. `AllocError`: there was no room for it.
pub fn put_up(text: &mut String, port: u8, up: bool) -> Result<(), AllocError>
    ensures { OnOk result (string_bytes text.new ≡ string_bytes text.old ++ (port_text port ++ codes " " ++ up_word up)) }
{
    let word = up_word(up);
    write!(text, "port p{port} {word}")
}

/// Puts a port, whether it is a member, and how frames leave there. `AllocError`: there was no room for it.
pub fn put_member(text: &mut String, port: u8, egress: Option<Egress>) -> Result<(), AllocError>
    ensures { OnOk result (string_bytes text.new ≡ string_bytes text.old ++ (port_text port ++ member_word egress)) }
{
    let word = member_word(egress);
    write!(text, "port p{port}{word}")
}

/// Puts whose address, a group's or a sender's, is on the flood list or isn't. `AllocError`: there was no room for it.
pub fn put_listed(text: &mut String, whose: &str, listed: bool) -> Result<(), AllocError>
    ensures { OnOk result (string_bytes text.new ≡ string_bytes text.old ++ (whose.now ++ listed_word listed)) }
{
    let word = listed_word(listed);
    write!(text, "{whose}{word}")
}

/// The one word where something holds, and else the other.
pub fn either<'a>(holds: bool, one: &'a str, other: &'a str) -> &'a str
    ensures { result.now ≡ (if holds then one.now else other.now) }
{
    if holds { one } else { other }
}

/// How frames leave at a port: a word behind a space.
pub fn egress_word(egress: Option<Egress>) -> &'static str
    ensures { result.now ≡ egress_word egress }
{
    match egress {
        None => " no member",
        Some(Egress::Tagged) => " tagged",
        Some(Egress::Untagged) => " untagged",
    }
}

/// Whether a port is up.
pub fn up_word(up: bool) -> &'static str
    ensures { result.now ≡ up_word up }
{
    if up { "up" } else { "down" }
}

/// The name of a kind of tunnel.
pub fn tunnel_word(kind: Tunnel) -> &'static str
    ensures { result.now ≡ tunnel_word kind }
{
    match kind {
        Tunnel::Vxlan => "vxlan",
        Tunnel::Geneve => "geneve",
    }
}

/// Of an address whether it is a group's.
pub fn group_word(group: bool) -> &'static str
    ensures { result.now ≡ group_word group }
{
    if group { "group" } else { "individual" }
}

/// The same of a destination, or that no bridge forwards it.
pub fn destination_word(group: bool, reserved: bool) -> &'static str
    ensures { result.now ≡ destination_word group reserved }
{
    if reserved {
        "reserved"
    } else {
        group_word(group)
    }
}

/// Where a VID comes from: the tag, or the port.
pub fn origin_word(by_tag: bool) -> &'static str
    ensures { result.now ≡ origin_word by_tag }
{
    if by_tag { "the tag" } else { "the port" }
}

/// Whether a port is a member, and how frames leave there: words behind a space.
pub fn member_word(egress: Option<Egress>) -> &'static str
    ensures { result.now ≡ member_word egress }
{
    match egress {
        None => " no member",
        Some(Egress::Tagged) => " member, tagged",
        Some(Egress::Untagged) => " member, untagged",
    }
}

/// Whose an outer destination is: a group's, the endpoint's own, or another's.
pub fn receiver_word(group: bool, own: bool) -> &'static str
    ensures { result.now ≡ receiver_word group own }
{
    if group {
        "receiver a group"
    } else if own {
        "receiver the endpoint"
    } else {
        "receiver another host"
    }
}

/// What a UDP checksum says.
pub fn sum_word(state: SumState) -> &'static str
    ensures { result.now ≡ sum_word state }
{
    match state {
        SumState::Zero => "0",
        SumState::Right => "right",
        SumState::Partial => "left to the card",
        SumState::Wrong => "wrong",
    }
}

/// Whether a remote endpoint is on the flood list: words behind a space.
pub fn listed_word(listed: bool) -> &'static str
    ensures { result.now ≡ listed_word listed }
{
    if listed {
        " on the flood list"
    } else {
        " not on the flood list"
    }
}
