//! What a change asks for, as a line.
ghost use Rattle.std.specs.Prelude.{◌≡◌, ◌++◌, OnOk, Some, codes, decimal, string_bytes};
ghost use Rattle.endpoint_core.specs.Text.{addr_text};
ghost use Rattle.change_story.specs.Words.{mac_text, tunnel_word};
ghost use Rattle.change_story.specs.Change.{change_line, change_text, egress_name, named_text, numbers_text, of_vid, target_text};
ghost use Rattle.change_story.specs.Change.{first_text, other_kind, peers_word, rules_text, second_text};
ghost use Rattle.change_story.specs.Change.{tags_word, truth_word, tunnels_from, tunnels_text};

use crate::words::{either, put_hop, put_name, tunnel_word};
use endpoint_core::put_addr;
use endpoint_core::state::{Change, NewSegment, Target};
use overlay::ports::Egress;
use overlay::underlay::{PeerRule, SegmentTunnel, TagRule, Tunnels};
use std::alloc::AllocError;
use std::fmt::Write;
use wire::ether::{Mac, Vid};
use wire::ip_udp::{Addr, Tunnel};

/// Puts the line of a change. `AllocError`: there was no room for it.
pub(crate) fn put_change(text: &mut String, change: Change) -> Result<(), AllocError>
    ensures { OnOk result (string_bytes text.new ≡ string_bytes text.old ++ change_line change) }
{
    text.push_str("  ")?;
    put_asked(text, change)?;
    text.push('\n')
}

/// Puts the kind of a change, and its keys with their values.
fn put_asked(text: &mut String, change: Change) -> Result<(), AllocError>
    ensures { OnOk result (string_bytes text.new ≡ string_bytes text.old ++ change_text change) }
{
    match change {
        Change::AddFlood { vid, addr, tunnel } => {
            put_remote(text, "add_flood", vid, " addr ", addr, tunnel)
        }
        Change::RemoveFlood { vid, addr, tunnel } => {
            put_remote(text, "remove_flood", vid, " addr ", addr, tunnel)
        }
        Change::Fix { vid, mac, target } => put_fix(text, vid, mac, target),
        Change::Unfix { vid, mac } => put_of_mac(text, "unfix", vid, mac),
        Change::SetAgeing { vid, seconds } => {
            put_number(text, "set_ageing", vid, " seconds ", seconds)
        }
        Change::SetLearning { vid, on } => {
            put_word(
                text,
                "set_learning",
                vid,
                either(on, " on true", " on false"),
            )
        }
        Change::SetMember { vid, port, egress } => put_member(text, vid, port, egress),
        Change::PortUp { port } => put_of_port(text, "port_up", port),
        Change::PortDown { port } => put_of_port(text, "port_down", port),
        Change::Flush { vid } => put_of_vid(text, "flush", vid),
        Change::AddSegment(new) => put_new(text, &new),
        Change::RemoveSegment { vid } => put_of_vid(text, "remove_segment", vid),
        Change::SetLimit { vid, limit } => put_number(text, "set_limit", vid, " limit ", limit),
    }
}

/// Puts a kind and a VID.
fn put_of_vid(text: &mut String, kind: &str, vid: Vid) -> Result<(), AllocError>
    ensures { OnOk result (string_bytes text.new ≡ string_bytes text.old ++ of_vid kind.now vid) }
{
    let number = vid.get();
    write!(text, "{kind} vid {number}")
}

/// Puts a kind and the number of a port.
fn put_of_port(text: &mut String, kind: &str, port: u8) -> Result<(), AllocError>
    ensures { OnOk result (string_bytes text.new ≡ string_bytes text.old ++ (kind.now ++ codes " port " ++ decimal port)) }
{
    write!(text, "{kind} port {port}")
}

/// Puts a kind, a VID and a word.
fn put_word(text: &mut String, kind: &str, vid: Vid, word: &str) -> Result<(), AllocError>
    ensures { OnOk result (string_bytes text.new ≡ string_bytes text.old ++ (of_vid kind.now vid ++ word.now)) }
{
    put_of_vid(text, kind, vid)?;
    text.push_str(word)
}

/// Puts a kind, a VID and a number behind its key.
fn put_number(
    text: &mut String,
    kind: &str,
    vid: Vid,
    key: &str,
    number: u32,
) -> Result<(), AllocError>
    ensures { OnOk result (string_bytes text.new ≡ string_bytes text.old ++ (of_vid kind.now vid ++ key.now ++ decimal number)) }
{
    put_word(text, kind, vid, key)?;
    write!(text, "{number}")
}

/// Puts a kind, a VID and a MAC address.
fn put_of_mac(text: &mut String, kind: &str, vid: Vid, mac: Mac) -> Result<(), AllocError>
    ensures { OnOk result (string_bytes text.new ≡ string_bytes text.old ++ (of_vid kind.now vid ++ codes " mac " ++ mac_text mac)) }
{
    put_of_vid(text, kind, vid)?;
    put_hop(text, " mac ", mac)
}

/// Puts a kind, a VID and a remote endpoint behind its key.
fn put_remote(
    text: &mut String,
    kind: &str,
    vid: Vid,
    key: &str,
    addr: Addr,
    tunnel: Option<Tunnel>,
) -> Result<(), AllocError>
    ensures { OnOk result (string_bytes text.new
        ≡ string_bytes text.old ++ (of_vid kind.now vid ++ key.now ++ addr_text addr ++ named_text tunnel)) }
{
    put_word(text, kind, vid, key)?;
    put_addr(text, addr)?;
    put_named(text, tunnel)
}

/// Puts the tunnel that is named, if one is.
fn put_named(text: &mut String, tunnel: Option<Tunnel>) -> Result<(), AllocError>
    ensures { OnOk result (string_bytes text.new ≡ string_bytes text.old ++ named_text tunnel) }
{
    match tunnel {
        None => Ok(()),
        Some(kind) => put_name(text, " tunnel ", tunnel_word(kind)),
    }
}

fn put_fix(text: &mut String, vid: Vid, mac: Mac, target: Target) -> Result<(), AllocError>
    ensures { OnOk result (string_bytes text.new
        ≡ string_bytes text.old ++ (of_vid (codes "fix") vid ++ codes " mac " ++ mac_text mac ++ target_text target)) }
{
    put_of_mac(text, "fix", vid, mac)?;
    put_target(text, target)
}

/// Puts where a fixed entry is to stand.
fn put_target(text: &mut String, target: Target) -> Result<(), AllocError>
    ensures { OnOk result (string_bytes text.new ≡ string_bytes text.old ++ target_text target) }
{
    match target {
        Target::Local(port) => write!(text, " port {port}"),
        Target::Remote(addr, tunnel) => put_at_remote(text, addr, tunnel),
    }
}

fn put_at_remote(text: &mut String, addr: Addr, tunnel: Option<Tunnel>) -> Result<(), AllocError>
    ensures { OnOk result (string_bytes text.new ≡ string_bytes text.old ++ (codes " remote " ++ addr_text addr ++ named_text tunnel)) }
{
    text.push_str(" remote ")?;
    put_addr(text, addr)?;
    put_named(text, tunnel)
}

fn put_member(
    text: &mut String,
    vid: Vid,
    port: u8,
    egress: Option<Egress>,
) -> Result<(), AllocError>
    ensures { OnOk result (string_bytes text.new
        ≡ string_bytes text.old ++ (of_vid (codes "set_member") vid ++ codes " port " ++ decimal port ++ egress_name egress)) }
{
    put_of_vid(text, "set_member", vid)?;
    put_egress(text, port, egress_name(egress))
}

/// Puts a port, and how frames are to leave there.
fn put_egress(text: &mut String, port: u8, egress: &str) -> Result<(), AllocError>
    ensures { OnOk result (string_bytes text.new ≡ string_bytes text.old ++ (codes " port " ++ decimal port ++ egress.now)) }
{
    write!(text, " port {port}{egress}")
}

fn put_new(text: &mut String, new: &NewSegment) -> Result<(), AllocError>
    ensures { OnOk result (string_bytes text.new ≡ string_bytes text.old
        ++ (of_vid (codes "add_segment") new.now.vid ++ tunnels_text new.now.tunnels ++ numbers_text new.now.limit new.now.ageing
        ++ rules_text new.now.learning new.now.peers new.now.tags)) }
{
    put_segment(text, new.vid, &new.tunnels, new.limit, new.ageing)?;
    put_rules(text, new.learning, new.peers, new.tags)
}

/// Puts a segment that is to come, up to the numbers of its table.
fn put_segment(
    text: &mut String,
    vid: Vid,
    tunnels: &Tunnels,
    limit: u32,
    ageing: u32,
) -> Result<(), AllocError>
    ensures { OnOk result (string_bytes text.new ≡ string_bytes text.old
        ++ (of_vid (codes "add_segment") vid ++ tunnels_text tunnels.now ++ numbers_text limit ageing)) }
{
    put_of_vid(text, "add_segment", vid)?;
    put_tunnels(text, tunnels)?;
    put_numbers(text, limit, ageing)
}

/// Puts a limit and an ageing.
fn put_numbers(text: &mut String, limit: u32, ageing: u32) -> Result<(), AllocError>
    ensures { OnOk result (string_bytes text.new
        ≡ string_bytes text.old ++ numbers_text limit ageing) }
{
    write!(text, " limit {limit} ageing {ageing}")
}

/// Puts tunnels, the first of them first.
fn put_tunnels(text: &mut String, tunnels: &Tunnels) -> Result<(), AllocError>
    ensures { OnOk result (string_bytes text.new ≡ string_bytes text.old ++ tunnels_text tunnels.now) }
{
    put_both(text, tunnels, tunnels.first())
}

/// Puts the first tunnel, and the second where there is one.
fn put_both(text: &mut String, tunnels: &Tunnels, first: SegmentTunnel) -> Result<(), AllocError>
    ensures { OnOk result (string_bytes text.new ≡ string_bytes text.old ++ tunnels_from (Some first) tunnels.now) }
{
    let second = tunnels.of(other_kind(first.kind));
    put_first(text, first)?;
    put_second(text, second)
}

/// Puts the first tunnel.
fn put_first(text: &mut String, first: SegmentTunnel) -> Result<(), AllocError>
    ensures { OnOk result (string_bytes text.new ≡ string_bytes text.old ++ first_text first) }
{
    put_first_of(text, first.vni.get(), tunnel_word(first.kind), first.group)
}

fn put_first_of(text: &mut String, vni: u32, kind: &str, group: u8) -> Result<(), AllocError>
    ensures { OnOk result (string_bytes text.new ≡ string_bytes text.old
        ++ (codes " vni " ++ decimal vni ++ codes " tunnel " ++ kind.now ++ codes " group " ++ decimal group)) }
{
    write!(text, " vni {vni} tunnel {kind} group {group}")
}

/// Puts the second tunnel, where there is one.
fn put_second(text: &mut String, second: Option<SegmentTunnel>) -> Result<(), AllocError>
    ensures { OnOk result (string_bytes text.new ≡ string_bytes text.old ++ second_text second) }
{
    match second {
        None => Ok(()),
        Some(second) => put_second_of(text, second.vni.get(), second.group),
    }
}

fn put_second_of(text: &mut String, vni: u32, group: u8) -> Result<(), AllocError>
    ensures { OnOk result (string_bytes text.new ≡ string_bytes text.old
        ++ (codes " vni2 " ++ decimal vni ++ codes " group2 " ++ decimal group)) }
{
    write!(text, " vni2 {vni} group2 {group}")
}

/// Puts whether a segment learns, who may send to it, and what becomes of inner tags.
fn put_rules(
    text: &mut String,
    learning: bool,
    peers: PeerRule,
    tags: TagRule,
) -> Result<(), AllocError>
    ensures { OnOk result (string_bytes text.new ≡ string_bytes text.old ++ rules_text learning peers tags) }
{
    put_rule_words(
        text,
        truth_word(learning),
        peers_word(peers),
        tags_word(tags),
    )
}

fn put_rule_words(text: &mut String, learn: &str, peers: &str, tags: &str) -> Result<(), AllocError>
    ensures { OnOk result (string_bytes text.new ≡ string_bytes text.old
        ++ (codes " learn " ++ learn.now ++ codes " peers " ++ peers.now ++ codes " tags " ++ tags.now)) }
{
    write!(text, " learn {learn} peers {peers} tags {tags}")
}

/// The kind of a second tunnel beside a first one of this kind.
fn other_kind(kind: Tunnel) -> Tunnel
    ensures { result ≡ other_kind kind }
{
    match kind {
        Tunnel::Vxlan => Tunnel::Geneve,
        Tunnel::Geneve => Tunnel::Vxlan,
    }
}

fn truth_word(holds: bool) -> &'static str
    ensures { result.now ≡ truth_word holds }
{
    if holds { "true" } else { "false" }
}

fn peers_word(peers: PeerRule) -> &'static str
    ensures { result.now ≡ peers_word peers }
{
    match peers {
        PeerRule::Any => "any",
        PeerRule::Listed => "listed",
    }
}

fn tags_word(tags: TagRule) -> &'static str
    ensures { result.now ≡ tags_word tags }
{
    match tags {
        TagRule::Drop => "drop",
        TagRule::Pass => "pass",
        TagRule::Never => "never",
    }
}

fn egress_name(egress: Option<Egress>) -> &'static str
    ensures { result.now ≡ egress_name egress }
{
    match egress {
        None => " egress none",
        Some(Egress::Tagged) => " egress tagged",
        Some(Egress::Untagged) => " egress untagged",
    }
}
