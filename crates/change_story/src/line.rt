//! What checks saw, as lines.
ghost use Rattle.std.specs.Prelude.{◌≡◌, ◌/◌, ◌++◌, if◌then◌else◌, [], None, OnOk, codes, decimal, string_bytes};
ghost use Rattle.change_story.specs.Seen.{entries_text, mac_stood, seen_line, seen_text, tunnel_text, words};
ghost use Rattle.change_story.specs.Checks.{told};

use crate::check::Check;
use crate::seen::Seen;
use crate::words::{
    either, group_word, put_listed, put_member, put_name, put_stood, put_up, tunnel_word,
};
use filter_db::Entry;
use std::alloc::AllocError;
use std::fmt::Write;
use wire::ip_udp::Tunnel;

/// Puts the lines of what checks saw, up to the one that refuses. `AllocError`: there was no room for them.
pub(crate) fn put_told(text: &mut String, checks: &[Check]) -> Result<(), AllocError>
    ensures { OnOk result (string_bytes text.new ≡ string_bytes text.old ++ seen_text (told checks.now)) }
{
    for check in checks {
        put_seen(text, check.saw)?;
        if check.fails {
            return Ok(());
        }
    }
    Ok(())
}

/// Puts the line of what a check saw. `AllocError`: there was no room for it.
pub(crate) fn put_seen(text: &mut String, seen: Seen) -> Result<(), AllocError>
    ensures { OnOk result (string_bytes text.new ≡ string_bytes text.old ++ seen_line seen) }
{
    text.push_str("  ")?;
    put_words(text, seen)?;
    text.push('\n')
}

/// Puts what a check saw.
fn put_words(text: &mut String, seen: Seen) -> Result<(), AllocError>
    ensures { OnOk result (string_bytes text.new ≡ string_bytes text.old ++ words seen) }
{
    match seen {
        Seen::Segment { vid, there } => put_segment(text, vid, there),
        Seen::Port { port, ports } => put_port(text, port, ports),
        Seen::Tunnel { named, found } => put_tunnel(text, named, found),
        Seen::Usable { usable } => text.push_str(either(usable, "addr usable", "addr of nobody")),
        Seen::AddrGroup { group } => put_name(text, "addr ", group_word(group)),
        Seen::Family { there } => text.push_str(either(
            there,
            "own address of its family",
            "no own address of its family",
        )),
        Seen::Own { own } => text.push_str(either(
            own,
            "addr the endpoint's own",
            "addr another endpoint's",
        )),
        Seen::Listed { listed } => put_listed(text, "addr", listed),
        Seen::FloodRoom { remotes, most } => put_flood_room(text, remotes, most),
        Seen::MacGroup { group } => put_name(text, "mac ", group_word(group)),
        Seen::Room {
            stood,
            entries,
            limit,
        } => put_room(text, stood, entries, limit),
        Seen::Stood { stood } => put_mac_stood(text, stood),
        Seen::Ageing { seconds } => {
            put_number(text, "ageing ", u64::from(seconds), ", 10 to 1000000")
        }
        Seen::Limit { limit, most } => put_limit(text, limit, most),
        Seen::Vnis { free } => text.push_str(either(free, "vnis free", "vnis taken")),
        Seen::Segments { segments, most } => put_segments(text, segments, most),
        Seen::Pool { room } => put_pool(text, room),
        Seen::AgeingBefore { span } => put_ageing(text, span),
        Seen::Learning { on } => {
            text.push_str(either(on, "learning before on", "learning before off"))
        }
        Seen::Member { port, egress } => put_member(text, port, egress),
        Seen::Up { port, up } => put_up(text, port, up),
        Seen::Entries { entries, limit } => put_entries(text, entries, limit),
    }
}

/// Puts a number between words.
fn put_number(text: &mut String, front: &str, number: u64, behind: &str) -> Result<(), AllocError>
    ensures { OnOk result (string_bytes text.new ≡ string_bytes text.old ++ (front.now ++ decimal number ++ behind.now)) }
{
    write!(text, "{front}{number}{behind}")
}

fn put_port(text: &mut String, port: u8, ports: u8) -> Result<(), AllocError>
    ensures { OnOk result (string_bytes text.new
        ≡ string_bytes text.old ++ (codes "port p" ++ decimal port ++ codes " of " ++ decimal ports)) }
{
    write!(text, "port p{port} of {ports}")
}

fn put_flood_room(text: &mut String, remotes: usize, most: u16) -> Result<(), AllocError>
    ensures { OnOk result (string_bytes text.new
        ≡ string_bytes text.old ++ (codes "flood list has " ++ decimal remotes ++ codes ", at most " ++ decimal most)) }
{
    write!(text, "flood list has {remotes}, at most {most}")
}

fn put_segments(text: &mut String, segments: u32, most: u16) -> Result<(), AllocError>
    ensures { OnOk result (string_bytes text.new
        ≡ string_bytes text.old ++ (codes "segments " ++ decimal segments ++ codes ", at most " ++ decimal most)) }
{
    write!(text, "segments {segments}, at most {most}")
}

fn put_limit(text: &mut String, limit: u32, most: u32) -> Result<(), AllocError>
    ensures { OnOk result (string_bytes text.new
        ≡ string_bytes text.old ++ (codes "limit " ++ decimal limit ++ codes ", 1 to " ++ decimal most)) }
{
    write!(text, "limit {limit}, 1 to {most}")
}

fn put_pool(text: &mut String, room: u64) -> Result<(), AllocError>
    ensures { OnOk result (string_bytes text.new ≡ string_bytes text.old ++ (codes "pool has room for " ++ decimal room)) }
{
    write!(text, "pool has room for {room}")
}

fn put_segment(text: &mut String, vid: u16, there: bool) -> Result<(), AllocError>
    ensures { OnOk result (string_bytes text.new
        ≡ string_bytes text.old ++ ((if there then [] else codes "no ") ++ codes "segment " ++ decimal vid)) }
{
    let no = either(there, "", "no ");
    write!(text, "{no}segment {vid}")
}

fn put_tunnel(
    text: &mut String,
    named: Option<Tunnel>,
    found: Option<Tunnel>,
) -> Result<(), AllocError>
    ensures { OnOk result (string_bytes text.new ≡ string_bytes text.old ++ tunnel_text named found) }
{
    match found {
        Some(kind) => put_name(text, "tunnel ", tunnel_word(kind)),
        None => put_no_tunnel(text, named),
    }
}

fn put_no_tunnel(text: &mut String, named: Option<Tunnel>) -> Result<(), AllocError>
    ensures { OnOk result (string_bytes text.new ≡ string_bytes text.old ++ tunnel_text named None) }
{
    match named {
        Some(kind) => put_name(text, "no tunnel ", tunnel_word(kind)),
        None => text.push_str("no tunnel"),
    }
}

fn put_room(
    text: &mut String,
    stood: Option<Entry>,
    entries: usize,
    limit: u32,
) -> Result<(), AllocError>
    ensures { OnOk result (string_bytes text.new
        ≡ string_bytes text.old ++ (mac_stood stood ++ codes ", " ++ entries_text entries limit)) }
{
    put_mac_stood(text, stood)?;
    text.push_str(", ")?;
    put_entries(text, entries, limit)
}

/// Puts where a MAC address stands.
fn put_mac_stood(text: &mut String, stood: Option<Entry>) -> Result<(), AllocError>
    ensures { OnOk result (string_bytes text.new ≡ string_bytes text.old ++ mac_stood stood) }
{
    match stood {
        None => text.push_str("mac unknown"),
        Some(entry) => put_stood(text, "mac at ", entry),
    }
}

fn put_entries(text: &mut String, entries: usize, limit: u32) -> Result<(), AllocError>
    ensures { OnOk result (string_bytes text.new ≡ string_bytes text.old ++ entries_text entries limit) }
{
    write!(text, "entries {entries} of at most {limit}")
}

/// Puts an ageing in seconds.
fn put_ageing(text: &mut String, span: u64) -> Result<(), AllocError>
    ensures { OnOk result (string_bytes text.new
        ≡ string_bytes text.old ++ (codes "ageing before " ++ decimal (span / 1000000000))) }
{
    let seconds = span / 1_000_000_000;
    write!(text, "ageing before {seconds}")
}
