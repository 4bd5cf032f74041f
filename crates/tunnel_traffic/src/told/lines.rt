//! The lines of what passes by tunnels.
ghost use Rattle.std.specs.Prelude.{◌≡◌, ◌++◌, OnOk, codes, string_bytes};
ghost use Rattle.std.specs.List.{flat_map};
ghost use Rattle.tunnel_traffic.specs.Lines.{flows_text, kind_name, remote_line, remote_others, tunnels_text, unknown_line, unknown_others};

use crate::rows::{Traffic, TrafficRow, TrafficRows};
use endpoint_core::{put_addr, put_place};
use filter_db::Place;
use std::alloc::{AllocError, Global};
use std::fmt::Write;
use wire::ip_udp::Tunnel;

/// Puts all lines. `AllocError`: memory was refused.
pub fn put_tunnels(
    alloc: Global,
    text: &mut String,
    unknown: &TrafficRows,
    remotes: &TrafficRows,
) -> Result<(), AllocError>
    ensures { OnOk result (string_bytes text.new
        ≡ string_bytes text.old ++ tunnels_text (record { unknown = unknown.now; remotes = remotes.now })) }
{
    let unknown_rows = unknown.rows(alloc)?;
    let remote_rows = remotes.rows(alloc)?;
    put_unknown(text, unknown_rows.as_slice())?;
    put_unknown_others(text, unknown.others())?;
    put_remotes(text, remote_rows.as_slice())?;
    put_remote_others(text, remotes.others())
}

/// Puts the lines of networks that no segment has.
fn put_unknown(text: &mut String, rows: &[TrafficRow]) -> Result<(), AllocError>
    ensures { OnOk result (string_bytes text.new ≡ string_bytes text.old ++ flat_map unknown_line rows.now) }
{
    for row in rows {
        put_unknown_row(text, row)?;
    }
    Ok(())
}

/// Puts the line of a network and a sender.
#[tactic(auto, unfolding(crate::specs::Lines::unknown_line))]
fn put_unknown_row(text: &mut String, row: &TrafficRow) -> Result<(), AllocError>
    ensures { OnOk result (string_bytes text.new ≡ string_bytes text.old ++ unknown_line row.now) }
{
    let kind = kind_name(row.key.kind);
    let vni = row.key.vni.get();
    let count = row.counts.came;
    write!(text, "unknown {kind} {vni} from ")?;
    put_addr(text, row.key.address)?;
    writeln!(text, " {count}")
}

/// The name of a kind.
fn kind_name<'a>(kind: Tunnel) -> &'a str
    ensures { result.now ≡ kind_name kind }
{
    match kind {
        Tunnel::Vxlan => "vxlan",
        Tunnel::Geneve => "geneve",
    }
}

/// Puts how many packets came of other networks and senders.
#[tactic(auto, unfolding(crate::specs::Lines::unknown_others))]
fn put_unknown_others(text: &mut String, others: Traffic) -> Result<(), AllocError>
    ensures { OnOk result (string_bytes text.new ≡ string_bytes text.old ++ unknown_others others) }
{
    let count = others.came;
    if count == 0 {
        return Ok(());
    }
    writeln!(text, "unknown others {count}")
}

/// Puts the lines of remote endpoints.
fn put_remotes(text: &mut String, rows: &[TrafficRow]) -> Result<(), AllocError>
    ensures { OnOk result (string_bytes text.new ≡ string_bytes text.old ++ flat_map remote_line rows.now) }
{
    for row in rows {
        put_remote(text, row)?;
    }
    Ok(())
}

/// Puts the line of a remote endpoint.
#[tactic(auto, unfolding(crate::specs::Lines::remote_line))]
fn put_remote(text: &mut String, row: &TrafficRow) -> Result<(), AllocError>
    ensures { OnOk result (string_bytes text.new ≡ string_bytes text.old ++ remote_line row.now) }
{
    text.push_str("remote ")?;
    put_place(text, true, Place::Remote(row.key.kind, row.key.address))?;
    put_flows(text, row.counts)
}

/// Puts what passed by all other remote endpoints.
#[tactic(auto, unfolding(crate::specs::Lines::remote_others))]
fn put_remote_others(text: &mut String, others: Traffic) -> Result<(), AllocError>
    ensures { OnOk result (string_bytes text.new ≡ string_bytes text.old ++ remote_others others) }
{
    if others.came == 0 && others.left == 0 {
        return Ok(());
    }
    text.push_str("remote others")?;
    put_flows(text, others)
}

/// Puts what passed in both directions, and the end of the line.
fn put_flows(text: &mut String, traffic: Traffic) -> Result<(), AllocError>
    ensures { OnOk result (string_bytes text.new ≡ string_bytes text.old ++ flows_text traffic) }
{
    let Traffic {
        came,
        came_octets,
        left,
        left_octets,
    } = traffic;
    writeln!(text, " in {came} {came_octets} out {left} {left_octets}")
}
