//! The table of a change.
ghost use Rattle.std.specs.Prelude.{◌≡◌, ◌≤◌, IfOk, []};
ghost use Rattle.toml.specs.View.{table_view};
ghost use Rattle.overlay_config.specs.Fault.{GivesAs};
ghost use Rattle.config_text.specs.Reader.{place_of};
ghost use Rattle.overlay_config.specs.Change.{moment_before, target_of, remote_of, other_kind, new_tunnels_of};
ghost use Rattle.overlay_config.specs.Change.{new_segment_of, change_in, change_of, changes_in, changes_of, most_changes, IsRising};
ghost use Rattle.overlay.specs.Rules.{EachBehind};

use crate::common_rules::{USUAL_LIMIT, read_common};
use crate::document::read_document;
use crate::kind::{KINDS, Kind};
use crate::tunnel::{GROUP, TUNNELS, VniNumber, read_tunnel};
use config_text::{
    AnyAddr, AnyMac, Key, ListRow, Reader, SettingsFault, Truth, U8Range, U32Range, U64Range,
    VidNumber, Words, read_rows,
};
use overlay::ports::Egress;
use overlay::settings::{Change, NewSegment, Target, TimedChange};
use overlay::underlay::{SegmentTunnel, Tunnels};
use std::alloc::Global;
use toml::Table;
use wire::ether::Vid;
use wire::ip_udp::{Addr, Tunnel};

const EGRESSES: [(&str, Option<Egress>); 3] = [
    ("tagged", Some(Egress::Tagged)),
    ("untagged", Some(Egress::Untagged)),
    ("none", None),
];

/// The latest moment that a classic capture has, to the nanosecond.
const MOMENT: U64Range = U64Range {
    low: 0,
    high: 4294967295999999999,
};

const ANY_PORT: U8Range = U8Range { low: 0, high: 255 };

/// What a change may tell of seconds and of entries; whether it is in range shows when the change is made.
const ANY_NUMBER: U32Range = U32Range {
    low: 0,
    high: 4294967295,
};

/// The number of version 2.
const SECOND: U8Range = U8Range { low: 2, high: 2 };

/// Where a fixed entry stands: one of a port and a remote, and for a remote the kind of tunnel, where it is told.
#[tactic(auto, unfolding(crate::specs::Change::target_of))]
fn read_target(at: &Reader) -> Result<Target, SettingsFault>
    ensures { result ≡ target_of (place_of at.now) }
{
    let port = at.optional("port", &ANY_PORT)?;
    let remote = at.optional("remote", &AnyAddr)?;
    match (port, remote) {
        (Some(port), None) => {
            at.absent("tunnel")?;
            Ok(Target::Local(port))
        }
        (None, Some(remote)) => {
            let tunnel = at.optional("tunnel", &Words { words: &TUNNELS })?;
            Ok(Target::Remote(remote, tunnel))
        }
        (None, None) => Err(SettingsFault::Missing(at.path("port"))),
        (Some(_), Some(_)) => Err(SettingsFault::BadValue(at.path("remote"))),
    }
}

/// An address of a flood list: the VID, the address, and the kind of tunnel to it, where it is told.
#[tactic(auto, unfolding(crate::specs::Change::remote_of))]
fn read_remote(at: &Reader) -> Result<(Vid, Addr, Option<Tunnel>), SettingsFault>
    ensures { result ≡ remote_of (place_of at.now) }
{
    let vid = at.required("vid", &VidNumber)?;
    let addr = at.required("addr", &AnyAddr)?;
    let tunnel = at.optional("tunnel", &Words { words: &TUNNELS })?;
    Ok((vid, addr, tunnel))
}

/// The kind of tunnel that this one isn't.
fn other_kind(kind: Tunnel) -> Tunnel
    ensures { result ≡ other_kind kind }
{
    match kind {
        Tunnel::Vxlan => Tunnel::Geneve,
        Tunnel::Geneve => Tunnel::Vxlan,
    }
}

/// The tunnels of a segment that comes: `vni2` is the VNI of a second one, of the other kind, and `group2` its horizon
/// group.
#[tactic(auto, unfolding(crate::specs::Change::new_tunnels_of))]
fn read_new_tunnels(at: &Reader) -> Result<Tunnels, SettingsFault>
    ensures { result ≡ new_tunnels_of (place_of at.now) }
{
    let mut first = read_tunnel(at)?;
    first.group = at.defaulted("group", &GROUP, 0)?;
    let Some(vni) = at.optional("vni2", &VniNumber)? else {
        at.absent("group2")?;
        return Ok(Tunnels::one(first));
    };
    let group = at.defaulted("group2", &GROUP, 0)?;
    let second = SegmentTunnel {
        kind: other_kind(first.kind),
        vni,
        group,
    };
    Ok(Tunnels::two(first, second))
}

/// A segment that comes.
#[tactic(auto, unfolding(crate::specs::Change::new_segment_of))]
fn read_new_segment(at: &Reader) -> Result<NewSegment, SettingsFault>
    ensures { result ≡ new_segment_of (place_of at.now) }
{
    let vid = at.required("vid", &VidNumber)?;
    let tunnels = read_new_tunnels(at)?;
    let common = read_common(at, true, USUAL_LIMIT, &ANY_NUMBER, &ANY_NUMBER)?;
    Ok(NewSegment {
        vid,
        tunnels,
        limit: common.limit,
        ageing: common.ageing,
        learning: common.learning,
        peers: common.peers,
        tags: common.tags,
    })
}

/// What a change of this kind does.
#[tactic(auto, unfolding(crate::specs::Change::change_in))]
fn read_change(kind: Kind, at: &Reader) -> Result<Change, SettingsFault>
    ensures { result ≡ change_in kind (place_of at.now) }
{
    match kind {
        Kind::AddFlood => {
            let (vid, addr, tunnel) = read_remote(at)?;
            Ok(Change::AddFlood { vid, addr, tunnel })
        }
        Kind::RemoveFlood => {
            let (vid, addr, tunnel) = read_remote(at)?;
            Ok(Change::RemoveFlood { vid, addr, tunnel })
        }
        Kind::Fix => {
            let vid = at.required("vid", &VidNumber)?;
            let mac = at.required("mac", &AnyMac)?;
            let target = read_target(at)?;
            Ok(Change::Fix { vid, mac, target })
        }
        Kind::Unfix => {
            let vid = at.required("vid", &VidNumber)?;
            let mac = at.required("mac", &AnyMac)?;
            Ok(Change::Unfix { vid, mac })
        }
        Kind::SetAgeing => {
            let vid = at.required("vid", &VidNumber)?;
            let seconds = at.required("seconds", &ANY_NUMBER)?;
            Ok(Change::SetAgeing { vid, seconds })
        }
        Kind::SetLearning => {
            let vid = at.required("vid", &VidNumber)?;
            let on = at.required("on", &Truth)?;
            Ok(Change::SetLearning { vid, on })
        }
        Kind::SetMember => {
            let vid = at.required("vid", &VidNumber)?;
            let port = at.required("port", &ANY_PORT)?;
            let egress = at.required("egress", &Words { words: &EGRESSES })?;
            Ok(Change::SetMember { vid, port, egress })
        }
        Kind::PortUp => Ok(Change::PortUp {
            port: at.required("port", &ANY_PORT)?,
        }),
        Kind::PortDown => Ok(Change::PortDown {
            port: at.required("port", &ANY_PORT)?,
        }),
        Kind::Flush => Ok(Change::Flush {
            vid: at.required("vid", &VidNumber)?,
        }),
        Kind::AddSegment => Ok(Change::AddSegment(read_new_segment(at)?)),
        Kind::RemoveSegment => Ok(Change::RemoveSegment {
            vid: at.required("vid", &VidNumber)?,
        }),
        Kind::SetLimit => {
            let vid = at.required("vid", &VidNumber)?;
            let limit = at.required("limit", &ANY_NUMBER)?;
            Ok(Change::SetLimit { vid, limit })
        }
    }
}

/// The moment of the last change, or 0.
fn moment_before(earlier: &[TimedChange]) -> u64
    ensures { result ≡ moment_before earlier.now }
{
    earlier.last().map_or(0, |last| last.at)
}

/// The table of a change.
#[derive(Clone, Copy)]
struct ChangeRow;

impl ListRow for ChangeRow {
    type Out = TimedChange;

    ghost means = { λ _. change_of };

    #[tactic(auto, unfolding(crate::specs::Change::change_of))]
    fn read(&self, earlier: &[TimedChange], at: &Reader) -> Result<TimedChange, SettingsFault> {
        let kind = at.required("kind", &Words { words: &KINDS })?;
        at.only(kind.keys())?;
        let moment = at.required("at", &MOMENT)?;
        let change = read_change(kind, at)?;
        if moment < moment_before(earlier) {
            return Err(SettingsFault::NotRising(Key::numbered("change", earlier.len() as u32 + 1)));
        }
        Ok(TimedChange { at: moment, change })
    }
}

/// How many changes there may be: more in version 2, the only one that a text can tell.
fn most_changes(version: Option<u8>) -> usize
    ensures value { result ≡ most_changes version }
    ensures bounded { result ≤ 100000 }
{
    match version {
        None => 10_000,
        Some(_) => 100_000,
    }
}

/// The changes that a document's table means.
#[tactic(auto, unfolding(crate::specs::Change::changes_of))]
fn read_changes(alloc: Global, table: &Table) -> Result<Vec<TimedChange>, SettingsFault>
    ensures { GivesAs (λ v. v.items) result (changes_of (table_view table.now)) }
{
    let top = Reader::top(table);
    top.only(&["version", "change"])?;
    let version = top.optional("version", &SECOND)?;
    let tables = top.limited_items("change", most_changes(version))?;
    read_rows(alloc, &ChangeRow, "change", tables)
}

/// The changes that a text means, in its order, where no moment is below the one before; or the first fault: `NotToml`
/// where the text isn't UTF-8 or no TOML document, then those of the version, of the list and of its changes from the
/// first, each change's in the order of `docs/FORMATS.md`, with `NotRising` last. `OutOfMemory`: memory was refused.
pub fn changes_of(alloc: Global, text: &[u8]) -> Result<Vec<TimedChange>, SettingsFault>
    ensures value { GivesAs (λ v. v.items) result (changes_in text.now) }
    ensures rising { IfOk result (λ changes. EachBehind IsRising [] changes.items) }
{
    read_changes(alloc, &read_document(alloc, text)?)
}
