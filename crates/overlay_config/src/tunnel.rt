//! The tunnels of a segment, and its flood list.
//!
//! The tables of a segment's tunnels are read one behind the other, and each hands on the flood list up to it. No list of
//! them is made: reading them takes no memory but the room that they are lent.
ghost use Rattle.std.specs.Prelude.{◌≡◌, ◌≢◌, ◌≤◌, ◌+◌, [], decimal, length, IsTrue, IfOk, IfSome};
ghost use Rattle.std.specs.Option.{option_to_list};
ghost use Rattle.toml.specs.View.{view};
ghost use Rattle.config_text.specs.Reader.{place_of};
ghost use Rattle.overlay.specs.Settings.{tunnel_rule};
ghost use Rattle.overlay.specs.Overlay.{has_tunnel, segment_of as told};
ghost use Rattle.overlay_config.specs.Flood.{is_roomy};
ghost use Rattle.overlay_config.specs.Tunnel.{flood_behind, flood_of, tunnel_of, tunnel_item_of, tunnel_table_of, tunnels_of, vni_number};

use crate::flood::Remotes;
use config_text::{Column, Reader, SettingsFault, U8Range, Words};
use overlay::flood::{FloodList, Own, Room};
use overlay::settings::SegmentRule;
use overlay::underlay::{SegmentTunnel, Tunnels};
use std::marker::Model;
use toml::Value;
use wire::ip_udp::Tunnel;
use wire::vxlan::Vni;

const KEYS: [&str; 4] = ["kind", "vni", "group", "flood"];

/// The kinds of tunnels by their words.
pub(crate) const TUNNELS: [(&str, Tunnel); 2] = [
    ("vxlan", Tunnel::Vxlan),
    ("geneve", Tunnel::Geneve),
];

/// A horizon group.
pub(crate) const GROUP: U8Range = U8Range { low: 0, high: 255 };

/// The number of a network, 0 to 16777215.
#[derive(Clone, Copy)]
pub(crate) struct VniNumber;

impl Column for VniNumber {
    type Out = Vni;

    ghost reads = { λ _. vni_number };

    fn read(&self, value: &Value) -> Option<Vni> {
        Vni::new(u32::try_from(value.as_integer()?).ok()?)
    }
}

/// The one tunnel of a segment in version 1.
#[tactic(auto, unfolding(crate::specs::Tunnel::tunnel_of))]
pub(crate) fn read_tunnel(at: &Reader) -> Result<SegmentTunnel, SettingsFault>
    ensures { result ≡ tunnel_of (place_of at.now) }
{
    let vni = at.required("vni", &VniNumber)?;
    let kind = at.required("tunnel", &Words { words: &TUNNELS })?;
    Ok(SegmentTunnel {
        kind,
        vni,
        group: 0,
    })
}

/// The flood list of a segment in version 1, with tunnels of this kind and so many remotes at most.
pub(crate) fn read_flood(
    at: &Reader,
    own: Own,
    most: u16,
    kind: Tunnel,
    room: &mut Option<Room>,
) -> Result<FloodList, SettingsFault>
    requires { IsTrue (is_roomy most [] room.old) }
    ensures { result ≡ flood_of own most kind (place_of at.now) }
{
    let remotes = Remotes { kind, own, most };
    remotes.read(at, usize::from(most), FloodList::new(), room)
}

/// A segment's one or two tunnels, of different kinds, and its flood list; seen by contracts as the list of the tunnels
/// and that list.
#[derive(Drop)]
pub(crate) struct TunnelRules {
    first: SegmentTunnel,
    second: Option<SegmentTunnel>,
    flood: FloodList,
}

impl Model for TunnelRules {
    ghost use Rattle.std.specs.Prelude.{◌∷◌, ◌≢◌, IfSome};
    ghost use Rattle.std.specs.Option.{option_to_list};
    ghost use Rattle.overlay_config.specs.Tunnel as told;

    ghost Value = { told.TunnelRules };

    ghost view = { λ r. (r.first ∷ option_to_list r.second, r.flood) };

    ghost invariant = { λ r. IfSome r.second (λ second. second.kind ≢ r.first.kind) };
}

impl TunnelRules {
    ghost use Rattle.std.specs.Prelude.{◌≡◌, ◌∷◌, []};
    ghost use Rattle.std.specs.List.{list_any};
    ghost use Rattle.overlay.specs.Settings.{tunnel_rule};
    ghost use Rattle.overlay.specs.Overlay.{has_tunnel, segment_of as told};

    /// One tunnel.
    pub(crate) fn one(tunnel: SegmentTunnel, flood: FloodList) -> TunnelRules
        ensures { result ≡ (tunnel ∷ [], flood) }
    {
        TunnelRules {
            first: tunnel,
            second: None,
            flood,
        }
    }

    /// Whether a segment has a tunnel of the kind and VNI of one of these.
    pub(crate) fn clash(&self, rule: &SegmentRule) -> bool
        ensures { result ≡ list_any (λ t. has_tunnel t.kind t.vni (told (tunnel_rule rule.now))) self.now.0 }
    {
        match &self.second {
            Some(second) => has_tunnel(rule, &self.first) || has_tunnel(rule, second),
            None => has_tunnel(rule, &self.first),
        }
    }

    /// The tunnels and the flood list.
    pub(crate) fn into_parts(self) -> (Tunnels, FloodList)
        ensures { result ≡ self }
    {
        let TunnelRules {
            first,
            second,
            flood,
        } = self;
        let tunnels = match second {
            Some(second) => Tunnels::two(first, second),
            None => Tunnels::one(first),
        };
        (tunnels, flood)
    }
}

/// Whether a segment has a tunnel of the kind and VNI of this one.
fn has_tunnel(rule: &SegmentRule, tunnel: &SegmentTunnel) -> bool
    ensures { result ≡ has_tunnel tunnel.now.kind tunnel.now.vni (told (tunnel_rule rule.now)) }
{
    rule.tunnels
        .of(tunnel.kind)
        .is_some_and(|own| own.vni == tunnel.vni)
}

/// A table of a segment's tunnels.
#[derive(Drop)]
struct TunnelTable {
    tunnel: SegmentTunnel,
    /// The segment's flood list up to this tunnel.
    flood: FloodList,
}

/// A table of a segment's tunnels, behind the one before it, where the flood list has so many remotes at most.
#[tactic(auto, unfolding(crate::specs::Tunnel::tunnel_table_of))]
fn read_table(
    at: &Reader,
    own: Own,
    most: u16,
    earlier: Option<TunnelTable>,
    room: &mut Option<Room>,
) -> Result<TunnelTable, SettingsFault>
    requires { IsTrue (is_roomy most (flood_behind (option_to_list earlier)) room.old) }
    ensures value { result ≡ tunnel_table_of own most (option_to_list earlier) (place_of at.now) }
    ensures room { IfOk result (λ t. IsTrue (is_roomy most t.flood room.new)) }
    ensures apart { IfOk result (λ t. IfSome earlier (λ e. t.tunnel.kind ≢ e.tunnel.kind)) }
{
    at.only(&KEYS)?;
    let kind = at.required("kind", &Words { words: &TUNNELS })?;
    let before = match earlier {
        None => FloodList::new(),
        Some(table) => {
            if table.tunnel.kind == kind {
                return Err(SettingsFault::BadValue(at.path("kind")));
            }
            table.flood
        }
    };
    let vni = at.required("vni", &VniNumber)?;
    let group = at.defaulted("group", &GROUP, 0)?;
    let left = usize::from(most).saturating_sub(before.targets().len());
    let flood = Remotes { kind, own, most }.read(at, left, before, room)?;
    let tunnel = SegmentTunnel { kind, vni, group };
    Ok(TunnelTable { tunnel, flood })
}

/// The table of this number in a list of tunnels, behind the one before it. The list's name and the number have 20 octets
/// at most.
fn read_item(
    list: &str,
    number: u32,
    value: &Value,
    own: Own,
    most: u16,
    earlier: Option<TunnelTable>,
    room: &mut Option<Room>,
) -> Result<TunnelTable, SettingsFault>
    requires short { length list.now + length (decimal number) ≤ 20 }
    requires room { IsTrue (is_roomy most (flood_behind (option_to_list earlier)) room.old) }
    ensures value { result ≡ tunnel_item_of own most (option_to_list earlier) list.now number (view value.now) }
    ensures room { IfOk result (λ t. IsTrue (is_roomy most t.flood room.new)) }
    ensures apart { IfOk result (λ t. IfSome earlier (λ e. t.tunnel.kind ≢ e.tunnel.kind)) }
{
    let at = Reader::row(list, number, value)?;
    read_table(&at, own, most, earlier, room)
}

/// The tunnels of a segment in version 2, and its flood list of so many remotes at most.
#[tactic(auto, unfolding(crate::specs::Tunnel::tunnels_of))]
pub(crate) fn read_tunnels(
    at: &Reader,
    own: Own,
    most: u16,
    room: &mut Option<Room>,
) -> Result<TunnelRules, SettingsFault>
    requires short { length (place_of at.now).prefix ≤ 13 }
    requires room { IsTrue (is_roomy most [] room.old) }
    ensures { result ≡ tunnels_of own most (place_of at.now) }
{
    let list = at.path("tunnel");
    match at.limited_items("tunnel", 2)? {
        [] => Err(SettingsFault::Missing(list)),
        [first] => {
            let table = read_item(list.as_str(), 1, first, own, most, None, room)?;
            Ok(TunnelRules::one(table.tunnel, table.flood))
        }
        [first, second, ..] => {
            let table = read_item(list.as_str(), 1, first, own, most, None, room)?;
            let first = table.tunnel;
            let table = read_item(list.as_str(), 2, second, own, most, Some(table), room)?;
            Ok(TunnelRules {
                first,
                second: Some(table.tunnel),
                flood: table.flood,
            })
        }
    }
}
