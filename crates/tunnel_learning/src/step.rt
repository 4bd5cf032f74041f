//! One step.
ghost use Rattle.std.specs.Prelude.{◌≡◌, ◌≤◌, ◌+◌, ◌*◌, IsSome, OnErr, [], ◌++◌, if◌then◌else◌, length};
ghost use Rattle.filter_db.specs.Segment.{segment_at, aged_all};
ghost use Rattle.filter_db.specs.Work.{most_compared};
ghost use Rattle.tunnel_learning.specs.Bridge.{config_of, everywhere, is_local_outlet, learned, local_places, outlets};
ghost use Rattle.tunnel_learning.specs.Bridge.{remote_places, to_place, toward};
ghost use Rattle.overlay.specs.Row.{row_at};
ghost use Rattle.tunnel_learning.specs.declared.bridge.Bridge.{Bridge as ABridge};
ghost use Rattle.filter_db.specs.declared.place.Place.TheVariants.{Local};
ghost use Rattle.tunnel_learning.specs.Members.{IsMember};
ghost use Rattle.tunnel_learning.specs.Verdict.{put_or};

use crate::{Bridge, Outlets};
use filter_db::{Place, Tables};
use overlay::ports::Row;
use wire::ether::{BridgeFrame, Reason};

/// A frame came from a place at a moment: learns where its source stands, where the segment learns (IEEE 802.1Q, 8.7),
/// and then puts where it goes (8.6 and 8.8, with split horizon among the remotes of a group) into a list that is emptied first.
/// After an `Err`, one of SamePlace, Horizon, Unreachable and NoOutlet, it is empty.
/// `now` is in nanoseconds and isn't before the tables' own; the segment has a table.
pub fn bridge_step_into<T: Tables>(
    tables: &mut T,
    bridge: &Bridge,
    now: u64,
    from: &Place,
    frame: &BridgeFrame,
    places: &mut Outlets,
) -> Result<(), Reason>
    requires has { IsSome (T.segments tables.old bridge.now.vid) }
    requires time { T.moment tables.old ≤ now }
    ensures verdict { let entries = (segment_at bridge.now.vid (aged_all now (T.segments tables.new))).entries in
        put_or places.new.items result ≡ outlets (config_of bridge.now) from.now frame.now entries }
    ensures empty { OnErr result (places.new.items ≡ []) }
    ensures tables { let c = config_of bridge.now in
        T.segments tables.new ≡ learned c bridge.now.vid now from.now frame.now (T.segments tables.old) }
    // A step that learns moves the tables' moment on, and a look-up doesn't.
    ensures moment { T.moment tables.new ≡ (if bridge.now.learning then now else T.moment tables.old) }
    ensures pool { T.pool tables.new ≡ T.pool tables.old }
    // Whatever stands in the tables, one call learns and one looks up.
    ensures calls_stay_counted { T.calls tables.old ≤ T.calls tables.new }
    ensures calls { T.calls tables.new ≤ T.calls tables.old + 2 }
    ensures comparisons_stay_counted { T.compared tables.old ≤ T.compared tables.new }
    ensures compared { T.compared tables.new ≤ T.compared tables.old + 2 * most_compared }
{
    places.clear();
    if bridge.learning {
        let _ = tables.learn(bridge.vid, frame.src(), *from, now);
    }
    if frame.dst().is_group() {
        return everywhere(bridge, from, places);
    }
    match tables.look(bridge.vid, frame.dst(), now) {
        Some(to) => to_place(bridge, from, &to, places),
        None => everywhere(bridge, from, places),
    }
}

/// Where a frame from a place goes, into an empty list, by where its destination stands, if that is known (IEEE 802.1Q, 8.6
/// and 8.8); that of a group isn't. After an `Err`, one of those of [`bridge_step_into`], the list is empty.
pub fn send_toward(
    bridge: &Bridge,
    from: &Place,
    to: Option<Place>,
    places: &mut Outlets,
) -> Result<(), Reason>
    requires { places.old.items ≡ [] }
    ensures verdict { put_or places.new.items result ≡ toward (config_of bridge.now) from.now to }
    ensures empty { OnErr result (places.new.items ≡ []) }
{
    match to {
        Some(to) => to_place(bridge, from, &to, places),
        None => everywhere(bridge, from, places),
    }
}

/// To the place where the destination stands.
#[inline(always)]
fn to_place(bridge: &Bridge, from: &Place, to: &Place, places: &mut Outlets) -> Result<(), Reason>
    requires { places.old.items ≡ [] }
    ensures value { put_or places.new.items result ≡ to_place (config_of bridge.now) from.now to.now }
    ensures empty { OnErr result (places.new.items ≡ []) }
{
    if *to == *from {
        return Err(Reason::SamePlace);
    }
    if bridge.in_one_group(from, to) {
        return Err(Reason::Horizon);
    }
    if bridge.is_shut(to) {
        return Err(Reason::Unreachable);
    }
    places.push(*to);
    Ok(())
}

/// Everywhere else: the up members, and the remotes of the flood list.
#[inline(always)]
fn everywhere(bridge: &Bridge, from: &Place, places: &mut Outlets) -> Result<(), Reason>
    requires { places.old.items ≡ [] }
    ensures value { put_or places.new.items result ≡ everywhere (config_of bridge.now) from.now }
    ensures empty { OnErr result (places.new.items ≡ []) }
{
    put_local(bridge, from, places);
    put_remote(bridge, from, places);
    if places.is_empty() {
        return Err(Reason::NoOutlet);
    }
    Ok(())
}

/// Puts the up members but the port that the frame came from, rising.
fn put_local(bridge: &Bridge, from: &Place, places: &mut Outlets)
    requires { length places.old.items ≤ 0 }
    ensures items { places.new.items ≡ places.old.items ++ local_places (config_of bridge.now) from.now }
    ensures few { length places.new.items ≤ 255 }
{
    let row = bridge.ports.row(bridge.vid);
    let mut members = row.members();
    while let Some(port) = members.next() {
        if is_local_outlet(&row, from, port) {
            places.push(Place::Local(port));
        }
    }
}

/// Whether a flood of a frame from a place goes to a member, by the row of the bridge's segment.
#[inline(always)]
fn is_local_outlet(row: &Row, from: &Place, port: u8) -> bool
    requires { IsMember row.now port }
    ensures { (bridge : ABridge) → row.now ≡ row_at bridge.ports.now bridge.vid
        → result ≡ is_local_outlet (config_of bridge) from.now (Local port) }
{
    if !row.is_up(port) {
        return false;
    }
    !Place::Local(port).is_same(*from)
}

/// Puts the remotes of the flood list but those of the horizon group that the frame came from, in its order.
fn put_remote(bridge: &Bridge, from: &Place, places: &mut Outlets)
    requires { length places.old.items ≤ 255 }
    ensures { places.new.items ≡ places.old.items ++ remote_places (config_of bridge.now) from.now }
{
    for target in bridge.flood.targets() {
        let to = Place::Remote(target.tunnel, target.addr);
        if !bridge.in_one_group(from, &to) {
            places.push(to);
        }
    }
}
