//! What a frame would meet, told without a step.
ghost use Rattle.std.specs.Prelude.{◌≡◌, ◌≤◌, ◌&&◌, IfOk, IsSome, IsTrue, OnErr, [], if◌then◌else◌, None, Some, true};
ghost use Rattle.std.specs.List.{list_all};
ghost use Rattle.std.specs.Option.{option_map};
ghost use Rattle.std.specs.FinMap.{get, len};
ghost use Rattle.std.specs.Ordering.{eq_by_cmp};
ghost use Rattle.wire.specs.Address.{is_group};
ghost use Rattle.filter_db.specs.declared.entry.Entry.{Entry};
ghost use Rattle.filter_db.specs.Table.{Table, mac_cmp, is_learned, learn};
ghost use Rattle.tunnel_learning.specs.Bridge as bridges;
ghost use Rattle.tunnel_learning.specs.Verdict.{put_or};
ghost use Rattle.endpoint_core.specs.Held.{settings_of, state_at, moment_of};
ghost use Rattle.endpoint_core.specs.Settings.{segment_at};
ghost use Rattle.endpoint_core.specs.Sound.{is_reached};
ghost use Rattle.endpoint_core.specs.StateStep.{can_leave, after_frame, verdict};

use crate::state::EndpointState;
use filter_db::{Entry, Place};
use tunnel_learning::{Bridge, Outlets, send_toward};
use wire::ether::{BridgeFrame, Mac, Reason, Vid};

impl EndpointState {
    /// What the table of a segment has of an address at a moment, which isn't before the tables' own.
    pub fn entry(&self, vid: Vid, mac: Mac, now: u64) -> Option<Entry>
        requires { moment_of self.now ≤ now }
        ensures { result ≡ get ((state_at now self.now).tables vid) mac }
    {
        self.parts.tables.entry(vid, mac, now)
    }

    /// How many live entries the table of a segment has at a moment, which isn't before the tables' own.
    pub fn entry_count(&self, vid: Vid, now: u64) -> usize
        requires { moment_of self.now ≤ now }
        ensures { result ≡ len ((state_at now self.now).tables vid) }
    {
        self.parts.tables.entry_count(vid, now)
    }

    /// What the table of a segment has of a frame's destination, once the frame came to it from a place at a moment: its
    /// source is learned first.
    pub fn destination(&self, now: u64, vid: Vid, from: Place, frame: &BridgeFrame) -> Option<Entry>
        requires time { moment_of self.now ≤ now }
        requires there { IsSome (segment_at (settings_of self.now) vid) }
        ensures { result ≡ get ((after_frame now vid from frame.now (state_at now self.now)).tables vid) frame.now.dst }
    {
        let stood = self.entry(vid, frame.dst(), now);
        let count = self.entry_count(vid, now);
        let learning = self.bridge(vid).learning;
        let limit = self.limit(vid);
        after_learning(
            learning,
            limit,
            count,
            now,
            from,
            frame.src(),
            frame.dst(),
            stood,
        )
    }

    /// Where a step would send a frame that came to a segment from a place that it can send to, at a moment that isn't
    /// before any earlier one, in a list that is emptied first. After an `Err` it is empty.
    pub fn foresee(
        &self,
        now: u64,
        vid: Vid,
        from: Place,
        frame: &BridgeFrame,
        places: &mut Outlets,
    ) -> Result<(), Reason>
        requires time { moment_of self.now ≤ now }
        requires there { IsSome (segment_at (settings_of self.now) vid) }
        requires reached { is_reached (settings_of self.now).overlay vid from ≡ true }
        ensures verdict { put_or places.new.items result ≡ verdict now vid from frame.now (state_at now self.now) }
        ensures leaves { IfOk (put_or places.new.items result)
            (λ places. IsTrue (list_all (can_leave (settings_of self.now) vid) places)) }
        ensures empty { OnErr result (places.new.items ≡ []) }
    {
        // It tells the invariant.
        let _ = &self.parts;
        let stood = self.destination(now, vid, from, frame);
        let bridge = self.bridge(vid);
        toward(&bridge, from, frame, place_of(stood), places)
    }
}

/// What a table with this limit and so many entries has of a destination, for which this stood, once the source is
/// learned, where it is.
fn after_learning(
    learning: bool,
    limit: u32,
    entries: usize,
    now: u64,
    from: Place,
    source: Mac,
    destination: Mac,
    stood: Option<Entry>,
) -> Option<Entry>
    ensures { (m : Table) → get m destination ≡ stood → len m ≡ entries
        → result ≡ get (if learning then learn limit now from source m else m) destination }
{
    let seen = Entry {
        place: from,
        last: Some(now),
    };
    let is_source = is_same(destination, source);
    let is_taken = is_learned(limit, entries, stood);
    renewed(learning, is_source, is_taken, seen, stood)
}

/// The one entry where all three hold, and else the other.
fn renewed(
    learning: bool,
    is_source: bool,
    is_taken: bool,
    seen: Entry,
    stood: Option<Entry>,
) -> Option<Entry>
    ensures { result ≡ (if learning && (is_source && is_taken) then Some seen else stood) }
{
    if learning && is_source && is_taken {
        Some(seen)
    } else {
        stood
    }
}

/// The place of an entry.
fn place_of(entry: Option<Entry>) -> Option<Place>
    ensures { result ≡ option_map (λ (e : Entry). e.place) entry }
{
    entry.map(|entry| entry.place)
}

/// Where a bridge sends a frame whose destination stands at a place, or isn't known, in a list that is emptied first.
fn toward(
    bridge: &Bridge,
    from: Place,
    frame: &BridgeFrame,
    to: Option<Place>,
    places: &mut Outlets,
) -> Result<(), Reason>
    ensures verdict { put_or places.new.items result
        ≡ bridges.toward (bridges.config_of bridge.now) from (if is_group frame.now.dst then None else to) }
    ensures empty { OnErr result (places.new.items ≡ []) }
{
    let known = if frame.dst().is_group() { None } else { to };
    places.clear();
    send_toward(bridge, &from, known, places)
}

/// Whether two addresses are one.
fn is_same(left: Mac, right: Mac) -> bool
    ensures { result ≡ eq_by_cmp mac_cmp left right }
{
    left == right
}

/// Whether a source is learned for which this stood, in a table with this limit and so many entries.
fn is_learned(limit: u32, entries: usize, stood: Option<Entry>) -> bool
    ensures { result ≡ is_learned limit entries stood }
{
    match stood {
        None => entries < limit as usize,
        Some(entry) => !entry.is_fixed(),
    }
}
