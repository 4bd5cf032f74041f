//! What the bridge of a segment knows of the addresses of a frame, and what that makes of it.
ghost use Rattle.std.specs.Prelude.{◌≡◌, ◌≤◌, ◌++◌, IsSome, OnOk};
ghost use Rattle.tunnel_learning.specs.Bridge as bridges;
ghost use Rattle.endpoint_core.specs.Held.{settings_of, state_at, moment_of};
ghost use Rattle.endpoint_core.specs.Settings.{segment_at};
ghost use Rattle.event_story.specs.Bridge.{learned_fact, source_fact, place_fact, flood_fact, aim_by, aim_fact, bridge_told, bridge_facts};

use crate::fact::Fact;
use crate::flood::put_flooded_facts;
use crate::known::{known_fact, stood_fact};
use crate::refusal::{put, put_one};
use endpoint_core::Arrival;
use endpoint_core::state::EndpointState;
use filter_db::{Entry, Place};
use std::alloc::AllocError;
use tunnel_learning::Bridge;
use wire::ether::Reason;

/// Puts what there is to tell of a frame that came to a segment at a moment, and that is dropped for this reason, if it
/// is, behind some facts. `left` is the moment of the last event. Neither moment is before that of the tables.
/// `AllocError`: there was no room for the facts.
pub(crate) fn put_bridge_facts(
    facts: &mut Vec<Fact>,
    state: &EndpointState,
    left: u64,
    now: u64,
    came: &Arrival,
    dropped: Option<Reason>,
) -> Result<(), AllocError>
    requires left { moment_of state.now ≤ left }
    requires time { moment_of state.now ≤ now }
    requires there { IsSome (segment_at (settings_of state.now) came.now.vid) }
    ensures { OnOk result (facts.new.items
        ≡ facts.old.items ++ bridge_facts now (state_at left state.now) (state_at now state.now) came.now dropped) }
{
    let vid = came.segment();
    let from = came.place();
    let frame = came.frame();
    let source = state.entry(vid, frame.src(), now);
    let entries = state.entry_count(vid, now);
    let before = state.entry(vid, frame.dst(), left);
    let destination = state.destination(now, vid, from, frame);
    let stood = stood_fact(now, state.ageing(vid), before, destination);
    let limit = state.limit(vid);
    let bridge = state.bridge(vid);
    let group = frame.dst().is_group();
    put_told(
        facts,
        &bridge,
        limit,
        entries,
        from,
        source,
        group,
        destination,
        stood,
        dropped,
    )
}

/// Puts the same by what the bridge goes by and what stands for both addresses, in a table with so many entries.
fn put_told(
    facts: &mut Vec<Fact>,
    bridge: &Bridge,
    limit: u32,
    entries: usize,
    from: Place,
    source: Option<Entry>,
    group: bool,
    destination: Option<Entry>,
    stood: Fact,
    dropped: Option<Reason>,
) -> Result<(), AllocError>
    ensures { OnOk result (facts.new.items ≡ facts.old.items
        ++ bridge_told (bridges.config_of bridge.now) limit entries from source group destination stood dropped) }
{
    put_one(
        facts,
        source_fact(bridge.learning, limit, entries, from, source),
    )?;
    put_one(facts, known_fact(group, stood))?;
    put_flooded_facts(facts, bridge, from, group, destination)?;
    put(facts, aim_fact(group, destination, dropped))
}

/// What becomes of a source that came from a place, by what stood for it in a table with so many entries.
fn source_fact(
    learning: bool,
    limit: u32,
    entries: usize,
    from: Place,
    stood: Option<Entry>,
) -> Fact
    ensures { result ≡ source_fact learning limit entries from stood }
{
    if !learning {
        return Fact::NotLearning;
    }
    match stood {
        None if entries < limit as usize => Fact::Learned { place: from, stood },
        None => Fact::Full { limit },
        Some(entry) if entry.is_fixed() => Fact::Fixed { stood: entry },
        Some(_) => Fact::Learned { place: from, stood },
    }
}

/// Why a frame goes nowhere, if it does.
fn aim_fact(group: bool, stood: Option<Entry>, dropped: Option<Reason>) -> Option<Fact>
    ensures { result ≡ aim_fact group stood dropped }
{
    match dropped {
        None => None,
        Some(reason) => {
            if group {
                flood_fact(reason)
            } else {
                aim_by(stood, reason)
            }
        }
    }
}

/// The same by what stands for the destination.
fn aim_by(stood: Option<Entry>, reason: Reason) -> Option<Fact>
    ensures { result ≡ aim_by stood reason }
{
    match stood {
        None => flood_fact(reason),
        Some(entry) => place_fact(entry.place, reason),
    }
}

/// Why a frame doesn't go to the place where its destination stands.
fn place_fact(place: Place, reason: Reason) -> Option<Fact>
    ensures { result ≡ place_fact place reason }
{
    match reason {
        Reason::SamePlace => Some(Fact::Same { place }),
        Reason::Horizon => Some(Fact::Horizon { place }),
        Reason::Unreachable => Some(Fact::Shut { place }),
        _ => None,
    }
}

/// Why it doesn't go everywhere.
fn flood_fact(reason: Reason) -> Option<Fact>
    ensures { result ≡ flood_fact reason }
{
    match reason {
        Reason::NoOutlet => Some(Fact::Nobody),
        _ => None,
    }
}
