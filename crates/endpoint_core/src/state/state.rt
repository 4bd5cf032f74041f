//! What an endpoint holds.
//!
//! A frame from a remote endpoint is taken only where the segment could answer there, so that every remote place in a table
//! or on a flood list can be sent to: an invariant of the endpoint (`specs/Sound`).
ghost use Rattle.std.specs.Prelude.{◌≡◌, ◌≤◌, ◌+◌, ◌*◌, ℕ, [], IfOk, OnErr, IsSome, IsTrue, None, is_some, replicate, true};
ghost use Rattle.std.specs.FinMap.{entries};
ghost use Rattle.std.specs.List.{list_all};
ghost use Rattle.wire.specs.First.{fault_of};
ghost use Rattle.filter_db.specs.Work.{most_compared};
ghost use Rattle.tunnel_learning.specs.Verdict.{put_or};
ghost use Rattle.overlay.specs.Ports.{has_segment as has_members};
ghost use Rattle.overlay.specs.Overlay.{has_segment, flood_at};
ghost use Rattle.endpoint_core.specs.Opened.{opened};
ghost use Rattle.endpoint_core.specs.Settings.{segment_at};
ghost use Rattle.endpoint_core.specs.Sound.{reaches, is_reached};
ghost use Rattle.endpoint_core.specs.State.{fault, after_change};
ghost use Rattle.endpoint_core.specs.StateStep.{can_leave, after_frame, verdict};
ghost use Rattle.endpoint_core.specs.StateWork.{most_calls, most_compared_by};

use crate::state::layers::layer_rules;
use crate::state::learning::Learning;
use crate::state::parts::Parts;
use crate::state::{Change, ChangeFault};
use filter_db::{Entry, Place, Tables};
use overlay::ports::PortSet;
use overlay::settings::Settings;
use overlay::underlay::Overlay;
use shared_tables::SharedTables;
use std::alloc::{AllocError, Global};
use std::marker::Model;
use tunnel_learning::Outlets;
use wire::ether::{BridgeFrame, Mac, Reason, Vid};

/// What an endpoint holds: ports with the members of segments, the underlay with tunnels and flood lists, the segments'
/// tables, and which of them learn. Only calls that are handed an allocator take memory.
#[derive(Drop)]
pub struct EndpointState {
    parts: Parts<SharedTables>,
}

impl Model for EndpointState {
    ghost use Rattle.endpoint_core.specs.Held.{Held, HeldIsSound};
    ghost use Rattle.endpoint_core.specs.Code.{held_code};

    ghost Value = { Held };

    ghost coded = { held_code };

    ghost view = { λ s. s.parts };

    ghost invariant = { λ s. HeldIsSound s.parts };
}

impl EndpointState {
    ghost use Rattle.endpoint_core.specs.Held.{settings_of, state_at, moment_of};

    /// What settings tell, with empty tables, at moment 0. `AllocError`: a growth was refused.
    pub fn open(alloc: Global, settings: Settings) -> Result<EndpointState, AllocError>
        ensures state { IfOk result (λ state. (t : ℕ) → state_at t state ≡ opened settings) }
        ensures moment { IfOk result (λ state. moment_of state ≡ 0) }
        ensures slots { IfOk result (λ state. state.tables.entries ≡ replicate settings.pool None) }
    {
        let told = settings.into_parts();
        let learning = Learning::open(alloc, told.segments.as_slice())?;
        let rules = layer_rules(alloc, told.segments)?;
        let tables = SharedTables::open(alloc, rules.tables.as_slice(), told.pool)?;
        let ports = PortSet::open(alloc, told.ports.as_slice(), rules.members.as_slice())?;
        let under = Overlay::open(alloc, told.underlay, rules.tunnels)?;
        Ok(EndpointState {
            parts: Parts {
                ports,
                under,
                tables,
                learning,
            },
        })
    }

    /// The local ports, and the members of each segment.
    pub fn ports(&self) -> &PortSet
        ensures value { result.now ≡ (settings_of self.now).ports }
        ensures segments { (vid : ℕ) → has_members result.now vid ≡ is_some (segment_at (settings_of self.now) vid) }
    {
        &self.parts.ports
    }

    /// The underlay, and the tunnels and flood list of each segment, which can send to all that is on it.
    pub fn under(&self) -> &Overlay
        ensures value { result.now ≡ (settings_of self.now).overlay }
        ensures segments { (vid : ℕ) → has_segment result.now vid ≡ is_some (segment_at (settings_of self.now) vid) }
        ensures flood { (vid : ℕ) → list_all (λ r. reaches result.now vid r.tunnel r.addr) (flood_at result.now vid) ≡ true }
    {
        &self.parts.under
    }

    /// The tables' moment: that of their last call but a look-up, in nanoseconds; 0 before the first.
    pub fn moment(&self) -> u64
        ensures { result ≡ moment_of self.now }
    {
        self.parts.tables.now()
    }

    /// The live entries of a segment at a moment, each with its address, in the order of the addresses; none where the
    /// VID has no segment. The moment isn't before the tables' own. `AllocError`: there was no room for the list.
    pub fn entries(
        &self,
        alloc: Global,
        vid: Vid,
        now: u64,
    ) -> Result<Vec<(Mac, Entry)>, AllocError>
        requires { moment_of self.now ≤ now }
        ensures { IfOk result (λ rows. rows.items ≡ entries ((state_at now self.now).tables vid)) }
    {
        self.parts.tables.entries(alloc, vid, now)
    }

    /// Whether a segment can send to a place: any local port, or a remote endpoint of a kind of tunnel that it has and of
    /// a family that the endpoint has an own address of.
    pub fn reaches(&self, vid: Vid, place: Place) -> bool
        ensures { result ≡ is_reached (settings_of self.now).overlay vid place }
    {
        match place {
            Place::Local(_) => true,
            Place::Remote(kind, addr) => {
                self.parts.under.tunnel_of(vid, kind).is_some()
                    && self.parts.under.own().has_family(addr)
            }
        }
    }

    /// Makes a change at a moment, which isn't before any earlier one, or refuses it. How many calls of the tables it makes
    /// at most, and how often these compare an address, depends on its kind alone.
    pub fn change(&mut self, now: u64, change: Change) -> Result<(), ChangeFault>
        requires time { moment_of self.old ≤ now }
        ensures fault { fault_of result ≡ fault (state_at now self.old) change }
        ensures after { state_at now self.new ≡ after_change now change (state_at now self.old) }
        ensures time { moment_of self.new ≤ now }
        ensures calls_stay_counted { self.old.tables.calls ≤ self.new.tables.calls }
        ensures calls { self.new.tables.calls ≤ self.old.tables.calls + most_calls change }
        ensures comparisons_stay_counted { self.old.tables.compared ≤ self.new.tables.compared }
        ensures compared { self.new.tables.compared ≤ self.old.tables.compared + most_compared_by change }
    {
        self.parts.change(now, change)
    }

    /// A frame came to a segment at a moment, which isn't before any earlier one, from a place that the segment can send
    /// to: learns where the source stands, and answers where the frame goes, which are places where it can leave. That is two
    /// calls of the tables at most, whatever stands in them.
    pub fn step(
        &mut self,
        now: u64,
        vid: Vid,
        from: &Place,
        frame: &BridgeFrame,
        places: &mut Outlets,
    ) -> Result<(), Reason>
        requires time { moment_of self.old ≤ now }
        requires there { IsSome (segment_at (settings_of self.old) vid) }
        requires reached { is_reached (settings_of self.old).overlay vid from.now ≡ true }
        ensures verdict { put_or places.new.items result ≡ verdict now vid from.now frame.now (state_at now self.old) }
        ensures after { state_at now self.new ≡ after_frame now vid from.now frame.now (state_at now self.old) }
        ensures leaves { IfOk (put_or places.new.items result)
            (λ places. IsTrue (list_all (can_leave (settings_of self.old) vid) places)) }
        ensures empty { OnErr result (places.new.items ≡ []) }
        ensures time { moment_of self.new ≤ now }
        ensures calls_stay_counted { self.old.tables.calls ≤ self.new.tables.calls }
        ensures calls { self.new.tables.calls ≤ self.old.tables.calls + 2 }
        ensures comparisons_stay_counted { self.old.tables.compared ≤ self.new.tables.compared }
        ensures compared { self.new.tables.compared ≤ self.old.tables.compared + 2 * most_compared }
    {
        self.parts.step(now, vid, from, frame, places)
    }
}

mod bridges;
mod foresight;
