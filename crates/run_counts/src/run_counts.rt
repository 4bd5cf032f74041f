//! What a run counts.
ghost use Rattle.std.specs.Prelude.{◌≡◌, ◌+◌, ◌++◌, [], if◌then◌else◌, IfOk, IsSome, IsTrue};
ghost use Rattle.std.specs.Prelude.{List, ℕ, OnOk, false, length, map, min, string_bytes};
ghost use Rattle.std.specs.List.{filter_map, list_all};
ghost use Rattle.timeline.specs.declared.source.Tap.{Tap as ATap};
ghost use Rattle.wire.specs.First.{fault_of};
ghost use Rattle.endpoint_core.specs.Forwarding.{CanLeave, IsThere, decision_of};
ghost use Rattle.endpoint_core.specs.Counts.{most};
ghost use Rattle.endpoint_core.specs.Kept.{state_of};
ghost use Rattle.endpoint_core.specs.Step.{Decided, Replied, sent_at};
ghost use Rattle.endpoint_core.specs.Settings.{segment_at};
ghost use Rattle.endpoint_core.specs.StateStep.{can_leave};
ghost use Rattle.run_counts.specs.Keeping.{Hears, flow_in, totals_in};
ghost use Rattle.run_counts.specs.Summary.{counts_text, cuts_text};
ghost use Rattle.run_counts.specs.Totals.{flow_of, is_partial_at, size_to, tap_of, totals_of};

use crate::flow::{Flow, Flows};
use crate::lines::{put_changes, put_cuts, put_partial, put_places, put_segments};
use crate::refusals::{Refusals, add_refusal, none_refused};
use decapsulate::is_left_to_card;
use endpoint_core::{Arrival, ChangeFault, Endpoint, Forwarding};
use filter_db::Place;
use std::alloc::{AllocError, Global};
use std::marker::Model;
use stream_run::Watch;
use timeline::{Event, Happening, Tap};

/// What a run counts, seen by contracts as its counters and its text. It looks on while the run goes, and asks for no memory
/// before the run's end. Each count ends at 2^64 - 1.
#[derive(Drop)]
pub struct RunCounts {
    alloc: Global,
    came: Flows,
    left: Flows,
    refused: Refusals,
    /// Packets from the underlay whose checksums are left to the card.
    partial: u64,
    text: String,
    is_lost: bool,
}

impl Model for RunCounts {
    ghost use Rattle.std.specs.Prelude.{string_bytes};
    ghost use Rattle.run_counts.specs.Keeping.{Keeping};

    ghost Value = { Keeping };

    ghost view = { λ c. record
        { came = c.came; left = c.left; refused = c.refused; partial = c.partial; text = string_bytes c.text; is_lost = c.is_lost } };
}

impl RunCounts {
    /// Nothing is counted yet.
    pub fn new(alloc: Global) -> RunCounts
        ensures counts { totals_in result ≡ totals_of [] [] }
        ensures text { result.text ≡ [] }
        ensures kept { result.is_lost ≡ false }
    {
        RunCounts {
            alloc,
            came: Flows::none(),
            left: Flows::none(),
            refused: none_refused(),
            partial: 0,
            text: String::new(alloc),
            is_lost: false,
        }
    }

    /// The frames or packets that came from a place.
    pub fn came(&self, tap: Tap) -> Flow
        ensures { result ≡ (totals_in self.now).came tap }
    {
        self.came.at(tap)
    }

    /// The frames or packets that left at a place.
    pub fn left(&self, tap: Tap) -> Flow
        ensures { result ≡ (totals_in self.now).left tap }
    {
        self.left.at(tap)
    }

    /// The summary of a run that is over, where the captures of these places are cut: what its end left, and a line for each
    /// cut capture. Before the end there are only the latter. `AllocError`: memory is refused, or was at the end.
    pub fn into_text(self, cut: &[Tap]) -> Result<Vec<u8>, AllocError>
        ensures text { IfOk result (λ text. text.items ≡ self.text ++ cuts_text (totals_in self) cut.now) }
        ensures whole { OnOk result (self.is_lost ≡ false) }
    {
        if self.is_lost {
            return Err(AllocError);
        }
        let RunCounts { came, mut text, .. } = self;
        put_cuts(&mut text, &came, cut)?;
        Ok(text.into_bytes())
    }
}

impl Watch for RunCounts {
    ghost use Rattle.run_counts.specs.Keeping.{Ends, Expects, Sees};

    ghost sees = { Sees };

    ghost expects = { Expects };

    ghost ends = { Ends };

    #[inline]
    fn see(&mut self, _endpoint: &Endpoint, _number: u64, event: &Event, _came: &Forwarding) {
        if let Happening::Record(tap, captured) = &event.happening {
            self.came.add(*tap, captured.octets.len());
            self.partial = partial_with(self.partial, *tap, captured.octets);
        }
    }

    #[inline]
    fn hear_decision(&mut self, endpoint: &Endpoint, forwarding: &Forwarding, places: &[Place]) {
        self.count_decision(endpoint, forwarding, places);
    }

    fn hear_reply(&mut self, reply: Result<(), ChangeFault>) {
        self.count_reply(reply);
    }

    fn pass_over(&mut self, _endpoint: &Endpoint, _number: u64, _event: &Event) {}

    fn end(&mut self, endpoint: &Endpoint) {
        match self.told(endpoint) {
            Ok(text) => self.text = text,
            Err(_) => self.is_lost = true,
        }
    }
}

impl RunCounts {
    /// Counts what leaves of a frame or a packet.
    #[inline]
    fn count_decision(&mut self, endpoint: &Endpoint, forwarding: &Forwarding, places: &[Place])
        requires there { IsThere (state_of endpoint.now).bridges.settings forwarding.now }
        requires leave { CanLeave (state_of endpoint.now).bridges.settings forwarding.now places.now }
        ensures { Hears self.old (Decided (decision_of (state_of endpoint.now).bridges.settings forwarding.now places.now)) self.new }
    {
        if let Ok(came) = forwarding {
            add_leaving(&mut self.left, endpoint, came, places);
        }
    }

    /// Counts a change, where it was refused.
    fn count_reply(&mut self, reply: Result<(), ChangeFault>)
        ensures { Hears self.old (Replied (fault_of reply)) self.new }
    {
        if let Err(fault) = reply {
            add_refusal(&mut self.refused, fault);
        }
    }

    /// The text of the counts, but for cut captures, as the endpoint stands.
    fn told(&self, endpoint: &Endpoint) -> Result<String, AllocError>
        ensures { IfOk result (λ text. string_bytes text ≡ counts_text (state_of endpoint.now).counts
            (length (state_of endpoint.now).bridges.settings.ports.ports) (totals_in self.now)) }
    {
        let mut text = String::new(self.alloc);
        put_segments(&mut text, endpoint)?;
        put_changes(&mut text, &self.refused)?;
        put_places(&mut text, &self.came, &self.left, endpoint.ports())?;
        put_partial(&mut text, self.partial)?;
        Ok(text)
    }
}

/// Counts what leaves of a frame at each of these places.
#[inline]
fn add_leaving(flows: &mut Flows, endpoint: &Endpoint, came: &Arrival, places: &[Place])
    requires there { IsSome (segment_at (state_of endpoint.now).bridges.settings came.now.vid) }
    requires leave { IsTrue (list_all (can_leave (state_of endpoint.now).bridges.settings came.now.vid) places.now) }
    ensures { let S = (state_of endpoint.now).bridges.settings in
        (tap : ATap) (sizes : List ℕ) → flow_in flows.old tap ≡ flow_of sizes
        → flow_in flows.new tap ≡ flow_of (sizes ++ filter_map (size_to tap) (map (sent_at S came.now.vid came.now.frame) places.now)) }
{
    for place in places {
        if let Ok(size) = endpoint.size_at(came, *place) {
            flows.add(tap_of(*place), size);
        }
    }
}

/// A count of packets whose checksums are left to the card, and of a record more. It ends at 2^64 - 1.
#[inline]
fn partial_with(count: u64, tap: Tap, octets: &[u8]) -> u64
    ensures { result ≡ (if is_partial_at tap octets.now then min most (count + 1) else count) }
{
    match tap {
        Tap::Underlay if is_left_to_card(octets) => count.saturating_add(1),
        _ => count,
    }
}

/// Where what is sent to a place leaves.
#[inline]
fn tap_of(place: Place) -> Tap
    ensures { result ≡ tap_of place }
{
    match place {
        Place::Local(port) => Tap::Port(port),
        Place::Remote(..) => Tap::Underlay,
    }
}
