//! Decisions: what an endpoint makes of a frame or a packet, as one value.
ghost use Rattle.std.specs.Prelude.{◌≡◌, ◌<◌, ◌≤◌, ◌+◌, false, length, true};
ghost use Rattle.wire.specs.Tag.{IsVid};
ghost use Rattle.overlay.specs.Overlay.{flood_at};
ghost use Rattle.endpoint_core.specs.Arrival.{came_at, came_by};
ghost use Rattle.endpoint_core.specs.Forwarding.{AreInParts};
ghost use Rattle.endpoint_core.specs.Decision.{octets_of};
ghost use Rattle.endpoint_core.specs.Event.{frame_at, packet_at};
ghost use Rattle.endpoint_core.specs.Outlets.{AreFewOutlets, HasFewOutlets};
ghost use Rattle.endpoint_core.specs.Step.{Decided, answer, after};
ghost use Rattle.endpoint_core.specs.Work.{most_calls, most_compared_by};

use crate::{Decision, Endpoint};
use overlay::underlay::Overlay;
use tunnel_learning::Outlets;
use wire::ether::Vid;

/// The most outlets of a decision.
const MOST: usize = 32;

/// The highest VID (IEEE 802.1Q, 9.6).
const LAST_VID: u16 = 4094;

impl Endpoint {
    ghost use Rattle.endpoint_core.specs.Kept.{state_of};

    /// Whether the local ports and the flood list of any segment are 32 together at most, so that a [`Decision`] has room for
    /// what comes of each outlet. It looks at the flood lists of all segments.
    pub fn has_few_outlets(&self) -> bool
        ensures few { result ≡ true → HasFewOutlets (state_of self.now).bridges.settings }
        ensures many { HasFewOutlets (state_of self.now).bridges.settings → result ≡ true }
    {
        are_few(self.ports(), self.under())
    }

    /// A frame of this original length came in at a local port at a moment, in nanoseconds: what is decided of it.
    /// `now` isn't before `self.now()`, the port is 1 to `ports()`, and outlets are few, as `has_few_outlets()` tells. With any
    /// settings [`Endpoint::take_frame`] does the same.
    pub fn frame<'a>(&mut self, now: u64, port: u8, original: u32, octets: &'a [u8]) -> Decision<'a>
        requires moment { (state_of self.old).moment ≤ now }
        requires low { 1 ≤ port }
        requires high { port ≤ length (state_of self.old).bridges.settings.ports.ports }
        requires few { HasFewOutlets (state_of self.old).bridges.settings }
        ensures answer { Decided (octets_of result) ≡ answer (state_of self.old) (frame_at now port original octets.now) }
        ensures after { state_of self.new ≡ after (state_of self.old) (frame_at now port original octets.now) }
        ensures parts { let S = (state_of self.old).bridges.settings in
            AreInParts (state_of self.new).bridges.settings (came_at S.ports S.overlay port original octets.now) result.outcomes }
        ensures calls_stay_counted { self.old.held.tables.calls ≤ self.new.held.tables.calls }
        ensures calls { let S = (state_of self.old).bridges.settings in let came = came_at S.ports S.overlay port original octets.now in
            self.new.held.tables.calls ≤ self.old.held.tables.calls + most_calls came }
        ensures comparisons_stay_counted { self.old.held.tables.compared ≤ self.new.held.tables.compared }
        ensures compared { let S = (state_of self.old).bridges.settings in let came = came_at S.ports S.overlay port original octets.now in
            self.new.held.tables.compared ≤ self.old.held.tables.compared + most_compared_by came }
    {
        let mut places = Outlets::new();
        let forwarding = self.take_frame(now, port, original, octets, &mut places);
        Decision::of(&self.state, &forwarding, places.as_slice())
    }

    /// A packet of this original length came in from the underlay at a moment, in nanoseconds: what is decided of it.
    /// `now` isn't before `self.now()`, and outlets are few. With any settings [`Endpoint::take_packet`] does the same.
    pub fn packet<'a>(&mut self, now: u64, original: u32, octets: &'a [u8]) -> Decision<'a>
        requires moment { (state_of self.old).moment ≤ now }
        requires few { HasFewOutlets (state_of self.old).bridges.settings }
        ensures answer { Decided (octets_of result) ≡ answer (state_of self.old) (packet_at now original octets.now) }
        ensures after { state_of self.new ≡ after (state_of self.old) (packet_at now original octets.now) }
        ensures parts { let S = (state_of self.old).bridges.settings in
            AreInParts (state_of self.new).bridges.settings (came_by S.overlay original octets.now) result.outcomes }
        ensures calls_stay_counted { self.old.held.tables.calls ≤ self.new.held.tables.calls }
        ensures calls { let S = (state_of self.old).bridges.settings in let came = came_by S.overlay original octets.now in
            self.new.held.tables.calls ≤ self.old.held.tables.calls + most_calls came }
        ensures comparisons_stay_counted { self.old.held.tables.compared ≤ self.new.held.tables.compared }
        ensures compared { let S = (state_of self.old).bridges.settings in let came = came_by S.overlay original octets.now in
            self.new.held.tables.compared ≤ self.old.held.tables.compared + most_compared_by came }
    {
        let mut places = Outlets::new();
        let forwarding = self.take_packet(now, original, octets, &mut places);
        Decision::of(&self.state, &forwarding, places.as_slice())
    }
}

/// Whether so many ports and the flood list of any segment are 32 together at most.
fn are_few(ports: u8, under: &Overlay) -> bool
    ensures few { result ≡ true → AreFewOutlets ports under.now }
    ensures many { AreFewOutlets ports under.now → result ≡ true }
{
    for index in 0..LAST_VID {
        if is_crowded(ports, under, index + 1) {
            return false;
        }
    }
    true
}

/// Whether so many ports and the flood list of the segment of a VID are more than 32 together.
fn is_crowded(ports: u8, under: &Overlay, number: u16) -> bool
    requires { IsVid number }
    ensures crowded { result ≡ true → 32 < ports + length (flood_at under.now number) }
    ensures few { result ≡ false → ports + length (flood_at under.now number) ≤ 32 }
{
    MOST < usize::from(ports) + flooded(under, number)
}

/// How many remote endpoints the segment of a VID floods to, none where there is no segment.
fn flooded(under: &Overlay, number: u16) -> usize
    requires { IsVid number }
    ensures value { result ≡ length (flood_at under.now number) }
    ensures few { result ≤ 512 }
{
    match Vid::new(number) {
        Some(vid) if under.has(vid) => under.flood(vid).targets().len(),
        _ => 0,
    }
}
