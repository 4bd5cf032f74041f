//! What comes to an endpoint: a frame at a local port or a packet from the underlay is brought to a segment, and then taken.
//!
//! [`Endpoint::bring_frame`] and [`Endpoint::bring_packet`] tell to which segment, and change nothing; [`Endpoint::take`] turns
//! that, where it lies, into where it goes. The others are both in one call, or hand out what these write.
ghost use Rattle.std.specs.Prelude.{◌≡◌, ◌≤◌, ◌+◌, IfOk, IsSome, length, true};
ghost use Rattle.endpoint_core.specs.Settings.{segment_at};
ghost use Rattle.endpoint_core.specs.Sound.{is_reached};
ghost use Rattle.endpoint_core.specs.State.{aged};
ghost use Rattle.endpoint_core.specs.Arrival.{came_at, came_by};
ghost use Rattle.endpoint_core.specs.Forwarding.{decision_of, IsThere, IsShortFrame, CanLeave, IsEmptied, IsOfWhatCame};
ghost use Rattle.endpoint_core.specs.Event.{frame_at, packet_at};
ghost use Rattle.endpoint_core.specs.Step.{Decided, answer, after, decided, after_coming};
ghost use Rattle.endpoint_core.specs.Work.{most_calls, most_compared_by};

use crate::arrival::{come_at, come_by};
use crate::decide::decide;
use crate::{Endpoint, Forwarding, nothing_came};
use tunnel_learning::Outlets;

impl Endpoint {
    ghost use Rattle.endpoint_core.specs.Kept.{state_of};

    /// Sets a forwarding to what [`Endpoint::frame_from`] answers, whatever it was.
    #[inline(always)]
    pub fn bring_frame<'a>(
        &self,
        port: u8,
        original: u32,
        octets: &'a [u8],
        forwarding: &mut Forwarding<'a>,
    )
        requires low { 1 ≤ port }
        requires high { port ≤ length (state_of self.now).bridges.settings.ports.ports }
        ensures value { forwarding.new ≡ came_at (state_of self.now).bridges.settings.ports
            (state_of self.now).bridges.settings.overlay port original octets.now }
        ensures there { IfOk forwarding.new (λ x. IsSome (segment_at (state_of self.now).bridges.settings x.vid)) }
        ensures short { IfOk forwarding.new (λ x. length x.frame.body ≤ 65549) }
        ensures reached { IfOk forwarding.new (λ x. is_reached (state_of self.now).bridges.settings.overlay x.vid x.from ≡ true) }
    {
        let (ports, under) = (self.state.ports(), self.state.under());
        come_at(ports, under, port, original, octets, forwarding);
    }

    /// Sets a forwarding to what [`Endpoint::frame_in`] answers, whatever it was.
    #[inline(always)]
    pub fn bring_packet<'a>(&self, original: u32, octets: &'a [u8], forwarding: &mut Forwarding<'a>)
        ensures value { forwarding.new ≡ came_by (state_of self.now).bridges.settings.overlay original octets.now }
        ensures there { IfOk forwarding.new (λ x. IsSome (segment_at (state_of self.now).bridges.settings x.vid)) }
        ensures short { IfOk forwarding.new (λ x. length x.frame.body ≤ 65549) }
        ensures reached { IfOk forwarding.new (λ x. is_reached (state_of self.now).bridges.settings.overlay x.vid x.from ≡ true) }
    {
        come_by(self.state.under(), original, octets, forwarding);
    }

    /// A frame or a packet came at a moment, in nanoseconds, to a segment or to none, as [`Endpoint::frame_from`] or
    /// [`Endpoint::frame_in`] tells it of this endpoint. That is turned, where it lies, into where it goes, with the places in
    /// a list that is written over, and empty where it is dropped. `now` isn't before `self.now()`.
    #[inline]
    pub fn take<'a>(&mut self, now: u64, forwarding: &mut Forwarding<'a>, places: &mut Outlets)
        requires moment { (state_of self.old).moment ≤ now }
        requires there { IfOk forwarding.old (λ x. IsSome (segment_at (state_of self.old).bridges.settings x.vid)) }
        requires short { IfOk forwarding.old (λ x. length x.frame.body ≤ 65549) }
        requires reached { IfOk forwarding.old (λ x. is_reached (state_of self.old).bridges.settings.overlay x.vid x.from ≡ true) }
        ensures answer { decision_of (state_of self.new).bridges.settings forwarding.new places.new.items
            ≡ decided now (aged now (state_of self.old).bridges) forwarding.old }
        ensures after { state_of self.new ≡ after_coming now forwarding.old (state_of self.old) }
        ensures there { IsThere (state_of self.new).bridges.settings forwarding.new }
        ensures short { IsShortFrame forwarding.new }
        ensures leave { CanLeave (state_of self.new).bridges.settings forwarding.new places.new.items }
        ensures empty { IsEmptied forwarding.new places.new.items }
        ensures came { IsOfWhatCame forwarding.old forwarding.new }
        ensures calls_stay_counted { self.old.held.tables.calls ≤ self.new.held.tables.calls }
        ensures calls { self.new.held.tables.calls ≤ self.old.held.tables.calls + most_calls forwarding.old }
        ensures comparisons_stay_counted { self.old.held.tables.compared ≤ self.new.held.tables.compared }
        ensures compared { self.new.held.tables.compared ≤ self.old.held.tables.compared + most_compared_by forwarding.old }
    {
        decide(&mut self.state, now, forwarding, places);
        self.counts
            .tally(&self.state, forwarding, places.as_slice());
        self.moment = now;
    }

    /// The frame that these octets at a local port would be, in its segment; or the first reason, of 1 to 11 and 34, why it
    /// would come to none. The port is 1 to `ports()`.
    pub fn frame_from<'a>(&self, port: u8, original: u32, octets: &'a [u8]) -> Forwarding<'a>
        requires low { 1 ≤ port }
        requires high { port ≤ length (state_of self.now).bridges.settings.ports.ports }
        ensures value { result ≡ came_at (state_of self.now).bridges.settings.ports (state_of self.now).bridges.settings.overlay
            port original octets.now }
        ensures there { IfOk result (λ x. IsSome (segment_at (state_of self.now).bridges.settings x.vid)) }
        ensures short { IfOk result (λ x. length x.frame.body ≤ 65549) }
        ensures reached { IfOk result (λ x. is_reached (state_of self.now).bridges.settings.overlay x.vid x.from ≡ true) }
    {
        let mut forwarding = nothing_came();
        self.bring_frame(port, original, octets, &mut forwarding);
        forwarding
    }

    /// The frame that an outer packet would bring, in its segment; or the first reason, of 1 to 3, 5, 6 and 12 to 34, why
    /// it would bring none.
    pub fn frame_in<'a>(&self, original: u32, octets: &'a [u8]) -> Forwarding<'a>
        ensures value { result ≡ came_by (state_of self.now).bridges.settings.overlay original octets.now }
        ensures there { IfOk result (λ x. IsSome (segment_at (state_of self.now).bridges.settings x.vid)) }
        ensures short { IfOk result (λ x. length x.frame.body ≤ 65549) }
        ensures reached { IfOk result (λ x. is_reached (state_of self.now).bridges.settings.overlay x.vid x.from ≡ true) }
    {
        let mut forwarding = nothing_came();
        self.bring_packet(original, octets, &mut forwarding);
        forwarding
    }

    /// A frame of this original length came in at a local port at a moment, in nanoseconds: where it goes, with the places
    /// in a list that is written over, and empty where it is dropped. `now` isn't before `self.now()`, and the port is 1 to `ports()`.
    pub fn take_frame<'a>(
        &mut self,
        now: u64,
        port: u8,
        original: u32,
        octets: &'a [u8],
        places: &mut Outlets,
    ) -> Forwarding<'a>
        requires moment { (state_of self.old).moment ≤ now }
        requires low { 1 ≤ port }
        requires high { port ≤ length (state_of self.old).bridges.settings.ports.ports }
        ensures answer { Decided (decision_of (state_of self.new).bridges.settings result places.new.items)
            ≡ answer (state_of self.old) (frame_at now port original octets.now) }
        ensures after { state_of self.new ≡ after (state_of self.old) (frame_at now port original octets.now) }
        ensures there { IsThere (state_of self.new).bridges.settings result }
        ensures short { IsShortFrame result }
        ensures leave { CanLeave (state_of self.new).bridges.settings result places.new.items }
        ensures empty { IsEmptied result places.new.items }
        ensures came { let S = (state_of self.old).bridges.settings in
            IsOfWhatCame (came_at S.ports S.overlay port original octets.now) result }
        ensures calls_stay_counted { self.old.held.tables.calls ≤ self.new.held.tables.calls }
        ensures calls { let S = (state_of self.old).bridges.settings in let came = came_at S.ports S.overlay port original octets.now in
            self.new.held.tables.calls ≤ self.old.held.tables.calls + most_calls came }
        ensures comparisons_stay_counted { self.old.held.tables.compared ≤ self.new.held.tables.compared }
        ensures compared { let S = (state_of self.old).bridges.settings in let came = came_at S.ports S.overlay port original octets.now in
            self.new.held.tables.compared ≤ self.old.held.tables.compared + most_compared_by came }
    {
        let mut forwarding = self.frame_from(port, original, octets);
        self.take(now, &mut forwarding, places);
        forwarding
    }

    /// A packet of this original length came in from the underlay at a moment, in nanoseconds: where its frame goes, with
    /// the places in a list that is written over, and empty where it is dropped. `now` isn't before `self.now()`.
    pub fn take_packet<'a>(
        &mut self,
        now: u64,
        original: u32,
        octets: &'a [u8],
        places: &mut Outlets,
    ) -> Forwarding<'a>
        requires { (state_of self.old).moment ≤ now }
        ensures answer { Decided (decision_of (state_of self.new).bridges.settings result places.new.items)
            ≡ answer (state_of self.old) (packet_at now original octets.now) }
        ensures after { state_of self.new ≡ after (state_of self.old) (packet_at now original octets.now) }
        ensures there { IsThere (state_of self.new).bridges.settings result }
        ensures short { IsShortFrame result }
        ensures leave { CanLeave (state_of self.new).bridges.settings result places.new.items }
        ensures empty { IsEmptied result places.new.items }
        ensures came { let S = (state_of self.old).bridges.settings in
            IsOfWhatCame (came_by S.overlay original octets.now) result }
        ensures calls_stay_counted { self.old.held.tables.calls ≤ self.new.held.tables.calls }
        ensures calls { let S = (state_of self.old).bridges.settings in let came = came_by S.overlay original octets.now in
            self.new.held.tables.calls ≤ self.old.held.tables.calls + most_calls came }
        ensures comparisons_stay_counted { self.old.held.tables.compared ≤ self.new.held.tables.compared }
        ensures compared { let S = (state_of self.old).bridges.settings in let came = came_by S.overlay original octets.now in
            self.new.held.tables.compared ≤ self.old.held.tables.compared + most_compared_by came }
    {
        let mut forwarding = self.frame_in(original, octets);
        self.take(now, &mut forwarding, places);
        forwarding
    }
}
