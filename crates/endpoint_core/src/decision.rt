//! What is decided of a frame or a packet.
ghost use Rattle.std.specs.Prelude.{◌≡◌, ◌≤◌, [], length, map, All, IfOk, IsTrue, IsSome, Err};
ghost use Rattle.std.specs.List.{list_all};
ghost use Rattle.wire.specs.Tag.{IsVid};
ghost use Rattle.wire.specs.declared.ether.reason.Reason.TheVariants.{NoOutlet};
ghost use Rattle.filter_db.specs.Place.{no_place};
ghost use Rattle.endpoint_core.specs.Held.{settings_of};
ghost use Rattle.endpoint_core.specs.Settings.{segment_at};
ghost use Rattle.endpoint_core.specs.StateStep.{can_leave};
ghost use Rattle.endpoint_core.specs.Forwarding.{decision_of, outcomes_of, IsThere, IsShortFrame, CanLeave};
ghost use Rattle.endpoint_core.specs.Decision.{refused_as, forwarded, octets_of, sent_of, IsShort};
ghost use Rattle.endpoint_core.specs.Step.{sent_at, outcome_at, has_two_tunnels};

use crate::Forwarding;
use crate::arrival::Arrival;
use crate::emit::egress_at;
use crate::state::EndpointState;
use arrayvec::ArrayVec;
use encapsulate::{Emission, local, wrap};
use filter_db::Place;
use std::marker::Model;
use wire::ether::{Reason, Refused, Vid};

/// What came of one outlet.
#[derive(Debug, Drop)]
pub struct Outcome<'a> {
    pub place: Place,
    /// What leaves there, or why nothing does: TooBig or InnerTagOut.
    pub sent: Result<Emission<'a>, Reason>,
}

impl<'a> Default for Outcome<'a> {
    ghost is_default = { λ outcome. outcome ≡ record { place = no_place; sent = Err NoOutlet } };

    /// At no place nothing: what stands in the free places of a list of fixed capacity.
    fn default() -> Outcome<'a> {
        Outcome {
            place: Place::default(),
            sent: Err(Reason::NoOutlet),
        }
    }
}

impl<'a> Outcome<'a> {
    /// What is sent of a frame of a segment at a place where it can leave, or why nothing is.
    #[tactic(auto, unfolding(crate::specs::Arrival::emitted, crate::specs::Arrival::emitted_parts))]
    fn of(state: &EndpointState, came: &Arrival<'a>, place: Place) -> Outcome<'a>
        requires { IsTrue (can_leave (settings_of state.now) came.now.vid place) }
        ensures value { sent_of result ≡ sent_at (settings_of state.now) came.now.vid came.now.frame place }
        ensures body { IfOk result.sent (λ e. e.body ≡ came.now.frame.body) }
        ensures parts { result ≡ outcome_at (settings_of state.now) came.now.vid came.now.frame place }
    {
        match place {
            Place::Local(port) => {
                let egress = egress_at(state, came.vid, port);
                Outcome {
                    place,
                    sent: Ok(local(came.vid, egress, &came.frame)),
                }
            }
            Place::Remote(kind, addr) => {
                let under = state.under();
                let sums = came.sums();
                Outcome {
                    place,
                    sent: wrap(under, came.vid, kind, addr, &came.frame, &sums),
                }
            }
        }
    }
}

/// What is decided of a frame or a packet: a drop, or an outcome for each outlet. It borrows the octets that came in, and
/// not the endpoint.
#[derive(Debug, Drop)]
pub struct Decision<'a> {
    segment: Option<Vid>,
    dropped: Option<Reason>,
    /// Whether the segment has two tunnels, whose kinds are told then.
    two_tunnels: bool,
    outcomes: ArrayVec<Outcome<'a>, 32>,
}

impl<'a> Model for Decision<'a> {
    ghost use Rattle.endpoint_core.specs.Decision.{Decided};

    ghost Value = { Decided };

    ghost use Rattle.std.specs.Prelude.{All};
    ghost use Rattle.endpoint_core.specs.Decision.{IsShort};

    ghost view = { λ d. record { segment = d.segment; dropped = d.dropped; two_tunnels = d.two_tunnels; outcomes = d.outcomes.items } };

    ghost invariant = { λ d. All IsShort d.outcomes.items };
}

impl<'a> Decision<'a> {
    /// What a forwarding decides, with the places in a list.
    pub(crate) fn of(
        state: &EndpointState,
        forwarding: &Forwarding<'a>,
        places: &[Place],
    ) -> Decision<'a>
        requires there { IsThere (settings_of state.now) forwarding.now }
        requires short { IsShortFrame forwarding.now }
        requires leave { CanLeave (settings_of state.now) forwarding.now places.now }
        requires few { IfOk forwarding.now (λ x. IsVid x.vid → length places.now ≤ 32) }
        ensures octets { octets_of result ≡ decision_of (settings_of state.now) forwarding.now places.now }
        ensures parts { result.outcomes ≡ outcomes_of (settings_of state.now) forwarding.now places.now }
    {
        match forwarding {
            Err(refused) => Decision::refused(*refused),
            Ok(came) => Decision::forwarded(state, came, places),
        }
    }

    /// A drop.
    fn refused(refused: Refused) -> Decision<'a>
        ensures octets { octets_of result ≡ refused_as refused }
        ensures parts { result.outcomes ≡ [] }
    {
        Decision {
            segment: refused.segment,
            dropped: Some(refused.reason),
            two_tunnels: false,
            outcomes: ArrayVec::new(),
        }
    }

    /// A frame of a segment that leaves at these places.
    fn forwarded(state: &EndpointState, came: &Arrival<'a>, places: &[Place]) -> Decision<'a>
        requires there { IsSome (segment_at (settings_of state.now) came.now.vid) }
        requires few { IsVid came.now.vid → length places.now ≤ 32 }
        requires short { length came.now.frame.body ≤ 65549 }
        requires leave { IsTrue (list_all (can_leave (settings_of state.now) came.now.vid) places.now) }
        ensures octets { let S = settings_of state.now in let vid = came.now.vid in
            octets_of result ≡ forwarded vid (has_two_tunnels S.overlay vid) (map (sent_at S vid came.now.frame) places.now) }
        ensures parts { let S = settings_of state.now in
            result.outcomes ≡ map (outcome_at S came.now.vid came.now.frame) places.now }
    {
        // It tells that the VID is one.
        let _ = came.vid.get();
        let mut outcomes = ArrayVec::new();
        for place in places {
            outcomes.push(Outcome::of(state, came, *place));
        }
        Decision {
            segment: Some(came.vid),
            dropped: None,
            two_tunnels: state.under().segment(came.vid).tunnels.are_two(),
            outcomes,
        }
    }

    /// The segment that the frame or packet came to: for a local frame from NotMember on, for a packet from WrongGroup
    /// on. None: it came to none.
    pub fn segment(&self) -> Option<Vid>
        ensures { result ≡ self.now.segment }
    {
        self.segment
    }

    /// Why the frame or packet was dropped as a whole, if it was.
    pub fn dropped(&self) -> Option<Reason>
        ensures { result ≡ self.now.dropped }
    {
        self.dropped
    }

    /// Whether the segment has two tunnels, so that a remote is told with the kind of its tunnel.
    pub(crate) fn has_two_tunnels(&self) -> bool
        ensures { result ≡ self.now.two_tunnels }
    {
        self.two_tunnels
    }

    /// What came of each outlet, in order; nothing for a drop.
    pub fn outcomes(&self) -> &[Outcome<'a>]
        ensures outcomes { result.now ≡ self.now.outcomes }
        ensures few { length result.now ≤ 32 }
        ensures short { All IsShort result.now }
    {
        self.outcomes.as_slice()
    }
}
