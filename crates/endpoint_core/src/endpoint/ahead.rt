//! Where a frame or a packet would go, told without a step.
ghost use Rattle.std.specs.Prelude.{◌≡◌, ◌≤◌, length, IfOk, IsSome, true, Ok};
ghost use Rattle.endpoint_core.specs.Held.{settings_of, state_at, moment_of};
ghost use Rattle.endpoint_core.specs.Settings.{segment_at};
ghost use Rattle.endpoint_core.specs.Sound.{is_reached};
ghost use Rattle.endpoint_core.specs.Arrival.{came_at, came_by};
ghost use Rattle.endpoint_core.specs.Forwarding.{decision_of, IsThere, IsShortFrame, CanLeave, IsEmptied, IsOfWhatCame};
ghost use Rattle.endpoint_core.specs.Event.{frame_at, packet_at};
ghost use Rattle.endpoint_core.specs.Step.{Decided, answer, decided, decided_in};

use crate::arrival::Arrival;
use crate::state::EndpointState;
use crate::{Endpoint, Forwarding};
use tunnel_learning::Outlets;
use wire::ether::Refused;

impl Endpoint {
    ghost use Rattle.endpoint_core.specs.Kept.{state_of};

    /// Where a frame at a local port would go, as [`Endpoint::take_frame`] takes it, with the places in a list that is written
    /// over, and empty where it would be dropped; the endpoint stays as it is. `now` isn't before `self.now()`, and the port is
    /// 1 to `ports()`.
    pub fn forwarding_of_frame<'a>(
        &self,
        now: u64,
        port: u8,
        original: u32,
        octets: &'a [u8],
        places: &mut Outlets,
    ) -> Forwarding<'a>
        requires moment { (state_of self.now).moment ≤ now }
        requires low { 1 ≤ port }
        requires high { port ≤ length (state_of self.now).bridges.settings.ports.ports }
        ensures answer { Decided (decision_of (state_of self.now).bridges.settings result places.new.items)
            ≡ answer (state_of self.now) (frame_at now port original octets.now) }
        ensures there { IsThere (state_of self.now).bridges.settings result }
        ensures short { IsShortFrame result }
        ensures leave { CanLeave (state_of self.now).bridges.settings result places.new.items }
        ensures empty { IsEmptied result places.new.items }
        ensures came { let S = (state_of self.now).bridges.settings in
            IsOfWhatCame (came_at S.ports S.overlay port original octets.now) result }
    {
        let came = self.frame_from(port, original, octets);
        forwarding_ahead(&self.state, now, came, places)
    }

    /// Where a packet from the underlay would go, as [`Endpoint::take_packet`] takes it, with the places in a list that is
    /// written over, and empty where it would be dropped; the endpoint stays as it is. `now` isn't before `self.now()`.
    pub fn forwarding_of_packet<'a>(
        &self,
        now: u64,
        original: u32,
        octets: &'a [u8],
        places: &mut Outlets,
    ) -> Forwarding<'a>
        requires { (state_of self.now).moment ≤ now }
        ensures answer { Decided (decision_of (state_of self.now).bridges.settings result places.new.items)
            ≡ answer (state_of self.now) (packet_at now original octets.now) }
        ensures there { IsThere (state_of self.now).bridges.settings result }
        ensures short { IsShortFrame result }
        ensures leave { CanLeave (state_of self.now).bridges.settings result places.new.items }
        ensures empty { IsEmptied result places.new.items }
        ensures came { let S = (state_of self.now).bridges.settings in
            IsOfWhatCame (came_by S.overlay original octets.now) result }
    {
        let came = self.frame_in(original, octets);
        forwarding_ahead(&self.state, now, came, places)
    }
}

/// Where it would go, with the places in a list that is written over.
fn forwarding_ahead<'a>(
    state: &EndpointState,
    now: u64,
    came: Forwarding<'a>,
    places: &mut Outlets,
) -> Forwarding<'a>
    requires time { moment_of state.now ≤ now }
    requires there { IfOk came (λ x. IsSome (segment_at (settings_of state.now) x.vid)) }
    requires short { IfOk came (λ x. length x.frame.body ≤ 65549) }
    requires reached { IfOk came (λ x. is_reached (settings_of state.now).overlay x.vid x.from ≡ true) }
    ensures decision { decision_of (settings_of state.now) result places.new.items ≡ decided now (state_at now state.now) came.entry }
    ensures there { IsThere (settings_of state.now) result }
    ensures short { IsShortFrame result }
    ensures leave { CanLeave (settings_of state.now) result places.new.items }
    ensures empty { IsEmptied result places.new.items }
    ensures came { IsOfWhatCame came.entry result }
{
    match came {
        Ok(came) => forwarding_in(state, now, came, places),
        Err(refused) => {
            places.clear();
            Err(refused)
        }
    }
}

/// Where the bridge of its segment would send a frame.
fn forwarding_in<'a>(
    state: &EndpointState,
    now: u64,
    came: Arrival<'a>,
    places: &mut Outlets,
) -> Forwarding<'a>
    requires time { moment_of state.now ≤ now }
    requires there { IsSome (segment_at (settings_of state.now) came.vid) }
    requires short { length came.frame.body ≤ 65549 }
    requires reached { is_reached (settings_of state.now).overlay came.vid came.from ≡ true }
    ensures decision { decision_of (settings_of state.now) result places.new.items ≡ decided_in now (state_at now state.now) came.entry }
    ensures there { IsThere (settings_of state.now) result }
    ensures short { IsShortFrame result }
    ensures leave { CanLeave (settings_of state.now) result places.new.items }
    ensures empty { IsEmptied result places.new.items }
    ensures came { IsOfWhatCame (Ok came.entry) result }
{
    match state.foresee(now, came.vid, came.from, &came.frame, places) {
        Ok(()) => Ok(came),
        Err(reason) => Err(Refused::within(came.vid, reason)),
    }
}
