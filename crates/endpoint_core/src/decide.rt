//! Where a frame or a packet goes.
ghost use Rattle.std.specs.Prelude.{◌≡◌, ◌≤◌, ◌+◌, ◌*◌, length, IfOk, IsSome, true, Err};
ghost use Rattle.filter_db.specs.Work.{most_compared};
ghost use Rattle.endpoint_core.specs.Held.{settings_of, state_at, moment_of};
ghost use Rattle.endpoint_core.specs.Settings.{segment_at};
ghost use Rattle.endpoint_core.specs.Sound.{is_reached};
ghost use Rattle.endpoint_core.specs.StateStep.{after_frame};
ghost use Rattle.endpoint_core.specs.Forwarding.{decision_of, forwarding_of, IsThere, IsShortFrame, CanLeave, IsEmptied, IsOfWhatCame};
ghost use Rattle.endpoint_core.specs.Step.{decided, decided_in, after_came};
ghost use Rattle.endpoint_core.specs.Work.{most_calls, most_compared_by};

use crate::Forwarding;
use crate::arrival::Arrival;
use crate::state::EndpointState;
use tunnel_learning::Outlets;
use wire::ether::Refused;

/// Turns what came to a segment at a moment, or to none, into where it goes.
pub(crate) fn decide<'a>(
    state: &mut EndpointState,
    now: u64,
    forwarding: &mut Forwarding<'a>,
    places: &mut Outlets,
)
    requires time { moment_of state.old ≤ now }
    requires there { IfOk forwarding.old (λ x. IsSome (segment_at (settings_of state.old) x.vid)) }
    requires short { IfOk forwarding.old (λ x. length x.frame.body ≤ 65549) }
    requires reached { IfOk forwarding.old (λ x. is_reached (settings_of state.old).overlay x.vid x.from ≡ true) }
    ensures decision { decision_of (settings_of state.new) forwarding.new places.new.items
        ≡ decided now (state_at now state.old) forwarding.old }
    ensures after { state_at now state.new ≡ after_came now (state_at now state.old) forwarding.old }
    ensures there { IsThere (settings_of state.new) forwarding.new }
    ensures short { IsShortFrame forwarding.new }
    ensures leave { CanLeave (settings_of state.new) forwarding.new places.new.items }
    ensures empty { IsEmptied forwarding.new places.new.items }
    ensures came { IsOfWhatCame forwarding.old forwarding.new }
    ensures time { moment_of state.new ≤ now }
    ensures calls_stay_counted { state.old.tables.calls ≤ state.new.tables.calls }
    ensures calls { state.new.tables.calls ≤ state.old.tables.calls + most_calls forwarding.old }
    ensures comparisons_stay_counted { state.old.tables.compared ≤ state.new.tables.compared }
    ensures compared { state.new.tables.compared ≤ state.old.tables.compared + most_compared_by forwarding.old }
{
    let forwarded = match forwarding {
        Ok(came) => forward(state, now, came, places),
        Err(_) => {
            places.clear();
            return;
        }
    };
    if let Err(refused) = forwarded {
        refuse(forwarding, refused);
    }
}

/// Turns what came to a segment into what was refused, where that comes: only there is room made for it.
#[inline(always)]
fn refuse<'a>(forwarding: &mut Forwarding<'a>, refused: Refused)
    ensures { forwarding.new ≡ Err refused }
{
    *forwarding = Err(refused);
}

/// Where the bridge of its segment sends a frame, or why nowhere.
fn forward(
    state: &mut EndpointState,
    now: u64,
    came: &mut Arrival,
    places: &mut Outlets,
) -> Result<(), Refused>
    requires time { moment_of state.old ≤ now }
    requires there { IsSome (segment_at (settings_of state.old) came.old.vid) }
    requires short { length came.old.frame.body ≤ 65549 }
    requires reached { is_reached (settings_of state.old).overlay came.old.vid came.old.from ≡ true }
    ensures decision { decision_of (settings_of state.new) (forwarding_of result came.old) places.new.items
        ≡ decided_in now (state_at now state.old) came.old }
    ensures after { state_at now state.new ≡ after_frame now came.old.vid came.old.from came.old.frame (state_at now state.old) }
    ensures there { IsThere (settings_of state.new) (forwarding_of result came.old) }
    ensures leave { CanLeave (settings_of state.new) (forwarding_of result came.old) places.new.items }
    ensures empty { IsEmptied (forwarding_of result came.old) places.new.items }
    ensures came { came.new ≡ came.old }
    ensures time { moment_of state.new ≤ now }
    ensures calls_stay_counted { state.old.tables.calls ≤ state.new.tables.calls }
    ensures calls { state.new.tables.calls ≤ state.old.tables.calls + 2 }
    ensures comparisons_stay_counted { state.old.tables.compared ≤ state.new.tables.compared }
    ensures compared { state.new.tables.compared ≤ state.old.tables.compared + 2 * most_compared }
{
    match state.step(now, came.vid, &came.from, &came.frame, places) {
        Ok(()) => {
            came.sum_for(places.as_slice(), state.under().settings());
            Ok(())
        }
        Err(reason) => Err(Refused {
            segment: Some(came.vid),
            reason,
        }),
    }
}
