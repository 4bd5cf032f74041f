//! The result in the last line of a story.
ghost use Rattle.std.specs.Prelude.{◌≡◌, ◌++◌, map, IsSome, IsTrue, OnOk, codes, decimal, string_bytes};
ghost use Rattle.std.specs.List.{list_all};
ghost use Rattle.wire.specs.Reason.{name_of, number_of};
ghost use Rattle.endpoint_core.specs.Settings.{segment_at};
ghost use Rattle.endpoint_core.specs.StateStep.{can_leave};
ghost use Rattle.endpoint_core.specs.Kept.{state_of};
ghost use Rattle.endpoint_core.specs.Step.{has_two_tunnels, sent_at};
ghost use Rattle.endpoint_core.specs.Text.{outcome_text, outcomes_text};
ghost use Rattle.decision_lines.specs.Outcomes.{count_text};

use endpoint_core::{Arrival, Endpoint, put_place};
use filter_db::Place;
use std::alloc::AllocError;
use std::fmt::Write;
use wire::ether::Reason;

/// Puts that a frame or packet is dropped, and why. `AllocError`: there was no room for it.
pub(crate) fn put_drop(text: &mut String, reason: Reason) -> Result<(), AllocError>
    ensures { OnOk result (string_bytes text.new
        ≡ string_bytes text.old ++ (codes "drop " ++ decimal (number_of reason) ++ codes " " ++ name_of reason)) }
{
    let number = reason.number();
    let name = reason.name();
    write!(text, "drop {number} {name}")
}

/// Puts what comes of each place where a frame leaves, with one space between two. What leaves is only measured.
/// `AllocError`: there was no room for it.
pub(crate) fn put_outcomes(
    text: &mut String,
    endpoint: &Endpoint,
    came: &Arrival,
    places: &[Place],
) -> Result<(), AllocError>
    requires there { IsSome (segment_at (state_of endpoint.now).bridges.settings came.now.vid) }
    requires leave { IsTrue (list_all (can_leave (state_of endpoint.now).bridges.settings came.now.vid) places.now) }
    ensures { let S = (state_of endpoint.now).bridges.settings in
        OnOk result (string_bytes text.new
        ≡ string_bytes text.old
        ++ outcomes_text (has_two_tunnels S.overlay came.now.vid) (map (sent_at S came.now.vid came.now.frame) places.now)) }
{
    let two_tunnels = endpoint.has_two_tunnels(came);
    let mut parted = false;
    for place in places {
        if parted {
            text.push(' ')?;
        }
        put_outcome(text, endpoint, came, two_tunnels, *place)?;
        parted = true;
    }
    Ok(())
}

/// Puts a place, and the number of octets sent there or the name of the reason why none are.
fn put_outcome(
    text: &mut String,
    endpoint: &Endpoint,
    came: &Arrival,
    two_tunnels: bool,
    place: Place,
) -> Result<(), AllocError>
    requires { IsTrue (can_leave (state_of endpoint.now).bridges.settings came.now.vid place) }
    ensures { let S = (state_of endpoint.now).bridges.settings in
        OnOk result (string_bytes text.new
        ≡ string_bytes text.old ++ outcome_text two_tunnels (sent_at S came.now.vid came.now.frame place)) }
{
    let count = endpoint.size_at(came, place);
    put_place(text, two_tunnels, place)?;
    put_count(text, count)
}

/// Puts how many octets are sent, or the name of the reason why none are.
fn put_count(text: &mut String, count: Result<usize, Reason>) -> Result<(), AllocError>
    ensures { OnOk result (string_bytes text.new ≡ string_bytes text.old ++ count_text count) }
{
    match count {
        Ok(count) => write!(text, "={count}"),
        Err(reason) => {
            text.push('!')?;
            text.push_str(reason.name())
        }
    }
}
