//! The reasons for which something of an event isn't sent.
ghost use Rattle.std.specs.Prelude.{◌≡◌, ◌||◌, ℕ, Ok, false, map, nat_eq, slice_index_or};
ghost use Rattle.std.specs.List.{list_any};
ghost use Rattle.wire.specs.Reason.{number_of};
ghost use Rattle.endpoint_core.specs.Forwarding.{CanLeave, decision_of};
ghost use Rattle.endpoint_core.specs.Kept.{state_of};
ghost use Rattle.endpoint_core.specs.Step.{sent_at};
ghost use Rattle.run_reports.specs.Sought.{is_for, is_reason, unsent};

use endpoint_core::{Arrival, Endpoint, Forwarding};
use filter_db::Place;
use wire::ether::Reason;

/// For each number whether something isn't sent for the reason of this number.
pub type Causes = [bool; 256];

/// Marks the reason for which a frame or a packet is dropped, or those for which nothing is sent at an outlet. What leaves is only
/// measured, at each outlet once.
pub fn mark_causes(
    causes: &mut Causes,
    endpoint: &Endpoint,
    forwarding: &Forwarding,
    places: &[Place],
)
    requires { CanLeave (state_of endpoint.now).bridges.settings forwarding.now places.now }
    ensures { (n : ℕ) → slice_index_or causes.new n false ≡ (slice_index_or causes.old n false
        || is_for n (decision_of (state_of endpoint.now).bridges.settings forwarding.now places.now)) }
{
    match forwarding {
        Err(refused) => mark(causes, refused.reason),
        Ok(came) => mark_unsent(causes, endpoint, came, places),
    }
}

/// Marks the reasons for which nothing of a frame is sent at an outlet.
fn mark_unsent(causes: &mut Causes, endpoint: &Endpoint, came: &Arrival, places: &[Place])
    requires { CanLeave (state_of endpoint.now).bridges.settings (Ok came.now) places.now }
    ensures { let S = (state_of endpoint.now).bridges.settings in (n : ℕ) → slice_index_or causes.new n false
        ≡ (slice_index_or causes.old n false
        || list_any (λ o. is_reason n (unsent o.sent)) (map (sent_at S came.now.vid came.now.frame) places.now)) }
{
    for place in places {
        mark_at(causes, endpoint.size_at(came, *place));
    }
}

/// Marks the reason for which nothing is sent at an outlet, where nothing is.
fn mark_at(causes: &mut Causes, size: Result<usize, Reason>)
    ensures { (n : ℕ) → slice_index_or causes.new n false ≡ (slice_index_or causes.old n false || is_reason n (unsent size)) }
{
    if let Err(reason) = size {
        mark(causes, reason);
    }
}

/// Marks a reason.
fn mark(causes: &mut Causes, reason: Reason)
    ensures { (n : ℕ) → slice_index_or causes.new n false ≡ (slice_index_or causes.old n false || nat_eq (number_of reason) n) }
{
    causes[usize::from(reason.number())] = true;
}

/// Whether the reason of a number is marked.
pub fn is_marked(causes: &Causes, number: u8) -> bool
    ensures { result ≡ slice_index_or causes.now number false }
{
    causes[usize::from(number)]
}
