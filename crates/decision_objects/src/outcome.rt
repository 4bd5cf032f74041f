//! What came of a place.
ghost use Rattle.std.specs.Prelude.{◌≡◌, ◌≤◌, ◌+◌, ◌++◌, length, IsTrue, Ok, Err};
ghost use Rattle.endpoint_core.specs.StateStep.{can_leave};
ghost use Rattle.endpoint_core.specs.Kept.{state_of};
ghost use Rattle.endpoint_core.specs.Step.{sent_at};
ghost use Rattle.endpoint_core.specs.Text.{place_text};
ghost use Rattle.decision_objects.specs.Objects.{count_text, gap, outcome_text};

use decision_lines::Line;
use endpoint_core::{Arrival, Endpoint};
use filter_db::Place;
use wire::ether::Reason;

/// Puts what comes of a place, behind a comma where it isn't the first. What leaves there is only measured.
#[inline]
pub(crate) fn put_sized(
    line: &mut Line,
    endpoint: &Endpoint,
    came: &Arrival,
    is_first: bool,
    two_tunnels: bool,
    place: Place,
)
    requires leave { IsTrue (can_leave (state_of endpoint.now).bridges.settings came.now.vid place) }
    requires room { length line.old + 98 ≤ 65536 }
    ensures text { let S = (state_of endpoint.now).bridges.settings in
        line.new ≡ line.old ++ (gap is_first ++ outcome_text two_tunnels (sent_at S came.now.vid came.now.frame place)) }
    ensures len { length line.new ≤ length line.old + 98 }
{
    let count = endpoint.size_at(came, place);
    put_outcome(line, is_first, two_tunnels, place, count);
}

/// Puts how many octets left at a place, or the name of the reason why none did; behind a comma where it isn't the first.
/// The kind of a remote's tunnel is told where the segment has two.
#[inline]
fn put_outcome(
    line: &mut Line,
    is_first: bool,
    two_tunnels: bool,
    place: Place,
    count: Result<usize, Reason>,
)
    requires room { length line.old + 98 ≤ 65536 }
    ensures text { line.new ≡ line.old ++ (gap is_first ++ count_text (place_text two_tunnels place) count) }
    ensures len { length line.new ≤ length line.old + 98 }
{
    if !is_first {
        line.put_octet(b',');
    }
    match count {
        Ok(count) => put_octets(line, two_tunnels, place, count),
        Err(reason) => put_fault(line, two_tunnels, place, reason),
    }
}

/// Puts how many octets left at a place.
#[inline]
fn put_octets(line: &mut Line, two_tunnels: bool, place: Place, count: usize)
    requires room { length line.old + 97 ≤ 65536 }
    ensures text { line.new ≡ line.old ++ count_text (place_text two_tunnels place) (Ok count) }
    ensures len { length line.new ≤ length line.old + 97 }
{
    line.put_text(b"{\"octets\":");
    line.put_number(count as u64);
    line.put_text(b",\"place\":\"");
    line.put_place(two_tunnels, place);
    line.put_text(b"\"}");
}

/// Puts why nothing left at a place.
fn put_fault(line: &mut Line, two_tunnels: bool, place: Place, reason: Reason)
    requires room { length line.old + 97 ≤ 65536 }
    ensures text { line.new ≡ line.old ++ count_text (place_text two_tunnels place) (Err reason) }
    ensures len { length line.new ≤ length line.old + 97 }
{
    line.put_text(b"{\"fault\":\"");
    line.put_text(reason.name().as_bytes());
    line.put_text(b"\",\"place\":\"");
    line.put_place(two_tunnels, place);
    line.put_text(b"\"}");
}
