//! What a change finds of what it changes.
ghost use Rattle.std.specs.Prelude.{◌≡◌, ◌≤◌, length};
ghost use Rattle.std.specs.Option.{option_map};
ghost use Rattle.overlay.specs.Ports.{is_port, is_up, egress_at};
ghost use Rattle.endpoint_core.specs.Held.{moment_of, settings_of, state_at};
ghost use Rattle.change_story.specs.Checks.{entries_in, found, of_port};
ghost use Rattle.change_story.specs.Segment.{Segment, segment_in};
ghost use Rattle.change_story.specs.declared.seen.Seen.TheVariants as seen;

use crate::seen::Seen;
use crate::segment::segment_in;
use endpoint_core::state::{Change, EndpointState};
use overlay::ports::PortSet;
use wire::ether::Vid;

/// What a change at a moment, which isn't before any earlier one, finds of what it changes.
pub(crate) fn found(state: &EndpointState, now: u64, change: Change) -> Option<Seen>
    requires time { moment_of state.now ≤ now }
    ensures { result ≡ found (state_at now state.now) change }
{
    match change {
        Change::SetAgeing { vid, .. } => ageing_of(state, vid),
        Change::SetLearning { vid, .. } => learning_of(state, vid),
        Change::SetMember { vid, port, .. } => member_of(state, vid, port),
        Change::PortUp { port } => up_of(state, port),
        Change::PortDown { port } => up_of(state, port),
        Change::Flush { vid } => entries_of(state, now, vid),
        Change::RemoveSegment { vid } => entries_of(state, now, vid),
        Change::SetLimit { vid, .. } => entries_of(state, now, vid),
        _ => None,
    }
}

/// The ageing of a segment.
fn ageing_of(state: &EndpointState, vid: Vid) -> Option<Seen>
    ensures { result ≡ option_map (λ (g : Segment). seen.AgeingBefore g.span) (segment_in (settings_of state.now) vid) }
{
    let segment = segment_in(state, vid)?;
    Some(Seen::AgeingBefore { span: segment.span })
}

/// Whether a segment learns.
fn learning_of(state: &EndpointState, vid: Vid) -> Option<Seen>
    ensures { result ≡ option_map (λ (g : Segment). seen.Learning g.learning) (segment_in (settings_of state.now) vid) }
{
    let segment = segment_in(state, vid)?;
    Some(Seen::Learning {
        on: segment.learning,
    })
}

/// Whether there is a port.
fn has_port(ports: &PortSet, port: u8) -> bool
    ensures { result ≡ is_port (length ports.now.ports) port }
{
    1 <= port && port <= ports.ports()
}

/// Whether a port is a member of a segment.
fn member_of(state: &EndpointState, vid: Vid, port: u8) -> Option<Seen>
    ensures { let S = settings_of state.now in
        result ≡ of_port S port (seen.Member port (egress_at S.ports vid port)) }
{
    let ports = state.ports();
    if !has_port(ports, port) {
        return None;
    }
    let egress = ports.egress(vid, port);
    Some(Seen::Member { port, egress })
}

/// Whether a port is up.
fn up_of(state: &EndpointState, port: u8) -> Option<Seen>
    ensures { let S = settings_of state.now in
        result ≡ of_port S port (seen.Up port (is_up S.ports port)) }
{
    let ports = state.ports();
    if !has_port(ports, port) {
        return None;
    }
    let up = ports.is_up(port);
    Some(Seen::Up { port, up })
}

/// How many entries the table of a segment has, and how many it may have.
fn entries_of(state: &EndpointState, now: u64, vid: Vid) -> Option<Seen>
    requires time { moment_of state.now ≤ now }
    ensures { let B = state_at now state.now in
        result ≡ option_map (entries_in (B.tables vid)) (segment_in B.settings vid) }
{
    let segment = segment_in(state, vid)?;
    let entries = state.entry_count(vid, now);
    let limit = segment.limit;
    Some(Seen::Entries { entries, limit })
}
