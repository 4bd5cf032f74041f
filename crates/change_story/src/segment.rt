//! What checks ask of a segment.
ghost use Rattle.std.specs.Prelude.{◌≡◌, IsSome, Some};
ghost use Rattle.endpoint_core.specs.Held.{settings_of};
ghost use Rattle.endpoint_core.specs.Settings.{segment_at};
ghost use Rattle.change_story.specs.Segment.{segment_in};

use endpoint_core::state::EndpointState;
use overlay::flood::FloodList;
use overlay::underlay::Tunnels;
use std::marker::Model;
use wire::ether::Vid;

/// What checks ask of a segment that is there.
#[derive(Drop)]
pub(crate) struct Segment<'s> {
    pub(crate) tunnels: Tunnels,
    pub(crate) flood: &'s FloodList,
    /// The most entries that its table may have.
    pub(crate) limit: u32,
    /// Its ageing, in nanoseconds.
    pub(crate) span: u64,
    /// Whether it learns.
    pub(crate) learning: bool,
}

impl<'s> Model for Segment<'s> {
    ghost use Rattle.change_story.specs.Segment.{Segment};

    ghost Value = { Segment };

    ghost view = { λ s. record { tunnels = s.tunnels; flood = s.flood.now; limit = s.limit; span = s.span; learning = s.learning } };
}

/// The segment of a VID, where there is one.
pub(crate) fn segment_in<'s>(state: &'s EndpointState, vid: Vid) -> Option<Segment<'s>>
    ensures { result ≡ segment_in (settings_of state.now) vid }
{
    if !state.ports().has(vid) {
        return None;
    }
    Some(segment_there(state, vid))
}

/// The same of one that is there.
fn segment_there<'s>(state: &'s EndpointState, vid: Vid) -> Segment<'s>
    requires there { IsSome (segment_at (settings_of state.now) vid) }
    ensures { Some result ≡ segment_in (settings_of state.now) vid }
{
    let segment = state.under().segment(vid);
    Segment {
        tunnels: segment.tunnels,
        flood: &segment.flood,
        limit: state.limit(vid),
        span: state.ageing(vid),
        learning: state.bridge(vid).learning,
    }
}
