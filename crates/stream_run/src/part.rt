//! What the steps of a run are lent.
use crate::turn::Turn;
use decision_lines::Scratch;
use endpoint_core::Endpoint;
use overlay_config::TimedChange;
use segment_set::SegmentSet;

/// A part of a run: its changes, and the segments to which it is told.
#[derive(Clone, Copy)]
pub struct Part<'a> {
    pub changes: &'a [TimedChange],
    pub segments: &'a SegmentSet,
}

/// What comes next of a source of a run.
#[derive(Clone, Copy)]
pub struct Next {
    /// Where the source stands: the changes, the ports, the underlay.
    pub index: usize,
    /// When it comes, in nanoseconds; where it has to be asked for, no sooner than this.
    pub moment: u64,
    /// How many events of the source came before.
    pub done: u64,
}

/// The event that comes next, in a part of a run.
#[derive(Clone, Copy)]
pub struct Coming<'a> {
    pub part: &'a Part<'a>,
    pub next: Next,
}

/// Who takes the events of a run: where its sources stand, the endpoint, and the scratch at which its decisions are written.
#[derive(Drop)]
pub struct Taker {
    /// Of the changes, of the ports and of the underlay.
    pub turns: Vec<Turn>,
    pub endpoint: Endpoint,
    pub scratch: Scratch,
    /// How many octets the line of an event may have, by the ports and by the limit of flood lists, which no change changes.
    pub most_of_a_line: usize,
}
