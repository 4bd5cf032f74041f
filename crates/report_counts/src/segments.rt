//! What happened in each segment.
ghost use Rattle.std.specs.Prelude.{◌≡◌, IfOk};
ghost use Rattle.report_counts.specs.Rows.{no_segments, segment_of, with_drop_in, with_event_in};

use crate::table::{Table, Tally};
use std::alloc::{AllocError, Global};

/// What happened in a segment, or in none. Each count ends at 2^64 - 1.
#[derive(Clone, Copy, Debug, PartialEq, Eq)]
pub struct SegmentCount {
    /// Events, changes among them.
    pub events: u64,
    /// Outcomes that left at places.
    pub sent: u64,
    /// Events that were dropped.
    pub dropped: u64,
}

/// What happened in each segment, by its VID, and in none by 0.
#[derive(Drop)]
pub(crate) struct Segments {
    pub events: Tally,
    pub sent: Tally,
    pub dropped: Tally,
    /// Events in each span.
    pub spans: Table<64>,
    /// Events in each span that were dropped.
    pub dropped_spans: Table<64>,
}

impl Segments {
    /// Nothing happened yet.
    pub(crate) fn new(alloc: Global) -> Result<Segments, AllocError>
        ensures { IfOk result (λ segments. segments ≡ no_segments) }
    {
        let events = Tally::new(alloc, 4095)?;
        let sent = Tally::new(alloc, 4095)?;
        let dropped = Tally::new(alloc, 4095)?;
        let spans = Table::new(alloc, 4095)?;
        let dropped_spans = Table::new(alloc, 4095)?;
        Ok(Segments {
            events,
            sent,
            dropped,
            spans,
            dropped_spans,
        })
    }

    /// What happened in a segment.
    pub(crate) fn at(&self, segment: usize) -> SegmentCount
        ensures { result ≡ segment_of self.now segment }
    {
        SegmentCount {
            events: self.events.get(segment),
            sent: self.sent.get(segment),
            dropped: self.dropped.get(segment),
        }
    }

    /// Counts an event.
    pub(crate) fn add_event(&mut self, segment: usize, span: usize)
        ensures { self.new ≡ with_event_in segment span self.old }
    {
        self.events.add(segment, 1);
        self.spans.add(segment, span, 1);
    }

    /// Counts an event that was dropped.
    pub(crate) fn add_drop(&mut self, segment: usize, span: usize)
        ensures { self.new ≡ with_drop_in segment span self.old }
    {
        self.dropped.add(segment, 1);
        self.dropped_spans.add(segment, span, 1);
    }
}
