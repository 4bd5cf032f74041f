//! What was counted.
ghost use Rattle.std.specs.Prelude.{◌≡◌, None, length, slice_index, slice_index_or};
ghost use Rattle.report_counts.specs.Outlets.{name_of, outlet_of};
ghost use Rattle.report_counts.specs.Rows.{pair_of, segment_of};
ghost use Rattle.report_counts.specs.Tables.{count_in};

use crate::counts::ReportCounts;
use crate::drops::FirstDrop;
use crate::outlets::{OTHERS, Outlet};
use crate::pairs::Pair;
use crate::segments::SegmentCount;

impl ReportCounts {
    /// The first moment of all lines, in nanoseconds.
    pub fn first(&self) -> u64
        ensures { result ≡ self.now.stretch.first }
    {
        self.stretch.first
    }

    /// The last moment of all lines, in nanoseconds.
    pub fn last(&self) -> u64
        ensures { result ≡ self.now.stretch.last }
    {
        self.stretch.last
    }

    /// All events.
    pub fn events(&self) -> u64
        ensures { result ≡ self.now.events }
    {
        self.events
    }

    /// Changes that were made.
    pub fn done(&self) -> u64
        ensures { result ≡ self.now.done }
    {
        self.done
    }

    /// Changes that were refused for the cause of this number.
    pub fn refused(&self, cause: u8) -> u64
        ensures { result ≡ slice_index self.now.refused cause }
    {
        self.refused.get(usize::from(cause))
    }

    /// Outcomes that left at places.
    pub fn sent(&self) -> u64
        ensures { result ≡ self.now.sent }
    {
        self.sent
    }

    /// Outcomes that didn't leave, with a reason.
    pub fn unsent(&self) -> u64
        ensures { result ≡ self.now.unsent }
    {
        self.unsent
    }

    /// Events that were dropped.
    pub fn dropped_all(&self) -> u64
        ensures { result ≡ self.now.dropped }
    {
        self.dropped
    }

    /// Events that came from a source: 0 for the changes, 1 to 255 for the ports, 256 for the underlay.
    pub fn came(&self, source: usize) -> u64
        ensures { result ≡ slice_index self.now.sources.events source }
    {
        self.sources.events.get(source)
    }

    /// Those of a span, 0 to 63.
    pub fn came_at(&self, source: usize, span: usize) -> u64
        ensures { result ≡ count_in source span self.now.sources.spans }
    {
        self.sources.spans.get(source, span)
    }

    /// How many outlets have a name, at most 512.
    pub fn outlets(&self) -> usize
        ensures { result ≡ length self.now.outlets.names }
    {
        self.outlets.names.len()
    }

    /// The name of an outlet, at most 55 octets: `p2`, or the address of a remote endpoint; `others` for [`OTHERS`], and nothing
    /// where there is no such outlet.
    pub fn outlet_name(&self, outlet: usize) -> &[u8]
        ensures { result.now ≡ name_of outlet self.now.outlets.names }
    {
        if outlet == OTHERS {
            b"others"
        } else {
            self.outlets.names.get(outlet)
        }
    }

    /// What left at an outlet; at all others together for [`OTHERS`].
    pub fn outlet(&self, outlet: usize) -> Outlet
        ensures { result ≡ outlet_of self.now.outlets outlet }
    {
        self.outlets.at(outlet)
    }

    /// Frames that left at an outlet in a span, 0 to 63.
    pub fn left_at(&self, outlet: usize, span: usize) -> u64
        ensures { result ≡ count_in outlet span self.now.outlets.spans }
    {
        self.outlets.spans.get(outlet, span)
    }

    /// What happened in the segment of this VID, or in none for 0.
    pub fn segment(&self, vid: usize) -> SegmentCount
        ensures { result ≡ segment_of self.now.segments vid }
    {
        self.segments.at(vid)
    }

    /// Events in a segment in a span, 0 to 63.
    pub fn segment_at(&self, vid: usize, span: usize) -> u64
        ensures { result ≡ count_in vid span self.now.segments.spans }
    {
        self.segments.spans.get(vid, span)
    }

    /// Events in a segment in a span, 0 to 63, that were dropped.
    pub fn dropped_at(&self, vid: usize, span: usize) -> u64
        ensures { result ≡ count_in vid span self.now.segments.dropped_spans }
    {
        self.segments.dropped_spans.get(vid, span)
    }

    /// Events in a segment that were dropped for the reason of this number, 1 to 40.
    pub fn dropped(&self, vid: usize, reason: u8) -> u64
        ensures { result ≡ count_in vid reason self.now.reasons.dropped }
    {
        self.reasons.dropped.get(vid, usize::from(reason))
    }

    /// Outcomes in a segment that weren't sent, for the reason of this number, 39 or 40.
    pub fn unsent_by(&self, vid: usize, reason: u8) -> u64
        ensures { result ≡ count_in vid reason self.now.reasons.unsent }
    {
        self.reasons.unsent.get(vid, usize::from(reason))
    }

    /// How often the reason of this number was met in a span, 0 to 63: events that were dropped, and outcomes that weren't sent.
    pub fn reason_at(&self, reason: u8, span: usize) -> u64
        ensures { result ≡ count_in reason span self.now.reasons.spans }
    {
        self.reasons.spans.get(usize::from(reason), span)
    }

    /// Frames that came from a source and left at an outlet, [`OTHERS`] for all others together.
    pub fn pair(&self, source: usize, outlet: usize) -> Pair
        ensures { result ≡ pair_of self.now.pairs source outlet }
    {
        self.pairs.at(source, outlet)
    }

    /// How often the reason of this number was met in all segments: events that were dropped, and outcomes that weren't sent.
    pub fn reason(&self, reason: u8) -> u64
        ensures { result ≡ slice_index self.now.reasons.all reason }
    {
        self.reasons.all.get(usize::from(reason))
    }

    /// The first event for which the reason of this number was met.
    pub fn first_drop(&self, reason: u8) -> Option<FirstDrop>
        ensures { result ≡ slice_index_or self.now.first_drops reason None }
    {
        self.first_drops.get(usize::from(reason))
    }

    /// How many whole records the capture of a source has, 1 to 255 for the ports, 256 for the underlay, where it is cut.
    pub fn cut(&self, source: usize) -> Option<u64>
        ensures { result ≡ slice_index_or self.now.cuts source None }
    {
        self.cuts.get(source)
    }
}
