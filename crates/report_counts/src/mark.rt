//! Where an event is counted.
ghost use Rattle.std.specs.Prelude.{◌≡◌};
ghost use Rattle.report_counts.specs.Places.{mark_of, segment_number, source_number, span_at};

use crate::line::EventLine;
use timeline::{Source, Tap};

/// The first and the last moment of all lines, in nanoseconds, between which they are cut into 64 spans.
#[derive(Clone, Copy)]
pub(crate) struct Stretch {
    pub first: u64,
    pub last: u64,
}

/// Where an event is counted: the numbers of its source, its segment and its span.
#[derive(Clone, Copy)]
pub(crate) struct Mark {
    pub source: usize,
    pub segment: usize,
    pub span: usize,
}

impl Stretch {
    /// Where an event is counted.
    pub(crate) fn mark(self, event: &EventLine<'_>) -> Mark
        ensures { result ≡ mark_of self event.now }
    {
        Mark {
            source: source_number(event.source),
            segment: segment_number(event.segment),
            span: self.span_at(event.moment),
        }
    }

    /// The number of a moment's span, 0 to 63 up to the last moment.
    fn span_at(self, moment: u64) -> usize
        ensures { result ≡ span_at self moment }
    {
        let width = self.last.saturating_sub(self.first) / 64 + 1;
        (moment.saturating_sub(self.first) / width) as usize
    }
}

/// The number of a source: 0 for the changes, that of a port, 256 for the underlay.
pub(crate) fn source_number(source: Source) -> usize
    ensures { result ≡ source_number source }
{
    match source {
        Source::Changes => 0,
        Source::Tap(Tap::Port(port)) => usize::from(port),
        Source::Tap(Tap::Underlay) => 256,
    }
}

/// The number of a segment: its VID, 0 for none.
fn segment_number(segment: Option<u16>) -> usize
    ensures { result ≡ segment_number segment }
{
    match segment {
        Some(vid) => usize::from(vid),
        None => 0,
    }
}
