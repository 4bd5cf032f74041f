//! What happened in each segment.
ghost use Rattle.std.specs.Prelude.{◌≡◌, Some};
ghost use Rattle.report_page.specs.Segments.{segment_at, segment_row, segment_word, segments_text};

use crate::each::{Each, Parts};
use crate::over_time::NumberCell;
use crate::picture::SmallBarsCell;
use crate::series::{Kind, Series};
use report_counts::ReportCounts;
use std::fmt;

const SEGMENTS_HEAD: &str =
    "<section aria-labelledby=\"segments\">\n<h2 id=\"segments\">Segments</h2>\n\
    <div class=\"wide\" role=\"region\" aria-label=\"What happened in each segment\" tabindex=\"0\"><table>\n\
    <thead><tr><th scope=\"col\">VID</th><th scope=\"col\" class=\"n\">Events</th><th scope=\"col\" class=\"n\">Sent</th>\
    <th scope=\"col\" class=\"n\">Dropped</th><th scope=\"col\">Events over time</th></tr></thead>\n<tbody>\n";

const SEGMENTS_END: &str = "</tbody>\n</table></div>\n</section>\n";

/// The word for a segment: its VID, or that there is none for 0.
#[derive(Clone, Copy)]
pub(crate) struct SegmentWord(pub u16);

impl fmt::Display for SegmentWord {
    ghost output = { λ word. Some (segment_word word.0) };

    #[tactic(auto, unfolding(crate::specs::Segments::segment_word))]
    fn fmt<W: fmt::Write>(&self, f: &mut fmt::Formatter<W>) -> fmt::Result {
        let vid = self.0;
        if vid == 0 {
            write!(f, "none")
        } else {
            write!(f, "{vid}")
        }
    }
}

/// The segment of a place: the VIDs rise, and none is behind them.
pub(crate) fn segment_at(place: u16) -> u16
    ensures { result ≡ segment_at place }
{
    ((u32::from(place) + 1) % 4095) as u16
}

/// The rows of the segments to which something came.
#[derive(Clone, Copy)]
struct SegmentRows<'a>(&'a ReportCounts);

impl<'a> Parts<u16> for SegmentRows<'a> {
    ghost part = { λ rows place. segment_row rows.0.now (segment_at place) };

    #[tactic(auto, unfolding(crate::specs::Segments::segment_row))]
    fn put<W: fmt::Write>(&self, place: u16, f: &mut fmt::Formatter<W>) -> fmt::Result {
        let vid = segment_at(place);
        let counts = self.0.segment(usize::from(vid));
        if counts.events == 0 {
            return Ok(());
        }
        let word = SegmentWord(vid);
        let events = NumberCell(counts.events);
        let sent = NumberCell(counts.sent);
        let dropped = NumberCell(counts.dropped);
        let bars = SmallBarsCell("a", Series(self.0, Kind::Events(vid)));
        write!(
            f,
            "<tr><th scope=\"row\">{word}</th>{events}{sent}{dropped}{bars}</tr>\n"
        )
    }
}

/// The table.
#[derive(Clone, Copy)]
pub(crate) struct Segments<'a>(pub &'a ReportCounts);

impl<'a> fmt::Display for Segments<'a> {
    ghost output = { λ section. Some (segments_text section.0.now) };

    #[tactic(auto, unfolding(crate::specs::Segments::segments_text))]
    fn fmt<W: fmt::Write>(&self, f: &mut fmt::Formatter<W>) -> fmt::Result {
        let rows = Each(SegmentRows(self.0), 4095);
        write!(f, "{SEGMENTS_HEAD}{rows}{SEGMENTS_END}")
    }
}
