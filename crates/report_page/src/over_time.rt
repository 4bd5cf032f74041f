//! What came, left and was dropped over time.
ghost use Rattle.std.specs.Prelude.{◌≡◌, Some};
ghost use Rattle.report_counts.specs.Places.{width};
ghost use Rattle.report_page.specs.OverTime.{begin_of, number_cell, over_time, span_row};

use crate::duration::Duration;
use crate::each::{Each, Parts};
use crate::picture::{BarsPicture, StackedPicture};
use crate::series::{Both, Kind, Numbers, Parted, SPANS, Series, sum_of};
use report_counts::ReportCounts;
use std::fmt;

const TIME_HEAD: &str = "<section aria-labelledby=\"time\">\n<h2 id=\"time\">Over time</h2>\n\
    <p>From the first moment to the last, in 64 spans, a column for each, of ";

const CAME_HEAD: &str = "<figure>\n<h3>What came</h3>\n";

const LEFT_HEAD: &str =
    "\n<figcaption><span class=\"key a\">from ports</span> <span class=\"key b\">from the underlay</span>\
    </figcaption>\n</figure>\n<figure>\n<h3>What left</h3>\n";

const DROPPED_HEAD: &str = "\n<figcaption><span class=\"key a\">at local ports</span> \
    <span class=\"key b\">to remote endpoints</span></figcaption>\n</figure>\n<figure>\n<h3>What was dropped</h3>\n";

const SPANS_HEAD: &str =
    "\n<figcaption><span class=\"key c\">in all segments, and in none</span></figcaption>\n</figure>\n\
    <details><summary>The numbers of these pictures</summary>\n\
    <div class=\"wide\" role=\"region\" aria-label=\"Numbers over time\" tabindex=\"0\"><table>\n\
    <thead><tr><th scope=\"col\">Span</th><th scope=\"col\" class=\"n\">Begins at, ns</th>\
    <th scope=\"col\" class=\"n\">From ports</th><th scope=\"col\" class=\"n\">From the underlay</th>\
    <th scope=\"col\" class=\"n\">At local ports</th><th scope=\"col\" class=\"n\">To remote endpoints</th>\
    <th scope=\"col\" class=\"n\">Dropped</th></tr></thead>\n<tbody>\n";

const SPANS_END: &str = "</tbody>\n</table></div></details>\n</section>\n";

/// A cell of a number.
#[derive(Clone, Copy)]
pub(crate) struct NumberCell(pub u64);

impl fmt::Display for NumberCell {
    ghost output = { λ cell. Some (number_cell cell.0) };

    fn fmt<W: fmt::Write>(&self, f: &mut fmt::Formatter<W>) -> fmt::Result {
        let number = self.0;
        write!(f, "<td class=\"n\">{number}</td>")
    }
}

/// How long a span is, in nanoseconds.
fn width(counts: &ReportCounts) -> u64
    ensures { result ≡ width counts.now.stretch }
{
    counts.last().saturating_sub(counts.first()) / 64 + 1
}

/// The moment at which a span begins.
fn begin_of(counts: &ReportCounts, span: u16) -> u64
    ensures { result ≡ begin_of counts.now.stretch span }
{
    sum_of(
        counts.first(),
        u64::from(span).saturating_mul(width(counts)),
    )
}

/// The rows of the spans: when each begins, and what came, left and was dropped.
#[derive(Clone, Copy)]
struct SpanRows<'a>(&'a ReportCounts);

impl<'a> Parts<u16> for SpanRows<'a> {
    ghost part = { λ rows span. span_row rows.0.now span };

    #[tactic(auto, unfolding(crate::specs::OverTime::span_row))]
    fn put<W: fmt::Write>(&self, span: u16, f: &mut fmt::Formatter<W>) -> fmt::Result {
        let counts = self.0;
        let begin = NumberCell(begin_of(counts, span));
        let ports = NumberCell(Series(counts, Kind::All(Parted::Ports)).number(span));
        let underlay = NumberCell(Series(counts, Kind::Arrival(256)).number(span));
        let local = NumberCell(Series(counts, Kind::All(Parted::LocalOutlets)).number(span));
        let remote = NumberCell(Series(counts, Kind::All(Parted::RemoteOutlets)).number(span));
        let dropped = NumberCell(Series(counts, Kind::All(Parted::Segments)).number(span));
        write!(
            f,
            "<tr><th scope=\"row\">{span}</th>{begin}{ports}{underlay}{local}{remote}{dropped}</tr>\n"
        )
    }
}

/// Three pictures and their numbers.
#[derive(Clone, Copy)]
pub(crate) struct OverTime<'a>(pub &'a ReportCounts);

impl<'a> fmt::Display for OverTime<'a> {
    ghost output = { λ section. Some (over_time section.0.now) };

    #[tactic(auto, unfolding(crate::specs::OverTime::over_time))]
    fn fmt<W: fmt::Write>(&self, f: &mut fmt::Formatter<W>) -> fmt::Result {
        let counts = self.0;
        let width = Duration(width(counts));
        let came = StackedPicture {
            title: "What came",
            both: Both {
                counts,
                lower: Kind::All(Parted::Ports),
                upper: Kind::Arrival(256),
            },
        };
        let left = StackedPicture {
            title: "What left",
            both: Both {
                counts,
                lower: Kind::All(Parted::LocalOutlets),
                upper: Kind::All(Parted::RemoteOutlets),
            },
        };
        let dropped = BarsPicture {
            title: "What was dropped",
            colour: "c",
            series: Series(counts, Kind::All(Parted::Segments)),
        };
        let rows = Each(SpanRows(counts), SPANS);
        write!(
            f,
            "{TIME_HEAD}{width}.</p>\n{CAME_HEAD}{came}{LEFT_HEAD}{left}{DROPPED_HEAD}{dropped}{SPANS_HEAD}{rows}{SPANS_END}"
        )
    }
}
