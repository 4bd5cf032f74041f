//! What was dropped and refused, and why.
ghost use Rattle.std.specs.Prelude.{◌≡◌, Some};
ghost use Rattle.report_page.specs.Drops.{cause_cells, cause_row, drop_cells, drop_row, drops_text, limit_mark, met};
ghost use Rattle.report_page.specs.Drops.{reason_drops, reason_row};
ghost use Rattle.report_page.specs.Reasons.{reason_at};
ghost use Rattle.report_page.specs.Segments.{segment_at};

use crate::each::{EachOf, Parts};
use crate::order::largest;
use crate::over_time::NumberCell;
use crate::picture::SmallBarsCell;
use crate::reason_order::{reason_at, reason_name, reasons_in_order, sentence_of};
use crate::segments::{SegmentWord, segment_at};
use crate::series::{Kind, Numbers, Series, sum_of};
use endpoint_core::state::{CHANGE_FAULTS, ChangeFault};
use report_counts::ReportCounts;
use std::fmt;

const DROPS_HEAD: &str = "<section aria-labelledby=\"drops\">\n<h2 id=\"drops\">Drops</h2>\n\
    <p>Why frames and packets were dropped, or weren't sent at an outlet (39 and 40), and what to look at: the reason \
    that was met most first, and of each the forty segments where it was met most.</p>\n\
    <div class=\"wide\" role=\"region\" aria-label=\"Drops by segment and reason\" tabindex=\"0\"><table>\n\
    <thead><tr><th scope=\"col\">Segment</th><th scope=\"col\" class=\"n\">No.</th><th scope=\"col\">Reason</th>\
    <th scope=\"col\" class=\"n\">Count</th><th scope=\"col\">What it means</th></tr></thead>\n<tbody>\n";

const REASONS_HEAD: &str = "</tbody>\n</table></div>\n<h3>Reasons over time</h3>\n\
    <div class=\"wide\" role=\"region\" aria-label=\"Reasons over time\" tabindex=\"0\"><table>\n\
    <thead><tr><th scope=\"col\">Reason</th><th scope=\"col\" class=\"n\">Count</th>\
    <th scope=\"col\">Over time</th></tr></thead>\n<tbody>\n";

const CAUSES_HEAD: &str = "</tbody>\n</table></div>\n<h3>Refused changes</h3>\n\
    <p>A cause that is marked is a limit of the settings that was met.</p>\n\
    <div class=\"wide\" role=\"region\" aria-label=\"Refused changes by cause\" tabindex=\"0\"><table>\n\
    <thead><tr><th scope=\"col\">Cause</th><th scope=\"col\" class=\"n\">Count</th><th scope=\"col\">Limit</th></tr></thead>\n\
    <tbody>\n";

const DROPS_END: &str = "</tbody>\n</table></div>\n</section>\n";

/// How often a reason was met in a segment.
fn met(counts: &ReportCounts, vid: u16, reason: u8) -> u64
    ensures { result ≡ met counts.now vid reason }
{
    let vid = usize::from(vid);
    sum_of(counts.dropped(vid, reason), counts.unsent_by(vid, reason))
}

/// The cells of a reason in a segment.
#[derive(Clone, Copy)]
struct DropCells {
    vid: u16,
    number: u64,
    name: &'static str,
    count: u64,
    sentence: &'static str,
}

impl fmt::Display for DropCells {
    ghost output = { λ cells. Some (drop_cells cells.vid cells.number cells.name.now cells.count cells.sentence.now) };

    #[tactic(auto, unfolding(crate::specs::Drops::drop_cells))]
    fn fmt<W: fmt::Write>(&self, f: &mut fmt::Formatter<W>) -> fmt::Result {
        let segment = SegmentWord(self.vid);
        let number = NumberCell(self.number);
        let name = self.name;
        let count = NumberCell(self.count);
        let sentence = self.sentence;
        write!(
            f,
            "<tr><th scope=\"row\">{segment}</th>{number}<td>{name}</td>{count}<td class=\"why\">{sentence}</td></tr>\n"
        )
    }
}

/// The rows of a reason, each of a segment.
#[derive(Clone, Copy)]
struct DropsFor<'a> {
    counts: &'a ReportCounts,
    reason: u8,
}

impl<'a> Parts<u16> for DropsFor<'a> {
    ghost part = { λ rows place. drop_row rows.counts.now (segment_at place) rows.reason };

    #[tactic(auto, unfolding(crate::specs::Drops::drop_row))]
    fn put<W: fmt::Write>(&self, place: u16, f: &mut fmt::Formatter<W>) -> fmt::Result {
        let vid = segment_at(place);
        let cells = DropCells {
            vid,
            number: u64::from(self.reason),
            name: reason_name(self.reason),
            count: met(self.counts, vid, self.reason),
            sentence: sentence_of(self.reason),
        };
        write!(f, "{cells}")
    }
}

/// How often a reason was met in each segment.
impl<'a> Numbers for DropsFor<'a> {
    ghost number = { λ drops place. met drops.counts.now (segment_at place) drops.reason };

    fn number(&self, place: u16) -> u64 {
        met(self.counts, segment_at(place), self.reason)
    }
}

/// The rows of reasons, each of the segments in which it was met most.
#[derive(Clone, Copy)]
struct DropRows<'a>(&'a ReportCounts);

impl<'a> Parts<u16> for DropRows<'a> {
    ghost part = { λ rows place. reason_drops rows.0.now (reason_at place) };

    #[tactic(auto, unfolding(crate::specs::Drops::reason_drops))]
    fn put<W: fmt::Write>(&self, place: u16, f: &mut fmt::Formatter<W>) -> fmt::Result {
        let drops = DropsFor {
            counts: self.0,
            reason: reason_at(place),
        };
        let segments = largest(&drops, 4095);
        let rows = EachOf(drops, segments.as_slice());
        write!(f, "{rows}")
    }
}

/// The rows of reasons over time.
#[derive(Clone, Copy)]
struct ReasonRows<'a>(&'a ReportCounts);

impl<'a> Parts<u16> for ReasonRows<'a> {
    ghost part = { λ rows place. reason_row rows.0.now (reason_at place) };

    #[tactic(auto, unfolding(crate::specs::Drops::reason_row))]
    fn put<W: fmt::Write>(&self, place: u16, f: &mut fmt::Formatter<W>) -> fmt::Result {
        let number = reason_at(place);
        let name = reason_name(number);
        let count = NumberCell(self.0.reason(number));
        let bars = SmallBarsCell("c", Series(self.0, Kind::Reason(number)));
        write!(
            f,
            "<tr><th scope=\"row\">{number} {name}</th>{count}{bars}</tr>\n"
        )
    }
}

/// What marks a cause that is a limit.
#[derive(Clone, Copy)]
struct LimitMark(ChangeFault);

impl fmt::Display for LimitMark {
    ghost output = { λ mark. Some (limit_mark mark.0) };

    fn fmt<W: fmt::Write>(&self, f: &mut fmt::Formatter<W>) -> fmt::Result {
        match self.0 {
            ChangeFault::FloodFull
            | ChangeFault::TableFull
            | ChangeFault::PoolFull
            | ChangeFault::SegmentsFull => write!(f, "<span class=\"limit\">a limit</span>"),
            _ => Ok(()),
        }
    }
}

/// The cells of a cause.
#[derive(Clone, Copy)]
struct CauseCells {
    number: u8,
    name: &'static str,
    count: u64,
    mark: LimitMark,
}

impl fmt::Display for CauseCells {
    ghost output = { λ cells. Some (cause_cells cells.number cells.name.now cells.count (limit_mark cells.mark.0)) };

    #[tactic(auto, unfolding(crate::specs::Drops::cause_cells))]
    fn fmt<W: fmt::Write>(&self, f: &mut fmt::Formatter<W>) -> fmt::Result {
        let number = self.number;
        let name = self.name;
        let count = NumberCell(self.count);
        let mark = self.mark;
        write!(
            f,
            "<tr><th scope=\"row\">{number} {name}</th>{count}<td>{mark}</td></tr>\n"
        )
    }
}

/// The rows of the causes for which changes were refused.
#[derive(Clone, Copy)]
struct CauseRows<'a>(&'a ReportCounts);

impl<'a> Parts<ChangeFault> for CauseRows<'a> {
    ghost part = { λ rows cause. cause_row rows.0.now cause };

    #[tactic(auto, unfolding(crate::specs::Drops::cause_row))]
    fn put<W: fmt::Write>(&self, cause: ChangeFault, f: &mut fmt::Formatter<W>) -> fmt::Result {
        let number = cause.number();
        let count = self.0.refused(number);
        if count == 0 {
            return Ok(());
        }
        let cells = CauseCells {
            number,
            name: cause.name(),
            count,
            mark: LimitMark(cause),
        };
        write!(f, "{cells}")
    }
}

/// All of it.
#[derive(Clone, Copy)]
pub(crate) struct Drops<'a>(pub &'a ReportCounts);

impl<'a> fmt::Display for Drops<'a> {
    ghost output = { λ section. Some (drops_text section.0.now) };

    #[tactic(auto, unfolding(crate::specs::Drops::drops_text))]
    fn fmt<W: fmt::Write>(&self, f: &mut fmt::Formatter<W>) -> fmt::Result {
        let order = reasons_in_order(self.0);
        let places = order.as_slice();
        let drops = EachOf(DropRows(self.0), places);
        let reasons = EachOf(ReasonRows(self.0), places);
        let causes = EachOf(CauseRows(self.0), &CHANGE_FAULTS);
        write!(
            f,
            "{DROPS_HEAD}{drops}{REASONS_HEAD}{reasons}{CAUSES_HEAD}{causes}{DROPS_END}"
        )
    }
}
