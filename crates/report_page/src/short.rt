//! What a reader wants to know first: what is lacking, and why most was dropped.
ghost use Rattle.std.specs.Prelude.{◌≡◌, Some, take};
ghost use Rattle.report_page.specs.Reasons.{reason_at};
ghost use Rattle.report_page.specs.Short.{cut_of, cut_text, part_text, short_text, top_cells, top_row, top_text};

use crate::each::{Each, EachOf, Parts};
use crate::places::SourceWord;
use crate::reason_order::{reason_at, reason_name, reasons_in_order, sentence_of};
use report_counts::ReportCounts;
use std::fmt;

const SHORT_HEAD: &str = "<section aria-labelledby=\"short\">\n<h2 id=\"short\">In short</h2>\n";

const PART: &str =
    "<p>This folder is of a part of a run: its <code>shard.txt</code> tells of which segments. Other parts have the \
    other segments, and <code>tep merge</code> puts all of them together.</p>\n";

const NONE_DROPPED: &str = "<p>Nothing was dropped.</p>\n";

const TOP_HEAD: &str =
    "<p>What was met most of the reasons why something was dropped, or wasn't sent at an outlet:</p>\n<ol>\n";

const TOP_END: &str = "</ol>\n";

const SHORT_END: &str = "</section>\n";

/// That the folder is of a part of a run, where it is.
#[derive(Clone, Copy)]
struct PartNote(bool);

impl fmt::Display for PartNote {
    ghost output = { λ note. Some (part_text note.0) };

    fn fmt<W: fmt::Write>(&self, f: &mut fmt::Formatter<W>) -> fmt::Result {
        if self.0 { write!(f, "{PART}") } else { Ok(()) }
    }
}

/// That captures are cut, each by its source.
#[derive(Clone, Copy)]
struct Cuts<'a>(&'a ReportCounts);

impl<'a> Parts<u16> for Cuts<'a> {
    ghost part = { λ cuts source. cut_text source (cut_of cuts.0.now source) };

    fn put<W: fmt::Write>(&self, source: u16, f: &mut fmt::Formatter<W>) -> fmt::Result {
        let Some(records) = self.0.cut(usize::from(source)) else {
            return Ok(());
        };
        let word = SourceWord(source);
        write!(
            f,
            "<p>The capture of <code>{word}</code> is cut: it ends within a record, behind {records} whole ones.</p>\n"
        )
    }
}

/// A reason, how often it was met, and what to look at.
#[derive(Clone, Copy)]
struct TopCells {
    number: u8,
    name: &'static str,
    count: u64,
    sentence: &'static str,
}

impl fmt::Display for TopCells {
    ghost output = { λ cells. Some (top_cells cells.number cells.name.now cells.count cells.sentence.now) };

    #[tactic(auto, unfolding(crate::specs::Short::top_cells))]
    fn fmt<W: fmt::Write>(&self, f: &mut fmt::Formatter<W>) -> fmt::Result {
        let number = self.number;
        let name = self.name;
        let count = self.count;
        let sentence = self.sentence;
        write!(
            f,
            "<li><strong>{number} {name}: {count}</strong><br>{sentence}</li>\n"
        )
    }
}

/// Reasons, by their places.
#[derive(Clone, Copy)]
struct TopRows<'a>(&'a ReportCounts);

impl<'a> Parts<u16> for TopRows<'a> {
    ghost part = { λ rows place. top_row rows.0.now (reason_at place) };

    #[tactic(auto, unfolding(crate::specs::Short::top_row))]
    fn put<W: fmt::Write>(&self, place: u16, f: &mut fmt::Formatter<W>) -> fmt::Result {
        let number = reason_at(place);
        let cells = TopCells {
            number,
            name: reason_name(number),
            count: self.0.reason(number),
            sentence: sentence_of(number),
        };
        write!(f, "{cells}")
    }
}

/// The first three, or all where there are fewer.
#[tactic(auto, using(crate::proofs::Ordered::all_of_few))]
fn first_three(order: &[u16]) -> &[u16]
    ensures { result.now ≡ take 3 order.now }
{
    if order.len() > 3 { &order[..3] } else { order }
}

/// The first three of the reasons that were met, or that there are none.
#[derive(Clone, Copy)]
struct Top<'a> {
    counts: &'a ReportCounts,
    order: &'a [u16],
}

impl<'a> fmt::Display for Top<'a> {
    ghost output = { λ top. Some (top_text top.counts.now top.order.now) };

    fn fmt<W: fmt::Write>(&self, f: &mut fmt::Formatter<W>) -> fmt::Result {
        if self.order.is_empty() {
            return write!(f, "{NONE_DROPPED}");
        }
        let rows = EachOf(TopRows(self.counts), first_three(self.order));
        write!(f, "{TOP_HEAD}{rows}{TOP_END}")
    }
}

/// All of it.
#[derive(Clone, Copy)]
pub(crate) struct Short<'a> {
    pub counts: &'a ReportCounts,
    pub is_part: bool,
}

impl<'a> fmt::Display for Short<'a> {
    ghost output = { λ section. Some (short_text section.counts.now section.is_part) };

    #[tactic(auto, unfolding(crate::specs::Short::short_text))]
    fn fmt<W: fmt::Write>(&self, f: &mut fmt::Formatter<W>) -> fmt::Result {
        let counts = self.counts;
        let part = PartNote(self.is_part);
        let cuts = Each(Cuts(counts), 257);
        let order = reasons_in_order(counts);
        let top = Top {
            counts,
            order: order.as_slice(),
        };
        write!(f, "{SHORT_HEAD}{part}{cuts}{top}{SHORT_END}")
    }
}
