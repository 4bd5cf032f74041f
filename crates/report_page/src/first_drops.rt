//! The first events that were dropped.
ghost use Rattle.std.specs.Prelude.{Some};
ghost use Rattle.report_page.specs.FirstDrops.{first_cells, first_drops_text, first_of, first_row, moment_cells, record_word, vid_text};

use crate::each::{EachOf, Parts};
use crate::moment::Moment;
use crate::over_time::NumberCell;
use crate::reason_order::{reason_at, reason_name, reasons_in_order};
use report_counts::{FirstDrop, ReportCounts};
use std::fmt;

const FIRST_HEAD: &str = "<section aria-labelledby=\"first\">\n<h2 id=\"first\">First drops</h2>\n\
    <p>The first event that was dropped for each reason, or wasn't sent at an outlet (39 and 40), the reason that was met most first, \
    and the word of <code>tep run</code> that tells its story.</p>\n\
    <div class=\"wide\" role=\"region\" aria-label=\"First drops\" tabindex=\"0\"><table>\n\
    <thead><tr><th scope=\"col\" class=\"n\">Event</th><th scope=\"col\">Moment</th><th scope=\"col\" class=\"n\">Moment, ns</th>\
    <th scope=\"col\">Record</th><th scope=\"col\">Segment</th><th scope=\"col\">Reason</th><th scope=\"col\">Its story</th></tr>\
    </thead>\n<tbody>\n";

const FIRST_END: &str = "</tbody>\n</table></div>\n</section>\n";

/// A segment, or that there is none.
#[derive(Clone, Copy)]
struct VidWord(Option<u16>);

impl fmt::Display for VidWord {
    ghost output = { λ word. Some (vid_text word.0) };

    fn fmt<W: fmt::Write>(&self, f: &mut fmt::Formatter<W>) -> fmt::Result {
        match self.0 {
            Some(vid) => write!(f, "{vid}"),
            None => write!(f, "none"),
        }
    }
}

/// The record of an event.
#[derive(Clone, Copy)]
struct RecordWord(FirstDrop);

impl fmt::Display for RecordWord {
    ghost output = { λ word. Some (record_word word.0) };

    fn fmt<W: fmt::Write>(&self, f: &mut fmt::Formatter<W>) -> fmt::Result {
        let source = self.0.source;
        let number = self.0.number;
        write!(f, "{source}:{number}")
    }
}

/// The moment of an event.
#[derive(Clone, Copy)]
struct MomentCells(FirstDrop);

impl fmt::Display for MomentCells {
    ghost output = { λ cells. Some (moment_cells cells.0) };

    fn fmt<W: fmt::Write>(&self, f: &mut fmt::Formatter<W>) -> fmt::Result {
        let date = Moment(self.0.moment);
        let moment = NumberCell(self.0.moment);
        write!(f, "<td>{date}</td>{moment}")
    }
}

/// The cells of a drop for a reason of this name.
#[derive(Clone, Copy)]
struct FirstCells {
    drop: FirstDrop,
    name: &'static str,
}

impl fmt::Display for FirstCells {
    ghost output = { λ cells. Some (first_cells cells.drop cells.name.now) };

    #[tactic(auto, unfolding(crate::specs::FirstDrops::first_cells))]
    fn fmt<W: fmt::Write>(&self, f: &mut fmt::Formatter<W>) -> fmt::Result {
        let event = self.drop.event;
        let moment = MomentCells(self.drop);
        let record = RecordWord(self.drop);
        let segment = VidWord(self.drop.segment);
        let reason = self.drop.reason;
        let name = self.name;
        write!(
            f,
            "<tr><th scope=\"row\" class=\"n\">{event}</th>{moment}<td>{record}</td><td>{segment}</td><td>{reason} {name}</td>\
            <td><code>tep run .. --why {record}</code></td></tr>\n"
        )
    }
}

/// The rows of the first drops of reasons.
#[derive(Clone, Copy)]
struct FirstRows<'a>(&'a ReportCounts);

impl<'a> Parts<u16> for FirstRows<'a> {
    ghost part = { λ rows place. first_row (first_of rows.0.now place) };

    fn put<W: fmt::Write>(&self, place: u16, f: &mut fmt::Formatter<W>) -> fmt::Result {
        let Some(drop) = self.0.first_drop(reason_at(place)) else {
            return Ok(());
        };
        let cells = FirstCells {
            drop,
            name: reason_name(drop.reason),
        };
        write!(f, "{cells}")
    }
}

/// The table.
#[derive(Clone, Copy)]
pub(crate) struct FirstDrops<'a>(pub &'a ReportCounts);

impl<'a> fmt::Display for FirstDrops<'a> {
    ghost output = { λ section. Some (first_drops_text section.0.now) };

    #[tactic(auto, unfolding(crate::specs::FirstDrops::first_drops_text))]
    fn fmt<W: fmt::Write>(&self, f: &mut fmt::Formatter<W>) -> fmt::Result {
        let order = reasons_in_order(self.0);
        let rows = EachOf(FirstRows(self.0), order.as_slice());
        write!(f, "{FIRST_HEAD}{rows}{FIRST_END}")
    }
}
