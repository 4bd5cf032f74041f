//! What came and left at each place.
ghost use Rattle.std.specs.Prelude.{Some};
ghost use Rattle.report_page.specs.Places.{came_row, left_row, places_text, source_word};

use crate::each::{Each, Parts};
use crate::escaped::Escaped;
use crate::over_time::NumberCell;
use crate::picture::SparkCell;
use crate::series::{Kind, Series};
use report_counts::ReportCounts;
use std::fmt;

const CAME_HEAD: &str =
    "<section aria-labelledby=\"places\">\n<h2 id=\"places\">Places</h2>\n<h3>What came</h3>\n\
    <div class=\"wide\" role=\"region\" aria-label=\"What came from each place\" tabindex=\"0\"><table>\n\
    <thead><tr><th scope=\"col\">Place</th><th scope=\"col\" class=\"n\">Arrival</th><th scope=\"col\">Over time</th></tr></thead>\n\
    <tbody>\n";

const LEFT_HEAD: &str = "</tbody>\n</table></div>\n<h3>What left</h3>\n\
    <div class=\"wide\" role=\"region\" aria-label=\"What left at each place\" tabindex=\"0\"><table>\n\
    <thead><tr><th scope=\"col\">Place</th><th scope=\"col\" class=\"n\">Frames</th><th scope=\"col\" class=\"n\">Octets</th>\
    <th scope=\"col\" class=\"n\">Not sent</th><th scope=\"col\">Over time</th></tr></thead>\n<tbody>\n";

const PLACES_END: &str = "</tbody>\n</table></div>\n</section>\n";

/// The word for a source: 0 for the changes, the number of a port, 256 for the underlay.
#[derive(Clone, Copy)]
pub(crate) struct SourceWord(pub u16);

impl fmt::Display for SourceWord {
    ghost output = { λ word. Some (source_word word.0) };

    #[tactic(auto, unfolding(crate::specs::Places::source_word))]
    fn fmt<W: fmt::Write>(&self, f: &mut fmt::Formatter<W>) -> fmt::Result {
        let source = self.0;
        if source == 0 {
            write!(f, "changes")
        } else if source == 256 {
            write!(f, "u")
        } else {
            write!(f, "p{source}")
        }
    }
}

/// The rows of the sources.
#[derive(Clone, Copy)]
struct CameRows<'a>(&'a ReportCounts);

impl<'a> Parts<u16> for CameRows<'a> {
    ghost part = { λ rows source. came_row rows.0.now source };

    #[tactic(auto, unfolding(crate::specs::Places::came_row))]
    fn put<W: fmt::Write>(&self, source: u16, f: &mut fmt::Formatter<W>) -> fmt::Result {
        let came = self.0.came(usize::from(source));
        if came == 0 {
            return Ok(());
        }
        let word = SourceWord(source);
        let came = NumberCell(came);
        let spark = SparkCell(Series(self.0, Kind::Arrival(source)));
        write!(f, "<tr><th scope=\"row\">{word}</th>{came}{spark}</tr>\n")
    }
}

/// The rows of the outlets.
#[derive(Clone, Copy)]
struct LeftRows<'a>(&'a ReportCounts);

impl<'a> Parts<u16> for LeftRows<'a> {
    ghost part = { λ rows outlet. left_row rows.0.now outlet };

    #[tactic(auto, unfolding(crate::specs::Places::left_row))]
    fn put<W: fmt::Write>(&self, outlet: u16, f: &mut fmt::Formatter<W>) -> fmt::Result {
        let counts = self.0.outlet(usize::from(outlet));
        if counts.frames == 0 && counts.faults == 0 {
            return Ok(());
        }
        let name = Escaped(self.0.outlet_name(usize::from(outlet)));
        let frames = NumberCell(counts.frames);
        let octets = NumberCell(counts.octets);
        let faults = NumberCell(counts.faults);
        let spark = SparkCell(Series(self.0, Kind::Left(outlet)));
        write!(
            f,
            "<tr><th scope=\"row\">{name}</th>{frames}{octets}{faults}{spark}</tr>\n"
        )
    }
}

/// Both tables.
#[derive(Clone, Copy)]
pub(crate) struct Places<'a>(pub &'a ReportCounts);

impl<'a> fmt::Display for Places<'a> {
    ghost output = { λ section. Some (places_text section.0.now) };

    #[tactic(auto, unfolding(crate::specs::Places::places_text))]
    fn fmt<W: fmt::Write>(&self, f: &mut fmt::Formatter<W>) -> fmt::Result {
        let came = Each(CameRows(self.0), 257);
        let left = Each(LeftRows(self.0), 513);
        write!(f, "{CAME_HEAD}{came}{LEFT_HEAD}{left}{PLACES_END}")
    }
}
