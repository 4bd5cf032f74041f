//! Who talks to whom: a picture and a table of sources and outlets, the largest of each.
ghost use Rattle.std.specs.Prelude.{◌≡◌, Some};
ghost use Rattle.report_counts.specs.Outlets.{name_of};
ghost use Rattle.report_page.specs.Matrix.{column_label, height_for, matrix_text, pairs_front, pairs_picture, row_label, source_of};

use crate::each::{Each, Parts};
use crate::escaped::Escaped;
use crate::pair_rows::PairRows;
use crate::places::SourceWord;
use crate::ranks::{Side, most_frames, some_of, source_number};
use crate::shown::{Ranked, Shown};
use crate::squares::Squares;
use report_counts::ReportCounts;
use std::fmt;

const PAIRS_HEAD: &str =
    "<section aria-labelledby=\"pairs\">\n<h2 id=\"pairs\">Who talks to whom</h2>\n<p>";

const PAIRS_PICTURE: &str = "<figure>\n<svg class=\"matrix\" viewBox=\"0 0 520 ";

const PAIRS_SHOWN: &str = "\" role=\"img\"><title>Who talks to whom</title>\
    <desc>A row for each source and a column for each outlet; the darker a square, the more frames.</desc>\n";

const PAIRS_TABLE: &str =
    "</svg>\n<figcaption>Rows are where frames came from, columns where they left.</figcaption>\n</figure>\n\
    <details><summary>The numbers of this picture</summary>\n\
    <div class=\"wide\" role=\"region\" aria-label=\"Who talks to whom\" tabindex=\"0\"><table>\n\
    <thead><tr><th scope=\"col\">From</th><th scope=\"col\">To</th><th scope=\"col\" class=\"n\">Frames</th>\
    <th scope=\"col\" class=\"n\">Octets</th></tr></thead>\n<tbody>\n";

const PAIRS_END: &str = "</tbody>\n</table></div></details>\n</section>\n";

/// The names in front of the rows.
#[derive(Clone, Copy)]
struct RowLabels;

impl Parts<Ranked> for RowLabels {
    ghost part = { λ labels source. row_label (source_of source.place) source.rank };

    #[tactic(auto, unfolding(crate::specs::Matrix::row_label))]
    fn put<W: fmt::Write>(&self, source: Ranked, f: &mut fmt::Formatter<W>) -> fmt::Result {
        let y = 168 + u16::from(source.rank) * 12;
        let source = SourceWord(source_number(source.place));
        write!(
            f,
            "<text x=\"36\" y=\"{y}\" text-anchor=\"end\">{source}</text>\n"
        )
    }
}

/// The names above the columns.
#[derive(Clone, Copy)]
struct ColumnLabels<'a>(&'a ReportCounts);

impl<'a> Parts<Ranked> for ColumnLabels<'a> {
    ghost part = { λ labels outlet. column_label (name_of outlet.place labels.0.now.outlets.names) outlet.rank };

    #[tactic(auto, unfolding(crate::specs::Matrix::column_label))]
    fn put<W: fmt::Write>(&self, outlet: Ranked, f: &mut fmt::Formatter<W>) -> fmt::Result {
        let x = 48 + u16::from(outlet.rank) * 12;
        let outlet = Escaped(self.0.outlet_name(usize::from(outlet.place)));
        write!(
            f,
            "<text transform=\"translate({x} 156) rotate(-90)\">{outlet}</text>\n"
        )
    }
}

/// How high the picture of so many sources is, in units: 160 for the names of the columns, and 12 for each row.
fn height_for(sources: u64) -> u64
    ensures { result ≡ height_for sources }
{
    160 + sources.min(40) * 12
}

/// The picture.
#[derive(Clone, Copy)]
struct PairsPicture<'a> {
    counts: &'a ReportCounts,
    height: u64,
    most: u64,
}

impl<'a> fmt::Display for PairsPicture<'a> {
    ghost output = { λ picture. Some (pairs_picture picture.counts.now picture.height picture.most) };

    #[tactic(auto, unfolding(crate::specs::Matrix::pairs_picture))]
    fn fmt<W: fmt::Write>(&self, f: &mut fmt::Formatter<W>) -> fmt::Result {
        let height = self.height;
        let counts = self.counts;
        let rows = Each(Shown(counts, Side::Sources, RowLabels), 256);
        let columns = Each(Shown(counts, Side::Outlets, ColumnLabels(counts)), 513);
        let squares = Squares {
            counts,
            most: self.most,
        };
        let squares = Each(Shown(counts, Side::Sources, squares), 256);
        write!(
            f,
            "{PAIRS_PICTURE}{height}{PAIRS_SHOWN}{rows}{columns}{squares}"
        )
    }
}

/// How many there are of each.
#[derive(Clone, Copy)]
struct PairsFront {
    sources: u64,
    outlets: u64,
}

impl fmt::Display for PairsFront {
    ghost output = { λ front. Some (pairs_front front.sources front.outlets) };

    #[tactic(auto, unfolding(crate::specs::Matrix::pairs_front))]
    fn fmt<W: fmt::Write>(&self, f: &mut fmt::Formatter<W>) -> fmt::Result {
        let sources = self.sources;
        let outlets = self.outlets;
        write!(
            f,
            "{PAIRS_HEAD}{sources} sources and {outlets} outlets had frames; of each the forty largest are shown at most, \
            the largest first.</p>\n"
        )
    }
}

/// All of it.
#[derive(Clone, Copy)]
pub(crate) struct Matrix<'a>(pub &'a ReportCounts);

impl<'a> fmt::Display for Matrix<'a> {
    ghost output = { λ section. Some (matrix_text section.0.now) };

    #[tactic(auto, unfolding(crate::specs::Matrix::matrix_text))]
    fn fmt<W: fmt::Write>(&self, f: &mut fmt::Formatter<W>) -> fmt::Result {
        let front = PairsFront {
            sources: some_of(self.0, Side::Sources),
            outlets: some_of(self.0, Side::Outlets),
        };
        let picture = PairsPicture {
            counts: self.0,
            height: height_for(some_of(self.0, Side::Sources)),
            most: most_frames(self.0),
        };
        let rows = Each(Shown(self.0, Side::Sources, PairRows(self.0)), 256);
        write!(f, "{front}{picture}{PAIRS_TABLE}{rows}{PAIRS_END}")
    }
}
