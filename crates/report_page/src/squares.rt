//! The squares of a picture of sources and outlets.
ghost use Rattle.std.specs.Prelude.{◌≡◌, Some};
ghost use Rattle.report_page.specs.Matrix.{shade_of, square_box, square_of, square_title, squares_of};

use crate::each::{Each, Parts};
use crate::escaped::Escaped;
use crate::path::height_of;
use crate::places::SourceWord;
use crate::ranks::{Side, pair_at, source_number};
use crate::shown::{Ranked, Shown};
use report_counts::ReportCounts;
use std::fmt;

/// A square at a place, so dark in hundredths.
#[derive(Clone, Copy)]
struct SquareBox {
    x: u16,
    y: u16,
    shade: u64,
}

impl fmt::Display for SquareBox {
    ghost output = { λ square. Some (square_box square.x square.y square.shade) };

    #[tactic(auto, unfolding(crate::specs::Matrix::square_box))]
    fn fmt<W: fmt::Write>(&self, f: &mut fmt::Formatter<W>) -> fmt::Result {
        let x = self.x;
        let y = self.y;
        let shade = self.shade;
        write!(
            f,
            "<rect class=\"a\" x=\"{x}\" y=\"{y}\" width=\"11\" height=\"11\" fill-opacity=\"{shade}%\">"
        )
    }
}

/// What a square shows.
#[derive(Clone, Copy)]
struct SquareTitle<'a> {
    source: u16,
    outlet: &'a [u8],
    frames: u64,
}

impl<'a> fmt::Display for SquareTitle<'a> {
    ghost output = { λ title. Some (square_title title.source title.outlet.now title.frames) };

    #[tactic(auto, unfolding(crate::specs::Matrix::square_title))]
    fn fmt<W: fmt::Write>(&self, f: &mut fmt::Formatter<W>) -> fmt::Result {
        let source = SourceWord(self.source);
        let outlet = Escaped(self.outlet);
        let frames = self.frames;
        write!(f, "<title>{source} to {outlet}: {frames}</title></rect>\n")
    }
}

/// The squares of a source that is shown in a row.
#[derive(Clone, Copy)]
struct SquaresOf<'a> {
    counts: &'a ReportCounts,
    most: u64,
    source: u16,
    row: u8,
}

impl<'a> Parts<Ranked> for SquaresOf<'a> {
    ghost part = { λ s outlet. square_of s.counts.now s.most s.source s.row outlet.place outlet.rank };

    #[tactic(auto, unfolding(crate::specs::Matrix::square_of))]
    fn put<W: fmt::Write>(&self, outlet: Ranked, f: &mut fmt::Formatter<W>) -> fmt::Result {
        let frames = pair_at(self.counts, self.source, outlet.place).frames;
        if frames == 0 {
            return Ok(());
        }
        let square = SquareBox {
            x: 40 + u16::from(outlet.rank) * 12,
            y: 160 + u16::from(self.row) * 12,
            shade: shade_of(self.most, frames),
        };
        let title = SquareTitle {
            source: source_number(self.source),
            outlet: self.counts.outlet_name(usize::from(outlet.place)),
            frames,
        };
        write!(f, "{square}{title}")
    }
}

/// How dark so many frames are, in hundredths.
fn shade_of(most: u64, frames: u64) -> u64
    ensures { result ≡ shade_of most frames }
{
    10 + height_of(most, frames) * 9 / 100
}

/// The squares of all sources that are shown.
#[derive(Clone, Copy)]
pub(crate) struct Squares<'a> {
    pub counts: &'a ReportCounts,
    pub most: u64,
}

impl<'a> Parts<Ranked> for Squares<'a> {
    ghost part = { λ s source. squares_of s.counts.now s.most source.place source.rank };

    fn put<W: fmt::Write>(&self, source: Ranked, f: &mut fmt::Formatter<W>) -> fmt::Result {
        let squares = SquaresOf {
            counts: self.counts,
            most: self.most,
            source: source.place,
            row: source.rank,
        };
        let row = Each(Shown(self.counts, Side::Outlets, squares), 513);
        write!(f, "{row}")
    }
}
