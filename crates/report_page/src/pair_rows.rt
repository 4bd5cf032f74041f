//! The table of sources and outlets.
ghost use Rattle.std.specs.Prelude.{Some};
ghost use Rattle.report_page.specs.Matrix.{pair_cells, pair_row, pairs_of};

use crate::each::{Each, Parts};
use crate::escaped::Escaped;
use crate::over_time::NumberCell;
use crate::places::SourceWord;
use crate::ranks::{Side, pair_at, source_number};
use crate::shown::{Ranked, Shown};
use report_counts::{Pair, ReportCounts};
use std::fmt;

/// The cells of a source and an outlet.
#[derive(Clone, Copy)]
struct PairCells<'a> {
    source: u16,
    outlet: &'a [u8],
    pair: Pair,
}

impl<'a> fmt::Display for PairCells<'a> {
    ghost output = { λ cells. Some (pair_cells cells.source cells.outlet.now cells.pair) };

    #[tactic(auto, unfolding(crate::specs::Matrix::pair_cells))]
    fn fmt<W: fmt::Write>(&self, f: &mut fmt::Formatter<W>) -> fmt::Result {
        let source = SourceWord(self.source);
        let outlet = Escaped(self.outlet);
        let frames = NumberCell(self.pair.frames);
        let octets = NumberCell(self.pair.octets);
        write!(
            f,
            "<tr><th scope=\"row\">{source}</th><td>{outlet}</td>{frames}{octets}</tr>\n"
        )
    }
}

/// The rows of a source.
#[derive(Clone, Copy)]
struct PairsOf<'a> {
    counts: &'a ReportCounts,
    source: u16,
}

impl<'a> Parts<Ranked> for PairsOf<'a> {
    ghost part = { λ rows outlet. pair_row rows.counts.now rows.source outlet.place };

    #[tactic(auto, unfolding(crate::specs::Matrix::pair_row))]
    fn put<W: fmt::Write>(&self, outlet: Ranked, f: &mut fmt::Formatter<W>) -> fmt::Result {
        let pair = pair_at(self.counts, self.source, outlet.place);
        if pair.frames == 0 {
            return Ok(());
        }
        let cells = PairCells {
            source: source_number(self.source),
            outlet: self.counts.outlet_name(usize::from(outlet.place)),
            pair,
        };
        write!(f, "{cells}")
    }
}

/// The rows of all sources that are shown.
#[derive(Clone, Copy)]
pub(crate) struct PairRows<'a>(pub &'a ReportCounts);

impl<'a> Parts<Ranked> for PairRows<'a> {
    ghost part = { λ rows source. pairs_of rows.0.now source.place };

    fn put<W: fmt::Write>(&self, source: Ranked, f: &mut fmt::Formatter<W>) -> fmt::Result {
        let pairs = PairsOf {
            counts: self.0,
            source: source.place,
        };
        let rows = Each(Shown(self.0, Side::Outlets, pairs), 513);
        write!(f, "{rows}")
    }
}
