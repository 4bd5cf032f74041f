//! What left at each outlet.
ghost use Rattle.std.specs.Prelude.{◌≡◌, IfOk, take};
ghost use Rattle.report_counts.specs.Outlets.{no_outlets, outlet_of, row_of, with_passage};

use crate::names::{MOST_NAMES, Names};
use crate::outcomes::Passage;
use crate::table::{Table, Tally};
use std::alloc::{AllocError, Global};

/// The number of the row that all outlets without a name of their own have together.
pub const OTHERS: usize = 512;

/// What left at an outlet. Each count ends at 2^64 - 1.
#[derive(Clone, Copy, Debug, PartialEq, Eq)]
pub struct Outlet {
    /// Frames or packets that left there.
    pub frames: u64,
    /// Of all of them together.
    pub octets: u64,
    /// How often nothing left there, with a reason.
    pub faults: u64,
}

/// What left at each outlet, by the rows of their names, and that of all others behind them.
#[derive(Drop)]
pub(crate) struct Outlets {
    pub names: Names,
    pub frames: Tally,
    pub octets: Tally,
    pub faults: Tally,
    /// Frames in each span.
    pub spans: Table<64>,
}

impl Outlets {
    /// Nothing left yet.
    pub(crate) fn new(alloc: Global) -> Result<Outlets, AllocError>
        ensures { IfOk result (λ outlets. outlets ≡ no_outlets) }
    {
        let names = Names::new(alloc)?;
        let frames = Tally::new(alloc, MOST_NAMES + 1)?;
        let octets = Tally::new(alloc, MOST_NAMES + 1)?;
        let faults = Tally::new(alloc, MOST_NAMES + 1)?;
        let spans = Table::new(alloc, MOST_NAMES + 1)?;
        Ok(Outlets {
            names,
            frames,
            octets,
            faults,
            spans,
        })
    }

    /// What left at the outlet of a row.
    pub(crate) fn at(&self, row: usize) -> Outlet
        ensures { result ≡ outlet_of self.now row }
    {
        Outlet {
            frames: self.frames.get(row),
            octets: self.octets.get(row),
            faults: self.faults.get(row),
        }
    }

    /// Counts what came of a frame at a place in a span, and answers the row of the place.
    pub(crate) fn add(&mut self, place: &[u8], passage: Passage, span: usize) -> usize
        ensures counts { self.new ≡ with_passage place.now passage span self.old }
        ensures row { result ≡ row_of (take 55 place.now) self.new.names }
    {
        let row = self.names.row(place);
        match passage {
            Passage::Left { octets } => {
                self.frames.add(row, 1);
                self.octets.add(row, octets);
                self.spans.add(row, span, 1);
            }
            Passage::Unsent { .. } => self.faults.add(row, 1),
        }
        row
    }
}
