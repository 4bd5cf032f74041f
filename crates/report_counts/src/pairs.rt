//! What came from a source and left at an outlet.
ghost use Rattle.std.specs.Prelude.{◌≡◌, IfOk};
ghost use Rattle.report_counts.specs.Rows.{no_pairs, pair_of, with_pair};

use crate::table::Table;
use std::alloc::{AllocError, Global};

/// Frames that came from a source and left at an outlet. Each count ends at 2^64 - 1.
#[derive(Clone, Copy, Debug, PartialEq, Eq)]
pub struct Pair {
    pub frames: u64,
    /// Of all of them together, as they left.
    pub octets: u64,
}

/// Such frames of each source and each outlet: a row for each source, in it a column for each outlet and one for all others.
#[derive(Drop)]
pub(crate) struct Pairs {
    pub frames: Table<513>,
    pub octets: Table<513>,
}

impl Pairs {
    /// None yet.
    pub(crate) fn new(alloc: Global) -> Result<Pairs, AllocError>
        ensures { IfOk result (λ pairs. pairs ≡ no_pairs) }
    {
        let frames = Table::new(alloc, 257)?;
        let octets = Table::new(alloc, 257)?;
        Ok(Pairs { frames, octets })
    }

    /// Those of a source and an outlet.
    pub(crate) fn at(&self, source: usize, outlet: usize) -> Pair
        ensures { result ≡ pair_of self.now source outlet }
    {
        Pair {
            frames: self.frames.get(source, outlet),
            octets: self.octets.get(source, outlet),
        }
    }

    /// Counts one more, of so many octets.
    pub(crate) fn add(&mut self, source: usize, outlet: usize, octets: u64)
        ensures { self.new ≡ with_pair source outlet octets self.old }
    {
        self.frames.add(source, outlet, 1);
        self.octets.add(source, outlet, octets);
    }
}
