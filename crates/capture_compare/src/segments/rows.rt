//! Counts in rows, one for each segment.
ghost use Rattle.std.specs.Prelude.{◌≡◌, ◌<◌, IfOk, replicate};
ghost use Rattle.capture_compare.specs.Counts.{no_counts};
ghost use Rattle.capture_compare.specs.Counting.{row_at, row_number, rows_with};

use crate::lines::Counts;
use std::alloc::{AllocError, Global};
use std::marker::Model;
use wire::ether::Vid;

/// How many rows there are: that of no segment, and one for each VID of 1 to 4094.
const ROWS: usize = 4_095;

/// Counts by segment: first the row of no segment, behind it that of each VID, rising; seen by contracts as the list of them. A
/// number that can't grow stays. Only [`SegmentRows::new`] takes memory.
#[derive(Drop)]
pub struct SegmentRows {
    rows: Vec<Counts>,
}

impl Model for SegmentRows {
    ghost use Rattle.std.specs.Prelude.{◌≡◌, List, length};
    ghost use Rattle.capture_compare.specs.declared.lines.counts.Counts.{Counts};

    ghost Value = { List Counts };

    ghost view = { λ r. r.rows.items };

    ghost invariant = { λ r. length r.rows.items ≡ 4095 };
}

impl SegmentRows {
    /// Rows of no records. `AllocError`: there was no memory for them.
    pub fn new(alloc: Global) -> Result<SegmentRows, AllocError>
        ensures { IfOk result (λ rows. rows ≡ replicate 4095 no_counts) }
    {
        Ok(SegmentRows {
            rows: no_rows(alloc, row_count())?,
        })
    }

    /// The counts of a segment, or of none.
    pub fn row_at(&self, segment: Option<Vid>) -> Counts
        ensures { result ≡ row_at self.now segment }
    {
        self.rows[row_number(segment)]
    }

    /// Adds counts to those of a segment, or of none.
    pub(crate) fn add(&mut self, segment: Option<Vid>, counts: Counts)
        ensures { self.new ≡ rows_with segment counts self.old }
    {
        let i = row_number(segment);
        let row = self.rows[i];
        self.rows[i] = row.and(counts);
    }
}

/// The row of a segment, or of none.
fn row_number(segment: Option<Vid>) -> usize
    ensures value { result ≡ row_number segment }
    ensures few { result < 4095 }
{
    match segment {
        Some(vid) => usize::from(vid.get()),
        None => 0,
    }
}

/// How many rows there are.
fn row_count() -> usize
    ensures { result ≡ 4095 }
{
    ROWS
}

/// So many rows of no record.
fn no_rows(alloc: Global, count: usize) -> Result<Vec<Counts>, AllocError>
    ensures { IfOk result (λ rows. rows.items ≡ replicate count no_counts) }
{
    vec![in alloc; Counts {
        sent: 0,
        received: 0,
        both: 0
    }; count]
}
