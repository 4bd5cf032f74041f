//! Tables of counts.
ghost use Rattle.std.specs.Prelude.{◌≡◌, ◌≤◌, IfOk, slice_index};
ghost use Rattle.report_counts.specs.Tables.{added, added_in, count_in, zero_rows, zeros};

use std::alloc::{AllocError, Global};
use std::marker::Model;

/// Counts by a number from 0 on, seen by contracts as their list. Each ends at 2^64 - 1.
#[derive(Drop)]
pub(crate) struct Tally {
    counts: Vec<u64>,
}

impl Model for Tally {
    ghost use Rattle.std.specs.Prelude.{List, ℕ};

    ghost Value = { List ℕ };

    ghost view = { λ t. t.counts.items };
}

impl Tally {
    /// Of so many numbers, of which nothing was counted yet.
    #[tactic(auto, unfolding(crate::specs::Tables::zeros))]
    pub(crate) fn new(alloc: Global, size: usize) -> Result<Tally, AllocError>
        ensures { IfOk result (λ tally. tally ≡ zeros size) }
    {
        let counts = vec![in alloc; 0; size]?;
        Ok(Tally { counts })
    }

    /// How many were counted of a number; 0 behind the last one.
    pub(crate) fn get(&self, number: usize) -> u64
        ensures { result ≡ slice_index self.now number }
    {
        self.counts.get(number).copied().unwrap_or(0)
    }

    /// Counts so many more of a number; nothing behind the last one.
    pub(crate) fn add(&mut self, number: usize, more: u64)
        ensures { self.new ≡ added number more self.old }
    {
        add_in(self.counts.as_mut_slice(), number, more);
    }
}

/// Rows of `N` counts each, at most 1,024, seen by contracts as the list of rows. Each count ends at 2^64 - 1.
#[derive(Drop)]
pub(crate) struct Table<const N: usize> {
    rows: Vec<[u64; N]>,
}

impl<const N: usize> Model for Table<N> {
    ghost use Rattle.std.specs.Prelude.{List, ℕ};

    ghost Value = { List (List ℕ) };

    ghost view = { λ t. t.rows.items };
}

impl<const N: usize> Table<N> {
    /// So many rows, in which nothing was counted yet.
    #[tactic(auto, unfolding(crate::specs::Tables::zero_rows))]
    pub(crate) fn new(alloc: Global, size: usize) -> Result<Table<N>, AllocError>
        requires { N ≤ 1024 }
        ensures { IfOk result (λ table. table ≡ zero_rows N size) }
    {
        let mut rows = Vec::with_capacity(alloc, size)?;
        for _row in 0..size {
            rows.push_reserved([0; N]);
        }
        Ok(Table { rows })
    }

    /// How many were counted in a column of a row; 0 behind the last row or column.
    pub(crate) fn get(&self, row: usize, column: usize) -> u64
        ensures { result ≡ count_in row column self.now }
    {
        match self.rows.get(row) {
            Some(counts) => counts.get(column).copied().unwrap_or(0),
            None => 0,
        }
    }

    /// Counts so many more in a column of a row; nothing behind the last row or column.
    pub(crate) fn add(&mut self, row: usize, column: usize, more: u64)
        requires { N ≤ 1024 }
        ensures { self.new ≡ added_in row column more self.old }
    {
        if row < self.rows.len() {
            add_in_row(&mut self.rows[row], column, more);
        }
    }
}

/// Counts so many more at a place; nothing behind the last one.
fn add_in(counts: &mut [u64], at: usize, more: u64)
    ensures { counts.new ≡ added at more counts.old }
{
    if at < counts.len() {
        counts[at] = counts[at].saturating_add(more);
    }
}

/// The same in a row of a table.
fn add_in_row<const N: usize>(row: &mut [u64; N], column: usize, more: u64)
    requires { N ≤ 1024 }
    ensures { row.new ≡ added column more row.old }
{
    if column < N {
        row[column] = row[column].saturating_add(more);
    }
}
