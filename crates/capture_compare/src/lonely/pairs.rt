//! Pairs of near records, counted by what of them differs.
ghost use Rattle.std.specs.Prelude.{◌≡◌, ◌<◌, IfOk, length};
ghost use Rattle.capture_compare.specs.Differing.{is_such, no_pairs, same_difference, same_segment, with_new, with_pair};
ghost use Rattle.capture_compare.specs.Finding.{FindsRow, with_one_at};
ghost use Rattle.record_match.specs.Lengths.{one_more};

use crate::lonely::difference::Difference;
use crate::lonely::segment::RecordSegment;
use std::alloc::{AllocError, Global};
use std::marker::Model;

/// How many kinds of pairs have rows.
const MOST: usize = 1_024;

/// A record that was sent alone and one that was received alone and is near it.
#[derive(Clone, Copy, Debug)]
pub struct NearPair {
    /// The segment that the one that was sent tells.
    pub segment: RecordSegment,
    /// The one thing in which they differ.
    pub difference: Difference,
    /// The number of the one that was received in its capture, from 1.
    pub received: u64,
    /// That of the one that was sent.
    pub sent: u64,
}

/// The first pair of those that have the segment of what was sent and the difference, and how many there are.
#[derive(Clone, Copy, Debug)]
pub struct DifferenceRow {
    pub first: NearPair,
    pub count: u64,
}

/// Pairs by segment and difference: a row for each of up to 1,024 kinds, in the order of their first ones, and how many pairs are of
/// other kinds. A number that can't grow stays. Only [`PairCounts::new`] takes memory.
#[derive(Drop)]
pub(crate) struct PairCounts {
    rows: Vec<DifferenceRow>,
    others: u64,
}

impl Model for PairCounts {
    ghost use Rattle.std.specs.Prelude.{◌≤◌, vec_capacity};
    ghost use Rattle.capture_compare.specs.Differing.{Counted};

    ghost Value = { Counted };

    ghost view = { λ c. record { rows = c.rows.items; others = c.others } };

    ghost invariant = { λ c. 1024 ≤ vec_capacity c.rows };
}

impl PairCounts {
    /// Those of no pairs. `AllocError`: there was no memory for the rows.
    pub(crate) fn new(alloc: Global) -> Result<PairCounts, AllocError>
        ensures { IfOk result (λ counts. counts ≡ no_pairs) }
    {
        Ok(PairCounts {
            rows: Vec::with_capacity(alloc, MOST)?,
            others: 0,
        })
    }

    /// The rows, in the order of their first pairs.
    pub(crate) fn rows(&self) -> &[DifferenceRow]
        ensures { result.now ≡ self.now.rows }
    {
        self.rows.as_slice()
    }

    /// How many pairs have no row.
    pub(crate) fn others(&self) -> u64
        ensures { result ≡ self.now.others }
    {
        self.others
    }

    /// Counts one more.
    pub(crate) fn count(&mut self, pair: NearPair)
        ensures { self.new ≡ with_pair pair self.old }
    {
        match find_row(self.rows.as_slice(), &pair) {
            Some(i) => self.count_in(i),
            None => self.open_row(pair.segment, pair.difference, pair.received, pair.sent),
        }
    }

    /// Counts one more in a row.
    fn count_in(&mut self, i: usize)
        requires { i < length self.old.rows }
        ensures { self.new ≡ record self.old { rows = with_one_at self.old.rows i } }
    {
        let row = &mut self.rows[i];
        row.count = one_more(row.count);
    }

    /// Counts the first one of its kind.
    fn open_row(&mut self, segment: RecordSegment, difference: Difference, received: u64, sent: u64)
        ensures { self.new ≡ with_new (record { segment = segment; difference = difference; received = received; sent = sent }) self.old }
    {
        if self.rows.len() < MOST {
            // There is room: nothing is taken.
            let _ = self.rows.push(DifferenceRow {
                first: NearPair {
                    segment,
                    difference,
                    received,
                    sent,
                },
                count: 1,
            });
        } else {
            self.others = one_more(self.others);
        }
    }
}

/// Which row is the first of such pairs.
fn find_row(rows: &[DifferenceRow], pair: &NearPair) -> Option<usize>
    ensures { FindsRow pair.now rows.now result }
{
    for i in 0..rows.len() {
        if is_such(&rows[i].first, pair) {
            return Some(i);
        }
    }
    None
}

/// Whether two pairs are counted together.
fn is_such(one: &NearPair, other: &NearPair) -> bool
    ensures { result ≡ is_such one.now other.now }
{
    same_segment(&one.segment, &other.segment)
        && same_difference(&one.difference, &other.difference)
}

/// Whether two segments are the same.
fn same_segment(one: &RecordSegment, other: &RecordSegment) -> bool
    ensures { result ≡ same_segment one.now other.now }
{
    one == other
}

/// Whether the same differs in the same way.
fn same_difference(one: &Difference, other: &Difference) -> bool
    ensures { result ≡ same_difference one.now other.now }
{
    one == other
}

/// One more, up to the greatest number.
fn one_more(n: u64) -> u64
    ensures { result ≡ one_more n }
{
    n.saturating_add(1)
}
