//! How much later records were received than they were sent.
ghost use Rattle.std.specs.Prelude.{◌≡◌, ◌≤◌, ◌<◌, ◌*◌, ◌^◌, ℕ, IfOk, List, length, min, replicate};
ghost use Rattle.record_match.specs.Delays.{IsOf, IsSummary, IsTold, delays_with, no_delays, row_at, row_of, rows_with};
ghost use Rattle.record_match.specs.Delays.{step_of, with_one};

use crate::tables::lengths::one_more;
use crate::{Onlooker, Seen};
use std::alloc::{AllocError, Global};
use std::marker::Model;

/// The row of the longest delays.
const LAST: usize = 4_194_303;

/// What is told of delays, in nanoseconds.
#[derive(Clone, Copy, Debug, PartialEq, Eq)]
pub struct DelaySummary {
    /// How many there are.
    pub count: u64,
    /// The least of them.
    pub least: u64,
    /// Half of them are at most so long, in whole steps.
    pub median: u64,
    /// 99 in 100 of them are at most so long, in whole steps.
    pub nearly_all: u64,
    /// The greatest of them.
    pub greatest: u64,
    /// How much a step is.
    pub step: u64,
}

/// How much later records were received than they were sent: how many of them so many steps. There are 4,194,304 steps in the
/// time in which a record may be received, so a step is 1 nanosecond where that is less than 4.2 ms, and nothing is rounded. A
/// number that can't grow stays. Only [`DelayTable::new`] takes memory.
#[derive(Drop)]
pub struct DelayTable {
    step: u64,
    rows: Vec<u64>,
    least: u64,
    greatest: u64,
    count: u64,
}

impl Model for DelayTable {
    ghost use Rattle.std.specs.Prelude.{◌≡◌, ◌≤◌, ◌<◌, length};
    ghost use Rattle.record_match.specs.Delays.{Delays};

    ghost Value = { Delays };

    ghost view = { λ t. record { step = t.step; rows = t.rows.items; least = t.least; greatest = t.greatest; count = t.count } };

    ghost invariant = { λ t. (length t.rows.items ≡ 4194304) × ((0 < t.step) × (t.step ≤ 4398046511104)) };
}

impl DelayTable {
    /// A table of no delays, for records that are received at most so many nanoseconds later. It takes all memory that it needs,
    /// and `AllocError` says that there was none.
    pub fn new(alloc: Global, within: u64) -> Result<DelayTable, AllocError>
        ensures { IfOk result (λ table. table ≡ no_delays within) }
    {
        Ok(DelayTable {
            step: step_of(within),
            rows: no_rows(alloc, row_count())?,
            least: u64::MAX,
            greatest: 0,
            count: 0,
        })
    }

    /// What is told of all delays, where there is one.
    pub fn summary(&self) -> Option<DelaySummary>
        ensures { (within : ℕ) (delays : List ℕ) → IsOf within self.now delays → length delays < 2 ^ 64
            → IsTold within delays result }
    {
        if self.count == 0 {
            None
        } else {
            Some(self.told())
        }
    }

    /// The same, where there is one.
    fn told(&self) -> DelaySummary
        requires { 0 < self.now.count }
        ensures { (within : ℕ) (delays : List ℕ) → IsOf within self.now delays → length delays < 2 ^ 64
            → IsSummary within delays result }
    {
        DelaySummary {
            count: self.count,
            least: self.least,
            median: self.ranked(self.count - self.count / 2),
            nearly_all: self.ranked(self.count - self.count / 100),
            greatest: self.greatest,
            step: self.step,
        }
    }

    /// The delay of a rank, in whole steps.
    fn ranked(&self, rank: u64) -> u64
        ensures { result ≡ min (row_at rank self.now.rows) 4194303 * self.now.step }
    {
        let row = row_at(self.rows.as_slice(), rank).min(LAST);
        product(row as u64, self.step)
    }

    /// Counts one more delay.
    fn count(&mut self, delay: u64)
        ensures { self.new ≡ with_one delay self.old }
    {
        let row = row_of(self.step, delay);
        self.rows[row] = one_more(self.rows[row]);
        self.least = self.least.min(delay);
        self.greatest = self.greatest.max(delay);
        self.count = one_more(self.count);
    }
}

impl Onlooker for DelayTable {
    ghost sees = { λ old fact new. new ≡ delays_with fact old };

    fn see_both(&mut self, sent_moment: u64, _number: u64, received: &Seen) {
        self.count(received.moment.saturating_sub(sent_moment));
    }

    fn see_received(&mut self, _number: u64, _received: &Seen) {}

    fn see_sent(&mut self, _number: u64, _sent: &Seen) {}
}

/// How many nanoseconds a step is.
fn step_of(within: u64) -> u64
    ensures value { result ≡ step_of within }
    ensures least { 0 < result }
    ensures most { result ≤ 4398046511104 }
{
    within / 4_194_304 + 1
}

/// The row of a delay.
fn row_of(step: u64, delay: u64) -> usize
    requires { 0 < step }
    ensures value { result ≡ row_of step delay }
    ensures most { result < 4194304 }
{
    (delay / step).min(4_194_303) as usize
}

/// So many steps of so many nanoseconds.
fn product(row: u64, step: u64) -> u64
    requires row { row ≤ 4194303 }
    requires step { step ≤ 4398046511104 }
    ensures { result ≡ row * step }
{
    row * step
}

/// How many rows there are.
fn row_count() -> usize
    ensures { result ≡ 4194304 }
{
    LAST + 1
}

/// So many rows of no delay.
fn no_rows(alloc: Global, count: usize) -> Result<Vec<u64>, AllocError>
    ensures { IfOk result (λ rows. rows.items ≡ replicate count 0) }
{
    vec![in alloc; 0; count]
}

/// The row that the delay of this rank is in, by how many are in each row.
fn row_at(rows: &[u64], rank: u64) -> usize
    ensures value { result ≡ row_at rank rows.now }
{
    let mut left = rank;
    for row in 0..rows.len() {
        let count = rows[row];
        if left <= count {
            return row;
        }
        left -= count;
    }
    rows.len()
}
