//! Records by their length.
ghost use Rattle.std.specs.Prelude.{◌≡◌, ◌≤◌, ◌<◌, IfOk, length, replicate};
ghost use Rattle.record_match.specs.Lengths.{counted, no_row, one_more, row_with, with_fact};

use crate::{Onlooker, Seen};
use std::alloc::{AllocError, Global};
use std::marker::Model;

/// The length of the last row: that of the longest key of a record.
const LONGEST: usize = 262_656;

/// What a record is: of both captures, or of one alone.
#[derive(Clone, Copy)]
pub(crate) enum Kind {
    /// One that was sent and received.
    Both,
    /// One that was sent and not received.
    SentAlone,
    /// One that was received and not sent.
    ReceivedAlone,
}

/// How many records of one length are both, and are of one capture alone.
#[derive(Clone, Copy, Debug, PartialEq, Eq)]
pub struct LengthRow {
    /// How many were sent and received.
    pub both: u64,
    /// How many were sent and not received.
    pub sent_alone: u64,
    /// How many were received and not sent.
    pub received_alone: u64,
}

impl LengthRow {
    /// The row with one more of a kind.
    fn with(self, kind: Kind) -> LengthRow
        ensures { result ≡ row_with kind self }
    {
        match kind {
            Kind::Both => LengthRow {
                both: one_more(self.both),
                ..self
            },
            Kind::SentAlone => LengthRow {
                sent_alone: one_more(self.sent_alone),
                ..self
            },
            Kind::ReceivedAlone => LengthRow {
                received_alone: one_more(self.received_alone),
                ..self
            },
        }
    }
}

/// Records by their length: a row for each length from 0 to 262,656, seen by contracts as the list of them. What is longer
/// counts in the last row. A number that can't grow stays. Only [`LengthTable::new`] takes memory.
#[derive(Drop)]
pub struct LengthTable {
    rows: Vec<LengthRow>,
}

impl Model for LengthTable {
    ghost use Rattle.std.specs.Prelude.{◌≡◌, List, length};
    ghost use Rattle.record_match.specs.declared.tables.lengths.LengthRow.{LengthRow};

    ghost Value = { List LengthRow };

    ghost view = { λ t. t.rows.items };

    ghost invariant = { λ t. length t.rows.items ≡ 262657 };
}

impl LengthTable {
    /// A table of no records. It takes all memory that it needs, and `AllocError` says that there was none.
    pub fn new(alloc: Global) -> Result<LengthTable, AllocError>
        ensures { IfOk result (λ table. table ≡ replicate 262657 no_row) }
    {
        Ok(LengthTable {
            rows: no_rows(alloc, row_count())?,
        })
    }

    /// The rows, that of length 0 first.
    pub fn rows(&self) -> &[LengthRow]
        ensures { result.now ≡ self.now }
    {
        self.rows.as_slice()
    }

    /// Counts one more of a kind and a length.
    fn count(&mut self, length: usize, kind: Kind)
        ensures { self.new ≡ counted length kind self.old }
    {
        let i = length.min(LONGEST);
        let row = self.rows[i];
        self.rows[i] = row.with(kind);
    }
}

impl Onlooker for LengthTable {
    ghost sees = { λ old fact new. new ≡ with_fact fact old };

    fn see_both(&mut self, _sent_moment: u64, _number: u64, received: &Seen) {
        self.count(received.octets.len(), Kind::Both);
    }

    fn see_received(&mut self, _number: u64, received: &Seen) {
        self.count(received.octets.len(), Kind::ReceivedAlone);
    }

    fn see_sent(&mut self, _number: u64, sent: &Seen) {
        self.count(sent.octets.len(), Kind::SentAlone);
    }
}

/// How many rows there are.
fn row_count() -> usize
    ensures { result ≡ 262657 }
{
    LONGEST + 1
}

/// So many rows of no record.
fn no_rows(alloc: Global, count: usize) -> Result<Vec<LengthRow>, AllocError>
    ensures { IfOk result (λ rows. rows.items ≡ replicate count no_row) }
{
    vec![in alloc; LengthRow {
        both: 0,
        sent_alone: 0,
        received_alone: 0
    }; count]
}

/// One more, up to the greatest number.
pub(crate) fn one_more(n: u64) -> u64
    ensures { result ≡ one_more n }
{
    n.saturating_add(1)
}
