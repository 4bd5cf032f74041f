//! The lines of what of near records differs.
ghost use Rattle.std.specs.Prelude.{Some};
ghost use Rattle.capture_compare.specs.Lonely.{difference_line, first_records, others_line, row_front};

use crate::lines::place::AtPlace;
use crate::lonely::{Difference, DifferenceRow, RecordSegment};
use std::fmt;
use timeline::Tap;

/// The line of a segment and a difference, as `p1: vlan 20: tag 21 for 20: 5120, first record 7 for 7`: how many pairs there are, and
/// the numbers of the first, that of what was received in front.
#[derive(Clone, Copy)]
pub struct DifferenceLine<'a> {
    /// The place, where captures of several are compared.
    pub at: Option<Tap>,
    pub row: &'a DifferenceRow,
}

impl<'a> fmt::Display for DifferenceLine<'a> {
    ghost output = { λ line. Some (difference_line line.at line.row.now) };

    fn fmt<W: fmt::Write>(&self, f: &mut fmt::Formatter<W>) -> fmt::Result {
        let at = AtPlace(self.at);
        let front = RowFront {
            segment: self.row.first.segment,
            difference: self.row.first.difference,
        };
        let count = self.row.count;
        let records = FirstRecords {
            received: self.row.first.received,
            sent: self.row.first.sent,
        };
        write!(f, "{at}{front}{count}{records}\n")
    }
}

/// What a row is of.
#[derive(Clone, Copy)]
struct RowFront {
    segment: RecordSegment,
    difference: Difference,
}

impl fmt::Display for RowFront {
    ghost output = { λ front. Some (row_front front.segment front.difference) };

    #[tactic(auto, unfolding(crate::specs::Lonely::row_front))]
    fn fmt<W: fmt::Write>(&self, f: &mut fmt::Formatter<W>) -> fmt::Result {
        let segment = self.segment;
        let difference = self.difference;
        write!(f, "{segment}: {difference}: ")
    }
}

/// The records of the first pair of a row.
#[derive(Clone, Copy)]
struct FirstRecords {
    received: u64,
    sent: u64,
}

impl fmt::Display for FirstRecords {
    ghost output = { λ records. Some (first_records records.received records.sent) };

    #[tactic(auto, unfolding(crate::specs::Lonely::first_records))]
    fn fmt<W: fmt::Write>(&self, f: &mut fmt::Formatter<W>) -> fmt::Result {
        let received = self.received;
        let sent = self.sent;
        write!(f, ", first record {received} for {sent}")
    }
}

/// The line of how many pairs are of none of the segments and differences that are told.
#[derive(Clone, Copy)]
pub struct OtherDifferences {
    /// The place, where captures of several are compared.
    pub at: Option<Tap>,
    pub count: u64,
}

impl fmt::Display for OtherDifferences {
    ghost output = { λ others. Some (others_line others.at others.count) };

    fn fmt<W: fmt::Write>(&self, f: &mut fmt::Formatter<W>) -> fmt::Result {
        let at = AtPlace(self.at);
        let count = self.count;
        write!(f, "{at}other differences: {count}\n")
    }
}
