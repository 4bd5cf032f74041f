//! Reading a capture record by record.
//!
//! A [`Capture`] is an iterator: what it answers is one list, the records and behind them the fault that they end with, if any.
//! Behind a fault nothing is left, as at the end of a whole capture, and `is_cut` is false there.
ghost use Rattle.std.specs.Prelude.{◌≡◌, ◌≤◌, ◌*◌, length, IfOk};
ghost use Rattle.std.specs.List.{AllByRecursion};
ghost use Rattle.std.specs.Iterator.{item_count};
ghost use Rattle.pcap.specs.Calls.{IsNext, answers, is_cut};
ghost use Rattle.pcap.specs.Capture.{opened, IsCapture};
ghost use Rattle.pcap.specs.Record.{IsWithinLimits};

use crate::text::header::{CaptureFault, HEADER_LENGTH, open_header};
use crate::text::record::{Next, Record, RecordFault, next_in};
use crate::text::style::Style;
use std::iter::FusedIterator;
use std::marker::Model;

/// A capture that is being read, record by record.
///
/// Contracts see what is left of it: the records, and how they end.
#[derive(Debug, Drop)]
pub struct Capture<'a> {
    style: Style,
    rest: &'a [u8],
}

impl<'a> Model for Capture<'a> {
    ghost use Rattle.pcap.specs.Reading.{Reading, records};

    ghost Value = { Reading };

    ghost view = { λ c. records c.style c.rest.now };
}

impl<'a> Capture<'a> {
    /// Reads the global header: in either byte order, its fractions in microseconds or nanoseconds.
    pub fn open(octets: &'a [u8]) -> Result<Capture<'a>, CaptureFault>
        ensures value { result ≡ opened octets.now }

        // The text is a header, the texts of these records, and a rest in which no further one stands.
        ensures grammar { IfOk result (IsCapture octets.now) }

        // What callers need of the records: each keeps to the limits, and takes 16 octets at least.
        ensures limits { IfOk result (λ capture. AllByRecursion IsWithinLimits capture.records) }
        ensures few { IfOk result (λ capture. 16 * length capture.records ≤ length octets.now) }
    {
        let style = open_header(octets)?;
        Ok(Capture {
            style,
            rest: &octets[HEADER_LENGTH..],
        })
    }

    /// Whether the capture ends with a rest that is no whole record, which is left out. It says so once `next` has
    /// answered `None`; it is false while a record is left, and behind a fault.
    pub fn is_cut(&self) -> bool
        ensures { result ≡ is_cut self.now }
    {
        matches!(next_in(self.style, self.rest), Next::Cut)
    }
}

impl<'a> Iterator for Capture<'a> {
    type Item = Result<Record<'a>, RecordFault>;

    // The first record of what is left, or the fault that the records end with; and what is left then.
    ghost next_gives = { IsNext };

    ghost remaining = { item_count answers };

    /// The next record, whose octets are a slice of the capture. A fault comes once, and nothing comes after it.
    fn next(&mut self) -> Option<Result<Record<'a>, RecordFault>> {
        match next_in(self.style, self.rest) {
            Next::Another(record, rest) => {
                self.rest = rest;
                Some(Ok(record))
            }
            Next::Faulty(fault) => {
                self.rest = &[];
                Some(Err(fault))
            }
            Next::Whole | Next::Cut => None,
        }
    }
}

impl<'a> FusedIterator for Capture<'a> {}
