//! The table of what is compared.
ghost use Rattle.std.specs.Prelude.{◌≡◌, IfOk, OnOk, is_some};
ghost use Rattle.std.specs.List.{FoldsTo};
ghost use Rattle.compare_reports.specs.Prints.{Prints};
ghost use Rattle.compare_reports.specs.Told.{PrintsDelays, PrintsTable, is_empty_row, is_table_name, length_text};
ghost use Rattle.compare_reports.specs.Told.{length_texts, no_table, table_named, table_with};

use crate::printer::{Printer, print_told, print_unless};
use capture_compare::lines::{DelayLines, LengthLine};
use record_match::tables::{DelayTable, LengthRow, LengthTable};
use record_match::{Clock, Onlooker, Seen};
use std::alloc::{AllocError, Global};
use timeline::Tap;

/// What a table of what is compared is by.
#[derive(Clone, Copy)]
pub enum TableBy {
    /// By the length of records.
    Length,
    /// By how much later records were received than they were sent.
    Delay,
}

impl TableBy {
    /// The table of this name.
    pub fn of(name: &str) -> Option<TableBy>
        ensures named { result ≡ table_named name.now }
        ensures name { is_some result ≡ is_table_name name.now }
    {
        if name == "length" {
            Some(TableBy::Length)
        } else if name == "delay" {
            Some(TableBy::Delay)
        } else {
            None
        }
    }
}

/// A table, told of all that is compared.
#[derive(Drop)]
pub(crate) enum Table {
    /// There is none.
    None,
    Length(LengthTable),
    /// With how much the clock of its delays is ahead, in nanoseconds.
    Delay(DelayTable, u64),
}

impl Table {
    /// One of nothing, for captures on this clock.
    pub(crate) fn new(
        alloc: Global,
        by: Option<TableBy>,
        clock: Clock,
        ahead: u64,
    ) -> Result<Table, AllocError>
        ensures { IfOk result (λ table. table ≡ no_table by clock.within ahead) }
    {
        match by {
            None => Ok(Table::None),
            Some(TableBy::Length) => Ok(Table::Length(LengthTable::new(alloc)?)),
            Some(TableBy::Delay) => Ok(Table::Delay(DelayTable::new(alloc, clock.within)?, ahead)),
        }
    }

    /// Prints its lines.
    pub(crate) fn print<P: Printer>(&self, printer: &mut P, at: Option<Tap>) -> Result<(), P::Fault>
        ensures { OnOk result (PrintsTable P.prints at self.now printer.old printer.new) }
    {
        match self {
            Table::None => Ok(()),
            Table::Length(lengths) => print_lengths(printer, at, lengths.rows()),
            Table::Delay(delays, ahead) => print_delays(printer, at, delays, *ahead),
        }
    }
}

impl Onlooker for Table {
    ghost sees = { λ old fact new. new ≡ table_with fact old };

    fn see_both(&mut self, sent_moment: u64, number: u64, received: &Seen) {
        match self {
            Table::None => {}
            Table::Length(lengths) => lengths.see_both(sent_moment, number, received),
            Table::Delay(delays, _) => delays.see_both(sent_moment, number, received),
        }
    }

    fn see_received(&mut self, number: u64, received: &Seen) {
        if let Table::Length(lengths) = self {
            lengths.see_received(number, received);
        }
    }

    fn see_sent(&mut self, number: u64, sent: &Seen) {
        if let Table::Length(lengths) = self {
            lengths.see_sent(number, sent);
        }
    }
}

/// Prints the rows of the lengths that occur.
fn print_lengths<P: Printer>(
    printer: &mut P,
    at: Option<Tap>,
    rows: &[LengthRow],
) -> Result<(), P::Fault>
    ensures { OnOk result (FoldsTo (Prints P.prints) printer.old (length_texts at 0 rows.now) printer.new) }
{
    for length in 0..rows.len() {
        if let Err(fault) = print_length(printer, at, length, rows[length]) {
            return Err(fault);
        }
    }
    Ok(())
}

/// Prints the row of a length, where it occurs.
fn print_length<P: Printer>(
    printer: &mut P,
    at: Option<Tap>,
    length: usize,
    row: LengthRow,
) -> Result<(), P::Fault>
    ensures { OnOk result (Prints P.prints printer.old (length_text at length row) printer.new) }
{
    print_unless(printer, is_empty_row(row), &LengthLine { at, length, row })
}

/// Whether a row counts no record.
fn is_empty_row(row: LengthRow) -> bool
    ensures { result ≡ is_empty_row row }
{
    row.both == 0 && row.sent_alone == 0 && row.received_alone == 0
}

/// Prints what is told of delays.
fn print_delays<P: Printer>(
    printer: &mut P,
    at: Option<Tap>,
    delays: &DelayTable,
    ahead: u64,
) -> Result<(), P::Fault>
    ensures { OnOk result (PrintsDelays P.prints at delays.now ahead printer.old printer.new) }
{
    let summary = delays.summary();
    print_told(printer, &DelayLines { at, ahead, summary })
}
