//! What is told of captures besides counts, while they are compared.
ghost use Rattle.std.specs.Prelude.{◌≡◌, IfNone, IfOk, None, OnOk};
ghost use Rattle.record_match.specs.Kept.{told};
ghost use Rattle.compare_reports.specs.Doubled.{no_recent, with_both};
ghost use Rattle.compare_reports.specs.Printed.{no_order};
ghost use Rattle.compare_reports.specs.Reported.{IsListed, IsOfEvent, IsReported, IsTold, Tells, difference_in, differences_asked};
ghost use Rattle.compare_reports.specs.Reported.{differences_with, lonely_of, reading_of, segment_in};
ghost use Rattle.compare_reports.specs.Told.{no_table};

use crate::asked::Asked;
use crate::order::Order;
use crate::printer::{Printer, print_told};
use crate::recent::Recent;
use crate::segments::Segments;
use crate::tables::Table;
use capture_compare::Side;
use capture_compare::carried::{Manner, Sameness};
use capture_compare::lines::{Lonely, LonelyLine};
use capture_compare::lonely::{Difference, Differences, Reading, RecordSegment, segment_of};
use record_match::{Onlooker, Seen};
use std::alloc::{AllocError, Global};

/// What is told of the captures of one place, or of two that stand for themselves: the list while they are compared, and the
/// table behind.
#[derive(Drop)]
pub struct Report<P: Printer + Drop> {
    pub(crate) printer: P,
    pub(crate) asked: Asked,
    pub(crate) table: Table,
    /// Who counts each record with its segment.
    segments: Segments,
    /// Which records came in another order.
    pub(crate) order: Order,
    /// Which records were received again.
    pub(crate) recent: Recent,
    /// What of records that are of one capture alone and near another differs, at a place.
    pub(crate) differences: Option<Differences>,
    /// Why a record couldn't be told, of the first that couldn't.
    failure: Option<P::Fault>,
}

impl<P: Printer + Drop> Report<P> {
    /// One to which nothing was told yet. `AllocError`: there was no memory for a table, or for what is held.
    pub fn open(
        asked: Asked,
        manner: &Manner,
        printer: P,
        segments: Segments,
    ) -> Result<Report<P>, AllocError>
        ensures printer { IfOk result (λ report. report.printer ≡ printer) }
        ensures asked { IfOk result (λ report. report.asked ≡ asked) }
        ensures table { IfOk result (λ report. report.table ≡ no_table asked.table asked.clock.within asked.ahead) }
        ensures segments { IfOk result (λ report. report.segments ≡ segments) }
        ensures order { IfOk result (λ report. report.order ≡ no_order) }
        ensures recent { IfOk result (λ report. report.recent ≡ no_recent) }
        ensures differences { IfOk result (λ report. report.differences ≡ differences_asked asked (reading_of manner.now.sameness)) }
        ensures failure { IfOk result (λ report. report.failure ≡ None) }
    {
        let alloc = printer.alloc();
        let table = Table::new(alloc, asked.table, asked.clock, asked.ahead)?;
        let differences = differences_asked(alloc, asked, reading_of(manner))?;
        Ok(Report {
            printer,
            asked,
            table,
            segments,
            order: Order::none(),
            recent: Recent::new(alloc),
            differences,
            failure: None,
        })
    }

    /// Why a record couldn't be told, of the first that couldn't.
    pub(crate) fn take_failure(&mut self) -> Option<P::Fault>
        ensures taken { result ≡ self.old.failure }
        ensures printer { self.new.printer ≡ self.old.printer }
        ensures table { self.new.table ≡ self.old.table }
        ensures differences { self.new.differences ≡ self.old.differences }
    {
        self.failure.take()
    }

    /// Who printed, and what was counted by segments.
    pub fn close(self) -> (P, Segments)
        ensures { result ≡ (self.printer, self.segments) }
    {
        (self.printer, self.segments)
    }

    /// Holds a record that is both, by which one that comes again is told.
    fn hold(&mut self, received: &Seen)
        ensures recent { IfNone self.new.failure (self.new.recent ≡ with_both (told received.now) self.old.recent) }
        ensures stays { IfNone self.new.failure (self.old.failure ≡ None) }
        ensures printer { self.new.printer ≡ self.old.printer }
        ensures differences { self.new.differences ≡ self.old.differences }
        ensures order { self.new.order ≡ self.old.order }
        ensures table { self.new.table ≡ self.old.table }
        ensures segments { self.new.segments ≡ self.old.segments }
        ensures asked { self.new.asked ≡ self.old.asked }
    {
        if self.failure.is_some() {
            return;
        }
        if let Err(error) = self.recent.hold(received) {
            self.failure = Some(P::Fault::from(error));
        }
    }

    /// Tells a record that is of one capture alone.
    fn tell(&mut self, side: Side, number: u64, seen: &Seen)
        ensures told { Tells P.prints P.finds side number (told seen.now) self.old self.new }
        ensures order { self.new.order ≡ self.old.order }
        ensures recent { self.new.recent ≡ self.old.recent }
        ensures table { self.new.table ≡ self.old.table }
        ensures segments { self.new.segments ≡ self.old.segments }
        ensures asked { self.new.asked ≡ self.old.asked }
        ensures stays { IfNone self.new.failure (self.old.failure ≡ None) }
    {
        if self.failure.is_some() {
            return;
        }
        if let Err(failure) = self.tell_alone(side, number, seen) {
            self.failure = Some(failure);
        }
    }

    /// Finds what of a near one differs, and prints the line of the record where a list is asked for.
    fn tell_alone(&mut self, side: Side, number: u64, seen: &Seen) -> Result<(), P::Fault>
        ensures told { OnOk result (IsTold P.prints P.finds self.old.asked.lists side number (told seen.now) self.old self.new) }
        ensures failure { self.new.failure ≡ self.old.failure }
        ensures order { self.new.order ≡ self.old.order }
        ensures recent { self.new.recent ≡ self.old.recent }
        ensures table { self.new.table ≡ self.old.table }
        ensures segments { self.new.segments ≡ self.old.segments }
        ensures asked { self.new.asked ≡ self.old.asked }
    {
        let segment = segment_in(&self.differences, seen);
        let difference = match difference_in(&mut self.differences, side, number, seen) {
            Ok(difference) => difference,
            Err(error) => return Err(P::Fault::from(error)),
        };
        if !self.asked.lists {
            return Ok(());
        }
        let lonely = lonely_of(self.asked, side, number, seen);
        print_alone(&mut self.printer, lonely, segment, difference)
    }
}

/// Prints the line of a record that is of one capture alone.
fn print_alone<P: Printer>(
    printer: &mut P,
    lonely: Lonely,
    segment: Option<RecordSegment>,
    difference: Option<Difference>,
) -> Result<(), P::Fault>
    ensures { OnOk result (IsListed P.prints P.finds lonely segment difference printer.old printer.new) }
{
    let event = match event_by(printer, lonely) {
        Ok(event) => event,
        Err(fault) => return Err(fault),
    };
    let line = line_of(lonely, event, segment, difference);
    print_told(printer, &line)
}

/// The line of a record, by its event, its segment and what of a near one differs.
fn line_of(
    lonely: Lonely,
    event: Option<u64>,
    segment: Option<RecordSegment>,
    difference: Option<Difference>,
) -> LonelyLine
    ensures { result ≡ record { «record» = lonely; segment = segment; event = event; difference = difference } }
{
    LonelyLine {
        record: lonely,
        segment,
        event,
        difference,
    }
}

/// The event of a record, of one that was sent.
fn event_by<P: Printer>(printer: &mut P, lonely: Lonely) -> Result<Option<u64>, P::Fault>
    ensures { IfOk result (λ event. IsOfEvent P.finds lonely.side lonely.number printer.old printer.new event) }
{
    match lonely.side {
        Side::Sent => printer.event_of(lonely.number),
        Side::Received => Ok(None),
    }
}

/// Where what of near ones differs is looked for: at a place.
fn differences_asked(
    alloc: Global,
    asked: Asked,
    reading: Reading,
) -> Result<Option<Differences>, AllocError>
    ensures { IfOk result (λ differences. differences ≡ differences_asked asked reading) }
{
    if asked.at.is_none() {
        return Ok(None);
    }
    match Differences::new(alloc, reading, asked.clock.within) {
        Ok(differences) => Ok(Some(differences)),
        Err(error) => Err(error),
    }
}

/// The segment of a record, at a place.
fn segment_in(differences: &Option<Differences>, seen: &Seen) -> Option<RecordSegment>
    ensures { result ≡ segment_in differences.now (told seen.now) }
{
    match differences {
        Some(differences) => Some(segment_of(differences.reading(), seen.octets)),
        None => None,
    }
}

/// What of a near one differs, of a record that was sent; one that was received is held.
fn difference_in(
    differences: &mut Option<Differences>,
    side: Side,
    number: u64,
    seen: &Seen,
) -> Result<Option<Difference>, AllocError>
    ensures difference { IfOk result (λ difference. difference ≡ difference_in side (told seen.now) differences.old) }
    ensures differences { OnOk result (differences.new ≡ differences_with side number (told seen.now) differences.old) }
{
    let Some(differences) = differences else {
        return Ok(None);
    };
    match side {
        Side::Sent => Ok(differences.send(number, seen)),
        Side::Received => match differences.receive(number, seen) {
            Ok(()) => Ok(None),
            Err(error) => Err(error),
        },
    }
}

/// A record that is of one capture alone, as its own capture tells it.
fn lonely_of(asked: Asked, side: Side, number: u64, seen: &Seen) -> Lonely
    ensures { result ≡ lonely_of asked side number (told seen.now) }
{
    let delay = match side {
        Side::Sent => asked.clock.sent_delay,
        Side::Received => asked.clock.received_delay,
    };
    Lonely {
        at: asked.at,
        side,
        number,
        moment: seen.moment.saturating_sub(delay),
        length: seen.octets.len(),
    }
}

/// How keys by a manner are read.
fn reading_of(manner: &Manner) -> Reading
    ensures { result ≡ reading_of manner.now.sameness }
{
    match manner.sameness {
        Sameness::Whole => Reading::Frame,
        Sameness::Carried(_) => Reading::Packet,
    }
}

impl<P: Printer + Drop> Onlooker for Report<P> {
    ghost sees = { λ old fact new. IsReported P.prints P.finds fact old new };

    fn see_both(&mut self, sent_moment: u64, number: u64, received: &Seen) {
        self.order.see_both(sent_moment, number, received);
        self.table.see_both(sent_moment, number, received);
        self.segments.see_both(sent_moment, number, received);
        self.hold(received);
    }

    fn see_received(&mut self, number: u64, received: &Seen) {
        self.recent.see_alone(received);
        self.tell(Side::Received, number, received);
        self.table.see_received(number, received);
        self.segments.see_received(number, received);
    }

    fn see_sent(&mut self, number: u64, sent: &Seen) {
        self.tell(Side::Sent, number, sent);
        self.table.see_sent(number, sent);
        self.segments.see_sent(number, sent);
    }
}
