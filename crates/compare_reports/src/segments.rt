//! Records that are compared, counted by the segments of settings.
ghost use Rattle.std.specs.Prelude.{◌≡◌, IfOk, None, OnOk};
ghost use Rattle.std.specs.List.{FoldsTo};
ghost use Rattle.capture_compare.specs.Counting.{row_at};
ghost use Rattle.compare_reports.specs.Prints.{Prints};
ghost use Rattle.compare_reports.specs.Told.{AreOf, reading_at, row_text, rows_texts, segments_texts, segments_with, standing_at, tunnels_in};

use crate::printer::{Printer, print_unless};
use capture_compare::carried::{Manner, Sameness, Tunnels};
use capture_compare::lines::{CountLines, Scope};
use capture_compare::segments::{PlaceReading, SegmentCounts, SegmentRows};
use overlay::settings::Settings;
use record_match::{Onlooker, Seen};
use std::alloc::{AllocError, Global};
use timeline::Tap;
use wire::ether::Vid;

/// The number behind the last VID.
const VIDS_END: u16 = 4095;

/// Records that are compared, counted by the segments of settings, where settings say which there are.
#[derive(Drop)]
pub struct Segments {
    pub(crate) counts: Option<SegmentCounts>,
}

impl Segments {
    /// No settings say which there are.
    pub fn none() -> Segments
        ensures { result.counts ≡ None }
    {
        Segments { counts: None }
    }

    /// Those of these settings, of which no record was told. `AllocError`: there was no memory for them.
    pub fn open(alloc: Global, settings: Settings) -> Result<Segments, AllocError>
        ensures { IfOk result (λ segments. AreOf settings segments) }
    {
        Ok(Segments {
            counts: Some(SegmentCounts::open(alloc, settings)?),
        })
    }

    /// The tunnels that packets of the underlay are looked for: those of the settings, or of the standards where there are none.
    /// `AllocError`: there was no memory for a copy of them.
    pub fn tunnels(&self) -> Result<Tunnels, AllocError>
        ensures { IfOk result (λ tunnels. tunnels ≡ tunnels_in self.now) }
    {
        match &self.counts {
            None => Ok(Tunnels::standard()),
            Some(counts) => counts.index.tunnels(),
        }
    }

    /// From now on records are those of a place, compared by this manner.
    pub fn stand_at(&mut self, tap: Tap, manner: &Manner)
        ensures { self.new ≡ standing_at tap manner.now.sameness self.old }
    {
        if let Some(counts) = &mut self.counts {
            counts.reading = reading_at(tap, manner);
        }
    }

    /// Prints the counts of each segment that has any record, and of the records of none.
    pub fn print<P: Printer>(&self, printer: &mut P) -> Result<(), P::Fault>
        ensures { OnOk result (FoldsTo (Prints P.prints) printer.old (segments_texts self.now) printer.new) }
    {
        match &self.counts {
            None => Ok(()),
            Some(counts) => print_rows(printer, &counts.rows),
        }
    }
}

impl Onlooker for Segments {
    ghost sees = { λ old fact new. new ≡ segments_with fact old };

    fn see_both(&mut self, sent_moment: u64, number: u64, received: &Seen) {
        if let Some(counts) = &mut self.counts {
            counts.see_both(sent_moment, number, received);
        }
    }

    fn see_received(&mut self, number: u64, received: &Seen) {
        if let Some(counts) = &mut self.counts {
            counts.see_received(number, received);
        }
    }

    fn see_sent(&mut self, number: u64, sent: &Seen) {
        if let Some(counts) = &mut self.counts {
            counts.see_sent(number, sent);
        }
    }
}

/// How records of a place are read that are compared by a manner.
fn reading_at(tap: Tap, manner: &Manner) -> PlaceReading
    ensures { result ≡ reading_at tap manner.now.sameness }
{
    match (tap, &manner.sameness) {
        (Tap::Port(port), _) => PlaceReading::Port(port),
        (Tap::Underlay, Sameness::Carried(_)) => PlaceReading::Keys,
        (Tap::Underlay, Sameness::Whole) => PlaceReading::Packets,
    }
}

/// Prints the rows that count any record, rising by VID, and that of no segment as the last.
fn print_rows<P: Printer>(printer: &mut P, rows: &SegmentRows) -> Result<(), P::Fault>
    ensures { OnOk result (FoldsTo (Prints P.prints) printer.old (rows_texts rows.now) printer.new) }
{
    for vid in 1..VIDS_END {
        if let Err(fault) = print_row(printer, Scope::Segment(vid), rows, Vid::new(vid)) {
            return Err(fault);
        }
    }
    print_row(printer, Scope::NoSegment, rows, None)
}

/// Prints a row, where it counts any record.
fn print_row<P: Printer>(
    printer: &mut P,
    scope: Scope,
    rows: &SegmentRows,
    segment: Option<Vid>,
) -> Result<(), P::Fault>
    ensures { OnOk result (Prints P.prints printer.old (row_text scope (row_at rows.now segment)) printer.new) }
{
    let counts = rows.row_at(segment);
    print_unless(printer, counts.is_none(), &CountLines { scope, counts })
}
