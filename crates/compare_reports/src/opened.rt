//! Two captures that are open, compared and told.
ghost use Rattle.std.specs.Prelude.{◌≡◌, ◌≤◌, ◌<◌, ◌^◌, IfOk, OnOk};
ghost use Rattle.pcap.specs.Source.{New, most_left};
ghost use Rattle.compare_reports.specs.Whole.{IsPrinted, IsShown, IsWhole, PrintsEnds, aside_of, lines_of};

use crate::cut::print_cut_end;
use crate::differing::print_differences;
use crate::paired::{Outcome, compare_pair};
use crate::place_lines::PlaceLines;
use crate::printer::{Printer, print_told};
use crate::report::Report;
use capture_compare::carried::Manner;
use capture_compare::lines::Counts;
use capture_compare::{Aside, CompareFault, Side};
use pcap::stream::{Input, Source};
use std::alloc::AllocError;
use timeline::Tap;

/// Why two captures weren't compared and told to their ends.
#[derive(Debug, Drop)]
pub enum Unfinished<E: Drop> {
    /// A capture has a fault, or too much would be awaited.
    Captures(CompareFault),
    /// It couldn't be told, or there was no memory.
    Told(E),
}

/// Compares two captures of which nothing was read, prints what is asked for and their counts, and answers these. What was
/// compared before a fault is printed, too.
pub fn compare_open<P: Printer + Drop, R: Input>(
    manner: &Manner,
    sent: &mut Source<R>,
    received: &mut Source<R>,
    report: &mut Report<P>,
) -> Result<Counts, Unfinished<P::Fault>>
    requires new_sent { sent.old.standing ≡ New }
    requires new_received { received.old.standing ≡ New }
    requires most_sent { most_left sent.old < 2 ^ 64 }
    requires most_received { most_left received.old < 2 ^ 64 }
    requires sent_delay { report.old.asked.clock.sent_delay ≤ 2000000000000000000 }
    requires received_delay { report.old.asked.clock.received_delay ≤ 2000000000000000000 }
    ensures { IfOk result (λ counts. IsWhole P.prints P.finds manner.now sent.old received.old sent.new received.new
        report.old report.new counts) }
{
    let at = report.asked.at;
    let outcome = match compare_shown(manner, sent, received, report) {
        Ok(outcome) => outcome,
        Err(error) => return Err(Unfinished::Told(P::Fault::from(error))),
    };
    let aside = aside_of(manner, outcome);
    let doubled = report.recent.doubled();
    let lines = lines_of(at, outcome, doubled, report.order.behind, aside);
    let printed = print_outcome(report, &lines);
    if let Err(fault) = outcome.end {
        return Err(Unfinished::Captures(fault));
    }
    if let Err(fault) = printed {
        return Err(Unfinished::Told(fault));
    }
    if let Err(fault) = print_ends(&mut report.printer, at, sent, received) {
        return Err(Unfinished::Told(fault));
    }
    Ok(outcome.counts)
}

/// Compares two captures of which nothing was read, and shows it to a report.
fn compare_shown<P: Printer + Drop, R: Input>(
    manner: &Manner,
    sent: &mut Source<R>,
    received: &mut Source<R>,
    report: &mut Report<P>,
) -> Result<Outcome, AllocError>
    requires new_sent { sent.old.standing ≡ New }
    requires new_received { received.old.standing ≡ New }
    requires most_sent { most_left sent.old < 2 ^ 64 }
    requires most_received { most_left received.old < 2 ^ 64 }
    requires sent_delay { report.old.asked.clock.sent_delay ≤ 2000000000000000000 }
    requires received_delay { report.old.asked.clock.received_delay ≤ 2000000000000000000 }
    ensures { IfOk result (λ outcome. IsShown P.prints P.finds manner.now report.old.asked.clock sent.old received.old outcome
        report.old report.new) }
{
    let alloc = report.printer.alloc();
    let clock = report.asked.clock;
    compare_pair(alloc, clock, manner, sent, received, report)
}

/// How many records were left aside, where some may be.
fn aside_of(manner: &Manner, outcome: Outcome) -> Option<Aside>
    ensures { result ≡ aside_of manner.now outcome }
{
    if manner.ignores_reserved {
        Some(outcome.aside)
    } else {
        None
    }
}

/// The lines of what was counted.
fn lines_of(
    at: Option<Tap>,
    outcome: Outcome,
    doubled: u64,
    behind: u64,
    aside: Option<Aside>,
) -> PlaceLines
    ensures { result ≡ lines_of at outcome doubled behind aside }
{
    PlaceLines {
        at,
        counts: outcome.counts,
        doubled,
        cut: outcome.cut,
        behind,
        aside,
    }
}

/// Prints the lines of a place, and behind them what of near records differs and its table. Where a record that is of one capture
/// alone couldn't be told, that is the fault.
fn print_outcome<P: Printer + Drop>(
    report: &mut Report<P>,
    lines: &PlaceLines,
) -> Result<(), P::Fault>
    ensures { OnOk result (IsPrinted P.prints report.old lines.now report.new) }
{
    if let Err(fault) = print_told(&mut report.printer, lines) {
        return Err(fault);
    }
    if let Some(fault) = report.take_failure() {
        return Err(fault);
    }
    if let Err(fault) = print_differences(&mut report.printer, lines.at, &report.differences) {
        return Err(fault);
    }
    report.table.print(&mut report.printer, lines.at)
}

/// Prints of each capture that was read to its end that it ends within a record, where it does.
fn print_ends<P: Printer, R: Input>(
    printer: &mut P,
    at: Option<Tap>,
    sent: &Source<R>,
    received: &Source<R>,
) -> Result<(), P::Fault>
    ensures { OnOk result (PrintsEnds P.prints at sent.now received.now printer.old printer.new) }
{
    if let Err(fault) = print_cut_end(printer, at, Side::Sent, sent) {
        return Err(fault);
    }
    print_cut_end(printer, at, Side::Received, received)
}
