//! A capture that ends within a record.
ghost use Rattle.std.specs.Prelude.{OnOk};
ghost use Rattle.compare_reports.specs.Prints.{Prints};
ghost use Rattle.compare_reports.specs.Whole.{end_text};

use crate::printer::{Printer, print_unless};
use capture_compare::Side;
use capture_compare::lines::CutEnd;
use pcap::stream::{Input, Source};
use timeline::Tap;

/// Prints that a capture which was read to its end ends within a record, where it does.
pub(crate) fn print_cut_end<P: Printer, R: Input>(
    printer: &mut P,
    at: Option<Tap>,
    side: Side,
    capture: &Source<R>,
) -> Result<(), P::Fault>
    ensures { OnOk result (Prints P.prints printer.old (end_text at side capture.now) printer.new) }
{
    print_unless(printer, !capture.is_cut(), &CutEnd { at, side })
}
