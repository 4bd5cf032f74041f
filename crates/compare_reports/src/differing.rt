//! What of near records differs, printed.
ghost use Rattle.std.specs.Prelude.{◌≡◌, ◌==◌, List, Option, OnOk, map, ℕ};
ghost use Rattle.std.specs.List.{FoldsTo};
ghost use Rattle.capture_compare.specs.Lonely.{others_line};
ghost use Rattle.compare_reports.specs.Prints.{Prints, unless};
ghost use Rattle.compare_reports.specs.Told.{difference_text, differences_texts};

use crate::printer::{Printer, print_told, print_unless};
use capture_compare::lines::{DifferenceLine, OtherDifferences};
use capture_compare::lonely::{DifferenceRow, Differences};
use timeline::Tap;

/// Prints a line for each segment and difference, and one for all others, where there are any.
pub(crate) fn print_differences<P: Printer>(
    printer: &mut P,
    at: Option<Tap>,
    differences: &Option<Differences>,
) -> Result<(), P::Fault>
    ensures { OnOk result (FoldsTo (Prints P.prints) printer.old (differences_texts at differences.now) printer.new) }
{
    let Some(differences) = differences else {
        return Ok(());
    };
    if let Err(fault) = print_rows(printer, at, differences.rows()) {
        return Err(fault);
    }
    print_others(printer, at, differences.others())
}

/// Prints the lines of rows.
fn print_rows<P: Printer>(
    printer: &mut P,
    at: Option<Tap>,
    rows: &[DifferenceRow],
) -> Result<(), P::Fault>
    ensures { OnOk result (FoldsTo (Prints P.prints) printer.old (map (difference_text at) rows.now) printer.new) }
{
    for i in 0..rows.len() {
        if let Err(fault) = print_told(printer, &DifferenceLine { at, row: &rows[i] }) {
            return Err(fault);
        }
    }
    Ok(())
}

/// Prints how many pairs are of others, where any is.
fn print_others<P: Printer>(printer: &mut P, at: Option<Tap>, count: u64) -> Result<(), P::Fault>
    ensures { OnOk result (Prints P.prints printer.old (unless (count == 0) (others_line at count)) printer.new) }
{
    print_unless(printer, count == 0, &OtherDifferences { at, count })
}
