//! The reasons that occur.
ghost use Rattle.std.specs.Prelude.{◌≡◌, ◌<◌, ◌++◌, OnOk, IfOk};
ghost use Rattle.fabric_grid.specs.Cells.{IsSquare, size};
ghost use Rattle.fabric_grid.specs.Lines.{holds, more_reasons, reasons, reasons_text, row_reasons, with_reason};

use crate::cell::{Cell, put_cell};
use crate::members::Grid;
use std::alloc::{AllocError, Global};

/// Whether a reason is among these.
fn holds(reasons: &[Cell], cell: Cell) -> bool
    ensures { result ≡ holds cell reasons.now }
{
    for reason in reasons {
        if reason.number() == cell.number() {
            return true;
        }
    }
    false
}

/// Adds a reason that isn't among these.
fn add(reasons: &mut Vec<Cell>, cell: Cell) -> Result<(), AllocError>
    ensures { OnOk result (reasons.new.items ≡ with_reason cell reasons.old.items) }
{
    if cell.number() == 0 || holds(reasons.as_slice(), cell) {
        return Ok(());
    }
    reasons.push(cell)?;
    Ok(())
}

/// Adds the reasons of member `i`.
fn add_row(reasons: &mut Vec<Cell>, grid: &Grid, i: usize) -> Result<(), AllocError>
    requires square { IsSquare grid.now }
    requires row { i < size grid.now }
    ensures { OnOk result (reasons.new.items ≡ row_reasons grid.now i reasons.old.items (size grid.now)) }
{
    for j in 0..grid.size() {
        add(reasons, grid.cell(i, j))?;
    }
    Ok(())
}

/// The reasons that occur, each once.
pub(crate) fn reasons(alloc: Global, grid: &Grid) -> Result<Vec<Cell>, AllocError>
    requires { IsSquare grid.now }
    ensures { IfOk result (λ v. v.items ≡ reasons grid.now (size grid.now)) }
{
    let mut reasons = Vec::new(alloc);
    for i in 0..grid.size() {
        add_row(&mut reasons, grid, i)?;
    }
    Ok(reasons)
}

/// Puts reasons, with a comma between two.
pub(crate) fn put_reasons(text: &mut Vec<u8>, reasons: &[Cell]) -> Result<(), AllocError>
    ensures { OnOk result (text.new.items ≡ text.old.items ++ reasons_text reasons.now) }
{
    match reasons {
        [] => Ok(()),
        [first, others @ ..] => {
            put_cell(text, *first)?;
            put_more(text, others)
        }
    }
}

/// Puts reasons, each behind a comma.
fn put_more(text: &mut Vec<u8>, reasons: &[Cell]) -> Result<(), AllocError>
    ensures { OnOk result (text.new.items ≡ text.old.items ++ more_reasons reasons.now) }
{
    for reason in reasons {
        text.extend_from_slice(b", ")?;
        put_cell(text, *reason)?;
    }
    Ok(())
}
