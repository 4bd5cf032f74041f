//! What is told of a network.
ghost use Rattle.std.specs.Prelude.{◌≡◌, ◌++◌, if◌then◌else◌, length, map, IfOk, OnOk};
ghost use Rattle.fabric_grid.specs.Cells.{IsSquare, size};
ghost use Rattle.fabric_grid.specs.Lines.{below, grid_text};

use crate::boxes::put_boxes;
use crate::cell::Cell;
use crate::counts::put_head;
use crate::members::Grid;
use crate::parts::{is_parted, put_parts_line};
use crate::reasons::reasons;
use std::alloc::{AllocError, Global};

/// What is told of a network behind its title: the end of that line, as `4 leaves: all reach all`, and lines of its parts or of
/// its holes. `AllocError`: memory was refused.
pub fn grid_text(alloc: Global, grid: &Grid, names: &[&[u8]]) -> Result<Vec<u8>, AllocError>
    requires square { IsSquare grid.now }
    requires named { length names.now ≡ size grid.now }
    ensures { IfOk result (λ t. t.items ≡ grid_text grid.now (map (λ n. n.now) names.now)) }
{
    let reasons = reasons(alloc, grid)?;
    let mut text = Vec::new(alloc);
    put_head(&mut text, grid, reasons.as_slice())?;
    text.extend_from_slice(b"\n")?;
    put_below(alloc, &mut text, grid, names, reasons.as_slice())?;
    Ok(text)
}

/// Puts the lines of parts, or of holes.
fn put_below(
    alloc: Global,
    text: &mut Vec<u8>,
    grid: &Grid,
    names: &[&[u8]],
    reasons: &[Cell],
) -> Result<(), AllocError>
    requires square { IsSquare grid.now }
    requires named { length names.now ≡ size grid.now }
    ensures { OnOk result (text.new.items ≡ text.old.items ++ below grid.now (map (λ n. n.now) names.now) reasons.now) }
{
    if is_parted(grid) {
        return put_parts_line(alloc, text, grid, names, reasons);
    }
    put_boxes(alloc, text, grid, names)
}
