//! The holes of a network, in boxes.
ghost use Rattle.std.specs.Prelude.{◌≡◌, ◌<◌, ◌++◌, length, map, OnOk};
ghost use Rattle.fabric_grid.specs.Cells.{IsSquare, size};
ghost use Rattle.fabric_grid.specs.Lines.{arrow, box_line, box_text, box_lines, line_at, row_lines};

use crate::cell::{Cell, put_cell};
use crate::members::Grid;
use crate::names::put_called;
use crate::rows::{has_line, mirrors};
use crate::sets::{columns, heads};
use std::alloc::{AllocError, Global};

/// Puts the line of a box: some members, an arrow, other members, and why.
#[tactic(auto, unfolding(crate::specs::Lines::box_text))]
fn put_sides(
    text: &mut Vec<u8>,
    names: &[&[u8]],
    heads: &[bool],
    arrow: &[u8],
    columns: &[bool],
    cell: Cell,
) -> Result<(), AllocError>
    requires heads { length names.now ≡ length heads.now }
    requires columns { length names.now ≡ length columns.now }
    ensures { OnOk result (text.new.items ≡ text.old.items ++ box_text (map (λ n. n.now) names.now) heads.now arrow.now columns.now cell) }
{
    text.extend_from_slice(b" ")?;
    put_called(text, names, heads)?;
    text.extend_from_slice(arrow)?;
    put_called(text, names, columns)?;
    text.extend_from_slice(b": ")?;
    put_cell(text, cell)?;
    text.extend_from_slice(b"\n")
}

/// Puts the line of the box of a hole.
fn put_box(
    alloc: Global,
    text: &mut Vec<u8>,
    grid: &Grid,
    names: &[&[u8]],
    arrow: &[u8],
    i: usize,
    j: usize,
) -> Result<(), AllocError>
    requires square { IsSquare grid.now }
    requires named { length names.now ≡ size grid.now }
    requires row { i < size grid.now }
    requires column { j < size grid.now }
    ensures { OnOk result (text.new.items ≡ text.old.items ++ box_line grid.now (map (λ n. n.now) names.now) arrow.now i j) }
{
    let cell = grid.cell(i, j);
    let heads = heads(alloc, grid, cell, i)?;
    let columns = columns(alloc, grid, cell, i)?;
    put_sides(
        text,
        names,
        heads.as_slice(),
        arrow,
        columns.as_slice(),
        cell,
    )
}

/// The arrow of a box that is there both ways, or one way.
fn arrow<'a>(both: bool) -> &'a [u8]
    ensures { result.now ≡ arrow both }
{
    if both { b" <->" } else { b" ->" }
}

/// Puts the line of a box, at its first hole.
#[tactic(auto, unfolding(crate::specs::Lines::line_at))]
fn put_line(
    alloc: Global,
    text: &mut Vec<u8>,
    grid: &Grid,
    names: &[&[u8]],
    i: usize,
    j: usize,
) -> Result<(), AllocError>
    requires square { IsSquare grid.now }
    requires named { length names.now ≡ size grid.now }
    requires row { i < size grid.now }
    requires column { j < size grid.now }
    ensures { OnOk result (text.new.items ≡ text.old.items ++ line_at grid.now (map (λ n. n.now) names.now) i j) }
{
    if has_line(grid, i, j) {
        let arrow = arrow(mirrors(grid, grid.cell(i, j), i, j));
        return put_box(alloc, text, grid, names, arrow, i, j);
    }
    Ok(())
}

/// Puts the lines of boxes whose first hole is in the row of member `i`.
#[tactic(auto, using(crate::proofs::Below::texts_more))]
fn put_row(
    alloc: Global,
    text: &mut Vec<u8>,
    grid: &Grid,
    names: &[&[u8]],
    i: usize,
) -> Result<(), AllocError>
    requires square { IsSquare grid.now }
    requires named { length names.now ≡ size grid.now }
    requires row { i < size grid.now }
    ensures { OnOk result (text.new.items ≡ text.old.items ++ row_lines grid.now (map (λ n. n.now) names.now) i) }
{
    for j in 0..grid.size() {
        put_line(alloc, text, grid, names, i, j)?;
    }
    Ok(())
}

/// Puts the lines of all boxes.
#[tactic(auto, using(crate::proofs::Below::texts_more))]
pub(crate) fn put_boxes(
    alloc: Global,
    text: &mut Vec<u8>,
    grid: &Grid,
    names: &[&[u8]],
) -> Result<(), AllocError>
    requires square { IsSquare grid.now }
    requires named { length names.now ≡ size grid.now }
    ensures { OnOk result (text.new.items ≡ text.old.items ++ box_lines grid.now (map (λ n. n.now) names.now)) }
{
    for i in 0..grid.size() {
        put_row(alloc, text, grid, names, i)?;
    }
    Ok(())
}
