//! Members whose broadcasts are lost at the same ones for a reason.
ghost use Rattle.std.specs.Prelude.{◌≡◌, ◌<◌};
ghost use Rattle.fabric_grid.specs.Boxes.{agrees, has_line, is_first_column, is_first_row, is_like, is_mirrored_at, leads, mirrors};
ghost use Rattle.fabric_grid.specs.Cells.{IsSquare, size};

use crate::cell::Cell;
use crate::members::Grid;

/// Whether both hold, or neither does.
#[inline(always)]
pub(crate) fn agrees(a: bool, b: bool) -> bool
    ensures { result ≡ agrees a b }
{
    if a { b } else { !b }
}

/// Whether this becomes of the broadcasts of both at the same members.
#[tactic(auto, using(crate::proofs::Below::all_more))]
pub(crate) fn is_like(grid: &Grid, cell: Cell, i: usize, k: usize) -> bool
    requires square { IsSquare grid.now }
    requires row { i < size grid.now }
    requires other { k < size grid.now }
    ensures { result ≡ is_like grid.now cell i k }
{
    for j in 0..grid.size() {
        if !agrees(grid.is_at(cell, i, j), grid.is_at(cell, k, j)) {
            return false;
        }
    }
    true
}

/// Whether no member before this one is like it.
#[tactic(auto, using(crate::proofs::Below::all_more))]
pub(crate) fn is_first_row(grid: &Grid, cell: Cell, i: usize) -> bool
    requires square { IsSquare grid.now }
    requires row { i < size grid.now }
    ensures { result ≡ is_first_row grid.now cell i }
{
    for x in 0..i {
        if is_like(grid, cell, x, i) {
            return false;
        }
    }
    true
}

/// Whether it becomes of the broadcasts of member `i` at no member before this one.
#[tactic(auto, using(crate::proofs::Below::all_more))]
fn is_first_column(grid: &Grid, cell: Cell, i: usize, j: usize) -> bool
    requires square { IsSquare grid.now }
    requires row { i < size grid.now }
    requires column { j < size grid.now }
    ensures { result ≡ is_first_column grid.now cell i j }
{
    for x in 0..j {
        if grid.is_at(cell, i, x) {
            return false;
        }
    }
    true
}

/// Whether it is the first hole of its box.
fn leads(grid: &Grid, i: usize, j: usize) -> bool
    requires square { IsSquare grid.now }
    requires row { i < size grid.now }
    requires column { j < size grid.now }
    ensures { result ≡ leads grid.now i j }
{
    let cell = grid.cell(i, j);
    !grid.is_at(Cell::Comes, i, j)
        && is_first_column(grid, cell, i, j)
        && is_first_row(grid, cell, i)
}

/// Whether the box of member `i` is there both ways, where `k` is the first that misses it.
#[tactic(auto, using(crate::proofs::Below::all_more))]
pub(crate) fn mirrors(grid: &Grid, cell: Cell, i: usize, k: usize) -> bool
    requires square { IsSquare grid.now }
    requires row { i < size grid.now }
    requires other { k < size grid.now }
    ensures { result ≡ mirrors grid.now cell i k }
{
    for x in 0..grid.size() {
        if !is_mirrored_at(grid, cell, i, k, x) {
            return false;
        }
    }
    true
}

fn is_mirrored_at(grid: &Grid, cell: Cell, i: usize, k: usize, x: usize) -> bool
    requires square { IsSquare grid.now }
    requires row { i < size grid.now }
    requires other { k < size grid.now }
    requires at { x < size grid.now }
    ensures { result ≡ is_mirrored_at grid.now cell i k x }
{
    agrees(grid.is_at(cell, k, x), is_like(grid, cell, x, i))
        && agrees(is_like(grid, cell, x, k), grid.is_at(cell, i, x))
}

/// Whether its box has a line there.
pub(crate) fn has_line(grid: &Grid, i: usize, j: usize) -> bool
    requires square { IsSquare grid.now }
    requires row { i < size grid.now }
    requires column { j < size grid.now }
    ensures { result ≡ has_line grid.now i j }
{
    leads(grid, i, j) && (!mirrors(grid, grid.cell(i, j), i, j) || i < j)
}
