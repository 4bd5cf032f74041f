//! Sets of members, as a truth for each.
ghost use Rattle.std.specs.Prelude.{◌≡◌, ◌<◌, IfOk};
ghost use Rattle.fabric_grid.specs.Boxes.{columns, heads};
ghost use Rattle.fabric_grid.specs.Cells.{IsSquare, size};

use crate::cell::Cell;
use crate::members::Grid;
use crate::rows::is_like;
use std::alloc::{AllocError, Global};

/// The members like member `i`.
#[tactic(auto, using(crate::proofs::Below::each_more))]
pub(crate) fn heads(
    alloc: Global,
    grid: &Grid,
    cell: Cell,
    i: usize,
) -> Result<Vec<bool>, AllocError>
    requires square { IsSquare grid.now }
    requires row { i < size grid.now }
    ensures { IfOk result (λ v. v.items ≡ heads grid.now cell i) }
{
    let mut set = Vec::new(alloc);
    for x in 0..grid.size() {
        set.push(is_like(grid, cell, x, i))?;
    }
    Ok(set)
}

/// The members at which this becomes of the broadcasts of member `i`.
#[tactic(auto, using(crate::proofs::Below::each_more))]
pub(crate) fn columns(
    alloc: Global,
    grid: &Grid,
    cell: Cell,
    i: usize,
) -> Result<Vec<bool>, AllocError>
    requires square { IsSquare grid.now }
    requires row { i < size grid.now }
    ensures { IfOk result (λ v. v.items ≡ columns grid.now cell i) }
{
    let mut set = Vec::new(alloc);
    for j in 0..grid.size() {
        set.push(grid.is_at(cell, i, j))?;
    }
    Ok(set)
}
