//! The members of a network, and a cell for each two of them.
ghost use Rattle.std.specs.Prelude.{◌≡◌, ◌<◌, ◌+◌, ◌*◌, length, slice_index_or};
ghost use Rattle.fabric_grid.specs.Cells.{IsSquare, cell, is_at, is_one_leaf, is_way, size};

use crate::cell::Cell;

/// The members of a network, and what becomes of the broadcasts of each at each other.
#[derive(Drop)]
pub struct Grid {
    /// The leaf of each member.
    pub leaves: Vec<u16>,
    /// A cell for each two members, those of one sender behind another. Members of one leaf hear each other, whatever stands there.
    pub cells: Vec<Cell>,
}

impl Grid {
    /// How many members there are.
    #[inline(always)]
    pub(crate) fn size(&self) -> usize
        ensures { result ≡ size self.now }
    {
        self.leaves.as_slice().len()
    }

    /// Whether two members are of one leaf.
    #[inline(always)]
    pub(crate) fn is_one_leaf(&self, i: usize, j: usize) -> bool
        requires row { i < size self.now }
        requires column { j < size self.now }
        ensures { result ≡ is_one_leaf self.now i j }
    {
        let leaves = self.leaves.as_slice();
        leaves[i] == leaves[j]
    }

    /// What becomes of the broadcasts of member `i` at member `j`.
    #[inline(always)]
    pub(crate) fn cell(&self, i: usize, j: usize) -> Cell
        requires square { IsSquare self.now }
        requires row { i < size self.now }
        requires column { j < size self.now }
        ensures { result ≡ cell self.now i j }
    {
        if self.is_one_leaf(i, j) {
            return Cell::Comes;
        }
        cell_of(self.cells.as_slice(), self.size(), i, j)
    }

    /// Whether this becomes of them.
    #[inline(always)]
    pub(crate) fn is_at(&self, cell: Cell, i: usize, j: usize) -> bool
        requires square { IsSquare self.now }
        requires row { i < size self.now }
        requires column { j < size self.now }
        ensures { result ≡ is_at self.now cell i j }
    {
        self.cell(i, j).number() == cell.number()
    }

    /// Whether they come to another leaf.
    pub(crate) fn is_way(&self, i: usize, j: usize) -> bool
        requires square { IsSquare self.now }
        requires row { i < size self.now }
        requires column { j < size self.now }
        ensures { result ≡ is_way self.now i j }
    {
        !self.is_one_leaf(i, j) && !self.cell(i, j).is_lost()
    }
}

/// The cell of a row and a column of `size`.
#[inline(always)]
fn cell_of(cells: &[Cell], size: usize, i: usize, j: usize) -> Cell
    requires square { length cells.now ≡ size * size }
    requires row { i < size }
    requires column { j < size }
    ensures { result ≡ slice_index_or cells.now (i * size + j) Cell.Comes }
{
    cells[i * size + j]
}
