//! How many ways there are.
ghost use Rattle.std.specs.Prelude.{◌≡◌, ◌<◌, ◌≤◌, ◌*◌, ◌++◌, OnOk};
ghost use Rattle.fabric_grid.specs.Below.{sum_below};
ghost use Rattle.fabric_grid.specs.Cells.{IsSquare, size};
ghost use Rattle.fabric_grid.specs.Lines.{head, others_of, ways_of, ways_text};

use crate::cell::Cell;
use crate::members::Grid;
use crate::names::put_number;
use std::alloc::AllocError;

/// How many others hear member `i`.
#[tactic(auto, using(crate::proofs::Below::count_more))]
fn ways_of(grid: &Grid, i: usize) -> usize
    requires square { IsSquare grid.now }
    requires row { i < size grid.now }
    ensures value { result ≡ ways_of grid.now i }
    ensures few { result ≤ size grid.now }
{
    let mut ways: usize = 0;
    for j in 0..grid.size() {
        if grid.is_way(i, j) {
            ways += 1;
        }
    }
    ways
}

/// How many others there are.
#[tactic(auto, using(crate::proofs::Below::count_more))]
fn others_of(grid: &Grid, i: usize) -> usize
    requires row { i < size grid.now }
    ensures value { result ≡ others_of grid.now i }
    ensures few { result ≤ size grid.now }
{
    let mut others: usize = 0;
    for j in 0..grid.size() {
        if !grid.is_one_leaf(i, j) {
            others += 1;
        }
    }
    others
}

/// How many ways there are.
#[tactic(auto, using(crate::proofs::Below::sum_more))]
fn all_ways(grid: &Grid) -> usize
    requires square { IsSquare grid.now }
    ensures { result ≡ sum_below (ways_of grid.now) (size grid.now) }
{
    let mut ways: usize = 0;
    for i in 0..grid.size() {
        ways += ways_of(grid, i);
    }
    ways
}

/// How many ways there would be if none were lost.
#[tactic(auto, using(crate::proofs::Below::sum_more))]
fn all_others(grid: &Grid) -> usize
    requires square { IsSquare grid.now }
    ensures { result ≡ sum_below (others_of grid.now) (size grid.now) }
{
    let mut others: usize = 0;
    for i in 0..grid.size() {
        others += others_of(grid, i);
    }
    others
}

/// Puts how many ways there are, where there are reasons for which some are lost.
fn put_ways(text: &mut Vec<u8>, grid: &Grid, reasons: &[Cell]) -> Result<(), AllocError>
    requires { IsSquare grid.now }
    ensures { OnOk result (text.new.items ≡ text.old.items ++ ways_text grid.now reasons.now) }
{
    if reasons.is_empty() {
        return text.extend_from_slice(b"all reach all");
    }
    put_number(text, all_ways(grid))?;
    text.extend_from_slice(b" of ")?;
    put_number(text, all_others(grid))?;
    text.extend_from_slice(b" ways")
}

/// Puts how many members there are, and how many ways.
pub(crate) fn put_head(text: &mut Vec<u8>, grid: &Grid, reasons: &[Cell]) -> Result<(), AllocError>
    requires { IsSquare grid.now }
    ensures { OnOk result (text.new.items ≡ text.old.items ++ head grid.now reasons.now) }
{
    if grid.size() == 1 {
        return text.extend_from_slice(b"1 leaf");
    }
    put_number(text, grid.size())?;
    text.extend_from_slice(b" leaves: ")?;
    put_ways(text, grid, reasons)
}
