//! Parts of a network, of which none reaches another.
ghost use Rattle.std.specs.Prelude.{◌≡◌, ◌<◌, ◌≤◌, ◌++◌, length, map, OnOk};
ghost use Rattle.fabric_grid.specs.Below.{all_below, texts_below};
ghost use Rattle.fabric_grid.specs.Cells.{IsSquare, size};
ghost use Rattle.fabric_grid.specs.Lines.{bar, is_parted, is_parted_at, is_parted_row, part_text, parts, parts_line};

use crate::cell::Cell;
use crate::members::Grid;
use crate::names::{put_number, put_words};
use crate::reasons::put_reasons;
use crate::rows::{agrees, is_first_row, is_like};
use crate::sets::heads;
use std::alloc::{AllocError, Global};

/// Whether member `i` has no answer that is lost at member `j`, and reaches it if both reach the same.
fn is_parted_at(grid: &Grid, i: usize, j: usize) -> bool
    requires square { IsSquare grid.now }
    requires row { i < size grid.now }
    requires column { j < size grid.now }
    ensures { result ≡ is_parted_at grid.now i j }
{
    !grid.cell(i, j).is_unanswered()
        && agrees(
            grid.is_at(Cell::Comes, i, j),
            is_like(grid, Cell::Comes, i, j),
        )
}

#[tactic(auto, using(crate::proofs::Below::all_more))]
fn is_parted_row(grid: &Grid, i: usize) -> bool
    requires square { IsSquare grid.now }
    requires row { i < size grid.now }
    ensures { result ≡ is_parted_row grid.now i }
{
    for j in 0..grid.size() {
        if !is_parted_at(grid, i, j) {
            return false;
        }
    }
    true
}

#[tactic(auto, using(crate::proofs::Below::all_more))]
fn are_parted(grid: &Grid) -> bool
    requires { IsSquare grid.now }
    ensures { result ≡ all_below (is_parted_row grid.now) (size grid.now) }
{
    for i in 0..grid.size() {
        if !is_parted_row(grid, i) {
            return false;
        }
    }
    true
}

/// How many parts there are, of members that reach the same.
#[tactic(auto, using(crate::proofs::Below::count_more))]
fn parts(grid: &Grid) -> usize
    requires { IsSquare grid.now }
    ensures { result ≡ parts grid.now }
{
    let mut parts: usize = 0;
    for i in 0..grid.size() {
        if is_first_row(grid, Cell::Comes, i) {
            parts += 1;
        }
    }
    parts
}

/// Whether all reach all within each part, and none reaches another.
pub(crate) fn is_parted(grid: &Grid) -> bool
    requires { IsSquare grid.now }
    ensures { result ≡ is_parted grid.now }
{
    let parts = parts(grid);
    1 < parts && parts < grid.size() && are_parted(grid)
}

/// Puts a bar before each part but the first.
fn put_bar(text: &mut Vec<u8>, i: usize) -> Result<(), AllocError>
    ensures { OnOk result (text.new.items ≡ text.old.items ++ bar i) }
{
    if i == 0 {
        return Ok(());
    }
    text.extend_from_slice(b" |")
}

/// Puts a part, at the first of its members.
fn put_part(
    alloc: Global,
    text: &mut Vec<u8>,
    grid: &Grid,
    names: &[&[u8]],
    i: usize,
) -> Result<(), AllocError>
    requires square { IsSquare grid.now }
    requires named { length names.now ≡ size grid.now }
    requires row { i < size grid.now }
    ensures { OnOk result (text.new.items ≡ text.old.items ++ part_text grid.now (map (λ n. n.now) names.now) i) }
{
    if is_first_row(grid, Cell::Comes, i) {
        let part = heads(alloc, grid, Cell::Comes, i)?;
        put_bar(text, i)?;
        return put_words(text, names, part.as_slice(), true);
    }
    Ok(())
}

#[tactic(auto, using(crate::proofs::Below::texts_more))]
fn put_parts(
    alloc: Global,
    text: &mut Vec<u8>,
    grid: &Grid,
    names: &[&[u8]],
) -> Result<(), AllocError>
    requires square { IsSquare grid.now }
    requires named { length names.now ≡ size grid.now }
    ensures { OnOk result (text.new.items ≡ text.old.items ++ texts_below (part_text grid.now (map (λ n. n.now) names.now)) (size grid.now)) }
{
    for i in 0..grid.size() {
        put_part(alloc, text, grid, names, i)?;
    }
    Ok(())
}

/// Puts the line of all parts.
pub(crate) fn put_parts_line(
    alloc: Global,
    text: &mut Vec<u8>,
    grid: &Grid,
    names: &[&[u8]],
    reasons: &[Cell],
) -> Result<(), AllocError>
    requires square { IsSquare grid.now }
    requires named { length names.now ≡ size grid.now }
    ensures { OnOk result (text.new.items ≡ text.old.items ++ parts_line grid.now (map (λ n. n.now) names.now) reasons.now) }
{
    text.extend_from_slice(b"  ")?;
    put_number(text, parts(grid))?;
    text.extend_from_slice(b" parts,")?;
    put_parts(alloc, text, grid, names)?;
    text.extend_from_slice(b": ")?;
    put_reasons(text, reasons)?;
    text.extend_from_slice(b"\n")
}
