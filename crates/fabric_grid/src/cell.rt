//! What becomes of the broadcasts of one member of a network at another.
ghost use Rattle.std.specs.Prelude.{◌≡◌, ◌++◌, ◌≤◌, OnOk};
ghost use Rattle.fabric_grid.specs.Cells.{cell_number, cell_text, hole_number, hole_text, is_lost, is_unanswered};

use crate::names::put_number;
use std::alloc::AllocError;
use wire::ether::Reason;

/// Why a broadcast of one member of a network doesn't come to another, or why the answer to it doesn't come back.
#[derive(Clone, Copy, Debug, PartialEq, Eq)]
pub enum Hole {
    /// They have no tunnel of one kind and VNI.
    NoTunnel,
    /// They have one outer address.
    TwoOwners,
    /// They have no outer addresses of one family.
    NoFamily,
    /// The other isn't on the flood list.
    NotListed,
    /// The other drops it.
    Dropped(Reason),
}

/// What becomes of one member's broadcasts at another.
#[derive(Clone, Copy, Debug, PartialEq, Eq)]
pub enum Cell {
    /// They come, and the answers come back.
    Comes,
    /// They come, and the answers are lost.
    Unanswered(Hole),
    /// They don't come.
    Lost(Hole),
}

impl Hole {
    /// A number for each, 1 to 44.
    fn number(self) -> u8
        ensures value { result ≡ hole_number self }
        ensures in_range { result ≤ 44 }
    {
        match self {
            Hole::NoTunnel => 41,
            Hole::TwoOwners => 42,
            Hole::NoFamily => 43,
            Hole::NotListed => 44,
            Hole::Dropped(reason) => reason.number(),
        }
    }
}

impl Cell {
    /// A number for each, by which two are compared.
    pub(crate) fn number(self) -> u8
        ensures { result ≡ cell_number self }
    {
        match self {
            Cell::Comes => 0,
            Cell::Lost(hole) => hole.number(),
            Cell::Unanswered(hole) => 50 + hole.number(),
        }
    }

    pub(crate) fn is_lost(self) -> bool
        ensures { result ≡ is_lost self }
    {
        match self {
            Cell::Comes => false,
            Cell::Unanswered(_) => false,
            Cell::Lost(_) => true,
        }
    }

    pub(crate) fn is_unanswered(self) -> bool
        ensures { result ≡ is_unanswered self }
    {
        match self {
            Cell::Comes => false,
            Cell::Unanswered(_) => true,
            Cell::Lost(_) => false,
        }
    }
}

/// Puts why the broadcasts don't come, or the answers don't come back.
pub(crate) fn put_cell(text: &mut Vec<u8>, cell: Cell) -> Result<(), AllocError>
    ensures { OnOk result (text.new.items ≡ text.old.items ++ cell_text cell) }
{
    match cell {
        Cell::Comes => Ok(()),
        Cell::Unanswered(hole) => put_unanswered(text, hole),
        Cell::Lost(hole) => put_hole(text, hole),
    }
}

/// Puts why the answers don't come back.
fn put_unanswered(text: &mut Vec<u8>, hole: Hole) -> Result<(), AllocError>
    ensures { OnOk result (text.new.items ≡ text.old.items ++ cell_text (Cell.Unanswered hole)) }
{
    text.extend_from_slice(b"heard, and the answer is lost: ")?;
    put_hole(text, hole)
}

fn put_hole(text: &mut Vec<u8>, hole: Hole) -> Result<(), AllocError>
    ensures { OnOk result (text.new.items ≡ text.old.items ++ hole_text hole) }
{
    match hole {
        Hole::NoTunnel => text.extend_from_slice(b"no tunnel in common"),
        Hole::TwoOwners => text.extend_from_slice(b"one address"),
        Hole::NoFamily => text.extend_from_slice(b"no address family in common"),
        Hole::NotListed => text.extend_from_slice(b"not on the list"),
        Hole::Dropped(reason) => put_reason(text, reason),
    }
}

/// Puts the number and the name of a reason.
fn put_reason(text: &mut Vec<u8>, reason: Reason) -> Result<(), AllocError>
    ensures { OnOk result (text.new.items ≡ text.old.items ++ hole_text (Hole.Dropped reason)) }
{
    put_number(text, usize::from(reason.number()))?;
    text.push(b' ')?;
    text.extend_from_slice(reason.name().as_bytes())
}
