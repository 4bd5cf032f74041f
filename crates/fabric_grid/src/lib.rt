//! Who reaches whom in one network of a fabric, as lines of text.
//!
//! Use first: [`Grid`] has a cell for each two members of a network, [`grid_text`] tells it, and [`put_few`] tells the titles of
//! networks of which the same is told.
//!
//! Specs to read, in order: `specs/Cells`, `specs/Boxes`, `specs/Names`, `specs/Lines`, `specs/Holes`.
//!
//! Proved: what is told is exactly the stated function of the grid and the names. Where lines of boxes are told, each hole stands on
//! exactly one of them ([`holes_are_told_once`]), and each tells of holes for its reason alone ([`lines_tell_holes`]).
#![tactic(auto)]

mod boxes;
mod cell;
mod counts;
mod few;
mod laws;
mod lines;
mod members;
mod names;
mod parts;
mod reasons;
mod rows;
mod sets;

pub use cell::{Cell, Hole};
pub use few::put_few;
pub use laws::{holes_are_told_once, lines_tell_holes};
pub use lines::grid_text;
pub use members::Grid;
