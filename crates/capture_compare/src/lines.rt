//! The lines that tell how two captures are compared.
//!
//! Use first: [`CountLines`] of [`Counts`], in front of them a [`LonelyLine`] for each [`Lonely`] record, and behind them how many
//! are cut, [`CutLine`], how many were left aside, [`AsideLines`], what of near ones differs, [`DifferenceLine`] and
//! [`OtherDifferences`], the lines of tables, [`LengthLine`] and [`DelayLines`], and that of a capture that ends within a record,
//! [`CutEnd`]. Each prints as its text. Nothing is compared here.
//!
//! Specs to read: `specs/Sides`, `specs/Counts`, `specs/Cut`, `specs/Aside`, `specs/Lonely`, `specs/Tables`.
//!
//! Proved: the texts, octet for octet.
//!
//! Proved besides:
//! - The lines of counts, of two captures, of a place, of all places, of a segment and of none, are those of the
//!   definition: `CountLines`. The counts are those of the comparison, `Counts::of`, and of several places their sums,
//!   up to the greatest number: `Counts::and`.
//! - So are those of what is cut, `CutLine` and `CutEnd`; of how many records were left aside, `AsideLines`; that of a
//!   length, `LengthLine`; those of delays,
//!   each with the time taken off by which its clock is ahead, `DelayLines`; that of a record that is of one
//!   capture alone, `LonelyLine`, which begins with `Lonely`; and those of what of near ones differs, `DifferenceLine` and
//!   `OtherDifferences`.

mod aside;
mod counts;
mod cut;
mod delays;
mod differences;
mod lengths;
mod lonely;
mod lonely_line;
mod place;
mod sides;

pub use aside::AsideLines;
pub use counts::{CountLines, Counts, Scope};
pub use cut::{CutEnd, CutLine};
pub use delays::DelayLines;
pub use differences::{DifferenceLine, OtherDifferences};
pub use lengths::LengthLine;
pub use lonely::Lonely;
pub use lonely_line::LonelyLine;
