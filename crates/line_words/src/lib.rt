//! Lines of text, and words and numbers in them: one space between two words, numbers in decimal digits without leading zeros.
//!
//! Use first: [`first_word`] splits a line at its first space, [`behind_word`] is what stands behind it, [`split_at_first`]
//! splits a text at any octet, [`next_line`] at its first line feed, and [`number_of`] reads a number as `decimal` writes it,
//! [`octet_of`] one below 256. No memory is asked for.
//!
//! Specs to read, in order: `specs/Splits`, `specs/Words`, `specs/Lines`, `specs/Numbers`, `specs/Places`.
//!
//! Proved: a text is split at the first place of an octet, which [`first_place`] finds from any place on; [`next_line`] takes
//! off the lines that a line feed ends, one after another; and two texts first differ in the line that [`first_difference`]
//! tells. A number is read exactly from its decimal digits without leading zeros, below 2^64:
//! from the digits of each such number it is that number, and from no other text ([`decimals_read_back`],
//! [`numbers_are_decimals`]).
//!
//! Proved besides:
//! - The next line of a text is what stands before its first LF, where it has one: `next_line`. The line in which two
//!   texts first differ is found: `first_difference`.
#![tactic(auto)]

mod laws;
mod lines;
mod number;
mod place;
mod split;
mod words;

pub use laws::{decimals_read_back, numbers_are_decimals};
pub use lines::{first_difference, next_line};
pub use number::{number_of, octet_of};
pub use place::first_place;
pub use split::split_at_first;
pub use words::{behind_word, first_word};
