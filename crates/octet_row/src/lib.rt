//! The octets of records, one behind the other, of which the first go; and whether two texts are the same.
//!
//! Use first: a [`Row`] holds up to so many octets. Records come behind it ([`Row::put`]), and those in front are forgotten
//! ([`Row::forget`]). [`is_same`] compares two texts. Which octets are of which record the caller knows.
//!
//! Proved: a row holds what was put into it without what was forgotten, and two texts are told to be the same exactly where
//! they are. Only [`Row::new`] takes memory.
//!
//! Why it is so: what a row holds stands in one piece, so a record is one slice and is compared in one go. For that it moves to
//! the front from time to time, where at least as much was forgotten: so each octet is moved once at most for each that is put.
#![tactic(auto)]

mod row;
mod same;

pub use row::Row;
pub use same::is_same;
