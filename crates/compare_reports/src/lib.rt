//! What is told of two captures that are compared: the list, the counts, the table and the segments, printed while and behind.
//!
//! Use first: [`clock_of`] says by which clock words ask to compare. A [`Report`] is opened for what is [`Asked`] of two captures,
//! and [`compare_open`] compares them and shows it what becomes of each record. [`Segments`] count records by the segments of
//! settings, at one place after another. Lines go to whoever prints them, a [`Printer`], who knows the event of a record, too.
//!
//! Specs to read, in order: `specs/Times`, `specs/Outcome`, `specs/Prints`, `specs/Doubled`, `specs/Printed`, `specs/Told`, `specs/Reported`, `specs/Whole`.
//!
//! Proved: the clock is the one that the words ask for, and which word is refused. What is counted of two captures is that of the
//! definition over their whole texts; what becomes of each record is told to the list, the order, the table and the segments; and
//! what is printed of it are the definitions' lines. By the laws of [`laws`] what is told to be behind another is that, and what is told
//! to be doubled.
//!
//! Proved besides:
//! - Two captures that are compared to their ends and told: `compare_open`, as `specs/Whole` has it.
//! - The line of a record that is of one capture alone is printed as its capture tells it, with the segment and the difference of
//!   the definitions where it is of a run; no line is left out but behind one that couldn't be printed: `Report`. Where it is of a
//!   run, what of near ones differs is counted as the definitions count it, whether a list is asked for or not.
//! - A table prints a row for each length that occurs, or what its delays are summed up to: `Table::print`. Segments print a row for
//!   each that has any record, and one for those of none: `Segments::print`.
//!
//! Why it is so: files are opened and standard output is written elsewhere, so what is printed can be said here for anyone who prints.
#![tactic(auto)]

mod asked;
mod cut;
mod differing;
pub mod laws;
mod opened;
mod order;
mod paired;
mod place_lines;
mod printer;
mod recent;
mod report;
mod segments;
mod tables;
mod times;

pub use asked::Asked;
pub use opened::{Unfinished, compare_open};
pub use printer::{Printer, print_told};
pub use report::Report;
pub use segments::Segments;
pub use tables::TableBy;
pub use times::{ClockFault, clock_of};
