//! Two captures of one way compared: which records of the one are which of the other.
//!
//! Use first: [`compare_captures`] reads the records of both one after another, in the order of their moments on one
//! `Clock`, and tells a `Comparison` of their keys by a `Manner`, which counts, and tells an `Onlooker` what becomes of
//! each; those that the manner leaves aside are counted in [`Aside`] only. Where it can't go on it answers a
//! [`CompareFault`], and the comparison has what was compared up to there.
//!
//! Specs to read, in order: `specs/Clocked`, `specs/Sifted`, `specs/Compared`, `specs/Laws`.
//!
//! Proved, for every two inputs that tell their octets: what is counted is what the definition over the whole lists of
//! `record_match` counts over the keys of [`carried`] of the records that aren't left aside, with each record at the
//! greatest moment up to it, and so is what whoever looks on was told; as many are counted as cut, and as left aside, as are.
//! Where a capture has a fault, it is so of all its records up to it and those of the other that come before the last of them; and
//! `Full` comes exactly at the first record that was sent for which there is no room. By a law of [`laws`] a capture that is
//! compared with itself has no record that is of one alone, by any manner.
//!
//! Proved, for every two inputs that tell their octets:
//! - Where a capture has a fault, it is that of its octets, and what is counted are all records up to it and those of
//!   the other that come before the last of them; the other had no fault before. Where a read failed, the same of the
//!   records that were read: `compare_captures`.
//! - Where both were compared to their ends, each source says exactly whether its capture ends within a record:
//!   `compare_captures`.
//! - What whoever looks on was told of what was received is what the definition over the whole lists tells of it, and
//!   of what was sent and not received likewise, but for what is held still, which is told at the end:
//!   `compare_captures`, and `finish`.
//!
//! Why it is so: of both captures one record is fetched ahead, and the earlier one is taken. So those that were sent are
//! never later than a record that is received behind them, and what a window holds is enough to tell.
#![tactic(auto)]

mod aside;
pub mod carried;
mod coming;
mod compare;
mod fault;
pub mod laws;
pub mod lines;
pub mod lonely;
pub mod segments;
mod take;
mod turn;

pub use aside::Aside;
pub use compare::compare_captures;
pub use fault::{CompareFault, Side};
