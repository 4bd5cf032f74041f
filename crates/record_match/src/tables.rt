//! Tables of what two captures are, compared, for whoever looks on.
//!
//! Use first: a [`LengthTable`] counts records by their length, what becomes of each. A [`DelayTable`] counts pairs by how much
//! later they were received than they were sent, and sums up the delays.
//!
//! Specs to read, in order: `specs/Lengths`, `specs/Delays`, `specs/Laws`.
//!
//! Proved: what one fact makes of a table. By the laws of [`laws`] each row by length is that of the facts of its length, and a
//! table of delays is one of the delays of all its facts; its median and that of 99 in 100 have their rank among these, in whole
//! steps, and the least and the greatest are exact.
//!
//! Proved besides:
//! - What one fact makes of a table by length: one more of its kind in the row of its length, up to the greatest
//!   number, and nothing else: `LengthTable`. Each row of a table is that of the facts of its length, whatever was told
//!   besides: `each_row_is_of_its_facts`.
//! - A table of delays knows of each pair that it is told by how much later it was received than it was sent, and
//!   forgets none: `it_is_of_its_delays`. What it tells of fewer than 2^64 delays is how many they are, the least and
//!   the greatest as they are, and of all of them, rounded down to whole steps, the median and that of 99 in 100 by the
//!   nearest rank: fewer than the rank are less, and at least as many are at most this: `DelayTable::summary`.
//!
//! Why it is so: a table has a row for each length that a record can have, and for each of 4,194,304 steps of the time in which it
//! may be received, so what it takes doesn't grow with the captures.

mod delays;
pub mod laws;
mod lengths;

pub use delays::{DelaySummary, DelayTable};
pub use lengths::{LengthRow, LengthTable};
