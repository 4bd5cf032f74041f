//! Traffic of tunnels, counted in tables of a bounded number of rows.
//!
//! Use first: a [`TrafficRows`] has a row for each [`TunnelKey`], up to 4,096 of them, and counts the [`Traffic`] of all others
//! together.
//!
//! Specs to read, in order: `specs/Key`, `specs/Traffic`, `specs/TrafficRows`.
//!
//! Proved: such a table shows the rows with the least ranks of all traffic that was counted, whatever came first, and what all
//! others come to, each count up to the greatest of 64 bits; and the tables of two parts come together as one table of all
//! their traffic (`ranked_rows::laws`).
//!
//! Why it is so: whoever sends to an endpoint chooses addresses and networks, so rows are bounded, and those with the least
//! ranks stay. So what two parts of a run counted adds up to what the whole run counts.

mod key;
mod traffic;

pub use key::TunnelKey;
use ranked_rows::{KeyCount, RankedRows};
pub use traffic::Traffic;

/// What came and left by one tunnel.
pub type TrafficRow = KeyCount<TunnelKey, Traffic>;

/// The traffic of tunnels: rows in the order of their ranks, at most 4,096, and what all other tunnels come to.
pub type TrafficRows = RankedRows<TunnelKey, Traffic>;
