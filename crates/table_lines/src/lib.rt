//! What the bridges of an endpoint know, as lines of text (IEEE 802.1Q, 8.8): one for each live entry of each segment's table,
//! as it is at the moment of the last step, or at a later one.
//!
//! Use first: [`tables_text`] writes them, for the segments that are asked for.
//!
//! Specs to read: `specs/Lines`.
//!
//! Proved: the text is exactly the lines of the live entries of the segments that are asked for, at the moment of the last
//! step or at a later one up to which nothing comes, fixed ones too, and no other's: VIDs rising, addresses rising, each entry
//! once.
#![tactic(auto)]

mod line;
mod tables;

pub use tables::tables_text;
