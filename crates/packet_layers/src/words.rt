//! The values that stand in the headers of a packet, in words: addresses, tags, types, lengths, ports and network
//! identifiers.
//!
//! Use first: [`put_values`] writes those of one header, as [`crate::dissect`] takes it off a packet, and [`word_of`]
//! is the word of its kind: together `ip4 192.0.2.1 > 192.0.2.2 ttl 64 length 96 protocol 17`. [`Lines`] are a room that such
//! lines are written into without asking for memory.
//!
//! Specs to read: `specs/Values`, then `specs/Text`.
//!
//! Proved: the words for a header's values are exactly those of the definition, by the standards' fields, and none where it
//! is cut.

mod addresses;
mod fields;
mod lines;
mod spelling;
mod values;
mod word;

pub use lines::Lines;
pub use values::put_values;
pub use word::word_of;
