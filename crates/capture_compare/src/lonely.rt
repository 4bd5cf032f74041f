//! What a record that is of one capture alone tells: its segment, and what of a near one differs.
//!
//! Use first: [`segment_of`] says of a record, by its key, which segment it is of. [`Differences`] are told of the records that are of
//! one capture alone. They hold those that were received alone, name for one that was sent alone the first of them that differs
//! from it in exactly one thing, and answer the [`Difference`]. They count such pairs in a [`DifferenceRow`] for each segment and
//! difference, which has the first [`NearPair`].
//!
//! Specs to read, in order: `specs/Segment`, `specs/KeyRead`, `specs/Difference`, `specs/Near`, `specs/Differing`, `specs/LonelyLaws`;
//! `specs/Texts` for how segments and differences print.
//!
//! Proved: of every key what it tells is the definition's, and which record is named is the first of those that are held and
//! looked at, in the time in which it may be received, with as many octets missing, that differs in one thing; it isn't named again.
//! By the laws of [`laws`] the key of what a tunnel carries is read as just that, and each row counts its pairs. A segment and a difference print as the
//! definition's texts.
//!
//! Proved besides:
//! - The segment that a record tells is that of the definition: `segment_of`. From the key of what a tunnel carries
//!   comes back just that: `key_is_read`.
//! - Of the first 256 records that were received alone no earlier than one that was sent alone, and are held, the first that may be
//!   that one by its moment and differs from it in exactly one thing is named, with what differs, and isn't held any more:
//!   `Differences::send`. Each pair is counted with the segment and the difference of the first one of its row, in one of 1,024
//!   rows or with all others. What was received alone is held where at most 1,048,576 records and 268,435,456 octets are:
//!   `Differences::receive`.
//!
//! Why it is so: records that were sent alone are told in their order, each once it can't be received any more. So what was received
//! before one of them is near none that is told behind it, and goes: where all records of a capture differ in one thing, as by a
//! wrong VNI, each is near the first one that is held. As many are held as a window holds of what was sent, so that at no rate a
//! full one is the first to end.

mod difference;
mod frame;
mod key_read;
pub mod laws;
mod near;
mod octets;
mod pairing;
mod pairs;
mod segment;
mod words;

pub use difference::Difference;
pub use key_read::tunnelled_by_key;
pub use pairing::Differences;
pub use pairs::{DifferenceRow, NearPair};
pub use segment::{Reading, RecordSegment, segment_of};
