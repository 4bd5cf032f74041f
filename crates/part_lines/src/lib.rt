//! What a decision line tells whoever puts the outputs of parts together: the number of its event, and the places where the
//! event was sent, in order.
//!
//! Use first: [`read_line`] reads one line as `decision_lines` writes it; its [`LineFacts`] are an event, whose [`Places`] are
//! read one by one and in place, or a capture that ends with a cut rest. [`find_parts`] says the same by a place in the line,
//! for whoever keeps the line and not what is lent of it. No memory is asked for. A [`PartFault`] is what may be wrong with the
//! lines of a part, or with its captures.
//!
//! Specs to read, in order: `specs/Words`, `specs/Sent`, `specs/Facts`, `specs/Parts`, `specs/ReadBack`.
//!
//! Proved: a line tells exactly the facts of the definition, or the first fault of NoEnd, Number, Fields and Place; its places
//! come one by one, in order, each once. From the line of a decision come back the number of its event and just the places
//! where something left; from that of a change the number and no place; that of a cut capture is told as such
//! ([`decisions_read_back`], [`replies_read_back`], [`cuts_read_back`]). That the fields between number and result, and the
//! words of a result without a `=`, are those of a run isn't looked at.
//!
//! Proved besides:
//! - A line tells exactly the facts of the definition, or the first fault of NoEnd, Number, Fields and Place:
//!   `read_line`. It's the same where it is told by the place at which its result begins: `find_parts`,
//!   `Places::behind`.
#![tactic(auto)]

mod facts;
mod fault;
mod laws;
mod part_fault;
mod parts;
mod places;
mod words;

pub use facts::{LineFacts, read_line};
pub use fault::LineFault;
pub use laws::{cuts_read_back, decisions_read_back, replies_read_back};
pub use part_fault::{PartFault, RecordsFault};
pub use parts::{LineParts, find_parts};
pub use places::Places;
