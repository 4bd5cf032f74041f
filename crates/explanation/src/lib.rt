//! What an endpoint decides of packets from its underlay, and how they are made up.
//!
//! Use first: [`explain`] prints a decision and the layers of its packet, a line for each. [`explain_bytes`] does so for each
//! packet of a capture (pcap-savefile(5)), which comes to a fresh endpoint, with the values of the headers or without
//! ([`Values`]).
//!
//! Specs to read, in order: `specs/Text`, `specs/Explanation`; `specs/Growing` serves proofs.
//!
//! Proved: the texts of a decision with its layers, and of a whole capture at a fresh endpoint, are exactly those of the
//! definition, or the first fault is answered, unless memory was refused.
//!
//! Why it is so: a packet's decision line is printed by the same calls as a run's, so that no line is stated twice.
#![tactic(auto)]

mod packets;
pub mod sample;
mod text;

pub use packets::explain_bytes;
pub use text::{Values, explain};
