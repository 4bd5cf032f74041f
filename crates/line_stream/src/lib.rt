//! Lines of text from an input, in the memory of the longest of them. What a line says isn't looked at.
//!
//! Use first: [`Lines`] reads an [`Input`](pcap::stream::Input) and lends one line after another, each with its line feed, as
//! far as lines have at most 131,072 octets. `holds_next` tells whether the next one was read ahead.
//!
//! Specs to read: `specs/Lines`.
//!
//! Proved: `fetch` reads exactly the next line of its input, of 131,072 octets at most, or answers TooLong, or Read where a read
//! failed. No fault comes where the line was read ahead.
#![tactic(auto)]

mod fault;
mod fill;
mod find;
mod lines;

pub use fault::LinesFault;
pub use lines::Lines;
