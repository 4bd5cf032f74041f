//! One pass over a pcapng capture (draft-ietf-opsawg-pcapng) for all its interfaces: of each what `pcapng_input` reads where
//! that interface alone is asked for. No file is opened here.
//!
//! Use first: [`take_next`] takes the next block of an input, by the [`Lanes`] that are known of its interfaces, and says in
//! a [`Step`] what it is: the record of a packet and the number of its interface, an interface that is described, a fault,
//! or the end. What is written of an interface is the global header of `pcap::text`, and then the texts of its records.
//!
//! Specs to read, in order: `specs/Lanes`, `specs/Steps`, `specs/Pass`.
//!
//! Proved, for every input that tells its octets and every number of an interface: what the text in front of a step reads as
//! where that interface is asked for is what the step gives to it, and then what the text behind the step reads as. Its
//! first fault is told, of a packet of its own or of the whole text, with the number and the place of its block. So what all
//! steps give to an interface is the classic capture that it is read as ([`laws`]).
//!
//! Proved of a step of a pass over a pcapng text, over any input below and for each way in which its octets come:
//! - For every number of an interface: what the text in front of the step reads as where that interface alone is asked
//!   for is what the step gives to it, and then what the text behind the step reads as. Where the step says the end or
//!   a fault of the whole text, it is how that reading ends, but for an interface that has a fault of its own, which is
//!   told before: `take_next`, `Lanes::take`.
//! - The first fault of an interface, and how many of its packets are left out, are those of that reading:
//!   `Lanes::fault_of`, `Lanes::left_out_of`.
//! - An interface is said to be described exactly where the next block describes one, with its number in its section
//!   and its name: `take_next`, `Lanes::take`.
//! - No read of the input fails without a word, and memory is said to be refused only where no read failed:
//!   `take_next`.
//!
//! Why it is so: interfaces with one number in several sections are one, as where a number is asked for. Of each interface
//! are kept the moment of its last packet, how many were left out, and its first fault, 48 octets or so; of the text one
//! section's descriptions and the block that stands in front. A fault of one interface's packet ends that interface alone.

mod lane;
mod lanes;
pub mod laws;
mod record_text;
mod step;
mod taken;

pub use lane::Lane;
pub use lanes::Lanes;
pub use step::{Step, take_next};
pub use taken::Taken;
