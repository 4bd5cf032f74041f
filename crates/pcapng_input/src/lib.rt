//! Captures in the pcapng format (draft-ietf-opsawg-pcapng), as Wireshark and its tools write them, read as classic ones. What
//! a packet holds isn't looked at, and no file is opened here.
//!
//! Use first: a [`CaptureInput`] is an input over an input: what it tells is the classic capture (pcap-savefile(5)) whose
//! records are the packets of a pcapng text, in order, little-endian, in nanoseconds, link type Ethernet; any other text it
//! tells as it is. [`classic_of`] answers the same of a text in memory. A [`Selection`] takes the packets of all interfaces or
//! of one, and [`is_pcapng`] tells the formats apart by their first octets.
//!
//! Specs to read, in order: `specs/Block`, `specs/BlockText`, `specs/Options`, `specs/Interface`, `specs/Moments`,
//! `specs/Packet`, `specs/Meaning`, `specs/Reading`, `specs/Classic`; of the input `specs/Adapted`, `specs/Adapter`,
//! `specs/Stops`.
//!
//! Proved: for every text and selection the answer is the classic capture of the definition, or the text's first fault with the
//! number and the place of its block, unless memory was refused. Its records are the packets in their order, but for those that
//! aren't selected and those that their flags tell as outbound. The input tells that same capture up to the first fault,
//! however the octets below it come ([`laws`]).
//!
//! Proved of texts, for every text and selection of interfaces:
//! - A block is next in a text exactly where the text of that block, in the words of the format, stands in front:
//!   `laws::block_texts`.
//! - A text begins with 0A 0D 0D 0A exactly where it is said to: `is_pcapng`.
//!
//! Proved of an input of a capture (`CaptureInput::new`, `read`, `fault`, `left_out`, `lacks_memory`), over any input
//! below and for each way in which that one's octets come:
//! - Each read takes the next octets of that, none only at the end and then there is no fault, and a read that fails
//!   takes none: `read`.
//! - The fault is told exactly once it was met, with the number and the place of its block: `fault`.
//! - Once all is told, so many packets are said to be left out as the text has selected ones that are outbound:
//!   `left_out`.
//! - Of the input below no more reads are made than it was given: `read`.
//! - A read fails only where one below failed or none may be made any more, where a fault of the text was met, or where
//!   it says that memory was refused; where it doesn't fail none below failed: `read`, `lacks_memory`.
//!
//! Why it is so: pcapng is read as the classic capture of its packets, so that all that is said of captures stays said of
//! classic ones. A text that ends within a block gives a capture that ends within a record's header, with one octet of it, 0:
//! what reads classic captures tells the cut. An input of pcapng octets is told as one of classic octets, so a source reads
//! either. A pcapng text has a section header at least: an empty one, or one of fewer than 12 octets, is NoSection and no empty
//! capture.
#![tactic(auto)]

mod adapter;
mod block;
mod capture_input;
mod classic;
mod context;
mod fault;
mod filling;
mod front;
mod gathered;
mod interface;
pub mod laws;
mod meaning;
mod moment;
mod number;
mod option;
mod packet;
mod reading;
mod ready;
mod room;
mod settle;
mod state;
mod stop;

pub use block::{Block, NextBlock, is_pcapng, next_block};
pub use capture_input::CaptureInput;
pub use classic::{classic_of, put_packet};
pub use fault::{BlockFault, PcapngError, PcapngFault};
pub use filling::{Filled, fill};
pub use gathered::Gathered;
pub use interface::{Interface, Selection, name_told};
pub use meaning::{BlockMeaning, block_meaning, interface_named};
pub use pcap::text::record_head;
pub use stop::Stop;
