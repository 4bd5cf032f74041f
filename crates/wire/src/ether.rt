//! Ethernet frames and VLAN tags (IEEE 802.1Q) as borrowed slices, and the reasons why frames and packets are dropped.
//!
//! Use first: [`EtherView`] reads a frame: its addresses, its tag ([`Tagging`]) and what stands behind a packet's tags.
//! Destination and source are copies, each longer part is a slice of the octets that were read. [`BridgeFrame`] is what a
//! bridge sees of a frame: no tag is in it, nor any tunnel header. [`Reason`] is why a frame is dropped, each with its
//! number, and [`REASONS`] lists them.
//!
//! Specs to read: `specs/Frame` and `specs/Tag`, then `specs/Ether`; `specs/Reason` and `specs/Refusal` for drops,
//! `specs/First` for tables of which the first row that holds is the answer.
//!
//! Proved: each part of a frame is the stated slice of its octets, and the parts side by side are the frame. A tag is split
//! off exactly where the text is that of a tagged frame, and at most n tags are skipped, the longest front of them. A [`Vid`]
//! is 1 to 4094. The forty reasons have different numbers and names.
//!
//! Why it is so: the reasons stand here, below all crates that answer them, and a refusal ([`Refused`]) carries its segment
//! where the frame was in one already. A tag that a packet's type stands behind counts only where all its four octets are
//! there: of a cut one nothing is skipped.

mod address;
mod bridge_frame;
mod ether_view;
mod reason;
mod reasons;
mod tag;

pub use address::Mac;
pub use bridge_frame::BridgeFrame;
pub use ether_view::{CUSTOMER_TAG, EtherView, Runt, Tagging};
pub use reason::{Reason, Refused};
pub use reasons::REASONS;
pub use tag::{Tci, Vid};
