//! What arrives in an outer packet: the frame that a remote endpoint sent in a VXLAN (RFC 7348) or Geneve (RFC 8926) tunnel.
//!
//! Use first: [`unwrap`] reads a packet of the underlay as an [`Arrived`] frame, with the segment that it is for and the
//! endpoint that it came from, or says why it is refused. All parts are slices of the packet: nothing is copied.
//! [`is_left_to_card`] says whether a packet has a checksum that its sender left to its network card.
//!
//! Specs to read: `specs/Arrival`, then `specs/Card`.
//!
//! Proved: a packet brings one frame into one segment, with its sender, or is refused for the first reason that holds of
//! Runt, BadSource, Reserved and NotIp to InnerTag, with the segment from WrongGroup on; the frame stands in the packet at
//! its place. It brings a frame exactly where it is, in whole texts, a datagram to this endpoint, its checksum none where
//! none is needed, right, or left to the card where the settings take that, with a segment's tunnel header and that frame in
//! it (`laws::one_meaning`, where the two tunnel ports differ, as the settings demand).
//!
//! Why it is so: what arrives and what is sent are two crates, this one and `encapsulate`. Each has its definitions, and the
//! law on peers (`mesh_delivery::peers`) ties them. What a test of an outer packet says is of no account where an earlier
//! one holds: each is a total function of the whole text, and the first that holds is the answer. The outer source is asked
//! for before the destination, and both before fragments, protocol and UDP: a fragment to somebody else is NotForUs. A group
//! in the destination is let through until the segment is known, and must then be on its flood list with the kind of the
//! tunnel; so must the sender where the segment's rule is listed.
#![tactic(auto)]

mod arrived;
mod card;
mod datagram;
mod inner;
pub mod laws;
mod outer;
mod packet;

pub use arrived::Arrived;
pub use card::is_left_to_card;
pub use datagram::{needs_sum, sum_refusal, tunnel_of};
pub use outer::{Carried, carried_in, unwrap};
pub use packet::{Packet, ip_view};
