//! What of a packet decides whether another one is the same, where two endpoints sent both: what is carried, and between
//! whom; not what each sender chooses.
//!
//! Use first: [`KeyRoom`] holds one record's key, by a [`Manner`] and its [`Sameness`]: the octets as they stand, or what a
//! tunnel carries, as [`tunnelled_in`] reads it (RFC 7348, 5; RFC 8926, 3). It takes its memory when it is made. [`Tunnels`]
//! says which packets are those of tunnels: by their ports, the critical options that are known, and whether checksums are
//! left to cards. A [`Manner`] also says which records are left aside: those that no bridge forwards (IEEE 802.1Q, 8.6.3),
//! where that is asked for.
//!
//! Specs to read, in order: `specs/Tunnelled`, `specs/Key`, `specs/Laws`.
//!
//! Proved: of every octet string what a tunnel carries is read as the definition says, and the key is the definition's. By
//! the laws of [`laws`] a datagram to a tunnel's port with that tunnel's header, in whole texts, whose checksum is none,
//! right, or left to a card where that is taken, is read as its kind, addresses, VNI, options and inner text, whatever else
//! its headers have; and two packets of tunnels have the same key only where these are the same, and none has the key of
//! what is no packet of a tunnel.
//!
//! Proved besides:
//! - What a packet of the underlay carries in a tunnel, and between whom, is read as the definition says, or nothing
//!   where it is no packet of a tunnel or its UDP checksum is wrong: `tunnelled_in`.
//! - A datagram to the port of VXLAN with a VXLAN header, or to another port, Geneve's, with a Geneve header whose
//!   critical options are known, in whole texts, whose UDP checksum is none, right, or left to a card where that is
//!   taken, carries its VNI, options and inner text between its addresses, whatever else stands in its headers:
//!   `carried_is_read`.
//! - Strictly the key of a record is all its octets; else one that is cut is compared as it stands, as what is no packet
//!   of a tunnel: `Sameness::of_underlay`.
//! - A record is left aside exactly where that is asked for and its frame of 14 octets or more goes to
//!   01-80-C2-00-00-00 to -0F (IEEE 802.1Q, 8.6.3, table 8-1): `Manner::ignores`.
//!
//! Why it is so: a packet with a critical option that nobody said to be known is compared as it stands, as are fragments, what
//! is cut, and one whose UDP checksum is wrong: a receiver drops it (RFC 768; RFC 1122, 4.1.3.4), so it isn't one that carries
//! something. Only packets at a tunnel's port are summed up.

mod key;
pub mod laws;
mod tunnelled;
mod tunnels;

pub(crate) use key::{Key, missing_of};
pub use key::{KeyRoom, Manner, Sameness};
pub(crate) use tunnelled::tunnelled_whole;
pub use tunnelled::{Tunnelled, tunnelled_in};
pub use tunnels::Tunnels;
