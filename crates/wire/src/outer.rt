//! The outer head of a frame in a tunnel, ready-made: Ethernet, IPv4 (RFC 791, 3.1) or IPv6 (RFC 8200, 3), UDP (RFC 768),
//! and VXLAN (RFC 7348, 5) or Geneve (RFC 8926, 3.4).
//!
//! Use first: [`Template4`] and [`Template6`] have what is the same in all heads of one tunnel, and the sums of its words;
//! from a template a head is a copy in which next hop, destination, source port, lengths and checksums are filled. The
//! module knows no settings: all values are handed in.
//!
//! Specs to read: `specs/OuterPacket`, the definition of the whole packet, then `specs/OuterTemplate`.
//!
//! Proved: each ready-made head holds the definition's fixed octets and their sums, which are part of its type's invariant. A
//! filled one is the definition's packet, octet for octet, over IPv4 and IPv6, in VXLAN and Geneve.
//!
//! Why it is so: each segment of `underlay` keeps the heads of its packets ready-made, so that a head is copied and not made.
//! `encapsulate` fills them in. This module, with the definition of the head, stands below both.

mod head;
mod template4;
mod template6;

pub use head::{Head, tunnel_head};
pub use template4::Template4;
pub use template6::Template6;
