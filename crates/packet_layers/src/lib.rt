//! Packets of the underlay taken apart: Ethernet, VLAN tags (IEEE 802.1Q), IPv4 (RFC 791), IPv6 (RFC 8200), UDP (RFC 768),
//! VXLAN (RFC 7348) and Geneve (RFC 8926), one in another.
//!
//! Use first: [`dissect`] takes the headers off the front of a packet and what stands behind each length off its end, as
//! [`Layers`]: each part is a slice of the packet at its place, and [`Stop`] says why no more is taken off. A layer is read
//! as [`decapsulate::unwrap`] reads it, with the same reasons in the same order; who sent the packet and for which segment it
//! is are left aside.
//!
//! Specs to read: `specs/Apart`, then `specs/Dissection`; `specs/Laws`.
//!
//! Proved: for every octet string, a packet is taken apart into exactly the headers, payload and tails of the definition, and
//! stops for its reason; the parts make up the packet, each at its place. Where an endpoint refuses a packet for one of these
//! reasons, taking it apart stops with it before any tunnel header.
//!
//! Why it is so: the definition takes heads off the front and tails off the end, in the order of the packet; laws say that
//! the parts make it up at their places. A frame's `type` is put wherever two octets are left behind the tags, also where it
//! isn't one of IP.
#![tactic(auto)]

mod apart;
mod dissection;
mod ether;
mod ip;
mod kind;
mod layers;
mod part;
mod tunnel;
mod udp;
pub mod words;

pub use dissection::dissect;
pub use kind::{HeadKind, Stop};
pub use layers::Layers;
pub use part::{Head, Span};
