//! IPv4 (RFC 791), IPv6 (RFC 8200) and UDP (RFC 768) as borrowed views: what stands between an Ethernet frame and a
//! tunnel header.
//!
//! Use first: [`IpView`] is a packet of either family, and [`UdpView`] a datagram. They and [`Ip4View`] and [`Ip6View`] cut
//! octets into a header, its payload and what stands behind; each part is a slice of the octets that were read, so nothing is
//! copied. [`Addr`] is an address of either family, and [`Tunnel`] the kind of tunnel that goes to it.
//!
//! Specs to read: `specs/IpParts`, `specs/Ip` and `specs/Udp`, then `specs/Datagram` for the whole Ethernet frame and
//! `specs/IpLaws`; `specs/Addr` for addresses.
//!
//! Proved: a packet and a datagram are read as the header, payload and trailer that the text is; `BadIp`, `BadIpSum` and
//! `BadUdp` come exactly where they are said to, and a text has one such split (`laws::ip_split`, `laws::udp_split`), as has a
//! whole Ethernet frame with a datagram in it (`laws::datagram_split`). The checksum is none, right, left to the sender's card
//! or wrong over the UDP length.
//!
//! Proved besides:
//! - Groups, usable addresses and group MACs: `Addr`.
//!
//! Why it is so: views answer addresses as [`Addr`], so that callers treat both families alike. A UDP checksum of 0 is
//! [`SumState::Zero`] over both; whether IPv6 accepts it is the caller's rule. An IPv6 payload length of 0 is an empty payload
//! (no jumbograms), so it is no datagram.

mod addr;
mod header_sum;
mod ip4_view;
mod ip6_view;
mod ip_fault;
mod ip_view;
pub mod laws;
mod octets;
mod slices;
mod udp_view;

pub use crate::octets::UDP;
pub use addr::{Addr, Tunnel};
pub use ip_fault::IpFault;
pub use ip_view::{IP4_TYPE, IP6_TYPE, IpView};
pub use ip4_view::Ip4View;
pub use ip6_view::Ip6View;
pub use udp_view::{BadUdp, SumState, UdpView};
