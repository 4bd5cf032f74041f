//! What stands on the wire, read as views of borrowed slices and written: octets and sums, Ethernet frames, IP and UDP, and
//! the headers of tunnels. Each module knows of those before it and of nothing behind it.
//!
//! Use first: [`ether`] for frames, tags and the [`ether::Reason`] of each drop; [`ip_udp`] for packets and datagrams;
//! [`vxlan`] and [`geneve`] for what a datagram carries; [`outer`] for the headers of packets that are sent; [`octets`] for
//! numbers in octets and the Internet checksum.
//!
//! Specs to read: `specs/Octets`, then those that each module names.
//!
//! Proved: what each module says. Each reader answers a view exactly where a text is of its form, else the first fault of a
//! stated list; what is written reads back.
#![tactic(auto)]

pub mod ether;
pub mod geneve;
pub mod ip_udp;
pub mod octets;
pub mod outer;
pub mod vxlan;
