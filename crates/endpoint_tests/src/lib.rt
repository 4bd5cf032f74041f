//! Tests of what an endpoint is made of, over public names. There is nothing here but tests, and nothing stands on this crate. What
//! arrives in packets, what is sent in them, ports and their segments, and flood lists of a run are rows of `tests/run/rows.sh`,
//! since those need no proof.
//!
//! Headers: checksums, frames, addresses, IP, UDP and the headers of tunnels, the words for their values (`layer_values_tests`), and
//! the tunnels of segments (`underlay_tests`). Tables: `filter_db_tests` has calls of the tables of two segments and what both
//! bodies of their trait answer, `shared_tables_tests` 10,000 calls alike on both, `pool_tests` a segment that comes and goes a
//! thousand times, alike to a fresh one, while others learn; `many_ports_tests` 255 ports, with members on both sides of each 64,
//! and `flood_lists_tests` lists of up to 512 entries, and when they take room.
//!
//! What is expected comes from the standards, by hand, and from worked examples, never from a run: of a bridge from IEEE 802.1Q, 6.9
//! and 8.6 to 8.8; the addresses of IPv6 are those of RFC 5952. Where the fields of a header begin, in octets:
//!
//! - Ethernet (IEEE 802.3, 3.2): 0 destination, 6 source, 12 type: 0800 IPv4, 0806 ARP, 86DD IPv6.
//! - Tag (IEEE 802.1Q, 9.6), before the type: 0 type: 8100, or 88A8 a service tag; 2 control information: priority 3 bits, drop
//!   eligible 1 bit, VID 12 bits.
//! - IPv4 (RFC 791, 3.1): 0 version and length in words, 1 service, 2 total length, 4 identification, 6 flags and fragment
//!   offset, 8 time to live, 9 protocol: 17 UDP, 10 checksum, 12 source, 16 destination, 20 options.
//! - IPv6 (RFC 8200, 3): 0 version, class and flow label, 4 payload length, 6 next header: 17 UDP, 7 hop limit, 8 source, 24
//!   destination.
//! - UDP (RFC 768): 0 source port, 2 destination port: 4789 VXLAN, 6081 Geneve; 4 length, 6 checksum.
//! - VXLAN (RFC 7348, 5): 0 flags: 08 a VNI, 1 reserved, 4 VNI, 7 reserved.
//! - Geneve (RFC 8926, 3.4): 0 version 2 bits, and length of the options in words; 1 flags: 80 control, 40 critical options; 2
//!   protocol: 6558 Ethernet, 4 VNI, 7 reserved, 8 options.
//! - Option of Geneve (RFC 8926, 3.5): 0 class, 2 type: 80 and above critical, 3 length of the body in words, 4 body.
#![tactic(auto)]

#[cfg(test)]
mod tests;
