//! The Internet checksum (RFC 1071) of IPv4 headers (RFC 791, 3.1) and of UDP datagrams over IPv4 (RFC 768) and IPv6
//! (RFC 8200, 8.1).
//!
//! Use first: [`ip4_sum`], [`udp4_sum`] and [`udp6_sum`] answer the checksums to send. A text is summed part by part: [`words`]
//! sums one, [`add_words`] adds one to a sum, [`fold`] folds a sum to 16 bits, [`folded`] answers a long text's folded sum at
//! once, and [`sent_sum`] the checksum that UDP sends for a sum. The module knows no layout of a header but where IPv4 keeps
//! its checksum.
//!
//! Specs to read: `specs/Octets`, then `specs/Sum`; `specs/SumLaws` for what a folded sum is.
//!
//! Proved: each of these functions equals its definition. Folding adds the carries until there are none, and a text with its
//! checksum put in sums up to all ones (`laws::folding`).
//!
//! Proved besides:
//! - The sum of words, its folding, and the checksums of IPv4 headers and of UDP datagrams over IPv4 and IPv6 equal
//!   their definitions: `words`, `add_words`, `fold`, `folded`, `sent_sum`, `ip4_sum`, `udp4_sum`, `udp6_sum`.
//!
//! Why it is so: `specs/Octets` has the words on texts of octets (`octet`, `field`, `part`, `begins`) beside the checksum,
//! since this is the lowest module and every wire format is stated in them.

mod datagram;
mod ip4;
mod ip6;
pub mod laws;
mod sum;

pub use datagram::UDP;
pub use ip4::{ip4_sum, udp4_sum};
pub use ip6::udp6_sum;
pub use sum::{add_words, fold, folded, sent_sum, words};
