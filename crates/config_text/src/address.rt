//! The texts of addresses.
//!
//! IP addresses are read by the standard library's own types; their definition stands here in whole texts, and is proved to
//! be that library's grammar. An IPv6 text with a dot is refused first, since an IPv4 tail isn't taken.
ghost use Rattle.std.specs.Prelude.{◌≡◌};
ghost use Rattle.config_text.specs.Address.{addr_of, ip4_of, ip6_of, mac_of};

use crate::digit::HexPair;
use crate::parts::joined;
use std::net::{Ipv4Addr, Ipv6Addr};
use wire::ether::Mac;
use wire::ip_udp::Addr;

/// A MAC address: six pairs of hexadecimal digits of either case, joined by `:`. None for any other text.
#[tactic(auto, unfolding(crate::specs::Address::mac_of))]
pub fn mac_of(text: &str) -> Option<Mac>
    ensures { result ≡ mac_of text.now }
{
    match joined::<HexPair>(b':', text.as_bytes())?.as_slice() {
        [a, b, c, d, e, f] => Some(Mac([*a, *b, *c, *d, *e, *f])),
        _ => None,
    }
}

/// An IPv4 address: four decimals of 0 to 255 without leading zeros, joined by `.` (RFC 3986, 3.2.2). None for any
/// other text.
#[tactic(auto)]
pub fn ip4_of(text: &str) -> Option<[u8; 4]>
    ensures { result ≡ ip4_of text.now }
{
    let addr = text.parse::<Ipv4Addr>().ok()?;
    Some(addr.octets())
}

/// An IPv6 address: eight groups of one to four hexadecimal digits of either case, joined by `:`; or at most seven,
/// with one `::` in place of those that are missing (RFC 4291, 2.2, forms 1 and 2). None for any other text, as one
/// with an IPv4 tail, a zone or a prefix length.
#[tactic(auto)]
pub fn ip6_of(text: &str) -> Option<[u8; 16]>
    ensures { result ≡ ip6_of text.now }
{
    // Else an IPv4 address could stand for the last two groups.
    if text.as_bytes().contains(&b'.') {
        return None;
    }
    let addr = text.parse::<Ipv6Addr>().ok()?;
    Some(addr.octets())
}

/// An address of either family. None for a text that is neither.
#[tactic(auto, unfolding(crate::specs::Address::addr_of))]
pub fn addr_of(text: &str) -> Option<Addr>
    ensures { result ≡ addr_of text.now }
{
    match ip4_of(text) {
        Some(octets) => Some(Addr::V4(octets)),
        None => Some(Addr::V6(ip6_of(text)?)),
    }
}
