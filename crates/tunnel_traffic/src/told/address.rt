//! Addresses in a line.
ghost use Rattle.std.specs.Prelude.{◌≡◌, ◌<◌, ◌+◌, length};
ghost use Rattle.tunnel_traffic.specs.Address.{addr_of, hex_value, ip4_of, ip6_of, pair_at};

use line_words::{octet_of, split_at_first};
use wire::ip_udp::Addr;

/// How many characters eight groups and the colons between them have.
const GROUPS: usize = 39;

/// The address of a text: four decimals between points, or eight groups of four hexadecimal digits between colons. Whether it is
/// written as it has to be is seen where it is written again.
pub fn addr_of(text: &[u8]) -> Option<Addr>
    ensures { result ≡ addr_of text.now }
{
    if text.len() == GROUPS {
        Some(ip6_of(text))
    } else {
        ip4_of(text)
    }
}

/// The address of four decimals.
fn ip4_of(text: &[u8]) -> Option<Addr>
    ensures { result ≡ ip4_of text.now }
{
    let (first, behind) = split_at_first(b'.', text);
    let (second, behind) = split_at_first(b'.', behind);
    let (third, fourth) = split_at_first(b'.', behind);
    let a = octet_of(first)?;
    let b = octet_of(second)?;
    let c = octet_of(third)?;
    let d = octet_of(fourth)?;
    Some(Addr::V4([a, b, c, d]))
}

/// The address of eight groups.
fn ip6_of(text: &[u8]) -> Addr
    requires { length text.now ≡ 39 }
    ensures { result ≡ ip6_of text.now }
{
    Addr::V6([
        pair_at(0, text),
        pair_at(2, text),
        pair_at(5, text),
        pair_at(7, text),
        pair_at(10, text),
        pair_at(12, text),
        pair_at(15, text),
        pair_at(17, text),
        pair_at(20, text),
        pair_at(22, text),
        pair_at(25, text),
        pair_at(27, text),
        pair_at(30, text),
        pair_at(32, text),
        pair_at(35, text),
        pair_at(37, text),
    ])
}

/// The octet that two characters write, from this one on.
fn pair_at(at: usize, text: &[u8]) -> u8
    requires { at + 1 < length text.now }
    ensures { result ≡ pair_at at text.now }
{
    16 * hex_value(text[at]) + hex_value(text[at + 1])
}

/// What a character is worth, `0` to `9` and `a` to `f`.
fn hex_value(c: u8) -> u8
    ensures value { result ≡ hex_value c }
    ensures low { result < 16 }
{
    if c < b':' {
        c.saturating_sub(b'0') % 16
    } else {
        c.saturating_sub(b'W') % 16
    }
}
