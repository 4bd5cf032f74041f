//! The values of headers.
ghost use Rattle.std.specs.Prelude.{◌≡◌, ◌≤◌, ◌++◌, OnOk, length, string_bytes};
ghost use Rattle.packet_layers.specs.Values.{values_of, least, ether_values, tag_values, kind_values};
ghost use Rattle.packet_layers.specs.Values.{fragment_values, ip4_ends, ip4_fields, ip4_values, ip6_ends};
ghost use Rattle.packet_layers.specs.Values.{ip6_fields, ip6_values, udp_values, vxlan_values, geneve_values};

use crate::HeadKind;
use crate::words::spelling::{put_hex, put_ip4_at, put_ip6_at, put_mac};
use byteorder::{BigEndian, ByteOrder};
use std::alloc::AllocError;
use std::fmt::Write;

/// How many fragment offsets there are: the offset has 13 bits, and More Fragments is the bit above them.
pub(crate) const OFFSETS: u16 = 8192;

/// Puts the values of a header of a kind behind a text, each word behind one space; nothing where the header is cut.
///
/// - `ether`: the source address, `>` and the destination address.
/// - `tag`: its type, `vid`, `pcp` and `dei` (IEEE 802.1Q, 9.6).
/// - `type`: the type.
/// - `ip4`: the source address, `>`, the destination address, `ttl`, `length` (of header and payload) and `protocol`; of
///   a fragment also `offset`, in octets, and `more` (RFC 791, 3.1).
/// - `ip6`: the addresses, `hop-limit`, `length` (of the payload) and `next-header` (RFC 8200, 3).
/// - `udp`: the source port, `>`, the destination port, `length` (of header and data) and `checksum` (RFC 768).
/// - `vxlan`: `vni` (RFC 7348, 5).
/// - `geneve`: `vni`, and the length of the `options` (RFC 8926, 3.4).
///
/// MAC addresses, types and checksums are in hexadecimal, IPv6 addresses as RFC 5952 has them, other numbers in decimal.
/// Lengths are in octets. `AllocError`: there was no room for the text.
pub fn put_values(text: &mut String, kind: HeadKind, octets: &[u8]) -> Result<(), AllocError>
    ensures { OnOk result (string_bytes text.new ≡ string_bytes text.old ++ values_of kind octets.now) }
{
    if octets.len() < least(kind) {
        return Ok(());
    }
    match kind {
        HeadKind::Ether => put_ether(text, octets),
        HeadKind::Tag => put_tag(text, octets),
        HeadKind::Kind => put_kind(text, octets),
        HeadKind::Ip4 => put_ip4(text, octets),
        HeadKind::Ip6 => put_ip6(text, octets),
        HeadKind::Udp => put_udp(text, octets),
        HeadKind::Vxlan => put_vxlan(text, octets),
        HeadKind::Geneve => put_geneve(text, octets),
    }
}

/// The octets that the values of a kind stand in.
pub(crate) fn least(kind: HeadKind) -> usize
    ensures { result ≡ least kind }
{
    match kind {
        HeadKind::Ether => 12,
        HeadKind::Tag => 4,
        HeadKind::Kind => 2,
        HeadKind::Ip4 => 20,
        HeadKind::Ip6 => 40,
        HeadKind::Udp | HeadKind::Vxlan | HeadKind::Geneve => 8,
    }
}

fn put_ether(text: &mut String, head: &[u8]) -> Result<(), AllocError>
    requires { 12 ≤ length head.now }
    ensures { OnOk result (string_bytes text.new ≡ string_bytes text.old ++ ether_values head.now) }
{
    text.push(' ')?;
    put_mac(text, &head[6..12])?;
    text.push_str(" > ")?;
    put_mac(text, &head[..6])
}

fn put_tag(text: &mut String, head: &[u8]) -> Result<(), AllocError>
    requires { 4 ≤ length head.now }
    ensures { OnOk result (string_bytes text.new ≡ string_bytes text.old ++ tag_values head.now) }
{
    let control = BigEndian::read_u16(&head[2..]);
    let vid = control % 4096;
    let dei = control / 4096 % 2;
    let pcp = control / 8192;
    text.push(' ')?;
    put_hex(text, &head[..2])?;
    write!(text, " vid {vid} pcp {pcp} dei {dei}")
}

fn put_kind(text: &mut String, head: &[u8]) -> Result<(), AllocError>
    requires { 2 ≤ length head.now }
    ensures { OnOk result (string_bytes text.new ≡ string_bytes text.old ++ kind_values head.now) }
{
    text.push(' ')?;
    put_hex(text, &head[..2])
}

fn put_ip4(text: &mut String, head: &[u8]) -> Result<(), AllocError>
    requires { 20 ≤ length head.now }
    ensures { OnOk result (string_bytes text.new ≡ string_bytes text.old ++ ip4_values head.now) }
{
    put_ip4_ends(text, head)?;
    put_ip4_fields(text, head)
}

/// Puts from whom to whom, and the time to live.
fn put_ip4_ends(text: &mut String, head: &[u8]) -> Result<(), AllocError>
    requires { 20 ≤ length head.now }
    ensures { OnOk result (string_bytes text.new ≡ string_bytes text.old ++ ip4_ends head.now) }
{
    text.push(' ')?;
    put_ip4_at(text, head, 12)?;
    text.push_str(" > ")?;
    put_ip4_at(text, head, 16)?;
    let ttl = head[8];
    write!(text, " ttl {ttl}")
}

/// Puts the length and the protocol, and of a fragment where it belongs.
fn put_ip4_fields(text: &mut String, head: &[u8]) -> Result<(), AllocError>
    requires { 20 ≤ length head.now }
    ensures { OnOk result (string_bytes text.new ≡ string_bytes text.old ++ ip4_fields head.now) }
{
    let length = BigEndian::read_u16(&head[2..]);
    let protocol = head[9];
    write!(text, " length {length} protocol {protocol}")?;
    put_fragment(text, head)
}

/// Puts where a fragment belongs; nothing of a whole packet.
fn put_fragment(text: &mut String, head: &[u8]) -> Result<(), AllocError>
    requires { 20 ≤ length head.now }
    ensures { OnOk result (string_bytes text.new ≡ string_bytes text.old ++ fragment_values head.now) }
{
    let flags_and_offset = BigEndian::read_u16(&head[6..]);
    let more = flags_and_offset / OFFSETS % 2;
    let offset = flags_and_offset % OFFSETS;
    if more == 0 && offset == 0 {
        return Ok(());
    }
    let offset = offset * 8;
    write!(text, " offset {offset} more {more}")
}

fn put_ip6(text: &mut String, head: &[u8]) -> Result<(), AllocError>
    requires { 40 ≤ length head.now }
    ensures { OnOk result (string_bytes text.new ≡ string_bytes text.old ++ ip6_values head.now) }
{
    put_ip6_ends(text, head)?;
    put_ip6_fields(text, head)
}

/// Puts from whom to whom, and the hop limit.
fn put_ip6_ends(text: &mut String, head: &[u8]) -> Result<(), AllocError>
    requires { 40 ≤ length head.now }
    ensures { OnOk result (string_bytes text.new ≡ string_bytes text.old ++ ip6_ends head.now) }
{
    text.push(' ')?;
    put_ip6_at(text, head, 8)?;
    text.push_str(" > ")?;
    put_ip6_at(text, head, 24)?;
    let hop_limit = head[7];
    write!(text, " hop-limit {hop_limit}")
}

/// Puts the length and the next header.
fn put_ip6_fields(text: &mut String, head: &[u8]) -> Result<(), AllocError>
    requires { 40 ≤ length head.now }
    ensures { OnOk result (string_bytes text.new ≡ string_bytes text.old ++ ip6_fields head.now) }
{
    let length = BigEndian::read_u16(&head[4..]);
    let next_header = head[6];
    write!(text, " length {length} next-header {next_header}")
}

fn put_udp(text: &mut String, head: &[u8]) -> Result<(), AllocError>
    requires { 8 ≤ length head.now }
    ensures { OnOk result (string_bytes text.new ≡ string_bytes text.old ++ udp_values head.now) }
{
    let source = BigEndian::read_u16(head);
    let destination = BigEndian::read_u16(&head[2..]);
    let length = BigEndian::read_u16(&head[4..]);
    write!(text, " {source} > {destination} length {length} checksum ")?;
    put_hex(text, &head[6..8])
}

fn put_vxlan(text: &mut String, head: &[u8]) -> Result<(), AllocError>
    requires { 8 ≤ length head.now }
    ensures { OnOk result (string_bytes text.new ≡ string_bytes text.old ++ vxlan_values head.now) }
{
    let vni = BigEndian::read_u24(&head[4..]);
    write!(text, " vni {vni}")
}

fn put_geneve(text: &mut String, head: &[u8]) -> Result<(), AllocError>
    requires { 8 ≤ length head.now }
    ensures { OnOk result (string_bytes text.new ≡ string_bytes text.old ++ geneve_values head.now) }
{
    let vni = BigEndian::read_u24(&head[4..]);
    let options = 4 * (head[0] % 64);
    write!(text, " vni {vni} options {options}")
}
