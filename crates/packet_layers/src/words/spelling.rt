//! Octets in hexadecimal, and addresses.
ghost use Rattle.std.specs.Prelude.{◌≡◌, ◌+◌, ◌++◌, ◌≤◌, OnOk, length, string_bytes};
ghost use Rattle.std.specs.List.{flat_map};
ghost use Rattle.wire.specs.Octets.{part};
ghost use Rattle.packet_layers.specs.Text.{hex_octet, hex_text, mac_text, ip4_text, ip6_text};

use std::alloc::AllocError;
use std::fmt::Write;
use std::net::{Ipv4Addr, Ipv6Addr};

/// Puts an octet in two hexadecimal digits.
fn put_octet(text: &mut String, octet: u8) -> Result<(), AllocError>
    ensures { OnOk result (string_bytes text.new ≡ string_bytes text.old ++ hex_octet octet) }
{
    write!(text, "{octet:02x}")
}

/// Puts octets in hexadecimal, as `0x0806`.
pub(crate) fn put_hex(text: &mut String, octets: &[u8]) -> Result<(), AllocError>
    ensures { OnOk result (string_bytes text.new ≡ string_bytes text.old ++ hex_text octets.now) }
{
    text.push_str("0x")?;
    for octet in octets {
        put_octet(text, *octet)?;
    }
    Ok(())
}

/// Puts a MAC address, as `02:00:00:00:aa:01`.
pub(crate) fn put_mac(text: &mut String, mac: &[u8]) -> Result<(), AllocError>
    ensures { OnOk result (string_bytes text.new ≡ string_bytes text.old ++ mac_text mac.now) }
{
    if let [first, others @ ..] = mac {
        put_octet(text, *first)?;
        for octet in others {
            text.push(':')?;
            put_octet(text, *octet)?;
        }
    }
    Ok(())
}

/// Puts the IPv4 address that stands at a place.
pub(crate) fn put_ip4_at(text: &mut String, octets: &[u8], place: usize) -> Result<(), AllocError>
    requires { place + 4 ≤ length octets.now }
    ensures { OnOk result (string_bytes text.new ≡ string_bytes text.old ++ ip4_text (part place 4 octets.now)) }
{
    let address = Ipv4Addr::from_octets(array_at(octets, place));
    write!(text, "{address}")
}

/// Puts the IPv6 address that stands at a place.
pub(crate) fn put_ip6_at(text: &mut String, octets: &[u8], place: usize) -> Result<(), AllocError>
    requires { place + 16 ≤ length octets.now }
    ensures { OnOk result (string_bytes text.new ≡ string_bytes text.old ++ ip6_text (part place 16 octets.now)) }
{
    let address = Ipv6Addr::from_octets(array_at(octets, place));
    write!(text, "{address}")
}

/// The `N` octets that stand at a place.
pub(crate) fn array_at<const N: usize>(octets: &[u8], place: usize) -> [u8; N]
    requires { place + N ≤ length octets.now }
    ensures { result ≡ part place N octets.now }
{
    let mut found = [0; N];
    found.copy_from_slice(&octets[place..place + N]);
    found
}
