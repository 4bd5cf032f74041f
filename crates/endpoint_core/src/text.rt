//! The texts of decisions.
ghost use Rattle.std.specs.Prelude.{◌≡◌, ◌<◌, ◌++◌, ◌∷◌, [], map, IfOk, OnOk, string_bytes};
ghost use Rattle.endpoint_core.specs.Decision.{octets_of, sent_of};
ghost use Rattle.endpoint_core.specs.Text.{result_of, outcomes_text, outcome_text, place_text, kind_text, addr_text, sent_text};
ghost use Rattle.endpoint_core.specs.Text.{ip4_text, ip6_text, hex_digit, hex_octet};
ghost use Rattle.encapsulate.specs.Remote.{texts};

use crate::{Decision, Outcome};
use encapsulate::Emission;
use filter_db::Place;
use std::alloc::{AllocError, Global};
use std::fmt::Write;
use wire::ether::Reason;
use wire::ip_udp::{Addr, Tunnel};

/// What was decided, as decision lines have it: `drop`, the number and the name of the reason; or each outcome, with one
/// space between two. `AllocError`: there was no room for the text.
pub fn result_text(alloc: Global, decision: &Decision) -> Result<Vec<u8>, AllocError>
    ensures { IfOk result (λ text. text.items ≡ result_of (octets_of decision.now)) }
{
    let mut text = String::new(alloc);
    match decision.dropped() {
        Some(reason) => {
            let number = reason.number();
            let name = reason.name();
            write!(text, "drop {number} {name}")?;
        }
        None => put_outcomes(&mut text, decision.has_two_tunnels(), decision.outcomes())?,
    }
    Ok(text.into_bytes())
}

/// Puts the outcomes, with one space between two.
fn put_outcomes(
    text: &mut String,
    two_tunnels: bool,
    outcomes: &[Outcome],
) -> Result<(), AllocError>
    ensures { OnOk result (string_bytes text.new ≡ string_bytes text.old ++ outcomes_text two_tunnels (map sent_of outcomes.now)) }
{
    let mut parted = false;
    for outcome in outcomes {
        if parted {
            text.push(' ')?;
        }
        put_outcome(text, two_tunnels, outcome)?;
        parted = true;
    }
    Ok(())
}

/// Puts one outcome: the place, and the number of octets sent there or the name of the reason why none were.
fn put_outcome(text: &mut String, two_tunnels: bool, outcome: &Outcome) -> Result<(), AllocError>
    ensures { OnOk result (string_bytes text.new ≡ string_bytes text.old ++ outcome_text two_tunnels (sent_of outcome.now)) }
{
    put_place(text, two_tunnels, outcome.place)?;
    put_sent(text, &outcome.sent)
}

/// Puts a place: the number of a local port, or the address of a remote endpoint, behind the kind of its tunnel where
/// the segment has two. `AllocError`: there was no room for it.
pub fn put_place(text: &mut String, two_tunnels: bool, place: Place) -> Result<(), AllocError>
    ensures { OnOk result (string_bytes text.new ≡ string_bytes text.old ++ place_text two_tunnels place) }
{
    match place {
        Place::Local(port) => write!(text, "p{port}"),
        Place::Remote(kind, addr) => {
            if two_tunnels {
                put_kind(text, kind)?;
            }
            put_addr(text, addr)
        }
    }
}

fn put_kind(text: &mut String, kind: Tunnel) -> Result<(), AllocError>
    ensures { OnOk result (string_bytes text.new ≡ string_bytes text.old ++ kind_text kind) }
{
    match kind {
        Tunnel::Vxlan => text.push_str("vxlan:"),
        Tunnel::Geneve => text.push_str("geneve:"),
    }
}

fn put_sent(text: &mut String, sent: &Result<Emission, Reason>) -> Result<(), AllocError>
    ensures { OnOk result (string_bytes text.new ≡ string_bytes text.old ++ sent_text (texts sent.now)) }
{
    match sent {
        Ok(emission) => {
            let len = emission.len();
            write!(text, "={len}")
        }
        Err(reason) => {
            let name = reason.name();
            write!(text, "!{name}")
        }
    }
}

/// Puts an address: four decimals, or eight groups of four hexadecimal digits. `AllocError`: there was no room for it.
pub fn put_addr(text: &mut String, addr: Addr) -> Result<(), AllocError>
    ensures { OnOk result (string_bytes text.new ≡ string_bytes text.old ++ addr_text addr) }
{
    match addr {
        Addr::V4(octets) => put_ip4(text, octets),
        Addr::V6(octets) => put_ip6(text, &octets),
    }
}

fn put_ip4(text: &mut String, octets: [u8; 4]) -> Result<(), AllocError>
    ensures { OnOk result (string_bytes text.new ≡ string_bytes text.old ++ ip4_text octets) }
{
    let (a, b, c, d) = (octets[0], octets[1], octets[2], octets[3]);
    write!(text, "{a}.{b}.{c}.{d}")
}

fn put_ip6(text: &mut String, octets: &[u8]) -> Result<(), AllocError>
    ensures { OnOk result (string_bytes text.new ≡ string_bytes text.old ++ ip6_text octets.now) }
{
    let mut rest = octets;
    let mut parted = false;
    while let [a, b, behind @ ..] = rest {
        if parted {
            text.push(':')?;
        }
        put_group(text, *a, *b)?;
        parted = true;
        rest = behind;
    }
    Ok(())
}

/// Puts two octets, two hexadecimal digits each.
fn put_group(text: &mut String, a: u8, b: u8) -> Result<(), AllocError>
    ensures { OnOk result (string_bytes text.new ≡ string_bytes text.old ++ hex_octet a ++ hex_octet b) }
{
    put_hex(text, a)?;
    put_hex(text, b)
}

/// Puts an octet in two hexadecimal digits. `AllocError`: there was no room for it.
pub fn put_hex(text: &mut String, octet: u8) -> Result<(), AllocError>
    ensures { OnOk result (string_bytes text.new ≡ string_bytes text.old ++ hex_octet octet) }
{
    text.push(hex_digit(octet / 16))?;
    text.push(hex_digit(octet % 16))
}

/// A hexadecimal digit.
fn hex_digit(digit: u8) -> char
    requires { digit < 16 }
    ensures value { result ≡ hex_digit digit }
    ensures ascii { result < 128 }
{
    char::from(if digit < 10 {
        b'0' + digit
    } else {
        b'a' + (digit - 10)
    })
}
