//! The line of an entry.
ghost use Rattle.std.specs.Prelude.{◌≡◌, ◌∷◌, ◌++◌, ◌<◌, OnOk, decimal, string_bytes};
ghost use Rattle.endpoint_core.specs.Text.{hex_octet, place_text};
ghost use Rattle.table_lines.specs.Lines.{entry_line, mac_text, nine_digits, seen_text, age_text};

use endpoint_core::{put_hex, put_place};
use filter_db::{Entry, Place};
use std::alloc::AllocError;
use wire::ether::{Mac, Vid};

/// Nanoseconds in a second.
const SECOND: u64 = 1_000_000_000;

/// Puts the line of an entry at a moment. The kind of a remote's tunnel is told where the segment has two.
#[tactic(auto, unfolding(crate::specs::Lines::entry_line))]
pub fn put_line(
    text: &mut String,
    two_tunnels: bool,
    now: u64,
    vid: Vid,
    mac: Mac,
    entry: Entry,
) -> Result<(), AllocError>
    ensures { OnOk result (string_bytes text.new ≡ string_bytes text.old ++ entry_line two_tunnels now vid (mac, entry)) }
{
    text.push_str("segment ")?;
    put_number(text, u64::from(vid.get()))?;
    text.push(' ')?;
    put_mac(text, mac)?;
    text.push(' ')?;
    put_standing(text, two_tunnels, entry.place)?;
    text.push(' ')?;
    put_seen(text, now, entry.last)?;
    text.push('\n')
}

/// Puts a number in decimal digits.
fn put_number(text: &mut String, number: u64) -> Result<(), AllocError>
    ensures { OnOk result (string_bytes text.new ≡ string_bytes text.old ++ decimal number) }
{
    text.push_str(itoa::Buffer::new().format(number))
}

/// Puts a place as [`put_place`] does, a local port with less to do.
fn put_standing(text: &mut String, two_tunnels: bool, place: Place) -> Result<(), AllocError>
    ensures { OnOk result (string_bytes text.new ≡ string_bytes text.old ++ place_text two_tunnels place) }
{
    match place {
        Place::Local(port) => {
            text.push('p')?;
            put_number(text, u64::from(port))
        }
        Place::Remote(..) => put_place(text, two_tunnels, place),
    }
}

/// Puts an address: six pairs of hexadecimal digits between colons.
fn put_mac(text: &mut String, mac: Mac) -> Result<(), AllocError>
    ensures { OnOk result (string_bytes text.new ≡ string_bytes text.old ++ mac_text mac) }
{
    let [a, b, c, d, e, f] = mac.0;
    put_hex(text, a)?;
    put_behind_colon(text, b)?;
    put_behind_colon(text, c)?;
    put_behind_colon(text, d)?;
    put_behind_colon(text, e)?;
    put_behind_colon(text, f)
}

fn put_behind_colon(text: &mut String, octet: u8) -> Result<(), AllocError>
    ensures { OnOk result (string_bytes text.new ≡ string_bytes text.old ++ 58 ∷ hex_octet octet) }
{
    text.push(':')?;
    put_hex(text, octet)
}

/// Puts when the station of an entry was last seen, and its age at a moment; or that the entry is fixed.
#[tactic(auto, unfolding(crate::specs::Lines::seen_text))]
fn put_seen(text: &mut String, now: u64, last: Option<u64>) -> Result<(), AllocError>
    ensures { OnOk result (string_bytes text.new ≡ string_bytes text.old ++ seen_text now last) }
{
    match last {
        None => text.push_str("fixed"),
        Some(last) => {
            text.push_str("seen ")?;
            put_number(text, last)?;
            text.push_str(" age ")?;
            put_age(text, now.saturating_sub(last))
        }
    }
}

/// Puts nanoseconds as seconds with nine decimals.
#[tactic(auto, unfolding(crate::specs::Lines::age_text))]
fn put_age(text: &mut String, age: u64) -> Result<(), AllocError>
    ensures { OnOk result (string_bytes text.new ≡ string_bytes text.old ++ age_text age) }
{
    put_number(text, age / SECOND)?;
    text.push('.')?;
    put_nine(text, age % SECOND)
}

/// Puts a number in nine decimal digits.
fn put_nine(text: &mut String, number: u64) -> Result<(), AllocError>
    requires { number < 1000000000 }
    ensures { OnOk result (string_bytes text.new ≡ string_bytes text.old ++ nine_digits number) }
{
    let mut buffer = itoa::Buffer::new();
    let digits = buffer.format(number);
    for _zero in digits.len()..9 {
        text.push('0')?;
    }
    text.push_str(digits)
}
