//! Texts put behind what stands in a buffer. Where memory runs out some of a text may stand there.
ghost use Rattle.std.specs.Prelude.{◌≡◌, ◌∷◌, ◌/◌, ◌%◌, [], ◌<◌};
ghost use Rattle.std.specs.List.{list_all};
ghost use Rattle.std.specs.Char.{digit_char};
ghost use Rattle.json.specs.Print.{escape, escape_byte, escape_letter, quoted};
ghost use Rattle.json_lines.specs.Puts.{Puts, is_plain};

use std::alloc::AllocError;

/// Puts one octet.
#[inline]
pub(crate) fn put_octet(octet: u8, out: &mut Vec<u8>) -> Result<(), AllocError>
    ensures { Puts result out.old.items out.new.items (octet ∷ []) }
{
    out.push(octet)?;
    Ok(())
}

/// Puts a text.
#[inline]
pub(crate) fn put_text(text: &[u8], out: &mut Vec<u8>) -> Result<(), AllocError>
    ensures { Puts result out.old.items out.new.items text.now }
{
    out.extend_from_slice(text)
}

/// Puts a text as a JSON string.
pub(crate) fn put_quoted(text: &[u8], out: &mut Vec<u8>) -> Result<(), AllocError>
    ensures { Puts result out.old.items out.new.items (quoted text.now) }
{
    put_octet(b'"', out)?;
    put_escaped(text, out)?;
    put_octet(b'"', out)
}

/// Puts a text as it stands within a JSON string.
fn put_escaped(text: &[u8], out: &mut Vec<u8>) -> Result<(), AllocError>
    ensures { Puts result out.old.items out.new.items (escape text.now) }
{
    if is_plain_text(text) {
        return put_text(text, out);
    }
    let mut rest = text;
    while let [octet, behind @ ..] = rest {
        put_escape(*octet, out)?;
        rest = behind;
    }
    Ok(())
}

/// Whether a text stands for itself in a JSON string.
#[inline]
fn is_plain_text(text: &[u8]) -> bool
    ensures { result ≡ list_all is_plain text.now }
{
    text.iter().all(|octet| is_plain(*octet))
}

/// Whether an octet stands for itself in a JSON string.
#[inline]
fn is_plain(octet: u8) -> bool
    ensures { result ≡ is_plain octet }
{
    octet >= 32 && octet != b'"' && octet != b'\\'
}

/// Puts an octet as it stands within a JSON string.
fn put_escape(octet: u8, out: &mut Vec<u8>) -> Result<(), AllocError>
    ensures { Puts result out.old.items out.new.items (escape_byte octet) }
{
    let letter = letter_of(octet);
    if letter > 0 {
        put_text(&[b'\\', letter], out)
    } else if octet < 32 {
        put_control(octet, out)
    } else {
        put_octet(octet, out)
    }
}

/// Puts a control character by its number.
fn put_control(octet: u8, out: &mut Vec<u8>) -> Result<(), AllocError>
    ensures { Puts result out.old.items out.new.items
        (92 ∷ 117 ∷ 48 ∷ 48 ∷ digit_char (octet / 16) ∷ digit_char (octet % 16) ∷ []) }
{
    let high = digit(octet / 16);
    let low = digit(octet % 16);
    put_text(&[b'\\', b'u', b'0', b'0', high, low], out)
}

/// The letter of an octet's short escape, or 0 where it has none.
fn letter_of(octet: u8) -> u8
    ensures { result ≡ escape_letter octet }
{
    match octet {
        b'"' | b'\\' => octet,
        8 => b'b',
        12 => b'f',
        10 => b'n',
        13 => b'r',
        9 => b't',
        _ => 0,
    }
}

/// A hexadecimal digit.
fn digit(number: u8) -> u8
    requires { number < 16 }
    ensures { result ≡ digit_char number }
{
    if number < 10 {
        b'0' + number
    } else {
        b'a' - 10 + number
    }
}
