//! The text of all that is told.
ghost use Rattle.std.specs.Prelude.{◌≡◌, ◌++◌, ◌∷◌, [], map, take, Some, option_map, decimal, codes, IfOk, OnOk};
ghost use Rattle.std.specs.List.{flat_map};
ghost use Rattle.text_advice.specs.Split.{split};
ghost use Rattle.text_advice.specs.Told.{told_of};
ghost use Rattle.text_advice.specs.Advice.{fault_words, shown, place_text, head_line, told_line, part};
ghost use Rattle.text_advice.specs.Advice.{end_of, found_line, key_words, keys_line, told_lines};
ghost use Rattle.text_advice.specs.Advice.{syntax_of, line_numbered, syntax_advice, key_advice, advice};

use crate::known::TextKind;
use crate::place::{Place, place_behind};
use crate::split::split;
use crate::syntax::SyntaxError;
use crate::told::{Findings, told};
use config_text::SettingsFault;
use std::alloc::{AllocError, Global};

/// The words of a fault: its name, with a space behind where a path follows, and the path.
fn fault_words(fault: &SettingsFault) -> (&'static str, &str)
    ensures { (result.0.now, result.1.now) ≡ fault_words fault.now }
{
    match fault {
        SettingsFault::NotToml => ("NotToml", ""),
        SettingsFault::Missing(key) => ("Missing ", key.as_str()),
        SettingsFault::BadValue(key) => ("BadValue ", key.as_str()),
        SettingsFault::TwoSegments(key) => ("TwoSegments ", key.as_str()),
        SettingsFault::NotRising(key) => ("NotRising ", key.as_str()),
        SettingsFault::OverLimit(key) => ("OverLimit ", key.as_str()),
        SettingsFault::OutOfMemory => ("OutOfMemory", ""),
    }
}

/// A character as a terminal can show it: a blank as a space, and what isn't printable ASCII as a question mark.
fn shown(c: u8) -> u8
    ensures { result ≡ shown c }
{
    if 32 <= c && c <= 126 {
        c
    } else if c == b'\t' || c == b'\r' {
        b' '
    } else {
        b'?'
    }
}

fn put_number(text: &mut Vec<u8>, number: usize) -> Result<(), AllocError>
    ensures { OnOk result (text.new.items ≡ text.old.items ++ decimal number) }
{
    let mut buffer = itoa::Buffer::new();
    text.extend_from_slice(buffer.format(number).as_bytes())
}

fn put_place(text: &mut Vec<u8>, place: Option<Place>) -> Result<(), AllocError>
    ensures { OnOk result (text.new.items ≡ text.old.items ++ place_text place) }
{
    match place {
        None => Ok(()),
        Some(place) => {
            text.push(b':')?;
            put_number(text, place.line)?;
            text.push(b':')?;
            put_number(text, place.column)
        }
    }
}

/// The line of a fault.
fn head_line(
    alloc: Global,
    name: &str,
    place: Option<Place>,
    word: &str,
    path: &str,
) -> Result<Vec<u8>, AllocError>
    ensures { IfOk result (λ v. v.items ≡ head_line name.now place (word.now, path.now)) }
{
    let mut text = Vec::new(alloc);
    text.extend_from_slice(name.as_bytes())?;
    put_place(&mut text, place)?;
    text.extend_from_slice(b": ")?;
    text.extend_from_slice(word.as_bytes())?;
    text.extend_from_slice(path.as_bytes())?;
    text.push(b'\n')?;
    Ok(text)
}

fn put_shown(text: &mut Vec<u8>, found: &[u8]) -> Result<(), AllocError>
    ensures { OnOk result (text.new.items ≡ text.old.items ++ map shown found.now) }
{
    for c in found {
        text.push(shown(*c))?;
    }
    Ok(())
}

/// A line that tells one thing.
#[tactic(auto, using(crate::proofs::Texts::three_parts))]
fn put_line(text: &mut Vec<u8>, label: &str, body: &[u8], end: &str) -> Result<(), AllocError>
    ensures { OnOk result (text.new.items ≡ text.old.items ++ told_line label.now body.now end.now) }
{
    text.extend_from_slice(label.as_bytes())?;
    put_shown(text, body)?;
    text.extend_from_slice(end.as_bytes())
}

/// A line that tells one thing, where it is known.
fn put_part(text: &mut Vec<u8>, label: &str, body: Option<&str>) -> Result<(), AllocError>
    ensures { OnOk result (text.new.items ≡ text.old.items ++ part label.now (option_map (λ b. b.now) body.entry)) }
{
    match body {
        None => Ok(()),
        Some(body) => put_line(text, label, body.as_bytes(), "\n"),
    }
}

/// At most so many octets of a text.
fn front_of(text: &[u8], most: usize) -> &[u8]
    ensures { result.now ≡ take most text.now }
{
    if most < text.len() {
        &text[..most]
    } else {
        text
    }
}

/// How a line ends of which 60 octets are shown.
fn end_of(text: &[u8]) -> &'static str
    ensures { result.now ≡ end_of text.now }
{
    if text.len() <= 60 { "\n" } else { " ...\n" }
}

/// What was found, of which at most 60 octets are shown.
fn put_found(text: &mut Vec<u8>, found: Option<&[u8]>) -> Result<(), AllocError>
    ensures { OnOk result (text.new.items ≡ text.old.items ++ found_line (option_map (λ f. f.now) found.entry)) }
{
    match found {
        None => Ok(()),
        Some(found) => put_line(text, "  found: ", front_of(found, 60), end_of(found)),
    }
}

fn put_key_words(text: &mut Vec<u8>, keys: &[&str]) -> Result<(), AllocError>
    ensures { OnOk result (text.new.items ≡ text.old.items ++ key_words (map (λ k. k.now) keys.now)) }
{
    for key in keys {
        text.push(b' ')?;
        text.extend_from_slice(key.as_bytes())?;
    }
    Ok(())
}

fn put_keys(text: &mut Vec<u8>, keys: &[&str]) -> Result<(), AllocError>
    ensures { OnOk result (text.new.items ≡ text.old.items ++ keys_line (map (λ k. k.now) keys.now)) }
{
    if keys.is_empty() {
        return Ok(());
    }
    text.extend_from_slice(b"  keys:")?;
    put_key_words(text, keys)?;
    text.extend_from_slice(b"\n")
}

/// The lines below that of the fault.
fn put_told(text: &mut Vec<u8>, told: &Findings) -> Result<(), AllocError>
    ensures { OnOk result (text.new.items ≡ text.old.items ++ told_lines (told_of told.now)) }
{
    put_found(text, told.found)?;
    put_part(text, "  did you mean: ", told.near)?;
    put_keys(text, told.keys)?;
    put_part(text, "  allowed: ", told.allowed)
}

/// The line of a number from 1.
fn line_numbered<'a>(number: usize, lines: &[&'a [u8]]) -> &'a [u8]
    ensures { result.now ≡ line_numbered number (map (λ l. l.now) lines.now) }
{
    match lines.get(number.saturating_sub(1)) {
        Some(line) => line,
        None => &[],
    }
}

/// What is told of a text that is no TOML.
fn syntax_lines(
    alloc: Global,
    name: &str,
    text: &[u8],
    word: &str,
    error: &SyntaxError,
) -> Result<Vec<u8>, AllocError>
    ensures { IfOk result (λ v. v.items ≡ syntax_advice name.now text.now word.now (Some (syntax_of error.now))) }
{
    let place = place_behind(text, error.before);
    let lines = split(alloc, b'\n', text)?;
    let mut advice = head_line(alloc, name, Some(place), word, "")?;
    put_found(
        &mut advice,
        Some(line_numbered(place.line, lines.as_slice())),
    )?;
    put_part(&mut advice, "  reason: ", Some(error.reason.as_str()))?;
    Ok(advice)
}

/// What is told of a fault that has no path.
fn syntax_advice(
    alloc: Global,
    name: &str,
    text: &[u8],
    word: &str,
    at: Option<&SyntaxError>,
) -> Result<Vec<u8>, AllocError>
    ensures { IfOk result (λ v. v.items ≡ syntax_advice name.now text.now word.now (option_map (λ e. syntax_of e.now) at.entry)) }
{
    match at {
        Some(error) => syntax_lines(alloc, name, text, word, error),
        None => head_line(alloc, name, None, word, ""),
    }
}

/// What is told of a fault that has a path.
fn key_advice(
    alloc: Global,
    kind: TextKind,
    name: &str,
    text: &[u8],
    word: &str,
    path: &str,
) -> Result<Vec<u8>, AllocError>
    ensures { IfOk result (λ v. v.items ≡ key_advice kind name.now text.now (word.now, path.now)) }
{
    let lines = split(alloc, b'\n', text)?;
    let told = told(
        alloc,
        kind,
        lines.as_slice(),
        path.as_bytes(),
        word.as_bytes(),
    )?;
    let mut advice = head_line(alloc, name, told.place, word, path)?;
    put_told(&mut advice, &told)?;
    Ok(advice)
}

/// Why a text was refused, and where: a line `NAME:LINE:COLUMN: FAULT`, and below it, each where it can be had, what was found
/// there, the key that was meant, the keys of its table, and what is allowed. Line and column count from 1, and the column counts
/// octets. Where the place can't be had the first line is `NAME: FAULT`.
///
/// The fault is the text's own, as `settings_of` or `changes_of` answers it. `at` is what
/// [`syntax_error_at`](crate::syntax_error_at) answers; it is looked at where the fault has no path, which is `NotToml`, and
/// then its line and its reason are told. `AllocError`: memory was refused.
pub fn advice(
    alloc: Global,
    kind: TextKind,
    name: &str,
    text: &[u8],
    fault: &SettingsFault,
    at: Option<&SyntaxError>,
) -> Result<Vec<u8>, AllocError>
    ensures { IfOk result (λ v. v.items
        ≡ advice kind name.now text.now (fault_words fault.now) (option_map (λ e. syntax_of e.now) at.entry)) }
{
    let (word, path) = fault_words(fault);
    if path.is_empty() {
        syntax_advice(alloc, name, text, word, at)
    } else {
        key_advice(alloc, kind, name, text, word, path)
    }
}
