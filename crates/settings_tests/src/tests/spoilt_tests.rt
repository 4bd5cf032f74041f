//! Good texts that are cut at every length, or have one octet in place of another.
use crate::tests::reading::{Kind, said_of};
use std::alloc::{AllocError, Global};
use std::test::Fail;
use test_inputs::settings::ENDPOINT;

/// Three changes, a key to each line as in the settings.
const CHANGES: &str = r#"[[change]]
kind = "fix"
at = 5
vid = 10
mac = "02:00:00:00:00:01"
remote = "192.0.2.2"
[[change]]
kind = "set_ageing"
at = 6
vid = 20
seconds = 10
[[change]]
kind = "flush"
at = 4294967295999999999
vid = 10
"#;

/// Good texts.
const TEXTS: [(Kind, &str); 2] = [(Kind::Settings, ENDPOINT), (Kind::Changes, CHANGES)];

/// Whether a line that was cut is still TOML, where a line is the name of a table in brackets, or a key and a number, a
/// string or a list: it is empty, or its value or its brackets are whole.
fn is_toml(line: &str) -> bool {
    if line.starts_with("[[") {
        return line.ends_with("]]");
    }
    if line.starts_with('[') {
        return line.ends_with(']');
    }
    let Some((_key, value)) = line.split_once(" = ") else {
        return line.is_empty();
    };
    if value.starts_with('[') {
        return value.ends_with(']');
    }
    if value.starts_with('"') {
        return value.len() > 1 && value.ends_with('"');
    }
    !value.is_empty()
}

/// Whether a text of such lines is TOML.
fn is_toml_text(text: &str) -> bool {
    match text.rsplit_once('\n') {
        Some((_whole, line)) => is_toml(line),
        None => is_toml(text),
    }
}

/// How long the first front of a text is that isn't NotToml just where it isn't TOML; the whole length where there is none.
fn right_cuts(alloc: Global, kind: Kind, text: &str) -> Result<usize, AllocError> {
    for n in 0..text.len() {
        let cut = text.get(..n).unwrap_or_default();
        let said = said_of(alloc, kind, cut.as_bytes())?;
        let is_read = said.as_str() != "NotToml";
        if is_read != is_toml_text(cut) || said.as_str() == "OutOfMemory" {
            return Ok(n);
        }
    }
    Ok(text.len())
}

#[test]
fn a_text_is_cut_at_every_length(rt: HostRuntime) -> Result<(), Fail> {
    let alloc = rt.alloc();
    for (kind, text) in &TEXTS {
        let length = right_cuts(alloc, *kind, text)?;
        let said = said_of(alloc, *kind, text.as_bytes())?;
        assert_eq!(rt; length, text.len());
        assert_eq!(rt; said.as_str(), "ok");
    }
    Ok(())
}

/// Octets that stand nowhere in TOML but in comments, or nowhere at all.
const NOWHERE: [u8; 8] = [0x00, 0x01, 0x08, 0x0B, 0x1F, 0x7F, 0x80, 0xFF];

/// Octets that mean something in TOML, and may make another text.
const SOMEWHERE: [u8; 8] = [b'"', b'[', b']', b'=', b'\n', b'#', b'\\', b'0'];

/// A text with another octet in a place.
fn replaced(alloc: Global, text: &str, place: usize, other: u8) -> Result<Vec<u8>, AllocError> {
    let mut octets = Vec::from_slice(alloc, text.as_bytes())?;
    if let Some(octet) = octets.get_mut(place) {
        *octet = other;
    }
    Ok(octets)
}

/// Whether a text with another octet in a place is answered: as NotToml, for the half of them that stand nowhere.
fn is_right_at(alloc: Global, kind: Kind, text: &str, place: usize) -> Result<bool, AllocError> {
    for other in &NOWHERE {
        let said = said_of(alloc, kind, &replaced(alloc, text, place, *other)?)?;
        if said.as_str() != "NotToml" {
            return Ok(false);
        }
    }
    for other in &SOMEWHERE {
        let said = said_of(alloc, kind, &replaced(alloc, text, place, *other)?)?;
        if said.as_str() == "OutOfMemory" {
            return Ok(false);
        }
    }
    Ok(true)
}

/// Each octet in turn is replaced by each of 16 others.
#[test]
fn each_octet_is_replaced(rt: HostRuntime) -> Result<(), Fail> {
    let alloc = rt.alloc();
    for (kind, text) in &TEXTS {
        for place in 0..text.len() {
            let is_right = is_right_at(alloc, *kind, text, place)?;
            assert!(rt; is_right, "octet {place}");
        }
    }
    Ok(())
}
