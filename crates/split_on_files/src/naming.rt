//! The names of the files that a capture is split into.
use std::alloc::{AllocError, Global};
use std::fmt::Write;

/// How many octets of an interface's name stand in that of its file at most.
const MOST_OCTETS: usize = 64;

/// The name of the file of the interface with this number and this name: `ifNUMBER_NAME.pcap`, and `ifNUMBER.pcap` where it has
/// no name. Octets of the name that are no ASCII letter or digit, nor `-`, `.` or `_`, stand as `_`; at most 64 are taken.
pub fn file_name(alloc: Global, number: u32, name: &[u8]) -> Result<String, AllocError> {
    let mut text = String::new(alloc);
    write!(text, "if{number}")?;
    if !name.is_empty() {
        text.push('_')?;
    }
    for octet in name.iter().take(MOST_OCTETS) {
        text.push(safe_letter(*octet))?;
    }
    text.push_str(".pcap")?;
    Ok(text)
}

/// What stands for an octet in the name of a file.
fn safe_letter(octet: u8) -> char {
    match octet {
        b'a'..=b'z' | b'A'..=b'Z' | b'0'..=b'9' | b'-' | b'.' | b'_' => char::from(octet),
        _ => '_',
    }
}
