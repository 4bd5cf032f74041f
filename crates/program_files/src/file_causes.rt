//! Files that a line gave up at, looked at once more.
use crate::faults::SystemFault;
use pcap::kind::{Head, peek};
use pcap::stream::StdInput;
use std::fs;
use std::io::{self, Read};
use std::rt::Files;

/// Why a file can't be read, as far as the system tells it. A pipe or a device isn't asked: it would hand out its octets, or
/// wait for them.
pub fn read_fault<R: Files>(rt: &R, path: &str) -> Option<SystemFault> {
    match read_again(rt, path) {
        Ok(()) => None,
        Err(error) => SystemFault::of(&error),
    }
}

/// Reads the first octet of a file or a folder.
fn read_again<R: Files>(rt: &R, path: &str) -> io::Result<()> {
    let found = fs::metadata(rt, path)?;
    if found.is_file() || found.is_dir() {
        let mut file = fs::open(rt, path)?;
        let mut octet = [0; 1];
        file.read(&mut octet)?;
    }
    Ok(())
}

/// The first octets of a regular file, where they can be read.
pub fn head_of_file<R: Files>(rt: &R, path: &str) -> Option<Head> {
    match fs::metadata(rt, path) {
        Ok(found) if found.is_file() => {}
        _ => return None,
    }
    let Ok(file) = fs::open(rt, path) else {
        return None;
    };
    match peek(StdInput::new(file)) {
        Ok((head, _)) => Some(head),
        Err(_) => None,
    }
}
