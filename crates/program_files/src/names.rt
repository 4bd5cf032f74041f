//! The names of what a run reads, and which files they are.
//!
//! Whether an output is one of the files that are read is told by device and inode, so that another name or a link is found
//! too. Devices are left out: to write into `/dev/null` takes nothing from who reads it.
use crate::apart::Apart;
use command_line::{STANDARD_INPUT, capture_name};
use std::alloc::AllocError;
use std::fmt;
use std::fs::{self, Metadata};
use std::os::unix::fs::{FileTypeExt, MetadataExt};
use std::path::Path;
use std::rt::Files;
use timeline::Tap;

/// The file that standard input is.
const STANDARD_INPUT_FILE: &str = "/dev/stdin";

/// The names of what a run reads, as they were given.
#[derive(Clone, Copy)]
pub struct Names<'n, 'a> {
    pub settings: &'a str,
    pub changes: Option<&'a str>,
    pub underlay: &'a str,
    pub ports: &'n [&'a str],
    /// The text that lends a part the digests of its captures.
    pub digests: Option<&'a str>,
}

impl<'a> Names<'_, 'a> {
    /// The name of a capture. That of a port which isn't there is the underlay's.
    pub fn capture(self, tap: Tap) -> &'a str {
        match tap {
            Tap::Underlay => self.underlay,
            Tap::Port(number) => usize::from(number)
                .checked_sub(1)
                .and_then(|index| self.ports.get(index))
                .copied()
                .unwrap_or(self.underlay),
        }
    }

    /// Whether each capture is a regular file, whose next octets are never waited for.
    pub fn are_regular_files<R: Files>(self, rt: &R) -> bool {
        self.ports.iter().all(|name| is_regular_file(rt, *name))
            && is_regular_file(rt, self.underlay)
    }

    /// Whether a capture can be read only once.
    pub fn has_read_once<R: Files>(self, rt: &R) -> bool {
        self.ports.iter().any(|name| is_read_once(rt, *name)) || is_read_once(rt, self.underlay)
    }

    /// Adds the files that are read under these names, as far as they are there.
    pub(crate) fn add_to<R: Files>(self, rt: &R, apart: &mut Apart<'_>) -> Result<(), AllocError> {
        apart.add_input(rt, Path::new(self.settings))?;
        if let Some(name) = self.changes {
            apart.add_input(rt, Path::new(name))?;
        }
        if let Some(name) = self.digests {
            apart.add_input(rt, Path::new(name))?;
        }
        apart.add_input(rt, Path::new(file_of(self.underlay)))?;
        for name in self.ports {
            apart.add_input(rt, Path::new(file_of(*name)))?;
        }
        Ok(())
    }

    /// What is read of the file that stands at a path, under one of these names or another name of the same file.
    pub fn reader_of<R: Files>(self, rt: &R, path: Path<'_>) -> Option<RunInput> {
        let Ok(found) = fs::metadata(rt, path) else {
            return None;
        };
        // To write into a device takes nothing from who reads it.
        if found.file_type().is_char_device() {
            return None;
        }
        if is_same(rt, Path::new(self.settings), &found) {
            return Some(RunInput::Settings);
        }
        if is_one(rt, self.changes, &found) {
            return Some(RunInput::Changes);
        }
        if is_one(rt, self.digests, &found) {
            return Some(RunInput::Digests);
        }
        if is_same(rt, Path::new(file_of(self.underlay)), &found) {
            return Some(RunInput::Underlay);
        }
        for (index, name) in self.ports.iter().enumerate() {
            if is_same(rt, Path::new(file_of(*name)), &found) {
                return Some(RunInput::Port(index.saturating_add(1)));
            }
        }
        None
    }
}

/// What a run reads. It prints in a few words.
#[derive(Clone, Copy, Debug)]
pub enum RunInput {
    Settings,
    Changes,
    Digests,
    Underlay,
    /// The capture of the port of this number.
    Port(usize),
}

impl fmt::Display for RunInput {
    fn fmt<W: fmt::Write>(&self, f: &mut fmt::Formatter<W>) -> fmt::Result {
        match self {
            RunInput::Settings => f.write_str("the settings"),
            RunInput::Changes => f.write_str("the changes"),
            RunInput::Digests => f.write_str("the text of digests"),
            RunInput::Underlay => f.write_str("the capture of the underlay"),
            RunInput::Port(number) => write!(f, "the capture of port {number}"),
        }
    }
}

/// Whether a name that may be left out leads to this file.
fn is_one<R: Files>(rt: &R, name: Option<&str>, found: &Metadata) -> bool {
    match name {
        Some(name) => is_same(rt, Path::new(name), found),
        None => false,
    }
}

/// The file that a capture's name stands for.
pub fn file_of(name: &str) -> &str {
    let file = capture_name(name).file;
    if file == STANDARD_INPUT {
        STANDARD_INPUT_FILE
    } else {
        file
    }
}

/// Whether a path leads to this file, through links or not.
pub fn is_same<R: Files>(rt: &R, path: Path<'_>, found: &Metadata) -> bool {
    match fs::metadata(rt, path) {
        Ok(metadata) => metadata.ino() == found.ino() && metadata.dev() == found.dev(),
        Err(_) => false,
    }
}

/// Whether a capture can be read only once: a pipe, and standard input, be it a file or not, since it goes on where it was left.
pub fn is_read_once<R: Files>(rt: &R, name: &str) -> bool {
    capture_name(name).file == STANDARD_INPUT || !is_regular_file(rt, name)
}

/// Whether a capture's name stands for a regular file.
pub fn is_regular_file<R: Files>(rt: &R, name: &str) -> bool {
    match fs::metadata(rt, file_of(name)) {
        Ok(metadata) => metadata.is_file(),
        Err(_) => false,
    }
}
