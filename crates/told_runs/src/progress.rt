//! How far a run is, where that is shown.
use command_line::capture_name;
use program_files::Names;
use run_progress::{Progress, Screen};
use std::fs;
use std::rt::Files;
use std::time::Clock;

/// What shows how far a run on these captures is, where standard error is a terminal and nobody asked for quiet.
pub fn progress_of<'r, R: Files + Clock + Eprint + Screen>(
    rt: &'r R,
    names: Names<'_, '_>,
    quiet: bool,
) -> Option<Progress<'r, R>> {
    if quiet {
        return None;
    }
    Progress::start(rt, octets_of_captures(rt, names))
}

/// How many octets the captures have together, where all are regular files and all of each is taken.
fn octets_of_captures<R: Files>(rt: &R, names: Names<'_, '_>) -> Option<u64> {
    let mut octets = octets_of(rt, names.underlay)?;
    for name in names.ports {
        octets = octets.saturating_add(octets_of(rt, *name)?);
    }
    Some(octets)
}

/// How many octets a capture has, where it is a regular file and no interface of it is asked for.
fn octets_of<R: Files>(rt: &R, name: &str) -> Option<u64> {
    let named = capture_name(name);
    if named.interface.is_some() {
        return None;
    }
    match fs::metadata(rt, named.file) {
        Ok(metadata) if metadata.is_file() => Some(metadata.len()),
        _ => None,
    }
}
