//! How many files a run or a merge has open at once, and whether so many can be.
//!
//! The limit of open files isn't asked for: files are opened, as many as will be, before an output is made or emptied. What is
//! opened for that is the system's empty file, so nothing is read or written.
ghost use Rattle.std.specs.Prelude.{◌≡◌, ◌<◌, ◌+◌, ◌^◌};

use crate::faults::{Failure, OutputFile, SystemFault};
use std::alloc::AllocError;
use std::fs;
use std::rt::Files;

/// The system's empty file.
const EMPTY_FILE: &str = "/dev/null";

/// As many files can be open wherever the program runs, so that fewer aren't tried.
const FEW: usize = 200;

/// How many outputs there are besides the ports' captures: the underlay's, and the decision lines.
const BESIDE_PORTS: usize = 2;

/// How many files may be open besides captures and outputs: the three standard streams, one that is looked at, and four that
/// whoever started the program left open.
const ASIDE: usize = 8;

/// How many files are open at once, at most, where so many are read and the outputs of so many ports are written: these, what a
/// part says of itself, and those aside.
pub fn files_at_once(inputs: usize, ports: usize) -> usize
    ensures { inputs + ports < 2 ^ 32 → result ≡ inputs + ports + 11 }
{
    inputs
        .saturating_add(ports)
        .saturating_add(BESIDE_PORTS + 1 + ASIDE)
}

/// Sees that the outputs of so many ports can be opened, of a part of a run or of a whole, with the decision lines as objects or
/// without, and one file more that is looked at, where so many files are open that are read. Where the system refuses one of them
/// since too many are open, it is the output of its number that can't be written, and no output was made or changed. Where there are
/// few, it isn't tried.
pub fn see_room<R: Files + AllocGlobal>(
    rt: &R,
    inputs: usize,
    ports: usize,
    is_part: bool,
    has_objects: bool,
) -> Result<(), Failure<'static>> {
    let outputs = ports
        .saturating_add(BESIDE_PORTS)
        .saturating_add(usize::from(is_part))
        .saturating_add(usize::from(has_objects));
    if inputs.saturating_add(outputs) < FEW {
        return Ok(());
    }
    match first_refused(rt, outputs.saturating_add(1))? {
        Some((index, fault)) => Err(Failure::WriteFailed(
            output_at(index, ports, has_objects),
            fault,
        )),
        None => Ok(()),
    }
}

/// Whether so many files can be open that are read, and besides them what a run of so many ports writes, a part of a run too, and
/// one file more that is looked at. Where there are few, it isn't tried.
pub fn has_room<R: Files + AllocGlobal>(
    rt: &R,
    inputs: usize,
    ports: usize,
) -> Result<bool, AllocError> {
    let files = inputs
        .saturating_add(ports)
        .saturating_add(BESIDE_PORTS + 1);
    if files < FEW {
        return Ok(true);
    }
    match first_refused(rt, files.saturating_add(1)) {
        Ok(refused) => Ok(refused.is_none()),
        Err(error) => Err(error),
    }
}

/// Whether the system refuses one of so many files, opened besides those that are open, since too many are.
pub fn is_refused<R: Files + AllocGlobal>(rt: &R, count: usize) -> Result<bool, AllocError> {
    match first_refused(rt, count) {
        Ok(refused) => Ok(refused.is_some()),
        Err(error) => Err(error),
    }
}

/// Opens so many files besides those that are open, and lets them go. It answers the first that the system refuses since too many
/// are open, by its number from 0, and what the system told.
fn first_refused<R: Files + AllocGlobal>(
    rt: &R,
    count: usize,
) -> Result<Option<(usize, SystemFault)>, AllocError> {
    let mut files = Vec::new(rt.alloc());
    for index in 0..count {
        match fs::open(rt, EMPTY_FILE) {
            Ok(file) => {
                if files.push(file).is_err() {
                    return Err(AllocError);
                }
            }
            Err(error) => {
                return Ok(match SystemFault::of(&error) {
                    Some(fault) if fault.is_of_open_files() => Some((index, fault)),
                    // Another fault tells nothing of how many can be open.
                    _ => None,
                });
            }
        }
    }
    Ok(None)
}

/// The output that is opened as the one of this number from 0, where there are so many ports.
fn output_at(index: usize, ports: usize, has_objects: bool) -> OutputFile {
    match index.checked_sub(ports) {
        None => OutputFile::Port(index.saturating_add(1)),
        Some(0) => OutputFile::Underlay,
        Some(1) => OutputFile::Decisions,
        Some(2) if has_objects => OutputFile::Objects,
        Some(_) => OutputFile::PartRecord,
    }
}
