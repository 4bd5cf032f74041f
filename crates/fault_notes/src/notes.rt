//! What is to be told of a line that is done: lines on standard error, each begun by two spaces.
use crate::interfaces::{missing_interface, several_interfaces};
use crate::named::folder_of;
use command_line::Line;
use part_record::MOST_PORTS;
use program_files::{OneLine, OutputFile, path_of};
use std::alloc::AllocError;
use std::fs;
use std::rt::Files;

/// Tells of a line that is done which names of interfaces have none, and which outputs of an earlier run lie there. Where
/// memory is refused for that, it isn't told.
#[inline(never)]
pub fn tell_notes<R: Files + AllocGlobal + Eprint>(rt: &R, line: &Line<'_>) {
    let _ = tell(rt, line);
}

/// Tells what is to be told of a line that is done.
fn tell<R: Files + AllocGlobal + Eprint>(rt: &R, line: &Line<'_>) -> Result<(), AllocError> {
    match line {
        Line::Run {
            underlay,
            ports,
            ..
        } => {
            for name in ports {
                tell_missing(rt, *name)?;
            }
            tell_missing(rt, *underlay)?;
            tell_left(rt, line, ports.len())
        }
        Line::Digest { underlay, ports } => {
            for name in ports {
                tell_missing(rt, *name)?;
            }
            tell_missing(rt, *underlay)
        }
        Line::Explain { capture, .. } => {
            tell_missing(rt, *capture)?;
            print_note(rt, several_interfaces(rt, *capture)?);
            Ok(())
        }
        Line::Merge { parts, .. } => match parts.first() {
            Some(first) => tell_left(rt, line, ports_in(rt, *first)?),
            None => Ok(()),
        },
        _ => Ok(()),
    }
}

/// Prints a note, where there is one.
fn print_note(rt: &impl Eprint, note: Option<String>) {
    if let Some(note) = note {
        let _ = eprint!(rt; "{note}");
    }
}

/// Tells which interfaces a capture has, where none of them is asked for by its name.
fn tell_missing<R: Files + AllocGlobal + Eprint>(rt: &R, name: &str) -> Result<(), AllocError> {
    print_note(rt, missing_interface(rt, name)?);
    Ok(())
}

/// How many ports the part in this folder has.
pub(crate) fn ports_in<R: Files + AllocGlobal>(rt: &R, folder: &str) -> Result<usize, AllocError> {
    for index in 0..MOST_PORTS {
        let path = path_of(rt.alloc(), folder, OutputFile::Port(index + 1))?;
        if fs::metadata(rt, path.as_path()).is_err() {
            return Ok(index);
        }
    }
    Ok(MOST_PORTS)
}

/// Tells which captures of ports lie in the folder that a run of so many ports doesn't write, and whether decision lines as objects
/// do. What an earlier part left besides
/// is gone: a run and a merge take it away first.
fn tell_left<R: Files + AllocGlobal + Eprint>(
    rt: &R,
    line: &Line<'_>,
    ports: usize,
) -> Result<(), AllocError> {
    let Some(folder) = folder_of(line) else {
        return Ok(());
    };
    for index in ports..MOST_PORTS {
        tell_if_there(rt, folder, OutputFile::Port(index + 1))?;
    }
    if !has_objects(line) {
        tell_if_there(rt, folder, OutputFile::Objects)?;
    }
    Ok(())
}

/// Whether a line asks for decision lines as objects.
fn has_objects(line: &Line<'_>) -> bool {
    match line {
        Line::Run { json, .. } => *json,
        _ => false,
    }
}

/// Tells of an output that lies there and isn't of this run.
fn tell_if_there<R: Files + AllocGlobal + Eprint>(
    rt: &R,
    folder: &str,
    output: OutputFile,
) -> Result<(), AllocError> {
    let path = path_of(rt.alloc(), folder, output)?;
    if fs::metadata(rt, path.as_path()).is_ok() {
        let shown = OneLine(path.as_path().as_str());
        let _ = eprintln!(rt; "  {shown}: of an earlier run, not of this one");
    }
    Ok(())
}
