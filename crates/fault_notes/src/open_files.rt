//! How many files a run or a merge opens at once, told where more than the process may have open.
use crate::notes::ports_in;
use command_line::Line;
use program_files::{Failure, files_at_once, has_room, is_refused};
use std::alloc::AllocError;
use std::rt::Files;

/// A line that opens many files at once.
#[derive(Clone, Copy)]
struct Opening {
    /// What the line asks for.
    what: &'static str,
    /// How many files are opened that are read.
    inputs: usize,
    /// How many files are open at once, at most.
    all: usize,
}

/// Tells how many files a run or a merge opens at once, where one couldn't be opened since too many were open. Where memory is
/// refused for that, it isn't told.
#[inline(never)]
pub fn tell_open_files<R: Files + AllocGlobal + Eprint>(
    rt: &R,
    line: &Line<'_>,
    failure: &Failure<'_>,
) {
    if let Ok(Some(opening)) = opening_of(rt, line) {
        if is_failure_of(rt, failure, opening) {
            tell(rt, opening);
        }
    }
}

/// Whether this is that a file couldn't be opened since too many were open. Why a file couldn't be read isn't kept: it is so where
/// as many can't be opened as are read.
fn is_failure_of<R: Files + AllocGlobal>(rt: &R, failure: &Failure<'_>, opening: Opening) -> bool {
    match failure {
        Failure::WriteFailed(_, fault) => fault.is_of_open_files(),
        Failure::Read(_) => is_refused(rt, opening.inputs).unwrap_or(false),
        _ => false,
    }
}

/// Tells how many files are opened.
fn tell(rt: &impl Eprint, opening: Opening) {
    let what = opening.what;
    let all = opening.all;
    let _ = eprintln!(rt; "  this {what} opens {all} files at once: ulimit -n {all}");
}

/// What a line opens, where that is many files at once.
fn opening_of<R: Files + AllocGlobal>(
    rt: &R,
    line: &Line<'_>,
) -> Result<Option<Opening>, AllocError> {
    match line {
        Line::Run {
            settings,
            changes,
            underlay,
            ports,
            list,
            json,
            pcapng,
            ..
        } => {
            let texts = count_handed_on(&[*settings, (*changes).unwrap_or(""), *underlay]);
            let aside = texts
                .saturating_add(count_handed_on(ports.as_slice()))
                .saturating_add(usize::from(*json))
                .saturating_add(usize::from(list.is_some()))
                .saturating_add(usize::from(pcapng.is_some()));
            Ok(Some(opening_of_run(ports.len(), aside)))
        }
        Line::Merge { parts, .. } => match parts.first() {
            Some(first) => Ok(Some(opening_of_merge(parts.len(), ports_in(rt, *first)?))),
            None => Ok(None),
        },
        _ => Ok(None),
    }
}

/// What a run of so many ports opens, where so many files more are open.
fn opening_of_run(ports: usize, aside: usize) -> Opening {
    let inputs = ports.saturating_add(1);
    Opening {
        what: "run",
        inputs,
        all: files_at_once(inputs, ports).saturating_add(aside),
    }
}

/// What a merge of so many parts of so many ports opens: each part has the lines and the underlay's capture besides.
fn opening_of_merge(parts: usize, ports: usize) -> Opening {
    let inputs = parts.saturating_mul(ports.saturating_add(2));
    Opening {
        what: "merge",
        inputs,
        all: files_at_once(inputs, ports),
    }
}

/// How many of these names are of files that were handed on.
fn count_handed_on(names: &[&str]) -> usize {
    names.iter().filter(|name| is_handed_on(**name)).count()
}

/// Whether a name is of a file that whoever started the program opened and handed on, as a pipe that bash writes as `<(..)`.
fn is_handed_on(name: &str) -> bool {
    name.starts_with("/dev/fd/") || name.starts_with("/proc/self/fd/")
}

/// A line that tells how many files a run of so many ports opens at once, where so many can't be open.
pub fn open_files_line<R: Files + AllocGlobal>(
    rt: &R,
    ports: usize,
) -> Result<Option<String>, AllocError> {
    let opening = opening_of_run(ports, 0);
    if has_room(rt, opening.inputs, ports)? {
        return Ok(None);
    }
    let all = opening.all;
    let line = format!(in rt.alloc(); "  a run opens {all} files at once: ulimit -n {all}\n")?;
    Ok(Some(line))
}
