//! Why a line gave up, as far as it is known: lines on standard error below its fault, each begun by two spaces.
use crate::named::{capture_at, folder_of, is_text, names_of};
use crate::notes::tell_notes;
use crate::refusals::{tell_leaf, tell_part_capture, tell_pcapng, tell_refused};
use command_line::{Line, STANDARD_INPUT, capture_name};
use part_lines::PartFault;
use part_record::MOST_PORTS;
use program_files::{
    FailedOutput, Failure, LeafFailure, OneLine, OutputFile, PartFailure, SplitFailure,
    SystemFault, file_of, is_same, path_of, read_fault,
};
use std::alloc::AllocError;
use std::fs;
use std::io::ErrorKind;
use std::path::Path;
use std::rt::Files;

/// The texts of a part that a merge reads first.
const PART_TEXTS: [OutputFile; 3] = [
    OutputFile::PartRecord,
    OutputFile::Decisions,
    OutputFile::Underlay,
];

/// Tells why a line gave up. Where memory is refused for that, the fault alone is told.
#[inline(never)]
pub fn tell_causes<R: Files + AllocGlobal + Eprint>(
    rt: &R,
    line: &Line<'_>,
    failure: &Failure<'_>,
) {
    let _ = tell(rt, line, failure);
}

/// Tells why a line gave up.
fn tell<R: Files + AllocGlobal + Eprint>(
    rt: &R,
    line: &Line<'_>,
    failure: &Failure<'_>,
) -> Result<(), AllocError> {
    match failure {
        Failure::Read(name) => tell_unread(rt, line, *name),
        Failure::Write(output) => tell_spared(rt, line, *output),
        Failure::WriteFailed(output, fault) => tell_unwritten(rt, line, *output, *fault),
        Failure::Run(fault) => tell_refused(rt, line, fault),
        Failure::Leaf(name, LeafFailure::Refused(fault)) => tell_leaf(rt, *name, fault),
        Failure::Pcapng(tap, fault) => match capture_at(line, *tap) {
            Some(name) => tell_pcapng(rt, name, *fault),
            None => Ok(()),
        },
        Failure::Split(name, SplitFailure::Capture(fault)) => tell_pcapng(rt, *name, *fault),
        Failure::Split(name, SplitFailure::Interface(_, fault)) => tell_pcapng(rt, *name, *fault),
        // An event may be missing since its capture has no such interface.
        Failure::NoEvent(_) => {
            tell_notes(rt, line);
            Ok(())
        }
        Failure::Part(folder, PartFailure::Part(PartFault::Capture(tap, fault))) => {
            tell_part_capture(rt, *folder, *tap, *fault)
        }
        _ => Ok(()),
    }
}

/// Tells why a file can't be read, or a part.
fn tell_unread<R: Files + AllocGlobal + Eprint>(
    rt: &R,
    line: &Line<'_>,
    name: &str,
) -> Result<(), AllocError> {
    if let Line::Merge { parts, .. } = line {
        return tell_unread_part(rt, name, parts.as_slice());
    }
    if is_text(line, name) {
        if let Some(fault) = read_fault(rt, name) {
            tell_fault(rt, name, fault);
        }
    } else {
        tell_unread_capture(rt, name);
    }
    Ok(())
}

/// Tells why a capture can't be read.
fn tell_unread_capture<R: Files + Eprint>(rt: &R, name: &str) {
    let path = file_of(name);
    if capture_name(name).file == STANDARD_INPUT {
        if is_closed(rt, path) {
            let _ = eprintln!(rt; "  standard input is closed");
        }
        return;
    }
    let Some(fault) = read_fault(rt, path) else {
        return;
    };
    tell_fault(rt, path, fault);
    if path != name && fs::metadata(rt, name).is_ok() {
        let whole = OneLine(name);
        let _ = eprintln!(rt; "  {whole} is a file: {whole}# names it");
    }
}

/// Whether standard input is closed: whether nothing stands there, or what the program put in its place, which can't be read.
fn is_closed<R: Files>(rt: &R, path: &str) -> bool {
    match fs::metadata(rt, path) {
        Ok(found) => is_same(rt, Path::new("/dev/null"), &found),
        Err(_) => true,
    }
}

/// Tells why the system refused a file.
fn tell_fault(rt: &impl Eprint, path: &str, fault: SystemFault) {
    let shown = OneLine(path);
    let _ = eprintln!(rt; "  {shown}: {fault}");
}

/// Tells which file of a part can't be read.
fn tell_unread_part<R: Files + AllocGlobal + Eprint>(
    rt: &R,
    folder: &str,
    parts: &[&str],
) -> Result<(), AllocError> {
    if let Err(error) = fs::metadata(rt, folder) {
        if error.kind() == ErrorKind::NotFound {
            let shown = OneLine(folder);
            let _ = eprintln!(rt; "  {shown}: no such folder");
            return Ok(());
        }
    }
    for output in PART_TEXTS {
        if tell_unread_file(rt, folder, output)? {
            return Ok(());
        }
    }
    for index in 0..MOST_PORTS {
        let output = OutputFile::Port(index + 1);
        if is_in_one(rt, parts, output)? && tell_unread_file(rt, folder, output)? {
            return Ok(());
        }
    }
    Ok(())
}

/// Tells why a file in a folder can't be read, and says whether it can't.
fn tell_unread_file<R: Files + AllocGlobal + Eprint>(
    rt: &R,
    folder: &str,
    output: OutputFile,
) -> Result<bool, AllocError> {
    let path = path_of(rt.alloc(), folder, output)?;
    let name = path.as_path().as_str();
    match read_fault(rt, name) {
        Some(fault) => {
            tell_fault(rt, name, fault);
            if output == OutputFile::PartRecord && fault.is_not_there() {
                let _ = eprintln!(rt; "  a part has one: tep run --segments makes parts");
            }
            Ok(true)
        }
        None => Ok(false),
    }
}

/// Whether one of these folders has such a file.
fn is_in_one<R: Files + AllocGlobal>(
    rt: &R,
    folders: &[&str],
    output: OutputFile,
) -> Result<bool, AllocError> {
    for folder in folders {
        let path = path_of(rt.alloc(), *folder, output)?;
        if fs::metadata(rt, path.as_path()).is_ok() {
            return Ok(true);
        }
    }
    Ok(false)
}

/// Tells which of the files that are read an output is.
fn tell_spared<R: Files + AllocGlobal + Eprint>(
    rt: &R,
    line: &Line<'_>,
    output: OutputFile,
) -> Result<(), AllocError> {
    let Some(folder) = folder_of(line) else {
        return Ok(());
    };
    let path = path_of(rt.alloc(), folder, output)?;
    let shown = OneLine(path.as_path().as_str());
    if let Some(names) = names_of(line) {
        if let Some(input) = names.reader_of(rt, path.as_path()) {
            let _ = eprintln!(rt; "  {shown} is {input} itself");
            tell_own_folder(rt);
        }
        return Ok(());
    }
    let (Line::Merge { parts, .. }, Ok(found)) = (line, fs::metadata(rt, path.as_path())) else {
        return Ok(());
    };
    for folder in parts {
        for index in 0..MOST_PORTS + PART_TEXTS.len() {
            let part = path_of(rt.alloc(), *folder, part_file(index))?;
            if is_same(rt, part.as_path(), &found) {
                let itself = OneLine(part.as_path().as_str());
                let _ = eprintln!(rt; "  {shown} is {itself} itself");
                tell_own_folder(rt);
                return Ok(());
            }
        }
    }
    Ok(())
}

/// Tells what to do where an output is an input.
fn tell_own_folder(rt: &impl Eprint) {
    let _ = eprintln!(rt; "  give the outputs a folder of their own");
}

/// The file of this number in the folder of a part.
fn part_file(index: usize) -> OutputFile {
    match index {
        0 => OutputFile::PartRecord,
        1 => OutputFile::Decisions,
        2 => OutputFile::Underlay,
        number => OutputFile::Port(number.saturating_sub(2)),
    }
}

/// Tells which other outputs couldn't be written, and why. Where memory is refused for that, none is told.
#[inline(never)]
pub fn tell_failed_besides<R: Files + AllocGlobal + Eprint>(
    rt: &R,
    line: &Line<'_>,
    failure: &Failure<'_>,
    failed: &[FailedOutput],
) {
    for file in failed {
        if !is_failure_of(failure, file.output) {
            let _ = tell_failed_output(rt, line, *file);
        }
    }
}

/// Whether this is that an output couldn't be written.
fn is_failure_of(failure: &Failure<'_>, output: OutputFile) -> bool {
    match failure {
        Failure::Write(told) | Failure::WriteFailed(told, _) => *told == output,
        _ => false,
    }
}

/// Tells that an output couldn't be written, and why, where the system told it.
fn tell_failed_output<R: Files + AllocGlobal + Eprint>(
    rt: &R,
    line: &Line<'_>,
    file: FailedOutput,
) -> Result<(), AllocError> {
    if let Some(fault) = file.fault {
        return tell_unwritten(rt, line, file.output, fault);
    }
    let Some(folder) = folder_of(line) else {
        return Ok(());
    };
    let path = path_of(rt.alloc(), folder, file.output)?;
    let shown = OneLine(path.as_path().as_str());
    let _ = eprintln!(rt; "  {shown}: not written whole");
    Ok(())
}

/// Tells why an output couldn't be written.
fn tell_unwritten<R: Files + AllocGlobal + Eprint>(
    rt: &R,
    line: &Line<'_>,
    output: OutputFile,
    fault: SystemFault,
) -> Result<(), AllocError> {
    if output == OutputFile::Stdout {
        let _ = eprintln!(rt; "  standard output: {fault}");
        return Ok(());
    }
    let Some(folder) = folder_of(line) else {
        return Ok(());
    };
    let path = path_of(rt.alloc(), folder, output)?;
    let name = path.as_path().as_str();
    if fault.is_not_there() {
        let shown = OneLine(name);
        let _ = eprintln!(rt; "  {shown}: no such folder");
    } else {
        tell_fault(rt, name, fault);
    }
    Ok(())
}
