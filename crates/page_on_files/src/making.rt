//! The page.
use crate::lines::{count_lines, moments_of};
use pcap::stream::{BlockOutput, StdOutput};
use program_files::{
    FILES_OF_A_RUN, Failure, FoundFiles, OutputDevice, OutputFile, SystemFault, Unwritten,
    UnwrittenFile, WorkedFailure, file_of_run, open_part_file, path_of, place_of, read_text,
    see_ended,
};
use report_counts::ReportCounts;
use report_page::{RunFolder, write_page};
use std::alloc::{AllocError, Global};
use std::fs::{self, OpenOptions};
use std::path::Path;
use std::rt::Files;

/// How many octets are written at once.
const BLOCK: usize = 65_536;

/// How many reads are made of a text, at most.
const TEXT_READS: u64 = u64::MAX;

/// What a run printed, where that was kept in its folder.
const KEPT: [OutputFile; 2] = [OutputFile::Summary, OutputFile::Tables];

/// Makes a page of what a run wrote into a folder. Where the folder has no decision lines, its run didn't end, one of the lines is
/// none, or the page is one of the run's files, nothing is made or written.
#[inline(never)]
pub fn make_page<'a, R: Files + AllocGlobal>(
    rt: &R,
    folder: &'a str,
    page: &str,
) -> Result<(), Failure<'a>> {
    if !has_file(rt, folder, OutputFile::Decisions)? {
        let lacks = WorkedFailure::Lacks(OutputFile::Decisions);
        return Err(Failure::Worked(folder, lacks));
    }
    see_ended(rt, folder)?;
    spare(rt, folder, page)?;
    let (first, last) = moments_of(rt, folder)?;
    let mut counts = ReportCounts::new(rt.alloc(), first, last)?;
    count_lines(rt, folder, &mut counts)?;
    let told = kept_texts(rt, folder)?;
    let is_part = has_file(rt, folder, OutputFile::PartRecord)?;
    let folder = RunFolder {
        name: folder,
        is_part,
        told: told.as_slice(),
    };
    match write(rt, &counts, folder, page) {
        Ok(()) => Ok(()),
        Err(failure) => Err(failure),
    }
}

/// Refuses a page that is one of the files that a run left in its folder.
fn spare<R: Files + AllocGlobal>(rt: &R, folder: &str, page: &str) -> Result<(), Failure<'static>> {
    let Some(place) = place_of(rt, Path::new(page)) else {
        return Ok(());
    };
    let mut files = FoundFiles::none(rt.alloc());
    for index in 0..FILES_OF_A_RUN {
        let output = file_of_run(index);
        let path = path_of(rt.alloc(), folder, output)?;
        files.note(rt, path.as_path(), output)?;
    }
    match files.at(place) {
        Some(output) => {
            let name = format!(in rt.alloc(); "{folder}/{output}")?;
            Err(unwritten(rt.alloc(), page, Unwritten::Is(name)))
        }
        None => Ok(()),
    }
}

/// Whether a folder has this file.
fn has_file<R: Files + AllocGlobal>(
    rt: &R,
    folder: &str,
    output: OutputFile,
) -> Result<bool, AllocError> {
    let path = path_of(rt.alloc(), folder, output)?;
    Ok(fs::metadata(rt, path.as_path()).is_ok())
}

/// What was kept of the texts that a run printed, one behind another.
fn kept_texts<'a, R: Files + AllocGlobal>(rt: &R, folder: &'a str) -> Result<Vec<u8>, Failure<'a>> {
    let mut texts = Vec::new(rt.alloc());
    for output in KEPT {
        if !has_file(rt, folder, output)? {
            continue;
        }
        let mut input = open_part_file(rt, folder, output)?;
        match read_text(rt.alloc(), &mut input, TEXT_READS) {
            Ok(text) => texts.extend_from_slice(text.as_slice())?,
            Err(fault) => return Err(Failure::reading(folder, fault)),
        }
    }
    Ok(texts)
}

/// Writes the page.
fn write<R: Files + AllocGlobal>(
    rt: &R,
    counts: &ReportCounts,
    folder: RunFolder<'_>,
    page: &str,
) -> Result<(), Failure<'static>> {
    let opened = OpenOptions::new()
        .write(true)
        .create(true)
        .truncate(true)
        .open(rt, page);
    let file = match opened {
        Ok(file) => file,
        Err(error) => {
            let why = Unwritten::of(SystemFault::of(&error));
            return Err(unwritten(rt.alloc(), page, why));
        }
    };
    let device = StdOutput::new(OutputDevice::new(file));
    let mut output = BlockOutput::new(rt.alloc(), device, BLOCK)?;
    let is_written = write_page(counts, folder, &mut output).is_ok();
    let is_handed_on = output.finish().is_ok();
    if is_written && is_handed_on {
        return Ok(());
    }
    let fault = output.output().writer().fault();
    Err(unwritten(rt.alloc(), page, Unwritten::of(fault)))
}

/// That the page couldn't be written.
fn unwritten(alloc: Global, page: &str, why: Unwritten) -> Failure<'static> {
    match String::from_str(alloc, page) {
        Ok(path) => Failure::Unwritten(UnwrittenFile { path, why }),
        Err(error) => Failure::from(error),
    }
}
