//! Parts of a run, opened for a merge.
use crate::looking::{output_at, read_failure};
use crate::merging::failure_of;
use line_stream::Lines;
use octet_sums::fletcher::OctetSum;
use part_lines::{PartFault, RecordsFault};
use part_merge::{MergeFault, Part, PartCapture};
use part_record::{OutputFacts, ToldOutputs};
use pcap::stream::{Source, SourceFault};
use program_files::{Failure, OutputFile, PartInput, open_output, path_of};
use std::alloc::AllocError;
use std::fs;
use std::path::Path;
use std::rt::Files;
use text_calls::tap_of;
use timeline::Tap;

/// How many reads are made of a capture of a part, at most.
const CAPTURE_READS: u64 = u64::MAX;

/// Whether a read of the parts may wait: whether the lines or a capture of one of them, of so many ports each, is no regular file.
pub fn may_wait<R: Files + AllocGlobal>(rt: &R, folders: &[&str], count: usize) -> bool {
    for folder in folders {
        for index in 0..count.saturating_add(2) {
            let Ok(path) = path_of(rt.alloc(), *folder, output_at(index)) else {
                return true;
            };
            if !is_regular_file(rt, path.as_path()) {
                return true;
            }
        }
    }
    false
}

/// Whether a path leads to a regular file.
fn is_regular_file<R: Files>(rt: &R, path: Path<'_>) -> bool {
    match fs::metadata(rt, path) {
        Ok(found) => found.is_file(),
        Err(_) => false,
    }
}

/// Opens the parts. The first line of each is read, and the headers of their captures are.
pub fn open_parts<'a, R: Files + AllocGlobal>(
    rt: &R,
    folders: &[&'a str],
    told: &[ToldOutputs],
    count: usize,
) -> Result<Vec<Part<PartInput<R::File>>>, Failure<'a>> {
    let mut parts = Vec::new(rt.alloc());
    for (index, (folder, told)) in folders.iter().zip(told).enumerate() {
        let told = told.as_slice();
        let lines = match open_lines(rt, *folder, sum_told(told, 0)) {
            Ok(lines) => lines,
            Err(failure) => return Err(failure),
        };
        let ports = match open_ports(rt, *folder, told, count) {
            Ok(ports) => ports,
            Err(failure) => return Err(failure),
        };
        let underlay = match open_capture(rt, *folder, told, Tap::Underlay, 1) {
            Ok(capture) => capture,
            Err(failure) => return Err(failure),
        };
        let part = match Part::open(index, lines, ports, underlay) {
            Ok(part) => part,
            Err((MergeFault::Read(_), _)) => return Err(read_failure(rt, *folder, told)),
            Err((fault, _)) => return Err(failure_of(folders, fault)),
        };
        if parts.push(part).is_err() {
            return Err(Failure::from(AllocError));
        }
    }
    Ok(parts)
}

/// Opens the captures of so many ports of the part in this folder, and reads their headers.
fn open_ports<'a, R: Files + AllocGlobal>(
    rt: &R,
    folder: &'a str,
    told: &[OutputFacts],
    count: usize,
) -> Result<Vec<PartCapture<PartInput<R::File>>>, Failure<'a>> {
    let mut ports = Vec::new(rt.alloc());
    for port in 0..count {
        let capture = match open_capture(rt, folder, told, tap_of(port), port.saturating_add(2)) {
            Ok(capture) => capture,
            Err(failure) => return Err(failure),
        };
        if ports.push(capture).is_err() {
            return Err(Failure::from(AllocError));
        }
    }
    Ok(ports)
}

/// The sums that are told of the output of this number, of which there are as many as the part has.
fn sum_told(outputs: &[OutputFacts], index: usize) -> OctetSum {
    match outputs.get(index) {
        Some(output) => output.sum,
        None => OctetSum::new(),
    }
}

/// Opens the decision lines of the part in this folder, of which these sums are told. Nothing of them is read yet.
fn open_lines<'a, R: Files + AllocGlobal>(
    rt: &R,
    folder: &'a str,
    sum: OctetSum,
) -> Result<Lines<PartInput<R::File>>, Failure<'a>> {
    let input = match open_output(rt, folder, OutputFile::Decisions, sum) {
        Ok(input) => input,
        Err(failure) => return Err(failure),
    };
    match Lines::new(rt.alloc(), input) {
        Ok(lines) => Ok(lines),
        Err(error) => Err(Failure::from(error)),
    }
}

/// Opens a capture of the part in this folder, the output of this number, and reads its header.
fn open_capture<'a, R: Files + AllocGlobal>(
    rt: &R,
    folder: &'a str,
    told: &[OutputFacts],
    tap: Tap,
    index: usize,
) -> Result<PartCapture<PartInput<R::File>>, Failure<'a>> {
    let input = match open_output(rt, folder, output_at(index), sum_told(told, index)) {
        Ok(input) => input,
        Err(failure) => return Err(failure),
    };
    let source = match Source::new(rt.alloc(), input, CAPTURE_READS) {
        Ok(source) => source,
        Err(error) => return Err(Failure::from(error)),
    };
    match PartCapture::open(source) {
        Ok(capture) => Ok(capture),
        Err((SourceFault::Read, _)) => Err(read_failure(rt, folder, told)),
        Err((fault, _)) => Err(Failure::in_part(
            folder,
            PartFault::Capture(tap, RecordsFault::Source(fault)),
        )),
    }
}
