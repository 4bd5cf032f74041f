//! What parts of a run say of themselves, and whether they are so.
use octet_sums::fletcher::OctetSum;
use part_record::{
    OutputFacts, PartRecord, PartRecordFault, ToldOutputs, ToldRecord, ToldTexts, part_all,
    record_of, same_run,
};
use program_files::{
    Failure, OutputFile, PartFailure, PartLines, count_lines, is_as_told, is_read_again,
    may_have_octets, open_part_file, read_text, see_ended,
};
use segment_set::SegmentSet;
use std::alloc::AllocError;
use std::rt::Files;
use text_calls::tap_of;
use timeline::Tap;

/// How many reads are made of a text of what a part was made from, at most.
const TEXT_READS: u64 = 4_096;

/// Refuses a folder into which a run is under way or didn't end, and decision lines that can be read only once.
pub fn see_folders<'a, R: Files + AllocGlobal>(
    rt: &R,
    folders: &[&'a str],
) -> Result<(), Failure<'a>> {
    for folder in folders {
        see_ended(rt, *folder)?;
        if !is_read_again(rt, *folder, OutputFile::Decisions)? {
            return Err(Failure::Part(*folder, PartFailure::LinesOnce));
        }
    }
    Ok(())
}

/// The texts that say what the parts were made from.
pub fn read_records<'a, R: Files + AllocGlobal>(
    rt: &R,
    folders: &[&'a str],
) -> Result<Vec<Vec<u8>>, Failure<'a>> {
    let mut texts = Vec::new(rt.alloc());
    for folder in folders {
        let mut input = match open_part_file(rt, *folder, OutputFile::PartRecord) {
            Ok(input) => input,
            Err(failure) => return Err(failure),
        };
        let text = match read_text(rt.alloc(), &mut input, TEXT_READS) {
            Ok(text) => text,
            Err(fault) => return Err(Failure::reading(*folder, fault)),
        };
        if texts.push(text).is_err() {
            return Err(Failure::from(AllocError));
        }
    }
    Ok(texts)
}

/// What was seen of the parts of one run.
#[derive(Drop)]
pub struct Looked {
    /// How many ports the run has.
    pub ports: usize,
    /// Which segments each part has.
    pub segments: Vec<SegmentSet>,
    /// What each part says of its outputs.
    pub outputs: Vec<ToldOutputs>,
    /// And of the texts that it left.
    pub texts: Vec<ToldTexts>,
}

/// Sees that these are the parts of one run and all of it, and that each has the lines and as many octets as it says.
pub fn look_at<'a, R: Files + AllocGlobal>(
    rt: &R,
    folders: &[&'a str],
    texts: &[Vec<u8>],
) -> Result<Looked, Failure<'a>> {
    let mut first: Option<PartRecord<'_>> = None;
    let mut sets = Vec::new(rt.alloc());
    let mut outputs = Vec::new(rt.alloc());
    let mut left = Vec::new(rt.alloc());
    for (folder, text) in folders.iter().zip(texts) {
        let ((found, told, texts), segments) = match read_record(text.as_slice()) {
            Ok(read) => read,
            Err(fault) => return Err(Failure::Part(*folder, fault)),
        };
        if sets.push(segments).is_err()
            || outputs.push(told).is_err()
            || left.push(texts).is_err()
        {
            return Err(Failure::from(AllocError));
        }
        match &first {
            None => first = Some(found),
            Some(first) => {
                if let Err(difference) = same_run(first, &found) {
                    return Err(Failure::Part(*folder, PartFailure::Other(difference)));
                }
            }
        }
    }
    if let Err(fault) = part_all(sets.as_slice()) {
        return Err(Failure::Parting(fault));
    }
    for (folder, text) in folders.iter().zip(texts) {
        see_lines(rt, *folder, text.as_slice())?;
    }
    for (folder, told) in folders.iter().zip(&outputs) {
        see_octets(rt, *folder, told.as_slice())?;
    }
    Ok(Looked {
        ports: first.map_or(0, |found| found.ports.len()),
        segments: sets,
        outputs,
        texts: left,
    })
}

/// What a part was made from, what it says of its files, and its segments.
fn read_record(text: &[u8]) -> Result<(ToldRecord<'_>, SegmentSet), PartFailure> {
    let Ok(text) = str::from_utf8(text) else {
        return Err(PartFailure::Record(PartRecordFault::Head));
    };
    let record = match record_of(text) {
        Ok(record) => record,
        Err(fault) => return Err(PartFailure::Record(fault)),
    };
    match SegmentSet::parse(record.0.segments) {
        Ok(segments) => Ok((record, segments)),
        Err(fault) => Err(PartFailure::List(fault)),
    }
}

/// Sees that a part tells as many events, lines and records as it says.
fn see_lines<'a, R: Files + AllocGlobal>(
    rt: &R,
    folder: &'a str,
    text: &[u8],
) -> Result<(), Failure<'a>> {
    let ((found, outputs, _), _) = match read_record(text) {
        Ok(read) => read,
        Err(fault) => return Err(Failure::Part(folder, fault)),
    };
    let lines = count_lines(rt, folder)?;
    if lines.events != found.events {
        return Err(Failure::Part(folder, PartFailure::Events));
    }
    match see_records(&lines, outputs.as_slice()) {
        Ok(()) => Ok(()),
        Err(fault) => Err(Failure::Part(folder, fault)),
    }
}

/// Sees that lines are as many and tell as many records of each capture as is told of the outputs.
fn see_records(lines: &PartLines, outputs: &[OutputFacts]) -> Result<(), PartFailure> {
    for (index, told) in outputs.iter().enumerate() {
        match output_at(index) {
            OutputFile::Decisions => {
                if told.records != lines.lines {
                    return Err(PartFailure::Lines);
                }
            }
            OutputFile::Underlay => {
                if told.records != lines.records.records(Tap::Underlay) {
                    return Err(PartFailure::Records(OutputFile::Underlay));
                }
            }
            output => {
                if told.records != lines.records.records(tap_of(index.saturating_sub(2))) {
                    return Err(PartFailure::Records(output));
                }
            }
        }
    }
    Ok(())
}

/// Sees that the outputs of the part in this folder have as many octets as is told of them.
fn see_octets<'a, R: Files + AllocGlobal>(
    rt: &R,
    folder: &'a str,
    outputs: &[OutputFacts],
) -> Result<(), Failure<'a>> {
    for (index, told) in outputs.iter().enumerate() {
        let output = output_at(index);
        if !may_have_octets(rt, folder, output, told.sum.octets)? {
            return Err(Failure::Part(folder, PartFailure::Octets(output)));
        }
    }
    Ok(())
}

/// The output of this number of those that a part says something of: the decision lines, the underlay's capture, and then the
/// ports' captures.
pub fn output_at(index: usize) -> OutputFile {
    match index {
        0 => OutputFile::Decisions,
        1 => OutputFile::Underlay,
        number => OutputFile::Port(number.saturating_sub(1)),
    }
}

/// Sees that the outputs of the part in this folder have the sums that are told of them. One that can be read only once isn't
/// opened again.
fn see_sums<'a, R: Files + AllocGlobal>(
    rt: &R,
    folder: &'a str,
    outputs: &[OutputFacts],
) -> Result<(), Failure<'a>> {
    for (index, told) in outputs.iter().enumerate() {
        let output = output_at(index);
        if !is_read_again(rt, folder, output)? {
            continue;
        }
        match is_as_told(rt, folder, output, told.sum) {
            Ok(true) => {}
            Ok(false) => return Err(Failure::Part(folder, PartFailure::Sums(output))),
            Err(failure) => return Err(failure),
        }
    }
    Ok(())
}

/// The failure of a read of the part in this folder: the first output that isn't what is told, if there is one.
pub fn read_failure<'a, R: Files + AllocGlobal>(
    rt: &R,
    folder: &'a str,
    outputs: &[OutputFacts],
) -> Failure<'a> {
    match see_sums(rt, folder, outputs) {
        Ok(()) => Failure::Read(folder),
        Err(failure) => failure,
    }
}
