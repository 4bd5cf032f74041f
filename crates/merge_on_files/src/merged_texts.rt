//! What the parts of a run told, as the whole run tells it.
use crate::looking::Looked;
use octet_sums::fletcher::OctetSum;
use part_record::ToldTexts;
use program_files::{Failure, OutputFile, PartFailure, open_part_file, path_of, read_text, sum_of};
use run_counts::parts::{ReportFault, Summary, TablesFault, rows_in, tables_of};
use std::alloc::AllocError;
use std::fs;
use std::io::ErrorKind;
use std::rt::Files;
use tunnel_traffic::told::{TrafficFault, TunnelTables, parted};

/// How many reads are made of a text that a part left, at most.
const TEXT_READS: u64 = 4_294_967_296;

/// What is asked for of parts besides the outputs.
#[derive(Clone, Copy)]
pub struct TextsAsked {
    /// The tables at the end.
    pub tables: bool,
    /// What was counted.
    pub summary: bool,
}

impl TextsAsked {
    /// Whether one of them is asked for.
    pub fn is_any(self) -> bool {
        self.tables || self.summary
    }
}

/// What the whole run tells besides its outputs; empty, where it isn't asked for.
#[derive(Drop)]
pub struct MergedTexts {
    pub tables: Vec<u8>,
    pub summary: Vec<u8>,
}

/// What the parts in these folders, of which this was seen, told of a run on so many ports, put together.
pub fn merge_texts<'a, R: Files + AllocGlobal>(
    rt: &R,
    folders: &[&'a str],
    looked: &Looked,
    ports: u8,
    asked: TextsAsked,
) -> Result<MergedTexts, Failure<'a>> {
    let tables = if asked.tables {
        match merge_tables(rt, folders, looked) {
            Ok(text) => text,
            Err(failure) => return Err(failure),
        }
    } else {
        Vec::new(rt.alloc())
    };
    let summary = if asked.summary {
        match merge_summaries(rt, folders, looked.texts.as_slice(), ports) {
            Ok(text) => text,
            Err(failure) => return Err(failure),
        }
    } else {
        Vec::new(rt.alloc())
    };
    Ok(MergedTexts { tables, summary })
}

/// The tables of all parts.
fn merge_tables<'a, R: Files + AllocGlobal>(
    rt: &R,
    folders: &[&'a str],
    looked: &Looked,
) -> Result<Vec<u8>, Failure<'a>> {
    let mut texts = Vec::new(rt.alloc());
    for (folder, told) in folders.iter().zip(&looked.texts) {
        let text = match read_left(rt, *folder, OutputFile::Tables, told.tables) {
            Ok(text) => text,
            Err(failure) => return Err(failure),
        };
        if texts.push(text).is_err() {
            return Err(Failure::from(AllocError));
        }
    }
    let mut rows = Vec::new(rt.alloc());
    for ((folder, text), segments) in folders.iter().zip(&texts).zip(&looked.segments) {
        let more = match rows_in(rt.alloc(), text.as_slice(), segments) {
            Ok(more) => more,
            Err(TablesFault::OutOfMemory) => return Err(Failure::from(AllocError)),
            Err(TablesFault::Line(line)) => {
                return Err(wrong_line(*folder, OutputFile::Tables, line));
            }
        };
        rows.extend_from_slice(more.as_slice())?;
    }
    Ok(tables_of(rt.alloc(), rows.as_slice())?)
}

/// The counts of all parts, and what passed by their tunnels.
fn merge_summaries<'a, R: Files + AllocGlobal>(
    rt: &R,
    folders: &[&'a str],
    told: &[ToldTexts],
    ports: u8,
) -> Result<Vec<u8>, Failure<'a>> {
    let mut all = Summary::none(rt.alloc())?;
    let mut passed = TunnelTables::none(rt.alloc())?;
    for (folder, told) in folders.iter().zip(told) {
        let text = match read_left(rt, *folder, OutputFile::Summary, told.summary) {
            Ok(text) => text,
            Err(failure) => return Err(failure),
        };
        let (counts, tunnels) = parted(text.as_slice());
        if let Err(failure) = add_counts(rt, *folder, counts, ports, &mut all) {
            return Err(failure);
        }
        if let Err(failure) = add_tunnels(rt, *folder, counts, tunnels, &mut passed) {
            return Err(failure);
        }
    }
    let mut text = all.to_text(rt.alloc(), ports)?;
    let behind = passed.to_text(rt.alloc())?;
    text.extend_from_slice(behind.as_slice())?;
    Ok(text)
}

/// Adds the counts of the part in this folder.
fn add_counts<'a, R: AllocGlobal>(
    rt: &R,
    folder: &'a str,
    text: &[u8],
    ports: u8,
    all: &mut Summary,
) -> Result<(), Failure<'a>> {
    match Summary::read(rt.alloc(), text, ports) {
        Ok(summary) => {
            all.add(&summary)?;
            Ok(())
        }
        Err(ReportFault::OutOfMemory) => Err(Failure::from(AllocError)),
        Err(ReportFault::Line(line)) => Err(wrong_line(folder, OutputFile::Summary, line)),
    }
}

/// Adds what passed by the tunnels of the part in this folder, which stands behind its counts.
fn add_tunnels<'a, R: AllocGlobal>(
    rt: &R,
    folder: &'a str,
    counts: &[u8],
    text: &[u8],
    all: &mut TunnelTables,
) -> Result<(), Failure<'a>> {
    match TunnelTables::read(rt.alloc(), text) {
        Ok(tables) => {
            all.add(&tables);
            Ok(())
        }
        Err(TrafficFault::OutOfMemory) => Err(Failure::from(AllocError)),
        Err(TrafficFault::Line(line)) => {
            let before = counts.iter().filter(|c| **c == b'\n').count();
            let number = before.saturating_add(line);
            Err(wrong_line(folder, OutputFile::Summary, number))
        }
    }
}

/// A text that the part in this folder left, of which these sums are told.
fn read_left<'a, R: Files + AllocGlobal>(
    rt: &R,
    folder: &'a str,
    output: OutputFile,
    told: Option<OctetSum>,
) -> Result<Vec<u8>, Failure<'a>> {
    let Some(told) = told else {
        return Err(Failure::Part(folder, PartFailure::Lacks(output)));
    };
    let path = path_of(rt.alloc(), folder, output)?;
    if let Err(error) = fs::metadata(rt, path.as_path()) {
        if error.kind() == ErrorKind::NotFound {
            return Err(Failure::Part(folder, PartFailure::Lacks(output)));
        }
    }
    let mut input = match open_part_file(rt, folder, output) {
        Ok(input) => input,
        Err(failure) => return Err(failure),
    };
    match read_text(rt.alloc(), &mut input, TEXT_READS) {
        Ok(text) if sum_of(text.as_slice()).is_same(told) => Ok(text),
        Ok(_) => Err(Failure::Part(folder, PartFailure::Sums(output))),
        Err(fault) => Err(Failure::reading(folder, fault)),
    }
}

/// That this line of a text which the part in this folder left isn't what stands there in such a text.
fn wrong_line<'a>(folder: &'a str, output: OutputFile, line: usize) -> Failure<'a> {
    Failure::Part(folder, PartFailure::Report(output, line))
}
