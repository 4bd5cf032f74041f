//! What is read of a part of a run: the files in its folder.
use crate::faults::{Failure, OutputFile};
use crate::outputs::path_of;
use line_stream::{Lines, LinesFault};
use octet_sums::fletcher::OctetSum;
use part_lines::{LineFacts, PartFault, Places, read_line};
use part_record::{RecordCounts, SumInput};
use pcap::stream::{Input, StdInput};
use std::alloc::AllocError;
use std::fs;
use std::io::BufReader;
use std::rt::Files;

/// How many octets of a part's file are read at once.
const PART_BLOCK: usize = 16_384;

/// The octets of a part's file, read in blocks.
pub type PartFile<F> = StdInput<BufReader<F>>;

/// The octets of an output of a part, which have to be those that are told.
pub type PartInput<F> = SumInput<PartFile<F>>;

/// What the decision lines of a part tell together.
#[derive(Clone, Copy)]
pub struct PartLines {
    /// How many events.
    pub events: u64,
    /// How many lines, those of cut captures with them.
    pub lines: u64,
    /// How many records of each capture.
    pub records: RecordCounts,
}

/// Opens a file of the part in this folder. Nothing of it is read yet.
pub fn open_part_file<'a, R: Files + AllocGlobal>(
    rt: &R,
    folder: &'a str,
    output: OutputFile,
) -> Result<PartFile<R::File>, Failure<'a>> {
    let path = path_of(rt.alloc(), folder, output)?;
    let Ok(file) = fs::open(rt, path.as_path()) else {
        return Err(Failure::Read(folder));
    };
    match BufReader::with_capacity(rt.alloc(), PART_BLOCK, file) {
        Ok(reader) => Ok(StdInput::new(reader)),
        Err(_) => Err(Failure::from(AllocError)),
    }
}

/// Opens an output of the part in this folder, of which these sums are told. Nothing of it is read yet.
pub fn open_output<'a, R: Files + AllocGlobal>(
    rt: &R,
    folder: &'a str,
    output: OutputFile,
    told: OctetSum,
) -> Result<PartInput<R::File>, Failure<'a>> {
    match open_part_file(rt, folder, output) {
        Ok(input) => Ok(SumInput::new(input, told)),
        Err(failure) => Err(failure),
    }
}

/// Whether an output of the part in this folder has the sums that are told of it. It is read whole.
pub fn is_as_told<'a, R: Files + AllocGlobal>(
    rt: &R,
    folder: &'a str,
    output: OutputFile,
    told: OctetSum,
) -> Result<bool, Failure<'a>> {
    let mut input = match open_output(rt, folder, output, told) {
        Ok(input) => input,
        Err(failure) => return Err(failure),
    };
    let mut block = [0; PART_BLOCK];
    for _ in 0..u64::MAX {
        match input.read(&mut block) {
            Ok(0) => return Ok(true),
            Ok(_) => {}
            Err(_) => break,
        }
    }
    if input.is_other() {
        Ok(false)
    } else {
        Err(Failure::Read(folder))
    }
}

/// Whether an output of the part in this folder may have so many octets: whether it is a file of as many, or none that can be
/// asked.
pub fn may_have_octets<R: Files + AllocGlobal>(
    rt: &R,
    folder: &str,
    output: OutputFile,
    octets: u64,
) -> Result<bool, AllocError> {
    let path = path_of(rt.alloc(), folder, output)?;
    match fs::metadata(rt, path.as_path()) {
        Ok(found) => Ok(!found.is_file() || found.len() == octets),
        Err(_) => Ok(true),
    }
}

/// What the decision lines of the part in this folder tell together.
pub fn count_lines<'a, R: Files + AllocGlobal>(
    rt: &R,
    folder: &'a str,
) -> Result<PartLines, Failure<'a>> {
    let input = match open_part_file(rt, folder, OutputFile::Decisions) {
        Ok(input) => input,
        Err(failure) => return Err(failure),
    };
    let mut lines = Lines::new(rt.alloc(), input)?;
    let mut told = PartLines {
        events: 0,
        lines: 0,
        records: RecordCounts::new(),
    };
    for _ in 0..u64::MAX {
        match lines.fetch() {
            Ok(()) => {}
            Err(LinesFault::Read) => return Err(Failure::Read(folder)),
            Err(LinesFault::TooLong) => return Err(Failure::in_part(folder, PartFault::LongLine)),
        }
        let line = lines.line();
        if line.is_empty() {
            return Ok(told);
        }
        match read_line(line) {
            Ok(facts) => told.add(facts),
            Err(fault) => return Err(Failure::in_part(folder, PartFault::Line(fault))),
        }
    }
    Err(Failure::Read(folder))
}

impl PartLines {
    /// Counts one more line.
    fn add(&mut self, line: LineFacts<'_>) {
        self.lines = self.lines.saturating_add(1);
        if let LineFacts::Event(_, places) = line {
            self.events = self.events.saturating_add(1);
            count_places(&mut self.records, places);
        }
    }
}

/// Counts a record of each place.
fn count_places(records: &mut RecordCounts, places: Places<'_>) {
    let mut places = places;
    while let Some(tap) = places.next_place() {
        records.count(tap);
    }
}
