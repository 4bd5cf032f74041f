//! The files that a run writes.
//!
//! All are opened, and all memory for them is asked for, before the first is emptied. Where the folder doesn't exist the first of
//! them can't be written: status 3, and nothing else stands on disk.
ghost use Rattle.std.specs.Prelude.{◌≡◌, [], IfOk, length};
ghost use Rattle.program_files.specs.Held.{AreHeld, IsHeld, written};

use crate::apart::{Apart, see_open};
use crate::faults::{Failure, OutputFile};
use crate::found_files::FoundFiles;
use crate::names::Names;
use crate::output_device::OutputDevice;
use arrayvec::ArrayVec;
use octet_sums::fletcher::OctetSum;
use part_record::{MOST_PORTS, SumOutput};
use pcap::stream::{BlockOutput, Sink, StdOutput};
use std::alloc::{AllocError, Global};
use std::fs::{self, OpenFile, OpenOptions};
use std::io::{self, Write};
use std::marker::Model;
use std::path::{Path, PathBuf};
use std::rt::Files;
use timeline::RunOutputs;

/// How many octets of a capture are written at once.
const BLOCK: usize = 65_536;

/// How many octets of the decision lines are. All blocks go on where that of the lines may lack room for the longest line, of
/// some 59,000 octets: so they go on no more often than those of the captures.
const LINES_BLOCK: usize = 131_072;

/// Where a run writes.
#[derive(Clone, Copy, Debug)]
pub struct Destination<'f> {
    /// The folder's name.
    pub name: &'f str,
    /// Whether the decision lines are written as JSON objects, too, by one who looks on at the run.
    pub objects: bool,
    /// Whether something is printed besides.
    pub prints: bool,
}

/// A file that is written in blocks, whose octets are summed where a part writes it.
pub type Written<F> = BlockOutput<SumOutput<StdOutput<OutputDevice<F>>>>;

/// The sums of a part's outputs.
#[derive(Drop)]
pub struct OutputSums {
    pub decisions: OctetSum,
    pub underlay: OctetSum,
    /// Of port 1's capture, port 2's and so on.
    pub ports: ArrayVec<OctetSum, MOST_PORTS>,
}

/// The empty file in which a part is to say what it was made from, and the sums of the outputs that stand.
#[derive(Drop)]
pub struct PartRecordFile<F: Drop> {
    pub file: F,
    pub sums: OutputSums,
}

/// What a run writes: the ports' captures rising, the underlay's, and the decision lines. A part of a run also says what it
/// was made from.
#[derive(Drop)]
pub struct OutputFiles<F: Write + Drop> {
    pub files: RunOutputs<Written<F>>,
    /// The file in which a part is to say what it was made from.
    pub part_file: Option<F>,
}

/// The same files, opened, with what stood in them, of which nothing is written yet; seen by contracts as the number of ports. They are written in blocks: captures of 64 KiB, and decision lines of 128.
#[derive(Drop)]
pub struct Opened<F: Write + Drop> {
    ports: Vec<Written<F>>,
    underlay: Written<F>,
    decisions: Written<F>,
    part_file: Option<F>,
    /// Room for the captures of the ports once they are empty.
    emptied: Vec<Sink<Written<F>>>,
}

impl<F: Write + Drop> Model for Opened<F> {
    ghost use Rattle.std.specs.Prelude.{◌≡◌, ℕ, [], length};
    ghost use Rattle.program_files.specs.Held.{AreUnwritten};

    ghost Value = { ℕ };

    ghost view = { λ o. length o.ports.items };

    ghost invariant = { λ o. AreUnwritten o.ports.items o.underlay o.decisions × (o.emptied.items ≡ []) };
}

/// Refuses an output that is one of the files that are read, since to write it would be to cut what is still to be read, and one
/// that is another output or, where something is printed, what standard output is. Of what a part leaves besides, which a run
/// takes away, those that are read are refused. A part reads its decision lines again: where they stand, a regular file has to be.
pub fn spare_inputs<R: Files + AllocGlobal>(
    rt: &R,
    to: Destination<'_>,
    names: Names<'_, '_>,
    is_part: bool,
) -> Result<(), Failure<'static>> {
    let mut apart = Apart::new(rt.alloc(), to.name);
    names.add_to(rt, &mut apart)?;
    if to.prints {
        apart.add_printed(rt)?;
    }
    apart.see_outputs(rt, names.ports.len())?;
    if to.objects {
        apart.see(rt, OutputFile::Objects)?;
    }
    if is_part {
        apart.see(rt, OutputFile::PartRecord)?;
        see_lines(rt, to.name)?;
    } else {
        apart.see_removed(rt, OutputFile::PartRecord)?;
    }
    apart.see_removed(rt, OutputFile::Tables)?;
    apart.see_removed(rt, OutputFile::Summary)
}

/// Refuses decision lines that are none of a regular file, where there are any.
fn see_lines<R: Files + AllocGlobal>(rt: &R, folder: &str) -> Result<(), Failure<'static>> {
    if is_read_again(rt, folder, OutputFile::Decisions)? {
        Ok(())
    } else {
        Err(Failure::ReadAgain(OutputFile::Decisions))
    }
}

/// Whether an output can be read as often as one likes, or isn't there.
pub fn is_read_again<R: Files + AllocGlobal>(
    rt: &R,
    folder: &str,
    output: OutputFile,
) -> Result<bool, AllocError> {
    let path = path_of(rt.alloc(), folder, output)?;
    match fs::metadata(rt, path.as_path()) {
        Ok(found) => Ok(found.is_file()),
        Err(_) => Ok(true),
    }
}

/// How many files a run or a part may leave in its folder, the mark among them.
pub const FILES_OF_A_RUN: usize = MOST_PORTS + 7;

/// The file of this number of those that a run or a part may leave in its folder.
pub fn file_of_run(index: usize) -> OutputFile {
    match index.checked_sub(MOST_PORTS) {
        None => OutputFile::Port(index.saturating_add(1)),
        Some(0) => OutputFile::Underlay,
        Some(1) => OutputFile::Decisions,
        Some(2) => OutputFile::Objects,
        Some(3) => OutputFile::PartRecord,
        Some(4) => OutputFile::Tables,
        Some(5) => OutputFile::Summary,
        Some(_) => OutputFile::Mark,
    }
}

/// Where an output stands.
pub fn path_of(alloc: Global, folder: &str, output: OutputFile) -> Result<PathBuf, AllocError> {
    let name = format!(in alloc; "{output}")?;
    Path::new(folder).join(alloc, name.as_str())
}

/// Opens the outputs of so many ports in a folder, of a part of a run or of a whole, and makes those that aren't there. What
/// stands in them is kept.
pub fn open_outputs<R: Files + AllocGlobal>(
    rt: &R,
    folder: &str,
    is_part: bool,
    count: usize,
) -> Result<Opened<R::File>, Failure<'static>>
    ensures { IfOk result (λ opened. opened ≡ count) }
{
    let mut ports = Vec::new(rt.alloc());
    for index in 0..count {
        let file = match open_written(rt, folder, OutputFile::Port(index + 1), is_part) {
            Ok(file) => file,
            Err(failure) => return Err(failure),
        };
        if ports.push(file).is_err() {
            return Err(Failure::from(AllocError));
        }
    }
    let underlay = match open_written(rt, folder, OutputFile::Underlay, is_part) {
        Ok(file) => file,
        Err(failure) => return Err(failure),
    };
    let decisions = match open_written(rt, folder, OutputFile::Decisions, is_part) {
        Ok(file) => file,
        Err(failure) => return Err(failure),
    };
    let part_file = if is_part {
        match open(rt, folder, OutputFile::PartRecord) {
            Ok(file) => Some(file),
            Err(failure) => return Err(failure),
        }
    } else {
        None
    };
    match Vec::with_capacity(rt.alloc(), count) {
        Ok(emptied) => Ok(Opened {
            ports,
            underlay,
            decisions,
            part_file,
            emptied,
        }),
        Err(error) => Err(Failure::from(error)),
    }
}

/// Opens an output that is written in blocks, and summed if a part writes it.
fn open_written<R: Files + AllocGlobal>(
    rt: &R,
    folder: &str,
    output: OutputFile,
    is_part: bool,
) -> Result<Written<R::File>, Failure<'static>>
    ensures { IfOk result (λ written. written.held ≡ []) }
{
    let file = match open(rt, folder, output) {
        Ok(file) => file,
        Err(failure) => return Err(failure),
    };
    let device = StdOutput::new(OutputDevice::new(file));
    let block = match output {
        OutputFile::Decisions => LINES_BLOCK,
        _ => BLOCK,
    };
    match BlockOutput::new(rt.alloc(), SumOutput::new(device, is_part), block) {
        Ok(written) => Ok(written),
        Err(error) => Err(Failure::from(error)),
    }
}

/// The file that an output is written into.
fn file_of<F: Write + Drop>(written: &Written<F>) -> &F
    ensures { F.contents result.now ≡ written.now.written }
{
    written.output().output().writer().file()
}

/// Opens the file of the decision lines as objects, where they are to be written so, and makes it where it isn't there. What
/// stands in it is kept. A pipe or a device isn't opened, since who reads it would see an end when it is let go.
pub fn open_objects<R: Files + AllocGlobal>(
    rt: &R,
    to: Destination<'_>,
) -> Result<Option<R::File>, Failure<'static>> {
    if !to.objects || !is_read_again(rt, to.name, OutputFile::Objects)? {
        return Ok(None);
    }
    match open(rt, to.name, OutputFile::Objects) {
        Ok(file) => Ok(Some(file)),
        Err(failure) => Err(failure),
    }
}

/// Empties the file of the decision lines as objects, where one was opened, and lets it go.
pub fn empty_objects<F: OpenFile + Drop>(file: Option<F>) -> Result<(), Failure<'static>> {
    match file {
        Some(file) => cut(&file).map_err(|error| Failure::writing(OutputFile::Objects, &error)),
        None => Ok(()),
    }
}

/// Opens an output.
fn open<R: Files + AllocGlobal>(
    rt: &R,
    folder: &str,
    output: OutputFile,
) -> Result<R::File, Failure<'static>> {
    let path = path_of(rt.alloc(), folder, output)?;
    OpenOptions::new()
        .write(true)
        .create(true)
        .open(rt, path.as_path())
        .map_err(|error| Failure::writing(output, &error))
}

impl<F: Write + OpenFile + Drop> Opened<F> {
    /// Refuses two of the files that are one: where a link led nowhere, the file wasn't there to be asked before it was opened.
    pub fn see_apart(&self, alloc: Global) -> Result<(), Failure<'static>> {
        let mut others = FoundFiles::none(alloc);
        for (index, port) in self.ports.iter().enumerate() {
            let output = OutputFile::Port(index.saturating_add(1));
            see_open(&mut others, file_of(port), output)?;
        }
        see_open(&mut others, file_of(&self.underlay), OutputFile::Underlay)?;
        see_open(&mut others, file_of(&self.decisions), OutputFile::Decisions)?;
        match &self.part_file {
            Some(file) => see_open(&mut others, file, OutputFile::PartRecord),
            None => Ok(()),
        }
    }

    /// Empties the files, the decision lines first, which tell of the captures. No memory is asked for any more.
    pub fn emptied(self) -> Result<OutputFiles<F>, Failure<'static>>
        ensures count { IfOk result (λ outputs. length outputs.files.ports ≡ self) }
        ensures in_files { IfOk result (λ outputs. AreHeld F.contents (written outputs.files)) }
    {
        let Opened {
            ports: files,
            underlay,
            decisions,
            part_file,
            emptied: mut ports,
        } = self;
        // A part that stops says of nothing that it was made from it.
        if let Some(file) = &part_file {
            if let Err(error) = cut(file) {
                return Err(Failure::writing(OutputFile::PartRecord, &error));
            }
        }
        if let Err(failure) = empty(&decisions, OutputFile::Decisions) {
            return Err(failure);
        }
        for file in files {
            if let Err(failure) = empty(&file, OutputFile::Port(ports.len() + 1)) {
                return Err(failure);
            }
            if ports.push(Sink::new(file)).is_err() {
                return Err(Failure::from(AllocError));
            }
        }
        match empty(&underlay, OutputFile::Underlay) {
            Ok(()) => {
                let files = RunOutputs {
                    ports,
                    underlay: Sink::new(underlay),
                    decisions,
                };
                Ok(OutputFiles { files, part_file })
            }
            Err(failure) => Err(failure),
        }
    }
}

/// Empties an output.
fn empty<F: Write + OpenFile + Drop>(
    written: &Written<F>,
    output: OutputFile,
) -> Result<(), Failure<'static>>
    ensures { IsHeld F.contents written.now.written }
{
    match cut(file_of(written)) {
        Ok(()) => Ok(()),
        Err(error) => Err(Failure::writing(output, &error)),
    }
}

/// Takes what stands in a file out of it. A pipe or a device holds nothing.
fn cut<F: OpenFile>(file: &F) -> io::Result<()> {
    if file.metadata()?.is_file() {
        file.set_len(0)
    } else {
        Ok(())
    }
}
