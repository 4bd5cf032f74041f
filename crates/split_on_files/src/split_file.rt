//! A file that a capture is split into.
use crate::naming::file_name;
use pcap::stream::{BlockOutput, Output, StdOutput};
use pcap::text::global_header;
use program_files::{
    FILES_OF_A_RUN, Failure, FoundFiles, OutputDevice, OutputFile, SystemFault, Unwritten,
    UnwrittenFile, file_of_run, path_of,
};
use std::alloc::{AllocError, Global};
use std::fs::OpenOptions;
use std::io::Write;
use std::path::{Path, PathBuf};
use std::rt::Files;

/// The octets that are written at once.
const BLOCK: usize = 16_384;

/// The capture of one interface, as it is written.
#[derive(Drop)]
pub struct SplitFile<F: Write + Drop> {
    /// The interface's name, empty where it has none.
    pub interface: Vec<u8>,
    /// The file's name in its folder.
    pub name: String,
    path: PathBuf,
    output: BlockOutput<StdOutput<OutputDevice<F>>>,
}

impl<F: Write + Drop> SplitFile<F> {
    /// Writes octets behind the others.
    pub fn write(&mut self, alloc: Global, octets: &[u8]) -> Result<(), Failure<'static>> {
        match self.output.write_all(octets) {
            Ok(()) => Ok(()),
            Err(_) => Err(self.failure(alloc)),
        }
    }

    /// Writes what is held back.
    pub fn finish(&mut self, alloc: Global) -> Result<(), Failure<'static>> {
        let is_finished = self.output.finish().is_ok();
        if is_finished && self.output.output().writer().fault().is_none() {
            return Ok(());
        }
        Err(self.failure(alloc))
    }

    /// Why it couldn't be written.
    fn failure(&self, alloc: Global) -> Failure<'static> {
        let fault = self.output.output().writer().fault();
        unwritten(alloc, self.path.as_path(), Unwritten::of(fault))
    }
}

/// That what stands at a path couldn't be written.
fn unwritten(alloc: Global, path: Path<'_>, why: Unwritten) -> Failure<'static> {
    match format!(in alloc; "{path}", path = path.as_str()) {
        Ok(path) => Failure::Unwritten(UnwrittenFile { path, why }),
        Err(error) => Failure::from(error),
    }
}

/// What a file is already that a file which a capture is split into must not be.
#[derive(Clone, Copy)]
pub enum Standing {
    /// The capture that is split.
    Capture,
    /// What standard output is, where the list is printed.
    Printed,
    /// What a run wrote into the folder.
    Run(OutputFile),
    /// The file of the interface with this number.
    Split(u32),
}

/// What a capture's file and the folder that it is split into have already.
pub fn taken_in<R: Files + AllocGlobal>(
    rt: &R,
    folder: &str,
    capture_file: &str,
) -> Result<FoundFiles<Standing>, AllocError> {
    let mut taken = FoundFiles::none(rt.alloc());
    taken.note(rt, Path::new(capture_file), Standing::Capture)?;
    taken.note(rt, Path::new("/dev/stdout"), Standing::Printed)?;
    for index in 0..FILES_OF_A_RUN {
        let output = file_of_run(index);
        let path = path_of(rt.alloc(), folder, output)?;
        taken.note(rt, path.as_path(), Standing::Run(output))?;
    }
    Ok(taken)
}

/// Why a file isn't written that is this one.
fn why_not(alloc: Global, folder: &str, taken: Standing) -> Result<Unwritten, AllocError> {
    let name = match taken {
        Standing::Capture => return Ok(Unwritten::Untold),
        Standing::Printed => format!(in alloc; "standard output")?,
        Standing::Run(output) => format!(in alloc; "{folder}/{output}")?,
        Standing::Split(number) => format!(in alloc; "that of interface {number}")?,
    };
    Ok(Unwritten::Is(name))
}

/// Opens the file of the interface with this number and name in a folder, empties it, and writes the header of its capture. One
/// that is taken isn't opened, and what is opened is taken then.
pub fn open_split_file<R: Files + AllocGlobal>(
    rt: &R,
    folder: &str,
    taken: &mut FoundFiles<Standing>,
    number: u32,
    interface: &[u8],
) -> Result<SplitFile<R::File>, Failure<'static>> {
    let alloc = rt.alloc();
    let name = file_name(alloc, number, interface)?;
    let path = Path::new(folder).join(alloc, name.as_str())?;
    if let Some(other) = taken.at_path(rt, path.as_path()) {
        let why = why_not(alloc, folder, other)?;
        return Err(unwritten(alloc, path.as_path(), why));
    }
    let opened = OpenOptions::new()
        .write(true)
        .create(true)
        .truncate(true)
        .open(rt, path.as_path());
    let file = match opened {
        Ok(file) => file,
        Err(error) => {
            let why = Unwritten::of(SystemFault::of(&error));
            return Err(unwritten(alloc, path.as_path(), why));
        }
    };
    taken.note(rt, path.as_path(), Standing::Split(number))?;
    let mut interface_name = Vec::new(alloc);
    interface_name.extend_from_slice(interface)?;
    let output = BlockOutput::new(alloc, StdOutput::new(OutputDevice::new(file)), BLOCK)?;
    let mut file = SplitFile {
        interface: interface_name,
        name,
        path,
        output,
    };
    file.write(alloc, &global_header())?;
    Ok(file)
}
