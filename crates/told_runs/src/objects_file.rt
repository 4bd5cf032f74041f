//! The file of the decision lines as JSON objects.
//!
//! It is made anew when the first block of objects goes out, by one who looks on at a run: so where the texts are refused, or an
//! output can't be opened, what stands in it is kept.
ghost use Rattle.std.specs.Prelude.{None};

use crate::directions::LeavesOut;
use decision_objects::Objects;
use overlay_config::TimedChange;
use pcap::stream::{BlockOutput, StdOutput};
use program_files::{Failure, OutputDevice, OutputFile, SystemFault, path_of};
use std::alloc::AllocError;
use std::fs::OpenOptions;
use std::io::{self, ErrorKind, Write};
use std::path::PathBuf;
use std::rt::Files;
use timeline::{Cut, Tap};

/// How many octets are written at once.
const BLOCK: usize = 65_536;

/// The objects' file, written in blocks.
pub(crate) type ObjectsFile<'r, R> = BlockOutput<StdOutput<LateFile<'r, R>>>;

/// Who writes the objects of a run into that file.
pub(crate) type RunObjects<'r, 'c, R> = Objects<'c, ObjectsFile<'r, R>>;

/// A file that is made anew when it is first written.
#[derive(Drop)]
pub(crate) struct LateFile<'r, R: Files> {
    rt: &'r R,
    path: PathBuf,
    file: Option<OutputDevice<R::File>>,
    /// What the system told of the last time that it couldn't be made.
    unmade: Option<SystemFault>,
}

/// The objects' file of a folder, which isn't opened yet.
fn objects_file<'r, R: Files + AllocGlobal>(
    rt: &'r R,
    folder: &str,
) -> Result<ObjectsFile<'r, R>, AllocError> {
    let file = LateFile {
        rt,
        path: path_of(rt.alloc(), folder, OutputFile::Objects)?,
        file: None,
        unmade: None,
    };
    BlockOutput::new(rt.alloc(), StdOutput::new(file), BLOCK)
}

/// Who writes the objects of a run with these changes into its folder, where it has one and they are wanted.
pub(crate) fn objects_of_run<'r, 'c, R: Files + AllocGlobal>(
    rt: &'r R,
    folder: Option<&str>,
    is_wanted: bool,
    changes: &'c [TimedChange],
) -> Result<Option<RunObjects<'r, 'c, R>>, AllocError> {
    match folder {
        Some(folder) if is_wanted => {
            let file = objects_file(rt, folder)?;
            Ok(Some(Objects::new(file, changes)))
        }
        _ => Ok(None),
    }
}

/// Hands on what the block holds of a run that stopped. Where no object was written, the file isn't made.
pub(crate) fn leave_objects<R: Files>(objects: Option<RunObjects<'_, '_, R>>) {
    if let Some(objects) = objects {
        let mut file = objects.into_output();
        let _ = file.finish();
    }
}

/// Writes the objects of the captures that are cut, and hands on what the block holds, where all that was told could be written
/// so far. The file is made where nothing was.
pub(crate) fn finish_objects<R: Files, L: LeavesOut>(
    objects: Option<RunObjects<'_, '_, R>>,
    sieve: &L,
    cut: &[Tap],
) -> Result<(), Failure<'static>> {
    let Some(objects) = objects else {
        return Ok(());
    };
    let mut objects = objects;
    for tap in cut {
        let came = objects.records(*tap);
        let whole = came.saturating_add(sieve.left_out_at(*tap));
        objects.cut(&Cut { tap: *tap, whole });
    }
    let is_failed = objects.is_failed();
    let mut file = objects.into_output();
    let is_handed_on = !is_failed && file.finish().is_ok();
    let mut late = file.into_inner().into_inner();
    if is_handed_on && late.file().is_ok() {
        return Ok(());
    }
    match late.fault() {
        Some(fault) => Err(Failure::WriteFailed(OutputFile::Objects, fault)),
        None => Err(Failure::Write(OutputFile::Objects)),
    }
}

impl<'r, R: Files> LateFile<'r, R> {
    /// The file, which is made anew where it wasn't yet.
    fn file(&mut self) -> io::Result<&mut OutputDevice<R::File>> {
        if self.file.is_none() {
            let opened = OpenOptions::new()
                .write(true)
                .create(true)
                .truncate(true)
                .open(self.rt, self.path.as_path());
            match opened {
                Ok(file) => self.file = Some(OutputDevice::new(file)),
                Err(error) => {
                    self.unmade = SystemFault::of(&error);
                    return Err(error);
                }
            }
        }
        match &mut self.file {
            Some(file) => Ok(file),
            None => Err(io::Error::from(ErrorKind::Other)),
        }
    }

    /// What the system told of the last write that failed, or of a file that couldn't be made.
    fn fault(&self) -> Option<SystemFault> {
        match &self.file {
            Some(file) => file.fault(),
            None => self.unmade,
        }
    }
}

impl<'r, R: Files> Write for LateFile<'r, R> {
    ghost contents = { λ _. None };

    fn write(&mut self, octets: &[u8]) -> io::Result<usize> {
        match self.file() {
            Ok(file) => file.write(octets),
            Err(error) => Err(error),
        }
    }

    fn flush(&mut self) -> io::Result<()> {
        match &mut self.file {
            Some(file) => file.flush(),
            None => Ok(()),
        }
    }
}
