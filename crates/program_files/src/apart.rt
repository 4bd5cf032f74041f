//! Outputs told apart from what is read, from each other and from standard output, before one of them is made or emptied.
use crate::faults::{Failure, OutputFile};
use crate::found_files::{FoundFiles, Place};
use crate::outputs::path_of;
use std::alloc::{AllocError, Global};
use std::fs::OpenFile;
use std::path::Path;
use std::rt::Files;

/// The file that standard output is.
pub(crate) const STANDARD_OUTPUT_FILE: &str = "/dev/stdout";

/// What a file is already that an output must not be.
#[derive(Clone, Copy)]
enum Taken {
    Input,
    Output(OutputFile),
}

/// The outputs in a folder that were looked at, and what they must not be.
#[derive(Drop)]
pub struct Apart<'f> {
    folder: &'f str,
    taken: FoundFiles<Taken>,
}

/// Refuses an open output that is one of others, and adds it to them. So those are told apart that a link led to before they
/// were made.
pub(crate) fn see_open<F: OpenFile>(
    others: &mut FoundFiles<OutputFile>,
    file: &F,
    output: OutputFile,
) -> Result<(), Failure<'static>> {
    let Ok(found) = file.metadata() else {
        return Ok(());
    };
    let Some(place) = Place::of(&found) else {
        return Ok(());
    };
    match others.at(place) {
        Some(other) => Err(Failure::OneFile(other, output)),
        None => {
            others.add(place, output)?;
            Ok(())
        }
    }
}

impl<'f> Apart<'f> {
    /// None of this folder yet.
    pub fn new(alloc: Global, folder: &'f str) -> Apart<'f> {
        Apart {
            folder,
            taken: FoundFiles::none(alloc),
        }
    }

    /// Adds a file that is read, where it is there.
    pub fn add_input<R: Files>(&mut self, rt: &R, path: Path<'_>) -> Result<(), AllocError> {
        self.taken.note(rt, path, Taken::Input)
    }

    /// Adds the file that standard output is, into which something is printed.
    pub fn add_printed<R: Files>(&mut self, rt: &R) -> Result<(), AllocError> {
        let path = Path::new(STANDARD_OUTPUT_FILE);
        self.taken.note(rt, path, Taken::Output(OutputFile::Stdout))
    }

    /// Refuses an output that is one of these files, under whatever name, and adds it.
    pub fn see<R: Files + AllocGlobal>(
        &mut self,
        rt: &R,
        output: OutputFile,
    ) -> Result<(), Failure<'static>> {
        let path = path_of(rt.alloc(), self.folder, output)?;
        match self.taken.at_path(rt, path.as_path()) {
            Some(Taken::Input) => Err(Failure::Write(output)),
            Some(Taken::Output(other)) => Err(Failure::OneFile(other, output)),
            None => {
                self.taken.note(rt, path.as_path(), Taken::Output(output))?;
                Ok(())
            }
        }
    }

    /// Refuses a file that is taken away before the outputs are written, and is one of those that are read.
    pub fn see_removed<R: Files + AllocGlobal>(
        &self,
        rt: &R,
        output: OutputFile,
    ) -> Result<(), Failure<'static>> {
        let path = path_of(rt.alloc(), self.folder, output)?;
        match self.taken.at_path(rt, path.as_path()) {
            Some(Taken::Input) => Err(Failure::Write(output)),
            _ => Ok(()),
        }
    }

    /// Refuses what a run of so many ports writes besides what a part says of itself, as [`Apart::see`] does.
    pub(crate) fn see_outputs<R: Files + AllocGlobal>(
        &mut self,
        rt: &R,
        ports: usize,
    ) -> Result<(), Failure<'static>> {
        for index in 0..ports {
            self.see(rt, OutputFile::Port(index + 1))?;
        }
        self.see(rt, OutputFile::Underlay)?;
        self.see(rt, OutputFile::Decisions)?;
        self.see(rt, OutputFile::Mark)
    }
}
