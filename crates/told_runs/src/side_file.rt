//! A file that a run is asked for besides its outputs, or standard output for it.
//!
//! The file is opened and emptied when the first block of it goes out, while a run goes: so where the texts are refused, or an
//! output can't be opened, what stands in it is kept. It may be no file that is read and no other output: those that stand are
//! looked at before the run, and all once more when it is opened, for then all outputs are there.
ghost use Rattle.std.specs.Io.{WritesAtMost};
ghost use Rattle.std.specs.Prelude.{None};

use crate::run::AskedJob;
use pcap::stream::{BlockOutput, StdOutput};
use program_files::{
    FILES_OF_A_RUN, Failure, FoundFiles, Names, OutputDevice, OutputFile, SystemFault, Unwritten,
    UnwrittenFile, file_of, file_of_run, path_of, place_of,
};
use std::alloc::{AllocError, Global};
use std::fs::{OpenFile, OpenOptions};
use std::io::{self, ErrorKind, Write};
use std::path::Path;
use std::rt::Files;

/// How many octets are written at once, where no capture may wait.
const BLOCK: usize = 65_536;

/// The name by which standard output is asked for, and the file that it is.
const STANDARD_OUTPUT: &str = "-";

const STANDARD_OUTPUT_FILE: &str = "/dev/stdout";

/// A file that is asked for, and what it may not be.
#[derive(Clone, Copy)]
struct AskedFile<'n, 'a> {
    name: &'a str,
    /// Another one that is asked for.
    other: Option<&'a str>,
    names: Names<'n, 'a>,
    folder: Option<&'n str>,
    /// Whether something is printed on standard output.
    prints: bool,
}

/// Such a file, written in blocks.
pub(crate) type SideOutput<'r, 'n, 'a, R> = BlockOutput<StdOutput<SideFile<'r, 'n, 'a, R>>>;

/// What a file is already that another must not be.
#[derive(Clone, Copy)]
enum Taken<'a> {
    Named(&'a str),
    Output(OutputFile),
}

/// A file that is opened and emptied when it is first written; or standard output, whose reader may go away.
#[derive(Drop)]
pub(crate) struct SideFile<'r, 'n, 'a, R: Files> {
    rt: &'r R,
    asked: AskedFile<'n, 'a>,
    file: Option<OutputDevice<R::File>>,
    /// Why it can't be written, as far as that was told.
    why: Option<Unwritten>,
    /// Whether nobody reads standard output any more.
    is_left: bool,
}

/// The file of this name, which a run is asked for, and maybe another one. One that stands and is read, or is another output, is
/// refused.
pub(crate) fn side_output<'r, 'n, 'a, R: Files + AllocGlobal + Print>(
    rt: &'r R,
    job: AskedJob<'n, 'n, 'a>,
    name: &'a str,
    other: Option<&'a str>,
) -> Result<SideOutput<'r, 'n, 'a, R>, Failure<'static>> {
    let asked = AskedFile {
        name,
        other,
        names: job.names,
        folder: job.folder,
        prints: !job.asked.is_nothing(),
    };
    if let Some(name) = taken_as(rt, rt.alloc(), asked)? {
        return Err(unwritten(rt.alloc(), asked.name, Unwritten::Is(name)));
    }
    let block = if asked.names.are_regular_files(rt) {
        BLOCK
    } else {
        0
    };
    let file = SideFile {
        rt,
        asked,
        file: None,
        why: None,
        is_left: false,
    };
    let output = BlockOutput::new(rt.alloc(), StdOutput::new(file), block)?;
    Ok(output)
}

/// Hands on what the block holds, where all could be written so far. The file is made where nothing was.
pub(crate) fn finish_side<R: Files + AllocGlobal + Print>(
    output: SideOutput<'_, '_, '_, R>,
    is_failed: bool,
) -> Result<(), Failure<'static>> {
    let mut output = output;
    let is_handed_on = !is_failed && output.finish().is_ok();
    let mut file = output.into_inner().into_inner();
    if is_handed_on && file.make().is_ok() {
        return Ok(());
    }
    Err(file.into_failure())
}

/// What a file is already, if anything: a file that is read, or another output. It is told as it is called.
fn taken_as<R: Files>(
    rt: &R,
    alloc: Global,
    asked: AskedFile<'_, '_>,
) -> Result<Option<String>, AllocError> {
    let Some(place) = place_of(rt, Path::new(path_asked(asked.name))) else {
        return Ok(None);
    };
    let mut files = FoundFiles::none(alloc);
    note_inputs(rt, &mut files, asked.names)?;
    if let Some(other) = asked.other {
        files.note(rt, Path::new(path_asked(other)), Taken::Named(other))?;
    }
    if asked.prints {
        let path = Path::new(STANDARD_OUTPUT_FILE);
        files.note(rt, path, Taken::Output(OutputFile::Stdout))?;
    }
    let folder = asked.folder.unwrap_or("");
    if asked.folder.is_some() {
        note_outputs(rt, alloc, &mut files, folder)?;
    }
    let name = match files.at(place) {
        None => return Ok(None),
        Some(Taken::Named(name)) => String::from_str(alloc, name)?,
        Some(Taken::Output(OutputFile::Stdout)) => String::from_str(alloc, STANDARD_OUTPUT_FILE)?,
        Some(Taken::Output(output)) => format!(in alloc; "{folder}/{output}")?,
    };
    Ok(Some(name))
}

/// Notes the files that a run reads.
fn note_inputs<'a, R: Files>(
    rt: &R,
    files: &mut FoundFiles<Taken<'a>>,
    names: Names<'_, 'a>,
) -> Result<(), AllocError> {
    files.note(rt, Path::new(names.settings), Taken::Named(names.settings))?;
    if let Some(name) = names.changes {
        files.note(rt, Path::new(name), Taken::Named(name))?;
    }
    if let Some(name) = names.digests {
        files.note(rt, Path::new(name), Taken::Named(name))?;
    }
    let underlay = Path::new(file_of(names.underlay));
    files.note(rt, underlay, Taken::Named(names.underlay))?;
    for name in names.ports {
        files.note(rt, Path::new(file_of(*name)), Taken::Named(*name))?;
    }
    Ok(())
}

/// Notes the files that a run may leave in its folder.
fn note_outputs<R: Files>(
    rt: &R,
    alloc: Global,
    files: &mut FoundFiles<Taken<'_>>,
    folder: &str,
) -> Result<(), AllocError> {
    for index in 0..FILES_OF_A_RUN {
        let output = file_of_run(index);
        let path = path_of(alloc, folder, output)?;
        files.note(rt, path.as_path(), Taken::Output(output))?;
    }
    Ok(())
}

/// The file that a name stands for.
fn path_asked(name: &str) -> &str {
    if name == STANDARD_OUTPUT {
        STANDARD_OUTPUT_FILE
    } else {
        name
    }
}

/// That a file couldn't be written.
fn unwritten(alloc: Global, name: &str, why: Unwritten) -> Failure<'static> {
    match String::from_str(alloc, name) {
        Ok(path) => Failure::Unwritten(UnwrittenFile { path, why }),
        Err(error) => Failure::from(error),
    }
}

impl<'r, 'n, 'a, R: Files + AllocGlobal + Print> SideFile<'r, 'n, 'a, R> {
    /// Opens the file, and empties it where it is a regular one and no file that is read or another output.
    fn open(&mut self) -> io::Result<OutputDevice<R::File>> {
        let file = match OpenOptions::new()
            .write(true)
            .create(true)
            .open(self.rt, self.asked.name)
        {
            Ok(file) => file,
            Err(error) => return Err(self.refused(error)),
        };
        match taken_as(self.rt, self.rt.alloc(), self.asked) {
            Ok(None) => {}
            Ok(Some(name)) => {
                self.why = Some(Unwritten::Is(name));
                return Err(io::Error::from(ErrorKind::Other));
            }
            Err(_) => return Err(io::Error::from(ErrorKind::OutOfMemory)),
        }
        if let Err(error) = empty(&file) {
            return Err(self.refused(error));
        }
        Ok(OutputDevice::new(file))
    }

    /// Keeps what the system told.
    fn refused(&mut self, error: io::Error) -> io::Error {
        self.why = Some(Unwritten::of(SystemFault::of(&error)));
        error
    }

    /// Opens the file where it wasn't yet.
    fn make(&mut self) -> io::Result<()> {
        if self.file.is_none() && self.asked.name != STANDARD_OUTPUT {
            let file = self.open()?;
            self.file = Some(file);
        }
        Ok(())
    }

    /// Writes to the file, which is opened where it wasn't yet.
    fn write_file(&mut self, octets: &[u8]) -> io::Result<usize>
        ensures { WritesAtMost result octets.now }
    {
        self.make()?;
        match &mut self.file {
            Some(file) => file.write(octets),
            None => Err(io::Error::from(ErrorKind::Other)),
        }
    }

    /// Writes to standard output. Where its reader went away it had enough, and nothing is lost.
    fn write_out(&mut self, octets: &[u8]) -> io::Result<usize>
        ensures { WritesAtMost result octets.now }
    {
        if self.is_left {
            return Ok(octets.len());
        }
        let error = match io::writer(self.rt).write(octets) {
            Ok(count) => return Ok(count),
            Err(error) => error,
        };
        if error.kind() == ErrorKind::BrokenPipe {
            self.is_left = true;
            return Ok(octets.len());
        }
        if error.kind() == ErrorKind::Interrupted {
            return Err(error);
        }
        Err(self.refused(error))
    }

    /// Why it couldn't be written.
    fn into_failure(self) -> Failure<'static> {
        let SideFile {
            rt,
            asked,
            file,
            why,
            ..
        } = self;
        let told = match file {
            Some(file) => Unwritten::of(file.fault()),
            None => Unwritten::Untold,
        };
        unwritten(rt.alloc(), asked.name, why.unwrap_or(told))
    }
}

/// Takes what stands in a regular file out of it.
fn empty<F: OpenFile>(file: &F) -> io::Result<()> {
    if file.metadata()?.is_file() {
        file.set_len(0)
    } else {
        Ok(())
    }
}

impl<'r, 'n, 'a, R: Files + AllocGlobal + Print> Write for SideFile<'r, 'n, 'a, R> {
    ghost contents = { λ _. None };

    fn write(&mut self, octets: &[u8]) -> io::Result<usize> {
        if self.asked.name == STANDARD_OUTPUT {
            self.write_out(octets)
        } else {
            self.write_file(octets)
        }
    }

    fn flush(&mut self) -> io::Result<()> {
        Ok(())
    }
}
