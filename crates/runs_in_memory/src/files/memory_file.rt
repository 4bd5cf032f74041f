//! A file in memory.
ghost use Rattle.std.specs.Prelude.{◌≡◌, []};

use std::alloc::Global;
use std::fs::{Metadata, OpenFile};
use std::io::{self, ErrorKind, Read, Seek, SeekFrom, Write};

/// A file in memory: octets that are read one after another, or those that were written to it so.
#[derive(Drop)]
pub struct MemoryFile<'a> {
    left: &'a [u8],
    held: Vec<u8>,
}

impl<'a> MemoryFile<'a> {
    /// A file that has these octets left, and to which nothing was written.
    pub fn new(alloc: Global, octets: &'a [u8]) -> MemoryFile<'a>
        ensures left { result.left.now ≡ octets.now }
        ensures held { result.held.items ≡ [] }
    {
        MemoryFile {
            left: octets,
            held: Vec::new(alloc),
        }
    }
}

impl Read for MemoryFile<'_> {
    ghost use Rattle.runs_in_memory.specs.Memory.{file_left};

    ghost remaining = { file_left };

    fn read(&mut self, octets: &mut [u8]) -> io::Result<usize> {
        self.left.read(octets)
    }
}

impl Write for MemoryFile<'_> {
    ghost use Rattle.runs_in_memory.specs.Memory.{file_holds};

    ghost contents = { file_holds };

    fn write(&mut self, octets: &[u8]) -> io::Result<usize> {
        self.held.write(octets)
    }

    fn flush(&mut self) -> io::Result<()> {
        self.held.flush()
    }
}

impl Seek for MemoryFile<'_> {
    fn seek(&mut self, _to: SeekFrom) -> io::Result<u64> {
        Err(io::Error::from(ErrorKind::Unsupported))
    }
}

impl OpenFile for MemoryFile<'_> {
    fn metadata(&self) -> io::Result<Metadata> {
        Ok(Metadata::of_file(self.held.len() as u64))
    }

    /// It can be as long as it is.
    fn set_len(&self, size: u64) -> io::Result<()> {
        if size == self.held.len() as u64 {
            Ok(())
        } else {
            Err(io::Error::from(ErrorKind::Unsupported))
        }
    }

    fn sync_all(&self) -> io::Result<()> {
        Ok(())
    }

    fn sync_data(&self) -> io::Result<()> {
        Ok(())
    }
}
