//! What a program runs on in memory.
ghost use Rattle.std.specs.Prelude.{◌≡◌, [], true, false, IfOk};
ghost use Rattle.std.specs.Fs.{asks_write};
ghost use Rattle.runs_in_memory.specs.Memory.{StandsUnder};

use crate::files::memory_file::MemoryFile;
use std::alloc::{Allocator, Global};
use std::fs::{Metadata, OpenOptions};
use std::io::{self, BufRead, ErrorKind, Input, Lines};
use std::rt::Files;

/// A text that stands under a name.
#[derive(Clone, Copy)]
pub struct NamedText<'a> {
    pub name: &'a str,
    pub octets: &'a [u8],
}

/// Files in memory, and standard input. A file that is opened to be written holds nothing at first, and is gone where it is
/// closed.
#[derive(Clone, Copy)]
pub struct Memory<'a> {
    pub alloc: Global,
    /// What can be read.
    pub files: &'a [NamedText<'a>],
    pub input: &'a [u8],
}

impl<'a> Memory<'a> {
    /// What stands under a name.
    fn find(&self, path: &str) -> io::Result<&'a [u8]>
        ensures { IfOk result (λ octets. StandsUnder self.now.files.now path.now octets.now) }
    {
        for file in self.files {
            if file.name == path {
                return Ok(file.octets);
            }
        }
        Err(io::Error::from(ErrorKind::NotFound))
    }
}

impl Alloc for Memory<'_> {
    type A = Global;

    fn alloc(&self) -> Global {
        self.alloc
    }
}

impl<'a> Input for Memory<'a> {
    type Reader = &'a [u8];

    fn read_line<A: Allocator + Clone>(&self, buf: &mut String<A>) -> io::Result<usize> {
        let mut input = self.input;
        input.read_line(buf)
    }

    fn lines<A: Allocator>(&self, alloc: A) -> Lines<&'a [u8], A> {
        self.input.lines(alloc)
    }

    fn reader(&self) -> &'a [u8] {
        self.input
    }
}

impl<'a> Files for Memory<'a> {
    type File = MemoryFile<'a>;

    type Dir = &'a [u8];

    fn open_file(&self, how: &OpenOptions, path: &str) -> io::Result<MemoryFile<'a>>
        ensures read { asks_write how.now ≡ false → IfOk result (λ file. StandsUnder self.now.files.now path.now file.left.now) }
        ensures written { asks_write how.now ≡ true → IfOk result (λ file. file.left.now ≡ []) }
        ensures new { IfOk result (λ file. file.held.items ≡ []) }
    {
        how.check()?;
        if how.asks_write() {
            return Ok(MemoryFile::new(self.alloc, &[]));
        }
        Ok(MemoryFile::new(self.alloc, self.find(path)?))
    }

    fn open_dir(&self, _path: &str) -> io::Result<&'a [u8]> {
        Err(io::Error::from(ErrorKind::Unsupported))
    }

    fn metadata(&self, path: &str) -> io::Result<Metadata> {
        Ok(Metadata::of_file(self.find(path)?.len() as u64))
    }

    fn symlink_metadata(&self, path: &str) -> io::Result<Metadata> {
        self.metadata(path)
    }

    fn copy(&self, _from: &str, _to: &str) -> io::Result<u64> {
        Err(io::Error::from(ErrorKind::Unsupported))
    }

    fn rename(&self, _from: &str, _to: &str) -> io::Result<()> {
        Err(io::Error::from(ErrorKind::Unsupported))
    }

    fn remove_file(&self, _path: &str) -> io::Result<()> {
        Err(io::Error::from(ErrorKind::NotFound))
    }

    fn create_dir(&self, _path: &str) -> io::Result<()> {
        Err(io::Error::from(ErrorKind::Unsupported))
    }

    fn remove_dir(&self, _path: &str) -> io::Result<()> {
        Err(io::Error::from(ErrorKind::Unsupported))
    }

    fn remove_dir_all<B: Allocator>(&self, _alloc: B, _path: &str) -> io::Result<()> {
        Err(io::Error::from(ErrorKind::Unsupported))
    }
}
