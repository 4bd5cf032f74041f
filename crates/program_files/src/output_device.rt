//! A file that is written, and why a write into it failed.
ghost use Rattle.std.specs.Prelude.{◌≡◌};

use crate::faults::SystemFault;
use std::io::{self, ErrorKind, Write};

/// A file that is written. It keeps what the system told of the last write that failed.
#[derive(Drop)]
pub struct OutputDevice<F: Write + Drop> {
    file: F,
    fault: Option<SystemFault>,
}

impl<F: Write + Drop> OutputDevice<F> {
    /// A file of which no write has failed.
    pub fn new(file: F) -> OutputDevice<F>
        ensures { result.file ≡ file }
    {
        OutputDevice { file, fault: None }
    }

    /// The file.
    pub fn file(&self) -> &F
        ensures { result.now ≡ self.now.file }
    {
        &self.file
    }

    /// What the system told of the last write that failed and wasn't tried again.
    pub fn fault(&self) -> Option<SystemFault> {
        self.fault
    }
}

impl<F: Write + Drop> Write for OutputDevice<F> {
    ghost contents = { λ d. F.contents d.file };

    fn write(&mut self, octets: &[u8]) -> io::Result<usize> {
        match self.file.write(octets) {
            Ok(count) => Ok(count),
            Err(error) => {
                if error.kind() != ErrorKind::Interrupted {
                    self.fault = SystemFault::of(&error);
                }
                Err(error)
            }
        }
    }

    fn flush(&mut self) -> io::Result<()> {
        self.file.flush()
    }
}
