//! Why a capture isn't split, or not whole.
use crate::faults::one_line::OneLine;
use crate::faults::system_fault::SystemFault;
use pcapng_input::PcapngFault;
use std::fmt;
use thiserror::Error;

/// Why a capture isn't split, or not whole.
#[derive(Debug, Drop, Error)]
pub enum SplitFailure {
    /// Its name asks for one interface.
    #[error("one interface is named, and a capture is split into all of them")]
    OneInterface,
    /// It describes more interfaces than there are files for.
    #[error("more than 256 interfaces")]
    TooManyInterfaces,
    /// It is refused for all its interfaces.
    #[error("{0}")]
    Capture(PcapngFault),
    /// It is refused where the interface with this number alone is asked for.
    #[error("interface {0}: {1}")]
    Interface(u32, PcapngFault),
}

/// A file that couldn't be written, and why.
#[derive(Debug, Drop)]
pub struct UnwrittenFile {
    pub path: String,
    pub why: Unwritten,
}

/// Why a file couldn't be written.
#[derive(Debug, Drop)]
pub enum Unwritten {
    /// It is one of those that are read, or nobody told why.
    Untold,
    /// The system told why.
    Refused(SystemFault),
    /// It is the file of this name, which is not to be written for it.
    Is(String),
}

impl Unwritten {
    /// What the system told, where it told it.
    pub fn of(fault: Option<SystemFault>) -> Unwritten {
        match fault {
            Some(fault) => Unwritten::Refused(fault),
            None => Unwritten::Untold,
        }
    }
}

impl fmt::Display for UnwrittenFile {
    fn fmt<W: fmt::Write>(&self, f: &mut fmt::Formatter<W>) -> fmt::Result {
        let path = OneLine(self.path.as_str());
        write!(f, "{path}")?;
        match &self.why {
            Unwritten::Untold => Ok(()),
            Unwritten::Refused(fault) if fault.is_not_there() => f.write_str(": no such folder"),
            Unwritten::Refused(fault) => write!(f, ": {fault}"),
            Unwritten::Is(name) => {
                let name = OneLine(name.as_str());
                write!(f, ": it is {name} itself")
            }
        }
    }
}
