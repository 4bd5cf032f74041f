//! Why a source gives no record, and why a sink takes none.
ghost use Rattle.std.specs.Prelude.{◌≡◌};
ghost use Rattle.pcap.specs.Fault.{capture_fault, record_fault};

use crate::text::{CaptureFault, RecordFault};
use thiserror::Error;

/// Why a source gives no record.
#[derive(Clone, Copy, Debug, PartialEq, Eq, Error)]
pub enum SourceFault {
    /// A read failed, or one more was needed than the source may make.
    #[error("Read")]
    Read,
    /// It is no capture: fewer than 24 octets, another magic number or another version than 2.4.
    #[error("NotPcap")]
    NotPcap,
    /// Its link type isn't 1, Ethernet.
    #[error("BadLink")]
    BadLink,
    /// A record claims more than 262,144 octets.
    #[error("TooLarge")]
    TooLarge,
    /// A record's fraction is a second or more.
    #[error("BadFraction")]
    BadFraction,
}

impl From<CaptureFault> for SourceFault {
    ghost from_gives = { λ fault made. made ≡ capture_fault fault };

    fn from(fault: CaptureFault) -> SourceFault {
        match fault {
            CaptureFault::NotPcap => SourceFault::NotPcap,
            CaptureFault::BadLink => SourceFault::BadLink,
        }
    }
}

impl From<RecordFault> for SourceFault {
    ghost from_gives = { λ fault made. made ≡ record_fault fault };

    fn from(fault: RecordFault) -> SourceFault {
        match fault {
            RecordFault::TooLarge => SourceFault::TooLarge,
            RecordFault::BadFraction => SourceFault::BadFraction,
        }
    }
}

/// A write failed, or took none of some octets.
#[derive(Clone, Copy, Debug, PartialEq, Eq, Error)]
#[error("Write")]
pub struct WriteFault;
