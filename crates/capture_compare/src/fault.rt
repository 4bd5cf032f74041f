//! Why two captures aren't compared to their ends.
ghost use Rattle.std.specs.Prelude.{◌≡◌};
ghost use Rattle.capture_compare.specs.Turns.{source_fault};

use pcap::stream::SourceFault;
use pcap::text::{CaptureFault, RecordFault};
use std::fmt;
use thiserror::Error;

/// Which of the two captures.
#[derive(Clone, Copy, Debug, PartialEq, Eq)]
pub enum Side {
    /// What was sent.
    Sent,
    /// What was received.
    Received,
}

impl fmt::Display for Side {
    fn fmt<W: fmt::Write>(&self, f: &mut fmt::Formatter<W>) -> fmt::Result {
        let word = match self {
            Side::Sent => "sent",
            Side::Received => "received",
        };
        write!(f, "{word}")
    }
}

/// Why two captures aren't compared to their ends.
#[derive(Clone, Copy, Debug, PartialEq, Eq, Error)]
pub enum CompareFault {
    /// A read of this one failed. Of a pcapng capture the input tells its fault, where it met one.
    #[error("{0}: Read")]
    Read(Side),
    /// The global header of this one is refused.
    #[error("{0}: {1}")]
    Header(Side, CaptureFault),
    /// The record of this number, from 1, isn't read.
    #[error("{0}: {2} {1}")]
    Record(Side, u64, RecordFault),
    /// At this moment, in nanoseconds, more records or octets than a window holds would be awaited.
    #[error("at {0}: WindowFull")]
    Full(u64),
}

/// The fault of a capture at its record of this number.
pub(crate) fn source_fault(side: Side, number: u64, fault: SourceFault) -> CompareFault
    ensures { result ≡ source_fault side number fault }
{
    match fault {
        SourceFault::Read => CompareFault::Read(side),
        SourceFault::NotPcap => CompareFault::Header(side, CaptureFault::NotPcap),
        SourceFault::BadLink => CompareFault::Header(side, CaptureFault::BadLink),
        SourceFault::TooLarge => CompareFault::Record(side, number, RecordFault::TooLarge),
        SourceFault::BadFraction => CompareFault::Record(side, number, RecordFault::BadFraction),
    }
}
