//! What may be wrong with a part of a run.
use crate::fault::LineFault;
use pcap::stream::SourceFault;
use thiserror::Error;
use timeline::Tap;

/// What is wrong with a capture of a part.
#[derive(Clone, Copy, Debug, PartialEq, Eq, Error)]
pub enum RecordsFault {
    /// It is no capture, or a record of it can't be read. Never `Read`.
    #[error("{0}")]
    Source(SourceFault),
    /// It ends, with a cut rest or without, before its lines do.
    #[error("Missing")]
    Missing,
    /// It has more records than its lines tell, or a cut rest behind them.
    #[error("LeftOver")]
    LeftOver,
    /// A record holds only a front of its frame: a run writes no such records.
    #[error("Sliced")]
    Sliced,
}

/// What is wrong with a part.
#[derive(Clone, Copy, Debug, PartialEq, Eq, Error)]
pub enum PartFault {
    /// A decision line has more than 131,072 octets.
    #[error("long line")]
    LongLine,
    /// A line is no decision line.
    #[error("line {0}")]
    Line(LineFault),
    /// An event's line stands behind that of a cut capture.
    #[error("event behind a cut capture")]
    Late,
    /// It has another number of captures than the outputs.
    #[error("ports")]
    Ports,
    /// It has more lines of cut captures than there can be captures, 256.
    #[error("too many cut captures")]
    Cuts,
    /// The event of this number stands twice, here or here and in another part.
    #[error("event {0} doubled")]
    Doubled(u64),
    /// The event of this number stands behind one of a greater number.
    #[error("event {0} behind a later one")]
    Falls(u64),
    /// A line says that something was sent at this capture, of which there is none.
    #[error("{0} isn't there")]
    NoCapture(Tap),
    /// What is wrong with this capture.
    #[error("{0} {1}")]
    Capture(Tap, RecordsFault),
}
