//! Why the event of a record isn't told.

use part_lines::LineFault;
use thiserror::Error;

/// Why the event of a record isn't told.
#[derive(Clone, Copy, Debug, PartialEq, Eq, Error)]
pub enum EventFault {
    /// A read failed.
    #[error("Read")]
    Read,
    /// A decision line has more than 131,072 octets.
    #[error("long line")]
    LongLine,
    /// A line is no decision line.
    #[error("line {0}")]
    Line(LineFault),
    /// The event of this number stands behind one of the same or a greater number.
    #[error("event {0} behind a later one")]
    Falls(u64),
    /// The lines tell of fewer records of the place.
    #[error("too few lines")]
    Few,
    /// The record stands in front of those of the event that was told last.
    #[error("passed")]
    Passed,
}
