//! Why decision lines don't tell the events of records.
use part_lines::LineFault;
use thiserror::Error;

/// Why the decision lines of a run don't tell the event of a record.
#[derive(Clone, Copy, Debug, PartialEq, Eq, Error)]
pub enum DecisionsFault {
    /// A line has more than 131,072 octets.
    #[error("long line")]
    LongLine,
    /// A line is no decision line.
    #[error("line {0}")]
    Line(LineFault),
    /// The event of this number stands behind one of the same or a greater number.
    #[error("event {0} behind a later one")]
    Falls(u64),
    /// They tell of fewer records of the place.
    #[error("too few lines")]
    Few,
}
