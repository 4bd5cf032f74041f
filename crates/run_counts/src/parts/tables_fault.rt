//! Why a text is none of tables.
use std::alloc::AllocError;
use thiserror::Error;

/// Why a text is none of tables. It prints as one line.
#[derive(Clone, Copy, Debug, PartialEq, Eq, Error)]
pub enum TablesFault {
    /// A growth was refused.
    #[error("memory")]
    OutOfMemory,
    /// The line of this number, from 1, is none of a segment that is asked for, or has no line feed.
    #[error("line {0}")]
    Line(usize),
}

impl From<AllocError> for TablesFault {
    fn from(_error: AllocError) -> TablesFault {
        TablesFault::OutOfMemory
    }
}
