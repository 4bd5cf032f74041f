//! Why a list of segments is refused.
use thiserror::Error;

/// Why a list of segments is refused. It prints as one line.
#[derive(Clone, Copy, Debug, Drop, PartialEq, Eq, Error)]
pub enum ListFault {
    /// An item is empty, or the whole list is.
    #[error("an item of the list is empty")]
    Empty,
    /// An item is no VID of 1 to 4094, no range of them, and not `none`.
    #[error("an item of the list is no VID of 1 to 4094, no range of them and not 'none'")]
    BadVid,
    /// A range ends below its begin.
    #[error("a range of the list ends below its begin")]
    BadRange,
    /// Two items ask for the same.
    #[error("two items of the list ask for the same")]
    Doubled,
}
