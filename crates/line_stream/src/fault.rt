//! Why no line is lent.
use thiserror::Error;

/// Why no line is lent.
#[derive(Clone, Copy, Debug, PartialEq, Eq, Error)]
pub enum LinesFault {
    /// A read failed.
    #[error("Read")]
    Read,
    /// The next 131,072 octets have no line feed.
    #[error("TooLong")]
    TooLong,
}
