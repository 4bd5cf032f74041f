//! Why a line can't be read.

/// What is wrong with a decision line.
#[derive(Clone, Copy, Debug, PartialEq, Eq, thiserror::Error)]
pub enum LineFault {
    /// It doesn't end with a line feed.
    #[error("NoEnd")]
    NoEnd,
    /// Its first word is neither a number below 2^64 nor `cut`.
    #[error("Number")]
    Number,
    /// It has fewer than six fields.
    #[error("Fields")]
    Fields,
    /// A word of its result has a `=`, and before that no place: nothing, or a `p` and no number below 256 behind it.
    #[error("Place")]
    Place,
}
