//! Why a line is no decision line.

/// The first thing that is wrong with a decision line.
#[derive(Clone, Copy, Debug, PartialEq, Eq, thiserror::Error)]
pub enum LineFault {
    /// A field is no number where one stands, or none that there can be: a VID of 1 to 4094 or `-`, a reason of 1 to 40, a
    /// cause of 1 to 255.
    #[error("Number")]
    Number,
    /// A field is missing or empty.
    #[error("Fields")]
    Fields,
    /// A source is none of `c`, `p1` to `p255` and `u`, or a word of the result is no outcome at a place.
    #[error("Place")]
    Place,
}
