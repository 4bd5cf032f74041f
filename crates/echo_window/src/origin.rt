//! Which record brought a frame.

/// Which record of which capture.
#[derive(Clone, Copy, Debug, PartialEq, Eq)]
pub struct Origin {
    /// Where it was captured: 0 for the underlay, and the number of a local port.
    pub place: u8,
    /// Its number in its capture.
    pub number: u64,
    /// Nanoseconds.
    pub moment: u64,
}
