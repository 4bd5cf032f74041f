//! The first drops.

use timeline::Source;

/// The first event for which a reason was met: it was dropped, or wasn't sent at an outlet.
#[derive(Clone, Copy)]
pub struct FirstDrop {
    /// Its number, from 1.
    pub event: u64,
    /// Its moment, in nanoseconds.
    pub moment: u64,
    /// Where it came from.
    pub source: Source,
    /// The number of the record in its source, from 1.
    pub number: u64,
    /// The VID of its segment, where there is one.
    pub segment: Option<u16>,
    /// The number of the reason, 1 to 40.
    pub reason: u8,
}
