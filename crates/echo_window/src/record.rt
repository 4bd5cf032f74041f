//! Records of captures.

use crate::frame_text::FrameText;
use crate::place_set::PlaceSet;

/// What a record of a capture tells of a frame.
#[derive(Clone, Copy, Debug)]
pub struct Record<'a> {
    /// Where it was captured: 0 for the underlay, and the number of a local port.
    pub place: u8,
    /// Its number in its capture, if it came in.
    pub number: u64,
    /// Nanoseconds.
    pub moment: u64,
    /// The frame's octets without its VLAN tag.
    pub frame: &'a FrameText<'a>,
    /// Where it may be met again, if it came in.
    pub awaited: &'a PlaceSet,
}
